// What an entity was at each version.
ghost use Rattle.std.specs.Prelude.{◌≡◌, ◌≤◌, ◌++◌, ◌∷◌, [], if◌then◌else◌, IfOk, OnOk, map, length};
ghost use Rattle.seam_rule_rounds.specs.Prelude.{client_of, same_shown, same_state, same_values, flat, has_changed_at, changes_past};
ghost use Rattle.seam_rule_rounds.specs.Prelude.{public_at};
ghost use Rattle.seam_defs.specs.Deeds.{projected};
ghost use Rattle.seam_defs.specs.declared.flags.Group.TheVariants as group;

use seam_call::{Call, Create};
use seam_defs::{Group, Part, Props, State, TypeDef};
use seam_judge_data::Same;
use seam_rule_lines::Header;
use std::alloc::{AllocError, Global};

/// The state of a part after the first `version` calls of its order.
pub fn state_at(
    header: &Header,
    part: Part,
    create: Create,
    order: &[&Call],
    version: usize,
) -> Result<State, AllocError>
    ensures { IfOk result (λ s. s ≡ flat header.now part create (map (λ c. c.now) order.now)
        version) }
{
    let props = header.defs.type_at(create.ty).start_props(part.held())?;
    let mut state = State {
        pos: create.pos,
        props,
    };
    for v in 0..version.min(order.len()) {
        let call = order[v];
        let _changed = header
            .defs
            .type_at(create.ty)
            .apply(&mut state, &call.deed)?;
    }
    Ok(state)
}

/// A state with those values of a cell part that are in a group.
pub fn state_shown(ty: &TypeDef, state: &State, to: Group) -> Result<State, AllocError>
    ensures { IfOk result (λ s. s ≡ record {
      pos = state.now.pos;
      props = projected ty.now.properties group.Real to state.now.props;
    }) }
{
    Ok(State {
        pos: state.pos,
        props: ty.project_group(Group::Real, &state.props, to)?,
    })
}

/// What the own client is shown of a state of the base part.
pub fn base_shown(ty: &TypeDef, state: &State) -> Result<Props, AllocError>
    ensures { IfOk result (λ props. props ≡ client_of ty.now.properties state.now) }
{
    ty.project_group(Group::Base, &state.props, Group::BaseClient)
}

fn are_same_states(a: &State, b: &State) -> bool
    ensures { result ≡ same_state a.now b.now }
{
    a.is(b)
}

fn are_same_props(a: &Props, b: &Props) -> bool
    ensures { result ≡ same_values a.now b.now }
{
    a.is(b)
}

// Whether what others may see of a part is the same in two states.
fn is_shown_same(ty: &TypeDef, part: Part, old: &State, new: &State) -> Result<bool, AllocError>
    ensures { IfOk result (λ same. same ≡ same_shown ty.now.properties part old.now new.now) }
{
    match part {
        Part::Cell => {
            let was = state_shown(ty, old, Group::Ghost)?;
            let is = state_shown(ty, new, Group::Ghost)?;
            Ok(are_same_states(&was, &is))
        }
        Part::Base => {
            let was = base_shown(ty, old)?;
            let is = base_shown(ty, new)?;
            Ok(are_same_props(&was, &is))
        }
    }
}

// Whether what others may see of a part changed at a version, from 1 on.
fn has_changed_at(
    header: &Header,
    part: Part,
    create: Create,
    order: &[&Call],
    version: usize,
) -> Result<bool, AllocError>
    requires { 1 ≤ version }
    ensures { IfOk result (λ changed. changed ≡ has_changed_at header.now part create
        (map (λ c. c.now) order.now) version) }
{
    let old = state_at(header, part, create, order, version - 1)?;
    let new = state_at(header, part, create, order, version)?;
    let same = is_shown_same(header.defs.type_at(create.ty), part, &old, &new)?;
    Ok(!same)
}

/// The public version at a version.
pub fn public_at(
    header: &Header,
    create: Create,
    order: &[&Call],
    version: usize,
) -> Result<usize, AllocError>
    ensures value { IfOk result (λ v. v ≡ public_at header.now create (map (λ c. c.now) order.now)
        version) }
    ensures at_most { IfOk result (λ v. v ≤ version) }
{
    let mut public = version;
    while public > 0 {
        let changed = has_changed_at(header, Part::Cell, create, order, public)?;
        if changed {
            return Ok(public);
        }
        public -= 1;
    }
    Ok(0)
}

/// The versions past one, up to the last, at which what others may see of a part changed, in rising order.
pub fn changes_past(
    alloc: Global,
    header: &Header,
    part: Part,
    create: Create,
    order: &[&Call],
    version: usize,
) -> Result<Vec<usize>, AllocError>
    ensures { IfOk result (λ vs. vs.items ≡ changes_past header.now part create
        (map (λ c. c.now) order.now) version (length order.now)) }
{
    let mut changes = Vec::new(alloc);
    for v in version..order.len() {
        let changed = has_changed_at(header, part, create, order, v + 1)?;
        add_change(&mut changes, v + 1, changed)?;
    }
    Ok(changes)
}

// Adds a version, if something changed at it.
fn add_change(changes: &mut Vec<usize>, version: usize, changed: bool) -> Result<(), AllocError>
    ensures { OnOk result (changes.new.items ≡ changes.old.items ++ (if changed then version ∷ []
        else [])) }
{
    if changed {
        changes.push(version)?;
    }
    Ok(())
}
