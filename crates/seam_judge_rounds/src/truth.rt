// What is true of entities in a round.
ghost use Rattle.std.specs.Prelude.{◌≡◌, ◌↔◌, ◌≤◌, ℕ, IsTrue, IfOk, length, map};
ghost use Rattle.std.specs.List.{All};
ghost use Rattle.seam_rule_rounds.specs.Prelude.{ShowsTruth, public_at, other_at, IsOwn, IsOther, truth_of};
ghost use Rattle.seam_judge_data.specs.Standings.{standing_of};

use crate::case::{Case, created_as};
use seam_call::{Call, Create, GhostCopy, Shown};
use seam_defs::{Part, State};
use seam_judge_data::Same;
use seam_judge_expected::{has_died, public_at};
use seam_judge_looks::{other_at, own_at};
use seam_rule_lines::Header;
use std::alloc::{AllocError, Global};

// Whether an entity's client may be shown its state at a version: one that it had in the round, and its own group then.
fn is_own(
    alloc: Global,
    case: &Case<'_>,
    create: Create,
    version: u64,
    state: &State,
) -> Result<bool, AllocError>
    ensures { IfOk result (λ r. IsTrue r ↔ IsOwn case.now.header.now
        (standing_of case.now.before.now) (standing_of case.now.after.now) create version
        state.now) }
{
    let former = case.before.order_of(alloc, Part::Cell, create.entity)?;
    let order = case.after.order_of(alloc, Part::Cell, create.entity)?;
    let began = former.as_slice().len() as u64;
    let ended = order.as_slice().len() as u64;
    if version < began {
        return Ok(false);
    }
    if ended < version {
        return Ok(false);
    }
    let own = own_at(case.header, create, &order, version as usize)?;
    Ok(state.is(&own))
}

// Whether a copy is what others are shown of an entity at a version.
fn is_copy_at(
    header: &Header,
    create: Create,
    order: &[&Call],
    version: usize,
    copy: &GhostCopy,
) -> Result<bool, AllocError>
    ensures { IfOk result (λ r. IsTrue r ↔ (copy.now ≡ other_at header.now create
        (map (λ c. c.now) order.now) (public_at header.now create
        (map (λ c. c.now) order.now) version))) }
{
    let public = public_at(header, create, order, version)?;
    let other = other_at(header, create, order, public)?;
    Ok(copy.is(&other))
}

// Whether it is that at some version from one on.
fn is_some_copy(
    header: &Header,
    create: Create,
    order: &[&Call],
    began: usize,
    copy: &GhostCopy,
) -> Result<bool, AllocError>
    ensures { IfOk result (λ r. IsTrue r ↔ ((v : ℕ) × (began ≤ v) × (v ≤ length order.now)
        × (copy.now ≡ other_at header.now create (map (λ c. c.now) order.now)
        (public_at header.now create (map (λ c. c.now) order.now) v)))) }
{
    if order.len() < began {
        return Ok(false);
    }
    for version in began..order.len() {
        let same = is_copy_at(header, create, order, version, copy)?;
        if same {
            return Ok(true);
        }
    }
    is_copy_at(header, create, order, order.len(), copy)
}

// Whether other clients may be shown a copy of an entity.
fn is_other(
    alloc: Global,
    case: &Case<'_>,
    entity: u32,
    copy: &GhostCopy,
) -> Result<bool, AllocError>
    ensures { IfOk result (λ r. IsTrue r ↔ IsOther case.now.header.now
        (standing_of case.now.before.now) (standing_of case.now.after.now) entity copy.now) }
{
    let Some(create) = created_as(alloc, case.before, entity)? else {
        return Ok(false);
    };
    if has_died(&case.before.past, entity) {
        return Ok(false);
    }
    let former = case.before.order_of(alloc, Part::Cell, create.entity)?;
    let order = case.after.order_of(alloc, Part::Cell, entity)?;
    let began = former.as_slice().len();
    is_some_copy(case.header, create, &order, began, copy)
}

// Whether what the client of an entity is shown is true.
fn is_true(alloc: Global, case: &Case<'_>, create: Create, x: &Shown) -> Result<bool, AllocError>
    ensures { IfOk result (λ r. IsTrue r ↔ ShowsTruth (truth_of case.now.header.now
        (standing_of case.now.before.now) (standing_of case.now.after.now) create) x.now) }
{
    match x {
        Shown::Own(version, state) => is_own(alloc, case, create, *version, state.get()),
        Shown::Enter(entity, copy) => is_other(alloc, case, *entity, copy.get()),
        Shown::Set(entity, copy) => is_other(alloc, case, *entity, copy.get()),
        Shown::Leave(_) => Ok(true),
    }
}

/// Whether all that the client of an entity is shown in a round is true: its own group at versions that it had in the round, and other
/// entities, which were not dead before, as they were for others at versions that they had in it.
pub fn are_true(
    alloc: Global,
    case: &Case<'_>,
    create: Create,
    shown: &[&Shown],
) -> Result<bool, AllocError>
    ensures { IfOk result (λ r. IsTrue r ↔ All (λ x. ShowsTruth
        (truth_of case.now.header.now (standing_of case.now.before.now)
        (standing_of case.now.after.now) create) x.now) shown.now) }
{
    for x in shown {
        let so = is_true(alloc, case, create, x)?;
        if !so {
            return Ok(false);
        }
    }
    Ok(true)
}
