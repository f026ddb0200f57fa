// The lines of clients.
ghost use Rattle.std.specs.Prelude.{◌≡◌, ◌++◌, ◌∷◌, [], OnOk, codes};
ghost use Rattle.seam_rule_rounds.specs.Prelude.{decimal_of, values_text, field, state_text, client_text};
ghost use Rattle.seam_call.specs.declared.shown.ClientText.TheVariants as client;
ghost use Rattle.seam_defs.specs.declared.flags.Group.TheVariants as group;
ghost use Rattle.seam_report.specs.Spelled.{Versions, GoesBy, ShowsOf, copy_text};

use crate::spellings::Spellings;
use crate::values::{LONGEST_FIELD, push_field, write_field};
use seam_call::{ClientText, GhostCopy, Line, Shown};
use seam_defs::{Defs, Group, Props, State, TypeDef};
use std::alloc::AllocError;

/// Appends a line that the client of an entity of a type is shown; what was spelled of a copy that was shown before is not spelled again.
pub fn push_client<'a>(
    out: &mut Vec<u8>,
    spellings: &mut Spellings<'a>,
    entity: u32,
    ty: u16,
    line: &'a Line,
) -> Result<(), AllocError>
    ensures text { (vs : Versions) → GoesBy vs spellings.old → ShowsOf vs line.now.text →
        OnOk result (out.new.items ≡ out.old.items ++ client_text spellings.old.defs
        (record { entity = entity; ty = ty; line = line.now })) }
    ensures kept { (vs : Versions) → GoesBy vs spellings.old → ShowsOf vs line.now.text →
        OnOk result (GoesBy vs spellings.new) }
    ensures defs { spellings.new.defs ≡ spellings.old.defs }
{
    match &line.text {
        ClientText::Shown(shown) => push_shown(out, spellings, entity, ty, line.number, shown),
        ClientText::Base(version, props) => {
            let t = spellings.defs().type_at(ty);
            push_base_part(out, t, entity, line.number, *version, props)
        }
    }
}

// A line about cell parts.
fn push_shown<'a>(
    out: &mut Vec<u8>,
    spellings: &mut Spellings<'a>,
    entity: u32,
    ty: u16,
    number: u64,
    shown: &'a Shown,
) -> Result<(), AllocError>
    ensures text { (vs : Versions) → GoesBy vs spellings.old → ShowsOf vs (client.Shown shown.now) →
        OnOk result (out.new.items ≡ out.old.items ++ client_text spellings.old.defs
        (record {
          entity = entity;
          ty = ty;
          line = record {
            number = number;
            text = client.Shown shown.now;
          };
        })) }
    ensures kept { (vs : Versions) → GoesBy vs spellings.old → ShowsOf vs (client.Shown shown.now) →
        OnOk result (GoesBy vs spellings.new) }
    ensures defs { spellings.new.defs ≡ spellings.old.defs }
{
    match shown {
        Shown::Own(version, state) => {
            let t = spellings.defs().type_at(ty);
            push_own(out, t, entity, number, *version, state.get())
        }
        Shown::Enter(other, copy) => {
            push_head(out, entity, number)?;
            spellings.push_enter(out, *other, copy.get())
        }
        Shown::Set(other, copy) => {
            push_set(out, entity, number, *other)?;
            spellings.push(out, *other, copy.get())
        }
        Shown::Leave(other) => push_leave(out, entity, number, *other),
    }
}

// A line of the client's own entity.
fn push_own(
    out: &mut Vec<u8>,
    t: &TypeDef,
    entity: u32,
    number: u64,
    version: u64,
    state: &State,
) -> Result<(), AllocError>
    ensures { OnOk result (out.new.items ≡ out.old.items
        ++ (codes "to " ++ decimal_of entity ++ field number
        ++ (codes " own" ++ field version ++ state_text t.now group.Own state.now) ++ 10 ∷
        [])) }
{
    push_head(out, entity, number)?;
    out.extend_from_slice(b" own")?;
    push_state(out, version, t, Group::Own, state)?;
    out.extend_from_slice(b"\n")
}

// A line by which an entity leaves.
fn push_leave(out: &mut Vec<u8>, entity: u32, number: u64, other: u32) -> Result<(), AllocError>
    ensures { OnOk result (out.new.items ≡ out.old.items
        ++ (codes "to " ++ decimal_of entity ++ field number ++ (codes " leave" ++ field other)
        ++ 10 ∷ [])) }
{
    push_head(out, entity, number)?;
    out.extend_from_slice(b" leave")?;
    push_field(out, u64::from(other))?;
    out.extend_from_slice(b"\n")
}

// A line of the base part.
fn push_base_part(
    out: &mut Vec<u8>,
    t: &TypeDef,
    entity: u32,
    number: u64,
    version: u64,
    props: &Props,
) -> Result<(), AllocError>
    ensures { OnOk result (out.new.items ≡ out.old.items
        ++ (codes "to " ++ decimal_of entity ++ field number
        ++ (codes " base" ++ field version ++ values_text t.now.properties group.BaseClient
        props.now) ++ 10 ∷ [])) }
{
    push_head(out, entity, number)?;
    out.extend_from_slice(b" base")?;
    push_field(out, version)?;
    t.write_props(Group::BaseClient, props, out)?;
    out.extend_from_slice(b"\n")
}

// To whom a line is shown, its number, and which entity is set by it.
fn push_set(out: &mut Vec<u8>, entity: u32, number: u64, other: u32) -> Result<(), AllocError>
    ensures { OnOk result (out.new.items ≡ out.old.items ++ codes "to " ++ decimal_of entity
        ++ field number ++ codes " set" ++ field other) }
{
    let mut text = [0; 6 + 3 * LONGEST_FIELD];
    let at = write_field(u64::from(other), &mut text, 6 + 3 * LONGEST_FIELD);
    text[at - 1] = b't';
    text[at - 2] = b'e';
    text[at - 3] = b's';
    text[at - 4] = b' ';
    let at = write_field(number, &mut text, at - 4);
    let at = write_field(u64::from(entity), &mut text, at);
    text[at - 1] = b'o';
    text[at - 2] = b't';
    out.extend_from_slice(&text[at - 2..])
}

/// Appends a line that the client of an entity of a type is shown, whatever else is shown.
pub fn push_line(
    out: &mut Vec<u8>,
    defs: &Defs,
    entity: u32,
    ty: u16,
    line: &Line,
) -> Result<(), AllocError>
    ensures { OnOk result (out.new.items ≡ out.old.items
        ++ client_text defs.now (record { entity = entity; ty = ty; line = line.now })) }
{
    let mut spellings = Spellings::new(*out.allocator(), defs);
    push_client(out, &mut spellings, entity, ty, line)
}

// To whom a line is shown, and its number.
fn push_head(out: &mut Vec<u8>, entity: u32, number: u64) -> Result<(), AllocError>
    ensures { OnOk result (out.new.items ≡ out.old.items ++ codes "to " ++ decimal_of entity
        ++ field number) }
{
    let mut text = [0; 2 + 2 * LONGEST_FIELD];
    let at = write_field(number, &mut text, 2 + 2 * LONGEST_FIELD);
    let at = write_field(u64::from(entity), &mut text, at);
    text[at - 1] = b'o';
    text[at - 2] = b't';
    out.extend_from_slice(&text[at - 2..])
}

/// Appends the version of a copy, and its state.
pub(crate) fn push_copy(out: &mut Vec<u8>, defs: &Defs, copy: &GhostCopy) -> Result<(), AllocError>
    ensures { OnOk result (out.new.items ≡ out.old.items ++ copy_text defs.now copy.now) }
{
    push_state(
        out,
        copy.version,
        defs.type_at(copy.ty),
        Group::Other,
        &copy.state,
    )
}

// A version, a position, and the values of a group.
fn push_state(
    out: &mut Vec<u8>,
    version: u64,
    t: &TypeDef,
    values: Group,
    state: &State,
) -> Result<(), AllocError>
    ensures { OnOk result (out.new.items ≡ out.old.items ++ field version
        ++ state_text t.now values state.now) }
{
    let mut text = [0; 3 * LONGEST_FIELD];
    let at = write_field(u64::from(state.pos.z), &mut text, 3 * LONGEST_FIELD);
    let at = write_field(u64::from(state.pos.x), &mut text, at);
    let at = write_field(version, &mut text, at);
    out.extend_from_slice(&text[at..])?;
    t.write_props(values, &state.props, out)
}
