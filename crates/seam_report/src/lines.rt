// The lines of rounds.
ghost use Rattle.std.specs.Prelude.{◌≡◌, ◌++◌, OnOk};
ghost use Rattle.seam_rule_rounds.specs.Prelude.{field, number_text, done_text, home_text, base_text, ghost_text};

use crate::values::{LONGEST_FIELD, push_deed, push_field, push_sender, write_field};
use seam_call::Call;
use seam_defs::{Defs, Group, Props, State};
use seam_value::push_number;
use std::alloc::AllocError;

/// An executed call, with the type of its entity.
#[derive(Clone, Copy)]
pub struct DoneLine<'a> {
    pub ty: u16,
    pub call: &'a Call,
}

/// A live entity: its type, its cell, its version, and the state of its real.
#[derive(Clone, Copy)]
pub struct HomeLine<'a> {
    pub entity: u32,
    pub ty: u16,
    pub cell: u8,
    pub version: u64,
    pub state: &'a State,
}

/// The base part of a live entity: its version, and what it holds.
#[derive(Clone, Copy)]
pub struct BaseLine<'a> {
    pub entity: u32,
    pub ty: u16,
    pub version: u64,
    pub props: &'a Props,
}

/// Appends a line of a word, with the space after it, and a number.
pub fn push_number_line(out: &mut Vec<u8>, word: &[u8], number: u64) -> Result<(), AllocError>
    ensures { OnOk result (out.new.items ≡ out.old.items ++ number_text word.now number) }
{
    out.extend_from_slice(word)?;
    push_number(out, number)?;
    out.extend_from_slice(b"\n")
}

/// Appends the line of an executed call, which begins with a word and the space after it.
pub fn push_done(
    out: &mut Vec<u8>,
    word: &[u8],
    defs: &Defs,
    line: &DoneLine,
) -> Result<(), AllocError>
    ensures { OnOk result (out.new.items ≡ out.old.items
        ++ done_text word.now defs.now (record { ty = line.now.ty; call = line.now.call.now })) }
{
    out.extend_from_slice(word)?;
    push_number(out, u64::from(line.call.entity))?;
    push_sender(out, line.call.sender)?;
    push_field(out, line.call.number)?;
    push_deed(out, defs.type_at(line.ty), &line.call.deed)?;
    out.extend_from_slice(b"\n")
}

/// Appends the line of an entity's home.
pub fn push_home(out: &mut Vec<u8>, defs: &Defs, line: &HomeLine) -> Result<(), AllocError>
    ensures { OnOk result (out.new.items ≡ out.old.items
        ++ home_text defs.now (record {
          entity = line.now.entity;
          ty = line.now.ty;
          cell = line.now.cell;
          version = line.now.version;
          state = line.now.state.now;
        })) }
{
    out.extend_from_slice(b"home")?;
    push_home_numbers(out, line)?;
    defs.type_at(line.ty)
        .write_props(Group::Real, &line.state.props, out)?;
    out.extend_from_slice(b"\n")
}

// The numbers of a home line, which are gathered from the last to the first and appended at once.
fn push_home_numbers(out: &mut Vec<u8>, line: &HomeLine) -> Result<(), AllocError>
    ensures { OnOk result (out.new.items ≡ out.old.items ++ field line.now.entity
        ++ field line.now.cell ++ field line.now.version ++ field line.now.state.now.pos.x
        ++ field line.now.state.now.pos.z) }
{
    let mut text = [0; 5 * LONGEST_FIELD];
    let at = write_field(u64::from(line.state.pos.z), &mut text, 5 * LONGEST_FIELD);
    let at = write_field(u64::from(line.state.pos.x), &mut text, at);
    let at = write_field(line.version, &mut text, at);
    let at = write_field(u64::from(line.cell), &mut text, at);
    let at = write_field(u64::from(line.entity), &mut text, at);
    out.extend_from_slice(&text[at..])
}

/// Appends the line of an entity's base part.
pub fn push_base(out: &mut Vec<u8>, defs: &Defs, line: &BaseLine) -> Result<(), AllocError>
    ensures { OnOk result (out.new.items ≡ out.old.items
        ++ base_text defs.now (record {
          entity = line.now.entity;
          ty = line.now.ty;
          version = line.now.version;
          props = line.now.props.now;
        })) }
{
    let mut text = [0; 2 * LONGEST_FIELD];
    let at = write_field(line.version, &mut text, 2 * LONGEST_FIELD);
    let at = write_field(u64::from(line.entity), &mut text, at);
    out.extend_from_slice(b"base")?;
    out.extend_from_slice(&text[at..])?;
    defs.type_at(line.ty)
        .write_props(Group::Base, line.props, out)?;
    out.extend_from_slice(b"\n")
}

/// Appends the line of an entity's ghost in a cell, at a public version.
pub fn push_ghost(out: &mut Vec<u8>, entity: u32, cell: u8, version: u64) -> Result<(), AllocError>
    ensures { OnOk result (out.new.items ≡ out.old.items
        ++ ghost_text (record { entity = entity; cell = cell; version = version })) }
{
    let mut text = [b'\n'; 3 * LONGEST_FIELD + 1];
    let at = write_field(version, &mut text, 3 * LONGEST_FIELD);
    let at = write_field(u64::from(cell), &mut text, at);
    let at = write_field(u64::from(entity), &mut text, at);
    out.extend_from_slice(b"ghost")?;
    out.extend_from_slice(&text[at..])
}
