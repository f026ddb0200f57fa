// What a round shows its clients.
ghost use Rattle.std.specs.Prelude.{◌≡◌, ◌+◌, ◌++◌, IfOk, OnOk, map};
ghost use Rattle.std.specs.List.{flat_map};
ghost use Rattle.seam_call.specs.declared.shown.ClientText.TheVariants as text;
ghost use Rattle.seam_rule_rounds.specs.FlatTable.{rows_of};
ghost use Rattle.seam_judge_data.specs.Standings.{standing_of};
ghost use Rattle.seam_judge_plain.specs.Plain.{texts_of, lines_from, lines_of};

use seam_call::{ClientText, Create, Line, Shown};
use seam_judge_data::{ClientLine, Copied, Standing};
use seam_judge_looks::{Replica, Row, base_texts, rows_of};
use seam_rule_lines::Header;
use std::alloc::{AllocError, Global};

/// The header, and the standings before and after the calls of a round.
#[derive(Clone, Copy)]
pub(crate) struct Turn<'a> {
    pub(crate) header: &'a Header,
    pub(crate) before: &'a Standing,
    pub(crate) after: &'a Standing,
}

// The texts of what is shown.
fn texts_shown(alloc: Global, shown: &[Shown]) -> Result<Vec<ClientText>, AllocError>
    ensures { IfOk result (λ texts. texts.items ≡ map text.Shown shown.now) }
{
    let mut texts = Vec::new(alloc);
    for x in shown {
        texts.push(ClientText::Shown(x.copied()?))?;
    }
    Ok(texts)
}

// What the client of an entity is shown: its base part, and then one look at the rows, which is empty if the entity died.
fn texts_to(
    alloc: Global,
    turn: &Turn<'_>,
    create: Create,
    rows: &[Row],
) -> Result<Vec<ClientText>, AllocError>
    ensures { IfOk result (λ texts. texts.items ≡ texts_of turn.now.header.now
        (standing_of turn.now.before.now) (standing_of turn.now.after.now) rows.now create) }
{
    let told = turn.before.told_to(alloc, create.entity)?;
    let replica = Replica::after(alloc, &turn.header.settings, &told)?;
    let look = replica.one_look(alloc, create.entity, rows)?;
    let mut texts = base_texts(alloc, turn.header, turn.before, turn.after, create)?;
    let mut further = texts_shown(alloc, &look)?;
    texts.append(&mut further)?;
    Ok(texts)
}

// The number after one; at the end of its type it is answered like a failed allocation.
fn next_number(number: u64) -> Result<u64, AllocError>
    ensures { IfOk result (λ next. next ≡ number + 1) }
{
    number.checked_add(1).ok_or(AllocError)
}

// Adds texts as lines of an entity's client, numbered on from so many.
fn add_lines(
    lines: &mut Vec<ClientLine>,
    create: Create,
    former: u64,
    texts: &[ClientText],
) -> Result<(), AllocError>
    ensures { OnOk result (lines.new.items ≡ lines.old.items ++ lines_from create former
        texts.now) }
{
    let mut number = former;
    for text in texts {
        number = next_number(number)?;
        lines.push(ClientLine {
            entity: create.entity,
            ty: create.ty,
            line: Line {
                number,
                text: text.copied()?,
            },
        })?;
    }
    Ok(())
}

// Adds the lines of an entity's client.
fn add_client(
    lines: &mut Vec<ClientLine>,
    turn: &Turn<'_>,
    create: Create,
    rows: &[Row],
) -> Result<(), AllocError>
    ensures { OnOk result (lines.new.items ≡ lines.old.items ++ lines_of turn.now.header.now
        (standing_of turn.now.before.now) (standing_of turn.now.after.now) rows.now create) }
{
    let alloc = *lines.allocator();
    let told = turn.before.told_to(alloc, create.entity)?;
    let former = told.as_slice().len() as u64;
    let texts = texts_to(alloc, turn, create, rows)?;
    add_lines(lines, create, former, &texts)
}

// The lines of each of the clients, which look at the rows.
fn lines_of(
    alloc: Global,
    turn: &Turn<'_>,
    clients: &[Create],
    rows: &[Row],
) -> Result<Vec<ClientLine>, AllocError>
    ensures { IfOk result (λ lines. lines.items ≡ flat_map (lines_of turn.now.header.now
        (standing_of turn.now.before.now) (standing_of turn.now.after.now) rows.now)
        clients.now) }
{
    let mut lines = Vec::new(alloc);
    for create in clients {
        add_client(&mut lines, turn, *create, rows)?;
    }
    Ok(lines)
}

/// The lines of the clients, which look at the live entities.
pub(crate) fn lines_to(
    alloc: Global,
    turn: &Turn<'_>,
    clients: &[Create],
    live: &[Create],
) -> Result<Vec<ClientLine>, AllocError>
    ensures { IfOk result (λ lines. lines.items ≡ flat_map (lines_of turn.now.header.now
        (standing_of turn.now.before.now) (standing_of turn.now.after.now)
        (rows_of turn.now.header.now (standing_of turn.now.after.now).orders live.now))
        clients.now) }
{
    let rows = rows_of(alloc, turn.header, turn.after, live)?;
    lines_of(alloc, turn, clients, &rows)
}
