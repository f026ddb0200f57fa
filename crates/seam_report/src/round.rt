// The text of a round.
ghost use Rattle.std.specs.Prelude.{◌≡◌, ◌++◌, OnOk, codes};
ghost use Rattle.std.specs.List.{flat_map};
ghost use Rattle.seam_rule_lines.specs.LineTexts.{number_text, done_text, home_text, base_text};
ghost use Rattle.seam_rule_rounds.specs.RoundTexts.{ghost_text, client_text, bounds_text, round_text, traced_text, journal_text};
ghost use Rattle.seam_report.specs.RoundParts.{lines_text};

use crate::bounds::push_bounds;
use crate::journal::push_journal;
use crate::lines::{
    BaseLine, DoneLine, HomeLine, push_base, push_done, push_ghost, push_home, push_number_line,
};
use crate::told::push_line;
use seam_defs::Defs;
use seam_judge_data::{ClientLine, GhostLine, Round};
use seam_tree::Tree;
use seam_watch::Journal;
use std::alloc::AllocError;

/// Appends the text of a round: its lines, each kind in its order.
pub fn write_round(out: &mut Vec<u8>, defs: &Defs, round: &Round) -> Result<(), AllocError>
    ensures { OnOk result (out.new.items ≡ out.old.items ++ round_text defs.now round.now) }
{
    push_round_number(out, round)?;
    push_lines(out, defs, round)
}

/// Appends the text of a round with that of its steps, which stands after the round's number.
pub fn write_traced_round(
    out: &mut Vec<u8>,
    defs: &Defs,
    round: &Round,
    steps: &Journal,
) -> Result<(), AllocError>
    ensures { OnOk result (out.new.items ≡ out.old.items ++ traced_text (journal_text steps.now)
        defs.now round.now) }
{
    push_round_number(out, round)?;
    push_journal(out, steps)?;
    push_lines(out, defs, round)
}

fn push_round_number(out: &mut Vec<u8>, round: &Round) -> Result<(), AllocError>
    ensures { OnOk result (out.new.items ≡ out.old.items ++ number_text (codes "round ")
        round.now.number) }
{
    push_number_line(out, b"round ", round.number)
}

// All lines of a round but the first.
fn push_lines(out: &mut Vec<u8>, defs: &Defs, round: &Round) -> Result<(), AllocError>
    ensures { OnOk result (out.new.items ≡ out.old.items ++ lines_text defs.now round.now) }
{
    push_all_done(out, b"did ", defs, round.did.as_slice())?;
    push_all_done(out, b"dob ", defs, round.dob.as_slice())?;
    push_homes(out, defs, round.homes.as_slice())?;
    push_bases(out, defs, round.bases.as_slice())?;
    push_ghosts(out, round.ghosts.as_slice())?;
    push_clients(out, defs, round.shown.as_slice())?;
    push_tree(out, &round.bounds)?;
    push_number_line(out, b"end ", round.number)
}

fn push_all_done(
    out: &mut Vec<u8>,
    word: &[u8],
    defs: &Defs,
    lines: &[seam_judge_data::DoneLine],
) -> Result<(), AllocError>
    ensures { OnOk result (out.new.items ≡ out.old.items ++ flat_map (done_text word.now defs.now)
        lines.now) }
{
    for line in lines {
        let call = &line.call;
        push_done(out, word, defs, &DoneLine { ty: line.ty, call })?;
    }
    Ok(())
}

fn push_homes(
    out: &mut Vec<u8>,
    defs: &Defs,
    lines: &[seam_judge_data::HomeLine],
) -> Result<(), AllocError>
    ensures { OnOk result (out.new.items ≡ out.old.items ++ flat_map (home_text defs.now)
        lines.now) }
{
    for line in lines {
        let line = HomeLine {
            entity: line.entity,
            ty: line.ty,
            cell: line.cell,
            version: line.version,
            state: &line.state,
        };
        push_home(out, defs, &line)?;
    }
    Ok(())
}

fn push_bases(
    out: &mut Vec<u8>,
    defs: &Defs,
    lines: &[seam_judge_data::BaseLine],
) -> Result<(), AllocError>
    ensures { OnOk result (out.new.items ≡ out.old.items ++ flat_map (base_text defs.now)
        lines.now) }
{
    for line in lines {
        let line = BaseLine {
            entity: line.entity,
            ty: line.ty,
            version: line.version,
            props: &line.props,
        };
        push_base(out, defs, &line)?;
    }
    Ok(())
}

fn push_ghosts(out: &mut Vec<u8>, lines: &[GhostLine]) -> Result<(), AllocError>
    ensures { OnOk result (out.new.items ≡ out.old.items ++ flat_map ghost_text lines.now) }
{
    for line in lines {
        push_ghost(out, line.entity, line.cell, line.version)?;
    }
    Ok(())
}

fn push_clients(out: &mut Vec<u8>, defs: &Defs, lines: &[ClientLine]) -> Result<(), AllocError>
    ensures { OnOk result (out.new.items ≡ out.old.items ++ flat_map (client_text defs.now)
        lines.now) }
{
    for line in lines {
        push_line(out, defs, line.entity, line.ty, &line.line)?;
    }
    Ok(())
}

fn push_tree(out: &mut Vec<u8>, tree: &Option<Tree>) -> Result<(), AllocError>
    ensures { OnOk result (out.new.items ≡ out.old.items ++ bounds_text tree.now) }
{
    match tree {
        Some(tree) => push_bounds(out, tree),
        None => Ok(()),
    }
}
