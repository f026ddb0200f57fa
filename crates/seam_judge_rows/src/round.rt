// The text of a round.
ghost use Rattle.seam_defs.specs.Settings.{AreInRange};

use crate::wrong::Wrong;
use seam_judge_data::{Round, Standing};
use seam_judge_plain::plain_round;
use seam_judge_reader::read_lines;
use seam_judge_rounds::{Point, have_homes, judge};
use seam_report::write_round;
use seam_rule_lines::Header;
use std::alloc::{AllocError, Global};

fn number_after(before: &Standing) -> u64 {
    before.rounds.saturating_add(1)
}

fn is_written(
    alloc: Global,
    header: &Header,
    round: &Round,
    text: &[u8],
) -> Result<bool, AllocError> {
    let mut written = Vec::new(alloc);
    write_round(&mut written, &header.defs, round)?;
    Ok(written.as_slice() == text)
}

// Refuses a round that is not legal, or has another text.
fn check(
    alloc: Global,
    header: &Header,
    before: &Standing,
    round: &Round,
    text: &[u8],
) -> Result<(), Wrong>
    requires { AreInRange header.now.settings }
{
    if !have_homes(before) {
        return Err(Wrong::Round(number_after(before), Point::Places));
    }
    if let Some(point) = judge(alloc, header, before, round)? {
        return Err(Wrong::Round(number_after(before), point));
    }
    if !is_written(alloc, header, round, text)? {
        return Err(Wrong::Text(number_after(before)));
    }
    Ok(())
}

/// The round after a standing that has this text, if it is legal.
pub(crate) fn legal_round(
    alloc: Global,
    header: &Header,
    before: &Standing,
    text: &[u8],
) -> Result<Round, Wrong>
    requires { AreInRange header.now.settings }
{
    let round = read_lines(alloc, header, before, text)?;
    check(alloc, header, before, &round, text)?;
    Ok(round)
}

/// Whether the plain round after a standing has this text.
pub(crate) fn is_plain(
    alloc: Global,
    header: &Header,
    before: &Standing,
    text: &[u8],
) -> Result<bool, Wrong>
    requires { AreInRange header.now.settings }
{
    match plain_round(alloc, header, before)? {
        Some(round) => Ok(is_written(alloc, header, &round, text)?),
        None => Err(Wrong::Plain(number_after(before))),
    }
}
