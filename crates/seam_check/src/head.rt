// The header of an input.
ghost use Rattle.std.specs.Prelude.{IfOk};
ghost use Rattle.seam_io.specs.Lines.{lines_of};
ghost use Rattle.seam_check.specs.Heads.{IsHead, HeadLineRead};
ghost use Rattle.seam_check.specs.Inputs.{IsShort, as_line};

use crate::input::{InputLine, next_line};
use seam_accept::{HeaderLines, next_count};
use seam_rule_lines::Header;
use std::alloc::{AllocError, Global};

// The numbers of the causes that no text of a header tells: more bytes come before its end than may, or its end is missing.
const TOO_LONG: u8 = 9;

const NO_END: u8 = 10;

/// What the first lines of an input are.
pub(crate) enum Head<'a> {
    /// A header of so many lines, and what comes after it.
    Read(Header, u64, &'a [u8]),
    /// It is refused, with the number of the cause.
    Refused(u8),
}

/// Reads the header of an input.
pub(crate) fn read_head(alloc: Global, input: &[u8]) -> Result<Head<'_>, AllocError>
    ensures { IfOk result (IsHead (lines_of input.now)) }
{
    let mut head = HeaderLines::new(alloc);
    let mut count = 0;
    let mut rest = input;
    while let Some((line, others)) = next_line(rest) {
        count = next_count(count)?;
        rest = others;
        match read_head_line(&mut head, line)? {
            HeadLine::GoesOn => {}
            HeadLine::Ends(header) => return Ok(Head::Read(header, count, rest)),
            HeadLine::Refused(cause) => return Ok(Head::Refused(cause)),
        }
    }
    Ok(Head::Refused(NO_END))
}

// What a line of a header is.
enum HeadLine {
    GoesOn,
    Ends(Header),
    Refused(u8),
}

fn read_head_line(head: &mut HeaderLines, line: InputLine<'_>) -> Result<HeadLine, AllocError>
    requires { IsShort line }
    ensures { IfOk result (HeadLineRead head.old (as_line line.entry) head.new) }
{
    match line {
        InputLine::Long => Ok(HeadLine::Refused(TOO_LONG)),
        InputLine::Content(content) => match head.read_line(content) {
            Ok(None) => Ok(HeadLine::GoesOn),
            Ok(Some(header)) => Ok(HeadLine::Ends(header)),
            Err(error) => match error.number() {
                Some(cause) => Ok(HeadLine::Refused(cause)),
                None => Err(AllocError),
            },
        },
    }
}
