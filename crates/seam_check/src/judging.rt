// A text beside the lines of an input.
ghost use Rattle.std.specs.Prelude.{◌≡◌, ◌+◌, ◌++◌, ℕ, List, IfOk, MatchBool};
ghost use Rattle.std.specs.List.{count_by};
ghost use Rattle.seam_io.specs.Lines.{is_feed, lines_of};
ghost use Rattle.seam_rule_rounds.specs.Prelude.{Header as Headers, Standing as Standings};
ghost use Rattle.seam_rule_rounds.specs.Standing.{after_header};
ghost use Rattle.seam_judge_reader.specs.Scripts.{IsAt, LineRead};
ghost use Rattle.seam_law_verdicts.specs.Verdicts.{BeginsAsRefusal, Says, number_of};
ghost use Rattle.seam_check.specs.Inputs.{IsShort, as_line};
ghost use Rattle.seam_check.specs.Judged.{EndTaken, IsBeside, LineTaken, RefusalTaken, RoundTaken, SaysAfter, Stands};

use crate::head::{Head, read_head};
use crate::input::{InputLine, next_line};
use seam_accept::next_count;
use seam_judge_reader::{Read, Script, first_piece, read_round};
use seam_judge_rounds::{Point, judge as judge_round};
use seam_law_verdicts::Verdict;
use seam_report::push_refusal;
use seam_rule_lines::Cause;
use std::alloc::{AllocError, Global};

/// What is said of a text beside the lines of an input: that it is a transcript of them, or where and in what it first fails.
pub fn judge(alloc: Global, input: &[u8], text: &[u8]) -> Result<Verdict, AllocError>
    ensures { IfOk result (Says (lines_of input.now) text.now) }
{
    match read_head(alloc, input)? {
        Head::Refused(cause) => Ok(Verdict::Header(cause)),
        Head::Read(header, count, lines) => {
            let mut script = Script::new(alloc, header, count)?;
            judge_lines(alloc, &mut script, lines, text)
        }
    }
}

// The verdict on a text, beside the lines that come after the header.
fn judge_lines(
    alloc: Global,
    script: &mut Script,
    lines: &[u8],
    text: &[u8],
) -> Result<Verdict, AllocError>
    requires { Stands script.old }
    ensures { IfOk result (λ v. (h : Headers) (count : ℕ) →
        IsBeside h (after_header h count) script.old →
        SaysAfter h count (lines_of lines.now) text.now v) }
{
    let mut left = text;
    let mut input = lines;
    while let Some((line, others)) = next_line(input) {
        match take_line(alloc, script, line, left)? {
            Taken::Goes(rest) => left = rest,
            Taken::Fails(point) => return Ok(Verdict::No(place_of(text, left)?, point)),
        }
        input = others;
    }
    match take_end(alloc, script, left)? {
        Taken::Goes(rest) => {
            if rest.is_empty() {
                return Ok(Verdict::Yes);
            }
            Ok(Verdict::No(place_of(text, rest)?, 0))
        }
        Taken::Fails(point) => Ok(Verdict::No(place_of(text, left)?, point)),
    }
}

// The number of the line at which the rest of a text begins.
fn place_of(text: &[u8], left: &[u8]) -> Result<u64, AllocError>
    ensures { IfOk result (λ n. (front : List ℕ) → text.now ≡ front ++ left.now →
        n ≡ count_by is_feed front + 1) }
{
    let front = &text[..text.len().saturating_sub(left.len())];
    next_count(feeds_of(front) as u64)
}

// How many line feeds there are.
fn feeds_of(text: &[u8]) -> usize
    ensures { result ≡ count_by is_feed text.now }
{
    text.iter().filter(|byte| **byte == b'\n').count()
}

/// What became of what is due in a text.
#[derive(Clone, Copy)]
pub(crate) enum Taken<'a> {
    /// The text begins with it, and goes on with this.
    Goes(&'a [u8]),
    /// The text fails there, in the point of this number.
    Fails(u8),
}

// Reads the next line of a script.
fn read_line(script: &mut Script, line: InputLine<'_>) -> Result<Read, AllocError>
    requires { IsShort line }
    ensures { IfOk result (λ r. (h : Headers) (t : Standings) → IsAt h t script.old →
        LineRead h t (as_line line.entry) r script.new) }
{
    match line {
        InputLine::Content(content) => script.read_line(content),
        InputLine::Long => script.read_long(),
    }
}

// Takes what the next line makes due.
fn take_line<'a>(
    alloc: Global,
    script: &mut Script,
    line: InputLine<'_>,
    text: &'a [u8],
) -> Result<Taken<'a>, AllocError>
    requires short { IsShort line }
    requires stands { Stands script.old }
    ensures { IfOk result (λ r. (h : Headers) (t : Standings) → IsBeside h t script.old →
        LineTaken h t (as_line line.entry) text.now script.new r) }
{
    match read_line(script, line)? {
        Read::Refused(cause) => take_refusal(alloc, script.standing().lines, cause, text),
        Read::RoundEnds => take_round(alloc, script, text),
        Read::Kept => Ok(Taken::Goes(text)),
        Read::Skipped => Ok(Taken::Goes(text)),
        Read::Header => Ok(Taken::Goes(text)),
    }
}

// Takes the refusal of a line.
fn take_refusal<'a>(
    alloc: Global,
    line: u64,
    cause: Cause,
    text: &'a [u8],
) -> Result<Taken<'a>, AllocError>
    ensures { IfOk result (RefusalTaken line cause text.now) }
{
    let mut expected = Vec::new(alloc);
    push_refusal(&mut expected, line, cause)?;
    match text.strip_prefix(expected.as_slice()) {
        Some(rest) => Ok(Taken::Goes(rest)),
        None => Ok(Taken::Fails(0)),
    }
}

// Takes the round that ends.
fn take_round<'a>(
    alloc: Global,
    script: &mut Script,
    text: &'a [u8],
) -> Result<Taken<'a>, AllocError>
    requires { Stands script.old }
    ensures { IfOk result (λ r. (h : Headers) (s : Standings) → IsBeside h s script.old →
        RoundTaken h s text.now script.new r) }
{
    if begins_as_refusal(text) {
        return Ok(Taken::Fails(0));
    }
    let (piece, rest) = first_piece(text);
    let header = script.header();
    let standing = script.standing();
    let Some(round) = read_round(alloc, header, standing, piece)? else {
        return Ok(Taken::Fails(1));
    };
    match judge_round(alloc, header, standing, &round)? {
        Some(point) => Ok(Taken::Fails(number_of(point))),
        None => {
            script.end_round(alloc, &round)?;
            Ok(Taken::Goes(rest))
        }
    }
}

// Whether a text begins as the line of a refusal does.
fn begins_as_refusal(text: &[u8]) -> bool
    ensures { MatchBool result (BeginsAsRefusal text.now) (¬ (BeginsAsRefusal text.now)) }
{
    matches!(text, [b'l', b'i', b'n', b'e', b' ', ..])
}

// Takes the round that is open at the end of the input, if one is.
fn take_end<'a>(alloc: Global, script: &mut Script, text: &'a [u8]) -> Result<Taken<'a>, AllocError>
    requires { Stands script.old }
    ensures { IfOk result (λ r. (h : Headers) (t : Standings) → IsBeside h t script.old →
        EndTaken h t text.now r) }
{
    if script.standing().current.is_empty() {
        return Ok(Taken::Goes(text));
    }
    take_round(alloc, script, text)
}

// The number of a point, as it is told.
fn number_of(point: Point) -> u8
    ensures { result ≡ number_of point }
{
    match point {
        Point::Number => 1,
        Point::Did | Point::Dob => 2,
        Point::Homes | Point::Cells => 3,
        Point::Bases => 4,
        Point::Places | Point::Ghosts => 5,
        Point::Shown => 6,
        Point::Looked => 7,
        Point::Bounds => 8,
    }
}
