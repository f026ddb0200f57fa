// A script and what was printed for it, in one input.
ghost use Rattle.std.specs.Prelude.{◌≡◌, ◌++◌, ◌∷◌, IfSome, length};
ghost use Rattle.seam_value.specs.Values.{decimal_of};

use crate::pieces::after_line;
use seam_value::whole_number;

/// A script, and what was printed for it.
#[derive(Clone, Copy)]
pub struct Parts<'a> {
    pub script: &'a [u8],
    pub printed: &'a [u8],
}

/// The parts of an input whose first line is the number of bytes of the script, which come next; the rest was printed. `None` where the
/// first line is no number below 2^32, or fewer bytes come after it.
pub fn framed(input: &[u8]) -> Option<Parts<'_>>
    ensures { IfSome result (λ parts. input.now
        ≡ decimal_of (length parts.script.now) ++ 10 ∷ parts.script.now ++ parts.printed.now) }
{
    let end = input.iter().position(|byte| *byte == b'\n')?;
    let (line, rest) = input.split_at(end);
    let count = whole_number(line)? as usize;
    let [b'\n', others @ ..] = rest else {
        return None;
    };
    if others.len() < count {
        return None;
    }
    let (script, printed) = others.split_at(count);
    Some(Parts { script, printed })
}

/// The parts of an input that is framed, or in which a script comes first and then what was printed for it. In that case the last line
/// `round 1` that a line of a round comes after begins the first round, or, where none does, the first such end of a line, since a
/// script's last line may lack its line feed. The refusals right before it were printed, too.
pub fn parts_of(input: &[u8]) -> Parts<'_> {
    match framed(input) {
        Some(parts) => parts,
        None => {
            let before_round = &input[..round_place(input).min(input.len())];
            let length = before_refusals(before_round).len();
            let (script, printed) = input.split_at(length.min(input.len()));
            Parts { script, printed }
        }
    }
}

// The line that begins the first round.
const FIRST_ROUND: &[u8] = b"round 1\n";

// Where the first round begins, or the input's length.
fn round_place(input: &[u8]) -> usize {
    let mut found = input.len();
    let mut rest = input;
    for _ in 0..input.len() {
        let after = after_line(rest);
        let line = &rest[..rest.len() - after.len()];
        if line.ends_with(FIRST_ROUND) && is_in_round(after) {
            let place = input.len().saturating_sub(after.len());
            found = better_place(found, input.len(), line, place);
        }
        if after.is_empty() {
            break;
        }
        rest = after;
    }
    found
}

// Where the first round begins, if that is at the end of a line which ends at a place: the last whole line counts, or else the first end.
fn better_place(found: usize, unfound: usize, line: &[u8], end: usize) -> usize {
    if line.len() == FIRST_ROUND.len() || found == unfound {
        end.saturating_sub(FIRST_ROUND.len())
    } else {
        found
    }
}

// Whether a text begins with a line that a round has after its number.
fn is_in_round(text: &[u8]) -> bool {
    let is_of_part = text.starts_with(b"did ")
        || text.starts_with(b"dob ")
        || text.starts_with(b"home ")
        || text.starts_with(b"base ");
    let is_other = text.starts_with(b"ghost ")
        || text.starts_with(b"to ")
        || text.starts_with(b"bound ")
        || text.starts_with(b"phase ")
        || text.starts_with(b"end 1\n");
    is_of_part || is_other
}

// What comes before the refusals that end a text: of these each is a line, but that the first may end a line of something else.
fn before_refusals(text: &[u8]) -> &[u8] {
    let mut rest = text;
    for _ in 0..text.len() {
        let Some(place) = refusal_place(rest) else {
            return rest;
        };
        rest = &rest[..place.min(rest.len())];
        if !rest.is_empty() && !rest.ends_with(b"\n") {
            return rest;
        }
    }
    rest
}

// Where the refusal begins that ends a text, if one does.
fn refusal_place(text: &[u8]) -> Option<usize> {
    let [lines @ .., b'\n'] = text else {
        return None;
    };
    let mut found = None;
    for place in last_line(lines)..lines.len() {
        if is_refusal(&lines[place..]) {
            found = Some(place);
        }
    }
    found
}

// Where the last line begins.
fn last_line(text: &[u8]) -> usize {
    for before in 1..text.len() {
        let place = text.len() - before;
        if text[place] == b'\n' {
            return place + 1;
        }
    }
    0
}

// Whether this is `line`, a number and a cause. A cause begins with a small letter, as no argument of a command does.
fn is_refusal(line: &[u8]) -> bool {
    let [b'l', b'i', b'n', b'e', b' ', words @ ..] = line else {
        return false;
    };
    let Some(end) = words.iter().position(|byte| *byte == b' ') else {
        return false;
    };
    let (number, cause) = words.split_at(end);
    let is_number = !number.is_empty() && number.iter().all(|byte| matches!(*byte, b'0'..=b'9'));
    let is_cause = match cause {
        [b' ', b'a'..=b'z', others @ ..] => others.iter().all(|byte| is_of_cause(*byte)),
        _ => false,
    };
    is_number && is_cause
}

fn is_of_cause(byte: u8) -> bool {
    matches!(byte, b'a'..=b'z' | b' ' | b'1'..=b'4')
}
