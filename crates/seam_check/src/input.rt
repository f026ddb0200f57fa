// The lines of an input in memory.
ghost use Rattle.std.specs.Prelude.{◌≡◌, ◌⊎◌, ◌++◌, ◌∷◌, ◌<◌, [], length, MatchOption};
ghost use Rattle.seam_io.specs.Lines.{HasNoFeed, line_of as line_of_text, lines_of};
ghost use Rattle.seam_check.specs.Inputs.{IsShort, as_line};

use seam_io::LONGEST_LINE;

/// A line of an input: its content, or that it is too long.
#[derive(Clone, Copy)]
pub(crate) enum InputLine<'a> {
    Content(&'a [u8]),
    Long,
}

/// The first line of an input, and what comes after it; `None` where there is no line.
pub(crate) fn next_line(bytes: &[u8]) -> Option<(InputLine<'_>, &[u8])>
    ensures { MatchOption result (lines_of bytes.now ≡ [])
        (λ next. (lines_of bytes.now ≡ as_line next.0 ∷ lines_of next.1.now)
        × (length next.1.now < length bytes.now) × IsShort next.0) }
{
    if bytes.is_empty() {
        return None;
    }
    let (text, rest) = first_text(bytes);
    Some((line_of(text), rest))
}

// The text before the first line feed, and what comes after that.
fn first_text(bytes: &[u8]) -> (&[u8], &[u8])
    ensures none { HasNoFeed result.0.now }
    ensures whole { (bytes.now ≡ result.0.now ++ 10 ∷ result.1.now) ⊎ ((bytes.now ≡ result.0.now) ×
        (result.1.now ≡ [])) }
{
    match bytes.iter().position(|byte| *byte == b'\n') {
        Some(end) => (&bytes[..end], &bytes[end + 1..]),
        None => (bytes, &[]),
    }
}

// The line of a text without line feeds: from a short one a carriage return at its end is dropped.
fn line_of(text: &[u8]) -> InputLine<'_>
    ensures line { as_line result ≡ line_of_text text.now }
    ensures short { IsShort result }
{
    if LONGEST_LINE < text.len() {
        return InputLine::Long;
    }
    match text {
        [content @ .., b'\r'] => InputLine::Content(content),
        _ => InputLine::Content(text),
    }
}
