// The parts of a line, from its left: gaps, plain words, and words in quotes with their pieces.
ghost use Rattle.std.specs.Prelude.{◌≡◌, ◌==◌, ◌<◌, ◌≤◌, ◌↔◌, ◌∷◌, true, length, drop, IsTrue, IfOk, IfErr, IfSome};
ghost use Rattle.std.specs.Prelude.{MatchOption, slice_index};
ghost use Rattle.std.specs.List.{prefix_len};
ghost use Rattle.std.specs.Str.{IsUtf8};
ghost use Rattle.seam_words.specs.Words.{is_blank, is_plain, is_escaped, EndsWord};
ghost use Rattle.seam_words.specs.Faults.{BeginsWord, IsNoEscape};
ghost use Rattle.seam_words.specs.WordParts.{IsFirstWord, RefusesWord, EndsPieces, ClosesWord, HasPiece, HasBadPiece, HasPieces};
ghost use Rattle.seam_words.specs.WordParts.{RefusesPieces};

use crate::WordsError;

// Most lines are ASCII, which is quickly tested.
pub(crate) fn is_utf8(bytes: &[u8]) -> bool
    ensures { IsTrue result ↔ IsUtf8 bytes.now }
{
    bytes.is_ascii() || is_wider_utf8(bytes)
}

// Out of line, so that the stack of its result is no burden to its callers.
#[inline(never)]
fn is_wider_utf8(bytes: &[u8]) -> bool
    ensures { IsTrue result ↔ IsUtf8 bytes.now }
{
    match std::str::from_utf8(bytes) {
        Ok(_) => true,
        Err(_) => false,
    }
}

fn is_blank(b: u8) -> bool
    ensures { result ≡ is_blank b }
{
    b == b' ' || b == b'\t'
}

fn is_plain(b: u8) -> bool
    ensures { result ≡ is_plain b }
{
    !(is_blank(b) || b == b'"')
}

// What follows the blanks that come first.
pub(crate) fn after_gap(bytes: &[u8]) -> &[u8]
    ensures rest { result.now ≡ drop (prefix_len is_blank bytes.now) bytes.now }
    ensures within { length result.now ≤ length bytes.now }
{
    &bytes[gap_len(bytes)..]
}

// What follows the blanks after a word. The first needs no test, since the word ended there.
pub(crate) fn after_word_gap(bytes: &[u8]) -> &[u8]
    requires { EndsWord bytes.now }
    ensures rest { result.now ≡ drop (prefix_len is_blank bytes.now) bytes.now }
    ensures within { length result.now ≤ length bytes.now }
{
    match bytes {
        [_, rest @ ..] => after_gap(rest),
        [] => bytes,
    }
}

fn gap_len(bytes: &[u8]) -> usize
    ensures value { result ≡ prefix_len is_blank bytes.now }
    ensures within { result ≤ length bytes.now }
{
    bytes.iter().take_while(|b| is_blank(**b)).count()
}

// What follows the word that comes first. Only where a quote follows its plain bytes is it in quotes, or at fault.
pub(crate) fn after_word(bytes: &[u8]) -> Result<&[u8], WordsError>
    requires { BeginsWord bytes.now }
    ensures word { IfOk result (λ rest. IsFirstWord (slice_index bytes.now 0 == 34) bytes.now
        rest.now) }
    ensures fault { IfErr result (RefusesWord bytes.now) }
{
    let rest = after_plain_bytes(bytes);
    if !begins_with_quote(rest) {
        Ok(rest)
    } else if rest.len() == bytes.len() {
        after_quoted(bytes)
    } else {
        Err(WordsError::OpenQuote)
    }
}

fn begins_with_quote(bytes: &[u8]) -> bool
    ensures { result ≡ (slice_index bytes.now 0 == 34) }
{
    matches!(bytes, [b'"', ..])
}

fn after_plain_bytes(bytes: &[u8]) -> &[u8]
    ensures { result.now ≡ drop (prefix_len is_plain bytes.now) bytes.now }
{
    &bytes[plain_len(bytes)..]
}

fn plain_len(bytes: &[u8]) -> usize
    ensures value { result ≡ prefix_len is_plain bytes.now }
    ensures within { result ≤ length bytes.now }
{
    bytes.iter().take_while(|b| is_plain(**b)).count()
}

fn after_quoted(bytes: &[u8]) -> Result<&[u8], WordsError>
    requires { (slice_index bytes.now 0 == 34) ≡ true }
    ensures word { IfOk result (λ rest. IsFirstWord true bytes.now rest.now) }
    ensures fault { IfErr result (RefusesWord bytes.now) }
{
    let rest = after_pieces(&bytes[1..])?;
    if closes_word(rest) {
        Ok(&rest[1..])
    } else {
        Err(WordsError::OpenQuote)
    }
}

// Whether a quote comes first, and a word can end after it.
fn closes_word(bytes: &[u8]) -> bool
    ensures { IsTrue result ↔ ClosesWord bytes.now }
{
    match bytes {
        [b'"', next, ..] => is_blank(*next),
        [b'"'] => true,
        _ => false,
    }
}

// What follows the pieces of a quoted word: nothing, or a quote.
fn after_pieces(bytes: &[u8]) -> Result<&[u8], WordsError>
    ensures pieces { IfOk result (λ rest. HasPieces bytes.now rest.now) }
    ensures fault { IfErr result (λ e. (e ≡ WordsError.BadEscape) × RefusesPieces bytes.now) }
{
    let mut rest = bytes;
    while !ends_pieces(rest) {
        match after_piece(rest) {
            Some(after) => rest = after,
            None => return Err(WordsError::BadEscape),
        }
    }
    Ok(rest)
}

fn ends_pieces(bytes: &[u8]) -> bool
    ensures { IsTrue result ↔ EndsPieces bytes.now }
{
    matches!(bytes, [] | [b'"', ..])
}

// What follows the piece that comes first. `None` where a backslash begins no escape.
fn after_piece(bytes: &[u8]) -> Option<&[u8]>
    requires { ¬ EndsPieces bytes.now }
    ensures piece { MatchOption result (HasBadPiece bytes.now)
        (λ rest. HasPiece bytes.now rest.now) }
    ensures shorter { IfSome result (λ rest. length rest.now < length bytes.now) }
{
    match bytes {
        [b'\\', rest @ ..] => after_escaped(rest),
        [_, rest @ ..] => Some(rest),
        [] => unreachable!(),
    }
}

// What follows the byte after a backslash. `None` where it is none that may come there.
fn after_escaped(bytes: &[u8]) -> Option<&[u8]>
    ensures { MatchOption result (IsNoEscape bytes.now)
        (λ rest. (is_escaped (slice_index bytes.now 0) ≡ true) ×
        (bytes.now ≡ slice_index bytes.now 0 ∷ rest.now)) }
{
    match bytes {
        [b'"' | b'\\' | b'n', rest @ ..] => Some(rest),
        _ => None,
    }
}
