// The pieces of what a server prints.
ghost use Rattle.std.specs.Prelude.{◌≡◌, ◌≢◌, ◌<◌, ◌≤◌, ◌++◌, ◌∷◌, [], ℕ, List, MatchBool, length};
ghost use Rattle.seam_defs.specs.Types.{AreDefs};
ghost use Rattle.seam_defs.specs.declared.types.TypeDef.{TypeDef};
ghost use Rattle.seam_rule_rounds.specs.Prelude.{RoundData, round_text};
ghost use Rattle.seam_law_texts.specs.Words.{HasNoFeed};

/// The first piece of what a server prints, and what comes after it: the text of a round, from its `round` line to its `end` line, or
/// any other line by itself.
pub fn first_piece(text: &[u8]) -> (&[u8], &[u8])
    ensures whole { result.0.now ++ result.1.now ≡ text.now }
    ensures round { (defs : List TypeDef) → AreDefs defs → (r : RoundData) (after : List ℕ) →
        text.now ≡ round_text defs r ++ after → (result.0.now ≡ round_text defs r)
        × (result.1.now ≡ after) }
{
    let rest = after_piece(text);
    text.split_at(text.len() - rest.len())
}

// What comes after the first piece.
fn after_piece(text: &[u8]) -> &[u8]
    ensures within { length result.now ≤ length text.now }
    ensures round { (defs : List TypeDef) → AreDefs defs → (r : RoundData) (after : List ℕ) →
        text.now ≡ round_text defs r ++ after → result.now ≡ after }
{
    if begins_a_round(text) {
        after_round(text)
    } else {
        after_line(text)
    }
}

// Whether the first word is that of a round's first line.
fn begins_a_round(text: &[u8]) -> bool
    ensures { MatchBool result ((rest : List ℕ) × (text.now ≡ 114 ∷ 111 ∷ 117 ∷ 110 ∷ 100 ∷ 32 ∷
        rest)) ((rest : List ℕ) → text.now ≢ 114 ∷ 111 ∷ 117 ∷ 110 ∷ 100 ∷ 32 ∷ rest) }
{
    matches!(text, [b'r', b'o', b'u', b'n', b'd', b' ', ..])
}

// Whether the first word is that of a round's last line.
fn ends_a_round(text: &[u8]) -> bool
    ensures { MatchBool result ((rest : List ℕ) × (text.now ≡ 101 ∷ 110 ∷ 100 ∷ 32 ∷ rest))
        ((rest : List ℕ) → text.now ≢ 101 ∷ 110 ∷ 100 ∷ 32 ∷ rest) }
{
    matches!(text, [b'e', b'n', b'd', b' ', ..])
}

/// A round's text in three parts: its first line, the lines of its steps, which a trace has there, and the rest.
pub fn split_steps(text: &[u8]) -> (&[u8], &[u8], &[u8])
    ensures { result.0.now ++ result.1.now ++ result.2.now ≡ text.now }
{
    let (first, others) = text.split_at(text.len() - after_line(text).len());
    let (steps, rest) = others.split_at(others.len().saturating_sub(after_steps(others).len()));
    (first, steps, rest)
}

// What comes after the first line.
pub(crate) fn after_line(text: &[u8]) -> &[u8]
    ensures within { length result.now ≤ length text.now }
    ensures shorter { text.now ≢ [] → length result.now < length text.now }
    ensures told { (line after : List ℕ) → HasNoFeed line → text.now ≡ line ++ 10 ∷ after →
        result.now ≡ after }
{
    let mut rest = text;
    while let Some((byte, others)) = rest.split_first() {
        if *byte == b'\n' {
            return others;
        }
        rest = others;
    }
    rest
}

// The first line without its line feed, and what comes after it.
pub(crate) fn first_line(text: &[u8]) -> (&[u8], &[u8])
    ensures shorter { text.now ≢ [] → length result.1.now < length text.now }
    ensures told { (line after : List ℕ) → HasNoFeed line → text.now ≡ line ++ 10 ∷ after →
        (result.0.now ≡ line) × (result.1.now ≡ after) }
{
    let after = after_line(text);
    let line = &text[..text.len() - after.len()];
    (without_feed(line), after)
}

// A line without its line feed.
fn without_feed(line: &[u8]) -> &[u8]
    ensures { (content : List ℕ) → line.now ≡ content ++ 10 ∷ [] → result.now ≡ content }
{
    match line {
        [content @ .., b'\n'] => content,
        _ => line,
    }
}

// What comes after the first line that ends a round.
fn after_round(text: &[u8]) -> &[u8]
    ensures within { length result.now ≤ length text.now }
    ensures round { (defs : List TypeDef) → AreDefs defs → (r : RoundData) (after : List ℕ) →
        text.now ≡ round_text defs r ++ after → result.now ≡ after }
{
    let mut rest = text;
    while !rest.is_empty() {
        let ends = ends_a_round(rest);
        rest = after_line(rest);
        if ends {
            return rest;
        }
    }
    rest
}

// What comes after the lines of steps that come first.
fn after_steps(text: &[u8]) -> &[u8] {
    let mut rest = text;
    for _ in 0..text.len() {
        if !rest.starts_with(b"phase ") && !rest.starts_with(b"step ") {
            return rest;
        }
        rest = after_line(rest);
    }
    rest
}
