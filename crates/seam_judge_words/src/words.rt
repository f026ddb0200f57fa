// The words of a printed line, and what they spell.
ghost use Rattle.std.specs.Prelude.{◌≡◌, ◌≢◌, ◌≤◌, ◌<◌, ◌∷◌, ◌++◌, ⊤, [], ℕ, List, length, map, drop, get_or, IsTrue, IfOk, IfSome};
ghost use Rattle.std.specs.Prelude.{None};
ghost use Rattle.std.specs.Prelude.{MatchBool, MatchOption, ◌↔◌};
ghost use Rattle.seam_value.specs.NumberWords.{IsWhole};
ghost use Rattle.seam_value.specs.Texts.{quoted, spelled_byte};
ghost use Rattle.seam_value.specs.Values.{decimal_of};
ghost use Rattle.seam_geo.specs.declared.pos.Pos.{Pos as Places};
ghost use Rattle.seam_tree.specs.declared.boundary.Axis.{Axis as Axes};
ghost use Rattle.seam_call.specs.declared.sender.Sender.{Sender as Senders};
ghost use Rattle.seam_rule_lines.specs.Language.{sender_text, axis_text};
ghost use Rattle.seam_law_texts.specs.Words.{is_plain as is_plain_byte, ArePlain, IsWord, AreWords, spaced};
ghost use Rattle.seam_law_texts.specs.Forms.{IsSmall, IsLong, IsPosition, MaySend};
ghost use Rattle.seam_judge_words.specs.WordEnds.{StopsPlain, StopsWord};

use seam_call::{BaseNode, Sender};
use seam_geo::Pos;
use seam_tree::Axis;
use seam_value::{ValueType, read_number, whole_number};
use std::alloc::{AllocError, Global};

// ---- words

// Whether a byte may stand in a word outside of quotes.
fn is_plain(byte: u8) -> bool
    ensures { result ≡ is_plain_byte byte }
{
    byte != b' ' && byte != b'\n' && byte != b'"'
}

// What comes after the plain bytes that come first.
fn after_plain(line: &[u8]) -> &[u8]
    ensures within { length result.now ≤ length line.now }
    ensures told { (front rest : List ℕ) → ArePlain front → StopsPlain rest →
        line.now ≡ front ++ rest → result.now ≡ rest }
{
    let mut rest = line;
    while let Some((byte, others)) = rest.split_first() {
        if !is_plain(*byte) {
            return rest;
        }
        rest = others;
    }
    rest
}

// What comes after the first byte.
fn after_byte(text: &[u8]) -> &[u8]
    ensures within { length result.now ≤ length text.now }
    ensures told { (b : ℕ) (rest : List ℕ) → text.now ≡ b ∷ rest → result.now ≡ rest }
{
    match text {
        [_, rest @ ..] => rest,
        [] => text,
    }
}

// What comes after a byte as it is spelled in quotes, if one comes first.
fn after_spelled(text: &[u8]) -> Option<&[u8]>
    ensures found { (b : ℕ) (rest : List ℕ) → text.now ≡ spelled_byte b ++ rest →
        MatchOption result ⊥ (λ others. others.now ≡ rest) }
    ensures none { (rest : List ℕ) → text.now ≡ 34 ∷ rest → result ≡ None }
    ensures shorter { IfSome result (λ others. length others.now < length text.now) }
{
    match text {
        [] | [b'"', ..] => None,
        [b'\\', _, rest @ ..] => Some(rest),
        [_, rest @ ..] => Some(rest),
    }
}

// What comes after a text in quotes, if one comes first.
fn after_quoted(text: &[u8]) -> &[u8]
    ensures within { length result.now ≤ length text.now }
    ensures told { (content rest : List ℕ) → text.now ≡ quoted content ++ rest →
        result.now ≡ rest }
{
    let mut rest = after_byte(text);
    while let Some(others) = after_spelled(rest) {
        rest = others;
    }
    after_byte(rest)
}

fn begins_with_quote(text: &[u8]) -> bool
    ensures { MatchBool result ((rest : List ℕ) × (text.now ≡ 34 ∷ rest)) ((rest : List ℕ) →
        text.now ≢ 34 ∷ rest) }
{
    matches!(text, [b'"', ..])
}

// What comes after the word that comes first.
fn after_word(line: &[u8]) -> &[u8]
    ensures within { length result.now ≤ length line.now }
    ensures told { (word rest : List ℕ) → IsWord word → StopsWord rest → line.now ≡ word ++ rest →
        result.now ≡ rest }
{
    let rest = after_plain(line);
    if begins_with_quote(rest) {
        after_quoted(rest)
    } else {
        rest
    }
}

// What comes after a space, if one comes first.
fn after_space(text: &[u8]) -> Option<&[u8]>
    ensures space { MatchOption result ((others : List ℕ) → text.now ≢ 32 ∷ others)
        (λ others. text.now ≡ 32 ∷ others.now) }
    ensures shorter { IfSome result (λ others. length others.now < length text.now) }
{
    match text {
        [b' ', others @ ..] => Some(others),
        _ => None,
    }
}

/// The words of a line, which single spaces part. A text in quotes is one word with what comes right before it, as a property's name.
pub fn words_of(alloc: Global, line: &[u8]) -> Result<Vec<&[u8]>, AllocError>
    ensures { IfOk result (λ words. (first : List ℕ) (others : List (List ℕ)) → IsWord first →
        AreWords others → line.now ≡ first ++ spaced others →
        map (λ w. w.now) words.items ≡ first ∷ others) }
{
    let mut words = Vec::new(alloc);
    let mut rest = line;
    loop {
        let after = after_word(rest);
        words.push(&rest[..rest.len() - after.len()])?;
        match after_space(after) {
            Some(others) => rest = others,
            None => return Ok(words),
        }
    }
}

/// The word at a place, counted from 0; nothing where there is no such place.
pub fn word_at<'a>(words: &[&'a [u8]], place: usize) -> &'a [u8]
    ensures { result.now ≡ get_or (map (λ w. w.now) words.now) place [] }
{
    match words.get(place) {
        Some(word) => *word,
        None => b"",
    }
}

/// The words from a place on.
pub fn words_from<'a, 'b>(words: &'b [&'a [u8]], place: usize) -> &'b [&'a [u8]]
    ensures { map (λ w. w.now) result.now ≡ drop place (map (λ w. w.now) words.now) }
{
    &words[place.min(words.len())..]
}

// ---- what a word spells: where it spells nothing, zero or the first of all

/// A number of 32 bits.
pub fn number(word: &[u8]) -> u32
    ensures { (n : ℕ) → IsWhole n → word.now ≡ decimal_of n → result ≡ n }
{
    match whole_number(word) {
        Some(number) => number,
        None => 0,
    }
}

/// A number of 64 bits.
pub fn long_number(word: &[u8]) -> u64
    ensures { (n : ℕ) → IsLong n → word.now ≡ decimal_of n → result ≡ n }
{
    match read_number(word, ValueType::Uint64) {
        Ok(number) => u64::try_from(number).unwrap_or(0),
        Err(_) => 0,
    }
}

/// A number of eight bits, as that of a cell or of a boundary.
pub fn small_number(word: &[u8]) -> u8
    ensures { (n : ℕ) → IsSmall n → word.now ≡ decimal_of n → result ≡ n }
{
    u8::try_from(number(word)).unwrap_or(u8::MAX)
}

/// A position.
pub fn position(x: &[u8], z: &[u8]) -> Pos
    ensures form { IsPosition result }
    ensures told { (p : Places) → IsPosition p → x.now ≡ decimal_of p.x → z.now ≡ decimal_of p.z →
        result ≡ p }
{
    Pos {
        x: number(x),
        z: number(z),
    }
}

/// A sender. What names none is read as the client of entity 0, which is never there.
pub fn sender(word: &[u8]) -> Sender
    ensures form { MaySend result }
    ensures told { (s : Senders) → MaySend s → word.now ≡ sender_text s → result ≡ s }
{
    match word {
        [b'b', digits @ ..] => base_node(digits),
        [b'c', digits @ ..] => Sender::Client(number(digits)),
        _ => Sender::Client(0),
    }
}

fn base_node(digits: &[u8]) -> Sender
    ensures form { MaySend result }
    ensures told { (n : ℕ) → MaySend (Sender.Base n) → digits.now ≡ decimal_of n →
        result ≡ Sender.Base n }
{
    match BaseNode::new(number(digits)) {
        Some(node) => Sender::Base(node),
        None => Sender::Client(0),
    }
}

/// An axis.
pub fn axis(word: &[u8]) -> Axis
    ensures { (a : Axes) → word.now ≡ axis_text a → result ≡ a }
{
    match word {
        b"x" => Axis::X,
        _ => Axis::Z,
    }
}
