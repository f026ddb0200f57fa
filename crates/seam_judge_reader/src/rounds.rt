// The text of a round as its data.
ghost use Rattle.std.specs.Prelude.{◌≡◌, ◌≢◌, ◌∷◌, List, Option, Some, map, IfOk, IfNone, IfSome, OnOk};
ghost use Rattle.seam_tree.specs.Division.{Division};
ghost use Rattle.seam_defs.specs.declared.types.TypeDef.{TypeDef};
ghost use Rattle.seam_rule_rounds.specs.Prelude.{RoundData, round_text};
ghost use Rattle.seam_judge_data.specs.Standings.{standing_of};
ghost use Rattle.seam_law_texts.specs.TextLines.{LineData, no_lines, data_words, with_data, word_of};
ghost use Rattle.seam_law_texts.specs.declared.kinds.Kind.{Kind as Kinds};
ghost use Rattle.seam_law_texts.specs.Forms.{HasForm, HasFormedLines, IsFormed, IsForm};
ghost use Rattle.seam_judge_reader.specs.Cuts.{CanSay};

use crate::bounds::{has_form, no_bounds, with_bound};
use crate::context::{LineContext, is_word};
use crate::lines::{base_line, client_line, done_line, ghost_line, home_line};
use crate::pieces::first_line;
use seam_defs::Part;
use seam_judge_data::{Round, Standing};
use seam_judge_words::{long_number, word_at, words_from, words_of};
use seam_law_texts::Kind;
use seam_report::write_round;
use seam_rule_lines::Header;
use std::alloc::{AllocError, Global};

/// The round in form that has this text, after a standing whose book has all lines of the round, or `None` where there is none.
pub fn read_round(
    alloc: Global,
    header: &Header,
    standing: &Standing,
    text: &[u8],
) -> Result<Option<Round>, AllocError>
    ensures text { IfOk result (λ read. IfSome read (λ round. round_text header.now.defs round
        ≡ text.now)) }
    ensures form { IfOk result (λ read. IfSome read (IsFormed header.now.defs
        (standing_of standing.now).book)) }
    ensures none { IfOk result (λ read. IfNone read ((r : RoundData) →
        IsFormed header.now.defs (standing_of standing.now).book r →
        round_text header.now.defs r ≢ text.now)) }
{
    let round = read_lines(alloc, header, standing, text)?;
    let mut written = Vec::new(alloc);
    write_round(&mut written, &header.defs, &round)?;
    if written.as_slice() == text && has_form(standing, &round.bounds) {
        Ok(Some(round))
    } else {
        Ok(None)
    }
}

/// The round that has the lines of a text, each read by itself, wherever it comes in the text. What is at fault in a line is read as zero
/// or as nothing: `read_round` says whether the round has the text.
pub fn read_lines(
    alloc: Global,
    header: &Header,
    standing: &Standing,
    text: &[u8],
) -> Result<Round, AllocError>
    ensures form { IfOk result (HasFormedLines header.now.defs (standing_of standing.now).book) }
    ensures told { IfOk result (λ round. (r : RoundData) →
        IsFormed header.now.defs (standing_of standing.now).book r →
        round_text header.now.defs r ≡ text.now → round ≡ r) }
{
    header.defs.known();
    let known = LineContext::of(alloc, header, standing)?;
    let mut round = no_round(alloc, standing);
    let mut rest = text;
    while !rest.is_empty() {
        let (line, others) = first_line(rest);
        let words = words_of(alloc, line)?;
        add_line(&known, &mut round, &words)?;
        rest = others;
    }
    Ok(round)
}

// A round of no lines. Where the boundaries are balanced it has a tree, also if that is one of one cell, which prints no boundary.
fn no_round(alloc: Global, standing: &Standing) -> Round
    ensures form { (defs : List TypeDef) → HasFormedLines defs (standing_of standing.now).book
        result }
    ensures told { (tree : Option Division) → HasForm (standing_of standing.now).book tree →
        result ≡ no_lines tree }
{
    Round {
        number: 0,
        did: Vec::new(alloc),
        dob: Vec::new(alloc),
        homes: Vec::new(alloc),
        bases: Vec::new(alloc),
        ghosts: Vec::new(alloc),
        shown: Vec::new(alloc),
        bounds: no_bounds(standing),
    }
}

// Adds what a line says, by its words.
fn add_line(known: &LineContext<'_>, round: &mut Round, words: &[&[u8]]) -> Result<(), AllocError>
    ensures form { OnOk result (HasFormedLines known.now.header.now.defs
        (standing_of known.now.standing.now).book round.old →
        HasFormedLines known.now.header.now.defs (standing_of known.now.standing.now).book
        round.new) }
    ensures told { OnOk result ((k : Kinds) (x : LineData k) → IsForm known.now.header.now.defs
        (standing_of known.now.standing.now).book k x → CanSay round.old.bounds k x →
        map (λ w. w.now) words.now ≡ word_of k ∷ data_words known.now.header.now.defs k x →
        round.new ≡ with_data round.old k x) }
{
    match kind_of(word_at(words, 0)) {
        Some(kind) => add_data(known, round, kind, words_from(words, 1)),
        None => Ok(()),
    }
}

// Adds what a line of a kind says, by the words after its first one.
fn add_data(
    known: &LineContext<'_>,
    round: &mut Round,
    kind: Kind,
    words: &[&[u8]],
) -> Result<(), AllocError>
    ensures form { OnOk result (HasFormedLines known.now.header.now.defs
        (standing_of known.now.standing.now).book round.old →
        HasFormedLines known.now.header.now.defs (standing_of known.now.standing.now).book
        round.new) }
    ensures told { OnOk result ((x : LineData kind) → IsForm known.now.header.now.defs
        (standing_of known.now.standing.now).book kind x → CanSay round.old.bounds kind x →
        map (λ w. w.now) words.now ≡ data_words known.now.header.now.defs kind x →
        round.new ≡ with_data round.old kind x) }
{
    match kind {
        Kind::Begin => round.number = long_number(word_at(words, 0)),
        Kind::Did => round.did.push(done_line(known, Part::Cell, words)?)?,
        Kind::Dob => round.dob.push(done_line(known, Part::Base, words)?)?,
        Kind::Home => round.homes.push(home_line(known, words)?)?,
        Kind::Base => round.bases.push(base_line(known, words)?)?,
        Kind::Ghost => round.ghosts.push(ghost_line(words))?,
        Kind::To => round.shown.push(client_line(known, words)?)?,
        Kind::Bound => round.bounds = with_bound(known.standing, round.bounds, words),
        Kind::End => {}
    }
    Ok(())
}

// The kind of a line with this first word.
fn kind_of(word: &[u8]) -> Option<Kind>
    ensures { (k : Kinds) → word.now ≡ word_of k → result ≡ Some k }
{
    if is_word(word, b"round") {
        return Some(Kind::Begin);
    }
    if is_word(word, b"did") {
        return Some(Kind::Did);
    }
    if is_word(word, b"dob") {
        return Some(Kind::Dob);
    }
    if is_word(word, b"home") {
        return Some(Kind::Home);
    }
    if is_word(word, b"base") {
        return Some(Kind::Base);
    }
    if is_word(word, b"ghost") {
        return Some(Kind::Ghost);
    }
    if is_word(word, b"to") {
        return Some(Kind::To);
    }
    if is_word(word, b"bound") {
        return Some(Kind::Bound);
    }
    if is_word(word, b"end") {
        return Some(Kind::End);
    }
    None
}
