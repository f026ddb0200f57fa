// The lines of a round, each as its data.
ghost use Rattle.std.specs.Prelude.{◌≡◌, ◌∷◌, List, ℕ, map, IfOk};
ghost use Rattle.seam_defs.specs.declared.flags.Group.TheVariants as group;
ghost use Rattle.seam_call.specs.declared.shown.ClientText.{ClientText as ClientTexts};
ghost use Rattle.seam_call.specs.declared.shown.GhostCopy.{GhostCopy as GhostCopies};
ghost use Rattle.seam_call.specs.declared.shown.Shown.{Shown as AnyShown};
ghost use Rattle.seam_value.specs.Values.{decimal_of};
ghost use Rattle.seam_value.specs.declared.values.Value.{Value as Values};
ghost use Rattle.seam_defs.specs.declared.states.State.{State as States};
ghost use Rattle.seam_rule_rounds.specs.Prelude.{BaseLine as BaseLines, ClientLine as ClientLines, DoneLine as DoneLines};
ghost use Rattle.seam_rule_rounds.specs.Prelude.{GhostLine as GhostLines, HomeLine as HomeLines};
ghost use Rattle.seam_defs.specs.Types.{type_of};
ghost use Rattle.seam_judge_data.specs.Standings.{standing_of};
ghost use Rattle.seam_law_texts.specs.TextLines.{done_words, home_words, base_words, ghost_words, client_words, state_words};
ghost use Rattle.seam_law_texts.specs.TextLines.{shown_words, told_words, value_words};
ghost use Rattle.seam_law_texts.specs.Forms.{IsBase, IsCopy, IsDone, IsGhost, IsHome, IsShown, IsTo, IsClientText};

use crate::context::{LineContext, deed, is_word};
use seam_call::{Call, ClientText, GhostCopy, Line, Shown};
use seam_defs::{Group, Part, Props};
use seam_judge_data::{BaseLine, ClientLine, DoneLine, GhostLine, HomeLine};
use seam_judge_words::{
    group_values, long_number, number, sender, small_number, state, word_at, words_from,
};
use seam_table::Shared;
use std::alloc::AllocError;

/// A call that a part executed, by the words after the first one.
pub(crate) fn done_line(
    known: &LineContext<'_>,
    part: Part,
    words: &[&[u8]],
) -> Result<DoneLine, AllocError>
    ensures form { IfOk result (IsDone known.now.header.now.defs
        (standing_of known.now.standing.now).book part) }
    ensures told { IfOk result (λ l. (m : DoneLines) → IsDone known.now.header.now.defs
        (standing_of known.now.standing.now).book part m → map (λ w. w.now) words.now
        ≡ done_words known.now.header.now.defs m → l ≡ m) }
{
    let entity = number(word_at(words, 0));
    let ty = known.type_of(entity);
    let deed = deed(known.alloc, known.type_at(ty), words_from(words, 3))?;
    Ok(DoneLine {
        ty,
        call: Call {
            entity,
            part,
            sender: sender(word_at(words, 1)),
            number: long_number(word_at(words, 2)),
            deed,
        },
    })
}

/// What is held of an entity where, by the words after the first one.
pub(crate) fn home_line(known: &LineContext<'_>, words: &[&[u8]]) -> Result<HomeLine, AllocError>
    ensures form { IfOk result (IsHome known.now.header.now.defs
        (standing_of known.now.standing.now).book) }
    ensures told { IfOk result (λ l. (m : HomeLines) → IsHome known.now.header.now.defs
        (standing_of known.now.standing.now).book m → map (λ w. w.now) words.now
        ≡ home_words known.now.header.now.defs m → l ≡ m) }
{
    let entity = number(word_at(words, 0));
    let ty = known.type_of(entity);
    let t = known.type_at(ty);
    Ok(HomeLine {
        entity,
        ty,
        cell: small_number(word_at(words, 1)),
        version: long_number(word_at(words, 2)),
        state: state(known.alloc, t, Group::Real, words_from(words, 3))?,
    })
}

/// The base part of an entity, by the words after the first one.
pub(crate) fn base_line(known: &LineContext<'_>, words: &[&[u8]]) -> Result<BaseLine, AllocError>
    ensures form { IfOk result (IsBase known.now.header.now.defs
        (standing_of known.now.standing.now).book) }
    ensures told { IfOk result (λ l. (m : BaseLines) → IsBase known.now.header.now.defs
        (standing_of known.now.standing.now).book m → map (λ w. w.now) words.now
        ≡ base_words known.now.header.now.defs m → l ≡ m) }
{
    let entity = number(word_at(words, 0));
    let ty = known.type_of(entity);
    let t = known.type_at(ty);
    let values = group_values(known.alloc, t, Group::Base, words_from(words, 2))?;
    Ok(BaseLine {
        entity,
        ty,
        version: long_number(word_at(words, 1)),
        props: Props::of(values)?,
    })
}

/// A ghost, by the words after the first one.
pub(crate) fn ghost_line(words: &[&[u8]]) -> GhostLine
    ensures form { IsGhost result }
    ensures told { (m : GhostLines) → IsGhost m → map (λ w. w.now) words.now ≡ ghost_words m →
        result ≡ m }
{
    GhostLine {
        entity: number(word_at(words, 0)),
        cell: small_number(word_at(words, 1)),
        version: long_number(word_at(words, 2)),
    }
}

// An entity as others are shown it, by the words from its version on.
fn copy_of(
    known: &LineContext<'_>,
    entity: u32,
    words: &[&[u8]],
) -> Result<Shared<GhostCopy>, AllocError>
    ensures form { IfOk result (IsCopy known.now.header.now.defs
        (standing_of known.now.standing.now).book entity) }
    ensures told { IfOk result (λ k. (j : GhostCopies) → IsCopy known.now.header.now.defs
        (standing_of known.now.standing.now).book entity j → map (λ w. w.now) words.now
        ≡ decimal_of j.version ∷ state_words (type_of known.now.header.now.defs j.ty) group.Other
        j.state → k ≡ j) }
{
    let ty = known.type_of(entity);
    let t = known.type_at(ty);
    let copy = GhostCopy {
        ty,
        version: long_number(word_at(words, 0)),
        state: state(known.alloc, t, Group::Other, words_from(words, 1))?,
    };
    Shared::new(known.alloc, copy)
}

// What the client of an entity of a type is shown of cell parts, by the words from `own`, `enter`, `set` or `leave` on.
fn shown(known: &LineContext<'_>, ty: u16, words: &[&[u8]]) -> Result<Shown, AllocError>
    ensures form { IfOk result (IsShown known.now.header.now.defs
        (standing_of known.now.standing.now).book ty) }
    ensures told { IfOk result (λ x. (y : AnyShown) → IsShown known.now.header.now.defs
        (standing_of known.now.standing.now).book ty y → map (λ w. w.now) words.now
        ≡ shown_words known.now.header.now.defs ty y → x ≡ y) }
{
    let word = word_at(words, 0);
    let other = number(word_at(words, 1));
    if is_word(word, b"own") {
        return own(known, ty, words_from(words, 1));
    }
    if is_word(word, b"enter") {
        let copy = copy_of(known, other, words_from(words, 3))?;
        return Ok(Shown::Enter(other, copy));
    }
    if is_word(word, b"set") {
        let copy = copy_of(known, other, words_from(words, 2))?;
        return Ok(Shown::Set(other, copy));
    }
    Ok(Shown::Leave(other))
}

// What it is shown of its own entity, by the words from the version on.
fn own(known: &LineContext<'_>, ty: u16, words: &[&[u8]]) -> Result<Shown, AllocError>
    ensures form { IfOk result (IsShown known.now.header.now.defs
        (standing_of known.now.standing.now).book ty) }
    ensures told { IfOk result (λ x. (v : ℕ) (s : States) → IsShown known.now.header.now.defs
        (standing_of known.now.standing.now).book ty (Shown.Own v s) → map (λ w. w.now) words.now
        ≡ decimal_of v ∷ state_words (type_of known.now.header.now.defs ty) group.Own s →
        x ≡ Shown.Own v s) }
{
    let t = known.type_at(ty);
    let state = state(known.alloc, t, Group::Own, words_from(words, 1))?;
    Ok(Shown::Own(
        long_number(word_at(words, 0)),
        Shared::new(known.alloc, state)?,
    ))
}

// What it is shown, by the words from the kind on.
fn text(known: &LineContext<'_>, ty: u16, words: &[&[u8]]) -> Result<ClientText, AllocError>
    ensures form { IfOk result (IsClientText known.now.header.now.defs
        (standing_of known.now.standing.now).book ty) }
    ensures told { IfOk result (λ x. (y : ClientTexts) → IsClientText known.now.header.now.defs
        (standing_of known.now.standing.now).book ty y → map (λ w. w.now) words.now
        ≡ told_words known.now.header.now.defs ty y → x ≡ y) }
{
    if is_word(word_at(words, 0), b"base") {
        return base_text(known, ty, words_from(words, 1));
    }
    Ok(ClientText::Shown(shown(known, ty, words)?))
}

// What it is shown of its base part, by the words from the version on.
fn base_text(known: &LineContext<'_>, ty: u16, words: &[&[u8]]) -> Result<ClientText, AllocError>
    ensures form { IfOk result (IsClientText known.now.header.now.defs
        (standing_of known.now.standing.now).book ty) }
    ensures told { IfOk result (λ x. (v : ℕ) (props : List Values) →
        IsClientText known.now.header.now.defs (standing_of known.now.standing.now).book ty
        (ClientText.Base v props) → map (λ w. w.now) words.now ≡ decimal_of v ∷
        value_words (type_of known.now.header.now.defs ty).properties group.BaseClient props →
        x ≡ ClientText.Base v props) }
{
    let t = known.type_at(ty);
    let values = group_values(known.alloc, t, Group::BaseClient, words_from(words, 1))?;
    Ok(ClientText::Base(long_number(word_at(words, 0)), Props::of(values)?))
}

/// A line that a client is shown, by the words after the first one.
pub(crate) fn client_line(
    known: &LineContext<'_>,
    words: &[&[u8]],
) -> Result<ClientLine, AllocError>
    ensures form { IfOk result (IsTo known.now.header.now.defs
        (standing_of known.now.standing.now).book) }
    ensures told { IfOk result (λ l. (m : ClientLines) → IsTo known.now.header.now.defs
        (standing_of known.now.standing.now).book m → map (λ w. w.now) words.now
        ≡ client_words known.now.header.now.defs m → l ≡ m) }
{
    let entity = number(word_at(words, 0));
    let ty = known.type_of(entity);
    Ok(ClientLine {
        entity,
        ty,
        line: Line {
            number: long_number(word_at(words, 1)),
            text: text(known, ty, words_from(words, 2))?,
        },
    })
}
