// SPDX-License-Identifier: MIT

//! Copies of entities of other cells, each under the greatest beat that came for it.
//!
//! Every message about an entity's ghost carries a beat, a number that rises from message to message. A message that
//! comes late, after one with a greater beat, is ignored, also where the copy was dropped in between. (After the
//! ghosts of the BigWorld Server Overview; the beats are of the kind of Lamport's clocks, 1978.)
#![tactic(auto)]

ghost use Rattle.std.specs.Prelude.{max, nat_lt, if◌then◌else◌, ◌≡◌, ◌≤◌, ◌≢◌, ℕ, IfOk, IfErr, OnOk, OnErr};
ghost use Rattle.std.specs.Prelude.{option_copied, Some, None};
ghost use Rattle.std.specs.Map.{keys_of};
ghost use Rattle.std.specs.FinMap as map;
ghost use Rattle.seam_ghosts.specs.declared.Ghost.{Ghost};
ghost use Rattle.seam_ghosts.specs.Joined.{book_of};
ghost use Rattle.seam_ghosts.specs.Book.{BookView, beat_of, copy_of, copies, answer, after_message, ghost_after, with_copies};

pub use seam_table::NoMemoryFor;
use seam_table::{HashKey, Table};
use std::alloc::{AllocError, Global};
use std::marker::Model;

/// What became of a message about a ghost.
#[derive(Clone, Copy, Debug, PartialEq, Eq)]
pub enum Kept {
    /// Its beat is the greatest so far, and the book changed.
    Taken,
    /// Its beat is not greater than that of an earlier one, and nothing changed.
    Ignored,
}

/// What is known of an entity: the greatest beat that came for it and, perhaps, a copy.
#[derive(Drop)]
pub struct Ghost<P> {
    pub beat: u64,
    pub copy: Option<P>,
}

/// A copy of an entity, and the beat at which it came.
#[derive(Drop)]
pub struct Held<P> {
    beat: u64,
    copy: P,
}

/// The copies of entities, each under the greatest beat that came for it.
///
/// Contracts see the ghost of each entity.
#[derive(Drop)]
pub struct GhostBook<P> {
    copies: Table<Held<P>>,
    // The beats at which copies were dropped, in a table of their own, so that they are forgotten at once. One of an entity that has a
    // copy again means nothing.
    dropped: Table<u64>,
}

impl<P> Model for GhostBook<P> {
    ghost use Rattle.seam_ghosts.specs.Joined.{book_of};
    ghost use Rattle.seam_ghosts.specs.Book.{BookView, book_code};

    ghost Value = { BookView P };

    ghost coded = { book_code P.code };

    ghost view = { λ b. book_of b.copies b.dropped };
}

impl<P: Drop> GhostBook<P> {
    /// A book that knows of no entity, and finds entities by a hash with this key.
    pub fn new(alloc: Global, key: HashKey) -> Self
        ensures { result ≡ record { ghosts = map.empty } }
    {
        GhostBook {
            copies: Table::new(alloc, key),
            dropped: Table::new(alloc, key),
        }
    }

    /// The greatest beat that came for the entity, or 0.
    pub fn beat(&self, e: u32) -> u64
        ensures { result ≡ beat_of self.now e }
    {
        known_beat(&self.copies, &self.dropped, e)
    }

    /// The entity's copy, if there is one.
    pub fn get(&self, e: u32) -> Option<&P>
        ensures { option_copied result ≡ copy_of self.now e }
    {
        copy_here(&self.copies, &self.dropped, e)
    }

    /// Takes the entity's copy as it is at this beat. It is ignored exactly where the beat is not greater than `beat(e)`.
    pub fn set(&mut self, e: u32, beat: u64, copy: P) -> Result<Kept, NoMemoryFor<P>>
        ensures answer { IfOk result (λ k. k ≡ answer (beat_of self.old e) beat) }
        ensures after { OnOk result (self.new ≡ after_message self.old e (record {
          beat = beat;
          copy = Some copy;
        })) }

        // Without memory the copy comes back and nothing has changed.
        ensures err { OnErr result (self.new ≡ self.old) }
        ensures err_item { IfErr result (λ r. r.item ≡ copy) }
    {
        set_copy(&mut self.copies, &self.dropped, e, beat, copy)
    }

    /// Drops the entity's copy at this beat, which is known from then on. It is ignored exactly where the beat is not
    /// greater than `beat(e)`.
    pub fn drop_copy(&mut self, e: u32, beat: u64) -> Result<Kept, AllocError>
        ensures answer { IfOk result (λ k. k ≡ answer (beat_of self.old e) beat) }
        ensures after { OnOk result (self.new ≡ after_message self.old e (record {
          beat = beat;
          copy = None;
        })) }

        // Without memory nothing has changed.
        ensures err { OnErr result (self.new ≡ self.old) }
    {
        drop_at(&mut self.copies, &mut self.dropped, e, beat)
    }

    /// Forgets the beats of entities that have no copy.
    pub fn forget_dropped(&mut self, alloc: Global, key: HashKey)
        ensures { self.new ≡ record { ghosts = with_copies self.old.ghosts } }
    {
        self.dropped = Table::new(alloc, key);
    }

    /// The entities that have copies, in rising number.
    pub fn entities(&self, alloc: Global) -> Result<Vec<u32>, AllocError>
        ensures { IfOk result (λ v. v.items ≡ keys_of (copies self.now)) }
    {
        self.copies.numbers(alloc)
    }
}

// The greatest beat that came for the entity, or 0.
fn known_beat<P: Drop>(copies: &Table<Held<P>>, dropped: &Table<u64>, e: u32) -> u64
    ensures { result ≡ beat_of (book_of copies.now dropped.now) e }
{
    match copies.get(e) {
        Some(held) => held.beat,
        None => match dropped.get(e) {
            Some(beat) => *beat,
            None => 0,
        },
    }
}

// The entity's copy, if there is one.
fn copy_here<'a, P: Drop>(copies: &'a Table<Held<P>>, dropped: &Table<u64>, e: u32) -> Option<&'a P>
    ensures { option_copied result ≡ copy_of (book_of copies.now dropped.now) e }
{
    match copies.get(e) {
        Some(held) => Some(&held.copy),
        None => None,
    }
}

// Puts the copy and its beat, where a lower beat is known or none.
fn set_copy<P: Drop>(
    copies: &mut Table<Held<P>>,
    dropped: &Table<u64>,
    e: u32,
    beat: u64,
    copy: P,
) -> Result<Kept, NoMemoryFor<P>>
    ensures answer { IfOk result (λ k. k
        ≡ answer (beat_of (book_of copies.old dropped.now) e) beat) }
    ensures after { OnOk result (book_of copies.new dropped.now
        ≡ after_message (book_of copies.old dropped.now) e (record {
          beat = beat;
          copy = Some copy;
        })) }
    ensures err { OnErr result (copies.new ≡ copies.old) }
    ensures err_item { IfErr result (λ r. r.item ≡ copy) }
{
    if beat <= known_beat(copies, dropped, e) {
        return Ok(Kept::Ignored);
    }
    match copies.put(e, Held { beat, copy }) {
        Ok(_) => return Ok(Kept::Taken),
        Err(refused) => {
            return Err(NoMemoryFor {
                item: refused.item.copy,
            });
        }
    }
}

// Notes the beat and takes the copy out, where a lower beat is known or none.
fn drop_at<P: Drop>(
    copies: &mut Table<Held<P>>,
    dropped: &mut Table<u64>,
    e: u32,
    beat: u64,
) -> Result<Kept, AllocError>
    ensures answer { IfOk result (λ k. k
        ≡ answer (beat_of (book_of copies.old dropped.old) e) beat) }
    ensures after { OnOk result (book_of copies.new dropped.new
        ≡ after_message (book_of copies.old dropped.old) e (record { beat = beat; copy = None })) }
    ensures err { OnErr result (book_of copies.new dropped.new
        ≡ book_of copies.old dropped.old) }
{
    let known = known_beat(copies, dropped, e);
    if known >= beat {
        return Ok(Kept::Ignored);
    }
    let Ok(_) = dropped.put(e, beat) else {
        return Err(AllocError);
    };
    let _ = copies.remove(e);
    Ok(Kept::Taken)
}

/// The beat of an entity never falls: after a message it is the greater of the message's beat and the one known, and where the
/// message's is greater, the copy is the message's. No other entity changes.
pub fn beats_never_fall<P>()
    ensures never_fall { (w : BookView P) (e : ℕ) (g : Ghost P) (q : ℕ) →
        beat_of w q ≤ beat_of (after_message w e g) q }
    ensures greatest { (w : BookView P) (e : ℕ) (g : Ghost P) → beat_of (after_message w e g) e
        ≡ max (beat_of w e) g.beat }
    ensures newest { (w : BookView P) (e : ℕ) (g : Ghost P) → copy_of (after_message w e g) e
        ≡ (if nat_lt (beat_of w e) g.beat then g.copy else copy_of w e) }
    ensures others { (w : BookView P) (e : ℕ) (g : Ghost P) (q : ℕ) → q ≢ e →
        map.get (after_message w e g).ghosts q ≡ map.get w.ghosts q }
    ensures entry { (w : BookView P) (e : ℕ) (g : Ghost P) → map.get (after_message w e g).ghosts e
        ≡ ghost_after (map.get w.ghosts e) g }
{}
