// SPDX-License-Identifier: MIT

//! Which entities a witness has in view, and what its client was shown of them.
//!
//! An entity enters a view within a radius, and leaves it beyond the radius and a hysteresis. (After the area of interest of the BigWorld
//! Server Overview.)
//!
//! Those in view lie in enter order, with their places in rising number beside them. Beside them is kept at which version each that ever
//! left did so last; it is asked only of those that are not in view.
//!
//! A plan goes through those in view by number beside those known, and notes in enter order what becomes of each; leaves and sets are read
//! off the notes. Where the next one is looked for first is a guess, of which no clause speaks. A plan makes no place for a set: so looks
//! have room only where each that they set is in view when its turn comes (*HasRoom*).
//!
//! For callers, of `proofs/`: `Kept` (what a look leaves of a view is a view) and `Room` (what has room for looks has room for fewer).
#![tactic(auto)]

ghost use Rattle.std.specs.Prelude.{◌≡◌, ◌≤◌, ◌++◌, ◌∷◌, ℕ, List, [], filter, map, length, slice_get, option_copied, IfOk, OnOk, is_some};
ghost use Rattle.std.specs.Prelude.{true, false, not, IfSome, IfNone, drop, None, Some, if◌then◌else◌};
ghost use Rattle.std.specs.Ordering.{nat_cmp};
ghost use Rattle.std.specs.List.Sorted.{IsStrictlySortedBy};
ghost use Rattle.std.specs.Prelude.{◌<◌, ◌+◌, ◌^◌, nat_eq};
ghost use Rattle.std.specs.List.{AllWithin, IsDistinct, list_any};
ghost use Rattle.std.specs.Map.{keys_of, lookup};
ghost use Rattle.seam_geo.specs.declared.pos.Pos.{Pos};
ghost use Rattle.seam_view.specs.declared.Seen.{Seen};
ghost use Rattle.seam_view.specs.declared.Look.{Look};
ghost use Rattle.seam_view.specs.declared.Look.TheVariants.{Leave, Set};
ghost use Rattle.std.specs.FinMap as versions;
ghost use Rattle.seam_view.specs.Replica.{Replica, IsView, AreShown, NeverFalls, HasRoom, without, seen_of, with_version_shown};
ghost use Rattle.seam_view.specs.Replica.{after_showing, after_look, after_looks, enters_in, leaves_in};
ghost use Rattle.seam_view.specs.Together.{leaves_next, looks_past, looks_past_all, left_past_all, kept_past_all};
ghost use Rattle.seam_view.specs.ViewLooks.{is_far, in_view, not_older, enters, entering, one_look, matters};
ghost use Rattle.seam_view.specs.Notes.{note_of, notes_of, is_leave, is_change, noted};
ghost use Rattle.seam_view.specs.Plain.{plain_look, AreNotOlder};

use departed::Departed;
use numbered::Entered;
use seam_geo::{Pos, dist};
use seam_hash::HashKey;
use seam_version::may_be_shown;
use std::alloc::{AllocError, Global};
use std::marker::Model;

mod departed;
mod numbered;

/// What is known of an entity: its public version and its position.
#[derive(Clone, Copy, Debug, PartialEq, Eq)]
pub struct Seen {
    pub entity: u32,
    pub version: u64,
    pub pos: Pos,
}

/// A change of a view.
#[derive(Clone, Copy, Debug, PartialEq, Eq)]
pub enum Look {
    /// The entity leaves the view.
    Leave(u32),
    /// The entity stays, and is shown at a greater version.
    Set(u32),
    /// The entity enters the view.
    Enter(u32),
}

// How many of those known are tried before all are searched.
const TRIED: usize = 8;

// What a look makes of an entity in view.
#[derive(Clone, Copy)]
enum Note {
    // It stays as it was shown.
    Stays,
    // It leaves: nothing is known of it, or it is known to be far.
    Leaves,
    // It stays, and has changed.
    Changed,
}

/// The entities in view, in enter order, each with the version last shown, and those that ever left, each with the version at which it did
/// last.
///
/// Contracts see these as a replica of what the client was shown, and beside it how many more can enter, and how many leave, without
/// memory.
#[derive(Drop)]
pub struct View {
    alloc: Global,
    radius: u32,
    hysteresis: u32,
    view: Entered,
    left: Departed,
}

impl Model for View {
    ghost use Rattle.seam_view.specs.Replica.{ViewValue, IsView, view_code};

    ghost Value = { ViewValue };

    ghost coded = { view_code };

    ghost use Rattle.std.specs.Prelude.{◌++◌};
    ghost use Rattle.std.specs.FinMap.{from_entries};

    ghost view = { λ v. record {
      core = record {
        radius = v.radius;
        hysteresis = v.hysteresis;
        entries = v.view.entries;
        shown = from_entries (v.view.entries ++ v.left.entries);
      };
      enters = v.view.room;
      leaves = v.left.room;
    } };

    ghost invariant = { λ v. IsView (record {
      radius = v.radius;
      hysteresis = v.hysteresis;
      entries = v.view.entries;
      shown = from_entries (v.view.entries ++ v.left.entries);
    }) };
}

impl View {
    /// A view of no entity. It takes in what is within the radius, and leaves out what is beyond radius and hysteresis together.
    /// It finds those that left of late by a hash with this key.
    pub fn new(alloc: Global, key: HashKey, radius: u32, hysteresis: u32) -> View
        ensures { result.core ≡ record {
          radius = radius;
          hysteresis = hysteresis;
          entries = [];
          shown = versions.empty;
        } }
    {
        View {
            alloc,
            radius,
            hysteresis,
            view: Entered::new(alloc),
            left: Departed::new(alloc, key),
        }
    }

    /// The view with these entities in this enter order, each with the version last shown, and these versions shown, also of
    /// entities that left. Each pair of `view` stands in `shown`. The key of the hash of those that left is a known one.
    pub fn of_lists(
        alloc: Global,
        radius: u32,
        hysteresis: u32,
        view: &[(u32, u64)],
        shown: &[(u32, u64)],
    ) -> Result<View, AllocError>
        requires once { IsDistinct nat_eq (keys_of view.now) }
        requires rising { IsStrictlySortedBy nat_cmp (keys_of shown.now) }
        requires last { AreShown (versions.from_entries shown.now) view.now }
        ensures { IfOk result (λ v. v.core ≡ record {
          radius = radius;
          hysteresis = hysteresis;
          entries = view.now;
          shown = versions.from_entries shown.now;
        }) }
    {
        let left = Departed::of_pairs(alloc, HashKey::new(0), shown)?;
        let view = Entered::of_pairs(alloc, view)?;
        Ok(View {
            alloc,
            radius,
            hysteresis,
            view,
            left,
        })
    }

    /// How many entities are in view. None is there twice, and `at` gives the version that `shown` gives.
    pub fn len(&self) -> usize
        ensures count { result ≡ length self.now.core.entries }
        ensures view { IsView self.now.core }
    {
        self.view.len()
    }

    /// The entity at place i of the enter order, and the version last shown of it; none where i is not below `len`.
    pub fn at(&self, i: usize) -> Option<(u32, u64)>
        ensures { result ≡ slice_get self.now.core.entries i }
    {
        self.view.get(i)
    }

    /// The version last shown of the entity, also of one that left; none where it was never shown.
    pub fn shown(&self, e: u32) -> Option<u64>
        ensures { result ≡ versions.get self.now.core.shown e }
    {
        match self.view.find(e, &mut self.view.len()) {
            Some((_, version)) => Some(version),
            None => self.shown_before(e),
        }
    }

    // The version last shown of an entity that is not in view. Mostly none has left, and then nothing is looked up.
    fn shown_before(&self, e: u32) -> Option<u64>
        requires { in_view self.now.core e ≡ false }
        ensures { result ≡ versions.get self.now.core.shown e }
    {
        if self.left.is_empty() {
            return None;
        }
        self.left.get(e)
    }

    /// The radius and the hysteresis together: beyond it nothing matters that is not in view. None where a `u32` does not hold it.
    pub fn reach(&self) -> Option<u32>
        ensures sum { IfSome result (λ d. d ≡ self.now.core.radius + self.now.core.hysteresis) }
        ensures none { IfNone result (2 ^ 32 ≤ self.now.core.radius + self.now.core.hysteresis) }
    {
        self.radius.checked_add(self.hysteresis)
    }

    // Whether the position is farther than radius and hysteresis together.
    fn is_far(&self, own: Pos, p: Pos) -> bool
        ensures { result ≡ is_far self.now.core own p }
    {
        u64::from(dist(own, p)) > u64::from(self.radius) + u64::from(self.hysteresis)
    }

    // Whether the version is not older than the one shown of an entity that is not in view, if any was.
    fn may_show(&self, e: u32, version: u64) -> bool
        requires { in_view self.now.core e ≡ false }
        ensures { result ≡ not_older (versions.get self.now.core.shown e) version }
    {
        may_be_shown(self.shown_before(e), version)
    }

    // Whether a known entity that is not in view enters.
    fn is_entering(&self, own: Pos, seen: &Seen) -> bool
        requires { in_view self.now.core seen.now.entity ≡ false }
        ensures { result ≡ enters self.now.core own seen.now }
    {
        dist(own, seen.pos) <= self.radius && self.may_show(seen.entity, seen.version)
    }

    // What a look makes of an entity in view that is known, and was shown at this version.
    fn note(&self, own: Pos, version: u64, seen: &Seen) -> Note
        ensures { result ≡ note_of self.now.core own version (Some seen.now) }
    {
        if self.is_far(own, seen.pos) {
            if version <= seen.version {
                Note::Leaves
            } else {
                Note::Stays
            }
        } else if version < seen.version {
            Note::Changed
        } else {
            Note::Stays
        }
    }

    // The place of an entity in view, and the version that it was shown at. By number, those from `next` on are tried before all are
    // searched, and `next` is then past the entity.
    fn place_in_view(&self, e: u32, next: &mut usize) -> Option<(usize, u64)>
        ensures there { IfSome result (λ r. slice_get self.now.core.entries r.0 ≡ Some (e, r.1)) }
        ensures none { IfNone result (in_view self.now.core e ≡ false) }
    {
        self.view.find(e, next)
    }

    // What a look makes of each entity in view, in enter order, and the enters, in rising number. Those in view are
    // gone through by number beside those known.
    fn note_known(&self, own: Pos, known: &[Seen]) -> Result<(Vec<Note>, Vec<Look>), AllocError>
        requires { IsStrictlySortedBy nat_cmp (map (λ s. s.entity) known.now) }
        ensures notes { IfOk result (λ r. r.0.items ≡ notes_of self.now.core own known.now) }
        ensures enters { IfOk result (λ r. r.1.items ≡ entering self.now.core own known.now) }
    {
        let mut notes = vec![in self.alloc; Note::Leaves; self.view.len()]?;
        let mut enters = Vec::with_capacity(self.alloc, known.len())?;
        let mut next = 0;
        for seen in known {
            match self.place_in_view(seen.entity, &mut next) {
                Some((i, version)) => {
                    notes[i] = self.note(own, version, seen);
                }
                None => {
                    if self.is_entering(own, seen) {
                        enters.push(Look::Enter(seen.entity))?;
                    }
                }
            }
        }
        Ok((notes, enters))
    }

    // The entity at the place of the enter order.
    fn entity_at(&self, i: usize) -> u32
        requires { i < length self.now.core.entries }
        ensures { slice_get (keys_of self.now.core.entries) i ≡ Some result }
    {
        let Some((e, _)) = self.view.get(i) else {
            unreachable!()
        };
        e
    }

    // Appends the leaves to the looks, in enter order, and the sets to theirs.
    fn push_noted(
        &self,
        notes: &[Note],
        looks: &mut Vec<Look>,
        sets: &mut Vec<Look>,
    ) -> Result<(), AllocError>
        requires { length notes.now ≡ length self.now.core.entries }
        ensures leaves { OnOk result (looks.new.items ≡ looks.old.items
            ++ map (λ e. Leave e) (noted is_leave notes.now (keys_of self.now.core.entries))) }
        ensures sets { OnOk result (sets.new.items ≡ sets.old.items
            ++ map (λ e. Set e) (noted is_change notes.now (keys_of self.now.core.entries))) }
    {
        for i in 0..notes.len() {
            match notes[i] {
                Note::Stays => {}
                Note::Leaves => looks.push(Look::Leave(self.entity_at(i)))?,
                Note::Changed => sets.push(Look::Set(self.entity_at(i)))?,
            }
        }
        Ok(())
    }

    // Makes places in view for as many as enter, and beside it for as many as leave.
    fn reserve(&mut self, enters: usize, leaves: usize) -> Result<(), AllocError>
        ensures same { self.new.core ≡ self.old.core }
        ensures enters { OnOk result (enters ≤ self.new.enters) }
        ensures leaves { OnOk result (leaves ≤ self.new.leaves) }
    {
        self.view.reserve(enters)?;
        self.left.reserve(leaves)
    }

    /// The looks that bring the view up to what is known, for a witness at `own`: the leaves in enter order, the sets
    /// in enter order, and the enters in rising number. It changes nothing, and makes room to keep the looks.
    ///
    /// What is known is in rising entity number, and the witness itself is not among it.
    pub fn plan(&mut self, own: Pos, known: &[Seen]) -> Result<Vec<Look>, AllocError>
        requires { IsStrictlySortedBy nat_cmp (map (λ s. s.entity) known.now) }
        ensures looks { IfOk result (λ v. v.items ≡ one_look self.old.core own known.now) }
        ensures room { IfOk result (λ v. HasRoom self.new v.items) }
        ensures same { self.new.core ≡ self.old.core }
    {
        let (notes, mut enters) = self.note_known(own, known)?;
        let mut looks = Vec::new(self.alloc);
        let mut sets = Vec::new(self.alloc);
        self.push_noted(&notes, &mut looks, &mut sets)?;
        self.reserve(enters.len(), looks.len())?;
        looks.append(&mut sets)?;
        looks.append(&mut enters)?;
        Ok(looks)
    }

    // Takes the entity out of the view. The version last shown is kept beside it.
    fn leave(&mut self, e: u32)
        requires place { 0 < self.old.leaves }
        ensures core { self.new.core ≡ record self.old.core {
          entries =
              without e self.old.core.entries;
        } }
        ensures enters { self.old.enters ≤ self.new.enters }
        ensures leaves { self.old.leaves ≤ self.new.leaves + 1 }
    {
        let _ = self.view.take_out(&mut self.left, &[Look::Leave(e)]);
    }

    // Shows an entity in view at this version. It is looked for in enter order from `place` on and by number from `next` on.
    fn set(&mut self, e: u32, version: u64, place: &mut usize, next: &mut usize)
        requires { in_view self.old.core e ≡ true }
        ensures core { self.new.core ≡ with_version_shown self.old.core e version }
        ensures enters { self.old.enters ≤ self.new.enters }
        ensures leaves { self.old.leaves ≤ self.new.leaves }
    {
        self.view.set(e, version, place, next);
    }

    // Sets an entity as it is known.
    fn set_known(&mut self, e: u32, seen: Option<&Seen>, place: &mut usize, next: &mut usize)
        requires { in_view self.old.core e ≡ true }
        ensures core { self.new.core ≡ after_showing self.old.core e (option_copied seen.entry) }
        ensures enters { self.old.enters ≤ self.new.enters }
        ensures leaves { self.old.leaves ≤ self.new.leaves }
    {
        match seen {
            Some(seen) => self.set(e, seen.version, place, next),
            None => return,
        }
    }

    // Shows an entity that enters at this version. Its place by number is looked for from `next` on.
    fn enter(&mut self, e: u32, version: u64, next: &mut usize)
        requires place { 0 < self.old.enters }
        ensures core { self.new.core ≡ with_version_shown self.old.core e version }
        ensures enters { self.old.enters ≤ self.new.enters + 1 }
        ensures leaves { self.old.leaves ≤ self.new.leaves }
    {
        self.view.show(e, version, next);
    }

    // Lets an entity enter as it is known.
    fn enter_known(&mut self, e: u32, seen: Option<&Seen>, next: &mut usize)
        requires place { 0 < self.old.enters }
        ensures core { self.new.core ≡ after_showing self.old.core e (option_copied seen.entry) }
        ensures enters { self.old.enters ≤ self.new.enters + 1 }
        ensures leaves { self.old.leaves ≤ self.new.leaves }
    {
        match seen {
            Some(seen) => self.enter(e, seen.version, next),
            None => return,
        }
    }

    // Keeps one look. What is known of its entity is looked for from the place `from` on, and the entity in view from `next` on, both by
    // number, and one that is set from `place` on in enter order; these then go on past it.
    fn keep_look(
        &mut self,
        known: &[Seen],
        look: &Look,
        from: &mut usize,
        place: &mut usize,
        next: &mut usize,
    )
        requires rising { IsStrictlySortedBy nat_cmp (map (λ s. s.entity) known.now) }
        requires room { HasRoom self.old (look.now ∷ []) }
        ensures core { self.new.core ≡ after_look known.now self.old.core look.now }
        ensures enters { self.old.enters ≤ self.new.enters + enters_in (look.now ∷ []) }
        ensures leaves { self.old.leaves ≤ self.new.leaves + leaves_in (look.now ∷ []) }
    {
        match look {
            Look::Leave(e) => self.leave(*e),
            Look::Set(e) => self.set_known(*e, find_seen(known, *e, from), place, next),
            Look::Enter(e) => self.enter_known(*e, find_seen(known, *e, from), next),
        }
    }

    // Takes the entities whose leaves come first among the looks, in enter order as `plan` gives them, out of the view in one
    // pass: one by one, each leave would move all entries after it. The looks past these leaves remain.
    fn leave_together<'a>(&mut self, looks: &'a [Look]) -> &'a [Look]
        requires room { HasRoom self.old looks.now }
        ensures same_after { (known : List Seen) →
            after_looks known self.new.core result.now ≡ after_looks known self.old.core looks.now }
        ensures room { HasRoom self.new result.now }
    {
        let Some(Look::Leave(_)) = looks.first() else {
            return looks;
        };
        self.view.take_out(&mut self.left, looks)
    }

    // Keeps the first of the looks, so many. The looks past these remain.
    fn keep_first<'a>(&mut self, known: &[Seen], looks: &'a [Look], many: usize) -> &'a [Look]
        requires rising { IsStrictlySortedBy nat_cmp (map (λ s. s.entity) known.now) }
        requires many { many ≤ length looks.now }
        requires room { HasRoom self.old looks.now }
        ensures rest { result.now ≡ drop many looks.now }
        ensures same_after { after_looks known.now self.new.core result.now
            ≡ after_looks known.now self.old.core looks.now }
        ensures room { HasRoom self.new result.now }
    {
        let (mut from, mut place, mut next) = (0, 0, 0);
        for i in 0..many {
            self.keep_look(known, &looks[i], &mut from, &mut place, &mut next);
        }
        &looks[many..]
    }

    // Lets those enter whose enters come first among the looks, in rising number as `plan` gives them, in one pass where many enter: one by
    // one, each would move all that are after it by number. The looks past these remain.
    fn enter_together<'a>(&mut self, known: &[Seen], looks: &'a [Look]) -> &'a [Look]
        requires rising { IsStrictlySortedBy nat_cmp (map (λ s. s.entity) known.now) }
        requires room { HasRoom self.old looks.now }
        ensures same_after { after_looks known.now self.new.core result.now
            ≡ after_looks known.now self.old.core looks.now }
        ensures room { HasRoom self.new result.now }
    {
        self.view.show_rising(known, looks)
    }

    /// Keeps the looks that `plan` gave for what is known: they have been shown from now on. It takes no memory.
    pub fn keep(&mut self, known: &[Seen], looks: &[Look])
        requires rising { IsStrictlySortedBy nat_cmp (map (λ s. s.entity) known.now) }
        requires room { HasRoom self.old looks.now }
        ensures { self.new.core ≡ after_looks known.now self.old.core looks.now }
    {
        let past_leaves = self.leave_together(looks);
        let past_sets = self.keep_first(known, past_leaves, many_before_enters(past_leaves));
        let past_enters = self.enter_together(known, past_sets);
        let _ = self.keep_first(known, past_enters, past_enters.len());
    }
}

// How many looks come before the enters, which come last as `plan` gives them.
fn many_before_enters(looks: &[Look]) -> usize
    ensures { result ≤ length looks.now }
{
    looks.partition_point(|look| !matches!(look, Look::Enter(_)))
}

// How many of those known have numbers below e.
fn place_of(known: &[Seen], e: u32) -> usize
    requires { IsStrictlySortedBy nat_cmp (map (λ s. s.entity) known.now) }
    ensures bound { result ≤ length known.now }
    ensures below { AllWithin (λ s. s.entity < e) known.now 0 result }
    ensures above { AllWithin (λ s. e ≤ s.entity) known.now result (length known.now) }
{
    known.partition_point(|seen| seen.entity < e)
}

// What is known of the entity. The looks come mostly in rising number, as those known do, so the few from the place on are tried
// before all are searched, and the place goes on past the entity.
fn find_seen<'a>(known: &'a [Seen], e: u32, from: &mut usize) -> Option<&'a Seen>
    requires { IsStrictlySortedBy nat_cmp (map (λ s. s.entity) known.now) }
    ensures { option_copied result ≡ seen_of e known.now }
{
    for at in *from..known.len().min(from.saturating_add(TRIED)) {
        let seen = &known[at];
        if seen.entity == e {
            *from = at + 1;
            return Some(seen);
        }
        if e < seen.entity {
            break;
        }
    }
    let at = place_of(known, e);
    *from = at;
    let Some(seen) = known.get(at) else {
        return None;
    };
    if seen.entity == e { Some(seen) } else { None }
}

/// What is known of entities that are neither in view nor near makes no difference: two lists that agree on all the others give the
/// same looks, which leave the same.
pub fn only_near_matters()
    ensures looks { (r : Replica) (own : Pos) (known other : List Seen) →
        filter (matters r own) known ≡ filter (matters r own) other →
        one_look r own known ≡ one_look r own other }
    ensures kept { (r : Replica) (own : Pos) (known other : List Seen) →
        IsStrictlySortedBy nat_cmp (map (λ s. s.entity) known) →
        IsStrictlySortedBy nat_cmp (map (λ s. s.entity) other) → filter (matters r own) known
        ≡ filter (matters r own) other → after_looks known r (one_look r own known)
        ≡ after_looks other r (one_look r own known) }
{}

/// No version shown ever falls: after the looks that `plan` gives for what is known, each entity is shown at the version that it was
/// shown at, or at a later one, also where it left. And what a look leaves is a view.
pub fn versions_shown_never_fall()
    ensures never_fall { (r : Replica) (own : Pos) (known : List Seen) → IsView r →
        IsStrictlySortedBy nat_cmp (map (λ s. s.entity) known) →
        NeverFalls r (after_looks known r (one_look r own known)) }
    ensures view { (r : Replica) (known : List Seen) (looks : List Look) → IsView r →
        IsView (after_looks known r looks) }
{}

/// Where nothing was shown at a greater version than is known, `plan` gives the look at a flat table.
pub fn looks_are_plain()
    ensures { (r : Replica) (own : Pos) (known : List Seen) → IsView r → AreNotOlder r known →
        one_look r own known ≡ plain_look r own known }
{}
