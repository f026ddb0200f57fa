//! Entities in enter order, each with the version last shown, that are found by their numbers.
#![tactic(auto)]

ghost use Rattle.std.specs.Prelude.{◌≡◌, ◌≤◌, ◌<◌, ◌+◌, ◌-◌, ◌∷◌, ℕ, [], map, drop, length, slice_get, slice_index, nat_eq};
ghost use Rattle.std.specs.Prelude.{IfOk, IfErr, OnOk, IfSome, IfNone, None, Some, ◌≢◌, is_some, true, false, not};
ghost use Rattle.std.specs.Prelude.{if◌then◌else◌, ◌^◌, slice_index_or};
ghost use Rattle.std.specs.Bool.{OnTrue, OnFalse};
ghost use Rattle.std.specs.List.{AllWithin, IsDistinct, filter, insert, list_any};
ghost use Rattle.std.specs.Map.{keys_of, lookup};
ghost use Rattle.std.specs.Vec.{vec_len, vec_capacity};
ghost use Rattle.std.specs.Ordering.{nat_cmp};
ghost use Rattle.std.specs.List.Sorted.{IsStrictlySortedBy};
ghost use Rattle.seam_view.specs.declared.Look.TheVariants.{Enter};
ghost use Rattle.seam_view.specs.Replica.{placed, enters_in, leaves_in, seen_of};
ghost use Rattle.seam_view.specs.Together.{leaves_next, looks_past_all, left_past_all, kept_past_all};
ghost use Rattle.seam_view.specs.Run.{AreKept};
ghost use Rattle.seam_view.specs.ByNumber.{IsByNumber, GoInOrder, entries_of, number_at, stays, nowhere};
ghost use Rattle.seam_view.specs.Passing.{places_of, to_come, HasSlots};

use super::departed::Departed;
use super::{Look, Seen, find_seen};
use std::alloc::{AllocError, Global};
use std::marker::Model;
use std::mem::replace;

// How many by number are tried before all are searched.
const TRIED: usize = 8;

// How many on in enter order are tried: those that are set come in that order, and others lie between them.
const TRIED_ON: usize = 32;

// Stands for the place of one that leaves.
const NOWHERE: u32 = u32::MAX;

// Where at least so many enter among as many, they are merged into the order by number.
const MANY: usize = 8;

// An insert moves so many places in the time in which a merge moves one.
const MOVED: usize = 32;

#[derive(Clone, Copy)]
pub struct Slot {
    entity: u32,
    // The place that it goes to when others leave. It means nothing between looks, and fills what would be padding.
    to: u32,
    version: u64,
}

/// The entities in view, in enter order, each with the version last shown.
///
/// Contracts see these, and how many more can enter without memory.
#[derive(Drop)]
pub struct Entered {
    slots: Vec<Slot>,
    // The places of the slots, in rising entity number.
    by_number: Vec<u32>,
    // Room in which these places are merged with those of many that enter. It is given back once they have entered.
    merged: Vec<u32>,
}

impl Model for Entered {
    ghost use Rattle.seam_view.specs.ByNumber.{KeptValue, kept_code, entries_of, IsByNumber};

    ghost Value = { KeptValue };

    ghost coded = { kept_code };

    ghost use Rattle.std.specs.Prelude.{◌-◌, min, length};
    ghost use Rattle.std.specs.Map.{keys_of};
    ghost use Rattle.std.specs.Vec.{vec_len, vec_capacity};

    ghost view = { λ v. record {
      entries = entries_of v.slots.items;
      room = min (0xffff_ffff - length v.slots.items)
          (min (vec_capacity v.slots - vec_len v.slots) (vec_capacity v.by_number - vec_len v.by_number));
    } };

    ghost invariant = { λ v. IsByNumber (keys_of (entries_of v.slots.items)) v.by_number.items };
}

impl Entered {
    pub fn new(alloc: Global) -> Entered
        ensures { result.entries ≡ [] }
    {
        Entered {
            slots: Vec::new(alloc),
            by_number: Vec::new(alloc),
            merged: Vec::new(alloc),
        }
    }

    // The pairs in this order.
    pub fn of_pairs(alloc: Global, pairs: &[(u32, u64)]) -> Result<Entered, AllocError>
        requires { IsDistinct nat_eq (keys_of pairs.now) }
        ensures { IfOk result (λ v. v.entries ≡ pairs.now) }
    {
        let mut made = Entered::new(alloc);
        made.reserve(pairs.len())?;
        let mut next = 0;
        for (e, version) in pairs {
            made.show(*e, *version, &mut next);
        }
        Ok(made)
    }

    pub fn len(&self) -> usize
        ensures { result ≡ length self.now.entries }
    {
        self.slots.len()
    }

    pub fn get(&self, i: usize) -> Option<(u32, u64)>
        ensures { result ≡ slice_get self.now.entries i }
    {
        match self.slots.get(i) {
            Some(slot) => Some((slot.entity, slot.version)),
            None => None,
        }
    }

    // The place of the entity, and the version that it was shown at. By number, those from `next` on are tried before all are
    // searched, and `next` is then past the entity.
    pub fn find(&self, e: u32, next: &mut usize) -> Option<(usize, u64)>
        ensures there { IfSome result (λ r. slice_get self.now.entries r.0 ≡ Some (e, r.1)) }
        ensures none { IfNone result (list_any (λ p. nat_eq e p.0) self.now.entries ≡ false) }
    {
        match rank_of(&self.slots, &self.by_number, e, *next) {
            Ok(rank) => {
                *next = rank + 1;
                let i = self.by_number[rank] as usize;
                Some((i, self.slots[i].version))
            }
            Err(rank) => {
                *next = rank;
                None
            }
        }
    }

    // The same, where in enter order the few from `place` on are tried first.
    fn find_on(&self, e: u32, place: usize, next: &mut usize) -> Option<(usize, u64)>
        ensures there { IfSome result (λ r. slice_get self.now.entries r.0 ≡ Some (e, r.1)) }
        ensures none { IfNone result (list_any (λ p. nat_eq e p.0) self.now.entries ≡ false) }
    {
        match few_on(&self.slots, e, place) {
            Some(i) => Some((i, self.slots[i].version)),
            None => self.find(e, next),
        }
    }

    // Shows an entity in view at this version. It is looked for in enter order from `place` on and by number from `next` on.
    pub fn set(&mut self, e: u32, version: u64, place: &mut usize, next: &mut usize)
        requires { list_any (λ p. nat_eq e p.0) self.old.entries ≡ true }
        ensures entries { self.new.entries ≡ placed e version self.old.entries }
        ensures room { self.old.room ≤ self.new.room }
    {
        let Some((i, _)) = self.find_on(e, *place, next) else {
            unreachable!()
        };
        *place = i + 1;
        self.slots[i].version = version;
    }

    // Makes room for so many more.
    pub fn reserve(&mut self, more: usize) -> Result<(), AllocError>
        ensures same { self.new.entries ≡ self.old.entries }
        ensures room { OnOk result (more ≤ self.new.room) }
    {
        // Each place is a `u32` below this one.
        if more > NOWHERE as usize - self.slots.len() {
            return Err(AllocError);
        }
        self.slots.reserve(more)?;
        self.by_number.reserve(more)?;
        let held = self.by_number.len();
        if more.min(held) >= MANY && more >= held / MOVED {
            self.merged.reserve(self.by_number.capacity())?;
        }
        Ok(())
    }

    // Shows the entity at this version. One that was not in view comes last. By number, it is looked for from `next` on.
    pub fn show(&mut self, e: u32, version: u64, next: &mut usize)
        requires room { list_any (λ p. nat_eq e p.0) self.old.entries ≡ false → 0 < self.old.room }
        ensures entries { self.new.entries ≡ placed e version self.old.entries }
        ensures room { self.old.room ≤ self.new.room + (if list_any (λ p. nat_eq e p.0)
            self.old.entries then 0 else 1) }
    {
        match rank_of(&self.slots, &self.by_number, e, *next) {
            Ok(rank) => {
                *next = rank + 1;
                let i = self.by_number[rank] as usize;
                self.slots[i].version = version;
            }
            Err(rank) => {
                *next = rank + 1;
                let place = self.slots.len() as u32;
                self.slots.push_reserved(Slot {
                    entity: e,
                    to: place,
                    version,
                });
                insert_at(&mut self.by_number, rank, place);
            }
        }
    }

    // Takes the entities whose leaves come first among the looks, in enter order, out of those in view in one pass: they are now
    // among those that left. The looks past these leaves remain.
    pub fn take_out<'a>(&mut self, left: &mut Departed, looks: &'a [Look]) -> &'a [Look]
        requires room { leaves_in looks.now ≤ left.old.room }
        ensures rest { result.now ≡ looks_past_all looks.now self.old.entries }
        ensures kept { self.new.entries ≡ kept_past_all looks.now self.old.entries }
        ensures left { (q : ℕ) → lookup (nat_eq q) left.new.entries
            ≡ left_past_all looks.now self.old.entries (λ x. lookup (nat_eq x) left.old.entries) q }
        ensures room { self.old.room ≤ self.new.room }
        ensures room_left { left.old.room + leaves_in result.now
            ≤ left.new.room + leaves_in looks.now }
    {
        let rest = send_off(&mut self.slots, left, looks);
        close_up(&mut self.slots, &mut self.by_number);
        rest
    }

    // Shows those that enter by the first of the looks, as long as they are known and not in view and their numbers rise, where `reserve`
    // made room for a merge. The looks past these remain.
    pub fn show_rising<'a>(&mut self, known: &[Seen], looks: &'a [Look]) -> &'a [Look]
        requires rising { IsStrictlySortedBy nat_cmp (map (λ s. s.entity) known.now) }
        requires room { enters_in looks.now ≤ self.old.room }
        ensures kept { AreKept known.now self.old.entries looks.now self.new.entries
            result.now }
        ensures room { enters_in result.now ≤ self.new.room }
    {
        if self.merged.capacity() < self.by_number.capacity() {
            return looks;
        }
        let alloc = *self.by_number.allocator();
        let mut passed = replace(&mut self.merged, Vec::new(alloc));
        passed.clear();
        let all = replace(&mut self.by_number, Vec::new(alloc));
        let mut passing = Passing {
            passed,
            all,
            next: 0,
        };
        let rest = show_first(&mut self.slots, &mut passing, known, looks);
        self.by_number = passing.finish();
        rest
    }
}

// The places by number while many enter in rising number: those passed, and those to come, which are the ones of `all` from `next` on.
#[derive(Drop)]
struct Passing {
    passed: Vec<u32>,
    all: Vec<u32>,
    next: usize,
}

impl Passing {
    // Passes those with numbers below e. Whether the next one has another number.
    fn pass_below(&mut self, slots: &[Slot], e: u32) -> bool
        requires within { self.old.next ≤ length self.old.all.items }
        requires room { vec_len self.old.passed + length (to_come self.old)
            ≤ vec_capacity self.old.passed }
        ensures within { self.new.next ≤ length self.new.all.items }
        ensures same { places_of self.new ≡ places_of self.old }
        ensures below { AllWithin (λ i. number_at slots.now i < e) (places_of self.old) 0
            (length self.old.passed.items) → AllWithin (λ i. number_at slots.now i < e)
            (places_of self.new) 0 (length self.new.passed.items) }
        ensures above { result ≡ true → self.new.next < length self.new.all.items →
            e < number_at slots.now (slice_index self.new.all.items self.new.next) }
        ensures len { vec_len self.new.passed + length (to_come self.new)
            ≡ vec_len self.old.passed + length (to_come self.old) }
        ensures capacity { vec_capacity self.new.passed ≡ vec_capacity self.old.passed }
    {
        for i in self.next..self.all.len() {
            let place = self.all[i];
            let entity = entity_at(slots, place);
            if entity >= e {
                return entity > e;
            }
            self.passed.push_reserved(place);
            self.next = i + 1;
        }
        true
    }

    // All, once those to come are passed.
    fn finish(self) -> Vec<u32>
        requires within { self.next ≤ length self.all.items }
        requires room { vec_len self.passed + length (to_come self) ≤ vec_capacity self.passed }
        ensures items { result.items ≡ places_of self }
        ensures len { vec_len result ≡ vec_len self.passed + length (to_come self) }
        ensures capacity { vec_capacity self.passed ≤ vec_capacity result }
    {
        let mut passed = self.passed;
        let Ok(_) = passed.extend_from_slice(&self.all[self.next..]) else {
            unreachable!()
        };
        passed
    }
}

// What is known of the entity that enters by the look.
fn entering<'a>(known: &'a [Seen], look: &Look, from: &mut usize) -> Option<&'a Seen>
    requires { IsStrictlySortedBy nat_cmp (map (λ s. s.entity) known.now) }
    ensures { IfSome result (λ s. (look.now ≡ Enter s.now.entity) ×
        (seen_of s.now.entity known.now ≡ Some s.now)) }
{
    match look {
        Look::Enter(e) => find_seen(known, *e, from),
        _ => None,
    }
}

// Shows one that is known, where it is not in view and comes by number after those passed.
fn show_next(slots: &mut Vec<Slot>, passing: &mut Passing, seen: &Seen) -> bool
    requires by_number { IsByNumber (keys_of (entries_of slots.old.items)) (places_of passing.old) }
    requires within { passing.old.next ≤ length passing.old.all.items }
    requires few { vec_len slots.old < 0xffff_ffff }
    requires room { (vec_len slots.old < vec_capacity slots.old) ×
        (vec_len passing.old.passed + length (to_come passing.old)
        < vec_capacity passing.old.passed) }
    ensures by_number { IsByNumber (keys_of (entries_of slots.new.items)) (places_of passing.new) }
    ensures within { passing.new.next ≤ length passing.new.all.items }
    ensures shown { OnTrue result (entries_of slots.new.items
        ≡ placed seen.now.entity seen.now.version (entries_of slots.old.items)) }
    ensures same { OnFalse result (slots.new ≡ slots.old) }
    ensures len { (vec_len slots.new ≡ vec_len slots.old + (if result then 1 else 0))
        × (vec_len passing.new.passed + length (to_come passing.new)
        ≡ vec_len passing.old.passed + length (to_come passing.old) + (if result then 1 else 0)) }
    ensures capacity { (vec_capacity slots.new ≡ vec_capacity slots.old)
        × (vec_capacity passing.new.passed ≡ vec_capacity passing.old.passed) }
{
    let e = seen.entity;
    if !is_last_below(slots, &passing.passed, e) || !passing.pass_below(slots, e) {
        return false;
    }
    let place = slots.len() as u32;
    slots.push_reserved(Slot {
        entity: e,
        to: place,
        version: seen.version,
    });
    passing.passed.push_reserved(place);
    true
}

// Shows those that enter by the first of the looks, as long as they are known and not in view and their numbers rise. The looks past these
// remain.
fn show_first<'a>(
    slots: &mut Vec<Slot>,
    passing: &mut Passing,
    known: &[Seen],
    looks: &'a [Look],
) -> &'a [Look]
    requires rising { IsStrictlySortedBy nat_cmp (map (λ s. s.entity) known.now) }
    requires by_number { IsByNumber (keys_of (entries_of slots.old.items)) (places_of passing.old) }
    requires within { passing.old.next ≤ length passing.old.all.items }
    requires room { HasSlots (enters_in looks.now) (vec_len slots.old) (vec_capacity slots.old)
        passing.old }
    ensures by_number { IsByNumber (keys_of (entries_of slots.new.items)) (places_of passing.new) }
    ensures within { passing.new.next ≤ length passing.new.all.items }
    ensures kept { AreKept known.now (entries_of slots.old.items) looks.now
        (entries_of slots.new.items) result.now }
    ensures room { HasSlots (enters_in result.now) (vec_len slots.new) (vec_capacity slots.new)
        passing.new }
{
    let mut from = 0;
    for i in 0..looks.len() {
        let Some(seen) = entering(known, &looks[i], &mut from) else {
            return &looks[i..];
        };
        if !show_next(slots, passing, seen) {
            return &looks[i..];
        }
    }
    &looks[looks.len()..]
}

// The place of the entity among the few from this one on.
fn few_on(slots: &[Slot], e: u32, from: usize) -> Option<usize>
    ensures { IfSome result (λ i. (i < length slots.now) × (number_at slots.now i ≡ e)) }
{
    let from = from.min(slots.len());
    let end = slots.len().min(from.saturating_add(TRIED_ON));
    for i in from..end {
        if slots[i].entity == e {
            return Some(i);
        }
    }
    None
}

// The entity at the place.
fn entity_at(slots: &[Slot], i: u32) -> u32
    ensures { result ≡ number_at slots.now i }
{
    match slots.get(i as usize) {
        Some(slot) => slot.entity,
        None => 0,
    }
}

// Whether all have numbers below e.
fn are_all_below(slots: &[Slot], by_number: &[u32], e: u32) -> bool
    requires { IsByNumber (keys_of (entries_of slots.now)) by_number.now }
    ensures { result ≡ true → AllWithin (λ i. number_at slots.now i < e) by_number.now 0
        (length by_number.now) }
{
    is_last_below(slots, by_number, e)
}

// Whether the last of the places, if there is one, has a number below e.
fn is_last_below(slots: &[Slot], places: &[u32], e: u32) -> bool
    ensures { result ≡ true → 0 < length places.now → number_at slots.now
        (slice_index places.now (length places.now - 1)) < e }
{
    match places.last() {
        Some(place) => entity_at(slots, *place) < e,
        None => true,
    }
}

// How many have numbers below e, where the few from this one on tell it.
fn few_below(slots: &[Slot], by_number: &[u32], e: u32, from: usize) -> Option<usize>
    requires { IsByNumber (keys_of (entries_of slots.now)) by_number.now }
    ensures bound { IfSome result (λ r. r ≤ length by_number.now) }
    ensures below { IfSome result (λ r. AllWithin (λ i. number_at slots.now i < e) by_number.now 0
        r) }
    ensures above { IfSome result (λ r. AllWithin (λ i. e ≤ number_at slots.now i) by_number.now r
        (length by_number.now)) }
{
    let len = by_number.len();
    if from > len || from > 0 && entity_at(slots, by_number[from - 1]) >= e {
        return None;
    }
    let end = len.min(from.saturating_add(TRIED));
    for rank in from..end {
        if entity_at(slots, by_number[rank]) >= e {
            return Some(rank);
        }
    }
    if end == len { Some(len) } else { None }
}

// How many have numbers below e. The few from this one on are tried before all are searched.
// Apart from `rank_of`, so that a number that is found at once costs no call.
#[inline(never)]
fn many_below(slots: &[Slot], by_number: &[u32], e: u32, from: usize) -> usize
    requires { IsByNumber (keys_of (entries_of slots.now)) by_number.now }
    ensures bound { result ≤ length by_number.now }
    ensures below { AllWithin (λ i. number_at slots.now i < e) by_number.now 0 result }
    ensures above { AllWithin (λ i. e ≤ number_at slots.now i) by_number.now result
        (length by_number.now) }
{
    match few_below(slots, by_number, e, from) {
        Some(rank) => rank,
        None => by_number.partition_point(|i| entity_at(slots, *i) < e),
    }
}

// Whether the entity is there by number.
fn is_at(slots: &[Slot], by_number: &[u32], e: u32, rank: usize) -> bool
    requires { IsByNumber (keys_of (entries_of slots.now)) by_number.now }
    ensures there { OnTrue result ((i : ℕ) × (slice_get by_number.now rank ≡ Some i) ×
        (i < length slots.now) × (number_at slots.now i ≡ e)) }
    ensures other { OnFalse result (rank < length by_number.now →
        number_at slots.now (slice_index by_number.now rank) ≢ e) }
{
    match by_number.get(rank) {
        Some(i) => entity_at(slots, *i) == e,
        None => false,
    }
}

// Where the entity is by number, or else where it would be. The one at `from` is tried first, or whether it comes after all.
#[inline(always)]
fn rank_of(slots: &[Slot], by_number: &[u32], e: u32, from: usize) -> Result<usize, usize>
    requires { IsByNumber (keys_of (entries_of slots.now)) by_number.now }
    ensures there { IfOk result (λ r. (i : ℕ) × (slice_get by_number.now r ≡ Some i) ×
        (i < length slots.now) × (number_at slots.now i ≡ e)) }
    ensures bound { IfErr result (λ r. r ≤ length by_number.now) }
    ensures below { IfErr result (λ r. AllWithin (λ i. number_at slots.now i < e) by_number.now 0
        r) }
    ensures above { IfErr result (λ r. AllWithin (λ i. e < number_at slots.now i) by_number.now r
        (length by_number.now)) }
{
    if is_at(slots, by_number, e, from) {
        return Ok(from);
    }
    if from == by_number.len() && are_all_below(slots, by_number, e) {
        return Err(from);
    }
    let rank = many_below(slots, by_number, e, from);
    if is_at(slots, by_number, e, rank) {
        Ok(rank)
    } else {
        Err(rank)
    }
}

// Inserts the place in room that is there.
fn insert_at(places: &mut Vec<u32>, rank: usize, place: u32)
    requires bound { rank ≤ length places.old.items }
    requires room { vec_len places.old < vec_capacity places.old }
    ensures items { places.new.items ≡ insert places.old.items rank place }
    ensures len { vec_len places.new ≡ vec_len places.old + 1 }
    ensures capacity { vec_capacity places.new ≡ vec_capacity places.old }
{
    if rank == places.len() {
        places.push_reserved(place);
        return;
    }
    let Ok(_) = places.insert(rank, place) else {
        unreachable!()
    };
}

// Finds out where each goes once the entities have left whose leaves come first among the looks, in enter order, and puts these
// among those that left. The looks past these leaves remain.
fn send_off<'a>(slots: &mut [Slot], left: &mut Departed, looks: &'a [Look]) -> &'a [Look]
    requires few { length slots.old < 2 ^ 32 }
    requires room { leaves_in looks.now ≤ left.old.room }
    ensures same { entries_of slots.new ≡ entries_of slots.old }
    ensures order { GoInOrder 0 slots.new }
    ensures kept { entries_of (filter stays slots.new) ≡ kept_past_all looks.now
        (entries_of slots.old) }
    ensures rest { result.now ≡ looks_past_all looks.now (entries_of slots.old) }
    ensures left { (q : ℕ) → lookup (nat_eq q) left.new.entries
        ≡ left_past_all looks.now (entries_of slots.old) (λ x. lookup (nat_eq x) left.old.entries)
        q }
    ensures room { left.old.room + leaves_in result.now ≤ left.new.room + leaves_in looks.now }
{
    let mut rest = looks;
    let mut place = 0;
    for slot in slots.iter_mut() {
        match past_leave(rest, slot.entity) {
            Some(more) => {
                left.put(slot.entity, slot.version);
                slot.to = NOWHERE;
                rest = more;
            }
            None => {
                slot.to = place;
                place += 1;
            }
        }
    }
    rest
}

// Where the one at the place goes.
fn new_place(slots: &[Slot], place: u32) -> u32
    ensures { result ≡ slice_index_or (map (λ s. s.to) slots.now) place nowhere }
{
    match slots.get(place as usize) {
        Some(slot) => slot.to,
        None => NOWHERE,
    }
}

// Brings the places by number to where their entities go.
fn renumber(slots: &[Slot], by_number: &mut Vec<u32>)
    ensures places { by_number.new.items ≡ filter (λ i. not (nat_eq i nowhere))
        (map (λ i. slice_index_or (map (λ s. s.to) slots.now) i nowhere) by_number.old.items) }
    ensures len { vec_len by_number.new ≤ vec_len by_number.old }
    ensures capacity { vec_capacity by_number.new ≡ vec_capacity by_number.old }
{
    by_number.retain_mut(
        |place: &mut u32| -> bool
            ensures { (place.new ≡ slice_index_or (map (λ s. s.to) slots.entry.now) place.old
                nowhere) × (result ≡ not (nat_eq place.new nowhere)) }
        {
            *place = new_place(slots, *place);
            *place != NOWHERE
        },
    );
}

// Lets those that stay go to their places.
fn close_up(slots: &mut Vec<Slot>, by_number: &mut Vec<u32>)
    requires order { GoInOrder 0 slots.old.items }
    requires by_number { IsByNumber (keys_of (entries_of slots.old.items)) by_number.old.items }
    ensures slots { slots.new.items ≡ filter stays slots.old.items }
    ensures by_number { IsByNumber (keys_of (entries_of slots.new.items)) by_number.new.items }
    ensures len { (vec_len slots.new ≤ vec_len slots.old) ×
        (vec_len by_number.new ≤ vec_len by_number.old) }
    ensures capacity { (vec_capacity slots.new ≡ vec_capacity slots.old) ×
        (vec_capacity by_number.new ≡ vec_capacity by_number.old) }
{
    renumber(slots, by_number);
    slots.retain(|slot| slot.to != NOWHERE);
}

// The looks past the first, where that is the leave of the entity.
fn past_leave(looks: &[Look], e: u32) -> Option<&[Look]>
    ensures leaves { is_some result ≡ leaves_next e looks.now }
    ensures past { IfSome result (λ rest. rest.now ≡ drop 1 looks.now) }
{
    match looks.split_first() {
        Some((Look::Leave(first), rest)) if *first == e => Some(rest),
        _ => None,
    }
}
