//! Where entities are, and at which version, as long as it is kept.

ghost use Rattle.std.specs.Prelude.{◌≡◌, ℕ, ◌&&◌, T, Option, IfSome, IfOk, None, Some, is_some};
ghost use Rattle.std.specs.Ordering.{nat_cmp};
ghost use Rattle.std.specs.FinMap as map;
ghost use Rattle.std.specs.FinMap.Entries.{is_sorted};
ghost use Rattle.seam_range.specs.declared.Location.{Location as AnyLocation};
ghost use Rattle.seam_cell_parts.specs.Spots.{is_none_else_out, still_out, AreNoted, AreKeptNoted, IsNoted, IsChanged};

use seam_range::{Location, RangeList};
use std::alloc::{AllocError, Global};

// To make a list takes about as much as so many walks over all: one that is never used has cost no more than the walks before it.
const WALKS: usize = 8;

/// A list of entities with their locations, if it is kept. An entity that is taken out to change is still in the list: it is out.
///
/// A list is made once it was asked for several times. One that changed much more often, since it was asked for last, than it has
/// entities is given up: it takes less to make it anew. When that is so is a matter of speed alone, and no contract tells it.
#[derive(Drop)]
pub struct Spots {
    pub list: Option<RangeList>,
    pub out: Option<u32>,
    // How many entities the list had when it was made, and how many more changes it is kept for.
    size: usize,
    left: usize,
    // How often it was asked for since it was given up.
    asked: usize,
}

impl Spots {
    /// No list.
    pub fn none() -> Spots
        ensures list { result.list ≡ None }
        ensures out { result.out ≡ None }
    {
        Spots {
            list: None,
            out: None,
            size: 0,
            left: 0,
            asked: 0,
        }
    }

    /// A list of these entities at their locations, none of which is out.
    pub fn of(alloc: Global, locations: &[(u32, Location)]) -> Result<Spots, AllocError>
        requires { T (is_sorted nat_cmp locations.now) }
        ensures list { IfOk result (λ s. s.list ≡ Some (map.from_sorted locations.now)) }
        ensures out { IfOk result (λ s. s.out ≡ None) }
    {
        let mut list = RangeList::new(alloc);
        for (e, location) in locations {
            list.put(*e, *location)?;
        }
        Ok(Spots {
            list: Some(list),
            out: None,
            size: locations.len(),
            left: locations.len().saturating_mul(2),
            asked: 0,
        })
    }

    /// The list is asked for; whether it is to be made. One that is there is kept from now on for twice as many changes as it had
    /// entities when it was made.
    pub fn ask(&mut self) -> bool
        ensures list { self.new.list ≡ self.old.list }
        ensures out { self.new.out ≡ self.old.out }
    {
        if self.list.is_some() {
            self.left = self.size.saturating_mul(2);
            return false;
        }
        if self.asked < WALKS {
            self.asked += 1;
            return false;
        }
        true
    }
}

// The list with the entity at the location. Without memory for that the list is given up, and after its last change.
fn set(list: &mut Option<RangeList>, left: &mut usize, e: u32, p: Location)
    ensures { IsNoted list.old list.new e (Some p) }
{
    if *left == 0 {
        *list = None;
        return;
    }
    *left -= 1;
    if let Some(kept) = list {
        match kept.put(e, p) {
            Ok(()) => {}
            Err(_) => *list = None,
        }
    }
}

// The list without the entity. After its last change the list is given up.
fn remove(list: &mut Option<RangeList>, left: &mut usize, e: u32)
    ensures { IsNoted list.old list.new e None }
{
    if *left == 0 {
        *list = None;
        return;
    }
    *left -= 1;
    if let Some(list) = list {
        list.remove(e);
    }
}

// Whether no other entity is out.
fn is_none_else_out(out: Option<u32>, e: u32) -> bool
    ensures { result ≡ is_none_else_out out e }
{
    match out {
        Some(other) => other == e,
        None => true,
    }
}

// The entity that is out, unless it is this one.
fn still_out(out: Option<u32>, e: u32) -> Option<u32>
    ensures { result ≡ still_out out e }
{
    match out {
        Some(other) => if other == e { None } else { Some(other) },
        None => None,
    }
}

/// Notes that the entity is at the location, where a list is kept. Without memory for that the list is given up.
pub fn note(spots: &mut Spots, e: u32, p: Location)
    ensures { (before after : ℕ → Option AnyLocation) → AreKeptNoted spots.old before →
        IsChanged before after e (Some p) → AreKeptNoted spots.new after }
{
    // In a cell in which nobody looks, as in most, none is kept.
    if spots.list.is_some() {
        note_kept(spots, e, p);
    }
}

// The same where a list is kept.
#[inline(never)]
fn note_kept(spots: &mut Spots, e: u32, p: Location)
    ensures { (before after : ℕ → Option AnyLocation) → AreKeptNoted spots.old before →
        IsChanged before after e (Some p) → AreKeptNoted spots.new after }
{
    set(&mut spots.list, &mut spots.left, e, p);
    spots.out = still_out(spots.out, e);
}

/// Notes that the entity is nowhere, where a list is kept.
pub fn forget(spots: &mut Spots, e: u32)
    ensures { (before after : ℕ → Option AnyLocation) → AreKeptNoted spots.old before →
        IsChanged before after e None → AreKeptNoted spots.new after }
{
    if spots.list.is_some() {
        forget_kept(spots, e);
    }
}

// The same where a list is kept.
#[inline(never)]
fn forget_kept(spots: &mut Spots, e: u32)
    ensures { (before after : ℕ → Option AnyLocation) → AreKeptNoted spots.old before →
        IsChanged before after e None → AreKeptNoted spots.new after }
{
    remove(&mut spots.list, &mut spots.left, e);
    spots.out = still_out(spots.out, e);
}

/// Notes that the entity is taken out, to be put back. One alone is kept in the list meanwhile.
pub fn let_out(spots: &mut Spots, e: u32)
    ensures { (before after : ℕ → Option AnyLocation) → AreKeptNoted spots.old before →
        IsChanged before after e None → AreKeptNoted spots.new after }
{
    if spots.list.is_none() {
        return;
    }
    if is_none_else_out(spots.out, e) {
        spots.out = Some(e);
        return;
    }
    remove(&mut spots.list, &mut spots.left, e);
}

/// The locations of all entities other than e, if they are kept.
pub fn beside(spots: &Spots, e: u32) -> Option<&RangeList>
    ensures kept { is_some result ≡ (is_some spots.now.list && is_none_else_out spots.now.out e) }
    ensures locations { (location : ℕ → Option AnyLocation) → AreKeptNoted spots.now location →
        IfSome result (λ l. AreNoted l.now (Some e) location) }
{
    if !is_none_else_out(spots.out, e) {
        return None;
    }
    spots.list.as_ref()
}
