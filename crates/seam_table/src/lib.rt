// SPDX-License-Identifier: MIT

//! A table by number: an item for some of the numbers. Beside it stand a value that many owners share (`shared`), and what a call that was
//! given an item answers if allocation fails (`memory`).
//!
//! Contracts see a table as a finite map, and beside it the numbers for which there is room. A call that is to change several tables, or
//! all or none of them, makes room first and changes what cannot fail then.
//!
//! An item is found by the hash of its number, and the one that was found last where it lies. [`Table::numbers`] gathers and sorts the
//! numbers of all, for a walk over the items in rising number. [`Table::change_each`] changes all items where they lie.
//!
//! [`Table::get_mut`] lends an item to be changed where it lies, by one search: what was written is seen as if it had been put there. The
//! hash has a key (`seam_hash`), so that no script can choose numbers that collide. Entries lie in the order in which they came, whatever
//! the key, so runs are alike. No contract tells of places.
//!
//! `specs/Tables` has what contracts see of a table, `specs/Entries` which table the entries of a hashed map are, and `specs/Changes` what
//! a closure does to an item that it is lent.
//!
//! For callers, of `proofs/`: `Found` (what a search of a table's entries finds) and `Changed` (what a table has after `change_each`).
#![tactic(auto)]

mod memory;
mod shared;

ghost use Rattle.std.specs.Prelude.{◌≡◌, ℕ, Bool, Some, find, true, false, OnOk, OnErr, IfOk, IfErr, IfSome};
ghost use Rattle.std.specs.Prelude.{None, nat_eq, is_some, option_map, option_copied, slice_get, unwrap_or, map as each, IfNone, ◌<◌};
ghost use Rattle.indexmap.specs.IndexMap.{keys, get, index_map_len, IsUnique, IsUnchanged, Updates};
ghost use Rattle.std.specs.Option.{option_flatten};
ghost use Rattle.std.specs.List.{filter, IsDistinct};
ghost use Rattle.std.specs.Map.{keys_of};
ghost use Rattle.std.specs.FinMap as map;
ghost use Rattle.std.specs.FinSet as set;
ghost use Rattle.std.specs.Ordering.{nat_cmp};
ghost use Rattle.seam_table.specs.Tables.{with_item, without_item, without_room, with_each};
ghost use Rattle.seam_table.specs.Changes.{Leaves};
ghost use Rattle.seam_table.specs.Entries.{table_of};

use indexmap::IndexMap;
pub use memory::NoMemoryFor;
pub use seam_hash::HashKey;
pub use shared::Shared;
use std::alloc::{AllocError, Global};
use std::marker::Model;

/// An item for some of the numbers.
///
/// Contracts see the item of each number, and beside them the numbers for which there is room: an item for one of those needs no memory.
#[derive(Drop)]
pub struct Table<T> {
    // An entry without an item is room for one.
    entries: IndexMap<u32, Option<T>, HashKey>,
    // Where the entry that was found last is. The next call is often for the same number: see `place_of`.
    last: usize,
}

impl<T> Model for Table<T> {
    ghost use Rattle.seam_table.specs.Tables.{TableView, table_code};

    ghost Value = { TableView T };

    ghost coded = { table_code T.code };

    ghost use Rattle.std.specs.Prelude.{nat_eq};
    ghost use Rattle.std.specs.List.{IsDistinct};
    ghost use Rattle.std.specs.Map.{keys_of};
    ghost use Rattle.seam_table.specs.Entries.{table_of};

    ghost view = { λ t. table_of t.entries.entries };

    ghost invariant = { λ t. IsDistinct nat_eq (keys_of t.entries.entries) };
}

impl<T: Drop> Table<T> {
    ghost use Rattle.std.specs.Borrow.{LendsIf, sem};
    ghost use Rattle.std.specs.Option.{option_copied_mut};
    ghost use Rattle.seam_table.specs.contracts.Table.{the_row};

    /// A table with no item and room for none, which finds numbers by a hash with this key.
    pub fn new(alloc: Global, key: HashKey) -> Self
        ensures { result ≡ record { items = map.empty; room = set.empty } }
    {
        Table {
            entries: IndexMap::with_hasher(alloc, key),
            last: 0,
        }
    }

    /// The item of the number. There is room for what has an item.
    pub fn get(&self, n: u32) -> Option<&T>
        ensures item { option_copied result ≡ map.get self.now.items n }
        ensures room { IfSome result (λ _. set.contains self.now.room n ≡ true) }
    {
        match self.entries.get(&n) {
            Some(slot) => slot.as_ref(),
            None => None,
        }
    }

    /// The item of the number, to be changed. The rest of the table stays as it is.
    pub fn get_mut(&mut self, n: u32) -> Option<&mut T>
        ensures* writes_back { sem 𝓛 (LendsIf (the_row T.row) T.row self.entry result
            (with_item self.old n) self.old) }
        ensures item { option_copied_mut result ≡ map.get self.old.items n }
    {
        let place = place_of(&self.entries, &mut self.last, n)?;
        let (_, slot) = self.entries.pair_mut(place);
        slot.as_mut()
    }

    /// Whether there is room for an item of the number.
    pub fn has_room(&self, n: u32) -> bool
        ensures { result ≡ set.contains self.now.room n }
    {
        self.entries.contains_key(&n)
    }

    /// Makes room for an item of the number.
    pub fn reserve(&mut self, n: u32) -> Result<(), AllocError>
        ensures same { self.new.items ≡ self.old.items }
        ensures room { OnOk result (self.new.room ≡ set.insert self.old.room n) }
        ensures there { OnOk result (set.contains self.new.room n ≡ true) }
        ensures err { OnErr result (self.new.room ≡ self.old.room) }
        ensures err_only_first { OnErr result (set.contains self.old.room n ≡ false) }
    {
        // A new entry goes last.
        let place = self.entries.len();
        make_entry(&mut self.entries, n)?;
        self.last = place;
        Ok(())
    }

    /// Puts the item in place of the one that the number had, if any, and gives that one.
    pub fn put(&mut self, n: u32, item: T) -> Result<Option<T>, NoMemoryFor<T>>
        ensures old { IfOk result (λ old. old ≡ map.get self.old.items n) }
        ensures after { OnOk result (self.new ≡ with_item self.old n item) }

        // If allocation fails, the item comes back and nothing has changed.
        ensures err { OnErr result (self.new ≡ self.old) }
        ensures err_item { IfErr result (λ r. r.item ≡ item) }
        ensures err_only_first { OnErr result (set.contains self.old.room n ≡ false) }
    {
        match self.entries.insert(n, Some(item)) {
            Ok(old) => return Ok(old.flatten()),
            Err(refused) => {
                let Some(item) = refused.value.1 else {
                    unreachable!()
                };
                return Err(NoMemoryFor { item });
            }
        }
    }

    /// Puts the item in place of the one that the number had, if any, and gives that one. There is room for it, so no memory is needed.
    pub fn put_reserved(&mut self, n: u32, item: T) -> Option<T>
        requires { set.contains self.old.room n ≡ true }
        ensures old { result ≡ map.get self.old.items n }
        ensures after { self.new ≡ with_item self.old n item }
        ensures room { self.new.room ≡ self.old.room }
    {
        let Some(place) = place_of(&self.entries, &mut self.last, n) else {
            unreachable!()
        };
        let (_, slot) = self.entries.pair_mut(place);
        slot.replace(item)
    }

    /// Gives the item of the number, which has none from then on. The room stays, so that the item, changed, can be put again.
    pub fn take(&mut self, n: u32) -> Option<T>
        ensures item { result ≡ map.get self.old.items n }
        ensures after { self.new ≡ without_item self.old n }
        ensures room { IfSome result (λ _. set.contains self.new.room n ≡ true) }
    {
        let place = place_of(&self.entries, &mut self.last, n)?;
        let (_, slot) = self.entries.pair_mut(place);
        slot.take()
    }

    /// Gives the item of the number, which has none from then on, and gives back the room.
    pub fn remove(&mut self, n: u32) -> Option<T>
        ensures item { result ≡ map.get self.old.items n }
        ensures after { self.new ≡ without_room self.old n }
    {
        let place = place_of(&self.entries, &mut self.last, n)?;
        let Some((_, slot)) = self.entries.swap_remove_index(place) else {
            unreachable!()
        };
        slot
    }

    /// Changes each item where it lies.
    pub fn change_each<F: Fn(&mut T)>(&mut self, change: F)
        requires { F.IsAlwaysCallable change }
        ensures after { (f : T → T) → Leaves F.Fn change f → self.new ≡ with_each f self.old }
        ensures room { self.new.room ≡ self.old.room }
    {
        change_entries(&mut self.entries, &change);
    }

    /// The numbers that have an item, in rising order.
    pub fn numbers(&self, alloc: Global) -> Result<Vec<u32>, AllocError>
        ensures { IfOk result (λ v. v.items ≡ map.keys self.now.items) }
    {
        let mut numbers = kept_numbers(&self.entries, alloc)?;
        // Mostly they lie in rising order already, and the sort sees that at once.
        numbers.sort_unstable();
        Ok(numbers)
    }
}

// The index of the number's entry. It is sought only where `last` is not that entry's: since this is tested each time, no value of `last`
// makes an answer wrong.
fn place_of<T>(
    entries: &IndexMap<u32, Option<T>, HashKey>,
    last: &mut usize,
    n: u32,
) -> Option<usize>
    ensures there { IfSome result (λ i. slice_get (keys entries.now) i ≡ Some n) }
    ensures within { IfSome result (λ i. i < index_map_len entries.now) }
    ensures none { IfNone result (get nat_eq entries.now n ≡ None) }
{
    if let Some((number, _)) = entries.get_index(*last) {
        if *number == n {
            return Some(*last);
        }
    }
    let place = entries.get_index_of(&n)?;
    *last = place;
    Some(place)
}

// Makes an entry for the number, without an item, where it has none.
fn make_entry<T: Drop>(
    entries: &mut IndexMap<u32, Option<T>, HashKey>,
    n: u32,
) -> Result<(), AllocError>
    ensures ok { OnOk result (Updates nat_eq entries.old entries.new n
        (Some (unwrap_or (get nat_eq entries.old n) None))) }
    ensures err { OnErr result (IsUnchanged entries.old entries.new) }
    ensures absent { OnErr result (get nat_eq entries.old n ≡ None) }
    ensures unique { IsUnique nat_eq entries.old → IsUnique nat_eq entries.new }
{
    entries.entry(n)?.or_insert(None);
    Ok(())
}

// The numbers of the entries that have an item, as they lie.
fn kept_numbers<T>(
    entries: &IndexMap<u32, Option<T>, HashKey>,
    alloc: Global,
) -> Result<Vec<u32>, AllocError>
    ensures { IfOk result (λ v. v.items ≡ keys_of (filter (λ s. is_some s.1) entries.now.entries)) }
{
    let mut numbers = Vec::with_capacity(alloc, entries.len())?;
    for (n, slot) in entries.iter() {
        if slot.is_some() {
            numbers.push(*n)?;
        }
    }
    Ok(numbers)
}

// Changes the entry's item, if it has one.
#[inline]
fn change_slot<T, F: Fn(&mut T)>(slot: &mut Option<T>, change: &F)
    requires { F.IsAlwaysCallable change.now }
    ensures { (f : T → T) → Leaves F.Fn change.now f → slot.new ≡ option_map f slot.old }
{
    if let Some(item) = slot {
        change(item);
    }
}

// Changes the item of each entry that has one.
fn change_entries<T: Drop, F: Fn(&mut T)>(
    entries: &mut IndexMap<u32, Option<T>, HashKey>,
    change: &F,
)
    requires { F.IsAlwaysCallable change.now }
    ensures after { (f : T → T) → Leaves F.Fn change.now f →
        entries.new.entries ≡ each (λ s. (s.0, option_map f s.1)) entries.old.entries }
    ensures keys { keys_of entries.new.entries ≡ keys_of entries.old.entries }
{
    entries.retain(|_, slot| {
        change_slot(slot, change);
        true
    });
}

/// An item that a search of a table's entries finds is the table's item of that number, and passes the test.
pub fn what_is_found_is_there<T>()
    ensures { (test : ℕ × T → Bool) (m : map.FinMap nat_cmp T) (p : ℕ × T) →
        find test (map.entries m) ≡ Some p → (map.get m p.0 ≡ Some p.1) × (test p ≡ true) }
{}
