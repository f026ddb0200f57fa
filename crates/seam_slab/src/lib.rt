// SPDX-License-Identifier: MIT

//! A table by number whose items lie in a slab.
//!
//! Contracts see what they see of a `Table` of `seam_table`: a finite map, and beside it the numbers for which there is room. Each number
//! with room has an entry in an index by hash, with the key of its slot in the slab. A slot without an item is open: its item was taken
//! out to be changed, or is yet to come. So an item that is put back is written where it lay, and the index is not changed.
//!
//! `specs/Slotted` says how index and slots refine the table.
#![tactic(auto)]

ghost use Rattle.std.specs.Prelude.{◌≡◌, ℕ, None, Some, nat_eq, is_some, option_map, option_copied, map as each, false, true};
ghost use Rattle.std.specs.Prelude.{OnOk, OnErr, IfOk, IfSome, slice_get, unwrap_or};
ghost use Rattle.std.specs.List.{filter};
ghost use Rattle.std.specs.Map.{keys_of, lookup};
ghost use Rattle.std.specs.FinMap as map;
ghost use Rattle.std.specs.FinSet as set;
ghost use Rattle.indexmap.specs.IndexMap.{IsUnique, IsUnchanged};
ghost use Rattle.indexmap.specs.IndexMap as indexed;
ghost use Rattle.slab.specs.Slab.{get, ContainsKey, Updates};
ghost use Rattle.seam_table.specs.Tables.{with_item, without_item, without_room, with_each};
ghost use Rattle.seam_table.specs.Entries.{Writes};
ghost use Rattle.seam_table.specs.Changes.{Leaves};
ghost use Rattle.seam_slab.specs.Slotted.{item_at, slotted, IsSlotted};

use indexmap::IndexMap;
use seam_table::HashKey;
use slab::Slab;
use std::alloc::{AllocError, Global};
use std::marker::Model;
use std::mem::replace;

/// An item for some of the numbers.
///
/// Contracts see the item of each number, and beside them the numbers for which there is room: an item for one of those needs no memory.
#[derive(Drop)]
pub struct SlabTable<T> {
    // The key of each number's slot.
    keys: IndexMap<u32, usize, HashKey>,
    // A slot without an item is room for one.
    slots: Slab<Option<T>>,
    // Where the entry that was found last is. The next call is often for the same number: see `find_key`.
    last: usize,
}

impl<T> Model for SlabTable<T> {
    ghost use Rattle.seam_table.specs.Tables.{TableView, table_code};

    ghost Value = { TableView T };

    ghost coded = { table_code T.code };

    ghost use Rattle.seam_table.specs.Entries.{table_of};
    ghost use Rattle.seam_slab.specs.Slotted.{slotted, IsSlotted};

    ghost view = { λ t. table_of (slotted t.slots t.keys.entries) };

    ghost invariant = { λ t. IsSlotted t.keys.entries t.slots };
}

impl<T: Drop> SlabTable<T> {
    /// A table with no item and room for none, which finds numbers by a hash with this key.
    pub fn new(alloc: Global, key: HashKey) -> Self
        ensures { result ≡ record { items = map.empty; room = set.empty } }
    {
        SlabTable {
            keys: IndexMap::with_hasher(alloc, key),
            slots: Slab::new(alloc),
            last: 0,
        }
    }

    /// The item of the number. There is room for what has an item.
    pub fn get(&self, n: u32) -> Option<&T>
        ensures item { option_copied result ≡ map.get self.now.items n }
        ensures room { IfSome result (λ _. set.contains self.now.room n ≡ true) }
    {
        match self.keys.get(&n) {
            Some(key) => item_in(&self.slots, *key),
            None => None,
        }
    }

    /// Makes room for an item of the number.
    pub fn reserve(&mut self, n: u32) -> Result<(), AllocError>
        ensures same { self.new.items ≡ self.old.items }
        ensures room { OnOk result (self.new.room ≡ set.insert self.old.room n) }
        ensures there { OnOk result (set.contains self.new.room n ≡ true) }
        ensures err { OnErr result (self.new.room ≡ self.old.room) }
        ensures err_only_first { OnErr result (set.contains self.old.room n ≡ false) }
    {
        // A new entry goes last.
        let place = self.keys.len();
        make_entry(&mut self.keys, &mut self.slots, n)?;
        self.last = place;
        Ok(())
    }

    /// Puts the item in place of the one that the number had, if any, and gives that one. There is room for it, so no memory is needed.
    pub fn put_reserved(&mut self, n: u32, item: T) -> Option<T>
        requires { set.contains self.old.room n ≡ true }
        ensures old { result ≡ map.get self.old.items n }
        ensures after { self.new ≡ with_item self.old n item }
        ensures room { self.new.room ≡ self.old.room }
    {
        let Some(key) = find_key(&self.keys, &mut self.last, n) else {
            unreachable!()
        };
        exchange(&mut self.slots, key, Some(item))
    }

    /// Gives the item of the number, which has none from then on. The slot stays open, so that the item, changed, can be put again.
    pub fn take(&mut self, n: u32) -> Option<T>
        ensures item { result ≡ map.get self.old.items n }
        ensures after { self.new ≡ without_item self.old n }
        ensures room { IfSome result (λ _. set.contains self.new.room n ≡ true) }
    {
        let Some(key) = find_key(&self.keys, &mut self.last, n) else {
            return None;
        };
        exchange(&mut self.slots, key, None)
    }

    /// Gives the item of the number, which has none from then on, and gives back the room.
    pub fn remove(&mut self, n: u32) -> Option<T>
        ensures item { result ≡ map.get self.old.items n }
        ensures after { self.new ≡ without_room self.old n }
    {
        let Some(key) = find_key(&self.keys, &mut self.last, n) else {
            return None;
        };
        let Some(_) = self.keys.swap_remove_index(self.last) else {
            unreachable!()
        };
        let Some(slot) = self.slots.try_remove(key) else {
            unreachable!()
        };
        slot
    }

    /// Changes each item where it lies.
    pub fn change_each<F: Fn(&mut T)>(&mut self, change: F)
        requires { F.IsAlwaysCallable change }
        ensures after { (f : T → T) → Leaves F.Fn change f → self.new ≡ with_each f self.old }
        ensures room { self.new.room ≡ self.old.room }
    {
        change_slots(&mut self.slots, &change);
    }

    /// The numbers that have an item, in rising order.
    pub fn numbers(&self, alloc: Global) -> Result<Vec<u32>, AllocError>
        ensures { IfOk result (λ v. v.items ≡ map.keys self.now.items) }
    {
        let mut numbers = kept_numbers(&self.keys, &self.slots, alloc)?;
        // Mostly they lie in rising order already, and the sort sees that at once.
        numbers.sort_unstable();
        Ok(numbers)
    }
}

// The key of the number's slot; its entry is at `last` then. It is sought only where `last` is not the number's entry: since this is tested
// each time, no value of `last` makes an answer wrong.
fn find_key(keys: &IndexMap<u32, usize, HashKey>, last: &mut usize, n: u32) -> Option<usize>
    ensures key { result ≡ lookup (nat_eq n) keys.now.entries }
    ensures place { IfSome result (λ k. slice_get keys.now.entries last.new ≡ Some (n, k)) }
{
    if let Some((number, key)) = keys.get_index(*last) {
        if *number == n {
            return Some(*key);
        }
    }
    match keys.get_full(&n) {
        Some((place, _, key)) => {
            *last = place;
            Some(*key)
        }
        None => None,
    }
}

// The key in the number's entry. Where the number has none, an entry with the given key is made.
fn entry_key(
    keys: &mut IndexMap<u32, usize, HashKey>,
    n: u32,
    key: usize,
) -> Result<usize, AllocError>
    ensures value { IfOk result (λ k. k ≡ unwrap_or (lookup (nat_eq n) keys.old.entries) key) }
    ensures after { IfOk result (λ k. indexed.Updates nat_eq keys.old keys.new n (Some k)) }
    ensures err { OnErr result (IsUnchanged keys.old keys.new) }
    ensures absent { OnErr result (lookup (nat_eq n) keys.old.entries ≡ None) }
    ensures unique { IsUnique nat_eq keys.old → IsUnique nat_eq keys.new }
{
    Ok(*keys.entry(n)?.or_insert(key))
}

// Makes an entry with an open slot for the number, where it has none.
fn make_entry<T: Drop>(
    keys: &mut IndexMap<u32, usize, HashKey>,
    slots: &mut Slab<Option<T>>,
    n: u32,
) -> Result<(), AllocError>
    requires { IsSlotted keys.old.entries slots.old }
    ensures slotted { IsSlotted keys.new.entries slots.new }
    ensures ok { OnOk result (let old = slotted slots.old keys.old.entries in
        Writes n (unwrap_or (lookup (nat_eq n) old) None) old
        (slotted slots.new keys.new.entries)) }
    ensures err { OnErr result (slotted slots.new keys.new.entries
        ≡ slotted slots.old keys.old.entries) }
    ensures absent { OnErr result (lookup (nat_eq n) keys.old.entries ≡ None) }
{
    let Ok(()) = slots.reserve(1) else {
        // Only a new entry needs a slot.
        if keys.contains_key(&n) {
            return Ok(());
        }
        return Err(AllocError);
    };
    let vacant = slots.vacant_key();
    let key = entry_key(keys, n, vacant)?;
    // A key that was there before is not vacant.
    if key == vacant {
        slots.insert_reserved(None);
    }
    Ok(())
}

// The item in the slot.
fn item_in<T>(slots: &Slab<Option<T>>, key: usize) -> Option<&T>
    ensures { option_copied result ≡ item_at slots.now key }
{
    match slots.get(key) {
        Some(slot) => slot.as_ref(),
        None => None,
    }
}

// Puts an item, or none, into the slot, and gives what was there.
fn exchange<T: Drop>(slots: &mut Slab<Option<T>>, key: usize, item: Option<T>) -> Option<T>
    requires { ContainsKey slots.old key }
    ensures old { result ≡ item_at slots.old key }
    ensures after { Updates slots.old slots.new key (Some item) }
{
    let Some(slot) = slots.get_mut(key) else {
        unreachable!()
    };
    replace(slot, item)
}

// The numbers that have an item, as their entries lie.
fn kept_numbers<T>(
    keys: &IndexMap<u32, usize, HashKey>,
    slots: &Slab<Option<T>>,
    alloc: Global,
) -> Result<Vec<u32>, AllocError>
    ensures { IfOk result (λ v. v.items
        ≡ keys_of (filter (λ s. is_some s.1) (slotted slots.now keys.now.entries))) }
{
    let mut numbers = Vec::with_capacity(alloc, keys.len())?;
    for (n, key) in keys.iter() {
        if has_item(slots, *key) {
            numbers.push(*n)?;
        }
    }
    Ok(numbers)
}

// Whether the slot has an item.
fn has_item<T>(slots: &Slab<Option<T>>, key: usize) -> bool
    ensures { result ≡ is_some (item_at slots.now key) }
{
    match slots.get(key) {
        Some(slot) => slot.is_some(),
        None => false,
    }
}

// Changes the slot's item, if it has one.
#[inline]
fn change_slot<T, F: Fn(&mut T)>(slot: &mut Option<T>, change: &F)
    requires { F.IsAlwaysCallable change.now }
    ensures { (f : T → T) → Leaves F.Fn change.now f → slot.new ≡ option_map f slot.old }
{
    if let Some(item) = slot {
        change(item);
    }
}

// Changes the item of each slot that has one.
fn change_slots<T: Drop, F: Fn(&mut T)>(slots: &mut Slab<Option<T>>, change: &F)
    requires { F.IsAlwaysCallable change.now }
    ensures after { (f : T → T) → Leaves F.Fn change.now f →
        slots.new.slots ≡ each (option_map (option_map f)) slots.old.slots }
    ensures kept { (k : ℕ) → is_some (get slots.new k) ≡ is_some (get slots.old k) }
{
    slots.retain(|_, slot| {
        change_slot(slot, change);
        true
    });
}
