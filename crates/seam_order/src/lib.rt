// SPDX-License-Identifier: MIT

//! Numbered items, given out in the order of their numbers.
//!
//! A sender numbers its items 1, 2, 3 and so on. They may come over several ways, so a later one can come first; it is kept until its turn.
//! No item is given twice, and none is left out.
//!
//! Held items are in an ordered map by number, so early items in any order cost a search each. Items in order touch it only to find that
//! nothing is held.
//!
//! For callers, of `proofs/`: `OrderLaws` (what an offer and taking the next item do to the held items).
#![tactic(auto)]

ghost use Rattle.std.specs.Prelude.{◌≡◌, ◌<◌, ◌≤◌, ◌^◌, [], ◌∷◌, length, false, IfOk, IfErr, OnOk, OnErr, option_map, slice_get, is_some};
ghost use Rattle.std.specs.Prelude.{option_copied, ℕ, ◌==◌, Some, None, if◌then◌else◌};
ghost use Rattle.seam_order.specs.Held.{OrderView, item_at, IsInOrder};
ghost use Rattle.seam_order.specs.Offers.{offer_answer, after_offer, next_item, after_taking};

pub use seam_table::NoMemoryFor;
use std::alloc::Global;
use std::collections::BTreeMap;
use std::collections::btree_map::Iter;
use std::marker::Model;

/// What an offered item meets.
#[derive(Debug, Drop, PartialEq, Eq)]
pub enum Offer<T> {
    /// It is its turn: here it is.
    Next(T),
    /// It came early, and is kept.
    Held,
    /// Its turn is over: it comes back.
    Stale(T),
}

/// The items of one sender, which are given out in the order of their numbers.
///
/// Contracts see the next number, and the items that are held with their numbers, in rising number.
#[derive(Drop)]
pub struct InOrder<T> {
    next: u64,
    // None below `next`.
    held: BTreeMap<u64, T>,
}

impl<T> Model for InOrder<T> {
    ghost use Rattle.seam_order.specs.Held.{OrderView, IsInOrder};

    ghost Value = { OrderView T };

    ghost view = { λ o. record { next = o.next; held = o.held.entries } };

    ghost invariant = { λ o. IsInOrder (record { next = o.next; held = o.held.entries }) };
}

impl<T> InOrder<T> {
    /// Begins at number 1 and holds nothing.
    pub fn new(alloc: Global) -> Self
        ensures next { result.next ≡ 1 }
        ensures held { result.held ≡ [] }
    {
        Self::from_number(alloc, 1)
    }

    /// Begins at number n and holds nothing.
    pub fn from_number(alloc: Global, n: u64) -> Self
        requires from_one { 1 ≤ n }
        requires small { n < 2 ^ 62 }
        ensures next { result.next ≡ n }
        ensures held { result.held ≡ [] }
    {
        InOrder {
            next: n,
            held: BTreeMap::new(alloc),
        }
    }

    /// Offers the item of number n: `Next` exactly at the next number, `Held` exactly above it, `Stale` exactly below it.
    ///
    /// Only an item that is to be held takes memory.
    pub fn offer(&mut self, n: u64, item: T) -> Result<Offer<T>, NoMemoryFor<T>>
        requires from_one { 1 ≤ n }
        requires small { n < 2 ^ 62 }
        requires not_held { is_some (item_at n self.old.held) ≡ false }
        ensures answer { IfOk result (λ o. o ≡ offer_answer self.old.next n item) }
        ensures after { OnOk result (self.new ≡ after_offer self.old n item) }

        // Without memory the item comes back and nothing has changed.
        ensures err { OnErr result (self.new ≡ self.old) }
        ensures err_item { IfErr result (λ e. e.item ≡ item) }
        ensures err_only_above { OnErr result (self.old.next < n) }
    {
        if n == self.next {
            self.next = n + 1;
            return Ok(Offer::Next(item));
        }
        if n < self.next {
            return Ok(Offer::Stale(item));
        }
        self.hold(n, item)?;
        Ok(Offer::Held)
    }

    // Keeps an item that came early.
    #[inline(never)]
    fn hold(&mut self, n: u64, item: T) -> Result<(), NoMemoryFor<T>>
        requires early { self.old.next < n }
        requires small { n < 2 ^ 62 }
        requires not_held { is_some (item_at n self.old.held) ≡ false }
        ensures after { OnOk result (self.new ≡ after_offer self.old n item) }
        ensures err { OnErr result (self.new ≡ self.old) }
        ensures err_item { IfErr result (λ e. e.item ≡ item) }
    {
        match self.held.insert(n, item) {
            Ok(None) => return Ok(()),
            Ok(Some(_held)) => unreachable!(),
            Err(refused) => {
                return Err(NoMemoryFor {
                    item: refused.value.1,
                });
            }
        }
    }

    /// Takes the held item whose turn it is. The next number rises by one.
    pub fn take_next(&mut self) -> Option<T>
        ensures item { result ≡ next_item self.old }
        ensures after { self.new ≡ after_taking self.old }
    {
        let Some(item) = self.held.remove(&self.next) else {
            return None;
        };
        self.next += 1;
        Some(item)
    }

    /// The item that `take_next` would give.
    pub fn peek(&self) -> Option<&T>
        ensures { option_copied result ≡ next_item self.now }
    {
        self.held.get(&self.next)
    }

    /// Whether `take_next` would give an item.
    pub fn is_ready(&self) -> bool
        ensures { result ≡ is_some (next_item self.now) }
    {
        self.held.contains_key(&self.next)
    }

    /// Whether the item of number n is held.
    pub fn holds(&self, n: u64) -> bool
        ensures { result ≡ is_some (item_at n self.now.held) }
    {
        self.held.contains_key(&n)
    }

    /// The number whose turn it is. What is held has rising numbers, from that one on.
    pub fn next_number(&self) -> u64
        ensures next { result ≡ self.now.next }
        ensures order { IsInOrder self.now }
    {
        self.next
    }

    /// The held items with their numbers, in rising number.
    pub fn iter(&self) -> Iter<'_, u64, T>
        ensures { result ≡ self.now.held }
    {
        self.held.iter()
    }

    /// The held item at place i, in rising number; none where i is not below their count. It takes time with i.
    pub fn held_at(&self, i: usize) -> Option<(u64, &T)>
        ensures { option_map (λ p. (p.0, p.1.now)) result ≡ slice_get self.now.held i }
    {
        let (n, item) = self.held.iter().nth(i)?;
        Some((*n, item))
    }
}

/// The order stays one: numbers rise from the next one on, after each offer and each taking.
pub fn order_is_kept<T>()
    ensures offered { (w : OrderView T) (n : ℕ) (item : T) → IsInOrder w → 1 ≤ n → n < 2 ^ 62 →
        is_some (item_at n w.held) ≡ false → IsInOrder (after_offer w n item) }
    ensures taken { (w : OrderView T) → IsInOrder w → IsInOrder (after_taking w) }
{}

/// What is held is exactly what was offered early and not yet given: an early offer adds its item,
/// any other offer none, and a taking leaves out the item whose turn it is.
pub fn held_is_what_came_early<T>()
    ensures early { (w : OrderView T) (n : ℕ) (item : T) (m : ℕ) →
        is_some (item_at n w.held) ≡ false → w.next < n → item_at m (after_offer w n item).held
        ≡ (if m == n then Some item else item_at m w.held) }
    ensures other { (w : OrderView T) (n : ℕ) (item : T) → n ≤ w.next → (after_offer w n item).held
        ≡ w.held }
    ensures taken { (w : OrderView T) (m : ℕ) → IsInOrder w →
        item_at m (after_taking w).held ≡ (if m == w.next then None else item_at m w.held) }
{}
