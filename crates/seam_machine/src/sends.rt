//! What a step sends.

ghost use Rattle.std.specs.Prelude.{true, false, ◌≡◌, ◌+◌, ◌<◌, ◌≤◌, [], ◌∷◌, ◌++◌, ◌^◌, length, take, Some, OnOk, OnSome, IfNone, IfSome};
ghost use Rattle.std.specs.Prelude.{slice_get};
ghost use Rattle.std.specs.Prelude.{option_copied};
ghost use Rattle.std.specs.List.{All};
ghost use Rattle.seam_machine.specs.Views.{OutView};
ghost use Rattle.seam_machine.specs.Sends.{first_target, items_to};
ghost use Rattle.seam_machine.specs.Inside.{is_empty};
ghost use Rattle.std.specs.VecDeque.{deque_len, deque_capacity};

use std::alloc::{AllocError, Global};
use std::collections::VecDeque;
use std::marker::Model;
use std::mem;

/// The items that a step sends, in order of sending, and the room that was made for more.
#[derive(Drop)]
pub struct Out<T> {
    items: VecDeque<(u8, T)>,
}

impl<T> Model for Out<T> {
    ghost use Rattle.std.specs.Prelude.{◌-◌};
    ghost use Rattle.std.specs.VecDeque.{deque_capacity, deque_len};
    ghost use Rattle.seam_machine.specs.Views.{OutView};

    ghost Value = { OutView T };

    ghost view = { λ o. record { items = o.items.items; spare = deque_capacity o.items - deque_len o.items } };
}

// Moves all items to the end of the others, in room that was made before.
fn move_all<T: Drop>(to: &mut VecDeque<T>, mut items: VecDeque<T>)
    requires { deque_len to.old + length items.items ≤ deque_capacity to.old }
    ensures { to.new.items ≡ to.old.items ++ items.items }
{
    while let Some(item) = items.pop_front() {
        to.push_back_reserved(item);
    }
}

// Whether all of the items go to that node.
fn all_go<T>(items: &[(u8, T)], to: u8) -> bool
    ensures { result ≡ true → All (λ p. p.0 ≡ to) items.now }
{
    for sent in items {
        if sent.0 != to {
            return false;
        }
    }
    true
}

impl<T> Out<T> {
    pub fn new(alloc: Global) -> Self
        ensures { result.items ≡ [] }
    {
        Out {
            items: VecDeque::new(alloc),
        }
    }

    /// An empty one, with the room of this one where this one is empty.
    pub fn take_room(&mut self, alloc: Global) -> Self
        ensures same { self.new.items ≡ self.old.items }
        ensures empty { result.items ≡ [] }
    {
        let mut other = Out::new(alloc);
        if self.items.is_empty() {
            mem::swap(self, &mut other);
        }
        other
    }

    /// Makes room for n more items.
    pub fn reserve(&mut self, n: usize) -> Result<(), AllocError>
        ensures items { self.new.items ≡ self.old.items }
        ensures room { OnOk result (n ≤ self.new.spare) }
        ensures kept { self.old.spare ≤ self.new.spare }
    {
        self.items.reserve(n)
    }

    /// Sends an item to that node, in room that was made before.
    pub fn send(&mut self, to: u8, item: T)
        requires { 0 < self.old.spare }
        ensures items { self.new.items ≡ self.old.items ++ (to, item) ∷ [] }
        ensures spare { self.new.spare + 1 ≡ self.old.spare }
    {
        self.items.push_back_reserved((to, item));
    }

    /// Takes out the item that was sent first, with its target. There is room for one more then.
    pub fn take(&mut self) -> Option<(u8, T)>
        ensures first { IfSome result (λ p. self.old.items ≡ p ∷ self.new.items) }
        ensures spare { OnSome result (self.new.spare ≡ self.old.spare + 1) }
        ensures none { IfNone result (self.old.items ≡ []) }
        ensures unchanged { IfNone result (self.new ≡ self.old) }
    {
        self.items.pop_front()
    }

    /// Puts an item back before the others, in room that was made before.
    pub fn put_back(&mut self, to: u8, item: T)
        requires { 0 < self.old.spare }
        ensures items { self.new.items ≡ (to, item) ∷ self.old.items }
        ensures spare { self.new.spare + 1 ≡ self.old.spare }
    {
        self.items.push_front_reserved((to, item));
    }

    /// To whom the item goes that `take` would give.
    pub fn next_target(&self) -> Option<u8>
        ensures { result ≡ first_target self.now.items }
    {
        match self.items.front() {
            None => None,
            Some((to, _)) => Some(*to),
        }
    }

    /// Gives all items for what the link holds, where it holds nothing and all go to that node. It is answered whether they were given.
    pub(crate) fn give_all(&mut self, to: u8, link: &mut VecDeque<(u8, T)>) -> bool
        requires target { first_target self.old.items ≡ Some to }
        ensures all { result ≡ true → All (λ p. p.0 ≡ to) self.old.items }
        ensures empty { result ≡ true → link.old.items ≡ [] }
        ensures given { result ≡ true → link.new.items ≡ self.old.items }
        ensures none { result ≡ true → self.new.items ≡ [] }
        ensures kept { result ≡ false → self.new ≡ self.old }
        ensures same { result ≡ false → link.new ≡ link.old }
    {
        if !link.is_empty() || !self.all_go(to) {
            return false;
        }
        mem::swap(&mut self.items, link);
        true
    }

    // Whether all items go to that node, as the first does. The last is looked at before those between them.
    fn all_go(&self, to: u8) -> bool
        requires { first_target self.now.items ≡ Some to }
        ensures { result ≡ true → All (λ p. p.0 ≡ to) self.now.items }
    {
        let count = self.items.len();
        if count == 1 {
            return true;
        }
        if self.items[count - 1].0 != to {
            return false;
        }
        let (front, back) = self.items.as_slices();
        all_go(front, to) && all_go(back, to)
    }

    /// How many items there are.
    pub fn len(&self) -> usize
        ensures len { result ≡ length self.now.items }
        ensures small { result < 2 ^ 63 }
    {
        self.items.len()
    }

    /// Whether there is no item.
    pub fn is_empty(&self) -> bool
        ensures { result ≡ is_empty self.now.items }
    {
        self.items.is_empty()
    }

    #[tactic(auto, using(crate::proofs::SendLemmas::count_yes, crate::proofs::SendLemmas::count_no))]
    /// How many items go to that node.
    pub fn count_to(&self, to: u8) -> usize
        ensures count { result ≡ length (items_to to self.now.items) }
        ensures small { result < 2 ^ 63 }
    {
        let mut n = 0;
        for i in 0..self.items.len() {
            if self.items[i].0 == to {
                n += 1;
            }
        }
        n
    }

    #[tactic(auto, using(crate::proofs::SendLemmas::count_yes, crate::proofs::SendLemmas::count_no))]
    /// The item at place i of those that go to that node.
    pub fn item_to(&self, to: u8, i: usize) -> Option<&T>
        ensures { option_copied result ≡ slice_get (items_to to self.now.items) i }
    {
        let mut n = 0;
        for k in 0..self.items.len() {
            let sent = &self.items[k];
            if sent.0 == to {
                if n == i {
                    return Some(&sent.1);
                }
                n += 1;
            }
        }
        None
    }
}

impl<T: Drop> Out<T> {
    /// Takes back what was sent last, so that at most `len` items are left.
    pub fn cut(&mut self, len: usize)
        ensures { self.new.items ≡ take len self.old.items }
    {
        self.items.truncate(len);
    }

    /// Sends all items of the other, in room that was made before; where nothing was sent yet, none is needed.
    pub fn send_all(&mut self, others: Out<T>)
        requires { is_empty self.old.items ≡ false → length others.items ≤ self.old.spare }
        ensures { self.new.items ≡ self.old.items ++ others.items }
    {
        if self.items.is_empty() {
            self.items = others.items;
            return;
        }
        move_all(&mut self.items, others.items);
    }
}
