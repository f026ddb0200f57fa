//! What a node sent last, and no link holds yet.

ghost use Rattle.std.specs.Prelude.{◌≡◌, ℕ, ◌<◌, ◌≤◌, ◌^◌, ◌++◌, true, false, [], length, Some, None, IsSome, OnOk, OnErr, slice_get};
ghost use Rattle.std.specs.Prelude.{option_copied};
ghost use Rattle.seam_machine.specs.Sends.{items_to, AllBelow};
ghost use Rattle.seam_machine.specs.Inside.{waits, is_empty, HasInput, IsAhead, IsFed};

use crate::machines::{Event, Input, Machine};
use crate::marks::Marks;
use crate::sends::Out;
use std::alloc::{AllocError, Global};
use std::mem;

/// What node `sender` sent last and no link holds yet: most often one item, which is fed before all others and so needs no link.
#[derive(Drop)]
pub struct Sent<T> {
    // The node that is fed an item before all others, where there is one.
    pub target: Option<u8>,
    // What it is fed. Without a node this means nothing: the last such item is used up.
    pub ahead: Input<T>,
    // The others.
    pub out: Out<T>,
    pub sender: usize,
}

impl<T> Sent<T> {
    /// Whether nothing waits.
    pub fn is_empty(&self) -> bool
        ensures { result ≡ is_empty (waits self.now.target self.now.ahead self.now.out.items) }
    {
        match (self.target, &self.ahead) {
            (Some(_), Input::From(_, _)) => false,
            _ => self.out.is_empty(),
        }
    }

    /// Whether the event feeds the item that is fed before all others.
    pub fn is_next(&self, event: Event) -> bool
        ensures { result ≡ true → IsFed self.now.target self.now.ahead event.node event.from }
    {
        match (self.target, &self.ahead) {
            (Some(target), Input::From(from, _)) => event.node == target
                && event.from == Some(*from),
            _ => false,
        }
    }

    /// How many items that wait go to that node.
    pub fn count_to(&self, to: u8) -> usize
        ensures count { result ≡ length (items_to to (waits self.now.target self.now.ahead
            self.now.out.items)) }
        ensures small { result ≤ 2 ^ 63 }
    {
        let others = self.out.count_to(to);
        match (self.target, &self.ahead) {
            (Some(target), Input::From(_, _)) if target == to => others + 1,
            _ => others,
        }
    }

    /// The item at place i of those that wait and go to that node.
    pub fn item_to(&self, to: u8, i: usize) -> Option<&T>
        ensures { option_copied result ≡ slice_get (items_to to
            (waits self.now.target self.now.ahead self.now.out.items)) i }
    {
        match (self.target, &self.ahead) {
            (Some(target), Input::From(_, item)) if target == to => {
                if i == 0 {
                    return Some(item);
                }
                self.out.item_to(to, i - 1)
            }
            _ => self.out.item_to(to, i),
        }
    }
}

impl<T: Drop> Sent<T> {
    /// Nothing that waits.
    pub fn none(alloc: Global) -> Sent<T>
        ensures target { result.target ≡ None }
        ensures items { result.out.items ≡ [] }
        ensures sender { result.sender ≡ 0 }
    {
        Sent {
            target: None,
            ahead: Input::Task,
            out: Out::new(alloc),
            sender: 0,
        }
    }

    /// Puts the item that is fed before all others back to the others.
    pub fn rejoin(&mut self) -> Result<(), AllocError>
        requires ahead { HasInput self.old.target self.old.ahead }
        ensures task { OnOk result (self.new.target ≡ None) }
        ensures items { OnOk result (self.new.out.items ≡ waits self.old.target self.old.ahead
            self.old.out.items) }
        ensures sender { self.new.sender ≡ self.old.sender }
        ensures err_ahead { OnErr result (self.new.ahead ≡ self.old.ahead) }
        ensures err_target { OnErr result (self.new.target ≡ self.old.target) }
        ensures err_out { OnErr result (self.new.out.items ≡ self.old.out.items) }
    {
        let Some(target) = self.target else {
            return Ok(());
        };
        self.out.reserve(1)?;
        let Input::From(_, item) = mem::replace(&mut self.ahead, Input::Task) else {
            unreachable!()
        };
        self.out.put_back(target, item);
        self.target = None;
        Ok(())
    }

    /// Takes the item that waits alone as the one that is fed before all others, where its node is below all that are marked. It is
    /// answered whether it was taken.
    pub fn take_ahead(&mut self, waiting: &Marks) -> bool
        requires few { 0 < length self.old.out.items → self.old.sender < 256 }
        requires ahead { IsAhead self.old.target self.old.ahead self.old.sender self.old.out.items
            waiting.now.words }
        ensures items { waits self.new.target self.new.ahead self.new.out.items
            ≡ waits self.old.target self.old.ahead self.old.out.items }
        ensures sender { self.new.sender ≡ self.old.sender }
        ensures ahead { IsAhead self.new.target self.new.ahead self.new.sender self.new.out.items
            waiting.now.words }
    {
        if self.out.len() != 1 {
            return false;
        }
        let Some(to) = self.out.next_target() else {
            unreachable!()
        };
        if let Some(first) = waiting.first() {
            if first <= to {
                return false;
            }
        }
        let Some((target, item)) = self.out.take() else {
            unreachable!()
        };
        self.ahead = Input::From(self.sender as u8, item);
        self.target = Some(target);
        true
    }

    /// Feeds the node the item that it is fed before all others.
    pub fn serve<M: Machine<Msg = T>>(
        &mut self,
        alloc: Global,
        node: &mut M,
    ) -> Result<(), AllocError>
        requires target { IsSome self.old.target }
        requires ahead { HasInput self.old.target self.old.ahead }
        ensures state { OnOk result (node.new ≡ (M.steps node.old self.old.ahead).state) }
        ensures sent { OnOk result (self.new.out.items ≡ self.old.out.items
            ++ (M.steps node.old self.old.ahead).sent) }
        ensures used { OnOk result (self.new.target ≡ None) }
        ensures sender { OnOk result (self.old.target ≡ Some self.new.sender) }
        ensures to_peers { OnOk result (AllBelow (M.peer_count node.old)
            (M.steps node.old self.old.ahead).sent) }
        ensures same_peers { M.peer_count node.new ≡ M.peer_count node.old }
        ensures err_node { OnErr result (node.new ≡ node.old) }
        ensures err_ahead { OnErr result (self.new.ahead ≡ self.old.ahead) }
        ensures err_out { OnErr result (self.new.out.items ≡ self.old.out.items) }
        ensures err_target { OnErr result (self.new.target ≡ self.old.target) }
        ensures err_sender { OnErr result (self.new.sender ≡ self.old.sender) }
    {
        let Some(target) = self.target else {
            unreachable!()
        };
        node.known();
        match node.step(alloc, &mut self.ahead, &mut self.out) {
            Ok(()) => {
                self.target = None;
                self.sender = target as usize;
                return Ok(());
            }
            Err(_) => return Err(AllocError),
        }
    }
}
