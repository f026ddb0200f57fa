//! The links from one node.

ghost use Rattle.std.specs.Prelude.{◌≡◌, ◌+◌, ◌<◌, ◌≤◌, ◌^◌, List, [], ◌∷◌, ◌++◌, length, replicate, OnOk, OnErr, IfOk, option_copied};
ghost use Rattle.std.specs.Prelude.{slice_get, slice_index_or, slice_set, map, drop, true, false, Some};
ghost use Rattle.std.specs.VecDeque.{deque_len, deque_capacity};
ghost use Rattle.seam_machine.specs.Sends.{first_target, AllBelow};
ghost use Rattle.seam_machine.specs.Inside.{Serves, PutsRun};

use crate::machines::{Input, Machine};
use crate::sends::Out;
use std::alloc::{AllocError, Global};
use std::collections::VecDeque;
use std::marker::Model;

/// The links from one node, in the order of their targets.
#[derive(Drop)]
pub struct Row<T> {
    // The number of an item means nothing here: it is kept so that a link can be what `Out` held.
    links: Vec<VecDeque<(u8, T)>>,
}

impl<T> Model for Row<T> {
    ghost use Rattle.std.specs.Prelude.{List, map};

    ghost Value = { List (List T) };

    ghost view = { λ r. map (λ q. map (λ p. p.1) q.items) r.links.items };
}

// A link that holds these items.
fn link_of<T: Drop>(alloc: Global, items: Vec<T>) -> Result<VecDeque<(u8, T)>, AllocError>
    ensures { IfOk result (λ q. map (λ p. p.1) q.items ≡ items.items) }
{
    let mut link = VecDeque::new(alloc);
    for item in items {
        link.push_back((0, item))?;
    }
    Ok(link)
}

// The items that the link holds.
fn items_of<T: Drop>(alloc: Global, mut link: VecDeque<(u8, T)>) -> Result<Vec<T>, AllocError>
    ensures { IfOk result (λ v. v.items ≡ map (λ p. p.1) link.items) }
{
    let mut items = Vec::new(alloc);
    while let Some((_, item)) = link.pop_front() {
        items.push(item)?;
    }
    Ok(items)
}

impl<T: Drop> Row<T> {
    /// n empty links.
    pub fn empty(alloc: Global, n: usize) -> Result<Row<T>, AllocError>
        ensures { IfOk result (λ r. r ≡ replicate n []) }
    {
        let mut links = Vec::new(alloc);
        for _i in 0..n {
            links.push(VecDeque::new(alloc))?;
        }
        Ok(Row { links })
    }

    /// The next n of the links.
    pub fn of_next(
        alloc: Global,
        n: usize,
        rest: &mut VecDeque<Vec<T>>,
    ) -> Result<Row<T>, AllocError>
        requires { n ≤ length rest.old.items }
        ensures taken { IfOk result (λ r. r ++ map (λ v. v.items) rest.new.items
            ≡ map (λ v. v.items) rest.old.items) }
        ensures wide { IfOk result (λ r. length r ≡ n) }
        ensures left { OnOk result (length rest.new.items + n ≡ length rest.old.items) }
    {
        let mut links = Vec::new(alloc);
        for _i in 0..n {
            let Some(link) = rest.pop_front() else {
                unreachable!()
            };
            links.push(link_of(alloc, link)?)?;
        }
        Ok(Row { links })
    }

    /// Puts the links, in their order, after the others.
    pub fn pour(self, alloc: Global, others: &mut Vec<Vec<T>>) -> Result<(), AllocError>
        ensures { OnOk result (map (λ v. v.items) others.new.items
            ≡ map (λ v. v.items) others.old.items ++ self) }
    {
        let Row { links } = self;
        for link in links {
            others.push(items_of(alloc, link)?)?;
        }
        Ok(())
    }
}

// Moves the first item of `out`, which goes to that node, and those after it that go there too, to its link, as far as there is
// room. It is answered to whom the first of the others goes.
fn move_run<T>(link: &mut VecDeque<(u8, T)>, to: u8, out: &mut Out<T>) -> Option<u8>
    requires target { first_target out.old.items ≡ Some to }
    requires room { deque_len link.old < deque_capacity link.old }
    ensures moved { PutsRun to (map (λ p. p.1) link.old.items) out.old.items
        (map (λ p. p.1) link.new.items) out.new.items }
    ensures some { length out.new.items < length out.old.items }
    ensures next { result ≡ first_target out.new.items }
{
    loop {
        let Some(sent) = out.take() else {
            unreachable!()
        };
        link.push_back_reserved(sent);
        let next = out.next_target();
        if next != Some(to) || link.reserve(1).is_err() {
            return next;
        }
    }
}

impl<T> Row<T> {
    /// How many messages the link to that node holds.
    pub fn len(&self, to: usize) -> usize
        ensures len { result ≡ length (slice_index_or self.now to []) }
        ensures small { result < 2 ^ 63 }
    {
        if to < self.links.len() {
            self.links[to].len()
        } else {
            0
        }
    }

    /// How many messages the link to that node, which there is, holds.
    pub fn link_len(&self, to: usize) -> usize
        requires { to < length self.now }
        ensures { result ≡ length (slice_index_or self.now to []) }
    {
        self.links[to].len()
    }

    /// The message at place i of the link to that node.
    pub fn get(&self, to: usize, i: usize) -> Option<&T>
        ensures { option_copied result ≡ slice_get (slice_index_or self.now to []) i }
    {
        if to < self.links.len() {
            return match self.links[to].get(i) {
                None => None,
                Some((_, item)) => Some(item),
            };
        }
        None
    }

    /// Moves all items of `out`, the first of which goes to that node, to its link, where the link holds nothing and all go there. It is
    /// answered whether they were moved.
    pub fn put_all(&mut self, to: u8, out: &mut Out<T>) -> bool
        requires target { first_target out.old.items ≡ Some to }
        requires fits { to < length self.old }
        ensures empty { result ≡ true → slice_index_or self.old to [] ≡ [] }
        ensures moved { result ≡ true → PutsRun to (slice_index_or self.old to []) out.old.items
            (slice_index_or self.new to []) out.new.items }
        ensures others { result ≡ true → self.new ≡ slice_set self.old to
            (slice_index_or self.new to []) }
        ensures none { result ≡ true → out.new.items ≡ [] }
        ensures err_row { result ≡ false → self.new ≡ self.old }
        ensures err_out { result ≡ false → out.new.items ≡ out.old.items }
    {
        let link = &mut self.links[to as usize];
        out.give_all(to, link)
    }

    /// Moves the first item of `out`, which goes to that node, and those after it that go there too, to the end of their link. It is
    /// answered to whom the first of the others goes. If allocation fails for one that is not the first, it is among the others.
    pub fn put_run(&mut self, to: u8, out: &mut Out<T>) -> Result<Option<u8>, AllocError>
        requires target { first_target out.old.items ≡ Some to }
        requires fits { to < length self.old }
        ensures moved { OnOk result (PutsRun to (slice_index_or self.old to []) out.old.items
            (slice_index_or self.new to []) out.new.items) }
        ensures others { OnOk result (self.new ≡ slice_set self.old to
            (slice_index_or self.new to [])) }
        ensures some { OnOk result (length out.new.items < length out.old.items) }
        ensures next { IfOk result (λ n. n ≡ first_target out.new.items) }
        ensures err_row { OnErr result (self.new ≡ self.old) }
        ensures err_out { OnErr result (out.new.items ≡ out.old.items) }
    {
        if self.put_all(to, out) {
            return Ok(None);
        }
        let link = &mut self.links[to as usize];
        if let Err(refused) = link.reserve(1) {
            return Err(refused);
        }
        Ok(move_run(link, to, out))
    }

    /// Feeds the first message of the link to that node to it.
    pub fn serve<M: Machine<Msg = T>>(
        &mut self,
        alloc: Global,
        from: u8,
        to: usize,
        node: &mut M,
        out: &mut Out<T>,
    ) -> Result<(), AllocError>
        requires { 0 < length (slice_index_or self.old to []) }
        ensures served { OnOk result (Serves M.steps from to self.old node.old out.old.items
            self.new node.new out.new.items) }
        ensures err_row { OnErr result (self.new ≡ self.old) }
        ensures err_node { OnErr result (node.new ≡ node.old) }
        ensures err_out { OnErr result (out.new.items ≡ out.old.items) }
        ensures to_peers { AllBelow (M.peer_count node.old) out.old.items →
            AllBelow (M.peer_count node.old) out.new.items }
        ensures same_peers { M.peer_count node.new ≡ M.peer_count node.old }
    {
        node.known();
        let link = &mut self.links[to];
        let Some((number, item)) = link.pop_front() else {
            unreachable!()
        };
        let mut input = Input::From(from, item);
        match node.step(alloc, &mut input, out) {
            Ok(()) => return Ok(()),
            Err(_) => {
                let Input::From(_, back) = input else {
                    unreachable!()
                };
                link.push_front_reserved((number, back));
                return Err(AllocError);
            }
        }
    }
}
