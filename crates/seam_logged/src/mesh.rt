// SPDX-License-Identifier: MIT

// The links of all nodes of a net, each as a link of two ends: they are made from the links of a net, and give these back once both ends of
// each are in one thread again.
//
// With n nodes, the link from a to b is at place `a * n + b` of a list of links.
//
// A node empties its rings once for many steps, so rings have room for what comes meanwhile: with rings for 8 letters most of them went
// through the spill, and rounds of walkers over sixteen cells took a sixth longer with four workers.

ghost use Rattle.std.specs.Prelude.{◌≡◌, ◌≢◌, ℕ, ◌+◌, ◌*◌, ◌<◌, ◌≤◌, ◌⊎◌, List, [], ◌∷◌, ◌++◌, length, drop, map, OnOk, IfOk};
ghost use Rattle.std.specs.Prelude.{slice_index_or};
ghost use Rattle.seam_machine.specs.Sends.{items_to};
ghost use Rattle.seam_stamp.specs.declared.Letter.{Letter};
ghost use Rattle.seam_stamp.specs.Acts.{items};
ghost use Rattle.seam_logged.specs.Mesh.{IsOut, IsIn, AreFull, AreLinked, ArePaired, IsCell, at_start};
ghost use Rattle.seam_logged.specs.SomeLinks.{Reached, Remaining, IsRow};

use crate::Ends;
use seam_link::{EmptyLink, LinkIn, LinkOut, drain};
use seam_stamp::Letter;
use std::alloc::{AllocError, Global};
use std::collections::VecDeque;

/// How many letters a link's ring has room for; more wait in its spill.
pub const RING_CAPACITY: u32 = 128;

/// Links in which nothing is, kept from run to run. To make the rings of all pairs of nodes anew costs more than many steps.
#[derive(Drop)]
pub struct FreeLinks<T: Drop> {
    links: Vec<EmptyLink<Letter<T>>>,
}

impl<T: Drop> FreeLinks<T> {
    /// No links yet.
    pub fn new(alloc: Global) -> FreeLinks<T> {
        FreeLinks {
            links: Vec::new(alloc),
        }
    }

    /// Where links are made.
    pub fn allocator(&self) -> Global {
        *self.links.allocator()
    }

    // The ends of a link in which nothing is: of one that was kept, or of a new one.
    fn next(&mut self) -> Result<(LinkOut<Letter<T>>, LinkIn<Letter<T>>), AllocError>
        ensures one { IfOk result (λ r. r.0.ring ≡ r.1.ring) }
        ensures empty { IfOk result (λ r. r.0.put ≡ r.1.taken) }
    {
        match self.links.pop() {
            Some(link) => Ok(link.ends()),
            None => {
                let link = EmptyLink::new(self.allocator(), RING_CAPACITY)?;
                Ok(link.ends())
            }
        }
    }
}

/// The ends of the links of n nodes, into which the letters were put, each with the stamp 0.
pub fn linked<T: Drop>(
    free: &mut FreeLinks<T>,
    n: usize,
    links: Vec<Vec<T>>,
) -> Result<Vec<Ends<T>>, AllocError>
    requires { length links.items ≡ n * n }
    ensures full { IfOk result (λ v. AreFull n v.items) }
    ensures linked { IfOk result (λ v. AreLinked n (map (λ l. l.items) links.items) v.items) }
{
    let mut rest = VecDeque::from_vec(links);
    let mut ends = no_ends(free.allocator(), n)?;
    for from in 0..n {
        link_row(free, from, &mut rest, &mut ends)?;
    }
    Ok(ends)
}

// Of each of n nodes no end.
fn no_ends<T: Drop>(alloc: Global, n: usize) -> Result<Vec<Ends<T>>, AllocError>
    ensures { IfOk result (λ v. Reached n 0 0 v.items) }
{
    let mut ends = Vec::new(alloc);
    for _k in 0..n {
        ends.push(Ends {
            ins: Vec::new(alloc),
            outs: Vec::new(alloc),
        })?;
    }
    Ok(ends)
}

// Makes the links from one node, with the next letters of the rest.
fn link_row<T: Drop>(
    free: &mut FreeLinks<T>,
    from: usize,
    rest: &mut VecDeque<Vec<T>>,
    ends: &mut Vec<Ends<T>>,
) -> Result<(), AllocError>
    requires from { from < length ends.old.items }
    requires rest { length ends.old.items ≤ length rest.old.items }
    requires reached { Reached (length ends.old.items) from 0 ends.old.items }
    ensures reached { OnOk result (Reached (length ends.old.items) (from + 1) 0 ends.new.items) }
    ensures linked { OnOk result ((links : List (List T)) → map (λ l. l.items) rest.old.items
        ≡ drop (from * length ends.old.items) links →
        AreLinked (length ends.old.items) links ends.old.items →
        AreLinked (length ends.old.items) links ends.new.items) }
    ensures rest { OnOk result (rest.new.items ≡ drop (length ends.old.items) rest.old.items) }
{
    for to in 0..ends.len() {
        let Some(letters) = rest.pop_front() else {
            unreachable!()
        };
        add_link(free, from, to, letters, ends)?;
    }
    Ok(())
}

// Makes the link between two nodes.
fn add_link<T: Drop>(
    free: &mut FreeLinks<T>,
    from: usize,
    to: usize,
    letters: Vec<T>,
    ends: &mut Vec<Ends<T>>,
) -> Result<(), AllocError>
    requires from { from < length ends.old.items }
    requires to { to < length ends.old.items }
    requires reached { Reached (length ends.old.items) from to ends.old.items }
    ensures reached { OnOk result (Reached (length ends.old.items) from (to + 1) ends.new.items) }
    ensures linked { OnOk result ((links : List (List T)) →
        slice_index_or links (from * length ends.old.items + to) [] ≡ letters.items →
        AreLinked (length ends.old.items) links ends.old.items →
        AreLinked (length ends.old.items) links ends.new.items) }
{
    let (mut out, end) = free.next()?;
    fill(&mut out, letters)?;
    ends[from].outs.push(out)?;
    ends[to].ins.push(end)?;
    Ok(())
}

// Puts the letters into a link, each with the stamp 0.
fn fill<T: Drop>(out: &mut LinkOut<Letter<T>>, letters: Vec<T>) -> Result<(), AllocError>
    ensures put { OnOk result (out.new.put ≡ out.old.put ++ at_start letters.items) }
    ensures ring { OnOk result (out.new.ring ≡ out.old.ring) }
{
    for item in letters {
        match out.put(Letter { stamp: 0, item }) {
            Ok(()) => {}
            Err(_) => return Err(AllocError),
        }
    }
    Ok(())
}

/// What no step received of the letters of each link: those in the receiver's hand, and then what was put and not taken.
/// Hand k is that of node k, and each letter in it has the number of its sender. The links are free then.
pub fn left<T: Drop>(
    free: &mut FreeLinks<T>,
    mut ends: Vec<Ends<T>>,
    mut hands: Vec<VecDeque<(u8, Letter<T>)>>,
) -> Result<Vec<Vec<T>>, AllocError>
    requires full { AreFull (length ends.items) ends.items }
    requires paired { ArePaired ends.items }
    requires hands { length hands.items ≡ length ends.items }
    ensures many { IfOk result (λ v. length v.items ≡ length ends.items * length ends.items) }
    ensures cells { IfOk result (λ v. (a b : ℕ) → a < length ends.items → b < length ends.items →
        IsCell ends.items (map (λ h. h.items) hands.items) a b
        (slice_index_or (map (λ l. l.items) v.items) (a * length ends.items + b) [])) }
{
    let mut links = VecDeque::new(free.allocator());
    let mut from = ends.len();
    while from > 0 {
        from -= 1;
        meet_row(free, from, &mut ends, &mut hands, &mut links)?;
    }
    Ok(links.into_vec())
}

// What was left of the links from one node, put before the others.
fn meet_row<T: Drop>(
    free: &mut FreeLinks<T>,
    from: usize,
    ends: &mut Vec<Ends<T>>,
    hands: &mut Vec<VecDeque<(u8, Letter<T>)>>,
    links: &mut VecDeque<Vec<T>>,
) -> Result<(), AllocError>
    requires from { from < length ends.old.items }
    requires reached { Reached (length ends.old.items) (from + 1) 0 ends.old.items }
    requires paired { ArePaired ends.old.items }
    requires hands { length hands.old.items ≡ length ends.old.items }
    ensures remaining { OnOk result (Remaining (length ends.old.items) from 0 ends.old.items
        (map (λ h. h.items) hands.old.items) ends.new.items
        (map (λ h. h.items) hands.new.items)) }
    ensures row { OnOk result ((row : List (List T)) × (map (λ l. l.items) links.new.items
        ≡ row ++ map (λ l. l.items) links.old.items) ×
        (length row ≡ length ends.old.items) × IsRow ends.old.items
        (map (λ h. h.items) hands.old.items) from 0 row) }
{
    let mut to = ends.len();
    while to > 0 {
        to -= 1;
        let link = meet_link(free, from, to, ends, hands)?;
        links.push_front(link)?;
    }
    Ok(())
}

// What was left of the link between two nodes.
fn meet_link<T: Drop>(
    free: &mut FreeLinks<T>,
    from: usize,
    to: usize,
    ends: &mut Vec<Ends<T>>,
    hands: &mut Vec<VecDeque<(u8, Letter<T>)>>,
) -> Result<Vec<T>, AllocError>
    requires from { from < length ends.old.items }
    requires to { to < length ends.old.items }
    requires reached { Reached (length ends.old.items) from (to + 1) ends.old.items }
    requires paired { ArePaired ends.old.items }
    requires hands { length hands.old.items ≡ length ends.old.items }
    ensures remaining { OnOk result (Remaining (length ends.old.items) from to ends.old.items
        (map (λ h. h.items) hands.old.items) ends.new.items
        (map (λ h. h.items) hands.new.items)) }
    ensures cell { IfOk result (λ l. IsCell ends.old.items (map (λ h. h.items) hands.old.items) from
        to l.items) }
{
    let Some(out) = ends[from].outs.pop() else {
        unreachable!()
    };
    let Some(end) = ends[to].ins.pop() else {
        unreachable!()
    };
    let alloc = free.allocator();
    let mut link = from_hand(alloc, &mut hands[to], from)?;
    let (letters, emptied) = drain(alloc, out, end)?;
    free.links.push(emptied)?;
    add_letters(&mut link, letters)?;
    Ok(link)
}

// Takes the letters of that node out of the hand, and their stamps off. The others stay in their order.
fn from_hand<T: Drop>(
    alloc: Global,
    hand: &mut VecDeque<(u8, Letter<T>)>,
    from: usize,
) -> Result<Vec<T>, AllocError>
    ensures given { IfOk result (λ v. v.items ≡ items (items_to from hand.old.items)) }
    ensures others { OnOk result ((a : ℕ) → a ≢ from → items_to a hand.new.items
        ≡ items_to a hand.old.items) }
{
    let mut given = Vec::new(alloc);
    for _i in 0..hand.len() {
        let Some((sender, letter)) = hand.pop_front() else {
            unreachable!()
        };
        if sender as usize == from {
            given.push(letter.item)?;
        } else {
            hand.push_back_reserved((sender, letter));
        }
    }
    Ok(given)
}

// Adds the letters to a link, without their stamps.
fn add_letters<T: Drop>(link: &mut Vec<T>, letters: Vec<Letter<T>>) -> Result<(), AllocError>
    ensures { OnOk result (link.new.items ≡ link.old.items ++ items letters.items) }
{
    for letter in letters {
        link.push(letter.item)?;
    }
    Ok(())
}
