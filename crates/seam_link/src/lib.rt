// SPDX-License-Identifier: MIT

//! Links with two ends: one puts items, the other one takes them, in two threads or in one. No item is lost, and all come in the order in
//! which they were put.
//!
//! A link is a ring of a fixed size between one producer and one consumer, as Lamport, "Proving the Correctness of Multiprocess Programs"
//! (1977), and a spill at the producer's end for what the ring has no room for.
//!
//! Each end names its ring in what contracts see, and two ends can be met only where the names are equal. An item is moved and has no copy,
//! so no body can give it twice.
//!
//! Counts of the looks that found nothing, and of those that found the ring full, rise for ever, and only contracts see them; so a flush
//! tells that it moved all that the ring had room for, though the other end makes room at any time.
#![tactic(auto)]

ghost use Rattle.std.specs.Prelude.{◌≡◌, ◌≢◌, ℕ, ◌+◌, ◌<◌, ◌≤◌, [], ◌∷◌, ◌++◌, OnOk, IfOk, IfErr, IfSome, IfNone, true, false};
ghost use Rattle.rtrb.specs.Ring.{ProducerLooked, known_free};
ghost use Rattle.seam_link.specs.Ends.{IsFlushed};

use rtrb::{Consumer, Producer, RingBuffer};
use seam_table::NoMemoryFor;
use std::alloc::{AllocError, Global};
use std::collections::VecDeque;
use std::marker::Model;
use std::snapshot::Snapshot;

/// The end that puts. What the ring has no room for waits in the spill.
#[derive(Drop)]
pub struct LinkOut<T: Drop> {
    ring: Producer<T>,
    spill: VecDeque<T>,
    fulls: Count,
}

impl<T: Drop> Model for LinkOut<T> {
    ghost use Rattle.std.specs.Prelude.{◌++◌};
    ghost use Rattle.std.specs.declared.alloc.Global.{Global};
    ghost use Rattle.rtrb.specs.Ring.{sent};
    ghost use Rattle.seam_link.specs.Ends.{OutView, ring_of_out};

    ghost Value = { OutView T Global };

    ghost view = { λ o. record {
      put = sent o.ring ++ o.spill.items;
      waiting = o.spill.items;
      fulls = o.fulls;
      ring = ring_of_out o.ring;
    } };
}

/// A count that only contracts see. It has no greatest value and takes no memory.
#[derive(Drop)]
pub struct Count {
    before: Option<Snapshot<Count>>,
}

impl Model for Count {
    ghost use Rattle.std.specs.Prelude.{ℕ};
    ghost use Rattle.std.specs.Coded.{coded_ℕ};
    ghost use Rattle.seam_link.specs.Counts.{after};

    ghost Value = { ℕ };

    ghost coded = { coded_ℕ };

    ghost view = { λ n. after n.before };

    ghost size = { λ n. n };
}

impl Count {
    fn new() -> Count
        ensures { result ≡ 0 }
    {
        Count { before: None }
    }

    fn raise(&mut self)
        ensures { self.new ≡ self.old + 1 }
    {
        let old = Snapshot::of(&*self);
        self.before = Some(old);
    }
}

/// The end that takes.
#[derive(Drop)]
pub struct LinkIn<T: Drop> {
    ring: Consumer<T>,
    nones: Count,
}

impl<T: Drop> Model for LinkIn<T> {
    ghost use Rattle.std.specs.declared.alloc.Global.{Global};
    ghost use Rattle.rtrb.specs.Ring.{received};
    ghost use Rattle.seam_link.specs.Ends.{InView, ring_of_in};

    ghost Value = { InView T Global };

    ghost view = { λ i. record { taken = received i.ring; nones = i.nones; ring = ring_of_in i.ring } };
}

/// A link whose ring has room for `cap` items.
pub fn link<T: Drop>(alloc: Global, cap: u32) -> Result<(LinkOut<T>, LinkIn<T>), AllocError>
    requires { 1 ≤ cap }
    ensures one { IfOk result (λ r. r.0.ring ≡ r.1.ring) }
    ensures empty { IfOk result (λ r. (r.0.put ≡ []) × (r.1.taken ≡ [])) }
    ensures first { IfOk result (λ r. (r.0.fulls ≡ 0) × (r.1.nones ≡ 0)) }
{
    let (producer, consumer) = RingBuffer::new(alloc, cap as usize)?;
    Ok((
        LinkOut {
            ring: producer,
            spill: VecDeque::new(alloc),
            fulls: Count::new(),
        },
        LinkIn {
            ring: consumer,
            nones: Count::new(),
        },
    ))
}

// Whether the ring was seen full, which is counted.
fn sees_full<T: Drop>(ring: &mut Producer<T>, fulls: &mut Count) -> bool
    ensures looked { ProducerLooked ring.old ring.new }
    ensures full { result ≡ true → fulls.new ≡ fulls.old + 1 }
    ensures room { result ≡ false → (0 < known_free ring.new) × (fulls.new ≡ fulls.old) }
{
    let full = ring.is_full();
    if full {
        fulls.raise();
    }
    full
}

impl<T: Drop> LinkOut<T> {
    /// Puts an item into the link, after all that was put before. It goes into the ring, or waits where the ring was seen full.
    /// If allocation fails, the item comes back; only an item that has to wait needs memory.
    pub fn put(&mut self, item: T) -> Result<(), NoMemoryFor<T>>
        ensures ok { OnOk result (self.new.put ≡ self.old.put ++ item ∷ []) }
        ensures err { IfErr result (λ e. (self.new.put ≡ self.old.put) × (e.item ≡ item)) }
        ensures full { IfErr result (λ _. self.new.fulls ≡ self.old.fulls + 1) }
        ensures flushed { OnOk result (IsFlushed self.old self.new) }
        ensures ring { self.new.ring ≡ self.old.ring }
    {
        self.flush();
        if !self.spill.is_empty() {
            return self.spill_over(item);
        }
        if sees_full(&mut self.ring, &mut self.fulls) {
            return self.spill_over(item);
        }
        self.ring.push_reserved(item);
        Ok(())
    }

    /// Whether something waits for room in the ring.
    pub fn waits(&self) -> bool
        ensures none { result ≡ false → self.now.waiting ≡ [] }
        ensures some { result ≡ true → self.now.waiting ≢ [] }
    {
        !self.spill.is_empty()
    }

    // Puts an item to the end of the spill.
    fn spill_over(&mut self, item: T) -> Result<(), NoMemoryFor<T>>
        ensures ok { OnOk result (self.new.put ≡ self.old.put ++ item ∷ []) }
        ensures err { IfErr result (λ e. (self.new.put ≡ self.old.put) × (e.item ≡ item)) }
        ensures waiting { OnOk result (self.new.waiting ≢ []) }
        ensures fulls { self.new.fulls ≡ self.old.fulls }
        ensures ring { self.new.ring ≡ self.old.ring }
    {
        if self.spill.reserve(1).is_err() {
            return Err(NoMemoryFor { item });
        }
        self.spill.push_back_reserved(item);
        Ok(())
    }

    /// Moves items from the spill to the ring, until nothing waits or the ring is seen full.
    pub fn flush(&mut self)
        ensures put { self.new.put ≡ self.old.put }
        ensures flushed { IsFlushed self.old self.new }
        ensures ring { self.new.ring ≡ self.old.ring }
    {
        while !self.spill.is_empty() {
            if sees_full(&mut self.ring, &mut self.fulls) {
                return;
            }
            if let Some(item) = self.spill.pop_front() {
                self.ring.push_reserved(item);
            }
        }
    }
}

impl<T: Drop> LinkIn<T> {
    /// The next item of the ring. None where none was seen there; another thread may put one at that moment.
    pub fn take(&mut self) -> Option<T>
        ensures some { IfSome result (λ x. self.new.taken ≡ self.old.taken ++ x ∷ []) }
        ensures none { IfNone result (self.new.taken ≡ self.old.taken) }
        ensures more { IfNone result (self.new.nones ≡ self.old.nones + 1) }
        ensures same { IfSome result (λ _. self.new.nones ≡ self.old.nones) }
        ensures ring { self.new.ring ≡ self.old.ring }
    {
        match self.ring.pop() {
            Ok(item) => return Some(item),
            Err(_) => {
                self.nones.raise();
                return None;
            }
        }
    }
}

/// A link in which nothing is, with both ends in one thread: all that was put into it was taken. It can be used again, and its ring is
/// memory that need not be made anew.
#[derive(Drop)]
pub struct EmptyLink<T: Drop> {
    out: LinkOut<T>,
    end: LinkIn<T>,
}

impl<T: Drop> Model for EmptyLink<T> {
    ghost use Rattle.std.specs.Prelude.{◌≡◌};
    ghost use Rattle.std.specs.declared.alloc.Global.{Global};
    ghost use Rattle.seam_link.specs.Ends.{InView};

    ghost Value = { InView T Global };

    ghost view = { λ l. l.end };

    ghost invariant = { λ l. (l.out.ring ≡ l.end.ring) × (l.out.put ≡ l.end.taken) };
}

impl<T: Drop> EmptyLink<T> {
    /// A new link, whose ring has room for `cap` items.
    pub fn new(alloc: Global, cap: u32) -> Result<EmptyLink<T>, AllocError>
        requires { 1 ≤ cap }
    {
        let (out, end) = link(alloc, cap)?;
        Ok(EmptyLink { out, end })
    }

    /// Its ends.
    pub fn ends(self) -> (LinkOut<T>, LinkIn<T>)
        ensures one { result.0.ring ≡ result.1.ring }
        ensures empty { result.0.put ≡ result.1.taken }
    {
        let EmptyLink { out, end } = self;
        (out, end)
    }
}

/// What was put into a link and not taken from it, once both ends are in one thread again; and the link, which is empty then. The ring
/// stays, and what the spill took is given back.
pub fn drain<T: Drop>(
    alloc: Global,
    out: LinkOut<T>,
    end: LinkIn<T>,
) -> Result<(Vec<T>, EmptyLink<T>), AllocError>
    requires { out.ring ≡ end.ring }
    ensures { IfOk result (λ r. end.taken ++ r.0.items ≡ out.put) }
{
    let LinkOut {
        mut ring,
        mut spill,
        fulls,
    } = out;
    let LinkIn {
        ring: mut consumer,
        nones,
    } = end;
    let mut left = Vec::new(alloc);
    let n = consumer.slots_beside(&mut ring);
    left.reserve(n)?;
    for _i in 0..n {
        left.push_reserved(consumer.pop_known());
    }
    left.reserve(spill.len())?;
    while let Some(item) = spill.pop_front() {
        left.push_reserved(item);
    }
    let out = LinkOut {
        ring,
        spill: VecDeque::new(alloc),
        fulls,
    };
    let end = LinkIn {
        ring: consumer,
        nones,
    };
    Ok((left, EmptyLink { out, end }))
}
