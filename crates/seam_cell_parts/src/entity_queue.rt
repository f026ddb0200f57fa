//! A queue of entities in rising number.
//!
//! It is made once of all that are to wait, and from then on they are taken out: nearly always the first. Of one more a new queue is made,
//! which seldom happens.

ghost use Rattle.std.specs.Prelude.{◌≡◌, ◌<◌, ◌≤◌, ◌++◌, [], ◌∷◌, length, not, false, get_or, ◌≢◌, IsTrue, OnOk, OnErr, IfOk, IfSome};
ghost use Rattle.std.specs.Prelude.{IfNone};
ghost use Rattle.std.specs.List.{AllWithin};
ghost use Rattle.std.specs.List.Sorted.{IsStrictlySortedBy};
ghost use Rattle.std.specs.Ordering.{nat_cmp};
ghost use Rattle.seam_node_steps.specs.Prelude.{with_entity, without, has_any};
ghost use Rattle.seam_cell_parts.specs.Sets.{first_of};
ghost use Rattle.seam_cell_parts.specs.declared.entity_queue.Entry.{Entry as AnyEntry};
ghost use Rattle.seam_cell_parts.specs.Queues.{entities, waiting, passed, IsAt};

use crate::entity_set::EntitySet;
use std::alloc::{AllocError, Global};
use std::marker::Model;

/// An entity, and whether it still waits.
#[derive(Clone, Copy, Debug)]
struct Entry {
    entity: u32,
    waits: bool,
}

/// Entities of which a queue is to be made. Contracts see their numbers.
#[derive(Drop)]
pub struct EntityRow {
    entries: Vec<Entry>,
}

impl Model for EntityRow {
    ghost use Rattle.std.specs.Prelude.{◌≡◌, ℕ, List, true};
    ghost use Rattle.std.specs.List.{AllByRecursion};
    ghost use Rattle.seam_cell_parts.specs.Queues.{entities};

    ghost Value = { List ℕ };

    ghost view = { λ r. entities r.entries.items };

    ghost invariant = { λ r. AllByRecursion (λ w. w.waits ≡ true) r.entries.items };
}

impl EntityRow {
    /// Adds an entity at the end.
    pub fn push(&mut self, e: u32) -> Result<(), AllocError>
        ensures ok { OnOk result (self.new ≡ self.old ++ e ∷ []) }
        ensures err { OnErr result (self.new ≡ self.old) }
    {
        let entry = Entry {
            entity: e,
            waits: true,
        };
        match self.entries.push(entry) {
            Ok(()) => Ok(()),
            Err(_) => Err(AllocError),
        }
    }
}

/// A queue of entities. Contracts see the numbers of those that wait, in rising order.
#[derive(Drop)]
pub struct EntityQueue {
    entries: Vec<Entry>,
    // Where the first that waits is. An entity that is taken out is only marked, so that none of the others moves.
    place: usize,
}

impl Model for EntityQueue {
    ghost use Rattle.std.specs.Prelude.{ℕ, List};
    ghost use Rattle.seam_cell_parts.specs.Queues.{waiting, IsQueue};

    ghost Value = { List ℕ };

    ghost view = { λ q. waiting q.entries.items };

    ghost invariant = { λ q. IsQueue q.place q.entries.items };
}

// Where the first that waits is, which does not come before the given place.
fn first_from(entries: &[Entry], place: usize) -> usize
    requires { place ≤ passed entries.now }
    ensures { result ≡ passed entries.now }
{
    let mut next = place;
    while next < entries.len() && !entries[next].waits {
        next += 1;
    }
    next
}

// How many of the entities have numbers below e.
fn count_below(entries: &[Entry], e: u32) -> usize
    requires { IsStrictlySortedBy nat_cmp (entities entries.now) }
    ensures below { AllWithin (λ w. w.entity < e) entries.now 0 result }
    ensures above { AllWithin (λ w. e ≤ w.entity) entries.now result (length entries.now) }
    ensures within { result ≤ length entries.now }
{
    entries.partition_point(|entry| entry.entity < e)
}

// Whether the entry at that place is the entity's.
fn is_at(entries: &[Entry], at: usize, e: u32) -> bool
    ensures yes { IsTrue result → IsAt entries.now at e }
    ensures no { result ≡ false → (d : AnyEntry) → at < length entries.now →
        (get_or entries.now at d).entity ≢ e }
{
    let Some(entry) = entries.get(at) else {
        return false;
    };
    entry.entity == e
}

// The entity is to wait.
fn put_entry(entries: &mut Vec<Entry>, e: u32) -> Result<(), AllocError>
    requires { IsStrictlySortedBy nat_cmp (entities entries.old.items) }
    ensures waits { OnOk result (waiting entries.new.items ≡ with_entity e (waiting
        entries.old.items)) }
    ensures rising { OnOk result (IsStrictlySortedBy nat_cmp (entities entries.new.items)) }
{
    let at = count_below(entries, e);
    let entry = Entry {
        entity: e,
        waits: true,
    };
    if is_at(entries, at, e) {
        entries[at] = entry;
        return Ok(());
    }
    match entries.insert(at, entry) {
        Ok(()) => Ok(()),
        Err(_) => Err(AllocError),
    }
}

impl EntityQueue {
    /// No entity.
    pub fn new(alloc: Global) -> Self
        ensures { result ≡ [] }
    {
        EntityQueue {
            entries: Vec::new(alloc),
            place: 0,
        }
    }

    /// The queue in which all of the row wait.
    pub fn of(row: EntityRow) -> Self
        requires { IsStrictlySortedBy nat_cmp row }
        ensures { result ≡ row }
    {
        EntityQueue {
            entries: row.entries,
            place: 0,
        }
    }

    /// A row without entities. It takes over the memory of the queue where none waits in it.
    pub fn spare(&mut self) -> EntityRow
        ensures row { result ≡ [] }
        ensures same { self.new ≡ self.old }
    {
        let alloc = *self.entries.allocator();
        if !self.is_empty() {
            return EntityRow {
                entries: Vec::new(alloc),
            };
        }
        let mut entries = std::mem::replace(&mut self.entries, Vec::new(alloc));
        self.place = 0;
        entries.clear();
        EntityRow { entries }
    }

    /// Makes the entities of the set wait in place of those that do.
    pub fn refill(&mut self, set: &EntitySet) -> Result<(), AllocError>
        ensures ok { OnOk result (self.new ≡ set.now) }
        ensures err { OnErr result (self.new ≡ self.old) }
    {
        let mut row = self.spare();
        set.add_to(&mut row)?;
        *self = EntityQueue::of(row);
        Ok(())
    }

    /// The queue in which the entity waits, too.
    pub fn with(&self, e: u32) -> Result<Self, AllocError>
        ensures { IfOk result (λ q. q ≡ with_entity e self.now) }
    {
        let mut entries = Vec::new(*self.entries.allocator());
        entries.extend_from_slice(&self.entries)?;
        put_entry(&mut entries, e)?;
        let place = first_from(&entries, 0);
        Ok(EntityQueue { entries, place })
    }

    /// The first of them.
    pub fn first(&self) -> Option<u32>
        ensures { result ≡ first_of self.now }
    {
        match self.entries.get(self.place) {
            Some(entry) => Some(entry.entity),
            None => None,
        }
    }

    /// Whether none waits.
    pub fn is_empty(&self) -> bool
        ensures { result ≡ not (has_any self.now) }
    {
        self.first().is_none()
    }

    /// Takes out the first.
    pub fn take_first(&mut self) -> Option<u32>
        ensures some { IfSome result (λ e. self.old ≡ e ∷ self.new) }
        ensures none { IfNone result (self.old ≡ []) }
        ensures unchanged { IfNone result (self.new ≡ self.old) }
    {
        let Some(entry) = self.entries.get_mut(self.place) else {
            return None;
        };
        let e = entry.entity;
        entry.waits = false;
        self.place = first_from(&self.entries, self.place);
        Some(e)
    }

    /// Takes the entity out.
    pub fn remove(&mut self, e: u32)
        ensures { self.new ≡ without e self.old }
    {
        // Most often none waits any more, or only later ones do.
        let Some(first) = self.entries.get(self.place) else {
            return;
        };
        if first.entity <= e {
            self.remove_late(e);
        }
    }

    // The same by a search.
    fn remove_late(&mut self, e: u32)
        ensures { self.new ≡ without e self.old }
    {
        let at = count_below(&self.entries, e);
        let Some(entry) = self.entries.get_mut(at) else {
            return;
        };
        if entry.entity == e {
            entry.waits = false;
            self.place = first_from(&self.entries, self.place);
        }
    }
}
