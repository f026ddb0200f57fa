//! An ordered set of entities.

ghost use Rattle.std.specs.Prelude.{◌≡◌, ℕ, List, [], ◌++◌, OnOk, OnErr, not};
ghost use Rattle.std.specs.List.Sorted.{IsStrictlySortedBy};
ghost use Rattle.std.specs.Ordering.{nat_cmp};
ghost use Rattle.seam_node_steps.specs.Prelude.{with_entity, without, has_any};
ghost use Rattle.seam_cell_parts.specs.Sets.{first_of};

use crate::entity_queue::EntityRow;
use std::alloc::{AllocError, Global};
use std::collections::BTreeSet;
use std::marker::Model;

/// An ordered set of entities. Contracts see their numbers, in rising order.
#[derive(Drop)]
pub struct EntitySet {
    // Where it is there, it is the only one: a set that has at most one, as most steps leave it, takes no memory.
    one: Option<u32>,
    numbers: BTreeSet<u32>,
}

impl Model for EntitySet {
    ghost use Rattle.std.specs.Prelude.{ℕ, List};
    ghost use Rattle.seam_cell_parts.specs.Sets.{members, IsSet};

    ghost Value = { List ℕ };

    ghost view = { λ s. members s.one s.numbers.keys };

    ghost invariant = { λ s. IsSet s.one s.numbers.keys };
}

// Puts the number in.
fn put(numbers: &mut BTreeSet<u32>, e: u32) -> Result<(), AllocError>
    requires { IsStrictlySortedBy nat_cmp numbers.old.keys }
    ensures ok { OnOk result (numbers.new.keys ≡ with_entity e numbers.old.keys) }
    ensures err { OnErr result (numbers.new.keys ≡ numbers.old.keys) }
    ensures rising { IsStrictlySortedBy nat_cmp numbers.new.keys }
{
    match numbers.insert(e) {
        Ok(_) => Ok(()),
        Err(_) => Err(AllocError),
    }
}

// Takes the number out.
#[inline(never)]
fn drop_number(numbers: &mut BTreeSet<u32>, e: u32)
    requires { IsStrictlySortedBy nat_cmp numbers.old.keys }
    ensures removed { numbers.new.keys ≡ without e numbers.old.keys }
    ensures rising { IsStrictlySortedBy nat_cmp numbers.new.keys }
{
    let _ = numbers.remove(&e);
}

impl EntitySet {
    /// No entity.
    pub fn new(alloc: Global) -> Self
        ensures { result ≡ [] }
    {
        EntitySet {
            one: None,
            numbers: BTreeSet::new(alloc),
        }
    }

    /// The first of them.
    pub fn first(&self) -> Option<u32>
        ensures { result ≡ first_of self.now }
    {
        match self.one {
            Some(e) => Some(e),
            None => self.numbers.first().copied(),
        }
    }

    /// Whether there is one.
    pub fn is_empty(&self) -> bool
        ensures { result ≡ not (has_any self.now) }
    {
        match self.one {
            Some(_) => false,
            None => self.numbers.is_empty(),
        }
    }

    /// Puts the entity in.
    pub fn insert(&mut self, e: u32) -> Result<(), AllocError>
        ensures ok { OnOk result (self.new ≡ with_entity e self.old) }
        ensures err { OnErr result (self.new ≡ self.old) }
    {
        if let Some(other) = self.one {
            if other == e {
                return Ok(());
            }
            put(&mut self.numbers, other)?;
            self.one = None;
        } else if self.numbers.is_empty() {
            self.one = Some(e);
            return Ok(());
        }
        put(&mut self.numbers, e)
    }

    /// Takes the entity out.
    pub fn remove(&mut self, e: u32)
        ensures { self.new ≡ without e self.old }
    {
        match self.one {
            Some(other) => if other == e {
                self.one = None;
            },
            // Mostly the entity is not there, and a search alone costs less than a removal.
            None => if self.numbers.contains(&e) {
                drop_number(&mut self.numbers, e);
            },
        }
    }

    /// Adds them at the end of the row.
    pub fn add_to(&self, row: &mut EntityRow) -> Result<(), AllocError>
        ensures ok { OnOk result (row.new ≡ row.old ++ self.now) }
        ensures rising { IsStrictlySortedBy nat_cmp self.now }
    {
        if let Some(e) = self.one {
            return row.push(e);
        }
        for e in self.numbers.iter() {
            row.push(*e)?;
        }
        Ok(())
    }
}
