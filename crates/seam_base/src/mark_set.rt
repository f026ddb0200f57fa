//! Marks of entities, of which the least is found at once.

ghost use Rattle.std.specs.Prelude.{◌≡◌, ℕ, Some, find, option_map, slice_get, OnOk, OnErr};
ghost use Rattle.std.specs.FinMap as table;
ghost use Rattle.seam_node_steps.specs.Maps.{number_of};
ghost use Rattle.seam_base.specs.Marks.{any_mark};

use std::alloc::{AllocError, Global};
use std::collections::BTreeSet;
use std::marker::Model;

/// Entities that are marked. Contracts see a finite map that has nothing but the entities.
#[derive(Drop)]
pub struct MarkSet {
    entities: BTreeSet<u32>,
}

impl Model for MarkSet {
    ghost use Rattle.std.specs.Ordering.{nat_cmp};
    ghost use Rattle.std.specs.List.Sorted.{IsStrictlySortedBy};
    ghost use Rattle.std.specs.Coded.{codes};
    ghost use Rattle.std.specs.FinMap as table;
    ghost use Rattle.seam_node_steps.specs.Maps.{Map};
    ghost use Rattle.seam_base.specs.Marks.{marks_of};

    ghost Value = { Map (Unit {0}) };

    ghost coded = { Prim.hlevel (codes, table.code) };

    ghost view = { λ m. marks_of m.entities.keys };

    ghost invariant = { λ m. IsStrictlySortedBy nat_cmp m.entities.keys };
}

// The first of the entities.
fn first_of(entities: &BTreeSet<u32>) -> Option<u32>
    ensures { result ≡ slice_get entities.now.keys 0 }
{
    entities.first().copied()
}

impl MarkSet {
    /// No marks.
    pub fn new(alloc: Global) -> Self
        ensures { result ≡ table.empty }
    {
        MarkSet {
            entities: BTreeSet::new(alloc),
        }
    }

    /// Marks the entity.
    pub fn insert(&mut self, e: u32) -> Result<(), AllocError>
        ensures ok { OnOk result (self.new ≡ table.insert self.old e tt) }
        ensures there { OnOk result (table.get self.new e ≡ Some tt) }
        ensures err { OnErr result (self.new ≡ self.old) }
    {
        match self.entities.insert(e) {
            Ok(_) => return Ok(()),
            Err(_) => return Err(AllocError),
        }
    }

    /// Takes the mark of the entity away.
    pub fn remove(&mut self, e: u32)
        ensures { self.new ≡ table.remove self.old e }
    {
        let _ = self.entities.remove(&e);
    }

    /// The least entity that is marked.
    pub fn least(&self) -> Option<u32>
        ensures { result ≡ option_map number_of (find any_mark (table.entries self.now)) }
    {
        first_of(&self.entities)
    }
}
