//! What an entity with a client has on its real.

ghost use Rattle.std.specs.Prelude.{◌≡◌, ◌+◌, ◌<◌, ◌^◌, IfOk, map, length};
ghost use Rattle.std.specs.List.Sorted.{IsStrictlySortedBy};
ghost use Rattle.std.specs.Ordering.{nat_cmp};
ghost use Rattle.seam_view.specs.Replica.{HasRoom as HasRoomFor, after_looks};
ghost use Rattle.seam_entity.specs.WitnessLooks.{new_witness, own_due, told_after};
ghost use Rattle.seam_entity.specs.Witnesses.{witness_in};

use seam_defs::Settings;
use seam_table::HashKey;
use seam_view::{Look, Seen, View};
use std::alloc::{AllocError, Global};

/// What an entity with a client has on its real: what the client was shown of others, the version of the last own state
/// that was told, and the number of the last update.
#[derive(Drop)]
pub struct Witness {
    pub view: View,
    pub told: Option<u64>,
    pub sent: u64,
}

impl Witness {
    /// A witness that has told nothing, in a box, since most reals have none. Its view finds entities by a hash with this key.
    pub fn new(alloc: Global, key: HashKey, settings: &Settings) -> Result<Box<Witness>, AllocError>
        ensures { IfOk result (λ w. witness_in w ≡ new_witness settings.now) }
    {
        let witness = Witness {
            view: View::new(alloc, key, settings.view_radius, settings.view_hysteresis),
            told: None,
            sent: 0,
        };
        Ok(Box::new(alloc, witness)?)
    }

    /// Whether its own entity's state is to be told, which has that version: it never was, or at a lower version.
    pub fn is_own_due(&self, version: u64) -> bool
        ensures { result ≡ own_due self.now.told version }
    {
        match self.told {
            None => true,
            Some(told) => told < version,
        }
    }

    /// Keeps what was told: the looks that the view's `plan` gave for what is known, the own state of that version where it was
    /// due, and that many updates.
    pub fn keep(&mut self, known: &[Seen], looks: &[Look], version: u64, updates: u64)
        requires rising { IsStrictlySortedBy nat_cmp (map (λ s. s.entity) known.now) }
        requires room { HasRoomFor self.old.view looks.now }
        requires small { self.old.sent + updates < 2 ^ 62 }
        ensures view { self.new.view.core ≡ after_looks known.now self.old.view.core looks.now }
        ensures told { self.new.told ≡ told_after (own_due self.old.told version) version
            self.old.told }
        ensures sent { self.new.sent ≡ self.old.sent + updates }
    {
        if self.is_own_due(version) {
            self.told = Some(version);
        }
        self.sent += updates;
        self.view.keep(known, looks);
    }
}
