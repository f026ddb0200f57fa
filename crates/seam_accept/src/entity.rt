// What is kept of an entity.
ghost use Rattle.std.specs.Prelude.{◌≡◌, ◌+◌, ℕ, IfOk, OnOk, OnErr};
ghost use Rattle.seam_call.specs.Senders.{IsSender};
ghost use Rattle.seam_call.specs.declared.sender.Sender.{Sender as Senders};
ghost use Rattle.seam_defs.specs.declared.flags.Part.{Part as Parts};
ghost use Rattle.seam_accept.specs.Last.{number_of};
ghost use Rattle.seam_accept.specs.Entities.{last_of, IsIndexOf, Remembers, KeepsLast};

use crate::count::next_count;
use crate::last::LastCalls;
use indexmap::IndexMap;
use seam_call::{Call, Sender};
use seam_defs::Part;
use seam_table::HashKey;
use std::alloc::{AllocError, Global};

/// A live entity: its type, and for each part and sender the number of the last call.
#[derive(Drop)]
pub struct Entity {
    pub ty: u16,
    cell: LastCalls,
    base: LastCalls,
}

impl Entity {
    /// An entity that no call was accepted for.
    pub fn new(ty: u16) -> Self
        ensures ty { result.ty ≡ ty }
        ensures last { (p : Parts) (s : Senders) → IsSender s → number_of (last_of p result) s ≡ 0 }
    {
        Entity {
            ty,
            cell: LastCalls::new(),
            base: LastCalls::new(),
        }
    }

    /// The number of a sender's next call to a part.
    pub fn next_number(&self, part: Part, sender: Sender) -> Result<u64, AllocError>
        ensures { IfOk result (λ n. n ≡ number_of (last_of part self.now) sender + 1) }
    {
        match part {
            Part::Cell => next_count(self.cell.number(sender)),
            Part::Base => next_count(self.base.number(sender)),
        }
    }

    /// Keeps the number of a sender's last call to a part.
    pub fn keep_last(
        &mut self,
        alloc: Global,
        part: Part,
        sender: Sender,
        number: u64,
    ) -> Result<(), AllocError>
        ensures kept { OnOk result (Remembers part sender number self.old self.new) }
        ensures unchanged { OnErr result (self.new ≡ self.old) }
    {
        match part {
            Part::Cell => self.cell.keep(alloc, sender, number),
            Part::Base => self.base.keep(alloc, sender, number),
        }
    }
}

/// Keeps the number of a call to the entity at a place as that of its sender's last one.
pub fn keep_last(
    alloc: Global,
    entities: &mut IndexMap<u32, Entity, HashKey>,
    place: usize,
    call: &Call,
) -> Result<(), AllocError>
    requires { IsIndexOf entities.old.entries call.now.entity place }
    ensures kept { OnOk result (KeepsLast entities.old.entries entities.new.entries call.now) }
    ensures unchanged { OnErr result (entities.new.entries ≡ entities.old.entries) }
{
    let Some(called) = entities.get_index_mut(place) else {
        unreachable!()
    };
    called.keep_last(alloc, call.part, call.sender, call.number)
}
