ghost use Rattle.std.specs.Prelude.{◌≡◌};
ghost use Rattle.seam_call.specs.Calls.{is_for as is_for_part, is_from as is_from_sender};

use crate::Sender;
use seam_defs::{Deed, Part};

/// A call of a sender to a part of an entity.
#[derive(Debug, Drop)]
pub struct Call {
    pub entity: u32,
    pub part: Part,
    pub sender: Sender,
    /// Its number among the sender's calls to this part, counted from 1.
    pub number: u64,
    pub deed: Deed,
}

impl Call {
    /// Whether the call is for this part of this entity.
    pub fn is_for(&self, part: Part, entity: u32) -> bool
        ensures { result ≡ is_for_part part entity self.now }
    {
        self.entity == entity && self.part == part
    }

    /// Whether the call is for this part of this entity, and was sent by this sender.
    pub fn is_from(&self, part: Part, entity: u32, sender: Sender) -> bool
        ensures { result ≡ is_from_sender part entity sender self.now }
    {
        self.is_for(part, entity) && self.sender == sender
    }
}
