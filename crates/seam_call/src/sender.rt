ghost use Rattle.std.specs.Prelude.{◌≡◌};
ghost use Rattle.seam_call.specs.Senders.{IsSender, rank_of};

use crate::BaseNode;
use seam_defs::MOST_BASE_NODES;

/// A sender of calls.
#[derive(Clone, Copy, Debug, PartialEq, Eq)]
pub enum Sender {
    Base(BaseNode),
    /// The client of the entity of this number.
    Client(u32),
}

impl Sender {
    /// Its place in the order of senders: base nodes first, then clients, each kind by its number.
    pub fn rank(self) -> u64
        ensures place { result ≡ rank_of self }
        ensures proper { IsSender self }
    {
        match self {
            Sender::Base(node) => node.number() as u64,
            Sender::Client(entity) => MOST_BASE_NODES as u64 + 1 + entity as u64,
        }
    }
}
