//! What a round gives to the base nodes.

ghost use Rattle.std.specs.Prelude.{◌≡◌, IfOk};

use crate::{Call, Create};
use seam_defs::Listed;
use seam_table::Shared;
use seam_tree::Tree;
use std::alloc::AllocError;

/// The boundaries of a space, and their number among those of a round: those of its start have 0, and greater numbers replace smaller ones.
/// Many may keep the tree.
#[derive(Debug, Drop)]
pub struct Boundaries {
    pub tree: Shared<Tree>,
    pub number: u64,
}

impl Boundaries {
    /// The same, for one more owner.
    pub fn share(&self) -> Result<Boundaries, AllocError>
        ensures { IfOk result (λ b. b ≡ self.now) }
    {
        Ok(Boundaries {
            tree: self.tree.share()?,
            number: self.number,
        })
    }
}

/// What a base node is told to do.
#[derive(Debug, Drop)]
pub enum Order {
    /// It passes the call to the entity's cell part.
    Cell(Call),
    /// It passes the call to the entity's base part.
    Base(Call),
    /// It tells every cell of the tree that its witnesses look.
    Tick,
    /// It takes the entity out of the world.
    Reap(u32),
    /// It tells every cell of the tree that these boundaries replace older ones.
    Bounds(Boundaries),
}

/// What a round brings: the tree that applies from its start, the entities that are created and those that get a client, each order with
/// the number of its base node, the entities that die at its end, and whether the boundaries are balanced then.
#[derive(Drop)]
pub struct Batch {
    pub tree: Tree,
    pub creates: Listed<Create>,
    pub clients: Listed<u32>,
    pub orders: Listed<(u8, Order)>,
    pub destroys: Listed<u32>,
    pub balance: bool,
}
