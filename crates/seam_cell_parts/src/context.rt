//! What a cell knows beside its entities.

ghost use Rattle.std.specs.Prelude.{◌≡◌, IfOk};
ghost use Rattle.seam_node_steps.specs.Prelude.{at_start};

use seam_call::Boundaries;
use seam_defs::{Defs, Settings};
use seam_table::Shared;
use seam_tree::Tree;
use std::alloc::{AllocError, Global};

/// The cell's number, the definitions, the settings and the boundaries that it goes by.
#[derive(Drop)]
pub struct CellContext {
    pub me: u8,
    pub defs: Defs,
    pub settings: Settings,
    pub bounds: Boundaries,
}

/// The boundaries of a round's start.
pub fn at_start(alloc: Global, tree: Tree) -> Result<Boundaries, AllocError>
    ensures { IfOk result (λ b. b ≡ at_start tree) }
{
    Ok(Boundaries {
        tree: Shared::new(alloc, tree)?,
        number: 0,
    })
}
