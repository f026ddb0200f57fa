//! What a base node knows beside its entities.

ghost use Rattle.std.specs.Prelude.{◌≡◌, ◌≤◌};
ghost use Rattle.seam_entity.specs.Here.{base_of};
ghost use Rattle.seam_base.specs.Nodes.{here_in};

use seam_defs::{Defs, MOST_BASE_NODES, Settings};

/// The node's number, how many cells the tree has, the definitions, the settings, and who was reaped since the round began.
#[derive(Drop)]
pub struct BaseContext {
    pub me: u8,
    pub cells: u8,
    pub defs: Defs,
    pub settings: Settings,
    pub gone: Vec<u32>,
}

impl BaseContext {
    /// The base node of the entity.
    pub fn base_node_of(&self, e: u32) -> u8
        requires bases { 1 ≤ self.now.settings.bases }
        requires most { self.now.settings.bases ≤ MOST_BASE_NODES }
        ensures { result ≡ base_of (here_in self.now) e }
    {
        seam_call::base_node_of(e, self.settings.bases)
    }
}
