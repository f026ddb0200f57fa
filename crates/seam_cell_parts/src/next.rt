//! Where a real went.

use std::marker::Model;

/// The cell to which a real was handed over, and the generation that it had then.
#[derive(Drop)]
pub struct Next {
    pub cell: u8,
    pub generation: u64,
}

impl Model for Next {
    ghost use Rattle.seam_node_steps.specs.Slots.{NextPlace};

    ghost Value = { NextPlace };

    ghost view = { λ n. record { cell = n.cell; generation = n.generation } };
}
