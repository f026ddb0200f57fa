//! Nodes of a world: cells and base nodes.

ghost use Rattle.std.specs.Prelude.{◌≡◌, ◌++◌, true, OnOk, OnErr, option_copied, if◌then◌else◌};
ghost use Rattle.seam_node_steps.specs.Prelude.{Input as AnyInput, NodeView, node_steps, node_has_work, node_peers, Cell as CellNode};
ghost use Rattle.seam_node_steps.specs.Prelude.{Base as BaseNode, IsNode, held_at};
ghost use Rattle.seam_core.specs.Machines.{targets, keeps_peers, stays_valid};
ghost use Rattle.seam_core.specs.Nodes.{cell_in, base_in};

use seam_base::Base;
use seam_cell::Cell;
use seam_entity::Msg;
use seam_machine::{Input, Machine, Out};
use std::alloc::{AllocError, Global};
use std::marker::Model;

// What a node is.
#[derive(Drop)]
pub(crate) enum Kind {
    Cell(Cell),
    Base(Base),
}

/// A node of a world: a cell or a base node.
#[derive(Drop)]
pub struct Node {
    pub(crate) kind: Kind,
}

impl Model for Node {
    ghost use Rattle.std.specs.Coded.{codes};
    ghost use Rattle.std.specs.FinMap as table;
    ghost use Rattle.std.specs.FinSet as set;
    ghost use Rattle.seam_node_steps.specs.Nodes.{NodeView};
    ghost use Rattle.seam_core.specs.Nodes.{node_of};

    ghost Value = { NodeView };

    ghost coded = { Prim.hlevel (codes, table.code, set.code) };

    ghost view = { λ n. node_of n.kind };
}

impl Node {
    // A cell, as a node.
    pub(crate) fn of_cell(cell: Cell) -> Node
        ensures { result ≡ CellNode cell }
    {
        Node {
            kind: Kind::Cell(cell),
        }
    }

    // A base node, as a node.
    pub(crate) fn of_base(base: Base) -> Node
        ensures { result ≡ BaseNode base }
    {
        Node {
            kind: Kind::Base(base),
        }
    }

    /// The cell, where the node is one.
    pub fn as_cell(&self) -> Option<&Cell>
        ensures { option_copied result ≡ cell_in self.now }
    {
        match &self.kind {
            Kind::Cell(cell) => Some(cell),
            Kind::Base(_) => None,
        }
    }

    /// Whether the entity's real is here.
    pub fn has_real(&self, e: u32) -> bool
        ensures { held_at e self.now ≡ if result then 1 else 0 }
    {
        match &self.kind {
            Kind::Cell(cell) => cell.has_real(e),
            Kind::Base(_) => false,
        }
    }

    /// The base node, where the node is one.
    pub fn as_base(&self) -> Option<&Base>
        ensures { option_copied result ≡ base_in self.now }
    {
        match &self.kind {
            Kind::Cell(_) => None,
            Kind::Base(base) => Some(base),
        }
    }
}

impl Machine for Node {
    type Msg = Msg;

    ghost has_work = { node_has_work };

    ghost peer_count = { node_peers };

    ghost steps = { node_steps };

    ghost valid = { IsNode };

    ghost targets = { targets };

    ghost keeps_peers = { keeps_peers };

    ghost stays_valid = { stays_valid };

    fn peers(&self) -> u8 {
        match &self.kind {
            Kind::Cell(cell) => cell.peers(),
            Kind::Base(base) => base.peers(),
        }
    }

    fn has_task(&self) -> bool {
        match &self.kind {
            Kind::Cell(cell) => cell.has_task(),
            Kind::Base(base) => base.has_task(),
        }
    }

    fn known(&self) {
        match &self.kind {
            Kind::Cell(cell) => cell.known(),
            Kind::Base(base) => base.known(),
        }
    }

    fn step(
        &mut self,
        alloc: Global,
        input: &mut Input<Msg>,
        out: &mut Out<Msg>,
    ) -> Result<(), AllocError>
        requires { input.old ≡ Input.Task → node_has_work self.old ≡ true }
        ensures state { OnOk result (self.new ≡ (node_steps self.old input.old).state) }
        ensures sent { OnOk result (out.new.items ≡ out.old.items
            ++ (node_steps self.old input.old).sent) }
        ensures err_state { OnErr result (self.new ≡ self.old) }
        ensures err_out { OnErr result (out.new.items ≡ out.old.items) }
        ensures err_input { OnErr result (input.new ≡ input.old) }
    {
        match &mut self.kind {
            Kind::Cell(cell) => cell.step(alloc, input, out),
            Kind::Base(base) => base.step(alloc, input, out),
        }
    }
}
