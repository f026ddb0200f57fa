//! What a round brings, given to the nodes.

ghost use Rattle.std.specs.Prelude.{◌≡◌, ℕ, ◌<◌, ◌≤◌, true, false, eqb, map, length, None, Some, slice_get, OnOk};
ghost use Rattle.std.specs.FinMap as table;
ghost use Rattle.std.specs.List.{AllByRecursion, IsDistinct};
ghost use Rattle.seam_node_steps.specs.Prelude.{IsInSpace, IsTree, with_node, EachNode, with_nodes, created_at, attached, base_round};
ghost use Rattle.seam_node_steps.specs.Prelude.{cell_round, ordered_at, with_orders, with_reap, real_if, order_if, reaps_loaded, NodeView};
ghost use Rattle.seam_law_calls.specs.Prelude.{has_of, real_in};
ghost use Rattle.seam_law_rounds.specs.Prelude.{created_entity, each};
ghost use Rattle.seam_base.specs.Nodes.{has_client};
ghost use Rattle.seam_base.specs.Marks.{passes};
ghost use Rattle.seam_node_steps.specs.Loads.{noted, with_order};
ghost use Rattle.seam_core.specs.Loads.{IsNumbered, HasBases};
ghost use Rattle.seam_core.specs.Begun.{begun, HasSpace, IsSpare, NodeMayBegin};

use crate::node::{Kind, Node};
use seam_base::Base;
use seam_call::{Batch, Create, Order, base_node_of};
use seam_cell::Cell;
use seam_machine::Net;
use seam_tree::Tree;
use std::alloc::{AllocError, Global};

// Makes the entity's real, where this is the cell of its position.
fn make_in(cell: &mut Cell, alloc: Global, is_here: bool, x: Create) -> Result<(), AllocError>
    requires inside { IsInSpace cell.old.tree x.pos }
    requires new { table.get cell.old.reals x.entity ≡ None }
    ensures { OnOk result (cell.new ≡ real_if is_here cell.old x) }
{
    if !is_here {
        return Ok(());
    }
    match cell.add_entity(alloc, x) {
        Ok(()) => return Ok(()),
        Err(error) => return Err(error),
    }
}

impl Node {
    // Makes the entity: its real, where this is the cell of its position; a route to it, where this is a base node; and its base
    // part, where it is the entity's base node.
    fn make(&mut self, alloc: Global, me: u8, tree: &Tree, x: Create) -> Result<(), AllocError>
        requires me { IsNumbered me self.old }
        requires tree { IsTree tree.now }
        requires space { HasSpace tree.now.size self.old }
        requires inside { IsInSpace tree.now x.pos }
        requires new { real_in (has_of x.entity self.old) ≡ None }
        ensures { OnOk result (self.new ≡ created_at tree.now x self.old) }
    {
        let leaf = tree.leaf_of(x.pos);
        match &mut self.kind {
            Kind::Cell(cell) => make_in(cell, alloc, leaf == me, x),
            Kind::Base(base) => base.add_entity(alloc, x.entity, x.ty, leaf),
        }
    }

    // Whether it is a cell that a tree of so many cells does not have.
    fn is_spare(&self, me: u8, cells: u8) -> bool
        ensures { result ≡ true → IsSpare cells me self.now }
    {
        match &self.kind {
            Kind::Cell(_) => cells <= me,
            Kind::Base(_) => false,
        }
    }

    // Makes the entities. None of them is in a cell that the tree does not have.
    fn make_all(
        &mut self,
        alloc: Global,
        me: u8,
        tree: &Tree,
        creates: &[Create],
    ) -> Result<(), AllocError>
        requires me { IsNumbered me self.old }
        requires tree { IsTree tree.now }
        requires space { HasSpace tree.now.size self.old }
        requires inside { AllByRecursion (λ x. IsInSpace tree.now x.pos) creates.now }
        requires new { AllByRecursion (λ x. real_in (has_of x.entity self.old) ≡ None) creates.now }
        requires once { IsDistinct eqb (map created_entity creates.now) }
        ensures { OnOk result (self.new ≡ each (created_at tree.now) creates.now self.old) }
    {
        if self.is_spare(me, tree.cells()) {
            return Ok(());
        }
        for x in creates {
            self.make(alloc, me, tree, *x)?;
        }
        Ok(())
    }

    // The entity gets a client.
    fn attach(&mut self, alloc: Global, e: u32) -> Result<(), AllocError>
        requires { passes has_client (has_of e self.old).base.part ≡ false }
        ensures { OnOk result (self.new ≡ attached e self.old) }
    {
        match &mut self.kind {
            Kind::Cell(cell) => cell.attach(alloc, e),
            Kind::Base(base) => base.attach(alloc, e),
        }
    }

    // The entities get clients.
    fn attach_all(&mut self, alloc: Global, clients: &[u32]) -> Result<(), AllocError>
        requires unseen { AllByRecursion (λ e. passes has_client (has_of e self.old).base.part
            ≡ false) clients.now }
        requires one_each { IsDistinct eqb clients.now }
        ensures { OnOk result (self.new ≡ each attached clients.now self.old) }
    {
        for e in clients {
            self.attach(alloc, *e)?;
        }
        Ok(())
    }

    // A base node begins a round with so many cells.
    fn begin_base(&mut self, alloc: Global, cells: u8)
        requires { cells ≤ 16 }
        ensures { self.new ≡ base_round cells self.old }
    {
        match &mut self.kind {
            Kind::Cell(_) => {}
            Kind::Base(base) => base.start_round(alloc, cells),
        }
    }

    // A cell begins a round with that tree.
    fn begin_cell(&mut self, alloc: Global, tree: Tree) -> Result<(), AllocError>
        requires { HasSpace tree.size self.old }
        ensures { OnOk result (self.new ≡ cell_round tree self.old) }
    {
        match &mut self.kind {
            Kind::Cell(cell) => cell.start_round(alloc, tree),
            Kind::Base(_) => Ok(()),
        }
    }

    // Begins a round with all that the batch brings but its orders.
    fn begin(&mut self, alloc: Global, me: u8, batch: &Batch) -> Result<(), AllocError>
        requires { NodeMayBegin batch.now me self.old }
        ensures { OnOk result (self.new ≡ begun batch.now self.old) }
    {
        self.begin_base(alloc, batch.tree.cells());
        self.make_all(alloc, me, &batch.tree, batch.creates.as_slice())?;
        self.attach_all(alloc, batch.clients.as_slice())?;
        self.begin_cell(alloc, batch.tree)
    }

    // A base node is given an order.
    fn give(&mut self, order: Order) -> Result<(), AllocError>
        ensures { (k : ℕ) → IsNumbered k self.old → OnOk result (self.new
            ≡ ordered_at (k, order) self.old) }
    {
        match &mut self.kind {
            Kind::Cell(_) => Ok(()),
            Kind::Base(base) => give_in(base, order),
        }
    }

    // A base node is told that the entity is reaped.
    fn note(&mut self, e: u32) -> Result<(), AllocError>
        ensures { OnOk result (self.new ≡ noted e self.old) }
    {
        match &mut self.kind {
            Kind::Cell(_) => Ok(()),
            Kind::Base(base) => base.note_reaped(e),
        }
    }
}

// The base node is given the order.
fn give_in(base: &mut Base, order: Order) -> Result<(), AllocError>
    ensures { OnOk result (base.new ≡ order_if true base.old order) }
{
    match base.add_order(order) {
        Ok(()) => Ok(()),
        Err(_) => Err(AllocError),
    }
}

// Node k begins a round.
fn begin_at(net: &mut Net<Node>, alloc: Global, k: u8, batch: &Batch) -> Result<(), AllocError>
    requires there { k < length net.old.nodes }
    requires may { (s : NodeView) → slice_get net.old.nodes k ≡ Some s →
        NodeMayBegin batch.now k s }
    ensures { (s : NodeView) → slice_get net.old.nodes k ≡ Some s →
        OnOk result (net.new ≡ with_node net.old k (begun batch.now s)) }
{
    let Some(node) = net.node_mut(k) else {
        unreachable!()
    };
    node.begin(alloc, k, batch)
}

/// Each node begins a round with all that the batch brings but its orders.
pub(crate) fn begin_all(net: &mut Net<Node>, alloc: Global, batch: &Batch) -> Result<(), AllocError>
    requires { EachNode (NodeMayBegin batch.now) net.old.nodes }
    ensures { OnOk result (net.new ≡ with_nodes net.old (begun batch.now)) }
{
    for k in 0..net.node_count() {
        begin_at(net, alloc, k as u8, batch)?;
    }
    Ok(())
}

/// Gives an order to the base node of that number.
pub(crate) fn give(net: &mut Net<Node>, to: u8, order: Order) -> Result<(), AllocError>
    requires { EachNode IsNumbered net.old.nodes }
    ensures { OnOk result (net.new ≡ with_order net.old (to, order)) }
{
    match net.node_mut(to) {
        Some(node) => node.give(order),
        None => Ok(()),
    }
}

/// Gives the orders to their base nodes.
pub(crate) fn give_all(net: &mut Net<Node>, orders: Vec<(u8, Order)>) -> Result<(), AllocError>
    requires { EachNode IsNumbered net.old.nodes }
    ensures { OnOk result (net.new ≡ with_orders net.old orders.items) }
{
    for (to, order) in orders {
        give(net, to, order)?;
    }
    Ok(())
}

// Node k, if it is a base node, is told that the entity is reaped.
fn note_at(net: &mut Net<Node>, k: u8, e: u32) -> Result<(), AllocError>
    requires { k < length net.old.nodes }
    ensures { (s : NodeView) → slice_get net.old.nodes k ≡ Some s →
        OnOk result (net.new ≡ with_node net.old k (noted e s)) }
{
    let Some(node) = net.node_mut(k) else {
        unreachable!()
    };
    node.note(e)
}

// Each base node is told that the entity is reaped.
fn note_all(net: &mut Net<Node>, e: u32) -> Result<(), AllocError>
    ensures { OnOk result (net.new ≡ with_nodes net.old (noted e)) }
{
    for k in 0..net.node_count() {
        note_at(net, k as u8, e)?;
    }
    Ok(())
}

// Tells each base node that the entity is reaped, and gives its reap to its own.
fn give_reap(net: &mut Net<Node>, bases: u32, e: u32) -> Result<(), AllocError>
    requires numbered { EachNode IsNumbered net.old.nodes }
    requires bases { EachNode (λ k s. HasBases bases s) net.old.nodes }
    requires some { 1 ≤ bases }
    requires few { bases ≤ 239 }
    ensures { OnOk result (net.new ≡ with_reap net.old e) }
{
    note_all(net, e)?;
    let to = base_node_of(e, bases);
    give(net, to, Order::Reap(e))
}

/// Tells each base node of each entity that is reaped, and gives its reap to its base node, one of `bases`.
pub(crate) fn reap_all(net: &mut Net<Node>, bases: u32, es: &[u32]) -> Result<(), AllocError>
    requires numbered { EachNode IsNumbered net.old.nodes }
    requires bases { EachNode (λ k s. HasBases bases s) net.old.nodes }
    requires some { 1 ≤ bases }
    requires few { bases ≤ 239 }
    ensures { OnOk result (net.new ≡ reaps_loaded net.old es.now) }
{
    for e in es {
        give_reap(net, bases, *e)?;
    }
    Ok(())
}
