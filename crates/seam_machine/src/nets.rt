//! Nets: nodes, and a link for each ordered pair of them.

ghost use Rattle.std.specs.Prelude.{◌≡◌, ◌≢◌, ℕ, ◌+◌, ◌*◌, ◌<◌, ◌≤◌, [], ◌∷◌, ◌↔◌, length, true, false, Option, Some, None, IsTrue, OnOk};
ghost use Rattle.std.specs.Prelude.{OnErr, IfOk, IfSome, IfNone, map, option_copied, replicate, slice_get, slice_index_or, slice_set};
ghost use Rattle.std.specs.Prelude.{vec_len};
ghost use Rattle.std.specs.List.{All};
ghost use Rattle.seam_machine.specs.Views.{NetView, PartsView};
ghost use Rattle.seam_machine.specs.Nets.{link, flat, enabled, happens, with_node, IsQuiet, IsSquare, ArePeers, AreParts};
ghost use Rattle.seam_machine.specs.Orders.{IsBefore};
ghost use Rattle.seam_machine.specs.Inside.{IsNet, KnowsTasks};

use crate::links::Links;
use crate::machines::{Event, Machine};
use crate::marks::Marks;
use crate::rows::Row;
use std::alloc::{AllocError, Global};
use std::collections::VecDeque;
use std::marker::Model;

/// The nodes and the links of a net; with n nodes, the link from a to b is at place `a * n + b`.
#[derive(Drop)]
pub struct NetParts<M: Machine> {
    pub nodes: Vec<M>,
    pub links: Vec<Vec<M::Msg>>,
}

impl<M: Machine> Model for NetParts<M> {
    ghost use Rattle.std.specs.Prelude.{map};
    ghost use Rattle.seam_machine.specs.Views.{PartsView};

    ghost Value = { PartsView M M.Msg };

    ghost view = { λ p. record { nodes = p.nodes.items; links = map (λ v. v.items) p.links.items } };
}

/// Nodes, and a first-in first-out link for each ordered pair of them.
///
/// What a step sent may wait inside until there is room for it; it counts at the ends of the links.
#[derive(Drop)]
pub struct Net<M: Machine> {
    nodes: Vec<M>,
    links: Links<M::Msg>,
    // The nodes whose tasks are there, if all were asked since `node_mut` lent one.
    tasks: Marks,
    asked: bool,
}

impl<M: Machine> Model for Net<M> {
    ghost use Rattle.seam_machine.specs.Views.{NetView};
    ghost use Rattle.seam_machine.specs.Inside.{IsNet, KnowsTasks};

    ghost Value = { NetView M M.Msg };

    ghost view = { λ n. record { nodes = n.nodes.items; rows = n.links.rows } };

    ghost invariant = { λ n. IsNet (record { nodes = n.nodes.items; rows = n.links.rows })
        × KnowsTasks M.has_work n.nodes.items n.asked n.tasks.words };
}

// n rows of n empty links.
fn empty_rows<T: Drop>(alloc: Global, n: usize) -> Result<Vec<Row<T>>, AllocError>
    ensures { IfOk result (λ v. v.items ≡ replicate n (replicate n [])) }
{
    let mut rows = Vec::new(alloc);
    for _i in 0..n {
        rows.push(Row::empty(alloc, n)?)?;
    }
    Ok(rows)
}

// The links of the rows, row after row.
fn flattened<T: Drop>(alloc: Global, rows: Vec<Row<T>>) -> Result<Vec<Vec<T>>, AllocError>
    ensures { IfOk result (λ v. map (λ v. v.items) v.items ≡ flat rows.items) }
{
    let mut links = Vec::new(alloc);
    for row in rows {
        row.pour(alloc, &mut links)?;
    }
    Ok(links)
}

// n rows of n links, in their order.
fn in_rows<T: Drop>(alloc: Global, n: usize, links: Vec<Vec<T>>) -> Result<Vec<Row<T>>, AllocError>
    requires { length links.items ≡ n * n }
    ensures rows { IfOk result (λ v. flat v.items ≡ map (λ v. v.items) links.items) }
    ensures count { IfOk result (λ v. length v.items ≡ n) }
    ensures wide { IfOk result (λ v. All (λ r. length r ≡ n) v.items) }
{
    let mut rest = VecDeque::from_vec(links);
    let mut rows = Vec::new(alloc);
    for _i in 0..n {
        rows.push(Row::of_next(alloc, n, &mut rest)?)?;
    }
    Ok(rows)
}

// Asks each node whether its task is there.
#[cold]
fn ask_all<M: Machine>(nodes: &Vec<M>) -> Marks
    requires { length nodes.now.items < 256 }
    ensures { KnowsTasks M.has_work nodes.now.items true result.words }
{
    let mut tasks = Marks::none();
    for k in 0..nodes.len() {
        tasks.set(k as u8, nodes[k].has_task());
    }
    tasks
}

// Asks each node whether its task is there, where not all were asked.
fn ask<M: Machine>(nodes: &Vec<M>, tasks: &mut Marks, asked: &mut bool)
    requires few { length nodes.now.items < 256 }
    requires known { KnowsTasks M.has_work nodes.now.items asked.old tasks.old.words }
    ensures { KnowsTasks M.has_work nodes.now.items asked.new tasks.new.words }
{
    if *asked {
        return;
    }
    *tasks = ask_all(nodes);
    *asked = true;
}

impl<M: Machine> Net<M> {
    // The net of these nodes and links.
    fn over(nodes: Vec<M>, links: Links<M::Msg>) -> Net<M>
        requires { IsNet (record { nodes = nodes.items; rows = links.rows }) }
        ensures { result ≡ record { nodes = nodes.items; rows = links.rows } }
    {
        Net {
            nodes,
            links,
            tasks: Marks::none(),
            asked: false,
        }
    }

    /// A net with empty links.
    pub fn new(alloc: Global, nodes: Vec<M>) -> Result<Net<M>, AllocError>
        requires { length nodes.items < 256 }
        ensures { IfOk result (λ w. w ≡ record {
          nodes = nodes.items;
          rows = replicate (length nodes.items)
              (replicate (length nodes.items) []);
        }) }
    {
        let rows = empty_rows(alloc, nodes.len())?;
        let links = Links::of_rows(alloc, rows)?;
        Ok(Net::over(nodes, links))
    }

    /// The nodes and the links of the net.
    pub fn apart(mut self, alloc: Global) -> Result<NetParts<M>, AllocError>
        ensures parts { IfOk result (λ p. AreParts p self) }
        ensures many { IfOk result (λ p. length p.links ≡ length p.nodes * length p.nodes) }
    {
        self.links.settle()?;
        let Net {
            nodes,
            links,
            tasks: _,
            asked: _,
        } = self;
        let links = flattened(alloc, links.into_rows())?;
        Ok(NetParts { nodes, links })
    }

    /// The net of these nodes and links.
    pub fn of_parts(alloc: Global, parts: NetParts<M>) -> Result<Net<M>, AllocError>
        requires few { length parts.nodes < 256 }
        requires links { length parts.links ≡ length parts.nodes * length parts.nodes }
        ensures { IfOk result (λ w. AreParts parts w) }
    {
        let NetParts { nodes, links } = parts;
        let rows = in_rows(alloc, nodes.len(), links)?;
        let links = Links::of_rows(alloc, rows)?;
        Ok(Net::over(nodes, links))
    }

    /// How many nodes there are. Each pair of them has a link.
    pub fn node_count(&self) -> usize
        ensures count { result ≡ length self.now.nodes }
        ensures few { result < 256 }
        ensures square { IsSquare self.now }
    {
        self.nodes.len()
    }

    /// The node of that number.
    pub fn node(&self, n: u8) -> Option<&M>
        ensures { option_copied result ≡ slice_get self.now.nodes n }
    {
        self.nodes.get(n as usize)
    }

    /// How many messages the link holds; 0 where one of the nodes does not exist.
    pub fn waiting(&self, from: u8, to: u8) -> usize
        ensures { result ≡ length (link self.now.rows from to) }
    {
        self.links.waiting(from as usize, to)
    }

    /// The message at place i of the link, counted from 0 at the oldest; none where i is not below `waiting`.
    pub fn message(&self, from: u8, to: u8, i: usize) -> Option<&M::Msg>
        ensures { option_copied result ≡ slice_get (link self.now.rows from to) i }
    {
        self.links.get(from as usize, to, i)
    }

    /// Whether the node exists and its task, or a message in that link, is there.
    pub fn enabled(&self, event: Event) -> bool
        ensures { result ≡ enabled M.has_work self.now event }
    {
        let Some(node) = self.node(event.node) else {
            return false;
        };
        match event.from {
            None => node.has_task(),
            Some(from) => self.waiting(from, event.node) > 0,
        }
    }

    // The first task that is there, where no link holds a message: each node is asked.
    #[cold]
    fn ask_first(&self) -> Option<Event>
        requires { (k a : ℕ) → k < length self.now.nodes → link self.now.rows a k ≡ [] }
        ensures enabled { IfSome result (λ e. enabled M.has_work self.now e ≡ true) }
        ensures first { IfSome result (λ e. (d : Event) → IsBefore d e →
            enabled M.has_work self.now d ≡ false) }
        ensures none { IfNone result (IsQuiet M.has_work self.now) }
    {
        for k in 0..self.nodes.len() {
            if self.nodes[k].has_task() {
                return Some(Event {
                    node: k as u8,
                    from: None,
                });
            }
        }
        None
    }

    // `next_event` where messages wait for room, so that the marks of links do not tell who has messages.
    #[cold]
    fn next_unsettled(&self) -> Option<Event>
        ensures enabled { IfSome result (λ e. enabled M.has_work self.now e ≡ true) }
        ensures first { IfSome result (λ e. (d : Event) → IsBefore d e →
            enabled M.has_work self.now d ≡ false) }
        ensures none { IfNone result (IsQuiet M.has_work self.now) }
    {
        for k in 0..self.nodes.len() {
            let node = k as u8;
            let from = self.links.first_from(node);
            if from.is_some() {
                return Some(Event { node, from });
            }
        }
        self.ask_first()
    }

    /// The first enabled event: messages before tasks, so that few wait at a time; of either those of the lowest node, and of messages
    /// to one node those from the lowest. There is none exactly where the net is quiet.
    // Inlined, as `step` is, so that what both look for is looked for once where events happen one after the other.
    #[inline(always)]
    pub fn next_event(&self) -> Option<Event>
        ensures enabled { IfSome result (λ e. enabled M.has_work self.now e ≡ true) }
        ensures first { IfSome result (λ e. (d : Event) → IsBefore d e →
            enabled M.has_work self.now d ≡ false) }
        ensures none { IfNone result (IsQuiet M.has_work self.now) }
    {
        if let Some((node, from)) = self.links.first_ahead() {
            let from = Some(from);
            return Some(Event { node, from });
        }
        if !self.links.is_clear() {
            return self.next_unsettled();
        }
        if let Some(node) = self.links.first_busy() {
            let from = self.links.first_sender(node);
            return Some(Event { node, from });
        }
        if !self.asked {
            return self.ask_first();
        }
        match self.tasks.first() {
            Some(node) => Some(Event { node, from: None }),
            None => None,
        }
    }

    /// Whether no event is enabled.
    pub fn is_quiet(&self) -> bool
        ensures quiet { result ≡ true → IsQuiet M.has_work self.now }
        ensures not_quiet { result ≡ false → (e : Event) × (enabled M.has_work self.now e ≡ true) }
    {
        self.next_event().is_none()
    }

    /// The event happens: its node is fed its task, or the first message of the link. If allocation fails, nothing has changed.
    #[inline(always)]
    pub fn step(&mut self, alloc: Global, event: Event) -> Result<(), AllocError>
        requires enabled { enabled M.has_work self.old event ≡ true }
        requires peers { ArePeers M.peer_count self.old }
        ensures happens { OnOk result (self.new ≡ happens M.steps self.old event) }
        ensures err { OnErr result (self.new ≡ self.old) }
        ensures peers { ArePeers M.peer_count self.new }
    {
        ask(&self.nodes, &mut self.tasks, &mut self.asked);
        let at = event.node as usize;
        let node = &mut self.nodes[at];
        self.links.feed(alloc, event, node)?;
        self.tasks.set(event.node, node.has_task());
        Ok(())
    }
}

impl<M: Machine> Net<M> {
    ghost use Rattle.std.specs.Borrow.{Lends, LendsIf, sem};
    ghost use Rattle.std.specs.Option.{option_copied_mut};
    ghost use Rattle.seam_machine.specs.contracts.nets.Net.{the_row};

    // The node of that number, to be changed.
    fn node_at(&mut self, n: usize) -> &mut M
        requires { n < length self.old.nodes }
        ensures* writes_back { sem 𝓛 (Lends (the_row M.row M.Msg.row M.Machine) M.row self.entry
            result (with_node self.old n)) }
        ensures value { result.now ≡ slice_index_or self.old.nodes n result.now }
    {
        self.asked = false;
        &mut self.nodes[n]
    }

    /// The node of that number, to be changed. Links and other nodes stay as they are.
    pub fn node_mut(&mut self, n: u8) -> Option<&mut M>
        ensures* writes_back { sem 𝓛 (LendsIf (the_row M.row M.Msg.row M.Machine) M.row self.entry
            result (with_node self.old n) self.old) }
        ensures value { option_copied_mut result ≡ slice_get self.old.nodes n }
    {
        if n as usize >= self.nodes.len() {
            return None;
        }
        Some(self.node_at(n as usize))
    }
}
