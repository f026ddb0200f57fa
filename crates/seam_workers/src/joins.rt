//! The net and the events of nodes that were taken apart.

ghost use Rattle.std.specs.Prelude.{◌≡◌, ◌<◌, length, map, IfOk};
ghost use Rattle.seam_workers.specs.Rejoined.{CanRejoin, IsRejoined};

use seam_logged::{Apart, Ends, FreeLinks, left};
use seam_machine::{Event, Machine, Net, NetParts};
use seam_stamp::{Letter, Stamped, merge};
use std::alloc::{AllocError, Global};
use std::collections::VecDeque;

// What the nodes of a net are made of, each kind in the order of their numbers.
#[derive(Drop)]
struct Columns<M: Machine> {
    nodes: Vec<M>,
    logs: Vec<Vec<Stamped<Event>>>,
    hands: Vec<VecDeque<(u8, Letter<M::Msg>)>>,
    ends: Vec<Ends<M::Msg>>,
}

// The parts of the nodes.
fn in_columns<M: Machine>(alloc: Global, done: Vec<Apart<M>>) -> Result<Columns<M>, AllocError>
    ensures nodes { IfOk result (λ c. c.nodes.items ≡ map (λ v. v.node) done.items) }
    ensures logs { IfOk result (λ c. map (λ l. l.items) c.logs.items
        ≡ map (λ v. v.log) done.items) }
    ensures hands { IfOk result (λ c. map (λ h. h.items) c.hands.items
        ≡ map (λ v. v.hand) done.items) }
    ensures ends { IfOk result (λ c. c.ends.items ≡ map (λ v. v.ends) done.items) }
{
    let mut nodes = Vec::new(alloc);
    let mut logs = Vec::new(alloc);
    let mut hands = Vec::new(alloc);
    let mut all_ends = Vec::new(alloc);
    for apart in done {
        let Apart {
            me: _,
            node,
            stamp: _,
            log,
            hand,
            ends,
            out: _,
        } = apart;
        nodes.push(node)?;
        logs.push(log)?;
        hands.push(hand)?;
        all_ends.push(ends)?;
    }
    Ok(Columns {
        nodes,
        logs,
        hands,
        ends: all_ends,
    })
}

/// Puts a net together: its links meet and are free then, and its logs are merged.
pub fn rejoin<M: Machine>(
    free: &mut FreeLinks<M::Msg>,
    done: Vec<Apart<M>>,
) -> Result<(Net<M>, Vec<Event>), AllocError>
    requires few { length done.items < 256 }
    requires can { CanRejoin done.items }
    ensures { IfOk result (λ r. IsRejoined done.items r.0 r.1.items) }
{
    let alloc = free.allocator();
    let Columns {
        nodes,
        logs,
        hands,
        ends,
    } = in_columns(alloc, done)?;
    let links = left(free, ends, hands)?;
    let net = Net::of_parts(alloc, NetParts { nodes, links })?;
    let events = merge(alloc, logs)?;
    Ok((net, events))
}
