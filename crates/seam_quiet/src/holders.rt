//! In how many places an entity's real is.

ghost use Rattle.std.specs.Prelude.{◌≡◌, ℕ, ◌+◌, ◌-◌, ◌^◌, ◌<◌, min, length, slice_index_or, [], if◌then◌else◌};
ghost use Rattle.seam_node_steps.specs.Prelude.{link, total, held_at, carried, holders};
ghost use Rattle.seam_net_runs.specs.Weights.{row_weight, links_weight};
ghost use Rattle.seam_core.specs.Worlds.{Lives};

use seam_core::{Node, World, every_world_obeys_the_laws};
use seam_entity::Msg;
use seam_machine::Net;

// Whether the message carries the entity's real.
fn carries(message: &Msg, e: u32) -> bool
    ensures { (to : ℕ) → carried e to message.now ≡ if result then 1 else 0 }
{
    match message {
        Msg::Hand(parcel, _) => parcel.real.entity() == e,
        Msg::Call(_) => false,
        Msg::BaseCall(_) => false,
        Msg::Current(_, _, _) => false,
        Msg::GhostSet(_, _, _) => false,
        Msg::GhostDrop(_, _) => false,
        Msg::Tick => false,
        Msg::Reap(_) => false,
        Msg::Update(_) => false,
        Msg::Bounds(_) => false,
    }
}

// One more where the answer is true. A count stands still at the greatest number.
fn count_if(count: u32, more: bool) -> u32
    ensures { result ≡ min (count + (if more then 1 else 0)) (2 ^ 32 - 1) }
{
    if more && count < u32::MAX {
        count + 1
    } else {
        count
    }
}

// The hand-overs of the entity on a link, added to a count.
fn count_on_link(net: &Net<Node>, e: u32, from: u8, to: u8, so_far: u32) -> u32
    ensures { result ≡ min (so_far + total (carried e to) (link net.now.rows from to))
        (2 ^ 32 - 1) }
{
    let mut count = so_far;
    for i in 0..net.waiting(from, to) {
        let Some(message) = net.message(from, to, i) else {
            unreachable!()
        };
        count = count_if(count, carries(message, e));
    }
    count
}

// The hand-overs of the entity on the links of a node, added to a count.
fn count_from(net: &Net<Node>, e: u32, from: u8, so_far: u32) -> u32
    requires { from < length net.now.nodes }
    ensures { result ≡ min (so_far + row_weight (carried e) (slice_index_or net.now.rows from []))
        (2 ^ 32 - 1) }
{
    let mut count = so_far;
    for to in 0..net.node_count() {
        count = count_on_link(net, e, from, to as u8, count);
    }
    count
}

// The hand-overs of the entity on all links, added to a count.
fn count_hands(net: &Net<Node>, e: u32, so_far: u32) -> u32
    ensures { result ≡ min (so_far + links_weight (carried e) net.now.rows) (2 ^ 32 - 1) }
{
    let mut count = so_far;
    for from in 0..net.node_count() {
        count = count_from(net, e, from as u8, count);
    }
    count
}

// The nodes that have the entity's real.
fn count_reals(net: &Net<Node>, e: u32) -> u32
    ensures { result ≡ min (total (held_at e) net.now.nodes) (2 ^ 32 - 1) }
{
    let mut count = 0;
    for k in 0..net.node_count() {
        let Some(node) = net.node(k as u8) else {
            unreachable!()
        };
        count = count_if(count, node.has_real(e));
    }
    count
}

// The same of a net: nodes that have the entity's real, and hand-overs that carry it.
fn count_in(net: &Net<Node>, e: u32) -> u32
    ensures { result ≡ min (holders net.now e) (2 ^ 32 - 1) }
{
    count_hands(net, e, count_reals(net, e))
}

/// In how many places the entity's real is: cells that have it, and hand-overs that carry it; the greatest `u32` if there are more.
///
/// Of an entity that lives it is 1 at every moment of a round.
pub fn count_holders(world: &World, e: u32) -> u32
    ensures count { result ≡ min (holders world.now e) (2 ^ 32 - 1) }
    ensures one { Lives e world.now → result ≡ 1 }
{
    every_world_obeys_the_laws();
    count_in(world.net(), e)
}
