//! Events that happen on the net itself, where nothing can be done side by side.

ghost use Rattle.std.specs.Prelude.{◌≡◌, ◌+◌, ◌<◌, ◌≤◌, ◌⊎◌, length, true, IfOk, OnOk, vec_len};
ghost use Rattle.seam_machine.specs.Views.{NetView};
ghost use Rattle.seam_machine.specs.Nets.{ArePeers, IsQuiet, LeadsTo, enabled};
ghost use Rattle.seam_workers.specs.Alone.{TwoHaveEvents};
ghost use Rattle.seam_machine.specs.declared.machines.Event.{Event};

use crate::{Gate, MOST_STEPS};
use seam_machine::{Event, Machine, Net};
use std::alloc::{AllocError, Global};
use std::sync::Wait;
use std::thread::Threads;

// Whether the node has a task, or a message on a link to it.
fn has_event<M: Machine>(net: &Net<M>, node: u8) -> bool
    ensures { result ≡ true → (e : Event) × (enabled M.has_work net.now e ≡ true) ×
        (e.node ≡ node) }
{
    if net.enabled(Event { node, from: None }) {
        return true;
    }
    for from in 0..net.node_count() {
        let event = Event {
            node,
            from: Some(from as u8),
        };
        if net.enabled(event) {
            return true;
        }
    }
    false
}

// Whether a node above that one has an event.
fn has_event_above<M: Machine>(net: &Net<M>, node: u8) -> bool
    ensures { result ≡ true → (e : Event) × (enabled M.has_work net.now e ≡ true) ×
        (node < e.node) }
{
    for above in node as usize + 1..net.node_count() {
        if has_event(net, above as u8) {
            return true;
        }
    }
    false
}

// Whether a node below that one has an event: it may have a task where that one has a message.
fn has_event_below<M: Machine>(net: &Net<M>, node: u8) -> bool
    ensures { result ≡ true → (e : Event) × (enabled M.has_work net.now e ≡ true) ×
        (e.node < node) }
{
    for below in 0..node {
        if has_event(net, below) {
            return true;
        }
    }
    false
}

// Lets an event happen, and adds it to the events.
fn add_event<M: Machine>(
    alloc: Global,
    net: &mut Net<M>,
    event: Event,
    events: &mut Vec<Event>,
) -> Result<(), AllocError>
    requires peers { ArePeers M.peer_count net.old }
    requires enabled { enabled M.has_work net.old event ≡ true }
    ensures peers { ArePeers M.peer_count net.new }
    ensures run { OnOk result ((w : NetView M M.Msg) →
        LeadsTo M.has_work M.steps w events.old.items net.old →
        LeadsTo M.has_work M.steps w events.new.items net.new) }
    ensures more { OnOk result (length events.new.items ≡ length events.old.items + 1) }
{
    net.step(alloc, event)?;
    events.push(event)?;
    Ok(())
}

// Lets an event happen, and the next ones while they are of its node, as many as a visit may have.
fn visit_alone<M: Machine>(
    alloc: Global,
    net: &mut Net<M>,
    first: Event,
    events: &mut Vec<Event>,
) -> Result<(), AllocError>
    requires peers { ArePeers M.peer_count net.old }
    requires enabled { enabled M.has_work net.old first ≡ true }
    ensures peers { ArePeers M.peer_count net.new }
    ensures run { OnOk result ((w : NetView M M.Msg) →
        LeadsTo M.has_work M.steps w events.old.items net.old →
        LeadsTo M.has_work M.steps w events.new.items net.new) }
    ensures more { OnOk result (length events.old.items < length events.new.items) }
{
    add_event(alloc, net, first, events)?;
    for _step in 1..MOST_STEPS {
        let Some(event) = net.next_event() else {
            return Ok(());
        };
        if event.node != first.node {
            return Ok(());
        }
        add_event(alloc, net, event, events)?;
    }
    Ok(())
}

/// Lets events happen while one node alone has any, in at most `turns` visits. Before each the others are asked and the gate is called.
pub fn alone<M: Machine, G: Gate, R: Threads + Wait + Sync>(
    rt: &R,
    alloc: Global,
    net: &mut Net<M>,
    turns: u32,
    gate: &G,
) -> Result<Vec<Event>, AllocError>
    requires { ArePeers M.peer_count net.old }
    ensures run { IfOk result (λ v. LeadsTo M.has_work M.steps net.old v.items net.new) }
    ensures peers { ArePeers M.peer_count net.new }
    ensures until { IfOk result (λ v. IsQuiet M.has_work net.new ⊎
        TwoHaveEvents M.has_work net.new ⊎ (turns ≤ vec_len v)) }
{
    let mut events = Vec::new(alloc);
    for _turn in 0..turns {
        let Some(event) = net.next_event() else {
            return Ok(events);
        };
        if has_event_above(net, event.node) {
            return Ok(events);
        }
        if has_event_below(net, event.node) {
            return Ok(events);
        }
        gate.at_step(rt, event.node);
        visit_alone(alloc, net, event, &mut events)?;
    }
    Ok(events)
}
