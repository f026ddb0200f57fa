ghost use Rattle.seam_machine.specs.Nets.{ArePeers};

use crate::{Counter, ring, sent};
use seam_machine::{Event, Machine, Net, NetParts};
use std::alloc::{AllocError, Global};
use std::test::Fail;

// Lets the first enabled event happen again and again, until the net is quiet or so many happened. Gives how many did.
fn run<M: Machine>(alloc: Global, net: &mut Net<M>, most: u32) -> Result<u32, AllocError>
    requires { ArePeers M.peer_count net.old }
    ensures { ArePeers M.peer_count net.new }
{
    for count in 0..most {
        let Some(event) = net.next_event() else {
            return Ok(count);
        };
        net.step(alloc, event)?;
    }
    Ok(most)
}

const AT_NODE_0: Event = Event {
    node: 0,
    from: None,
};

const FROM_0_TO_1: Event = Event {
    node: 1,
    from: Some(0),
};

const AT_NODE_2: Event = Event {
    node: 2,
    from: None,
};

// What waits from node 1 to node 2, once two events happened.
fn is_on_its_way(net: &Net<Counter>) -> bool {
    let first = net.message(1, 2, 0) == Some(&1);
    let second = net.message(1, 2, 1).is_none();
    (net.waiting(1, 2), first, second, net.is_quiet()) == (1, true, true, false)
}

#[test]
fn a_number_goes_round_until_it_is_gone(rt: HostRuntime) -> Result<(), Fail> {
    let mut net = sent(ring(rt.alloc(), Some(2), None)?);
    let start = (net.node_count(), net.next_event());
    let two = run(rt.alloc(), &mut net, 2)?;
    let on_its_way = is_on_its_way(&net);
    let more = run(rt.alloc(), &mut net, 10)?;
    assert_eq!(rt;
        (start, (two, on_its_way, more, net.is_quiet())),
        ((3, Some(AT_NODE_0)), (2, true, 2, true))
    );
    Ok(())
}

fn is_just(numbers: &[u64], number: u64) -> bool {
    numbers.len() == 1 && numbers.first().copied() == Some(number)
}

fn are_parts(parts: &NetParts<Counter>) -> bool {
    let counts = (parts.nodes.len(), parts.links.len());
    match parts.links.get(1) {
        Some(link) => counts == (3, 9) && is_just(link.as_slice(), 2),
        None => false,
    }
}

fn are_links(net: &Net<Counter>) -> bool {
    let waiting = (net.waiting(0, 1), net.waiting(0, 2), net.waiting(3, 0));
    let enabled = (net.enabled(FROM_0_TO_1), net.enabled(AT_NODE_0));
    let message = net.message(0, 1, 0) == Some(&2);
    let counts = (waiting, enabled) == ((1, 0, 0), (true, false));
    counts && message && net.node(3).is_none()
}

#[test]
fn parts_make_the_same_net(rt: HostRuntime) -> Result<(), Fail> {
    let mut net = ring(rt.alloc(), Some(2), None)?;
    let one = run(rt.alloc(), &mut net, 1)?;
    let parts = net.apart(rt.alloc())?;
    let were_parts = are_parts(&parts);
    let again = Net::of_parts(rt.alloc(), parts)?;
    assert_eq!(rt; (one, were_parts, are_links(&again)), (1, true, true));
    Ok(())
}

#[test]
fn another_node_takes_the_place(rt: HostRuntime) -> Result<(), Fail> {
    let mut net = ring(rt.alloc(), Some(2), None)?;
    let node = net.node_mut(2).ok_or("node 2")?;
    *node = Counter::new(0, 3, Some(0));
    assert!(rt; net.enabled(AT_NODE_2) && net.node_mut(3).is_none());
    Ok(())
}
