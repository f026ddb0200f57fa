//! Workers in real threads: they get on, and each of two and of four is inside a step at once. And a node without a task and a letter
//! makes no step.

ghost use Rattle.std.specs.Prelude.{◌≡◌, ◌≤◌, IfOk, Some, length, slice_get};
ghost use Rattle.seam_machine.specs.Nets.{ArePeers};

use crate::{Counter, ring};
use seam_link::link;
use seam_logged::{Ends, Logged, Naming, Try};
use seam_machine::Net;
use seam_workers::{Crew, FreeLinks, Gate, OpenGate, run_workers, run_workers_over};
use std::alloc::{AllocError, Global};
use std::marker::Brand;
use std::sync::Wait;
use std::sync::atomic::{AtomicU64, Ordering};
use std::test::Fail;
use std::thread;
use std::thread::Threads;

// How often a node that is held looks for the other one before it gives up: seconds, on a machine with nothing else to do.
const MOST_LOOKS: u32 = 20_000_000;

// Holds each of four nodes, or the first ones of them, until all were inside.
#[derive(Drop)]
struct AllInside {
    all: u64,
    inside: AtomicU64,
    given_up: AtomicU64,
}

impl Gate for AllInside {
    fn at_step<R: Threads + Wait + Sync>(&self, _rt: &R, node: u8) {
        let mine = match node {
            0 => 1,
            1 => 2,
            2 => 4,
            _ => 8,
        };
        self.inside.fetch_or(mine, Ordering::SeqCst);
        for _look in 0..MOST_LOOKS {
            if self.inside.load(Ordering::SeqCst) == self.all {
                return;
            }
            thread::yield_now();
        }
        self.given_up.store(1, Ordering::SeqCst);
    }
}

// Two counters that pass a number each to the other.
fn pair(alloc: Global) -> Result<Net<Counter>, AllocError>
    ensures { IfOk result (λ w. ArePeers (λ c. c.peers) w) }
{
    let nodes = Vec::from_array(
        alloc,
        [Counter::new(1, 2, Some(3)), Counter::new(0, 2, Some(3))],
    )?;
    Net::new(alloc, nodes)
}

// Four counters that pass a number each to the next.
fn quartet(alloc: Global) -> Result<Net<Counter>, AllocError>
    ensures { IfOk result (λ w. ArePeers (λ c. c.peers) w) }
{
    let nodes = Vec::from_array(
        alloc,
        [
            Counter::new(1, 4, Some(3)),
            Counter::new(2, 4, Some(3)),
            Counter::new(3, 4, Some(3)),
            Counter::new(0, 4, Some(3)),
        ],
    )?;
    Net::new(alloc, nodes)
}

// What the first two of three counters are to pass on, how many workers step them, and how many turns each has; whether the ring is
// certain to be quiet afterwards, and the least and the greatest number of events that there are. With one number one counter alone has
// something to do at any time. The first row may leave letters in links, which the others use again.
#[derive(Clone, Copy)]
struct Row {
    first: Option<u64>,
    second: Option<u64>,
    workers: u32,
    turns: u32,
    quiet: bool,
    least: usize,
    most: usize,
}

const ROWS: [Row; 5] = [
    Row {
        first: None,
        second: Some(20),
        workers: 4,
        turns: 5,
        quiet: false,
        least: 5,
        most: 22,
    },
    Row {
        first: Some(20),
        second: Some(5),
        workers: 1,
        turns: 1000,
        quiet: true,
        least: 29,
        most: 29,
    },
    Row {
        first: Some(20),
        second: Some(5),
        workers: 2,
        turns: 1000,
        quiet: true,
        least: 29,
        most: 29,
    },
    Row {
        first: Some(20),
        second: Some(5),
        workers: 4,
        turns: 1000,
        quiet: true,
        least: 29,
        most: 29,
    },
    Row {
        first: None,
        second: Some(20),
        workers: 4,
        turns: 1000,
        quiet: true,
        least: 22,
        most: 22,
    },
];

// Whether workers leave the ring as the row says. Links that other rows used are used again.
fn is_left<R: Threads + Wait + Sync>(
    rt: &R,
    free: &mut FreeLinks<u64>,
    row: Row,
) -> Result<bool, AllocError> {
    if row.workers < 1 || row.workers > 16 || row.turns < 1 {
        return Ok(false);
    }
    let crew = Crew {
        workers: row.workers,
        turns: row.turns,
    };
    let net = ring(free.allocator(), row.first, row.second)?;
    let (net, events) = run_workers_over(rt, free, net, crew, &OpenGate)?;
    let many = row.least <= events.len() && events.len() <= row.most;
    Ok(many && (net.is_quiet() || !row.quiet))
}

#[test]
fn workers_leave_rings_as_the_rows_say(rt: HostRuntime) -> Result<(), Fail> {
    let mut free = FreeLinks::new(rt.alloc());
    let mut kept = 0usize;
    for row in ROWS {
        if is_left(&rt, &mut free, row)? {
            kept = kept.saturating_add(1);
        }
    }
    assert_eq!(rt; kept, ROWS.len());
    Ok(())
}

// Whether as many workers as there are nodes in the net, whose bits these are, were all inside at once.
fn are_inside<R: Threads + Wait + Sync>(
    rt: &R,
    alloc: Global,
    net: Net<Counter>,
    workers: u32,
    all: u64,
) -> Result<bool, AllocError>
    requires workers { (1 ≤ workers) × (workers ≤ 16) }
    requires peers { ArePeers (λ c. c.peers) net }
{
    let gate = AllInside {
        all,
        inside: AtomicU64::new(0),
        given_up: AtomicU64::new(0),
    };
    let crew = Crew {
        workers,
        turns: 1000,
    };
    let (_net, events) = run_workers(rt, alloc, net, crew, &gate)?;
    let inside = gate.inside.load(Ordering::SeqCst);
    let given_up = gate.given_up.load(Ordering::SeqCst);
    Ok(events.len() >= workers as usize && inside == all && given_up == 0)
}

// No lock is waited for, so each worker goes on until it finds a node where nobody is.
#[test]
fn all_workers_are_inside_at_once(rt: HostRuntime) -> Result<(), Fail> {
    let two = are_inside(&rt, rt.alloc(), pair(rt.alloc())?, 2, 3)?;
    let four = are_inside(&rt, rt.alloc(), quartet(rt.alloc())?, 4, 15)?;
    assert_eq!(rt; (two, four), (true, true));
    Ok(())
}

// The only counter of a ring, and its link to itself.
#[derive(Drop)]
struct Alone {
    node: Counter,
    ends: Ends<u64>,
}

// The first try of the node in the run J, and how many steps are in its log after it.
fn tried<J: Naming<Counter, u64>>(alloc: Global, alone: Alone) -> (Try, usize)
    requires ins { length alone.ends.ins ≡ alone.node.peers }
    requires outs { length alone.ends.outs ≡ alone.node.peers }
    requires named { slice_get J.roots 0 ≡ Some (record {
      start = alone.node;
      first = alone.ends;
    }) }
{
    let Alone { node, ends } = alone;
    let mut logged: Logged<Counter, J> = Logged::new(alloc, node, 0, ends);
    let tried = logged.try_step(alloc);
    (tried, logged.apart().log.len())
}

// The same for a counter that is alone in its ring and is to pass on the given number.
fn tried_alone(alloc: Global, given: Option<u64>) -> Result<(Try, usize), AllocError> {
    let (out, end) = link(alloc, 1)?;
    let ends = Ends {
        ins: Vec::from_array(alloc, [end])?,
        outs: Vec::from_array(alloc, [out])?,
    };
    let node = Counter::new(0, 1, given);
    Ok(tried::<Brand>(alloc, Alone { node, ends }))
}

#[test]
fn a_try_without_a_task_is_idle(rt: HostRuntime) -> Result<(), Fail> {
    let without = tried_alone(rt.alloc(), None)?;
    let with = tried_alone(rt.alloc(), Some(5))?;
    assert_eq!(rt; (without, with), ((Try::Idle, 0), (Try::Stepped, 1)));
    Ok(())
}
