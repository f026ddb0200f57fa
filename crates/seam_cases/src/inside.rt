// Base nodes, and workers, that are inside their steps at once.
use crate::runs::{GOOD, Run, play};
use seam_watch::NoWatch;
use seam_workers::Gate;
use seam_world::Status;
use std::alloc::{AllocError, Global};
use std::sync::Wait;
use std::sync::atomic::{AtomicU64, Ordering};
use std::test::Fail;
use std::thread;
use std::thread::Threads;

// A script whose only round has so many calls from each of two base nodes.
fn many_calls(alloc: Global, count: u32) -> Result<String, AllocError> {
    let mut script = String::from_str(alloc, "%%\ncreate 1 Avatar 100 100\n")?;
    for _ in 0..count {
        script.push_str("call b1 1 hit 1\ncall b2 1 heal 1\n")?;
    }
    script.push_str("sync\n")?;
    Ok(script)
}

// How often a node that is held looks for the other one before it gives up: seconds, on a machine with nothing else to do.
const MOST_LOOKS: u32 = 20_000_000;

// Holds each of the nodes 16 and 17 until both were inside their steps.
#[derive(Drop)]
struct BothInside {
    inside: AtomicU64,
    given_up: AtomicU64,
}

impl Gate for BothInside {
    fn at_step<R: Threads + Wait + Sync>(&self, _rt: &R, node: u8) {
        if node != 16 && node != 17 {
            return;
        }
        let mine = if node == 16 { 1 } else { 2 };
        self.inside.fetch_or(mine, Ordering::SeqCst);
        for _look in 0..MOST_LOOKS {
            if self.inside.load(Ordering::SeqCst) == 3 {
                return;
            }
            thread::yield_now();
        }
        self.given_up.store(1, Ordering::SeqCst);
    }
}

// Holds each worker that comes inside until so many are.
#[derive(Drop)]
struct AllInside {
    all: u64,
    inside: AtomicU64,
    given_up: AtomicU64,
}

impl Gate for AllInside {
    fn at_step<R: Threads + Wait + Sync>(&self, _rt: &R, _node: u8) {
        self.inside.fetch_add(1, Ordering::SeqCst);
        for _look in 0..MOST_LOOKS {
            if self.inside.load(Ordering::SeqCst) >= self.all {
                return;
            }
            thread::yield_now();
        }
        self.given_up.store(1, Ordering::SeqCst);
    }
}

const TWO_WORKERS: &[&str] = &["--workers", "2"];

const FOUR_WORKERS: &[&str] = &["--workers", "4"];

#[test]
fn two_nodes_are_inside_their_steps_at_once(rt: HostRuntime) -> Result<(), Fail> {
    let gate = BothInside {
        inside: AtomicU64::new(0),
        given_up: AtomicU64::new(0),
    };
    let script = many_calls(rt.alloc(), 6_000)?;
    let run = Run {
        words: TWO_WORKERS,
        script: script.as_bytes(),
        streams: GOOD,
    };
    let (status, _out) = play(&rt, rt.alloc(), &run, &gate, &mut NoWatch)?;
    let inside = gate.inside.load(Ordering::SeqCst);
    let given_up = gate.given_up.load(Ordering::SeqCst);
    assert_eq!(rt; (status, inside, given_up), (Status::Done, 3, 0));
    Ok(())
}

// Who is inside holds its node, so that those who come inside before the gate opens are different workers.
#[test]
fn four_workers_are_inside_at_once(rt: HostRuntime) -> Result<(), Fail> {
    let gate = AllInside {
        all: 4,
        inside: AtomicU64::new(0),
        given_up: AtomicU64::new(0),
    };
    let script = many_calls(rt.alloc(), 6_000)?;
    let run = Run {
        words: FOUR_WORKERS,
        script: script.as_bytes(),
        streams: GOOD,
    };
    let (status, _out) = play(&rt, rt.alloc(), &run, &gate, &mut NoWatch)?;
    let inside = gate.inside.load(Ordering::SeqCst);
    let given_up = gate.given_up.load(Ordering::SeqCst);
    assert_eq!(rt; (status, inside >= 4, given_up), (Status::Done, true, 0));
    Ok(())
}
