// The world of a call that comes early, stepped by workers in threads until nothing is left to do.

use crate::events::{EARLY_CALL, has_real};
use crate::first::first_world;
use seam_workers::{Crew, OpenGate, run_workers};
use std::alloc::Global;
use std::sync::Wait;
use std::test::Fail;
use std::thread::Threads;

// Each worker visits all nodes more often than they have steps to make.
const TURNS: u32 = 1_000;

const MOST_STEPS: usize = 55;

// What workers make of the world: whether it is quiet, whether cell 1 has the avatar, and whether the steps are few.
fn run<R: Threads + Wait + Sync>(
    rt: &R,
    alloc: Global,
    workers: u32,
) -> Result<(bool, bool, bool), Fail> {
    if workers < 1 || workers > 16 {
        return Err("so many workers")?;
    }
    let crew = Crew {
        workers,
        turns: TURNS,
    };
    let world = first_world(alloc, &EARLY_CALL)?;
    let (net, steps) = run_workers(rt, alloc, world.apart(), crew, &OpenGate)?;
    let few = steps.len() < MOST_STEPS;
    Ok((net.is_quiet(), has_real(&net, 1, 1), few))
}

#[test]
fn workers_leave_the_world_quiet(rt: HostRuntime) -> Result<(), Fail> {
    for workers in [1, 2, 4] {
        let seen = run(&rt, rt.alloc(), workers)?;
        assert_eq!(rt; seen, (true, true, true), "{workers} workers");
    }
    Ok(())
}
