// Workers step all nodes until nothing is left to do, and leave nothing to the caller.
//
// The gate is called by workers alone, before the first step of each visit of a node, whether there is a step to make or not. A worker has
// done its part when sixteen times as many visits in a row as there are nodes found no step, or when its turns are over. So where all
// visits together are fewer than the turns of one worker, each worker ended with passes over all nodes that found nothing; the last of them
// to make a step did so too, and after it there was nothing left. Then the steps of a node that did not happen before workers were called
// are no more than its visits make.
use crate::runs::{GOOD, Run, play};
use seam_watch::{Journal, JournalLog};
use seam_workers::Gate;
use seam_world::Status;
use std::alloc::{AllocError, Global};
use std::random::RandomSource;
use std::sync::Wait;
use std::sync::atomic::{AtomicU64, Ordering};
use std::test::Fail;
use std::thread::Threads;

// Cells and base nodes.
const CELLS: u8 = 16;

const NODES: u8 = 18;

// How many calls of each base node an avatar gets.
const CALLS: usize = 400;

// The most steps of a visit.
const STEPS: u64 = 64;

// How many events of a phase happen before workers are called.
const ALONE: usize = 8192;

// No two cells have anything to do with each other.
const HEADER: &str =
    "[settings]\nview_radius = 0\nview_hysteresis = 0\noffload_hysteresis = 0\nghost_distance = 0\n\
    ghost_hysteresis = 0\n%%\n";

// Fifteen cuts.
const SIXTEEN: &str =
    "cut 0 x 9000\ncut 0 x 8500\ncut 0 x 8000\ncut 0 x 7500\ncut 0 x 7000\ncut 0 x 6500\ncut 0 x 6000\n\
    cut 0 x 5500\ncut 0 x 5000\ncut 0 x 4500\ncut 0 x 4000\ncut 0 x 3500\ncut 0 x 3000\ncut 0 x 2500\ncut 0 x 2000\n";

// An avatar in each of sixteen cells.
const AVATARS: &str =
    "create 1 Avatar 1750 5000\ncreate 2 Avatar 2250 5000\ncreate 3 Avatar 2750 5000\ncreate 4 Avatar 3250 5000\n\
    create 5 Avatar 3750 5000\ncreate 6 Avatar 4250 5000\ncreate 7 Avatar 4750 5000\ncreate 8 Avatar 5250 5000\n\
    create 9 Avatar 5750 5000\ncreate 10 Avatar 6250 5000\ncreate 11 Avatar 6750 5000\ncreate 12 Avatar 7250 5000\n\
    create 13 Avatar 7750 5000\ncreate 14 Avatar 8250 5000\ncreate 15 Avatar 8750 5000\ncreate 16 Avatar 9250 5000\n";

// A call of each base node to each of them.
const CALLS_OF_ALL: &str =
    "call b1 1 hit 1\ncall b2 1 heal 1\ncall b1 2 hit 1\ncall b2 2 heal 1\ncall b1 3 hit 1\ncall b2 3 heal 1\ncall b1 4 hit 1\n\
    call b2 4 heal 1\ncall b1 5 hit 1\ncall b2 5 heal 1\ncall b1 6 hit 1\ncall b2 6 heal 1\ncall b1 7 hit 1\ncall b2 7 heal 1\n\
    call b1 8 hit 1\ncall b2 8 heal 1\ncall b1 9 hit 1\ncall b2 9 heal 1\ncall b1 10 hit 1\ncall b2 10 heal 1\ncall b1 11 hit 1\n\
    call b2 11 heal 1\ncall b1 12 hit 1\ncall b2 12 heal 1\ncall b1 13 hit 1\ncall b2 13 heal 1\ncall b1 14 hit 1\n\
    call b2 14 heal 1\ncall b1 15 hit 1\ncall b2 15 heal 1\ncall b1 16 hit 1\ncall b2 16 heal 1\n";

// How often workers visited each node.
#[derive(Drop)]
struct Tries {
    of_nodes: Vec<AtomicU64>,
}

impl Tries {
    fn none(alloc: Global) -> Result<Tries, AllocError> {
        let mut of_nodes = Vec::new(alloc);
        for _ in 0..NODES {
            of_nodes.push(AtomicU64::new(0))?;
        }
        Ok(Tries { of_nodes })
    }

    fn at(&self, node: u8) -> u64 {
        match self.of_nodes.get(usize::from(node)) {
            Some(tries) => tries.load(Ordering::SeqCst),
            None => 0,
        }
    }

    fn of_all(&self) -> u64 {
        let mut all = 0u64;
        for node in 0..NODES {
            all = all.saturating_add(self.at(node));
        }
        all
    }
}

impl Gate for Tries {
    fn at_step<R: Threads + Wait + Sync>(&self, _rt: &R, node: u8) {
        if let Some(tries) = self.of_nodes.get(usize::from(node)) {
            tries.fetch_add(1, Ordering::SeqCst);
        }
    }
}

// A round in which both base nodes call all avatars in turn.
fn script(alloc: Global) -> Result<String, AllocError> {
    let mut script = String::from_str(alloc, HEADER)?;
    script.push_str(SIXTEEN)?;
    script.push_str(AVATARS)?;
    for _ in 0..CALLS {
        script.push_str(CALLS_OF_ALL)?;
    }
    Ok(script)
}

// How many of the calls' steps are of a node, after so many of all.
fn steps(journal: &Journal, node: u8, after: usize) -> usize {
    let steps = journal.calls.as_slice().iter();
    steps.skip(after).filter(|step| step.node == node).count()
}

// A cell settles its avatar and executes the calls, and a base node passes on its calls.
fn all_steps(node: u8) -> usize {
    if node < CELLS {
        1 + 2 * CALLS
    } else {
        usize::from(CELLS) * CALLS
    }
}

// The words of a run, the most visits that its workers make, and whether each node makes steps that are theirs.
struct Row {
    words: &'static [&'static str],
    tries: u64,
    theirs: bool,
}

// In the first two workers leave nothing, and in the others what they leave is for the caller.
static ROWS: [Row; 4] = [
    Row {
        words: &["--workers=2", "--turns=1000000"],
        tries: 999_999,
        theirs: true,
    },
    Row {
        words: &["--workers=4", "--turns=1000000"],
        tries: 999_999,
        theirs: true,
    },
    Row {
        words: &["--workers=2", "--turns=1"],
        tries: 2,
        theirs: false,
    },
    Row {
        words: &["--workers=1", "--turns=1000000"],
        tries: 2,
        theirs: false,
    },
];

// Whether the node makes all its steps, and some of them and no more than its visits make after workers were called, if that is asked.
fn is_stepped(journal: &Journal, node: u8, tries: u64, theirs: bool) -> bool {
    let after = steps(journal, node, ALONE) as u64;
    let is_tried = !theirs || (0 < after && after <= tries.saturating_mul(STEPS));
    is_tried && steps(journal, node, 0) == all_steps(node)
}

// Whether the only round and the visits in it are as the row says.
fn is_as_said(log: &JournalLog, tries: &Tries, row: &Row) -> bool {
    let Some((_, journal)) = log.at(0) else {
        return false;
    };
    for node in 0..NODES {
        if !is_stepped(journal, node, tries.at(node), row.theirs) {
            return false;
        }
    }
    tries.of_all() <= row.tries
}

// How the script ends, and whether its round is as the row says.
fn tried<R: Threads + Wait + Sync + RandomSource>(
    rt: &R,
    alloc: Global,
    script: &str,
    row: &Row,
) -> Result<(Status, bool), AllocError> {
    let tries = Tries::none(alloc)?;
    let mut log = JournalLog::new(alloc);
    let run = Run {
        words: row.words,
        script: script.as_bytes(),
        streams: GOOD,
    };
    let (status, _out) = play(rt, alloc, &run, &tries, &mut log)?;
    Ok((status, is_as_said(&log, &tries, row)))
}

// How many rows are kept to before the first one that is not.
fn kept_rows<R: Threads + Wait + Sync + RandomSource>(
    rt: &R,
    alloc: Global,
) -> Result<usize, AllocError> {
    let script = script(alloc)?;
    let mut kept = 0usize;
    for row in &ROWS {
        let (status, well) = tried(rt, alloc, &script, row)?;
        if status != Status::Done || !well {
            return Ok(kept);
        }
        kept = kept.saturating_add(1);
    }
    Ok(kept)
}

#[test]
fn workers_step_all_nodes_and_what_they_leave_is_for_the_caller(
    rt: HostRuntime,
) -> Result<(), Fail> {
    assert_eq!(rt; kept_rows(&rt, rt.alloc())?, ROWS.len());
    Ok(())
}
