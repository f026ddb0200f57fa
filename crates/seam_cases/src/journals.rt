// What a watch is told of rounds.
use crate::runs::{GOOD, Run, play};
use seam_watch::JournalLog;
use seam_workers::OpenGate;
use seam_world::Status;
use std::test::Fail;

const ONE_CALL: Run<'static> = Run {
    words: &["--trace"],
    script: b"%%\ncreate 1 Avatar 100 100\ncall b1 1 hit 30\nsync\n",
    streams: GOOD,
};

const LAST_LINES: &[u8] = b"phase 2\nphase 3\nstep 16 task\nstep 0 from 16\ndid 1 b1 1 hit 30\n\
    home 1 0 1 100 100 hp=70 mana=50 mood=0 note=\"\" scent=0 xp=0\nbase 1 0 gold=0 rank=1\nend 1\n";

// The space of the round, and how many steps each of its phases has.
fn steps_of(log: &JournalLog, round: usize) -> Option<(u8, usize, usize, usize)> {
    let (space, journal) = log.at(round)?;
    let calls = journal.calls.as_slice().len();
    let reaps = journal.reaps.as_slice().len();
    Some((space, calls, reaps, journal.looks.as_slice().len()))
}

#[test]
fn a_trace_has_the_steps_of_a_round(rt: HostRuntime) -> Result<(), Fail> {
    let mut log = JournalLog::new(rt.alloc());
    let (status, out) = play(&rt, rt.alloc(), &ONE_CALL, &OpenGate, &mut log)?;
    let begins = out.bytes().starts_with(b"round 1\nphase 1\n");
    let ends = out.bytes().ends_with(LAST_LINES);
    let steps = (steps_of(&log, 0), steps_of(&log, 1));
    assert_eq!(rt;
        (status, (begins, ends), steps),
        (Status::Done, (true, true), (Some((0, 3, 0, 2)), None))
    );
    Ok(())
}
