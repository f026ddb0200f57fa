use seam_defs::Listed;
use seam_machine::Event;
use seam_watch::{Journal, JournalLog, NoWatch, Watch};
use std::alloc::{AllocError, Global};
use std::test::Fail;

// A round in which node 16 alone does something, in its last phase.
fn round(alloc: Global) -> Result<Journal, AllocError> {
    let mut looks = Vec::new(alloc);
    looks.push(Event {
        node: 16,
        from: None,
    })?;
    Ok(Journal {
        calls: Listed::of(Vec::new(alloc)),
        reaps: Listed::of(Vec::new(alloc)),
        looks: Listed::of(looks),
    })
}

// Gives the watch the journal of one round, of space 3.
fn give<W: Watch>(alloc: Global, watch: &mut W) -> Result<(), AllocError> {
    watch.journal(alloc, 3, &round(alloc)?)
}

// The space of the round, whether it has calls, and how many looks it has.
fn seen(log: &JournalLog, round: usize) -> Option<(u8, bool, usize)> {
    let (space, journal) = log.at(round)?;
    let has_calls = !journal.calls.as_slice().is_empty();
    Some((space, has_calls, journal.looks.as_slice().len()))
}

#[test]
fn a_log_has_what_it_was_given(rt: HostRuntime) -> Result<(), Fail> {
    let mut log = JournalLog::new(rt.alloc());
    give(rt.alloc(), &mut log)?;
    give(rt.alloc(), &mut NoWatch)?;
    assert_eq!(rt; (seen(&log, 0), seen(&log, 1)), (Some((3, false, 1)), None));
    Ok(())
}
