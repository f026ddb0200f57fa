//! How another program calls the server: it runs a script that lies in memory, follows its journal, and looks at what the client of entity
//! 1 was shown. `docs/LIBRARY.md` leads through it.

use seam_io::{RealSink, RealSource};
use seam_watch::JournalLog;
use seam_workers::OpenGate;
use seam_world::{Status, run_seamless};
use std::alloc::{AllocError, Global};
use std::env::Args;
use std::test::Fail;

const SCRIPT: &[u8] = b"\
%%
cut 0 x 5000
create 1 Avatar 4900 100
client 1
create 2 Avatar 5150 100
sync
move b1 2 4980 100
call c1 2 hit 5
";

// How the lines begin that the client of entity 1 is shown.
const SHOWN: &[u8] = b"to 1 ";

// Its base part and its own entity; avatar 2, which enters its view across the border; and what that is after a move and a hit.
const WANTED: &[u8] = b"\
to 1 1 base 0 rank=1
to 1 2 own 0 4900 100 hp=100 mana=50 xp=0
to 1 3 enter 2 Avatar 0 5150 100 hp=100 mood=0
to 1 4 set 2 2 4980 100 hp=95 mood=0
";

// Words of a command line as the system answers with them: here the program's name alone.
fn name_alone(alloc: Global) -> Result<Args, AllocError> {
    let mut words = Vec::new(alloc);
    words.push(String::from_str(alloc, "example")?)?;
    Ok(words.into_iter())
}

// The lines that the client of entity 1 was shown.
fn shown(alloc: Global, printed: &[u8]) -> Result<Vec<u8>, AllocError> {
    let mut text = Vec::new(alloc);
    for line in printed.split(|byte| *byte == b'\n') {
        if line.starts_with(SHOWN) {
            text.extend_from_slice(line)?;
            text.push(b'\n')?;
        }
    }
    Ok(text)
}

// Whether the round has a journal with events of its calls.
fn has_calls(journals: &JournalLog, round: usize) -> bool {
    match journals.at(round) {
        Some((_, journal)) => !journal.calls.as_slice().is_empty(),
        None => false,
    }
}

#[test]
fn a_script_in_memory_is_run(rt: HostRuntime) -> Result<(), Fail> {
    let alloc = rt.alloc();
    let words = name_alone(alloc)?;
    // What is printed goes into memory that grows.
    let mut printed = Vec::new(alloc);
    let mut journals = JournalLog::new(alloc);
    let status = run_seamless(
        &rt,
        alloc,
        Ok(words),
        &mut RealSource::new(SCRIPT),
        &mut RealSink::new(&mut printed),
        &OpenGate,
        &mut journals,
    );
    let calls = (has_calls(&journals, 0), has_calls(&journals, 1));
    let text = shown(alloc, &printed)?;
    assert_eq!(rt;
        (status, calls, text.as_slice()),
        (Status::Done, (true, true), WANTED)
    );
    Ok(())
}
