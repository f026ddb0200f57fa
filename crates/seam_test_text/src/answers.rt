// Lines of every command, and the refusals that the book gives to them.
use crate::books::{keep, opened};
use seam_accept::{Accepted, Book, Refusal};
use seam_io::LONGEST_LINE;
use seam_report::push_refusal;
use std::alloc::{AllocError, Global};
use std::test::Fail;

// What a book has accepted before: nothing, 257 entities of which 256 have clients, or as many entities as there may be.
#[derive(Clone, Copy)]
enum Before {
    Nothing,
    Clients,
    Full,
}

// The lines of a script after its header, and what is written of those that are refused and of those that end a round. Then how many
// commands were kept in the round that is open, where that is asked.
struct Script {
    name: &'static str,
    before: Before,
    lines: &'static str,
    refusals: &'static str,
    count: Option<usize>,
}

static SCRIPTS: [Script; 7] = [
    Script {
        name: "one cell",
        before: Before::Nothing,
        lines: "call b1 9 heal 1\ncreate 1 Avatar 100 100\ncreate 1 Avatar 0 0\ncreate 2 Avatar 10000 5\ncreate 2 Gate 10000 5\n\
            create 1 Gate 10000 5\ncreate 1 Gate 10000 -5\ncreate 0 Avatar 5 5\ncreate 2 Avatar 5\ncall b1 1 feel 128\n\
            call b1 1 feel -0\ncall b1 1 feel 1 1\ncall b1 1 fly 1 1\ncall b1 9 fly 1 1\ncall b3 9 fly 1 1\ncall b3 x fly 1 1\n\
            call c1 1 hit 1\ncall b1 1\nmove b1 1 10000 5\nmove b1 1 x 5\nmove b1 9 x 5\nsync now\ncall b1 1 write \"abc\n\
            call b1 1 write \"abc\"\n",
        refusals: "line 1 dead\nline 3 exists\nline 4 outside\nline 5 type\nline 6 exists\nline 7 number\nline 8 number\nline 9 count\n\
            line 10 illtyped\nline 11 illtyped\nline 12 illtyped\nline 13 unknown\nline 14 dead\nline 15 sender\nline 16 number\n\
            line 17 sender\nline 18 count\nline 19 illtyped\nline 20 illtyped\nline 21 dead\nline 22 count\nline 23 words 2\n",
        count: None,
    },
    // clients may ask for exposed methods of cell parts and of their own base part, and move their own entity
    Script {
        name: "clients",
        before: Before::Nothing,
        lines: "client 1\ncreate 1 Avatar 100 100\ncreate 2 Chest 200 200\ncreate 3 Avatar 300 300\nclient\nclient 0\nclient one\n\
            call c1 1 heal 1\nclient 1\nclient 1\ncall c1 1 heal 1\ncall c1 3 heal 1\ncall c1 2 lift\ncall c1 1 promote\n\
            call c1 3 promote\ncall c1 1 mark 1\ncall c1 1 pay 1\ncall c1 1 pay x\ncall c1 1 heal x\nmove c1 1 120 95\n\
            move c1 3 120 95\nmove c1 3 x 95\nmove c1 1 10000 95\ncall c3 3 heal 1\ncall c01 1 heal 1\ncall c9 9 heal 1\n\
            call c1 9 heal 1\n",
        refusals: "line 1 dead\nline 5 count\nline 6 number\nline 7 number\nline 8 sender\nline 10 exists\nline 15 unknown\n\
            line 16 unknown\nline 17 unknown\nline 18 unknown\nline 19 illtyped\nline 21 unknown\nline 22 unknown\nline 23 illtyped\n\
            line 24 sender\nline 25 sender\nline 26 sender\nline 27 dead\n",
        count: None,
    },
    Script {
        name: "looks and the tree",
        before: Before::Nothing,
        lines: "tick\ntick 1\nbalance\nbalance 1\ncut 1 x 5000\ncut 0 x 0\ncut 0 x 10000\ncut 0 y 5000\ncut 9 x -1\ncut x x 5000\n\
            cut 0 x\ncut 0 x 5000\ncut 0 x 5000\ncut 1 z 5000\nshift 0 4000\nshift 3 4000\nshift 1 0\nshift 1 10000\nshift one 4000\n\
            shift 3 x\nshift 1\nshift 1 4000\ncut 0 x 4000\n",
        refusals: "line 2 count\nline 4 count\nline 5 tree 1\nline 6 tree 2\nline 7 tree 2\nline 8 number\nline 9 number\nline 10 number\n\
            line 11 count\nline 13 tree 2\nline 15 tree 1\nline 16 tree 1\nline 17 tree 2\nline 18 tree 2\nline 19 number\n\
            line 20 number\nline 21 count\nline 23 tree 2\n",
        count: None,
    },
    Script {
        name: "deaths",
        before: Before::Nothing,
        lines: "create 1 Avatar 5 5\ncreate 2 Chest 5 5\ncreate 3 Avatar 5 5\nclient 1\ndestroy\ndestroy 0\ndestroy 9\ndestroy 1\n\
            destroy 1\nclient 1\ncall b1 1 heal 1\nmove b1 1 5 5\ncall c1 2 lift\ncreate 1 Avatar 5 5\nclient 3\ndance\n",
        refusals: "line 5 count\nline 6 number\nline 7 dead\nline 9 dead\nline 10 dead\nline 11 dead\nline 12 dead\nline 13 sender\n\
            line 14 exists\nline 16 command\n",
        count: None,
    },
    Script {
        name: "a line is kept or skipped or ends the round",
        before: Before::Nothing,
        lines: "create 1 Avatar 100 100\ncall b1 1 hit 1\n\t# a note\ntock\nsync\n",
        refusals: "line 4 command\nsynced\n",
        count: Some(2),
    },
    Script {
        name: "sixteen cells",
        before: Before::Nothing,
        lines: "cut 0 x 1\ncut 1 x 2\ncut 2 x 3\ncut 3 x 4\ncut 4 x 5\ncut 5 x 6\ncut 6 x 7\ncut 7 x 8\ncut 8 x 9\ncut 9 x 10\n\
            cut 10 x 11\ncut 11 x 12\ncut 12 x 13\ncut 13 x 14\ncut 14 x 15\ncut 15 x 5000\ncut 14 x 5000\n",
        refusals: "line 16 tree 3\nline 17 tree 2\n",
        count: Some(15),
    },
    Script {
        name: "256 clients",
        before: Before::Clients,
        lines: "client 257\nclient 256\nclient 258\ndestroy 7\nclient 257\n",
        refusals: "line 1 full\nline 2 exists\nline 3 dead\n",
        count: None,
    },
];

// It takes the lines of two rounds, so it has a test of its own.
static FULL: Script = Script {
    name: "a full book",
    before: Before::Full,
    lines: "create 65537 Avatar 0 0\ncreate 65537 Avatar 0 10000\n",
    refusals: "line 1 full\nline 2 outside\n",
    count: Some(25_536),
};

// Creates so many entities, of the first number and those that follow.
fn create_all(alloc: Global, book: &mut Book, first: u32, count: u32) -> Result<bool, AllocError> {
    for i in 0..count {
        let line = format!(in alloc; "create {} Avatar 0 0", first.wrapping_add(i))?;
        if !keep(book, line.as_bytes()) {
            return Ok(false);
        }
    }
    Ok(true)
}

// Gives a client to each of the first entities.
fn join_all(alloc: Global, book: &mut Book, count: u32) -> Result<bool, AllocError> {
    for i in 0..count {
        let line = format!(in alloc; "client {}", i.wrapping_add(1))?;
        if !keep(book, line.as_bytes()) {
            return Ok(false);
        }
    }
    Ok(true)
}

// Ends a round, and gives how many entities it creates.
fn end_round(book: &mut Book) -> usize {
    let batch = book.take_batch();
    batch.creates.as_slice().len()
}

// It is full by lines of two rounds, since a round has room for fewer.
fn fill(alloc: Global, book: &mut Book) -> Result<bool, AllocError> {
    let first = create_all(alloc, book, 1, 40_000)?;
    let creates = end_round(book);
    let second = create_all(alloc, book, 40_001, 25_536)?;
    Ok(first && creates == 40_000 && second)
}

// Whether all lines that come before are kept.
fn prepare(alloc: Global, book: &mut Book, before: Before) -> Result<bool, AllocError> {
    match before {
        Before::Nothing => Ok(true),
        Before::Clients => Ok(create_all(alloc, book, 1, 257)? && join_all(alloc, book, 256)?),
        Before::Full => fill(alloc, book),
    }
}

// Takes the lines, which are few and short, and writes of those that are refused, numbered from 1, and of those that end a round.
fn take(book: &mut Book, lines: &str, out: &mut Vec<u8>) -> Result<(), AllocError> {
    let mut number = 0;
    for line in lines.as_bytes().split(|byte| *byte == b'\n') {
        if line.len() > LONGEST_LINE || number >= 1000 {
            return Ok(());
        }
        number += 1;
        match book.accept(line) {
            Ok(Accepted::Synced) => out.extend_from_slice(b"synced\n")?,
            Ok(_) => {}
            Err(Refusal::Cause(cause)) => push_refusal(out, number, cause)?,
            Err(Refusal::NoMemory) => return Err(AllocError),
        }
    }
    Ok(())
}

fn is_text(bytes: &[u8], text: &str) -> bool {
    bytes == text.as_bytes()
}

// Whether the book keeps what comes before, writes of the lines as the row says, and has kept so many then.
fn judge(alloc: Global, book: &mut Book, script: &Script) -> Result<bool, AllocError> {
    let prepared = prepare(alloc, book, script.before)?;
    let mut out = Vec::new(alloc);
    take(book, script.lines, &mut out)?;
    let counted = match script.count {
        Some(count) => book.count() == count,
        None => true,
    };
    Ok(prepared && counted && is_text(&out, script.refusals))
}

fn judged(alloc: Global, script: &Script) -> Result<bool, AllocError> {
    let mut book = opened(alloc)?;
    judge(alloc, &mut book, script)
}

#[test]
fn lines_of_every_command_are_judged(rt: HostRuntime) -> Result<(), Fail> {
    for script in &SCRIPTS {
        let well = judged(rt.alloc(), script)?;
        assert!(rt; well, "{}", script.name);
    }
    Ok(())
}

#[test]
fn a_full_book_creates_no_more(rt: HostRuntime) -> Result<(), Fail> {
    assert!(rt; judged(rt.alloc(), &FULL)?);
    Ok(())
}
