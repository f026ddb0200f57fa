use seam_args::{ArgsError, Options, read_words, refusal_text};
use std::alloc::Global;
use std::env::Args;
use std::io;
use std::test::Fail;

// What the system answers with: the program's name, and then these words.
fn answer(alloc: Global, texts: &[&str]) -> Result<io::Result<Args>, Fail> {
    let mut words = Vec::new(alloc);
    words.push(String::from_str(alloc, "seamless")?)?;
    for text in texts.iter() {
        words.push(String::from_str(alloc, text)?)?;
    }
    Ok(Ok(words.into_iter()))
}

fn options(workers: u32, turns: u32, trace: bool, storm: Option<u32>) -> Options {
    Options {
        workers,
        turns,
        trace,
        storm,
        help: false,
        version: false,
    }
}

// The options of no words, but for these two.
fn asks(help: bool, version: bool) -> Options {
    Options {
        workers: 4,
        turns: 1_000_000,
        trace: false,
        storm: None,
        help,
        version,
    }
}

fn read(alloc: Global, texts: &[&str]) -> Result<Result<Options, ArgsError>, Fail> {
    Ok(read_words(alloc, answer(alloc, texts)?))
}

const REFUSED: Result<Options, ArgsError> = Err(ArgsError::Usage);

// Words give their options or are refused: how many rows are kept to before the first one that is not, of how many.
fn kept_rows(alloc: Global) -> Result<(usize, usize), Fail> {
    let mut kept = 0usize;
    let rows = [
        ([].as_slice(), Ok(options(4, 1_000_000, false, None))),
        (
            &["--workers=2", "--trace"],
            Ok(options(2, 1_000_000, true, None)),
        ),
        (
            &["--turns", "1000000", "--workers", "16"],
            Ok(options(16, 1_000_000, false, None)),
        ),
        (
            &["--storm=1", "--turns=1"],
            Ok(options(4, 1, false, Some(1))),
        ),
        (
            &["--storm", "1000000"],
            Ok(options(4, 1_000_000, false, Some(1_000_000))),
        ),
        (&["--workers", "17"], REFUSED),
        (&["--workers=0"], REFUSED),
        (&["--turns", "x"], REFUSED),
        (&["--turns=1000001"], REFUSED),
        (&["--storm=0"], REFUSED),
        (&["--storm", "1000001"], REFUSED),
        (&["--workers", "2", "--workers", "2"], REFUSED),
        (&["--trace", "--trace"], REFUSED),
        (&["--trace=true"], REFUSED),
        (&["--workers"], REFUSED),
        (&["--help"], Ok(asks(true, false))),
        (&["-h"], Ok(asks(true, false))),
        (&["--version"], Ok(asks(false, true))),
        (&["--version", "--help"], Ok(asks(true, true))),
        (&["--help", "--world"], REFUSED),
        (&["-h", "--help"], REFUSED),
        (
            &["--workers=+04", "--"],
            Ok(options(4, 1_000_000, false, None)),
        ),
        (&["--world"], REFUSED),
        (&["world"], REFUSED),
    ];
    for (texts, wanted) in rows.iter() {
        if read(alloc, texts)? != *wanted {
            return Ok((kept, rows.len()));
        }
        kept = kept.saturating_add(1);
    }
    Ok((kept, rows.len()))
}

// An answer without words.
fn none(kind: io::ErrorKind) -> io::Result<Args> {
    Err(io::Error::from(kind))
}

fn without_words_are_no_options(alloc: Global) -> bool {
    let no_text = read_words(alloc, none(io::ErrorKind::InvalidData));
    let no_memory = read_words(alloc, none(io::ErrorKind::OutOfMemory));
    (no_text, no_memory) == (REFUSED, Err(ArgsError::NoMemory))
}

// A refusal names the word: how many rows are kept to before the first one that is not.
fn kept_refusals(alloc: Global) -> Result<usize, Fail> {
    let mut kept = 0usize;
    let rows = [
        (["--workers", "17"], "'17'"),
        (
            ["a.txt", "--trace"],
            "a.txt: input comes on standard input: seamless < a.txt\n",
        ),
        (
            ["", "--trace"],
            "'': input comes on standard input: seamless < FILE\n",
        ),
        (["--trace", "--trace"], "'--trace'"),
    ];
    for (texts, part) in rows.iter() {
        let text = refusal_text(alloc, answer(alloc, texts)?)?;
        if !text.contains(*part) {
            return Ok(kept);
        }
        kept = kept.saturating_add(1);
    }
    Ok(kept)
}

#[test]
fn words_give_their_options_or_are_refused_by_name(rt: HostRuntime) -> Result<(), Fail> {
    let (kept, rows) = kept_rows(rt.alloc())?;
    let refusals = kept_refusals(rt.alloc())?;
    let wordless = without_words_are_no_options(rt.alloc());
    assert_eq!(rt; (kept, refusals, wordless), (rows, 4, true));
    Ok(())
}
