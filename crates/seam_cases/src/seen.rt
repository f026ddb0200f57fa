// When the answers to lines are written.
use crate::runs::{GOOD, Run, Streams, play};
use seam_io::{Patient, RealSink, RealSource};
use seam_watch::NoWatch;
use seam_workers::OpenGate;
use seam_world::{Status, run_seamless};
use std::alloc::{AllocError, Global};
use std::cell::Cell;
use std::io;
use std::io::{ErrorKind, Read, Write};
use std::test::Fail;

// Of three calls in a row the first is interrupted, the second would block, and only the third is done.
fn refusal(calls: &mut u32) -> Option<ErrorKind> {
    *calls = calls.wrapping_add(1);
    match *calls % 3 {
        1 => Some(ErrorKind::Interrupted),
        2 => Some(ErrorKind::WouldBlock),
        _ => None,
    }
}

// A screen that counts the lines that it shows.
#[derive(Drop)]
struct Screen<'a> {
    shown: &'a Cell<u32>,
    calls: u32,
}

impl Write for Screen<'_> {
    fn write(&mut self, buf: &[u8]) -> io::Result<usize> {
        if let Some(kind) = refusal(&mut self.calls) {
            return Err(kind.into());
        }
        for byte in buf {
            if *byte == b'\n' {
                self.shown.set(self.shown.get().saturating_add(1));
            }
        }
        Ok(buf.len())
    }

    fn flush(&mut self) -> io::Result<()> {
        Ok(())
    }
}

// A person who types the end of the header and three lines, each only after all lines before it were answered, and fails otherwise.
#[derive(Drop)]
struct Typist<'a> {
    shown: &'a Cell<u32>,
    typed: u32,
    calls: u32,
}

impl Read for Typist<'_> {
    fn read(&mut self, buf: &mut [u8]) -> io::Result<usize> {
        if let Some(kind) = refusal(&mut self.calls) {
            return Err(kind.into());
        }
        let line = match self.typed {
            0 => b"%%\n".as_slice(),
            1 | 2 | 3 => b"tock\n".as_slice(),
            _ => b"".as_slice(),
        };
        if self.shown.get() != self.typed.saturating_sub(1) || buf.len() < line.len() {
            return Err(ErrorKind::Other.into());
        }
        buf[..line.len()].copy_from_slice(line);
        self.typed = self.typed.saturating_add(1).min(4);
        Ok(line.len())
    }
}

// Interrupted calls, and those that would block, are made again.
#[test]
fn an_answer_is_written_before_the_next_read(rt: HostRuntime) -> Result<(), Fail> {
    let shown = Cell::new(0);
    let typist = Typist {
        shown: &shown,
        typed: 0,
        calls: 0,
    };
    let screen = Screen {
        shown: &shown,
        calls: 0,
    };
    let mut input = RealSource::new(Patient::new(typist, &rt));
    let mut out = RealSink::new(Patient::new(screen, &rt));
    let status = run_seamless(
        &rt,
        rt.alloc(),
        Ok(Vec::new(rt.alloc()).into_iter()),
        &mut input,
        &mut out,
        &OpenGate,
        &mut NoWatch,
    );
    assert_eq!(rt; (status, shown.get()), (Status::Done, 3));
    Ok(())
}

// Lines that are no commands.
fn tocks(alloc: Global, count: u32) -> Result<String, AllocError> {
    let mut script = String::from_str(alloc, "%%\n")?;
    for _ in 0..count {
        script.push_str("tock\n")?;
    }
    Ok(script)
}

// The second write would fail.
#[test]
fn the_answers_to_the_lines_of_one_read_are_one_write(rt: HostRuntime) -> Result<(), Fail> {
    let script = tocks(rt.alloc(), 200)?;
    let run = Run {
        words: &[],
        script: script.as_bytes(),
        streams: Streams {
            bad_writes: &[2],
            ..GOOD
        },
    };
    let (status, out) = play(&rt, rt.alloc(), &run, &OpenGate, &mut NoWatch)?;
    let begins = out.bytes().starts_with(b"line 2 command\nline 3 command\n");
    assert_eq!(rt;
        (status, begins, out.bytes().len()),
        (Status::Done, true, 8 * 15 + 90 * 16 + 102 * 17)
    );
    Ok(())
}
