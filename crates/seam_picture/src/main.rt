// SPDX-License-Identifier: MIT

//! Draws one round of a script as a picture: `seam_picture [ROUND]` reads a script and what was printed for it on standard input, and
//! writes an SVG of that round, or of the last one, to standard output (`seam_picture_svg`).
//!
//! The status is 0, or 1 for words that are no number, 2 for input that is no script with such a round, 3 and 4 where reading and writing
//! fails, and 6 without memory; then standard error has a line, and standard output nothing, or at 4 the prefix of a picture.
#![tactic(auto)]

use seam_picture_svg::picture_of;
use seam_replay::{Fault, io_fault};
use std::env;
use std::io::{Read, Write, writer};
use std::process::ExitCode;

fn main(rt: HostRuntime) -> ExitCode {
    let Err(fault) = run(&rt) else {
        return ExitCode::from(0);
    };
    // If that fails, nobody reads it.
    let _ = match fault {
        Fault::Usage => eprintln!(rt;
            "seam_picture: usage: seam_picture [ROUND], with a script and what was printed for it on standard input"
        ),
        _ => eprintln!(rt; "seam_picture: {fault}"),
    };
    ExitCode::from(fault.status())
}

fn run(rt: &HostRuntime) -> Result<(), Fault> {
    let wanted = wanted_round(rt)?;
    let picture = read_picture(rt, wanted)?;
    write(rt, &picture)
}

// The picture of a round of standard input.
fn read_picture(rt: &HostRuntime, wanted: Option<usize>) -> Result<Vec<u8>, Fault> {
    let mut text = Vec::new(rt.alloc());
    match rt.reader().read_to_end(&mut text) {
        Ok(_) => picture_of(rt.alloc(), &text, wanted),
        Err(error) => Err(io_fault(error, Fault::NotReadable)),
    }
}

fn write(rt: &HostRuntime, text: &[u8]) -> Result<(), Fault> {
    let mut out = writer(rt);
    match out.write_all(text) {
        Ok(()) => Ok(()),
        Err(_) => Err(Fault::NotWritable),
    }
}

// The round that the words of the command line name, if there are any.
fn wanted_round(rt: &HostRuntime) -> Result<Option<usize>, Fault> {
    let mut words = match env::args(rt) {
        Ok(args) => args.skip(1),
        Err(error) => return Err(io_fault(error, Fault::Usage)),
    };
    let Some(word) = words.next() else {
        return Ok(None);
    };
    match (word.as_str().parse::<usize>(), words.next()) {
        (Ok(number), None) if 0 < number => Ok(Some(number)),
        _ => Err(Fault::Usage),
    }
}
