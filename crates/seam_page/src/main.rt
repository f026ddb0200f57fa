// SPDX-License-Identifier: MIT

//! Makes a page of a script: `seam_page` reads a script and what was printed for it on standard input, and writes one file of HTML to
//! standard output, in which a browser shows all rounds (`seam_page_html`).
//!
//! The status is 0, or 1 where there are words on the command line, 2 for input that is no script with a round, 3 and 4 where reading and
//! writing fails, and 6 without memory; then standard error has a line, and standard output nothing, or at 4 the prefix of a page.
#![tactic(auto)]

use seam_page_html::page_of;
use seam_replay::{Fault, io_fault};
use std::env;
use std::io::{Read, Write, writer};
use std::process::ExitCode;

fn main(rt: HostRuntime) -> ExitCode {
    let Err(fault) = run(&rt) else {
        return ExitCode::from(0);
    };
    // If that fails, nobody reads it.
    let _ = match fault {
        Fault::Usage => eprintln!(rt;
            "seam_page: usage: seam_page, with a script and what was printed for it on standard input"
        ),
        _ => eprintln!(rt; "seam_page: {fault}"),
    };
    ExitCode::from(fault.status())
}

fn run(rt: &HostRuntime) -> Result<(), Fault> {
    refuse_words(rt)?;
    let page = read_page(rt)?;
    write(rt, &page)
}

// There are no words but the program's name.
fn refuse_words(rt: &HostRuntime) -> Result<(), Fault> {
    let mut words = match env::args(rt) {
        Ok(args) => args.skip(1),
        Err(error) => return Err(io_fault(error, Fault::Usage)),
    };
    match words.next() {
        Some(_) => Err(Fault::Usage),
        None => Ok(()),
    }
}

// The page of standard input.
fn read_page(rt: &HostRuntime) -> Result<Vec<u8>, Fault> {
    let mut text = Vec::new(rt.alloc());
    match rt.reader().read_to_end(&mut text) {
        Ok(_) => page_of(rt.alloc(), &text),
        Err(error) => Err(io_fault(error, Fault::NotReadable)),
    }
}

fn write(rt: &HostRuntime, text: &[u8]) -> Result<(), Fault> {
    let mut out = writer(rt);
    match out.write_all(text) {
        Ok(()) => Ok(()),
        Err(_) => Err(Fault::NotWritable),
    }
}
