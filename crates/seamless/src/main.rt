// SPDX-License-Identifier: MIT

//! Seamless: runs a script of commands from standard input, and prints its rounds to standard output.
#![tactic(auto)]

use seam_advice::{Listener, Speaker, print_fault_position};
use seam_args::{refusal_text, usage_text};
use seam_io::{Patient, RealSink, RealSource};
use seam_watch::NoWatch;
use seam_workers::OpenGate;
use seam_world::{Status, run_seamless};
use std::env;
use std::io::IsTerminal;
use std::process::ExitCode;

fn main(rt: HostRuntime) -> ExitCode {
    let alloc = rt.alloc();
    let talks = rt.stdin().is_terminal() && rt.stdout().is_terminal();
    let mut reader = Listener::new(&rt, alloc, Patient::new(rt.reader(), &rt), talks);
    let mut writer = Speaker::new(Patient::new(std::io::writer(&rt), &rt));
    let status = run_seamless(
        &rt,
        alloc,
        env::args(&rt),
        &mut RealSource::new(&mut reader),
        &mut RealSink::new(&mut writer),
        &OpenGate,
        &mut NoWatch,
    );
    match status {
        Status::WriteFault if writer.is_left() => {}
        _ => explain(&rt, status, reader.kept()),
    }
    ExitCode::from(status.code())
}

// Writes to standard error what a person may do about the end of the run, of whose input these are the first bytes. If that fails, nobody
// reads it.
fn explain(rt: &HostRuntime, status: Status, bytes: &[u8]) {
    match status {
        Status::Done => {}
        Status::Usage => explain_words(rt),
        Status::BadHeader(cause) => {
            let _ = eprintln!(rt; "seamless: {}", status.message());
            print_fault_position(rt, rt.alloc(), cause, bytes);
        }
        _ => {
            let _ = eprintln!(rt; "seamless: {}", status.message());
        }
    }
}

// What is wrong with the words of the command line, and how the program is used.
fn explain_words(rt: &HostRuntime) {
    if let Ok(text) = refusal_text(rt.alloc(), env::args(rt)) {
        let _ = eprint!(rt; "{}", text.as_str());
    }
    let _ = eprint!(rt; "{}", usage_text());
}
