// SPDX-License-Identifier: MIT

//! Judges what a server printed of scripts, by the plain judge, and prints a line for each text: `legal`, or what is wrong of it first.
//!
//! The input is blocks of lines with an empty line between. `run NAME` begins with a script; the lines after `printed` are what was
//! printed of it. The lines after `change NAME` are a line of that text, and those that are to be in its place, where it comes first: in
//! the whole text, or after the line that a line `after LINE` above it names. The name says what is wrong then. A change without a name is
//! refused, and one whose name another change of its run has. So a row is a script with its text, and with errors planted in that text.
//! The file `stdin` has the worked rows, and scripts that `tools/make-scripts` made from seeds. What is to come of them is in `stdout`.
//!
//! A text is legal where each refusal and each round is printed where it is due, and each round is legal after those before it. The line
//! of a legal text tells also how many of its rounds have the text of the plain round, which takes the calls in the order of the lines.
#![tactic(auto)]

mod follower;
mod round;
mod wrong;

use crate::follower::verdict_on;
use std::alloc::{AllocError, Global};
use std::io;

// A script, its name, and what was printed of it.
#[derive(Clone, Copy)]
struct Run<'a> {
    name: &'a str,
    script: &'a str,
    printed: &'a str,
}

// Other lines in place of a line: the first one after the line `after`. The name says what is wrong of them.
#[derive(Clone, Copy)]
struct Change<'a> {
    name: &'a str,
    after: &'a str,
    line: &'a str,
    by: &'a str,
}

const NO_CHANGE: Change<'static> = Change {
    name: "",
    after: "",
    line: "",
    by: "",
};

fn main(rt: HostRuntime) -> io::Result<()> {
    let text = io::read_to_string(rt.alloc(), rt.reader())?;
    judge_all(&rt, text.trim_end())
}

fn judge_all(rt: &HostRuntime, text: &str) -> io::Result<()> {
    let mut run = Run {
        name: "",
        script: "",
        printed: "",
    };
    let mut names = Vec::new(rt.alloc());
    for block in text.split("\n\n") {
        let (first, rest) = halves(block, '\n');
        let (kind, words) = halves(first, ' ');
        match kind {
            "run" => {
                run = Run {
                    name: words,
                    script: rest,
                    printed: "",
                };
                names.clear();
            }
            "printed" => {
                run.printed = rest;
                print_verdict(rt, &run, run.name, &NO_CHANGE)?;
            }
            "change" => judge_change(rt, &run, &change_of(words, rest), &mut names)?,
            _ => println!(rt; "{kind}: no such block")?,
        }
    }
    Ok(())
}

fn change_of<'a>(name: &'a str, lines: &'a str) -> Change<'a> {
    let (first, rest) = halves(lines, '\n');
    let (after, own) = match first.strip_prefix("after ") {
        Some(after) => (after, rest),
        None => ("", lines),
    };
    let (line, by) = halves(own, '\n');
    Change {
        name,
        after,
        line,
        by,
    }
}

// Prints what comes of a run with a change, or refuses it. `names` are those of the changes of this run so far.
fn judge_change<'a>(
    rt: &HostRuntime,
    run: &Run<'_>,
    change: &Change<'a>,
    names: &mut Vec<&'a str>,
) -> io::Result<()> {
    let name = change.name;
    if name.is_empty() {
        return println!(rt; "change: it has no name");
    }
    if names.iter().any(|other| *other == name) {
        return println!(rt; "change {name}: another has this name");
    }
    names.push(name)?;
    let told = format!(in rt.alloc(); "change {name}")?;
    print_verdict(rt, run, told.as_str(), change)
}

// Prints what comes of a run with a change, after a name.
fn print_verdict(
    rt: &HostRuntime,
    run: &Run<'_>,
    name: &str,
    change: &Change<'_>,
) -> io::Result<()> {
    let alloc = rt.alloc();
    let text = text_with(alloc, run.printed, change)?;
    let verdict = verdict_on(alloc, run.script, text.as_bytes())?;
    println!(rt; "{name}: {verdict}")
}

// A text with a change.
fn text_with(alloc: Global, text: &str, change: &Change<'_>) -> Result<String, AllocError> {
    let mut changed = String::new(alloc);
    let mut is_due = change.after.is_empty();
    for own in text.split('\n') {
        if is_due && own == change.line {
            is_due = false;
            push_lines(&mut changed, change.by)?;
        } else {
            is_due = is_due || own == change.after;
            push_lines(&mut changed, own)?;
        }
    }
    Ok(changed)
}

// Lines and a line feed after them. Of no lines nothing.
fn push_lines(text: &mut String, lines: &str) -> Result<(), AllocError> {
    if lines.is_empty() {
        return Ok(());
    }
    text.push_str(lines)?;
    text.push('\n')
}

// What comes before the first such character in a text, and after it.
fn halves(text: &str, between: char) -> (&str, &str) {
    match text.split_once(between) {
        Some((first, rest)) => (first, rest),
        None => (text, ""),
    }
}
