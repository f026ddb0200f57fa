// SPDX-License-Identifier: MIT

//! Reads the lines of a script, one after another: the book of what was accepted judges each by the definition *the book* of
//! `seam_rule_lines`, and gives what a round brings as a batch for the core.
//!
//! A command holds words until it is judged. The book looks up what they name, so that a line that names no type, sender or method is
//! refused by the book and not for its form. The live entities that have a client are a set, whose size is how many there are: so nothing
//! is counted down. Of the dead the numbers alone are kept, as a set too: scripts choose them up to 2^32, so a row of bits would not do.
//! A call's arguments are a part of the caller's table of words.
//!
//! For callers, of `proofs/`: `Books` (what a book holds with one more entry).
#![tactic(auto)]

mod answers;
mod book;
mod command;
mod count;
mod deeds;
mod entity;
mod header;
mod judging;
mod last;
mod naming;

pub use answers::{Accepted, Refusal};
pub use book::Book;
pub use count::next_count;
pub use header::HeaderLines;
