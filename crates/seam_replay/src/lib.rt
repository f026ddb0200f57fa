// SPDX-License-Identifier: MIT

//! A run that is told again: a script and what was printed for it, round by round, for programs that draw them. Why there is no such round
//! is told in words, with the status that those programs end with.
#![tactic(auto)]

mod fault;
mod replay;

pub use fault::{Fault, io_fault};
pub use replay::{Played, Replay};
