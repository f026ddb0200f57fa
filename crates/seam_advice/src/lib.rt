// SPDX-License-Identifier: MIT

//! What a person at a terminal is told on standard error: what to type, the commands, and where a header is at fault.
//!
//! None of it is in the text of a run. The two streams here pass on what their inner ones answer, and note what the advice needs: the first
//! bytes of the input, and whether the reader of the output has gone away.
#![tactic(auto)]

mod commands;
mod lines;
mod places;
mod streams;

pub use commands::COMMANDS_TEXT;
pub use places::print_fault_position;
pub use streams::{Listener, Speaker};
