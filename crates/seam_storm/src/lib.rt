// SPDX-License-Identifier: MIT

//! The generated input: the text of a world of avatars and of many calls, made as it is read.
//!
//! Draws of a linear congruence choose the lines, so the text of a number of lines is the same at each run.
#![tactic(auto)]

mod lines;
mod source;

pub use source::{MAX_STORM_LINES, StormSource};
