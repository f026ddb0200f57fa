// SPDX-License-Identifier: MIT

//! Judges a text beside an input: that it is a transcript of the input, or where and in what it first fails.
#![tactic(auto)]

mod head;
mod input;
mod judging;

pub use judging::judge;
