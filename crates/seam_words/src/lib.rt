// SPDX-License-Identifier: MIT

//! The words of a line: what is between spaces and tabs, or in quotes.
//!
//! Words are found in any line whose places are numbers of 32 bits: that a line has at most 4,096 bytes is its reader's business. A
//! backslash at the end of a line is a bad escape and no open quote, since its place is left of the line's end. A line is read without
//! memory: its words stand in a table of the caller's.
//!
//! For callers, of `proofs/`: `WordTexts` (a line has one list of words, and none where they are at fault).
#![tactic(auto)]

mod laws;
mod splitting;
mod texts;
mod words;

pub use laws::{fault_is_one, words_are_one};
pub use texts::words_of_line;
pub use words::{MOST_WORDS, WordsError};
