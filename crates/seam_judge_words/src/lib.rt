// SPDX-License-Identifier: MIT

//! The words of a printed line, and what they spell: numbers, positions, senders, axes, and values of the types that a type of entities
//! has for them.
//!
//! Each call is total: a word that spells nothing is read as zero, as a default or as the first of all. Where there is something that a
//! word spells, or a line has words, the call gives exactly that.
#![tactic(auto)]

mod values;
mod words;

pub use values::{arguments, group_values, state};
pub use words::{
    axis, long_number, number, position, sender, small_number, word_at, words_from, words_of,
};
