// SPDX-License-Identifier: MIT

//! The values that properties and arguments hold: whole numbers and short texts, their nine types, and the one way in which each value is
//! spelled.
//!
//! A whole number of any length is a number; one that no type holds is out of range. That a value is in range is part of *Fits* and not of
//! the value, since a variant of a public enum can carry no condition. Numbers are read without memory, and only a text is allocated.
//!
//! For callers, of `proofs/`: `Decimals` (digits and their numbers), `NumberWords` (words that are numbers) and `Answers` (from the parts'
//! answers to the whole's).
#![tactic(auto)]

mod laws;
mod numbers;
mod reading;
mod texts;
mod types;
mod values;
mod writing;

pub use laws::spelling_is_one_to_one;
pub use numbers::{positive_number, whole_number};
pub use reading::read_number;
pub use texts::ShortText;
pub use types::ValueType;
pub use values::{Value, ValueError};
pub use writing::push_number;
