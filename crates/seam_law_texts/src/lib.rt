// SPDX-License-Identifier: MIT

//! Laws of the texts of rounds: a line's text is that of one line, a text is one sequence of lines, and it is that of one round.
//!
//! `specs/TextLines` has the lines of a round as data: the kind of each, what it says, its words and its text. `specs/Words` says what a
//! word is and how words make a line. `specs/Forms` says what a text does not show: a line in form has numbers that their types hold, and
//! values and deeds of the type that the book has of its entity. A later kind of line is one more case of each.
//!
//! For callers, of `proofs/`: `OneLine` and `Content` (a line is one list of words, without a line feed), `Writing` (the text of a round is
//! that of its lines), `Spelling` (the words of a line are words), `Telling` (they tell the line), `Gathering` (a round is what its lines
//! say) `Sequence` (the lines of a round in form)
//! and `Beginnings` (a text begins with one round).
#![tactic(auto)]

mod kinds;
mod laws;

pub use kinds::Kind;
pub use laws::{
    a_line_has_a_text_of_its_own, a_round_is_what_its_lines_say,
    a_rounds_text_is_that_of_its_lines, a_text_begins_with_one_round, a_text_does_not_show_types,
    a_text_is_one_round, a_text_is_one_sequence_of_lines,
};
