// SPDX-License-Identifier: MIT

//! A legal round is in form: its numbers are those that their types hold, and its values and deeds are those of the types that the book has
//! of the entities. So what a text shows of a legal round is all that there is of it: a text is that of one legal round.
//!
//! `specs/Counting` says what is asked of the standings beside the round: that numbers stay below 2^64, and that the entities which clients
//! were shown before have numbers of 32 bits. `specs/Forms` of `seam_law_texts` says what a form is.
#![tactic(auto)]

mod laws;

pub use laws::{
    a_legal_round_is_in_form, a_legal_round_leaves_homes_in_cells,
    a_legal_round_names_whole_numbers,
};
