// SPDX-License-Identifier: MIT

//! What is said of a text beside an input: that it is a transcript of the input, or where and in what it first fails.
//!
//! `specs/Verdicts` says what each verdict says of a text, `specs/Due` what comes next in a transcript, and `specs/Kept` what holds of each
//! standing on the way.
//!
//! For callers, of `proofs/`: `Courses` (what is printed for lines, up to something that is due, is one text).
#![tactic(auto)]

mod laws;
mod verdict;

pub use laws::{
    a_legal_round_does_not_fail, a_text_fails_at_one_place, a_text_fails_in_one_point,
    a_text_has_one_verdict,
};
pub use verdict::Verdict;
