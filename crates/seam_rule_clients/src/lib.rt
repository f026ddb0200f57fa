// SPDX-License-Identifier: MIT

//! What a client shows: the model of the lines that a client is shown, and of the looks that its witness takes.
//!
//! A client's replica is the fold of its lines (*after_lines*). A look brings it up to a flat table, in which every live entity is as it is
//! now (*one_look*). Which lines may come is a relation, one line at a time (*MayShow*), beside which each line is to be true
//! (*ShowsTruth*). The laws of cells and the rounds that are printed both speak of these. (After the witness and the area of interest of
//! the BigWorld Server Overview.)
//!
//! For callers, of `proofs/`: `EachOne` (what holds of each item of a list).
#![tactic(auto)]

mod laws;

pub use laws::{
    lines_follow_lines, look_shows_the_table, no_line_is_older, view_has_hysteresis,
    wrong_lines_may_not_come,
};
