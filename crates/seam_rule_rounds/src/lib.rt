// SPDX-License-Identifier: MIT

//! The whole legal round, the transcript that rounds make, and the summary of a run: definitions, and laws of them.
//!
//! It is built on `seam_rule_lines`, whose `Language`, `Book` and `Judging` say what lines mean and what becomes of them. A reader goes on
//! with `FlatTable`, `RoundPlaces` and `Clients` of `specs/` (what is true of entities, where they are held, what clients are shown) and
//! finds all of it in `Round`, whose fields are the points of a legal round, over `Lines` and `Standing`.
//!
//! Then come `Transcript`, which says what is printed, and `Summary`, one line in place of all that. `Texts` has the text of each line.
//! `TwoChests` is a worked round. (Cells, ghosts, witnesses and clients after the BigWorld Server Overview.) `specs/Prelude` re-exports
//! what crates above cite of this one and of those below it, so that one import names it.
//!
//! `laws` has the laws of a round, and `summaries` those of a summary, for the generated input too, each on a function that does nothing.
//! `totals` sums up what rounds print.
//!
//! For callers, of `proofs/`: `Public` (the last of some numbers that pass a test), `Pieces` (what is summed up of pieces) and `Beginning`
//! (how the generated input begins).
#![tactic(auto)]

mod laws;
mod summaries;
mod totals;

pub use laws::{
    a_round_is_legal, clients_of_a_round, lines_are_one_without_a_tick, places_have_hystereses,
    public_version_is_the_last_change, shown_versions_are_public, table_is_one, texts_of_lines,
    who_may_call, wrong_states_are_not_true,
};
pub use summaries::{storm_has_one_summary, summary_is_one};
pub use totals::{Sums, Totals, plus};
