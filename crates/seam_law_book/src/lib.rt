// SPDX-License-Identifier: MIT

//! The script and the core together: what the lines of a script bring to a world, and the book of these lines beside that world, from round
//! to round.
//!
//! `batches` has the laws of the batch that the open round of a book is (*batch_of* of `seam_accept`); `book_and_world` says that a book
//! goes with a world, that what its lines bring may be given to that world, and that both go together again after the round. Each law is a
//! clause of a function that does nothing.
//!
//! Of `specs/`, `Books` and `Bringing` are for `batches`; `Going`, `LookUps`, `Playing`, `ExecutedRound` and `Standings` for
//! `book_and_world`.
//! `specs/Prelude` re-exports what crates above cite of this one and of those below it, so that one import names it.
//!
//! The heads of the two modules say which modules of `proofs/` are for callers.
#![tactic(auto)]

mod batches;
mod book_and_world;

pub use batches::{lines_bring_what_fits, uncreated_numbers_are_untouched};
pub use book_and_world::{
    a_book_goes_with_the_world_after_its_round, an_empty_book_goes_with_an_opened_world,
    base_lines_are_those_of_the_rules, base_parts_are_those_of_the_flat_table,
    each_part_executed_what_was_accepted, ghost_lines_are_those_of_the_rules,
    home_lines_are_those_of_the_rules, places_are_those_that_the_rules_allow,
    reals_are_those_of_the_flat_table, the_table_of_a_world_is_that_of_the_rules,
    what_lines_bring_fits,
};
