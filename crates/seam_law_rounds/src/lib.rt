// SPDX-License-Identifier: MIT

//! Worlds between rounds, and the phases of a round that lead from one to the next: reals, their routes, base parts and clients' numbers.
//!
//! `between` has the record between rounds and what a load makes of a world that keeps it, `rounds` the record again at the end of each
//! phase, and `base_parts` both for base parts and their clients. Each law is a clause of a function that does nothing; the head of each
//! module says which modules of `proofs/` are for callers.
//!
//! Of `specs/`, `Between` and `Loaded` are for `between`, `LastPhases` and `Routes` for `rounds`, and `SettledParts` for `base_parts`,
//! whose examples begin in `OpeningExample`. `specs/Prelude` re-exports what crates above cite of this one and of those below it, so that
//! one import names it.
//!
//! A fitting batch's tree is of the settings' space (*IsFitting*): a real is in that space, and its leaf holds it only where the tree
//! divides it.
#![tactic(auto)]

mod base_parts;
mod between;
mod rounds;

pub use base_parts::{
    a_base_part_of_a_loaded_world_is_ready, a_round_of_a_client_ends_between_rounds,
    an_update_finds_its_client, base_calls_of_a_batch_are_executed_once,
    base_parts_go_from_record_to_record, each_client_is_shown_its_updates_in_order,
    nothing_about_a_loaded_entity_is_stray_at_a_base_node,
    the_next_round_of_a_client_ends_between_rounds,
};
pub use between::{
    a_load_keeps_reals_and_makes_new_ones, a_loaded_world_goes_by_its_tree,
    an_entity_keeps_one_real, an_entity_of_a_loaded_world_is_ready,
    calls_of_a_batch_are_executed_once, calls_of_a_batch_are_in_turn,
};
pub use rounds::{
    a_round_goes_from_record_to_record, each_call_finds_its_way, looks_keep_reals,
    no_call_waits_for_the_reaped, reaps_end_reals, who_is_not_there_is_unknown,
};
