// SPDX-License-Identifier: MIT

//! How long the phases of a round last, and by how much a round raises the numbers that only rise.
//!
//! `ranks` bounds how often a call is passed on, and `measure` how many events a phase takes, in any order. `phases` has that each phase of
//! a round ends, by what worlds keep between rounds alone, and `growth` bounds the numbers. Each law is a clause of a function that does
//! nothing.
//!
//! Of `specs/`, `Ranks` and `Passes` are for `ranks`; `Weights`, `Events`, `Phases` and `Looking` for `measure`; `Records` has what bounds
//! the phases of a world's next round; `Most` is for `growth`. `specs/Prelude` re-exports what crates above cite of this one and of those
//! below it, so that one import names it.
//!
//! That base parts and clients hold nothing (*HoldsNothing*) is kept beside the records: that of base parts says nothing of a part whose
//! entity is gone. What there is to look at is a list of entities where a phase begins (*LooksAmong*), since a view may name one that is
//! reaped in the round.
//!
//! A tick that comes to a cell weighs by the witnesses of that cell: with one weight for all cells the bound of the looks would be sixteen
//! times as great.
#![tactic(auto)]

mod growth;
mod measure;
mod phases;
mod ranks;

pub use growth::a_round_raises_numbers_little;
pub use measure::{
    a_longest_run_is_quiet, a_round_ends, a_round_without_ticks_ends,
    a_run_is_no_longer_than_its_start_weighs, an_event_lowers_the_weight,
    an_event_of_a_moving_round_lowers_the_weight, an_opened_world_has_what_the_laws_ask,
    looks_are_about_what_there_is, looks_end, nothing_held_goes_from_record_to_record, reaps_end,
    what_is_seen_is_held,
};
pub use phases::{
    a_round_keeps_the_records, a_round_keeps_what_bounds_it, each_phase_of_a_round_ends,
};
pub use ranks::{
    a_call_is_passed_on_at_most_as_often_as_its_real_is_handed_over,
    a_call_that_is_passed_on_climbs, a_generation_counts_hand_overs,
    ranks_rise_with_hand_overs_alone,
};
