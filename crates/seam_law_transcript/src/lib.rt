// SPDX-License-Identifier: MIT

//! What a run prints, read off the worlds that it goes through, is a transcript: each round is legal, and the next one may be run.
//!
//! `legal_rounds` has that what one round prints is a legal round, and `whole_runs` the course of a run, from the header to the last line.
//! Each law is a clause of a function that does nothing.
//!
//! Of `specs/`, `Beside`, `Playing` and `Reading` are for `legal_rounds`; `Course`, `Counts`, `Truly`, `Phases`, `OneReal`, `Turns`,
//! `BrokenOff` and `Radius` for `whole_runs`; `Steps` and `TwoRounds` for `worked_rounds`, which has a run of two rounds, event by event.
//! `specs/Prelude` re-exports what crates above cite of this one and of those below it, so that one import names it.
#![tactic(auto)]

mod legal_rounds;
mod whole_runs;
mod worked_rounds;

pub use legal_rounds::{
    a_look_after_the_round_shows_nothing, a_played_round_is_legal,
    a_played_round_is_legal_but_for_clients, a_standing_goes_with_a_world_before_its_round,
    a_standing_goes_with_the_world_after_its_round, client_lines_are_gathered,
    clients_are_shown_base_parts, clients_show_what_they_were_told, entities_can_be_listed,
    the_next_round_has_the_tree_of_the_rules, what_calls_show_of_cell_parts_is_right,
    what_clients_are_shown_is_right, without_a_tick_calls_show_no_cell_parts,
    without_a_tick_each_client_is_shown_one_look,
};
pub use whole_runs::{
    a_course_begins_and_goes_on, a_round_leaves_few_numbers, a_round_may_be_run,
    a_round_may_break_off, a_run_round_is_legal, clients_see_all_within_their_radius,
    each_entity_has_one_real_through_a_round, each_part_executes_in_turn,
};
pub use worked_rounds::{steps_play_a_legal_round, two_rounds_with_a_tick_and_a_death_go_right};
