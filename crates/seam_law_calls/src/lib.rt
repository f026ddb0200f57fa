// SPDX-License-Identifier: MIT

//! Each entity once, and each of its calls once, over every list of events; and what base nodes do with calls, routes and updates.
//!
//! `moves` has what each step of a node does with one entity; the other modules are laws over those moves. `ones`: exactly one real, and
//! what it is. `ways`: calls find their way to it. `once`: each call to a cell part is executed once and in order. `base_calls`: so is each
//! call to a base part, and nothing that comes to a base node is stray. `told`: how much a witness tells its client.
//!
//! Each law is a clause of a function that does nothing; the head of each module says which modules of `proofs/` are for callers.
//!
//! `specs/` has the moves (`Moves`, `CellMoves`, `BaseMoves`, `PartMoves`, `WitnessMoves`) and what the laws speak of, a file a topic.
//! `HandOverExample` has the run of a world of which what the laws of the one real ask is true. `specs/Prelude` re-exports what crates
//! above cite of this one and of those below it, so that one import names it.
//!
//! The moves of an entity name every case of a step, stray input too, so that a step is a move without a premise. A move of a cell holds
//! the step of the entity's slot as it is, so that no case is written twice.
//!
//! Numbers stay small by a sum that no step raises: a real's version, beat and generation weigh what they are, a waiting call three, an
//! entry of the survey list two and a reap one. So the bound needs neither that there is one real nor that each call comes once.
//!
//! What a witness may tell is bounded by ticks and by the numbers of entities, which are below 2^32 as their type says, and not by the
//! number of events: a look tells any number of updates in one event. The bound is loose, since all that it is for is that lines have
//! numbers.
#![tactic(auto)]

mod base_calls;
mod moves;
mod once;
mod ones;
mod told;
mod ways;

pub use base_calls::{
    a_base_call_is_never_stray, a_clients_updates_come_in_order, a_reap_ends_the_base_part,
    a_witness_tells_only_in_looks, all_base_calls_are_executed, an_unknown_entity_stays_unknown,
    base_numbers_stay_small, each_base_call_waits_once, no_input_of_a_base_node_is_stray,
    nothing_is_stray_at_a_base_node, routes_are_kept,
};
pub use moves::{a_step_is_a_move, an_event_is_a_move};
pub use once::{
    a_cell_call_is_never_stray, all_cell_calls_are_executed, each_cell_call_waits_once,
};
pub use ones::{
    a_loaded_world_has_what_the_laws_ask, a_reap_ends_the_one_real, exactly_one_real,
    holders_are_at_one_place, numbers_stay_small, reals_replay_their_calls,
};
pub use told::{a_witness_tells_few, entities_stay_few, nothing_is_told_without_looks};
pub use ways::{
    a_call_that_comes_finds_a_place, a_round_begins_with_all_ways, calls_find_their_way,
    each_call_on_a_link_finds_a_place,
};
