// SPDX-License-Identifier: MIT

//! Ghosts and places, over every list of events.
//!
//! `stray_messages` says that no input of a cell is stray; `truths`, that each copy is what its entity was at the copy's version; `places`,
//! where entities and their haunts are; `newest`, that copies are what their reals want once the world is quiet. Each law is a clause of a
//! function that does nothing. The head of each module says which modules of `proofs/` are for callers.
//!
//! Of `specs/`, `Tasks` is for `stray_messages`, `Truths`, `GhostMoves` and `Entries` for `truths`, `RealPlaces` for `places`, and `Copies`
//! for `newest`. `specs/Prelude` re-exports what crates above cite of this one and of those below it, so that one import names it.
//!
//! The way of a place has three forms: settled from the start on, settled from the first call on, and not settled yet while the survey list
//! has the entity. "Settled from the start on, or still on the list" does not hold: a call that comes before the survey may hand the real
//! over, which takes it off the list.
//!
//! Of a cell's book and all that is on its way there, the newest entry is what the real wants. What is said of one link or of one book is
//! false: the newest entry may come from a cell where the real was, a cell that is no haunt may have a copy, and a copy may come where the
//! real is.
//!
//! The record of copies says two things more than that haunts have the present copy: the cell of a real is none of its haunts, and no cell
//! has a copy of an entity without a holder. The next round needs both.
#![tactic(auto)]

mod newest;
mod places;
mod stray_messages;
mod truths;

pub use newest::{
    a_worked_round_keeps_the_records, copies_go_from_record_to_record,
    each_cell_is_told_what_the_real_wants, ghosts_of_a_round_are_true, near_entities_are_known,
    no_cell_keeps_a_copy_of_the_reaped, no_copy_comes_in_the_last_phases, quiet_means_settled,
    the_newest_route_leads_to_the_real,
};
pub use places::{
    a_load_begins_at_former_places, a_round_keeps_the_record_of_places,
    a_round_leaves_right_places, places_are_near, places_are_on_their_way, places_are_right,
    the_last_phases_leave_places, who_is_not_listed_needs_no_settling, who_may_be_seen_is_known,
};
pub use stray_messages::{no_message_to_a_cell_is_stray, no_task_of_a_cell_is_stray};
pub use truths::{copies_never_grow_older, ghosts_are_true, no_news_comes_to_the_real};
