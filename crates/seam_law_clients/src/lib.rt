// SPDX-License-Identifier: MIT

//! What clients are shown, over every list of events.
//!
//! `looks` says that a look in a quiet world is one look at the flat table; `shown`, that a client is shown nothing that its entity never
//! was, and nothing older than before; `clients` puts the phases of a round together. Each law is a clause of a function that does nothing.
//! The head of each module says which modules of `proofs/` are for callers.
//!
//! Of `specs/`, `Tables`, `Witnesses` and `Phases` are for `looks`, `Fits`, `Telling` and `RoundTruths` for `shown`, `Clients` and
//! `BaseLines` for `clients`; `Crossing` is a worked round. `specs/Prelude` re-exports what crates above cite of this one and of those
//! below it, so that one import names it.
//!
//! A look whose updates would pass the limit of numbers is not made, so that each witness looks once asks for room (*HaveRoomToLook*); a
//! bound on what a witness has told would hold where no look is made, too.
//!
//! The laws name their truths, since a clause cannot range over them: that of a look (*truth_of_look*), what cells knew (*known_between*),
//! what was so in a round (*true_between*). Base lines are told by the calls that the part executed, each of which makes a version.
//!
//! Three wrong looks were tried in place of that of `seam_node_steps`. One that forgets what those that left were shown at is refused by
//! `a_look_is_shown_rightly`; one that shows others an entity's own values, and one that sees no copies, by
//! `a_look_is_one_look_at_the_table`.
#![tactic(auto)]

mod clients;
mod looks;
mod shown;

pub use clients::{
    a_reaped_client_is_shown_no_more, an_entity_crosses_between_two_witnesses,
    an_update_without_a_client_never_comes, clients_go_from_record_to_record,
    no_input_of_a_base_node_is_stray_in_any_phase,
    nothing_is_stray_at_a_base_node_in_the_last_phases, the_base_part_is_shown_at_each_change,
    who_is_not_there_is_not_shown,
};
pub use looks::{
    a_client_fits_after_a_look, a_look_is_one_look_at_the_table, clients_fit_after_the_looks,
    clients_of_an_opened_world_fit, each_witness_looks_once, the_table_has_each_real,
};
pub use shown::{
    a_client_fits_where_calls_end, a_client_is_shown_rightly, a_further_look_shows_nothing,
    a_look_is_shown_rightly, a_witness_tells_rightly, clients_of_a_round_are_shown_rightly,
    each_client_is_shown_one_look,
};
