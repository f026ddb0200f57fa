// SPDX-License-Identifier: MIT

//! What a round has to print, computed from plain lists: each list of a round by the standing that the round leaves, entity by entity and
//! call by call from the first one on. It is slow, and as plain as the definitions of `seam_rule_rounds` that its contracts cite.
//!
//! For callers, of `proofs/`: `ListedLemmas` (lists of entities in rising number).
#![tactic(auto)]

mod entities;
mod entries;
mod lines;
mod places;
mod states;

pub use entities::{created_in, entities_in, is_dead, live_among, made_in, tree_in};
pub use entries::{calls_of, has_balance, has_died, has_joined, has_tick, is_made_by};
pub use lines::{
    base_line_of, bases_of, done_lines_of, ghosts_of, home_line_of, homes_of, public_version,
};
pub use places::{place_before, position_of, positions_past, settled, settled_along};
pub use states::{base_shown, changes_past, public_at, state_at, state_shown};
