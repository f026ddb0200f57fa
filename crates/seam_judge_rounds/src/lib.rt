// SPDX-License-Identifier: MIT

//! The plain judge of a whole round: point by point, whether what a round prints is legal, computed anew from plain lists. Each function
//! decides one field of *IsRound* (`seam_rule_rounds`), exactly: it answers `true` where the field holds of the standing before the round,
//! of what the round prints and of the standing after it, and `false` where it does not.
//!
//! Of the points about clients, `has_shown` decides *HasShown* and `has_looked` *HasLooked*; `show_rightly` decides one field of one client
//! (*right* of *ShowsClient*), `are_true` a part of it, and `is_nothing_left` one field for all (*nothing_left* of *HasLooked*).
//!
//! For callers, of `proofs/`: `Leaves` (what a legal round leaves).
#![tactic(auto)]

mod after;
mod calls;
mod case;
mod clients;
mod laws;
mod looked;
mod numbers;
mod origins;
mod places;
mod points;
mod shown;
mod truth;
mod verdict;

pub use after::standing_after;
pub use calls::extends_orders;
pub use case::{Case, clients_among};
pub use clients::has_shown;
pub use laws::legal_rounds_leave_what_they_show;
pub use looked::{has_looked, is_nothing_left};
pub use places::{have_cells, have_homes, have_places};
pub use points::{are_bases, are_bounds, are_ghosts, are_homes, is_numbered};
pub use shown::show_rightly;
pub use truth::are_true;
pub use verdict::{Point, judge};
