// SPDX-License-Identifier: MIT

//! What a client shows, what it is shown next, and what it may be shown, computed from plain lists: the flat table, one look at it, and the
//! lines about a base part. It is slow, and as plain as the definitions of `seam_rule_clients` and `seam_rule_rounds` that its contracts
//! cite.
#![tactic(auto)]

mod base;
mod look;
mod may;
mod replica;
mod rows;

pub use base::{base_texts, base_versions, shows_base};
pub use replica::{Replica, shown_in};
pub use rows::{Row, other_at, own_at, row_after, row_of, rows_of};
