// SPDX-License-Identifier: MIT

//! A whole round and the standing between two rounds, as data: what a server prints of a round, and what the rounds before left.
//!
//! Contracts see a line as the one of the definitions of a legal round (`seam_rule_lines`, `seam_rule_rounds`), and a round as its data.
//! `lines` has the lines, `round` a round of them, `standing` the plain lists of a standing; *standing_of* (`specs/Standings`) is the
//! standing that these lists are. `specs/Codes` says how a place is stored.
//!
//! `same` and `same_lines` tell whether two values are the same, and `copies` and `entries` copy them: calls, states, and what clients are
//! shown. The slow programs that judge a server use both. Of the server's crates `seam_report` alone uses this one: it writes a `Round`.
//!
//! For callers, of `proofs/`: `CellNumbers` (places of cells that a tree can have).
#![tactic(auto)]

mod copies;
mod entries;
mod lines;
mod round;
mod same;
mod same_lines;
mod standing;

pub use copies::{Copied, copies_of};
pub use entries::copies_of_entries;
pub use lines::{BaseLine, ClientLine, DoneLine, GhostLine, HomeLine};
pub use round::Round;
pub use same::{Same, are_same};
pub use standing::{Held, Place, Standing};
