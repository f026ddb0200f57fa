// SPDX-License-Identifier: MIT

//! What a witness of a cell sees: the reals and the copies that are near it, each entity once, and what its client may be told of one.
//!
//! A copy counts only where the real is not here. Others are told of an entity what others may see of it alone. These stand in a crate of
//! their own for its edits: a witness that sees no copies, and a private value that is told to other clients.
//!
//! For callers, of `proofs/`: `Merges` (two lists in rising number as one).
#![tactic(auto)]

mod known;
mod merging;

pub use known::known_copy;
pub use merging::{joined, see};
