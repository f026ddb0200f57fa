// SPDX-License-Identifier: MIT

//! What witnesses of a cell tell: the copies that they were told of others, and the updates that they send.
//!
//! A look uses both (`seam_cell_look`). They stand on nothing of a cell, and so are proved beside its parts.
//!
//! For callers, of `proofs/`: `ToldAgain` (what was told stays right) and `UpdateLemmas` (what more updates show).
#![tactic(auto)]

mod told;
mod updates;

pub use told::ToldCopies;
pub use updates::Updates;
