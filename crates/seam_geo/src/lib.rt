// SPDX-License-Identifier: MIT

//! Positions of a space, rectangular areas of it, and how far they lie apart.
//!
//! For callers, of `proofs/`: `Nearest` (the nearest position of an area).
#![tactic(auto)]

mod laws;
mod pos;
mod rect;

pub use laws::triangle_inequality;
pub use pos::{Pos, dist};
pub use rect::Rect;
