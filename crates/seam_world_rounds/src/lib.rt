// SPDX-License-Identifier: MIT

//! The run of a script, and of a generated input, from the bytes of a source to what is written to a sink: all but the fault line. A script
//! is followed line by line; the round that a line ends is played by the world, and given as text or as sums.
//!
//! All of this owns a world, and stands in one crate, since each crate that does proves anew how a world is let go.
//!
//! Of `proofs/`, `HeaderRuns` (runs that end in the header, or before it) and `StormRuns` (runs of a generated input) are for callers.
#![tactic(auto)]

mod round;
mod run;
mod script;
mod storm;

pub use round::{Output, Playing};
pub use run::run_body;
pub use script::Script;
pub use storm::run_storm;
