// SPDX-License-Identifier: MIT

//! The world server: from commands on a source to the printed rounds on a sink.
//!
//! The watch is given a round's journal as the round ends, before its text is written. So where memory is wanting for the journal, neither
//! is there; and after a fault of the sink the journals are those of the transcript that the status tells of, which is longer than what was
//! written. If allocation fails in a round, the world is gone, and the script has none from then on.
#![tactic(auto)]

mod laws;
mod run;

pub use laws::a_storm_has_one_summary;
pub use run::run_seamless;
pub use seam_world_ends::Status;
