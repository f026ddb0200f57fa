// SPDX-License-Identifier: MIT

//! The journals of rounds, and who watches them: which events happened, phase by phase, for whoever wants to replay a round.
//!
//! A journal has a field for each phase of a round, so that no phase is a number. A watch copies what it keeps, since the round that made
//! the journal still prints it.
//!
//! For callers, of `proofs/`: `Told` (journals that are given, some after others).
#![tactic(auto)]

mod journal;
mod watch;

pub use journal::Journal;
pub use watch::{JournalLog, NoWatch, Watch};
