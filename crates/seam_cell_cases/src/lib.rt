// SPDX-License-Identifier: MIT

//! The cases of a cell's step but a look, and its loads, each a free function over the parts of the cell (`seam_cell_parts`).
//!
//! Each does to the parts what the definitions of steps say (`seam_node_steps`), and first makes all that may want memory; if allocation
//! fails,
//! nothing has changed, and the input stays as it was. No step searches all reals or ghosts. Of `proofs/`, `Lookups` (what a look-up
//! finds),
//! `KeptLemmas` (a step keeps the reals in the space) and `StepLemmas` (what a step leaves of the cell) are for callers.
#![tactic(auto)]

mod arriving;
mod calls;
mod loads;
mod reaping;
mod surveying;
mod tasks;

pub use arriving::arrive;
pub use calls::{Called, Held, Turn, execute_turn, hold, may_call, may_execute, may_settle};
pub use loads::{all_queued, begin_round, give_witness, make_real};
pub use reaping::reap;
pub use surveying::survey_task;
pub use tasks::{Tasked, execute_ready};
