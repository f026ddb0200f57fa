// SPDX-License-Identifier: MIT

//! Rounds of a world.
//!
//! A round has three phases: the calls of its batch, the reaps of the entities that die in it, and the looks of the witnesses that are
//! left. `run_calls` runs the first and `run_ends` the other two, so that what the calls did can be read where they ended. `run_round` runs
//! all three.
//!
//! In each phase events happen until the world is quiet. The first of them happen on the caller's thread. Where more are left and there are
//! several workers, these go on side by side in threads (`seam_workers`). What is left then happens on the caller's thread again
//! (`seam_net_runs`). No clause says that threads start. Which events happened is the round's journal, for who watches (`seam_watch`).
//!
//! `count_holders` looks at a world between two events: in how many places an entity's real is.
#![tactic(auto)]

mod holders;
mod laws;
mod round;
mod workers;

pub use holders::count_holders;
pub use laws::a_worked_round_may_run;
pub use round::{Called, Ended, run_calls, run_ends, run_phase, run_round};
pub use workers::Workers;
