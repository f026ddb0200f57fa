// SPDX-License-Identifier: MIT

//! What nodes hold of an entity and send each other: its real, which is moved and never cloned, and the messages.
//!
//! The real is the one copy of an entity that executes calls; ghosts in other cells follow it (BigWorld Server Overview, real and ghost
//! entities). A real's parts are in one box, so that a message with a real is as small as any other. A call that changes it makes room
//! first, and changes then what cannot fail: `prepare` gives the state that the call will leave, and `execute_after` needs no memory.
//!
//! `specs/Reals` has what contracts see of a real, `specs/Orders` what they see of the calls that it holds, `specs/Executing` which calls a
//! real executes and what they leave of it, and `specs/Here` what a node knows beside its entities.
//!
//! What a call leaves of a real, and what a witness tells of what is known, is defined here, below the steps of nodes that cite it
//! (`seam_node_steps`): messages carry a real, and steps speak of messages. A real that looks gives its witness out and takes it back, so
//! that whoever keeps the looks sees the room that `View::plan` made, and a real's value shows none for looks.
//!
//! For callers, of `proofs/`: `HeldLemmas` (calls that are held all pass a test, whatever becomes of their orders) and `OrderLemmas` (which
//! orders and senders have entries).
#![tactic(auto)]

mod cover;
mod fitting;
mod message;
mod numbers;
mod observed;
mod orders;
mod real;
mod room;
mod witness;

pub use fitting::{can_do, fits_cell_part, fits_copy, is_inside};
pub use message::{Msg, Parcel};
pub use numbers::{is_small, may_rise};
pub use observed::Observed;
pub use orders::Orders;
pub use real::{Did, Real, ghost_copy};
pub use room::reserve_one;
pub use seam_table::NoMemoryFor;
pub use witness::Witness;
