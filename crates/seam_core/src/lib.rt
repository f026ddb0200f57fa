// SPDX-License-Identifier: MIT

//! A world: cells and base nodes, with a link for each ordered pair of them.
//!
//! A world is opened, and loaded for each phase of a round: a batch, reaps, a look (`specs/Loads` has what a load asks). `step` makes one
//! event. `specs/Worlds` has what holds of it: it is always a world of its header (*IsWorld*), and wherever it comes from by plain loads it
//! obeys the laws of its phase (*KeepsLaws*, over `seam_law_all`).
//!
//! A load of a batch asks what the code needs (*MayLoad*): that the tree is of the header's space, that entities are new and inside it, and
//! that clients are new. So a caller who knows the world alone may load, too. The loads of reaps and of a look ask nothing: the laws say
//! from which worlds their phases go right.
//!
//! Each node begins a round by itself, with all that the batch brings but its orders, and these are then moved into their base nodes. If
//! allocation fails in a load, the world is gone.
//!
//! For callers, of `proofs/`: `Worlds` (an event leaves a world), `Loading` (so does a load; what nodes know of their world) and `Nodes`
//! (what the load of a batch makes of a node).
#![tactic(auto)]

mod laws;
mod loads;
mod node;
mod opening;
mod world;

pub use laws::{a_fitting_batch_may_be_loaded, every_world_obeys_the_laws};
pub use node::Node;
pub use world::World;
