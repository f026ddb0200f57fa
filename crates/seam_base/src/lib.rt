// SPDX-License-Identifier: MIT

//! Base nodes: the code whose steps are those of `seam_node_steps`.
//!
//! A base node (BigWorld's BaseApp) keeps the base parts of its entities, of which those with a client are proxies, and for every entity
//! the route to its real; it passes on the calls of its senders (BigWorld Server Overview, "Base entities and proxies").
//!
//! `specs/Parts` has what contracts see of a base part and what each step makes of it, `specs/Marks` which parts are marked as ready,
//! `specs/Nodes` a node by its pieces, and `specs/Machines` what a machine has to say of its steps.
//!
//! A part changes where it lies in its table, and so does a route. The room that was made in a part is not seen: what makes it and what
//! uses it are functions of one body. A mark is made before its part changes, so that nothing can fail then, and is taken away where the
//! part is not ready.
//!
//! An order is taken from the list before it is executed, and goes back to its front where it stays. A node has no more base nodes beside
//! it than settings allow, so that each number of a node fits its type.
#![tactic(auto)]

mod calls;
mod context;
mod mark_set;
mod node;
mod orders;
mod part;
mod parts;
mod routes;
mod updates;

pub use node::Base;
pub use part::BasePart;
pub use seam_table::NoMemoryFor;
