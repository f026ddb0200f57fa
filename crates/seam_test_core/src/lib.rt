// SPDX-License-Identifier: MIT

//! Tests of nodes and of worlds of them. They stand in one crate, since each crate that owns cells proves anew how they are let go.
//!
//! Of nodes: the cases of the steps of cells and base nodes, what a node sends and has after each input, with ample memory; and the order
//! of a queue of entities. Of worlds: worked rows event by event, the steps of workers, and a round. A world of the standard settings has
//! an entity at a given place, gets orders of base nodes, and makes events one at a time. Where entities and their copies end, and what
//! clients are shown, is in `rows/`.
#![tactic(auto)]

#[cfg(test)]
mod bases;
#[cfg(test)]
mod cells;
#[cfg(test)]
mod events;
#[cfg(test)]
mod feeding;
#[cfg(test)]
mod first;
#[cfg(test)]
mod orders;
#[cfg(test)]
mod queues;
#[cfg(test)]
mod rounds;
#[cfg(test)]
mod told;
#[cfg(test)]
mod workers;
