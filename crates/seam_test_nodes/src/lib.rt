// SPDX-License-Identifier: MIT

//! Tests of the crates that nodes are made of: definitions, senders, items in order, tables, copies and reals; and of space: trees of
//! cells, who is near, and views. They stand here, since a crate with tests of its own is proved twice. Haunts and balanced boundaries are
//! in `rows/`.
#![tactic(auto)]

#[cfg(test)]
mod builtin;
#[cfg(test)]
mod defs;
#[cfg(test)]
mod ghosts;
#[cfg(test)]
mod memory;
#[cfg(test)]
mod order;
#[cfg(test)]
mod ranges;
#[cfg(test)]
mod real;
#[cfg(test)]
mod senders;
#[cfg(test)]
mod tables;
#[cfg(test)]
mod trees;
#[cfg(test)]
mod views;
