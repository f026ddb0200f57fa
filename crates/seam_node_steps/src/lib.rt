// SPDX-License-Identifier: MIT

//! What the steps of cells and base nodes mean: definitions, and laws about them. Nothing here runs.
//!
//! A cell (BigWorld's CellApp) has reals and ghosts, and hands reals over; a base node (BaseApp) has base parts and proxies, and passes
//! calls on.
//!
//! `specs/Cells` and `specs/Bases` have what contracts see of both, and their steps. Each case of a step is one function, in `CellCases`,
//! `CellLooks`, `Settle` and `BaseCases`. `Nodes` has worlds of nodes, `Loads` what a world is as it is opened and what loads make of it,
//! `Valid` what is true of every node.
//!
//! `Slots`, `Holders` and `Knowing` are about one entity: what a cell has of it, who has its real, what a cell knows of it. `Maps` has
//! finite maps by number. `Rows` says what a worked row is, and `OneStep`, `EarlyCall`, `LateGhost` and `ViewRounds` are such rows.
//!
//! `specs/Prelude` re-exports what crates above cite of this one and of those below it, so that one import names it.
//!
//! The laws stand in `laws` (every step of every node), `base_steps`, `cell_steps` and `look_steps` (single steps, exactly), `loads`,
//! `known` (what a cell knows of others) and `rows` (the worked rows).
//!
//! What a cell has of one entity is a function of its three maps (*slot_of*). Stray input is one test for each kind of input, made first:
//! input that meets no case, or a case whose conditions do not hold, changes nothing. A load's points have an order: base nodes begin the
//! round, entities are created, clients attached, cells begin the round, and then the orders are given.
//!
//! For callers, of `proofs/`: `Slots` (a step of one entity's slot changes that slot alone), `Peers`, `ValidBases` and `ValidCells` (a step
//! keeps what a node knows, and what is true of it), `Targets` (it sends to nodes of the net), `Quiet` (when a world is quiet), `Sorted`
//! (what is found in a list in rising number), `Knowing` (what is known of an entity), `Tables` (how worlds of a few entities compute),
//! `Walks` (the checker that walks worked rows), and `Early` and `Views` (the worlds of two of them).
#![tactic(auto)]

pub mod base_steps;
pub mod cell_steps;
mod known;
pub mod laws;
pub mod loads;
pub mod look_steps;
pub mod rows;

pub use known::a_cell_knows_its_reals_and_copies;
