// SPDX-License-Identifier: MIT

//! A run as a page: one file of HTML that needs nothing else. It has the data of all rounds, and a script that draws them.
//!
//! The data are lines of text, of which most are as they were printed. What did not change is left out, and so is what follows from the
//! moves. Its lines:
//!
//! - `space SIZE RADIUS`: the size of the space, and how far views reach; first of all.
//! - `round R`: a round begins.
//! - `area X Z X Z ..`: the least and the greatest corner of each cell, where they changed.
//! - `D S X Z`, without a word: a sender moved an entity, whose number is D more than in the line before it of this kind and round, or D.
//!   A D of 1 is left out. S is the number of a base node, or `c` and the number of the entity of a client.
//! - `did`, `dob`, `to`: as printed.
//! - `new E TYPE`: an entity that was not there before; its `home` line comes next.
//! - `home`: as printed, where it is other than the last one with the calls of this round and the place of its last move.
//! - `cell E CELL`: the same, where only the cell is other.
//! - `gone E`: an entity that is there no more.
//! - `base`: as printed, where it changed.
//! - `ghosts E CELL ..`: the cells that have a ghost of an entity, where they changed.
#![tactic(auto)]

mod change;
mod lines;
mod page;
mod page_data;
mod script;
mod told;

pub use page::page_of;
