// SPDX-License-Identifier: MIT

//! A space cut into at most sixteen cells by boundaries along its axes, and sets of such cells.
//!
//! The tree of boundaries is that of the cells of a BigWorld space (BigWorld Server Overview, load balancing).
//!
//! A tree is seen as the list of its cuts, from which areas follow; so a shift changes one number. It keeps the table of its cells' areas
//! as well, a function of the cuts, since each real that settles asks for areas while the tree stays as it is.
//!
//! For callers, of `proofs/`: `Leaves` (a leaf is a cell), `Steps` and `Agree` (what one more cut makes of areas, and what the first cuts
//! decide), `Areas` (the areas share the space out), `Padded` and `Filled` (the tables of cuts and of areas), `Changes` and `Moves` (what a
//! cut and a shift change).
#![tactic(auto)]

mod area_table;
mod boundary;
mod cell_set;
mod cut;
mod laws;
mod tree;

pub use area_table::MOST_CELLS;
pub use boundary::{Axis, Boundary};
pub use cell_set::CellSet;
pub use laws::{areas_partition_the_space, cells_stay};
pub use tree::{CutError, ShiftError, Tree};
