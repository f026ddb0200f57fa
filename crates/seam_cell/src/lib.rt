// SPDX-License-Identifier: MIT

//! A cell: the node that has the reals and the ghosts of a part of the space, as code.
//!
//! A step does to the cell what the definitions of steps say (`seam_node_steps`), for every input; if allocation fails, nothing has
//! changed,
//! and the input stays as it was. The cases are `seam_cell_cases`, and a look is `seam_cell_look`.
//! No step searches all reals or ghosts.
//!
//! A cell keeps that its reals are in the space, and the places to which calls that they hold move them, too: so a ready call is executed
//! without a further test. They need not be in a cell of its tree, since a batch creates entities before the cell takes the batch's tree. A
//! cell that the tree does not have keeps what it has.
//!
//! An entity's entries in both lists go when its real leaves, and it is put on no list when it comes. A call at a cell that has only a next
//! place is passed on as it is, since the entity's type is not known there.
#![tactic(auto)]

mod cell;

pub use cell::Cell;
