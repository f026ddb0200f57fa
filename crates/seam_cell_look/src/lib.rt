// SPDX-License-Identifier: MIT

//! The look of a witness: what it sees of the reals and copies that its cell knows, and what it tells its client.
//!
//! A look goes over those alone that are near, where it is kept where reals and copies are. It searches for those that leave, and for those
//! that it shows and that no witness of the cell was told of since reals or copies changed. `look_task` is the look task of a cell's step
//! (`seam_node_steps`), over the parts of the cell; if allocation fails, nothing has changed.
//!
//! An entity in view that is not near leaves, unless it is known and was shown at a greater version; that is asked for those that leave and
//! for no other. A witness looks while its real is taken out: what is known of others is the same without it (`seam_node_steps`), so no
//! copy of the reals is made.
#![tactic(auto)]

mod looking;
mod near;

pub use looking::{Glance, Sight, look_task};
