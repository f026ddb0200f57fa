// SPDX-License-Identifier: MIT

//! One round of a run as a picture, the text of an SVG: the space with its cells, each entity at its place, in the color of the cell where
//! it lives, its ghosts in the cells that have them, and for each client how far its view reaches, and lines to what it has in view.
#![tactic(auto)]

mod clients;
mod dots;
mod drawing;
mod legend;
mod map;
mod picture;
mod scene;
mod shared;
mod style;

pub use picture::picture_of;
