// SPDX-License-Identifier: MIT

//! Reads scripts and what a server prints for them back as data: a script line by line, with the standing that its rounds leave, and the
//! text of a round as a `Round`. It is for programs that judge or draw what was printed, and also says where in their input a script ends
//! and what was printed for it begins.
#![tactic(auto)]

mod bounds;
mod context;
mod frame;
mod lines;
mod pieces;
mod rounds;
mod script;

pub use frame::{Parts, framed, parts_of};
pub use pieces::{first_piece, split_steps};
pub use rounds::{read_lines, read_round};
pub use script::{BadScript, Read, Script, ScriptReader};
