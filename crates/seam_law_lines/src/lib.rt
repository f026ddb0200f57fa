// SPDX-License-Identifier: MIT

//! What becomes of a line of a script depends on what was accepted before and on the tree alone: not on where rounds ended.
#![tactic(auto)]

mod laws;

pub use laws::a_line_is_judged_by_entries_and_tree;
