// SPDX-License-Identifier: MIT

//! Writes the lines of refused lines and of rounds, rounds, and their steps, as `Texts` of `seam_rule_lines` and of `seam_rule_rounds` say.
//! If allocation fails, a text has no use.
//!
//! What writes lines, and what reads them (`seam_accept`), are crates of their own, so that programs that judge or draw a transcript use
//! them, too.
#![tactic(auto)]

mod bounds;
mod journal;
mod lines;
mod refusals;
mod round;
mod spellings;
mod told;
mod values;

pub use bounds::push_bounds;
pub use journal::push_journal;
pub use lines::{
    BaseLine, DoneLine, HomeLine, push_base, push_done, push_ghost, push_home, push_number_line,
};
pub use refusals::push_refusal;
pub use round::{write_round, write_traced_round};
pub use spellings::Spellings;
pub use told::{push_client, push_line};
