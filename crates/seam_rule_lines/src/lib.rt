// SPDX-License-Identifier: MIT

//! What lines mean and what becomes of them, and the lines of a round that need no cell: definitions that the contract of the server's
//! top call is written in, laws of them alone, and who may ask what of an entity, as a program. A reader who believes `Language`, `Header`,
//! `Book`, `Judging`, `Orders`, `FlatTable`, `Round`, `Texts` and `Run` of `specs/`, and the words of the crates below that they use, goes
//! on with `seam_rule_rounds`, which says what a legal round is, and a transcript.
//!
//! Whether an entity's client is shown lines asks also that the entity was made (*is_shown*), so that no premise on books is needed.
//!
//! For callers, of `proofs/`: `Verdicts` (a line has one verdict), `Refusals` and `SkipLemmas` (lines that are refused whatever the book
//! has, and lines without words), `Names` (places of names among types and methods), `HeaderLemmas` (the lines of headers), `Lists`
//! (entities in rising number), `InOrderLemmas` (calls executed as they were accepted), `BookEntries` (what a book has created, with one
//! more entry), `RunLemmas` (runs through lines) and `OneSender` (where a part has one order).
#![tactic(auto)]

mod asked;
mod laws;
mod limits;
mod verdict;

pub use asked::{Asked, may_call, may_move};
pub use laws::{
    command_is_one, full_order_is_legal, header_is_one, long_line_is_refused, one_sender_one_order,
    unknown_command_is_refused, verdict_is_one,
};
pub use limits::{MOST_CLIENTS, MOST_ENTITIES, MOST_LINES};
pub use seam_toml::Header;
pub use verdict::{Cause, Entry, Verdict};
