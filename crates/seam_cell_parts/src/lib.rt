// SPDX-License-Identifier: MIT

//! The parts of a cell, and how a real settles among them.
//!
//! Which reals have a ready call and which have a witness are ordered sets, and those that are to settle or to look are queues, so that no
//! step searches all reals; where reals and copies are is kept for looks, where there are many. Settling first does all that may want
//! memory, the last of which is what the own book hears; what comes then cannot fail.
//!
//! A real is taken out of its cell while a step changes it, and its place stays open. Its entity is marked as ready before anything that
//! may fail, and the mark goes where the real that is put in has no ready call.
//!
//! A next place and a hand-over are one act: a real is moved into its parcel, so no edit of the code can leave it behind as well. Haunts
//! are told at once, and what was sent is taken back where something after it fails (`Out::cut`). Neither the cell that settles a real nor
//! the real's new home is sent its ghost.
//!
//! For callers, of `proofs/`: `SetLemmas` (ordered sets), `MarkLemmas` and `RealLemmas` (what the marks of reals are after a change),
//! `NewsLemmas` (what haunts are told), `SettleLemmas` (what settling leaves) and `SpotLemmas` (lists of all locations).
#![tactic(auto)]

mod context;
mod copy_book;
mod entity_queue;
mod entity_set;
mod lists;
mod news;
mod next;
mod real_table;
mod reals;
mod remotes;
mod settle;
mod spots;

pub use context::{CellContext, at_start};
pub use copy_book::CopyBook;
pub use entity_queue::{EntityQueue, EntityRow};
pub use entity_set::EntitySet;
pub use lists::{Lists, unlist};
pub use news::Subject;
pub use next::Next;
pub use real_table::RealTable;
pub use reals::{Reals, close, first_ready, make_room, put_after, put_in, take_out};
pub use remotes::Remotes;
pub use settle::{Begun, Plan, begin, is_at_rest, make_plan, settle_real};
