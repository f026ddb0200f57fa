// SPDX-License-Identifier: MIT

//! How a run of the world server begins and ends: its header, its statuses, what each tells of the bytes that were read and of what was
//! written, text on its way to a sink, and the fault line.
//!
//! Of `proofs/`, `Prefixes` (first lines and first bytes), `PrintLemmas` (what is printed piece by piece), `HeaderRuns` (runs that end in
//! the header) and `Completing` (a run that may be complete is) are for callers.
#![tactic(auto)]

mod count;
mod faults;
mod header;
mod pending;
mod printing;
mod status;

pub use count::next_count;
pub use faults::put_fault;
pub use header::read_header;
pub use pending::Pending;
pub use printing::{print, print_and_write, stop, write_before_wait, write_text};
pub use status::{Status, is_done};
