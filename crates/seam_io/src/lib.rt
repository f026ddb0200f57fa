// SPDX-License-Identifier: MIT

//! Sources and sinks of bytes that count their faults, the lines of a source, and whole writes to a sink.
//!
//! Of a source of 2^40 bytes and more only whole lines count: nobody looked whether the input ends after an unended rest. One carriage
//! return before a line feed is dropped, and a second one is content; a rest of one carriage return at the end of the input is a line with
//! empty content.
//!
//! A line that is too long is answered as soon as its 4,097th byte came, and the rest of it is passed over in the next call. So a line
//! without an end takes no more memory than others.
//!
//! No contract can count the reads inside one call of `Lines::next`. In place of that its contract says that no read is made where the
//! next answer needs none, and that the last read of a call, of at most 4,096 bytes, was needed: until then neither a line nor a refusal
//! could be answered.
//!
//! For callers, of `proofs/`: `LineLemmas` (the lines of bytes to which more are appended).
#![tactic(auto)]

mod laws;
mod lines;
mod memory;
mod patient;
mod sink;
mod source;

pub use laws::whole_lines_stay;
pub use lines::{LONGEST_LINE, Lines, Next};
pub use memory::{MemSink, MemSource};
pub use patient::Patient;
pub use sink::{RealSink, Sink, WriteFault, write_whole};
pub use source::{Failed, RealSource, Source};
