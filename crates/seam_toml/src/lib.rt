// SPDX-License-Identifier: MIT

//! Headers: the settings and types that the TOML text before a script stands for, or the first cause why it stands for nothing.
//! `read_header` is the whole; `builtin` gives the types of a header that defines none. The rest are its parts: the document that a text
//! is, the grammar of a header's tables, the settings that its table of settings sets, and what is at fault in its values.
//!
//! What a value of a header is for is told by the keys above it, as one table of keys, so that each check walks a header by the same names.
//! A table where none belongs is a value of a wrong kind, whose keys are not looked at. So is a value where a table belongs, and what it
//! should hold is not missing. What is below a key that a table may not have is not looked at.
//!
//! For callers, of `proofs/`: `HeaderLaws` (a text stands for one header at most, whose types and settings are well formed) and
//! `EmptyHeader` (no text at all stands for the standard one).
#![tactic(auto)]

mod bodies;
mod builtins;
mod documents;
mod faults;
mod header;
mod laws;
mod members;
mod methods;
mod operations;
mod properties;
mod roles;
mod settings;
mod types;

pub use builtins::builtin;
pub use documents::{DocumentError, MOST_HEADER_BYTES, read_document};
pub use faults::{Fault, first_fault, has_fault, is_at_fault};
pub use header::{Header, HeaderError, read_header};
pub use laws::header_is_one;
pub use operations::LONGEST_OPERATION;
pub use roles::Role;
pub use settings::{Setting, read_settings};
