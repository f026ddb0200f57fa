// SPDX-License-Identifier: MIT

//! Definitions of entities: types, properties with their distribution flags, methods whose bodies are lists of simple operations, and what
//! one deed does to a state.
//!
//! A deed tells its part: a move is for the cell part, a method names its own. A sum beyond 128 bits can only come from values that fit no
//! type; it saturates first, which gives the same nearest number.
//!
//! What a deed leaves is told without what stays (`Later`): the position, and the values where a method made new ones. Values never change,
//! and their owners share them by pointers that count the owners. To count takes instructions that other processors wait for: so a move
//! counts none, and a sole owner lets its values go without one.
//!
//! For callers, of `proofs/`: `NameSearch` (a name among names in rising order), `Numbers` (the type of a number is well formed),
//! `WellFormed` (the built-in types are), `Starts` (first values are of their group), `Running` (what others may see of a part is held by
//! it), `Keeping` (a deed leaves values of their group), `GroupsOfGroups` (one group's values of another's) and `TestLemmas` (tests decide
//! their relations).
#![tactic(auto)]

mod copying;
mod deeds;
mod defs;
mod flags;
mod groups;
pub mod laws;
mod limits;
mod listed;
mod methods;
mod names;
mod properties;
mod property_list;
mod property_name;
mod props;
mod settings;
mod states;
mod types;

pub use defs::Defs;
pub use flags::{Flag, Group, Part};
pub use limits::{
    LONGEST_NAME, MOST_ARGUMENTS, MOST_BASE_NODES, MOST_METHODS, MOST_OPERATIONS, MOST_PROPERTIES,
    MOST_TYPES,
};
pub use listed::Listed;
pub use names::is_name;
pub use property_list::Properties;
pub use property_name::PropertyName;
pub use props::Props;
pub use settings::{LARGEST_SIZE, LONGEST_DISTANCE, Settings};
pub use states::{Args, Deed, Later, State};
pub use types::{Method, Operand, Operation, Property, TypeDef};
