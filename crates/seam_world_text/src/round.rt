//! The round that is printed.

use crate::residents::Residents;
use seam_defs::Defs;

/// A round that is printed: its number, from 1 on, the definitions, and the entities that are there in it.
#[derive(Clone, Copy)]
pub struct PrintedRound<'a> {
    pub number: u64,
    pub defs: &'a Defs,
    pub present: &'a Residents,
}
