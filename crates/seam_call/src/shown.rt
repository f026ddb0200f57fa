//! What ghosts hold, and what clients are shown.

ghost use Rattle.std.specs.Prelude.{◌≡◌, IfOk};

use seam_defs::{Props, State};
use seam_table::Shared;
use std::alloc::AllocError;

/// What a ghost holds of a real: its type, its public version, and its state at that version.
#[derive(Debug, Drop)]
pub struct GhostCopy {
    pub ty: u16,
    pub version: u64,
    pub state: State,
}

impl GhostCopy {
    /// An equal copy, which shares the values.
    pub fn copy(&self) -> Result<GhostCopy, AllocError>
        ensures { IfOk result (λ copy. copy ≡ self.now) }
    {
        Ok(GhostCopy {
            ty: self.ty,
            version: self.version,
            state: self.state.copy()?,
        })
    }
}

/// What a witness shows its client. What many clients are shown is kept once.
#[derive(Debug, Drop)]
pub enum Shown {
    /// The client's own entity, at a version.
    Own(u64, Shared<State>),
    /// An entity that enters the view.
    Enter(u32, Shared<GhostCopy>),
    /// An entity in view that has changed.
    Set(u32, Shared<GhostCopy>),
    /// An entity that leaves the view.
    Leave(u32),
}

/// What a witness tells the proxy of its entity, with its number, from 1 on, among all that it told.
#[derive(Debug, Drop)]
pub struct Update {
    pub entity: u32,
    pub number: u64,
    pub shown: Shown,
}

/// The text of a client's line.
#[derive(Debug, Drop)]
pub enum ClientText {
    /// What the witness shows.
    Shown(Shown),
    /// The base part at a version.
    Base(u64, Props),
}

/// A line that a client is shown, with its number, from 1 on, among all that it was shown.
#[derive(Debug, Drop)]
pub struct Line {
    pub number: u64,
    pub text: ClientText,
}
