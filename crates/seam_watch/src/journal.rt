//! What happened in a round.

ghost use Rattle.std.specs.Prelude.{◌≡◌, IfOk};

use seam_defs::Listed;
use seam_machine::Event;
use std::alloc::{AllocError, Global};

/// The events of a round in their order, phase by phase.
#[derive(Debug, Drop)]
pub struct Journal {
    pub calls: Listed<Event>,
    pub reaps: Listed<Event>,
    pub looks: Listed<Event>,
}

// The same events in memory of their own.
fn copy_events(alloc: Global, events: &Listed<Event>) -> Result<Listed<Event>, AllocError>
    ensures { IfOk result (λ l. l ≡ events.now) }
{
    Ok(Listed::of(events.as_slice().to_vec(alloc)?))
}

impl Journal {
    /// The same journal in memory of its own.
    pub fn copy(&self, alloc: Global) -> Result<Journal, AllocError>
        ensures { IfOk result (λ j. j ≡ self.now) }
    {
        Ok(Journal {
            calls: copy_events(alloc, &self.calls)?,
            reaps: copy_events(alloc, &self.reaps)?,
            looks: copy_events(alloc, &self.looks)?,
        })
    }
}
