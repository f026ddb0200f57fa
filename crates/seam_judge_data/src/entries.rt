// Copies of lines and entries.
ghost use Rattle.std.specs.Prelude.{◌≡◌, IfOk};

use crate::{ClientLine, Copied, DoneLine};
use seam_rule_lines::Entry;
use std::alloc::{AllocError, Global};

fn copy_entry(entry: &Entry) -> Result<Entry, AllocError>
    ensures { IfOk result (λ copy. copy ≡ entry.now) }
{
    match entry {
        Entry::Created(create) => Ok(Entry::Created(*create)),
        Entry::Called(call) => Ok(Entry::Called(call.copied()?)),
        Entry::Joined(entity) => Ok(Entry::Joined(*entity)),
        Entry::Ticked => Ok(Entry::Ticked),
        Entry::Divided(tree) => Ok(Entry::Divided(*tree)),
        Entry::Balanced => Ok(Entry::Balanced),
        Entry::Destroyed(entity) => Ok(Entry::Destroyed(*entity)),
    }
}

/// Equal entries, in their order.
pub fn copies_of_entries(alloc: Global, entries: &[Entry]) -> Result<Vec<Entry>, AllocError>
    ensures { IfOk result (λ copies. copies.items ≡ entries.now) }
{
    let mut copies = Vec::new(alloc);
    for entry in entries {
        copies.push(copy_entry(entry)?)?;
    }
    Ok(copies)
}

impl Copied for ClientLine {
    fn copied(&self) -> Result<ClientLine, AllocError> {
        Ok(ClientLine {
            entity: self.entity,
            ty: self.ty,
            line: self.line.copied()?,
        })
    }
}

impl Copied for DoneLine {
    fn copied(&self) -> Result<DoneLine, AllocError> {
        Ok(DoneLine {
            ty: self.ty,
            call: self.call.copied()?,
        })
    }
}
