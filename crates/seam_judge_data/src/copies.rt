// Copies of values.
ghost use Rattle.std.specs.Prelude.{◌≡◌, IfOk};

use seam_call::{Call, ClientText, GhostCopy, Line, Shown};
use seam_defs::Deed;
use seam_table::Shared;
use std::alloc::{AllocError, Global};

/// Values of which copies can be made.
pub trait Copied {
    /// An equal value.
    fn copied(&self) -> Result<Self, AllocError>
        ensures { IfOk result (λ copy. copy ≡ self.now) };
}

/// Equal values, in their order.
pub fn copies_of<T: Copied + Drop>(alloc: Global, items: &[T]) -> Result<Vec<T>, AllocError>
    ensures { IfOk result (λ copies. copies.items ≡ items.now) }
{
    let mut copies = Vec::new(alloc);
    for item in items {
        copies.push(item.copied()?)?;
    }
    Ok(copies)
}

impl Copied for Deed {
    fn copied(&self) -> Result<Deed, AllocError> {
        match self {
            Deed::Move(to) => Ok(Deed::Move(*to)),
            Deed::Method(number, args) => Ok(Deed::Method(*number, args.copy()?)),
        }
    }
}

impl Copied for Call {
    fn copied(&self) -> Result<Call, AllocError> {
        Ok(Call {
            entity: self.entity,
            part: self.part,
            sender: self.sender,
            number: self.number,
            deed: self.deed.copied()?,
        })
    }
}

impl Copied for GhostCopy {
    fn copied(&self) -> Result<GhostCopy, AllocError> {
        self.copy()
    }
}

impl<T> Copied for Shared<T> {
    fn copied(&self) -> Result<Shared<T>, AllocError> {
        self.share()
    }
}

impl Copied for Shown {
    fn copied(&self) -> Result<Shown, AllocError> {
        match self {
            Shown::Own(version, state) => Ok(Shown::Own(*version, state.copied()?)),
            Shown::Enter(entity, copy) => Ok(Shown::Enter(*entity, copy.copied()?)),
            Shown::Set(entity, copy) => Ok(Shown::Set(*entity, copy.copied()?)),
            Shown::Leave(entity) => Ok(Shown::Leave(*entity)),
        }
    }
}

impl Copied for ClientText {
    fn copied(&self) -> Result<ClientText, AllocError> {
        match self {
            ClientText::Shown(shown) => Ok(ClientText::Shown(shown.copied()?)),
            ClientText::Base(version, props) => Ok(ClientText::Base(*version, props.copy()?)),
        }
    }
}

impl Copied for Line {
    fn copied(&self) -> Result<Line, AllocError> {
        Ok(Line {
            number: self.number,
            text: self.text.copied()?,
        })
    }
}
