// What clients have in view.
use indexmap::IndexSet;
use seam_call::{ClientText, Shown};
use seam_judge_data::ClientLine;
use std::alloc::{AllocError, Global};

/// An entity that the client of another one has in view.
#[derive(Clone, Copy, PartialEq, Eq, Hash)]
pub(crate) struct Sight {
    /// The entity whose client it is.
    pub(crate) own: u32,
    pub(crate) other: u32,
}

/// The entities with a client that was shown something, and what these have in view by that, those of the dead too.
#[derive(Drop)]
pub(crate) struct Clients {
    pub(crate) entities: IndexSet<u32>,
    pub(crate) sights: IndexSet<Sight>,
}

impl Clients {
    /// No client was shown anything.
    pub(crate) fn new(alloc: Global) -> Clients {
        Clients {
            entities: IndexSet::new(alloc),
            sights: IndexSet::new(alloc),
        }
    }

    /// Shows clients these lines, in their order.
    pub(crate) fn show(&mut self, lines: &[ClientLine]) -> Result<(), AllocError> {
        for line in lines {
            self.show_line(line)?;
        }
        Ok(())
    }

    fn show_line(&mut self, line: &ClientLine) -> Result<(), AllocError> {
        let own = line.entity;
        self.entities.insert(own)?;
        match &line.line.text {
            ClientText::Shown(Shown::Enter(other, _) | Shown::Set(other, _)) => {
                self.sights.insert(Sight { own, other: *other })?;
            }
            ClientText::Shown(Shown::Leave(other)) => {
                let _ = self.sights.swap_remove(&Sight { own, other: *other });
            }
            _ => {}
        }
        Ok(())
    }
}
