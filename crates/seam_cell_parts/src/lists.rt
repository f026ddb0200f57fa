//! The entities of which a cell has something to do.

ghost use Rattle.std.specs.Prelude.{◌≡◌};
ghost use Rattle.seam_node_steps.specs.Cells.{without};

use crate::entity_queue::EntityQueue;

/// The entities whose reals are to settle, and those whose witnesses are to look.
#[derive(Drop)]
pub struct Lists {
    pub survey: EntityQueue,
    pub looks: EntityQueue,
}

/// Takes the entity off both lists.
pub fn unlist(lists: &mut Lists, e: u32)
    ensures survey { lists.new.survey ≡ without e lists.old.survey }
    ensures looks { lists.new.looks ≡ without e lists.old.looks }
{
    lists.survey.remove(e);
    lists.looks.remove(e);
}
