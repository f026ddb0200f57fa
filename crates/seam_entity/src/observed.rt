//! What others are shown of an entity, from its real or from a copy.

ghost use Rattle.std.specs.Prelude.{◌≡◌, ◌↔◌, ℕ, IsTrue, IfOk};
ghost use Rattle.seam_defs.specs.declared.settings.Settings.{Settings as AllSettings};
ghost use Rattle.seam_defs.specs.declared.flags.Group.TheVariants as group;
ghost use Rattle.seam_entity.specs.WitnessLooks.{shown_to_others};
ghost use Rattle.seam_entity.specs.Preparing.{node_with};

use seam_call::GhostCopy;
use seam_defs::{Defs, Group, State};
use std::alloc::AllocError;

/// An entity that others look at: its type, its public version, and a state that has the values of the group `held`.
#[derive(Clone, Copy)]
pub struct Observed<'a> {
    pub held: Group,
    pub ty: u16,
    pub version: u64,
    pub state: &'a State,
}

impl Observed<'_> {
    /// The entity of which there is a copy.
    pub fn of_copy(copy: &GhostCopy) -> Observed<'_>
        ensures held { result.held ≡ group.Ghost }
        ensures ty { result.ty ≡ copy.now.ty }
        ensures version { result.version ≡ copy.now.version }
        ensures state { result.state.now ≡ copy.now.state }
    {
        Observed {
            held: Group::Ghost,
            ty: copy.ty,
            version: copy.version,
            state: &copy.state,
        }
    }

    /// What other clients are shown of it.
    pub fn copy_for_others(&self, defs: &Defs) -> Result<GhostCopy, AllocError>
        ensures { (me : ℕ) (settings : AllSettings) → IfOk result (λ c. c
            ≡ shown_to_others (node_with defs.now me settings) self.now.held self.now.ty
            self.now.version self.now.state.now) }
    {
        let props = defs
            .type_at(self.ty)
            .project_group(self.held, &self.state.props, Group::Other)?;
        Ok(GhostCopy {
            ty: self.ty,
            version: self.version,
            state: State {
                pos: self.state.pos,
                props,
            },
        })
    }
}
