//! What fits the definitions and the settings.

ghost use Rattle.std.specs.Prelude.{◌≡◌, ℕ};
ghost use Rattle.std.specs.List.{list_all};
ghost use Rattle.seam_entity.specs.ReadyCalls.{item_passes};
ghost use Rattle.seam_entity.specs.Fitting.{is_inside as is_in_space, stays_inside as stays_in_space, can_do as can_part_do};
ghost use Rattle.seam_entity.specs.Executing.{fits_cell_part as call_fits, fits_copy as copy_fits};
ghost use Rattle.seam_entity.specs.Preparing.{node_with};

use seam_call::{Call, GhostCopy};
use seam_defs::{Deed, Defs, Group, Part, Settings, TypeDef};
use seam_geo::Pos;
use seam_order::InOrder;

/// Whether the position is in a space of that size.
pub fn is_inside(size: u32, pos: Pos) -> bool
    ensures { result ≡ is_in_space size pos }
{
    pos.x < size && pos.z < size
}

// Whether the deed is no move out of the space.
fn stays_inside(size: u32, deed: &Deed) -> bool
    ensures { result ≡ stays_in_space size deed.now }
{
    match deed {
        Deed::Move(pos) => is_inside(size, *pos),
        Deed::Method(_, _) => true,
    }
}

/// Whether the deed is one of that part of the type, fits it, and does not leave a space of that size.
pub fn can_do(size: u32, t: &TypeDef, part: Part, deed: &Deed) -> bool
    ensures { result ≡ can_part_do size t.now part deed.now }
{
    t.part_of(deed) == part && (t.fits(deed) && stays_inside(size, deed))
}

/// Whether the call is for the cell part of that entity, and fits that type.
pub fn fits_cell_part(defs: &Defs, settings: &Settings, entity: u32, ty: u16, call: &Call) -> bool
    ensures { (me : ℕ) → result ≡ call_fits (node_with defs.now me settings.now) entity ty
        call.now }
{
    call.is_for(Part::Cell, entity)
        && can_do(settings.size, defs.type_at(ty), Part::Cell, &call.deed)
}

/// Whether the order holds only calls for the cell part of that entity that fit that type.
pub(crate) fn holds_fitting(
    order: &InOrder<Call>,
    defs: &Defs,
    settings: &Settings,
    entity: u32,
    ty: u16,
) -> bool
    ensures { (me : ℕ) → result ≡ list_all (item_passes
        (call_fits (node_with defs.now me settings.now) entity ty)) order.now.held }
{
    for (_, call) in order.iter() {
        if !fits_cell_part(defs, settings, entity, ty, call) {
            return false;
        }
    }
    true
}

/// Whether the copy's type is one of the definitions, its values are of the group, and it is in the space.
pub fn fits_copy(defs: &Defs, settings: &Settings, copy: &GhostCopy) -> bool
    ensures { (me : ℕ) → result ≡ copy_fits (node_with defs.now me settings.now) copy.now }
{
    defs.has_type(copy.ty)
        && (defs
            .type_at(copy.ty)
            .is_of_group(Group::Ghost, &copy.state.props)
            && is_inside(settings.size, copy.state.pos))
}
