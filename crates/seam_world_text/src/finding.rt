//! What a world has of an entity, found by its base node.

ghost use Rattle.std.specs.Prelude.{◌≡◌, ℕ, Option, None, Some, option_map, option_copied, slice_get};
ghost use Rattle.std.specs.Option.{option_and_then};
ghost use Rattle.seam_core.specs.Nodes.{base_in};
ghost use Rattle.seam_world_text.specs.Finding.{node_for, part_found, home_found, RoutesLeadHome};
ghost use Rattle.seam_law_calls.specs.Prelude.{entity_flow, real_in};

use seam_base::{Base, BasePart};
use seam_call::base_node_of;
use seam_core::World;
use seam_entity::Parcel;
use seam_tree::MOST_CELLS;

// The base node of an entity.
fn base_of(world: &World, e: u32) -> Option<&Base>
    ensures { option_copied result ≡ option_and_then base_in
        (slice_get world.now.nodes (node_for world.now e)) }
{
    let bases = world.node_count().saturating_sub(MOST_CELLS) as u32;
    if bases == 0 {
        return None;
    }
    world.node(base_node_of(e, bases))?.as_base()
}

// The real of an entity, if it is in that cell.
fn real_at(world: &World, cell: u8, e: u32) -> Option<&Parcel>
    ensures { option_copied result ≡ real_in ((entity_flow e world.now).slot cell) }
{
    world.node(cell)?.as_cell()?.real(e)
}

/// The base part of an entity.
pub(crate) fn part(world: &World, e: u32) -> Option<&BasePart>
    ensures { option_copied result ≡ part_found world.now e }
{
    base_of(world, e)?.part(e)
}

/// The real of an entity, and the cell that it is in, which its base node has the route to. It is looked for in the near cell first, if
/// there is one, and the route is followed only where it is not there.
pub(crate) fn home(world: &World, near: Option<u8>, e: u32) -> Option<(u8, &Parcel)>
    ensures { RoutesLeadHome world.now → option_map (λ p. (p.0, p.1.now)) result
        ≡ home_found world.now e }
{
    if let Some(cell) = near {
        if let Some(parcel) = real_at(world, cell, e) {
            return Some((cell, parcel));
        }
    }
    let (cell, _) = base_of(world, e)?.route(e)?;
    let parcel = real_at(world, cell, e)?;
    Some((cell, parcel))
}

/// The cell to look in for the next real, where one was found in a cell: the same as long as each was there. Where reals are in many cells,
/// their routes find them sooner.
pub(crate) fn near_after(near: Option<u8>, cell: u8) -> Option<u8> {
    if near? == cell { near } else { None }
}
