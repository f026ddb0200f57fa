//! What is known of an entity.

ghost use Rattle.std.specs.Prelude.{◌≡◌, IfOk};
ghost use Rattle.seam_cell_parts.specs.Kept.{here_in};
ghost use Rattle.seam_cell_seen.specs.Known.{known_with};

use seam_call::GhostCopy;
use seam_cell_parts::{CellContext, CopyBook, RealTable};
use seam_entity::Observed;
use std::alloc::AllocError;

/// What is known of an entity: its real as others see it or, where that is not here, its copy.
pub fn known_copy(
    known: &CellContext,
    reals: &RealTable,
    copies: &CopyBook,
    e: u32,
) -> Result<Option<GhostCopy>, AllocError>
    ensures { let h = here_in known.now in
        IfOk result (λ o. o ≡ known_with h reals.now.items copies.now.ghosts e) }
{
    if let Some(parcel) = reals.get(e) {
        let shown = parcel.real.observed().copy_for_others(&known.defs)?;
        return Ok(Some(shown));
    }
    let Some(copy) = copies.get(e) else {
        return Ok(None);
    };
    let shown = Observed::of_copy(copy).copy_for_others(&known.defs)?;
    Ok(Some(shown))
}
