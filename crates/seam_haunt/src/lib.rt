// SPDX-License-Identifier: MIT

//! Which cells have a ghost of a real: those near enough, and those that had one and are not yet far (BigWorld Server Overview, ghost
//! entities). And the place of an entity: its home, and the cells with a ghost of it; and what each cell is told of a
//! real that settles.
//!
//! For callers, of `proofs/`: `Chosen` (which numbers of a range are in a set that was chosen by a test) and `Settling` (a place that is
//! settled twice at one position).
#![tactic(auto)]

ghost use Rattle.std.specs.Prelude.{◌≡◌, ℕ, ◌+◌, ◌-◌, ◌<◌, ◌≤◌, ◌↔◌, ◌⊎◌, nat_le, IsTrue};
ghost use Rattle.std.specs.FinSet as set;
ghost use Rattle.seam_geo.specs.declared.pos.Pos.{Pos};
ghost use Rattle.seam_geo.specs.Pos.{distance};
ghost use Rattle.seam_geo.specs.Rect.{Holds, distance_to, distance_along};
ghost use Rattle.seam_tree.specs.Division.{area, cells_of};
ghost use Rattle.seam_haunt.specs.Places.{Place, home_at, settled};
ghost use Rattle.seam_haunt.specs.Haunts.{haunts_of, is_close, IsHaunt};

mod laws;
mod telling;

pub use laws::{a_place_at_rest_stays, places_are_settled};
use seam_geo::{Pos, Rect};
use seam_tree::{CellSet, Tree};
pub use telling::{Telling, Told, word};

/// The haunts of a real at a position, of which `home` is the cell: the other cells at distance at most `near`, and those
/// of the former haunts `old`, again without the home, at distance at most `far`.
pub fn haunts_after(pos: Pos, home: u8, old: CellSet, tree: &Tree, near: u32, far: u32) -> CellSet
    ensures value { result ≡ haunts_of pos home old tree.now near far }
    ensures each { (c : ℕ) → IsTrue (set.contains result c) ↔
        IsHaunt pos home old tree.now near far c }
    // the cells with a ghost of the settled place, whether the real came from another cell or stays
    ensures place { (kept : ℕ) (was : Place) → home ≡ home_at kept tree.now was.home pos →
        (old ≡ set.insert was.ghosts was.home) ⊎ ((home ≡ was.home) × (old ≡ was.ghosts)) →
        result ≡ (settled (record { kept = kept; near = near; far = far }) tree.now was
        pos).ghosts }
{
    let mut haunts = CellSet::none();
    let cells = tree.cells();
    let reach = near.max(far);
    if is_deep_inside(home, tree, pos, reach) {
        return haunts;
    }
    for cell in 0..cells {
        let Some(area) = tree.area(cell) else {
            unreachable!()
        };
        if cell != home
            && is_within(area, pos, reach)
            && is_close(area, pos, old.holds(cell), near, far)
        {
            haunts = haunts.with(cell);
        }
    }
    haunts
}

// Whether all that lies within `reach` of the position is in the home's area, so that no other cell is that near.
fn is_deep_inside(home: u8, tree: &Tree, pos: Pos, reach: u32) -> bool
    ensures { IsTrue result ↔ ((home < cells_of tree.now) × ((p : Pos) → distance pos p ≤ reach →
        Holds (area tree.now home) p)) }
{
    let Some(area) = tree.area(home) else {
        return false;
    };
    let (low, high) = (area.low(), area.high());
    is_deep_along(low.x, high.x, pos.x, reach) && is_deep_along(low.z, high.z, pos.z, reach)
}

// Whether all places within `reach` are among those from `low` up to, but without, `high`.
fn is_deep_along(low: u32, high: u32, at: u32, reach: u32) -> bool
    ensures { IsTrue result ↔ ((low ≤ at - reach) × (at + reach < high)) }
{
    low <= at.saturating_sub(reach) && at.saturating_add(reach) < high
}

// Whether the area is near enough for a ghost, by whether there was one.
fn is_close(area: Rect, pos: Pos, was_haunt: bool, near: u32, far: u32) -> bool
    ensures { result ≡ is_close area pos was_haunt near far }
{
    let distance = area.dist(pos);
    distance <= near || (was_haunt && distance <= far)
}

// Whether the area is at distance at most `reach`. Most areas are not, which one of the first comparisons tells.
fn is_within(area: Rect, pos: Pos, reach: u32) -> bool
    ensures { result ≡ nat_le (distance_to area pos) reach }
{
    let (low, high) = (area.low(), area.high());
    is_within_along(low.x, high.x, pos.x, reach) && is_within_along(low.z, high.z, pos.z, reach)
}

// Whether the places from `low` up to, but without, `high` are at distance at most `reach`.
fn is_within_along(low: u32, high: u32, at: u32, reach: u32) -> bool
    requires { low < high }
    ensures { IsTrue result ↔ (distance_along low high at ≤ reach) }
{
    low <= at.saturating_add(reach) && at.saturating_sub(reach) < high
}
