ghost use Rattle.std.specs.Prelude.{◌≡◌, ◌<◌, ◌≤◌, ℕ, length, IfSome, IfNone};
ghost use Rattle.seam_geo.specs.Rect.{IsProper};
ghost use Rattle.seam_tree.specs.Boundary.{moved_along, below, above, RunsThrough, LeavesPartEmpty, IsEmptyArea};
ghost use Rattle.seam_tree.specs.Division.{area_after, cut_after};
ghost use Rattle.seam_tree.specs.Table.{table_after};

use crate::boundary::{Axis, Boundary};
use crate::cut::Cut;
use seam_geo::{Pos, Rect};

/// The most cells that a tree has.
pub const MOST_CELLS: usize = 16;

// The position at another place along an axis.
fn moved(p: Pos, axis: Axis, at: u32) -> Pos
    ensures { result ≡ moved_along axis p at }
{
    match axis {
        Axis::X => Pos { x: at, z: p.z },
        Axis::Z => Pos { x: p.x, z: at },
    }
}

// The part of an area below the boundary, and that from the boundary on: None where one of them would be empty.
pub(crate) fn parts(area: Rect, boundary: Boundary) -> Option<(Rect, Rect)>
    ensures runs { IfSome result (λ parts. RunsThrough boundary area) }
    ensures lower { IfSome result (λ parts. parts.0 ≡ below area boundary) }
    ensures upper { IfSome result (λ parts. parts.1 ≡ above area boundary) }
    ensures empty { IfNone result (LeavesPartEmpty boundary area) }
{
    let lower = Rect::new(area.low(), moved(area.high(), boundary.axis, boundary.at))?;
    let upper = Rect::new(moved(area.low(), boundary.axis, boundary.at), area.high())?;
    Some((lower, upper))
}

// The cells' areas after the first `made` cuts, by the cells' numbers: None where one of them would be empty.
pub(crate) fn areas_after(size: u32, cuts: &[Cut], made: usize) -> Option<[Rect; MOST_CELLS]>
    requires few { made < MOST_CELLS }
    requires within { made ≤ length cuts.now }
    requires there { (n : ℕ) → n < made → (cut_after (record { size = size; cuts = cuts.now })
        n).cell ≤ n }
    ensures areas { IfSome result (λ areas. areas ≡ table_after (record {
      size = size;
      cuts = cuts.now;
    }) made) }
    ensures proper { IfSome result (λ areas. (c : ℕ) → c ≤ made
        → IsProper (area_after (record { size = size; cuts = cuts.now }) made c)) }
    ensures empty { IfNone result ((c : ℕ) × (c ≤ made)
        × IsEmptyArea (area_after (record { size = size; cuts = cuts.now }) made c)) }
{
    let whole = Rect::new(Pos { x: 0, z: 0 }, Pos { x: size, z: size })?;
    let mut areas = [whole; MOST_CELLS];
    for n in 0..made {
        let cut = cuts[n];
        let (lower, upper) = parts(areas[usize::from(cut.cell)], cut.boundary)?;
        areas[usize::from(cut.cell)] = lower;
        areas[n + 1] = upper;
    }
    Some(areas)
}
