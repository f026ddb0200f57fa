ghost use Rattle.std.specs.Prelude.{◌≡◌, ◌-◌};
ghost use Rattle.seam_tree.specs.Division.{area_divided_by, cut_after, HasBoundary};
ghost use Rattle.seam_balance.specs.Balance.{boundary_at};

use seam_geo::Rect;
use seam_tree::{Boundary, Tree};

// The boundary, which the tree has.
pub(crate) fn boundary_of(tree: &Tree, b: u8) -> Boundary
    requires { HasBoundary tree.now b }
    ensures { result ≡ boundary_at tree.now b }
{
    tree.boundary(b).unwrap()
}

// The area that it divides.
pub(crate) fn divided_area(tree: &Tree, b: u8) -> Rect
    requires { HasBoundary tree.now b }
    ensures { result ≡ area_divided_by tree.now b }
{
    tree.area_divided_by(b).unwrap()
}

// The cell that its cut cut.
pub(crate) fn cell_cut(tree: &Tree, b: u8) -> u8
    requires { HasBoundary tree.now b }
    ensures { result ≡ (cut_after tree.now (b - 1)).cell }
{
    tree.cut_of(b).unwrap()
}
