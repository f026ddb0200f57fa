ghost use Rattle.std.specs.Prelude.{◌≡◌};
ghost use Rattle.seam_tree.specs.Boundary.{place_along};

use seam_geo::Pos;

/// An axis of a space.
#[derive(Clone, Copy, Debug, PartialEq, Eq)]
pub enum Axis {
    X,
    Z,
}

/// A boundary: positions whose place along the axis is below `at` lie on its lower side, the others, with those at
/// `at` itself, on its upper side.
#[derive(Clone, Copy, Debug, PartialEq, Eq)]
pub struct Boundary {
    pub axis: Axis,
    pub at: u32,
}

impl Axis {
    /// Where the position lies along the axis.
    pub fn place_of(self, p: Pos) -> u32
        ensures { result ≡ place_along self p }
    {
        match self {
            Axis::X => p.x,
            Axis::Z => p.z,
        }
    }
}
