ghost use Rattle.std.specs.Prelude.{◌≡◌, ◌≤◌, length, ℕ};
ghost use Rattle.seam_tree.specs.Division.{leaf_after};

use crate::boundary::Boundary;
use seam_geo::Pos;

// One cut: the cell that it cut, and the boundary that it made.
#[derive(Clone, Copy, Debug, PartialEq, Eq)]
pub(crate) struct Cut {
    pub(crate) cell: u8,
    pub(crate) boundary: Boundary,
}

// The cell of the position.
#[tactic(auto, using(crate::proofs::Steps::leaf_steps))]
pub(crate) fn leaf_among(cuts: &[Cut], p: Pos) -> u8
    requires { length cuts.now ≤ 15 }
    ensures { (size : ℕ) → result ≡ leaf_after (record { size = size; cuts = cuts.now })
        (length cuts.now) p }
{
    let mut leaf = 0;
    for (made, cut) in cuts.iter().enumerate() {
        let boundary = cut.boundary;
        if cut.cell == leaf && boundary.at <= boundary.axis.place_of(p) {
            leaf = made as u8 + 1;
        }
    }
    leaf
}
