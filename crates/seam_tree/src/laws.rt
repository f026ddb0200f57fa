// What holds of all trees, for those that reason about them.
ghost use Rattle.std.specs.Prelude.{◌≡◌, ℕ, ◌<◌};
ghost use Rattle.seam_geo.specs.declared.pos.Pos.{Pos};
ghost use Rattle.seam_geo.specs.Rect.{Holds};
ghost use Rattle.seam_tree.specs.Division.{Division, area, cells_of, IsInSpace, leaf_at, NoneEmpty};
ghost use Rattle.seam_tree.specs.Change.{CameBy, with_place};

use crate::tree::Tree;

/// The cells' areas partition the space: none is empty, each lies in the space, no two share a position, and each
/// position of the space is in that of its cell.
pub fn areas_partition_the_space(tree: &Tree)
    ensures none_empty { NoneEmpty tree.now }
    ensures inside { (c : ℕ) (p : Pos) → c < cells_of tree.now → Holds (area tree.now c) p →
        IsInSpace tree.now p }
    ensures apart { (c d : ℕ) (p : Pos) → c < cells_of tree.now → d < cells_of tree.now
        → Holds (area tree.now c) p → Holds (area tree.now d) p → c ≡ d }
    ensures covered { (p : Pos) → IsInSpace tree.now p
        → (leaf_at tree.now p < cells_of tree.now) × Holds (area tree.now (leaf_at tree.now p)) p }
{
    let _cells = tree.cells();
}

/// Cuts and shifts take no cell away: what came by them from a tree is of the same space and has that tree's cells
/// among its own, and a shift changes no number of cells.
pub fn cells_stay()
    ensures cells { (t u : Division) (c : ℕ) → CameBy t u → c < cells_of t → c < cells_of u }
    ensures space { (t u : Division) → CameBy t u → u.size ≡ t.size }
    ensures shift { (t : Division) (b at : ℕ) → cells_of (with_place t b at) ≡ cells_of t }
{}
