use crate::builtin::sent;
use seam_geo::Pos;
use seam_tree::{Axis, CellSet, CutError, ShiftError, Tree};

fn cut_fifteen_times(tree: &mut Tree) -> bool {
    for k in 0..15u8 {
        if tree.cut(0, Axis::X, 9000 - 500 * u32::from(k)) != Ok(k + 1) {
            return false;
        }
    }
    true
}

fn are_sixteen(tree: &Tree) -> bool {
    let inside = tree.holds(Pos { x: 9_999, z: 0 }) && !tree.holds(Pos { x: 10_000, z: 0 });
    let last = tree.area(15).map(|a| a.low().x);
    let counts = (tree.cells(), tree.size());
    (inside, last, counts, tree.cut_of(15)) == (true, Some(2_000), (16, 10_000), Some(0))
}

fn cut_no_more(tree: &mut Tree) -> bool {
    let nowhere = tree.cut(16, Axis::X, 5);
    let outside = tree.cut(0, Axis::X, 5000);
    let many = tree.cut(0, Axis::X, 1000);
    (nowhere, outside, many)
        == (
            Err(CutError::NoCell),
            Err(CutError::OutsideCell),
            Err(CutError::TooManyCells),
        )
}

fn shift_one(tree: &mut Tree) -> bool {
    let emptied = tree.shift(1, 8500);
    let nowhere = tree.shift(16, 5);
    let shifted = tree.shift(1, 8501);
    let boundary = tree.boundary(1).map(|b| b.at);
    let area = tree.area(2).map(|a| (a.low().x, a.high().x));
    let refused = (
        Err(ShiftError::WouldEmpty),
        Err(ShiftError::NoBoundary),
        Ok(()),
    );
    (emptied, nowhere, shifted) == refused && (boundary, area) == (Some(8501), Some((8500, 8501)))
}

fn sets_hold_what_was_put() -> bool {
    let set = sent(CellSet::none()).with(3).with(15).without(3);
    set.holds(15) && !set.holds(3) && !set.holds(16)
}

// A lower edge belongs to the cell above it.
fn has_lower_edge() -> bool {
    let mut tree = Tree::one(10_000);
    let cut = tree.cut(0, Axis::X, 5000);
    let below = tree.leaf_of(Pos { x: 4999, z: 100 });
    let above = tree.leaf_of(Pos { x: 5000, z: 100 });
    (cut, below, above) == (Ok(1), 0, 1)
}

#[test]
fn sixteen_cells_their_edges_and_sets(rt: HostRuntime) {
    let mut tree = sent(Tree::one(10_000));
    let cut = cut_fifteen_times(&mut tree);
    let sixteen = are_sixteen(&tree);
    let no_more = cut_no_more(&mut tree);
    let shifted = shift_one(&mut tree);
    let others = (has_lower_edge(), sets_hold_what_was_put());
    assert_eq!(rt;
        ((cut, sixteen, no_more, shifted), others),
        ((true, true, true, true), (true, true))
    );
}
