ghost use Rattle.std.specs.Prelude.{◌≡◌, ◌-◌, ◌<◌, ◌≤◌, ◌++◌, IfOk, OnOk, drop};
ghost use Rattle.seam_tree.specs.Division.{IsTree};
ghost use Rattle.seam_balance.specs.Order.{boundaries_from_root, boundaries_within};

use crate::divided::cell_cut;
use seam_tree::Tree;
use std::alloc::{AllocError, Global};

// The numbers of all boundaries, from the root on.
pub(crate) fn boundaries_from_root(alloc: Global, tree: &Tree) -> Result<Vec<u8>, AllocError>
    ensures order { IfOk result (λ order. order.items ≡ boundaries_from_root tree.now) }
    ensures tree { IsTree tree.now }
{
    let mut order = Vec::new(alloc);
    push_boundaries(tree, 0, 1, &mut order)?;
    Ok(order)
}

// Adds those within a cell whose numbers are `from` or more.
fn push_boundaries(tree: &Tree, cell: u8, from: u8, order: &mut Vec<u8>) -> Result<(), AllocError>
    requires { 1 ≤ from }
    ensures pushed { OnOk result (order.new.items ≡ order.old.items
        ++ boundaries_within (drop (from - 1) tree.now.cuts) from cell) }
    ensures tree { IsTree tree.now }
{
    if from >= tree.cells() {
        return Ok(());
    }
    if cell_cut(tree, from) != cell {
        return push_boundaries(tree, cell, from + 1, order);
    }
    order.push(from)?;
    push_boundaries(tree, cell, from + 1, order)?;
    push_boundaries(tree, from, from + 1, order)
}
