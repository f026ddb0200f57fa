// SPDX-License-Identifier: MIT

//! New places for a tree's boundaries, by which each divides the positions on its two sides as evenly as it may (BigWorld Server Overview,
//! load balancing).
//!
//! For callers, of `proofs/`: `One` (there is at most one best place of a boundary, and one balanced tree).
#![tactic(auto)]

ghost use Rattle.std.specs.Prelude.{◌≡◌, IfOk, OnOk, OnErr};
ghost use Rattle.seam_tree.specs.Division.{HasBoundary, IsTree};
ghost use Rattle.seam_tree.specs.Change.{CameBy, with_place};
ghost use Rattle.seam_balance.specs.Balance.{HasSameCuts, IsBalanced, IsBest};

mod allowed;
mod divided;
mod laws;
mod order;
mod places;

use crate::allowed::allowed_range;
use crate::order::boundaries_from_root;
use crate::places::{best_place, sorted_places};
pub use laws::one_is_balanced;
use seam_geo::Pos;
use seam_tree::Tree;
use std::alloc::{AllocError, Global};

/// The tree with its boundaries at new places, chosen in turn from the root on: a boundary, then those below its lower side, then those
/// below its upper side.
///
/// Each goes to a place at most `shift` away at which no cell's area is empty. Of these places it takes the one where the number of
/// positions below it, within the area that it divides, differs least from the number at or above it; of several such, the lowest.
pub fn balance(
    alloc: Global,
    tree: &Tree,
    positions: &[Pos],
    shift: u32,
) -> Result<Tree, AllocError>
    ensures balanced { IfOk result (λ new. IsBalanced positions.now shift tree.now new) }
    ensures same_cuts { IfOk result (λ new. HasSameCuts tree.now new) }
    ensures came { IfOk result (λ new. CameBy tree.now new) }
    ensures tree { IfOk result IsTree }
{
    let order = boundaries_from_root(alloc, tree)?;
    let mut balanced = *tree;
    for b in &order {
        move_to_best(alloc, &mut balanced, *b, positions, shift)?;
    }
    Ok(balanced)
}

// Moves the boundary to its best place, and gives that.
fn move_to_best(
    alloc: Global,
    tree: &mut Tree,
    b: u8,
    positions: &[Pos],
    shift: u32,
) -> Result<u32, AllocError>
    requires there { HasBoundary tree.old b }
    requires tree { IsTree tree.old }
    ensures best { IfOk result (λ at. IsBest tree.old b shift positions.now at) }
    ensures moved { IfOk result (λ at. tree.new ≡ with_place tree.old b at) }
    ensures tree { OnOk result (IsTree tree.new) }
{
    let places = sorted_places(alloc, tree, b, positions)?;
    let (lowest, highest) = allowed_range(tree, b, shift);
    let best = best_place(&places, lowest, highest);
    let _moved = tree.shift(u32::from(b), best);
    Ok(best)
}
