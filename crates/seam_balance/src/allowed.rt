ghost use Rattle.std.specs.Prelude.{◌≡◌, ℕ, ◌-◌, ◌^◌, ◌<◌, ◌≤◌, ◌↔◌, MatchBool, min, max};
ghost use Rattle.seam_tree.specs.Division.{HasBoundary, IsTree, NoneEmpty, SomeEmpty};
ghost use Rattle.seam_tree.specs.Change.{with_place};
ghost use Rattle.seam_balance.specs.Balance.{IsAllowed, stepped};
ghost use Rattle.seam_geo.specs.Pos.{gap};

use crate::divided::{boundary_of, divided_area};
use seam_tree::Tree;

// The least and the greatest place to which the boundary may go: it may go to all between them.
pub(crate) fn allowed_range(tree: &Tree, b: u8, shift: u32) -> (u32, u32)
    requires there { HasBoundary tree.now b }
    requires tree { IsTree tree.now }
    ensures allowed { (at : ℕ) → IsAllowed tree.now b shift at ↔
        ((result.0 ≤ at) × (at ≤ result.1)) }
    ensures range { result.0 ≤ result.1 }
{
    let boundary = boundary_of(tree, b);
    let end = boundary.axis.place_of(divided_area(tree, b).high());
    let least = boundary.at.saturating_sub(shift);
    let most = boundary.at.saturating_add(shift).min(end - 1);
    let lowest = farthest_allowed(tree, b, boundary.at, least);
    let highest = farthest_allowed(tree, b, boundary.at, most);
    (lowest, highest)
}

// Whether no cell's area is empty with the boundary at the place.
fn is_allowed(tree: &Tree, b: u8, at: u32) -> bool
    requires { HasBoundary tree.now b }
    ensures { MatchBool result (NoneEmpty (with_place tree.now b at))
        (SomeEmpty (with_place tree.now b at)) }
{
    let mut moved = *tree;
    moved.shift(u32::from(b), at).is_ok()
}

// The place some steps away from one on the way to another.
fn stepped(from: u32, end: u32, steps: u32) -> u32
    requires { steps ≤ gap from end }
    ensures { result ≡ stepped from end steps }
{
    if end < from {
        from - steps
    } else {
        from + steps
    }
}

// The allowed place that is farthest from the allowed place `from` on the way to `end`.
fn farthest_allowed(tree: &Tree, b: u8, from: u32, end: u32) -> u32
    requires there { HasBoundary tree.now b }
    requires tree { IsTree tree.now }
    requires allowed { NoneEmpty (with_place tree.now b from) }
    ensures least { min from end ≤ result }
    ensures most { result ≤ max from end }
    ensures allowed { NoneEmpty (with_place tree.now b result) }
    ensures above { (at : ℕ) → result < at → at ≤ end → ¬ NoneEmpty (with_place tree.now b at) }
    ensures below { (at : ℕ) → end ≤ at → at < result → ¬ NoneEmpty (with_place tree.now b at) }
{
    let mut farthest = 0;
    let mut most = from.abs_diff(end);
    while farthest < most {
        let middle = most - (most - farthest) / 2;
        if is_allowed(tree, b, stepped(from, end, middle)) {
            farthest = middle;
        } else {
            most = middle - 1;
        }
    }
    stepped(from, end, farthest)
}
