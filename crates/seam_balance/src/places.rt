ghost use Rattle.std.specs.Prelude.{◌≡◌, ℕ, ◌-◌, ◌^◌, ◌<◌, ◌≤◌, IfOk, map, filter, count_by, nat_lt, IsSorted, IsPermutation};
ghost use Rattle.std.specs.Ordering.{nat_cmp};
ghost use Rattle.seam_tree.specs.Boundary.{place_along};
ghost use Rattle.seam_tree.specs.Division.{HasBoundary};
ghost use Rattle.seam_balance.specs.Balance.{difference, lies_in, places_divided};

use crate::divided::{boundary_of, divided_area};
use seam_geo::{Pos, Rect};
use seam_tree::{Axis, Tree};
use std::alloc::{AllocError, Global};

// Where the positions of the area that the boundary divides lie along its axis, in rising order.
pub(crate) fn sorted_places(
    alloc: Global,
    tree: &Tree,
    b: u8,
    positions: &[Pos],
) -> Result<Vec<u32>, AllocError>
    requires { HasBoundary tree.now b }
    ensures same { IfOk result (λ places. IsPermutation (places_divided tree.now b positions.now)
        places.items) }
    ensures rising { IfOk result (λ places. IsSorted nat_cmp places.items) }
{
    let mut places = places_along(
        alloc,
        &divided_area(tree, b),
        boundary_of(tree, b).axis,
        positions,
    )?;
    places.sort_unstable();
    Ok(places)
}

fn places_along(
    alloc: Global,
    area: &Rect,
    axis: Axis,
    positions: &[Pos],
) -> Result<Vec<u32>, AllocError>
    ensures { IfOk result (λ places. places.items ≡ map (place_along axis)
        (filter (lies_in area.now) positions.now)) }
{
    positions
        .iter()
        .filter(|p| lies_in(area, **p))
        .map(|p| axis.place_of(*p))
        .collect(alloc)
}

fn lies_in(area: &Rect, p: Pos) -> bool
    ensures { result ≡ lies_in area.now p }
{
    area.holds(p)
}

// How many of the places lie below one.
fn count_below(places: &[u32], at: u32) -> usize
    requires { IsSorted nat_cmp places.now }
    ensures { result ≡ count_by (λ place. nat_lt place at) places.now }
{
    places.partition_point(|place| *place < at)
}

// How much the number of places below one differs from the number of the others.
fn difference_at(places: &[u32], at: u32) -> usize
    requires { IsSorted nat_cmp places.now }
    ensures { result ≡ difference places.now at }
{
    let below = count_below(places, at);
    below.abs_diff(places.len() - below)
}

// The first place of a range that is above at least `count` of the places, as the end of the range is.
fn first_above(places: &[u32], count: usize, lowest: u32, highest: u32) -> u32
    requires rising { IsSorted nat_cmp places.now }
    requires range { lowest ≤ highest }
    requires enough { count ≤ count_by (λ place. nat_lt place highest) places.now }
    ensures from { lowest ≤ result }
    ensures to { result ≤ highest }
    ensures enough { count ≤ count_by (λ place. nat_lt place result) places.now }
    ensures first { (at : ℕ) → lowest ≤ at → at < result →
        count_by (λ place. nat_lt place at) places.now < count }
{
    if count == 0 {
        return lowest;
    }
    lowest.max(places[count - 1] + 1)
}

// The place of a range that divides the places with the least difference, and the lowest of those.
pub(crate) fn best_place(places: &[u32], lowest: u32, highest: u32) -> u32
    requires rising { IsSorted nat_cmp places.now }
    requires range { lowest ≤ highest }
    ensures from { lowest ≤ result }
    ensures to { result ≤ highest }
    ensures least { (at : ℕ) → lowest ≤ at → at ≤ highest → difference places.now result
        ≤ difference places.now at }
    ensures lowest { (at : ℕ) → lowest ≤ at → at < result → difference places.now result
        < difference places.now at }
{
    // The difference falls while fewer than half of the places lie below, and never falls from there on: so the best is
    // the first place from there on, or the first with as many below as the last before it has.
    let half = (places.len() / 2).min(count_below(places, highest));
    let upper = first_above(places, half, lowest, highest);
    if upper == lowest {
        return lowest;
    }
    let lower = first_above(places, count_below(places, upper - 1), lowest, upper - 1);
    if difference_at(places, lower) <= difference_at(places, upper) {
        lower
    } else {
        upper
    }
}
