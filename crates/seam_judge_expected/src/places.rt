// Where entities may be held.
ghost use Rattle.std.specs.Prelude.{◌≡◌, ◌<◌, ◌≤◌, ◌-◌, ◌+◌, ◌==◌, ◌&&◌, nat_le, if◌then◌else◌, IfOk, map, length};
ghost use Rattle.std.specs.List.{range_with_len};
ghost use Rattle.seam_rule_rounds.specs.Prelude.{place_along, cells_of, cut_after, leaf_at, settled, settled_all, AreInRange, tree_of};
ghost use Rattle.seam_rule_rounds.specs.Prelude.{position_at, distances, place_before};
ghost use Rattle.seam_tree.specs.Division.{HasBoundary};
ghost use Rattle.seam_haunt.specs.Places.{home_at};
ghost use Rattle.seam_judge_data.specs.Standings.{standing_of};

use crate::entities::tree_in;
use crate::entries::is_made_by;
use crate::states::state_at;
use seam_call::{Call, Create};
use seam_defs::{Part, Settings};
use seam_geo::Pos;
use seam_haunt::haunts_after;
use seam_judge_data::{Place, Standing};
use seam_rule_lines::Header;
use seam_tree::{Boundary, CellSet, Tree};
use std::alloc::{AllocError, Global};

// The cut that made a boundary, which the tree has: the cell that it cut, and the boundary.
fn cut_of(tree: &Tree, b: u8) -> (u8, Boundary)
    requires { HasBoundary tree.now b }
    ensures cell { result.0 ≡ (cut_after tree.now (b - 1)).cell }
    ensures boundary { result.1 ≡ (cut_after tree.now (b - 1)).boundary }
{
    (tree.cut_of(b).unwrap(), tree.boundary(b).unwrap())
}

// The cell of a position after one more boundary, before which it was this one.
fn leaf_past(tree: &Tree, b: u8, leaf: u8, pos: Pos) -> u8
    requires { HasBoundary tree.now b }
    ensures value { let cut = cut_after tree.now (b - 1) in result
        ≡ (if (cut.cell == leaf) && nat_le cut.boundary.at (place_along cut.boundary.axis pos)
        then b else leaf) }
    ensures most { leaf ≤ b → result ≤ b }
{
    let (cell, boundary) = cut_of(tree, b);
    if cell == leaf && boundary.at <= boundary.axis.place_of(pos) {
        b
    } else {
        leaf
    }
}

// The cell of a position, one beyond the space too.
fn leaf_at(tree: &Tree, pos: Pos) -> u8
    ensures value { result ≡ leaf_at tree.now pos }
    ensures cell { result < cells_of tree.now }
{
    let mut leaf = 0;
    for b in 1..tree.cells() {
        leaf = leaf_past(tree, b, leaf, pos);
    }
    leaf
}

// The home of an entity at a position that had this one.
fn home_at(kept: u32, tree: &Tree, home: u8, pos: Pos) -> u8
    requires { home < cells_of tree.now }
    ensures value { result ≡ home_at kept tree.now home pos }
    ensures cell { result < cells_of tree.now }
{
    let distance = tree.area(home).unwrap().dist(pos);
    if distance <= kept {
        home
    } else {
        leaf_at(tree, pos)
    }
}

/// A place settled at a position.
pub fn settled(settings: &Settings, tree: &Tree, was: Place, pos: Pos) -> Place
    requires home { was.home < cells_of tree.now }
    requires range { AreInRange settings.now }
    ensures value { result ≡ settled (distances settings.now) tree.now was pos }
    ensures cell { result.home < cells_of tree.now }
{
    let home = home_at(settings.offload_hysteresis, tree, was.home, pos);
    // A tree has sixteen cells at most, which this call's clause says.
    let _cells = tree.cells();
    let near = settings.ghost_distance;
    let far = near + settings.ghost_hysteresis;
    let old = was.ghosts.with(was.home);
    Place {
        home,
        ghosts: haunts_after(pos, home, old, tree, near, far),
    }
}

/// A place settled at each of these positions in turn.
pub fn settled_along(settings: &Settings, tree: &Tree, was: Place, path: &[Pos]) -> Place
    requires home { was.home < cells_of tree.now }
    requires range { AreInRange settings.now }
    ensures value { result ≡ settled_all (distances settings.now) tree.now was path.now }
    ensures cell { result.home < cells_of tree.now }
{
    let mut place = was;
    for pos in path {
        place = settled(settings, tree, place, *pos);
    }
    place
}

/// Where an entity is at a version.
pub fn position_of(
    header: &Header,
    create: Create,
    order: &[&Call],
    version: usize,
) -> Result<Pos, AllocError>
    ensures { IfOk result (λ p. p ≡ position_at header.now create (map (λ c. c.now) order.now)
        version) }
{
    Ok(state_at(header, Part::Cell, create, order, version)?.pos)
}

/// Where it is after each of its calls past a version.
pub fn positions_past(
    alloc: Global,
    header: &Header,
    create: Create,
    order: &[&Call],
    version: usize,
) -> Result<Vec<Pos>, AllocError>
    ensures { IfOk result (λ ps. ps.items ≡ map (position_at header.now create
        (map (λ c. c.now) order.now)) (range_with_len (version + 1)
        (length order.now - version))) }
{
    let mut positions = Vec::new(alloc);
    for v in version..order.len() {
        positions.push(position_of(header, create, order, v + 1)?)?;
    }
    Ok(positions)
}

/// Where an entity was held when the round began.
pub fn place_before(before: &Standing, create: Create) -> Place
    requires { ((standing_of before.now).places create.entity).home
        < cells_of (tree_of (standing_of before.now).book) }
    ensures value { result ≡ place_before (standing_of before.now) create }
    ensures cell { result.home < cells_of (tree_of (standing_of before.now).book) }
{
    if is_made_by(&before.current, create.entity) {
        return Place {
            home: leaf_at(&tree_in(before), create.pos),
            ghosts: CellSet::none(),
        };
    }
    before.place_of(create.entity)
}
