// Whether entities are held where they may be.
ghost use Rattle.std.specs.Prelude.{◌≡◌, ◌↔◌, ◌⊎◌, ◌<◌, ◌≤◌, ◌+◌, ◌-◌, ◌∷◌, List, IsTrue, IfOk, length, map};
ghost use Rattle.std.specs.List.{All, range_with_len};
ghost use Rattle.seam_rule_rounds.specs.Prelude.{tree_of, position_at, Pos as Positions, cells_of, IsPlaceAfter, AreInRange, distances};
ghost use Rattle.seam_rule_rounds.specs.Prelude.{HasPlace};
ghost use Rattle.seam_judge_data.specs.Standings.{standing_of};
ghost use Rattle.seam_judge_rounds.specs.HeldPlaces.{HaveHomes};
ghost use Rattle.seam_judge_rounds.specs.Points.{HasCell, IsCellAfter};

use seam_call::{Call, Create};
use seam_defs::{Part, Settings};
use seam_geo::Pos;
use seam_judge_data::{Place, Same, Standing};
use seam_judge_expected::{place_before, position_of, positions_past, settled_along, tree_in};
use seam_rule_lines::Header;
use seam_tree::Tree;
use std::alloc::{AllocError, Global};

fn is_long(path: &[Pos]) -> bool
    ensures { IsTrue result ↔ (1 < length path.now) }
{
    1 < path.len()
}

fn first_or_both(first: bool, second: bool, third: bool) -> bool
    ensures { IsTrue result ↔ (IsTrue first ⊎ (IsTrue second × IsTrue third)) }
{
    first || (second && third)
}

// Whether a place is settled along all of a path, or, where there is more than its start, along the rest.
fn is_place_after(settings: &Settings, tree: &Tree, was: Place, path: &[Pos], after: Place) -> bool
    requires home { was.home < cells_of tree.now }
    requires range { AreInRange settings.now }
    requires start { 1 ≤ length path.now }
    ensures { (start : Positions) (rest : List Positions) → path.now ≡ start ∷ rest →
        (IsTrue result ↔ IsPlaceAfter (distances settings.now) tree.now was start rest after) }
{
    let rest = &path[1..];
    let along_all = settled_along(settings, tree, was, path);
    let along_rest = settled_along(settings, tree, was, rest);
    let is_first = along_all.is(&after);
    let is_second = along_rest.is(&after);
    first_or_both(is_first, is_long(path), is_second)
}

// Whether a place has the home of one settled along all of a path, or, where there is more than its start, along the rest.
fn is_cell_after(settings: &Settings, tree: &Tree, was: Place, path: &[Pos], after: Place) -> bool
    requires home { was.home < cells_of tree.now }
    requires range { AreInRange settings.now }
    requires start { 1 ≤ length path.now }
    ensures { (start : Positions) (rest : List Positions) → path.now ≡ start ∷ rest →
        (IsTrue result ↔ IsCellAfter (distances settings.now) tree.now was start rest
        after.home) }
{
    let rest = &path[1..];
    let along_all = settled_along(settings, tree, was, path);
    let along_rest = settled_along(settings, tree, was, rest);
    let is_first = along_all.home == after.home;
    let is_second = along_rest.home == after.home;
    first_or_both(is_first, is_long(path), is_second)
}

// Where an entity was when a version began, and after each call past it.
fn path_from(
    alloc: Global,
    header: &Header,
    create: Create,
    order: &[&Call],
    version: usize,
) -> Result<Vec<Pos>, AllocError>
    ensures { IfOk result (λ ps. ps.items ≡ position_at header.now create
        (map (λ c. c.now) order.now) version ∷ map (position_at header.now create
        (map (λ c. c.now) order.now)) (range_with_len (version + 1)
        (length order.now - version))) }
{
    let mut path = Vec::new(alloc);
    path.push(position_of(header, create, order, version)?)?;
    let mut rest = positions_past(alloc, header, create, order, version)?;
    path.append(&mut rest)?;
    Ok(path)
}

// The standing before a round, and the tree of the round.
#[derive(Clone, Copy)]
struct Begun<'a> {
    before: &'a Standing,
    tree: &'a Tree,
}

// Whether an entity may have the place that it is left in.
fn has_place(
    alloc: Global,
    header: &Header,
    begun: Begun<'_>,
    after: &Standing,
    create: Create,
) -> Result<bool, AllocError>
    requires homes { HaveHomes (standing_of begun.before.now) }
    requires range { AreInRange header.now.settings }
    requires tree { begun.tree.now ≡ tree_of (standing_of begun.before.now).book }
    ensures { IfOk result (λ r. IsTrue r ↔ HasPlace header.now
        (standing_of begun.entry.before.now) (standing_of after.now) create) }
{
    let order = after.order_of(alloc, Part::Cell, create.entity)?;
    let former = begun.before.order_of(alloc, Part::Cell, create.entity)?;
    let began = former.as_slice().len();
    let path = path_from(alloc, header, create, &order, began)?;
    let was = place_before(begun.before, create);
    let held = after.place_of(create.entity);
    Ok(is_place_after(&header.settings, begun.tree, was, &path, held))
}

// Whether an entity may have its home in the cell in which it is left.
fn has_cell(
    alloc: Global,
    header: &Header,
    begun: Begun<'_>,
    after: &Standing,
    create: Create,
) -> Result<bool, AllocError>
    requires homes { HaveHomes (standing_of begun.before.now) }
    requires range { AreInRange header.now.settings }
    requires tree { begun.tree.now ≡ tree_of (standing_of begun.before.now).book }
    ensures { IfOk result (λ r. IsTrue r ↔ HasCell header.now
        (standing_of begun.entry.before.now) (standing_of after.now) create) }
{
    let order = after.order_of(alloc, Part::Cell, create.entity)?;
    let former = begun.before.order_of(alloc, Part::Cell, create.entity)?;
    let began = former.as_slice().len();
    let path = path_from(alloc, header, create, &order, began)?;
    let was = place_before(begun.before, create);
    let held = after.place_of(create.entity);
    Ok(is_cell_after(&header.settings, begun.tree, was, &path, held))
}

// Whether an entity has its home in a cell of the open round's tree.
fn has_home(before: &Standing, tree: &Tree, entity: u32) -> bool
    requires { tree.now ≡ tree_of (standing_of before.now).book }
    ensures { IsTrue result ↔ (((standing_of before.now).places entity).home
        < cells_of (tree_of (standing_of before.now).book)) }
{
    before.place_of(entity).home < tree.cells()
}

/// Whether each entity has its home in a cell of the open round's tree, as it has after rounds that were legal.
pub fn have_homes(before: &Standing) -> bool
    ensures { IsTrue result ↔ HaveHomes (standing_of before.now) }
{
    let tree = tree_in(before);
    for held in &before.places {
        if !has_home(before, &tree, held.entity) {
            return false;
        }
    }
    true
}

/// Whether each live entity may have the place that it is left in.
pub fn have_places(
    alloc: Global,
    header: &Header,
    before: &Standing,
    after: &Standing,
    live: &[Create],
) -> Result<bool, AllocError>
    requires homes { HaveHomes (standing_of before.now) }
    requires range { AreInRange header.now.settings }
    ensures { IfOk result (λ r. IsTrue r ↔ All (HasPlace header.now (standing_of before.now)
        (standing_of after.now)) live.now) }
{
    let tree = tree_in(before);
    let begun = Begun {
        before,
        tree: &tree,
    };
    for create in live {
        let may_be = has_place(alloc, header, begun, after, *create)?;
        if !may_be {
            return Ok(false);
        }
    }
    Ok(true)
}

/// Whether each live entity may have its home in the cell in which it is left.
pub fn have_cells(
    alloc: Global,
    header: &Header,
    before: &Standing,
    after: &Standing,
    live: &[Create],
) -> Result<bool, AllocError>
    requires homes { HaveHomes (standing_of before.now) }
    requires range { AreInRange header.now.settings }
    ensures { IfOk result (λ r. IsTrue r ↔ All (HasCell header.now (standing_of before.now)
        (standing_of after.now)) live.now) }
{
    let tree = tree_in(before);
    let begun = Begun {
        before,
        tree: &tree,
    };
    for create in live {
        let may_be = has_cell(alloc, header, begun, after, *create)?;
        if !may_be {
            return Ok(false);
        }
    }
    Ok(true)
}
