// Where a round leaves its entities.
ghost use Rattle.std.specs.Prelude.{◌≡◌, ◌∷◌, ◌++◌, ℕ, IfOk, length};
ghost use Rattle.seam_rule_rounds.specs.Prelude.{AreInRange, calls_of, position_at, positions_past};
ghost use Rattle.seam_defs.specs.declared.flags.Part.TheVariants as part;
ghost use Rattle.seam_judge_data.specs.Standings.{place_among, standing_of};
ghost use Rattle.seam_judge_rounds.specs.HeldPlaces.{HaveHomes};
ghost use Rattle.seam_judge_plain.specs.Plain.{orders_after, place_after, places_after};

use seam_call::{Call, Create};
use seam_defs::Part;
use seam_geo::Pos;
use seam_judge_data::{Held, Place, Standing, copies_of};
use seam_judge_expected::{
    calls_of, place_before, position_of, positions_past, settled_along, tree_in,
};
use seam_rule_lines::Header;
use std::alloc::{AllocError, Global};

// Where an entity was when the round began, and after each call that its cell part executed in it.
fn path_of(
    alloc: Global,
    header: &Header,
    before: &Standing,
    after: &Standing,
    create: Create,
) -> Result<Vec<Pos>, AllocError>
    ensures { IfOk result (λ ps. let order =
        (standing_of after.now).orders part.Cell create.entity in
        let began = length ((standing_of before.now).orders part.Cell create.entity) in
        ps.items ≡ position_at header.now create order began ∷
        positions_past header.now create order began) }
{
    let former = before.order_of(alloc, Part::Cell, create.entity)?;
    let order = after.order_of(alloc, Part::Cell, create.entity)?;
    let began = former.as_slice().len();
    let mut path = Vec::new(alloc);
    path.push(position_of(header, create, &order, began)?)?;
    let mut rest = positions_past(alloc, header, create, &order, began)?;
    path.append(&mut rest)?;
    Ok(path)
}

// The place of an entity, settled at each position of its path.
fn place_of(
    alloc: Global,
    header: &Header,
    before: &Standing,
    after: &Standing,
    create: Create,
) -> Result<Place, AllocError>
    requires homes { HaveHomes (standing_of before.now) }
    requires range { AreInRange header.now.settings }
    ensures { IfOk result (λ place. place ≡ place_after header.now (standing_of before.now)
        (standing_of after.now).orders create) }
{
    let path = path_of(alloc, header, before, after, create)?;
    let tree = tree_in(before);
    let was = place_before(before, create);
    Ok(settled_along(&header.settings, &tree, was, &path))
}

// Where each of the entities is held after the calls that `after` has executed.
fn places_of(
    alloc: Global,
    header: &Header,
    before: &Standing,
    after: &Standing,
    live: &[Create],
) -> Result<Vec<Held>, AllocError>
    requires homes { HaveHomes (standing_of before.now) }
    requires range { AreInRange header.now.settings }
    ensures { IfOk result (λ held. (e : ℕ) → place_among held.items e
        ≡ places_after header.now (standing_of before.now) (standing_of after.now).orders
        live.now e) }
{
    let mut places = Vec::new(alloc);
    for create in live {
        let place = place_of(alloc, header, before, after, *create)?;
        places.push(Held {
            entity: create.entity,
            place,
        })?;
    }
    Ok(places)
}

// What was executed up to now, and then the calls of the open round, in the order of the lines.
fn calls_after(alloc: Global, before: &Standing) -> Result<Vec<Call>, AllocError>
    ensures { IfOk result (λ calls. calls.items ≡ before.now.calls.items
        ++ calls_of before.now.current.items) }
{
    let mut calls = copies_of(alloc, &before.calls)?;
    let mut brought = calls_of(alloc, &before.current)?;
    calls.append(&mut brought)?;
    Ok(calls)
}

// A standing in which these calls are executed, and in which nobody is held anywhere yet.
fn with_calls(alloc: Global, before: &Standing) -> Result<Standing, AllocError>
    ensures { IfOk result (λ after. (standing_of after).orders
        ≡ orders_after (standing_of before.now)) }
{
    let calls = calls_after(alloc, before)?;
    Ok(Standing {
        lines: before.lines,
        rounds: before.rounds,
        past: Vec::new(alloc),
        tree: tree_in(before),
        current: Vec::new(alloc),
        calls,
        places: Vec::new(alloc),
        told: Vec::new(alloc),
    })
}

/// A standing with the calls of the open round executed, and with the live entities settled. Nothing else of it is filled.
pub(crate) fn settle(
    alloc: Global,
    header: &Header,
    before: &Standing,
    live: &[Create],
) -> Result<Standing, AllocError>
    requires homes { HaveHomes (standing_of before.now) }
    requires range { AreInRange header.now.settings }
    ensures orders { IfOk result (λ after. (standing_of after).orders
        ≡ orders_after (standing_of before.now)) }
    ensures places { IfOk result (λ after. (standing_of after).places
        ≡ places_after header.now (standing_of before.now)
        (orders_after (standing_of before.now)) live.now) }
{
    let mut after = with_calls(alloc, before)?;
    let places = places_of(alloc, header, before, &after, live)?;
    after.places = places;
    Ok(after)
}
