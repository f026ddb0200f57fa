//! The reals and the copies of a cell as they are seen, in rising number.

ghost use Rattle.std.specs.Prelude.{◌≡◌, ◌<◌, ◌+◌, ◌++◌, [], ◌∷◌, length, map, filter, IfOk, OnOk, IfSome, IfNone};
ghost use Rattle.seam_node_steps.specs.Prelude.{is_another};
ghost use Rattle.seam_cell_seen.specs.Merging.{seen_if, seen_at_location, is_other, without_reals, merged};

use seam_cell_parts::RealTable;
use seam_range::Location;
use seam_view::Seen;
use std::alloc::{AllocError, Global};

/// Adds an entity that is seen, if it is another one.
pub fn see(seen: &mut Vec<Seen>, next: Seen, own: u32) -> Result<(), AllocError>
    ensures { OnOk result (seen.new.items ≡ seen.old.items ++ seen_if (is_another own next.entity)
        next) }
{
    if next.entity == own {
        return Ok(());
    }
    match seen.push(next) {
        Ok(()) => Ok(()),
        Err(_) => Err(AllocError),
    }
}

// An entity of two lists, each in rising number and with locations, and what is left of them after it.
#[derive(Clone, Copy)]
struct Step<'a> {
    entity: u32,
    location: Location,
    first: &'a [(u32, Location)],
    second: &'a [(u32, Location)],
}

// The next entity of both lists, with the first one's location where both have it.
fn next_of<'a>(first: &'a [(u32, Location)], second: &'a [(u32, Location)]) -> Option<Step<'a>>
    ensures some { IfSome result (λ s. merged first.now second.now ≡ (s.entity, s.location) ∷
        merged s.first.now s.second.now) }
    ensures fewer { IfSome result (λ s. length s.first.now + length s.second.now
        < length first.now + length second.now) }
    ensures none { IfNone result (merged first.now second.now ≡ []) }
{
    let Some(((entity, location), rest)) = first.split_first() else {
        return next_of_second(first, second);
    };
    let one = Step {
        entity: *entity,
        location: *location,
        first: rest,
        second,
    };
    let Some(((entity, location), others)) = second.split_first() else {
        return Some(one);
    };
    if one.entity < *entity {
        return Some(one);
    }
    if *entity < one.entity {
        return Some(Step {
            entity: *entity,
            location: *location,
            first,
            second: others,
        });
    }
    Some(Step {
        second: others,
        ..one
    })
}

// The same where nothing is left of the first list.
fn next_of_second<'a>(
    first: &'a [(u32, Location)],
    second: &'a [(u32, Location)],
) -> Option<Step<'a>>
    requires { first.now ≡ [] }
    ensures some { IfSome result (λ s. merged first.now second.now ≡ (s.entity, s.location) ∷
        merged s.first.now s.second.now) }
    ensures fewer { IfSome result (λ s. length s.first.now + length s.second.now
        < length first.now + length second.now) }
    ensures none { IfNone result (merged first.now second.now ≡ []) }
{
    match second.split_first() {
        Some(((entity, location), others)) => Some(Step {
            entity: *entity,
            location: *location,
            first,
            second: others,
        }),
        None => None,
    }
}

// An entity as it is seen at its location.
fn seen_at(entity: u32, location: Location) -> Seen
    ensures { result ≡ seen_at_location (entity, location) }
{
    Seen {
        entity,
        version: location.version,
        pos: location.pos,
    }
}

// Those of whose entities no real is here.
fn without_reals(reals: &RealTable, mut entities: Vec<(u32, Location)>) -> Vec<(u32, Location)>
    ensures { result.items ≡ without_reals reals.now.items entities.items }
{
    entities.retain(|(e, _)| reals.get(*e).is_none());
    entities
}

// The entities of both lists other than the own one, as they are seen.
fn merged(
    alloc: Global,
    own: u32,
    reals: &[(u32, Location)],
    copies: &[(u32, Location)],
) -> Result<Vec<Seen>, AllocError>
    ensures { let others = filter (is_other own) (merged reals.now copies.now) in
        IfOk result (λ v. v.items ≡ map seen_at_location others) }
{
    let most = reals.len().saturating_add(copies.len());
    let mut seen = Vec::with_capacity(alloc, most)?;
    let mut first = reals;
    let mut second = copies;
    while let Some(next) = next_of(first, second) {
        see(&mut seen, seen_at(next.entity, next.location), own)?;
        first = next.first;
        second = next.second;
    }
    Ok(seen)
}

/// What is known of the entities of both lists other than the own one, in rising number. Of reals and copies each list is in rising number;
/// a copy counts only where the real is not here.
pub fn joined(
    alloc: Global,
    own: u32,
    here: &RealTable,
    reals: &[(u32, Location)],
    copies: Vec<(u32, Location)>,
) -> Result<Vec<Seen>, AllocError>
    ensures { let only_copies = without_reals here.now.items copies.items in
        let others = filter (is_other own) (merged reals.now only_copies) in
        IfOk result (λ v. v.items ≡ map seen_at_location others) }
{
    let only_copies = without_reals(here, copies);
    let seen = merged(alloc, own, reals, &only_copies)?;
    Ok(seen)
}
