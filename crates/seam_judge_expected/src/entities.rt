// The entities of a standing.
ghost use Rattle.std.specs.Prelude.{◌≡◌, ◌==◌, ◌++◌, ◌∷◌, [], ℕ, find, map, not, filter, IfOk, OnOk, Contains, option_copied};
ghost use Rattle.std.specs.List.{list_any};
ghost use Rattle.std.specs.List.Sorted.{IsStrictlyIncreasing};
ghost use Rattle.seam_rule_rounds.specs.Prelude.{created_as, creates_of, entries, live_as, destroys, tree_of, Lists};
ghost use Rattle.seam_judge_data.specs.Standings.{standing_of};
ghost use Rattle.seam_judge_expected.specs.Entities.{among_numbers};

use crate::entries::{creates_of, has_died, tree_after};
use seam_call::Create;
use seam_judge_data::Standing;
use seam_tree::Tree;
use std::alloc::{AllocError, Global};

/// What was created up to now, in the order of the lines.
pub fn created_in(alloc: Global, standing: &Standing) -> Result<Vec<Create>, AllocError>
    ensures { IfOk result (λ creates. creates.items ≡ creates_of
        (entries (standing_of standing.now).book)) }
{
    let mut creates = creates_of(alloc, &standing.past)?;
    let mut later = creates_of(alloc, &standing.current)?;
    creates.append(&mut later)?;
    Ok(creates)
}

// The numbers of the entities, in rising order.
fn numbers_of(alloc: Global, creates: &[Create]) -> Result<Vec<u32>, AllocError>
    ensures { IfOk result (λ ns. IsStrictlyIncreasing ns.items
        × ((e : ℕ) → Contains (map (λ c. c.entity) creates.now) e → Contains ns.items e)) }
{
    let mut numbers = entities_of(alloc, creates)?;
    numbers.sort()?;
    numbers.dedup();
    Ok(numbers)
}

fn entities_of(alloc: Global, creates: &[Create]) -> Result<Vec<u32>, AllocError>
    ensures { IfOk result (λ ns. ns.items ≡ map (λ c. c.entity) creates.now) }
{
    creates.iter().map(|c| c.entity).collect(alloc)
}

// What made an entity.
fn created_as(creates: &[Create], entity: u32) -> Option<&Create>
    ensures { option_copied result ≡ find (λ c. c.entity == entity) creates.now }
{
    creates.iter().find(|c| c.entity == entity)
}

/// Each entity that was created, by what made it, in rising number.
pub fn entities_in(alloc: Global, creates: &[Create]) -> Result<Vec<Create>, AllocError>
    ensures { IfOk result (λ made. Lists (λ e. find (λ c. c.entity == e) creates.now) made.items) }
{
    let numbers = numbers_of(alloc, creates)?;
    among_numbers(alloc, creates, &numbers)
}

// The entities of these numbers.
fn among_numbers(
    alloc: Global,
    creates: &[Create],
    numbers: &[u32],
) -> Result<Vec<Create>, AllocError>
    ensures { IfOk result (λ made. made.items ≡ among_numbers creates.now numbers.now) }
{
    let mut made = Vec::new(alloc);
    for number in numbers {
        add_found(&mut made, creates, *number)?;
    }
    Ok(made)
}

// Adds the entity of a number, where there is one.
fn add_found(made: &mut Vec<Create>, creates: &[Create], number: u32) -> Result<(), AllocError>
    ensures { OnOk result (made.new.items ≡ made.old.items ++ among_numbers creates.now
        (number ∷ [])) }
{
    match created_as(creates, number) {
        Some(create) => {
            made.push(*create)?;
            Ok(())
        }
        None => Ok(()),
    }
}

/// The entities that were created up to now, in rising number.
pub fn made_in(alloc: Global, standing: &Standing) -> Result<Vec<Create>, AllocError>
    ensures { IfOk result (λ made. Lists (created_as (standing_of standing.now).book) made.items) }
{
    let creates = created_in(alloc, standing)?;
    entities_in(alloc, &creates)
}

/// Those of the entities that live.
pub fn live_among(
    alloc: Global,
    standing: &Standing,
    made: &[Create],
) -> Result<Vec<Create>, AllocError>
    requires { Lists (created_as (standing_of standing.now).book) made.now }
    ensures { IfOk result (λ live. Lists (live_as (standing_of standing.now).book) live.items) }
{
    living(alloc, standing, made)
}

// Those of the entities that no entry destroys.
fn living(alloc: Global, standing: &Standing, made: &[Create]) -> Result<Vec<Create>, AllocError>
    ensures { IfOk result (λ live. live.items ≡ filter (λ c.
        not (list_any (destroys c.entity) (entries (standing_of standing.now).book)))
        made.now) }
{
    let mut live = Vec::new(alloc);
    for create in made {
        if !is_dead(standing, create.entity) {
            live.push(*create)?;
        }
    }
    Ok(live)
}

/// Whether an entity was destroyed.
pub fn is_dead(standing: &Standing, entity: u32) -> bool
    ensures { result ≡ list_any (destroys entity) (entries (standing_of standing.now).book) }
{
    has_died(&standing.past, entity) || has_died(&standing.current, entity)
}

/// The tree of the open round.
pub fn tree_in(standing: &Standing) -> Tree
    ensures { result ≡ tree_of (standing_of standing.now).book }
{
    tree_after(standing.tree, &standing.current)
}
