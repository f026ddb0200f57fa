// A round to be judged, and its clients.
ghost use Rattle.std.specs.Prelude.{◌≡◌, ◌==◌, ℕ, IfOk, find, filter, map, option_copied};
ghost use Rattle.std.specs.List.{list_any};
ghost use Rattle.std.specs.Ordering.{nat_cmp};
ghost use Rattle.std.specs.BTreeSet as set;
ghost use Rattle.seam_rule_rounds.specs.Prelude.{created_as, destroys, is_shown, joins, Lists, lines_to};
ghost use Rattle.seam_judge_data.specs.Standings.{standing_of};
ghost use Rattle.seam_judge_rounds.specs.RoundClients.{client_as, is_known};

use crate::numbers::{died_in, joined_in};
use seam_call::{ClientText, Create, Line};
use seam_judge_data::{ClientLine, Copied, Round, Standing};
use seam_judge_expected::{created_in, has_died, has_joined};
use seam_rule_lines::Header;
use std::alloc::{AllocError, Global};
use std::collections::BTreeSet;

/// A round to be judged: the header, the standings before and after it, and what it prints.
#[derive(Clone, Copy)]
pub struct Case<'a> {
    pub header: &'a Header,
    pub before: &'a Standing,
    pub after: &'a Standing,
    pub round: &'a Round,
}

/// What made the entity of a number.
pub(crate) fn created_as(
    alloc: Global,
    standing: &Standing,
    entity: u32,
) -> Result<Option<Create>, AllocError>
    ensures { IfOk result (λ c. c ≡ created_as (standing_of standing.now).book entity) }
{
    let creates = created_in(alloc, standing)?;
    Ok(found(&creates, entity).copied())
}

// The first of these that has a number.
fn found(creates: &[Create], entity: u32) -> Option<&Create>
    ensures { option_copied result ≡ find (λ c. c.entity == entity) creates.now }
{
    creates.iter().find(|create| create.entity == entity)
}

/// Whether an entity has a client at some time of the open round.
pub(crate) fn is_shown(alloc: Global, standing: &Standing, entity: u32) -> Result<bool, AllocError>
    ensures { IfOk result (λ r. r ≡ is_shown (standing_of standing.now).book entity) }
{
    let created = created_as(alloc, standing, entity)?;
    let joined = has_joined(&standing.past, entity) || has_joined(&standing.current, entity);
    Ok(created.is_some() && joined && !has_died(&standing.past, entity))
}

/// Those of the entities that have a client at some time of the open round.
pub fn clients_among(
    alloc: Global,
    standing: &Standing,
    made: &[Create],
) -> Result<Vec<Create>, AllocError>
    requires { Lists (created_as (standing_of standing.now).book) made.now }
    ensures { IfOk result (λ clients. Lists (client_as (standing_of standing.now).book)
        clients.items) }
{
    shown_among(alloc, standing, made)
}

// Whether an entity, if it was created, has a client at some time of the open round.
fn is_known(
    standing: &Standing,
    before: &BTreeSet<u32>,
    now: &BTreeSet<u32>,
    dead: &BTreeSet<u32>,
    entity: u32,
) -> bool
    requires before { (e : ℕ) → set.contains nat_cmp before.now e
        ≡ list_any (joins e) standing.now.past.items }
    requires now { (e : ℕ) → set.contains nat_cmp now.now e
        ≡ list_any (joins e) standing.now.current.items }
    requires dead { (e : ℕ) → set.contains nat_cmp dead.now e
        ≡ list_any (destroys e) standing.now.past.items }
    ensures { result ≡ is_known (standing_of standing.now).book entity }
{
    let joined = before.contains(&entity) || now.contains(&entity);
    joined && !dead.contains(&entity)
}

// Those of them that were given a client, and were not dead before.
fn shown_among(
    alloc: Global,
    standing: &Standing,
    made: &[Create],
) -> Result<Vec<Create>, AllocError>
    ensures { IfOk result (λ clients. clients.items ≡ filter
        (λ c. is_known (standing_of standing.now).book c.entity) made.now) }
{
    let before = joined_in(alloc, &standing.past)?;
    let now = joined_in(alloc, &standing.current)?;
    let dead = died_in(alloc, &standing.past)?;
    let mut clients = Vec::new(alloc);
    for create in made {
        let known = is_known(standing, &before, &now, &dead, create.entity);
        if known {
            clients.push(*create)?;
        }
    }
    Ok(clients)
}

/// The lines of an entity's client.
pub(crate) fn lines_to(
    alloc: Global,
    round: &Round,
    entity: u32,
) -> Result<Vec<&ClientLine>, AllocError>
    ensures { IfOk result (λ lines. map (λ l. l.now) lines.items ≡ lines_to round.now entity) }
{
    round
        .shown
        .iter()
        .filter(|line| line.entity == entity)
        .collect(alloc)
}

/// What these lines tell.
pub(crate) fn told_by<'a>(
    alloc: Global,
    lines: &[&'a ClientLine],
) -> Result<Vec<&'a Line>, AllocError>
    ensures { IfOk result (λ told. map (λ l. l.now) told.items
        ≡ map (λ l. l.line) (map (λ l. l.now) lines.now)) }
{
    let mut told = Vec::new(alloc);
    for line in lines {
        told.push(&line.line)?;
    }
    Ok(told)
}

/// Copies of their texts.
pub(crate) fn texts_of(alloc: Global, lines: &[&Line]) -> Result<Vec<ClientText>, AllocError>
    ensures { IfOk result (λ texts. texts.items ≡ map (λ l. l.text) (map (λ l. l.now) lines.now)) }
{
    let mut texts = Vec::new(alloc);
    for line in lines {
        texts.push(line.text.copied()?)?;
    }
    Ok(texts)
}
