// The standing that a round leaves.
ghost use Rattle.std.specs.Prelude.{◌≡◌, ◌+◌, ◌++◌, ◌&&◌, ◌==◌, ℕ, IfOk, map, if◌then◌else◌};
ghost use Rattle.std.specs.FinSet as set;
ghost use Rattle.seam_rule_rounds.specs.Prelude.{Division, tree_of};
ghost use Rattle.seam_judge_data.specs.Standings.{place_among, standing_of};
ghost use Rattle.seam_judge_rounds.specs.After.{is_ghost_of, ghosts_among, place_at, place_in, after_round};

use seam_call::Call;
use seam_judge_data::{
    ClientLine, Copied, DoneLine, GhostLine, Held, HomeLine, Place, Round, Standing, copies_of,
    copies_of_entries,
};
use seam_judge_expected::tree_in;
use seam_rule_lines::Entry;
use seam_tree::{CellSet, MOST_CELLS, Tree};
use std::alloc::{AllocError, Global};

// These cells, and that of a line where it shows a ghost of the entity.
fn with_ghost(cells: CellSet, line: &GhostLine, entity: u32) -> CellSet
    ensures { result ≡ (if is_ghost_of entity line.now then set.insert cells line.now.cell
        else cells) }
{
    if line.entity == entity && usize::from(line.cell) < MOST_CELLS {
        cells.with(line.cell)
    } else {
        cells
    }
}

// The cells with a ghost of an entity.
fn ghosts_among(lines: &[GhostLine], entity: u32) -> CellSet
    ensures { result ≡ ghosts_among lines.now entity }
{
    let mut cells = CellSet::none();
    for line in lines {
        cells = with_ghost(cells, line, entity);
    }
    cells
}

// Where a home line, and the ghost lines of its entity, show the entity.
fn place_at(round: &Round, home: &HomeLine) -> Place
    ensures { result ≡ place_at round.now home.now }
{
    Place {
        home: home.cell,
        ghosts: ghosts_among(&round.ghosts, home.entity),
    }
}

// Where a round shows its entities.
fn held_in(alloc: Global, round: &Round) -> Result<Vec<Held>, AllocError>
    ensures { IfOk result (λ held. (e : ℕ) → place_among held.items e ≡ place_in round.now e) }
{
    let mut held = Vec::new(alloc);
    for home in &round.homes {
        held.push(Held {
            entity: home.entity,
            place: place_at(round, home),
        })?;
    }
    Ok(held)
}

// The calls of lines.
fn calls_in(alloc: Global, lines: &[DoneLine]) -> Result<Vec<Call>, AllocError>
    ensures { IfOk result (λ calls. calls.items ≡ map (λ l. l.call) lines.now) }
{
    let mut calls = Vec::new(alloc);
    for line in lines {
        calls.push(line.call.copied()?)?;
    }
    Ok(calls)
}

/// The calls that a round shows as executed, those of cell parts first.
pub(crate) fn calls_done(alloc: Global, round: &Round) -> Result<Vec<Call>, AllocError>
    ensures { IfOk result (λ calls. calls.items ≡ map (λ l. l.call) (round.now.did
        ++ round.now.dob)) }
{
    let mut calls = calls_in(alloc, &round.did)?;
    let mut further = calls_in(alloc, &round.dob)?;
    calls.append(&mut further)?;
    Ok(calls)
}

// What was accepted up to now.
fn entries_of(alloc: Global, before: &Standing) -> Result<Vec<Entry>, AllocError>
    ensures { IfOk result (λ all. all.items ≡ before.now.past.items ++ before.now.current.items) }
{
    let mut all = copies_of_entries(alloc, &before.past)?;
    let mut further = copies_of_entries(alloc, &before.current)?;
    all.append(&mut further)?;
    Ok(all)
}

// What was executed up to the round's end.
fn calls_after(alloc: Global, before: &Standing, round: &Round) -> Result<Vec<Call>, AllocError>
    ensures { IfOk result (λ calls. calls.items ≡ before.now.calls.items
        ++ map (λ l. l.call) (round.now.did ++ round.now.dob)) }
{
    let mut calls = copies_of(alloc, &before.calls)?;
    let mut further = calls_done(alloc, round)?;
    calls.append(&mut further)?;
    Ok(calls)
}

// What clients were shown up to its end.
fn told_after(
    alloc: Global,
    before: &Standing,
    round: &Round,
) -> Result<Vec<ClientLine>, AllocError>
    ensures { IfOk result (λ told. told.items ≡ before.now.told.items ++ round.now.shown) }
{
    let mut told = copies_of(alloc, &before.told)?;
    let mut further = copies_of(alloc, &round.shown)?;
    told.append(&mut further)?;
    Ok(told)
}

// The tree with which the next round begins.
fn tree_after(before: &Standing, round: &Round) -> Tree
    ensures none { round.now.bounds ≡ None → result ≡ tree_of (standing_of before.now).book }
    ensures some { (next : Division) → round.now.bounds ≡ Some next → result ≡ next }
{
    match &round.bounds {
        Some(next) => *next,
        None => tree_in(before),
    }
}

/// The standing that a round leaves, which has the number after those that ended.
pub fn standing_after(
    alloc: Global,
    before: &Standing,
    round: &Round,
) -> Result<Standing, AllocError>
    requires { round.now.number ≡ before.now.rounds + 1 }
    ensures { IfOk result (λ after. standing_of after ≡ after_round (standing_of before.now)
        round.now) }
{
    let past = entries_of(alloc, before)?;
    let calls = calls_after(alloc, before, round)?;
    let places = held_in(alloc, round)?;
    let told = told_after(alloc, before, round)?;
    Ok(Standing {
        lines: before.lines,
        rounds: round.number,
        past,
        tree: tree_after(before, round),
        current: Vec::new(alloc),
        calls,
        places,
        told,
    })
}
