// The points of a legal round about numbers, homes, base parts, ghosts and boundaries.
ghost use Rattle.std.specs.Prelude.{◌≡◌, ◌↔◌, ◌+◌, IsTrue, IfOk, map, option_copied, Some};
ghost use Rattle.std.specs.List.{flat_map};
ghost use Rattle.seam_rule_rounds.specs.Prelude.{IsBalanced, tree_of, home_line, base_line, ghost_lines};
ghost use Rattle.seam_judge_data.specs.Standings.{standing_of};
ghost use Rattle.seam_judge_rounds.specs.Bounds.{PrintsBounds};

use seam_balance::balance;
use seam_call::Create;
use seam_geo::Pos;
use seam_judge_data::{BaseLine, GhostLine, HomeLine, Round, Same, Standing, are_same};
use seam_judge_expected::{bases_of, ghosts_of, has_balance, homes_of, tree_in};
use seam_rule_lines::Header;
use seam_tree::Tree;
use std::alloc::{AllocError, Global};

/// Whether a round has the number after those that ended.
pub fn is_numbered(before: &Standing, round: &Round) -> bool
    ensures { IsTrue result ↔ (round.now.number ≡ before.now.rounds + 1) }
{
    if round.number == 0 {
        return false;
    }
    round.number - 1 == before.rounds
}

/// Whether the home lines are those of the live entities.
pub fn are_homes(
    alloc: Global,
    header: &Header,
    after: &Standing,
    live: &[Create],
    lines: &[HomeLine],
) -> Result<bool, AllocError>
    ensures { IfOk result (λ r. IsTrue r ↔ (lines.now ≡
        map (home_line header.now (standing_of after.now)) live.now)) }
{
    Ok(are_same(lines, &homes_of(alloc, header, after, live)?))
}

/// Whether the base lines are those of the live entities.
pub fn are_bases(
    alloc: Global,
    header: &Header,
    after: &Standing,
    live: &[Create],
    lines: &[BaseLine],
) -> Result<bool, AllocError>
    ensures { IfOk result (λ r. IsTrue r ↔ (lines.now ≡
        map (base_line header.now (standing_of after.now)) live.now)) }
{
    Ok(are_same(lines, &bases_of(alloc, header, after, live)?))
}

/// Whether the ghost lines are those of the live entities, by the tree of the round that `before` has open.
pub fn are_ghosts(
    alloc: Global,
    header: &Header,
    before: &Standing,
    after: &Standing,
    live: &[Create],
    lines: &[GhostLine],
) -> Result<bool, AllocError>
    ensures { IfOk result (λ r. IsTrue r ↔ (lines.now ≡
        flat_map (ghost_lines header.now (tree_of (standing_of before.now).book)
        (standing_of after.now)) live.now)) }
{
    Ok(are_same(
        lines,
        &ghosts_of(alloc, header, &tree_in(before), after, live)?,
    ))
}

// Where the homes of a round are.
fn positions_of(alloc: Global, homes: &[HomeLine]) -> Result<Vec<Pos>, AllocError>
    ensures { IfOk result (λ ps. ps.items ≡ map (λ l. l.state.pos) homes.now) }
{
    let mut positions = Vec::new(alloc);
    for home in homes {
        positions.push(home.state.pos)?;
    }
    Ok(positions)
}

// Whether the tree is that of the open round, balanced by where these homes are.
fn is_balanced(
    alloc: Global,
    header: &Header,
    before: &Standing,
    homes: &[HomeLine],
    bounds: &Tree,
) -> Result<bool, AllocError>
    ensures { IfOk result (λ r. IsTrue r ↔ IsBalanced (map (λ l. l.state.pos) homes.now)
        header.now.settings.balance_shift (tree_of (standing_of before.now).book) bounds.now) }
{
    let positions = positions_of(alloc, homes)?;
    let tree = tree_in(before);
    let next = balance(alloc, &tree, &positions, header.settings.balance_shift)?;
    Ok(next.is(bounds))
}

// Whether a round may print this tree.
fn may_print(
    alloc: Global,
    header: &Header,
    before: &Standing,
    homes: &[HomeLine],
    bounds: &Tree,
) -> Result<bool, AllocError>
    ensures { IfOk result (λ r. IsTrue r ↔ PrintsBounds header.now (standing_of before.now)
        homes.now (Some bounds.now)) }
{
    let balances = has_balance(&before.current);
    if !balances {
        return Ok(false);
    }
    is_balanced(alloc, header, before, homes, bounds)
}

/// Whether a round prints the tree that its boundaries have where they were balanced, and none where they were not.
pub fn are_bounds(
    alloc: Global,
    header: &Header,
    before: &Standing,
    homes: &[HomeLine],
    bounds: Option<&Tree>,
) -> Result<bool, AllocError>
    ensures { IfOk result (λ r. IsTrue r ↔ PrintsBounds header.now (standing_of before.now)
        homes.now (option_copied bounds.entry)) }
{
    match bounds {
        Some(bounds) => may_print(alloc, header, before, homes, bounds),
        None => Ok(!has_balance(&before.current)),
    }
}
