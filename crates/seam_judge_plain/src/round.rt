// One legal round.
ghost use Rattle.std.specs.Prelude.{◌≡◌, ◌+◌, ◌<◌, ◌^◌, IfOk, IfSome, IfNone, map};
ghost use Rattle.seam_rule_rounds.specs.Prelude.{AreInRange, created_as, live_as, Lists, RoundData, IsRound};
ghost use Rattle.seam_judge_data.specs.Standings.{standing_of};
ghost use Rattle.seam_judge_rounds.specs.After.{after_round};
ghost use Rattle.seam_judge_rounds.specs.Bounds.{PrintsBounds};
ghost use Rattle.seam_judge_rounds.specs.RoundClients.{client_as};
ghost use Rattle.seam_judge_rounds.specs.HeldPlaces.{HaveHomes};
ghost use Rattle.seam_judge_plain.specs.Plain.{IsPlain};

use crate::clients::{Turn, lines_to};
use crate::places::settle;
use seam_balance::balance;
use seam_call::Create;
use seam_defs::Part;
use seam_geo::Pos;
use seam_judge_data::{HomeLine, Round, Standing};
use seam_judge_expected::{
    bases_of, calls_of, done_lines_of, ghosts_of, has_balance, homes_of, live_among, made_in,
    tree_in,
};
use seam_judge_rounds::{clients_among, have_homes, judge};
use seam_rule_lines::Header;
use seam_tree::Tree;
use std::alloc::{AllocError, Global};

// The entities that were created, those of them that live, and those with a client at some time of the round.
#[derive(Drop)]
struct Entities {
    made: Vec<Create>,
    live: Vec<Create>,
    clients: Vec<Create>,
}

fn entities_in(alloc: Global, before: &Standing) -> Result<Entities, AllocError>
    ensures made { IfOk result (λ all. Lists (created_as (standing_of before.now).book)
        all.made.items) }
    ensures live { IfOk result (λ all. Lists (live_as (standing_of before.now).book)
        all.live.items) }
    ensures clients { IfOk result (λ all. Lists (client_as (standing_of before.now).book)
        all.clients.items) }
{
    let made = made_in(alloc, before)?;
    let live = live_among(alloc, before, &made)?;
    let clients = clients_among(alloc, before, &made)?;
    Ok(Entities {
        made,
        live,
        clients,
    })
}

// Where the homes are.
fn positions_of(alloc: Global, homes: &[HomeLine]) -> Result<Vec<Pos>, AllocError>
    ensures { IfOk result (λ ps. ps.items ≡ map (λ l. l.state.pos) homes.now) }
{
    let mut positions = Vec::new(alloc);
    for home in homes {
        positions.push(home.state.pos)?;
    }
    Ok(positions)
}

// The tree, with its boundaries balanced by where the homes are, if a line of the open round asks for that.
fn bounds_of(
    alloc: Global,
    header: &Header,
    before: &Standing,
    homes: &[HomeLine],
) -> Result<Option<Tree>, AllocError>
    ensures { IfOk result (PrintsBounds header.now (standing_of before.now) homes.now) }
{
    if !has_balance(&before.current) {
        return Ok(None);
    }
    let positions = positions_of(alloc, homes)?;
    let tree = tree_in(before);
    let next = balance(alloc, &tree, &positions, header.settings.balance_shift)?;
    Ok(Some(next))
}

// The round of this number, list by list.
fn round_of(
    alloc: Global,
    header: &Header,
    before: &Standing,
    number: u64,
) -> Result<Round, AllocError>
    requires homes { HaveHomes (standing_of before.now) }
    requires range { AreInRange header.now.settings }
    requires number { number ≡ before.now.rounds + 1 }
    ensures { IfOk result (IsPlain header.now (standing_of before.now)) }
{
    let all = entities_in(alloc, before)?;
    let after = settle(alloc, header, before, &all.live)?;
    let turn = Turn {
        header,
        before,
        after: &after,
    };
    let calls = calls_of(alloc, &before.current)?;
    let did = done_lines_of(alloc, Part::Cell, &all.made, &calls)?;
    let dob = done_lines_of(alloc, Part::Base, &all.made, &calls)?;
    let homes = homes_of(alloc, header, &after, &all.live)?;
    let bases = bases_of(alloc, header, &after, &all.live)?;
    let ghosts = ghosts_of(alloc, header, &tree_in(before), &after, &all.live)?;
    let shown = lines_to(alloc, &turn, &all.clients, &all.live)?;
    let bounds = bounds_of(alloc, header, before, &homes)?;
    Ok(Round {
        number,
        did,
        dob,
        homes,
        bases,
        ghosts,
        shown,
        bounds,
    })
}

/// One legal round after a standing whose book has all lines of the round, computed from plain lists. Each part executes its calls in the
/// order of the lines, each entity settles where it was when the round began and after each of them, and each client is shown its base part
/// and then one look at the flat table.
///
/// `None` where an entity has its home in no cell of the open round's tree, where the rounds cannot be counted further, or where this one
/// round is not legal. After legal rounds that does not happen, which is tested, and not proved.
pub fn plain_round(
    alloc: Global,
    header: &Header,
    before: &Standing,
) -> Result<Option<Round>, AllocError>
    requires { AreInRange header.now.settings }
    ensures legal { IfOk result (λ found. IfSome found (λ round. IsRound header.now
        (standing_of before.now) round (after_round (standing_of before.now) round))) }
    ensures plain { IfOk result (λ found. IfSome found (IsPlain header.now
        (standing_of before.now))) }
    ensures none { IfOk result (λ found. IfNone found (HaveHomes (standing_of before.now) →
        before.now.rounds + 1 < 2 ^ 64 → (round : RoundData) ×
        IsPlain header.now (standing_of before.now) round ×
        ¬ (IsRound header.now (standing_of before.now) round
        (after_round (standing_of before.now) round)))) }
{
    if !have_homes(before) {
        return Ok(None);
    }
    let Some(number) = before.rounds.checked_add(1) else {
        return Ok(None);
    };
    let round = round_of(alloc, header, before, number)?;
    match judge(alloc, header, before, &round)? {
        None => Ok(Some(round)),
        Some(_) => Ok(None),
    }
}
