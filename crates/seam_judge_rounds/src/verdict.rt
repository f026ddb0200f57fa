// Which point of a legal round a round breaks.
ghost use Rattle.std.specs.Prelude.{◌≡◌, ◌↔◌, None, Some, IsTrue, IfOk, MatchBool};
ghost use Rattle.seam_rule_rounds.specs.Prelude.{AreInRange, created_as, live_as, Lists, ExtendsOrders, Standing as Standings, IsRound};
ghost use Rattle.seam_judge_data.specs.Standings.{standing_of};
ghost use Rattle.seam_judge_rounds.specs.After.{AreForMade, after_round};
ghost use Rattle.seam_judge_rounds.specs.Bounds.{PrintsBounds};
ghost use Rattle.seam_judge_rounds.specs.HeldPlaces.{HaveHomes};
ghost use Rattle.seam_judge_rounds.specs.Points.{Holds, IsFirstBroken, later_points, points};
ghost use Rattle.seam_judge_rounds.specs.declared.verdict.Point.{Point as Points};

use crate::after::{calls_done, standing_after};
use crate::calls::extends_orders;
use crate::case::{Case, clients_among};
use crate::clients::has_shown_lines;
use crate::looked::has_looked;
use crate::places::{have_cells, have_places};
use crate::points::{are_bases, are_bounds, are_ghosts, are_homes, is_numbered};
use seam_call::Create;
use seam_defs::Part;
use seam_judge_data::{DoneLine, Round, Standing};
use seam_judge_expected::{live_among, made_in, tree_in};
use seam_rule_lines::Header;
use std::alloc::{AllocError, Global};

/// A point of a legal round.
#[derive(Clone, Copy, Debug, PartialEq, Eq)]
pub enum Point {
    /// Its number is the one after the rounds that ended.
    Number,
    /// Cell parts executed all that was accepted for them.
    Did,
    /// Base parts executed all that was accepted for them.
    Dob,
    /// Each live entity has its home line.
    Homes,
    /// Each live entity has its home in a cell in which it may be left.
    Cells,
    /// Each live entity has its base line.
    Bases,
    /// Each live entity is held where it may be, the cells with a ghost of it among that.
    Places,
    /// Each live entity has its ghost lines.
    Ghosts,
    /// Each client is shown what it may be shown, and what is true.
    Shown,
    /// A further look shows no client anything, and without a tick each client was shown one look.
    Looked,
    /// The boundaries are printed where they were balanced.
    Bounds,
}

// This point where it does not hold, or else what comes of the later ones.
fn unless(holds: bool, point: Point, later: Option<Point>) -> Option<Point>
    ensures { MatchBool holds (result ≡ later) (result ≡ Some point) }
{
    if holds { later } else { Some(point) }
}

// Whether the parts of a kind executed all that was accepted for them.
fn executed_all(
    alloc: Global,
    case: &Case<'_>,
    part: Part,
    made: &[Create],
    lines: &[DoneLine],
) -> Result<bool, AllocError>
    requires made { Lists (created_as (standing_of case.now.before.now).book) made.now }
    requires after { standing_of case.now.after.now ≡ after_round (standing_of case.now.before.now)
        case.now.round.now }
    ensures { IfOk result (λ r. IsTrue r ↔ ExtendsOrders (standing_of case.now.before.now).book part
        ((standing_of case.now.before.now).orders part) ((standing_of case.now.after.now).orders
        part) lines.now) }
{
    let calls = calls_done(alloc, case.round)?;
    extends_orders(alloc, part, case.before, &calls, made, lines)
}

// Whether the boundaries are printed where they were balanced.
fn are_printed(alloc: Global, case: &Case<'_>) -> Result<bool, AllocError>
    ensures { IfOk result (λ r. IsTrue r ↔ PrintsBounds case.now.header.now
        (standing_of case.now.before.now) case.now.round.now.homes case.now.round.now.bounds) }
{
    let round = case.round;
    match &round.bounds {
        Some(bounds) => are_bounds(alloc, case.header, case.before, &round.homes, Some(bounds)),
        None => are_bounds(alloc, case.header, case.before, &round.homes, None),
    }
}

// The first point after the number that does not hold of a round.
fn judge_case(
    alloc: Global,
    case: &Case<'_>,
    made: &[Create],
    live: &[Create],
) -> Result<Option<Point>, AllocError>
    requires homes { HaveHomes (standing_of case.now.before.now) }
    requires range { AreInRange case.now.header.now.settings }
    requires made { Lists (created_as (standing_of case.now.before.now).book) made.now }
    requires live { Lists (live_as (standing_of case.now.before.now).book) live.now }
    requires after { standing_of case.now.after.now ≡ after_round (standing_of case.now.before.now)
        case.now.round.now }
    ensures { IfOk result (IsFirstBroken (Holds case.now.header.now
        (standing_of case.now.before.now) case.now.round.now (standing_of case.now.after.now))
        later_points) }
{
    let (header, before, after, round) = (case.header, case.before, case.after, case.round);
    let clients = clients_among(alloc, before, made)?;
    let did = executed_all(alloc, case, Part::Cell, made, &round.did)?;
    let dob = executed_all(alloc, case, Part::Base, made, &round.dob)?;
    let homes = are_homes(alloc, header, after, live, &round.homes)?;
    let cells = have_cells(alloc, header, before, after, live)?;
    let bases = are_bases(alloc, header, after, live, &round.bases)?;
    let places = have_places(alloc, header, before, after, live)?;
    let ghosts = are_ghosts(alloc, header, before, after, live, &round.ghosts)?;
    let shown = has_shown_lines(alloc, case, &clients)?;
    let looked = has_looked(alloc, case, &clients, live)?;
    let bounds = are_printed(alloc, case)?;
    let from_bounds = unless(bounds, Point::Bounds, None);
    let from_looked = unless(looked, Point::Looked, from_bounds);
    let from_shown = unless(shown, Point::Shown, from_looked);
    let from_ghosts = unless(ghosts, Point::Ghosts, from_shown);
    let from_places = unless(places, Point::Places, from_ghosts);
    let from_bases = unless(bases, Point::Bases, from_places);
    let from_cells = unless(cells, Point::Cells, from_bases);
    let from_homes = unless(homes, Point::Homes, from_cells);
    let from_dob = unless(dob, Point::Dob, from_homes);
    Ok(unless(did, Point::Did, from_dob))
}

/// `None` where what a round prints is legal after a standing whose book has all lines of the round; else the first point of a legal
/// round, in the order of *points*, that does not hold of it.
///
/// The standing that the round leaves is the one that its lines show. Where the round is not legal with that standing, it is legal with
/// none.
pub fn judge(
    alloc: Global,
    header: &Header,
    before: &Standing,
    round: &Round,
) -> Result<Option<Point>, AllocError>
    requires homes { HaveHomes (standing_of before.now) }
    requires range { AreInRange header.now.settings }
    ensures legal { IfOk result (λ broken. (broken ≡ None) ↔
        IsRound header.now (standing_of before.now) round.now
        (after_round (standing_of before.now) round.now)) }
    ensures first { IfOk result (IsFirstBroken (Holds header.now (standing_of before.now) round.now
        (after_round (standing_of before.now) round.now)) points) }
    ensures refused { IfOk result (λ broken. (p : Points) → broken ≡ Some p →
        AreForMade (standing_of before.now).book → (t : Standings) →
        ¬ (IsRound header.now (standing_of before.now) round.now t)) }
{
    // A tree has sixteen cells at most, which this call's clause says.
    let _cells = tree_in(before).cells();
    if !is_numbered(before, round) {
        return Ok(Some(Point::Number));
    }
    let after = standing_after(alloc, before, round)?;
    let made = made_in(alloc, before)?;
    let live = live_among(alloc, before, &made)?;
    let case = Case {
        header,
        before,
        after: &after,
        round,
    };
    judge_case(alloc, &case, &made, &live)
}
