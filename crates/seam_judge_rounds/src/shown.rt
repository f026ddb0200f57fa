// What a client is shown of cell parts.
ghost use Rattle.std.specs.Prelude.{◌↔◌, IsTrue, IfOk, map};
ghost use Rattle.seam_rule_rounds.specs.Prelude.{shown_by_lines, ShowsRightly, replica_of, truth_of};
ghost use Rattle.seam_judge_data.specs.Standings.{standing_of};

use crate::calls::both;
use crate::case::Case;
use crate::truth::are_true;
use seam_call::{Create, Line};
use seam_judge_looks::{Replica, shown_in};
use std::alloc::{AllocError, Global};

/// Whether what lines show the client of an entity of cell parts may be shown one after another, and is true.
pub fn show_rightly(
    alloc: Global,
    case: &Case<'_>,
    create: Create,
    lines: &[&Line],
) -> Result<bool, AllocError>
    ensures { IfOk result (λ r. IsTrue r ↔ ShowsRightly
        (truth_of case.now.header.now (standing_of case.now.before.now)
        (standing_of case.now.after.now) create) create.entity
        (replica_of case.now.header.now (standing_of case.now.before.now) create.entity)
        (shown_by_lines (map (λ l. l.now) lines.now))) }
{
    let former = case.before.told_to(alloc, create.entity)?;
    let mut replica = Replica::after(alloc, &case.header.settings, &former)?;
    let shown = shown_in(alloc, lines)?;
    let in_turn = replica.show_all(alloc, create.entity, &shown)?;
    let so = are_true(alloc, case, create, &shown)?;
    Ok(both(in_turn, so))
}
