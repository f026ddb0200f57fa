// Whether the parts of entities executed what was accepted for them.
ghost use Rattle.std.specs.Prelude.{◌≡◌, ◌↔◌, ◌++◌, ℕ, IsTrue, IfOk, filter};
ghost use Rattle.seam_rule_rounds.specs.Prelude.{is_for, is_from, Sender as Senders, calls_of, created_as, entries, ExtendsOrders, Lists};
ghost use Rattle.seam_judge_data.specs.Standings.{standing_of};

use crate::origins::{are_same_calls, grouped};
use seam_call::{Call, Create};
use seam_defs::Part;
use seam_judge_data::{DoneLine, Standing, are_same, copies_of};
use seam_judge_expected::{calls_of, done_lines_of};
use std::alloc::{AllocError, Global};

// What was accepted up to now, in the order of the lines.
fn accepted_in(alloc: Global, standing: &Standing) -> Result<Vec<Call>, AllocError>
    ensures { IfOk result (λ calls. calls.items ≡ calls_of
        (entries (standing_of standing.now).book)) }
{
    let mut calls = calls_of(alloc, &standing.past)?;
    let mut later = calls_of(alloc, &standing.current)?;
    calls.append(&mut later)?;
    Ok(calls)
}

// What was executed up to now, and then these calls.
fn executed_with(alloc: Global, standing: &Standing, done: &[Call]) -> Result<Vec<Call>, AllocError>
    ensures { IfOk result (λ calls. calls.items ≡ standing.now.calls.items ++ done.now) }
{
    let mut calls = copies_of(alloc, &standing.calls)?;
    let mut later = copies_of(alloc, done)?;
    calls.append(&mut later)?;
    Ok(calls)
}

pub(crate) fn both(a: bool, b: bool) -> bool
    ensures { IsTrue result ↔ (IsTrue a × IsTrue b) }
{
    a && b
}

// Whether each part of this kind executed of each sender what was accepted, in order and once.
fn is_full(
    alloc: Global,
    part: Part,
    accepted: &[Call],
    executed: &[Call],
) -> Result<bool, AllocError>
    ensures { IfOk result (λ r. IsTrue r ↔ ((e : ℕ) (s : Senders) →
        filter (is_from part e s) executed.now ≡ filter (is_from part e s) accepted.now)) }
{
    let given = grouped(alloc, part, accepted)?;
    let done = grouped(alloc, part, executed)?;
    Ok(are_same_calls(&done, &given))
}

/// Whether the lines are those of `done`, with which after `before` the part of each entity has executed all that was accepted for it.
/// `made` are the entities that were created.
pub fn extends_orders(
    alloc: Global,
    part: Part,
    before: &Standing,
    done: &[Call],
    made: &[Create],
    lines: &[DoneLine],
) -> Result<bool, AllocError>
    requires { Lists (created_as (standing_of before.now).book) made.now }
    ensures { IfOk result (λ r. IsTrue r ↔ ExtendsOrders (standing_of before.now).book part
        ((standing_of before.now).orders part) (λ e. filter (is_for part e)
        (before.now.calls.items ++ done.now)) lines.now) }
{
    let expected = done_lines_of(alloc, part, made, done)?;
    let accepted = accepted_in(alloc, before)?;
    let executed = executed_with(alloc, before, done)?;
    let full = is_full(alloc, part, &accepted, &executed)?;
    Ok(both(are_same(&expected, lines), full))
}
