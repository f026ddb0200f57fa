// SPDX-License-Identifier: MIT

//! Stamped logs: their merge into one list, and the law that the merge is a run of the net.
//!
//! Each node of a net has a log of its events with stamps that rise strictly, by the clocks of Lamport, "Time, Clocks, and the Ordering of
//! Events in a Distributed System" (1978). A letter carries the stamp of the event that sent it. All logs together are ordered by stamp
//! and, where stamps are equal, by node.
//!
//! This file has the merge, and `merged_runs` the law. `specs/Logs` says what logs and their merge are, and `specs/Heads` what is left of
//! the logs during it. The law speaks of the steps of one node (`specs/Acts`), of those of all nodes in one list (`specs/Moves`), and of
//! logs whose links met (`specs/Joined`).
//!
//! For callers, of `proofs/`: `Orders` (the next entry of a merge), `Moves` (what one move changes in each node's acts) and `Whole` (from
//! the logs to the run).
#![tactic(auto)]

mod merged_runs;

ghost use Rattle.std.specs.Prelude.{◌≡◌, ℕ, ◌<◌, ◌≤◌, ◌⊎◌, List, [], ◌∷◌, IfOk, OnOk, IfSome, IfNone, length, map};
ghost use Rattle.std.specs.List.{sum_by};
ghost use Rattle.seam_stamp.specs.declared.Stamped.{Stamped};
ghost use Rattle.seam_stamp.specs.Logs.{AreLogs, IsMergeOf};
ghost use Rattle.seam_stamp.specs.Heads.{IsFirst, AllEmpty, AreLater, IsMergingTo, HasMoved, HasOther};

pub use merged_runs::{logs_are_run, moves_are_run};
use std::alloc::{AllocError, Global};
use std::collections::VecDeque;

/// An item with the stamp of the event that sent it, or 0 where no event did.
#[derive(Debug, Drop, PartialEq, Eq)]
pub struct Letter<T> {
    pub stamp: u64,
    pub item: T,
}

/// An entry of a log: a node's event with its stamp.
#[derive(Debug, Drop, PartialEq, Eq)]
pub struct Stamped<E> {
    pub stamp: u64,
    pub node: u8,
    pub item: E,
}

/// The items of all entries of the logs, ordered by stamp and, where stamps are equal, by node. Log k is that of node k.
pub fn merge<E: Drop>(alloc: Global, logs: Vec<Vec<Stamped<E>>>) -> Result<Vec<E>, AllocError>
    requires { AreLogs (map (λ l. l.items) logs.items) }
    ensures { IfOk result (λ v. IsMergeOf (map (λ l. l.items) logs.items) v.items) }
{
    let mut heads = queues(alloc, logs)?;
    let mut merged = Vec::new(alloc);
    while let Some(k) = first_head(&heads) {
        if let Some(Stamped { stamp, item, .. }) = heads[k].pop_front() {
            merged.push(item)?;
            merge_equal(&mut heads, k + 1, stamp, &mut merged)?;
        }
    }
    Ok(merged)
}

// Moves the first entries with this stamp, of that log and those after it, to the merge. Many nodes have an entry of each stamp, so the
// least stamp is looked for once for all of them.
fn merge_equal<E: Drop>(
    heads: &mut Vec<VecDeque<Stamped<E>>>,
    from: usize,
    stamp: u64,
    merged: &mut Vec<E>,
) -> Result<(), AllocError>
    requires logs { AreLogs (map (λ q. q.items) heads.old.items) }
    requires later { AreLater from stamp (map (λ q. q.items) heads.old.items) }
    ensures merging { OnOk result ((logs : List (List (Stamped E))) →
        IsMergingTo logs (map (λ q. q.items) heads.old.items) merged.old.items →
        IsMergingTo logs (map (λ q. q.items) heads.new.items) merged.new.items) }
    ensures fewer { sum_by (λ q. length q.items) heads.new.items
        ≤ sum_by (λ q. length q.items) heads.old.items }
{
    for k in from..heads.len() {
        merge_first(&mut heads[k], stamp, merged)?;
    }
    Ok(())
}

// Moves the first entry of a log to the merge, if it has this stamp.
fn merge_first<E: Drop>(
    head: &mut VecDeque<Stamped<E>>,
    stamp: u64,
    merged: &mut Vec<E>,
) -> Result<(), AllocError>
    ensures first { OnOk result (
        HasMoved stamp head.old.items head.new.items merged.old.items merged.new.items
        ⊎ HasOther stamp head.old.items head.new.items merged.old.items merged.new.items) }
    ensures fewer { length head.new.items ≤ length head.old.items }
{
    let Some(entry) = head.front() else {
        return Ok(());
    };
    if entry.stamp != stamp {
        return Ok(());
    }
    if let Some(Stamped { item, .. }) = head.pop_front() {
        merged.push(item)?;
    }
    Ok(())
}

// The logs as queues, whose first entries are looked at.
fn queues<E: Drop>(
    alloc: Global,
    logs: Vec<Vec<Stamped<E>>>,
) -> Result<Vec<VecDeque<Stamped<E>>>, AllocError>
    ensures { IfOk result (λ v. map (λ q. q.items) v.items ≡ map (λ l. l.items) logs.items) }
{
    let mut queues = Vec::new(alloc);
    for log in logs {
        queues.push(VecDeque::from_vec(log))?;
    }
    Ok(queues)
}

// The queue whose first entry has the least stamp, the lowest one among equals.
fn first_head<E>(heads: &Vec<VecDeque<Stamped<E>>>) -> Option<usize>
    ensures some { IfSome result (IsFirst (map (λ q. q.items) heads.now.items)) }
    ensures none { IfNone result (AllEmpty (map (λ q. q.items) heads.now.items)) }
{
    let mut first = None;
    let mut least = 0;
    for k in 0..heads.len() {
        if let Some(entry) = heads[k].front() {
            if first.is_none() || entry.stamp < least {
                first = Some(k);
                least = entry.stamp;
            }
        }
    }
    first
}
