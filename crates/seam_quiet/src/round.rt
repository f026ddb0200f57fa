//! A round, phase by phase.

ghost use Rattle.std.specs.Prelude.{◌≡◌, ℕ, [], IfOk, OnErr};
ghost use Rattle.seam_node_steps.specs.Prelude.{IsQuiet, ArePeers, LeadsTo, Event as AnyEvent, World as AnyWorld, node_steps};
ghost use Rattle.seam_node_steps.specs.Prelude.{node_has_work, node_peers, loaded};
ghost use Rattle.seam_law_calls.specs.Prelude.{Frame};
ghost use Rattle.seam_law_rounds.specs.Prelude.{framed, AreReapable};
ghost use Rattle.seam_law_clients.specs.Prelude.{clients_loaded, clients_shown};
ghost use Rattle.seam_law_all.specs.Prelude.{KeepsRecords};
ghost use Rattle.seam_law_bounds.specs.Prelude.{IsBounded};
ghost use Rattle.seam_net_runs.specs.Finishing.{EndsWithin};
ghost use Rattle.seam_rule_clients.specs.Clients.{ClientReplica};
ghost use Rattle.seam_core.specs.Worlds.{Leads};
ghost use Rattle.seam_core.specs.Loads.{MayLoad};
ghost use Rattle.seam_quiet.specs.RoundRuns.{MayRun, IsJournalOf, BeginsPhase, IsWithinTable};
ghost use Rattle.seam_quiet.specs.CallPhase.{Beginning, HasCalled};

use crate::workers::Workers;
use seam_call::Batch;
use seam_core::{Node, World};
use seam_defs::Listed;
use seam_machine::{Event, Net};
use seam_net_runs::begin;
use seam_watch::Journal;
use seam_workers::Gate;
use std::alloc::{AllocError, Global};
use std::sync::Wait;
use std::thread::Threads;

// How many events of a phase happen before workers are called: they bring nothing below that.
const MOST_ALONE: u32 = 8192;

// Lets events of a net happen: the first of them here, and where more are left by the workers, if they are more than one.
fn take_events<G: Gate + Sync, R: Threads + Wait + Sync>(
    rt: &R,
    alloc: Global,
    net: Net<Node>,
    workers: &Workers<G>,
) -> Result<(Net<Node>, Vec<Event>), AllocError>
    requires peers { ArePeers node_peers net }
    ensures run { IfOk result (λ r. LeadsTo node_has_work node_steps net r.1.items r.0) }
    ensures peers { IfOk result (λ r. ArePeers node_peers r.0) }
{
    let (net, mut events) = begin(alloc, net, MOST_ALONE)?;
    if net.is_quiet() || workers.are_one() {
        return Ok((net, events));
    }
    let (net, mut theirs) = workers.run(rt, net)?;
    events.append(&mut theirs)?;
    Ok((net, events))
}

// Lets events of a net happen until it is quiet, on one thread.
fn come_to_rest(alloc: Global, net: Net<Node>) -> Result<(Net<Node>, Vec<Event>), AllocError>
    ghost most: { ℕ }
    requires peers { ArePeers node_peers net }
    requires ends { EndsWithin node_has_work node_steps net most }
    ensures run { IfOk result (λ r. LeadsTo node_has_work node_steps net r.1.items r.0) }
    ensures quiet { IfOk result (λ r. IsQuiet node_has_work r.0) }
{
    let mut net = net;
    let mut events = Vec::new(alloc);
    while let Some(event) = net.next_event() {
        net.step(alloc, event)?;
        events.push(event)?;
    }
    Ok((net, events))
}

// Lets events of a world that is not quiet happen until it is.
fn bring_to_rest<G: Gate + Sync, R: Threads + Wait + Sync>(
    rt: &R,
    alloc: Global,
    world: World,
    workers: &Workers<G>,
) -> Result<(World, Listed<Event>), AllocError>
    ghost most: { ℕ }
    requires ends { EndsWithin node_has_work node_steps world most }
    ensures run { IfOk result (λ r. Leads world r.1 r.0) }
    ensures quiet { IfOk result (λ r. IsQuiet node_has_work r.0) }
{
    let (net, mut events) = take_events(rt, alloc, world.apart(), workers)?;
    let (net, mut last) = come_to_rest(alloc, net)?;
    events.append(&mut last)?;
    Ok((World::over(net), Listed::of(events)))
}

/// Lets events of the world happen until it is quiet, and gives them back in their order. Workers take part where there are many.
///
/// If allocation fails, nothing is given back.
pub fn run_phase<G: Gate + Sync, R: Threads + Wait + Sync>(
    rt: &R,
    alloc: Global,
    world: World,
    workers: &Workers<G>,
) -> Result<(World, Listed<Event>), AllocError>
    ghost most: { ℕ }
    requires ends { EndsWithin node_has_work node_steps world most }
    ensures run { IfOk result (λ r. Leads world r.1 r.0) }
    ensures quiet { IfOk result (λ r. IsQuiet node_has_work r.0) }

    // A world that is quiet stays as it is, and needs no memory.
    ensures idle { IfOk result (λ r. IsQuiet node_has_work world → (r.0 ≡ world) × (r.1 ≡ [])) }
    ensures still { OnErr result (IsQuiet node_has_work world → ⊥) }
{
    if world.net().is_quiet() {
        return Ok((world, Listed::of(Vec::new(alloc))));
    }
    bring_to_rest(rt, alloc, world, workers)
}

/// A round whose calls have ended.
#[derive(Drop)]
pub struct Called {
    /// The world as they left it.
    pub world: World,
    /// Their events.
    pub events: Listed<Event>,
    /// The entities that die in the round.
    pub destroys: Listed<u32>,
}

/// A round that has ended.
#[derive(Drop)]
pub struct Ended {
    /// The world as it left it.
    pub world: World,
    /// The events of all its phases.
    pub journal: Journal,
    /// The entities that died in it.
    pub destroys: Listed<u32>,
}

// Loads the batch and lets its calls end, by so many events at most.
fn end_calls<G: Gate + Sync, R: Threads + Wait + Sync>(
    rt: &R,
    alloc: Global,
    world: World,
    batch: Batch,
    workers: &Workers<G>,
) -> Result<Called, AllocError>
    ghost most: { ℕ }
    requires may { MayLoad world batch }
    requires ends { EndsWithin node_has_work node_steps (loaded world batch) most }
    ensures { IfOk result (HasCalled world batch) }
{
    let destroys = batch.destroys;
    let batch = Batch {
        destroys: Listed::of(Vec::new(alloc)),
        ..batch
    };
    let (world, events) = run_phase(rt, alloc, world.load(alloc, batch)?, workers)?;
    Ok(Called {
        world,
        events,
        destroys,
    })
}

/// Begins a round of the world: loads the batch, and lets its calls end.
///
/// If allocation fails, nothing is given back.
pub fn run_calls<G: Gate + Sync, R: Threads + Wait + Sync>(
    rt: &R,
    alloc: Global,
    world: World,
    batch: Batch,
    workers: &Workers<G>,
) -> Result<Called, AllocError>
    requires may { (f : Frame) × (clients : ℕ → ClientReplica) × MayRun f clients world batch }
    ensures { IfOk result (HasCalled world batch) }
{
    seam_core::a_fitting_batch_may_be_loaded();
    seam_law_bounds::each_phase_of_a_round_ends();
    end_calls(rt, alloc, world, batch, workers)
}

// Reaps the entities that die in the round and lets the witnesses look. A phase that begins in world u has at most `from.1 u` events.
fn end_phases<G: Gate + Sync, R: Threads + Wait + Sync>(
    rt: &R,
    alloc: Global,
    called: Called,
    workers: &Workers<G>,
) -> Result<Ended, AllocError>
    ghost from: { Beginning × (AnyWorld → ℕ) }
    requires called { HasCalled from.0.world from.0.batch called }
    requires reapable { AreReapable called.world from.0.batch.destroys }
    requires ends { (u : AnyWorld) → BeginsPhase from.0.world from.0.batch u →
        EndsWithin node_has_work node_steps u (from.1 u) }
    ensures stands { IfOk result (λ r.
        (s : IsJournalOf from.0.world from.0.batch r.journal r.world) ×
        (s.round.called ≡ called.world)) }
    ensures destroys { IfOk result (λ r. r.destroys ≡ from.0.batch.destroys) }
{
    let Called {
        world,
        events,
        destroys,
    } = called;
    let (world, reaps) = run_phase(rt, alloc, world.load_reaps(destroys.as_slice())?, workers)?;
    let (world, looks) = run_phase(rt, alloc, world.load_look()?, &workers.at_looks(alloc))?;
    let journal = Journal {
        calls: events,
        reaps,
        looks,
    };
    Ok(Ended {
        world,
        journal,
        destroys,
    })
}

/// Ends a round whose calls have ended: reaps the entities that die in it, and lets the witnesses that are left look.
///
/// The world keeps what it kept between rounds, for the next. If allocation fails, nothing is given back.
pub fn run_ends<G: Gate + Sync, R: Threads + Wait + Sync>(
    rt: &R,
    alloc: Global,
    called: Called,
    workers: &Workers<G>,
) -> Result<Ended, AllocError>
    ghost from: { Beginning }
    requires may { (f : Frame) × (clients : ℕ → ClientReplica) ×
        MayRun f clients from.world from.batch }
    requires called { HasCalled from.world from.batch called }
    ensures run { IfOk result (λ r. (s : IsJournalOf from.world from.batch r.journal r.world) ×
        (s.round.called ≡ called.world) × IsWithinTable from.world from.batch r.journal
        s.round.reaped) }
    ensures destroys { IfOk result (λ r. r.destroys ≡ from.batch.destroys) }
    ensures records { IfOk result (λ r. (f : Frame) (clients : ℕ → ClientReplica) →
        MayRun f clients from.world from.batch → KeepsRecords (framed f from.batch)
        (clients_shown (framed f from.batch) (clients_loaded f from.batch clients) r.world)
        r.world × IsBounded r.world) }
{
    seam_law_all::calls_obey_the_laws();
    seam_law_bounds::nothing_held_goes_from_record_to_record();
    seam_law_bounds::reaps_end();
    seam_law_bounds::each_phase_of_a_round_ends();
    seam_law_bounds::a_round_keeps_the_records();
    end_phases(rt, alloc, called, workers)
}

// A whole round, from this world with this batch.
fn run_both<G: Gate + Sync, R: Threads + Wait + Sync>(
    rt: &R,
    alloc: Global,
    world: World,
    batch: Batch,
    workers: &Workers<G>,
) -> Result<(World, Journal), AllocError>
    ghost from: { Beginning }
    requires world { world ≡ from.world }
    requires batch { batch ≡ from.batch }
    requires may { (f : Frame) × (clients : ℕ → ClientReplica) ×
        MayRun f clients from.world from.batch }
    ensures run { IfOk result (λ r. (s : IsJournalOf from.world from.batch r.1 r.0) ×
        IsWithinTable from.world from.batch r.1 s.round.reaped) }
    ensures records { IfOk result (λ r. (f : Frame) (clients : ℕ → ClientReplica) →
        MayRun f clients from.world from.batch → KeepsRecords (framed f from.batch)
        (clients_shown (framed f from.batch) (clients_loaded f from.batch clients) r.0) r.0 ×
        IsBounded r.0) }
{
    let called = run_calls(rt, alloc, world, batch, workers)?;
    let Ended { world, journal, .. } = run_ends(rt, alloc, called, workers)?;
    Ok((world, journal))
}

/// Runs a round of the world: its calls (`run_calls`), and then its reaps and its looks (`run_ends`).
///
/// The world keeps what it kept between rounds, for the next. If allocation fails, nothing is given back.
pub fn run_round<G: Gate + Sync, R: Threads + Wait + Sync>(
    rt: &R,
    alloc: Global,
    world: World,
    batch: Batch,
    workers: &Workers<G>,
) -> Result<(World, Journal), AllocError>
    requires may { (f : Frame) × (clients : ℕ → ClientReplica) × MayRun f clients world batch }
    ensures run { IfOk result (λ r. (s : IsJournalOf world batch r.1 r.0) ×
        IsWithinTable world batch r.1 s.round.reaped) }
    ensures records { IfOk result (λ r. (f : Frame) (clients : ℕ → ClientReplica) →
        MayRun f clients world batch → KeepsRecords (framed f batch)
        (clients_shown (framed f batch) (clients_loaded f batch clients) r.0) r.0 ×
        IsBounded r.0) }
{
    run_both(rt, alloc, world, batch, workers)
}
