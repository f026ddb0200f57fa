// SPDX-License-Identifier: MIT

//! Workers that step the nodes of a net in threads, and the net that they leave.
//!
//! Each node is under a lock of its own, with its links and a log of its steps; workers visit the nodes again and again. Once they are
//! done, the ends of the links meet, the logs are merged, and the net is put together again. Whatever the workers did, the net is the run
//! of the events that are returned (Lamport, "Time, Clocks, and the Ordering of Events in a Distributed System", 1978).
//!
//! While one node alone has something to do, nothing can be done side by side. So events happen on the net itself then (`alone`), in at
//! most as many visits as a worker has turns. No thread starts unless two nodes have something to do, or these turns are over.
//!
//! A worker takes a free lock or goes on to the next node, and makes many steps under it. So it seldom meets a taken lock, and a node's
//! links are looked at once for many steps.
//!
//! No clause of `run_workers` says that two workers run at once, how much they do, or that they end: tests show it.
//!
//! The lock of a node holds no promise of which node it is. Each node keeps a claim to its number, of which there is one, so that nodes
//! that come back from the locks are known to be all and each once. A worker's shift counts its visits, and what it counts is what their
//! tries answered; that a lock was taken no contract can tell, so such a visit is no reason to end. That a try answers want of memory
//! without having met it no contract can refuse; a test does.
#![tactic(auto)]

ghost use Rattle.std.specs.Prelude.{◌≡◌, ◌≢◌, ℕ, ◌+◌, ◌%◌, ◌^◌, ◌<◌, ◌≤◌, length, map, true, Some, IfOk, vec_len, slice_get};
ghost use Rattle.std.specs.List.{All};
ghost use Rattle.seam_machine.specs.Nets.{LeadsTo, ArePeers};
ghost use Rattle.seam_workers.specs.Seats.{Placed, filled, AreRuns, roots_of, HasEnds};
ghost use Rattle.seam_workers.specs.Rejoined.{HasEventOf, IsOutcome};
ghost use Rattle.seam_workers.specs.Shifts.{IsDone};
ghost use Rattle.seam_workers.specs.Tries.{HasAnswered, HasFound, IsCounted};

mod alone;
mod joins;
mod shifts;

use crate::alone::alone;
use crate::joins::rejoin;
use crate::shifts::{Shift, visit};
use crossbeam_utils::CachePadded;
pub use seam_logged::FreeLinks;
use seam_logged::{Apart, Ends, Logged, Naming, Try, linked};
use seam_machine::{Event, Machine, Net, NetParts};
use std::alloc::{AllocError, Global};
use std::marker::{Brand, Model};
use std::sync::atomic::{AtomicBool, Ordering};
use std::sync::ledger::{Blank, Ledger};
use std::sync::{Mutex, Wait};
use std::thread;
use std::thread::{Builder, Threads};

// How many bytes of stack a worker's thread has, whatever the system's default is. A step takes a small part of it.
const STACK: usize = 1 << 20;

// How many steps a visit makes at most, so that no node is held while others wait for what it knows.
const MOST_STEPS: u32 = 64;

/// How many workers there are, and how many visits each of them has at most. Of more workers than nodes the last ones do nothing. An even
/// worker visits the nodes in rising order, an odd one in falling order. At each visit a node makes up to 64 steps.
#[derive(Clone, Copy, Debug, PartialEq, Eq)]
pub struct Crew {
    pub workers: u32,
    pub turns: u32,
}

/// What is called before the first step of each visit, while nobody else can step the node.
pub trait Gate {
    fn at_step<R: Threads + Wait + Sync>(&self, rt: &R, node: u8);
}

/// A gate that holds nobody.
#[derive(Clone, Copy, Debug)]
pub struct OpenGate;

impl Gate for OpenGate {
    fn at_step<R: Threads + Wait + Sync>(&self, _rt: &R, _node: u8) {}
}

/// The names of the claims of a run in contracts: one for each node's number. The call that starts a run picks them.
pub trait Claims {
    ghost use Rattle.std.specs.Prelude.{ℕ, List};

    ghost claims: { List ℕ };
}

impl Claims for Brand {
    ghost use Rattle.std.specs.Prelude.{[]};

    ghost claims = { [] };
}

/// A logged node with the claim of its number. No two claims have one name.
#[derive(Drop)]
pub struct Seat<M: Machine, J: Naming<M, M::Msg> + Claims> {
    logged: Logged<M, J>,
    claim: Blank,
}

impl<M: Machine, J: Naming<M, M::Msg> + Claims> Model for Seat<M, J> {
    ghost use Rattle.std.specs.Prelude.{◌≡◌, Some, slice_get};
    ghost use Rattle.seam_logged.specs.Logs.{LoggedView};
    ghost use Rattle.std.specs.declared.alloc.Global.{Global};

    ghost Value = { LoggedView M M.Msg Global };

    ghost view = { λ s. s.logged };

    ghost invariant = { λ s. (slice_get J.claims s.logged.me ≡ Some s.claim.name) × (s.claim.parts ≡ 1) };
}

// Two claims of one name have no part.
fn of_one_name<L: Ledger>(a: Blank, b: Blank)
    requires first { a.name ≡ L.name }
    requires second { b.name ≡ L.name }
    requires whole { a.parts ≡ L.parts }
    requires equal { b.parts ≡ L.parts }
    ensures { L.parts ≡ 0 }
{
    let (_, mut one) = a.open::<L>();
    let (_, two) = b.open::<L>();
    one.merge(two);
}

// The same of two claims whose name is not known before.
fn apart(a: Blank, b: Blank)
    requires same { a.name ≡ b.name }
    requires equal { a.parts ≡ b.parts }
    ensures { a.parts ≡ 0 }
{
    of_one_name::<Brand>(a, b)
}

impl<M: Machine, J: Naming<M, M::Msg> + Claims> Seat<M, J> {
    // The node with its claim.
    fn new(logged: Logged<M, J>, claim: Blank) -> Seat<M, J>
        requires name { slice_get J.claims logged.me ≡ Some claim.name }
        requires whole { claim.parts ≡ 1 }
        ensures { result ≡ logged }
    {
        Seat { logged, claim }
    }

    // The number, which is one of the run's.
    fn number(&self) -> u8
        ensures me { result ≡ self.now.me }
        ensures within { result < length J.claims }
    {
        let _claim = &self.claim;
        self.logged.me()
    }

    // Makes one step, if there is one to make.
    fn try_step(&mut self, alloc: Global) -> Try
        ensures me { self.new.me ≡ self.old.me }
        ensures answered { HasAnswered M.has_work M.steps self.old self.new result }
    {
        self.logged.try_step(alloc)
    }

    // Makes steps until there is none to make, or as many as a visit may have.
    fn make_steps(&mut self, alloc: Global) -> Try
        ensures me { self.new.me ≡ self.old.me }
        ensures found { HasFound M.has_work M.steps self.old self.new result }
    {
        match self.try_step(alloc) {
            Try::Stepped => {}
            Try::Idle => return Try::Idle,
            Try::NoMemory => return Try::NoMemory,
        }
        for _step in 1..MOST_STEPS {
            match self.try_step(alloc) {
                Try::Stepped => {}
                Try::Idle => return Try::Stepped,
                Try::NoMemory => return Try::NoMemory,
            }
        }
        Try::Stepped
    }

    // Makes the steps of a visit, and counts what its tries answered.
    fn try_counted(&mut self, alloc: Global, shift: &mut Shift)
        requires { shift.old.visits + 1 < 2 ^ 32 }
        ensures me { self.new.me ≡ self.old.me }
        ensures counted { IsCounted M.has_work M.steps self.old self.new shift.old shift.new }
    {
        let found = self.make_steps(alloc);
        shift.count(found);
    }

    // The node without its claim.
    fn into_logged(self) -> Logged<M, J>
        ensures { result ≡ self }
    {
        let Seat { logged, claim: _ } = self;
        logged
    }

    // Two seats of one run have different numbers.
    fn differ(self, other: Seat<M, J>)
        ensures { self.me ≢ other.me }
    {
        let Seat {
            logged: a,
            claim: mine,
        } = self;
        let Seat {
            logged: b,
            claim: theirs,
        } = other;
        if a.me() == b.me() {
            apart(mine, theirs);
            unreachable!()
        }
    }
}

// A claim for each of n numbers.
fn new_claims(alloc: Global, n: usize) -> Result<Vec<Blank>, AllocError>
    ensures many { IfOk result (λ v. vec_len v ≡ n) }
    ensures whole { IfOk result (λ v. All (λ b. b.parts ≡ 1) v.items) }
{
    let mut blanks = Vec::new(alloc);
    for _i in 0..n {
        blanks.push(Blank::new(1))?;
    }
    Ok(blanks)
}

// A worker's number, how many visits it has, and whether memory was refused to one of its crew.
#[derive(Clone, Copy)]
struct Duty<'a> {
    number: usize,
    turns: u32,
    refused: &'a AtomicBool,
}

// Which of n nodes a worker visits at its turn.
fn place_at(number: usize, turn: u32, n: usize) -> usize
    requires { 0 < n }
    ensures within { result < n }
    ensures rising { number % 2 ≡ 0 → result ≡ turn % n }
    ensures falling { number % 2 ≡ 1 → result + turn % n + 1 ≡ n }
{
    let k = turn as usize % n;
    if number % 2 == 0 { k } else { n - 1 - k }
}

// Visits the nodes in turn, until over sixteen passes no step was made, or memory was refused to one of the crew.
fn work<M: Machine, J: Naming<M, M::Msg> + Claims, G: Gate, R: Threads + Wait + Sync>(
    rt: &R,
    alloc: Global,
    places: &[CachePadded<Mutex<Seat<M, J>>>],
    duty: Duty<'_>,
    gate: &G,
) -> Shift
    ensures { IsDone duty.entry.turns (length places.now) result }
{
    let n = places.len();
    let mut shift = Shift::new();
    for turn in 0..duty.turns {
        shift.heed(duty.refused);
        if shift.is_over(n) {
            return shift;
        }
        visit(
            rt,
            alloc,
            &places[place_at(duty.number, turn, n)],
            gate,
            &mut shift,
        );
        shift.tell(duty.refused);
    }
    shift
}

// The visits of the workers, of no more than there are nodes, each in a thread of its own where one can be made. Answers whether memory
// was refused to one of them.
fn visits<
    M: Machine + Send,
    J: Naming<M, M::Msg> + Claims + Send,
    G: Gate + Sync,
    R: Threads + Wait + Sync,
>(rt: &R, alloc: Global, places: &[CachePadded<Mutex<Seat<M, J>>>], crew: Crew, gate: &G) -> bool
where
    M::Msg: Send,
{
    let flag = AtomicBool::new(false);
    let refused = &flag;
    thread::scope(thread::scope_env(), rt, move |scope| {
        for number in 1..(crew.workers as usize).min(places.len()) {
            let duty = Duty {
                number,
                turns: crew.turns,
                refused,
            };
            let started = Builder::new()
                .stack_size(STACK)
                .spawn_scoped(scope, move || {
                    work(rt, alloc, places, duty, gate);
                });
            if started.is_err() {
                work(rt, alloc, places, duty, gate);
            }
        }
        let duty = Duty {
            number: 0,
            turns: crew.turns,
            refused,
        };
        work(rt, alloc, places, duty, gate);
    });
    flag.load(Ordering::SeqCst)
}

// Puts a seat at the place of its number, where no seat is yet.
fn settle<M: Machine, J: Naming<M, M::Msg> + Claims>(
    found: &mut Vec<Option<Seat<M, J>>>,
    seat: Seat<M, J>,
)
    requires many { length found.old.items ≡ length J.claims }
    requires placed { Placed found.old.items }
    ensures placed { Placed found.new.items }
    ensures filled { filled found.new.items ≡ filled found.old.items + 1 }
    ensures same { length found.new.items ≡ length found.old.items }
{
    let me = seat.number() as usize;
    match found[me].take() {
        None => found[me] = Some(seat),
        Some(other) => {
            seat.differ(other);
            unreachable!()
        }
    }
}

// The seats at the places of their numbers.
fn unlocked<M: Machine, J: Naming<M, M::Msg> + Claims>(
    alloc: Global,
    mut places: Vec<CachePadded<Mutex<Seat<M, J>>>>,
) -> Result<Vec<Option<Seat<M, J>>>, AllocError>
    requires many { vec_len places ≡ length J.claims }
    ensures placed { IfOk result (λ r. Placed r.items) }
    ensures full { IfOk result (λ r. filled r.items ≡ length r.items) }
    ensures same { IfOk result (λ r. vec_len r ≡ vec_len places) }
{
    let n = places.len();
    let mut found: Vec<Option<Seat<M, J>>> = Vec::new(alloc);
    for _i in 0..n {
        found.push(None)?;
    }
    while let Some(place) = places.pop() {
        settle(&mut found, place.into_inner().into_inner());
    }
    Ok(found)
}

// The nodes in the order of their numbers. Each that has a task and made no step makes its first one.
fn sorted<M: Machine, J: Naming<M, M::Msg> + Claims>(
    alloc: Global,
    mut found: Vec<Option<Seat<M, J>>>,
) -> Result<Vec<Apart<M>>, AllocError>
    requires placed { Placed found.items }
    requires full { filled found.items ≡ length found.items }
    ensures many { IfOk result (λ r. vec_len r ≡ vec_len found) }
    ensures runs { IfOk result (λ r. AreRuns M.has_work M.steps M.peer_count J.roots r.items) }
{
    let mut nodes = Vec::new(alloc);
    while let Some(place) = found.pop() {
        let seat = place.unwrap();
        let mut logged = seat.into_logged();
        logged.finish(alloc)?;
        nodes.push(logged.apart())?;
    }
    nodes.reverse();
    Ok(nodes)
}

// Each node under its lock, with its claim.
fn seated<M: Machine, J: Naming<M, M::Msg> + Claims>(
    alloc: Global,
    mut nodes: Vec<M>,
    mut ends: Vec<Ends<M::Msg>>,
    mut claims: Vec<Blank>,
) -> Result<Vec<CachePadded<Mutex<Seat<M, J>>>>, AllocError>
    requires few { vec_len nodes < 256 }
    requires roots { J.roots ≡ roots_of nodes.items ends.items }
    requires wide { HasEnds M.peer_count J.roots }
    requires names { J.claims ≡ map (λ b. b.name) claims.items }
    requires whole { All (λ b. b.parts ≡ 1) claims.items }
    requires each { vec_len ends ≡ vec_len nodes }
    requires each_claim { vec_len claims ≡ vec_len nodes }
    ensures { IfOk result (λ r. vec_len r ≡ vec_len nodes) }
{
    let mut places = Vec::new(alloc);
    while let Some(node) = nodes.pop() {
        let claim = claims.pop().unwrap();
        let end = ends.pop().unwrap();
        let logged: Logged<M, J> = Logged::new(alloc, node, nodes.len() as u8, end);
        places.push(CachePadded::new(Mutex::new(Seat::new(logged, claim))))?;
    }
    places.reverse();
    Ok(places)
}

// The nodes of a run, the ends of their links, and the claims of their numbers.
#[derive(Drop)]
struct Start<M: Machine> {
    nodes: Vec<M>,
    ends: Vec<Ends<M::Msg>>,
    claims: Vec<Blank>,
}

// Steps the nodes of the run J in threads.
fn run_named<
    M: Machine + Send,
    J: Naming<M, M::Msg> + Claims + Send,
    G: Gate + Sync,
    R: Threads + Wait + Sync,
>(rt: &R, alloc: Global, start: Start<M>, crew: Crew, gate: &G) -> Result<Vec<Apart<M>>, AllocError>
where
    M::Msg: Send,
    requires few { vec_len start.nodes < 256 }
    requires roots { J.roots ≡ roots_of start.nodes.items start.ends.items }
    requires wide { HasEnds M.peer_count J.roots }
    requires names { J.claims ≡ map (λ b. b.name) start.claims.items }
    requires whole { All (λ b. b.parts ≡ 1) start.claims.items }
    requires each { vec_len start.ends ≡ vec_len start.nodes }
    requires each_claim { vec_len start.claims ≡ vec_len start.nodes }
    ensures many { IfOk result (λ r. vec_len r ≡ vec_len start.nodes) }
    ensures runs { IfOk result (λ r. AreRuns M.has_work M.steps M.peer_count J.roots r.items) }
{
    let Start {
        nodes,
        ends,
        claims,
    } = start;
    let places: Vec<CachePadded<Mutex<Seat<M, J>>>> = seated(alloc, nodes, ends, claims)?;
    if visits(rt, alloc, places.as_slice(), crew, gate) {
        return Err(AllocError);
    }
    let found = unlocked(alloc, places)?;
    let nodes = sorted(alloc, found)?;
    Ok(nodes)
}

// Steps the nodes of the start in threads. The node given back at each place is the replay of its log from the one at that place.
fn run_nodes<M: Machine + Send, G: Gate + Sync, R: Threads + Wait + Sync>(
    rt: &R,
    alloc: Global,
    start: Start<M>,
    crew: Crew,
    gate: &G,
) -> Result<Vec<Apart<M>>, AllocError>
where
    M::Msg: Send,
    requires few { vec_len start.nodes < 256 }
    requires wide { HasEnds M.peer_count (roots_of start.nodes.items start.ends.items) }
    requires whole { All (λ b. b.parts ≡ 1) start.claims.items }
    requires each { vec_len start.ends ≡ vec_len start.nodes }
    requires each_claim { vec_len start.claims ≡ vec_len start.nodes }
    ensures many { IfOk result (λ r. vec_len r ≡ vec_len start.nodes) }
    ensures runs { IfOk result (λ r. AreRuns M.has_work M.steps M.peer_count
        (roots_of start.nodes.items start.ends.items) r.items) }
{
    run_named::<M, Brand, G, R>(rt, alloc, start, crew, gate)
}

// Runs the net by workers in threads. Each node that has a task makes a step.
fn run_crew<M: Machine + Send, G: Gate + Sync, R: Threads + Wait + Sync>(
    rt: &R,
    free: &mut FreeLinks<M::Msg>,
    net: Net<M>,
    crew: Crew,
    gate: &G,
) -> Result<(Net<M>, Vec<Event>), AllocError>
where
    M::Msg: Send,
    requires peers { ArePeers M.peer_count net }
    ensures { IfOk result (λ r. IsOutcome M.has_work M.steps M.peer_count net r.1.items r.0) }
{
    let n = net.node_count();
    let alloc = free.allocator();
    if net.is_quiet() {
        return Ok((net, Vec::new(alloc)));
    }
    let NetParts { nodes, links } = net.apart(alloc)?;
    let ends = linked(free, n, links)?;
    let claims = new_claims(alloc, n)?;
    let start = Start {
        nodes,
        ends,
        claims,
    };
    let done = run_nodes(rt, alloc, start, crew, gate)?;
    rejoin(free, done)
}

/// Runs the net by workers in threads. Each node that has a task makes a step.
///
/// While one node alone has something to do, events happen on the net itself, in at most `turns` visits. No thread is started and no
/// link is made where nothing is left then. If allocation fails, nothing is given back.
///
/// The links are those that are free, and others where these are too few. All are free then.
pub fn run_workers_over<M: Machine + Send, G: Gate + Sync, R: Threads + Wait + Sync>(
    rt: &R,
    free: &mut FreeLinks<M::Msg>,
    net: Net<M>,
    crew: Crew,
    gate: &G,
) -> Result<(Net<M>, Vec<Event>), AllocError>
where
    M::Msg: Send,
    requires workers { (1 ≤ crew.workers) × (crew.workers ≤ 16) }
    requires turns { 1 ≤ crew.turns }
    requires peers { ArePeers M.peer_count net }
    ensures run { IfOk result (λ r. LeadsTo M.has_work M.steps net r.1.items r.0) }
    ensures tasks { IfOk result (λ r. (k : ℕ) (s : M) → slice_get net.nodes k ≡ Some s →
        M.has_work s ≡ true → HasEventOf k r.1.items) }
    ensures peers { IfOk result (λ r. ArePeers M.peer_count r.0) }
{
    let mut net = net;
    let mut events = alone(rt, free.allocator(), &mut net, crew.turns, gate)?;
    let (net, mut more) = run_crew(rt, free, net, crew, gate)?;
    events.append(&mut more)?;
    Ok((net, events))
}

/// The same with links of its own.
pub fn run_workers<M: Machine + Send, G: Gate + Sync, R: Threads + Wait + Sync>(
    rt: &R,
    alloc: Global,
    net: Net<M>,
    crew: Crew,
    gate: &G,
) -> Result<(Net<M>, Vec<Event>), AllocError>
where
    M::Msg: Send,
    requires workers { (1 ≤ crew.workers) × (crew.workers ≤ 16) }
    requires turns { 1 ≤ crew.turns }
    requires peers { ArePeers M.peer_count net }
    ensures run { IfOk result (λ r. LeadsTo M.has_work M.steps net r.1.items r.0) }
    ensures tasks { IfOk result (λ r. (k : ℕ) (s : M) → slice_get net.nodes k ≡ Some s →
        M.has_work s ≡ true → HasEventOf k r.1.items) }
    ensures peers { IfOk result (λ r. ArePeers M.peer_count r.0) }
{
    let mut free = FreeLinks::new(alloc);
    run_workers_over(rt, &mut free, net, crew, gate)
}
