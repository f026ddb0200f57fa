//! What a worker does at a node, and what it did in all.

ghost use Rattle.std.specs.Prelude.{◌≡◌, ◌+◌, ◌/◌, ◌^◌, ◌<◌, ◌≤◌, ◌⊎◌, true, false};
ghost use Rattle.std.specs.declared.alloc.Global.{Global};
ghost use Rattle.seam_logged.specs.Logs.{LoggedView};
ghost use Rattle.seam_workers.specs.Shifts.{after_visit, after_miss, idle_passes};
ghost use Rattle.seam_workers.specs.Tries.{IsCounted};

use crate::{Claims, Gate, Seat};
use crossbeam_utils::CachePadded;
use seam_logged::{Naming, Try};
use seam_machine::Machine;
use std::alloc::Global;
use std::marker::Model;
use std::sync::atomic::{AtomicBool, Ordering};
use std::sync::{Mutex, Wait};
use std::thread::Threads;

// How many visits a node, one after the other, find nothing before a worker is done. Workers that end early leave the rest to fewer.
const IDLE_PASSES: u32 = 16;

/// How many visits a worker made, how many of the last ones found nothing to do, apart from those that met a taken lock, and whether
/// memory was refused, at the last one or to another worker of its crew.
#[derive(Drop)]
pub struct Shift {
    visits: u32,
    idle: u32,
    refused: bool,
}

impl Model for Shift {
    ghost use Rattle.std.specs.Prelude.{◌≤◌};
    ghost use Rattle.seam_workers.specs.Shifts.{ShiftView};

    ghost Value = { ShiftView };

    ghost view = { λ s. record { visits = s.visits; idle = s.idle; refused = s.refused } };

    ghost invariant = { λ s. s.idle ≤ s.visits };
}

impl Shift {
    /// A shift in which no visit was made yet.
    pub fn new() -> Shift
        ensures { result ≡ record { visits = 0; idle = 0; refused = false } }
    {
        Shift {
            visits: 0,
            idle: 0,
            refused: false,
        }
    }

    /// Whether the last visits, sixteen for each node, found nothing to do; or memory was refused.
    pub fn is_over(&self, nodes: usize) -> bool
        ensures over { result ≡ true →
            (nodes ≤ self.now.idle / idle_passes) ⊎ (self.now.refused ≡ true) }
        ensures goes_on { result ≡ false → self.now.idle / idle_passes < nodes }
    {
        self.refused || (self.idle / IDLE_PASSES) as usize >= nodes
    }

    /// Ends the shift if memory was refused to one of the crew.
    pub fn heed(&mut self, refused: &AtomicBool)
        ensures visits { self.new.visits ≡ self.old.visits }
        ensures idle { self.new.idle ≡ self.old.idle }
        ensures stays { self.old.refused ≡ true → self.new.refused ≡ true }
    {
        if refused.load(Ordering::SeqCst) {
            self.refused = true;
        }
    }

    /// Tells the crew if memory was refused.
    pub fn tell(&self, refused: &AtomicBool) {
        if self.refused {
            refused.store(true, Ordering::SeqCst);
        }
    }

    /// Counts a visit that found this.
    pub fn count(&mut self, found: Try)
        requires { self.old.visits + 1 < 2 ^ 32 }
        ensures { self.new ≡ after_visit self.old found }
    {
        self.visits += 1;
        match found {
            Try::Stepped => self.idle = 0,
            Try::Idle => self.idle += 1,
            Try::NoMemory => self.refused = true,
        }
    }

    /// Counts a visit that met a taken lock.
    pub fn miss(&mut self)
        requires { self.old.visits + 1 < 2 ^ 32 }
        ensures { self.new ≡ after_miss self.old }
    {
        self.visits += 1;
    }
}

/// Makes steps of a node, under its lock, and counts what its tries answered. Where the lock is taken, nothing is tried: so a worker goes
/// on to the next node, and waits for nobody.
pub fn visit<M: Machine, J: Naming<M, M::Msg> + Claims, G: Gate, R: Threads + Wait + Sync>(
    rt: &R,
    alloc: Global,
    place: &CachePadded<Mutex<Seat<M, J>>>,
    gate: &G,
    shift: &mut Shift,
)
    requires { shift.old.visits + 1 < 2 ^ 32 }
    ensures { (shift.new ≡ after_miss shift.old)
        ⊎ ((v : LoggedView M M.Msg Global) × (v' : LoggedView M M.Msg Global)
        × IsCounted M.has_work M.steps v v' shift.old shift.new) }
{
    let lock: &Mutex<Seat<M, J>> = place;
    let Some(mut held) = lock.try_lock() else {
        return shift.miss();
    };
    gate.at_step(rt, held.number());
    held.try_counted(alloc, shift);
}
