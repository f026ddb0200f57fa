//! Who lets the events of a round happen.

ghost use Rattle.std.specs.Prelude.{◌≡◌, ◌≤◌, IfOk};
ghost use Rattle.seam_node_steps.specs.Prelude.{ArePeers, LeadsTo, node_steps, node_has_work, node_peers};

use seam_core::Node;
use seam_machine::{Event, Machine, Net};
use seam_workers::{Crew, FreeLinks, Gate, run_workers_over};
use std::alloc::{AllocError, Global};
use std::marker::Model;
use std::sync::{Mutex, Wait};
use std::thread::Threads;

/// The workers of a run: how many there are, how many visits each has in a phase of a round, and the gate that is called before each visit.
/// Links that phases used are kept for those that follow.
#[derive(Drop)]
pub struct Workers<'a, G> {
    crew: Crew,
    gate: &'a G,
    free: Mutex<FreeLinks<<Node as Machine>::Msg>>,
}

impl<'a, G> Model for Workers<'a, G> {
    ghost use Rattle.std.specs.Prelude.{◌≤◌};
    ghost use Rattle.seam_workers.specs.declared.Crew.{Crew};

    ghost Value = { Crew };

    ghost view = { λ w. w.crew };

    ghost invariant = { λ w. (1 ≤ w.crew.workers) × (w.crew.workers ≤ 16) × (1 ≤ w.crew.turns) };
}

impl<'a, G> Workers<'a, G> {
    /// A crew of 1 to 16 workers, each of whom has a visit or more in a phase.
    pub fn new(alloc: Global, crew: Crew, gate: &'a G) -> Workers<'a, G>
        requires workers { (1 ≤ crew.workers) × (crew.workers ≤ 16) }
        requires turns { 1 ≤ crew.turns }
        ensures { result ≡ crew }
    {
        Workers {
            crew,
            gate,
            free: Mutex::new(FreeLinks::new(alloc)),
        }
    }

    /// How many there are.
    pub fn count(&self) -> usize
        ensures { result ≡ self.now.workers }
    {
        self.crew.workers as usize
    }

    // Whether there is one alone: it would do what the caller does as well.
    pub(crate) fn are_one(&self) -> bool {
        self.crew.workers == 1
    }

    // Who lets witnesses look: one alone. Each look tells thousands of lines where many are near, which wait in a link until the base
    // node's turn: looks in threads took half as many processor seconds again, and twice the memory.
    pub(crate) fn at_looks(&self, alloc: Global) -> Workers<'a, G> {
        Workers {
            crew: Crew {
                workers: 1,
                ..self.crew
            },
            gate: self.gate,
            free: Mutex::new(FreeLinks::new(alloc)),
        }
    }
}

impl<G: Gate + Sync> Workers<'_, G> {
    // Lets events of the net happen in threads.
    pub(crate) fn run<R: Threads + Wait + Sync>(
        &self,
        rt: &R,
        net: Net<Node>,
    ) -> Result<(Net<Node>, Vec<Event>), AllocError>
        requires peers { ArePeers node_peers net }
        ensures run { IfOk result (λ r. LeadsTo node_has_work node_steps net r.1.items r.0) }
        ensures peers { IfOk result (λ r. ArePeers node_peers r.0) }
    {
        let mut free = self.free.lock(rt);
        run_workers_over(rt, &mut *free, net, self.crew, self.gate)
    }
}
