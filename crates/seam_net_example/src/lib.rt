// SPDX-License-Identifier: MIT

//! The small machine that shows how nets of machines and their laws are used: counters in a ring that pass numbers on.
//!
//! A counter that was given a number passes it to the next counter. A number that comes is passed on, lowered by one, and is gone once it
//! is 0. So each event lowers what is left to do by one, and every run ends.
//!
//! `counter` is the machine, and `laws` has what is proved of rings of counters. `specs/Views` has what contracts see of a counter,
//! `specs/Counters` its steps, and `specs/Rings` the rings.
//!
//! The other modules are tests: `links` and `logs` of these two, `rings` of the ring as a net, and `workers` of the ring that workers run
//! in threads. They test what no clause says, and stand here since a crate with tests of its own is proved twice.
#![tactic(auto)]

mod counter;
mod laws;

pub use counter::Counter;
pub use laws::{
    a_ring_stays_a_ring, counters_are_seen_alone, one_number_stays_one, runs_of_a_ring_end,
    small_numbers_are_seen, small_numbers_stay_small,
};

#[cfg(test)]
mod links;
#[cfg(test)]
mod logs;
#[cfg(test)]
mod rings;
#[cfg(test)]
mod workers;

ghost use Rattle.std.specs.Prelude.{◌≡◌, IfOk};
ghost use Rattle.seam_machine.specs.Nets.{ArePeers};

#[cfg(test)]
use seam_machine::Net;
#[cfg(test)]
use std::alloc::{AllocError, Global};

// Three counters, each before the next; the first and the second are to pass on numbers, if they have one.
#[cfg(test)]
fn ring(alloc: Global, first: Option<u64>, second: Option<u64>) -> Result<Net<Counter>, AllocError>
    ensures { IfOk result (λ w. ArePeers (λ c. c.peers) w) }
{
    let nodes = Vec::from_array(
        alloc,
        [
            Counter::new(1, 3, first),
            Counter::new(2, 3, second),
            Counter::new(0, 3, None),
        ],
    )?;
    Net::new(alloc, nodes)
}

// What may go from one thread to another.
#[cfg(test)]
fn sent<T: Send>(value: T) -> T
    ensures { result ≡ value }
{
    value
}
