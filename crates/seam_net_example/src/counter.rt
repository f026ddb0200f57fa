//! A counter that passes numbers on.

ghost use Rattle.std.specs.Prelude.{◌≡◌, ◌<◌, ◌++◌, true, OnOk, OnErr};
ghost use Rattle.seam_net_example.specs.Counters.{counter_steps, counter_work, IsCounter, counter_targets, counter_peers, counter_valid};

use seam_machine::{Input, Machine, Out};
use std::alloc::{AllocError, Global};
use std::marker::Model;

/// A counter of a ring.
#[derive(Drop)]
pub struct Counter {
    next: u8,
    peers: u8,
    given: Option<u64>,
}

impl Model for Counter {
    ghost use Rattle.std.specs.Prelude.{◌<◌};
    ghost use Rattle.seam_net_example.specs.Views.{CounterView};

    ghost Value = { CounterView };

    ghost view = { λ c. record { next = c.next; peers = c.peers; given = c.given } };

    ghost invariant = { λ c. c.next < c.peers };
}

impl Counter {
    /// The counter before `next` in a ring of `peers` counters. It is to pass on the given number, if there is one.
    pub fn new(next: u8, peers: u8, given: Option<u64>) -> Counter
        requires { next < peers }
        ensures { result ≡ record { next = next; peers = peers; given = given } }
    {
        Counter { next, peers, given }
    }
}

impl Machine for Counter {
    type Msg = u64;

    ghost has_work = { counter_work };

    ghost peer_count = { λ c. c.peers };

    ghost steps = { counter_steps };

    ghost valid = { IsCounter };

    ghost targets = { counter_targets };

    ghost keeps_peers = { counter_peers };

    ghost stays_valid = { counter_valid };

    fn peers(&self) -> u8 {
        self.peers
    }

    fn has_task(&self) -> bool {
        self.given.is_some()
    }

    fn known(&self) {
        let _ = &self.next;
    }

    fn step(
        &mut self,
        _alloc: Global,
        input: &mut Input<u64>,
        out: &mut Out<u64>,
    ) -> Result<(), AllocError>
        requires { input.old ≡ Input.Task → counter_work self.old ≡ true }
        ensures state { OnOk result (self.new ≡ (counter_steps self.old input.old).state) }
        ensures sent { OnOk result (out.new.items ≡ out.old.items
            ++ (counter_steps self.old input.old).sent) }
        ensures err_state { OnErr result (self.new ≡ self.old) }
        ensures err_out { OnErr result (out.new.items ≡ out.old.items) }
        ensures err_input { OnErr result (input.new ≡ input.old) }
    {
        out.reserve(1)?;
        match input {
            Input::Task => {
                if let Some(number) = self.given {
                    self.given = None;
                    out.send(self.next, number);
                }
                return Ok(());
            }
            Input::From(_, number) => {
                if *number > 0 {
                    out.send(self.next, *number - 1);
                }
                return Ok(());
            }
        }
    }
}
