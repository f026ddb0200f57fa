//! What a machine is: a state, a task, and a step whose meaning is a function.

ghost use Rattle.std.specs.Prelude.{◌≡◌, ℕ, ◌<◌, ◌++◌, Bool, true, OnOk, OnErr};
ghost use Rattle.std.specs.List.{All};
ghost use Rattle.seam_machine.specs.Views.{Stepped, OutView};
ghost use Rattle.seam_machine.specs.Sends.{AllBelow};

use crate::sends::Out;
use std::alloc::{AllocError, Global};

/// What a step is fed: the node's own task, or a message from that node.
#[derive(Debug, Drop, PartialEq, Eq)]
pub enum Input<T> {
    Task,
    From(u8, T),
}

/// Node `node` is fed its own task, or the first message of the link from `from`.
#[derive(Clone, Copy, Debug, PartialEq, Eq)]
pub struct Event {
    pub node: u8,
    pub from: Option<u8>,
}

/// A node of a net.
///
/// What a step means is the function `steps` of the state and the input: the state after it, and the items sent with their targets.
pub trait Machine: Drop {
    type Msg: Drop;

    ghost use Rattle.seam_machine.specs.declared.machines.Input.{Input};

    // Whether the task is there.
    ghost has_work: { Self → Bool };
    // How many nodes the net has.
    ghost peer_count: { Self → ℕ };
    // What a step leaves and sends.
    ghost steps: { Self → Input Self.Msg → Stepped Self Self.Msg };
    // What is true of every state.
    ghost valid: { Self → Type 0 };

    /// How many nodes the net has, this one among them. It stays the same.
    fn peers(&self) -> u8
        ensures { result ≡ peer_count self.now };

    /// Whether the node's own task is there.
    fn has_task(&self) -> bool
        ensures { result ≡ has_work self.now };

    /// What is true of every state is true of this one.
    fn known(&self)
        ensures { valid self.now };

    /// Makes the step and sends what it sends. The input is used up then; if allocation fails, it stays and nothing has changed.
    fn step(
        &mut self,
        alloc: Global,
        input: &mut Input<Self::Msg>,
        out: &mut Out<Self::Msg>,
    ) -> Result<(), AllocError>
        requires { input.old ≡ Input.Task → has_work self.old ≡ true }
        ensures state { OnOk result (self.new ≡ (steps self.old input.old).state) }
        ensures sent { OnOk result (out.new.items ≡ out.old.items
            ++ (steps self.old input.old).sent) }
        ensures err_state { OnErr result (self.new ≡ self.old) }
        ensures err_out { OnErr result (out.new.items ≡ out.old.items) }
        ensures err_input { OnErr result (input.new ≡ input.old) };

    // A step sends to nodes of the net alone, keeps the number of peers, and what is true of every state.
    ghost targets: { (s : Self) (i : Input Self.Msg) → valid s → AllBelow (peer_count s) (steps s i).sent };

    ghost keeps_peers: { (s : Self) (i : Input Self.Msg) → valid s → peer_count (steps s i).state ≡ peer_count s };

    ghost stays_valid: { (s : Self) (i : Input Self.Msg) → valid s → valid (steps s i).state };
}
