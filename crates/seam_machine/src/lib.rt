// SPDX-License-Identifier: MIT

//! Machines that send each other items, and nets of them.
//!
//! A machine makes one step at a time: it is fed its own task or one message, and sends messages to its peers. A net is a list of machines
//! and a first-in first-out link for each ordered pair of them; an event is one step of one node. After Lamport, "Time, Clocks, and the
//! Ordering of Events in a Distributed System" (1978): what nodes do is events in each node's order, tied by messages.
//!
//! Links are kept by sender, with a count of the filled ones for each receiver. Which nodes have a message or a task are marks in words
//! (`Marks`), and a message that is fed before all others waits in no link (`Sent`). So the next event is mostly found in a few
//! instructions.
//!
//! A node that was lent to be changed may have a task since, and then all are asked. That a step sends to peers alone is a law of a
//! machine's meaning, and no clause of each call.
//!
//! For callers, of `proofs/`: `Occurring` (what an enabled event is, and what it leaves of nodes and rows), `Puts` (a link after items were
//! put or a message was fed), `Writes` (a list after one place was written), `Totals` (sums over lists), `SendLemmas` (the items that go to
//! one node), `Flats` (rows as one list), `Quiet` (a quiet net is empty) and `Parts` (a net and its parts).
#![tactic(auto)]

mod laws;
mod links;
mod machines;
mod marks;
mod nets;
mod rows;
mod sends;
mod sent;

pub use laws::{
    a_node_put_back_changes_nothing, an_event_leaves_the_others, parts_are_the_net, quiet_is_empty,
};
pub use machines::{Event, Input, Machine};
pub use nets::{Net, NetParts};
pub use seam_table::NoMemoryFor;
pub use sends::Out;
