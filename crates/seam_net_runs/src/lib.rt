// SPDX-License-Identifier: MIT

//! Runs of a net of machines: what every enabled event keeps, lowers or leaves exactly, and so what every list of events does.
//!
//! An event is one step of one node (Lamport, "Time, Clocks, and the Ordering of Events in a Distributed System", 1978). A law over all
//! runs is an induction over the list of events: what is proved here of one event holds after every run.
//!
//! `laws` has the laws of events and runs, each a clause of a function that does nothing; `finishing` lets events happen on one thread,
//! up to a number. Of `specs/`, `Sound` says what is true of a net at every moment, `Kept` what stays true of links, `Weights`
//! and `Sums` what weighs how much, and `Seen` how a net is seen through a function on its nodes; `Finishing` says that all runs of a net
//! are bounded.
//!
//! Machines, laws over runs and laws of one entity's flow (`seam_law_flow`) are three crates, so that an edit of a law proves no net anew.
//! A law over any fact takes the fact as a ghost member of a type parameter, since a clause cannot range over facts.
//!
//! For callers, of `proofs/`: `Runs` (join, part and extend runs; what they keep; how long they are), `Keeping` (each node, each link, each
//! link exactly), `Weighing` (the weight of a net, by the node to which a message goes), `MapSums` (sums over finite maps), `Soundness` (a
//! net of machines stays one) and `Seeing` (a net through a function on its nodes).
#![tactic(auto)]

mod finishing;
mod laws;

pub use finishing::begin;
pub use laws::{
    LinkFact, NetFact, NetMeasure, NodeFact, a_map_weighs_its_values, chosen_sends_are_bounded,
    each_link_is_kept, each_node_is_kept, links_are_exact, nets_are_seen, runs_end, runs_extend,
    runs_join, runs_keep, soundness_is_kept, weights_move,
};
