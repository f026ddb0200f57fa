// SPDX-License-Identifier: MIT

//! Calls of entities: who sends them, what they do, and which entities they are for. The book of accepted commands, the core
//! and the printed rounds all speak of these types. Senders are the base nodes of a world and the clients of its entities, as
//! proxies are in BigWorld (BigWorld Server Overview, "Base entities and proxies"). With them are the orders that a round gives to
//! base nodes, and what clients are shown.
#![tactic(auto)]

mod base_node;
mod call;
mod create;
mod laws;
mod order;
mod sender;
mod shown;

pub use base_node::{BaseNode, base_node_of};
pub use call::Call;
pub use create::Create;
pub use laws::{base_nodes_come_first, ranks_tell_senders, same_senders_are_equal};
pub use order::{Batch, Boundaries, Order};
pub use sender::Sender;
pub use shown::{ClientText, GhostCopy, Line, Shown, Update};
