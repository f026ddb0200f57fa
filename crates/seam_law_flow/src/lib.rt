// SPDX-License-Identifier: MIT

//! Laws of one entity's flow through a net of machines: what each node has of the entity, and the letters about it on each link.
//!
//! A net of many entities is, for each of them, a net of small slots and letters. Where a node's step is one of the moves of an entity, the
//! event is a step of that entity's flow, and a law about the entity is proved over moves alone.
//!
//! `laws` has the laws of a flow, `tokens` those of a token of which there is one, `delivery` those of items that are delivered in the
//! order of their numbers, and `turns` those of numbered calls to a part that travels. Each law is a clause of a function that does
//! nothing.
//!
//! Of `specs/`, `Flows`, `Narrow`, `Sent` and `Newest` are for `laws` (flows, flows through other eyes, lists that are sent, registers
//! whose newest entry wins), `Tokens` for `tokens`, `Lives`, `Numbered`, `Deliveries` and `Unlogged` for `delivery`, and `CallMoves`,
//! `Issues` and `Desks` for `turns`. `specs/Prelude` re-exports what crates above cite of this one and of those below it, so that one
//! import names it.
//!
//! For callers, of `proofs/`: `Bridge` (an event is a move; the letters of lists), `Following` (facts about slots and letters, and each
//! link after a move in two parts), `Narrowing` (a flow through other eyes, and the links to one node alone), `NewestLemmas` (the newest
//! entry of a register), `SendLists` (the items of a step by node and by entity), `TokenLemmas` (the one token stays the one) and
//! `TokenCounts` (one token is counted exactly where there is one). The heads of `delivery` and `turns` have theirs.
#![tactic(auto)]

mod delivery;
mod laws;
mod tokens;
mod turns;

pub use delivery::{
    a_token_begins_and_ends, items_are_delivered_in_order, items_are_delivered_without_a_list,
};
pub use laws::{
    LetterFact, Moves, SlotFact, a_flow_is_seen_through_other_eyes, a_move_keeps_facts,
    an_event_is_a_move, sends_are_seen, the_newest_entry_is_kept,
};
pub use tokens::{Token, one_token_is_counted_once, one_token_stays_the_one};
pub use turns::{
    a_call_that_comes_is_due, a_call_that_is_made_stays_in_turn, a_round_begins_in_turn,
    all_calls_are_executed, calls_stay_in_turn,
};
