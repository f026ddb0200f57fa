// SPDX-License-Identifier: MIT

//! The plain round: from what was accepted and what the rounds so far left, one legal round, computed anew from plain lists and a flat
//! table alone, without nodes, messages or copies that are kept up to date. It is slow, and goes the way of the definitions of a legal
//! round (`seam_rule_rounds`): calls, places, lines of entities, looks, boundaries. The judge has the last word on what it gives.
#![tactic(auto)]

mod clients;
mod places;
mod round;

pub use round::plain_round;
