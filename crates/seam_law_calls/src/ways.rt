//! Calls find their way, over every list of events.
//!
//! A call is sent to where a route or a next place leads, and hand-overs are under way meanwhile. Whatever leads to a cell, a next place, a
//! route, a route on its way or a call on its way, leads to one where the real is, was in this round, or comes before the call; so a call
//! that comes to a cell finds the real or the next place there, and is never stray for want of them.
//!
//! For callers, of `proofs/`: `Finding` (a list of events) and `WayMoves` (what each move does).

ghost use Rattle.std.specs.Prelude.{◌≡◌, ℕ, ◌<◌, List, [], ◌∷◌, length, true, None, Some, is_some};
ghost use Rattle.seam_node_steps.specs.Prelude.{Event, Call as CallData, RealView, Msg, RouteView, World};
ghost use Rattle.seam_law_flow.specs.Prelude.{Flow, TokenPlace};
ghost use Rattle.seam_law_calls.specs.Prelude.{Frame, Has, entity_flow, IsOne, IsSpared, AllFits, IsFrame, is_visited, AllLead, RunsTo};
ghost use Rattle.seam_law_calls.specs.Prelude.{CallsFindTheirWay, follow};
ghost use Rattle.seam_entity.specs.declared.message.Msg.TheVariants.{Call};

/// In a world of an entity that fits and is not reaped, where all that leads to a cell leads to where the real is, was or comes, it does so
/// after every list of events.
pub fn calls_find_their_way()
    ensures { (f : Frame) (e ty : ℕ) (w v : World) (es : List Event) → IsFrame f →
        ty < length f.defs → AllFits f e ty w → IsSpared e w → (p : TokenPlace) (r : RealView) →
        IsOne e w p r → AllLead (entity_flow e w) → RunsTo w es v → AllLead (entity_flow e v) }
{}

/// A call that is the first of its link then finds the real or the next place at its node.
pub fn a_call_that_comes_finds_a_place()
    ensures { (w : Flow Has Msg) → AllLead w → (a k : ℕ) (c : CallData) (ms : List Msg) →
        w.mail a k ≡ Call c ∷ ms → is_visited (w.slot k) ≡ true }
{}

/// Where that is so of each entity, each call on a link, also behind others, is for an entity whose real is at the link's node, or whose
/// next place the node has, or whose hand-over is before the call on the same link.
pub fn each_call_on_a_link_finds_a_place()
    ensures { (w : World) → ((e a k : ℕ) → follow (is_visited ((entity_flow e w).slot k))
        ((entity_flow e w).mail a k) ≡ true) → CallsFindTheirWay w }
{}

/// So it is at the start of a round, with nothing on its way, no next place, and each route to the cell of the real.
pub fn a_round_begins_with_all_ways()
    ensures { (w : Flow Has Msg) → ((a k : ℕ) → w.mail a k ≡ []) →
        ((k : ℕ) → (w.slot k).cell.slot.next ≡ None) → ((k : ℕ) (r : RouteView) →
        (w.slot k).base.route ≡ Some r → is_some (w.slot r.cell).cell.slot.real ≡ true) →
        AllLead w }
{}
