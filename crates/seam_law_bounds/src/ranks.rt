//! A call is passed on at most as often as its entity was handed over, by ranks.
//!
//! A node's rank is the generation of the entity's real where that is here; where it was here, the generation with which it left. No event
//! lowers a rank. A call that is passed on comes to a node of higher rank: the next place has it, or the hand-over that brings it is on its
//! way before the call. No rank is above the generation of the real, and that rises by one with each hand-over, and with nothing else. So a
//! call is passed on at most as often as the entity was handed over in the round. How often events do either is counted as they happen
//! (`specs/Passes`); since a call waits at one place alone, its ranks are followed there.

ghost use Rattle.std.specs.Prelude.{◌≡◌, ℕ, ◌+◌, ◌≤◌, true, List, None, Some};
ghost use Rattle.seam_node_steps.specs.Prelude.{happens, enabled, Event, Batch, RealView, Msg, NextPlace, World, node_steps};
ghost use Rattle.seam_node_steps.specs.Prelude.{node_has_work, loaded};
ghost use Rattle.seam_law_flow.specs.Prelude.{Flow};
ghost use Rattle.seam_law_calls.specs.Prelude.{Frame, Has, real_in, RunsTo, real_at};
ghost use Rattle.seam_law_rounds.specs.Prelude.{MayBegin};
ghost use Rattle.seam_law_bounds.specs.Prelude.{rank_of, ComesTo, AreRanked, Climbs, passes, hand_overs};

/// What a node that has the next place alone passes on comes to a node of higher rank.
pub fn a_call_that_is_passed_on_climbs()
    ensures { (w : Flow Has Msg) (top : ℕ) → AreRanked w top → (k : ℕ) (n : NextPlace) →
        real_in (w.slot k) ≡ None → (w.slot k).cell.slot.next ≡ Some n →
        (rank_of (w.slot k) + 1 ≡ n.generation) × ComesTo w k n.cell n.generation }
{}

/// After every list of events of a round, each further event lowers no rank; no rank is above the generation of the one real, before it and
/// after it; and that generation rises by one where the real is handed over, and not else.
pub fn ranks_rise_with_hand_overs_alone()
    ensures { (f : Frame) (w : World) (b : Batch) → MayBegin f w b → (e k : ℕ) (r : RealView) →
        real_at e (loaded w b) k ≡ Some r → (v : World) (es : List Event) →
        RunsTo (loaded w b) es v → (x : Event) → enabled node_has_work v x ≡ true →
        Climbs e v (happens node_steps v x) }
{}

/// Over every list of events of a round, the call of a sender to the cell part of an entity that has a number is passed on at most as often
/// as the entity's real is handed over.
pub fn a_call_is_passed_on_at_most_as_often_as_its_real_is_handed_over()
    ensures { (f : Frame) (w : World) (b : Batch) → MayBegin f w b → (e k : ℕ) (r : RealView) →
        real_at e (loaded w b) k ≡ Some r → (s n : ℕ) (v : World) (es : List Event) →
        RunsTo (loaded w b) es v → passes e s n (loaded w b) es ≤ hand_overs e (loaded w b) es }
{}

/// The generation of a real is the one that it had when the round was loaded and the number of its hand-overs since then.
pub fn a_generation_counts_hand_overs()
    ensures { (f : Frame) (w : World) (b : Batch) → MayBegin f w b → (e k : ℕ) (r : RealView) →
        real_at e (loaded w b) k ≡ Some r → (v : World) (es : List Event) →
        RunsTo (loaded w b) es v → (j : ℕ) (q : RealView) → real_at e v j ≡ Some q →
        q.generation ≡ r.generation + hand_overs e (loaded w b) es }
{}
