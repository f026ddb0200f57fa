//! How much a witness tells its client, over every list of events.
//!
//! A witness tells only where it looks. It looks once in each cell that a tick finds it in, so at most sixteen times for each tick, and a
//! look tells at most its own state, what leaves and what changes of what is in view, and what enters of what its cell knows. A cell knows
//! only entities that are somewhere, and the number of each is below a bound (`specs/Telling`).
//!
//! For callers, of `proofs/`: `Below` (lists of entities below the bound), `Absent` (no other entity comes), `Looking` (what a step does
//! with a witness), `LooksLeft` (how often it may look), `Telling` (what it told) and `Silent` (when it tells nothing).

ghost use Rattle.std.specs.Prelude.{◌≡◌, ℕ, ◌+◌, ◌*◌, List};
ghost use Rattle.seam_node_steps.specs.Prelude.{Event, World};
ghost use Rattle.seam_law_calls.specs.Prelude.{Frame, IsInFrame, IsFrame, EachReal, HasToldAtMost, HasFewEntities, SeesFew, looks_left};
ghost use Rattle.seam_law_calls.specs.Prelude.{most_shown, NoUpdateComes, RunsTo};

/// In a world whose entities have numbers below the bound, an entity's witness tells at most *most_shown* updates for each look that is
/// left of the ticks ordered, on their way, or come.
pub fn a_witness_tells_few()
    ensures { (f : Frame) (e n : ℕ) (w v : World) (es : List Event) → IsFrame f → IsInFrame f w →
        HasFewEntities w → EachReal e SeesFew w → HasToldAtMost e n w → RunsTo w es v →
        HasToldAtMost e (n + most_shown * looks_left e w) v }
{}

/// Where no look is left, as where entities are reaped, the client is told nothing more.
pub fn nothing_is_told_without_looks()
    ensures { (f : Frame) (e : ℕ) (w v : World) (es : List Event) → IsFrame f → IsInFrame f w →
        looks_left e w ≡ 0 → NoUpdateComes e w → RunsTo w es v → NoUpdateComes e v }
{}

/// No other entity comes into such a world, and each view stays one of such entities.
pub fn entities_stay_few()
    ensures entities { (f : Frame) (w v : World) (es : List Event) → IsInFrame f w →
        HasFewEntities w → RunsTo w es v → HasFewEntities v }
    ensures views { (f : Frame) (e n : ℕ) (w v : World) (es : List Event) → IsFrame f →
        IsInFrame f w → HasFewEntities w → EachReal e SeesFew w → HasToldAtMost e n w →
        RunsTo w es v → EachReal e SeesFew v }
{}
