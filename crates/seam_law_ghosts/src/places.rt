//! Where entities are: their places along a round, and at its end.
//!
//! A place is a home and the haunts, the cells with a ghost (`seam_haunt`). A batch puts each entity on the survey list of its cell, and
//! its real settles where the survey comes and after each call that it executes (BigWorld Server Overview: offloading, ghost distance).
//! These laws say, over every list of events, that its place is on its way, and that a round leaves it at a right one, whatever the order
//! of the events. `specs/RealPlaces` has the way, what a right place is, and the record of places that a world keeps between rounds.
//!
//! For callers, of `proofs/`: `Ends` (a quiet world, and the last phases).

ghost use Rattle.std.specs.Prelude.{◌≡◌, ℕ, ◌+◌, ◌<◌, ◌≤◌, ◌⊎◌, true, List, length, Some};
ghost use Rattle.std.specs.List.{AllByRecursion};
ghost use Rattle.std.specs.FinSet as set;
ghost use Rattle.seam_node_steps.specs.Prelude.{distance, distance_to_cell, GhostsReach, Settings, TypeDef, cells_of, leaf_at, IsQuiet};
ghost use Rattle.seam_node_steps.specs.Prelude.{Event, Batch, RealView, World, node_has_work, opened, loaded};
ghost use Rattle.seam_node_steps.specs.Prelude.{reaps_loaded, look_loaded};
ghost use Rattle.seam_law_flow.specs.Prelude.{In};
ghost use Rattle.seam_law_calls.specs.Prelude.{Frame, HasOneTree, HasOne, IsOne, IsSpared, AllFits, IsFrame, RunsTo, real_at};
ghost use Rattle.seam_law_rounds.specs.Prelude.{IsBetweenRounds, framed, first_frame, AreReapable, MayBegin};
ghost use Rattle.seam_law_ghosts.specs.Prelude.{place_of, first_place, made_real, BeginsAt, IsDue, IsPlaced, IsRightPlace, HadSameReal};
ghost use Rattle.seam_law_ghosts.specs.Prelude.{GoesThroughRound, ArePlaced, AreRestful};

/// Where a batch is loaded, each real that was there is in the same cell with the same haunts, and each that is created is in its leaf; and
/// the survey list of each real's cell has its entity.
pub fn a_load_begins_at_former_places()
    ensures kept { (f : Frame) (w : World) (b : Batch) → MayBegin f w b →
        (e home : ℕ) (r : RealView) → real_at e w home ≡ Some r → BeginsAt w b e home r }
    ensures made { (f : Frame) (w : World) (b : Batch) → MayBegin f w b →
        AllByRecursion (λ x. BeginsAt w b x.entity (leaf_at b.tree x.pos) (made_real f b.tree x))
        b.creates }
    ensures due { (w : World) (b : Batch) (e k : ℕ) (r : RealView) →
        real_at e (loaded w b) k ≡ Some r → IsDue e (loaded w b) (In k) }
{}

/// In a round with one tree, where an entity is in a cell, on that cell's survey list, and no one reaps it, its place is on its way after
/// every list of events. So it is for each entity of a loaded world, also one that the batch creates.
pub fn places_are_on_their_way()
    ensures way { (f : Frame) (e ty : ℕ) (w v : World) (es : List Event) → IsFrame f →
        HasOneTree f → ty < length f.defs → AllFits f e ty w → IsSpared e w → (home : ℕ)
        (r : RealView) → IsOne e w (In home) r → IsDue e w (In home) → RunsTo w es v →
        IsPlaced f e ty home r v }
    ensures loaded { (f : Frame) (w : World) (b : Batch) → MayBegin f w b →
        (v : World) (es : List Event) → RunsTo (loaded w b) es v → (e home : ℕ) (r : RealView) →
        real_at e (loaded w b) home ≡ Some r → IsPlaced (framed f b) e r.ty home r v }
{}

/// In a round with one tree, a real that its cell's survey list has not needs no settling, nor does one on its way: settling it where it is
/// changes nothing. Every list of events keeps that, and it holds of a loaded world, whose cells have each of their entities on the list.
pub fn who_is_not_listed_needs_no_settling()
    ensures kept { (f : Frame) (e ty : ℕ) (w v : World) (es : List Event) → IsFrame f →
        HasOneTree f → ty < length f.defs → HasOne f e ty w → IsSpared e w → AreRestful f e w →
        RunsTo w es v → AreRestful f e v }
    ensures loaded { (f : Frame) (w : World) (b : Batch) → MayBegin f w b →
        (v : World) (es : List Event) → RunsTo (loaded w b) es v → (e home : ℕ) (r : RealView) →
        real_at e (loaded w b) home ≡ Some r → AreRestful (framed f b) e v }
{}

/// Where a loaded world is quiet again, the place of each entity is one that the rounds allow for its former place, which for one that the
/// batch creates is the leaf of its position by the batch's tree. `loaded` says it of each real of the loaded world, `kept` of one that was
/// there before.
pub fn places_are_right()
    ensures loaded { (f : Frame) (w : World) (b : Batch) → MayBegin f w b →
        (v : World) (es : List Event) → RunsTo (loaded w b) es v → IsQuiet node_has_work v →
        (e home : ℕ) (r : RealView) → real_at e (loaded w b) home ≡ Some r →
        (k : ℕ) (q : RealView) → real_at e v k ≡ Some q →
        IsRightPlace f b.tree (place_of home r) r k q }
    ensures kept { (f : Frame) (w : World) (b : Batch) → MayBegin f w b →
        (v : World) (es : List Event) → RunsTo (loaded w b) es v → IsQuiet node_has_work v →
        (e home : ℕ) (r : RealView) → real_at e w home ≡ Some r → (k : ℕ) (q : RealView) →
        real_at e v k ≡ Some q → IsRightPlace f b.tree (place_of home r) r k q }
    ensures made { (f : Frame) (w : World) (b : Batch) → MayBegin f w b →
        (v : World) (es : List Event) → RunsTo (loaded w b) es v → IsQuiet node_has_work v →
        AllByRecursion (λ x. (k : ℕ) (q : RealView) → real_at x.entity v k ≡ Some q →
        IsRightPlace f b.tree (first_place b.tree x) (made_real f b.tree x) k q) b.creates }
{}

/// Reaps and looks leave places: each real that is there after any of their events was in the same cell before, and is the same but for its
/// witness.
pub fn the_last_phases_leave_places()
    ensures reaps { (f : Frame) (u : World) → IsBetweenRounds f u → (es : List ℕ) →
        AreReapable u es → (vs : List Event) (v : World) → RunsTo (reaps_loaded u es) vs v →
        (e k : ℕ) (q : RealView) → real_at e v k ≡ Some q → HadSameReal e k q u }
    ensures looks { (f : Frame) (u : World) → IsBetweenRounds f u → (vs : List Event) (v : World) →
        RunsTo (look_loaded u) vs v → (e k : ℕ) (q : RealView) →
        real_at e v k ≡ Some q → HadSameReal e k q u }
{}

/// So the places of those that are left are right after the whole round too.
pub fn a_round_leaves_right_places()
    ensures kept { (f : Frame) (w : World) (b : Batch) → MayBegin f w b → (v : World) →
        GoesThroughRound w b v → (e home : ℕ) (r : RealView) → real_at e w home ≡ Some r →
        (k : ℕ) (q : RealView) → real_at e v k ≡ Some q →
        IsRightPlace f b.tree (place_of home r) r k q }
    ensures made { (f : Frame) (w : World) (b : Batch) → MayBegin f w b → (v : World) →
        GoesThroughRound w b v → AllByRecursion (λ x. (k : ℕ) (q : RealView) →
        real_at x.entity v k ≡ Some q → IsRightPlace f b.tree (first_place b.tree x)
        (made_real f b.tree x) k q) b.creates }
{}

/// The record of places holds of a world as it is opened. It holds where a batch leaves the world quiet, now by the batch's tree, and the
/// reaps and the looks keep it; so a whole round does.
pub fn a_round_keeps_the_record_of_places()
    ensures opened { (defs : List TypeDef) (settings : Settings) →
        IsFrame (first_frame defs settings) → 1 ≤ settings.bases →
        ArePlaced (first_frame defs settings) (opened defs settings) }
    ensures calls { (f : Frame) (w : World) (b : Batch) → MayBegin f w b →
        (v : World) (es : List Event) → RunsTo (loaded w b) es v → IsQuiet node_has_work v →
        ArePlaced (framed f b) v }
    ensures reaps { (f : Frame) (u : World) → IsBetweenRounds f u → (es : List ℕ) →
        AreReapable u es → (vs : List Event) (v : World) → RunsTo (reaps_loaded u es) vs v →
        ArePlaced f u → ArePlaced f v }
    ensures looks { (f : Frame) (u : World) → IsBetweenRounds f u → (vs : List Event) (v : World) →
        RunsTo (look_loaded u) vs v → ArePlaced f u → ArePlaced f v }
    ensures round { (f : Frame) (w : World) (b : Batch) → MayBegin f w b → (v : World) →
        GoesThroughRound w b v → ArePlaced (framed f b) v }
{}

/// In a world that keeps both records each entity is within the offload hysteresis of its cell, each other cell within the ghost distance
/// is a haunt of it, and none beyond that and the ghost hysteresis is one.
pub fn places_are_near()
    ensures home { (f : Frame) (w : World) → IsBetweenRounds f w → ArePlaced f w →
        (e k : ℕ) (r : RealView) → real_at e w k ≡ Some r → distance_to_cell f.tree k r.state.pos
        ≤ f.settings.offload_hysteresis }
    ensures near { (f : Frame) (w : World) → IsBetweenRounds f w → ArePlaced f w →
        (e k : ℕ) (r : RealView) → real_at e w k ≡ Some r → (j : ℕ) → (j ≡ k → ⊥) →
        j < cells_of f.tree → distance_to_cell f.tree j r.state.pos ≤ f.settings.ghost_distance →
        set.contains r.haunts j ≡ true }
    ensures far { (f : Frame) (w : World) → IsBetweenRounds f w → ArePlaced f w →
        (e k : ℕ) (r : RealView) → real_at e w k ≡ Some r → (j : ℕ) →
        set.contains r.haunts j ≡ true → distance_to_cell f.tree j r.state.pos
        ≤ f.settings.ghost_distance + f.settings.ghost_hysteresis }
{}

/// And a client may see only those that its cell knows: of an entity x within the view's radius and hysteresis of an entity e, the cell of
/// e is the home or a haunt. (That a haunt has the present copy is a law of copies.)
pub fn who_may_be_seen_is_known()
    ensures { (f : Frame) (w : World) → IsBetweenRounds f w → ArePlaced f w →
        GhostsReach f.settings → (e i : ℕ) (r : RealView) → real_at e w i ≡ Some r →
        (x j : ℕ) (q : RealView) → real_at x w j ≡ Some q → distance q.state.pos r.state.pos
        ≤ f.settings.view_radius + f.settings.view_hysteresis → (i ≡ j) ⊎
        (set.contains q.haunts i ≡ true) }
{
    seam_geo::triangle_inequality();
}
