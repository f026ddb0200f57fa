//! A round's last phases, and the record between rounds again at the end of each phase.
//!
//! A round is loaded and runs until the world is quiet; then entities are reaped, and then witnesses look, each with a load and a run of
//! its own. In the last two no call is made and no real is handed over: an entity is calm, and its real stays where it is until its Reap
//! comes.
//!
//! For callers, of `proofs/`: `Shape` (the frame and the nodes stay, and where a real is), `Publics` (public versions), `Calm`, `CalmMoves`
//! and `CalmRuns` (a calm entity), `Starting` and `Giving` (what a load gives it), `Phases` and `Ending` (calm over every list of events,
//! and at its end), `Reaping` and `Looking` (one real in these phases), `RoadMoves` and `RoadRuns` (generations and routes), `CallsEnd`
//! (where a round's calls end), `Opened` (an opened world) and `Unknown` (an entity that is not there).

ghost use Rattle.std.specs.Prelude.{◌≡◌, ℕ, ◌≤◌, List, if◌then◌else◌};
ghost use Rattle.std.specs.List.{AllByRecursion};
ghost use Rattle.seam_node_steps.specs.Prelude.{IsQuiet, Event, Settings, TypeDef, Batch, holders, World};
ghost use Rattle.seam_node_steps.specs.Prelude.{node_has_work, opened, loaded, reaps_loaded, look_loaded};
ghost use Rattle.seam_law_calls.specs.Prelude.{Frame, IsFrame, RunsTo, IsUnknown, CallsFindTheirWay};
ghost use Rattle.seam_law_rounds.specs.Prelude.{IsBetweenRounds, framed, first_frame, AreReapable, reap_comes, HasNoCalls};
ghost use Rattle.seam_law_rounds.specs.Prelude.{MayBegin};

/// Where a world between rounds is told to reap entities, each entity that was there has one holder until its Reap comes and none from then
/// on. Those that are not to be reaped keep theirs, and no other gets one. Where the world is quiet again, all are reaped.
pub fn reaps_end_reals()
    ensures counts { (f : Frame) (u : World) → IsBetweenRounds f u → (es : List ℕ) →
        AreReapable u es → (vs : List Event) (v : World) → RunsTo (reaps_loaded u es) vs v →
        (e : ℕ) → holders u e ≡ 1 → holders v e ≡ (if reap_comes e (reaps_loaded u es) vs then 0
        else 1) }
    ensures others { (f : Frame) (u : World) → IsBetweenRounds f u → (es : List ℕ) →
        AreReapable u es → (vs : List Event) (v : World) → RunsTo (reaps_loaded u es) vs v →
        (e : ℕ) → holders u e ≡ 1 → AllByRecursion (λ x. x ≡ e → ⊥) es → holders v e ≡ 1 }
    ensures none { (f : Frame) (u : World) → IsBetweenRounds f u → (es : List ℕ) →
        AreReapable u es → (vs : List Event) (v : World) → RunsTo (reaps_loaded u es) vs v →
        (e : ℕ) → holders u e ≡ 0 → holders v e ≡ 0 }
    ensures ended { (f : Frame) (u : World) → IsBetweenRounds f u → (es : List ℕ) →
        AreReapable u es → (vs : List Event) (v : World) → RunsTo (reaps_loaded u es) vs v →
        IsQuiet node_has_work v → AllByRecursion (λ e. holders v e ≡ 0) es }
{}

/// Meanwhile no call to the entity waits: no order, no message, and none that its real holds; nor after its Reap.
pub fn no_call_waits_for_the_reaped()
    ensures { (f : Frame) (u : World) → IsBetweenRounds f u → (es : List ℕ) → AreReapable u es →
        (vs : List Event) (v : World) → RunsTo (reaps_loaded u es) vs v → (e : ℕ) →
        holders u e ≡ 1 → HasNoCalls e v }
{}

/// Where the witnesses of a world between rounds look, each entity keeps its holder, no other gets one, and no call waits.
pub fn looks_keep_reals()
    ensures counts { (f : Frame) (u : World) → IsBetweenRounds f u → (vs : List Event) (v : World) →
        RunsTo (look_loaded u) vs v → (e : ℕ) → holders u e ≡ 1 → holders v e ≡ 1 }
    ensures none { (f : Frame) (u : World) → IsBetweenRounds f u → (vs : List Event) (v : World) →
        RunsTo (look_loaded u) vs v → (e : ℕ) → holders u e ≡ 0 → holders v e ≡ 0 }
    ensures calls { (f : Frame) (u : World) → IsBetweenRounds f u → (vs : List Event) (v : World) →
        RunsTo (look_loaded u) vs v → (e : ℕ) → holders u e ≡ 1 → HasNoCalls e v }
{}

/// Of an entity that has no holder as a phase begins, nothing is due or on its way but ticks, which concern each entity and go to cells:
/// in a round, where entities are reaped, and where witnesses look.
pub fn who_is_not_there_is_unknown()
    ensures round { (f : Frame) (w : World) (b : Batch) → MayBegin f w b → (e : ℕ) →
        holders (loaded w b) e ≡ 0 → (v : World) (es : List Event) → RunsTo (loaded w b) es v →
        IsUnknown (framed f b) e v }
    ensures reaps { (f : Frame) (u : World) → IsBetweenRounds f u → (es : List ℕ) →
        AreReapable u es → (vs : List Event) (v : World) → RunsTo (reaps_loaded u es) vs v →
        (e : ℕ) → holders u e ≡ 0 → IsUnknown f e v }
    ensures looks { (f : Frame) (u : World) → IsBetweenRounds f u → (vs : List Event) (v : World) →
        RunsTo (look_loaded u) vs v → (e : ℕ) → holders u e ≡ 0 → IsUnknown f e v }
{}

/// So each call on a link, whatever entity it is for, comes to a node where the entity's real is or was, or after the hand-over that brings
/// it, in each phase. (In the last two there is no call.)
pub fn each_call_finds_its_way()
    ensures round { (f : Frame) (w : World) (b : Batch) → MayBegin f w b →
        (v : World) (es : List Event) → RunsTo (loaded w b) es v → CallsFindTheirWay v }
    ensures reaps { (f : Frame) (u : World) → IsBetweenRounds f u → (es : List ℕ) →
        AreReapable u es → (vs : List Event) (v : World) → RunsTo (reaps_loaded u es) vs v →
        CallsFindTheirWay v }
    ensures looks { (f : Frame) (u : World) → IsBetweenRounds f u → (vs : List Event) (v : World) →
        RunsTo (look_loaded u) vs v → CallsFindTheirWay v }
{}

/// The record between rounds holds of a world as it is opened, if its definitions and settings make a frame (*IsFrame*), with a base node.
/// It holds again where a round's calls leave the world quiet, now by the batch's tree, then where the reaps do, and then where the looks
/// do. (What it says is of entities and their cell parts; clients and base parts are not in it.)
pub fn a_round_goes_from_record_to_record()
    ensures opened { (defs : List TypeDef) (settings : Settings) →
        IsFrame (first_frame defs settings) → 1 ≤ settings.bases →
        IsBetweenRounds (first_frame defs settings) (opened defs settings) }
    ensures calls { (f : Frame) (w : World) (b : Batch) → MayBegin f w b →
        (v : World) (es : List Event) → RunsTo (loaded w b) es v → IsQuiet node_has_work v →
        IsBetweenRounds (framed f b) v }
    ensures reaps { (f : Frame) (u : World) → IsBetweenRounds f u → (es : List ℕ) →
        AreReapable u es → (vs : List Event) (v : World) → RunsTo (reaps_loaded u es) vs v →
        IsQuiet node_has_work v → IsBetweenRounds f v }
    ensures looks { (f : Frame) (u : World) → IsBetweenRounds f u → (vs : List Event) (v : World) →
        RunsTo (look_loaded u) vs v → IsQuiet node_has_work v → IsBetweenRounds f v }
{}
