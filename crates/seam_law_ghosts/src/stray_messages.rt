//! No input of a cell is stray, in any phase of a round, over every list of events.
//!
//! A cell's step tests each input first, and does nothing where a test fails (`seam_node_steps`: *is_stray*, *stray_survey*,
//! *stray_ready_call*). In a world that keeps the record between rounds, and that was given a fitting batch, entities to reap, or a look,
//! no test ever fails: each message finds what it is for, fits, and brings small numbers, and each entity in a list has its real there.
//!
//! A copy that comes where the real is changes nothing; that its beat is not greater is left to the laws of ghosts, and that the updates of
//! a look have numbers to those of what clients are shown.
//!
//! For callers, of `proofs/`: `Beginning` (what a loaded world has in its lists), `Strays` (messages and tasks about one entity), `InRound`
//! (a round) and `NoStrays` (each phase). Of an entity that is not there nothing comes but ticks
//! (`seam_law_rounds::who_is_not_there_is_unknown`).

ghost use Rattle.std.specs.Prelude.{◌≡◌, ℕ, false, List, ◌∷◌, Some, slice_get};
ghost use Rattle.seam_node_steps.specs.Prelude.{link, Event, Batch, Msg, about, is_stray, CellView, slot_of, World};
ghost use Rattle.seam_node_steps.specs.Prelude.{Cell, loaded, reaps_loaded, look_loaded};
ghost use Rattle.seam_law_calls.specs.Prelude.{Frame, RunsTo};
ghost use Rattle.seam_law_rounds.specs.Prelude.{IsBetweenRounds, AreReapable, MayBegin};
ghost use Rattle.seam_law_ghosts.specs.Prelude.{HasNoStrayTask};

/// A message that is the first of its link to a cell is not stray there: in a round, where entities are reaped, and where witnesses look.
pub fn no_message_to_a_cell_is_stray()
    ensures round { (f : Frame) (w : World) (b : Batch) → MayBegin f w b →
        (v : World) (es : List Event) → RunsTo (loaded w b) es v →
        (a k : ℕ) (c : CellView) (m : Msg) (ms : List Msg) (e : ℕ) →
        slice_get v.nodes k ≡ Some (Cell c) → link v.rows a k ≡ m ∷ ms → about m ≡ Some e →
        is_stray c.here c.tree (slot_of c e) m ≡ false }
    ensures reaps { (f : Frame) (u : World) → IsBetweenRounds f u → (es : List ℕ) →
        AreReapable u es → (vs : List Event) (v : World) → RunsTo (reaps_loaded u es) vs v →
        (a k : ℕ) (c : CellView) (m : Msg) (ms : List Msg) (e : ℕ) →
        slice_get v.nodes k ≡ Some (Cell c) → link v.rows a k ≡ m ∷ ms → about m ≡ Some e →
        is_stray c.here c.tree (slot_of c e) m ≡ false }
    ensures looks { (f : Frame) (u : World) → IsBetweenRounds f u → (vs : List Event) (v : World) →
        RunsTo (look_loaded u) vs v → (a k : ℕ) (c : CellView) (m : Msg) (ms : List Msg) (e : ℕ) →
        slice_get v.nodes k ≡ Some (Cell c) → link v.rows a k ≡ m ∷ ms → about m ≡ Some e →
        is_stray c.here c.tree (slot_of c e) m ≡ false }
{}

/// Nor is a task of a cell.
pub fn no_task_of_a_cell_is_stray()
    ensures round { (f : Frame) (w : World) (b : Batch) → MayBegin f w b →
        (v : World) (es : List Event) → RunsTo (loaded w b) es v → (k : ℕ) (c : CellView) →
        slice_get v.nodes k ≡ Some (Cell c) → HasNoStrayTask c }
    ensures reaps { (f : Frame) (u : World) → IsBetweenRounds f u → (es : List ℕ) →
        AreReapable u es → (vs : List Event) (v : World) → RunsTo (reaps_loaded u es) vs v →
        (k : ℕ) (c : CellView) → slice_get v.nodes k ≡ Some (Cell c) → HasNoStrayTask c }
    ensures looks { (f : Frame) (u : World) → IsBetweenRounds f u → (vs : List Event) (v : World) →
        RunsTo (look_loaded u) vs v → (k : ℕ) (c : CellView) → slice_get v.nodes k ≡ Some (Cell c) →
        HasNoStrayTask c }
{}
