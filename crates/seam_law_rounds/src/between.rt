//! Worlds between rounds: what the laws of the core ask of a loaded world is true of each that a fitting batch makes of one that keeps the
//! record.
//!
//! `specs/Between` has the record, a sentence for each of its fields, and what a fitting batch is (*MayBegin* is both); `specs/Loaded` has
//! what a load makes of each node. These laws speak of each entity of the loaded world, whether it was there before or the batch
//! creates it.
//!
//! For callers, of `proofs/`: `Loading` (a load node by node), `Framing` (the frame), `Staying` (what a load leaves of an entity at a
//! node), `Making` (what it makes of one that the batch creates), `Loaded` (and in the world), `Ready` (what the laws ask of a settled
//! entity), `Turns` (its calls), `Room` (room in its numbers) and `Going` (every list of events).

ghost use Rattle.std.specs.Prelude.{◌≡◌, ℕ, ◌+◌, ◌<◌, List, Some};
ghost use Rattle.std.specs.List.{AllByRecursion};
ghost use Rattle.seam_node_steps.specs.Prelude.{IsQuiet, Event, Batch, RealView, holders, World, node_has_work};
ghost use Rattle.seam_node_steps.specs.Prelude.{loaded, limit};
ghost use Rattle.seam_law_flow.specs.Prelude.{letters_of};
ghost use Rattle.seam_law_calls.specs.Prelude.{Frame, IsInFrame, entity_flow, burden, IsFrame, IsSpared, HasOne, frame, AllLead};
ghost use Rattle.seam_law_calls.specs.Prelude.{from_sender, AreCallsOf, CellCallsInTurn, RunsTo, real_at};
ghost use Rattle.seam_law_rounds.specs.Prelude.{IsSettled, framed, calls_of};
ghost use Rattle.seam_law_rounds.specs.Prelude.{next_from, MayBegin};

/// A world between rounds that was given a fitting batch goes by the batch's tree.
pub fn a_loaded_world_goes_by_its_tree()
    ensures frame { (f : Frame) (w : World) (b : Batch) → MayBegin f w b → IsFrame (framed f b) }
    ensures nodes { (f : Frame) (w : World) (b : Batch) → MayBegin f w b →
        IsInFrame (framed f b) (loaded w b) }
{}

/// Each entity that had one holder has one in it, and so has each that the batch creates; no other has one.
pub fn a_load_keeps_reals_and_makes_new_ones()
    ensures kept { (f : Frame) (w : World) (b : Batch) → MayBegin f w b → (e : ℕ) →
        holders w e ≡ 1 → holders (loaded w b) e ≡ 1 }
    ensures made { (f : Frame) (w : World) (b : Batch) → MayBegin f w b →
        AllByRecursion (λ x. holders (loaded w b) x.entity ≡ 1) b.creates }
    ensures none { (f : Frame) (w : World) (b : Batch) → MayBegin f w b → (e : ℕ) →
        holders w e ≡ 0 → AllByRecursion (λ x. x.entity ≡ e → ⊥) b.creates →
        holders (loaded w b) e ≡ 0 }
{}

/// Each real of a loaded world is its entity's one real, fits, and is where the routes go. It has no call left of the last round, and no
/// one reaps it. Whatever leads to a cell leads to it, and its numbers have room for all that is to be done.
pub fn an_entity_of_a_loaded_world_is_ready()
    ensures settled { (f : Frame) (w : World) (b : Batch) → MayBegin f w b →
        (e k : ℕ) (r : RealView) → real_at e (loaded w b) k ≡ Some r →
        IsSettled (framed f b) e k r (loaded w b) }
    ensures one { (f : Frame) (w : World) (b : Batch) → MayBegin f w b → (e k : ℕ) (r : RealView) →
        real_at e (loaded w b) k ≡ Some r → HasOne (framed f b) e r.ty (loaded w b) }
    ensures spared { (f : Frame) (w : World) (b : Batch) → MayBegin f w b →
        (e k : ℕ) (r : RealView) → real_at e (loaded w b) k ≡ Some r → IsSpared e (loaded w b) }
    ensures lead { (f : Frame) (w : World) (b : Batch) → MayBegin f w b → (e k : ℕ) (r : RealView) →
        real_at e (loaded w b) k ≡ Some r → AllLead (entity_flow e (loaded w b)) }
    ensures room { (f : Frame) (w : World) (b : Batch) → MayBegin f w b → (e k : ℕ) (r : RealView) →
        real_at e (loaded w b) k ≡ Some r → burden e (loaded w b) + 1 < limit }
{}

/// Each sender's calls of the batch to its cell part are its own, fit, and are in turn, numbered from the sender's next number on: from 1
/// on where the batch creates it.
pub fn calls_of_a_batch_are_in_turn()
    ensures ours { (f : Frame) (w : World) (b : Batch) → MayBegin f w b → (e k : ℕ) (r : RealView) →
        real_at e (loaded w b) k ≡ Some r → AreCallsOf (framed f b) e r.ty (calls_of b e) }
    ensures turns { (f : Frame) (w : World) (b : Batch) → MayBegin f w b →
        (e k : ℕ) (r : RealView) → real_at e (loaded w b) k ≡ Some r →
        CellCallsInTurn e (λ s. next_from s r) (calls_of b e) (loaded w b) }
{}

/// So over every list of events after the load each entity has its one real, and its calls find their way.
pub fn an_entity_keeps_one_real()
    ensures one { (f : Frame) (w : World) (b : Batch) → MayBegin f w b → (e : ℕ) →
        holders (loaded w b) e ≡ 1 → (v : World) (es : List Event) → RunsTo (loaded w b) es v →
        holders v e ≡ 1 }
    ensures lead { (f : Frame) (w : World) (b : Batch) → MayBegin f w b → (e : ℕ) →
        holders (loaded w b) e ≡ 1 → (v : World) (es : List Event) → RunsTo (loaded w b) es v →
        AllLead (entity_flow e v) }
{}

/// And each call of the batch to its cell part waits once, until it is executed; where the world is quiet again, all were executed, each
/// sender's in the order of their numbers.
pub fn calls_of_a_batch_are_executed_once()
    ensures once { (f : Frame) (w : World) (b : Batch) → MayBegin f w b → (e k : ℕ) (r : RealView) →
        real_at e (loaded w b) k ≡ Some r → (v : World) (es : List Event) →
        RunsTo (loaded w b) es v → CellCallsInTurn e (λ s. next_from s r) (calls_of b e) v }
    ensures executed { (f : Frame) (w : World) (b : Batch) → MayBegin f w b →
        (e k : ℕ) (r : RealView) → real_at e (loaded w b) k ≡ Some r →
        (v : World) (es : List Event) → RunsTo (loaded w b) es v → IsQuiet node_has_work v →
        (j : ℕ) (q : RealView) → real_at e v j ≡ Some q → (s : ℕ) →
        letters_of (from_sender s) q.done ≡ calls_of b e s }
{}
