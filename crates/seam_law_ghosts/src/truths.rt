//! Ghosts are true, over every list of events.
//!
//! Each copy of an entity, in a cell's book or on its way there, is what others may see of the state that the entity's real had at the
//! copy's version (BigWorld Server Overview: a ghost is a copy of the relevant data of an entity from a nearby cell). What was told is a
//! table from beats to copies, which only grows at its end along the events; copies that were there at the start keep their places in it.
//!
//! For callers, of `proofs/`: `Present` (what others may see now).
//!
//! That the newest entry of a cell is the one that the real wants, so that a quiet world is settled, is said in `newest`.

ghost use Rattle.std.specs.Prelude.{◌≡◌, ℕ, ◌<◌, ◌≤◌, List, length, Some};
ghost use Rattle.seam_node_steps.specs.Prelude.{Event, GhostCopy, RealView, World};
ghost use Rattle.seam_law_flow.specs.Prelude.{In};
ghost use Rattle.seam_law_calls.specs.Prelude.{Frame, entity_flow, IsFrame, IsSpared, HasOne, RunsTo, real_at};
ghost use Rattle.seam_law_ghosts.specs.Prelude.{book_entry, IsTable, IsTrue, IsHushed};

/// Where the copies of an entity are those of a table at the start, they are those of one after every list of events. It is the same for
/// the beats of the start; for each later one it has what others may see of the state that the real had at the copy's version.
pub fn ghosts_are_true()
    ensures { (f : Frame) (e ty : ℕ) (w v : World) (es : List Event) → IsFrame f →
        ty < length f.defs → (h : HasOne f e ty w) → IsSpared e w → h.real.public ≤ h.real.version →
        (first : ℕ → GhostCopy) → IsTable e w h.real first → RunsTo w es v →
        IsTrue f e ty h.real first v }
{}

/// A book's beat of an entity never falls, over drops of the copy too; so of two copies of it in a cell the later one is never of an older
/// version. The world after the events has a table again, by `ghosts_are_true`.
pub fn copies_never_grow_older()
    ensures beats { (f : Frame) (e ty : ℕ) (w v : World) (es : List Event) → IsFrame f →
        ty < length f.defs → (h : HasOne f e ty w) → IsSpared e w → h.real.public ≤ h.real.version →
        (first : ℕ → GhostCopy) → IsTable e w h.real first → RunsTo w es v → (k : ℕ) →
        (book_entry ((entity_flow e w).slot k)).0 ≤ (book_entry ((entity_flow e v).slot k)).0 }
    ensures versions { (f : Frame) (e ty : ℕ) (w v : World) (es : List Event) → IsFrame f →
        ty < length f.defs → (h : HasOne f e ty w) → IsSpared e w → h.real.public ≤ h.real.version →
        (first : ℕ → GhostCopy) → IsTable e w h.real first → RunsTo w es v →
        (k : ℕ) (c d : GhostCopy) → (book_entry ((entity_flow e w).slot k)).1 ≡ Some c →
        (book_entry ((entity_flow e v).slot k)).1 ≡ Some d → c.version ≤ d.version }
{}

/// What comes to the cell where the real is has no newer beat than the book there, so that a copy that comes there may be ignored. It is so
/// after every list of events where it is so at the start, as it is where nothing is on its way.
pub fn no_news_comes_to_the_real()
    ensures { (f : Frame) (e ty : ℕ) (w v : World) (es : List Event) → IsFrame f →
        ty < length f.defs → (h : HasOne f e ty w) → IsSpared e w → h.real.public ≤ h.real.version →
        (first : ℕ → GhostCopy) → IsTable e w h.real first → IsHushed e w h.place → RunsTo w es v →
        (k : ℕ) (r : RealView) → real_at e v k ≡ Some r → IsHushed e v (In k) }
{}
