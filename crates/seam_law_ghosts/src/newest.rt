//! Copies of an entity are what its real wants: while messages are on their way each cell is told so, and where a world is quiet each cell
//! has just that.
//!
//! A real wants the present copy, what others may see of it now, in each cell that is one of its haunts, and none in any other (BigWorld
//! Server Overview: a ghost is kept up to date by its real). `specs/Copies` has it, and the record of copies between rounds, which is kept
//! beside that of `seam_law_rounds`. From the two records all laws of ghosts follow for each entity of a loaded world.
//!
//! For callers, of `proofs/`: `Loading` (what a load leaves of copies), `Rounding` (a round's calls) and `Ending` (the end of each phase).

ghost use Rattle.std.specs.Prelude.{◌≡◌, ℕ, ◌<◌, ◌+◌, ◌≤◌, ◌⊎◌, List, [], ◌∷◌, length, None, Some};
ghost use Rattle.std.specs.List.{AllByRecursion};
ghost use Rattle.seam_node_steps.specs.Prelude.{distance, IsQuiet, Event, Settings, TypeDef, builtin, standard, GhostsReach};
ghost use Rattle.seam_node_steps.specs.Prelude.{Batch, GhostCopy, RealView, cell_count, holders, World, node_has_work, opened};
ghost use Rattle.seam_node_steps.specs.Prelude.{loaded, reaps_loaded, look_loaded, empty_world};
ghost use Rattle.seam_law_flow.specs.Prelude.{TokenPlace, In};
ghost use Rattle.seam_law_calls.specs.Prelude.{Frame, entity_flow, events_of, IsOne, IsSpared, IsFrame, HasOne, RunsTo, real_at};
ghost use Rattle.seam_law_rounds.specs.Prelude.{IsBetweenRounds, IsFitting, framed, first_frame, AreReapable, NewestRouteIsRight, MayBegin};
ghost use Rattle.seam_law_ghosts.specs.Prelude.{IsTrue, IsHushed, ArePlaced, present, copy_at, NewestAreWanted, IsForgotten, AreSettled};
ghost use Rattle.seam_law_ghosts.specs.Prelude.{AreCopiesBetweenRounds};
ghost use Rattle.seam_node_steps.specs.Rows as row;
ghost use Rattle.seam_node_steps.specs.LateGhost as late;

/// Where nothing about an entity is on its way and cells have what its real wants, each cell is told what the real wants after every list
/// of events. So it is in a round, for each entity of the loaded world, whether it was there before or the batch creates it; and each cell
/// is told that it is to have no copy of any other. And so it is where witnesses look.
pub fn each_cell_is_told_what_the_real_wants()
    ensures flow { (f : Frame) (e ty : ℕ) (w v : World) (es : List Event) → IsFrame f →
        ty < length f.defs → (h : HasOne f e ty w) → IsSpared e w → h.real.public ≤ h.real.version →
        ((x y : ℕ) → (entity_flow e w).mail x y ≡ []) → (home : ℕ) →
        real_at e w home ≡ Some h.real → AreSettled f e home h.real w → RunsTo w es v →
        (p : TokenPlace) (q : RealView) → IsOne e v p q → NewestAreWanted f e v p q }
    ensures round { (f : Frame) (w : World) (b : Batch) → MayBegin f w b →
        AreCopiesBetweenRounds f w → (v : World) (es : List Event) → RunsTo (loaded w b) es v →
        (e : ℕ) → holders (loaded w b) e ≡ 1 → (p : TokenPlace) (q : RealView) → IsOne e v p q →
        NewestAreWanted (framed f b) e v p q }
    ensures others { (f : Frame) (w : World) (b : Batch) → MayBegin f w b →
        AreCopiesBetweenRounds f w → (v : World) (es : List Event) → RunsTo (loaded w b) es v →
        (e : ℕ) → holders (loaded w b) e ≡ 0 → IsForgotten e v }
    ensures looks { (f : Frame) (u : World) → IsBetweenRounds f u → AreCopiesBetweenRounds f u →
        (vs : List Event) (v : World) → RunsTo (look_loaded u) vs v →
        (e home : ℕ) (r q : RealView) → real_at e u home ≡ Some r → real_at e v home ≡ Some q →
        NewestAreWanted f e v (In home) q }
{}

/// In a round each copy, in a book or on its way, is what others may see of the state that its real had at the copy's version: at the load
/// there is the present copy alone, and from then on each beat has one more. Of two copies of an entity in a cell the later one is never of
/// an older version, and what comes to the cell of the real has no newer beat than the book there.
pub fn ghosts_of_a_round_are_true()
    ensures true_copies { (f : Frame) (w : World) (b : Batch) → MayBegin f w b →
        AreCopiesBetweenRounds f w → (v : World) (es : List Event) → RunsTo (loaded w b) es v →
        (e k : ℕ) (r : RealView) → real_at e (loaded w b) k ≡ Some r →
        IsTrue (framed f b) e r.ty r (λ n. present f r) v }
    ensures versions { (f : Frame) (w : World) (b : Batch) → MayBegin f w b →
        AreCopiesBetweenRounds f w → (v : World) (es : List Event) → RunsTo (loaded w b) es v →
        (u : World) (gs : List Event) → RunsTo v gs u → (e : ℕ) → holders (loaded w b) e ≡ 1 →
        (k : ℕ) (c d : GhostCopy) → copy_at e v k ≡ Some c → copy_at e u k ≡ Some d →
        c.version ≤ d.version }
    ensures hushed { (f : Frame) (w : World) (b : Batch) → MayBegin f w b →
        AreCopiesBetweenRounds f w → (v : World) (es : List Event) → RunsTo (loaded w b) es v →
        (e : ℕ) → holders (loaded w b) e ≡ 1 → (k : ℕ) (q : RealView) → real_at e v k ≡ Some q →
        IsHushed e v (In k) }
{}

/// In a round the newest route of each base node, of the one that it has and those on their way there, has the generation of the real and
/// the cell where it is. While the real is on its way, each route is of a smaller generation than the real.
pub fn the_newest_route_leads_to_the_real()
    ensures { (f : Frame) (w : World) (b : Batch) → MayBegin f w b → (v : World) (es : List Event) →
        RunsTo (loaded w b) es v → (e : ℕ) → holders (loaded w b) e ≡ 1 →
        (p : TokenPlace) (q : RealView) → IsOne e v p q → (j : ℕ) → cell_count ≤ j →
        j < cell_count + f.settings.bases → NewestRouteIsRight p q (entity_flow e v) j }
{}

/// Where a round's calls leave the world quiet, each haunt of a real has the present copy and no other cell has one, its own cell among
/// them; no book has a greater beat than the real; and each base node's route goes to it. Where witnesses look, copies stay what they are.
pub fn quiet_means_settled()
    ensures copies { (f : Frame) (w : World) (b : Batch) → MayBegin f w b →
        AreCopiesBetweenRounds f w → (v : World) (es : List Event) → RunsTo (loaded w b) es v →
        IsQuiet node_has_work v → (e k : ℕ) (q : RealView) → real_at e v k ≡ Some q →
        AreSettled (framed f b) e k q v }
    ensures routes { (f : Frame) (w : World) (b : Batch) → MayBegin f w b →
        (v : World) (es : List Event) → RunsTo (loaded w b) es v → IsQuiet node_has_work v →
        (e k : ℕ) (q : RealView) → real_at e v k ≡ Some q → (j : ℕ) → cell_count ≤ j →
        j < cell_count + f.settings.bases → ((entity_flow e v).slot j).base.route
        ≡ Some (record { cell = k; generation = q.generation }) }
    ensures looks { (f : Frame) (u : World) → IsBetweenRounds f u → AreCopiesBetweenRounds f u →
        (vs : List Event) (v : World) → RunsTo (look_loaded u) vs v → IsQuiet node_has_work v →
        (e : ℕ) → holders u e ≡ 1 → (k : ℕ) → k < cell_count → copy_at e v k ≡ copy_at e u k }
{}

/// The record of copies holds of a world as it is opened. It holds of a loaded world, and again where a round's calls leave the world
/// quiet, where the reaps do, and where the looks do.
pub fn copies_go_from_record_to_record()
    ensures opened { (defs : List TypeDef) (settings : Settings) →
        IsFrame (first_frame defs settings) → 1 ≤ settings.bases →
        AreCopiesBetweenRounds (first_frame defs settings) (opened defs settings) }
    ensures loaded { (f : Frame) (w : World) (b : Batch) → MayBegin f w b →
        AreCopiesBetweenRounds f w → AreCopiesBetweenRounds (framed f b) (loaded w b) }
    ensures calls { (f : Frame) (w : World) (b : Batch) → MayBegin f w b →
        AreCopiesBetweenRounds f w → (v : World) (es : List Event) → RunsTo (loaded w b) es v →
        IsQuiet node_has_work v → AreCopiesBetweenRounds (framed f b) v }
    ensures reaps { (f : Frame) (u : World) → IsBetweenRounds f u → AreCopiesBetweenRounds f u →
        (es : List ℕ) → AreReapable u es → (vs : List Event) (v : World) →
        RunsTo (reaps_loaded u es) vs v → IsQuiet node_has_work v → AreCopiesBetweenRounds f v }
    ensures looks { (f : Frame) (u : World) → IsBetweenRounds f u → AreCopiesBetweenRounds f u →
        (vs : List Event) (v : World) → RunsTo (look_loaded u) vs v → IsQuiet node_has_work v →
        AreCopiesBetweenRounds f v }
{}

/// Where entities are reaped, each cell is told what a real wants as long as it is there, and that it is to have no copy once the real is
/// gone. Where the world is quiet again, no cell has a copy of an entity that was reaped, and the copies of all others are what they were.
pub fn no_cell_keeps_a_copy_of_the_reaped()
    ensures told { (f : Frame) (u : World) → IsBetweenRounds f u → AreCopiesBetweenRounds f u →
        (es : List ℕ) → AreReapable u es → (vs : List Event) (v : World) →
        RunsTo (reaps_loaded u es) vs v → (e home : ℕ) (r q : RealView) →
        real_at e u home ≡ Some r → real_at e v home ≡ Some q → NewestAreWanted f e v (In home) q }
    ensures forgotten { (f : Frame) (u : World) → IsBetweenRounds f u → AreCopiesBetweenRounds f u →
        (es : List ℕ) → AreReapable u es → (vs : List Event) (v : World) →
        RunsTo (reaps_loaded u es) vs v → (e home : ℕ) (r : RealView) → real_at e u home ≡ Some r →
        real_at e v home ≡ None → IsForgotten e v }
    ensures none { (f : Frame) (u : World) → IsBetweenRounds f u → AreCopiesBetweenRounds f u →
        (es : List ℕ) → AreReapable u es → (vs : List Event) (v : World) →
        RunsTo (reaps_loaded u es) vs v → IsQuiet node_has_work v →
        AllByRecursion (λ e. (k : ℕ) → k < cell_count → copy_at e v k ≡ None) es }
    ensures others { (f : Frame) (u : World) → IsBetweenRounds f u → AreCopiesBetweenRounds f u →
        (es : List ℕ) → AreReapable u es → (vs : List Event) (v : World) →
        RunsTo (reaps_loaded u es) vs v → IsQuiet node_has_work v → (e : ℕ) → holders u e ≡ 1 →
        AllByRecursion (λ x. x ≡ e → ⊥) es → (k : ℕ) → k < cell_count →
        copy_at e v k ≡ copy_at e u k }
{}

/// Where entities are reaped, and where witnesses look, no cell gets a copy: after any of their events each copy of an entity that was
/// there is the one that its cell had. So versions never fall.
pub fn no_copy_comes_in_the_last_phases()
    ensures reaps { (f : Frame) (u : World) → IsBetweenRounds f u → (es : List ℕ) →
        AreReapable u es → (vs : List Event) (v : World) → RunsTo (reaps_loaded u es) vs v →
        (e : ℕ) → holders u e ≡ 1 → (k : ℕ) (c : GhostCopy) → copy_at e v k ≡ Some c →
        copy_at e u k ≡ Some c }
    ensures looks { (f : Frame) (u : World) → IsBetweenRounds f u → (vs : List Event) (v : World) →
        RunsTo (look_loaded u) vs v → (e : ℕ) → holders u e ≡ 1 → (k : ℕ)
        (c : GhostCopy) → copy_at e v k ≡ Some c → copy_at e u k ≡ Some c }
{}

/// So where the records of places and of copies are kept, and ghosts reach as far as a witness sees, the cell of an entity has the real or
/// the present copy of each entity within the view's radius and hysteresis of it.
pub fn near_entities_are_known()
    ensures { (f : Frame) (w : World) → IsBetweenRounds f w → ArePlaced f w →
        AreCopiesBetweenRounds f w → GhostsReach f.settings → (e i : ℕ) (r : RealView) →
        real_at e w i ≡ Some r → (x j : ℕ) (q : RealView) → real_at x w j ≡ Some q →
        distance q.state.pos r.state.pos ≤ f.settings.view_radius + f.settings.view_hysteresis →
        (i ≡ j) ⊎ (copy_at x w i ≡ Some (present f q)) }
{
    crate::places::who_may_be_seen_is_known();
}

/// What these laws ask is true of an opened world and a worked batch (`seam_node_steps`: "a late ghost message"), which creates an entity
/// near two borders of three cells and moves it over one. Where its calls leave the world quiet, both records hold, the haunt has the copy
/// of what the entity is now, and the entity may be reaped.
pub fn a_worked_round_keeps_the_records()
    ensures between { IsBetweenRounds (first_frame builtin standard) empty_world }
    ensures fits { IsFitting (first_frame builtin standard) empty_world late.batch }
    ensures run { RunsTo (loaded empty_world late.batch) (events_of late.steps) late.world_14 }
    ensures quiet { IsQuiet node_has_work late.world_14 }
    ensures ends { IsBetweenRounds (framed (first_frame builtin standard) late.batch)
        late.world_14 }
    ensures copies { AreCopiesBetweenRounds (framed (first_frame builtin standard) late.batch)
        late.world_14 }
    ensures present { copy_at 1 late.world_14 0 ≡ Some (row.copy_at 2 5100 4000) }
    ensures reapable { AreReapable late.world_14 (1 ∷ []) }
{
    seam_node_steps::rows::a_late_ghost_message_is_ignored();
}
