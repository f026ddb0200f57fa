// SPDX-License-Identifier: MIT

//! Rounds in which boundaries move: what cells go by after every list of events, and that reals come to rest by the last boundaries.
//!
//! A frame has the tree of the round's start and those that replace it, in their order; the place of one in that list is its number. A base
//! node tells each cell of the tree the next boundaries (`Order::Bounds`), a hand-over brings those by which its real was settled, and a
//! cell takes what has a greater number. These laws are said of worlds node by node and message by message, and need neither that an
//! entity has one real nor that its numbers stay small. In each, cells may be told boundaries in any order, late, or more than once.
//!
//! Of `specs/`, `Rounds` says what such a world is, `Awaited` where the last boundaries are, `Resting` which reals need no settling,
//! and `Sliding` which batches move boundaries. `specs/Prelude` re-exports what crates above cite, so that one import names it.
//!
//! For callers, of `proofs/`: `Facts` (a fact about nodes and messages that each step keeps), `Rounds` (what a step leaves of boundaries)
//! and `Taking` (a cell takes what is newer).
#![tactic(auto)]

ghost use Rattle.std.specs.Prelude.{◌≡◌, ℕ, ◌<◌, ◌≤◌, true, List, [], ◌∷◌, slice_get, Some};
ghost use Rattle.std.specs.FinMap as table;
ghost use Rattle.seam_node_steps.specs.Prelude.{Batch, Boundaries, Cell, CellView, Division, Event, IsQuiet, RealView, World};
ghost use Rattle.seam_node_steps.specs.Prelude.{boundaries_of, cells_of, empty_world, loaded, may_settle, node_has_work};
ghost use Rattle.seam_law_calls.specs.Prelude.{Frame, HasOneTree, IsFrame, IsInFrame, RunsTo};
ghost use Rattle.seam_law_rounds.specs.Prelude.{opening};
ghost use Rattle.seam_law_ghosts.specs.Prelude.{IsRestful};
ghost use Rattle.seam_law_slides.specs.Prelude.{AreAtRest, AreAwaited, AreLast, DivideTheSpace, GoesByRound, MaySlide};
ghost use Rattle.seam_law_slides.specs.Prelude.{framed_with, moved_cells, sliding};

/// After every list of events each cell goes by a tree of the round, under its number, and so does all that is on its way (`kept`). A round
/// without boundaries that move is such a one (`alone`).
pub fn cells_go_by_trees_of_the_round()
    ensures kept { (f : Frame) (w v : World) (es : List Event) → GoesByRound f w → RunsTo w es v →
        GoesByRound f v }
    ensures alone { (f : Frame) (w : World) → HasOneTree f → IsInFrame f w → GoesByRound f w }
{}

/// No cell's number falls, whatever is on its way.
pub fn no_number_falls()
    ensures { (w v : World) (es : List Event) → RunsTo w es v → (k : ℕ) (c d : CellView) →
        slice_get w.nodes k ≡ Some (Cell c) → slice_get v.nodes k ≡ Some (Cell d) →
        c.number ≤ d.number }
{}

/// Where the last boundaries are in each cell of the tree, on their way to it or to be told, each has them once the world is quiet.
pub fn each_cell_gets_the_last_boundaries()
    ensures { (f : Frame) → IsFrame f → DivideTheSpace f → (w v : World) (es : List Event) →
        GoesByRound f w → AreAwaited f w → RunsTo w es v → IsQuiet node_has_work v →
        (k : ℕ) (c : CellView) → k < cells_of f.tree → slice_get v.nodes k ≡ Some (Cell c) →
        AreLast f (boundaries_of c) }
{}

/// A real that its cell's survey list has not needs no settling by the cell's tree, and one on its way none by the tree by which it was
/// settled, where its numbers may rise (a real whose numbers may not is taken off the list unsettled). Every list of events keeps that
/// (`kept`). So once the world is quiet, each real in a cell of the tree needs no settling by the last tree (`ends`).
pub fn who_is_not_listed_is_at_rest()
    ensures kept { (f : Frame) → IsFrame f → DivideTheSpace f → (w v : World) (es : List Event) →
        GoesByRound f w → AreAtRest f w → RunsTo w es v → AreAtRest f v }
    ensures ends { (f : Frame) → IsFrame f → DivideTheSpace f → (w v : World) (es : List Event) →
        GoesByRound f w → AreAtRest f w → AreAwaited f w → RunsTo w es v →
        IsQuiet node_has_work v → (k : ℕ) (c : CellView) → k < cells_of f.tree →
        slice_get v.nodes k ≡ Some (Cell c) → (b : Boundaries) → AreLast f b → (e : ℕ)
        (r : RealView) → table.get c.reals e ≡ Some r → may_settle r ≡ true →
        IsRestful f.settings b.tree k r }
{}

/// Where a world between rounds is loaded with a batch that has an order for each of the round's later trees, the loaded world goes by the
/// round's trees, all its reals are listed, and the last boundaries are to be told: so it is as the laws above ask.
pub fn a_loaded_world_is_as_the_laws_ask()
    ensures round { (f : Frame) (w : World) (b : Batch) (later : List Division) →
        MaySlide f w b later → GoesByRound (framed_with f b later) (loaded w b) }
    ensures rest { (f : Frame) (w : World) (b : Batch) (later : List Division) →
        MaySlide f w b later → AreAtRest (framed_with f b later) (loaded w b) }
    ensures awaited { (f : Frame) (w : World) (b : Batch) (later : List Division) →
        MaySlide f w b later → AreAwaited (framed_with f b later) (loaded w b) }
{}

/// So where such a world is quiet again, each cell of the tree has the last boundaries (`cells`), and each real there needs no settling by
/// the last tree (`places`).
pub fn a_round_ends_by_its_last_tree()
    ensures cells { (f : Frame) (w : World) (b : Batch) (later : List Division) →
        MaySlide f w b later → (v : World) (es : List Event) → RunsTo (loaded w b) es v →
        IsQuiet node_has_work v → (k : ℕ) (c : CellView) → k < cells_of b.tree →
        slice_get v.nodes k ≡ Some (Cell c) → AreLast (framed_with f b later) (boundaries_of c) }
    ensures places { (f : Frame) (w : World) (b : Batch) (later : List Division) →
        MaySlide f w b later → (v : World) (es : List Event) → RunsTo (loaded w b) es v →
        IsQuiet node_has_work v → (k : ℕ) (c : CellView) → k < cells_of b.tree →
        slice_get v.nodes k ≡ Some (Cell c) → (e : ℕ) (r : RealView) →
        table.get c.reals e ≡ Some r → may_settle r ≡ true → IsRestful f.settings c.tree k r }
{}

/// A world as it is opened may be given a batch in whose round a boundary moves.
pub fn a_worked_slide_may_be_given()
    ensures { MaySlide opening empty_world sliding (moved_cells ∷ []) }
{}
