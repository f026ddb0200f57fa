// What holds of all places, for those that reason about them.
ghost use Rattle.std.specs.Prelude.{◌≡◌, ℕ, ◌<◌, ◌≤◌, ◌↔◌, List, IsTrue};
ghost use Rattle.std.specs.FinSet as set;
ghost use Rattle.seam_geo.specs.declared.pos.Pos.{Pos};
ghost use Rattle.seam_tree.specs.Division.{Division, leaf_at, IsTree, IsInSpace};
ghost use Rattle.seam_haunt.specs.Haunts.{distance_to_cell};
ghost use Rattle.seam_haunt.specs.Places.{Distances, Place, settled, HasGhost, IsPlaceAfter, last_of, IsAtRest};

/// What a place is after it is settled: its home is kept near enough to its area and is else the leaf, its ghosts are those
/// of the cells close enough, and settling it once more at the same position changes nothing. So a place after a round is
/// settled where its entity is.
pub fn places_are_settled()
    ensures home_kept { (d : Distances) (t : Division) (was : Place) (p : Pos)
        → distance_to_cell t was.home p ≤ d.kept → (settled d t was p).home ≡ was.home }
    ensures home_left { (d : Distances) (t : Division) (was : Place) (p : Pos)
        → d.kept < distance_to_cell t was.home p → (settled d t was p).home ≡ leaf_at t p }
    ensures ghosts { (d : Distances) (t : Division) (was : Place) (p : Pos) (c : ℕ)
        → IsTrue (set.contains (settled d t was p).ghosts c) ↔ HasGhost d t was p c }
    ensures again { (d : Distances) (t : Division) (was : Place) (p : Pos) →
        settled d t (settled d t was p) p ≡ settled d t was p }
    ensures after { (d : Distances) (t : Division) (was : Place) (start : Pos) (path : List Pos)
        (after : Place) → IsPlaceAfter d t was start path after →
        settled d t after (last_of start path) ≡ after }
{}

/// A place stays as it is where it is settled exactly where it needs no settling.
pub fn a_place_at_rest_stays()
    ensures stays { (d : Distances) (t : Division) (place : Place) (p : Pos) →
        IsAtRest d t place p → settled d t place p ≡ place }
    ensures rests { (d : Distances) (t : Division) (place : Place) (p : Pos) → IsTree t →
        IsInSpace t p → d.near ≤ d.far → settled d t place p ≡ place → IsAtRest d t place p }
{}
