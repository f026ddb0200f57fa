// What a legal round leaves.
ghost use Rattle.std.specs.Prelude.{◌≡◌, ◌≤◌, Some};
ghost use Rattle.seam_rule_rounds.specs.Prelude.{MOST_CELLS, cells_of, Create, Header, live_as, tree_of, Standing, RoundData, IsRound};
ghost use Rattle.seam_judge_rounds.specs.After.{AreForMade, after_round, place_in};

/// A round that is legal with some standing after it is so with the one that its lines show: a legal round leaves no other, but for where
/// entities are held that do not live. It is said of books whose calls are for entities that were created, in a tree of a program's size.
pub fn legal_rounds_leave_what_they_show()
    ensures legal { (h : Header) (s t : Standing) (r : RoundData) → AreForMade s.book →
        cells_of (tree_of s.book) ≤ MOST_CELLS → IsRound h s r t → IsRound h s r (after_round s r) }
    ensures left { (h : Header) (s t : Standing) (r : RoundData) → AreForMade s.book →
        cells_of (tree_of s.book) ≤ MOST_CELLS → IsRound h s r t →
        record t { places = place_in r } ≡ after_round s r }
    ensures places { (h : Header) (s t : Standing) (r : RoundData) → AreForMade s.book →
        cells_of (tree_of s.book) ≤ MOST_CELLS → IsRound h s r t → (c : Create) →
        live_as s.book c.entity ≡ Some c → place_in r c.entity ≡ t.places c.entity }
{}
