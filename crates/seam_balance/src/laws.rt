// What holds of all balanced trees, for those that reason about them.
ghost use Rattle.std.specs.Prelude.{◌≡◌, ℕ, List};
ghost use Rattle.seam_geo.specs.declared.pos.Pos.{Pos};
ghost use Rattle.seam_tree.specs.Division.{Division};
ghost use Rattle.seam_balance.specs.Balance.{IsBalanced, IsBest};

/// A tree is balanced in one way: a boundary has at most one best place, and so there is at most one balanced tree, which
/// `balance` gives.
pub fn one_is_balanced()
    ensures place { (t : Division) (b shift : ℕ) (positions : List Pos) (at other : ℕ)
        → IsBest t b shift positions at → IsBest t b shift positions other → at ≡ other }
    ensures tree { (positions : List Pos) (shift : ℕ) (t new other : Division)
        → IsBalanced positions shift t new → IsBalanced positions shift t other → new ≡ other }
{}
