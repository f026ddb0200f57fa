// The boundaries of the next round.
ghost use Rattle.std.specs.Prelude.{◌≡◌, ◌++◌, ◌∷◌, [], ◌↔◌, ℕ, Option, Some, IsTrue, map, option_map};
ghost use Rattle.seam_tree.specs.declared.cut.Cut.{Cut};
ghost use Rattle.seam_tree.specs.Division.{Division, IsTree};
ghost use Rattle.seam_tree.specs.Change.{CanCut};
ghost use Rattle.seam_balance.specs.Balance.{HasSameCuts};
ghost use Rattle.seam_judge_data.specs.Standings.{standing_of};
ghost use Rattle.seam_rule_rounds.specs.Prelude.{tree_of};
ghost use Rattle.seam_law_texts.specs.TextLines.{bound_words};
ghost use Rattle.seam_law_texts.specs.Forms.{HasForm, IsBound};
ghost use Rattle.seam_judge_reader.specs.Cuts.{axis_at, IsSameCut};

use seam_judge_data::Standing;
use seam_judge_expected::{has_balance, tree_in};
use seam_judge_words::{axis, number, small_number, word_at};
use seam_tree::{Axis, Tree};

/// A tree of one cell, where the boundaries are balanced.
pub(crate) fn no_bounds(standing: &Standing) -> Option<Tree>
    ensures { (tree : Option Division) → HasForm (standing_of standing.now).book tree →
        result ≡ option_map (λ t. record { size = t.size; cuts = [] }) tree }
{
    if has_balance(&standing.current) {
        Some(Tree::one(tree_in(standing).size()))
    } else {
        None
    }
}

/// The tree with one more boundary, where there is one: it divides the cell that the boundary of its number divided so far. It is as it was
/// where it cannot be cut so.
pub(crate) fn with_bound(standing: &Standing, bounds: Option<Tree>, words: &[&[u8]]) -> Option<Tree>
    ensures { (x : ℕ × Cut) → IsBound (standing_of standing.now).book x → ((t : Division) →
        bounds ≡ Some t → CanCut t x.1.cell x.1.boundary) → map (λ w. w.now) words.now
        ≡ bound_words x → result ≡ option_map (λ t. record {
          size = t.size;
          cuts = t.cuts ++ x.1 ∷
              [];
        }) bounds }
{
    let mut tree = bounds?;
    let before = tree_in(standing);
    if let Some(cell) = before.cut_of(small_number(word_at(words, 0))) {
        let _ = tree.cut(
            u32::from(cell),
            axis(word_at(words, 1)),
            number(word_at(words, 2)),
        );
    }
    Some(tree)
}

/// Whether there is a tree with the round's cuts where the boundaries are balanced, and else none.
pub(crate) fn has_form(standing: &Standing, bounds: &Option<Tree>) -> bool
    ensures { IsTrue result ↔ HasForm (standing_of standing.now).book bounds.now }
{
    match bounds {
        Some(tree) => has_balance(&standing.current) && is_next(&tree_in(standing), tree),
        None => !has_balance(&standing.current),
    }
}

// Whether two trees have the same cuts, at places of their own.
fn is_next(before: &Tree, tree: &Tree) -> bool
    ensures same { IsTrue result ↔ HasSameCuts before.now tree.now }
    ensures tree { IsTree tree.now }
{
    if before.size() != tree.size() || before.cells() != tree.cells() {
        return false;
    }
    for number in 1..before.cells() {
        if !is_same_cut(before, tree, number) {
            return false;
        }
    }
    true
}

// Whether the cuts of a number cut the same cell along the same axis, or there are none.
fn is_same_cut(before: &Tree, tree: &Tree, number: u8) -> bool
    ensures { IsTrue result ↔ IsSameCut before.now tree.now number }
{
    before.cut_of(number) == tree.cut_of(number) && axis_of(before, number) == axis_of(tree, number)
}

// The axis of a boundary, where there is one of this number.
fn axis_of(tree: &Tree, number: u8) -> Option<Axis>
    ensures { result ≡ axis_at tree.now number }
{
    match tree.boundary(number) {
        Some(boundary) => Some(boundary.axis),
        None => None,
    }
}
