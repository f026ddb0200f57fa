//! Laws of a token of which there is one, each on a function that does nothing.

ghost use Rattle.std.specs.Prelude.{◌≡◌, ℕ, Option, None};
ghost use Rattle.seam_machine.specs.Views.{NetView};
ghost use Rattle.seam_law_flow.specs.Flows.{Flow, comes, Goes, flow_of};
ghost use Rattle.seam_law_flow.specs.Tokens.{TokenPlace, Sole, Nobody, Handles, Turned, HasOne, place_after, token_after, holders};

use crate::laws::Moves;
use std::marker::Brand;

/// What an action does to the token, and a fact about it.
pub trait Token<R> {
    ghost acts: { R → R → Type 0 };

    ghost is: { R → Type 0 };
}

impl<R> Token<R> for Brand {
    ghost acts = { λ _ _. Unit {0} };

    ghost is = { λ _. Unit {0} };
}

/// Where a move leaves the token, acts on it, puts it into its slot, sends it off or passes it on, the token stays the one: its place and
/// its value after the move are computed, and it is the same or what an action made of it. A fact that each action keeps stays true of it.
pub fn one_token_stays_the_one<S, L, R, A: Moves<S, L>, T: Token<R>>()
    ensures sole { (held : S → Option R) (carried : L → Option R) (w v : Flow S L)
        (g : Goes A.are w v) (p : TokenPlace) (r : R) → Sole held carried w p r →
        (m : Handles held carried T.acts (w.slot g.k) (comes g.input) (v.slot g.k) g.out) →
        Sole held carried v (place_after g.k m p) (token_after m r) }
    ensures turned { (held : S → Option R) (carried : L → Option R) (w v : Flow S L)
        (g : Goes A.are w v) (p : TokenPlace) (r : R) → Sole held carried w p r →
        (m : Handles held carried T.acts (w.slot g.k) (comes g.input) (v.slot g.k) g.out) →
        Turned T.acts r (token_after m r) }
    ensures fact { (held : S → Option R) (carried : L → Option R) →
        ((r q : R) → T.is r → T.acts r q → T.is q) → (w v : Flow S L) (g : Goes A.are w v) →
        HasOne held carried T.is w → Handles held carried T.acts (w.slot g.k) (comes g.input)
        (v.slot g.k) g.out → HasOne held carried T.is v }
{}

/// One token is counted in a net exactly where there is one, at one place; and none exactly where nobody has one.
pub fn one_token_is_counted_once<N, T, S, L, R>()
    ensures one { (slot : N → S) (no_slot : S) (mine : T → Option L) (held : S →
        Option R) (carried : L → Option R) (w : NetView N T) → held no_slot ≡ None →
        holders slot mine held carried w ≡ 1 → (p : TokenPlace) × (r : R) ×
        Sole held carried (flow_of slot no_slot mine w) p r }
    ensures counts { (slot : N → S) (no_slot : S) (mine : T → Option L) (held : S →
        Option R) (carried : L → Option R) (w : NetView N T) → held no_slot ≡ None →
        (p : TokenPlace) (r : R) → Sole held carried (flow_of slot no_slot mine w) p r →
        holders slot mine held carried w ≡ 1 }
    ensures none { (slot : N → S) (no_slot : S) (mine : T → Option L) (held : S →
        Option R) (carried : L → Option R) (w : NetView N T) → held no_slot ≡ None →
        holders slot mine held carried w ≡ 0 → Nobody held carried (flow_of slot no_slot mine w) }
    ensures nobody { (slot : N → S) (no_slot : S) (mine : T → Option L) (held : S →
        Option R) (carried : L → Option R) (w : NetView N T) → held no_slot ≡ None →
        Nobody held carried (flow_of slot no_slot mine w) → holders slot mine held carried w ≡ 0 }
{}
