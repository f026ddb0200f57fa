//! Laws of one entity's flow through a net, each on a function that does nothing.

ghost use Rattle.std.specs.Prelude.{◌≡◌, ◌==◌, ℕ, ◌+◌, ◌<◌, ◌≤◌, ◌⊎◌, List, [], ◌∷◌, ◌++◌, length, Option, Some, None, filter_map};
ghost use Rattle.std.specs.Prelude.{if◌then◌else◌};
ghost use Rattle.std.specs.List.{AllByRecursion, range_with_len};
ghost use Rattle.seam_machine.specs.declared.machines.Input.{Input};
ghost use Rattle.seam_machine.specs.declared.machines.Event.{Event};
ghost use Rattle.seam_machine.specs.Views.{Stepped, NetView};
ghost use Rattle.seam_machine.specs.Sends.{AllBelow, items_to, spread};
ghost use Rattle.seam_machine.specs.Nets.{happens, IsSquare};
ghost use Rattle.seam_machine.specs.Events.{Occurs};
ghost use Rattle.seam_law_flow.specs.Prelude.{Flow, comes, Goes, flow_of, letter_in, letters_of, more_letter, narrow, toward, NotAbove};
ghost use Rattle.seam_law_flow.specs.Prelude.{AllBring, Has, entry_in, greater_entry, Newest, HasOwnTargets, item_of, IsSilent, carried_in};

use std::marker::Brand;

/// What a node may do with one entity: its number, the slot before, the letter that comes, the slot after, and what it sends to each node.
pub trait Moves<S, L> {
    ghost use Rattle.std.specs.Prelude.{ℕ, List, Option};

    ghost are: { ℕ → S → Option L → S → (ℕ → List L) → Type 0 };
}

impl<S, L> Moves<S, L> for Brand {
    ghost are = { λ _ _ _ _ _. Unit {0} };
}

/// A fact about a slot, with the number of its node.
pub trait SlotFact<S> {
    ghost use Rattle.std.specs.Prelude.{ℕ};

    ghost is: { ℕ → S → Type 0 };
}

impl<S> SlotFact<S> for Brand {
    ghost is = { λ _ _. Unit {0} };
}

/// A fact about a letter, with the numbers of the ends of its link.
pub trait LetterFact<L> {
    ghost use Rattle.std.specs.Prelude.{ℕ};

    ghost is: { ℕ → ℕ → L → Type 0 };
}

impl<L> LetterFact<L> for Brand {
    ghost is = { λ _ _ _. Unit {0} };
}

/// Where the step is one of the moves of an entity, the event is a step of its flow.
pub fn an_event_is_a_move<N, T, S, L, A: Moves<S, L>>()
    ensures { (slot : N → S) (no_slot : S) (mine : T → Option L) (steps : N → Input T →
        Stepped N T) (w : NetView N T) (e : Event) (o : Occurs w e) →
        IsSquare w → AllBelow (length w.nodes) (steps o.node o.input).sent →
        A.are e.node (slot o.node) (letter_in mine o.input) (slot (steps o.node o.input).state)
        (λ j. letters_of mine (items_to j (steps o.node o.input).sent)) →
        Goes A.are (flow_of slot no_slot mine w) (flow_of slot no_slot mine (happens steps w e)) }
{}

/// A fact about each slot stays true where it is true of the node that made the move; a fact about each letter stays true where it is
/// true of what was sent; and the letter that came is one that the fact was true of.
pub fn a_move_keeps_facts<S, L, A: Moves<S, L>, P: SlotFact<S>, Q: LetterFact<L>>()
    ensures slots { (w v : Flow S L) (g : Goes A.are w v) → ((k : ℕ) → P.is k (w.slot k)) →
        P.is g.k (v.slot g.k) → (k : ℕ) → P.is k (v.slot k) }
    ensures letters { (w v : Flow S L) (g : Goes A.are w v) →
        ((x y : ℕ) → AllByRecursion (Q.is x y) (w.mail x y)) →
        ((y : ℕ) → AllByRecursion (Q.is g.k y) (g.out y)) → (x y : ℕ) →
        AllByRecursion (Q.is x y) (v.mail x y) }
    ensures came { (w v : Flow S L) (g : Goes A.are w v) (l : L) → comes g.input ≡ Some l →
        ((x y : ℕ) → AllByRecursion (Q.is x y) (w.mail x y)) → (a : ℕ) × Q.is a g.k l }
{}

/// A step of a flow is a step of the flow through other eyes, and of the links to one node alone.
pub fn a_flow_is_seen_through_other_eyes<
    S,
    L,
    R,
    K,
    A: Moves<S, L>,
    B: Moves<R, K>,
    C: Moves<S, L>,
>()
    ensures narrow { (f : S → R) (mine : L → Option K) (w v : Flow S L) (g : Goes A.are w v) →
        B.are g.k (f (w.slot g.k)) (carried_in mine (comes g.input)) (f (v.slot g.k))
        (λ j. letters_of mine (g.out j)) → Goes B.are (narrow f mine w) (narrow f mine v) }
    ensures toward { (home : ℕ) (w v : Flow S L) (g : Goes A.are w v) →
        C.are g.k (w.slot g.k) (if g.k == home then comes g.input else None) (v.slot g.k)
        (λ j. if j == home then g.out j else []) → Goes C.are (toward home w) (toward home v) }
{}

/// Of the entries in a node's register and on their way there, the newest stays what it is where the register keeps the greater one
/// and nothing newer is sent; a newer one that is sent or written is the newest then; and with nothing on its way the register has it.
pub fn the_newest_entry_is_kept<S, L, V, A: Moves<S, L>>()
    ensures stays { (entry : S → ℕ × V) (brings : L → Option (ℕ × V)) (w v : Flow S L)
        (g : Goes A.are w v) (k key : ℕ) (c : V) → Newest entry brings w k key c →
        (g.k ≡ k → entry (v.slot k) ≡ greater_entry (entry (w.slot k))
        (entry_in brings (comes g.input))) → AllBring brings (NotAbove key c) (g.out k) →
        Newest entry brings v k key c }
    ensures rises { (entry : S → ℕ × V) (brings : L → Option (ℕ × V)) (w v : Flow S L)
        (g : Goes A.are w v) (k key next : ℕ) (c d : V) → Newest entry brings w k key c →
        key < next → (g.k ≡ k → NotAbove next d (entry (v.slot k))) →
        AllBring brings (NotAbove next d) (g.out k) → (entry (v.slot k) ≡ (next, d)) ⊎
        Has brings (next, d) (g.out k) → Newest entry brings v k next d }
    ensures rests { (entry : S → ℕ × V) (brings : L → Option (ℕ × V)) (w : Flow S L) (k key : ℕ)
        (c : V) → Newest entry brings w k key c → ((x : ℕ) → w.mail x k ≡ []) →
        entry (w.slot k) ≡ (key, c) }
{}

/// What a list of sends is to one entity: one item at its target alone, items about others nothing; what is spread over the nodes, or
/// chosen for each of a range of them, comes to each node.
pub fn sends_are_seen<T, L>()
    ensures one { (mine : T → Option L) (to j : ℕ) (m : T) →
        letters_of mine (items_to j ((to, m) ∷ [])) ≡ (if j == to then more_letter (mine m) []
        else []) }
    ensures others { (mine : T → Option L) (j : ℕ) (ps qs : List (ℕ × T)) → IsSilent mine ps →
        letters_of mine (items_to j (ps ++ qs)) ≡ letters_of mine (items_to j qs) }
    ensures spread { (f : ℕ → List T) (n j : ℕ) → j < n → items_to j (spread n f) ≡ f j }
    ensures spread_past { (f : ℕ → List T) (n j : ℕ) → n ≤ j → items_to j (spread n f) ≡ [] }
    ensures chosen { (f : ℕ → Option (ℕ × T)) (a n j : ℕ) → HasOwnTargets f → a ≤ j → j < a + n →
        items_to j (filter_map f (range_with_len a n)) ≡ item_of (f j) }
{}
