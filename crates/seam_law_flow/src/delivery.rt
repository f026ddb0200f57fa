// SPDX-License-Identifier: MIT

// Tokens that begin and end, and delivery in number order.
//
// A source numbers its items 1, 2, 3 and so on and sends them to one node, from wherever it is. Each number is a token with a life: it
// waits nowhere, then on a link, then with the node that holds it until its turn, and then nowhere. So each item is delivered once, and all
// are delivered in the order of their numbers (sequence numbers, as of the Transmission Control Protocol).
//
// For callers, of `proofs/`: `Lives` (a token begins, is met or ends), `Numbers` (items with rising numbers), `Delivering` (what each
// step keeps of a delivery, and when all was delivered) and `Unlogging` (the same where the node keeps no list).

ghost use Rattle.std.specs.Prelude.{◌≡◌, ℕ, ◌+◌, ◌≤◌, ◌^◌, List, [], ◌++◌, length, Option, None, Some};
ghost use Rattle.seam_law_flow.specs.Flows.{Flow, comes, Goes, letters_of};
ghost use Rattle.seam_law_flow.specs.Tokens.{carried_in, TokenPlace, On, Sole, Nobody, SendsNone, SendsOne};
ghost use Rattle.seam_order.specs.Held.{OrderView};
ghost use Rattle.seam_order.specs.Offers.{next_item};
ghost use Rattle.seam_law_flow.specs.Deliveries.{Delivery, Passes, more_issued};
ghost use Rattle.seam_law_flow.specs.Unlogged.{DeliveryOf, IssuesOrDelivers};

use crate::Moves;

/// A token that is sent where there was none is the one, on its link; a token that comes and is neither held nor passed on, and one that
/// its slot holds no more and did not send off, is no more.
pub fn a_token_begins_and_ends<S, L, R, A: Moves<S, L>>()
    ensures begins { (held : S → Option R) (carried : L → Option R) (w v : Flow S L)
        (g : Goes A.are w v) → Nobody held carried w → held (v.slot g.k) ≡ held (w.slot g.k) →
        carried_in carried (comes g.input) ≡ None → (to : ℕ) (q : R) → SendsOne carried g.out to q →
        Sole held carried v (On g.k to) q }
    ensures met { (held : S → Option R) (carried : L → Option R) (w v : Flow S L)
        (g : Goes A.are w v) (p : TokenPlace) (x r : R) → Sole held carried w p x →
        carried_in carried (comes g.input) ≡ Some r → held (v.slot g.k) ≡ held (w.slot g.k) →
        SendsNone carried g.out → Nobody held carried v }
    ensures ends { (held : S → Option R) (carried : L → Option R) (w v : Flow S L)
        (g : Goes A.are w v) (p : TokenPlace) (x r : R) → Sole held carried w p x →
        held (w.slot g.k) ≡ Some r → held (v.slot g.k) ≡ None → carried_in carried (comes g.input)
        ≡ None → SendsNone carried g.out → Nobody held carried v }
{}

/// Items that one source issues to one node are delivered there in the order of their numbers, each once, whatever ways they come: each
/// step keeps that, and with nothing on its way and none held whose turn it is, all that was issued was delivered.
pub fn items_are_delivered_in_order<S, L, U, A: Moves<S, L>>()
    ensures kept { (order : S → OrderView U) (delivered : S → List U) (brings : L →
        Option (ℕ × U)) (w v : Flow S L) (g : Goes A.are w v) (b first : ℕ) (issued : List U) →
        Delivery order delivered brings w b first issued →
        (m : Passes order delivered brings b (first + length issued) (w.slot g.k) (comes g.input)
        (v.slot g.k) g.out) → Delivery order delivered brings v b first
        (issued ++ more_issued m) }
    ensures all { (order : S → OrderView U) (delivered : S → List U) (brings : L →
        Option (ℕ × U)) (w : Flow S L) (b first : ℕ) (issued : List U) →
        Delivery order delivered brings w b first issued → ((x : ℕ) → w.mail x b ≡ []) →
        next_item (order (w.slot b)) ≡ None → delivered (w.slot b) ≡ issued }
    ensures starts { (order : S → OrderView U) (delivered : S → List U) (brings : L →
        Option (ℕ × U)) (w : Flow S L) (b first : ℕ) → 1 ≤ first → first ≤ 2 ^ 62 →
        (order (w.slot b)).next ≡ first → delivered (w.slot b) ≡ [] →
        ((j : ℕ) → (order (w.slot j)).held ≡ []) → ((x y : ℕ) → letters_of brings (w.mail x y) ≡ [])
        → Delivery order delivered brings w b first [] }
{}

/// The same where the node keeps no list of what it delivered: each step delivers the next ones of what was issued.
pub fn items_are_delivered_without_a_list<S, L, U, A: Moves<S, L>>()
    ensures { (order : S → OrderView U) (brings : L → Option (ℕ × U)) (w v : Flow S L)
        (g : Goes A.are w v) (b first : ℕ) (issued given us gs : List U) →
        DeliveryOf order brings w b first issued given →
        IssuesOrDelivers order brings b (first + length issued) g.k (w.slot g.k) (comes g.input)
        (v.slot g.k) g.out us gs → DeliveryOf order brings v b first (issued ++ us) (given ++ gs) }
{}
