// SPDX-License-Identifier: MIT

// Numbered calls in turn: each waits once, and all are executed in the order of their numbers, though the part that executes them travels.
//
// A sender numbers its calls to one part of an entity 1, 2, 3 and so on. A call waits among a node's orders, then on links, where it may be
// passed on, then with the part until its turn, and a part that holds calls may itself be on its way. So each number is a token with a
// life: it waits at one place, and then nowhere. A step does one of eight things with the calls, or two of them in a row
// (`specs/CallMoves`), and each keeps them in turn (`specs/Desks`), for any net whose steps are such moves.
//
// A sender's calls are seen by its eyes alone: an entity's flow is narrowed to one sender's calls, so that neither other senders nor ghosts
// nor witnesses come into the law. It asks for room for one number more than the laws of one real, since a call that comes has to raise a
// version.
//
// For callers, of `proofs/`: `Steps` (a step of one or two moves), `Issuing` (a call that a node makes up) and `Ends` (the start of a
// round, what comes to the part, and where nothing moves any more).

ghost use Rattle.std.specs.Prelude.{◌≡◌, ℕ, ◌+◌, ◌<◌, ◌≤◌, ◌^◌, List, [], ◌∷◌, ◌++◌, length, None, Some};
ghost use Rattle.seam_law_flow.specs.Prelude.{Flow, Goes, TokenPlace, Passes, Twice, Desk, Post, Mail, Item, InTurn, AreInTurn, IsStill};
ghost use Rattle.seam_law_flow.specs.Prelude.{IsLoaded};
ghost use Rattle.seam_law_flow.specs.Issues.{Issues};
ghost use Rattle.seam_order.specs.Held.{item_at};

/// Whatever a step does with a sender's calls, they stay in turn.
pub fn calls_stay_in_turn<U>()
    ensures { (first : ℕ) (batch : List U) (w v : Flow (Post U) (Mail U)) →
        Goes (Twice Passes) w v → AreInTurn first batch w → AreInTurn first batch v }
{}

/// A call that is the first of its link is one of the batch, is not late, and is not held already.
pub fn a_call_that_comes_is_due<U>()
    ensures due { (first : ℕ) (batch : List U) (w : Flow (Post U) (Mail U)) (p : TokenPlace)
        (d : Desk U) → InTurn first batch w p d → (a k n : ℕ) (u : U) (rest : List (Mail U)) →
        w.mail a k ≡ Item n u ∷ rest → (d.order.next ≤ n) × (n < first + length batch) }
    ensures new { (first : ℕ) (batch : List U) (w : Flow (Post U) (Mail U)) (p : TokenPlace)
        (d : Desk U) → InTurn first batch w p d → (a k n : ℕ) (u : U) (rest : List (Mail U)) →
        w.mail a k ≡ Item n u ∷ rest → (x : Desk U) → (w.slot k).desk ≡ Some x →
        item_at n x.order.held ≡ None }
{}

/// Where nothing moves any more, the part executed all calls of the batch, in order.
pub fn all_calls_are_executed<U>()
    ensures { (first : ℕ) (batch : List U) (w : Flow (Post U) (Mail U)) (p : TokenPlace)
        (d : Desk U) → InTurn first batch w p d → IsStill w → d.done ≡ batch }
{}

/// A round begins so, in whatever order its calls are kept.
pub fn a_round_begins_in_turn<U>()
    ensures { (first : ℕ) (batch : List U) (w : Flow (Post U) (Mail U)) (home k : ℕ) →
        IsLoaded first batch w home k → AreInTurn first batch w }
{}

/// A call that a node makes up in a round, with the next number of its sender, is one more of the batch: the calls stay in turn.
pub fn a_call_that_is_made_stays_in_turn<U>()
    ensures { (first : ℕ) (batch : List U) (u : U) (w v : Flow (Post U) (Mail U)) →
        Goes (Issues (first + length batch) u) w v → first + length batch + 1 < 2 ^ 62 →
        AreInTurn first batch w → AreInTurn first (batch ++ u ∷ []) v }
{}
