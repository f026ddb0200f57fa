// SPDX-License-Identifier: MIT

// What lines bring to the core: laws of the batch that the open round of a book is (*batch_of* of `seam_accept`).
//
// `specs/Books` says which books lines make, and `specs/Bringing` what the open round of one brings, by the book as the round began: which
// entities it makes, gives a client and destroys, which calls, and under which numbers. From that `book_and_world` has that the batch fits
// a world that goes with the book.
//
// For callers, of `proofs/`: `Adding` (what one more entry adds), `Present` (who is there) and `Untouched` (what holds of all entries of a
// book that lines made).

ghost use Rattle.std.specs.Prelude.{◌≡◌, ℕ, None};
ghost use Rattle.seam_node_steps.specs.Prelude.{AreLegal};
ghost use Rattle.seam_rule_rounds.specs.Prelude.{Header, Book, created_as};
ghost use Rattle.seam_law_book.specs.Prelude.{IsOfLines, as_begun, HasFitRound, IsUntouched};

/// Lines made the book as its open round began too. What the round brings fits that, after a header with legal settings.
pub fn lines_bring_what_fits()
    ensures begun { (h : Header) (b : Book) → IsOfLines h b → IsOfLines h (as_begun b) }
    ensures brings { (h : Header) (b : Book) → AreLegal h.settings → IsOfLines h b →
        HasFitRound h b }
{}

/// Nothing was accepted for a number that was not created.
pub fn uncreated_numbers_are_untouched()
    ensures { (h : Header) (b : Book) → AreLegal h.settings → IsOfLines h b → (e : ℕ) →
        created_as b e ≡ None → IsUntouched b e }
{}
