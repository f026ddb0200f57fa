// Legal rounds are in form: each law is a clause of a function that does nothing.
ghost use Rattle.std.specs.Prelude.{◌<◌, ℕ};
ghost use Rattle.std.specs.List.{All};
ghost use Rattle.seam_node_steps.specs.Prelude.{AreDefs, AreLegal, cells_of};
ghost use Rattle.seam_rule_rounds.specs.Prelude.{Header, IsRound, RoundData, Standing, tree_of};
ghost use Rattle.seam_law_texts.specs.Forms.{IsFormed};
ghost use Rattle.seam_law_book.specs.Prelude.{IsOfLines};
ghost use Rattle.seam_law_forms.specs.Counting.{AreCounted, WereWhole};

/// A legal round is in form, where lines made the book and each home is a cell of its tree.
pub fn a_legal_round_is_in_form()
    ensures { (h : Header) (s : Standing) (r : RoundData) (t : Standing) → AreLegal h.settings →
        AreDefs h.defs → IsOfLines h s.book → ((e : ℕ) → (s.places e).home < cells_of (tree_of
        s.book)) → WereWhole s → AreCounted s t → IsRound h s r t → IsFormed h.defs s.book r }
{}

/// The entities that clients were shown up to the end of a legal round have numbers of 32 bits, where those before it had.
pub fn a_legal_round_names_whole_numbers()
    ensures { (h : Header) (s : Standing) (r : RoundData) (t : Standing) → AreLegal h.settings →
        IsOfLines h s.book → WereWhole s → IsRound h s r t → WereWhole t }
{}

/// What a legal round leaves is ready for the next one: lines made the book, and each home line names a cell of its tree.
pub fn a_legal_round_leaves_homes_in_cells()
    ensures book { (h : Header) (s : Standing) (r : RoundData) (t : Standing) →
        AreLegal h.settings → IsOfLines h s.book → IsRound h s r t → IsOfLines h t.book }
    ensures homes { (h : Header) (s : Standing) (r : RoundData) (t : Standing) →
        AreLegal h.settings → IsOfLines h s.book → ((e : ℕ) → (s.places e).home < cells_of (tree_of
        s.book)) → IsRound h s r t → All (λ l. l.cell < cells_of (tree_of t.book)) r.homes }
{}
