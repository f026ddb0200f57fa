// The laws of the texts of rounds, each a clause of a function that does nothing.
ghost use Rattle.std.specs.Prelude.{◌≡◌, ◌++◌, ℕ, List, []};
ghost use Rattle.seam_defs.specs.Types.{AreDefs};
ghost use Rattle.seam_defs.specs.declared.types.TypeDef.{TypeDef};
ghost use Rattle.seam_rule_lines.specs.Book.{Book};
ghost use Rattle.seam_rule_rounds.specs.Lines.{RoundData};
ghost use Rattle.seam_rule_rounds.specs.RoundTexts.{round_text};
ghost use Rattle.seam_law_texts.specs.TextLines.{TextLine, line_text, lines_text, lines_of, no_lines, data_by};
ghost use Rattle.seam_law_texts.specs.Forms.{AreForms, IsForm, IsFormed};
ghost use Rattle.seam_law_texts.specs.Example.{one_type, one_stone, round_of};

/// The text of a round is that of its lines, one after the other.
pub fn a_rounds_text_is_that_of_its_lines()
    ensures { (defs : List TypeDef) (r : RoundData) (after : List ℕ) →
        round_text defs r ++ after ≡ lines_text defs (lines_of r) after }
{}

/// A round is what its lines say, one after the other.
pub fn a_round_is_what_its_lines_say()
    ensures { (r : RoundData) → data_by (no_lines r.bounds) (lines_of r) ≡ r }
{}

/// A text that begins with a line in form begins with no other one, and what comes after the line is one text.
pub fn a_line_has_a_text_of_its_own()
    ensures { (defs : List TypeDef) → AreDefs defs → (b : Book) (l m : TextLine)
        (after others : List ℕ) → IsForm defs b l.kind l.body → IsForm defs b m.kind m.body →
        line_text defs l after ≡ line_text defs m others → (l ≡ m) × (after ≡ others) }
{}

/// A text is that of one sequence of lines in form.
pub fn a_text_is_one_sequence_of_lines()
    ensures { (defs : List TypeDef) → AreDefs defs → (b : Book) (ls ms : List TextLine) →
        AreForms defs b ls → AreForms defs b ms →
        lines_text defs ls [] ≡ lines_text defs ms [] → ls ≡ ms }
{}

/// A text is that of one round in form.
pub fn a_text_is_one_round()
    ensures { (defs : List TypeDef) → AreDefs defs → (b : Book) (r s : RoundData) →
        IsFormed defs b r → IsFormed defs b s → round_text defs r ≡ round_text defs s → r ≡ s }
{}

/// A text begins with the text of one round in form, and what comes after that is one text.
pub fn a_text_begins_with_one_round()
    ensures { (defs : List TypeDef) → AreDefs defs → (b : Book) (r s : RoundData)
        (after others : List ℕ) → IsFormed defs b r → IsFormed defs b s →
        round_text defs r ++ after ≡ round_text defs s ++ others → (r ≡ s) × (after ≡ others) }
{}

/// There are rounds in form. A text does not show of which type an entity is: two types may have the same words, and only one of the two
/// rounds is in form.
pub fn a_text_does_not_show_types()
    ensures defs { AreDefs one_type }
    ensures in_form { IsFormed one_type one_stone (round_of 0) }
    ensures same { round_text one_type (round_of 0) ≡ round_text one_type (round_of 7) }
    ensures other { ¬ (IsFormed one_type one_stone (round_of 7)) }
{}
