//! What the definitions say together, each law on a function that does nothing.
ghost use Rattle.std.specs.Prelude.{◌≡◌, ℕ, All, List};
ghost use Rattle.seam_rule_rounds.specs.Prelude.{Line, lines_of, Sender, text_of_storm, CallIsFrom, Header as Headers, Piece, PrintAll};
ghost use Rattle.seam_rule_rounds.specs.Prelude.{AsksForNeither, summary_text};

/// Where each entity has one sender that all its calls name, and no line asks for a tick or a balance, whatever is printed for an input has
/// one summary: it tells nothing of the cells, and nothing of how the rounds were played.
pub fn summary_is_one()
    ensures { (one : ℕ → Sender) (lines : List Line) (n : ℕ) (h k : Headers) (ps qs : List Piece) →
        All (CallIsFrom one) lines → All AsksForNeither lines → PrintAll lines h ps →
        PrintAll lines k qs → summary_text n ps ≡ summary_text n qs }
{}

/// So whatever is printed for the generated input has one summary.
pub fn storm_has_one_summary()
    ensures { (n : ℕ) (h k : Headers) (ps qs : List Piece) →
        PrintAll (lines_of (text_of_storm n)) h ps → PrintAll (lines_of (text_of_storm n)) k qs →
        summary_text n ps ≡ summary_text n qs }
{}
