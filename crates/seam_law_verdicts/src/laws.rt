// The laws of verdicts, each a clause of a function that does nothing.
ghost use Rattle.std.specs.Prelude.{◌≡◌, ◌++◌, ℕ, List};
ghost use Rattle.seam_defs.specs.Types.{AreDefs};
ghost use Rattle.seam_rule_rounds.specs.Prelude.{Header, IsRound, RoundData, Standing, round_text};
ghost use Rattle.seam_law_texts.specs.Forms.{IsFormed};
ghost use Rattle.seam_judge_rounds.specs.After.{after_round};
ghost use Rattle.seam_law_verdicts.specs.Due.{Due};
ghost use Rattle.seam_io.specs.Lines.{Line};
ghost use Rattle.seam_law_verdicts.specs.Verdicts.{AreAllCounted, Fails, FailsAt, FailsRound, IsCounted, Says};
ghost use Rattle.seam_law_verdicts.specs.declared.verdict.Verdict.{Verdict};

/// Where the text of a legal round in form comes next, the round that is due does not fail, whatever comes after it.
pub fn a_legal_round_does_not_fail()
    ensures { (h : Header) (s : Standing) (r : RoundData) → AreDefs h.defs →
        IsFormed h.defs s.book r → IsRound h s r (after_round s r) → (after : List ℕ)
        (number : ℕ) → ¬ (FailsRound h s (round_text h.defs r ++ after) number) }
{}

/// Where a text fails at what is due, it fails in one point.
pub fn a_text_fails_in_one_point()
    ensures { (h : Header) → AreDefs h.defs → (due : Due) (text : List ℕ) (number other : ℕ) →
        Fails h due text number → Fails h due text other → number ≡ other }
{}

/// A text that fails beside the lines of an input does so at one place, and in one point, where the numbers of its rounds are below 2^64.
pub fn a_text_fails_at_one_place()
    ensures { (lines : List Line) (text : List ℕ) (place other number another : ℕ)
        (x : FailsAt lines text place number) (y : FailsAt lines text other another) →
        AreAllCounted x.pieces → AreAllCounted y.pieces →
        (place ≡ other) × (number ≡ another) }
{}

/// One verdict says something true of a text beside the lines of an input: the header is refused, for one cause; or the text is a
/// transcript; or it fails at one place and in one point. So a true answer is the right one. The numbers of the rounds are below 2^64.
pub fn a_text_has_one_verdict()
    ensures { (lines : List Line) (text : List ℕ) (v w : Verdict) (x : Says lines text v)
        (y : Says lines text w) → IsCounted lines text v x → IsCounted lines text w y → v ≡ w }
{}
