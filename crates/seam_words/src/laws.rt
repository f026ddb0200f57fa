// What the definitions say together.
ghost use Rattle.std.specs.Prelude.{◌≡◌, ◌≤◌, List, ℕ, length};
ghost use Rattle.seam_words.specs.declared.words.WordsError.{WordsError};
ghost use Rattle.seam_words.specs.Words.{Span, AreWords};
ghost use Rattle.seam_words.specs.Faults.{HasFault};

use crate::MOST_WORDS;

/// A line has one list of words at most. It does nothing when it runs.
pub fn words_are_one()
    ensures { (line : List ℕ) (xs ys : List Span) → AreWords line xs → AreWords line ys → xs ≡ ys }
{}

/// A line has one first fault at most, and none where it has 16 words or fewer. It does nothing when it runs.
pub fn fault_is_one()
    ensures one { (line : List ℕ) (e f : WordsError) → HasFault line e → HasFault line f → e ≡ f }
    ensures beside_no_words { (line : List ℕ) (spans : List Span) (e : WordsError) →
        AreWords line spans → length spans ≤ MOST_WORDS → ¬ (HasFault line e) }
{}
