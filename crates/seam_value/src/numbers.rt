// Words that are numbers, as commands and headers have them.
ghost use Rattle.std.specs.Prelude.{◌≡◌, ℕ, MatchOption};
ghost use Rattle.seam_value.specs.NumberWords.{SpellsNumber, SpellsPositive};

use crate::reading::numeral;

/// The number that a word spells: None where it spells none that 32 bits hold. A number has one spelling, its decimal digits
/// without a leading zero.
pub fn whole_number(word: &[u8]) -> Option<u32>
    ensures { MatchOption result ((n : ℕ) → ¬ (SpellsNumber word.now n)) (SpellsNumber word.now) }
{
    match u32::try_from(numeral(word)?) {
        Ok(number) => Some(number),
        Err(_) => None,
    }
}

/// The number from 1 on that a word spells.
pub fn positive_number(word: &[u8]) -> Option<u32>
    ensures { MatchOption result ((n : ℕ) → ¬ (SpellsPositive word.now n))
        (SpellsPositive word.now) }
{
    match whole_number(word) {
        Some(0) => None,
        Some(number) => Some(number),
        None => None,
    }
}
