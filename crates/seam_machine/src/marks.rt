//! Marks of the nodes of a net, of which the first is found in a few instructions.

ghost use Rattle.std.specs.Prelude.{◌≡◌, ◌≢◌, ℕ, ◌<◌, true, false, IfSome, IfNone};
ghost use Rattle.seam_machine.specs.Inside.{is_marked};

/// Which of the numbers below 256 are marked: a binary digit for each, the least first.
#[derive(Drop)]
pub struct Marks {
    words: [u64; 4],
}

impl Marks {
    /// No mark.
    pub fn none() -> Marks
        ensures { (k : ℕ) → is_marked result.words k ≡ false }
    {
        Marks { words: [0; 4] }
    }

    /// Marks the number, or takes its mark away.
    pub fn set(&mut self, number: u8, is: bool)
        ensures there { is_marked self.new.words number ≡ is }
        ensures others { (k : ℕ) → k ≢ number → is_marked self.new.words k
            ≡ is_marked self.old.words k }
    {
        let at = usize::from(number / 64);
        let digit = 1 << (number % 64);
        if is {
            self.words[at] |= digit;
        } else {
            self.words[at] &= !digit;
        }
    }

    /// The least number that is marked.
    pub fn first(&self) -> Option<u8>
        ensures some { IfSome result (λ k. is_marked self.now.words k ≡ true) }
        ensures first { IfSome result (λ k. (j : ℕ) → j < k → is_marked self.now.words j ≡ false) }
        ensures none { IfNone result ((j : ℕ) → is_marked self.now.words j ≡ false) }
    {
        for i in 0..4 {
            let word = self.words[i];
            if word != 0 {
                return Some(i as u8 * 64 + word.trailing_zeros() as u8);
            }
        }
        None
    }
}
