// How many words a line may have, and why it has none.
ghost use Rattle.std.specs.Prelude.{◌≡◌};
ghost use Rattle.seam_words.specs.Numbers.{number_of};

/// Why a line has no words.
#[derive(Clone, Copy, Debug, PartialEq, Eq)]
pub enum WordsError {
    /// The line is not UTF-8.
    NotUtf8,
    /// A quoted word without an end, a quote inside another word, or a closing quote right before another byte than a
    /// space or a tab.
    OpenQuote,
    /// A backslash in a quoted word that is not followed by a quote, a backslash or an `n`.
    BadEscape,
    /// A 17th word.
    TooManyWords,
}

impl WordsError {
    /// The error's number, from 1 to 4.
    pub fn number(self) -> u8
        ensures { result ≡ number_of self }
    {
        match self {
            WordsError::NotUtf8 => 1,
            WordsError::OpenQuote => 2,
            WordsError::BadEscape => 3,
            WordsError::TooManyWords => 4,
        }
    }
}

/// The most words of a line.
pub const MOST_WORDS: usize = 16;
