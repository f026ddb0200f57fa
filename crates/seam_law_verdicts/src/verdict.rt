// What is said of a text.

/// What is said of a text beside an input.
#[derive(Clone, Copy, Debug, PartialEq, Eq)]
pub enum Verdict {
    /// The input's header is refused, for the cause of this number.
    Header(u8),
    /// The text is an ended transcript of the input.
    Yes,
    /// The text is none. It first fails at this line, counted from 1, or at the one after its last, and in this point: 0 for a refusal, and
    /// for what comes after the end; else the first point of a legal round that fails.
    No(u64, u8),
}
