// The kinds of lines.

/// The kinds of lines of a round's text.
#[derive(Clone, Copy, Debug, PartialEq, Eq)]
pub enum Kind {
    /// The first line, with the round's number.
    Begin,
    /// A call that a cell part executed.
    Did,
    /// A call that a base part executed.
    Dob,
    /// A live entity, and what its real holds.
    Home,
    /// What its base part holds.
    Base,
    /// A ghost.
    Ghost,
    /// What a client is shown.
    To,
    /// A boundary of the next round.
    Bound,
    /// The last line, with the round's number.
    End,
}
