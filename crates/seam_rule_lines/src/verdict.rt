// What becomes of a line, and what an accepted one adds to the book.
use seam_call::{Call, Create};
use seam_tree::{CutError, ShiftError, Tree};
use seam_words::WordsError;

/// What an accepted line other than `sync` adds to the book.
#[derive(Debug, Drop)]
pub enum Entry {
    Created(Create),
    Called(Call),
    /// The entity of this number has a client.
    Joined(u32),
    /// All witnesses look.
    Ticked,
    /// The tree that a cut or a shift makes.
    Divided(Tree),
    /// The boundaries are balanced when the round ends.
    Balanced,
    /// The entity of this number is destroyed.
    Destroyed(u32),
}

/// Why a line is refused: of the causes that hold, the first in this order.
#[derive(Clone, Copy, Debug, PartialEq, Eq)]
pub enum Cause {
    /// It has more than 4,096 bytes.
    TooLong,
    BadWords(WordsError),
    /// Its first word is not that of a command.
    NoCommand,
    /// The command has another number of words.
    WrongCount,
    /// A word that has to be a number is none.
    BadNumber,
    /// An entity of this number was created before; or it lives and has a client.
    Exists,
    /// There is no such type.
    NoType,
    /// The position is not one of the space.
    Outside,
    /// As many entities were created, or as many live ones have a client, as may be.
    Full,
    /// There is no such sender.
    NoSender,
    /// The entity was not created, or was destroyed.
    Dead,
    /// The entity's type has no such method, or the sender may not call it.
    UnknownMethod,
    /// The arguments are not as many as the method takes, or one is no spelling of a value of its type; or the place of a `move`
    /// is not one of the space.
    IllTyped,
    CutRefused(CutError),
    ShiftRefused(ShiftError),
}

/// What becomes of a line.
#[derive(Debug, Drop)]
pub enum Verdict {
    /// It has no words, or is a comment.
    Skipped,
    Refused(Cause),
    Accepted(Entry),
    /// It ends the round.
    Synced,
}
