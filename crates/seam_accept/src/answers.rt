// What the book answers to a line.
ghost use Rattle.std.specs.Prelude.{◌≡◌};
ghost use Rattle.seam_accept.specs.declared.answers.Refusal.TheVariants as refusal;

use seam_rule_lines::Cause;
use std::alloc::{AllocError, AllocFailed};

/// What became of a line that was not refused.
#[derive(Clone, Copy, Debug, PartialEq, Eq)]
pub enum Accepted {
    /// The book keeps what it adds.
    Kept,
    /// It ends the round.
    Synced,
    /// It has no words, or is a comment.
    Skipped,
}

/// Why a line was refused, or that nothing is known of it since an allocation failed.
#[derive(Clone, Copy, Debug, PartialEq, Eq)]
pub enum Refusal {
    Cause(Cause),
    NoMemory,
}

impl From<AllocError> for Refusal {
    ghost from_gives = { λ _ r. r ≡ refusal.NoMemory };

    fn from(_error: AllocError) -> Refusal {
        Refusal::NoMemory
    }
}

impl From<Cause> for Refusal {
    ghost from_gives = { λ k r. r ≡ refusal.Cause k };

    fn from(cause: Cause) -> Refusal {
        Refusal::Cause(cause)
    }
}

impl<T: Drop> From<AllocFailed<T>> for Refusal {
    ghost from_gives = { λ _ r. r ≡ refusal.NoMemory };

    fn from(_failed: AllocFailed<T>) -> Refusal {
        Refusal::NoMemory
    }
}
