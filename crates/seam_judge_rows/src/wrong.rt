// What may be wrong of what was printed.
use seam_judge_rounds::Point;
use std::alloc::{AllocError, Global};

/// What is wrong first of what was printed of a script, or that allocation failed.
#[derive(Clone, Copy)]
pub(crate) enum Wrong {
    NoMemory,
    /// The script begins with no header.
    Header,
    /// The refusal of the line of this number is not printed where it is due.
    Refusal(u64),
    /// This point does not hold of the round of this number.
    Round(u64, Point),
    /// What the text of this round says is legal, and has another text.
    Text(u64),
    /// There is no plain round in place of this one.
    Plain(u64),
    /// There is more text.
    More,
}

impl From<AllocError> for Wrong {
    fn from(_error: AllocError) -> Wrong {
        Wrong::NoMemory
    }
}

impl Wrong {
    /// What is wrong, in words.
    pub(crate) fn told(self, alloc: Global) -> Result<String, AllocError> {
        match self {
            Wrong::NoMemory => Err(AllocError),
            Wrong::Header => String::from_str(alloc, "no header"),
            Wrong::Refusal(line) => format!(in alloc; "line {line} is refused otherwise"),
            Wrong::Round(round, point) => format!(in alloc; "round {round}, {point:?}"),
            Wrong::Text(round) => format!(in alloc; "round {round} has another text"),
            Wrong::Plain(round) => format!(in alloc; "round {round} has no plain one"),
            Wrong::More => String::from_str(alloc, "more text"),
        }
    }
}
