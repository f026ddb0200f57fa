//! Who watches rounds.

ghost use Rattle.std.specs.Prelude.{◌≡◌, [], None, Some, OnOk, OnErr, option_map, slice_get};
ghost use Rattle.seam_watch.specs.Watching.{IsGiven};

use crate::journal::Journal;
use std::alloc::{AllocError, Global};
use std::marker::Model;

/// Who is given the journal of each round.
pub trait Watch {
    ghost use Rattle.seam_watch.specs.Watching.{Told};

    /// The journals that it was given, each with the number of its space, where it tells them.
    ghost told: { Self → Told };

    /// Is given one more. If allocation fails, it was not given it.
    fn journal(&mut self, alloc: Global, space: u8, journal: &Journal) -> Result<(), AllocError>
        ensures given { OnOk result (IsGiven space journal.now (told self.old) (told self.new)) }
        ensures err { OnErr result (told self.new ≡ told self.old) };
}

/// Watches nothing: it keeps no journal and tells none.
#[derive(Clone, Copy, Debug, PartialEq, Eq)]
pub struct NoWatch;

impl Watch for NoWatch {
    ghost told = { λ _. None };

    fn journal(&mut self, _alloc: Global, space: u8, journal: &Journal) -> Result<(), AllocError>
        ensures given { OnOk result (IsGiven space journal.now None None) }
        ensures err { OnErr result ⊥ }
    {
        Ok(())
    }
}

/// The journals of a run, each with the number of its space, in the order in which they were given.
#[derive(Debug, Drop)]
pub struct JournalLog {
    entries: Vec<(u8, Journal)>,
}

impl Model for JournalLog {
    ghost use Rattle.std.specs.Prelude.{ℕ, List};
    ghost use Rattle.seam_watch.specs.declared.journal.Journal.{Journal};

    ghost Value = { List (ℕ × Journal) };

    ghost view = { λ l. l.entries.items };
}

impl JournalLog {
    /// No journal yet.
    pub fn new(alloc: Global) -> JournalLog
        ensures { result ≡ [] }
    {
        JournalLog {
            entries: Vec::new(alloc),
        }
    }

    /// The journal at place i, counted from 0 at the first, with the number of its space; None where there is none.
    pub fn at(&self, i: usize) -> Option<(u8, &Journal)>
        ensures { option_map (λ p. (p.0, p.1.now)) result ≡ slice_get self.now i }
    {
        let (space, journal) = self.entries.get(i)?;
        Some((*space, journal))
    }
}

impl Watch for JournalLog {
    ghost told = { λ l. Some l };

    fn journal(&mut self, alloc: Global, space: u8, journal: &Journal) -> Result<(), AllocError>
        ensures given { OnOk result (IsGiven space journal.now (Some self.old) (Some self.new)) }
        ensures err { OnErr result (self.new ≡ self.old) }
    {
        self.entries.push((space, journal.copy(alloc)?))?;
        Ok(())
    }
}
