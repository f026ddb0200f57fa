//! What is summed up of the rounds of a run.

ghost use Rattle.std.specs.Prelude.{◌≡◌, ◌≤◌, ◌+◌, ◌^◌, ◌∷◌, ◌++◌, [], List, IfOk, OnOk, OnErr};
ghost use Rattle.seam_rule_rounds.specs.Prelude.{field, totals_of, totals_text, Sums as SumsOf};

use seam_value::{Value, push_number};
use std::alloc::AllocError;

/// What is summed up of a round.
#[derive(Clone, Copy, Debug, PartialEq, Eq)]
pub struct Sums {
    /// How many calls cell parts executed.
    pub did: u64,
    /// How many lines clients were shown.
    pub shown: u64,
    /// The hp of all homes.
    pub hp: i64,
}

/// What is summed up of rounds.
#[derive(Clone, Copy, Debug, PartialEq, Eq)]
pub struct Totals {
    /// How many rounds there were.
    pub rounds: u64,
    /// How many calls cell parts executed.
    pub did: u64,
    /// How many lines clients were shown.
    pub shown: u64,
    /// The hp of all homes of the last round, and 0 where there was none.
    pub hp: i64,
}

/// The sum of two counts. If it does not fit 64 bits, the answer is that of a failed allocation: no memory holds so many lines.
pub fn plus(count: u64, more: u64) -> Result<u64, AllocError>
    ensures sum { IfOk result (λ n. n ≡ count + more) }
    ensures over { OnErr result (2 ^ 64 ≤ count + more) }
{
    count.checked_add(more).ok_or(AllocError)
}

impl Totals {
    /// Those of no rounds.
    pub fn new() -> Totals
        ensures { result ≡ totals_of [] }
    {
        Totals {
            rounds: 0,
            did: 0,
            shown: 0,
            hp: 0,
        }
    }

    /// Those with one round more. A count past 2^64 is answered like a failed allocation.
    pub fn with(self, round: &Sums) -> Result<Totals, AllocError>
        ensures { IfOk result (λ t. (before : List SumsOf) → self ≡ totals_of before →
            t ≡ totals_of (before ++ round.now ∷ [])) }
    {
        Ok(Totals {
            rounds: plus(self.rounds, 1)?,
            did: plus(self.did, round.did)?,
            shown: plus(self.shown, round.shown)?,
            hp: round.hp,
        })
    }

    /// Appends the summary of a generated input of `lines` lines.
    pub fn write(&self, lines: u32, out: &mut Vec<u8>) -> Result<(), AllocError>
        ensures { OnOk result (out.new.items ≡ out.old.items ++ totals_text lines self.now) }
    {
        push_count(out, b"storm", u64::from(lines))?;
        push_count(out, b" rounds", self.rounds)?;
        push_count(out, b" did", self.did)?;
        push_count(out, b" shown", self.shown)?;
        out.extend_from_slice(b" hp ")?;
        Value::Number(i128::from(self.hp)).write(out)?;
        out.extend_from_slice(b"\n")
    }
}

// A word, a space and a number.
fn push_count(out: &mut Vec<u8>, word: &[u8], number: u64) -> Result<(), AllocError>
    ensures { OnOk result (out.new.items ≡ out.old.items ++ word.now ++ field number) }
{
    out.extend_from_slice(word)?;
    out.extend_from_slice(b" ")?;
    push_number(out, number)
}
