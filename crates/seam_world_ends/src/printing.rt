// Text that is printed, and the statuses by which that ends a run.
ghost use Rattle.std.specs.Prelude.{◌≡◌, [], List, ℕ, MatchResult};
ghost use Rattle.std.specs.Prelude.{OnOk};
ghost use Rattle.seam_io.specs.States.{SinkState};
ghost use Rattle.seam_io.specs.Lines.{HasNoFeed};
ghost use Rattle.seam_io.specs.Reading.{held_on};
ghost use Rattle.seam_world_ends.specs.Printing.{Printed, FailedWithin, StopsBy, IsPrinted};

use crate::Status;
use crate::pending::Pending;
use seam_io::{Failed, Lines, Sink, write_whole};

/// Writes what is pending where the next line may have to be waited for: the answers to a person's lines are seen first.
pub fn write_before_wait<K: Sink>(
    lines: &Lines,
    pending: &mut Pending,
    out: &mut K,
) -> Result<(), Failed>
    ensures prints { (sink : SinkState) (text : List ℕ) →
        Printed sink (K.state out.old) pending.old text →
        MatchResult result (λ _. Printed sink (K.state out.new) pending.new text)
        (λ _. FailedWithin sink (K.state out.new) text) }
    ensures none { OnOk result (HasNoFeed (held_on lines.now) → pending.new ≡ []) }
{
    if lines.has_line() {
        return Ok(());
    }
    pending.write(out)
}

/// Prints a text.
pub fn print<K: Sink>(text: &[u8], pending: &mut Pending, out: &mut K) -> Option<Status>
    ensures { (sink : SinkState) (before : List ℕ) → Printed sink (K.state out.old) pending.old
        before → IsPrinted text.now sink (K.state out.new) pending.new before result }
{
    match pending.push(text, out) {
        Ok(()) => None,
        Err(Failed) => Some(Status::WriteFault),
    }
}

/// Prints a text, and writes all that was printed.
pub fn print_and_write<K: Sink>(text: &[u8], pending: &mut Pending, out: &mut K) -> Option<Status>
    ensures { (sink : SinkState) (before : List ℕ) → Printed sink (K.state out.old) pending.old
        before → IsPrinted text.now sink (K.state out.new) [] before result }
{
    match pending.push(text, out) {
        Ok(()) => match pending.write(out) {
            Ok(()) => None,
            Err(Failed) => Some(Status::WriteFault),
        },
        Err(Failed) => Some(Status::WriteFault),
    }
}

/// Writes what is pending, and answers the status by which the run ends.
pub fn stop<K: Sink>(status: Status, pending: &mut Pending, out: &mut K) -> Status
    ensures { (sink : SinkState) (text : List ℕ) → Printed sink (K.state out.old) pending.old text →
        StopsBy status sink (K.state out.new) text result }
{
    match pending.write(out) {
        Ok(()) => status,
        Err(Failed) => Status::WriteFault,
    }
}

/// Writes a text, as much of it as the sink accepts.
pub fn write_text<K: Sink>(text: &[u8], out: &mut K) -> Status
    ensures { StopsBy Status.Done (K.state out.old) (K.state out.new) text.now result }
{
    match write_whole(out, text) {
        Ok(()) => Status::Done,
        Err(_) => Status::WriteFault,
    }
}
