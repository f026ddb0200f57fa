// The text of the steps of a round.
ghost use Rattle.std.specs.Prelude.{◌≡◌, ◌++◌, OnOk};
ghost use Rattle.std.specs.List.{flat_map};
ghost use Rattle.seam_rule_rounds.specs.RoundTexts.{work_text, step_text, phase_text, journal_text};

use crate::lines::push_number_line;
use seam_machine::Event;
use seam_value::push_number;
use seam_watch::Journal;
use std::alloc::AllocError;

/// Appends the steps of a round: for each phase its number, and then its steps in their order.
pub fn push_journal(out: &mut Vec<u8>, journal: &Journal) -> Result<(), AllocError>
    ensures { OnOk result (out.new.items ≡ out.old.items ++ journal_text journal.now) }
{
    push_phase(out, 1, journal.calls.as_slice())?;
    push_phase(out, 2, journal.reaps.as_slice())?;
    push_phase(out, 3, journal.looks.as_slice())
}

fn push_phase(out: &mut Vec<u8>, number: u64, steps: &[Event]) -> Result<(), AllocError>
    ensures { OnOk result (out.new.items ≡ out.old.items ++ phase_text number steps.now) }
{
    push_number_line(out, b"phase ", number)?;
    push_steps(out, steps)
}

fn push_steps(out: &mut Vec<u8>, steps: &[Event]) -> Result<(), AllocError>
    ensures { OnOk result (out.new.items ≡ out.old.items ++ flat_map step_text steps.now) }
{
    for step in steps {
        push_step(out, step)?;
    }
    Ok(())
}

fn push_step(out: &mut Vec<u8>, step: &Event) -> Result<(), AllocError>
    ensures { OnOk result (out.new.items ≡ out.old.items ++ step_text step.now) }
{
    out.extend_from_slice(b"step ")?;
    push_number(out, u64::from(step.node))?;
    push_work(out, step.from)?;
    out.extend_from_slice(b"\n")
}

// What a node did: its task, or a message from another node.
fn push_work(out: &mut Vec<u8>, from: Option<u8>) -> Result<(), AllocError>
    ensures { OnOk result (out.new.items ≡ out.old.items ++ work_text from) }
{
    match from {
        None => out.extend_from_slice(b" task"),
        Some(from) => {
            out.extend_from_slice(b" from ")?;
            push_number(out, u64::from(from))
        }
    }
}
