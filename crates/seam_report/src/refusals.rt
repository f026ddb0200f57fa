// The lines of refused lines.
ghost use Rattle.std.specs.Prelude.{◌≡◌, ◌++◌, ◌∷◌, [], codes, OnOk};
ghost use Rattle.seam_rule_lines.specs.LineTexts.{field, refusal, cause_text, number_of_cut_error, number_of_shift_error};

use seam_rule_lines::Cause;
use seam_tree::{CutError, ShiftError};
use seam_value::push_number;
use std::alloc::AllocError;

/// Appends the line of a refused line of the input: its number and the cause.
pub fn push_refusal(out: &mut Vec<u8>, line: u64, cause: Cause) -> Result<(), AllocError>
    ensures { OnOk result (out.new.items ≡ out.old.items ++ refusal line cause) }
{
    out.extend_from_slice(b"line ")?;
    push_number(out, line)?;
    push_cause(out, cause)
}

// Appends the space before a cause, its text, and the line feed after it.
fn push_cause(out: &mut Vec<u8>, cause: Cause) -> Result<(), AllocError>
    ensures { OnOk result (out.new.items ≡ out.old.items ++ 32 ∷ cause_text cause ++ 10 ∷ []) }
{
    match cause {
        Cause::TooLong => out.extend_from_slice(b" long\n"),
        Cause::BadWords(error) => {
            out.extend_from_slice(b" words ")?;
            push_number(out, u64::from(error.number()))?;
            out.extend_from_slice(b"\n")
        }
        Cause::NoCommand => out.extend_from_slice(b" command\n"),
        Cause::WrongCount => out.extend_from_slice(b" count\n"),
        Cause::BadNumber => out.extend_from_slice(b" number\n"),
        Cause::Exists => out.extend_from_slice(b" exists\n"),
        Cause::NoType => out.extend_from_slice(b" type\n"),
        Cause::Outside => out.extend_from_slice(b" outside\n"),
        Cause::Full => out.extend_from_slice(b" full\n"),
        Cause::NoSender => out.extend_from_slice(b" sender\n"),
        Cause::Dead => out.extend_from_slice(b" dead\n"),
        Cause::UnknownMethod => out.extend_from_slice(b" unknown\n"),
        Cause::IllTyped => out.extend_from_slice(b" illtyped\n"),
        Cause::CutRefused(error) => push_tree(out, number_of_cut(error)),
        Cause::ShiftRefused(error) => push_tree(out, number_of_shift(error)),
    }
}

// Appends the space before a tree's refusal of a number, its text, and the line feed after it.
fn push_tree(out: &mut Vec<u8>, number: u64) -> Result<(), AllocError>
    ensures { OnOk result (out.new.items ≡ out.old.items ++ 32 ∷ (codes "tree" ++ field number)
        ++ 10 ∷ []) }
{
    out.extend_from_slice(b" tree ")?;
    push_number(out, number)?;
    out.extend_from_slice(b"\n")
}

fn number_of_cut(error: CutError) -> u64
    ensures { result ≡ number_of_cut_error error }
{
    match error {
        CutError::NoCell => 1,
        CutError::OutsideCell => 2,
        CutError::TooManyCells => 3,
    }
}

fn number_of_shift(error: ShiftError) -> u64
    ensures { result ≡ number_of_shift_error error }
{
    match error {
        ShiftError::NoBoundary => 1,
        ShiftError::WouldEmpty => 2,
    }
}
