// The boundaries of a tree.
ghost use Rattle.std.specs.Prelude.{◌≡◌, ◌++◌, ◌∷◌, Some, OnOk};
ghost use Rattle.seam_rule_rounds.specs.Prelude.{Cut as AnyCut, axis_text, bound_text, bounds_text};

use crate::values::push_field;
use seam_tree::{Axis, Boundary, Tree};
use seam_value::push_number;
use std::alloc::AllocError;

/// Appends a line for each boundary of the tree, in rising number.
pub fn push_bounds(out: &mut Vec<u8>, tree: &Tree) -> Result<(), AllocError>
    ensures { OnOk result (out.new.items ≡ out.old.items ++ bounds_text (Some tree.now)) }
{
    for number in 1..tree.cells() {
        if let Some(boundary) = tree.boundary(number) {
            push_bound(out, number, boundary)?;
        }
    }
    Ok(())
}

// The line of a boundary, whichever cell it cut.
fn push_bound(out: &mut Vec<u8>, number: u8, boundary: Boundary) -> Result<(), AllocError>
    ensures { (cut : AnyCut) → cut.boundary ≡ boundary →
        OnOk result (out.new.items ≡ out.old.items ++ bound_text (number, cut)) }
{
    out.extend_from_slice(b"bound ")?;
    push_number(out, u64::from(number))?;
    out.extend_from_slice(axis_name(boundary.axis))?;
    push_field(out, u64::from(boundary.at))?;
    out.extend_from_slice(b"\n")
}

// The name of an axis, after a space.
fn axis_name(axis: Axis) -> &'static [u8]
    ensures { result.now ≡ 32 ∷ axis_text axis }
{
    match axis {
        Axis::X => b" x",
        Axis::Z => b" z",
    }
}
