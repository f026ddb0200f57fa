// Numbers, senders and deeds.
ghost use Rattle.std.specs.Prelude.{◌≡◌, ◌≤◌, ◌+◌, ◌++◌, ◌∷◌, length, drop, OnOk};
ghost use Rattle.std.specs.List.{flat_map};
ghost use Rattle.seam_rule_rounds.specs.Prelude.{text_of, sender_text, field};
ghost use Rattle.seam_defs.specs.Types.{method_of};
ghost use Rattle.seam_rule_lines.specs.LineTexts.{deed_text};

use itoa::write_digits;
use seam_call::Sender;
use seam_defs::{Deed, TypeDef};
use seam_geo::Pos;
use seam_value::{Value, push_number};
use std::alloc::AllocError;

// A space and a number.
pub(crate) fn push_field(out: &mut Vec<u8>, number: u64) -> Result<(), AllocError>
    ensures { OnOk result (out.new.items ≡ out.old.items ++ field number) }
{
    let mut text = [0; LONGEST_FIELD];
    let at = write_field(number, &mut text, LONGEST_FIELD);
    out.extend_from_slice(&text[at..])
}

// The numbers of a position, gathered from the last to the first and appended at once.
fn push_pos(out: &mut Vec<u8>, pos: Pos) -> Result<(), AllocError>
    ensures { OnOk result (out.new.items ≡ out.old.items ++ field pos.x ++ field pos.z) }
{
    let mut text = [0; 2 * LONGEST_FIELD];
    let at = write_field(u64::from(pos.z), &mut text, 2 * LONGEST_FIELD);
    let at = write_field(u64::from(pos.x), &mut text, at);
    out.extend_from_slice(&text[at..])
}

// The room that the longest field takes.
pub(crate) const LONGEST_FIELD: usize = 21;

// Writes a space and a number into the bytes before `end`, and answers where they start.
pub(crate) fn write_field(number: u64, text: &mut [u8], end: usize) -> usize
    requires { (21 ≤ end) × (end ≤ length text.old) }
    ensures start { (end ≤ result + 21) × (result ≤ end) }
    ensures length { length text.new ≡ length text.old }
    ensures written { drop result text.new ≡ field number ++ drop end text.old }
{
    let start = write_digits(number, text, end) - 1;
    text[start] = b' ';
    start
}

// A space and a sender.
pub(crate) fn push_sender(out: &mut Vec<u8>, sender: Sender) -> Result<(), AllocError>
    ensures { OnOk result (out.new.items ≡ out.old.items ++ 32 ∷ sender_text sender) }
{
    match sender {
        Sender::Base(node) => {
            out.extend_from_slice(b" b")?;
            push_number(out, u64::from(node.number()))
        }
        Sender::Client(entity) => {
            out.extend_from_slice(b" c")?;
            push_number(out, u64::from(entity))
        }
    }
}

// A space and what a call of a type's entity does.
pub(crate) fn push_deed(out: &mut Vec<u8>, t: &TypeDef, deed: &Deed) -> Result<(), AllocError>
    ensures { OnOk result (out.new.items ≡ out.old.items ++ deed_text t.now deed.now) }
{
    match deed {
        Deed::Move(to) => {
            out.extend_from_slice(b" move")?;
            push_pos(out, *to)
        }
        Deed::Method(method, args) => {
            out.extend_from_slice(b" ")?;
            out.extend_from_slice(method_name(t, *method))?;
            push_args(out, args.values())
        }
    }
}

fn method_name(t: &TypeDef, number: u16) -> &[u8]
    ensures { result.now ≡ (method_of t.now number).name }
{
    match t.method(number) {
        Some(method) => method.name.bytes(),
        None => b"",
    }
}

fn push_args(out: &mut Vec<u8>, args: &[Value]) -> Result<(), AllocError>
    ensures { OnOk result (out.new.items ≡ out.old.items ++ flat_map (λ v. 32 ∷ text_of v)
        args.now) }
{
    for arg in args {
        out.extend_from_slice(b" ")?;
        arg.write(out)?;
    }
    Ok(())
}
