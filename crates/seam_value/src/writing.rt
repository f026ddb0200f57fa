// The spelling of a value.
ghost use Rattle.std.specs.Prelude.{◌≡◌, ◌++◌, OnOk, OnErr, length, take};
ghost use Rattle.std.specs.List.{flat_map};
ghost use Rattle.seam_value.specs.Texts.{spelled_byte, quoted};
ghost use Rattle.seam_value.specs.Values.{text_of, number_text, decimal_of};

use crate::Value;
use itoa::Buffer;
use std::alloc::AllocError;

impl Value {
    /// Appends the spelling of the value. If allocation fails `out` is as it was.
    pub fn write(&self, out: &mut Vec<u8>) -> Result<(), AllocError>
        ensures ok { OnOk result (out.new.items ≡ out.old.items ++ text_of self.now) }
        ensures err { OnErr result (out.new.items ≡ out.old.items) }
    {
        match self {
            Value::Number(number) => push_whole(out, *number),
            Value::Text(text) => write_quoted(out, text.bytes()),
        }
    }
}

fn push_whole(out: &mut Vec<u8>, number: i128) -> Result<(), AllocError>
    ensures ok { OnOk result (out.new.items ≡ out.old.items ++ number_text number) }
    ensures err { OnErr result (out.new.items ≡ out.old.items) }
{
    // Digits of 128 bits are dear.
    match u64::try_from(number) {
        Ok(small) => push_number(out, small),
        Err(_) => {
            let mut buffer = Buffer::new();
            out.extend_from_slice(buffer.format(number).as_bytes())
        }
    }
}

/// Appends the number in decimal. If allocation fails `out` is as it was.
pub fn push_number(out: &mut Vec<u8>, number: u64) -> Result<(), AllocError>
    ensures ok { OnOk result (out.new.items ≡ out.old.items ++ decimal_of number) }
    ensures err { OnErr result (out.new.items ≡ out.old.items) }
{
    // Most numbers of a text have few digits, which take no buffer: a copy of known length is one or two stores.
    if number < 10 {
        out.push(b'0' + number as u8)?;
        return Ok(());
    }
    if number < 100 {
        return out.extend_from_slice(&[b'0' + (number / 10) as u8, b'0' + (number % 10) as u8]);
    }
    if number < 1000 {
        return out.extend_from_slice(&[
            b'0' + (number / 100) as u8,
            b'0' + (number / 10 % 10) as u8,
            b'0' + (number % 10) as u8,
        ]);
    }
    let mut buffer = Buffer::new();
    out.extend_from_slice(buffer.format(number).as_bytes())
}

// The bytes in quotes, or nothing at all.
fn write_quoted(out: &mut Vec<u8>, bytes: &[u8]) -> Result<(), AllocError>
    ensures ok { OnOk result (out.new.items ≡ out.old.items ++ quoted bytes.now) }
    ensures err { OnErr result (out.new.items ≡ out.old.items) }
{
    let mark = out.len();
    match push_quoted(out, bytes) {
        Ok(()) => Ok(()),
        Err(error) => {
            out.truncate(mark);
            Err(error)
        }
    }
}

// The bytes in quotes.
#[tactic(auto, unfolding(crate::specs::Texts::quoted))]
fn push_quoted(out: &mut Vec<u8>, bytes: &[u8]) -> Result<(), AllocError>
    ensures ok { OnOk result (out.new.items ≡ out.old.items ++ quoted bytes.now) }
    ensures kept { take (length out.old.items) out.new.items ≡ out.old.items }
{
    out.push(b'"')?;
    push_spelled(out, bytes)?;
    out.push(b'"')?;
    Ok(())
}

// The bytes as they are written between quotes.
fn push_spelled(out: &mut Vec<u8>, bytes: &[u8]) -> Result<(), AllocError>
    ensures ok { OnOk result (out.new.items ≡ out.old.items ++ flat_map spelled_byte bytes.now) }
    ensures kept { take (length out.old.items) out.new.items ≡ out.old.items }
{
    for byte in bytes {
        push_byte(out, *byte)?;
    }
    Ok(())
}

// A byte as it is written between quotes.
fn push_byte(out: &mut Vec<u8>, byte: u8) -> Result<(), AllocError>
    ensures ok { OnOk result (out.new.items ≡ out.old.items ++ spelled_byte byte) }
    ensures err { OnErr result (out.new.items ≡ out.old.items) }
{
    match byte {
        b'"' => out.extend_from_slice(b"\\\""),
        b'\\' => out.extend_from_slice(b"\\\\"),
        b'\n' => out.extend_from_slice(b"\\n"),
        _ => out.extend_from_slice(&[byte]),
    }
}
