// Lines of words and numbers.
use seam_value::push_number;
use std::alloc::AllocError;

/// Appends a line: a word, and numbers after it.
pub(crate) fn push_line(out: &mut Vec<u8>, word: &[u8], numbers: &[u64]) -> Result<(), AllocError> {
    push_words(out, word, numbers)?;
    out.extend_from_slice(b"\n")
}

/// Appends a word, and numbers after it, each with a space before it.
pub(crate) fn push_words(
    out: &mut Vec<u8>,
    word: &[u8],
    numbers: &[u64],
) -> Result<(), AllocError> {
    out.extend_from_slice(word)?;
    for number in numbers {
        push_field(out, *number)?;
    }
    Ok(())
}

fn push_field(out: &mut Vec<u8>, number: u64) -> Result<(), AllocError> {
    out.push(b' ')?;
    push_number(out, number)
}

/// Appends a text as the data of a page have it, in which nothing is HTML and no line ends but at a line feed.
pub(crate) fn push_escaped(out: &mut Vec<u8>, text: &[u8]) -> Result<(), AllocError> {
    for byte in text {
        push_byte(out, *byte)?;
    }
    Ok(())
}

fn push_byte(out: &mut Vec<u8>, byte: u8) -> Result<(), AllocError> {
    match byte {
        b'&' => out.extend_from_slice(b"&amp;"),
        b'<' => out.extend_from_slice(b"&lt;"),
        b'\r' => out.extend_from_slice(b"&#13;"),
        0 => out.extend_from_slice(b"&#0;"),
        _ => out.extend_from_slice(&[byte]),
    }
}
