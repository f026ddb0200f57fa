// The lines of a header, as far as they were kept: its text, and what looks like a forgotten line `%%`.
use crate::commands::is_command;
use std::alloc::{AllocError, Global};

const MARK: &[u8] = b"\xEF\xBB\xBF";

// What a line is that seems to be meant for the end of the header, or for a command after it.
#[derive(Clone, Copy)]
pub(crate) enum Slip {
    // blanks beside the `%%`
    Blanks,
    // a byte order mark before the `%%`
    Mark,
    // the name of a command
    Command,
}

// The text of a header, with one line feed a line and without carriage returns, and the first line of it that looks like a slip.
#[derive(Drop)]
pub(crate) struct HeaderText {
    pub(crate) text: Vec<u8>,
    pub(crate) slip: Option<(usize, Slip)>,
}

// The header that the bytes begin with, up to the line `%%` or to their end.
pub(crate) fn header_text(alloc: Global, bytes: &[u8]) -> Result<HeaderText, AllocError> {
    let mut header = HeaderText {
        text: Vec::with_capacity(alloc, bytes.len())?,
        slip: None,
    };
    let mut number = 0usize;
    'lines: for line in bytes.split(|byte| *byte == b'\n') {
        number = number.saturating_add(1);
        let line = line.strip_suffix(b"\r").unwrap_or(line);
        if line == b"%%".as_slice() {
            break;
        }
        header.take(number, line)?;
    }
    Ok(header)
}

impl HeaderText {
    fn take(&mut self, number: usize, line: &[u8]) -> Result<(), AllocError> {
        self.text.extend_from_slice(line)?;
        self.text.push(b'\n')?;
        if self.slip.is_none() {
            if let Some(slip) = slip_of(line) {
                self.slip = Some((number, slip));
            }
        }
        Ok(())
    }
}

fn slip_of(line: &[u8]) -> Option<Slip> {
    if line.trim_ascii() == b"%%".as_slice() {
        return Some(Slip::Blanks);
    }
    if let Some(rest) = line.strip_prefix(MARK) {
        if rest.trim_ascii() == b"%%".as_slice() {
            return Some(Slip::Mark);
        }
    }
    if begins_command(line) {
        return Some(Slip::Command);
    }
    None
}

// Whether the line begins with the name of a command, and is no key with a value.
fn begins_command(line: &[u8]) -> bool {
    let line = line.trim_ascii();
    let end = line
        .iter()
        .position(|byte| !byte.is_ascii_alphabetic())
        .unwrap_or(line.len());
    if end > line.len() {
        return false;
    }
    let (word, rest) = line.split_at(end);
    is_command(word) && !rest.trim_ascii_start().starts_with(b"=") && !rest.starts_with(b".")
}
