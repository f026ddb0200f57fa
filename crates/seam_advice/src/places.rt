// Where a header is at fault.
use crate::lines::{HeaderText, Slip, header_text};
use seam_toml::{Fault, Role, has_fault, is_at_fault, read_document};
use std::alloc::{AllocError, Global};
use std::io::Eprint;
use toml::{Table, Value};

// How deep values of a header lie: the key of a property of a type is below five tables.
const MOST_DEPTH: usize = 5;

/// Says on standard error where the header is at fault that the bytes begin with, where that can be told: the line of what looks like a
/// forgotten `%%`, the line and the column of what is no TOML, or the key of the first value that is at fault in this way. `cause` is the
/// number of the cause for which the header is refused.
pub fn print_fault_position<E: Eprint>(rt: &E, alloc: Global, cause: u8, bytes: &[u8]) {
    let _ = match place(alloc, cause, bytes) {
        Ok(place) if !place.is_empty() => rt.eprintln(format_args!("seamless: {}", place.as_str())),
        _ => Ok(()),
    };
}

// The place, in words; none where it cannot be told.
fn place(alloc: Global, cause: u8, bytes: &[u8]) -> Result<String, AllocError> {
    let header = header_text(alloc, bytes)?;
    match (fault_of(cause), cause) {
        (Some(fault), _) => key_place(alloc, fault, &header.text),
        (None, 1) => toml_place(alloc, &header),
        _ => slip_place(alloc, header.slip),
    }
}

fn slip_place(alloc: Global, slip: Option<(usize, Slip)>) -> Result<String, AllocError> {
    match slip {
        Some((number, Slip::Blanks)) => {
            format!(in alloc;
                "line {number} has blanks beside %%; a header ends at a line that is %% alone"
            )
        }
        Some((number, Slip::Mark)) => {
            format!(in alloc;
                "line {number} has a byte order mark before %%; a header ends at a line that is %% alone"
            )
        }
        Some((number, Slip::Command)) => {
            format!(in alloc;
                "line {number} begins with the name of a command: is the line %% missing?"
            )
        }
        None => Ok(String::new(alloc)),
    }
}

fn fault_of(cause: u8) -> Option<Fault> {
    match cause {
        2 => Some(Fault::NoSuchKey),
        3 => Some(Fault::BadType),
        4 => Some(Fault::BadFlag),
        5 => Some(Fault::BadDefault),
        6 => Some(Fault::BadBody),
        7 => Some(Fault::TooManyNames),
        8 => Some(Fault::GhostTooNear),
        _ => None,
    }
}

// The line and the column of what is no TOML, and what is wrong with it; or the slip, where that comes first.
fn toml_place(alloc: Global, header: &HeaderText) -> Result<String, AllocError> {
    let Err(error) = toml::table_from_slice(alloc, &header.text) else {
        return Ok(String::new(alloc));
    };
    let Some(span) = error.span() else {
        return Err(AllocError);
    };
    let (line, column) = position(&header.text, span.start);
    match header.slip {
        Some((number, _)) if number <= line => slip_place(alloc, header.slip),
        _ => format!(in alloc; "line {line}, column {column}: {}", error.message()),
    }
}

// The line and the column of a byte, both from 1. A column counts characters.
fn position(text: &[u8], at: usize) -> (usize, usize) {
    let mut line = 1usize;
    let mut column = 1usize;
    for byte in text.iter().take(at) {
        if *byte == b'\n' {
            line = line.saturating_add(1);
            column = 1;
        } else if *byte & 0xC0 != 0x80 {
            column = column.saturating_add(1);
        }
    }
    (line, column)
}

// A table of a header, and what it is for.
#[derive(Clone, Copy)]
struct Level<'a> {
    role: Role,
    table: &'a Table,
}

// The key of the first value that is at fault, with the keys above it.
fn key_place(alloc: Global, fault: Fault, text: &[u8]) -> Result<String, AllocError> {
    let Ok(document) = read_document(alloc, text) else {
        return Err(AllocError);
    };
    let mut path = String::from_str(alloc, "the key ")?;
    let mut at = Level {
        role: Role::Header,
        table: &document,
    };
    'keys: for _ in 0..MOST_DEPTH {
        match below(alloc, fault, at, &mut path)? {
            Some(next) => at = next,
            None => return Ok(path),
        }
    }
    Ok(path)
}

// Goes down to the first value that is at fault, or has such a one below it. None where the place is found.
fn below<'a>(
    alloc: Global,
    fault: Fault,
    at: Level<'a>,
    path: &mut String,
) -> Result<Option<Level<'a>>, AllocError> {
    if fault == Fault::NoSuchKey {
        if let Some(key) = strange_key(&at.role, at.table) {
            push_key(path, key)?;
            return Ok(None);
        }
    }
    let Some((key, value, role)) = guilty(alloc, fault, &at.role, at.table)? else {
        return Ok(None);
    };
    push_key(path, key)?;
    if fault != Fault::NoSuchKey && is_at_fault(alloc, fault, &role, value)? {
        return Ok(None);
    }
    match value.as_table() {
        Some(table) => Ok(Some(Level { role, table })),
        None => Ok(None),
    }
}

// The first key of a table that it may not have.
fn strange_key<'a>(role: &Role, table: &'a Table) -> Option<&'a str> {
    'members: for (key, _value) in table.iter() {
        if role.under(key.as_str()).is_none() {
            return Some(key.as_str());
        }
    }
    None
}

// The first member that is at fault, or has such a value below it, and what it is for.
fn guilty<'a>(
    alloc: Global,
    fault: Fault,
    role: &Role,
    table: &'a Table,
) -> Result<Option<(&'a str, &'a Value, Role)>, AllocError> {
    'members: for (key, value) in table.iter() {
        if let Some(under) = role.under(key.as_str()) {
            if has_fault(alloc, fault, &under, value)? {
                return Ok(Some((key.as_str(), value, under)));
            }
        }
    }
    Ok(None)
}

fn push_key(path: &mut String, key: &str) -> Result<(), AllocError> {
    if !path.ends_with(' ') {
        path.push('.')?;
    }
    path.push_str(key)
}
