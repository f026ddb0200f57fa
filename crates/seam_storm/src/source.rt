//! The source of the generated input.

ghost use Rattle.std.specs.Prelude.{◌≡◌, OnOk, ◌+◌, ◌-◌, ◌<◌, ◌≤◌, ◌++◌, [], Some, IfOk, length, take, drop};
ghost use Rattle.std.specs.List.{flat_map, range_with_len};
ghost use Rattle.std.specs.Io.{ReadsAtMost};
ghost use Rattle.std.specs.Io.KnownBytes.{ReadConsumes};
ghost use Rattle.seam_io.specs.Causes.{HasCause, CountsEnds};
ghost use Rattle.seam_storm.specs.Storm.{create_line, client_line, opening, text_of_storm, field};
ghost use Rattle.seam_storm.specs.Inside.{rest_of, IsLines};

use crate::lines::{Lines, make_ready};
use arrayvec::ArrayVec;
use itoa::Buffer;
use seam_io::{Failed, Source};
use std::alloc::{AllocError, Global};
use std::marker::Model;

/// The most lines that draws choose.
pub const MAX_STORM_LINES: u32 = 1_000_000;

const AVATARS: u64 = 64;

const CLIENTS: u64 = 8;

const COLUMNS: u64 = 8;

const CUTS: &[u8] = b"%%\ncut 0 x 5000\ncut 0 z 5000\ncut 1 z 5000\n";

/// A source of the generated input, which never fails. It makes each line as it is read.
///
/// Contracts see the bytes that are left, and how often a read found the end.
#[derive(Drop)]
pub struct StormSource {
    opening: Vec<u8>,
    at: usize,
    lines: Lines,
    ends: u64,
}

impl Model for StormSource {
    ghost use Rattle.std.specs.Prelude.{◌≤◌, ◌++◌, drop, vec_len};
    ghost use Rattle.seam_storm.specs.Views.{StormView};
    ghost use Rattle.seam_storm.specs.Inside.{rest_of, IsLines};

    ghost Value = { StormView };

    ghost view = { λ s. record { left = drop s.at s.opening.items ++ rest_of s.lines; ends = s.ends } };

    ghost invariant = { λ s. (s.at ≤ vec_len s.opening) × IsLines s.lines };
}

// Appends a number as a further word.
fn push_field(text: &mut Vec<u8>, n: u64) -> Result<(), AllocError>
    ensures { OnOk result (text.new.items ≡ text.old.items ++ field n) }
{
    let mut buffer = Buffer::new();
    text.extend_from_slice(b" ")?;
    text.extend_from_slice(buffer.format(n).as_bytes())
}

// Appends the line that creates the entity on its place of the raster.
fn push_create(text: &mut Vec<u8>, e: u64) -> Result<(), AllocError>
    requires { (0 < e) × (e < 65) }
    ensures { OnOk result (text.new.items ≡ text.old.items ++ create_line e) }
{
    text.extend_from_slice(b"create")?;
    push_field(text, e)?;
    text.extend_from_slice(b" Avatar")?;
    push_field(text, 100 + 1250 * ((e - 1) % COLUMNS))?;
    push_field(text, 100 + 1250 * ((e - 1) / COLUMNS))?;
    text.extend_from_slice(b"\n")
}

// Appends the line that gives the entity a client.
fn push_client(text: &mut Vec<u8>, e: u64) -> Result<(), AllocError>
    ensures { OnOk result (text.new.items ≡ text.old.items ++ client_line e) }
{
    text.extend_from_slice(b"client")?;
    push_field(text, e)?;
    text.extend_from_slice(b"\n")
}

// The text before the lines that draws choose.
fn opening(alloc: Global) -> Result<Vec<u8>, AllocError>
    ensures { IfOk result (λ v. v.items ≡ opening) }
{
    let mut text = Vec::from_slice(alloc, CUTS)?;
    for e in 1..AVATARS + 1 {
        push_create(&mut text, e)?;
    }
    for e in 1..CLIENTS + 1 {
        push_client(&mut text, e)?;
    }
    Ok(text)
}

// Copies as much of the text as fits into the buffer from place `at` on, and gives how many bytes.
fn copy_some(text: &[u8], buf: &mut [u8], at: usize) -> usize
    requires within { at ≤ length buf.old }
    ensures bound { result ≤ length text.now }
    ensures len { length buf.new ≡ length buf.old }
    ensures fits { at + result ≤ length buf.new }
    ensures some { 0 < length text.now → at < length buf.old → 0 < result }
    ensures bytes { take at buf.old ++ text.now ≡ take (at + result) buf.new
        ++ drop result text.now }
{
    let count = text.len().min(buf.len() - at);
    buf[at..at + count].copy_from_slice(&text[..count]);
    count
}

// Makes lines as they fit into the buffer, and gives how many bytes.
fn fill(lines: &mut Lines, buf: &mut [u8]) -> usize
    requires is { IsLines lines.old }
    ensures is { IsLines lines.new }
    ensures fits { result ≤ length buf.new }
    ensures bytes { rest_of lines.old ≡ take result buf.new ++ rest_of lines.new }
    ensures none { result ≡ 0 → 0 < length buf.old → rest_of lines.old ≡ [] }
{
    let mut at = 0;
    while at < buf.len() && make_ready(lines) {
        let count = copy_some(&lines.line.as_slice()[lines.at..], buf, at);
        lines.at += count;
        at += count;
    }
    at
}

impl StormSource {
    /// A source of the generated input of n lines. Its memory does not grow with n.
    pub fn new(alloc: Global, n: u32) -> Result<StormSource, AllocError>
        requires { n ≤ MAX_STORM_LINES }
        ensures { IfOk result (λ s. s ≡ record { left = text_of_storm n; ends = 0 }) }
    {
        Ok(StormSource {
            opening: opening(alloc)?,
            at: 0,
            lines: Lines {
                line: ArrayVec::new(),
                at: 0,
                left: u64::from(n),
                number: 1,
                seed: u64::from(n),
            },
            ends: 0,
        })
    }
}

impl Source for StormSource {
    ghost state = { λ s. record { left = Some s.left; faults = 0; ends = s.ends } };

    fn read(&mut self, buf: &mut [u8]) -> Result<usize, Failed> {
        if self.at < self.opening.len() {
            let count = copy_some(&self.opening[self.at..], buf, 0);
            self.at += count;
            return Ok(count);
        }
        let count = fill(&mut self.lines, buf);
        if count == 0 {
            self.ends = self.ends.saturating_add(1);
        }
        Ok(count)
    }
}
