// The streams of a person: what was read first, what is said at a terminal, and whether the reader of the output is still there.
use crate::commands::COMMANDS_TEXT;
use seam_toml::MOST_HEADER_BYTES;
use std::alloc::Global;
use std::io;
use std::io::{Eprint, ErrorKind, Read, Write};

// The most bytes that are kept: those of the longest header, if each of its lines had a carriage return, and of the line that ends it.
const MOST_KEPT: usize = 2 * MOST_HEADER_BYTES + 4;

const GREETING: &str =
    "seamless: type a header or %%, then commands (help lists them); end with control-D";

/// A reader that keeps the first bytes which it read. Where a person types them it says what is expected, and answers the line `help` with
/// the commands, on standard error.
#[derive(Drop)]
pub struct Listener<'a, E, R> {
    rt: &'a E,
    inner: R,
    kept: Vec<u8>,
    // whether a person types
    talks: bool,
    greeted: bool,
}

impl<'a, E: Eprint, R: Read> Listener<'a, E, R> {
    /// A reader over `inner` of which nothing was read yet. A person is spoken to if `talks`.
    pub fn new(rt: &'a E, alloc: Global, inner: R, talks: bool) -> Self {
        Listener {
            rt,
            inner,
            kept: Vec::new(alloc),
            talks,
            greeted: false,
        }
    }

    /// The first bytes that were read: all of a header that is not too long, and of the line that ends it.
    pub fn kept(&self) -> &[u8] {
        &self.kept
    }

    // Says what is expected, once.
    fn greet(&mut self) {
        if self.talks && !self.greeted {
            self.greeted = true;
            let _ = self.rt.eprintln(GREETING);
        }
    }

    // Keeps the first bytes, and answers a person. Where no memory is left for them, fewer are kept.
    fn hear(&mut self, piece: &[u8]) {
        if self.talks && piece.trim_ascii() == b"help".as_slice() {
            let _ = self.rt.eprint(COMMANDS_TEXT);
        }
        let room = MOST_KEPT.saturating_sub(self.kept.len()).min(piece.len());
        let _ = self.kept.extend_from_slice(&piece[..room]);
    }
}

impl<E: Eprint, R: Read> Read for Listener<'_, E, R> {
    fn read(&mut self, buf: &mut [u8]) -> io::Result<usize> {
        self.greet();
        let count = self.inner.read(buf)?;
        if count <= buf.len() {
            self.hear(&buf[..count]);
        }
        Ok(count)
    }
}

/// A writer that notes whether a write failed since nobody reads any more.
#[derive(Drop)]
pub struct Speaker<W> {
    inner: W,
    is_left: bool,
}

impl<W: Write> Speaker<W> {
    /// A writer over `inner` to which nothing was written yet.
    pub fn new(inner: W) -> Self {
        Speaker {
            inner,
            is_left: false,
        }
    }

    /// Whether a write failed since the reader has gone away.
    pub fn is_left(&self) -> bool {
        self.is_left
    }
}

impl<W: Write> Write for Speaker<W> {
    fn write(&mut self, buf: &[u8]) -> io::Result<usize> {
        match self.inner.write(buf) {
            Ok(count) => Ok(count),
            Err(error) => {
                self.is_left = error.kind() == ErrorKind::BrokenPipe;
                Err(error)
            }
        }
    }

    fn flush(&mut self) -> io::Result<()> {
        self.inner.flush()
    }
}
