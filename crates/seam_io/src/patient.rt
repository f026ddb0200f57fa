// A reader and a writer of std that are asked again.
ghost use Rattle.std.specs.Prelude.{◌≡◌, ◌↔◌, ◌⊎◌, IfErr, IsTrue};
ghost use Rattle.std.specs.Io.{ReadsAtMost, WritesAtMost};
ghost use Rattle.std.specs.Io.KnownBytes.{ReadConsumes, WriteAppends};
ghost use Rattle.std.specs.IoError.{error_kind};
ghost use Rattle.seam_io.specs.Patience.{IsPassing};

use std::io;
use std::io::{Error, ErrorKind, Read, Write};
use std::time::{Clock, Duration};

/// A reader or a writer of std that is asked again: at once where a signal interrupted it, and after a millisecond where it would block.
///
/// So a stream that somebody else set not to block serves as one that blocks, and an interrupted call is no fault.
#[derive(Drop)]
pub struct Patient<'a, I, C> {
    inner: I,
    clock: &'a C,
}

impl<'a, I, C: Clock> Patient<'a, I, C> {
    /// The stream, asked again where it has to be.
    pub fn new(inner: I, clock: &'a C) -> Self
        ensures { result.inner ≡ inner }
    {
        Patient { inner, clock }
    }
}

// Whether a call that failed so is to be made again.
fn is_passing(error: &Error) -> bool
    ensures { IsTrue result ↔ IsPassing (error_kind error.now) }
{
    let kind = error.kind();
    kind == ErrorKind::Interrupted || kind == ErrorKind::WouldBlock
}

// Lets a stream that would block have a millisecond.
fn pause<C: Clock>(clock: &C, error: &Error) {
    if error.kind() == ErrorKind::WouldBlock {
        clock.sleep(Duration::from_millis(1));
    }
}

fn read_again<R: Read, C: Clock>(reader: &mut R, clock: &C, buf: &mut [u8]) -> io::Result<usize>
    ensures bound { ReadsAtMost result buf.new }
    ensures bytes { ReadConsumes (R.remaining reader.old) (R.remaining reader.new) result buf.new }
    ensures again { IfErr result (λ e. ¬ (IsPassing (error_kind e))) }
{
    for _try in 0..u64::MAX {
        match reader.read(buf) {
            Ok(count) => return Ok(count),
            Err(error) => {
                if !is_passing(&error) {
                    return Err(error);
                }
                pause(clock, &error);
            }
        }
    }
    Err(ErrorKind::TimedOut.into())
}

fn write_again<W: Write, C: Clock>(writer: &mut W, clock: &C, piece: &[u8]) -> io::Result<usize>
    ensures bound { WritesAtMost result piece.now }
    ensures bytes { WriteAppends (W.contents writer.old) (W.contents writer.new) result piece.now }
    ensures again { IfErr result (λ e. ¬ (IsPassing (error_kind e))) }
{
    for _try in 0..u64::MAX {
        match writer.write(piece) {
            Ok(count) => return Ok(count),
            Err(error) => {
                if !is_passing(&error) {
                    return Err(error);
                }
                pause(clock, &error);
            }
        }
    }
    Err(ErrorKind::TimedOut.into())
}

impl<I: Read, C: Clock> Read for Patient<'_, I, C> {
    ghost remaining = { λ p. I.remaining p.inner };

    /// An error is neither that of an interrupted call nor that of one that would block.
    fn read(&mut self, buf: &mut [u8]) -> io::Result<usize>
        ensures bound { ReadsAtMost result buf.new }
        ensures bytes { ReadConsumes (I.remaining self.old.inner) (I.remaining self.new.inner)
            result buf.new }
        ensures again { IfErr result (λ e. ¬ (IsPassing (error_kind e))) }
    {
        read_again(&mut self.inner, self.clock, buf)
    }
}

impl<I: Write, C: Clock> Write for Patient<'_, I, C> {
    ghost contents = { λ p. I.contents p.inner };

    /// An error is neither that of an interrupted call nor that of one that would block.
    fn write(&mut self, buf: &[u8]) -> io::Result<usize>
        ensures bound { WritesAtMost result buf.now }
        ensures bytes { WriteAppends (I.contents self.old.inner) (I.contents self.new.inner) result
            buf.now }
        ensures again { IfErr result (λ e. ¬ (IsPassing (error_kind e))) }
    {
        write_again(&mut self.inner, self.clock, buf)
    }

    fn flush(&mut self) -> io::Result<()> {
        self.inner.flush()
    }
}
