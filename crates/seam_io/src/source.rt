// A source of bytes, and the adapter over a reader of std.
ghost use Rattle.std.specs.Prelude.{◌≡◌, ◌<◌, length};
ghost use Rattle.std.specs.Io.{ReadsAtMost};
ghost use Rattle.std.specs.Io.KnownBytes.{ReadConsumes};
ghost use Rattle.seam_io.specs.Causes.{HasCause, CountsEnds};
ghost use Rattle.seam_io.specs.States.{SourceState};

use std::io::Read;
use std::marker::Model;
use thiserror::Error;

/// A call of a source or of a sink that could not be done.
#[derive(Clone, Copy, Debug, PartialEq, Eq, Error)]
#[error("the stream failed")]
pub struct Failed;

/// Where bytes come from.
///
/// A source counts its faults and how often it said that it is at its end. Neither count falls, and both are 0 in a
/// new source. The objects of this crate keep them in a `u64`, whose last value stays.
pub trait Source {
    /// The bytes that are left to read, where the source tells them, and how often a read has failed and has found the end.
    ghost state: { Self → SourceState };

    /// Takes the next bytes, at least one and at most as many as `buf` has room for, to the start of `buf`.
    ///
    /// `Ok(0)` is the end of the input: no byte is left, and the count of ends rose. `Failed` takes nothing, and comes
    /// only where the count of faults rose.
    fn read(&mut self, buf: &mut [u8]) -> Result<usize, Failed>
        requires { 0 < length buf.old }
        ensures bound { ReadsAtMost result buf.new }
        ensures bytes { ReadConsumes (state self.old).left (state self.new).left result buf.new }
        ensures end { CountsEnds (state self.old).ends (state self.new).ends result }
        ensures cause { HasCause (state self.old).faults (state self.new).faults result };
}

/// A source over a reader of std, which is trusted to read.
///
/// It tells the bytes that the reader tells: a stream of the system tells none.
#[derive(Drop)]
pub struct RealSource<R> {
    inner: R,
    faults: u64,
    ends: u64,
}

impl<R> Model for RealSource<R> {
    ghost use Rattle.seam_io.specs.RealSource.{CountedReader, reader_code};

    ghost Value = { CountedReader R };

    ghost coded = { reader_code R.code };

    ghost view = { λ s. record { inner = s.inner; faults = s.faults; ends = s.ends } };
}

impl<R: Read> RealSource<R> {
    /// A source over `inner` that has answered nothing yet.
    pub fn new(inner: R) -> Self
        ensures { result ≡ record { inner = inner; faults = 0; ends = 0 } }
    {
        RealSource {
            inner,
            faults: 0,
            ends: 0,
        }
    }
}

impl<R: Read> Source for RealSource<R> {
    ghost state = { λ s. record { left = R.remaining s.inner; faults = s.faults; ends = s.ends } };

    // An error of the reader is a fault, and so is a count that is greater than the room.
    fn read(&mut self, buf: &mut [u8]) -> Result<usize, Failed> {
        let room = buf.len();
        match self.inner.read(buf) {
            Ok(0) => {
                self.ends = self.ends.saturating_add(1);
                Ok(0)
            }
            Ok(count) if count <= room => Ok(count),
            _ => {
                self.faults = self.faults.saturating_add(1);
                Err(Failed)
            }
        }
    }
}
