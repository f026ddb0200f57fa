// A sink of bytes, the adapter over a writer of std, and the writing of a whole text.
ghost use Rattle.std.specs.Prelude.{◌≡◌, ◌<◌, ◌≤◌, length, take, IfOk, IfErr, OnOk};
ghost use Rattle.std.specs.Io.KnownBytes.{WriteAppends, Appends};
ghost use Rattle.seam_io.specs.Causes.{HasCause};
ghost use Rattle.seam_io.specs.States.{SinkState};

use crate::Failed;
use std::io::Write;
use std::marker::Model;
use thiserror::Error;

/// Where bytes go.
///
/// A sink counts its faults: the count never falls, and is 0 in a new sink. The objects of this crate keep it in a
/// `u64`, whose last value stays.
pub trait Sink {
    /// The bytes that were written, where the sink tells them, and how often a write has failed.
    ghost state: { Self → SinkState };

    /// Appends a prefix of `piece`, at least one byte, and answers how many bytes that were.
    ///
    /// `Failed` appends nothing, and comes only where the count of faults rose.
    fn write(&mut self, piece: &[u8]) -> Result<usize, Failed>
        requires { 0 < length piece.now }
        ensures bound { IfOk result (λ n. (0 < n) × (n ≤ length piece.now)) }
        ensures bytes { WriteAppends (state self.old).written (state self.new).written result
            piece.now }
        ensures cause { HasCause (state self.old).faults (state self.new).faults result };
}

/// A sink over a writer of std, which is trusted to write.
///
/// It tells the bytes that the writer tells: a stream of the system tells none.
#[derive(Drop)]
pub struct RealSink<W> {
    inner: W,
    faults: u64,
}

impl<W> Model for RealSink<W> {
    ghost use Rattle.seam_io.specs.RealSink.{CountedWriter, writer_code};

    ghost Value = { CountedWriter W };

    ghost coded = { writer_code W.code };

    ghost view = { λ s. record { inner = s.inner; faults = s.faults } };
}

impl<W: Write> RealSink<W> {
    /// A sink over `inner` that has answered nothing yet.
    pub fn new(inner: W) -> Self
        ensures { result ≡ record { inner = inner; faults = 0 } }
    {
        RealSink { inner, faults: 0 }
    }
}

impl<W: Write> Sink for RealSink<W> {
    ghost state = { λ s. record { written = W.contents s.inner; faults = s.faults } };

    // An error of the writer is a fault, and so is a count that is 0 or greater than the piece.
    fn write(&mut self, piece: &[u8]) -> Result<usize, Failed> {
        match self.inner.write(piece) {
            Ok(count) if 0 < count && count <= piece.len() => Ok(count),
            _ => {
                self.faults = self.faults.saturating_add(1);
                Err(Failed)
            }
        }
    }
}

/// A sink that failed in the middle of a whole write.
#[derive(Clone, Copy, Debug, PartialEq, Eq, Error)]
#[error("the sink failed after {wrote} bytes")]
pub struct WriteFault {
    /// How many bytes went out before the fault.
    pub wrote: usize,
}

/// Writes all of `bytes`, or as many as went out before the sink failed.
///
/// `WriteFault` comes only where the sink's count of faults rose in this call.
pub fn write_whole<K: Sink>(sink: &mut K, bytes: &[u8]) -> Result<(), WriteFault>
    ensures ok { OnOk result (Appends (K.state sink.old).written (K.state sink.new).written
        bytes.now) }
    ensures err { IfErr result (λ e. (e.wrote < length bytes.now)
        × Appends (K.state sink.old).written (K.state sink.new).written (take e.wrote bytes.now)) }
    ensures cause { HasCause (K.state sink.old).faults (K.state sink.new).faults result }
{
    let mut wrote = 0;
    while wrote < bytes.len() {
        match sink.write(&bytes[wrote..]) {
            Ok(count) => wrote += count,
            Err(Failed) => return Err(WriteFault { wrote }),
        }
    }
    Ok(())
}
