// Text that was printed and is not written yet.
ghost use Rattle.std.specs.Prelude.{◌≡◌, ◌≤◌, ◌+◌, ◌++◌, [], List, ℕ, length, IfOk, OnOk, MatchResult};
ghost use Rattle.seam_io.specs.States.{SinkState};
ghost use Rattle.seam_world_ends.specs.Printing.{Printed, FailedWithin};

use seam_io::{Failed, Sink, write_whole};
use std::alloc::{AllocError, Global};
use std::marker::Model;

/// The most bytes that are gathered before they are written.
pub const MOST_PENDING: usize = 65_536;

/// Text on its way to a sink. Short pieces are gathered, so that many of them make one write.
#[derive(Drop)]
pub struct Pending {
    text: Vec<u8>,
}

impl Model for Pending {
    ghost use Rattle.std.specs.Prelude.{◌≤◌, List, ℕ, vec_len, vec_capacity};
    ghost use Rattle.seam_world_ends.specs.declared.pending.TheConstants.{MOST_PENDING};

    ghost Value = { List ℕ };

    ghost view = { λ s. s.text.items };

    ghost invariant = { λ s. (vec_len s.text ≤ MOST_PENDING) × (MOST_PENDING ≤ vec_capacity s.text) };
}

impl Pending {
    /// No text yet, and room for all that may be gathered.
    pub fn new(alloc: Global) -> Result<Self, AllocError>
        ensures { IfOk result (λ p. p ≡ []) }
    {
        Ok(Pending {
            text: Vec::with_capacity(alloc, MOST_PENDING)?,
        })
    }

    /// Adds a piece of text. If there is no room for it beside what was gathered, that is written first. A piece for which there is no room
    /// by itself is written at once.
    #[inline]
    pub fn push<K: Sink>(&mut self, piece: &[u8], out: &mut K) -> Result<(), Failed>
        ensures prints { (sink : SinkState) (text : List ℕ) →
            Printed sink (K.state out.old) self.old text →
            MatchResult result (λ _. Printed sink (K.state out.new) self.new (text ++ piece.now))
            (λ _. FailedWithin sink (K.state out.new) (text ++ piece.now)) }
        ensures later { (K.state out.old).faults ≤ (K.state out.new).faults }
    {
        // Most lines print nothing.
        if piece.is_empty() {
            return Ok(());
        }
        self.push_some(piece, out)
    }

    // Out of line, so that an empty piece costs no more than its test.
    #[inline(never)]
    fn push_some<K: Sink>(&mut self, piece: &[u8], out: &mut K) -> Result<(), Failed>
        ensures prints { (sink : SinkState) (text : List ℕ) →
            Printed sink (K.state out.old) self.old text →
            MatchResult result (λ _. Printed sink (K.state out.new) self.new (text ++ piece.now))
            (λ _. FailedWithin sink (K.state out.new) (text ++ piece.now)) }
        ensures later { (K.state out.old).faults ≤ (K.state out.new).faults }
    {
        if piece.len() <= MOST_PENDING - self.text.len() {
            self.gather(piece);
            return Ok(());
        }
        match self.write(out) {
            Ok(()) => self.push_alone(piece, out),
            Err(Failed) => Err(Failed),
        }
    }

    // Adds a piece to no text.
    fn push_alone<K: Sink>(&mut self, piece: &[u8], out: &mut K) -> Result<(), Failed>
        requires { self.old ≡ [] }
        ensures prints { (sink : SinkState) (text : List ℕ) →
            Printed sink (K.state out.old) [] text → MatchResult result
            (λ _. Printed sink (K.state out.new) self.new (text ++ piece.now))
            (λ _. FailedWithin sink (K.state out.new) (text ++ piece.now)) }
        ensures later { (K.state out.old).faults ≤ (K.state out.new).faults }
    {
        if piece.len() <= MOST_PENDING {
            self.gather(piece);
            return Ok(());
        }
        match write_whole(out, piece) {
            Ok(()) => Ok(()),
            Err(_) => Err(Failed),
        }
    }

    // Adds a piece that has room.
    fn gather(&mut self, piece: &[u8])
        requires { length self.old + length piece.now ≤ MOST_PENDING }
        ensures { self.new ≡ self.old ++ piece.now }
    {
        self.text.extend_from_slice(piece).unwrap();
    }

    /// Writes what was gathered.
    pub fn write<K: Sink>(&mut self, out: &mut K) -> Result<(), Failed>
        ensures prints { (sink : SinkState) (text : List ℕ) →
            Printed sink (K.state out.old) self.old text →
            MatchResult result (λ _. Printed sink (K.state out.new) [] text)
            (λ _. FailedWithin sink (K.state out.new) text) }
        ensures none { OnOk result (self.new ≡ []) }
        ensures later { (K.state out.old).faults ≤ (K.state out.new).faults }
    {
        match write_whole(out, &self.text) {
            Ok(()) => {
                self.text.clear();
                Ok(())
            }
            Err(_) => Err(Failed),
        }
    }
}
