// A source and a sink over memory, which cut and fail where they are told to.
ghost use Rattle.std.specs.Prelude.{◌≡◌, ◌<◌, ◌≤◌, ◌↔◌, ◌⊎◌, ℕ, Some, [], Contains, IfOk, IsErr, length};
ghost use Rattle.std.specs.Io.{ReadsAtMost};
ghost use Rattle.std.specs.Io.KnownBytes.{ReadConsumes, WriteAppends};
ghost use Rattle.seam_io.specs.Causes.{HasCause, CountsEnds, next_count};
ghost use Rattle.seam_io.specs.MemSource.{cut_of, share};
ghost use Rattle.seam_io.specs.MemSink.{fitting};

use crate::{Failed, Sink, Source};
use std::alloc::{AllocError, Global};
use std::marker::Model;

/// A source of bytes that lie in memory, which it tells.
#[derive(Drop)]
pub struct MemSource {
    bytes: Vec<u8>,
    cuts: Vec<u32>,
    fails: Vec<u64>,
    at: usize,
    reads: u64,
    faults: u64,
    ends: u64,
}

impl Model for MemSource {
    ghost use Rattle.std.specs.Prelude.{◌≤◌, drop, vec_len};
    ghost use Rattle.seam_io.specs.MemSource.{Supply};

    ghost Value = { Supply };

    ghost view = { λ s. record {
      left = drop s.at s.bytes.items;
      cuts = s.cuts.items;
      fails = s.fails.items;
      reads = s.reads;
      faults = s.faults;
      ends = s.ends;
    } };

    ghost invariant = { λ s. s.at ≤ vec_len s.bytes };
}

impl MemSource {
    /// A source that gives `bytes`.
    ///
    /// Its k-th read gives at most `cuts[k - 1]` bytes, where a cut of 0 counts as 1, and without such an entry as many
    /// as fit. The reads whose numbers are in `fails`, counted from 1, fail.
    pub fn new(bytes: Vec<u8>, cuts: Vec<u32>, fails: Vec<u64>) -> Self
        ensures { result ≡ record {
          left = bytes.items;
          cuts = cuts.items;
          fails = fails.items;
          reads = 0;
          faults = 0;
          ends = 0;
        } }
    {
        MemSource {
            bytes,
            cuts,
            fails,
            at: 0,
            reads: 0,
            faults: 0,
            ends: 0,
        }
    }
}

// At most how many bytes a read gives into so much room, after so many reads.
fn cut_at(cuts: &[u32], reads: u64, room: usize) -> usize
    requires { 0 < room }
    ensures cut { result ≡ cut_of cuts.now reads room }
    ensures some { 0 < result }
{
    match usize::try_from(reads) {
        Ok(place) => match cuts.get(place) {
            Some(cut) => (*cut).max(1) as usize,
            None => room,
        },
        Err(_) => room,
    }
}

impl Source for MemSource {
    ghost state = { λ s. record { left = Some s.left; faults = s.faults; ends = s.ends } };

    fn read(&mut self, buf: &mut [u8]) -> Result<usize, Failed>
        requires { 0 < length buf.old }
        ensures bound { ReadsAtMost result buf.new }
        ensures bytes { ReadConsumes (Some self.old.left) (Some self.new.left) result buf.new }
        ensures end { CountsEnds self.old.ends self.new.ends result }
        ensures cause { HasCause self.old.faults self.new.faults result }
        ensures number { self.new.reads ≡ next_count self.old.reads }
        ensures fails { IsErr result ↔ Contains self.old.fails self.new.reads }
        ensures count { IfOk result (λ n. n ≡ share self.old (length buf.old)) }
        ensures kept { (self.new.cuts ≡ self.old.cuts) × (self.new.fails ≡ self.old.fails) }
    {
        let cut = cut_at(&self.cuts, self.reads, buf.len());
        self.reads = self.reads.saturating_add(1);
        if self.fails.contains(&self.reads) {
            self.faults = self.faults.saturating_add(1);
            return Err(Failed);
        }
        let count = cut.min(buf.len()).min(self.bytes.len() - self.at);
        if count == 0 {
            self.ends = self.ends.saturating_add(1);
            return Ok(0);
        }
        buf[..count].copy_from_slice(&self.bytes[self.at..self.at + count]);
        self.at += count;
        Ok(count)
    }
}

/// A sink into memory, which tells the bytes that it took.
#[derive(Drop)]
pub struct MemSink {
    bytes: Vec<u8>,
    limit: usize,
    fails: Vec<u64>,
    writes: u64,
    faults: u64,
}

impl Model for MemSink {
    ghost use Rattle.std.specs.Prelude.{◌≤◌, vec_len, vec_capacity};
    ghost use Rattle.seam_io.specs.MemSink.{Tray};

    ghost Value = { Tray };

    ghost view = { λ s. record {
      bytes = s.bytes.items;
      limit = s.limit;
      fails = s.fails.items;
      writes = s.writes;
      faults = s.faults;
    } };

    ghost invariant = { λ s. (vec_len s.bytes ≤ s.limit) × (s.limit ≤ vec_capacity s.bytes) };
}

impl MemSink {
    /// A sink with room for `limit` bytes, which is taken here.
    ///
    /// A write takes what still fits. It fails where nothing fits, or where its number, counted from 1, is in
    /// `fails`. The error is want of memory.
    pub fn new(alloc: Global, limit: u32, fails: Vec<u64>) -> Result<Self, AllocError>
        ensures { IfOk result (λ s. s ≡ record {
          bytes = [];
          limit = limit;
          fails = fails.items;
          writes = 0;
          faults = 0;
        }) }
    {
        let limit = limit as usize;
        Ok(MemSink {
            bytes: Vec::with_capacity(alloc, limit)?,
            limit,
            fails,
            writes: 0,
            faults: 0,
        })
    }

    /// The bytes that were written.
    pub fn bytes(&self) -> &[u8]
        ensures { result.now ≡ self.now.bytes }
    {
        &self.bytes
    }
}

impl Sink for MemSink {
    ghost state = { λ s. record { written = Some s.bytes; faults = s.faults } };

    fn write(&mut self, piece: &[u8]) -> Result<usize, Failed>
        requires { 0 < length piece.now }
        ensures bound { IfOk result (λ n. (0 < n) × (n ≤ length piece.now)) }
        ensures bytes { WriteAppends (Some self.old.bytes) (Some self.new.bytes) result piece.now }
        ensures cause { HasCause self.old.faults self.new.faults result }
        ensures number { self.new.writes ≡ next_count self.old.writes }
        ensures fails { IsErr result ↔ ((self.old.limit ≡ length self.old.bytes) ⊎
            Contains self.old.fails self.new.writes) }
        ensures count { IfOk result (λ n. n ≡ fitting self.old (length piece.now)) }
        ensures kept { (self.new.limit ≡ self.old.limit) × (self.new.fails ≡ self.old.fails) }
    {
        self.writes = self.writes.saturating_add(1);
        let count = piece.len().min(self.limit - self.bytes.len());
        if count == 0 || self.fails.contains(&self.writes) {
            self.faults = self.faults.saturating_add(1);
            return Err(Failed);
        }
        self.bytes.extend_from_slice(&piece[..count]).unwrap();
        Ok(count)
    }
}
