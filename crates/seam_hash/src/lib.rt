// SPDX-License-Identifier: MIT

//! The key of the hash by which tables find numbers.
//!
//! It stands below the tables, in a crate of its own: definitions carry a key and have no table.
#![tactic(auto)]

use std::fmt::{Debug, Formatter, Result, Write};
use std::hash::{BuildHasher, FoldHasher, Hasher};

/// Hashes in two rounds, each of which begins with a state of its own.
///
/// One round multiplies once. With that alone, numbers in a row or with equal low halves lie together under some keys.
#[derive(Clone, Copy)]
pub struct TwoRounds<H> {
    first: H,
    second: H,
}

impl<H: Hasher + Copy> Hasher for TwoRounds<H> {
    ghost use Rattle.std.specs.Hash as fed;
    ghost use Rattle.std.specs.List.{fold};

    ghost write = { λ s bytes. record s { first = H.write s.first bytes } };

    ghost finish = { λ s. H.finish (fold H.write s.second (fed.u64 (H.finish s.first))) };

    #[inline(always)]
    fn finish(&self) -> u64 {
        let mut second = self.second;
        second.write_u64(self.first.finish());
        second.finish()
    }

    #[inline(always)]
    fn write(&mut self, bytes: &[u8]) {
        self.first.write(bytes);
    }
}

/// The key of the hash by which a table finds its numbers.
///
/// The states with which the hash of a number begins come from the key. So whoever chooses the numbers, and does not know the key, cannot
/// choose such as collide (Carter, Wegman 1979: a hash is drawn at random from many). Nothing that a table answers depends on the key, nor
/// does the order of its entries.
#[derive(Clone, Copy)]
pub struct HashKey {
    initial: TwoRounds<FoldHasher>,
}

impl HashKey {
    /// The key of these bits, which are to be drawn at random.
    pub fn new(bits: u64) -> HashKey {
        let mut first = FoldHasher::default();
        first.write_u64(bits);
        let mut second = first;
        second.write_u64(bits);
        HashKey {
            initial: TwoRounds { first, second },
        }
    }
}

impl BuildHasher for HashKey {
    type Hasher = TwoRounds<FoldHasher>;

    ghost build_hasher = { λ k. k.initial };

    #[inline(always)]
    fn build_hasher(&self) -> TwoRounds<FoldHasher> {
        self.initial
    }
}

// A key is told to nobody.
impl Debug for HashKey {
    fn fmt<W: Write>(&self, f: &mut Formatter<W>) -> Result {
        f.debug_struct("HashKey").finish_non_exhaustive()
    }
}
