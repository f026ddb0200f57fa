// Short texts.
ghost use Rattle.std.specs.Prelude.{◌≡◌, [], ◌==◌, ◌↔◌, IsTrue, IfOk, IfErr};
ghost use Rattle.std.specs.Str.{IsUtf8};
ghost use Rattle.std.proofs.Common.{rules};
ghost use Rattle.std.specs.Cmp.Rules.{comparing};
ghost use Rattle.std.specs.Cmp.Lexicographic.{pointwise};
ghost use Rattle.seam_value.specs.Texts.{IsShortText};
ghost use Rattle.seam_value.specs.Causes.{RefusesText};

use crate::ValueError;
use std::alloc::{AllocError, Global};
use std::marker::Model;

/// A text of at most 255 bytes of UTF-8. An empty one takes no heap.
#[derive(Drop, Debug)]
pub struct ShortText {
    bytes: Vec<u8>,
}

impl Model for ShortText {
    ghost use Rattle.std.specs.Prelude.{List, ℕ};
    ghost use Rattle.seam_value.specs.Texts.{IsShortText};

    ghost Value = { List ℕ };

    ghost view = { λ s. s.bytes.items };

    ghost invariant = { λ s. IsShortText s.bytes.items };
}

impl PartialEq for ShortText {
    ghost eq = { pointwise ◌==◌ };

    ghost laws = { Prim.search (comparing, rules) };

    fn eq(&self, other: &ShortText) -> bool {
        self.bytes == other.bytes
    }
}

impl Eq for ShortText {
    ghost laws = { Prim.search (comparing, rules) };
}

impl ShortText {
    /// The longest text, in bytes.
    pub const MAX_LEN: usize = 255;

    /// The empty text.
    pub fn empty(alloc: Global) -> ShortText
        ensures { result ≡ [] }
    {
        ShortText {
            bytes: Vec::new(alloc),
        }
    }

    /// A copy of the bytes. Refuses with `BadString` bytes that are not UTF-8, and with `TooLong` more than 255 of them.
    pub fn new(alloc: Global, bytes: &[u8]) -> Result<ShortText, ValueError>
        ensures ok { IfOk result (λ s. (s ≡ bytes.now) × IsShortText bytes.now) }
        ensures cause { IfErr result (RefusesText bytes.now) }
    {
        if !is_utf8(bytes) {
            return Err(ValueError::BadString);
        }
        if bytes.len() > Self::MAX_LEN {
            return Err(ValueError::TooLong);
        }
        let bytes = bytes.to_vec(alloc)?;
        Ok(ShortText { bytes })
    }

    /// The bytes of the text.
    pub fn bytes(&self) -> &[u8]
        ensures value { result.now ≡ self.now }
        ensures short { IsShortText self.now }
    {
        &self.bytes
    }

    /// An equal text.
    pub fn copy(&self, alloc: Global) -> Result<ShortText, AllocError>
        ensures { IfOk result (λ s. s ≡ self.now) }
    {
        let bytes = self.bytes.as_slice().to_vec(alloc)?;
        Ok(ShortText { bytes })
    }
}

fn is_utf8(bytes: &[u8]) -> bool
    ensures { IsTrue result ↔ IsUtf8 bytes.now }
{
    match std::str::from_utf8(bytes) {
        Ok(_) => true,
        Err(_) => false,
    }
}
