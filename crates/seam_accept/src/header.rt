// The lines of a header, up to the one that ends it.
ghost use Rattle.std.specs.Prelude.{◌≡◌, ◌≢◌, ◌≤◌, ◌+◌, ◌++◌, ◌∷◌, [], ℕ, List, Some, length, IfOk, IfErr, OnOk, MatchBool, MatchOption};
ghost use Rattle.seam_io.specs.Lines.{Line, Content};
ghost use Rattle.seam_toml.specs.Header.{Reads, Refuses, number_of};
ghost use Rattle.seam_rule_lines.specs.Header.{AreHeaderLines, BeginWithHeader, RefusesHeader, separator};

use seam_io::LONGEST_LINE;
use seam_toml::{Header, HeaderError, MOST_HEADER_BYTES, read_header};
use std::alloc::{AllocError, Global};
use std::marker::Model;

/// The lines that come before a header's end, as the text that they make. Contracts see the text.
#[derive(Drop)]
pub struct HeaderLines {
    alloc: Global,
    text: Vec<u8>,
}

impl Model for HeaderLines {
    ghost use Rattle.std.specs.Prelude.{List, ℕ};

    ghost Value = { List ℕ };

    ghost view = { λ h. h.text.items };
}

impl HeaderLines {
    /// No line yet.
    pub fn new(alloc: Global) -> Self
        ensures { result ≡ [] }
    {
        HeaderLines {
            alloc,
            text: Vec::new(alloc),
        }
    }

    /// Takes the content of the next line: the header where it is `%%`, which ends it, and None where the header goes on.
    ///
    /// It is refused where the lines have more bytes with it than a header may have, or where it is the end and the text before
    /// it is no header.
    pub fn read_line(&mut self, line: &[u8]) -> Result<Option<Header>, HeaderError>
        requires { length line.now ≤ LONGEST_LINE }
        ensures reads { IfOk result (λ read. (lines : List Line) → AreHeaderLines lines self.old →
            MatchOption read (AreHeaderLines (lines ++ Content line.now ∷ []) self.new)
            (λ h. BeginWithHeader (lines ++ Content line.now ∷ []) h (length lines + 1) [])) }
        ensures refused { IfErr result (λ error. (lines : List Line) (k : ℕ) →
            AreHeaderLines lines self.old → number_of error ≡ Some k →
            RefusesHeader lines (Content line.now) k) }
    {
        if is_separator(line) {
            return self.end();
        }
        if MOST_HEADER_BYTES <= self.text.len() + line.len() {
            return Err(HeaderError::TooLong);
        }
        match self.push(line) {
            Ok(()) => Ok(None),
            Err(_) => Err(HeaderError::NoMemory),
        }
    }

    // The header that the text stands for.
    fn end(&self) -> Result<Option<Header>, HeaderError>
        ensures header { IfOk result (λ read. MatchOption read ⊥ (Reads self.now)) }
        ensures refused { IfErr result (Refuses self.now) }
    {
        match read_header(self.alloc, &self.text) {
            Ok(header) => Ok(Some(header)),
            Err(error) => Err(error),
        }
    }

    // Appends a line to the text.
    fn push(&mut self, line: &[u8]) -> Result<(), AllocError>
        ensures { OnOk result (self.new ≡ self.old ++ line.now ++ 10 ∷ []) }
    {
        self.text.extend_from_slice(line)?;
        self.text.push(b'\n')?;
        Ok(())
    }
}

// Whether a line of this content ends the header: it is `%%`.
fn is_separator(line: &[u8]) -> bool
    ensures { MatchBool result (Content line.now ≡ separator) (Content line.now ≢ separator) }
{
    matches!(line, b"%%")
}
