// The document that a header's text is.
ghost use Rattle.std.specs.Prelude.{IfOk, IfErr};
ghost use Rattle.toml.specs.View.{table_view};
ghost use Rattle.seam_toml.specs.Documents.{IsDocument, IsShort, Refuses};

use std::alloc::Global;
use toml::Table;

/// The most bytes of a header's text.
pub const MOST_HEADER_BYTES: usize = 65_536;

/// Why a text is no document.
#[derive(Clone, Copy, Debug, PartialEq, Eq)]
pub enum DocumentError {
    /// It has more than 65,536 bytes.
    TooLong,
    /// It is not UTF-8, or no TOML.
    NotToml,
    /// Allocation failed.
    NoMemory,
}

/// The top table of the TOML document that a header's text is (TOML 1.1). Refuses with `TooLong` a text of more than 65,536 bytes,
/// whatever it says, and with `NotToml` any other that is no document.
pub fn read_document(alloc: Global, text: &[u8]) -> Result<Table, DocumentError>
    ensures short { IfOk result (λ _. IsShort text.now) }
    ensures document { IfOk result (λ table. IsDocument text.now (table_view table)) }
    ensures cause { IfErr result (Refuses text.now) }
{
    if text.len() > MOST_HEADER_BYTES {
        return Err(DocumentError::TooLong);
    }
    match toml::table_from_slice(alloc, text) {
        Ok(table) => Ok(table),
        Err(error) => {
            if error.is_memory() {
                Err(DocumentError::NoMemory)
            } else {
                Err(DocumentError::NotToml)
            }
        }
    }
}
