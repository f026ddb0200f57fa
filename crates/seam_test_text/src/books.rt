// The header of every row, and a book for it.
ghost use Rattle.std.specs.Prelude.{IfOk};
ghost use Rattle.seam_defs.specs.Settings.{AreInRange};

use seam_accept::{Accepted, Book};
use seam_defs::Settings;
use seam_io::LONGEST_LINE;
use seam_rule_lines::Header;
use seam_toml::builtin;
use std::alloc::{AllocError, Global};

// The standard settings and the built-in types, which a test's proof does not compute.
fn standard_header(alloc: Global) -> Result<Header, AllocError>
    ensures { IfOk result (λ h. AreInRange h.settings) }
{
    Ok(Header {
        settings: Settings::standard(),
        defs: builtin(alloc)?,
    })
}

// A book in which nothing was accepted.
pub(crate) fn opened(alloc: Global) -> Result<Book, AllocError> {
    let header = standard_header(alloc)?;
    Book::new(alloc, &header)
}

// Whether the line is kept.
pub(crate) fn keep(book: &mut Book, line: &[u8]) -> bool {
    if line.len() > LONGEST_LINE {
        return false;
    }
    matches!(book.accept(line), Ok(Accepted::Kept))
}
