// Names of types, properties and methods.
ghost use Rattle.std.specs.Prelude.{◌≡◌};
ghost use Rattle.std.specs.List.{list_all};
ghost use Rattle.seam_defs.specs.Types.{is_letter, is_name_byte, is_after_letter, is_name as is_name_of};

use crate::LONGEST_NAME;

/// Whether the bytes are a name: a letter `A` to `Z` or `a` to `z`, and then at most 31 letters, digits or `_`.
pub fn is_name(bytes: &[u8]) -> bool
    ensures { result ≡ is_name_of bytes.now }
{
    match bytes {
        [first, rest @ ..] => is_letter(*first) && is_after_letter(rest),
        [] => false,
    }
}

// Whether the bytes may come after a name's first letter.
fn is_after_letter(bytes: &[u8]) -> bool
    ensures { result ≡ is_after_letter bytes.now }
{
    are_name_bytes(bytes) && bytes.len() < LONGEST_NAME
}

fn are_name_bytes(bytes: &[u8]) -> bool
    ensures { result ≡ list_all is_name_byte bytes.now }
{
    bytes.iter().all(|byte| is_name_byte(*byte))
}

fn is_letter(byte: u8) -> bool
    ensures { result ≡ is_letter byte }
{
    (b'A' <= byte && byte <= b'Z') || (b'a' <= byte && byte <= b'z')
}

fn is_name_byte(byte: u8) -> bool
    ensures { result ≡ is_name_byte byte }
{
    is_letter(byte) || (b'0' <= byte && byte <= b'9') || byte == b'_'
}
