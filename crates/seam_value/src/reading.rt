// A value from its spelling.
ghost use Rattle.std.specs.Prelude.{◌≡◌, ◌≢◌, ◌≤◌, ◌<◌, ◌^◌, ◌↔◌, ◌∷◌, [], ◌++◌, ℕ, ℤ, Ok, List, length, IsTrue, IfOk, IfErr, IfSome};
ghost use Rattle.std.specs.Prelude.{MatchOption, MatchResult, ◌+◌, ◌-◌, ◌*◌, true};
ghost use Rattle.seam_value.specs.declared.values.Value.{Value as Values};
ghost use Rattle.std.specs.List.{list_all, flat_map};
ghost use Rattle.std.specs.Str.Parse.{digits_value};
ghost use Rattle.seam_value.specs.Numerals.{is_digit, IsNumeral, SplitsSign, signed};
ghost use Rattle.seam_value.specs.Texts.{spelled_byte, quoted, IsShortText};
ghost use Rattle.seam_value.specs.Values.{Fits, text_of, number_text};
ghost use Rattle.seam_value.specs.Causes.{Refuses};
ghost use Rattle.seam_value.specs.declared.reading.TheConstants.{FEW_DIGITS};

use crate::{ShortText, Value, ValueError, ValueType};
use std::alloc::{AllocError, Global};

// The number of this many digits is below 2^64, whatever they are.
const FEW_DIGITS: usize = 19;

impl Value {
    /// The value of type `t` that the bytes spell, else the first cause why there is none: `NotNumber` or `OutOfRange` at
    /// a number type, `BadString` or `TooLong` at the text type, `NoMemory` only there.
    #[inline]
    pub fn parse(alloc: Global, bytes: &[u8], t: ValueType) -> Result<Value, ValueError>
        ensures value { IfOk result (λ v. Fits v t × (text_of v ≡ bytes.now)) }
        ensures cause { IfErr result (Refuses bytes.now t) }

        // The spelling of a value that fits is read as that value, unless allocation fails.
        ensures spelled { (v : Values) → Fits v t → text_of v ≡ bytes.now →
            MatchResult result (λ read. read ≡ v) (λ e. e ≡ ValueError.NoMemory) }
    {
        match t {
            ValueType::Text => Ok(Value::Text(read_text(alloc, bytes)?)),
            _ => Ok(Value::Number(read_number(bytes, t)?)),
        }
    }
}

/// The number of the number type `t` that the bytes spell, else the first cause why there is none: `NotNumber` or
/// `OutOfRange`. It allocates nothing.
pub fn read_number(bytes: &[u8], t: ValueType) -> Result<i128, ValueError>
    requires { t ≢ ValueType.Text }
    ensures value { IfOk result (λ z. Fits (Value.Number z) t × (number_text z ≡ bytes.now)) }
    ensures cause { IfErr result (Refuses bytes.now t) }
    ensures spelled { (z : ℤ) → Fits (Value.Number z) t → number_text z ≡ bytes.now →
        result ≡ Ok z }
{
    let (is_negative, digits) = split_sign(bytes);
    match numeral(digits) {
        Some(size) if is_negative && size == 0 => Err(ValueError::NotNumber),
        Some(size) => in_range(signed(is_negative, size), t),
        None if is_numeral(digits) => Err(ValueError::OutOfRange),
        None => Err(ValueError::NotNumber),
    }
}

// Whether a minus sign comes first, and what follows it.
fn split_sign(bytes: &[u8]) -> (bool, &[u8])
    ensures { SplitsSign bytes.now result.0 result.1.now }
{
    match bytes {
        [b'-', digits @ ..] => (true, digits),
        _ => (false, bytes),
    }
}

fn is_numeral(digits: &[u8]) -> bool
    ensures { IsTrue result ↔ IsNumeral digits.now }
{
    match digits {
        [] | [b'0', _, ..] => false,
        _ => all_digits(digits),
    }
}

fn all_digits(bytes: &[u8]) -> bool
    ensures { result ≡ list_all is_digit bytes.now }
{
    bytes.iter().all(|b| is_digit(*b))
}

fn is_digit(byte: u8) -> bool
    ensures { result ≡ is_digit byte }
{
    b'0' <= byte && byte <= b'9'
}

// The number of a numeral, where it is below 2^64: its digits are tested and counted in one pass.
pub(crate) fn numeral(digits: &[u8]) -> Option<u64>
    ensures { MatchOption result (IsNumeral digits.now → 2 ^ 64 ≤ digits_value 10 digits.now)
        (λ n. IsNumeral digits.now × (n ≡ digits_value 10 digits.now)) }
{
    match digits {
        [] | [b'0', _, ..] => None,
        _ => number_of_digits(digits),
    }
}

fn number_of_digits(bytes: &[u8]) -> Option<u64>
    ensures { MatchOption result (list_all is_digit bytes.now ≡ true →
        2 ^ 64 ≤ digits_value 10 bytes.now) (λ n. (list_all is_digit bytes.now ≡ true) ×
        (n ≡ digits_value 10 bytes.now)) }
{
    if bytes.len() <= FEW_DIGITS {
        number_of_few_digits(bytes)
    } else {
        number_of_many_digits(bytes)
    }
}

// The number of so few digits that it is below 2^64 whatever they are, and no step has to be tested.
fn number_of_few_digits(bytes: &[u8]) -> Option<u64>
    requires { length bytes.now ≤ FEW_DIGITS }
    ensures { MatchOption result (list_all is_digit bytes.now ≢ true)
        (λ n. (list_all is_digit bytes.now ≡ true) × (n ≡ digits_value 10 bytes.now)) }
{
    let mut number: u64 = 0;
    for byte in bytes {
        if !is_digit(*byte) {
            return None;
        }
        number = number * 10 + u64::from(*byte - b'0');
    }
    Some(number)
}

// Out of line, since few words are so long.
#[inline(never)]
fn number_of_many_digits(bytes: &[u8]) -> Option<u64>
    ensures { MatchOption result (list_all is_digit bytes.now ≡ true →
        2 ^ 64 ≤ digits_value 10 bytes.now) (λ n. (list_all is_digit bytes.now ≡ true) ×
        (n ≡ digits_value 10 bytes.now)) }
{
    let mut number: u64 = 0;
    for byte in bytes {
        number = with_digit(number, *byte)?;
    }
    Some(number)
}

// The number with one digit more at its end, where the byte is one and the number is below 2^64.
fn with_digit(number: u64, byte: u8) -> Option<u64>
    ensures { MatchOption result (is_digit byte ≡ true → 2 ^ 64 ≤ number * 10 + (byte - 48))
        (λ n. (is_digit byte ≡ true) × (n ≡ number * 10 + (byte - 48))) }
{
    if !is_digit(byte) {
        return None;
    }
    number.checked_mul(10)?.checked_add(u64::from(byte - b'0'))
}

fn signed(is_negative: bool, size: u64) -> i128
    ensures { result ≡ signed is_negative size }
{
    if is_negative {
        -i128::from(size)
    } else {
        i128::from(size)
    }
}

fn in_range(number: i128, t: ValueType) -> Result<i128, ValueError>
    ensures value { IfOk result (λ z. Fits (Value.Number z) t × (z ≡ number)) }
    ensures cause { IfErr result (λ e. (e ≡ ValueError.OutOfRange) ×
        ¬ (Fits (Value.Number number) t)) }
{
    if Value::Number(number).fits(t) {
        Ok(number)
    } else {
        Err(ValueError::OutOfRange)
    }
}

// The text that the bytes spell in quotes. Out of line, so that the reading of a number is short enough to be in place.
#[inline(never)]
fn read_text(alloc: Global, bytes: &[u8]) -> Result<ShortText, ValueError>
    ensures value { IfOk result (λ s. IsShortText s × (quoted s ≡ bytes.now)) }
    ensures cause { IfErr result (Refuses bytes.now ValueType.Text) }
{
    match between_quotes(bytes) {
        Some(spelled) => match content_of(alloc, spelled)? {
            Some(content) => ShortText::new(alloc, &content),
            None => Err(ValueError::BadString),
        },
        None => Err(ValueError::BadString),
    }
}

fn between_quotes(bytes: &[u8]) -> Option<&[u8]>
    ensures { MatchOption result ((inner : List ℕ) → bytes.now ≢ 34 ∷ inner ++ 34 ∷ [])
        (λ inner. bytes.now ≡ 34 ∷ inner.now ++ 34 ∷ []) }
{
    match bytes {
        [b'"', inner @ .., b'"'] => Some(inner),
        _ => None,
    }
}

// The content whose bytes are spelled so, if there is one.
fn content_of(alloc: Global, spelled: &[u8]) -> Result<Option<Vec<u8>>, AllocError>
    ensures { IfOk result (λ found. MatchOption found
        ((content : List ℕ) → flat_map spelled_byte content ≢ spelled.now)
        (λ content. flat_map spelled_byte content.items ≡ spelled.now)) }
{
    let mut content = Vec::new(alloc);
    let mut rest = spelled;
    while !rest.is_empty() {
        match first_byte(rest) {
            Some((b, after)) => {
                content.push(b)?;
                rest = after;
            }
            None => return Ok(None),
        }
    }
    Ok(Some(content))
}

// The byte whose spelling comes first, and what follows.
fn first_byte(spelled: &[u8]) -> Option<(u8, &[u8])>
    ensures found { MatchOption result ((b : ℕ) (after : List ℕ) →
        spelled.now ≢ spelled_byte b ++ after) (λ p. spelled.now ≡ spelled_byte p.0
        ++ p.1.now) }
    ensures shorter { IfSome result (λ p. length p.1.now < length spelled.now) }
{
    match spelled {
        [b'\\', b'"', rest @ ..] => Some((b'"', rest)),
        [b'\\', b'\\', rest @ ..] => Some((b'\\', rest)),
        [b'\\', b'n', rest @ ..] => Some((b'\n', rest)),
        [] | [b'"' | b'\\' | b'\n', ..] => None,
        [b, rest @ ..] => Some((*b, rest)),
    }
}
