// Values, and why a text is none.
ghost use Rattle.std.specs.Prelude.{◌≡◌, ◌↔◌, IsTrue, IfOk};
ghost use Rattle.seam_value.specs.declared.values.ValueError.TheVariants.{NoMemory};
ghost use Rattle.seam_value.specs.Values.{Fits};

use crate::{ShortText, ValueType};
use std::alloc::{AllocError, Global};

/// A value: a whole number, or a text of at most 255 bytes.
#[derive(Drop, Debug, PartialEq, Eq)]
pub enum Value {
    /// A number. Those that fit a type lie between `i64::MIN` and `u64::MAX`.
    Number(i128),
    Text(ShortText),
}

/// Why bytes are no value of a type.
#[derive(Clone, Copy, Debug, PartialEq, Eq)]
pub enum ValueError {
    /// The type is a number type, and the bytes are no whole number in decimal.
    NotNumber,
    /// A whole number outside the type.
    OutOfRange,
    /// The type is the text type, and the bytes are no text in quotes, or are not UTF-8.
    BadString,
    /// A text of more than 255 bytes.
    TooLong,
    /// Allocation failed.
    NoMemory,
}

impl From<AllocError> for ValueError {
    ghost from_gives = { λ _ e. e ≡ NoMemory };

    fn from(_error: AllocError) -> ValueError {
        ValueError::NoMemory
    }
}

impl Value {
    /// Whether the value is one of the type.
    pub fn fits(&self, t: ValueType) -> bool
        ensures { IsTrue result ↔ Fits self.now t }
    {
        match self {
            Value::Number(z) => t.is_number() && t.least() <= *z && *z <= t.greatest(),
            Value::Text(s) => {
                // A short text says of itself that it is one.
                let _bytes = s.bytes();
                !t.is_number()
            }
        }
    }

    /// An equal value.
    pub fn copy(&self, alloc: Global) -> Result<Value, AllocError>
        ensures { IfOk result (λ v. v ≡ self.now) }
    {
        match self {
            Value::Number(z) => Ok(Value::Number(*z)),
            Value::Text(s) => Ok(Value::Text(s.copy(alloc)?)),
        }
    }
}
