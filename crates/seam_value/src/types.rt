// The types of values.
ghost use Rattle.std.specs.Prelude.{◌≡◌, ◌≢◌, ◌≤ℤ◌, ◌↔◌, pos, IsTrue, MatchOption};
ghost use Rattle.seam_value.specs.declared.types.ValueType.{ValueType as Types};
ghost use Rattle.seam_value.specs.Types.{name_of, least as least_of, greatest as greatest_of};

/// The type of a value: a whole number of 8 to 64 bits, with or without a sign, or a text.
#[derive(Clone, Copy, Debug, PartialEq, Eq)]
pub enum ValueType {
    Int8,
    Int16,
    Int32,
    Int64,
    Uint8,
    Uint16,
    Uint32,
    Uint64,
    Text,
}

// The least and the greatest number of each number type. Tables, since each value is asked for its type whenever a group of them is
// tried, and a look-up is cheaper than the jumps of a `match`.
const LEAST: [i128; 8] = [
    i8::MIN as i128,
    i16::MIN as i128,
    i32::MIN as i128,
    i64::MIN as i128,
    0,
    0,
    0,
    0,
];

const GREATEST: [i128; 8] = [
    i8::MAX as i128,
    i16::MAX as i128,
    i32::MAX as i128,
    i64::MAX as i128,
    u8::MAX as i128,
    u16::MAX as i128,
    u32::MAX as i128,
    u64::MAX as i128,
];

impl ValueType {
    /// The type of this name: `INT8` to `INT64`, `UINT8` to `UINT64`, or `STRING`. `None` for every other text.
    pub fn named(name: &str) -> Option<ValueType>
        ensures { MatchOption result ((t : Types) → name_of t ≢ name.now) (λ t. name_of t
            ≡ name.now) }
    {
        match name {
            "INT8" => Some(ValueType::Int8),
            "INT16" => Some(ValueType::Int16),
            "INT32" => Some(ValueType::Int32),
            "INT64" => Some(ValueType::Int64),
            "UINT8" => Some(ValueType::Uint8),
            "UINT16" => Some(ValueType::Uint16),
            "UINT32" => Some(ValueType::Uint32),
            "UINT64" => Some(ValueType::Uint64),
            "STRING" => Some(ValueType::Text),
            _ => None,
        }
    }

    /// Whether values of the type are numbers.
    pub fn is_number(self) -> bool
        ensures { IsTrue result ↔ (self ≢ ValueType.Text) }
    {
        !matches!(self, ValueType::Text)
    }

    /// The least number of a number type.
    pub fn least(self) -> i128
        requires { self ≢ ValueType.Text }
        ensures value { result ≡ least_of self }
        ensures low { i64.MIN ≤ℤ result }
        ensures high { result ≤ℤ pos 0 }
    {
        LEAST[self as usize]
    }

    /// The greatest number of a number type.
    pub fn greatest(self) -> i128
        requires { self ≢ ValueType.Text }
        ensures value { result ≡ greatest_of self }
        ensures low { pos 0 ≤ℤ result }
        ensures high { result ≤ℤ pos u64.MAX }
    {
        GREATEST[self as usize]
    }
}
