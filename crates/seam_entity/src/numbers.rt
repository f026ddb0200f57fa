//! Numbers that only rise stay small.

ghost use Rattle.std.specs.Prelude.{◌≡◌};
ghost use Rattle.seam_entity.specs.Numbers.{is_small as is_small_number, may_rise as number_may_rise};

// What numbers that only rise stay below.
const LIMIT: u64 = 1 << 62;

/// Whether the number is small.
pub fn is_small(n: u64) -> bool
    ensures { result ≡ is_small_number n }
{
    n < LIMIT
}

/// Whether the number may rise by one.
pub fn may_rise(n: u64) -> bool
    ensures { result ≡ number_may_rise n }
{
    n < LIMIT - 1
}
