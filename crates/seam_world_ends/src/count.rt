// Counts of lines and of rounds.
ghost use Rattle.std.specs.Prelude.{◌≡◌, ◌+◌, ◌≤◌, IfOk};
ghost use Rattle.seam_law_transcript.specs.Counts.{most_lines};

use std::alloc::AllocError;

// The most lines that an input has, each of which takes a byte.
const MOST: u64 = 1 << 40;

/// The number after a count. Beyond 2^40 the answer is that of a failed allocation: no input has so many lines.
pub fn next_count(count: u64) -> Result<u64, AllocError>
    ensures next { IfOk result (λ n. n ≡ count + 1) }
    ensures most { IfOk result (λ n. n ≤ most_lines) }
{
    if count >= MOST {
        return Err(AllocError);
    }
    Ok(count + 1)
}
