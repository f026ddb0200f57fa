// The header of a run, line by line.
ghost use Rattle.std.specs.Prelude.{◌≡◌, ◌<◌, ◌≤◌, [], List, MatchResult, IfNone, IfOk};
ghost use Rattle.seam_rule_rounds.specs.Prelude.{SourceState, Line, Reading, budget};
ghost use Rattle.seam_law_transcript.specs.Prelude.{most_lines};
ghost use Rattle.seam_world_ends.specs.Status.{refusal_of};
ghost use Rattle.seam_world_ends.specs.Ends.{most_bytes};
ghost use Rattle.seam_world_ends.specs.Headers.{HasHeader, InHeader, HeaderLineRead, EndsInHeader};

use crate::Status;
use crate::count::next_count;
use seam_accept::HeaderLines;
use seam_io::{Lines, Next, Source};
use seam_rule_lines::Header;
use seam_table::HashKey;
use seam_toml::HeaderError;
use std::alloc::Global;

// The causes of a refused header that no text tells: it is too long, or its end is missing.
const TOO_LONG: u8 = 9;

const NO_END: u8 = 10;

// The header, with this key.
fn keyed(header: Header, key: HashKey) -> Header
    ensures { result ≡ header }
{
    let mut keyed = header;
    keyed.defs.set_hash_key(key);
    keyed
}

/// Reads the header line by line. Answers what it sets, with this key of the hash by which entities are found, and of how many lines it
/// is; or the status where the run ends there.
pub fn read_header<S: Source>(
    alloc: Global,
    key: HashKey,
    lines: &mut Lines,
    input: &mut S,
) -> Result<(Header, u64), Status>
    ensures header { (began : SourceState) → Reading began (S.state input.old) lines.old [] [] →
        lines.old.limit ≡ most_bytes → MatchResult result (λ h. HasHeader began (S.state input.new)
        lines.new h.0 h.1) (λ s. EndsInHeader s began (S.state input.new)) }
    ensures few { IfOk result (λ h. h.1 ≤ most_lines) }
    ensures later { (S.state input.old).faults ≤ (S.state input.new).faults }
{
    let mut header = HeaderLines::new(alloc);
    let mut count = 0;
    loop {
        count = match next_count(count) {
            Ok(count) => count,
            Err(_) => return Err(Status::NoMemory),
        };
        match read_header_line(&mut header, lines, input) {
            Ok(None) => {}
            Ok(Some(read)) => return Ok((keyed(read, key), count)),
            Err(status) => return Err(status),
        }
    }
}

// Reads the next line of the header: what it sets, where the line ends it.
fn read_header_line<S: Source>(
    header: &mut HeaderLines,
    lines: &mut Lines,
    input: &mut S,
) -> Result<Option<Header>, Status>
    ensures header { (began : SourceState) (read : List Line) →
        InHeader began (S.state input.old) lines.old header.old read →
        HeaderLineRead began (S.state input.new) lines.new header.new read result }
    ensures later { (S.state input.old).faults ≤ (S.state input.new).faults }
    ensures falls { IfOk result (λ h. IfNone h (budget lines.new < budget lines.old)) }
{
    match lines.next(input) {
        Next::Line => match header.read_line(lines.line()) {
            Ok(read) => Ok(read),
            Err(error) => Err(refusal(error)),
        },
        Next::Long => Err(Status::BadHeader(TOO_LONG)),
        Next::End => Err(Status::BadHeader(NO_END)),
        Next::ReadFault => Err(Status::ReadFault),
        Next::Limit => Err(Status::Limit),
    }
}

// The status of a run whose header is refused.
fn refusal(error: HeaderError) -> Status
    ensures { result ≡ refusal_of error }
{
    match error.number() {
        Some(number) => Status::BadHeader(number),
        None => Status::NoMemory,
    }
}
