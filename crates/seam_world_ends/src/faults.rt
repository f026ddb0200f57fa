// The fault line, which every end but `Done` and `WriteFault` writes last.
ghost use Rattle.std.specs.Prelude.{◌≡◌, ◌≤◌, ◌⊎◌, List, ℕ};
ghost use Rattle.std.specs.Io.KnownBytes.{Appends};
ghost use Rattle.seam_io.specs.Causes.{Rose};
ghost use Rattle.seam_world_ends.specs.Status.{IsRunEnd, IsHeaderCause};
ghost use Rattle.seam_world_ends.specs.Ends.{HasFaultLine, IsPrefix, fault_line as fault_line_of};

use crate::Status;
use seam_io::{Sink, write_whole};

/// Writes the fault line of a status, as much of it as the sink accepts.
pub fn put_fault<K: Sink>(out: &mut K, status: Status)
    requires { IsRunEnd status ⊎ (status ≡ Status.Usage) }
    ensures written { (tail : List ℕ) × Appends (K.state out.old).written (K.state out.new).written
        tail × HasFaultLine status (K.state out.old) (K.state out.new) tail }
    ensures later { (K.state out.old).faults ≤ (K.state out.new).faults }
{
    put(out, fault_line(status));
}

// Writes a line, as much of it as the sink accepts.
fn put<K: Sink>(out: &mut K, line: &[u8])
    ensures written { (tail : List ℕ) × Appends (K.state out.old).written (K.state out.new).written
        tail × ((tail ≡ line.now) ⊎ (IsPrefix tail line.now ×
        Rose (K.state out.old).faults (K.state out.new).faults)) }
    ensures later { (K.state out.old).faults ≤ (K.state out.new).faults }
{
    let _ = write_whole(out, line);
}

// The fault line of a status.
fn fault_line(status: Status) -> &'static [u8]
    requires { IsRunEnd status ⊎ (status ≡ Status.Usage) }
    ensures { result.now ≡ fault_line_of status }
{
    match status {
        Status::Done | Status::WriteFault => b"",
        Status::Usage => b"fault usage\n",
        Status::BadHeader(cause) => header_fault_line(cause),
        Status::ReadFault => b"fault read\n",
        Status::Limit => b"fault limit\n",
        Status::NoMemory => b"fault memory\n",
    }
}

fn header_fault_line(cause: u8) -> &'static [u8]
    requires { IsHeaderCause cause }
    ensures { result.now ≡ fault_line_of (Status.BadHeader cause) }
{
    match cause {
        1 => b"fault header 1\n",
        2 => b"fault header 2\n",
        3 => b"fault header 3\n",
        4 => b"fault header 4\n",
        5 => b"fault header 5\n",
        6 => b"fault header 6\n",
        7 => b"fault header 7\n",
        8 => b"fault header 8\n",
        9 => b"fault header 9\n",
        _ => b"fault header 10\n",
    }
}
