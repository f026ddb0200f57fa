//! The lines that draws choose.

ghost use Rattle.std.specs.Prelude.{◌≡◌, ◌+◌, ◌/◌, ◌%◌, ◌<◌, ◌≤◌, ◌^◌, ◌++◌, ◌∷◌, [], true, false, length};
ghost use Rattle.arrayvec.specs.ArrayVec.{array_vec_len};
ghost use Rattle.seam_storm.specs.Storm.{next_seed, field, sender, move_line, call_line, method_of, is_move, draw, entity};
ghost use Rattle.seam_storm.specs.Storm.{drawn_line, seed_after, sync_after};
ghost use Rattle.seam_storm.specs.Inside.{rest_of, IsLines};

use arrayvec::ArrayVec;
use itoa::Buffer;

/// Room for a line and a sync after it, in bytes.
pub const LINE_ROOM: usize = 64;

// The linear congruence, modulo 2^64 (Knuth, MMIX).
const MULTIPLIER: u64 = 6364136223846793005;

const INCREMENT: u64 = 1442695040888963407;
// A draw is the upper 31 bits of a seed.
const DRAW_DIVISOR: u64 = 8589934592;

/// The line that was made last, how much of it was given, and what the lines after it are made of.
#[derive(Drop)]
pub struct Lines {
    pub line: ArrayVec<u8, LINE_ROOM>,
    pub at: usize,
    pub left: u64,
    pub number: u64,
    pub seed: u64,
}

// The next seed of the linear congruence.
fn next_seed(seed: u64) -> u64
    ensures { result ≡ next_seed seed }
{
    seed.wrapping_mul(MULTIPLIER).wrapping_add(INCREMENT)
}

// Writes text at the end of the line.
fn write(line: &mut ArrayVec<u8, LINE_ROOM>, text: &[u8])
    requires { array_vec_len line.old + length text.now ≤ LINE_ROOM }
    ensures items { line.new.items ≡ line.old.items ++ text.now }
    ensures len { array_vec_len line.new ≡ array_vec_len line.old + length text.now }
{
    let Ok(()) = line.try_extend_from_slice(text) else {
        unreachable!()
    };
}

// Writes a number of at most four digits as a further word.
fn write_field(line: &mut ArrayVec<u8, LINE_ROOM>, n: u64)
    requires small { n < 10 ^ 4 }
    requires room { array_vec_len line.old + 5 ≤ LINE_ROOM }
    ensures items { line.new.items ≡ line.old.items ++ field n }
    ensures len { array_vec_len line.new ≤ array_vec_len line.old + 5 }
{
    let mut buffer = Buffer::new();
    write(line, b" ");
    write(line, buffer.format(n).as_bytes());
}

// Writes the base node from which the entity hears.
fn write_sender(line: &mut ArrayVec<u8, LINE_ROOM>, e: u64)
    requires { array_vec_len line.old + 3 ≤ LINE_ROOM }
    ensures items { line.new.items ≡ line.old.items ++ sender e }
    ensures len { array_vec_len line.new ≤ array_vec_len line.old + 3 }
{
    if e % 2 == 1 {
        write(line, b" b1");
    } else {
        write(line, b" b2");
    }
}

// The line of a move.
fn write_move(line: &mut ArrayVec<u8, LINE_ROOM>, e: u64, f: u64)
    requires empty { line.old.items ≡ [] }
    requires small { e < 65 }
    ensures items { line.new.items ≡ move_line e f }
    ensures len { array_vec_len line.new ≤ 32 }
{
    write(line, b"move");
    write_sender(line, e);
    write_field(line, e);
    write_field(line, f % 10000);
    write_field(line, f / 10000 % 10000);
    write(line, b"\n");
}

// The line of a call.
fn write_call(line: &mut ArrayVec<u8, LINE_ROOM>, e: u64, method: &[u8], amount: u64)
    requires empty { line.old.items ≡ [] }
    requires small { e < 65 }
    requires short { length method.now ≤ 5 }
    requires few { amount < 100 }
    ensures items { line.new.items ≡ call_line e method.now amount }
    ensures len { array_vec_len line.new ≤ 32 }
{
    write(line, b"call");
    write_sender(line, e);
    write_field(line, e);
    write(line, method);
    write_field(line, amount);
    write(line, b"\n");
}

// The line of a draw that is no move.
fn write_deed(line: &mut ArrayVec<u8, LINE_ROOM>, d: u64)
    requires empty { line.old.items ≡ [] }
    ensures items { line.new.items ≡ call_line (entity d) (method_of d) (d / 256 % 100) }
    ensures len { array_vec_len line.new ≤ 32 }
{
    let e = 1 + d % 64;
    let amount = d / 256 % 100;
    if d / 64 % 4 == 2 {
        write_call(line, e, b" hit", amount);
    } else {
        write_call(line, e, b" heal", amount);
    }
}

// Writes the line that the next draws choose, and gives the seed after them.
fn write_drawn(line: &mut ArrayVec<u8, LINE_ROOM>, seed: u64) -> u64
    requires { line.old.items ≡ [] }
    ensures items { line.new.items ≡ drawn_line seed }
    ensures len { array_vec_len line.new ≤ 32 }
    ensures seed { result ≡ seed_after seed }
{
    let first = next_seed(seed);
    let d = first / DRAW_DIVISOR;
    if d / 64 % 4 < 2 {
        let second = next_seed(first);
        write_move(line, 1 + d % 64, second / DRAW_DIVISOR);
        return second;
    }
    write_deed(line, d);
    first
}

// Writes a sync after each thousandth line.
fn write_sync(line: &mut ArrayVec<u8, LINE_ROOM>, number: u64)
    requires { array_vec_len line.old + 5 ≤ LINE_ROOM }
    ensures { line.new.items ≡ line.old.items ++ sync_after number }
{
    if number % 1000 == 0 {
        write(line, b"sync\n");
    }
}

/// Makes the next line where all of the last one was given. Answers whether there is something to give.
pub fn make_ready(lines: &mut Lines) -> bool
    requires { IsLines lines.old }
    ensures same { rest_of lines.new ≡ rest_of lines.old }
    ensures is { IsLines lines.new }
    ensures some { result ≡ true → lines.new.at < array_vec_len lines.new.line }
    ensures none { result ≡ false → rest_of lines.new ≡ [] }
{
    if lines.at < lines.line.len() {
        return true;
    }
    if lines.left == 0 {
        return false;
    }
    lines.line.clear();
    lines.at = 0;
    lines.seed = write_drawn(&mut lines.line, lines.seed);
    write_sync(&mut lines.line, lines.number);
    lines.left -= 1;
    lines.number += 1;
    true
}
