// The lines of a source.
ghost use Rattle.std.specs.Prelude.{◌≡◌, ◌≢◌, ◌<◌, ◌≤◌, ◌⊎◌, ◌+◌, ◌-◌, ◌++◌, [], ◌∷◌, List, ℕ, true, false, length, take, drop};
ghost use Rattle.std.specs.Prelude.{slice_index, slice_range, vec_len, IfOk, IfSome, IfNone, OnOk, OnErr};
ghost use Rattle.std.specs.Prelude.{MatchBool, MatchOption};
ghost use Rattle.std.specs.Io.KnownBytes.{ReadConsumes};
ghost use Rattle.std.specs.Str.Lines.{strip_carriage_return};
ghost use Rattle.seam_io.specs.Causes.{Rose, HasCause, CountsEnds};
ghost use Rattle.seam_io.specs.Lines.{Line, line_of, HasNoFeed};
ghost use Rattle.seam_io.specs.Reading.{Reader, Reading, IsExact, IsSparing, IsDone, IsLine, IsOpen, NeedsMore};
ghost use Rattle.seam_io.specs.Reading.{held_on, lines_given, budget};
ghost use Rattle.seam_io.specs.States.{SourceState};
ghost use Rattle.seam_io.specs.Steps.{IsFeedAt, IsWaiting, Skips, Answers, Waits};

use crate::{Failed, Source};
use memchr::memchr;
use std::alloc::{AllocError, Global};
use std::marker::Model;

/// What [`Lines::next`] found.
#[derive(Clone, Copy, Debug, PartialEq, Eq)]
pub enum Next {
    /// A line, which [`Lines::line`] lends.
    Line,
    /// A line whose content, with a carriage return at its end, has more than 4,096 bytes, as soon as so many came. It is passed over.
    Long,
    /// The end of the input, with nothing left.
    End,
    /// A fault of the source. Nothing is lost, and a later call goes on.
    ReadFault,
    /// As many bytes were taken as may be, and no whole line is left in them.
    Limit,
}

/// The most bytes of a line: its content, and a carriage return that ends it. A longer line is `Next::Long`, as content of
/// 4,096 bytes before a carriage return is.
pub const LONGEST_LINE: usize = 4096;

// How many bytes are asked for at most at once.
const CHUNK: usize = 4096;

/// A reader of lines that takes a bounded number of bytes. All its memory is taken when it is made.
#[derive(Drop)]
pub struct Lines {
    // The bytes from `start` to `end` were taken and not given. Their first line feed is at `feed`, which is `end` where they
    // have none.
    buffer: Vec<u8>,
    start: usize,
    feed: usize,
    end: usize,
    // Where the content of the line that was given is.
    line_start: usize,
    line_end: usize,
    // What comes next, up to a line feed, is the rest of a line that was refused.
    passing: bool,
    ended: bool,
    taken: u64,
    limit: u64,
}

impl Model for Lines {
    ghost use Rattle.seam_io.specs.Reading.{Reader};

    ghost Value = { Reader };

    ghost use Rattle.seam_io.specs.LinesInside.{reader, IsReader};

    ghost view = { reader };

    ghost invariant = { IsReader };
}

// How many bytes of a text are the content of its line: all but a last carriage return.
fn content_len(text: &[u8]) -> usize
    ensures within { result ≤ length text.now }
    ensures content { take result text.now ≡ strip_carriage_return text.now }
{
    let len = text.len();
    if len > 0 && text[len - 1] == b'\r' {
        len - 1
    } else {
        len
    }
}

// Reads at most `want` bytes into the buffer, from place `at` on.
fn read_at<S: Source>(
    buffer: &mut [u8],
    at: usize,
    want: usize,
    source: &mut S,
) -> Result<usize, Failed>
    requires some { 0 < want }
    requires fits { at + want ≤ length buffer.old }
    ensures bound { IfOk result (λ n. n ≤ want) }
    ensures kept { take at buffer.new ≡ take at buffer.old }
    ensures bytes { ReadConsumes (S.state source.old).left (S.state source.new).left result
        (drop at buffer.new) }
    ensures end { CountsEnds (S.state source.old).ends (S.state source.new).ends result }
    ensures cause { HasCause (S.state source.old).faults (S.state source.new).faults result }
{
    source.read(&mut buffer[at..at + want])
}

// Moves the part of the buffer between two places to its start, and reads at most `want` bytes after it.
fn refill<S: Source>(
    buffer: &mut Vec<u8>,
    start: usize,
    end: usize,
    want: usize,
    source: &mut S,
) -> Result<usize, Failed>
    requires some { 0 < want }
    requires order { start ≤ end }
    requires within { end ≤ vec_len buffer.old }
    requires fits { (end - start) + want ≤ vec_len buffer.old }
    ensures bound { IfOk result (λ n. n ≤ want) }
    ensures len { vec_len buffer.new ≡ vec_len buffer.old }
    ensures kept { take (end - start) buffer.new.items ≡ slice_range buffer.old.items start end }
    ensures bytes { ReadConsumes (S.state source.old).left (S.state source.new).left result
        (drop (end - start) buffer.new.items) }
    ensures end { CountsEnds (S.state source.old).ends (S.state source.new).ends result }
    ensures cause { HasCause (S.state source.old).faults (S.state source.new).faults result }
{
    if start > 0 {
        buffer.copy_within(start..end, 0);
    }
    read_at(buffer, end - start, want, source)
}

// Where the first line feed between two places is, or the second place where there is none.
fn feed_between(buffer: &[u8], from: usize, end: usize) -> usize
    requires order { from ≤ end }
    requires within { end ≤ length buffer.now }
    ensures from { from ≤ result }
    ensures to { result ≤ end }
    ensures before { HasNoFeed (slice_range buffer.now from result) }
    ensures found { result < end → slice_index buffer.now result ≡ 10 }
{
    match memchr(b'\n', &buffer[from..end]) {
        Some(place) => from + place,
        None => end,
    }
}

impl Lines {
    /// A reader that takes at most `limit` bytes.
    ///
    /// The error is want of memory.
    pub fn new(alloc: Global, limit: u64) -> Result<Self, AllocError>
        ensures reads { IfOk result (λ r. (start : SourceState) → Reading start start r [] []) }
        ensures fresh { IfOk result (λ r. r ≡ record {
          held = [];
          passing = false;
          ended = false;
          taken = 0;
          limit = limit;
          line = [];
        }) }
    {
        Ok(Lines {
            buffer: vec![in alloc; 0; LONGEST_LINE + CHUNK]?,
            start: 0,
            feed: 0,
            end: 0,
            line_start: 0,
            line_end: 0,
            passing: false,
            ended: false,
            taken: 0,
            limit,
        })
    }

    /// The content of the line that the last call of [`Lines::next`] gave, empty after another answer.
    pub fn line(&self) -> &[u8]
        ensures content { result.now ≡ self.now.line }
        ensures short { length result.now ≤ LONGEST_LINE }
    {
        &self.buffer[self.line_start..self.line_end]
    }

    /// How many bytes were taken from the source.
    pub fn taken(&self) -> u64
        ensures { result ≡ self.now.taken }
    {
        self.taken
    }

    /// Whether a whole line is left in what was taken, so that the next call of [`Lines::next`] answers without a read. After a line that
    /// is too long the answer is no, until the next call.
    pub fn has_line(&self) -> bool
        ensures { MatchBool result ((self.now.passing ≡ false) × ¬ (HasNoFeed self.now.held))
            ((self.now.passing ≡ true) ⊎ HasNoFeed self.now.held) }
    {
        if self.passing {
            return false;
        }
        self.find_feed().is_some()
    }

    /// The next line of the source.
    ///
    /// It reads only where no whole line is left in what was taken, and no more than 4,096 bytes of one: the 4,097th byte of a line is
    /// answered with [`Next::Long`] before any further read, and the rest of that line is passed over by the next call. A read is of at
    /// most 4,096 bytes and never past the limit. Calls after [`Next::End`] answer it again without a read.
    pub fn next<S: Source>(&mut self, source: &mut S) -> Next
        ensures reads { (start : SourceState) (given : List ℕ) (read : List Line) →
            Reading start (S.state source.old) self.old given read →
            (got : List ℕ)
            × Reading start (S.state source.new) self.new
            (given ++ got) (read ++ lines_given result self.new.line)
            × IsExact result self.new (given ++ got) read
            × IsSparing self.old got }
        ensures fault { result ≡ Next.ReadFault → Rose (S.state source.old).faults
            (S.state source.new).faults }
        ensures later { (S.state source.old).faults ≤ (S.state source.new).faults }

        // No read is made where the next answer needs none, and the end is answered again.
        ensures quiet { ¬ (NeedsMore self.old) → (source.new ≡ source.old) ×
            (self.new.taken ≡ self.old.taken) × (self.new.ended ≡ self.old.ended) }
        ensures done { result ≡ Next.End → IsDone self.new }
        ensures again { IsDone self.old → result ≡ Next.End }
        ensures whole { ¬ (IsOpen (held_on self.old)) → IsLine result }

        // Each line that is given lowers the budget.
        ensures budget { length (lines_given result self.new.line) + budget self.new
            ≤ budget self.old }
        ensures limit { self.new.limit ≡ self.old.limit }
        ensures line { result ≢ Next.Line → self.new.line ≡ [] }
    {
        loop {
            match self.without_read() {
                Some(next) => return next,
                None => {}
            }
            match self.fill(source) {
                Ok(()) => {}
                Err(Failed) => return Next::ReadFault,
            }
        }
    }

    // The answer that no read is needed for.
    fn without_read(&mut self) -> Option<Next>
        ensures some { IfSome result (λ n. Answers n self.old self.new) }
        ensures none { IfNone result (Waits self.old self.new) }
    {
        self.skip();
        match self.find_feed() {
            Some(len) => return Some(self.give(len, 1)),
            None => {}
        }
        if self.held_len() > LONGEST_LINE {
            return Some(self.refuse());
        }
        if self.ended {
            return Some(self.finish());
        }
        if self.taken == self.limit {
            return Some(Next::Limit);
        }
        None
    }

    // Lets what is held of the line that was refused go.
    fn skip(&mut self)
        ensures { Skips self.old self.new }
    {
        self.line_start = 0;
        self.line_end = 0;
        if !self.passing {
            return;
        }
        if self.feed < self.end {
            self.start = self.feed + 1;
            self.feed = feed_between(&self.buffer, self.start, self.end);
            self.passing = false;
            return;
        }
        self.start = self.end;
        self.passing = !self.ended;
    }

    fn held_len(&self) -> usize
        ensures { result ≡ length self.now.held }
    {
        self.end - self.start
    }

    // How many bytes come before the first line feed that is held.
    fn find_feed(&self) -> Option<usize>
        ensures { MatchOption result (HasNoFeed self.now.held) (IsFeedAt self.now.held) }
    {
        if self.feed < self.end {
            Some(self.feed - self.start)
        } else {
            None
        }
    }

    // Gives the line of the first `len` bytes that are held, and lets `skip` bytes after them go.
    fn give(&mut self, len: usize, skip: usize) -> Next
        requires { len + skip ≤ length self.old.held }
        ensures rest { self.new ≡ record self.old {
          held = drop (len + skip) self.old.held;
          line = self.new.line;
        } }
        ensures gave { lines_given result self.new.line ≡ line_of (take len self.old.held) ∷ [] }
        ensures line { result ≢ Next.Line → self.new.line ≡ [] }
    {
        let text = self.start;
        self.start += len + skip;
        self.feed = feed_between(&self.buffer, self.start, self.end);
        if len > LONGEST_LINE {
            self.line_start = 0;
            self.line_end = 0;
            return Next::Long;
        }
        self.line_start = text;
        self.line_end = text + content_len(&self.buffer[text..text + len]);
        Next::Line
    }

    // Refuses the line whose prefix is held, since that is too long already, and lets it go.
    fn refuse(&mut self) -> Next
        requires whole { HasNoFeed self.old.held }
        requires long { LONGEST_LINE < length self.old.held }
        requires plain { self.old.passing ≡ false }
        requires line { self.old.line ≡ [] }
        ensures { Answers result self.old self.new }
    {
        self.start = self.end;
        self.feed = self.end;
        self.passing = true;
        Next::Long
    }

    // The last line of the input, or its end.
    fn finish(&mut self) -> Next
        requires whole { HasNoFeed self.old.held }
        requires short { length self.old.held ≤ LONGEST_LINE }
        requires plain { self.old.passing ≡ false }
        requires ended { self.old.ended ≡ true }
        requires line { self.old.line ≡ [] }
        ensures { Answers result self.old self.new }
    {
        let len = self.held_len();
        if len > 0 {
            return self.give(len, 0);
        }
        Next::End
    }

    // Takes more of the input, or finds its end.
    fn fill<S: Source>(&mut self, source: &mut S) -> Result<(), Failed>
        requires { IsWaiting self.old }
        ensures reads { (start : SourceState) (given : List ℕ) (read : List Line) →
            Reading start (S.state source.old) self.old given read →
            (got : List ℕ)
            × Reading start (S.state source.new) self.new (given ++ got) read
            × (self.new.held ≡ self.old.held ++ got)
            × (length got ≤ CHUNK) }
        ensures cause { HasCause (S.state source.old).faults (S.state source.new).faults result }
        ensures budget { budget self.new ≤ budget self.old }
        ensures passing { self.new.passing ≡ self.old.passing }
        ensures limit { self.new.limit ≡ self.old.limit }
        ensures line { self.new.line ≡ [] }
        ensures falls { OnOk result ((self.old.taken < self.new.taken) ⊎
            ((self.new.taken ≡ self.old.taken) × (self.new.ended ≡ true))) }
        ensures same { OnErr result (self.new ≡ self.old) }
    {
        let held = self.end - self.start;
        let want = (self.limit - self.taken).min(CHUNK as u64) as usize;
        let result = refill(&mut self.buffer, self.start, self.end, want, source);
        self.start = 0;
        self.feed = held;
        self.end = held;
        self.line_start = 0;
        self.line_end = 0;
        let count = result?;
        self.end += count;
        self.feed = feed_between(&self.buffer, held, self.end);
        self.taken += count as u64;
        self.ended = count == 0;
        Ok(())
    }
}
