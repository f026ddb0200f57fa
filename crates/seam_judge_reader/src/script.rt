// Scripts, line by line.
ghost use Rattle.std.specs.Prelude.{◌≡◌, ◌≤◌, ◌+◌, ◌↔◌, ℕ, [], Some, IfOk, IfSome, IsTrue, length, true, false};
ghost use Rattle.seam_io.specs.Lines.{Content, Long};
ghost use Rattle.seam_defs.specs.Settings.{AreInRange};
ghost use Rattle.seam_accept.specs.Batches.{batch_of, ordered as ordered_by};
ghost use Rattle.seam_accept.specs.Refines.{Refines};
ghost use Rattle.seam_judge_data.specs.Standings.{standing_of};
ghost use Rattle.seam_judge_rounds.specs.After.{after_round};
ghost use Rattle.seam_rule_rounds.specs.Prelude.{Book as Books, Entry as Entries, Header as Headers, Standing as Standings};
ghost use Rattle.seam_rule_rounds.specs.Prelude.{after_header, with_bounds, with_entry, with_round_ended};
ghost use Rattle.seam_judge_reader.specs.Scripts.{HasAccepted, IsAt, IsKept, LineRead};

use seam_accept::{Accepted, Book, HeaderLines, Refusal, next_count};
use seam_call::{Batch, Order};
use seam_io::LONGEST_LINE;
use seam_judge_data::{Round, Standing};
use seam_judge_expected::tree_in;
use seam_judge_rounds::{is_numbered, standing_after};
use seam_rule_lines::{Cause, Entry, Header, MOST_LINES};
use seam_toml::HeaderError;
use seam_tree::Tree;
use std::alloc::{AllocError, Global};
use std::marker::Model;

/// What became of a line of a script.
#[derive(Clone, Copy, Debug, PartialEq, Eq)]
pub enum Read {
    /// It belongs to the header, which may end with it.
    Header,
    /// The book keeps what it adds.
    Kept,
    /// It was refused, for its first cause.
    Refused(Cause),
    /// It has no words, or is a comment.
    Skipped,
    /// The round ends with it, a `sync` or the last line that a round may have: `end_round` comes before the next line.
    RoundEnds,
}

/// Why a script is not read further.
#[derive(Clone, Copy, Debug, PartialEq, Eq)]
pub enum BadScript {
    /// It begins with no header.
    Header(HeaderError),
    /// Allocation failed.
    NoMemory,
}

impl From<AllocError> for BadScript {
    fn from(_error: AllocError) -> BadScript {
        BadScript::NoMemory
    }
}

/// A script that is read line by line: its header, and then what was accepted and what the rounds so far left, by what was printed of
/// them. After an error it has no use.
#[derive(Drop)]
pub struct ScriptReader {
    alloc: Global,
    head: HeaderLines,
    // how many lines the header has so far
    lines: u64,
    // what is there once the header has ended
    script: Option<Script>,
}

impl ScriptReader {
    /// No line was read yet.
    pub fn new(alloc: Global) -> Self {
        ScriptReader {
            alloc,
            head: HeaderLines::new(alloc),
            lines: 0,
            script: None,
        }
    }

    /// Reads the next line, without its line feed and a carriage return before that.
    pub fn read_line(&mut self, line: &[u8]) -> Result<Read, BadScript> {
        if LONGEST_LINE < line.len() {
            return self.read_long();
        }
        match &mut self.script {
            Some(script) => Ok(script.read_line(line)?),
            None => self.read_header_line(line),
        }
    }

    // Reads a line that is too long.
    fn read_long(&mut self) -> Result<Read, BadScript> {
        match &mut self.script {
            Some(script) => Ok(script.read_long()?),
            None => Err(BadScript::Header(HeaderError::TooLong)),
        }
    }

    fn read_header_line(&mut self, line: &[u8]) -> Result<Read, BadScript>
        requires { length line.now ≤ LONGEST_LINE }
    {
        self.lines = next_count(self.lines)?;
        match self.head.read_line(line) {
            Ok(None) => Ok(Read::Header),
            Ok(Some(header)) => self.begin(header),
            Err(HeaderError::NoMemory) => Err(BadScript::NoMemory),
            Err(error) => Err(BadScript::Header(error)),
        }
    }

    // Begins the script after its header.
    fn begin(&mut self, header: Header) -> Result<Read, BadScript> {
        if !header.settings.are_in_range() {
            return Err(BadScript::Header(HeaderError::BadType));
        }
        self.script = Some(Script::new(self.alloc, header, self.lines)?);
        Ok(Read::Header)
    }

    /// The header, once it has ended.
    pub fn header(&self) -> Option<&Header>
        ensures { IfSome result (λ h. AreInRange h.now.settings) }
    {
        match &self.script {
            Some(script) => Some(script.header()),
            None => None,
        }
    }

    /// What was read and what the rounds so far left, once the header has ended.
    pub fn standing(&self) -> Option<&Standing> {
        match &self.script {
            Some(script) => Some(script.standing()),
            None => None,
        }
    }

    /// Whether a line of the open round was kept. At the end of a script such a round ends too.
    pub fn has_open_round(&self) -> bool {
        match &self.script {
            Some(script) => !script.standing().current.is_empty(),
            None => false,
        }
    }

    /// Ends the open round, of which this was printed, and answers whether the round has the next number. If not, nothing has changed.
    pub fn end_round(&mut self, round: &Round) -> Result<bool, AllocError> {
        match &mut self.script {
            Some(script) => script.end_round(self.alloc, round),
            None => Ok(false),
        }
    }

    /// Ends the open round as `end_round` does, for whoever reads on and judges nothing: of the standing that the round leaves, only the
    /// counts, the boundaries and the entities that were created are kept. Its time and room do not grow with the rounds before.
    pub fn pass_round(&mut self, round: &Round) -> Result<bool, AllocError> {
        match &mut self.script {
            Some(script) => script.pass_round(round),
            None => Ok(false),
        }
    }
}

/// A script after its header: what was accepted, and what the rounds so far left, by what was printed of them.
///
/// The book gives away each line at once, so that it never has lines of a round; the standing keeps them.
#[derive(Drop)]
pub struct Script {
    header: Header,
    book: Book,
    standing: Standing,
}

impl Model for Script {
    ghost use Rattle.std.specs.Coded.{codes};
    ghost use Rattle.std.specs.FinSet as set;
    ghost use Rattle.seam_defs.specs.Settings.{AreInRange};
    ghost use Rattle.seam_judge_reader.specs.Scripts.{ScriptView};

    ghost Value = { ScriptView };

    ghost coded = { Prim.hlevel (codes, set.code) };

    ghost invariant = { λ s. AreInRange s.header.settings };

    ghost view = { λ s. record { header = s.header; book = s.book; standing = s.standing } };
}

impl Script {
    /// A script of which the header alone was read, which had `lines` lines.
    pub fn new(alloc: Global, header: Header, lines: u64) -> Result<Script, AllocError>
        requires { AreInRange header.settings }
        ensures { IfOk result (IsAt header (after_header header lines)) }
    {
        let standing = Standing {
            lines,
            rounds: 0,
            past: Vec::new(alloc),
            tree: Tree::one(header.settings.size),
            current: Vec::new(alloc),
            calls: Vec::new(alloc),
            places: Vec::new(alloc),
            told: Vec::new(alloc),
        };
        Ok(Script {
            book: Book::new(alloc, &header)?,
            header,
            standing,
        })
    }

    /// The header.
    pub fn header(&self) -> &Header
        ensures header { result.now ≡ self.now.header }
        ensures range { AreInRange result.now.settings }
    {
        &self.header
    }

    /// What was read and what the rounds so far left.
    pub fn standing(&self) -> &Standing
        ensures { result.now ≡ self.now.standing }
    {
        &self.standing
    }

    /// Reads the content of the next line. Where a round ends with it, `end_round` comes before the next line.
    pub fn read_line(&mut self, line: &[u8]) -> Result<Read, AllocError>
        requires { length line.now ≤ LONGEST_LINE }
        ensures { IfOk result (λ r. (h : Headers) (t : Standings) → IsAt h t self.old →
            LineRead h t (Content line.now) r self.new) }
    {
        seam_law_lines::a_line_is_judged_by_entries_and_tree();
        self.standing.lines = next_count(self.standing.lines)?;
        match self.book.accept(line) {
            Ok(Accepted::Kept) => self.keep(),
            Ok(Accepted::Synced) => Ok(Read::RoundEnds),
            Ok(Accepted::Skipped) => Ok(Read::Skipped),
            Err(Refusal::Cause(cause)) => Ok(Read::Refused(cause)),
            Err(Refusal::NoMemory) => Err(AllocError),
        }
    }

    /// Reads a line that is too long.
    pub fn read_long(&mut self) -> Result<Read, AllocError>
        ensures { IfOk result (λ r. (h : Headers) (t : Standings) → IsAt h t self.old →
            LineRead h t Long r self.new) }
    {
        self.standing.lines = next_count(self.standing.lines)?;
        Ok(Read::Refused(Cause::TooLong))
    }

    // Keeps the entry that the book has just accepted.
    fn keep(&mut self) -> Result<Read, AllocError>
        ensures { IfOk result (λ r. (h : Headers) (t : Standings) (x : Entries) →
            HasAccepted h t x self.old → IsKept h t x r self.new) }
    {
        let entry = entry_of(self.book.take_batch());
        self.standing.current.push(entry)?;
        if self.standing.current.len() == MOST_LINES {
            return Ok(Read::RoundEnds);
        }
        Ok(Read::Kept)
    }

    /// Ends the open round, of which this was printed, and answers whether the round has the next number. If not, nothing has changed.
    pub fn end_round(&mut self, alloc: Global, round: &Round) -> Result<bool, AllocError>
        ensures ended { IfOk result (λ is. is ≡ true → (h : Headers) (t : Standings) →
            IsAt h t self.old → IsAt h (after_round t round.now) self.new) }
        ensures not { IfOk result (λ is. is ≡ false → self.new ≡ self.old) }
        ensures numbered { IfOk result (λ is. IsTrue is
            ↔ (round.now.number ≡ self.old.standing.rounds + 1)) }
    {
        if !is_numbered(&self.standing, round) {
            return Ok(false);
        }
        self.standing = standing_after(alloc, &self.standing, round)?;
        begin_round(&mut self.book, round);
        Ok(true)
    }

    /// Ends the open round as `end_round` does, for whoever reads on and judges nothing: of the standing that the round leaves, only the
    /// counts, the boundaries and the entities that were created are kept. Its time and room do not grow with the rounds before.
    pub fn pass_round(&mut self, round: &Round) -> Result<bool, AllocError> {
        if !is_numbered(&self.standing, round) {
            return Ok(false);
        }
        self.standing.tree = match &round.bounds {
            Some(tree) => *tree,
            None => tree_in(&self.standing),
        };
        add_creates(&mut self.standing.past, &self.standing.current)?;
        self.standing.current.clear();
        self.standing.rounds = round.number;
        begin_round(&mut self.book, round);
        Ok(true)
    }
}

// The book goes on after a round.
fn begin_round(book: &mut Book, round: &Round)
    ensures { (h : Headers) (b : Books) → Refines h b book.old →
        Refines h (with_bounds (with_round_ended b) round.now.bounds) book.new }
{
    let _ = book.take_batch();
    if let Some(tree) = &round.bounds {
        book.set_tree(*tree);
    }
}

// Adds the entries that made entities.
fn add_creates(entries: &mut Vec<Entry>, further: &[Entry]) -> Result<(), AllocError> {
    for entry in further {
        if let Entry::Created(create) = entry {
            entries.push(Entry::Created(*create))?;
        }
    }
    Ok(())
}

// What a batch of one line adds.
fn entry_of(batch: Batch) -> Entry
    ensures { (h : Headers) (b : Books) (x : Entries) → b.current ≡ [] →
        batch ≡ batch_of h (with_entry b x) → result ≡ x }
{
    let Batch {
        tree,
        creates,
        clients,
        orders,
        destroys,
        balance,
    } = batch;
    if let Some(create) = creates.as_slice().first() {
        return Entry::Created(*create);
    }
    if let Some(entity) = clients.as_slice().first() {
        return Entry::Joined(*entity);
    }
    if let Some(entity) = destroys.as_slice().first() {
        return Entry::Destroyed(*entity);
    }
    if balance {
        return Entry::Balanced;
    }
    match orders.into_vec().pop() {
        Some((_, order)) => ordered(order),
        None => Entry::Divided(tree),
    }
}

// What an order comes from.
fn ordered(order: Order) -> Entry
    ensures { (h : Headers) (x : Entries) (node : ℕ) → ordered_by h x ≡ Some (node, order) →
        result ≡ x }
{
    match order {
        Order::Cell(call) | Order::Base(call) => Entry::Called(call),
        Order::Tick => Entry::Ticked,
        Order::Reap(entity) => Entry::Destroyed(entity),
        Order::Bounds(bounds) => Entry::Divided(*bounds.tree.get()),
    }
}
