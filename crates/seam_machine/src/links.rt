//! The links of a net, and what waits for room in them.

ghost use Rattle.std.specs.Prelude.{◌≡◌, ℕ, ◌+◌, ◌-◌, ◌<◌, ◌≤◌, ◌^◌, List, [], ◌∷◌, ◌++◌, length, true, Some, None, OnOk, OnErr, IfOk};
ghost use Rattle.std.specs.Prelude.{IfSome, IfNone, option_copied, slice_get, slice_index, slice_index_or, slice_set, vec_len, false};
ghost use Rattle.std.specs.Prelude.{replicate, min};
ghost use Rattle.std.specs.List.{All};
ghost use Rattle.seam_machine.specs.Sends.{AllBelow};
ghost use Rattle.seam_machine.specs.Nets.{link, input_from, is_ready};
ghost use Rattle.seam_machine.specs.Inside.{AreCounted, CountsFit, Delivers, StartsAt, Lowers, Feeds, filled_to};

use crate::machines::{Event, Input, Machine};
use crate::marks::Marks;
use crate::rows::Row;
use crate::sends::Out;
use crate::sent::Sent;
use std::alloc::{AllocError, Global};
use std::marker::Model;

// What is kept of all links, without what waits, so that the next event is found in a few instructions.
#[derive(Drop)]
struct Kept {
    // How many of the links to each node hold something.
    busy: Vec<u8>,
    // For each node, a number below which no node's link to it holds something.
    starts: Vec<u8>,
    // The nodes to which a link holds something.
    waiting: Marks,
}

/// The links of a net, by sender.
#[derive(Drop)]
pub struct Links<T> {
    rows: Vec<Row<T>>,
    kept: Kept,
    // What was sent last and no link holds yet.
    sent: Sent<T>,
}

impl<T> Model for Links<T> {
    ghost use Rattle.seam_machine.specs.Nets.{send_all};
    ghost use Rattle.seam_machine.specs.Inside.{LinksView, IsLinks, AreCounted, StartsAt, IsAhead, is_empty, waits};

    ghost Value = { LinksView T };

    ghost view = { λ l. record {
      rows = send_all l.rows.items l.sent.sender (waits l.sent.target l.sent.ahead l.sent.out.items);
      clear = is_empty (waits l.sent.target l.sent.ahead l.sent.out.items);
    } };

    ghost invariant = { λ l. IsLinks l.rows.items l.kept.busy.items l.sent.sender (waits l.sent.target l.sent.ahead l.sent.out.items)
        × StartsAt l.kept.starts.items l.rows.items × AreCounted l.kept.waiting.words l.kept.busy.items
        × IsAhead l.sent.target l.sent.ahead l.sent.sender l.sent.out.items l.kept.waiting.words };
}

impl Kept {
    // The link from `sender` to node `to` holds something now, where it held nothing before.
    fn fill(&mut self, to: u8, sender: u8)
        requires counted { to < length self.old.busy.items }
        requires fits { slice_index self.old.busy.items to < 255 }
        requires starts { to < length self.old.starts.items }
        requires waiting { AreCounted self.old.waiting.words self.old.busy.items }
        ensures busy { self.new.busy.items ≡ slice_set self.old.busy.items to
            (slice_index self.old.busy.items to + 1) }
        ensures starts { self.new.starts.items ≡ slice_set self.old.starts.items to
            (min (slice_index self.old.starts.items to) sender) }
        ensures waiting { AreCounted self.new.waiting.words self.new.busy.items }
    {
        let at = to as usize;
        self.busy[at] += 1;
        self.starts[at] = self.starts[at].min(sender);
        self.waiting.set(to, true);
    }
}

// A start for each of n nodes, before anything is known of the links to it.
fn unknown_starts(alloc: Global, n: usize) -> Result<Vec<u8>, AllocError>
    ensures { IfOk result (λ v. v.items ≡ replicate n 0) }
{
    let mut starts = Vec::new(alloc);
    for _i in 0..n {
        starts.push(0)?;
    }
    Ok(starts)
}

// How many of the links to that node hold something.
fn count_filled<T>(rows: &Vec<Row<T>>, to: usize) -> u8
    requires { length rows.now.items < 256 }
    ensures { result ≡ filled_to to rows.now.items }
{
    let mut n = 0;
    for i in 0..rows.len() {
        if rows[i].len(to) > 0 {
            n += 1;
        }
    }
    n
}

// For each node, how many of the links to it hold something.
fn count_all<T>(alloc: Global, rows: &Vec<Row<T>>) -> Result<Vec<u8>, AllocError>
    requires { length rows.now.items < 256 }
    ensures len { IfOk result (λ v. length v.items ≡ length rows.now.items) }
    ensures counts { IfOk result (λ v. (b : ℕ) → b < length rows.now.items →
        slice_index v.items b ≡ filled_to b rows.now.items) }
{
    let mut busy = Vec::new(alloc);
    for b in 0..rows.len() {
        busy.push(count_filled(rows, b))?;
    }
    Ok(busy)
}

// The nodes that have a count.
fn marks_of(busy: &Vec<u8>) -> Marks
    requires { length busy.now.items < 256 }
    ensures { AreCounted result.words busy.now.items }
{
    let mut marks = Marks::none();
    for k in 0..busy.len() {
        marks.set(k as u8, busy[k] > 0);
    }
    marks
}

// The first of the rows whose link to that node holds something, where none before `start` does.
fn first_filled<T>(rows: &Vec<Row<T>>, to: usize, start: usize) -> Option<u8>
    requires few { length rows.now.items < 256 }
    requires square { All (λ r. length r ≡ length rows.now.items) rows.now.items }
    requires is_node { to < length rows.now.items }
    requires empty { (a : ℕ) → a < start → link rows.now.items a to ≡ [] }
    ensures some { IfSome result (λ a. 0 < length (link rows.now.items a to)) }
    ensures first { IfSome result (λ a. (c : ℕ) → c < a → link rows.now.items c to ≡ []) }
    ensures none { IfNone result ((a : ℕ) → link rows.now.items a to ≡ []) }
{
    for a in start..rows.len() {
        if rows[a].link_len(to) > 0 {
            return Some(a as u8);
        }
    }
    None
}

// The start of that node, where it is not below `start`, and `count` links to it hold something.
fn next_start<T>(rows: &Vec<Row<T>>, to: usize, start: u8, count: u8) -> u8
    requires few { length rows.now.items < 256 }
    requires square { All (λ r. length r ≡ length rows.now.items) rows.now.items }
    requires is_node { to < length rows.now.items }
    requires empty { (a : ℕ) → a < start → link rows.now.items a to ≡ [] }
    requires none { count ≡ 0 → (a : ℕ) → link rows.now.items a to ≡ [] }
    ensures { (a : ℕ) → a < result → link rows.now.items a to ≡ [] }
{
    if count == 0 {
        return 255;
    }
    match first_filled(rows, to, start as usize) {
        Some(first) => first,
        None => 255,
    }
}

// A message of a link to node `to` was fed, and `left` are left in that link: where none is, one link less holds something.
fn lower<T>(kept: &mut Kept, rows: &Vec<Row<T>>, to: u8, left: usize)
    requires few { length rows.now.items < 256 }
    requires square { All (λ r. length r ≡ length rows.now.items) rows.now.items }
    requires counted { to < length kept.old.busy.items }
    requires some { 0 < slice_index kept.old.busy.items to }
    requires within { to < length rows.now.items }
    requires starts { StartsAt kept.old.starts.items rows.now.items }
    requires waiting { AreCounted kept.old.waiting.words kept.old.busy.items }
    requires none { slice_index kept.old.busy.items to - (1 - left) ≡ 0 → (a : ℕ) →
        link rows.now.items a to ≡ [] }
    ensures busy { kept.new.busy.items ≡ slice_set kept.old.busy.items to
        (slice_index kept.old.busy.items to - (1 - left)) }
    ensures starts { StartsAt kept.new.starts.items rows.now.items }
    ensures waiting { AreCounted kept.new.waiting.words kept.new.busy.items }
{
    if left > 0 {
        return;
    }
    let at = to as usize;
    kept.busy[at] -= 1;
    let count = kept.busy[at];
    kept.waiting.set(to, count > 0);
    let start = kept.starts[at];
    kept.starts[at] = next_start(rows, at, start, count);
}

// Moves what waits in `out` to the links of its sender, run by run. Most often that is one message, or many to one node.
fn deliver<T>(
    row: &mut Row<T>,
    kept: &mut Kept,
    out: &mut Out<T>,
    sender: u8,
) -> Result<(), AllocError>
    requires targets { AllBelow (length row.old) out.old.items }
    requires wide { length kept.old.busy.items ≡ length row.old }
    requires fits { CountsFit kept.old.busy.items row.old }
    requires starts { length kept.old.starts.items ≡ length row.old }
    requires own { (b : ℕ) → sender < slice_index_or kept.old.starts.items b 0 →
        slice_index_or row.old b [] ≡ [] }
    requires waiting { AreCounted kept.old.waiting.words kept.old.busy.items }
    ensures lowered { Lowers sender kept.old.starts.items kept.new.starts.items row.new }
    ensures moved { Delivers row.old out.old.items kept.old.busy.items row.new out.new.items
        kept.new.busy.items }
    ensures waiting { AreCounted kept.new.waiting.words kept.new.busy.items }
    ensures ok { OnOk result (out.new.items ≡ []) }
{
    let mut next = out.next_target();
    while let Some(to) = next {
        let at = to as usize;
        let held = row.link_len(at);
        next = row.put_run(to, out)?;
        if held == 0 {
            kept.fill(to, sender);
        }
    }
    Ok(())
}

impl<T: Drop> Links<T> {
    /// How many messages the link holds.
    pub fn waiting(&self, from: usize, to: u8) -> usize
        ensures { result ≡ length (link self.now.rows from to) }
    {
        if from >= self.rows.len() {
            return 0;
        }
        let row = &self.rows[from];
        let held = row.len(to as usize);
        if from == self.sent.sender {
            return held + self.sent.count_to(to);
        }
        held
    }

    /// The message at place i of the link.
    pub fn get(&self, from: usize, to: u8, i: usize) -> Option<&T>
        ensures { option_copied result ≡ slice_get (link self.now.rows from to) i }
    {
        if from >= self.rows.len() {
            return None;
        }
        let row = &self.rows[from];
        let held = row.len(to as usize);
        if i < held {
            return row.get(to as usize, i);
        }
        if from == self.sent.sender {
            return self.sent.item_to(to, i - held);
        }
        None
    }

    /// The node that is fed before all others what waits outside of the links, and who sent it.
    pub fn first_ahead(&self) -> Option<(u8, u8)>
        ensures some { IfSome result (λ p. 0 < length (link self.now.rows p.1 p.0)) }
        ensures within { IfSome result (λ p. p.0 < length self.now.rows) }
        ensures first { IfSome result (λ p. (j a : ℕ) → j < p.0 → link self.now.rows a j ≡ []) }
        ensures first_from { IfSome result (λ p. (c : ℕ) → c < p.1 →
            link self.now.rows c p.0 ≡ []) }
    {
        match (self.sent.target, &self.sent.ahead) {
            (Some(target), Input::From(from, _)) => Some((target, *from)),
            _ => None,
        }
    }

    /// Whether no message waits outside of the links.
    pub fn is_clear(&self) -> bool
        ensures { result ≡ self.now.clear }
    {
        self.sent.is_empty()
    }

    /// The first node to which a link holds a message, where no message waits outside of the links.
    pub fn first_busy(&self) -> Option<u8>
        requires clear { self.now.clear ≡ true }
        ensures within { IfSome result (λ k. k < length self.now.rows) }
        ensures first { IfSome result (λ k. (j a : ℕ) → j < k → link self.now.rows a j ≡ []) }
        ensures none { IfNone result ((j a : ℕ) → j < length self.now.rows →
            link self.now.rows a j ≡ []) }
        ensures busy { IfSome result (λ k. ((a : ℕ) → link self.now.rows a k ≡ []) → ⊥) }
    {
        self.kept.waiting.first()
    }

    /// The least node whose link to that node holds a message, where no message waits outside of the links.
    pub fn first_sender(&self, to: u8) -> Option<u8>
        requires clear { self.now.clear ≡ true }
        requires is_node { to < length self.now.rows }
        ensures some { IfSome result (λ a. 0 < length (link self.now.rows a to)) }
        ensures first { IfSome result (λ a. (c : ℕ) → c < a → link self.now.rows c to ≡ []) }
        ensures none { IfNone result ((a : ℕ) → link self.now.rows a to ≡ []) }
    {
        let at = to as usize;
        let start = self.kept.starts[at];
        first_filled(&self.rows, at, start as usize)
    }

    /// The least node whose link to that node holds a message.
    pub fn first_from(&self, to: u8) -> Option<u8>
        ensures some { IfSome result (λ a. 0 < length (link self.now.rows a to)) }
        ensures first { IfSome result (λ a. (c : ℕ) → c < a → link self.now.rows c to ≡ []) }
        ensures none { IfNone result ((a : ℕ) → link self.now.rows a to ≡ []) }
    {
        if self.sent.is_empty() && (to as usize) < self.rows.len() {
            return self.first_sender(to);
        }
        for a in 0..self.rows.len() {
            if self.waiting(a, to) > 0 {
                return Some(a as u8);
            }
        }
        None
    }

    /// Moves what waits to the links.
    #[inline]
    pub fn settle(&mut self) -> Result<(), AllocError>
        ensures rows { self.new.rows ≡ self.old.rows }
        ensures ok { OnOk result (self.new.clear ≡ true) }
    {
        if self.sent.is_empty() {
            return Ok(());
        }
        self.settle_all()
    }

    // The same where something waits.
    #[inline(never)]
    fn settle_all(&mut self) -> Result<(), AllocError>
        requires { self.old.clear ≡ false }
        ensures rows { self.new.rows ≡ self.old.rows }
        ensures ok { OnOk result (self.new.clear ≡ true) }
    {
        let sender = self.sent.sender;
        self.sent.rejoin()?;
        let row = &mut self.rows[sender];
        deliver(row, &mut self.kept, &mut self.sent.out, sender as u8)
    }

    // Takes what the last step sent as what is fed before all else, or moves it to the links.
    #[inline(always)]
    fn send(&mut self)
        ensures { self.new.rows ≡ self.old.rows }
    {
        if !self.sent.take_ahead(&self.kept.waiting) {
            let _ = self.settle();
        }
    }

    // Feeds the first message of the link to its node.
    fn serve<M: Machine<Msg = T>>(
        &mut self,
        alloc: Global,
        from: u8,
        to: u8,
        node: &mut M,
    ) -> Result<(), AllocError>
        requires clear { self.old.clear ≡ true }
        requires holds { 0 < length (link self.old.rows from to) }
        requires peers { M.peer_count node.old ≡ length self.old.rows }
        ensures fed { OnOk result (Feeds M.steps to (Some from) self.old.rows node.old self.new.rows
            node.new) }
        ensures err_rows { OnErr result (self.new.rows ≡ self.old.rows) }
        ensures err_node { OnErr result (node.new ≡ node.old) }
        ensures same_peers { M.peer_count node.new ≡ M.peer_count node.old }
    {
        let at = to as usize;
        let row = &mut self.rows[from as usize];
        match row.serve(alloc, from, at, node, &mut self.sent.out) {
            Err(refused) => return Err(refused),
            Ok(()) => {}
        }
        let left = row.link_len(at);
        lower(&mut self.kept, &self.rows, to, left);
        self.sent.sender = at;
        self.send();
        Ok(())
    }

    // Lets the node do its task.
    fn work<M: Machine<Msg = T>>(
        &mut self,
        alloc: Global,
        at: u8,
        node: &mut M,
    ) -> Result<(), AllocError>
        requires clear { self.old.clear ≡ true }
        requires is_node { at < length self.old.rows }
        requires task { M.has_work node.old ≡ true }
        requires peers { M.peer_count node.old ≡ length self.old.rows }
        ensures fed { OnOk result (Feeds M.steps at None self.old.rows node.old self.new.rows
            node.new) }
        ensures err_rows { OnErr result (self.new.rows ≡ self.old.rows) }
        ensures err_node { OnErr result (node.new ≡ node.old) }
        ensures same_peers { M.peer_count node.new ≡ M.peer_count node.old }
    {
        node.known();
        let mut task = Input::Task;
        match node.step(alloc, &mut task, &mut self.sent.out) {
            Ok(()) => {
                self.sent.sender = at as usize;
                self.send();
                return Ok(());
            }
            Err(_) => return Err(AllocError),
        }
    }

    /// Feeds the node what the event feeds it.
    // Inlined, as `Net::step` is: which event is next is known there.
    #[inline(always)]
    pub fn feed<M: Machine<Msg = T>>(
        &mut self,
        alloc: Global,
        event: Event,
        node: &mut M,
    ) -> Result<(), AllocError>
        requires is_node { event.node < length self.old.rows }
        requires ready { is_ready M.has_work (Some node.old)
            (input_from self.old.rows event.node event.from) ≡ true }
        requires peers { M.peer_count node.old ≡ length self.old.rows }
        ensures fed { OnOk result (Feeds M.steps event.node event.from self.old.rows node.old
            self.new.rows node.new) }
        ensures err_rows { OnErr result (self.new.rows ≡ self.old.rows) }
        ensures err_node { OnErr result (node.new ≡ node.old) }
        ensures same_peers { M.peer_count node.new ≡ M.peer_count node.old }
    {
        if self.sent.is_next(event) {
            self.sent.serve(alloc, node)?;
            self.send();
            return Ok(());
        }
        self.settle()?;
        match event.from {
            Some(from) => self.serve(alloc, from, event.node, node),
            None => self.work(alloc, event.node, node),
        }
    }
}

impl<T: Drop> Links<T> {
    #[tactic(auto, using(crate::proofs::Starts::starts_unknown))]
    /// The links of these rows.
    pub fn of_rows(alloc: Global, rows: Vec<Row<T>>) -> Result<Links<T>, AllocError>
        requires few { length rows.items < 256 }
        requires square { All (λ r. length r ≡ length rows.items) rows.items }
        ensures { IfOk result (λ l. l ≡ record { rows = rows.items; clear = true }) }
    {
        let busy = count_all(alloc, &rows)?;
        let starts = unknown_starts(alloc, rows.len())?;
        let waiting = marks_of(&busy);
        Ok(Links {
            rows,
            kept: Kept {
                busy,
                starts,
                waiting,
            },
            sent: Sent::none(alloc),
        })
    }

    /// The rows, where nothing waits.
    pub fn into_rows(self) -> Vec<Row<T>>
        requires { self.clear ≡ true }
        ensures { result.items ≡ self.rows }
    {
        let Links {
            rows,
            kept: _,
            sent: _,
        } = self;
        rows
    }
}
