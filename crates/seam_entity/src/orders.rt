//! The calls of several senders, each sender's in the order of their numbers.

ghost use Rattle.std.specs.Prelude.{◌≡◌, ◌<◌, ◌≤◌, ◌^◌, [], true, false, is_some, IfOk, IfErr, OnOk, OnErr, length, map};
ghost use Rattle.std.specs.Prelude.{option_copied, IfSome, IfNone, ℕ, Bool, ◌||◌};
ghost use Rattle.std.specs.List.{AllWithin};
ghost use Rattle.std.specs.List.Sorted.{IsStrictlySortedBy};
ghost use Rattle.std.specs.Ordering.{nat_cmp};
ghost use Rattle.std.specs.FinMap as table;
ghost use Rattle.std.specs.FinSet as set;
ghost use Rattle.seam_order.specs.Held.{item_at};
ghost use Rattle.seam_order.specs.Offers.{offer_answer, after_offer};
ghost use Rattle.seam_call.specs.Senders.{rank_of};
ghost use Rattle.seam_entity.specs.Orders.{order_of, view_of};
ghost use Rattle.seam_entity.specs.Executing.{fits_cell_part as call_fits};
ghost use Rattle.seam_entity.specs.Preparing.{node_with};
ghost use Rattle.seam_entity.specs.ReadyCalls.{has_ready, ready_call, after_ready, all_held};
ghost use Rattle.seam_entity.specs.SenderPlaces.{AreOrdered, IsAt, IsGap, NoneReady, IsFirstReady};
ghost use Rattle.seam_entity.specs.Covers.{AreCovered, is_covered as is_covered_in, is_not_held as is_offer_not_held};
ghost use Rattle.seam_entity.specs.Orders.{Orders as AllOrders};
ghost use Rattle.seam_call.specs.declared.call.Call.{Call as CallData};

use crate::cover::Cover;
use crate::fitting::holds_fitting;
use crate::room::insert;
use seam_call::{Call, Sender};
use seam_defs::{Deed, Defs, Settings, TypeDef};
use seam_order::{InOrder, Offer};
use seam_table::NoMemoryFor;
use std::alloc::{AllocError, Global};
use std::marker::Model;

/// The orders of the senders that call a part.
///
/// Contracts see each order from which something came, under its sender's place in the order of
/// senders, and beside them the senders whose order has a place.
#[derive(Drop)]
pub struct Orders {
    // In the order of the senders.
    entries: Vec<(Sender, InOrder<Call>)>,
    // What is known of all calls that are held, if anything is. In a box, since most parts hold none.
    cover: Option<Box<Cover>>,
}

impl Model for Orders {
    ghost use Rattle.std.specs.Coded.{codes};
    ghost use Rattle.std.specs.FinMap as table;
    ghost use Rattle.std.specs.FinSet as set;
    ghost use Rattle.seam_entity.specs.Orders.{OrdersView};

    ghost Value = { OrdersView };

    ghost coded = { Prim.hlevel (codes, table.code, set.code) };

    ghost use Rattle.std.specs.List.Sorted.{IsStrictlySortedBy};
    ghost use Rattle.std.specs.Ordering.{nat_cmp};
    ghost use Rattle.std.specs.Prelude.{map};
    ghost use Rattle.seam_call.specs.Senders.{rank_of};
    ghost use Rattle.seam_entity.specs.Orders.{view_of};
    ghost use Rattle.seam_entity.specs.Covers.{AreCovered};

    ghost view = { λ o. view_of o.entries.items };

    ghost invariant = { λ o. IsStrictlySortedBy nat_cmp (map (λ p. rank_of p.0) o.entries.items)
        × AreCovered o.cover (view_of o.entries.items).orders };
}

// How many of the senders come before that rank.
fn place_of(entries: &[(Sender, InOrder<Call>)], rank: u64) -> usize
    requires { AreOrdered entries.now }
    ensures bound { result ≤ length entries.now }
    ensures below { AllWithin (λ p. rank_of p.0 < rank) entries.now 0 result }
    ensures above { AllWithin (λ p. rank ≤ rank_of p.0) entries.now result (length entries.now) }
{
    entries.partition_point(|entry| entry.0.rank() < rank)
}

// Where the sender of that rank is, or where it would go. Most parts hear from one sender, so the first is asked first.
fn search(entries: &[(Sender, InOrder<Call>)], rank: u64) -> Result<usize, usize>
    requires { AreOrdered entries.now }
    ensures found { IfOk result (IsAt entries.now rank) }
    ensures absent { IfErr result (IsGap entries.now rank) }
{
    let Some(first) = entries.get(0) else {
        return Err(0);
    };
    if first.0.rank() == rank {
        return Ok(0);
    }
    search_all(entries, rank)
}

// The same among several senders.
#[inline(never)]
fn search_all(entries: &[(Sender, InOrder<Call>)], rank: u64) -> Result<usize, usize>
    requires { AreOrdered entries.now }
    ensures found { IfOk result (IsAt entries.now rank) }
    ensures absent { IfErr result (IsGap entries.now rank) }
{
    let at = place_of(entries, rank);
    let Some(entry) = entries.get(at) else {
        return Err(at);
    };
    if entry.0.rank() == rank {
        Ok(at)
    } else {
        Err(at)
    }
}

// The number of the sender's call whose turn it is.
fn next_in(entries: &[(Sender, InOrder<Call>)], sender: Sender) -> u64
    requires { AreOrdered entries.now }
    ensures { result ≡ (order_of (view_of entries.now).orders sender).next }
{
    match search(entries, sender.rank()) {
        Ok(at) => entries[at].1.next_number(),
        Err(_) => 1,
    }
}

// Whether the sender's call of that number is held.
fn holds_in(entries: &[(Sender, InOrder<Call>)], sender: Sender, number: u64) -> bool
    requires { AreOrdered entries.now }
    ensures { result ≡ is_some (item_at number (order_of (view_of entries.now).orders
        sender).held) }
{
    match search(entries, sender.rank()) {
        Ok(at) => entries[at].1.holds(number),
        Err(_) => false,
    }
}

// Makes a place for the sender's order, where there is none.
fn make_place(entries: &mut Vec<(Sender, InOrder<Call>)>, sender: &Sender) -> Result<(), AllocError>
    requires { AreOrdered entries.old.items }
    ensures same { (view_of entries.new.items).orders ≡ (view_of entries.old.items).orders }
    ensures room { OnOk result (set.contains (view_of entries.new.items).senders
        (rank_of sender.now) ≡ true) }
    ensures ordered { AreOrdered entries.new.items }
{
    match search(entries, sender.rank()) {
        Ok(_) => Ok(()),
        Err(at) => insert_sender(entries, at, sender),
    }
}

// Makes a place for the order of a sender that has none.
#[inline(never)]
fn insert_sender(
    entries: &mut Vec<(Sender, InOrder<Call>)>,
    at: usize,
    sender: &Sender,
) -> Result<(), AllocError>
    requires ordered { AreOrdered entries.old.items }
    requires gap { IsGap entries.old.items (rank_of sender.now) at }
    ensures same { (view_of entries.new.items).orders ≡ (view_of entries.old.items).orders }
    ensures room { OnOk result (set.contains (view_of entries.new.items).senders
        (rank_of sender.now) ≡ true) }
    ensures ordered { AreOrdered entries.new.items }
{
    let alloc = *entries.allocator();
    insert(entries, at, (*sender, InOrder::new(alloc)))
}

// Offers the call to its sender's order, which has a place.
#[inline(always)]
fn offer_in(
    entries: &mut Vec<(Sender, InOrder<Call>)>,
    call: Call,
) -> Result<Offer<Call>, NoMemoryFor<Call>>
    requires ordered { AreOrdered entries.old.items }
    requires from_one { 1 ≤ call.number }
    requires small { call.number < 2 ^ 62 }
    requires not_held { is_some (item_at call.number (order_of (view_of entries.old.items).orders
        call.sender).held) ≡ false }
    requires room { set.contains (view_of entries.old.items).senders (rank_of call.sender) ≡ true }
    ensures answer { let o = order_of (view_of entries.old.items).orders call.sender in
        IfOk result (λ a. a ≡ offer_answer o.next call.number call) }
    ensures after { let o = order_of (view_of entries.old.items).orders call.sender in
        OnOk result ((view_of entries.new.items).orders
        ≡ table.insert (view_of entries.old.items).orders (rank_of call.sender)
        (after_offer o call.number call)) }
    ensures err { OnErr result ((view_of entries.new.items).orders
        ≡ (view_of entries.old.items).orders) }
    ensures err_item { IfErr result (λ e. e.item ≡ call) }
    ensures err_only_above { OnErr result ((order_of (view_of entries.old.items).orders
        call.sender).next < call.number) }
    ensures kept { AreOrdered entries.new.items }
{
    let Ok(at) = search(entries, call.sender.rank()) else {
        unreachable!()
    };
    let entry = &mut entries[at];
    entry.1.offer(call.number, call)
}

// Whether each call that is held is one for the cell part of that entity and fits that type.
fn all_fit(
    entries: &[(Sender, InOrder<Call>)],
    defs: &Defs,
    settings: &Settings,
    entity: u32,
    ty: u16,
) -> bool
    requires { AreOrdered entries.now }
    ensures { (me : ℕ) → result ≡ all_held (call_fits (node_with defs.now me settings.now) entity
        ty) (view_of entries.now).orders }
{
    for entry in entries {
        if !holds_fitting(&entry.1, defs, settings, entity, ty) {
            return false;
        }
    }
    true
}

// Whether the order holds nothing.
fn is_empty(order: &InOrder<Call>) -> bool
    ensures { result ≡ true → order.now.held ≡ [] }
{
    match order.held_at(0) {
        Some(_) => false,
        None => true,
    }
}

// Whether nothing is held.
fn holds_none(entries: &[(Sender, InOrder<Call>)]) -> bool
    requires { AreOrdered entries.now }
    ensures { result ≡ true → (test : CallData → Bool) → all_held test (view_of entries.now).orders
        ≡ true }
{
    for entry in entries {
        if !is_empty(&entry.1) {
            return false;
        }
    }
    true
}

// Whether the call is covered, where there is a cover.
fn is_covered(cover: &Option<Box<Cover>>, call: &Call) -> bool
    ensures { result ≡ is_covered_in cover.now call.now }
{
    match cover {
        Some(cover) => cover.covers(call),
        None => true,
    }
}

// Whether the offered call is not held.
fn is_not_held(answer: &Result<Offer<Call>, NoMemoryFor<Call>>) -> bool
    ensures { result ≡ is_offer_not_held answer.now }
{
    match answer {
        Ok(Offer::Held) => false,
        _ => true,
    }
}

// Whether what is held is still covered after an offer of a call that was covered or not.
fn stays_covered(covered: bool, answer: &Result<Offer<Call>, NoMemoryFor<Call>>) -> bool
    ensures { result ≡ (covered || is_offer_not_held answer.now) }
{
    covered || is_not_held(answer)
}

// Keeps the cover where it holds.
fn keep_if(cover: &mut Option<Box<Cover>>, holds: bool)
    ensures { (orders : AllOrders) → (holds ≡ true → AreCovered cover.old orders) →
        AreCovered cover.new orders }
{
    if !holds {
        *cover = None;
    }
}

// A cover of the calls of that entity, unless allocation fails.
fn new_cover(alloc: Global, entity: u32) -> Option<Box<Cover>> {
    match Box::new(alloc, Cover::new(alloc, entity)) {
        Ok(cover) => Some(cover),
        Err(_) => None,
    }
}

// Begins a cover of the calls of that entity, where there is none and nothing is held.
fn begin_cover(
    cover: &mut Option<Box<Cover>>,
    alloc: Global,
    entries: &[(Sender, InOrder<Call>)],
    entity: u32,
)
    requires ordered { AreOrdered entries.now }
    requires covered { AreCovered cover.old (view_of entries.now).orders }
    ensures { AreCovered cover.new (view_of entries.now).orders }
{
    if cover.is_some() {
        return;
    }
    if !holds_none(entries) {
        return;
    }
    *cover = new_cover(alloc, entity);
}

// Covers the deed too, where there is a cover and the deed is one of the type.
fn widen(cover: &mut Option<Box<Cover>>, t: &TypeDef, deed: &Deed)
    ensures { (orders : AllOrders) → AreCovered cover.old orders → AreCovered cover.new orders }
{
    let Some(cover) = cover else {
        return;
    };
    let _refused = cover.widen(t, deed);
}

// Whether all that is covered fits.
fn fits_all(
    cover: &Option<Box<Cover>>,
    defs: &Defs,
    settings: &Settings,
    entity: u32,
    ty: u16,
) -> bool
    ensures { result ≡ true → (me : ℕ) (orders : AllOrders) → AreCovered cover.now orders →
        all_held (call_fits (node_with defs.now me settings.now) entity ty) orders ≡ true }
{
    match cover {
        Some(cover) => cover.fits(defs, settings, entity, ty),
        None => false,
    }
}

// The place of the first sender that has a ready call.
fn first_ready(entries: &[(Sender, InOrder<Call>)]) -> Option<usize>
    ensures some { IfSome result (IsFirstReady entries.now) }
    ensures none { IfNone result (NoneReady entries.now (length entries.now)) }
{
    for i in 0..entries.len() {
        if entries[i].1.is_ready() {
            return Some(i);
        }
    }
    None
}

// Whether a sender has a ready call.
fn has_ready_in(entries: &[(Sender, InOrder<Call>)]) -> bool
    requires { AreOrdered entries.now }
    ensures { result ≡ has_ready (view_of entries.now).orders }
{
    first_ready(entries).is_some()
}

// The ready call of the first sender that has one.
fn ready_in(entries: &[(Sender, InOrder<Call>)]) -> Option<&Call>
    requires { AreOrdered entries.now }
    ensures { option_copied result ≡ ready_call (view_of entries.now).orders }
{
    let Some(at) = first_ready(entries) else {
        return None;
    };
    entries[at].1.peek()
}

// Takes that call.
fn take_ready_in(entries: &mut Vec<(Sender, InOrder<Call>)>) -> Option<Call>
    requires { AreOrdered entries.old.items }
    ensures call { result ≡ ready_call (view_of entries.old.items).orders }
    ensures after { (view_of entries.new.items).orders ≡ after_ready
        (view_of entries.old.items).orders }
    ensures kept { AreOrdered entries.new.items }
{
    let Some(at) = first_ready(entries) else {
        return None;
    };
    let entry = &mut entries[at];
    // `next_number` is called for its clause that numbers begin at 1.
    let _ = entry.1.next_number();
    entry.1.take_next()
}

impl Orders {
    /// Nothing has come.
    pub fn new(alloc: Global) -> Self
        ensures { result ≡ record { orders = table.empty; senders = set.empty } }
    {
        Orders {
            entries: Vec::new(alloc),
            cover: None,
        }
    }

    /// The number of the sender's call whose turn it is.
    pub fn next_number(&self, sender: Sender) -> u64
        ensures { result ≡ (order_of self.now.orders sender).next }
    {
        next_in(&self.entries, sender)
    }

    /// Whether the sender's call of that number is held.
    pub fn holds(&self, sender: Sender, number: u64) -> bool
        ensures { result ≡ is_some (item_at number (order_of self.now.orders sender).held) }
    {
        holds_in(&self.entries, sender, number)
    }

    /// Makes a place for the sender's order, so that a call whose turn it is can be offered without memory.
    pub fn reserve(&mut self, sender: &Sender) -> Result<(), AllocError>
        ensures same { self.new.orders ≡ self.old.orders }
        ensures room { OnOk result (set.contains self.new.senders (rank_of sender.now) ≡ true) }
    {
        make_place(&mut self.entries, sender)
    }

    /// Covers a call with that deed, which is to be held, so that `all_fit` need not look at each call. If allocation fails, it does.
    pub(crate) fn cover_deed(&mut self, defs: &Defs, entity: u32, ty: u16, deed: &Deed)
        ensures { self.new ≡ self.old }
    {
        let alloc = *self.entries.allocator();
        begin_cover(&mut self.cover, alloc, &self.entries, entity);
        widen(&mut self.cover, defs.type_at(ty), deed);
    }

    /// Gives back what it keeps of held calls beside them.
    pub(crate) fn uncover(&mut self)
        ensures { self.new ≡ self.old }
    {
        self.cover = None;
    }

    /// Offers the call to its sender's order, which has a place. Only a call that is to be held takes memory.
    #[inline(always)]
    pub fn offer(&mut self, call: Call) -> Result<Offer<Call>, NoMemoryFor<Call>>
        requires from_one { 1 ≤ call.number }
        requires small { call.number < 2 ^ 62 }
        requires not_held { is_some (item_at call.number
            (order_of self.old.orders call.sender).held) ≡ false }
        requires room { set.contains self.old.senders (rank_of call.sender) ≡ true }
        ensures answer { IfOk result (λ a. a ≡ offer_answer
            (order_of self.old.orders call.sender).next call.number call) }
        ensures after { OnOk result (self.new.orders ≡ table.insert self.old.orders
            (rank_of call.sender) (after_offer (order_of self.old.orders call.sender)
            call.number call)) }

        // If allocation fails, the call comes back and nothing has changed.
        ensures err { OnErr result (self.new.orders ≡ self.old.orders) }
        ensures err_item { IfErr result (λ e. e.item ≡ call) }
        ensures err_only_above { OnErr result ((order_of self.old.orders call.sender).next
            < call.number) }
    {
        let covered = is_covered(&self.cover, &call);
        let answer = offer_in(&mut self.entries, call);
        keep_if(&mut self.cover, stays_covered(covered, &answer));
        answer
    }

    /// Whether each call that is held is one for the cell part of that entity and fits that type.
    pub fn all_fit(&self, defs: &Defs, settings: &Settings, entity: u32, ty: u16) -> bool
        ensures { (me : ℕ) → result ≡ all_held (call_fits (node_with defs.now me settings.now)
            entity ty) self.now.orders }
    {
        if fits_all(&self.cover, defs, settings, entity, ty) {
            return true;
        }
        all_fit(&self.entries, defs, settings, entity, ty)
    }

    /// Whether a call that is held has its turn.
    pub fn is_ready(&self) -> bool
        ensures { result ≡ has_ready self.now.orders }
    {
        has_ready_in(&self.entries)
    }

    /// The ready call of the least sender that has one.
    pub fn ready_call(&self) -> Option<&Call>
        ensures { option_copied result ≡ ready_call self.now.orders }
    {
        ready_in(&self.entries)
    }

    /// Takes that call.
    pub fn take_ready(&mut self) -> Option<Call>
        ensures call { result ≡ ready_call self.old.orders }
        ensures after { self.new.orders ≡ after_ready self.old.orders }
    {
        take_ready_in(&mut self.entries)
    }
}
