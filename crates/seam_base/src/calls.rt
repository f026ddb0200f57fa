//! Calls of a base part.

ghost use Rattle.std.specs.Prelude.{◌≡◌, ◌<◌, ◌≤◌, ◌^◌, ◌&&◌, ℕ, IfOk, IfErr, OnOk};
ghost use Rattle.std.specs.Prelude.{OnErr, true, false, is_some, option_map, Some, None, if◌then◌else◌, vec_len, vec_capacity};
ghost use Rattle.std.specs.FinSet as set;
ghost use Rattle.seam_node_steps.specs.Prelude.{client_of, Settings as AllSettings, item_at, rank_of, order_of, may_offer, ready_call};
ghost use Rattle.seam_node_steps.specs.Prelude.{Call as AnyCall, node_with, may_show, with_deed};
ghost use Rattle.seam_call.specs.declared.shown.ClientText.TheVariants as text;
ghost use Rattle.seam_entity.specs.ReadyCalls.{after_ready};
ghost use Rattle.seam_base.specs.Nodes.{has_call};
ghost use Rattle.seam_node_steps.specs.BaseCases.{may_execute, with_offer, executed};
ghost use Rattle.seam_base.specs.Parts.{part_of, client_in, shows, told, with_state};
ghost use Rattle.seam_base.specs.Parts.{with_orders, with_call, with_ready_call, HasLine, HasRoom};

use crate::part::{BasePart, Body, Proxy, reserve_line};
use seam_call::{Call, ClientText, Sender};
use seam_defs::{Defs, Group, State, TypeDef};
use seam_entity::reserve_one;
use seam_order::Offer;
use seam_table::NoMemoryFor;
use std::alloc::{AllocError, Global};

// What a call leaves: the state after it, and the text that the client is shown, if it is shown one.
#[derive(Drop)]
struct After {
    state: State,
    text: Option<ClientText>,
}

// Makes room for a line of the client, if there is one.
fn reserve_client(proxy: &mut Option<Box<Proxy>>) -> Result<(), AllocError>
    ensures same { option_map client_in proxy.new ≡ option_map client_in proxy.old }
    ensures room { OnOk result (HasLine proxy.new) }
{
    match proxy {
        Some(proxy) => return reserve_line(&mut proxy.lines),
        None => return Ok(()),
    }
}

// Makes room for a done call, and for a line.
fn make_place(body: &mut Body) -> Result<(), AllocError>
    ensures same { part_of body.new ≡ part_of body.old }
    ensures orders { body.new.orders ≡ body.old.orders }
    ensures done { OnOk result (vec_len body.new.done < vec_capacity body.new.done) }
    ensures line { OnOk result (HasLine body.new.proxy) }
{
    reserve_one(&mut body.done)?;
    reserve_client(&mut body.proxy)
}

// Makes room for a call of the sender whose turn it is, and for a line.
fn make_room(body: &mut Body, sender: &Sender) -> Result<(), AllocError>
    ensures same { part_of body.new ≡ part_of body.old }
    ensures room { OnOk result (HasRoom body.new (rank_of sender.now)) }
{
    body.orders.reserve(sender)?;
    make_place(body)
}

/// The text of the part at that version with that state, where it is due.
pub(crate) fn text_of(
    t: &TypeDef,
    version: u64,
    state: &State,
    due: bool,
) -> Result<Option<ClientText>, AllocError>
    ensures { IfOk result (λ o. o ≡ (if due then Some (text.Base version
        (client_of t.now.properties state.now)) else None)) }
{
    if !due {
        return Ok(None);
    }
    let props = t.project_group(Group::Base, &state.props, Group::BaseClient)?;
    Ok(Some(ClientText::Base(version, props)))
}

// Whether a client is shown the part where it has changed.
fn is_due(changed: bool, proxy: &Option<Box<Proxy>>) -> bool
    ensures { result ≡ (changed && is_some (option_map client_in proxy.now)) }
{
    changed && proxy.is_some()
}

// What the call will leave of the part.
fn look_ahead(body: &Body, defs: &Defs, call: &Call) -> Result<After, AllocError>
    requires version { body.now.version < 2 ^ 62 }
    ensures state { (me : ℕ) (settings : AllSettings) →
        IfOk result (λ a. a.state ≡ (with_deed (node_with defs.now me settings) (part_of body.now)
        call.now).state) }
    ensures text { (me : ℕ) (settings : AllSettings) → let h = node_with defs.now me settings in
        IfOk result (λ a. told (with_deed h (part_of body.now) call.now) a.text
        ≡ executed h (part_of body.now) call.now) }
{
    let t = defs.type_at(body.ty);
    let (state, changed) = t.state_after(&body.state, &call.deed)?;
    let due = is_due(changed, &body.proxy);
    let text = text_of(t, body.version + 1, &state, due)?;
    Ok(After { state, text })
}

// Shows the client, if there is one, the text, under its next number.
fn tell(proxy: &mut Option<Box<Proxy>>, text: ClientText)
    requires room { HasLine proxy.old }
    requires small { may_show (option_map client_in proxy.old) ≡ true }
    ensures { option_map client_in proxy.new ≡ option_map (shows text)
        (option_map client_in proxy.old) }
{
    match proxy {
        Some(proxy) => proxy.show(text),
        None => {}
    }
}

// Executes a call whose turn it is, from what was known of it before. It needs no memory, and cannot fail.
fn execute_after(body: &mut Body, call: Call, after: After)
    requires from_one { 1 ≤ call.number }
    requires small { call.number < 2 ^ 62 }
    requires may { may_execute (part_of body.old) ≡ true }
    requires not_held { is_some (item_at call.number (order_of body.old.orders.orders
        call.sender).held) ≡ false }
    requires turn { call.number ≡ (order_of body.old.orders.orders call.sender).next }
    requires room { HasRoom body.old (rank_of call.sender) }
    ensures { part_of body.new ≡ with_offer (told (with_state (part_of body.old) after.state call)
        after.text) call }
{
    body.state = after.state;
    body.version += 1;
    if let Some(text) = after.text {
        tell(&mut body.proxy, text);
    }
    match body.orders.offer(call) {
        Ok(Offer::Next(call)) => body.done.push_reserved(call),
        Ok(_) => unreachable!(),
        Err(_) => unreachable!(),
    }
}

// Executes a call whose turn it is.
fn execute_turn(body: &mut Body, defs: &Defs, call: Call) -> Result<(), NoMemoryFor<Call>>
    requires from_one { 1 ≤ call.number }
    requires small { call.number < 2 ^ 62 }
    requires may { may_execute (part_of body.old) ≡ true }
    requires not_held { is_some (item_at call.number (order_of body.old.orders.orders
        call.sender).held) ≡ false }
    requires turn { call.number ≡ (order_of body.old.orders.orders call.sender).next }
    ensures after { (me : ℕ) (settings : AllSettings) → let h = node_with defs.now me settings in
        OnOk result (part_of body.new ≡ with_offer (executed h (part_of body.old) call) call) }
    ensures err { OnErr result (part_of body.new ≡ part_of body.old) }
    ensures err_item { IfErr result (λ e. e.item ≡ call) }
{
    if make_room(body, &call.sender).is_err() {
        return Err(NoMemoryFor { item: call });
    }
    let Ok(after) = look_ahead(body, defs, &call) else {
        return Err(NoMemoryFor { item: call });
    };
    execute_after(body, call, after);
    Ok(())
}

// Holds a call that came early.
fn hold(body: &mut Body, call: Call) -> Result<(), NoMemoryFor<Call>>
    requires from_one { 1 ≤ call.number }
    requires small { call.number < 2 ^ 62 }
    requires not_held { is_some (item_at call.number (order_of body.old.orders.orders
        call.sender).held) ≡ false }
    ensures after { OnOk result (part_of body.new ≡ with_offer (part_of body.old) call) }
    ensures err { OnErr result (part_of body.new ≡ part_of body.old) }
    ensures err_item { IfErr result (λ e. e.item ≡ call) }
{
    if body.orders.reserve(&call.sender).is_err() {
        return Err(NoMemoryFor { item: call });
    }
    match body.orders.offer(call) {
        Ok(_) => return Ok(()),
        Err(refused) => return Err(refused),
    }
}

// Executes the call where it is its turn, holds it where it came early, and drops it where it came late.
fn offer_in(body: &mut Body, defs: &Defs, call: Call) -> Result<(), NoMemoryFor<Call>>
    requires may_offer { may_offer (order_of body.old.orders.orders call.sender) call.number
        ≡ true }
    requires may_execute { may_execute (part_of body.old) ≡ true }
    ensures after { (me : ℕ) (settings : AllSettings) →
        OnOk result (part_of body.new ≡ with_call (node_with defs.now me settings) call
        (part_of body.old)) }
    ensures err { OnErr result (part_of body.new ≡ part_of body.old) }
    ensures err_item { IfErr result (λ e. e.item ≡ call) }
{
    let next = body.orders.next_number(call.sender);
    if call.number < next {
        return Ok(());
    }
    if call.number > next {
        return hold(body, call);
    }
    execute_turn(body, defs, call)
}

// Executes the ready call of the least sender that has one, from what was known of it before.
fn execute_ready_after(body: &mut Body, after: After)
    requires may { may_execute (part_of body.old) ≡ true }
    requires done { vec_len body.old.done < vec_capacity body.old.done }
    requires line { HasLine body.old.proxy }
    requires ready { is_some (ready_call body.old.orders.orders) ≡ true }
    ensures { (k : AnyCall) → ready_call body.old.orders.orders ≡ Some k →
        part_of body.new ≡ with_orders (told (with_state (part_of body.old) after.state k)
        after.text) (after_ready body.old.orders.orders) }
{
    body.state = after.state;
    body.version += 1;
    if let Some(text) = after.text {
        tell(&mut body.proxy, text);
    }
    match body.orders.take_ready() {
        Some(call) => body.done.push_reserved(call),
        None => unreachable!(),
    }
}

// Executes the ready call of the least sender that has one.
fn execute_ready_in(body: &mut Body, defs: &Defs) -> Result<(), AllocError>
    requires { may_execute (part_of body.old) ≡ true }
    ensures after { (me : ℕ) (settings : AllSettings) →
        OnOk result (part_of body.new ≡ with_ready_call (node_with defs.now me settings)
        (part_of body.old)) }
    ensures err { OnErr result (part_of body.new ≡ part_of body.old) }
{
    make_place(body)?;
    let Some(call) = body.orders.ready_call() else {
        return Ok(());
    };
    let after = look_ahead(body, defs, call)?;
    execute_ready_after(body, after);
    Ok(())
}

impl BasePart {
    /// Executes the call where it is its turn, holds it where it came early, and drops it where it came late.
    pub fn offer(&mut self, defs: &Defs, call: Call) -> Result<(), NoMemoryFor<Call>>
        requires may_offer { may_offer (order_of self.old.orders call.sender) call.number ≡ true }
        requires may_execute { may_execute self.old ≡ true }
        ensures after { (me : ℕ) (settings : AllSettings) →
            OnOk result (self.new ≡ with_call (node_with defs.now me settings) call self.old) }

        // If allocation fails, the call comes back and nothing has changed.
        ensures err { OnErr result (self.new ≡ self.old) }
        ensures err_item { IfErr result (λ e. e.item ≡ call) }
    {
        offer_in(&mut self.body, defs, call)
    }

    /// Whether a sender has a ready call.
    pub fn is_ready(&self) -> bool
        ensures { result ≡ has_call self.now }
    {
        self.body.orders.is_ready()
    }

    /// Executes the ready call of the least sender that has one.
    pub fn execute_ready(&mut self, defs: &Defs) -> Result<(), AllocError>
        requires { may_execute self.old ≡ true }
        ensures after { (me : ℕ) (settings : AllSettings) →
            OnOk result (self.new ≡ with_ready_call (node_with defs.now me settings) self.old) }
        ensures err { OnErr result (self.new ≡ self.old) }
    {
        execute_ready_in(&mut self.body, defs)
    }
}
