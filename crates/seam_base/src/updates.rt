//! Clients of base parts, and what they are told.

ghost use Rattle.std.specs.Prelude.{◌≡◌, ◌↔◌, ◌&&◌, ℕ, IsTrue, IfErr, OnOk, OnErr, true, false, Some, None};
ghost use Rattle.std.specs.Ordering.{nat_cmp};
ghost use Rattle.std.specs.List.{list_any};
ghost use Rattle.seam_node_steps.specs.Prelude.{in_group, properties_of, Settings as AllSettings, next_item, may_offer, is_ready, may_rise};
ghost use Rattle.seam_node_steps.specs.Prelude.{node_with, has_any, with_proxy, part_begins, new_proxy as empty_proxy, offered_update};
ghost use Rattle.seam_node_steps.specs.Prelude.{shows_next, stray_proxy_update, proxy_is_ready, may_show};
ghost use Rattle.seam_defs.specs.declared.flags.Group.TheVariants as group;
ghost use Rattle.seam_base.specs.Nodes.{has_update};
ghost use Rattle.seam_base.specs.Parts.{proxy_of, client_with_update, with_update, with_shown};

use crate::calls::text_of;
use crate::part::{BasePart, Proxy, reserve_line};
use seam_call::{ClientText, Shown, Update};
use seam_defs::{Defs, Group, Property, TypeDef};
use seam_entity::may_rise as number_may_rise;
use seam_order::{InOrder, Offer};
use seam_table::NoMemoryFor;
use std::alloc::{AllocError, Global};

// Whether the client may be offered the update, and its line has a number.
fn may_update(proxy: &Proxy, update: &Update) -> bool
    ensures { result ≡ (may_offer proxy.now.updates update.now.number && may_rise proxy.now.last) }
{
    let n = update.number;
    (n > 0 && (number_may_rise(n) && !proxy.updates.holds(n))) && number_may_rise(proxy.last)
}

// Whether the client has a ready update after it was offered this one exactly where it has one before.
fn stays_as_ready(proxy: &Proxy, update: &Update) -> bool
    requires { may_offer proxy.now.updates update.now.number ≡ true }
    ensures { IsTrue result ↔ is_ready (client_with_update update.now (proxy_of proxy.now)).updates
        ≡ is_ready proxy.now.updates }
{
    // An update in its turn makes the one after it ready.
    update.number != proxy.updates.next_number() || !proxy.updates.holds(update.number + 1)
}

// Offers the update to the client's order. In its turn it is shown. What it shows is taken out of it, so that it is moved once.
fn offer_update(proxy: &mut Proxy, update: &mut Update) -> Result<(), AllocError>
    requires may { may_offer proxy.old.updates update.old.number ≡ true }
    requires small { may_rise proxy.old.last ≡ true }
    ensures after { OnOk result (proxy_of proxy.new ≡ offered_update (proxy_of proxy.old) update.old
        (nat_cmp update.old.number proxy.old.updates.next)) }
    ensures err { OnErr result (proxy_of proxy.new ≡ proxy_of proxy.old) }
    ensures err_update { OnErr result (update.new ≡ update.old) }
{
    reserve_line(&mut proxy.lines)?;
    let shown = std::mem::replace(&mut update.shown, Shown::Leave(update.entity));
    match proxy.updates.offer(update.number, shown) {
        Ok(Offer::Next(shown)) => {
            proxy.show(ClientText::Shown(shown));
            return Ok(());
        }
        Ok(_) => return Ok(()),
        Err(refused) => {
            let shown = refused.item;
            update.shown = shown;
            return Err(AllocError);
        }
    }
}

// Shows the update whose turn it is, if it has come.
fn show_next(proxy: &mut Proxy) -> Result<(), AllocError>
    requires small { may_rise proxy.old.last ≡ true }
    ensures after { OnOk result (proxy_of proxy.new ≡ shows_next (proxy_of proxy.old)
        (next_item proxy.old.updates)) }
    ensures err { OnErr result (proxy_of proxy.new ≡ proxy_of proxy.old) }
{
    reserve_line(&mut proxy.lines)?;
    let Some(shown) = proxy.updates.take_next() else {
        return Ok(());
    };
    proxy.show(ClientText::Shown(shown));
    Ok(())
}

// Whether one of the properties is for clients.
fn is_any_for_clients(properties: &[Property]) -> bool
    ensures { result ≡ list_any (λ p. in_group p.flag group.BaseClient) properties.now }
{
    properties
        .iter()
        .any(|property| property.flag.in_group(Group::BaseClient))
}

// Whether the type has something for clients.
fn has_for_clients(t: &TypeDef) -> bool
    ensures { result ≡ has_any (properties_of t.now.properties group.BaseClient) }
{
    is_any_for_clients(t.properties.as_slice())
}

// A client that was shown nothing.
fn new_proxy(alloc: Global) -> Proxy
    ensures { proxy_of result ≡ empty_proxy }
{
    Proxy {
        updates: InOrder::new(alloc),
        lines: Vec::new(alloc),
        last: 0,
    }
}

impl BasePart {
    /// Whether the client may not be offered the update, or a further line would have no number. `false` where there is no client.
    pub fn refuses(&self, update: &Update) -> bool
        ensures { result ≡ stray_proxy_update update.now self.now.proxy }
    {
        match &self.body.proxy {
            Some(proxy) => !may_update(proxy, update),
            None => false,
        }
    }

    /// Whether the update makes no difference to whether the client has a ready one. `true` where there is no client.
    pub fn stays_as_ready(&self, update: &Update) -> bool
        requires { stray_proxy_update update.now self.now.proxy ≡ false }
        ensures { IsTrue result ↔ has_update (with_update update.now self.now)
            ≡ has_update self.now }
    {
        match &self.body.proxy {
            Some(proxy) => stays_as_ready(proxy, update),
            None => true,
        }
    }

    /// Whether the client has a ready update.
    pub fn is_client_ready(&self) -> bool
        ensures { result ≡ proxy_is_ready self.now.proxy }
    {
        match &self.body.proxy {
            Some(proxy) => proxy.updates.is_ready(),
            None => false,
        }
    }

    /// Offers the update to the client, if there is one. The update is used up then.
    pub fn offer_update(&mut self, update: &mut Update) -> Result<(), AllocError>
        requires { stray_proxy_update update.old self.old.proxy ≡ false }
        ensures after { OnOk result (self.new ≡ with_update update.old self.old) }

        // If allocation fails, nothing has changed.
        ensures err { OnErr result (self.new ≡ self.old) }
        ensures err_update { OnErr result (update.new ≡ update.old) }
    {
        match &mut self.body.proxy {
            Some(proxy) => return offer_update(proxy, update),
            None => return Ok(()),
        }
    }

    /// Shows the client, if there is one, the ready update.
    pub fn show_next(&mut self) -> Result<(), AllocError>
        requires { may_show self.old.proxy ≡ true }
        ensures after { OnOk result (self.new ≡ with_shown self.old) }
        ensures err { OnErr result (self.new ≡ self.old) }
    {
        match &mut self.body.proxy {
            Some(proxy) => return show_next(proxy),
            None => return Ok(()),
        }
    }

    /// Gives the part a client. If the part's type has something for clients, the client is shown the part.
    pub fn attach(&mut self, alloc: Global, defs: &Defs) -> Result<(), AllocError>
        ensures after { (me : ℕ) (settings : AllSettings) →
            OnOk result (self.new ≡ with_proxy (node_with defs.now me settings) self.old) }
        ensures err { OnErr result (self.new ≡ self.old) }
    {
        let t = defs.type_at(self.body.ty);
        let text = text_of(t, self.body.version, &self.body.state, has_for_clients(t))?;
        let mut proxy = new_proxy(alloc);
        reserve_line(&mut proxy.lines)?;
        if let Some(text) = text {
            proxy.show(text);
        }
        self.body.proxy = Some(Box::new(alloc, proxy)?);
        Ok(())
    }

    /// Begins a round, in which nothing was done and no line was shown yet.
    pub fn start_round(&mut self)
        ensures { self.new ≡ part_begins self.old }
    {
        self.body.done.clear();
        if let Some(proxy) = &mut self.body.proxy {
            proxy.lines.clear();
        }
    }
}
