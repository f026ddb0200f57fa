//! The base parts of a node, and marks of those that are ready.

ghost use Rattle.std.specs.Prelude.{◌≡◌, ◌≤◌, if◌then◌else◌, ℕ, true};
ghost use Rattle.std.specs.Prelude.{false, OnOk, OnErr, IfErr, Some, option_copied};
ghost use Rattle.std.specs.FinMap as table;
ghost use Rattle.seam_node_steps.specs.Prelude.{Map, each_value, PartView, Settings as AllSettings, node_with, with_proxy, new_part};
ghost use Rattle.seam_node_steps.specs.Prelude.{part_begins, stray_base_call, stray_proxy_update, is_base_node_of};
ghost use Rattle.seam_node_steps.specs.BaseCases.{may_execute};
ghost use Rattle.seam_base.specs.Nodes.{here_in, has_call, has_update, has_client, may_be_shown};
ghost use Rattle.seam_base.specs.Parts.{changed_at, with_call, with_ready_call, with_update, parts_with_update, with_shown};
ghost use Rattle.seam_base.specs.Marks.{AreMarked, PassAlike, passes, marked, least};

use crate::context::BaseContext;
use crate::mark_set::MarkSet;
use crate::part::BasePart;
use seam_call::{Call, Update};
use seam_defs::{Defs, MOST_BASE_NODES};
use seam_table::{HashKey, NoMemoryFor, Table};
use std::alloc::{AllocError, Global};
use std::marker::Model;

/// The base parts of a node by entity. Contracts see them as a finite map.
///
/// Marks find the least part with a ready call, and the least whose client has a ready update, without a search of all parts.
#[derive(Drop)]
pub struct Parts {
    items: Table<BasePart>,
    calls: MarkSet,
    updates: MarkSet,
}

impl Model for Parts {
    ghost use Rattle.std.specs.Coded.{codes};
    ghost use Rattle.std.specs.FinMap as table;
    ghost use Rattle.seam_node_steps.specs.Maps.{Map};
    ghost use Rattle.seam_node_steps.specs.Bases.{PartView};

    ghost Value = { Map PartView };

    ghost coded = { Prim.hlevel (codes, table.code) };

    ghost use Rattle.seam_base.specs.Nodes.{here_in, has_call, has_update};
    ghost use Rattle.seam_base.specs.Marks.{AreMarked};

    ghost view = { λ p. p.items.items };

    ghost invariant = { λ p. AreMarked has_call p.calls p.items.items × AreMarked has_update p.updates p.items.items };
}

// Leaves the entity its mark where it is ready, and takes it away else.
fn mark(marks: &mut MarkSet, e: u32, is_ready: bool)
    requires { table.get marks.old e ≡ Some tt }
    ensures { marks.new ≡ marked is_ready marks.old e tt }
{
    if is_ready {
        return;
    }
    marks.remove(e);
}

// Offers the update to the client of its part. Most leave it as ready as it was, and need no other mark.
fn update_part(
    part: &mut BasePart,
    updates: &mut MarkSet,
    update: &mut Update,
) -> Result<(), AllocError>
    requires fits { stray_proxy_update update.old part.old.proxy ≡ false }
    ensures after { OnOk result (part.new ≡ with_update update.old part.old) }
    ensures err { OnErr result (part.new ≡ part.old) }
    ensures err_update { OnErr result (update.new ≡ update.old) }
    ensures marks { (parts : Map PartView) → Some part.old ≡ table.get parts update.old.entity →
        AreMarked has_update updates.old parts → AreMarked has_update updates.new
        (table.insert parts update.old.entity part.new) }
{
    if part.stays_as_ready(update) {
        return part.offer_update(update);
    }
    let e = update.entity;
    updates.insert(e)?;
    let done = part.offer_update(update);
    mark(updates, e, part.is_client_ready());
    done
}

// Offers the update to the client of the entity's part, if it is here and may be offered it.
fn update_in(
    items: &mut Table<BasePart>,
    updates: &mut MarkSet,
    update: &mut Update,
) -> Result<(), AllocError>
    requires marks { AreMarked has_update updates.old items.old.items }
    ensures after { OnOk result (items.new.items ≡ parts_with_update update.old items.old.items) }
    ensures err { OnErr result (items.new.items ≡ items.old.items) }
    ensures err_update { OnErr result (update.new ≡ update.old) }
    ensures marks { AreMarked has_update updates.new items.new.items }
    ensures others { PassAlike has_call items.old.items items.new.items }
{
    let Some(part) = items.get_mut(update.entity) else {
        return Ok(());
    };
    if part.refuses(update) {
        return Ok(());
    }
    update_part(part, updates, update)
}

// Offers the call to the entity's part, which may be offered it.
fn call_in(
    items: &mut Table<BasePart>,
    calls: &mut MarkSet,
    known: &BaseContext,
    call: Call,
) -> Result<(), NoMemoryFor<Call>>
    requires fits { stray_base_call (here_in known.now) call (table.get items.old.items call.entity)
        ≡ false }
    requires marks { AreMarked has_call calls.old items.old.items }
    ensures after { OnOk result (items.new.items ≡ changed_at (with_call (here_in known.now) call)
        items.old.items call.entity) }
    ensures err { OnErr result (items.new.items ≡ items.old.items) }
    ensures err_item { IfErr result (λ e. e.item ≡ call) }
    ensures marks { AreMarked has_call calls.new items.new.items }
    ensures others { PassAlike has_update items.old.items items.new.items }
{
    let e = call.entity;
    let Ok(()) = calls.insert(e) else {
        return Err(NoMemoryFor { item: call });
    };
    let Some(part) = items.get_mut(e) else {
        unreachable!()
    };
    let done = part.offer(&known.defs, call);
    mark(calls, e, part.is_ready());
    done
}

// Executes a ready call of the entity's part.
fn ready_in(
    items: &mut Table<BasePart>,
    calls: &mut MarkSet,
    known: &BaseContext,
    e: u32,
) -> Result<(), AllocError>
    requires may { passes may_execute (table.get items.old.items e) ≡ true }
    requires marks { AreMarked has_call calls.old items.old.items }
    ensures after { OnOk result (items.new.items ≡ changed_at (with_ready_call (here_in known.now))
        items.old.items e) }
    ensures err { OnErr result (items.new.items ≡ items.old.items) }
    ensures marks { AreMarked has_call calls.new items.new.items }
    ensures others { PassAlike has_update items.old.items items.new.items }
{
    calls.insert(e)?;
    let Some(part) = items.get_mut(e) else {
        unreachable!()
    };
    let done = part.execute_ready(&known.defs);
    mark(calls, e, part.is_ready());
    done
}

// Shows the client of the entity's part the ready update.
fn show_in(items: &mut Table<BasePart>, updates: &mut MarkSet, e: u32) -> Result<(), AllocError>
    requires may { passes may_be_shown (table.get items.old.items e) ≡ true }
    requires marks { AreMarked has_update updates.old items.old.items }
    ensures after { OnOk result (items.new.items ≡ changed_at with_shown items.old.items e) }
    ensures err { OnErr result (items.new.items ≡ items.old.items) }
    ensures marks { AreMarked has_update updates.new items.new.items }
    ensures others { PassAlike has_call items.old.items items.new.items }
{
    updates.insert(e)?;
    let Some(part) = items.get_mut(e) else {
        unreachable!()
    };
    let done = part.show_next();
    mark(updates, e, part.is_client_ready());
    done
}

// Gives the entity's part, which has no client, one.
fn attach_in(
    items: &mut Table<BasePart>,
    alloc: Global,
    defs: &Defs,
    e: u32,
) -> Result<(), AllocError>
    requires { passes has_client (table.get items.old.items e) ≡ false }
    ensures after { (me : ℕ) (settings : AllSettings) →
        OnOk result (items.new.items ≡ changed_at (with_proxy (node_with defs.now me settings))
        items.old.items e) }
    ensures err { OnErr result (items.new.items ≡ items.old.items) }
    ensures calls { PassAlike has_call items.old.items items.new.items }
    ensures updates { PassAlike has_update items.old.items items.new.items }
{
    let Some(part) = items.get_mut(e) else {
        return Ok(());
    };
    let done = part.attach(alloc, defs);
    done
}

// Begins a round for a part. One that did nothing since one began, as most did, stays as it is.
fn begin(part: &mut BasePart)
    ensures { part.new ≡ part_begins part.old }
{
    if !part.has_begun() {
        part.start_round();
    }
}

impl Parts {
    /// No parts. They are found by a hash with this key.
    pub fn new(alloc: Global, key: HashKey) -> Self
        ensures { result ≡ table.empty }
    {
        Parts {
            items: Table::new(alloc, key),
            calls: MarkSet::new(alloc),
            updates: MarkSet::new(alloc),
        }
    }

    /// The entity's part, if it is here.
    pub fn get(&self, e: u32) -> Option<&BasePart>
        ensures { option_copied result ≡ table.get self.now e }
    {
        self.items.get(e)
    }

    /// Puts a part that is not ready for anything.
    pub fn put_new(&mut self, e: u32, part: BasePart) -> Result<(), NoMemoryFor<BasePart>>
        requires no_call { has_call part ≡ false }
        requires no_update { has_update part ≡ false }
        ensures after { OnOk result (self.new ≡ table.insert self.old e part) }
        ensures err { OnErr result (self.new ≡ self.old) }
    {
        let _old = self.items.put(e, part)?;
        self.calls.remove(e);
        self.updates.remove(e);
        Ok(())
    }

    /// The least entity whose part has a ready call.
    pub fn least_call(&self) -> Option<u32>
        ensures { result ≡ least has_call self.now }
    {
        self.calls.least()
    }

    /// The least entity whose part's client has a ready update.
    pub fn least_update(&self) -> Option<u32>
        ensures { result ≡ least has_update self.now }
    {
        self.updates.least()
    }

    /// Whether the entity's part is not here, or may not be offered the call.
    pub fn refuses(&self, known: &BaseContext, call: &Call) -> bool
        ensures { result ≡ stray_base_call (here_in known.now) call.now
            (table.get self.now call.now.entity) }
    {
        match self.get(call.entity) {
            Some(part) => !part.may_call(&known.defs, &known.settings, call),
            None => true,
        }
    }

    /// Offers the call to the entity's part, which may be offered it.
    pub fn offer(&mut self, known: &BaseContext, call: Call) -> Result<(), NoMemoryFor<Call>>
        requires { stray_base_call (here_in known.now) call (table.get self.old call.entity)
            ≡ false }
        ensures after { OnOk result (self.new ≡ changed_at (with_call (here_in known.now) call)
            self.old call.entity) }

        // If allocation fails, the call comes back and nothing has changed.
        ensures err { OnErr result (self.new ≡ self.old) }
        ensures err_item { IfErr result (λ e. e.item ≡ call) }
    {
        call_in(&mut self.items, &mut self.calls, known, call)
    }

    /// Executes the ready call of the least sender of the entity's part.
    pub fn execute_ready(&mut self, known: &BaseContext, e: u32) -> Result<(), AllocError>
        requires { passes may_execute (table.get self.old e) ≡ true }
        ensures after { OnOk result (self.new ≡ changed_at (with_ready_call (here_in known.now))
            self.old e) }
        ensures err { OnErr result (self.new ≡ self.old) }
    {
        ready_in(&mut self.items, &mut self.calls, known, e)
    }

    /// Offers the update to the client of the entity's part. Nothing changes if the part is not here, has no client, or may not be offered
    /// it. Unless allocation failed, the update is used up then.
    pub fn offer_update(&mut self, update: &mut Update) -> Result<(), AllocError>
        ensures after { OnOk result (self.new ≡ parts_with_update update.old self.old) }

        // If allocation fails, nothing has changed.
        ensures err { OnErr result (self.new ≡ self.old) }
        ensures err_update { OnErr result (update.new ≡ update.old) }
    {
        update_in(&mut self.items, &mut self.updates, update)
    }

    /// Shows the client of the entity's part the ready update.
    pub fn show_next(&mut self, e: u32) -> Result<(), AllocError>
        requires { passes may_be_shown (table.get self.old e) ≡ true }
        ensures after { OnOk result (self.new ≡ changed_at with_shown self.old e) }
        ensures err { OnErr result (self.new ≡ self.old) }
    {
        show_in(&mut self.items, &mut self.updates, e)
    }

    /// Gives the entity's part, if it is here, a client. It has none yet.
    pub fn attach(&mut self, alloc: Global, defs: &Defs, e: u32) -> Result<(), AllocError>
        requires { passes has_client (table.get self.old e) ≡ false }
        ensures after { (me : ℕ) (settings : AllSettings) →
            OnOk result (self.new ≡ changed_at (with_proxy (node_with defs.now me settings))
            self.old e) }
        ensures err { OnErr result (self.new ≡ self.old) }
    {
        attach_in(&mut self.items, alloc, defs, e)
    }

    /// Makes the entity's part, which has done nothing, where this is its base node.
    pub fn add(
        &mut self,
        alloc: Global,
        known: &BaseContext,
        e: u32,
        ty: u16,
    ) -> Result<(), AllocError>
        requires bases { 1 ≤ known.now.settings.bases }
        requires most { known.now.settings.bases ≤ MOST_BASE_NODES }
        ensures after { let h = here_in known.now in
            OnOk result (self.new
            ≡ (if is_base_node_of h e then table.insert self.old e (new_part h ty)
            else self.old)) }
        ensures err { OnErr result (self.new ≡ self.old) }
    {
        if known.base_node_of(e) != known.me {
            return Ok(());
        }
        let part = BasePart::create(alloc, &known.defs, ty)?;
        match self.put_new(e, part) {
            Ok(()) => return Ok(()),
            Err(_) => return Err(AllocError),
        }
    }

    /// Begins a round, in which no part has done anything and no client was shown anything yet.
    pub fn start_round(&mut self)
        ensures { self.new ≡ each_value part_begins self.old }
    {
        self.items.change_each(begin);
    }

    /// Removes the entity's part.
    pub fn remove(&mut self, e: u32)
        ensures { self.new ≡ table.remove self.old e }
    {
        self.items.remove(e);
        self.calls.remove(e);
        self.updates.remove(e);
    }
}
