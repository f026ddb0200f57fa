//! A base node.

ghost use Rattle.std.specs.Prelude.{◌≡◌, ◌≤◌, ◌<◌, ◌++◌, ◌∷◌, [], ℕ, List};
ghost use Rattle.std.specs.Prelude.{true, false, OnOk, OnErr, IfErr, Some, None, option_copied, option_map};
ghost use Rattle.std.specs.FinMap as table;
ghost use Rattle.seam_node_steps.specs.Prelude.{Pos as AnyPos, Call as AnyCall, BaseCall, has_any, empty_base, part_if, with_route};
ghost use Rattle.seam_node_steps.specs.Prelude.{attached, Base as BaseNodeView, IsBase, sends_none, stray_current, current, stray_update};
ghost use Rattle.seam_node_steps.specs.Prelude.{update as update_case, stray_base_call, case_of, ready_part, task_without_orders};
ghost use Rattle.seam_node_steps.specs.Prelude.{base_task, base_steps, base_has_work, is_base_node_of};
ghost use Rattle.seam_node_steps.specs.Loads.{base_begins, noting};
ghost use Rattle.seam_node_steps.specs.BaseCases.{unless_stray};
ghost use Rattle.seam_node_steps.specs.BaseCases.{base_call, is_stray};
ghost use Rattle.seam_base.specs.Nodes.{has_call, has_update, has_client};
ghost use Rattle.seam_base.specs.Marks.{least, passes};
ghost use Rattle.seam_base.specs.Machines.{base_peers, base_targets, base_keeps_peers, base_stays_valid};

use crate::context::BaseContext;
use crate::orders::execute;
use crate::part::BasePart;
use crate::parts::Parts;
use crate::routes::{CELLS, Route, forget, renew};
use seam_call::{Call, Order, Update};
use seam_defs::{Defs, MOST_BASE_NODES, Settings};
use seam_entity::Msg;
use seam_machine::{Input, Machine, Out};
use seam_table::{NoMemoryFor, Table};
use std::alloc::{AllocError, Global};
use std::collections::VecDeque;
use std::marker::Model;

/// A base node.
#[derive(Drop)]
pub struct Base {
    known: BaseContext,
    orders: VecDeque<Order>,
    routes: Table<Route>,
    parts: Parts,
}

impl Model for Base {
    ghost use Rattle.std.specs.Coded.{codes};
    ghost use Rattle.std.specs.FinMap as table;
    ghost use Rattle.seam_node_steps.specs.Bases.{BaseView};
    ghost use Rattle.seam_base.specs.Nodes.{node_of, IsKept};

    ghost Value = { BaseView };

    ghost coded = { Prim.hlevel (codes, table.code) };

    ghost view = { λ b. node_of b.known b.orders.items b.routes.items b.parts };

    ghost invariant = { λ b. IsKept (node_of b.known b.orders.items b.routes.items b.parts) };
}

impl Base {
    /// A base node without entities and orders, and with the tree of one cell.
    pub fn new(alloc: Global, me: u8, defs: Defs, settings: Settings) -> Self
        requires bases { 1 ≤ settings.bases }
        requires most { settings.bases ≤ MOST_BASE_NODES }
        ensures { BaseNodeView result ≡ empty_base defs settings me }
    {
        let key = defs.hash_key();
        Base {
            known: BaseContext {
                me,
                cells: 1,
                defs,
                settings,
                gone: Vec::new(alloc),
            },
            orders: VecDeque::new(alloc),
            routes: Table::new(alloc, key),
            parts: Parts::new(alloc, key),
        }
    }

    /// The cell where the entity's real was, and the generation that it had then.
    pub fn route(&self, e: u32) -> Option<(u8, u64)>
        ensures { result ≡ option_map (λ r. (r.cell, r.generation)) (table.get self.now.routes e) }
    {
        match self.routes.get(e) {
            Some(route) => Some((route.cell, route.generation)),
            None => None,
        }
    }

    /// The entity's base part, if this is the entity's base node.
    pub fn part(&self, e: u32) -> Option<&BasePart>
        ensures { option_copied result ≡ table.get self.now.parts e }
    {
        self.parts.get(e)
    }

    /// Whether the entity's base part is here and has a client.
    pub fn has_client(&self, e: u32) -> bool
        ensures { result ≡ passes has_client (table.get self.now.parts e) }
    {
        match self.parts.get(e) {
            Some(part) => part.has_client(),
            None => false,
        }
    }

    /// Load, point 1: the entity, which is created in that cell, gets a route, and its base part where this is its base node.
    pub fn add_entity(&mut self, alloc: Global, e: u32, ty: u16, cell: u8) -> Result<(), AllocError>
        requires { cell < CELLS }
        ensures after { (pos : AnyPos) → OnOk result (self.new
            ≡ part_if (is_base_node_of self.old.here e) (with_route self.old e cell)
            (record { entity = e; ty = ty; pos = pos })) }
        ensures err { OnErr result (self.new ≡ self.old) }
    {
        self.routes.reserve(e)?;
        self.parts.add(alloc, &self.known, e, ty)?;
        let route = Route {
            cell,
            generation: 0,
        };
        let _old = self.routes.put_reserved(e, route);
        Ok(())
    }

    /// Load, point 2: the entity's base part, where it is here, gets a client; it has none yet.
    pub fn attach(&mut self, alloc: Global, e: u32) -> Result<(), AllocError>
        requires { passes has_client (table.get self.old.parts e) ≡ false }
        ensures after { OnOk result (BaseNodeView self.new ≡ attached e (BaseNodeView self.old)) }
        ensures err { OnErr result (self.new ≡ self.old) }
    {
        self.parts.attach(alloc, &self.known.defs, e)
    }

    /// Load, point 3: begins a round with a tree of `cells` cells. Nothing was done and no line was shown in it yet, and the routes of
    /// those who were reaped are forgotten.
    pub fn start_round(&mut self, alloc: Global, cells: u8)
        requires { cells ≤ CELLS }
        ensures { self.new ≡ base_begins cells self.old }
    {
        self.known.cells = cells;
        forget(&mut self.routes, self.known.gone.as_slice());
        self.known.gone = Vec::new(alloc);
        self.parts.start_round();
    }

    /// The load of reaps: the entity is reaped, so its route is forgotten as the next round begins.
    pub fn note_reaped(&mut self, e: u32) -> Result<(), AllocError>
        ensures after { OnOk result (self.new ≡ noting e self.old) }
        ensures err { OnErr result (self.new ≡ self.old) }
    {
        match self.known.gone.push(e) {
            Ok(()) => Ok(()),
            Err(_) => Err(AllocError),
        }
    }

    /// Load, point 4: appends an order to the node's list.
    pub fn add_order(&mut self, order: Order) -> Result<(), NoMemoryFor<Order>>
        ensures after { OnOk result (self.new ≡ record self.old {
          orders =
              self.old.orders ++ order ∷ [];
        }) }

        // If allocation fails, the order comes back and nothing has changed.
        ensures err { OnErr result (self.new ≡ self.old) }
        ensures err_item { IfErr result (λ r. r.item ≡ order) }
    {
        match self.orders.push_back(order) {
            Ok(()) => return Ok(()),
            Err(refused) => {
                return Err(NoMemoryFor {
                    item: refused.value,
                });
            }
        }
    }

    // Base call: it is offered to the entity's part.
    fn hear_call(&mut self, call: Call) -> Result<(), NoMemoryFor<Call>>
        ensures after { OnOk result (self.new ≡ (unless_stray
            (stray_base_call self.old.here call (table.get self.old.parts call.entity))
            self.old (sends_none (base_call self.old call))).state) }
        ensures err { OnErr result (self.new ≡ self.old) }
        ensures err_item { IfErr result (λ e. e.item ≡ call) }
    {
        if self.parts.refuses(&self.known, &call) {
            return Ok(());
        }
        self.parts.offer(&self.known, call)
    }

    // Update: it is offered to the client, if there is one, and shown in its turn. It is used up then.
    fn hear_update(&mut self, update: &mut Update) -> Result<(), AllocError>
        ensures after { OnOk result (self.new ≡ (unless_stray
            (stray_update update.old (table.get self.old.parts update.old.entity)) self.old
            (sends_none (update_case self.old update.old
            (table.get self.old.parts update.old.entity)))).state) }
        ensures err { OnErr result (self.new ≡ self.old) }
        ensures err_update { OnErr result (update.new ≡ update.old) }
    {
        self.parts.offer_update(update)
    }

    // A cell tells that the entity's real is there, at that generation: the route is replaced where the generation is greater.
    fn hear_current(&mut self, e: u32, new: Route)
        ensures { self.new ≡ (unless_stray (stray_current new (table.get self.old.routes e))
            self.old (sends_none (current self.old e new
            (table.get self.old.routes e)))).state }
    {
        let Some(route) = self.routes.get_mut(e) else {
            return;
        };
        renew(route, new);
    }

    // Base call: it is taken out of its message. If allocation fails, it is put back.
    #[inline(never)]
    fn take_call(&mut self, message: &mut Msg) -> Result<(), AllocError>
        requires { (call : AnyCall) × (message.old ≡ BaseCall call) }
        ensures after { OnOk result (self.new ≡ (unless_stray (is_stray self.old message.old)
            self.old (sends_none (case_of self.old message.old))).state) }
        ensures err { OnErr result (self.new ≡ self.old) }
        ensures err_message { OnErr result (message.new ≡ message.old) }
    {
        let Msg::BaseCall(call) = std::mem::replace(message, Msg::Tick) else {
            unreachable!()
        };
        match self.hear_call(call) {
            Ok(()) => return Ok(()),
            Err(refused) => {
                *message = Msg::BaseCall(refused.item);
                return Err(AllocError);
            }
        }
    }

    // A message from another node, which is used up.
    fn hear(&mut self, message: &mut Msg) -> Result<(), AllocError>
        ensures after { OnOk result (self.new ≡ (unless_stray (is_stray self.old message.old)
            self.old (sends_none (case_of self.old message.old))).state) }
        ensures err { OnErr result (self.new ≡ self.old) }
        ensures err_message { OnErr result (message.new ≡ message.old) }
    {
        match message {
            Msg::BaseCall(_) => return self.take_call(message),
            Msg::Current(e, cell, generation) => {
                let route = Route {
                    cell: *cell,
                    generation: *generation,
                };
                self.hear_current(*e, route);
                return Ok(());
            }
            Msg::Update(update) => return self.hear_update(update),
            Msg::Call(_) => return Ok(()),
            Msg::Hand(_, _) => return Ok(()),
            Msg::GhostSet(_, _, _) => return Ok(()),
            Msg::GhostDrop(_, _) => return Ok(()),
            Msg::Tick => return Ok(()),
            Msg::Reap(_) => return Ok(()),
            Msg::Bounds(_) => return Ok(()),
        }
    }

    // The least part that has a ready call executes it.
    fn ready_call_task(&mut self, e: u32) -> Result<(), AllocError>
        requires { least has_call self.old.parts ≡ Some e }
        ensures after { OnOk result (self.new ≡ (task_without_orders self.old
            (ready_part self.old)).state) }
        ensures err { OnErr result (self.new ≡ self.old) }
    {
        let Some(part) = self.parts.get(e) else {
            unreachable!()
        };
        if !part.may_execute() {
            return Ok(());
        }
        self.parts.execute_ready(&self.known, e)
    }

    // Where no part has a ready call, the least client that has a ready update is shown it.
    fn ready_update_task(&mut self, e: u32) -> Result<(), AllocError>
        requires no_call { least has_call self.old.parts ≡ None }
        requires update { least has_update self.old.parts ≡ Some e }
        ensures after { OnOk result (self.new ≡ (task_without_orders self.old
            (ready_part self.old)).state) }
        ensures err { OnErr result (self.new ≡ self.old) }
    {
        let Some(part) = self.parts.get(e) else {
            unreachable!()
        };
        if !part.may_show() {
            return Ok(());
        }
        self.parts.show_next(e)
    }

    // The task without orders: a ready call is executed, else a ready update is shown.
    fn ready_task(&mut self) -> Result<(), AllocError>
        ensures after { OnOk result (self.new ≡ (task_without_orders self.old
            (ready_part self.old)).state) }
        ensures err { OnErr result (self.new ≡ self.old) }
    {
        if let Some(e) = self.parts.least_call() {
            return self.ready_call_task(e);
        }
        if let Some(e) = self.parts.least_update() {
            return self.ready_update_task(e);
        }
        Ok(())
    }

    // The first order is executed, and a stray one stays.
    #[inline(never)]
    fn order_task(&mut self, out: &mut Out<Msg>) -> Result<(), AllocError>
        requires { has_any self.old.orders ≡ true }
        ensures state { OnOk result (self.new ≡ (base_task self.old self.old.orders).state) }
        ensures sent { OnOk result (out.new.items ≡ out.old.items
            ++ (base_task self.old self.old.orders).sent) }
        ensures err_state { OnErr result (self.new ≡ self.old) }
        ensures err_out { OnErr result (out.new.items ≡ out.old.items) }
    {
        let Some(order) = self.orders.pop_front() else {
            unreachable!()
        };
        match execute(&self.known, &self.routes, &mut self.parts, order, out) {
            Ok(()) => return Ok(()),
            Err(stays) => {
                self.orders.push_front_reserved(stays.order);
                return stays.result;
            }
        }
    }

    // The node's task.
    fn task(&mut self, out: &mut Out<Msg>) -> Result<(), AllocError>
        ensures state { OnOk result (self.new ≡ (base_task self.old self.old.orders).state) }
        ensures sent { OnOk result (out.new.items ≡ out.old.items
            ++ (base_task self.old self.old.orders).sent) }
        ensures err_state { OnErr result (self.new ≡ self.old) }
        ensures err_out { OnErr result (out.new.items ≡ out.old.items) }
    {
        if self.has_orders() {
            return self.order_task(out);
        }
        self.ready_task()
    }

    // Whether there is an order.
    fn has_orders(&self) -> bool
        ensures { result ≡ has_any self.now.orders }
    {
        !self.orders.is_empty()
    }
}

impl Machine for Base {
    type Msg = Msg;

    ghost has_work = { base_has_work };

    ghost peer_count = { base_peers };

    ghost steps = { base_steps };

    ghost valid = { IsBase };

    ghost targets = { base_targets };

    ghost keeps_peers = { base_keeps_peers };

    ghost stays_valid = { base_stays_valid };

    fn peers(&self) -> u8 {
        CELLS + self.known.settings.bases as u8
    }

    fn has_task(&self) -> bool {
        if self.has_orders() {
            return true;
        }
        if self.parts.least_call().is_some() {
            return true;
        }
        self.parts.least_update().is_some()
    }

    fn known(&self) {
        let _ = &self.routes;
    }

    fn step(
        &mut self,
        _alloc: Global,
        input: &mut Input<Msg>,
        out: &mut Out<Msg>,
    ) -> Result<(), AllocError>
        requires { input.old ≡ Input.Task → base_has_work self.old ≡ true }
        ensures state { OnOk result (self.new ≡ (base_steps self.old input.old).state) }
        ensures sent { OnOk result (out.new.items ≡ out.old.items
            ++ (base_steps self.old input.old).sent) }
        ensures err_state { OnErr result (self.new ≡ self.old) }
        ensures err_out { OnErr result (out.new.items ≡ out.old.items) }
        ensures err_input { OnErr result (input.new ≡ input.old) }
    {
        match input {
            Input::Task => return self.task(out),
            Input::From(_, message) => return self.hear(message),
        }
    }
}
