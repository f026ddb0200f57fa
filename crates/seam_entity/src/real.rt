//! An entity's real.

ghost use Rattle.std.specs.Prelude.{◌≡◌, ◌≤◌, ◌<◌, ◌^◌, ◌==◌, ℕ, IfOk, IfErr, OnOk, OnErr, [], true, false};
ghost use Rattle.std.specs.Prelude.{is_some, None, Some, option_map};
ghost use Rattle.std.specs.FinSet as set;
ghost use Rattle.seam_defs.specs.Deeds.{after as after_deed, own_of, with_later};
ghost use Rattle.seam_defs.specs.Tests.{changes};
ghost use Rattle.seam_defs.specs.Types.{type_of};
ghost use Rattle.seam_defs.specs.declared.settings.Settings.{Settings as AllSettings};
ghost use Rattle.seam_order.specs.Held.{item_at};
ghost use Rattle.seam_entity.specs.Orders.{order_of};
ghost use Rattle.seam_entity.specs.Here.{Here, properties};
ghost use Rattle.seam_entity.specs.Executing.{real_begins};
ghost use Rattle.seam_entity.specs.Executing.{created, copy_with, copy_of_real, with_deed, with_offer, executed, public_after, shows};
ghost use Rattle.seam_entity.specs.Executing.{settled_to};
ghost use Rattle.seam_entity.specs.Preparing.{node_with, advanced, with_after, outcome_of, offered as after_call, HasRoom, HasSpare};
ghost use Rattle.seam_entity.specs.Preparing.{HasReady};
ghost use Rattle.seam_entity.specs.ReadyCalls.{has_ready};
ghost use Rattle.seam_entity.specs.Executing.{executed_ready, with_order, fits_real};
ghost use Rattle.seam_defs.specs.declared.flags.Group.TheVariants as group;
ghost use Rattle.seam_entity.specs.Witnesses.{witness_in};
ghost use Rattle.seam_order.specs.Held.{OrderView};
ghost use Rattle.seam_order.specs.Offers.{after_taking};
ghost use Rattle.seam_call.specs.declared.call.Call.{Call as CallData};
ghost use Rattle.seam_entity.specs.declared.real.Did.TheVariants.{Done as DidDone};

use crate::fitting::is_inside;
use crate::observed::Observed;
use crate::orders::Orders;
use crate::room::reserve_one;
use crate::witness::Witness;
use seam_call::{Call, GhostCopy, Sender};
use seam_defs::{Deed, Defs, Group, Later, Props, Settings, State};
use seam_geo::Pos;
use seam_order::Offer;
use seam_table::NoMemoryFor;
use seam_tree::CellSet;
use std::alloc::{AllocError, Global};
use std::marker::Model;

/// What became of a call.
#[derive(Drop)]
pub enum Did {
    /// It was executed; whether others may see the change.
    Done(bool),
    /// It came early, and is held.
    Held,
    /// It came late, and comes back.
    Stale(Call),
}

#[derive(Drop)]
struct Body {
    entity: u32,
    ty: u16,
    state: State,
    version: u64,
    public_version: u64,
    orders: Orders,
    done: Vec<Call>,
    haunts: CellSet,
    beat: u64,
    generation: u64,
    // In a box of its own, since most reals have none.
    witness: Option<Box<Witness>>,
}

/// The real of an entity, which is moved and never cloned.
///
/// Contracts see what it is, and beside it the room that was made for calls.
#[derive(Drop)]
pub struct Real {
    body: Box<Body>,
}

impl Model for Real {
    ghost use Rattle.std.specs.Prelude.{box_value, option_map, ◌-◌};
    ghost use Rattle.std.specs.Vec.{vec_capacity, vec_len};
    ghost use Rattle.std.specs.Coded.{codes};
    ghost use Rattle.std.specs.FinMap as table;
    ghost use Rattle.std.specs.FinSet as set;
    ghost use Rattle.seam_entity.specs.Reals.{RoomyReal};
    ghost use Rattle.seam_entity.specs.Witnesses.{witness_in};

    ghost Value = { RoomyReal };

    ghost coded = { Prim.hlevel (codes, table.code, set.code) };

    ghost view = { λ r. record {
      core = record {
        entity = (box_value r.body).entity;
        ty = (box_value r.body).ty;
        state = (box_value r.body).state;
        version = (box_value r.body).version;
        public = (box_value r.body).public_version;
        orders = (box_value r.body).orders.orders;
        done = (box_value r.body).done.items;
        haunts = (box_value r.body).haunts;
        beat = (box_value r.body).beat;
        generation = (box_value r.body).generation;
        witness = option_map witness_in (box_value r.body).witness;
      };
      spare = vec_capacity (box_value r.body).done - vec_len (box_value r.body).done;
      senders = (box_value r.body).orders.senders;
    } };
}

// The public version after a call that leaves that version.
fn public_after(changed: bool, version: u64, public: u64) -> u64
    ensures { result ≡ public_after changed version public }
{
    if changed { version } else { public }
}

/// What the ghosts are told of an entity of that type and public version, at that position and with these values.
pub fn ghost_copy(
    defs: &Defs,
    ty: u16,
    version: u64,
    pos: Pos,
    props: &Props,
) -> Result<GhostCopy, AllocError>
    ensures { (me : ℕ) (settings : AllSettings) → IfOk result (λ c. c
        ≡ copy_with (node_with defs.now me settings) ty version (record {
          pos = pos;
          props = props.now;
        })) }
{
    let props = defs
        .type_at(ty)
        .project_group(Group::Real, props, Group::Ghost)?;
    Ok(GhostCopy {
        ty,
        version,
        state: State { pos, props },
    })
}

// What a deed will leave of a state.
fn look_ahead(defs: &Defs, ty: u16, state: &State, deed: &Deed) -> Result<Later, AllocError>
    ensures state { IfOk result (λ a. with_later state.now a
        ≡ after_deed (type_of defs.now ty) state.now deed.now) }
    ensures changed { IfOk result (λ a. a.changed ≡ changes (type_of defs.now ty) state.now
        deed.now) }
{
    defs.type_at(ty).later(state, deed)
}

impl Real {
    /// A real that has done nothing.
    pub fn create(
        alloc: Global,
        defs: &Defs,
        entity: u32,
        ty: u16,
        pos: Pos,
    ) -> Result<Self, AllocError>
        ensures { (me : ℕ) (settings : AllSettings) → IfOk result (λ r. r.core
            ≡ created (node_with defs.now me settings) entity ty pos) }
    {
        let props = defs.type_at(ty).start_props(Group::Real)?;
        let body = Body {
            entity,
            ty,
            state: State { pos, props },
            version: 0,
            public_version: 0,
            orders: Orders::new(alloc),
            done: Vec::new(alloc),
            haunts: CellSet::none(),
            beat: 0,
            generation: 0,
            witness: None,
        };
        Ok(Real {
            body: Box::new(alloc, body)?,
        })
    }

    /// The number of the entity.
    pub fn entity(&self) -> u32
        ensures { result ≡ self.now.core.entity }
    {
        self.body.entity
    }

    /// The entity's type, by its place among the types.
    pub fn ty(&self) -> u16
        ensures { result ≡ self.now.core.ty }
    {
        self.body.ty
    }

    /// The state.
    pub fn state(&self) -> &State
        ensures { result.now ≡ self.now.core.state }
    {
        &self.body.state
    }

    /// How many calls it executed.
    pub fn version(&self) -> u64
        ensures { result ≡ self.now.core.version }
    {
        self.body.version
    }

    /// The version of the last change that others may see.
    pub fn public_version(&self) -> u64
        ensures { result ≡ self.now.core.public }
    {
        self.body.public_version
    }

    /// The calls executed in this round.
    pub fn done(&self) -> &[Call]
        ensures { result.now ≡ self.now.core.done }
    {
        &self.body.done
    }

    /// The cells whose ghosts follow it.
    pub fn haunts(&self) -> CellSet
        ensures { result ≡ self.now.core.haunts }
    {
        self.body.haunts
    }

    /// The number of what its ghosts were last told.
    pub fn beat(&self) -> u64
        ensures { result ≡ self.now.core.beat }
    {
        self.body.beat
    }

    /// How many times it was handed over.
    pub fn generation(&self) -> u64
        ensures { result ≡ self.now.core.generation }
    {
        self.body.generation
    }

    /// Other haunts, and a beat and a generation of which neither falls.
    pub fn settle_to(&mut self, haunts: CellSet, beat: u64, generation: u64)
        requires beat { self.old.core.beat ≤ beat }
        requires generation { self.old.core.generation ≤ generation }
        ensures core { self.new.core ≡ settled_to self.old.core haunts beat generation }
        ensures spare { self.new.spare ≡ self.old.spare }
        ensures senders { self.new.senders ≡ self.old.senders }
    {
        self.body.haunts = haunts;
        self.body.beat = beat;
        self.body.generation = generation;
    }

    /// Begins a round, in which nothing was done yet.
    pub fn start_round(&mut self)
        ensures { self.new.core ≡ real_begins self.old.core }
    {
        self.body.done.clear();
        self.body.orders.uncover();
    }

    /// What its ghosts are told of it.
    pub fn copy_out(&self, defs: &Defs) -> Result<GhostCopy, AllocError>
        ensures { (me : ℕ) (settings : AllSettings) →
            IfOk result (λ c. c ≡ copy_of_real (node_with defs.now me settings) self.now.core) }
    {
        ghost_copy(
            defs,
            self.body.ty,
            self.body.public_version,
            self.body.state.pos,
            &self.body.state.props,
        )
    }

    /// The version of the last change that others may see, after a call of which `prepare` or `prepare_ready` said this.
    pub fn version_after(&self, after: &Later) -> u64
        requires { self.now.core.version < 2 ^ 62 }
        ensures { (call : CallData) → result ≡ (with_after self.now.core after.now call).public }
    {
        public_after(
            after.changed,
            self.body.version + 1,
            self.body.public_version,
        )
    }

    /// Whether its type is one of the definitions, its values are of the group, it is in the space, and each held call fits.
    pub fn fits(&self, defs: &Defs, settings: &Settings) -> bool
        ensures { (me : ℕ) → result ≡ fits_real (node_with defs.now me settings.now) self.now.core }
    {
        let body = &self.body;
        defs.has_type(body.ty)
            && (defs
                .type_at(body.ty)
                .is_of_group(Group::Real, &body.state.props)
                && (is_inside(settings.size, body.state.pos)
                    && body.orders.all_fit(defs, settings, body.entity, body.ty)))
    }

    /// Whether it has a witness.
    pub fn has_witness(&self) -> bool
        ensures { result ≡ is_some self.now.core.witness }
    {
        self.body.witness.is_some()
    }

    /// Takes its witness, so that it can look.
    pub fn take_witness(&mut self) -> Option<Box<Witness>>
        ensures witness { option_map witness_in result ≡ self.old.core.witness }
        ensures after { self.new.core ≡ record self.old.core { witness = None } }
    {
        self.body.witness.take()
    }

    /// Gives it a witness, a new one or the one that it had.
    pub fn put_witness(&mut self, witness: Box<Witness>)
        ensures { self.new.core ≡ record self.old.core { witness = Some (witness_in witness) } }
    {
        self.body.witness = Some(witness);
    }

    /// It, as others look at it.
    pub fn observed(&self) -> Observed<'_>
        ensures held { result.held ≡ group.Real }
        ensures ty { result.ty ≡ self.now.core.ty }
        ensures version { result.version ≡ self.now.core.public }
        ensures state { result.state.now ≡ self.now.core.state }
    {
        let body = &self.body;
        Observed {
            held: Group::Real,
            ty: body.ty,
            version: body.public_version,
            state: &body.state,
        }
    }

    /// What its own client is shown of it.
    pub fn own_state(&self, defs: &Defs) -> Result<State, AllocError>
        ensures { (me : ℕ) (settings : AllSettings) → IfOk result (λ s. s
            ≡ own_of (properties (node_with defs.now me settings) self.now.core.ty)
            self.now.core.state) }
    {
        let props = defs
            .type_at(self.body.ty)
            .project_group(Group::Real, &self.body.state.props, Group::Own)?;
        Ok(State {
            pos: self.body.state.pos,
            props,
        })
    }

    /// The number of the sender's call whose turn it is.
    pub fn next_number(&self, sender: Sender) -> u64
        ensures { result ≡ (order_of self.now.core.orders sender).next }
    {
        self.body.orders.next_number(sender)
    }

    /// Whether the sender's call of that number is held.
    pub fn holds(&self, sender: Sender, number: u64) -> bool
        ensures { result ≡ is_some (item_at number (order_of self.now.core.orders sender).held) }
    {
        self.body.orders.holds(sender, number)
    }

    /// What a call whose turn it is will leave of the state, and whether others may see the change. There is room for the call from
    /// then on.
    pub fn prepare(&mut self, defs: &Defs, call: &Call) -> Result<Later, AllocError>
        ensures same { self.new.core ≡ self.old.core }
        ensures state { (me : ℕ) (settings : AllSettings) →
            IfOk result (λ a. with_later self.old.core.state a
            ≡ (with_deed (node_with defs.now me settings) self.old.core call.now).state) }
        ensures changed { (me : ℕ) (settings : AllSettings) →
            IfOk result (λ a. a.changed ≡ shows (node_with defs.now me settings) self.old.core
            call.now) }
        ensures room { OnOk result (HasRoom self.new call.now) }
    {
        self.make_room(call)?;
        look_ahead(defs, self.body.ty, &self.body.state, &call.deed)
    }

    // Makes room for a call whose turn it is.
    fn make_room(&mut self, call: &Call) -> Result<(), AllocError>
        ensures same { self.new.core ≡ self.old.core }
        ensures room { OnOk result (HasRoom self.new call.now) }
    {
        self.body.orders.reserve(&call.sender)?;
        reserve_one(&mut self.body.done)
    }

    /// Executes a call whose turn it is, from what `prepare` said of it. It needs no memory, and cannot fail.
    pub fn execute_after(&mut self, call: Call, after: Later)
        requires from_one { 1 ≤ call.number }
        requires small { call.number < 2 ^ 62 }
        requires version { self.old.core.version < 2 ^ 62 }
        requires not_held { is_some (item_at call.number
            (order_of self.old.core.orders call.sender).held) ≡ false }
        requires turn { call.number ≡ (order_of self.old.core.orders call.sender).next }
        requires room { HasRoom self.old call }
        ensures { self.new.core ≡ with_offer (with_after self.old.core after call) call }
    {
        self.advance(after);
        match self.body.orders.offer(call) {
            Ok(Offer::Next(call)) => self.body.done.push_reserved(call),
            Ok(_) => unreachable!(),
            Err(_) => unreachable!(),
        }
    }

    // Takes what a call left of the state, one version more.
    fn advance(&mut self, after: Later)
        requires { self.old.core.version < 2 ^ 62 }
        ensures core { self.new.core ≡ advanced self.old.core after }
        ensures spare { self.new.spare ≡ self.old.spare }
        ensures senders { self.new.senders ≡ self.old.senders }
    {
        let changed = after.changed;
        self.body.state.advance(after);
        self.body.version += 1;
        self.body.public_version = public_after(
            changed,
            self.body.version,
            self.body.public_version,
        );
    }

    /// Executes the call where it is its turn, holds it where it came early, and gives it back where it came late.
    pub fn execute(&mut self, defs: &Defs, call: Call) -> Result<Did, NoMemoryFor<Call>>
        requires from_one { 1 ≤ call.number }
        requires small { call.number < 2 ^ 62 }
        requires version { self.old.core.version < 2 ^ 62 }
        requires not_held { is_some (item_at call.number
            (order_of self.old.core.orders call.sender).held) ≡ false }
        ensures answer { (me : ℕ) (settings : AllSettings) →
            IfOk result (λ d. d ≡ outcome_of (node_with defs.now me settings) self.old.core call) }
        ensures after { (me : ℕ) (settings : AllSettings) →
            OnOk result (self.new.core ≡ after_call (node_with defs.now me settings) self.old.core
            call) }

        // If allocation fails, the call comes back and nothing has changed.
        ensures err { OnErr result (self.new.core ≡ self.old.core) }
        ensures err_item { IfErr result (λ e. e.item ≡ call) }
    {
        if self.is_turn(&call) {
            return self.execute_turn(defs, call);
        }
        self.put_off(defs, call)
    }

    // Executes a call whose turn it is.
    fn execute_turn(&mut self, defs: &Defs, call: Call) -> Result<Did, NoMemoryFor<Call>>
        requires from_one { 1 ≤ call.number }
        requires small { call.number < 2 ^ 62 }
        requires version { self.old.core.version < 2 ^ 62 }
        requires not_held { is_some (item_at call.number
            (order_of self.old.core.orders call.sender).held) ≡ false }
        requires turn { call.number ≡ (order_of self.old.core.orders call.sender).next }
        ensures answer { (me : ℕ) (settings : AllSettings) →
            IfOk result (λ d. d ≡ DidDone (shows (node_with defs.now me settings) self.old.core
            call)) }
        ensures after { (me : ℕ) (settings : AllSettings) →
            OnOk result (self.new.core ≡ executed (node_with defs.now me settings) self.old.core
            call) }
        ensures err { OnErr result (self.new.core ≡ self.old.core) }
        ensures err_item { IfErr result (λ e. e.item ≡ call) }
    {
        let Ok(after) = self.prepare(defs, &call) else {
            return Err(NoMemoryFor { item: call });
        };
        let changed = after.changed;
        self.execute_after(call, after);
        Ok(Did::Done(changed))
    }

    /// Whether it is the call's turn.
    pub fn is_turn(&self, call: &Call) -> bool
        ensures { result ≡ (call.now.number == (order_of self.now.core.orders
            call.now.sender).next) }
    {
        call.number == self.body.orders.next_number(call.sender)
    }

    // Holds a call that came early, and gives back one that came late.
    fn put_off(&mut self, defs: &Defs, call: Call) -> Result<Did, NoMemoryFor<Call>>
        requires from_one { 1 ≤ call.number }
        requires small { call.number < 2 ^ 62 }
        requires not_held { is_some (item_at call.number
            (order_of self.old.core.orders call.sender).held) ≡ false }
        requires not_turn { (call.number == (order_of self.old.core.orders call.sender).next)
            ≡ false }
        ensures answer { (h : Here) → IfOk result (λ d. d ≡ outcome_of h self.old.core call) }
        ensures after { (h : Here) → OnOk result (self.new.core ≡ after_call h self.old.core call) }
        ensures err { OnErr result (self.new.core ≡ self.old.core) }
        ensures err_item { IfErr result (λ e. e.item ≡ call) }
    {
        if call.number < self.body.orders.next_number(call.sender) {
            return Ok(Did::Stale(call));
        }
        if self.body.orders.reserve(&call.sender).is_err() {
            return Err(NoMemoryFor { item: call });
        }
        self.cover_deed(defs, &call.deed);
        match self.body.orders.offer(call) {
            Ok(Offer::Held) => Ok(Did::Held),
            Ok(_) => unreachable!(),
            Err(refused) => Err(refused),
        }
    }

    // Covers a deed that is to be held.
    fn cover_deed(&mut self, defs: &Defs, deed: &Deed)
        ensures { self.new ≡ self.old }
    {
        let (entity, ty) = (self.body.entity, self.body.ty);
        self.body.orders.cover_deed(defs, entity, ty, deed);
    }

    /// Whether it holds a call whose turn it is.
    pub fn is_ready(&self) -> bool
        ensures { result ≡ has_ready self.now.core.orders }
    {
        self.body.orders.is_ready()
    }

    /// What the ready call of its least sender that has one will leave of the state, and whether others may see the change. There is
    /// room for the call from then on.
    pub fn prepare_ready(&mut self, defs: &Defs) -> Result<Later, AllocError>
        requires { has_ready self.old.core.orders ≡ true }
        ensures same { self.new.core ≡ self.old.core }
        ensures state { (me : ℕ) (settings : AllSettings) (o : ℕ × OrderView CallData)
            (k : CallData) → HasReady self.old.core o k →
            IfOk result (λ a. with_later self.old.core.state a
            ≡ (with_deed (node_with defs.now me settings) self.old.core k).state) }
        ensures changed { (me : ℕ) (settings : AllSettings) (o : ℕ × OrderView CallData)
            (k : CallData) → HasReady self.old.core o k →
            IfOk result (λ a. a.changed ≡ shows (node_with defs.now me settings) self.old.core k) }
        ensures room { OnOk result (HasSpare self.new) }
    {
        reserve_one(&mut self.body.done)?;
        let Some(call) = self.body.orders.ready_call() else {
            unreachable!()
        };
        look_ahead(defs, self.body.ty, &self.body.state, &call.deed)
    }

    /// Executes that call, from what `prepare_ready` said of it. It needs no memory, and cannot fail.
    pub fn execute_ready_after(&mut self, after: Later)
        requires ready { has_ready self.old.core.orders ≡ true }
        requires version { self.old.core.version < 2 ^ 62 }
        requires room { HasSpare self.old }
        ensures { (o : ℕ × OrderView CallData) (k : CallData) → HasReady self.old.core o k →
            self.new.core ≡ with_order (with_after self.old.core after k) o.0 (after_taking o.1) }
    {
        self.advance(after);
        let Some(call) = self.body.orders.take_ready() else {
            unreachable!()
        };
        self.body.done.push_reserved(call);
    }

    /// Executes the ready call of its least sender that has one. It answers whether others may see the change.
    pub fn execute_ready(&mut self, defs: &Defs) -> Result<bool, AllocError>
        requires ready { has_ready self.old.core.orders ≡ true }
        requires version { self.old.core.version < 2 ^ 62 }
        ensures answer { (me : ℕ) (settings : AllSettings) (o : ℕ × OrderView CallData)
            (k : CallData) → HasReady self.old.core o k →
            IfOk result (λ changed. changed ≡ shows (node_with defs.now me settings) self.old.core
            k) }
        ensures after { (me : ℕ) (settings : AllSettings) (o : ℕ × OrderView CallData)
            (k : CallData) → HasReady self.old.core o k →
            OnOk result (self.new.core ≡ executed_ready (node_with defs.now me settings)
            self.old.core o k) }

        // If allocation fails, nothing has changed.
        ensures err { OnErr result (self.new.core ≡ self.old.core) }
    {
        let after = self.prepare_ready(defs)?;
        let changed = after.changed;
        self.execute_ready_after(after);
        Ok(changed)
    }
}
