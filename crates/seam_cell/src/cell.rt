//! A cell, and what it hears of ghosts.

ghost use Rattle.std.specs.Prelude.{◌≡◌, ℕ, ◌<◌, ◌≤◌, OnOk, OnErr, IfErr, IfOk, IfSome, [], ◌++◌, Some, None, true};
ghost use Rattle.std.specs.Prelude.{false, not, Option, is_some, option_copied};
ghost use Rattle.std.specs.FinMap as table;
ghost use Rattle.std.specs.FinSet as set;
ghost use Rattle.seam_node_steps.specs.Prelude.{ghost_after, Task, From, AreLegal, cell_count, stray_ghost_set, cell_steps, ready_entity};
ghost use Rattle.seam_node_steps.specs.Prelude.{cell_has_work, IsCell, IsInSpace, empty_cell, real_if, attached, cell_begins, set_at};
ghost use Rattle.seam_node_steps.specs.Prelude.{are_newer, boundaries_of, renewed, number_in, stray_hand, Boundaries as AnyBoundaries};
ghost use Rattle.seam_cell_cases.specs.Arriving.{arrives};
ghost use Rattle.seam_node_steps.specs.Prelude.{has_any, Cell as CellNode, node_with, Call as AnyCall, GhostCopy as AnyCopy, RealView};
ghost use Rattle.seam_entity.specs.declared.message.Msg.TheVariants as msg;
ghost use Rattle.seam_cell.specs.Machines.{cell_peers, cell_targets, cell_keeps_peers, cell_stays_valid};
ghost use Rattle.seam_cell_cases.specs.Calling.{is_called, IsTurn, may_run};

use seam_call::{Boundaries, Call, Create, GhostCopy};
use seam_cell_calls::{execute_here, pass_on};
use seam_cell_cases::{
    Turn, all_queued, arrive, begin_round, execute_ready, give_witness, hold, make_real, may_call,
    may_execute, reap, survey_task,
};
use seam_cell_look::look_task;
use seam_cell_parts::{
    CellContext, CopyBook, EntityQueue, EntitySet, Lists, RealTable, Reals, Remotes, at_start,
    first_ready, put_after, put_in, take_out,
};
use seam_cell_told::ToldCopies;
use seam_defs::{Defs, Settings};
use seam_entity::{Msg, Parcel, fits_copy, is_small};
use seam_ghosts::GhostBook;
use seam_machine::{Input, Machine, Out};
use seam_table::{NoMemoryFor, Table};
use seam_tree::{MOST_CELLS, Tree};
use std::alloc::{AllocError, Global};
use std::marker::Model;

/// A cell: the reals and the ghosts of a part of the space, and to which cells reals went.
#[derive(Drop)]
pub struct Cell {
    known: CellContext,
    reals: Reals,
    remotes: Remotes,
    lists: Lists,
    // Forgotten before the reals or the copies change.
    told: ToldCopies,
}

impl Model for Cell {
    ghost use Rattle.std.specs.Coded.{codes};
    ghost use Rattle.std.specs.FinMap as table;
    ghost use Rattle.std.specs.FinSet as set;
    ghost use Rattle.seam_node_steps.specs.Cells.{CellView};
    ghost use Rattle.seam_node_steps.specs.Knowing.{known_at};
    ghost use Rattle.seam_cell_parts.specs.Kept.{cell_of, AreWhole};
    ghost use Rattle.seam_cell_told.specs.Told.{AreAsKnown};

    ghost Value = { CellView };

    ghost coded = { Prim.hlevel (codes, table.code, set.code) };

    ghost view = { λ c. cell_of c.known c.reals c.remotes c.lists };

    ghost invariant = { λ c.
        AreWhole c.known c.reals c.remotes c.lists × AreAsKnown (known_at (cell_of c.known c.reals c.remotes c.lists)) c.told };
}

// Whether a copy that comes at that beat does not fit, or a number is not small.
fn is_stray_set(defs: &Defs, settings: &Settings, beat: u64, copy: &GhostCopy) -> bool
    ensures { (me : ℕ) → result ≡ stray_ghost_set (node_with defs.now me settings.now) beat
        copy.now }
{
    if !is_small(beat) {
        return true;
    }
    if !is_small(copy.version) {
        return true;
    }
    !fits_copy(defs, settings, copy)
}

// The number of the boundaries that are brought.
fn number_in(brought: &Option<Boundaries>) -> u64
    ensures { result ≡ number_in brought.now }
{
    match brought {
        Some(bounds) => bounds.number,
        None => 0,
    }
}

impl Cell {
    /// A cell without entities, in a space that it has alone.
    pub fn new(alloc: Global, me: u8, defs: Defs, settings: Settings) -> Result<Cell, AllocError>
        requires me { me < cell_count }
        requires legal { AreLegal settings }
        ensures { IfOk result (λ c. CellNode c ≡ empty_cell defs settings me) }
    {
        let bounds = at_start(alloc, Tree::one(settings.size))?;
        let key = defs.hash_key();
        Ok(Cell {
            known: CellContext {
                me,
                defs,
                settings,
                bounds,
            },
            reals: Reals {
                items: RealTable::new(alloc, key),
                ready: EntitySet::new(alloc),
                witnesses: EntitySet::new(alloc),
            },
            remotes: Remotes {
                nexts: Table::new(alloc, key),
                copies: CopyBook::new(alloc, key),
            },
            lists: Lists {
                survey: EntityQueue::new(alloc),
                looks: EntityQueue::new(alloc),
            },
            told: ToldCopies::new(alloc, key),
        })
    }

    /// Load, point 1: makes the real of a new entity, if this cell is the leaf of its position.
    pub fn add_entity(&mut self, alloc: Global, create: Create) -> Result<(), AllocError>
        requires inside { IsInSpace self.old.tree create.pos }
        requires new { table.get self.old.reals create.entity ≡ None }
        ensures after { OnOk result (self.new ≡ real_if true self.old create) }

        // If allocation fails, nothing has changed.
        ensures err { OnErr result (self.new ≡ self.old) }
    {
        self.told.clear();
        make_real(alloc, &self.known, create, &mut self.reals)
    }

    /// Load, point 2: gives the entity's real, if it is here, a witness.
    pub fn attach(&mut self, alloc: Global, e: u32) -> Result<(), AllocError>
        ensures after { OnOk result (CellNode self.new ≡ attached e (CellNode self.old)) }
        ensures err { OnErr result (self.new ≡ self.old) }
    {
        self.told.clear();
        give_witness(alloc, &self.known, e, &mut self.reals)
    }

    /// Load, point 3: begins a round with that tree. No real has done anything in it yet, all reals are to settle, and the cell forgets
    /// where reals went, and the beats of entities that it has no copy of.
    pub fn start_round(&mut self, alloc: Global, tree: Tree) -> Result<(), AllocError>
        requires { tree.size ≡ self.old.here.settings.size }
        ensures after { OnOk result (self.new ≡ cell_begins tree self.old) }
        ensures err { OnErr result (self.new ≡ self.old) }
    {
        self.told.clear();
        // `size` is called for its clause that it is a tree.
        let _ = tree.size();
        let bounds = at_start(alloc, tree)?;
        begin_round(alloc, &mut self.reals, &mut self.lists.survey)?;
        self.known.bounds = bounds;
        let key = self.known.defs.hash_key();
        self.remotes.nexts = Table::new(alloc, key);
        self.remotes.copies.forget_dropped(alloc, key);
        Ok(())
    }

    /// Ghost set: unless the real is here, the cell's book takes the copy at its beat.
    pub fn hear_ghost_set(
        &mut self,
        e: u32,
        beat: u64,
        copy: GhostCopy,
    ) -> Result<(), NoMemoryFor<GhostCopy>>
        ensures state { (from : ℕ) → OnOk result (self.new
            ≡ (cell_steps self.old (From from (msg.GhostSet e beat copy))).state) }
        ensures sent { (from : ℕ) → (cell_steps self.old
            (From from (msg.GhostSet e beat copy))).sent ≡ [] }
        ensures err { OnErr result (self.new ≡ self.old) }
        ensures err_item { IfErr result (λ r. r.item ≡ copy) }
    {
        if self.reals.items.get(e).is_some() {
            return Ok(());
        }
        if is_stray_set(&self.known.defs, &self.known.settings, beat, &copy) {
            return Ok(());
        }
        self.told.clear();
        self.remotes.copies.set(e, beat, copy)
    }

    /// Ghost drop: the cell's book drops the copy at that beat.
    pub fn hear_ghost_drop(&mut self, e: u32, beat: u64) -> Result<(), AllocError>
        ensures state { (from : ℕ) → OnOk result (self.new
            ≡ (cell_steps self.old (From from (msg.GhostDrop e beat))).state) }
        ensures sent { (from : ℕ) → (cell_steps self.old (From from (msg.GhostDrop e beat))).sent
            ≡ [] }
        ensures err { OnErr result (self.new ≡ self.old) }
    {
        if !is_small(beat) {
            return Ok(());
        }
        self.told.clear();
        self.remotes.copies.drop_copy(e, beat)
    }

    /// Tick: all witnesses here are to look.
    pub fn hear_tick(&mut self) -> Result<(), AllocError>
        ensures state { (from : ℕ) → OnOk result (self.new
            ≡ (cell_steps self.old (From from msg.Tick)).state) }
        ensures sent { (from : ℕ) → (cell_steps self.old (From from msg.Tick)).sent ≡ [] }
        ensures err { OnErr result (self.new ≡ self.old) }
    {
        self.lists.looks.refill(&self.reals.witnesses)
    }

    /// Whether the entity's real is here.
    pub fn has_real(&self, e: u32) -> bool
        ensures { result ≡ is_some (table.get self.now.reals e) }
    {
        self.reals.items.get(e).is_some()
    }

    /// The entity's real, if it is here.
    pub fn real(&self, e: u32) -> Option<&Parcel>
        ensures { option_copied result ≡ table.get self.now.reals e }
    {
        self.reals.items.get(e)
    }

    /// Call. If the real is here and may be offered the call, it executes it in its turn and settles, and holds it if it is early. If the
    /// real is not here, the call is sent to the next place.
    pub fn hear_call(&mut self, call: Call, out: &mut Out<Msg>) -> Result<(), NoMemoryFor<Call>>
        ensures state { (from : ℕ) → OnOk result (self.new
            ≡ (cell_steps self.old (From from (msg.Call call))).state) }
        ensures sent { (from : ℕ) → OnOk result (out.new.items ≡ out.old.items
            ++ (cell_steps self.old (From from (msg.Call call))).sent) }

        // If allocation fails, the call comes back and nothing has changed.
        ensures err { OnErr result (self.new ≡ self.old) }
        ensures err_out { OnErr result (out.new.items ≡ out.old.items) }
        ensures err_item { IfErr result (λ r. r.item ≡ call) }
    {
        let Some(parcel) = self.reals.items.get(call.entity) else {
            return self.pass_call_on(call, out);
        };
        if !may_call(&self.known, &parcel.real, &call) {
            return Ok(());
        }
        if parcel.real.is_turn(&call) {
            return self.execute_call(call, out);
        }
        self.hold_call(call)
    }

    // Call, real here, whose turn it is.
    fn execute_call(&mut self, call: Call, out: &mut Out<Msg>) -> Result<(), NoMemoryFor<Call>>
        requires may { is_called self.old call ≡ true }
        requires turn { IsTurn self.old call }
        ensures state { (from : ℕ) → OnOk result (self.new
            ≡ (cell_steps self.old (From from (msg.Call call))).state) }
        ensures sent { (from : ℕ) → OnOk result (out.new.items ≡ out.old.items
            ++ (cell_steps self.old (From from (msg.Call call))).sent) }
        ensures err { OnErr result (self.new ≡ self.old) }
        ensures err_out { OnErr result (out.new.items ≡ out.old.items) }
        ensures err_item { IfErr result (λ r. r.item ≡ call) }
    {
        self.told.clear();
        execute_here(
            &self.known,
            call,
            &mut self.reals,
            &mut self.remotes,
            &mut self.lists,
            out,
        )
    }

    // Call, real here, which comes early and is held, or late and is dropped.
    fn hold_call(&mut self, call: Call) -> Result<(), NoMemoryFor<Call>>
        requires may { is_called self.old call ≡ true }
        requires not_turn { IsTurn self.old call → ⊥ }
        ensures state { (from : ℕ) → OnOk result (self.new
            ≡ (cell_steps self.old (From from (msg.Call call))).state) }
        ensures sent { (from : ℕ) → (cell_steps self.old (From from (msg.Call call))).sent ≡ [] }
        ensures err { OnErr result (self.new ≡ self.old) }
        ensures err_item { IfErr result (λ r. r.item ≡ call) }
    {
        self.told.clear();
        let e = call.entity;
        let Ok(real) = take_out(&mut self.reals, e) else {
            return Err(NoMemoryFor { item: call });
        };
        let held = hold(&self.known, Turn { real, call });
        put_in(&mut self.reals, e, held.real);
        held.result
    }

    // Ready-call task: the least entity that has a ready call executes it, and settles.
    fn ready_task(&mut self, e: u32, out: &mut Out<Msg>) -> Result<(), AllocError>
        requires surveyed { self.old.survey ≡ [] }
        requires ready { ready_entity self.old ≡ Some e }
        ensures state { OnOk result (self.new ≡ (cell_steps self.old Task).state) }
        ensures sent { OnOk result (out.new.items ≡ out.old.items
            ++ (cell_steps self.old Task).sent) }
        ensures err { OnErr result (self.new ≡ self.old) }
        ensures err_out { OnErr result (out.new.items ≡ out.old.items) }
    {
        let Some(parcel) = self.reals.items.get(e) else {
            unreachable!()
        };
        if !may_execute(&parcel.real) {
            return Ok(());
        }
        self.run_ready(e, out)
    }

    // The entity, whose real may execute its ready call, executes it.
    fn run_ready(&mut self, e: u32, out: &mut Out<Msg>) -> Result<(), AllocError>
        requires surveyed { self.old.survey ≡ [] }
        requires ready { ready_entity self.old ≡ Some e }
        requires may { may_run (table.get self.old.reals e) ≡ true }
        ensures state { OnOk result (self.new ≡ (cell_steps self.old Task).state) }
        ensures sent { OnOk result (out.new.items ≡ out.old.items
            ++ (cell_steps self.old Task).sent) }
        ensures err { OnErr result (self.new ≡ self.old) }
        ensures err_out { OnErr result (out.new.items ≡ out.old.items) }
    {
        self.told.clear();
        let real = take_out(&mut self.reals, e)?;
        let tasked = execute_ready(&self.known, real, &mut self.remotes, out);
        put_after(&mut self.reals, &mut self.lists, e, tasked.left);
        tasked.result
    }

    // Whether these boundaries are of the cell's space, and newer than its own.
    fn are_newer(&self, bounds: &Boundaries) -> bool
        ensures { result ≡ are_newer self.now bounds.now }
    {
        let size = bounds.tree.get().size();
        self.known.bounds.number < bounds.number && size == self.known.settings.size
    }

    // The cell goes by these boundaries, and the entities of the queue are to settle. It gives back its own and who was to settle.
    fn exchange(&mut self, bounds: Boundaries, survey: EntityQueue) -> (Boundaries, EntityQueue)
        requires { bounds.tree.size ≡ self.old.here.settings.size }
        ensures after { self.new ≡ record self.old {
          tree = bounds.tree;
          number = bounds.number;
          survey = survey;
        } }
        ensures bounds { result.0 ≡ boundaries_of self.old }
        ensures survey { result.1 ≡ self.old.survey }
        ensures size { result.0.tree.size ≡ self.old.here.settings.size }
    {
        self.told.clear();
        // `size` is called for its clause that it is a tree.
        let _ = bounds.tree.get().size();
        let old = std::mem::replace(&mut self.known.bounds, bounds);
        let was = std::mem::replace(&mut self.lists.survey, survey);
        (old, was)
    }

    // The entities of the queue are to settle.
    fn list_all(&mut self, survey: EntityQueue)
        ensures { self.new ≡ record self.old { survey = survey } }
    {
        self.told.clear();
        self.lists.survey = survey;
    }

    // Newer bounds: the cell goes by them, and all its reals are to settle. Older ones change nothing.
    fn hear_bounds(
        &mut self,
        alloc: Global,
        bounds: Boundaries,
    ) -> Result<(), NoMemoryFor<Boundaries>>
        ensures state { (from : ℕ) → OnOk result (self.new
            ≡ (cell_steps self.old (From from (msg.Bounds bounds))).state) }
        ensures sent { (from : ℕ) → (cell_steps self.old (From from (msg.Bounds bounds))).sent
            ≡ [] }
        ensures err { OnErr result (self.new ≡ self.old) }
        ensures err_item { IfErr result (λ r. r.item ≡ bounds) }
    {
        if !self.are_newer(&bounds) {
            return Ok(());
        }
        let Ok(all) = all_queued(alloc, &self.reals) else {
            return Err(NoMemoryFor { item: bounds });
        };
        let _ = self.exchange(bounds, all);
        Ok(())
    }

    // A real comes: the step of its slot. It says whether the real was put in.
    fn take_in(&mut self, parcel: Parcel, out: &mut Out<Msg>) -> Result<bool, NoMemoryFor<Parcel>>
        ensures state { OnOk result (self.new ≡ (arrives self.old parcel).state) }
        ensures sent { OnOk result (out.new.items ≡ out.old.items ++ (arrives self.old
            parcel).sent) }
        ensures came { IfOk result (λ b. b ≡ not (stray_hand self.old.here self.old.tree parcel
            (table.get self.old.reals parcel.entity))) }
        ensures err { OnErr result (self.new ≡ self.old) }
        ensures err_out { OnErr result (out.new.items ≡ out.old.items) }
        ensures err_item { IfErr result (λ r. r.item ≡ parcel) }
    {
        self.told.clear();
        arrive(&self.known, parcel, &mut self.reals, &mut self.remotes, out)
    }

    // Hand-over comes, with newer boundaries: the cell goes by them first.
    fn hear_newer(
        &mut self,
        alloc: Global,
        parcel: Parcel,
        bounds: &Boundaries,
        out: &mut Out<Msg>,
    ) -> Result<(), NoMemoryFor<Parcel>>
        requires { are_newer self.old bounds.now ≡ true }
        ensures state { (from : ℕ) → OnOk result (self.new
            ≡ (cell_steps self.old (From from (msg.Hand parcel (Some bounds.now)))).state) }
        ensures sent { (from : ℕ) → OnOk result (out.new.items ≡ out.old.items
            ++ (cell_steps self.old (From from (msg.Hand parcel (Some bounds.now)))).sent) }
        ensures err { OnErr result (self.new ≡ self.old) }
        ensures err_out { OnErr result (out.new.items ≡ out.old.items) }
        ensures err_item { IfErr result (λ r. r.item ≡ parcel) }
    {
        let Ok(more) = bounds.share() else {
            return Err(NoMemoryFor { item: parcel });
        };
        let Ok(all) = all_queued(alloc, &self.reals) else {
            return Err(NoMemoryFor { item: parcel });
        };
        let (old, was) = self.exchange(more, all);
        match self.take_in(parcel, out) {
            Ok(_) => return Ok(()),
            Err(refused) => {
                let _ = self.exchange(old, was);
                return Err(refused);
            }
        }
    }

    // Hand-over comes that was settled by older boundaries: the real is to settle, too.
    fn hear_late(
        &mut self,
        parcel: Parcel,
        brought: &Option<Boundaries>,
        out: &mut Out<Msg>,
    ) -> Result<(), NoMemoryFor<Parcel>>
        requires same { renewed self.old brought.now ≡ self.old }
        requires late { number_in brought.now < self.old.number }
        ensures state { (from : ℕ) → OnOk result (self.new
            ≡ (cell_steps self.old (From from (msg.Hand parcel brought.now))).state) }
        ensures sent { (from : ℕ) → OnOk result (out.new.items ≡ out.old.items
            ++ (cell_steps self.old (From from (msg.Hand parcel brought.now))).sent) }
        ensures err { OnErr result (self.new ≡ self.old) }
        ensures err_out { OnErr result (out.new.items ≡ out.old.items) }
        ensures err_item { IfErr result (λ r. r.item ≡ parcel) }
    {
        let Ok(listed) = self.lists.survey.with(parcel.real.entity()) else {
            return Err(NoMemoryFor { item: parcel });
        };
        match self.take_in(parcel, out) {
            Ok(came) => {
                if came {
                    self.list_all(listed);
                    return Ok(());
                }
                return Ok(());
            }
            Err(refused) => return Err(refused),
        }
    }

    // Hand-over comes that was settled by the cell's boundaries.
    fn hear_in_time(
        &mut self,
        parcel: Parcel,
        brought: &Option<Boundaries>,
        out: &mut Out<Msg>,
    ) -> Result<(), NoMemoryFor<Parcel>>
        requires same { renewed self.old brought.now ≡ self.old }
        requires in_time { self.old.number ≤ number_in brought.now }
        ensures state { (from : ℕ) → OnOk result (self.new
            ≡ (cell_steps self.old (From from (msg.Hand parcel brought.now))).state) }
        ensures sent { (from : ℕ) → OnOk result (out.new.items ≡ out.old.items
            ++ (cell_steps self.old (From from (msg.Hand parcel brought.now))).sent) }
        ensures err { OnErr result (self.new ≡ self.old) }
        ensures err_out { OnErr result (out.new.items ≡ out.old.items) }
        ensures err_item { IfErr result (λ r. r.item ≡ parcel) }
    {
        match self.take_in(parcel, out) {
            Ok(_) => return Ok(()),
            Err(refused) => return Err(refused),
        }
    }

    // The boundaries that are brought, where they are newer than the cell's.
    fn newer_in<'a>(&self, brought: &'a Option<Boundaries>) -> Option<&'a Boundaries>
        ensures some { IfSome result (λ b. (brought.now ≡ Some b.now) × (are_newer self.now b.now
            ≡ true)) }
        ensures none { result ≡ None → renewed self.now brought.now ≡ self.now }
    {
        match brought {
            Some(bounds) => if self.are_newer(bounds) {
                Some(bounds)
            } else {
                None
            },
            None => None,
        }
    }

    // Hand-over comes with boundaries that are no newer than the cell's.
    fn hear_known(
        &mut self,
        parcel: Parcel,
        brought: &Option<Boundaries>,
        out: &mut Out<Msg>,
    ) -> Result<(), NoMemoryFor<Parcel>>
        requires { renewed self.old brought.now ≡ self.old }
        ensures state { (from : ℕ) → OnOk result (self.new
            ≡ (cell_steps self.old (From from (msg.Hand parcel brought.now))).state) }
        ensures sent { (from : ℕ) → OnOk result (out.new.items ≡ out.old.items
            ++ (cell_steps self.old (From from (msg.Hand parcel brought.now))).sent) }
        ensures err { OnErr result (self.new ≡ self.old) }
        ensures err_out { OnErr result (out.new.items ≡ out.old.items) }
        ensures err_item { IfErr result (λ r. r.item ≡ parcel) }
    {
        let number = number_in(brought);
        if number < self.bounds_number() {
            return self.hear_late(parcel, brought, out);
        }
        self.hear_in_time(parcel, brought, out)
    }

    // Hand-over comes.
    fn hear_hand(
        &mut self,
        alloc: Global,
        parcel: Parcel,
        brought: &Option<Boundaries>,
        out: &mut Out<Msg>,
    ) -> Result<(), NoMemoryFor<Parcel>>
        ensures state { (from : ℕ) → OnOk result (self.new
            ≡ (cell_steps self.old (From from (msg.Hand parcel brought.now))).state) }
        ensures sent { (from : ℕ) → OnOk result (out.new.items ≡ out.old.items
            ++ (cell_steps self.old (From from (msg.Hand parcel brought.now))).sent) }
        ensures err { OnErr result (self.new ≡ self.old) }
        ensures err_out { OnErr result (out.new.items ≡ out.old.items) }
        ensures err_item { IfErr result (λ r. r.item ≡ parcel) }
    {
        match self.newer_in(brought) {
            Some(bounds) => return self.hear_newer(alloc, parcel, bounds, out),
            None => return self.hear_known(parcel, brought, out),
        }
    }

    // Reap.
    fn hear_reap(&mut self, e: u32, out: &mut Out<Msg>) -> Result<(), AllocError>
        ensures state { (from : ℕ) → OnOk result (self.new
            ≡ (cell_steps self.old (From from (msg.Reap e))).state) }
        ensures sent { (from : ℕ) → OnOk result (out.new.items ≡ out.old.items
            ++ (cell_steps self.old (From from (msg.Reap e))).sent) }
        ensures err { OnErr result (self.new ≡ self.old) }
        ensures err_out { OnErr result (out.new.items ≡ out.old.items) }
    {
        self.told.clear();
        reap(e, &mut self.reals, &mut self.remotes, &mut self.lists, out)
    }

    // Look task, where nothing is to settle and no entity has a ready call.
    fn look(&mut self, alloc: Global, out: &mut Out<Msg>) -> Result<(), AllocError>
        requires surveyed { self.old.survey ≡ [] }
        requires not_ready { ready_entity self.old ≡ None }
        ensures state { OnOk result (self.new ≡ (cell_steps self.old Task).state) }
        ensures sent { OnOk result (out.new.items ≡ out.old.items
            ++ (cell_steps self.old Task).sent) }
        ensures err { OnErr result (self.new ≡ self.old) }
        ensures err_out { OnErr result (out.new.items ≡ out.old.items) }
    {
        look_task(
            alloc,
            &self.known,
            &mut self.reals,
            &mut self.remotes,
            &mut self.lists,
            &mut self.told,
            out,
        )
    }

    // Survey task.
    fn survey(&mut self, out: &mut Out<Msg>) -> Result<(), AllocError>
        requires { has_any self.old.survey ≡ true }
        ensures state { OnOk result (self.new ≡ (cell_steps self.old Task).state) }
        ensures sent { OnOk result (out.new.items ≡ out.old.items
            ++ (cell_steps self.old Task).sent) }
        ensures err { OnErr result (self.new ≡ self.old) }
        ensures err_out { OnErr result (out.new.items ≡ out.old.items) }
    {
        self.told.clear();
        survey_task(
            &self.known,
            &mut self.reals,
            &mut self.remotes,
            &mut self.lists,
            out,
        )
    }

    // The cell's task: a real settles, else a ready call is executed, else a witness looks.
    fn task(&mut self, alloc: Global, out: &mut Out<Msg>) -> Result<(), AllocError>
        ensures state { OnOk result (self.new ≡ (cell_steps self.old Task).state) }
        ensures sent { OnOk result (out.new.items ≡ out.old.items
            ++ (cell_steps self.old Task).sent) }
        ensures err { OnErr result (self.new ≡ self.old) }
        ensures err_out { OnErr result (out.new.items ≡ out.old.items) }
    {
        if self.has_survey() {
            return self.survey(out);
        }
        if let Some(e) = self.ready_entity() {
            return self.ready_task(e, out);
        }
        self.look(alloc, out)
    }

    // Whether a real is to settle.
    fn has_survey(&self) -> bool
        ensures { result ≡ has_any self.now.survey }
    {
        !self.lists.survey.is_empty()
    }

    // The least entity that has a ready call.
    fn ready_entity(&self) -> Option<u32>
        ensures { result ≡ ready_entity self.now }
    {
        first_ready(&self.reals)
    }

    // A call is taken out of its message. If allocation fails, it is put back.
    #[inline(never)]
    fn take_call(&mut self, message: &mut Msg, out: &mut Out<Msg>) -> Result<(), AllocError>
        requires { (call : AnyCall) × (message.old ≡ msg.Call call) }
        ensures state { (from : ℕ) → OnOk result (self.new
            ≡ (cell_steps self.old (From from message.old)).state) }
        ensures sent { (from : ℕ) → OnOk result (out.new.items ≡ out.old.items
            ++ (cell_steps self.old (From from message.old)).sent) }
        ensures err { OnErr result (self.new ≡ self.old) }
        ensures err_out { OnErr result (out.new.items ≡ out.old.items) }
        ensures err_message { OnErr result (message.new ≡ message.old) }
    {
        let Msg::Call(call) = std::mem::replace(message, Msg::Tick) else {
            unreachable!()
        };
        match self.hear_call(call, out) {
            Ok(()) => return Ok(()),
            Err(refused) => {
                *message = Msg::Call(refused.item);
                return Err(AllocError);
            }
        }
    }

    // So is a hand-over.
    #[inline(never)]
    fn take_hand(
        &mut self,
        alloc: Global,
        message: &mut Msg,
        out: &mut Out<Msg>,
    ) -> Result<(), AllocError>
        requires { (real : RealView) × (b : Option AnyBoundaries) × (message.old ≡ msg.Hand real
            b) }
        ensures state { (from : ℕ) → OnOk result (self.new
            ≡ (cell_steps self.old (From from message.old)).state) }
        ensures sent { (from : ℕ) → OnOk result (out.new.items ≡ out.old.items
            ++ (cell_steps self.old (From from message.old)).sent) }
        ensures err { OnErr result (self.new ≡ self.old) }
        ensures err_out { OnErr result (out.new.items ≡ out.old.items) }
        ensures err_message { OnErr result (message.new ≡ message.old) }
    {
        let Msg::Hand(parcel, brought) = std::mem::replace(message, Msg::Tick) else {
            unreachable!()
        };
        match self.hear_hand(alloc, parcel, &brought, out) {
            Ok(()) => return Ok(()),
            Err(refused) => {
                *message = Msg::Hand(refused.item, brought);
                return Err(AllocError);
            }
        }
    }

    // So are boundaries.
    #[inline(never)]
    fn take_bounds(&mut self, alloc: Global, message: &mut Msg) -> Result<(), AllocError>
        requires { (b : AnyBoundaries) × (message.old ≡ msg.Bounds b) }
        ensures state { (from : ℕ) → OnOk result (self.new
            ≡ (cell_steps self.old (From from message.old)).state) }
        ensures sent { (from : ℕ) → (cell_steps self.old (From from message.old)).sent ≡ [] }
        ensures err { OnErr result (self.new ≡ self.old) }
        ensures err_message { OnErr result (message.new ≡ message.old) }
    {
        let Msg::Bounds(bounds) = std::mem::replace(message, Msg::Tick) else {
            unreachable!()
        };
        match self.hear_bounds(alloc, bounds) {
            Ok(()) => return Ok(()),
            Err(refused) => {
                *message = Msg::Bounds(refused.item);
                return Err(AllocError);
            }
        }
    }

    // And so is a ghost set.
    #[inline(never)]
    fn take_ghost_set(&mut self, message: &mut Msg) -> Result<(), AllocError>
        requires { (e beat : ℕ) × (copy : AnyCopy) × (message.old ≡ msg.GhostSet e beat copy) }
        ensures state { (from : ℕ) → OnOk result (self.new
            ≡ (cell_steps self.old (From from message.old)).state) }
        ensures sent { (from : ℕ) → (cell_steps self.old (From from message.old)).sent ≡ [] }
        ensures err { OnErr result (self.new ≡ self.old) }
        ensures err_message { OnErr result (message.new ≡ message.old) }
    {
        let Msg::GhostSet(e, beat, copy) = std::mem::replace(message, Msg::Tick) else {
            unreachable!()
        };
        match self.hear_ghost_set(e, beat, copy) {
            Ok(()) => return Ok(()),
            Err(refused) => {
                *message = Msg::GhostSet(e, beat, refused.item);
                return Err(AllocError);
            }
        }
    }

    // A message from another node, which is used up; no case is for what goes to base nodes alone.
    fn hear(
        &mut self,
        alloc: Global,
        message: &mut Msg,
        out: &mut Out<Msg>,
    ) -> Result<(), AllocError>
        ensures state { (from : ℕ) → OnOk result (self.new
            ≡ (cell_steps self.old (From from message.old)).state) }
        ensures sent { (from : ℕ) → OnOk result (out.new.items ≡ out.old.items
            ++ (cell_steps self.old (From from message.old)).sent) }
        ensures err { OnErr result (self.new ≡ self.old) }
        ensures err_out { OnErr result (out.new.items ≡ out.old.items) }
        ensures err_message { OnErr result (message.new ≡ message.old) }
    {
        match message {
            Msg::Call(_) => return self.take_call(message, out),
            Msg::Hand(_, _) => return self.take_hand(alloc, message, out),
            Msg::Bounds(_) => return self.take_bounds(alloc, message),
            Msg::GhostSet(_, _, _) => return self.take_ghost_set(message),
            Msg::GhostDrop(e, beat) => return self.hear_ghost_drop(*e, *beat),
            Msg::Tick => return self.hear_tick(),
            Msg::Reap(e) => return self.hear_reap(*e, out),
            Msg::BaseCall(_) => return Ok(()),
            Msg::Current(_, _, _) => return Ok(()),
            Msg::Update(_) => return Ok(()),
        }
    }

    /// Call, next place: a call whose real is not here is sent as it is to the entity's next place, if there is one.
    pub fn pass_call_on(&self, call: Call, out: &mut Out<Msg>) -> Result<(), NoMemoryFor<Call>>
        requires { is_some (table.get self.now.reals call.entity) ≡ false }
        ensures state { (from : ℕ) → (cell_steps self.now (From from (msg.Call call))).state
            ≡ self.now }
        ensures sent { (from : ℕ) → OnOk result (out.new.items ≡ out.old.items
            ++ (cell_steps self.now (From from (msg.Call call))).sent) }
        ensures err { OnErr result (out.new.items ≡ out.old.items) }
        ensures err_item { IfErr result (λ r. r.item ≡ call) }
    {
        pass_on(&self.remotes.nexts, call, out)
    }

    /// The number of the boundaries that the cell goes by.
    pub fn bounds_number(&self) -> u64
        ensures { result ≡ self.now.number }
    {
        self.known.bounds.number
    }

    /// The copies of entities of other cells.
    pub fn copies(&self) -> &GhostBook<GhostCopy>
        ensures { result.now.ghosts ≡ self.now.ghosts }
    {
        self.remotes.copies.book()
    }
}

impl Machine for Cell {
    type Msg = Msg;

    ghost has_work = { cell_has_work };

    ghost peer_count = { cell_peers };

    ghost steps = { cell_steps };

    ghost valid = { IsCell };

    ghost targets = { cell_targets };

    ghost keeps_peers = { cell_keeps_peers };

    ghost stays_valid = { cell_stays_valid };

    fn peers(&self) -> u8 {
        MOST_CELLS as u8 + self.known.settings.bases as u8
    }

    fn has_task(&self) -> bool {
        if self.has_survey() {
            return true;
        }
        if self.ready_entity().is_some() {
            return true;
        }
        !self.lists.looks.is_empty()
    }

    fn known(&self) {
        let _ = &self.known;
    }

    fn step(
        &mut self,
        alloc: Global,
        input: &mut Input<Msg>,
        out: &mut Out<Msg>,
    ) -> Result<(), AllocError>
        requires { input.old ≡ Input.Task → cell_has_work self.old ≡ true }
        ensures state { OnOk result (self.new ≡ (cell_steps self.old input.old).state) }
        ensures sent { OnOk result (out.new.items ≡ out.old.items
            ++ (cell_steps self.old input.old).sent) }
        ensures err_state { OnErr result (self.new ≡ self.old) }
        ensures err_out { OnErr result (out.new.items ≡ out.old.items) }
        ensures err_input { OnErr result (input.new ≡ input.old) }
    {
        match input {
            Input::Task => return self.task(alloc, out),
            Input::From(_, message) => return self.hear(alloc, message, out),
        }
    }
}
