//! What a witness sees of others, and what it tells.

ghost use Rattle.std.specs.Prelude.{◌≡◌, ℕ, ◌<◌, ◌≤◌, ◌^◌, ◌+◌, ◌++◌, [], ◌∷◌, length, map, filter_map, IfOk, OnOk, OnErr};
ghost use Rattle.std.specs.Prelude.{option_map, false, if◌then◌else◌};
ghost use Rattle.std.specs.List.Sorted.{IsStrictlySortedBy};
ghost use Rattle.std.specs.Ordering.{nat_cmp};
ghost use Rattle.std.specs.FinMap as table;
ghost use Rattle.seam_view.specs.Replica.{HasRoom};
ghost use Rattle.seam_node_steps.specs.Prelude.{MOST_BASE_NODES, base_of, Set, Enter, is_small as is_small_number, witness_of, seen_as};
ghost use Rattle.seam_node_steps.specs.Prelude.{known_of, shown_for, all_shown, numbered, looks_of, shown_of, CellView, known_in, known_to};
ghost use Rattle.seam_node_steps.specs.Prelude.{stepped, looks_around, look_next, known_at, is_empty};
ghost use Rattle.seam_cell_parts.specs.Kept.{here_in, cell_of, AreKept};
ghost use Rattle.seam_cell_parts.specs.News.{listed};
ghost use Rattle.seam_cell_look.specs.Looking.{seeing, looked, told_at_look, own_told, told_these, real_has_witness};
ghost use Rattle.seam_cell_look.specs.Near.{HasNear};
ghost use Rattle.seam_cell_told.specs.Updates.{with_shown, updates_of};
ghost use Rattle.seam_cell_seen.specs.Known.{known_with};
ghost use Rattle.seam_cell_told.specs.Told.{AreAsKnown, AreAsKnownBut, AreStillAsKnown};

use seam_call::{GhostCopy, Shown};
use seam_cell_parts::{CellContext, CopyBook, Lists, RealTable, Reals, Remotes, put_in, take_out};
use seam_cell_seen::known_copy;
use seam_cell_told::{ToldCopies, Updates};
use seam_entity::{Msg, Real, Witness, is_small};
use seam_machine::Out;
use seam_table::Shared;
use seam_view::{Look, Seen};
use std::alloc::{AllocError, Global};

/// What a cell knows of others than entity `own`: its reals, and its copies.
#[derive(Drop)]
pub struct Sight<'a> {
    pub alloc: Global,
    pub own: u32,
    pub known: &'a CellContext,
    pub reals: &'a RealTable,
    pub copies: &'a CopyBook,
}

/// A look that was made ready: what was seen, the looks at it, and what is told of them.
#[derive(Drop)]
pub struct Glance {
    pub seen: Vec<Seen>,
    pub looks: Vec<Look>,
    pub shown: Updates,
}

/// A real as it is seen.
pub fn seen_real(e: u32, real: &Real) -> Seen
    ensures { result ≡ record {
      entity = e;
      version = real.now.core.public;
      pos = real.now.core.state.pos;
    } }
{
    Seen {
        entity: e,
        version: real.public_version(),
        pos: real.state().pos,
    }
}

/// A copy as it is seen.
pub fn seen_copy(e: u32, copy: &GhostCopy) -> Seen
    ensures { result ≡ record { entity = e; version = copy.now.version; pos = copy.now.state.pos } }
{
    Seen {
        entity: e,
        version: copy.version,
        pos: copy.state.pos,
    }
}

// The entity enters or is set, where there is a copy of it.
fn shown_as(e: u32, enters: bool, copy: Option<Shared<GhostCopy>>) -> Option<Shown>
    ensures { result ≡ option_map (if enters then Enter e else Set e) copy }
{
    match copy {
        Some(copy) if enters => Some(Shown::Enter(e, copy)),
        Some(copy) => Some(Shown::Set(e, copy)),
        None => None,
    }
}

// Adds what is shown, if anything is.
#[inline]
fn push_if(shown: &mut Updates, item: Option<Shown>) -> Result<(), AllocError>
    ensures { OnOk result (shown.new ≡ with_shown shown.old (listed item)) }
{
    match item {
        Some(item) => shown.push(item),
        None => Ok(()),
    }
}

impl Sight<'_> {
    // What is known of another entity: what was told of it, or else what is found of it, which is kept.
    fn copy_of(
        &self,
        e: u32,
        told: &mut ToldCopies,
    ) -> Result<Option<Shared<GhostCopy>>, AllocError>
        requires told { let h = here_in self.now.known.now in
            AreAsKnownBut self.now.own
            (known_with h self.now.reals.now.items self.now.copies.now.ghosts) told.old }
        ensures copy { (c : CellView) →
            let d = seeing c (here_in self.now.known.now) self.now.reals.now.items
            self.now.copies.now.ghosts in
            IfOk result (λ o. o ≡ known_of e (known_to d self.now.own)) }
        ensures told { let h = here_in self.now.known.now in
            AreStillAsKnown self.now.own
            (known_with h self.now.reals.now.items self.now.copies.now.ghosts) told.old told.new }
    {
        if e == self.own {
            return Ok(None);
        }
        if let Some(copy) = told.copy_of(e)? {
            return Ok(Some(copy));
        }
        let Some(copy) = known_copy(self.known, self.reals, self.copies, e)? else {
            return Ok(None);
        };
        let copy = Shared::new(self.alloc, copy)?;
        told.keep(e, &copy)?;
        Ok(Some(copy))
    }

    // What is shown for a look, if anything is.
    fn shown_for(&self, look: &Look, told: &mut ToldCopies) -> Result<Option<Shown>, AllocError>
        requires told { let h = here_in self.now.known.now in
            AreAsKnownBut self.now.own
            (known_with h self.now.reals.now.items self.now.copies.now.ghosts) told.old }
        ensures shown { (c : CellView) →
            let d = seeing c (here_in self.now.known.now) self.now.reals.now.items
            self.now.copies.now.ghosts in
            IfOk result (λ o. o ≡ shown_for (known_to d self.now.own) look.now) }
        ensures told { let h = here_in self.now.known.now in
            AreStillAsKnown self.now.own
            (known_with h self.now.reals.now.items self.now.copies.now.ghosts) told.old told.new }
    {
        let (e, enters) = match look {
            Look::Leave(e) => return Ok(Some(Shown::Leave(*e))),
            Look::Set(e) => (*e, false),
            Look::Enter(e) => (*e, true),
        };
        let copy = self.copy_of(e, told)?;
        Ok(shown_as(e, enters, copy))
    }

    // Adds what is shown for the looks, in their order.
    fn add_all(
        &self,
        looks: &[Look],
        told: &mut ToldCopies,
        shown: &mut Updates,
    ) -> Result<(), AllocError>
        requires told { let h = here_in self.now.known.now in
            AreAsKnownBut self.now.own
            (known_with h self.now.reals.now.items self.now.copies.now.ghosts) told.old }
        ensures shown { (c : CellView) →
            let d = seeing c (here_in self.now.known.now) self.now.reals.now.items
            self.now.copies.now.ghosts in
            OnOk result (shown.new
            ≡ with_shown shown.old (filter_map (shown_for (known_to d self.now.own)) looks.now)) }
        ensures told { let h = here_in self.now.known.now in
            AreStillAsKnown self.now.own
            (known_with h self.now.reals.now.items self.now.copies.now.ghosts) told.old told.new }
    {
        for look in looks {
            let item = self.shown_for(look, told)?;
            push_if(shown, item)?;
        }
        Ok(())
    }

    // Adds the own state, where that is due.
    fn add_own(&self, real: &Real, witness: &Witness, shown: &mut Updates) -> Result<(), AllocError>
        ensures { let h = here_in self.now.known.now in
            OnOk result (shown.new
            ≡ with_shown shown.old (own_told h real.now.core witness.now.told)) }
    {
        if !witness.is_own_due(real.version()) {
            return Ok(());
        }
        let state = real.own_state(&self.known.defs)?;
        let state = Shared::new(self.alloc, state)?;
        shown.push(Shown::Own(real.version(), state))
    }

    // What the witness shows for the looks, after the own state where that is due.
    fn show(
        &self,
        real: &Real,
        witness: &Witness,
        looks: &[Look],
        told: &mut ToldCopies,
        mut room: Out<Msg>,
    ) -> Result<Updates, AllocError>
        requires empty { room.items ≡ [] }
        requires bases { 1 ≤ self.now.known.now.settings.bases }
        requires most { self.now.known.now.settings.bases ≤ MOST_BASE_NODES }
        requires small { witness.now.sent < 2 ^ 62 }
        requires told { let h = here_in self.now.known.now in
            AreAsKnownBut self.now.own
            (known_with h self.now.reals.now.items self.now.copies.now.ghosts) told.old }
        ensures shown { (c : CellView) → let h = here_in self.now.known.now in
            let d = seeing c h self.now.reals.now.items self.now.copies.now.ghosts in
            IfOk result (λ u. u ≡ updates_of h real.now.core witness.now.sent
            (all_shown h real.now.core (witness_of witness.now) (known_to d self.now.own)
            looks.now)) }
        ensures told { let h = here_in self.now.known.now in
            AreStillAsKnown self.now.own
            (known_with h self.now.reals.now.items self.now.copies.now.ghosts) told.old told.new }
    {
        // Besides the looks there is the own state.
        room.reserve(looks.len().saturating_add(1))?;
        let e = real.entity();
        let to = base_node_of(self.known, e);
        let mut shown = Updates::new(to, e, witness.sent, room);
        self.add_own(real, witness, &mut shown)?;
        self.add_all(looks, told, &mut shown)?;
        Ok(shown)
    }

    // Makes all that a look takes; nothing changes but the room of the witness.
    fn get_ready(
        &self,
        real: &Real,
        witness: &mut Witness,
        told: &mut ToldCopies,
        room: Out<Msg>,
    ) -> Result<Glance, AllocError>
        requires empty { room.items ≡ [] }
        requires bases { 1 ≤ self.now.known.now.settings.bases }
        requires most { self.now.known.now.settings.bases ≤ MOST_BASE_NODES }
        requires small { witness.old.sent < 2 ^ 62 }
        requires told { let h = here_in self.now.known.now in
            AreAsKnownBut self.now.own
            (known_with h self.now.reals.now.items self.now.copies.now.ghosts) told.old }
        ensures same { witness_of witness.new ≡ witness_of witness.old }
        ensures rising { IfOk result (λ g. IsStrictlySortedBy nat_cmp
            (map (λ s. s.entity) g.seen.items)) }
        ensures near { (c : CellView) → let h = here_in self.now.known.now in let own =
            real.now.core.state.pos in
            let d = seeing c h self.now.reals.now.items self.now.copies.now.ghosts in
            IfOk result (λ g. HasNear witness.old.view.core own
            (map seen_as (known_to d self.now.own)) g.seen.items) }
        ensures looks { (c : CellView) → let h = here_in self.now.known.now in
            let d = seeing c h self.now.reals.now.items self.now.copies.now.ghosts in
            IfOk result (λ g. g.looks.items ≡ looks_of real.now.core (witness_of witness.old)
            (known_to d self.now.own)) }
        ensures shown { (c : CellView) → let h = here_in self.now.known.now in
            let d = seeing c h self.now.reals.now.items self.now.copies.now.ghosts in
            IfOk result (λ g. g.shown ≡ updates_of h real.now.core witness.old.sent
            (shown_of h real.now.core (witness_of witness.old) (known_to d self.now.own))) }
        ensures room { IfOk result (λ g. HasRoom witness.new.view g.looks.items) }
        ensures told { let h = here_in self.now.known.now in
            AreStillAsKnown self.now.own
            (known_with h self.now.reals.now.items self.now.copies.now.ghosts) told.old told.new }
    {
        let own = real.state().pos;
        let seen = self.seen(own, &witness.view)?;
        let planned = witness.view.plan(own, &seen)?;
        let looks = self.in_time(&witness.view, planned)?;
        let shown = self.show(real, witness, &looks, told, room)?;
        Ok(Glance { seen, looks, shown })
    }

    /// The witness of the real looks at what is known, and its updates go to the entity's base node.
    pub fn look(
        &self,
        real: &Real,
        witness: &mut Witness,
        told: &mut ToldCopies,
        out: &mut Out<Msg>,
    ) -> Result<(), AllocError>
        requires bases { 1 ≤ self.now.known.now.settings.bases }
        requires most { self.now.known.now.settings.bases ≤ MOST_BASE_NODES }
        requires told { let h = here_in self.now.known.now in
            AreAsKnownBut self.now.own
            (known_with h self.now.reals.now.items self.now.copies.now.ghosts) told.old }
        ensures witness { (c : CellView) → let h = here_in self.now.known.now in
            let d = seeing c h self.now.reals.now.items self.now.copies.now.ghosts in
            OnOk result (witness_of witness.new ≡ looked h real.now.core (witness_of witness.old)
            (known_to d self.now.own)) }
        ensures sent { (c : CellView) → let h = here_in self.now.known.now in
            let d = seeing c h self.now.reals.now.items self.now.copies.now.ghosts in
            OnOk result (out.new.items
            ≡ out.old.items ++ told_at_look h real.now.core (witness_of witness.old)
            (known_to d self.now.own)) }
        ensures err { OnErr result (witness_of witness.new ≡ witness_of witness.old) }
        ensures err_out { OnErr result (out.new.items ≡ out.old.items) }
        ensures told { let h = here_in self.now.known.now in
            AreStillAsKnown self.now.own
            (known_with h self.now.reals.now.items self.now.copies.now.ghosts) told.old told.new }
    {
        if !is_small(witness.sent) {
            return Ok(());
        }
        let room = out.take_room(self.alloc);
        let glance = self.get_ready(real, witness, told, room)?;
        let updates = glance.shown.len();
        if !are_numbers_small(witness.sent, updates) {
            return Ok(());
        }
        if !out.is_empty() {
            out.reserve(updates)?;
        }
        tell(real, witness, glance, out);
        Ok(())
    }
}

// The witness keeps what it looked at and tells it, in room that was made before.
fn tell(real: &Real, witness: &mut Witness, glance: Glance, out: &mut Out<Msg>)
    requires rising { IsStrictlySortedBy nat_cmp (map (λ s. s.entity) glance.seen.items) }
    requires room { HasRoom witness.old.view glance.looks.items }
    requires small { witness.old.sent + length glance.shown.shown < 2 ^ 62 }
    requires out { is_empty out.old.items ≡ false → length glance.shown.shown ≤ out.old.spare }
    ensures witness { witness_of witness.new ≡ told_these glance real.now.core
        (witness_of witness.old) }
    ensures sent { let u = glance.shown in
        out.new.items ≡ out.old.items ++ numbered u.to u.entity u.sent u.shown }
{
    let Glance { seen, looks, shown } = glance;
    witness.keep(&seen, &looks, real.version(), shown.len() as u64);
    shown.send(out);
}

// The base node of the entity.
fn base_node_of(known: &CellContext, e: u32) -> u8
    requires bases { 1 ≤ known.now.settings.bases }
    requires most { known.now.settings.bases ≤ MOST_BASE_NODES }
    ensures { result ≡ base_of (here_in known.now) e }
{
    seam_call::base_node_of(e, known.settings.bases)
}

// Whether n more updates have small numbers.
fn are_numbers_small(sent: u64, n: usize) -> bool
    ensures { result ≡ is_small_number (sent + n) }
{
    let n = n as u64;
    is_small(sent) && is_small(n) && is_small(sent + n)
}

// Whether the entity's real is here and has a witness.
fn has_witness(reals: &Reals, e: u32) -> bool
    ensures { result ≡ real_has_witness (table.get reals.now.items.items e) }
{
    match reals.items.get(e) {
        Some(parcel) => parcel.real.has_witness(),
        None => false,
    }
}

// The entity's witness, if its real is here and has one, looks.
fn look_around(
    alloc: Global,
    known: &CellContext,
    e: u32,
    reals: &mut Reals,
    copies: &CopyBook,
    told: &mut ToldCopies,
    out: &mut Out<Msg>,
) -> Result<(), AllocError>
    requires marks { AreKept reals.old }
    requires bases { 1 ≤ known.now.settings.bases }
    requires most { known.now.settings.bases ≤ MOST_BASE_NODES }
    requires told { AreAsKnown
        (known_with (here_in known.now) reals.old.items.items copies.now.ghosts)
        told.old }
    ensures reals { (c : CellView) →
        let d = seeing c (here_in known.now) reals.old.items.items copies.now.ghosts in
        OnOk result (record d { reals = reals.new.items.items }
        ≡ (stepped d e (looks_around d e (table.get d.reals e) (known_to d e))).state) }
    ensures sent { (c : CellView) →
        let d = seeing c (here_in known.now) reals.old.items.items copies.now.ghosts in
        OnOk result (out.new.items ≡ out.old.items
        ++ (stepped d e (looks_around d e (table.get d.reals e) (known_to d e))).sent) }
    ensures err { OnErr result (reals.new.items.items ≡ reals.old.items.items) }
    ensures err_out { OnErr result (out.new.items ≡ out.old.items) }
    ensures marks { AreKept reals.new }
    ensures told { AreAsKnown
        (known_with (here_in known.now) reals.new.items.items copies.now.ghosts)
        told.new }
{
    if !has_witness(reals, e) {
        return Ok(());
    }
    let mut real = take_out(reals, e)?;
    let Some(mut witness) = real.take_witness() else {
        unreachable!()
    };
    let sight = Sight {
        alloc,
        own: e,
        known,
        reals: &reals.items,
        copies,
    };
    let result = sight.look(&real, &mut witness, told, out);
    real.put_witness(witness);
    put_in(reals, e, real);
    result
}

/// Look task: the first entity of the look list is taken off it, and its witness looks. Where many look, it is kept where the
/// reals and the copies are, so that a look goes over those that are near alone.
pub fn look_task(
    alloc: Global,
    known: &CellContext,
    reals: &mut Reals,
    remotes: &mut Remotes,
    lists: &mut Lists,
    told: &mut ToldCopies,
    out: &mut Out<Msg>,
) -> Result<(), AllocError>
    requires marks { AreKept reals.old }
    requires bases { 1 ≤ known.now.settings.bases }
    requires most { known.now.settings.bases ≤ MOST_BASE_NODES }
    requires told { AreAsKnown
        (known_at (cell_of known.now reals.old remotes.old lists.old)) told.old }
    ensures state { let c = cell_of known.now reals.old remotes.old lists.old in
        OnOk result (cell_of known.now reals.new remotes.new lists.new
        ≡ (look_next c lists.old.looks).state) }
    ensures sent { let c = cell_of known.now reals.old remotes.old lists.old in
        OnOk result (out.new.items ≡ out.old.items ++ (look_next c lists.old.looks).sent) }
    ensures err { OnErr result (cell_of known.now reals.new remotes.new lists.new
        ≡ cell_of known.now reals.old remotes.old lists.old) }
    ensures err_out { OnErr result (out.new.items ≡ out.old.items) }
    ensures marks { AreKept reals.new }
    ensures told { AreAsKnown
        (known_at (cell_of known.now reals.new remotes.new lists.new)) told.new }
{
    let Some(e) = lists.looks.first() else {
        return Ok(());
    };
    reals.items.locate(alloc);
    remotes.copies.locate(alloc);
    look_around(alloc, known, e, reals, &remotes.copies, told, out)?;
    let _ = lists.looks.take_first();
    Ok(())
}
