//! A real settles: it stays in the cell or goes to another, and its haunts are told.
//!
//! First comes the plan, then what may want memory: the haunts are told, and last the own book. What comes then cannot fail.

ghost use Rattle.std.specs.Prelude.{◌≡◌, ℕ, ◌<◌, ◌^◌, ◌+◌, ◌++◌, ◌==◌, ◌↔◌};
ghost use Rattle.std.specs.Prelude.{false, length, take, IsTrue, IfOk, OnOk, OnErr, IfSome, List, Bool, option_map};
ghost use Rattle.std.specs.FinMap as table;
ghost use Rattle.std.specs.FinSet as set;
ghost use Rattle.seam_node_steps.specs.Prelude.{ghost_after, set_at, Settings as AllSettings, TypeDef, IsInSpace, AreLegal};
ghost use Rattle.seam_node_steps.specs.Prelude.{Boundaries as AnyBoundaries, brought};
ghost use Rattle.seam_node_steps.specs.Prelude.{copy_with, node_with, home_after, haunts_at, copy_if, settled, Here, cell_count, RealView};
ghost use Rattle.seam_cell_parts.specs.News.{state_of, news};
ghost use Rattle.seam_cell_parts.specs.Settling.{former, staying, HasRoomFor, IsGone, IsAtRest};
ghost use Rattle.seam_cell_parts.specs.Kept.{here_in};
ghost use Rattle.seam_cell_parts.specs.Stepping.{telling_at, heard, IsLater, HasBegun, IsDone, PartsView, parts_of, slot_in, core_of};

use crate::context::CellContext;
use crate::copy_book::CopyBook;
use crate::news::{Subject, tell};
use crate::next::Next;
use crate::remotes::Remotes;
use seam_call::{Boundaries, GhostCopy};
use seam_defs::Settings;
use seam_entity::{Msg, Parcel, Real};
use seam_geo::Pos;
use seam_haunt::{Telling, haunts_after};
use seam_machine::Out;
use seam_table::Table;
use seam_tree::{CellSet, Tree};
use std::alloc::AllocError;

/// The home that a real will have, and its haunts.
#[derive(Clone, Copy, Debug)]
pub struct Plan {
    pub home: u8,
    pub haunts: CellSet,
}

/// A settling that has begun: what was told of the real, whether a cell was told anything, and which boundaries a hand-over brings.
#[derive(Debug, Drop)]
pub struct Begun {
    pub telling: Telling,
    pub has_told: bool,
    pub brought: Option<Boundaries>,
}

// The home of a real of cell `me` that stands there.
fn home_after(me: u8, settings: &Settings, tree: &Tree, pos: Pos) -> u8
    requires inside { IsInSpace tree.now pos }
    ensures { (defs : List TypeDef) → result ≡ home_after (node_with defs me settings.now) tree.now
        pos }
{
    // A real of a cell that the tree has not stays where it is.
    if me >= tree.cells() {
        return me;
    }
    let Some(area) = tree.area(me) else {
        unreachable!()
    };
    if area.dist(pos) <= settings.offload_hysteresis {
        me
    } else {
        tree.leaf_of(pos)
    }
}

// The former haunts of a real that will have that home.
fn former(me: u8, home: u8, old: CellSet) -> CellSet
    requires { me < 16 }
    ensures { result ≡ former me home old }
{
    if home == me { old } else { old.with(me) }
}

/// Where a real of cell `me` with these haunts goes that stands there, and which haunts it will have.
pub fn make_plan(me: u8, settings: &Settings, tree: &Tree, old: CellSet, pos: Pos) -> Plan
    requires inside { IsInSpace tree.now pos }
    requires small { me < 16 }
    requires far { settings.now.ghost_distance + settings.now.ghost_hysteresis < 2 ^ 32 }
    ensures home { (defs : List TypeDef) → result.home ≡ home_after (node_with defs me settings.now)
        tree.now pos }
    ensures haunts { (defs : List TypeDef) → let h = node_with defs me settings.now in
        result.haunts ≡ haunts_at h tree.now pos (home_after h tree.now pos)
        (former me (home_after h tree.now pos) old) }
{
    let home = home_after(me, settings, tree, pos);
    let near = settings.ghost_distance;
    let far = near + settings.ghost_hysteresis;
    let haunts = haunts_after(pos, home, former(me, home, old), tree, near, far);
    Plan { home, haunts }
}

// What the cell's own book takes.
fn own_copy(t: &Telling, of: &Subject<'_>) -> Result<Option<GhostCopy>, AllocError>
    ensures { (me : ℕ) (settings : AllSettings) → IfOk result (λ o. o
        ≡ copy_if (set.contains t.now.haunts t.now.me)
        (copy_with (node_with of.now.defs.now me settings) of.now.ty of.now.version
        (state_of of.now))) }
{
    if !t.haunts.holds(t.me) {
        return Ok(None);
    }
    let copy = of.copy()?;
    Ok(Some(copy))
}

// The own book hears of the real at that beat. If allocation fails, nothing has changed.
fn tell_own(
    book: &mut CopyBook,
    e: u32,
    beat: u64,
    own: Option<GhostCopy>,
) -> Result<(), AllocError>
    ensures ok { OnOk result (book.new.ghosts ≡ set_at book.old.ghosts e
        (ghost_after (table.get book.old.ghosts e) (record { beat = beat; copy = own }))) }
    ensures err { OnErr result (book.new.ghosts ≡ book.old.ghosts) }
{
    match own {
        Some(copy) => match book.set(e, beat, copy) {
            Ok(()) => Ok(()),
            Err(_) => Err(AllocError),
        },
        None => book.drop_copy(e, beat),
    }
}

/// The real, which stays, settles as was begun. It takes no memory.
pub fn stay(real: &mut Real, begun: &Begun)
    requires beat { real.old.core.beat < 2 ^ 62 }
    ensures real { real.new.core ≡ staying real.old.core begun.now }
{
    let beat = if begun.has_told {
        real.beat() + 1
    } else {
        real.beat()
    };
    let generation = real.generation();
    real.settle_to(begun.telling.haunts, beat, generation);
}

/// The real, which goes, settles as was begun: its next place is where it goes, and it is sent last. It takes no memory.
pub fn leave(mut real: Real, begun: Begun, nexts: &mut Table<Next>, out: &mut Out<Msg>)
    requires beat { real.core.beat < 2 ^ 62 }
    requires generation { real.core.generation < 2 ^ 62 }
    requires entity { begun.telling.entity ≡ real.core.entity }
    requires goes { (begun.telling.home == begun.telling.me) ≡ false }
    requires room { HasRoomFor nexts.old.room out.old.spare begun.telling }
    ensures { IsGone real.core begun nexts.old.items nexts.new.items out.old.items out.new.items }
{
    let cell = begun.telling.home;
    let beat = real.beat() + 1;
    let generation = real.generation() + 1;
    let _ = nexts.put_reserved(real.entity(), Next { cell, generation });
    real.settle_to(begun.telling.haunts, beat, generation);
    out.send(cell, Msg::Hand(Parcel { real }, begun.brought));
}

// Where a real of the cell with these haunts goes that stands there, by the boundaries that the cell goes by.
fn plan_here(known: &CellContext, old: CellSet, pos: Pos) -> Plan
    requires me { known.now.me < cell_count }
    requires inside { IsInSpace known.now.bounds.tree pos }
    requires legal { AreLegal known.now.settings }
    ensures home { result.home ≡ home_after (here_in known.now) known.now.bounds.tree pos }
    ensures haunts { let h = here_in known.now in let t = known.now.bounds.tree in
        let home = home_after h t pos in
        result.haunts ≡ haunts_at h t pos home (former h.me home old) }
{
    make_plan(known.me, &known.settings, known.bounds.tree.get(), old, pos)
}

// What is told of a real that settles at that position.
fn tell_from(known: &CellContext, real: &Real, pos: Pos, changed: bool) -> Telling
    requires me { known.now.me < cell_count }
    requires inside { IsInSpace known.now.bounds.tree pos }
    requires legal { AreLegal known.now.settings }
    requires beat { real.now.core.beat < 2 ^ 62 }
    ensures { let h = here_in known.now in let t = known.now.bounds.tree in
        result ≡ telling_at h t real.now.core pos changed }
{
    let old = real.haunts();
    let plan = plan_here(known, old, pos);
    Telling {
        me: known.me,
        home: plan.home,
        old,
        haunts: plan.haunts,
        changed,
        entity: real.entity(),
        beat: real.beat() + 1,
    }
}

// Tells the haunts and, where the real goes, the own book, and makes the room that it takes to go. If allocation fails, some haunts
// may have been told, and nothing else has changed.
fn tell_all(
    t: &Telling,
    of: &Subject<'_>,
    remotes: &mut Remotes,
    out: &mut Out<Msg>,
) -> Result<(), AllocError>
    ensures sent { (me : ℕ) (settings : AllSettings) → OnOk result (out.new.items ≡ out.old.items
        ++ news t.now (copy_with (node_with of.now.defs.now me settings) of.now.ty
        of.now.version (state_of of.now)) 16) }
    ensures ghosts { (me : ℕ) (settings : AllSettings) →
        OnOk result (remotes.new.copies.ghosts ≡ heard t.now
        (copy_with (node_with of.now.defs.now me settings) of.now.ty of.now.version
        (state_of of.now)) remotes.old.copies.ghosts) }
    ensures room { OnOk result (HasRoomFor remotes.new.nexts.room out.new.spare t.now) }
    ensures kept { take (length out.old.items) out.new.items ≡ out.old.items }
    ensures nexts { remotes.new.nexts.items ≡ remotes.old.nexts.items }
    ensures err { OnErr result (remotes.new.copies.ghosts ≡ remotes.old.copies.ghosts) }
{
    tell(t, of, out)?;
    if t.home == t.me {
        return Ok(());
    }
    out.reserve(1)?;
    remotes.nexts.reserve(t.entity)?;
    // The book hears last, so that no room has to be made in it: most often it has no copy, and notes a beat alone.
    let own = own_copy(t, of)?;
    tell_own(&mut remotes.copies, t.entity, t.beat, own)
}

// The boundaries that a cell that goes by these brings to others.
fn brought(bounds: &Boundaries) -> Result<Option<Boundaries>, AllocError>
    ensures { IfOk result (λ o. o ≡ brought bounds.now) }
{
    if bounds.number == 0 {
        return Ok(None);
    }
    let more = bounds.share()?;
    Ok(Some(more))
}

// Those that the real brings, where it goes.
fn brought_by(known: &CellContext, t: &Telling) -> Result<Option<Boundaries>, AllocError>
    ensures { IfOk result (λ o. (t.now.home == t.now.me) ≡ false → o ≡ brought known.now.bounds) }
{
    if t.home == t.me {
        return Ok(None);
    }
    brought(&known.bounds)
}

/// Begins to settle: the haunts are told what the real is after a call, or what it is, and where it goes the own book; room is made for
/// what comes then. If allocation fails, nothing has changed.
pub fn begin(
    known: &CellContext,
    real: &Real,
    of: &Subject<'_>,
    changed: bool,
    remotes: &mut Remotes,
    out: &mut Out<Msg>,
) -> Result<Begun, AllocError>
    requires me { known.now.me < cell_count }
    requires inside { IsInSpace known.now.bounds.tree of.now.pos }
    requires legal { AreLegal known.now.settings }
    requires beat { real.now.core.beat < 2 ^ 62 }
    requires defs { of.now.defs.now ≡ known.now.defs }
    ensures begun { (later : RealView) → IsLater real.now.core later → later.ty ≡ of.now.ty →
        later.public ≡ of.now.version → later.state ≡ state_of of.now →
        IfOk result (HasBegun (here_in known.now) known.now.bounds later changed
        (parts_of remotes.old out.old) (parts_of remotes.new out.new)) }
    ensures entity { IfOk result (λ b. b.telling.entity ≡ real.now.core.entity) }
    ensures room { IfOk result (λ b. HasRoomFor remotes.new.nexts.room out.new.spare b.telling) }
    ensures err { OnErr result (parts_of remotes.new out.new ≡ parts_of remotes.old out.old) }
{
    let telling = tell_from(known, real, of.pos, changed);
    let brought = brought_by(known, &telling)?;
    let start = out.len();
    match tell_all(&telling, of, remotes, out) {
        Ok(()) => Ok(Begun {
            telling,
            has_told: out.len() > start,
            brought,
        }),
        Err(error) => {
            out.cut(start);
            Err(error)
        }
    }
}

/// Whether the real would stay and keep its haunts if it settled as it is: nothing would change then, and no cell would be told anything.
pub fn is_at_rest(known: &CellContext, real: &Real) -> bool
    requires me { known.now.me < cell_count }
    requires inside { IsInSpace known.now.bounds.tree real.now.core.state.pos }
    requires legal { AreLegal known.now.settings }
    ensures { IsTrue result ↔ IsAtRest (here_in known.now) known.now.bounds.tree real.now.core }
{
    let old = real.haunts();
    let plan = plan_here(known, old, real.state().pos);
    plan.home == known.me && plan.haunts.is(&old)
}

/// The real settles as was begun, and is given back where it stays. It takes no memory.
pub fn settle_real(
    mut real: Real,
    begun: Begun,
    remotes: &mut Remotes,
    out: &mut Out<Msg>,
) -> Option<Real>
    requires beat { real.core.beat < 2 ^ 62 }
    requires generation { real.core.generation < 2 ^ 62 }
    requires entity { begun.telling.entity ≡ real.core.entity }
    requires room { HasRoomFor remotes.old.nexts.room out.old.spare begun.telling }
    ensures done { (h : Here) (t : AnyBoundaries) (changed : Bool) (was : RealView)
        (before : PartsView)
        → HasBegun h t real.core changed before (parts_of remotes.old out.old) begun →
        IsDone (settled h t (slot_in before real.core.entity was) real.core changed)
        real.core.entity was (option_map core_of result) before (parts_of remotes.new out.new) }
    ensures witness { IfSome result (λ q. q.core.witness ≡ real.core.witness) }
{
    if begun.telling.home == begun.telling.me {
        stay(&mut real, &begun);
        return Some(real);
    }
    leave(real, begun, &mut remotes.nexts, out);
    None
}
