//! The reals of a cell, and marks of those that have a ready call or a witness.

ghost use Rattle.std.specs.Prelude.{◌≡◌, Bool, None, Some, true, is_some, is_none, option_map, find, OnOk, OnErr, IfOk};
ghost use Rattle.std.specs.FinMap as table;
ghost use Rattle.seam_node_steps.specs.Prelude.{number_of, set_at, real_is_ready};
ghost use Rattle.seam_cell_parts.specs.Kept.{AreKept, IsOpen, IsOpenFor};
ghost use Rattle.seam_cell_parts.specs.Stepping.{core_of, list_after};

use crate::entity_set::EntitySet;
use crate::lists::{Lists, unlist};
use crate::real_table::RealTable;
use seam_entity::{Parcel, Real};
use std::alloc::AllocError;

/// The reals by entity, the entities whose reals have a ready call, and those whose reals have a witness.
#[derive(Drop)]
pub struct Reals {
    pub items: RealTable,
    pub ready: EntitySet,
    pub witnesses: EntitySet,
}

/// Takes the entity's real out, so that it can change. There is room to put it back.
pub fn take_out(reals: &mut Reals, e: u32) -> Result<Real, AllocError>
    requires there { is_some (table.get reals.old.items.items e) ≡ true }
    requires kept { AreKept reals.old }
    ensures real { IfOk result (λ r. table.get reals.old.items.items e ≡ Some r.core) }
    ensures items { OnOk result (reals.new.items.items ≡ table.remove reals.old.items.items e) }
    ensures place { IfOk result (λ r. IsOpen reals.new e (is_some r.core.witness)) }
    ensures err { OnErr result (reals.new.items.items ≡ reals.old.items.items) }
    ensures err_kept { OnErr result (AreKept reals.new) }
{
    reals.ready.insert(e)?;
    let Some(parcel) = reals.items.take(e) else {
        unreachable!()
    };
    let Parcel { real } = parcel;
    Ok(real)
}

/// Makes room for a real of an entity of which none is here.
pub fn make_room(reals: &mut Reals, e: u32, has_witness: bool) -> Result<(), AllocError>
    requires gone { table.get reals.old.items.items e ≡ None }
    requires kept { AreKept reals.old }
    ensures items { reals.new.items.items ≡ reals.old.items.items }
    ensures place { OnOk result (IsOpen reals.new e has_witness) }
    ensures err_kept { OnErr result (AreKept reals.new) }
{
    reals.items.reserve(e)?;
    reals.ready.insert(e)?;
    if has_witness {
        if let Err(error) = reals.witnesses.insert(e) {
            reals.ready.remove(e);
            return Err(error);
        }
    }
    Ok(())
}

/// Puts a real in, for which there is room.
pub fn put_in(reals: &mut Reals, e: u32, real: Real)
    requires { IsOpen reals.old e (is_some real.core.witness) }
    ensures items { reals.new.items.items ≡ table.insert reals.old.items.items e real.core }
    ensures kept { AreKept reals.new }
{
    if !real.is_ready() {
        reals.ready.remove(e);
    }
    let _none = reals.items.put_reserved(e, Parcel { real });
}

/// Gives the room back, where no real is put in.
pub fn close(reals: &mut Reals, e: u32)
    requires { table.get reals.old.items.items e ≡ None }
    ensures items { reals.new.items.items ≡ reals.old.items.items }
    ensures kept { (witness : Bool) → IsOpen reals.old e witness → AreKept reals.new }
{
    reals.items.remove(e);
    reals.ready.remove(e);
    reals.witnesses.remove(e);
}

/// The least entity whose real has a ready call.
pub fn first_ready(reals: &Reals) -> Option<u32>
    requires { AreKept reals.now }
    ensures { result ≡ option_map number_of (find real_is_ready
        (table.entries reals.now.items.items)) }
{
    // Asked of every cell before most events: most often none is ready.
    if reals.ready.is_empty() {
        return None;
    }
    reals.ready.first()
}

/// Puts back what a step left of the entity's real, which was taken out. Where it left none, the entity goes off the lists too.
pub fn put_after(reals: &mut Reals, lists: &mut Lists, e: u32, left: Option<Real>)
    requires { IsOpenFor reals.old e (option_map core_of left) }
    ensures items { reals.new.items.items ≡ set_at reals.old.items.items e
        (option_map core_of left) }
    ensures kept { AreKept reals.new }
    ensures survey { lists.new.survey ≡ list_after (is_none (option_map core_of left)) e
        lists.old.survey }
    ensures looks { lists.new.looks ≡ list_after (is_none (option_map core_of left)) e
        lists.old.looks }
{
    match left {
        Some(real) => put_in(reals, e, real),
        None => {
            close(reals, e);
            unlist(lists, e);
        }
    }
}
