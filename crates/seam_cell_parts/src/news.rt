//! What the haunts of a real are told.

ghost use Rattle.std.specs.Prelude.{◌≡◌, ℕ, ◌++◌, ◌↔◌, length, take, IsTrue, IfOk, OnOk, OnErr};
ghost use Rattle.std.specs.FinSet as set;
ghost use Rattle.seam_node_steps.specs.Prelude.{Settings as AllSettings, copy_with, node_with, word};
ghost use Rattle.seam_cell_parts.specs.News.{state_of, message_for, listed, news};

use seam_call::GhostCopy;
use seam_defs::{Defs, Props};
use seam_entity::{Msg, ghost_copy};
use seam_geo::Pos;
use seam_haunt::{Telling, Told, word};
use seam_machine::Out;
use seam_tree::CellSet;
use std::alloc::AllocError;

/// The real of which is told: its type, its public version, where it is and its values.
#[derive(Drop)]
pub struct Subject<'a> {
    pub defs: &'a Defs,
    pub ty: u16,
    pub version: u64,
    pub pos: Pos,
    pub props: &'a Props,
}

impl Subject<'_> {
    /// What its ghosts hold.
    pub fn copy(&self) -> Result<GhostCopy, AllocError>
        ensures { (me : ℕ) (settings : AllSettings) → IfOk result (λ c. c
            ≡ copy_with (node_with self.now.defs.now me settings) self.now.ty self.now.version
            (state_of self.now)) }
    {
        ghost_copy(self.defs, self.ty, self.version, self.pos, self.props)
    }
}

// Tells the cell what it is told. If allocation fails, nothing was sent.
fn tell_cell(t: &Telling, of: &Subject<'_>, k: u8, out: &mut Out<Msg>) -> Result<(), AllocError>
    ensures ok { (me : ℕ) (settings : AllSettings) →
        let copy = copy_with (node_with of.now.defs.now me settings) of.now.ty of.now.version
        (state_of of.now) in
        OnOk result (out.new.items ≡ out.old.items
        ++ listed (message_for t.now copy k (word t.now k))) }
    ensures err { OnErr result (out.new.items ≡ out.old.items) }
{
    match word(t, k) {
        Told::Nothing => Ok(()),
        Told::Set => {
            let copy = of.copy()?;
            out.reserve(1)?;
            out.send(k, Msg::GhostSet(t.entity, t.beat, copy));
            Ok(())
        }
        Told::Drop => {
            out.reserve(1)?;
            out.send(k, Msg::GhostDrop(t.entity, t.beat));
            Ok(())
        }
    }
}

// Whether neither set has a cell.
fn are_none(haunts: &CellSet, old: &CellSet) -> bool
    ensures { IsTrue result ↔ ((haunts.now ≡ set.empty) × (old.now ≡ set.empty)) }
{
    let none = CellSet::none();
    haunts.is(&none) && old.is(&none)
}

/// Tells the cells, in rising number. If allocation fails, some may have been told.
pub fn tell(t: &Telling, of: &Subject<'_>, out: &mut Out<Msg>) -> Result<(), AllocError>
    ensures ok { (me : ℕ) (settings : AllSettings) → OnOk result (out.new.items ≡ out.old.items
        ++ news t.now (copy_with (node_with of.now.defs.now me settings) of.now.ty
        of.now.version (state_of of.now)) 16) }
    ensures kept { take (length out.old.items) out.new.items ≡ out.old.items }
{
    // Most reals have and had few haunts, in the first cells: what is left of both sets tells when all were told.
    let (mut haunts, mut old) = (t.haunts, t.old);
    for k in 0..16 {
        if are_none(&haunts, &old) {
            return Ok(());
        }
        if haunts.holds(k) || old.holds(k) {
            tell_cell(t, of, k, out)?;
            haunts = haunts.without(k);
            old = old.without(k);
        }
    }
    Ok(())
}
