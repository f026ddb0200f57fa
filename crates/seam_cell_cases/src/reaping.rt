//! A real leaves the world.

ghost use Rattle.std.specs.Prelude.{◌≡◌, ℕ, ◌<◌, ◌≤◌, ◌^◌, ◌+◌, ◌++◌, not, OnOk, OnErr};
ghost use Rattle.std.specs.FinMap as table;
ghost use Rattle.seam_node_steps.specs.Prelude.{From, drop_at, drops, stray_reap, cell_steps};
ghost use Rattle.seam_entity.specs.declared.message.Msg.TheVariants as msg;
ghost use Rattle.seam_cell_parts.specs.News.{listed};
ghost use Rattle.seam_cell_parts.specs.Kept.{cell_of, AreKept};
ghost use Rattle.seam_cell_parts.specs.declared.context.CellContext.{CellContext as AnyCellContext};

use seam_cell_parts::{Lists, Reals, Remotes, close, put_in, take_out, unlist};
use seam_entity::{Msg, Real, may_rise};
use seam_machine::Out;
use seam_tree::MOST_CELLS;
use std::alloc::AllocError;

// Tells the cell, if it is one of the haunts, to drop its copy, in room that was made before.
fn drop_copy(real: &Real, k: u8, out: &mut Out<Msg>)
    requires beat { real.now.core.beat < 2 ^ 62 }
    requires room { 0 < out.old.spare }
    ensures sent { out.new.items ≡ out.old.items ++ listed (drop_at real.now.core k) }
    ensures spare { out.old.spare ≤ out.new.spare + 1 }
{
    if real.haunts().holds(k) {
        out.send(k, Msg::GhostDrop(real.entity(), real.beat() + 1));
    }
}

// Tells each haunt, in rising number, to drop its copy, in room that was made before.
fn drop_copies(real: &Real, out: &mut Out<Msg>)
    requires beat { real.now.core.beat < 2 ^ 62 }
    requires room { 16 ≤ out.old.spare }
    ensures { out.new.items ≡ out.old.items ++ drops real.now.core }
{
    for k in 0..16 {
        drop_copy(real, k, out);
    }
}

// Whether the entity's real is here and may be told of once more.
fn may_go(reals: &Reals, e: u32) -> bool
    ensures { result ≡ not (stray_reap (table.get reals.now.items.items e)) }
{
    match reals.items.get(e) {
        Some(parcel) => may_rise(parcel.real.beat()),
        None => false,
    }
}

/// Reap: the real goes, with its entries in both lists. Its haunts and the cell's book drop their copies at the next beat.
pub fn reap(
    e: u32,
    reals: &mut Reals,
    remotes: &mut Remotes,
    lists: &mut Lists,
    out: &mut Out<Msg>,
) -> Result<(), AllocError>
    requires marks { AreKept reals.old }
    ensures state { (k : AnyCellContext) (from : ℕ) → OnOk result
        (cell_of k reals.new remotes.new lists.new ≡ (cell_steps
        (cell_of k reals.old remotes.old lists.old) (From from (msg.Reap e))).state) }
    ensures sent { (k : AnyCellContext) (from : ℕ) → OnOk result (out.new.items ≡ out.old.items
        ++ (cell_steps (cell_of k reals.old remotes.old lists.old) (From from (msg.Reap e))).sent) }
    ensures err { (k : AnyCellContext) → OnErr result (cell_of k reals.new remotes.new lists.new
        ≡ cell_of k reals.old remotes.old lists.old) }
    ensures err_out { OnErr result (out.new.items ≡ out.old.items) }
    ensures marks { AreKept reals.new }
{
    if !may_go(reals, e) {
        return Ok(());
    }
    out.reserve(MOST_CELLS)?;
    let real = take_out(reals, e)?;
    if let Err(error) = remotes.copies.drop_copy(e, real.beat() + 1) {
        put_in(reals, e, real);
        return Err(error);
    }
    close(reals, e);
    unlist(lists, e);
    drop_copies(&real, out);
    Ok(())
}
