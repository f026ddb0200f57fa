//! A real comes to a cell.

ghost use Rattle.std.specs.Prelude.{◌≡◌, ◌<◌, ◌≤◌, ◌++◌, is_some, not, None, IfOk, IfErr, OnOk, OnErr, map};
ghost use Rattle.std.specs.List.{list_all, range_with_len};
ghost use Rattle.std.specs.FinMap as table;
ghost use Rattle.seam_node_steps.specs.Prelude.{ghost_after, MOST_BASE_NODES, cell_numbers, set_at, may_come as real_may_come, currents};
ghost use Rattle.seam_node_steps.specs.Prelude.{stray_hand};
ghost use Rattle.seam_node_steps.specs.CellCases.{is_in_tree as real_is_in_tree};
ghost use Rattle.seam_node_steps.specs.CellCases.{has_small_numbers as numbers_are_small};
ghost use Rattle.seam_cell_parts.specs.Kept.{here_in, cell_of, AreKept, IsOpen};
ghost use Rattle.seam_cell_cases.specs.Arriving.{current_of, is_cell_in, arrives};
ghost use Rattle.seam_cell_parts.specs.declared.lists.Lists.{Lists as AnyLists};

use seam_cell_parts::{CellContext, CopyBook, Next, Reals, Remotes, close, make_room, put_in};
use seam_entity::{Msg, Parcel, Real, is_small};
use seam_machine::Out;
use seam_table::{NoMemoryFor, Table};
use seam_tree::{CellSet, MOST_CELLS, Tree};
use std::alloc::AllocError;

// Whether all cells of the set are in the tree, whose cells have the least numbers.
fn are_cells(tree: &Tree, haunts: CellSet) -> bool
    ensures { result ≡ list_all (is_cell_in haunts tree.now) cell_numbers }
{
    haunts.are_below(tree.cells())
}

// Whether this cell and the real's haunts are cells of the tree.
fn is_in_tree(known: &CellContext, real: &Real) -> bool
    ensures { result ≡ real_is_in_tree (here_in known.now) known.now.bounds.tree real.now.core }
{
    let tree = known.bounds.tree.get();
    known.me < tree.cells() && are_cells(tree, real.haunts())
}

// Whether beat, generation and version are small.
fn has_small_numbers(real: &Real) -> bool
    ensures { result ≡ numbers_are_small real.now.core }
{
    is_small(real.beat()) && (is_small(real.generation()) && is_small(real.version()))
}

// Whether the real fits, its haunts and this cell are in the tree, and its numbers are small.
fn may_come(known: &CellContext, real: &Real) -> bool
    ensures { result ≡ real_may_come (here_in known.now) known.now.bounds.tree real.now.core }
{
    real.fits(&known.defs, &known.settings) && (is_in_tree(known, real) && has_small_numbers(real))
}

// Makes room for the real, and for what is told of it, and drops the own book's copy. If allocation fails, nothing has changed.
fn make_way(
    known: &CellContext,
    real: &Real,
    reals: &mut Reals,
    copies: &mut CopyBook,
    out: &mut Out<Msg>,
) -> Result<(), AllocError>
    requires gone { table.get reals.old.items.items real.now.core.entity ≡ None }
    requires marks { AreKept reals.old }
    ensures same_reals { reals.new.items.items ≡ reals.old.items.items }
    ensures same_out { out.new.items ≡ out.old.items }
    ensures open { OnOk result (IsOpen reals.new real.now.core.entity
        (is_some real.now.core.witness)) }
    ensures ghosts { OnOk result (copies.new.ghosts ≡ set_at copies.old.ghosts real.now.core.entity
        (ghost_after (table.get copies.old.ghosts real.now.core.entity)
        (record { beat = real.now.core.beat; copy = None }))) }
    ensures spare { OnOk result (known.now.settings.bases ≤ out.new.spare) }
    ensures err_ghosts { OnErr result (copies.new.ghosts ≡ copies.old.ghosts) }
    ensures err_marks { OnErr result (AreKept reals.new) }
{
    let e = real.entity();
    out.reserve(known.settings.bases as usize)?;
    make_room(reals, e, real.has_witness())?;
    if let Err(error) = copies.drop_copy(e, real.beat()) {
        close(reals, e);
        return Err(error);
    }
    Ok(())
}

// Tells each base node, in rising number, that the entity's real is here, in room that was made before.
fn tell_bases(known: &CellContext, e: u32, generation: u64, out: &mut Out<Msg>)
    requires most { known.now.settings.bases ≤ MOST_BASE_NODES }
    requires room { known.now.settings.bases ≤ out.old.spare }
    ensures { out.new.items ≡ out.old.items ++ map (current_of e known.now.me generation)
        (range_with_len 16 known.now.settings.bases) }
{
    for k in 0..known.settings.bases as u8 {
        out.send(MOST_CELLS as u8 + k, Msg::Current(e, known.me, generation));
    }
}

// Puts the real in its place: its next place goes, and the base nodes are told. It takes no memory.
fn settle_in(
    known: &CellContext,
    real: Real,
    reals: &mut Reals,
    nexts: &mut Table<Next>,
    out: &mut Out<Msg>,
)
    requires most { known.now.settings.bases ≤ MOST_BASE_NODES }
    requires open { IsOpen reals.old real.core.entity (is_some real.core.witness) }
    requires spare { known.now.settings.bases ≤ out.old.spare }
    ensures reals { reals.new.items.items ≡ table.insert reals.old.items.items real.core.entity
        real.core }
    ensures nexts { nexts.new.items ≡ table.remove nexts.old.items real.core.entity }
    ensures sent { out.new.items ≡ out.old.items ++ currents (here_in known.now) real.core }
    ensures marks { AreKept reals.new }
{
    let e = real.entity();
    let _next = nexts.remove(e);
    tell_bases(known, e, real.generation(), out);
    put_in(reals, e, real);
}

/// Hand-over comes: the real is put in its place, with the calls that it holds, its witness and its haunts. The entity's next place goes,
/// the cell's book drops the copy at the real's beat, and every base node is told. It says whether the real was put in.
pub fn arrive(
    known: &CellContext,
    parcel: Parcel,
    reals: &mut Reals,
    remotes: &mut Remotes,
    out: &mut Out<Msg>,
) -> Result<bool, NoMemoryFor<Parcel>>
    requires marks { AreKept reals.old }
    requires most { known.now.settings.bases ≤ MOST_BASE_NODES }
    ensures state { (l : AnyLists) → OnOk result (cell_of known.now reals.new remotes.new l
        ≡ (arrives (cell_of known.now reals.old remotes.old l) parcel).state) }
    ensures sent { (l : AnyLists) → OnOk result (out.new.items ≡ out.old.items
        ++ (arrives (cell_of known.now reals.old remotes.old l) parcel).sent) }
    ensures came { IfOk result (λ b. b ≡ not (stray_hand (here_in known.now) known.now.bounds.tree
        parcel (table.get reals.old.items.items parcel.entity))) }
    ensures err { (l : AnyLists) → OnErr result (cell_of known.now reals.new remotes.new l
        ≡ cell_of known.now reals.old remotes.old l) }
    ensures err_out { OnErr result (out.new.items ≡ out.old.items) }
    ensures err_item { IfErr result (λ r. r.item ≡ parcel) }
    ensures marks { AreKept reals.new }
{
    if reals.items.get(parcel.real.entity()).is_some() {
        return Ok(false);
    }
    if !may_come(known, &parcel.real) {
        return Ok(false);
    }
    if make_way(known, &parcel.real, reals, &mut remotes.copies, out).is_err() {
        return Err(NoMemoryFor { item: parcel });
    }
    let Parcel { real } = parcel;
    settle_in(known, real, reals, &mut remotes.nexts, out);
    Ok(true)
}
