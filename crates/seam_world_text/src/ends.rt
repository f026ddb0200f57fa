//! What a round leaves, and what clients were shown in it.

ghost use Rattle.std.specs.Prelude.{◌≡◌, ◌++◌, ◌<◌, ◌∷◌, [], if◌then◌else◌, map, OnOk, IfOk, Option};
ghost use Rattle.std.specs.List.{flat_map, All};
ghost use Rattle.std.specs.FinSet as set;
ghost use Rattle.seam_node_steps.specs.Prelude.{Division, RealView, World as AnyWorld, cell_numbers};
ghost use Rattle.seam_rule_rounds.specs.Prelude.{Header, Standing, ghost_text, bounds_text};
ghost use Rattle.seam_law_transcript.specs.Prelude.{IsPlayed, data_of};
ghost use Rattle.seam_world_text.specs.Residents.{ArePresent};
ghost use Rattle.seam_world_text.specs.Finding.{RoutesLeadHome, ghost_line, haunt_line, lines_found, positions_found};
ghost use Rattle.seam_world_text.specs.Farewells.{AreFarewells};
ghost use Rattle.seam_world_text.specs.Printing.{IsOpenRound};
ghost use Rattle.seam_report.specs.Spelled.{Versions, GoesBy};
ghost use Rattle.seam_world_text.specs.RoundParts.{ends_text, home_of, base_of, ghosts_of, left_of, AreTextsOf};
ghost use Rattle.seam_world_text.specs.RoundParts.{lines_text, shown_so_far, shown_of};
ghost use Rattle.seam_world_text.specs.Told.{ShowOf, told_by};

use crate::chunks::{Texts, Writers, all_written, chunk_size, push_first, push_second};
use crate::farewells::Farewells;
use crate::finding::{home, near_after, part};
use crate::laws::what_is_found_is_printed;
use crate::residents::{Resident, Residents};
use crate::round::PrintedRound;
use seam_call::{Create, Line};
use seam_core::World;
use seam_defs::Defs;
use seam_entity::Real;
use seam_geo::Pos;
use seam_report::{
    BaseLine, HomeLine, Spellings, push_base, push_bounds, push_client, push_ghost, push_home,
    push_number_line,
};
use seam_tree::{CellSet, MOST_CELLS, Tree};
use std::alloc::{AllocError, Global};
use std::collections::BTreeMap;
use std::thread;
use std::thread::Threads;

/// Appends the last part of a round's text, where the round has ended: the homes, the base parts, the ghosts, and what clients were
/// shown, each kind in rising number of the entities; the boundaries, if they were balanced; and the round's number again. What was kept
/// of clients where the calls had ended is the lines of those whose entities died. So many threads as there are writers write the text of
/// many entities.
///
/// If allocation fails, the text has no use.
pub fn write_ends<R: Threads + Sync>(
    writers: &Writers<R>,
    out: &mut Vec<u8>,
    round: &PrintedRound,
    kept: &Farewells,
    ended: &World,
    bounds: &Option<Tree>,
) -> Result<(), AllocError>
    ensures { OnOk result ((h : Header) (s : Standing) (tree : Division) (w : AnyWorld)
        (p : IsPlayed h s tree w ended.now) → IsOpenRound h s round.now →
        AreFarewells h.defs s.book p.round.called kept.now →
        out.new.items ≡ out.old.items ++ ends_text h.defs
        (data_of h s tree w ended.now p bounds.now)) }
{
    what_is_found_is_printed();
    let residents = round.present.listed(*out.allocator())?;
    write_left(writers, out, round.defs, residents.as_slice(), kept, ended)?;
    push_tree(out, bounds)?;
    push_number_line(out, b"end ", round.number)
}

// Appends what these residents left: the homes, the base parts, the ghosts, and what their clients were shown.
fn write_left<R: Threads + Sync>(
    writers: &Writers<R>,
    out: &mut Vec<u8>,
    defs: &Defs,
    residents: &[Resident],
    kept: &Farewells,
    world: &World,
) -> Result<(), AllocError>
    ensures { OnOk result (RoutesLeadHome world.now → (vs : Versions) →
        All (λ r. ShowOf vs (told_by kept.now world.now r)) residents.now →
        out.new.items ≡ out.old.items ++ left_of defs.now kept.now world.now residents.now) }
{
    let Some(size) = chunk_size(residents.len(), writers.threads) else {
        return write_left_alone(out, defs, residents, kept, world);
    };
    let alloc = *out.allocator();
    let homes = homes_in_chunks(writers.rt, alloc, size, defs, residents, world)?;
    let told = told_in_chunks(writers.rt, alloc, size, defs, residents, kept, world)?;
    push_first(out, &homes)?;
    push_first(out, &told)?;
    push_second(out, homes)?;
    push_second(out, told)
}

// As `write_left`, by the caller alone.
fn write_left_alone(
    out: &mut Vec<u8>,
    defs: &Defs,
    residents: &[Resident],
    kept: &Farewells,
    world: &World,
) -> Result<(), AllocError>
    ensures { OnOk result (RoutesLeadHome world.now → (vs : Versions) →
        All (λ r. ShowOf vs (told_by kept.now world.now r)) residents.now →
        out.new.items ≡ out.old.items ++ left_of defs.now kept.now world.now residents.now) }
{
    let mut ghosts = Vec::new(*out.allocator());
    push_homes(out, &mut ghosts, defs, residents, world)?;
    push_bases(out, defs, residents, world)?;
    out.extend_from_slice(&ghosts)?;
    push_clients(out, defs, residents, kept, world)
}

// The homes and the ghosts of each chunk of so many residents.
fn homes_in_chunks<R: Threads + Sync>(
    rt: &R,
    alloc: Global,
    size: usize,
    defs: &Defs,
    residents: &[Resident],
    world: &World,
) -> Result<Vec<Texts>, AllocError>
    requires { 0 < size }
    ensures { IfOk result (λ ts. RoutesLeadHome world.now →
        AreTextsOf (home_of defs.now world.now) (ghosts_of world.now)
        residents.now ts.items) }
{
    let chunks = thread::map_chunks(
        rt,
        alloc,
        residents,
        size,
        &|_start: usize, chunk: &[Resident]| -> Result<Texts, AllocError>
            ensures { IfOk result (λ t. RoutesLeadHome world.entry.now →
                (t.first.items ≡ flat_map (home_of defs.entry.now world.entry.now) chunk.now)
                × (t.second.items ≡ flat_map (ghosts_of world.entry.now) chunk.now)) }
        { home_texts(alloc, defs, chunk, world) },
    )?;
    all_written(alloc, chunks)
}

// Those of some residents.
fn home_texts(
    alloc: Global,
    defs: &Defs,
    residents: &[Resident],
    world: &World,
) -> Result<Texts, AllocError>
    ensures { IfOk result (λ t. RoutesLeadHome world.now →
        (t.first.items ≡ flat_map (home_of defs.now world.now) residents.now)
        × (t.second.items ≡ flat_map (ghosts_of world.now) residents.now)) }
{
    let mut first = Vec::new(alloc);
    let mut second = Vec::new(alloc);
    push_homes(&mut first, &mut second, defs, residents, world)?;
    Ok(Texts { first, second })
}

// The base parts of each chunk of so many residents, and what their clients were shown.
fn told_in_chunks<R: Threads + Sync>(
    rt: &R,
    alloc: Global,
    size: usize,
    defs: &Defs,
    residents: &[Resident],
    kept: &Farewells,
    world: &World,
) -> Result<Vec<Texts>, AllocError>
    requires { 0 < size }
    ensures { IfOk result (λ ts. (vs : Versions) →
        All (λ r. ShowOf vs (told_by kept.now world.now r)) residents.now →
        AreTextsOf (base_of defs.now world.now) (shown_of defs.now kept.now world.now)
        residents.now ts.items) }
{
    let chunks = thread::map_chunks(
        rt,
        alloc,
        residents,
        size,
        &|_start: usize, chunk: &[Resident]| -> Result<Texts, AllocError>
            ensures { IfOk result (λ t. (vs : Versions) →
                All (λ r. ShowOf vs (told_by kept.entry.now world.entry.now r)) chunk.now →
                (t.first.items ≡ flat_map (base_of defs.entry.now world.entry.now) chunk.now)
                × (t.second.items
                ≡ flat_map (shown_of defs.entry.now kept.entry.now world.entry.now) chunk.now)) }
        { told_texts(alloc, defs, chunk, kept, world) },
    )?;
    all_written(alloc, chunks)
}

// Those of some residents.
fn told_texts(
    alloc: Global,
    defs: &Defs,
    residents: &[Resident],
    kept: &Farewells,
    world: &World,
) -> Result<Texts, AllocError>
    ensures { IfOk result (λ t. (vs : Versions) →
        All (λ r. ShowOf vs (told_by kept.now world.now r)) residents.now →
        (t.first.items ≡ flat_map (base_of defs.now world.now) residents.now)
        × (t.second.items ≡ flat_map (shown_of defs.now kept.now world.now) residents.now)) }
{
    let mut first = Vec::new(alloc);
    let mut second = Vec::new(alloc);
    push_bases(&mut first, defs, residents, world)?;
    push_clients(&mut second, defs, residents, kept, world)?;
    Ok(Texts { first, second })
}

/// Where the homes are that a round left, in the order of their lines.
pub fn positions(alloc: Global, present: &Residents, ended: &World) -> Result<Vec<Pos>, AllocError>
    ensures { IfOk result (λ ps. (h : Header) (s : Standing) (tree : Division) (w : AnyWorld)
        (p : IsPlayed h s tree w ended.now) (bounds : Option Division) →
        ArePresent s.book present.now → ps.items ≡ map (λ l. l.state.pos)
        (data_of h s tree w ended.now p bounds).homes) }
{
    what_is_found_is_printed();
    find_positions(alloc, present.by_number(), ended)
}

fn find_positions(
    alloc: Global,
    residents: &BTreeMap<u32, Resident>,
    ended: &World,
) -> Result<Vec<Pos>, AllocError>
    ensures { IfOk result (λ ps. RoutesLeadHome ended.now →
        ps.items ≡ flat_map (λ e. positions_found ended.now e.1.made.entity)
        residents.now.entries) }
{
    let mut positions = Vec::new(alloc);
    for (_, resident) in residents {
        if let Some((_, parcel)) = home(ended, None, resident.made.entity) {
            positions.push(parcel.real.state().pos)?;
        }
    }
    Ok(positions)
}

// ---- homes and ghosts

// The line of a resident's home, and those of its ghosts into another text; and the cell to look in for the next one.
fn push_home_of(
    out: &mut Vec<u8>,
    ghosts: &mut Vec<u8>,
    defs: &Defs,
    near: Option<u8>,
    resident: &Resident,
    world: &World,
) -> Result<Option<u8>, AllocError>
    ensures home { OnOk result (RoutesLeadHome world.now →
        out.new.items ≡ out.old.items ++ home_of defs.now world.now resident.now) }
    ensures ghosts { OnOk result (RoutesLeadHome world.now →
        ghosts.new.items ≡ ghosts.old.items ++ ghosts_of world.now resident.now) }
{
    let entity = resident.made.entity;
    let Some((cell, parcel)) = home(world, near, entity) else {
        return Ok(near);
    };
    let real = &parcel.real;
    let line = HomeLine {
        entity,
        ty: real.ty(),
        cell,
        version: real.version(),
        state: real.state(),
    };
    push_home(out, defs, &line)?;
    push_haunts(ghosts, entity, real)?;
    Ok(near_after(near, cell))
}

// The lines of homes, and those of ghosts, which come later, into another text: so each real is looked for once.
fn push_homes(
    out: &mut Vec<u8>,
    ghosts: &mut Vec<u8>,
    defs: &Defs,
    residents: &[Resident],
    world: &World,
) -> Result<(), AllocError>
    ensures homes { OnOk result (RoutesLeadHome world.now →
        out.new.items ≡ out.old.items ++ flat_map (home_of defs.now world.now) residents.now) }
    ensures ghosts { OnOk result (RoutesLeadHome world.now →
        ghosts.new.items ≡ ghosts.old.items ++ flat_map (ghosts_of world.now) residents.now) }
{
    let mut near = Some(0);
    for resident in residents {
        near = push_home_of(out, ghosts, defs, near, resident, world)?;
    }
    Ok(())
}

// A line for a cell, where it is one of the haunts.
fn push_haunt(
    out: &mut Vec<u8>,
    entity: u32,
    version: u64,
    haunts: CellSet,
    cell: u8,
) -> Result<(), AllocError>
    ensures { OnOk result (out.new.items ≡ out.old.items
        ++ flat_map ghost_text (if set.contains haunts cell
        then ghost_line entity version cell ∷ [] else [])) }
{
    if !haunts.holds(cell) {
        return Ok(());
    }
    push_ghost(out, entity, cell, version)
}

fn push_haunts(out: &mut Vec<u8>, entity: u32, real: &Real) -> Result<(), AllocError>
    ensures { OnOk result (out.new.items ≡ out.old.items
        ++ flat_map ghost_text (flat_map (haunt_line entity real.now.core) cell_numbers)) }
{
    let (version, haunts) = (real.public_version(), real.haunts());
    // Most reals have no ghosts.
    if haunts.is(&CellSet::none()) {
        return Ok(());
    }
    for cell in 0..MOST_CELLS as u8 {
        push_haunt(out, entity, version, haunts, cell)?;
    }
    Ok(())
}

// ---- base parts

fn push_base_of(
    out: &mut Vec<u8>,
    defs: &Defs,
    resident: &Resident,
    world: &World,
) -> Result<(), AllocError>
    ensures { OnOk result (out.new.items ≡ out.old.items ++ base_of defs.now world.now
        resident.now) }
{
    let entity = resident.made.entity;
    let Some(part) = part(world, entity) else {
        return Ok(());
    };
    let line = BaseLine {
        entity,
        ty: part.ty(),
        version: part.version(),
        props: part.props(),
    };
    push_base(out, defs, &line)
}

fn push_bases(
    out: &mut Vec<u8>,
    defs: &Defs,
    residents: &[Resident],
    world: &World,
) -> Result<(), AllocError>
    ensures { OnOk result (out.new.items
        ≡ out.old.items ++ flat_map (base_of defs.now world.now) residents.now) }
{
    for resident in residents {
        push_base_of(out, defs, resident, world)?;
    }
    Ok(())
}

// ---- clients

// Appends the lines that an entity's client was shown in the round so far.
fn push_lines<'a>(
    out: &mut Vec<u8>,
    spellings: &mut Spellings<'a>,
    made: &Create,
    world: &'a World,
) -> Result<(), AllocError>
    ensures lines { (vs : Versions) → GoesBy vs spellings.old →
        ShowOf vs (lines_found world.now made.now.entity) →
        OnOk result (out.new.items ≡ out.old.items ++ shown_so_far spellings.old.defs world.now
        made.now) }
    ensures kept { (vs : Versions) → GoesBy vs spellings.old →
        ShowOf vs (lines_found world.now made.now.entity) → OnOk result (GoesBy vs spellings.new) }
    ensures defs { spellings.new.defs ≡ spellings.old.defs }
{
    match part(world, made.entity) {
        Some(part) => push_each(out, spellings, made, part.lines()),
        None => Ok(()),
    }
}

fn push_each<'a>(
    out: &mut Vec<u8>,
    spellings: &mut Spellings<'a>,
    made: &Create,
    lines: &'a [Line],
) -> Result<(), AllocError>
    ensures lines { (vs : Versions) → GoesBy vs spellings.old → ShowOf vs lines.now →
        OnOk result (out.new.items ≡ out.old.items ++ lines_text spellings.old.defs made.now
        lines.now) }
    ensures kept { (vs : Versions) → GoesBy vs spellings.old → ShowOf vs lines.now →
        OnOk result (GoesBy vs spellings.new) }
    ensures defs { spellings.new.defs ≡ spellings.old.defs }
{
    for line in lines {
        push_client(out, spellings, made.entity, made.ty, line)?;
    }
    Ok(())
}

fn push_client_of<'a>(
    out: &mut Vec<u8>,
    spellings: &mut Spellings<'a>,
    resident: &Resident,
    kept: &Farewells,
    world: &'a World,
) -> Result<(), AllocError>
    ensures shown { (vs : Versions) → GoesBy vs spellings.old →
        ShowOf vs (told_by kept.now world.now resident.now) →
        OnOk result (out.new.items ≡ out.old.items ++ shown_of spellings.old.defs kept.now world.now
        resident.now) }
    ensures kept { (vs : Versions) → GoesBy vs spellings.old →
        ShowOf vs (told_by kept.now world.now resident.now) →
        OnOk result (GoesBy vs spellings.new) }
    ensures defs { spellings.new.defs ≡ spellings.old.defs }
{
    if !resident.client {
        return Ok(());
    }
    match kept.of(resident.made.entity) {
        Some(farewell) => out.extend_from_slice(farewell.text.as_slice()),
        None => push_lines(out, spellings, &resident.made, world),
    }
}

fn push_clients(
    out: &mut Vec<u8>,
    defs: &Defs,
    residents: &[Resident],
    kept: &Farewells,
    world: &World,
) -> Result<(), AllocError>
    ensures { OnOk result ((vs : Versions) →
        All (λ r. ShowOf vs (told_by kept.now world.now r)) residents.now → out.new.items
        ≡ out.old.items ++ flat_map (shown_of defs.now kept.now world.now) residents.now) }
{
    let mut spellings = Spellings::new(*out.allocator(), defs);
    for resident in residents {
        push_client_of(out, &mut spellings, resident, kept, world)?;
    }
    Ok(())
}

// ---- boundaries

fn push_tree(out: &mut Vec<u8>, tree: &Option<Tree>) -> Result<(), AllocError>
    ensures { OnOk result (out.new.items ≡ out.old.items ++ bounds_text tree.now) }
{
    match tree {
        Some(tree) => push_bounds(out, tree),
        None => Ok(()),
    }
}
