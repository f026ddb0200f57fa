//! The calls of a round.

ghost use Rattle.std.specs.Prelude.{◌≡◌, ◌++◌, ◌<◌, codes, Option, OnOk, IfOk};
ghost use Rattle.std.specs.List.{flat_map};
ghost use Rattle.seam_node_steps.specs.Prelude.{Division, World as AnyWorld};
ghost use Rattle.seam_rule_rounds.specs.Prelude.{Header, done_text, Standing};
ghost use Rattle.seam_law_transcript.specs.Prelude.{IsPlayed, data_of};
ghost use Rattle.seam_defs.specs.declared.flags.Part.TheVariants as part;
ghost use Rattle.seam_world_text.specs.Finding.{RoutesLeadHome};
ghost use Rattle.seam_world_text.specs.Printing.{IsOpenRound};
ghost use Rattle.seam_world_text.specs.RoundParts.{calls_text, done_of, all_done_of, done_of_type, AreTextsOf};

use crate::chunks::{Texts, Writers, all_written, chunk_size, push_first, push_second};
use crate::finding::{home, near_after, part};
use crate::laws::what_is_found_is_printed;
use crate::residents::Resident;
use crate::round::PrintedRound;
use seam_call::Call;
use seam_core::World;
use seam_defs::Defs;
use seam_report::{DoneLine, push_done};
use std::alloc::{AllocError, Global};
use std::thread;
use std::thread::Threads;

/// Appends the calls that each part executed in a round, where its calls have ended, each kind in rising number of the entities. The
/// round's number line stands before them, and is the caller's to write. The text of many entities is written by so many threads as there
/// are writers.
///
/// If allocation fails, the text has no use.
pub fn write_calls<R: Threads + Sync>(
    writers: &Writers<R>,
    out: &mut Vec<u8>,
    round: &PrintedRound,
    called: &World,
) -> Result<(), AllocError>
    ensures { OnOk result ((h : Header) (s : Standing) (tree : Division) (w v : AnyWorld)
        (p : IsPlayed h s tree w v) (bounds : Option Division) → p.round.called ≡ called.now →
        IsOpenRound h s round.now → out.new.items ≡ out.old.items
        ++ calls_text h.defs (data_of h s tree w v p bounds)) }
{
    what_is_found_is_printed();
    let residents = round.present.listed(*out.allocator())?;
    write_done(writers, out, round.defs, residents.as_slice(), called)
}

// Appends the calls of these residents: those of cell parts, and then those of base parts.
fn write_done<R: Threads + Sync>(
    writers: &Writers<R>,
    out: &mut Vec<u8>,
    defs: &Defs,
    residents: &[Resident],
    world: &World,
) -> Result<(), AllocError>
    ensures { OnOk result (RoutesLeadHome world.now →
        out.new.items ≡ out.old.items ++ all_done_of defs.now world.now residents.now) }
{
    let Some(size) = chunk_size(residents.len(), writers.threads) else {
        return write_done_alone(out, defs, residents, world);
    };
    let texts = done_in_chunks(writers.rt, *out.allocator(), size, defs, residents, world)?;
    push_first(out, &texts)?;
    push_second(out, texts)
}

// As `write_done`, by the caller alone.
fn write_done_alone(
    out: &mut Vec<u8>,
    defs: &Defs,
    residents: &[Resident],
    world: &World,
) -> Result<(), AllocError>
    ensures { OnOk result (RoutesLeadHome world.now →
        out.new.items ≡ out.old.items ++ all_done_of defs.now world.now residents.now) }
{
    push_did(out, defs, residents, world)?;
    push_dob(out, defs, residents, world)
}

// The calls of cell parts and of base parts of each chunk of so many residents, one of whose threads is the caller's.
fn done_in_chunks<R: Threads + Sync>(
    rt: &R,
    alloc: Global,
    size: usize,
    defs: &Defs,
    residents: &[Resident],
    world: &World,
) -> Result<Vec<Texts>, AllocError>
    requires { 0 < size }
    ensures { IfOk result (λ ts. RoutesLeadHome world.now →
        AreTextsOf (done_of (codes "did ") defs.now part.Cell world.now)
        (done_of (codes "dob ") defs.now part.Base world.now) residents.now ts.items) }
{
    let chunks = thread::map_chunks(
        rt,
        alloc,
        residents,
        size,
        &|_start: usize, chunk: &[Resident]| -> Result<Texts, AllocError>
            ensures { IfOk result (λ t. RoutesLeadHome world.entry.now →
                (t.first.items ≡ flat_map
                (done_of (codes "did ") defs.entry.now part.Cell world.entry.now) chunk.now)
                × (t.second.items ≡ flat_map
                (done_of (codes "dob ") defs.entry.now part.Base world.entry.now) chunk.now)) }
        { done_texts(alloc, defs, chunk, world) },
    )?;
    all_written(alloc, chunks)
}

// Those of some residents.
fn done_texts(
    alloc: Global,
    defs: &Defs,
    residents: &[Resident],
    world: &World,
) -> Result<Texts, AllocError>
    ensures { IfOk result (λ t. RoutesLeadHome world.now →
        (t.first.items
        ≡ flat_map (done_of (codes "did ") defs.now part.Cell world.now) residents.now)
        × (t.second.items
        ≡ flat_map (done_of (codes "dob ") defs.now part.Base world.now) residents.now)) }
{
    let mut first = Vec::new(alloc);
    let mut second = Vec::new(alloc);
    push_did(&mut first, defs, residents, world)?;
    push_dob(&mut second, defs, residents, world)?;
    Ok(Texts { first, second })
}

// The lines of calls that a part of an entity of this type executed.
fn push_calls(
    out: &mut Vec<u8>,
    word: &[u8],
    defs: &Defs,
    ty: u16,
    calls: &[Call],
) -> Result<(), AllocError>
    ensures { OnOk result (out.new.items ≡ out.old.items ++ flat_map (done_text word.now defs.now)
        (done_of_type ty calls.now)) }
{
    for call in calls {
        push_done(out, word, defs, &DoneLine { ty, call })?;
    }
    Ok(())
}

// Those of a resident's cell part, and the cell to look in for the next one.
fn push_did_of(
    out: &mut Vec<u8>,
    defs: &Defs,
    near: Option<u8>,
    resident: &Resident,
    world: &World,
) -> Result<Option<u8>, AllocError>
    ensures { OnOk result (RoutesLeadHome world.now → out.new.items ≡ out.old.items
        ++ done_of (codes "did ") defs.now part.Cell world.now resident.now) }
{
    let Some((cell, parcel)) = home(world, near, resident.made.entity) else {
        return Ok(near);
    };
    push_calls(out, b"did ", defs, resident.made.ty, parcel.real.done())?;
    Ok(near_after(near, cell))
}

fn push_did(
    out: &mut Vec<u8>,
    defs: &Defs,
    residents: &[Resident],
    world: &World,
) -> Result<(), AllocError>
    ensures { OnOk result (RoutesLeadHome world.now →
        out.new.items ≡ out.old.items
        ++ flat_map (done_of (codes "did ") defs.now part.Cell world.now) residents.now) }
{
    let mut near = Some(0);
    for resident in residents {
        near = push_did_of(out, defs, near, resident, world)?;
    }
    Ok(())
}

// Those of a resident's base part.
fn push_dob_of(
    out: &mut Vec<u8>,
    defs: &Defs,
    resident: &Resident,
    world: &World,
) -> Result<(), AllocError>
    ensures { OnOk result (out.new.items ≡ out.old.items ++ done_of (codes "dob ") defs.now
        part.Base world.now resident.now) }
{
    match part(world, resident.made.entity) {
        Some(part) => push_calls(out, b"dob ", defs, resident.made.ty, part.done()),
        None => Ok(()),
    }
}

fn push_dob(
    out: &mut Vec<u8>,
    defs: &Defs,
    residents: &[Resident],
    world: &World,
) -> Result<(), AllocError>
    ensures { OnOk result (out.new.items ≡ out.old.items
        ++ flat_map (done_of (codes "dob ") defs.now part.Base world.now) residents.now) }
{
    for resident in residents {
        push_dob_of(out, defs, resident, world)?;
    }
    Ok(())
}
