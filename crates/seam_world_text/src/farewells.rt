//! The lines of clients whose entities die in a round.

ghost use Rattle.std.specs.Prelude.{◌≡◌, ◌++◌, IfOk, OnOk, length, option_copied};
ghost use Rattle.std.specs.FinMap as table;
ghost use Rattle.std.specs.Ordering.{nat_cmp};
ghost use Rattle.std.specs.BTreeMap.{get};
ghost use Rattle.std.specs.List.{filter_map};
ghost use Rattle.seam_rule_lines.specs.Book.{Book};
ghost use Rattle.seam_accept.specs.Batches.{destroyed};
ghost use Rattle.seam_world_text.specs.Residents.{ArePresent};
ghost use Rattle.seam_world_text.specs.Finding.{lines_found};
ghost use Rattle.seam_world_text.specs.Farewells.{AreFarewells, farewell_of};
ghost use Rattle.seam_world_text.specs.RoundParts.{lines_text};

use crate::finding::part;
use crate::residents::Resident;
use crate::round::PrintedRound;
use seam_call::{Create, Line};
use seam_core::World;
use seam_defs::{Defs, Listed};
use seam_report::push_line;
use seam_table::Table;
use std::alloc::{AllocError, Global};
use std::collections::BTreeMap;
use std::marker::Model;

/// What was kept of a client: the text of its lines, and how many they are.
#[derive(Drop)]
pub struct Farewell {
    pub text: Listed<u8>,
    pub lines: u64,
}

/// What was kept of clients, each by the number of its entity.
#[derive(Drop)]
pub struct Farewells {
    kept: Table<Farewell>,
}

impl Model for Farewells {
    ghost use Rattle.std.specs.Coded.{codes};
    ghost use Rattle.std.specs.FinMap as table;
    ghost use Rattle.seam_node_steps.specs.Maps.{Map};
    ghost use Rattle.seam_world_text.specs.declared.farewells.Farewell.{Farewell as AnyFarewell};

    ghost Value = { Map AnyFarewell };

    ghost coded = { Prim.hlevel (codes, table.code) };

    ghost view = { λ f. f.kept.items };
}

impl Farewells {
    // What was kept of the entity's client.
    pub(crate) fn of(&self, e: u32) -> Option<&Farewell>
        ensures { option_copied result ≡ table.get self.now e }
    {
        self.kept.get(e)
    }
}

/// The lines of clients whose entities die in the round, written where its calls have ended, for `write_ends` and `count_shown`.
pub fn write_farewells(
    alloc: Global,
    round: &PrintedRound,
    destroys: &[u32],
    called: &World,
) -> Result<Farewells, AllocError>
    ensures { IfOk result (λ f. (b : Book) → destroys.now ≡ filter_map destroyed b.current →
        ArePresent b round.now.present.now → AreFarewells round.now.defs.now b called.now f) }
{
    let mut kept = Table::new(alloc, round.defs.hash_key());
    let residents = round.present.by_number();
    for e in destroys {
        if let Some(farewell) = farewell_to(alloc, round.defs, residents, *e, called)? {
            keep(&mut kept, *e, farewell)?;
        }
    }
    Ok(Farewells { kept })
}

// What is kept of a resident's client, if it has one.
fn farewell_to(
    alloc: Global,
    defs: &Defs,
    residents: &BTreeMap<u32, Resident>,
    e: u32,
    called: &World,
) -> Result<Option<Farewell>, AllocError>
    ensures { IfOk result (λ f. f ≡ farewell_of defs.now called.now (get nat_cmp residents.now e)) }
{
    let Some(resident) = residents.get(&e) else {
        return Ok(None);
    };
    if !resident.client {
        return Ok(None);
    }
    let mut text = Vec::new(alloc);
    if let Some(part) = part(called, resident.made.entity) {
        push_all(&mut text, defs, &resident.made, part.lines())?;
    }
    Ok(Some(Farewell {
        text: Listed::of(text),
        lines: count_lines(resident.made.entity, called),
    }))
}

fn keep(kept: &mut Table<Farewell>, e: u32, farewell: Farewell) -> Result<(), AllocError>
    ensures { OnOk result (kept.new.items ≡ table.insert kept.old.items e farewell) }
{
    match kept.put(e, farewell) {
        Ok(_) => Ok(()),
        Err(_) => Err(AllocError),
    }
}

/// How many lines an entity's client was shown in the round so far.
pub(crate) fn count_lines(e: u32, world: &World) -> u64
    ensures { result ≡ length (lines_found world.now e) }
{
    match part(world, e) {
        Some(part) => part.lines().len() as u64,
        None => 0,
    }
}

fn push_all(out: &mut Vec<u8>, defs: &Defs, made: &Create, lines: &[Line]) -> Result<(), AllocError>
    ensures { OnOk result (out.new.items ≡ out.old.items ++ lines_text defs.now made.now
        lines.now) }
{
    for line in lines {
        push_line(out, defs, made.entity, made.ty, line)?;
    }
    Ok(())
}
