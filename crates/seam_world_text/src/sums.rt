//! What is counted of a round that is played and not printed.

ghost use Rattle.std.specs.Prelude.{◌≡◌, ◌+◌, ◌+ℤ◌, pos, length, fold, IfOk, Option};
ghost use Rattle.std.specs.List.{sum_by};
ghost use Rattle.seam_node_steps.specs.Prelude.{Division, World as AnyWorld};
ghost use Rattle.seam_rule_rounds.specs.Prelude.{Header, Standing, hp_of};
ghost use Rattle.seam_law_transcript.specs.Prelude.{IsPlayed, data_of};
ghost use Rattle.seam_defs.specs.Builtin.{avatar_properties};
ghost use Rattle.seam_defs.specs.Deeds.{number_of, place_of, value_at};
ghost use Rattle.seam_defs.specs.declared.flags.Group.TheVariants as group;
ghost use Rattle.seam_rule_rounds.specs.Summary.{hp};
ghost use Rattle.seam_world_text.specs.Residents.{ArePresent};
ghost use Rattle.seam_world_text.specs.Finding.{RoutesLeadHome};
ghost use Rattle.seam_world_text.specs.Farewells.{AreFarewells};
ghost use Rattle.seam_world_text.specs.Sums.{did_count, shown_count, and_hp_found};

use crate::farewells::{Farewells, count_lines};
use crate::finding::{home, near_after};
use crate::laws::what_is_found_is_printed;
use crate::residents::{Resident, Residents};
use seam_core::World;
use seam_defs::Props;
use seam_rule_rounds::plus;
use seam_value::Value;
use std::alloc::AllocError;
use std::collections::BTreeMap;

// The place of the property `hp` among the values of an avatar's real.
const HP_PLACE: usize = 0;

/// The number of calls that cell parts executed in a round, where its calls have ended.
///
/// No memory holds as many as do not fit 64 bits: of those it would answer as if allocation failed.
pub fn count_did(present: &Residents, called: &World) -> Result<u64, AllocError>
    ensures { IfOk result (λ n. (h : Header) (s : Standing) (tree : Division) (w v : AnyWorld)
        (p : IsPlayed h s tree w v) (bounds : Option Division) → p.round.called ≡ called.now →
        ArePresent s.book present.now → n ≡ length (data_of h s tree w v p bounds).did) }
{
    what_is_found_is_printed();
    count_calls(present.by_number(), called)
}

/// The number of lines that clients were shown in a round that has ended. What was kept of clients where the calls had ended is what those
/// were shown whose entities died.
///
/// No memory holds as many as do not fit 64 bits: of those it would answer as if allocation failed.
pub fn count_shown(present: &Residents, kept: &Farewells, ended: &World) -> Result<u64, AllocError>
    ensures { IfOk result (λ n. (h : Header) (s : Standing) (tree : Division) (w : AnyWorld)
        (p : IsPlayed h s tree w ended.now) (bounds : Option Division) →
        ArePresent s.book present.now → AreFarewells h.defs s.book p.round.called kept.now →
        n ≡ length (data_of h s tree w ended.now p bounds).shown) }
{
    what_is_found_is_printed();
    count_told(present.by_number(), kept, ended)
}

/// The sum of the hp of all homes that a round left.
///
/// No memory holds so many avatars that their sum does not fit 64 bits: of those it would answer as if allocation failed.
pub fn sum_hp(present: &Residents, ended: &World) -> Result<i64, AllocError>
    ensures { IfOk result (λ n. (h : Header) (s : Standing) (tree : Division) (w : AnyWorld)
        (p : IsPlayed h s tree w ended.now) (bounds : Option Division) →
        ArePresent s.book present.now → n ≡ fold (λ n l. n +ℤ hp_of l) (pos 0)
        (data_of h s tree w ended.now p bounds).homes) }
{
    what_is_found_is_printed();
    sum_homes(present.by_number(), ended)
}

// ---- calls

// How many calls a resident's cell part executed, and the cell to look in for the next one.
fn calls_of(near: Option<u8>, resident: &Resident, world: &World) -> (u64, Option<u8>)
    ensures { RoutesLeadHome world.now → result.0 ≡ did_count world.now resident.now }
{
    let Some((cell, parcel)) = home(world, near, resident.made.entity) else {
        return (0, near);
    };
    (parcel.real.done().len() as u64, near_after(near, cell))
}

fn count_calls(residents: &BTreeMap<u32, Resident>, world: &World) -> Result<u64, AllocError>
    ensures { IfOk result (λ n. RoutesLeadHome world.now →
        n ≡ sum_by (λ e. did_count world.now e.1) residents.now.entries) }
{
    let mut count = 0;
    let mut near = Some(0);
    for (_, resident) in residents {
        let (calls, after) = calls_of(near, resident, world);
        count = plus(count, calls)?;
        near = after;
    }
    Ok(count)
}

// ---- lines

fn lines_of(resident: &Resident, kept: &Farewells, world: &World) -> u64
    ensures { result ≡ shown_count kept.now world.now resident.now }
{
    if !resident.client {
        return 0;
    }
    match kept.of(resident.made.entity) {
        Some(farewell) => farewell.lines,
        None => count_lines(resident.made.entity, world),
    }
}

fn count_told(
    residents: &BTreeMap<u32, Resident>,
    kept: &Farewells,
    world: &World,
) -> Result<u64, AllocError>
    ensures { IfOk result (λ n. n ≡ sum_by (λ e. shown_count kept.now world.now e.1)
        residents.now.entries) }
{
    let mut count = 0;
    for (_, resident) in residents {
        count = plus(count, lines_of(resident, kept, world))?;
    }
    Ok(count)
}

// ---- hp

fn hp_in(props: &Props) -> i128
    ensures { result ≡ number_of (value_at props.now (place_of avatar_properties group.Real hp)) }
{
    match props.at(HP_PLACE) {
        Some(Value::Number(number)) => *number,
        _ => 0,
    }
}

fn and_hp(sum: i64, props: &Props) -> Result<i64, AllocError>
    ensures { IfOk result (λ n. n ≡ sum +ℤ number_of (value_at props.now
        (place_of avatar_properties group.Real hp))) }
{
    match i64::try_from(i128::from(sum).saturating_add(hp_in(props))) {
        Ok(all) => Ok(all),
        Err(_) => Err(AllocError),
    }
}

// A sum and the hp of a resident's home, and the cell to look in for the next one.
fn and_hp_of(
    sum: i64,
    near: Option<u8>,
    resident: &Resident,
    world: &World,
) -> Result<(i64, Option<u8>), AllocError>
    ensures { IfOk result (λ p. RoutesLeadHome world.now →
        p.0 ≡ and_hp_found world.now sum resident.now) }
{
    let Some((cell, parcel)) = home(world, near, resident.made.entity) else {
        return Ok((sum, near));
    };
    let sum = and_hp(sum, &parcel.real.state().props)?;
    Ok((sum, near_after(near, cell)))
}

fn sum_homes(residents: &BTreeMap<u32, Resident>, world: &World) -> Result<i64, AllocError>
    ensures { IfOk result (λ n. RoutesLeadHome world.now →
        n ≡ fold (λ z e. and_hp_found world.now z e.1) (pos 0) residents.now.entries) }
{
    let mut sum = 0;
    let mut near = Some(0);
    for (_, resident) in residents {
        let (next, after) = and_hp_of(sum, near, resident, world)?;
        sum = next;
        near = after;
    }
    Ok(sum)
}
