// What the calls of reals that take memory give with ample memory.
use crate::builtin::{AVATAR, builtin, sent};
use seam_call::{Call, Sender};
use seam_defs::{Args, Deed, Defs, Part, Settings};
use seam_entity::{Did, Msg, Observed, Real, Witness};
use seam_geo::Pos;
use seam_table::HashKey;
use seam_value::Value;
use seam_view::Look;
use std::alloc::{AllocError, Global};
use std::test::Fail;

// A call of client 2: its number, the method, and the number given to it.
#[derive(Clone, Copy)]
struct Told(u64, &'static [u8], i128);

const HIT: Told = Told(1, b"hit", 30);

const HEAL: Told = Told(2, b"heal", 5);

// What a real does.
#[derive(Clone, Copy)]
enum Does {
    // It is offered the call: whether it is executed, and whether that changes what others see.
    Execute(Told),
    // It prepares for the call: whether others will see the change, and whether the call leaves 70 of the first property.
    Prepare(Told),
    // It is copied: whether the copy is of version 1, and whether it has 70 of the first property.
    Copy,
    // Whether it fits the settings, and whether it has a ready call.
    Fits,
    // Its ready call is executed: whether others see the change, and whether it was to leave version 2 and 75 of the first property.
    ExecuteReady,
    // It is shown: whether a copy shows others what the real does, and whether its own client is shown 75 of the first property.
    Show,
    // It gets a witness: whether it has one then; and whether the witness tells its own state of version 2, and does so again.
    GiveWitness,
    Tell,
}

// What it does, and what comes of it.
type Row = (Does, (bool, bool));

// The later call is held, the earlier one leaves what it was prepared to, and the copy has that. Then the held call is executed, and what
// is shown has that. Its witness tells its state once, and is back in it.
const LIFE: [Row; 10] = [
    (Does::Execute(HEAL), (false, false)),
    (Does::Prepare(HIT), (true, true)),
    (Does::Execute(HIT), (true, true)),
    (Does::Copy, (true, true)),
    (Does::Fits, (true, true)),
    (Does::ExecuteReady, (true, true)),
    (Does::Fits, (true, false)),
    (Does::Show, (true, true)),
    (Does::GiveWitness, (true, true)),
    (Does::Tell, (true, false)),
];

fn call(alloc: Global, defs: &Defs, told: Told) -> Result<Call, Fail> {
    let Told(number, name, by) = told;
    let method = defs.type_at(AVATAR).find_method(name).ok_or("no method")?;
    let args = Args::of(vec![in alloc; Value::Number(by)]?);
    Ok(Call {
        entity: 1,
        part: Part::Cell,
        sender: Sender::Client(2),
        number,
        deed: Deed::Method(method, args),
    })
}

// Offers the call to the real where it may be.
fn execute(real: &mut Real, defs: &Defs, call: Call) -> Result<Did, Fail> {
    if call.number == 0 {
        Err("no number")?;
    }
    if call.number >= 1 << 62 {
        Err("a great number")?;
    }
    if real.version() >= 1 << 62 {
        Err("a great version")?;
    }
    if real.holds(call.sender, call.number) {
        Err("held")?;
    }
    let Ok(did) = real.execute(defs, call) else {
        return Err("no memory")?;
    };
    Ok(did)
}

// Whether the call was executed, and whether that changes what others see.
fn outcome(did: &Did) -> (bool, bool) {
    match did {
        Did::Done(changed) => (true, *changed),
        Did::Held => (false, false),
        Did::Stale(_) => (false, true),
    }
}

fn prepare(real: &mut Real, defs: &Defs, call: &Call) -> Result<(bool, bool), AllocError> {
    let after = real.prepare(defs, call)?;
    let left = after.props_over(real.state()).at(0) == Some(&Value::Number(70));
    Ok((after.changed, left))
}

fn copy(real: &Real, defs: &Defs) -> Result<(bool, bool), AllocError> {
    let copy = real.copy_out(defs)?;
    let left = copy.state.props.at(0) == Some(&Value::Number(70));
    Ok((copy.version == 1, left))
}

fn execute_ready(real: &mut Real, defs: &Defs) -> Result<(bool, bool), Fail> {
    if !real.is_ready() {
        Err("no ready call")?;
    }
    if real.version() >= 1 << 62 {
        Err("a great version")?;
    }
    let after = real.prepare_ready(defs)?;
    let later = after.props_over(real.state()).at(0);
    let healed = real.version_after(&after) == 2 && later == Some(&Value::Number(75));
    Ok((real.execute_ready(defs)?, healed))
}

fn show(real: &Real, defs: &Defs) -> Result<(bool, bool), AllocError> {
    let copy = real.copy_out(defs)?;
    let others = Observed::of_copy(&copy).copy_for_others(defs)?;
    let same = others.state.props.at(0) == real.observed().copy_for_others(defs)?.state.props.at(0);
    let own = real.own_state(defs)?;
    Ok((same, own.props.at(0) == Some(&Value::Number(75))))
}

fn give_witness(alloc: Global, real: &mut Real) -> Result<(bool, bool), AllocError> {
    real.put_witness(Witness::new(alloc, HashKey::new(1), &Settings::standard())?);
    Ok((real.has_witness(), true))
}

fn tell(real: &mut Real) -> Result<(bool, bool), Fail> {
    let Some(mut witness) = real.take_witness() else {
        return Err("no witness")?;
    };
    let first = witness.is_own_due(2);
    if witness.sent >= 1 << 61 {
        Err("many updates")?;
    }
    let looks: Vec<Look> = witness.view.plan(Pos { x: 100, z: 100 }, &[])?;
    witness.keep(&[], &looks, 2, 1);
    let second = witness.is_own_due(2);
    real.put_witness(witness);
    Ok((first, second || !real.has_witness()))
}

fn act(alloc: Global, real: &mut Real, defs: &Defs, does: Does) -> Result<(bool, bool), Fail> {
    match does {
        Does::Execute(told) => {
            let did = execute(real, defs, call(alloc, defs, told)?)?;
            Ok(outcome(&did))
        }
        Does::Prepare(told) => Ok(prepare(real, defs, &call(alloc, defs, told)?)?),
        Does::Copy => Ok(copy(real, defs)?),
        Does::Fits => Ok((real.fits(defs, &Settings::standard()), real.is_ready())),
        Does::ExecuteReady => execute_ready(real, defs),
        Does::Show => Ok(show(real, defs)?),
        Does::GiveWitness => Ok(give_witness(alloc, real)?),
        Does::Tell => tell(real),
    }
}

// How many rows the real keeps to before the first one that it does not.
fn play(alloc: Global, real: &mut Real, defs: &Defs) -> Result<usize, Fail> {
    let mut kept = 0usize;
    for (does, gives) in LIFE {
        if act(alloc, real, defs, does)? != gives {
            return Ok(kept);
        }
        kept = kept.saturating_add(1);
    }
    Ok(kept)
}

// The real is owned here alone, where there is one way out.
fn lived(alloc: Global, defs: &Defs) -> Result<usize, Fail> {
    let pos = Pos { x: 100, z: 100 };
    let mut real = sent(Real::create(alloc, defs, 1, AVATAR, pos)?);
    play(alloc, &mut real, defs)
}

// A message goes from one thread to another.
fn message_crosses() -> bool {
    matches!(sent(Msg::Tick), Msg::Tick)
}

#[test]
fn a_real_executes_calls_in_order_and_tells_its_state_once(rt: HostRuntime) -> Result<(), Fail> {
    let defs = builtin(rt.alloc())?;
    let lived = lived(rt.alloc(), &defs)?;
    assert_eq!(rt; (lived, message_crosses()), (LIFE.len(), true));
    Ok(())
}
