// What the calls of definitions that take memory give with ample memory.
use crate::builtin::{AVATAR, CHEST, builtin, sent};
use seam_defs::{Args, Deed, Defs, Group, State};
use seam_geo::Pos;
use seam_value::Value;
use std::alloc::{AllocError, Global};
use std::test::Fail;

// Whether a copy has the second type.
fn are_copied(defs: &Defs) -> Result<bool, AllocError> {
    Ok(defs.copy()?.find_type(b"Chest") == Some(CHEST))
}

// Whether a chest's state, which goes from one thread to another, has its one property.
fn state_crosses(defs: &Defs) -> Result<bool, AllocError> {
    let props = sent(defs.type_at(CHEST).start_props(Group::Real)?);
    let pos = Pos { x: 1, z: 2 };
    Ok(sent(State { pos, props }).props.len() == 1)
}

const GREATEST: i128 = 2_147_483_647;

// Whether a heal by the greatest number changes a new avatar to have that, and one more changes nothing.
fn heal_stops(alloc: Global, defs: &Defs) -> Result<bool, Fail> {
    let avatar = defs.type_at(AVATAR);
    let heal = avatar.find_method(b"heal").ok_or("heal")?;
    let deed = Deed::Method(heal, Args::of(vec![in alloc; Value::Number(GREATEST)]?));
    let pos = Pos { x: 0, z: 0 };
    let props = avatar.start_props(Group::Real)?;
    let mut state = State { pos, props };
    let healed = avatar.apply(&mut state, &deed)?;
    let stopped = state.props.at(0) == Some(&Value::Number(GREATEST));
    Ok(healed && stopped && !avatar.apply(&mut state, &deed)?)
}

// Whether definitions, of built-in types, give copies and states, and a heal stops at the greatest number.
fn look_at_definitions(alloc: Global, defs: &Defs) -> Result<(bool, bool, bool), Fail> {
    let copied = are_copied(defs)?;
    let crosses = state_crosses(defs)?;
    let stops = heal_stops(alloc, defs)?;
    Ok((copied, crosses, stops))
}

// Whether a copy has the one number.
fn has_five(args: &Args) -> Result<bool, AllocError> {
    let copy = args.copy()?;
    Ok(copy.values().len() == 1 && copy.values().get(0) == Some(&Value::Number(5)))
}

fn args_are_copied(alloc: Global) -> Result<bool, AllocError> {
    let args = Args::of(vec![in alloc; Value::Number(5)]?);
    has_five(&args)
}

// A deed goes from one thread to another.
fn deed_crosses(alloc: Global) -> bool {
    let deed = sent(Deed::Method(0, sent(Args::of(Vec::new(alloc)))));
    matches!(deed, Deed::Method(0, _))
}

#[test]
fn definitions_give_states_and_arguments_are_copied(rt: HostRuntime) -> Result<(), Fail> {
    let defs = sent(builtin(rt.alloc())?);
    let seen = look_at_definitions(rt.alloc(), &defs)?;
    let args = (args_are_copied(rt.alloc())?, deed_crosses(rt.alloc()));
    assert_eq!(rt; (seen, args), ((true, true, true), (true, true)));
    Ok(())
}
