// What nodes are fed, as plain data.
ghost use Rattle.std.specs.Prelude.{◌≡◌, true};

use seam_call::{Call, Order, Sender, Shown, Update};
use seam_defs::{Args, Deed, Defs, Part, Settings};
use seam_entity::{Msg, Parcel, Real, Witness};
use seam_geo::Pos;
use seam_machine::{Input, Machine, Out};
use seam_table::HashKey;
use seam_tree::CellSet;
use std::alloc::{AllocError, Global};
use std::test::Fail;

pub const AVATAR: u16 = 0;

// Where reals are made.
pub const PLACE: Pos = Pos { x: 4_900, z: 100 };

// What a node is fed: its task, or a message about the entity of that number.
#[derive(Clone, Copy)]
pub enum Fed {
    Task,
    // The call of that number moves it to that x.
    Walk(u32, u64, u32),
    // Its real comes, at that beat and generation.
    Hand(u32, u64, u64),
    // The same, with a witness that has told nothing.
    Watcher(u32, u64, u64),
    // Its copy, at a beat and of that version.
    Set(u64, u32, u64),
    // No copy, from that beat on.
    Drop(u64, u32),
    Tick,
    Reap(u32),
    // The call of that number for its base part.
    BaseCall(u32, u64),
    // Its real is in that cell, at that generation.
    Current(u32, u8, u64),
    // Its witness's update of that number: entity 9 leaves the view.
    Update(u32, u64),
}

// A call of its own, without a clause: what the built-in types are is not computed again for each call on them.
pub fn builtin(alloc: Global) -> Result<Defs, AllocError> {
    seam_toml::builtin(alloc)
}

// The built-in types, and the memory of what is made of them.
#[derive(Clone, Copy)]
pub struct Makes<'a> {
    pub alloc: Global,
    pub defs: &'a Defs,
}

fn real(makes: Makes<'_>, e: u32) -> Result<Real, AllocError> {
    Real::create(makes.alloc, makes.defs, e, AVATAR, PLACE)
}

// The real as it comes at that beat and generation.
fn moved(makes: Makes<'_>, e: u32, beat: u64, generation: u64) -> Result<Real, AllocError> {
    let mut real = real(makes, e)?;
    if real.beat() <= beat && real.generation() <= generation {
        real.settle_to(CellSet::none(), beat, generation);
    }
    Ok(real)
}

fn hand(real: Real) -> Msg {
    Msg::Hand(Parcel { real }, None)
}

fn watching(alloc: Global, mut real: Real) -> Result<Real, AllocError> {
    real.put_witness(Witness::new(alloc, HashKey::new(1), &Settings::standard())?);
    Ok(real)
}

fn set(makes: Makes<'_>, beat: u64, e: u32, version: u64) -> Result<Msg, AllocError> {
    let mut copy = real(makes, e)?.copy_out(makes.defs)?;
    copy.version = version;
    Ok(Msg::GhostSet(e, beat, copy))
}

fn call(entity: u32, part: Part, number: u64, deed: Deed) -> Call {
    Call {
        entity,
        part,
        sender: Sender::Client(7),
        number,
        deed,
    }
}

fn walk(e: u32, number: u64, x: u32) -> Msg {
    let to = Pos { x, z: 100 };
    Msg::Call(call(e, Part::Cell, number, Deed::Move(to)))
}

fn promote(makes: Makes<'_>, e: u32, number: u64) -> Result<Msg, Fail> {
    let avatar = makes.defs.type_at(AVATAR);
    let method = avatar.find_method(b"promote").ok_or("no method")?;
    let deed = Deed::Method(method, Args::of(Vec::new(makes.alloc)));
    Ok(Msg::BaseCall(call(e, Part::Base, number, deed)))
}

fn leave(e: u32, number: u64) -> Msg {
    Msg::Update(Update {
        entity: e,
        number,
        shown: Shown::Leave(9),
    })
}

// The message, for what is no task.
fn message(makes: Makes<'_>, fed: Fed) -> Result<Msg, Fail> {
    match fed {
        Fed::Task => Err("no message")?,
        Fed::Walk(e, number, x) => Ok(walk(e, number, x)),
        Fed::Hand(e, beat, generation) => Ok(hand(moved(makes, e, beat, generation)?)),
        Fed::Watcher(e, beat, generation) => {
            let real = moved(makes, e, beat, generation)?;
            Ok(hand(watching(makes.alloc, real)?))
        }
        Fed::Set(beat, e, version) => Ok(set(makes, beat, e, version)?),
        Fed::Drop(beat, e) => Ok(Msg::GhostDrop(e, beat)),
        Fed::Tick => Ok(Msg::Tick),
        Fed::Reap(e) => Ok(Msg::Reap(e)),
        Fed::BaseCall(e, number) => promote(makes, e, number),
        Fed::Current(e, cell, generation) => Ok(Msg::Current(e, cell, generation)),
        Fed::Update(e, number) => Ok(leave(e, number)),
    }
}

// The order from which that message comes.
pub fn order(makes: Makes<'_>, fed: Fed) -> Result<Order, Fail> {
    match message(makes, fed)? {
        Msg::Call(call) => Ok(Order::Cell(call)),
        Msg::BaseCall(call) => Ok(Order::Base(call)),
        Msg::Tick => Ok(Order::Tick),
        Msg::Reap(e) => Ok(Order::Reap(e)),
        _ => Err("no order")?,
    }
}

// A step of the node.
fn step<M: Machine<Msg = Msg>>(
    node: &mut M,
    alloc: Global,
    mut input: Input<Msg>,
) -> Result<Out<Msg>, Fail>
    requires { input ≡ Input.Task → M.has_work node.old ≡ true }
{
    let mut out = Out::new(alloc);
    node.step(alloc, &mut input, &mut out)?;
    Ok(out)
}

// The node is fed that, and what it sends comes back.
pub fn feed<M: Machine<Msg = Msg>>(
    node: &mut M,
    makes: Makes<'_>,
    fed: Fed,
) -> Result<Out<Msg>, Fail> {
    if !matches!(fed, Fed::Task) {
        return step(node, makes.alloc, Input::From(16, message(makes, fed)?));
    }
    if !node.has_task() {
        return Err("no task")?;
    }
    step(node, makes.alloc, Input::Task)
}
