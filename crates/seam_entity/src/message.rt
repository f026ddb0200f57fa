//! What nodes send each other.

use crate::real::Real;
use seam_call::{Boundaries, Call, GhostCopy, Update};
use std::marker::Model;

/// A real on its way to another cell. The room that was made in the real is not seen.
#[derive(Drop)]
pub struct Parcel {
    pub real: Real,
}

impl Model for Parcel {
    ghost use Rattle.std.specs.Coded.{codes};
    ghost use Rattle.std.specs.FinMap as table;
    ghost use Rattle.std.specs.FinSet as set;
    ghost use Rattle.seam_entity.specs.Reals.{RealView};

    ghost Value = { RealView };

    ghost coded = { Prim.hlevel (codes, table.code, set.code) };

    ghost view = { λ p. p.real.core };
}

/// A message from node to node. Beats, generations and versions are numbers that only rise.
#[derive(Drop)]
pub enum Msg {
    /// A call for an entity's cell part.
    Call(Call),
    /// A call for an entity's base part.
    BaseCall(Call),
    /// The real itself, with the boundaries by which it was settled, unless they are those of the round's start.
    Hand(Parcel, Option<Boundaries>),
    /// The entity's real is in that cell, at that generation.
    Current(u32, u8, u64),
    /// The entity's copy, with its beat.
    GhostSet(u32, u64, GhostCopy),
    /// From that beat on the cell is no haunt of the entity.
    GhostDrop(u32, u64),
    /// The cell's witnesses look.
    Tick,
    /// The entity leaves the world.
    Reap(u32),
    /// What a witness tells its proxy.
    Update(Update),
    /// The boundaries that replace older ones.
    Bounds(Boundaries),
}
