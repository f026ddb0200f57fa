// The lines of a round.
ghost use Rattle.std.specs.Prelude.{◌≡◌};

use seam_call::{Call, Line};
use seam_defs::{Props, State};
use std::marker::Model;

/// An executed call, with the type of its entity.
#[derive(Drop)]
pub struct DoneLine {
    pub ty: u16,
    pub call: Call,
}

impl Model for DoneLine {
    ghost use Rattle.seam_rule_lines.specs.Round as lines;

    ghost Value = { lines.DoneLine };

    ghost view = { λ l. record { ty = l.ty; call = l.call } };
}

/// A live entity: its type, the cell of its real, and its version and state.
#[derive(Drop)]
pub struct HomeLine {
    pub entity: u32,
    pub ty: u16,
    pub cell: u8,
    pub version: u64,
    pub state: State,
}

impl Model for HomeLine {
    ghost use Rattle.seam_rule_lines.specs.Round as lines;

    ghost Value = { lines.HomeLine };

    ghost view = { λ l. record { entity = l.entity; ty = l.ty; cell = l.cell; version = l.version; state = l.state } };
}

/// The base part of a live entity: its version, and what it holds.
#[derive(Drop)]
pub struct BaseLine {
    pub entity: u32,
    pub ty: u16,
    pub version: u64,
    pub props: Props,
}

impl Model for BaseLine {
    ghost use Rattle.seam_rule_lines.specs.Round as lines;

    ghost Value = { lines.BaseLine };

    ghost view = { λ l. record { entity = l.entity; ty = l.ty; version = l.version; props = l.props } };
}

/// A ghost of an entity in a cell, at the entity's public version.
#[derive(Drop)]
pub struct GhostLine {
    pub entity: u32,
    pub cell: u8,
    pub version: u64,
}

impl Model for GhostLine {
    ghost use Rattle.seam_rule_rounds.specs.Lines as lines;

    ghost Value = { lines.GhostLine };

    ghost view = { λ l. record { entity = l.entity; cell = l.cell; version = l.version } };
}

/// A line that the client of an entity of this type is shown.
#[derive(Drop)]
pub struct ClientLine {
    pub entity: u32,
    pub ty: u16,
    pub line: Line,
}

impl Model for ClientLine {
    ghost use Rattle.seam_rule_rounds.specs.Lines as lines;

    ghost Value = { lines.ClientLine };

    ghost view = { λ l. record { entity = l.entity; ty = l.ty; line = l.line } };
}
