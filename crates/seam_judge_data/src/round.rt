// A round.
use crate::{BaseLine, ClientLine, DoneLine, GhostLine, HomeLine};
use seam_tree::Tree;
use std::marker::Model;

/// What a round prints: its number, from 1 on, its lines of each kind in their order, and the tree of the next round where the boundaries
/// were balanced.
#[derive(Drop)]
pub struct Round {
    pub number: u64,
    pub did: Vec<DoneLine>,
    pub dob: Vec<DoneLine>,
    pub homes: Vec<HomeLine>,
    pub bases: Vec<BaseLine>,
    pub ghosts: Vec<GhostLine>,
    pub shown: Vec<ClientLine>,
    pub bounds: Option<Tree>,
}

impl Model for Round {
    ghost use Rattle.seam_rule_rounds.specs.Lines.{RoundData};

    ghost Value = { RoundData };

    ghost view = { λ r. record {
      number = r.number;
      did = r.did.items;
      dob = r.dob.items;
      homes = r.homes.items;
      bases = r.bases.items;
      ghosts = r.ghosts.items;
      shown = r.shown.items;
      bounds = r.bounds;
    } };
}
