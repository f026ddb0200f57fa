// The standing between two rounds.
ghost use Rattle.std.specs.Prelude.{◌≡◌, ◌==◌, ◌++◌, ◌∷◌, [], IfOk, OnOk, map, filter};
ghost use Rattle.seam_judge_data.specs.Standings.{standing_of};

use crate::ClientLine;
use seam_call::{Call, Line};
use seam_defs::Part;
use seam_rule_lines::Entry;
use seam_tree::{CellSet, Tree};
use std::alloc::{AllocError, Global};
use std::marker::Model;

/// Where an entity is held: the cell of its real, and the cells with a ghost of it.
#[derive(Clone, Copy)]
pub struct Place {
    pub home: u8,
    pub ghosts: CellSet,
}

impl Model for Place {
    ghost use Rattle.seam_haunt.specs.Places as places;
    ghost use Rattle.seam_judge_data.specs.Codes.{place_code, AreSmall};

    ghost Value = { places.Place };

    ghost coded = { place_code };

    ghost view = { λ p. record { home = p.home; ghosts = p.ghosts } };

    ghost invariant = { λ p. AreSmall p.ghosts };

    ghost inverse = { λ p. record { home = p.home; ghosts = p.ghosts } };
}

/// Where the entity of this number is held.
#[derive(Clone, Copy)]
pub struct Held {
    pub entity: u32,
    pub place: Place,
}

/// What was read and what the rounds so far left, in plain lists.
#[derive(Drop)]
pub struct Standing {
    /// How many lines were read, those of the header among them.
    pub lines: u64,
    /// How many rounds ended.
    pub rounds: u64,
    /// What was accepted in the rounds that ended, in the order of the lines.
    pub past: Vec<Entry>,
    /// The tree with which the open round began.
    pub tree: Tree,
    /// What was accepted in the open round.
    pub current: Vec<Entry>,
    /// The calls that were executed up to the last round's end: those of one part in the order in which it executed them.
    pub calls: Vec<Call>,
    /// Where entities are held: of an entity the first counts, and one that is not here is in the first cell alone.
    pub places: Vec<Held>,
    /// The lines that clients were shown: those of one client in their order.
    pub told: Vec<ClientLine>,
}

impl Standing {
    /// The calls that a part of an entity executed, in their order.
    pub fn order_of(&self, alloc: Global, part: Part, entity: u32) -> Result<Vec<&Call>, AllocError>
        ensures { IfOk result (λ order. map (λ c. c.now) order.items
            ≡ (standing_of self.now).orders part entity) }
    {
        self.calls
            .iter()
            .filter(|call| call.is_for(part, entity))
            .collect(alloc)
    }

    /// Where an entity is held.
    pub fn place_of(&self, entity: u32) -> Place
        ensures { result ≡ (standing_of self.now).places entity }
    {
        match self.places.iter().find(|held| held.entity == entity) {
            Some(held) => held.place,
            None => Place {
                home: 0,
                ghosts: CellSet::none(),
            },
        }
    }

    /// The lines that the client of an entity was shown, in their order.
    pub fn told_to(&self, alloc: Global, entity: u32) -> Result<Vec<&Line>, AllocError>
        ensures { IfOk result (λ lines. map (λ l. l.now) lines.items
            ≡ (standing_of self.now).told entity) }
    {
        let mut lines = Vec::new(alloc);
        for line in &self.told {
            add_line(&mut lines, line, entity)?;
        }
        Ok(lines)
    }
}

// Adds what the client of the entity is shown.
fn add_line<'a>(
    lines: &mut Vec<&'a Line>,
    line: &'a ClientLine,
    entity: u32,
) -> Result<(), AllocError>
    ensures { OnOk result (map (λ l. l.now) lines.new.items ≡ map (λ l. l.now) lines.old.items
        ++ map (λ l. l.line) (filter (λ l. l.entity == entity) (line.now ∷ []))) }
{
    if line.entity == entity {
        lines.push(&line.line)?;
    }
    Ok(())
}
