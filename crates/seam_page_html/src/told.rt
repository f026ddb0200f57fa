// A round that was told, and what is looked up in it.
use indexmap::IndexMap;
use seam_call::Call;
use seam_defs::Deed;
use seam_geo::Pos;
use seam_judge_data::{BaseLine, DoneLine, GhostLine, HomeLine};
use seam_replay::Played;
use seam_tree::{CellSet, MOST_CELLS};
use std::alloc::{AllocError, Global};

/// What a round has of an entity beside its home.
#[derive(Clone, Copy)]
pub(crate) struct Facts {
    /// How many calls its cell part executed.
    pub(crate) executed: u64,
    /// To where it was moved last.
    pub(crate) moved: Option<Pos>,
    /// The cells that have a ghost of it.
    pub(crate) ghosts: CellSet,
    // where its base part is in the round
    base: Option<usize>,
}

impl Facts {
    fn none() -> Facts {
        Facts {
            executed: 0,
            moved: None,
            ghosts: CellSet::none(),
            base: None,
        }
    }

    fn with_call(self, call: &Call) -> Facts {
        let moved = match &call.deed {
            Deed::Move(to) => Some(*to),
            Deed::Method(..) => self.moved,
        };
        Facts {
            executed: self.executed.saturating_add(1),
            moved,
            ghosts: self.ghosts,
            base: self.base,
        }
    }

    fn with_ghost(self, cell: u8) -> Facts {
        if MOST_CELLS <= usize::from(cell) {
            return self;
        }
        Facts {
            executed: self.executed,
            moved: self.moved,
            ghosts: self.ghosts.with(cell),
            base: self.base,
        }
    }

    fn with_base(self, place: usize) -> Facts {
        Facts {
            executed: self.executed,
            moved: self.moved,
            ghosts: self.ghosts,
            base: Some(place),
        }
    }
}

/// A round, and its facts by entities.
#[derive(Drop)]
pub(crate) struct Told {
    pub(crate) played: Played,
    pub(crate) facts: IndexMap<u32, Facts>,
}

impl Told {
    pub(crate) fn of(alloc: Global, played: Played) -> Result<Told, AllocError> {
        let mut told = Told {
            played,
            facts: IndexMap::new(alloc),
        };
        match told.look_up() {
            Ok(()) => Ok(told),
            Err(error) => Err(error),
        }
    }

    fn look_up(&mut self) -> Result<(), AllocError> {
        add_calls(&mut self.facts, &self.played.round.did)?;
        add_ghosts(&mut self.facts, &self.played.round.ghosts)?;
        add_bases(&mut self.facts, &self.played.round.bases)
    }

    /// The home of an entity, if it lives.
    pub(crate) fn home_of(&self, entity: u32) -> Option<&HomeLine> {
        self.played.home_of(entity)
    }

    /// What the round has of an entity.
    pub(crate) fn facts_of(&self, entity: u32) -> Facts {
        facts_in(&self.facts, entity)
    }

    /// The base part of an entity, if it lives.
    pub(crate) fn base_of(&self, entity: u32) -> Option<&BaseLine> {
        let place = self.facts_of(entity).base?;
        self.played.round.bases.get(place)
    }
}

fn facts_in(facts: &IndexMap<u32, Facts>, entity: u32) -> Facts {
    match facts.get(&entity) {
        Some(facts) => *facts,
        None => Facts::none(),
    }
}

fn add_calls(facts: &mut IndexMap<u32, Facts>, lines: &[DoneLine]) -> Result<(), AllocError> {
    for line in lines {
        let entity = line.call.entity;
        let after = facts_in(facts, entity).with_call(&line.call);
        facts.insert(entity, after)?;
    }
    Ok(())
}

fn add_ghosts(facts: &mut IndexMap<u32, Facts>, lines: &[GhostLine]) -> Result<(), AllocError> {
    for line in lines {
        let after = facts_in(facts, line.entity).with_ghost(line.cell);
        facts.insert(line.entity, after)?;
    }
    Ok(())
}

fn add_bases(facts: &mut IndexMap<u32, Facts>, lines: &[BaseLine]) -> Result<(), AllocError> {
    for (place, line) in lines.iter().enumerate() {
        let after = facts_in(facts, line.entity).with_base(place);
        facts.insert(line.entity, after)?;
    }
    Ok(())
}
