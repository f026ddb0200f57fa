//! The copies of a cell by entity, and where they are.

ghost use Rattle.std.specs.Prelude.{◌≡◌, Some, None, OnOk, OnErr, IfOk, IfErr, IfSome};
ghost use Rattle.std.specs.Prelude.{option_copied};
ghost use Rattle.std.specs.FinMap as map;
ghost use Rattle.seam_ghosts.specs.Book.{copy_of, ghost_after, with_copies};
ghost use Rattle.seam_node_steps.specs.Maps.{set_at};
ghost use Rattle.seam_cell_parts.specs.Spots.{AreNoted, AreKeptNoted, location_of_copy, copy_locations, located_copies};

use crate::spots::{Spots, beside, forget, note};
use seam_call::GhostCopy;
use seam_ghosts::{GhostBook, Kept};
use seam_range::{Location, RangeList};
use seam_table::{HashKey, NoMemoryFor};
use std::alloc::{AllocError, Global};
use std::marker::Model;

/// The cell's own book of ghosts. Contracts see it as the book; where the copies are is kept beside it as long as that pays.
#[derive(Drop)]
pub struct CopyBook {
    book: GhostBook<GhostCopy>,
    spots: Spots,
}

impl Model for CopyBook {
    ghost use Rattle.std.specs.Coded.{codes};
    ghost use Rattle.std.specs.FinMap as map;
    ghost use Rattle.seam_ghosts.specs.Book.{BookView};
    ghost use Rattle.seam_call.specs.declared.shown.GhostCopy.{GhostCopy};
    ghost use Rattle.seam_cell_parts.specs.Spots.{AreKeptNoted, copy_locations};

    ghost Value = { BookView GhostCopy };

    ghost coded = { Prim.hlevel (codes, map.code) };

    ghost view = { λ b. b.book };

    ghost invariant = { λ b. AreKeptNoted b.spots (copy_locations b.book.ghosts) };
}

// Where the copy is.
fn location_of(copy: &GhostCopy) -> Location
    ensures { result ≡ location_of_copy copy.now }
{
    Location {
        version: copy.version,
        pos: copy.state.pos,
    }
}

// Where the copies are, in rising number.
fn locations_of(
    alloc: Global,
    book: &GhostBook<GhostCopy>,
) -> Result<Vec<(u32, Location)>, AllocError>
    ensures { IfOk result (λ v. v.items ≡ located_copies book.now.ghosts) }
{
    let entities = book.entities(alloc)?;
    let mut locations = Vec::with_capacity(alloc, entities.len())?;
    for e in &entities {
        let Some(copy) = book.get(*e) else {
            unreachable!()
        };
        locations.push((*e, location_of(copy)))?;
    }
    Ok(locations)
}

// Where the copies are, to be kept.
fn spots_of(alloc: Global, book: &GhostBook<GhostCopy>) -> Result<Spots, AllocError>
    ensures { IfOk result (λ s. AreKeptNoted s (copy_locations book.now.ghosts)) }
{
    let locations = locations_of(alloc, book)?;
    let spots = Spots::of(alloc, &locations)?;
    Ok(spots)
}

impl CopyBook {
    /// A book that knows of no entity, and finds entities by a hash with this key.
    pub fn new(alloc: Global, key: HashKey) -> Self
        ensures { result ≡ record { ghosts = map.empty } }
    {
        CopyBook {
            book: GhostBook::new(alloc, key),
            spots: Spots::none(),
        }
    }

    /// The book itself.
    pub fn book(&self) -> &GhostBook<GhostCopy>
        ensures { result.now ≡ self.now }
    {
        &self.book
    }

    /// The entity's copy, if there is one.
    pub fn get(&self, e: u32) -> Option<&GhostCopy>
        ensures { option_copied result ≡ copy_of self.now e }
    {
        self.book.get(e)
    }

    /// Takes the copy at that beat, if none came at that or a later one. If allocation fails, it comes back and nothing has changed.
    pub fn set(&mut self, e: u32, beat: u64, copy: GhostCopy) -> Result<(), NoMemoryFor<GhostCopy>>
        ensures ok { OnOk result (self.new.ghosts ≡ set_at self.old.ghosts e
            (ghost_after (map.get self.old.ghosts e) (record {
              beat = beat;
              copy = Some copy;
            }))) }
        ensures err { OnErr result (self.new.ghosts ≡ self.old.ghosts) }
        ensures err_item { IfErr result (λ r. r.item ≡ copy) }
    {
        let location = location_of(&copy);
        match self.book.set(e, beat, copy) {
            Ok(Kept::Taken) => {
                note(&mut self.spots, e, location);
                Ok(())
            }
            Ok(Kept::Ignored) => Ok(()),
            Err(refused) => Err(refused),
        }
    }

    /// Drops the copy at that beat, if none came at that or a later one. If allocation fails, nothing has changed.
    pub fn drop_copy(&mut self, e: u32, beat: u64) -> Result<(), AllocError>
        ensures ok { OnOk result (self.new.ghosts ≡ set_at self.old.ghosts e
            (ghost_after (map.get self.old.ghosts e) (record { beat = beat; copy = None }))) }
        ensures err { OnErr result (self.new.ghosts ≡ self.old.ghosts) }
    {
        match self.book.drop_copy(e, beat) {
            Ok(Kept::Taken) => {
                forget(&mut self.spots, e);
                Ok(())
            }
            Ok(Kept::Ignored) => Ok(()),
            Err(refused) => Err(refused),
        }
    }

    /// Forgets the beats of entities that have no copy.
    pub fn forget_dropped(&mut self, alloc: Global, key: HashKey)
        ensures { self.new ≡ record { ghosts = with_copies self.old.ghosts } }
    {
        self.book.forget_dropped(alloc, key);
    }

    /// Where the copies are, in rising number.
    pub fn locations(&self, alloc: Global) -> Result<Vec<(u32, Location)>, AllocError>
        ensures { IfOk result (λ v. v.items ≡ located_copies self.now.ghosts) }
    {
        locations_of(alloc, &self.book)
    }

    /// It is asked where the copies are. Once it was asked several times this is kept, where there is memory for that, and as long as
    /// they do not change much more often than it is asked. This is for speed alone, and no contract sees it.
    pub fn locate(&mut self, alloc: Global)
        ensures { self.new ≡ self.old }
    {
        if self.spots.ask() {
            if let Ok(spots) = spots_of(alloc, &self.book) {
                self.spots = spots;
            }
        }
    }

    /// Where the copies of other entities are, and at which version; or none, as no contract says whether it is kept.
    pub fn spots_beside(&self, e: u32) -> Option<&RangeList>
        ensures { IfSome result (λ l. AreNoted l.now (Some e) (copy_locations self.now.ghosts)) }
    {
        beside(&self.spots, e)
    }
}
