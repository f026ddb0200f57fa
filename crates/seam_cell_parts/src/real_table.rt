//! The reals of a cell by entity, and where they are.

ghost use Rattle.std.specs.Prelude.{◌≡◌, Some, true, false, OnOk, OnErr, IfOk, IfSome, option_copied};
ghost use Rattle.std.specs.FinMap as map;
ghost use Rattle.std.specs.FinSet as set;
ghost use Rattle.seam_table.specs.Tables.{with_item, without_item, without_room, with_each};
ghost use Rattle.seam_entity.specs.Executing.{real_begins};
ghost use Rattle.seam_cell_parts.specs.Spots.{AreNoted, AreKeptNoted, location_of_real, real_locations, located_reals};

use crate::spots::{Spots, beside, forget, let_out, note};
use seam_entity::{Parcel, Real};
use seam_range::{Location, RangeList};
use seam_slab::SlabTable;
use seam_table::HashKey;
use std::alloc::{AllocError, Global};
use std::marker::Model;

/// The reals by entity, in a slab. A real that is taken out for a step leaves its slot open. Contracts see a table; where the reals are is
/// kept beside it as long as that pays.
#[derive(Drop)]
pub struct RealTable {
    items: SlabTable<Parcel>,
    spots: Spots,
}

impl Model for RealTable {
    ghost use Rattle.std.specs.Coded.{codes};
    ghost use Rattle.std.specs.FinMap as map;
    ghost use Rattle.std.specs.FinSet as set;
    ghost use Rattle.seam_table.specs.Tables.{TableView};
    ghost use Rattle.seam_entity.specs.Reals.{RealView};
    ghost use Rattle.seam_cell_parts.specs.Spots.{AreKeptNoted, real_locations};

    ghost Value = { TableView RealView };

    ghost coded = { Prim.hlevel (codes, map.code, set.code) };

    ghost view = { λ t. t.items };

    ghost invariant = { λ t. AreKeptNoted t.spots (real_locations t.items.items) };
}

// Where the real is.
fn location_of(real: &Real) -> Location
    ensures { result ≡ location_of_real real.now.core }
{
    Location {
        version: real.public_version(),
        pos: real.state().pos,
    }
}

// Begins a round for a real. One that has done nothing, as most have, stays as it is.
fn begin(parcel: &mut Parcel)
    ensures { parcel.new ≡ real_begins parcel.old }
{
    if !parcel.real.done().is_empty() {
        parcel.real.start_round();
    }
}

// Where the reals are, in rising number.
fn locations_of(
    alloc: Global,
    items: &SlabTable<Parcel>,
) -> Result<Vec<(u32, Location)>, AllocError>
    ensures { IfOk result (λ v. v.items ≡ located_reals items.now.items) }
{
    let entities = items.numbers(alloc)?;
    let mut locations = Vec::with_capacity(alloc, entities.len())?;
    for e in &entities {
        let Some(parcel) = items.get(*e) else {
            unreachable!()
        };
        locations.push((*e, location_of(&parcel.real)))?;
    }
    Ok(locations)
}

// Where the reals are, to be kept.
fn spots_of(alloc: Global, items: &SlabTable<Parcel>) -> Result<Spots, AllocError>
    ensures { IfOk result (λ s. AreKeptNoted s (real_locations items.now.items)) }
{
    let locations = locations_of(alloc, items)?;
    let spots = Spots::of(alloc, &locations)?;
    Ok(spots)
}

impl RealTable {
    /// A table with no real and room for none, which finds entities by a hash with this key.
    pub fn new(alloc: Global, key: HashKey) -> Self
        ensures { result ≡ record { items = map.empty; room = set.empty } }
    {
        RealTable {
            items: SlabTable::new(alloc, key),
            spots: Spots::none(),
        }
    }

    /// The entity's real. There is room for what is there.
    pub fn get(&self, e: u32) -> Option<&Parcel>
        ensures item { option_copied result ≡ map.get self.now.items e }
        ensures room { IfSome result (λ _. set.contains self.now.room e ≡ true) }
    {
        self.items.get(e)
    }

    /// Makes room for the entity's real.
    pub fn reserve(&mut self, e: u32) -> Result<(), AllocError>
        ensures same { self.new.items ≡ self.old.items }
        ensures room { OnOk result (self.new.room ≡ set.insert self.old.room e) }
        ensures there { OnOk result (set.contains self.new.room e ≡ true) }
        ensures err { OnErr result (self.new.room ≡ self.old.room) }
        ensures err_only_first { OnErr result (set.contains self.old.room e ≡ false) }
    {
        self.items.reserve(e)
    }

    /// Puts the entity's real in place of what was there. There is room for it, so no memory is needed.
    pub fn put_reserved(&mut self, e: u32, parcel: Parcel) -> Option<Parcel>
        requires { set.contains self.old.room e ≡ true }
        ensures old { result ≡ map.get self.old.items e }
        ensures after { self.new ≡ with_item self.old e parcel }
        ensures room { self.new.room ≡ self.old.room }
    {
        note(&mut self.spots, e, location_of(&parcel.real));
        self.items.put_reserved(e, parcel)
    }

    /// Gives the entity's real, which is not there from then on. The room stays, so that the real, changed, can be put again.
    pub fn take(&mut self, e: u32) -> Option<Parcel>
        ensures item { result ≡ map.get self.old.items e }
        ensures after { self.new ≡ without_item self.old e }
        ensures room { IfSome result (λ _. set.contains self.new.room e ≡ true) }
    {
        let_out(&mut self.spots, e);
        self.items.take(e)
    }

    /// Gives the entity's real, which is not there from then on, and gives back the room.
    pub fn remove(&mut self, e: u32) -> Option<Parcel>
        ensures item { result ≡ map.get self.old.items e }
        ensures after { self.new ≡ without_room self.old e }
    {
        forget(&mut self.spots, e);
        self.items.remove(e)
    }

    /// Begins a round, in which no real has done anything yet.
    pub fn start_round(&mut self)
        ensures { self.new ≡ with_each real_begins self.old }
    {
        self.items.change_each(begin);
    }

    /// The entities whose reals are there, in rising number.
    pub fn entities(&self, alloc: Global) -> Result<Vec<u32>, AllocError>
        ensures { IfOk result (λ v. v.items ≡ map.keys self.now.items) }
    {
        self.items.numbers(alloc)
    }

    /// Where the reals are, in rising number.
    pub fn locations(&self, alloc: Global) -> Result<Vec<(u32, Location)>, AllocError>
        ensures { IfOk result (λ v. v.items ≡ located_reals self.now.items) }
    {
        locations_of(alloc, &self.items)
    }

    /// It is asked where the reals are. Once it was asked several times this is kept, where there is memory for that, and as long as
    /// they do not change much more often than it is asked. This is for speed alone, and no contract sees it.
    pub fn locate(&mut self, alloc: Global)
        ensures { self.new ≡ self.old }
    {
        if self.spots.ask() {
            if let Ok(spots) = spots_of(alloc, &self.items) {
                self.spots = spots;
            }
        }
    }

    /// Where the reals of other entities are, and at which public version; or none, as no contract says whether it is kept.
    pub fn spots_beside(&self, e: u32) -> Option<&RangeList>
        ensures { IfSome result (λ l. AreNoted l.now (Some e) (real_locations self.now.items)) }
    {
        beside(&self.spots, e)
    }
}
