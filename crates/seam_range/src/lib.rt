// SPDX-License-Identifier: MIT

//! Entities by their positions, for queries of those that are near. Each has its version beside the position, which a query gives too.
//!
//! Each entity has a spot in a slab, and each row of z in each strip of x a bucket with the keys of its spots. A query reads, of each strip
//! that it meets, the buckets of its z alone, also where all stand on one x; what it found is sorted once. Where there are no more entities
//! than strips, or many are near, it looks at each entity, in rising number. A move within a bucket writes one spot; another moves one key.
#![tactic(auto)]

ghost use Rattle.std.specs.Prelude.{◌≡◌, ◌≤◌, ◌<◌, ℕ, ◌+◌, ◌++◌, ◌∷◌, [], length, true, is_some, Some, None, IfOk, IfSome, OnOk, OnErr};
ghost use Rattle.std.specs.BTreeMap.{IsOrdered};
ghost use Rattle.std.specs.FinMap as map;
ghost use Rattle.slab.specs.Slab.{ContainsKey, Updates};
ghost use Rattle.seam_range.specs.Locations.{is_within, within};
ghost use Rattle.seam_range.specs.Indexed.{by_bucket, bucket_of, same_bucket, keys_in, IsBucketSet, IsSwapped, IsTaken, AreLinked};
ghost use Rattle.seam_range.specs.Indexed.{HasSurplus, AreSameLocations, IsMoved};
ghost use Rattle.seam_range.specs.Found.{count_of, AreLocated, one_if, is_in_strip, first_strip, end_strip, hits, hits_of, run_of};

use seam_geo::{Pos, dist};
use slab::Slab;
use std::alloc::{AllocError, Global};
use std::collections::BTreeMap;
use std::marker::Model;

// The width of the strips of x in which the positions are ordered, and of the rows of z in each. An entity that moves within its row
// of a strip keeps its key.
const STRIP_WIDTH: u64 = 512;

const ROW_WIDTH: u64 = 512;

// Where one in so many is near, a walk over all in rising number is quicker than to sort those that are.
const MANY: usize = 4;

// There is room from the start for twice as many as are expected, and for so many more.
const SPARE: usize = 8;

/// Where an entity is, and its version there.
#[derive(Clone, Copy, Debug, PartialEq, Eq)]
pub struct Location {
    pub version: u64,
    pub pos: Pos,
}

// Where an entity is, and at which key its spot is. The location is in both, so that a walk over all entities reads no spot.
#[derive(Clone, Copy)]
struct Keyed {
    key: usize,
    location: Location,
}

// An entity at its location, and at which rank its key is in its bucket.
#[derive(Clone, Copy)]
struct Spot {
    entity: u32,
    location: Location,
    rank: usize,
}

// What is looked for: locations at distance at most `d` from `p`, as long as they are no more than `most`. There is room for so many
// from the start.
#[derive(Clone, Copy)]
struct Search {
    p: Pos,
    d: u32,
    most: usize,
    room: usize,
}

/// Entities with their locations. Contracts see the location of each entity that was put.
#[derive(Drop)]
pub struct RangeList {
    alloc: Global,
    locations: BTreeMap<u32, Keyed>,
    spots: Slab<Spot>,
    // The keys of the spots in each row of each strip, so that a query reads a few short lists.
    buckets: BTreeMap<(u64, u64), Vec<usize>>,
}

impl Model for RangeList {
    ghost use Rattle.std.specs.Coded.{coded_ℕ};
    ghost use Rattle.std.specs.FinMap as map;
    ghost use Rattle.seam_range.specs.Locations.{Locations, location_code};

    ghost Value = { Locations };

    ghost coded = { map.code coded_ℕ location_code };

    ghost use Rattle.seam_range.specs.Indexed.{locations_of, IsIndexed};

    ghost view = { λ r. locations_of r.locations.entries };

    ghost invariant = { λ r. IsIndexed r.locations r.spots r.buckets };
}

impl RangeList {
    /// A list of no entities.
    pub fn new(alloc: Global) -> Self
        ensures { result ≡ map.empty }
    {
        RangeList {
            alloc,
            locations: BTreeMap::new(alloc),
            spots: Slab::new(alloc),
            buckets: BTreeMap::new(alloc),
        }
    }

    /// Where the entity is, if it was put.
    pub fn get(&self, e: u32) -> Option<Location>
        ensures { result ≡ map.get self.now e }
    {
        match self.locations.get(&e) {
            Some(keyed) => Some(keyed.location),
            None => None,
        }
    }

    /// Puts the entity at the location, or moves it there.
    pub fn put(&mut self, e: u32, p: Location) -> Result<(), AllocError>
        ensures after { OnOk result (self.new ≡ map.insert self.old e p) }
        ensures err { OnErr result (self.new ≡ self.old) }
    {
        let Some(keyed) = self.locations.get_mut(&e) else {
            return self.put_new(e, p);
        };
        let key = keyed.key;
        move_spot(self.alloc, &mut self.spots, &mut self.buckets, key, p)?;
        *keyed = Keyed { key, location: p };
        Ok(())
    }

    // Puts the entity, which is not there, at the location.
    fn put_new(&mut self, e: u32, p: Location) -> Result<(), AllocError>
        requires { map.get self.old e ≡ None }
        ensures after { OnOk result (self.new ≡ map.insert self.old e p) }
        ensures err { OnErr result (self.new ≡ self.old) }
    {
        self.spots.reserve(1)?;
        let key = self.spots.vacant_key();
        let Ok(_) = self.locations.insert(e, Keyed { key, location: p }) else {
            return Err(AllocError);
        };
        match push_key(self.alloc, &mut self.buckets, bucket_of(p), key) {
            Ok(rank) => {
                self.spots.insert_reserved(Spot {
                    entity: e,
                    location: p,
                    rank,
                });
                Ok(())
            }
            Err(_) => {
                self.locations.remove(&e);
                Err(AllocError)
            }
        }
    }

    /// Takes the entity out, and answers whether it was there.
    pub fn remove(&mut self, e: u32) -> bool
        ensures was_there { result ≡ is_some (map.get self.old e) }
        ensures after { self.new ≡ map.remove self.old e }
    {
        let Some(keyed) = self.locations.remove(&e) else {
            return false;
        };
        let Some(spot) = self.spots.try_remove(keyed.key) else {
            unreachable!()
        };
        unlink(&mut self.spots, &mut self.buckets, spot);
        true
    }

    /// The entities at distance at most d from the position, in rising number, each with its location. How many are expected decides
    /// only how they are looked for.
    pub fn within(
        &self,
        p: Pos,
        d: u32,
        expected: usize,
    ) -> Result<Vec<(u32, Location)>, AllocError>
        ensures { IfOk result (λ v. v.items ≡ within self.now p d) }
    {
        let strips = strip_after(p, d) - strip_from(p, d);
        let most = self.locations.len() / MANY;
        if self.locations.len() as u64 <= strips || expected > most {
            return self.near_by_entity(p, d);
        }
        let room = most.min(2 * expected + SPARE);
        let search = Search { p, d, most, room };
        let Some(mut found) = self.near_by_strip(search)? else {
            return self.near_by_entity(p, d);
        };
        found.sort_unstable_by_key(|(e, _)| *e);
        Ok(found)
    }

    // The near entities, in rising number: all are looked at.
    fn near_by_entity(&self, p: Pos, d: u32) -> Result<Vec<(u32, Location)>, AllocError>
        ensures { IfOk result (λ v. v.items ≡ within self.now p d) }
    {
        let mut found = Vec::with_capacity(self.alloc, self.locations.len())?;
        for (e, keyed) in &self.locations {
            if is_near(keyed.location, p, d) {
                // Taken apart, a location goes through registers; as a whole it would be copied piece by piece through memory.
                let Location { version, pos } = keyed.location;
                found.push((*e, Location { version, pos }))?;
            }
        }
        Ok(found)
    }

    // The near entities, strip after strip; nothing where they are too many.
    fn near_by_strip(&self, search: Search) -> Result<Option<Vec<(u32, Location)>>, AllocError>
        ensures near { IfOk result (λ o. IfSome o (λ v. (q : ℕ) →
            count_of q v.items ≡ one_if (is_within search.p search.d) (map.get self.now q))) }
        ensures locations { IfOk result (λ o. IfSome o (λ v. AreLocated self.now v.items)) }
    {
        let mut found = Vec::with_capacity(self.alloc, search.room)?;
        for strip in strip_from(search.p, search.d)..strip_after(search.p, search.d) {
            if !self.push_near(strip, search, &mut found)? {
                return Ok(None);
            }
        }
        Ok(Some(found))
    }

    // Appends the near entities of the strip, unless there are too many with them; it answers whether it did.
    fn push_near(
        &self,
        strip: u64,
        search: Search,
        found: &mut Vec<(u32, Location)>,
    ) -> Result<bool, AllocError>
        requires { AreLocated self.now found.old.items }
        ensures near { IfOk result (λ whole. whole ≡ true → (q : ℕ) →
            count_of q found.new.items ≡ count_of q found.old.items +
            one_if (is_in_strip strip search.p search.d) (map.get self.now q)) }
        ensures locations { IfOk result (λ whole. whole ≡ true →
            AreLocated self.now found.new.items) }
    {
        push_run(&self.spots, &self.buckets, strip, search, found)
    }
}

// Appends the near entities of the buckets of the strip, unless there are too many with them; it answers whether it did.
fn push_run(
    spots: &Slab<Spot>,
    buckets: &BTreeMap<(u64, u64), Vec<usize>>,
    strip: u64,
    search: Search,
    found: &mut Vec<(u32, Location)>,
) -> Result<bool, AllocError>
    ensures near { IfOk result (λ whole. whole ≡ true →
        found.new.items ≡ found.old.items ++ hits_of search.p search.d spots.now
        (run_of strip search.p search.d buckets.now.entries)) }
    ensures ordered { IsOrdered by_bucket buckets.now }
{
    let low = u64::from(search.p.z.saturating_sub(search.d)) / ROW_WIDTH;
    let end = (u64::from(search.p.z) + u64::from(search.d)) / ROW_WIDTH + 1;
    for (_, keys) in buckets.range((strip, low)..(strip, end)) {
        if !push_bucket(spots, keys, search, found)? {
            return Ok(false);
        }
    }
    Ok(true)
}

// Appends the near entities of the bucket with these keys, unless there are too many with them; it answers whether it did.
// Not inlined, so that all that its loop needs is in registers.
#[inline(never)]
fn push_bucket(
    spots: &Slab<Spot>,
    keys: &[usize],
    search: Search,
    found: &mut Vec<(u32, Location)>,
) -> Result<bool, AllocError>
    ensures { IfOk result (λ whole. whole ≡ true → found.new.items ≡ found.old.items
        ++ hits search.p search.d spots.now keys.now) }
{
    for key in keys {
        let Some(spot) = spots.get(*key) else {
            continue;
        };
        if is_near(spot.location, search.p, search.d) {
            if found.len() >= search.most {
                return Ok(false);
            }
            let Location { version, pos } = spot.location;
            found.push((spot.entity, Location { version, pos }))?;
        }
    }
    Ok(true)
}

// The strip and the row of a location.
fn bucket_of(p: Location) -> (u64, u64)
    ensures { result ≡ bucket_of p }
{
    let strip = u64::from(p.pos.x) / STRIP_WIDTH;
    let row = u64::from(p.pos.z) / ROW_WIDTH;
    (strip, row)
}

// Appends the key to the bucket, and answers at which rank it is.
fn push_key(
    alloc: Global,
    buckets: &mut BTreeMap<(u64, u64), Vec<usize>>,
    bucket: (u64, u64),
    key: usize,
) -> Result<usize, AllocError>
    ensures rank { IfOk result (λ rank. rank ≡ length (keys_in buckets.old bucket)) }
    ensures after { OnOk result (IsBucketSet buckets.old buckets.new bucket
        (keys_in buckets.old bucket ++ key ∷ [])) }
    ensures err { OnErr result (IsBucketSet buckets.old buckets.new bucket
        (keys_in buckets.old bucket)) }
{
    if let Some(keys) = buckets.get_mut(&bucket) {
        let rank = keys.len();
        keys.push(key)?;
        return Ok(rank);
    }
    let mut keys = Vec::new(alloc);
    keys.push(key)?;
    match buckets.insert(bucket, keys) {
        Ok(_) => Ok(0),
        Err(_) => Err(AllocError),
    }
}

// Takes the key at the rank out of the keys. The last key takes its rank, and is answered.
fn swap_out(keys: &mut Vec<usize>, rank: usize) -> Option<usize>
    requires { rank < length keys.old.items }
    ensures { IsSwapped keys.old.items keys.new.items rank result }
{
    let Some(last) = keys.pop() else {
        unreachable!()
    };
    let kept = keys.len();
    if rank < kept {
        keys[rank] = last;
        return Some(last);
    }
    None
}

// Takes the key at the rank out of the bucket. The last key takes its rank, and is answered.
fn take_key(
    buckets: &mut BTreeMap<(u64, u64), Vec<usize>>,
    bucket: (u64, u64),
    rank: usize,
) -> Option<usize>
    requires { rank < length (keys_in buckets.old bucket) }
    ensures { IsTaken buckets.old buckets.new bucket rank result }
{
    let Some(keys) = buckets.get_mut(&bucket) else {
        unreachable!()
    };
    let moved = swap_out(keys, rank);
    if !keys.is_empty() {
        return moved;
    }
    buckets.remove(&bucket);
    moved
}

// Writes the spot at the key.
fn set_spot(spots: &mut Slab<Spot>, key: usize, spot: Spot)
    requires { ContainsKey spots.old key }
    ensures { Updates spots.old spots.new key (Some spot) }
{
    let Some(location) = spots.get_mut(key) else {
        unreachable!()
    };
    *location = spot;
}

// Takes the key of a spot that is there no more out of its bucket, and tells the spot that takes its rank.
fn unlink(spots: &mut Slab<Spot>, buckets: &mut BTreeMap<(u64, u64), Vec<usize>>, old: Spot)
    requires { HasSurplus spots.old buckets.old (bucket_of old.location) old.rank }
    ensures linked { AreLinked spots.new buckets.new }
    ensures locations { AreSameLocations spots.old spots.new }
{
    let Some(moved) = take_key(buckets, bucket_of(old.location), old.rank) else {
        return;
    };
    let Some(spot) = spots.get(moved).copied() else {
        unreachable!()
    };
    let told = Spot {
        entity: spot.entity,
        location: spot.location,
        rank: old.rank,
    };
    set_spot(spots, moved, told);
}

// Moves the spot at the key. Within its bucket the location alone is written.
fn move_spot(
    alloc: Global,
    spots: &mut Slab<Spot>,
    buckets: &mut BTreeMap<(u64, u64), Vec<usize>>,
    key: usize,
    p: Location,
) -> Result<(), AllocError>
    requires linked { AreLinked spots.old buckets.old }
    requires there { ContainsKey spots.old key }
    ensures linked { AreLinked spots.new buckets.new }
    ensures ok { OnOk result (IsMoved spots.old spots.new key p) }
    ensures err { OnErr result (AreSameLocations spots.old spots.new) }
{
    let Some(spot) = spots.get(key).copied() else {
        unreachable!()
    };
    let mut moved = Spot {
        entity: spot.entity,
        location: p,
        rank: spot.rank,
    };
    if are_in_one_bucket(spot.location, p) {
        set_spot(spots, key, moved);
        return Ok(());
    }
    moved.rank = push_key(alloc, buckets, bucket_of(p), key)?;
    set_spot(spots, key, moved);
    unlink(spots, buckets, spot);
    Ok(())
}

// Whether the locations lie in one row of one strip.
fn are_in_one_bucket(a: Location, b: Location) -> bool
    ensures { result ≡ same_bucket (bucket_of a) (bucket_of b) }
{
    u64::from(a.pos.x) / STRIP_WIDTH == u64::from(b.pos.x) / STRIP_WIDTH
        && u64::from(a.pos.z) / ROW_WIDTH == u64::from(b.pos.z) / ROW_WIDTH
}

// The first strip that has positions at distance at most d from p.
fn strip_from(p: Pos, d: u32) -> u64
    ensures { result ≡ first_strip p d }
{
    u64::from(p.x.saturating_sub(d)) / STRIP_WIDTH
}

// The strip after the last one that has positions at distance at most d from p.
fn strip_after(p: Pos, d: u32) -> u64
    ensures strip { result ≡ end_strip p d }
    ensures later { first_strip p d ≤ result }
{
    (u64::from(p.x) + u64::from(d)) / STRIP_WIDTH + 1
}

// Whether the location is at distance at most d from p.
fn is_near(location: Location, p: Pos, d: u32) -> bool
    ensures { result ≡ is_within p d location }
{
    dist(p, location.pos) <= d
}
