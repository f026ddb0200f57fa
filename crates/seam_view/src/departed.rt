//! Entities that left a view, each with the version at which it did last.
#![tactic(auto)]

ghost use Rattle.std.specs.Prelude.{◌≡◌, ◌≤◌, ◌<◌, ◌+◌, ◌-◌, ◌++◌, ℕ, [], drop, length, slice_get, slice_index, take, nat_eq};
ghost use Rattle.std.specs.Prelude.{IfOk, IfErr, OnOk, None, Some, is_some, true, false, if◌then◌else◌};
ghost use Rattle.std.specs.Bool.{OnTrue, OnFalse};
ghost use Rattle.std.specs.List.{AllWithin, list_any, zip};
ghost use Rattle.std.specs.List.Sorted.{IsStrictlySortedBy};
ghost use Rattle.std.specs.Map.{keys_of, lookup};
ghost use Rattle.std.specs.Ordering.{nat_cmp};
ghost use Rattle.seam_view.specs.Replica.{placed};
ghost use Rattle.seam_view.specs.Departed.{pairs_of, IsSettled, AreApart, entities_in, versions_in, IsMerging};

use indexmap::IndexMap;
use seam_hash::HashKey;
use std::alloc::{AllocError, Global};
use std::marker::Model;

// When a look makes room, the latest are no more than so many, or no more than one in so many of the others.
const FEW: usize = 64;

const PART: usize = 32;

/// The entities that left, each with the version at which it did last, also those that are back in view.
///
/// The latest are in a map by hash, which takes some thirty bytes for each. Once they are many they are merged into the others, which lie
/// in rising number and take twelve: so few of these move for each one that leaves.
///
/// Contracts see all, and how many more can leave without memory.
#[derive(Drop)]
pub struct Departed {
    latest: IndexMap<u32, u64, HashKey>,
    settled: Settled,
}

// Entities in rising number, and their versions.
#[derive(Drop)]
struct Settled {
    entities: Vec<u32>,
    versions: Vec<u64>,
}

impl Model for Departed {
    ghost use Rattle.seam_view.specs.ByNumber.{KeptValue, kept_code};

    ghost Value = { KeptValue };

    ghost coded = { kept_code };

    ghost use Rattle.std.specs.Prelude.{◌++◌};
    ghost use Rattle.indexmap.specs.IndexMap.{spare};
    ghost use Rattle.seam_view.specs.Departed.{pairs_of, IsSettled, AreApart};

    ghost view = { λ v. record {
      entries = v.latest.entries ++ pairs_of v.settled;
      room = spare v.latest;
    } };

    ghost invariant = { λ v. IsSettled v.settled × AreApart v.latest.entries (pairs_of v.settled) };
}

impl Departed {
    pub fn new(alloc: Global, key: HashKey) -> Departed
        ensures { result.entries ≡ [] }
    {
        Departed {
            latest: IndexMap::with_hasher(alloc, key),
            settled: Settled {
                entities: Vec::new(alloc),
                versions: Vec::new(alloc),
            },
        }
    }

    // The pairs, which are in rising number.
    pub fn of_pairs(
        alloc: Global,
        key: HashKey,
        pairs: &[(u32, u64)],
    ) -> Result<Departed, AllocError>
        requires { IsStrictlySortedBy nat_cmp (keys_of pairs.now) }
        ensures { IfOk result (λ v. v.entries ≡ pairs.now) }
    {
        let settled = settled_of(alloc, pairs)?;
        Ok(Departed {
            latest: IndexMap::with_hasher(alloc, key),
            settled,
        })
    }

    pub fn is_empty(&self) -> bool
        ensures { result ≡ true → self.now.entries ≡ [] }
    {
        self.latest.is_empty() && self.settled.entities.is_empty()
    }

    pub fn get(&self, e: u32) -> Option<u64>
        ensures { result ≡ lookup (nat_eq e) self.now.entries }
    {
        match self.latest.get(&e) {
            Some(version) => Some(*version),
            None => self.settled.get(e),
        }
    }

    // The entity leaves at this version.
    pub fn put(&mut self, e: u32, version: u64)
        requires room { 0 < self.old.room }
        ensures put { (q : ℕ) → lookup (nat_eq q) self.new.entries
            ≡ if nat_eq e q then Some version else lookup (nat_eq q) self.old.entries }
        ensures room { self.old.room ≤ self.new.room + 1 }
    {
        if self.settled.set(e, version) {
            return;
        }
        let Ok(_) = self.latest.insert(e, version) else {
            unreachable!()
        };
    }

    // Makes room for so many more.
    pub fn reserve(&mut self, more: usize) -> Result<(), AllocError>
        ensures same { (q : ℕ) → lookup (nat_eq q) self.new.entries
            ≡ lookup (nat_eq q) self.old.entries }
        ensures room { OnOk result (more ≤ self.new.room) }
    {
        if self.latest.len() > FEW.max(self.settled.entities.len() / PART) {
            self.settle()?;
        }
        self.latest.reserve(more)
    }

    // Merges the latest into the others, and gives back what their map took.
    fn settle(&mut self) -> Result<(), AllocError>
        ensures same { (q : ℕ) → lookup (nat_eq q) self.new.entries
            ≡ lookup (nat_eq q) self.old.entries }
    {
        self.latest.sort_unstable_keys()?;
        let settled = merged(&self.latest, &self.settled)?;
        let latest = IndexMap::with_hasher(*self.latest.allocator(), *self.latest.hasher());
        self.settled = settled;
        self.latest = latest;
        Ok(())
    }
}

impl Settled {
    // The version of the entity, if it is there.
    fn get(&self, e: u32) -> Option<u64>
        requires { IsSettled self.now }
        ensures { result ≡ lookup (nat_eq e) (pairs_of self.now) }
    {
        match place_in(&self.entities, e) {
            Ok(place) => Some(self.versions[place]),
            Err(_) => None,
        }
    }

    // Sets the version of the entity, if it is there.
    fn set(&mut self, e: u32, version: u64) -> bool
        requires { IsSettled self.old }
        ensures settled { IsSettled self.new }
        ensures there { OnTrue result (is_some (lookup (nat_eq e) (pairs_of self.old)) ≡ true) }
        ensures set { OnTrue result (pairs_of self.new ≡ placed e version (pairs_of self.old)) }
        ensures none { OnFalse result (lookup (nat_eq e) (pairs_of self.old) ≡ None) }
        ensures same { OnFalse result (self.new ≡ self.old) }
    {
        match place_in(&self.entities, e) {
            Ok(place) => {
                self.versions[place] = version;
                true
            }
            Err(_) => false,
        }
    }
}

// Where the entity is among those in rising number, or else where it would be.
fn place_in(entities: &[u32], e: u32) -> Result<usize, usize>
    requires { IsStrictlySortedBy nat_cmp entities.now }
    ensures there { IfOk result (λ r. slice_get entities.now r ≡ Some e) }
    ensures absent { IfErr result (λ r. list_any (nat_eq e) entities.now ≡ false) }
    ensures bound { IfErr result (λ r. r ≤ length entities.now) }
    ensures below { IfErr result (λ r. AllWithin (λ x. x < e) entities.now 0 r) }
    ensures above { IfErr result (λ r. AllWithin (λ x. e < x) entities.now r
        (length entities.now)) }
{
    entities.binary_search(&e)
}

// The pairs, which are in rising number.
fn settled_of(alloc: Global, pairs: &[(u32, u64)]) -> Result<Settled, AllocError>
    requires { IsStrictlySortedBy nat_cmp (keys_of pairs.now) }
    ensures settled { IfOk result IsSettled }
    ensures pairs { IfOk result (λ s. pairs_of s ≡ pairs.now) }
{
    let mut made = Settled {
        entities: Vec::with_capacity(alloc, pairs.len())?,
        versions: Vec::with_capacity(alloc, pairs.len())?,
    };
    for (e, version) in pairs {
        made.entities.push(*e)?;
        made.versions.push(*version)?;
    }
    Ok(made)
}

// Those settled with the latest among them, while these are merged: those made, and then those of the settled ones from `next` on.
#[derive(Drop)]
struct Merging {
    made: Settled,
    next: usize,
}

impl Merging {
    // So many of those to come are made.
    fn pass(&mut self, all: &Settled, many: usize) -> Result<(), AllocError>
        requires many { length all.now.versions.items ≡ length all.now.entities.items }
        requires within { self.old.next + many ≤ length all.now.entities.items }
        ensures next { OnOk result (self.new.next ≡ self.old.next + many) }
        ensures entities { OnOk result (self.new.made.entities.items
            ≡ self.old.made.entities.items
            ++ take many (drop self.old.next all.now.entities.items)) }
        ensures versions { OnOk result (self.new.made.versions.items
            ≡ self.old.made.versions.items
            ++ take many (drop self.old.next all.now.versions.items)) }
    {
        let end = self.next + many;
        self.made
            .entities
            .extend_from_slice(&all.entities[self.next..end])?;
        self.made
            .versions
            .extend_from_slice(&all.versions[self.next..end])?;
        self.next = end;
        Ok(())
    }

    // An entity that comes after those made, and is none of those to come, is made in its turn.
    fn add(&mut self, all: &Settled, e: u32, version: u64) -> Result<(), AllocError>
        requires settled { IsSettled all.now }
        requires merging { IsMerging all.now self.old }
        requires last { 0 < length self.old.made.entities.items →
            slice_index self.old.made.entities.items
            (length self.old.made.entities.items - 1) < e }
        requires absent { list_any (nat_eq e) (entities_in all.now self.old) ≡ false }
        ensures merging { OnOk result (IsMerging all.now self.new) }
        ensures last { OnOk result (slice_index self.new.made.entities.items
            (length self.new.made.entities.items - 1) ≡ e) }
        ensures added { OnOk result ((q : ℕ) →
            lookup (nat_eq q) (zip (entities_in all.now self.new) (versions_in all.now self.new))
            ≡ if nat_eq e q then Some version
            else lookup (nat_eq q) (zip (entities_in all.now self.old)
            (versions_in all.now self.old))) }
    {
        let Err(many) = place_in(&all.entities[self.next..], e) else {
            unreachable!()
        };
        self.pass(all, many)?;
        self.made.entities.push(e)?;
        self.made.versions.push(version)?;
        Ok(())
    }
}

// Those settled with the latest among them, in no more memory than they need.
fn merged(latest: &IndexMap<u32, u64, HashKey>, settled: &Settled) -> Result<Settled, AllocError>
    requires settled { IsSettled settled.now }
    requires apart { AreApart latest.now.entries (pairs_of settled.now) }
    requires rising { IsStrictlySortedBy nat_cmp (keys_of latest.now.entries) }
    ensures settled { IfOk result IsSettled }
    ensures same { IfOk result (λ s. (q : ℕ) → lookup (nat_eq q) (pairs_of s)
        ≡ lookup (nat_eq q) (latest.now.entries ++ pairs_of settled.now)) }
{
    let alloc = *settled.entities.allocator();
    let many = settled.entities.len().saturating_add(latest.len());
    let mut merging = Merging {
        made: Settled {
            entities: Vec::with_capacity(alloc, many)?,
            versions: Vec::with_capacity(alloc, many)?,
        },
        next: 0,
    };
    merge_all(&mut merging, latest, settled)?;
    Ok(merging.made)
}

// Makes them all.
fn merge_all(
    merging: &mut Merging,
    latest: &IndexMap<u32, u64, HashKey>,
    settled: &Settled,
) -> Result<(), AllocError>
    requires settled { IsSettled settled.now }
    requires apart { AreApart latest.now.entries (pairs_of settled.now) }
    requires rising { IsStrictlySortedBy nat_cmp (keys_of latest.now.entries) }
    requires none_made { (merging.old.made.entities.items ≡ [])
        × (merging.old.made.versions.items ≡ []) × (merging.old.next ≡ 0) }
    ensures settled { OnOk result (IsSettled merging.new.made) }
    ensures same { OnOk result ((q : ℕ) → lookup (nat_eq q) (pairs_of merging.new.made)
        ≡ lookup (nat_eq q) (latest.now.entries ++ pairs_of settled.now)) }
{
    for i in 0..latest.len() {
        let Some((e, version)) = latest.get_index(i) else {
            unreachable!()
        };
        merging.add(settled, *e, *version)?;
    }
    merging.pass(settled, settled.entities.len() - merging.next)
}
