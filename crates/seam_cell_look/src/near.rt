//! What a cell knows of others that are near, by the lists of locations that are kept beside its reals and copies.

ghost use Rattle.std.specs.Prelude.{◌≡◌, ◌<◌, ◌+◌, ◌++◌, [], ◌∷◌, length, map, filter, not, IfOk, OnOk, IfSome, IfNone, option_map};
ghost use Rattle.std.specs.Prelude.{if◌then◌else◌};
ghost use Rattle.std.specs.List.Sorted.{IsStrictlySortedBy};
ghost use Rattle.std.specs.List.{list_any};
ghost use Rattle.std.specs.Ordering.{nat_cmp};
ghost use Rattle.seam_view.specs.declared.Look.TheVariants.{Leave};
ghost use Rattle.seam_view.specs.Replica.{IsView, seen_of};
ghost use Rattle.seam_node_steps.specs.Prelude.{seen_as, CellView, known_to, known_at};
ghost use Rattle.seam_cell_parts.specs.Kept.{here_in};
ghost use Rattle.seam_cell_look.specs.Looking.{seeing};
ghost use Rattle.seam_cell_look.specs.Near.{is_near, HasNear, was_newer, is_early, seen_of_entity, AreNear};
ghost use Rattle.seam_range.specs.Locations.{is_within};
ghost use Rattle.seam_cell_parts.specs.Spots.{real_locations, copy_locations};

use crate::looking::{Sight, seen_copy, seen_real};
use seam_cell_seen::joined;
use seam_geo::{Pos, dist};
use seam_range::Location;
use seam_view::{Look, Seen, View};
use std::alloc::{AllocError, Global};

// Those at distance at most d from the position.
fn those_within(mut locations: Vec<(u32, Location)>, p: Pos, d: u32) -> Vec<(u32, Location)>
    ensures { result.items ≡ filter (λ e. is_within p d e.1) locations.items }
{
    locations.retain(|(_, location)| dist(p, location.pos) <= d);
    locations
}

// Whether a greater version was shown than is known.
fn was_newer(shown: Option<u64>, seen: Option<Seen>) -> bool
    ensures { result ≡ was_newer shown seen }
{
    match (shown, seen) {
        (Some(shown), Some(seen)) => seen.version < shown,
        _ => false,
    }
}

// Adds the look, if it is to be kept.
fn keep(left: &mut Vec<Look>, look: Look, is_kept: bool) -> Result<(), AllocError>
    ensures { OnOk result (left.new.items ≡ left.old.items ++ (if is_kept then look ∷ [] else [])) }
{
    if !is_kept {
        return Ok(());
    }
    match left.push(look) {
        Ok(()) => Ok(()),
        Err(_) => Err(AllocError),
    }
}

impl Sight<'_> {
    /// All that is known of others, in rising number.
    pub fn others(&self) -> Result<Vec<Seen>, AllocError>
        ensures { (c : CellView) →
            let d = seeing c (here_in self.now.known.now) self.now.reals.now.items
            self.now.copies.now.ghosts in
            IfOk result (λ v. v.items ≡ map seen_as (known_to d self.now.own)) }
    {
        let reals = self.reals.locations(self.alloc)?;
        let copies = self.copies.locations(self.alloc)?;
        let seen = joined(self.alloc, self.own, self.reals, &reals, copies)?;
        Ok(seen)
    }

    // The reals that are near, of which the own one is or is not one. Where no list is kept, all are looked at.
    fn near_reals(
        &self,
        own: Pos,
        reach: u32,
        expected: usize,
    ) -> Result<Vec<(u32, Location)>, AllocError>
        ensures { IfOk result (λ v. AreNear own reach self.now.own
            (real_locations self.now.reals.now.items) v.items) }
    {
        let Some(list) = self.reals.spots_beside(self.own) else {
            let all = self.reals.locations(self.alloc)?;
            return Ok(those_within(all, own, reach));
        };
        let near = list.within(own, reach, expected)?;
        Ok(near)
    }

    // The copies that are near, found in the same way.
    fn near_copies(
        &self,
        own: Pos,
        reach: u32,
        expected: usize,
    ) -> Result<Vec<(u32, Location)>, AllocError>
        ensures { IfOk result (λ v. AreNear own reach self.now.own
            (copy_locations self.now.copies.now.ghosts) v.items) }
    {
        let Some(list) = self.copies.spots_beside(self.own) else {
            let all = self.copies.locations(self.alloc)?;
            return Ok(those_within(all, own, reach));
        };
        let near = list.within(own, reach, expected)?;
        Ok(near)
    }

    // What is near; none where no number holds how far that is.
    fn near(&self, own: Pos, view: &View) -> Result<Option<Vec<Seen>>, AllocError>
        ensures { (c : CellView) →
            let d = seeing c (here_in self.now.known.now) self.now.reals.now.items
            self.now.copies.now.ghosts in
            IfOk result (λ o. IfSome o (λ v. v.items
            ≡ filter (is_near view.now.core own) (map seen_as (known_to d self.now.own)))) }
    {
        let Some(reach) = view.reach() else {
            return Ok(None);
        };
        // About as many as were near at the last look, of reals and copies alike.
        let expected = view.len() / 2;
        let near_reals = self.near_reals(own, reach, expected)?;
        let near_copies = self.near_copies(own, reach, expected)?;
        let seen = joined(self.alloc, self.own, self.reals, &near_reals, near_copies)?;
        Ok(Some(seen))
    }

    /// What is known of others, in rising number, as far as it is near the position; it may be more.
    pub fn seen(&self, own: Pos, view: &View) -> Result<Vec<Seen>, AllocError>
        ensures rising { IfOk result (λ v. IsStrictlySortedBy nat_cmp
            (map (λ s. s.entity) v.items)) }
        ensures near { (c : CellView) →
            let d = seeing c (here_in self.now.known.now) self.now.reals.now.items
            self.now.copies.now.ghosts in
            IfOk result (λ v. HasNear view.now.core own (map seen_as (known_to d self.now.own))
            v.items) }
    {
        let found = self.near(own, view)?;
        let Some(seen) = found else {
            let all = self.others()?;
            return Ok(all);
        };
        Ok(seen)
    }

    // The entity as it is seen, by its real or, where that is not here, by its copy.
    fn known_at(&self, e: u32) -> Option<Seen>
        ensures { (c : CellView) →
            let d = seeing c (here_in self.now.known.now) self.now.reals.now.items
            self.now.copies.now.ghosts in
            result ≡ option_map (seen_of_entity e) (known_at d e) }
    {
        if let Some(parcel) = self.reals.get(e) {
            return Some(seen_real(e, &parcel.real));
        }
        match self.copies.get(e) {
            Some(copy) => Some(seen_copy(e, copy)),
            None => None,
        }
    }

    // The entity as it is seen, if it is another one.
    fn seen_of(&self, e: u32) -> Option<Seen>
        ensures { (c : CellView) →
            let d = seeing c (here_in self.now.known.now) self.now.reals.now.items
            self.now.copies.now.ghosts in
            result ≡ seen_of e (map seen_as (known_to d self.now.own)) }
    {
        if e == self.own {
            return None;
        }
        self.known_at(e)
    }

    // Whether an entity that leaves is known after all, and was shown at a greater version.
    fn leaves_early(&self, view: &View, e: u32) -> bool
        ensures { (c : CellView) →
            let d = seeing c (here_in self.now.known.now) self.now.reals.now.items
            self.now.copies.now.ghosts in
            result ≡ is_early view.now.core (map seen_as (known_to d self.now.own)) (Leave e) }
    {
        was_newer(view.shown(e), self.seen_of(e))
    }

    // Whether the look is such a leave.
    #[inline(always)]
    fn is_early(&self, view: &View, look: &Look) -> bool
        ensures { (c : CellView) →
            let d = seeing c (here_in self.now.known.now) self.now.reals.now.items
            self.now.copies.now.ghosts in
            result ≡ is_early view.now.core (map seen_as (known_to d self.now.own)) look.now }
    {
        let Look::Leave(e) = look else {
            return false;
        };
        self.leaves_early(view, *e)
    }

    // Whether any of the looks is an early leave.
    fn has_early(&self, view: &View, looks: &[Look]) -> bool
        ensures { (c : CellView) →
            let d = seeing c (here_in self.now.known.now) self.now.reals.now.items
            self.now.copies.now.ghosts in
            result ≡ list_any (is_early view.now.core (map seen_as (known_to d self.now.own)))
            looks.now }
    {
        for look in looks {
            if self.is_early(view, look) {
                return true;
            }
        }
        false
    }

    // The looks that are no early leaves, in a list of their own.
    fn without_early(&self, view: &View, looks: &[Look]) -> Result<Vec<Look>, AllocError>
        ensures { (c : CellView) →
            let d = seeing c (here_in self.now.known.now) self.now.reals.now.items
            self.now.copies.now.ghosts in
            IfOk result (λ v. v.items
            ≡ filter (λ look. not
            (is_early view.now.core (map seen_as (known_to d self.now.own)) look)) looks.now) }
    {
        let mut left = Vec::new(self.alloc);
        for look in looks {
            keep(&mut left, *look, !self.is_early(view, look))?;
        }
        Ok(left)
    }

    /// The looks without early leaves. A plan by what is near alone lets all leave that are not near; those stay that are known, and
    /// were shown at a greater version. Mostly none is early, and the looks are given back as they came.
    pub fn in_time(&self, view: &View, looks: Vec<Look>) -> Result<Vec<Look>, AllocError>
        ensures looks { (c : CellView) →
            let d = seeing c (here_in self.now.known.now) self.now.reals.now.items
            self.now.copies.now.ghosts in
            IfOk result (λ v. v.items
            ≡ filter (λ look. not
            (is_early view.now.core (map seen_as (known_to d self.now.own)) look)) looks.items) }
        ensures view { IsView view.now.core }
    {
        // `len` is called for its clause that each version in view is the one last shown.
        let _ = view.len();
        if self.has_early(view, &looks) {
            return self.without_early(view, &looks);
        }
        Ok(looks)
    }
}
