// What a client may be shown next.
ghost use Rattle.std.specs.Prelude.{◌≡◌, ◌↔◌, ◌<◌, ◌≤◌, ℕ, IsTrue, IfOk, OnOk, Some, map};
ghost use Rattle.std.specs.FinMap as table;
ghost use Rattle.seam_view.specs.ViewLooks.{in_view};
ghost use Rattle.seam_rule_rounds.specs.Prelude.{after_shown, is_newer, IsNear, MayEnter, MaySet, MayShow, MayShowAll};
ghost use Rattle.seam_judge_looks.specs.Replicas.{client_of};

use crate::replica::{Replica, is_in_view};
use seam_call::{GhostCopy, Shown};
use seam_geo::{Pos, dist};
use std::alloc::{AllocError, Global};

impl<'a> Replica<'a> {
    /// Whether a version of its own entity is newer than the one last shown.
    pub(crate) fn is_newer(&self, version: u64) -> bool
        ensures { result ≡ is_newer (client_of self.now).own version }
    {
        match self.last_own() {
            Some((last, _)) => last < version,
            None => true,
        }
    }

    // Whether a place is at most so far from that of the last own line.
    fn is_near(&self, reach: u64, pos: Pos) -> bool
        ensures { IsTrue result ↔ IsNear (client_of self.now).own reach pos }
    {
        match self.last_own() {
            Some((_, own)) => dist(own, pos) as u64 <= reach,
            None => false,
        }
    }

    // Whether an entity is not shown older than it was.
    fn is_not_older(&self, entity: u32, version: u64) -> bool
        ensures { IsTrue result ↔ ((v : ℕ) → table.get (client_of self.now).others.shown entity
            ≡ Some v → v ≤ version) }
    {
        match self.version_shown(entity) {
            Some(last) => last <= version,
            None => true,
        }
    }

    // Whether an entity is shown newer than it was.
    fn is_newer_copy(&self, entity: u32, version: u64) -> bool
        ensures { IsTrue result ↔ ((v : ℕ) × (table.get (client_of self.now).others.shown entity
            ≡ Some v) × (v < version)) }
    {
        match self.version_shown(entity) {
            Some(last) => last < version,
            None => false,
        }
    }

    // Whether an entity is in view.
    fn has_in_view(&self, alloc: Global, entity: u32) -> Result<bool, AllocError>
        ensures { IfOk result (λ r. r ≡ in_view (client_of self.now).others entity) }
    {
        let entries = self.entries(alloc)?;
        Ok(is_in_view(&entries, entity))
    }

    // Whether an entity may enter.
    fn may_enter(
        &self,
        alloc: Global,
        me: u32,
        entity: u32,
        copy: &GhostCopy,
    ) -> Result<bool, AllocError>
        ensures { IfOk result (λ r. IsTrue r ↔ MayEnter me (client_of self.now) entity copy.now) }
    {
        if entity == me {
            return Ok(false);
        }
        let is_in = self.has_in_view(alloc, entity)?;
        if is_in {
            return Ok(false);
        }
        if !self.is_not_older(entity, copy.version) {
            return Ok(false);
        }
        Ok(self.is_near(self.radius as u64, copy.state.pos))
    }

    // Whether an entity may be set.
    fn may_set(&self, alloc: Global, entity: u32, copy: &GhostCopy) -> Result<bool, AllocError>
        ensures { IfOk result (λ r. IsTrue r ↔ MaySet (client_of self.now) entity copy.now) }
    {
        let is_in = self.has_in_view(alloc, entity)?;
        if !is_in {
            return Ok(false);
        }
        if !self.is_newer_copy(entity, copy.version) {
            return Ok(false);
        }
        let reach = self.radius as u64 + self.hysteresis as u64;
        Ok(self.is_near(reach, copy.state.pos))
    }

    /// Whether the client of the entity `me` may be shown this next.
    pub fn may_show(&self, alloc: Global, me: u32, x: &Shown) -> Result<bool, AllocError>
        ensures { IfOk result (λ r. IsTrue r ↔ MayShow me (client_of self.now) x.now) }
    {
        match x {
            Shown::Own(version, _) => Ok(self.is_newer(*version)),
            Shown::Enter(entity, copy) => self.may_enter(alloc, me, *entity, copy.get()),
            Shown::Set(entity, copy) => self.may_set(alloc, *entity, copy.get()),
            Shown::Leave(entity) => self.has_in_view(alloc, *entity),
        }
    }

    // Shows it one thing more.
    fn show(&mut self, x: &'a Shown) -> Result<(), AllocError>
        ensures { OnOk result (client_of self.new ≡ after_shown (client_of self.old) x.now) }
    {
        self.shown.push(x)?;
        Ok(())
    }

    /// Shows the client of the entity `me` these, one after another, as long as it may be shown them: whether that was all of them.
    pub fn show_all(
        &mut self,
        alloc: Global,
        me: u32,
        shown: &[&'a Shown],
    ) -> Result<bool, AllocError>
        ensures { IfOk result (λ r. IsTrue r ↔ MayShowAll me (client_of self.old)
            (map (λ x. x.now) shown.now)) }
    {
        for x in shown {
            let may = self.may_show(alloc, me, x)?;
            if !may {
                return Ok(false);
            }
            self.show(x)?;
        }
        Ok(true)
    }
}
