// One look of a client at the flat table.
ghost use Rattle.std.specs.Prelude.{◌≡◌, ◌++◌, [], IfOk, OnOk, Some, map, option_map, option_copied};
ghost use Rattle.std.specs.List.{cons_option, filter_map};
ghost use Rattle.seam_view.specs.ViewLooks.{is_far, has_changed};
ghost use Rattle.seam_view.specs.Plain.{is_gone, is_new};
ghost use Rattle.seam_rule_clients.specs.Looks.{seen, own_shown, look_at, one_look};
ghost use Rattle.seam_judge_looks.specs.Replicas.{client_of};
ghost use Rattle.seam_judge_looks.specs.LookParts.{leave_of, set_of, enter_of};

use crate::replica::{Replica, is_in_view};
use crate::rows::{Row, row_of, rows_but};
use seam_call::Shown;
use seam_geo::{Pos, dist};
use seam_judge_data::Copied;
use std::alloc::{AllocError, Global};

// Adds what there is.
fn push_some(lines: &mut Vec<Shown>, shown: Option<Shown>) -> Result<(), AllocError>
    ensures { OnOk result (lines.new.items ≡ lines.old.items ++ cons_option shown []) }
{
    if let Some(x) = shown {
        lines.push(x)?;
    }
    Ok(())
}

impl<'a> Replica<'a> {
    // Whether a place is farther than the view reaches.
    fn is_far(&self, own: Pos, pos: Pos) -> bool
        ensures { result ≡ is_far (client_of self.now).others own pos }
    {
        self.radius as u64 + (self.hysteresis as u64) < dist(own, pos) as u64
    }

    // Whether one that is in view is gone.
    fn is_gone(&self, own: Pos, row: Option<&Row>) -> bool
        ensures { result ≡ is_gone (client_of self.now).others own
            (option_map seen (option_copied row.entry)) }
    {
        match row {
            Some(row) => self.is_far(own, row.other.get().state.pos),
            None => true,
        }
    }

    // Whether one that is in view at a version stays, and has changed.
    fn has_changed(&self, own: Pos, version: u64, row: &Row) -> bool
        ensures { result ≡ has_changed (client_of self.now).others own version
            (Some (seen row.now)) }
    {
        !self.is_far(own, row.other.get().state.pos) && version < row.other.get().version
    }

    // Whether one of the table is not in view, and near.
    fn is_new(&self, own: Pos, entries: &[(u32, u64)], row: &Row) -> bool
        requires { entries.now ≡ (client_of self.now).others.entries }
        ensures { result ≡ is_new (client_of self.now).others own (seen row.now) }
    {
        !is_in_view(entries, row.entity) && dist(own, row.other.get().state.pos) <= self.radius
    }

    // An entity in view leaves, where it is gone.
    fn leave_of(&self, own: Pos, others: &[Row], entry: (u32, u64)) -> Option<Shown>
        ensures { result ≡ leave_of (client_of self.now) own others.now entry }
    {
        if self.is_gone(own, row_of(others, entry.0)) {
            Some(Shown::Leave(entry.0))
        } else {
            None
        }
    }

    // An entity in view at a version is set, where it stays and has changed.
    fn set_of(
        &self,
        own: Pos,
        others: &[Row],
        entry: (u32, u64),
    ) -> Result<Option<Shown>, AllocError>
        ensures { IfOk result (λ x. x ≡ set_of (client_of self.now) own others.now entry) }
    {
        match row_of(others, entry.0) {
            Some(row) if self.has_changed(own, entry.1, row) => {
                Ok(Some(Shown::Set(entry.0, row.other.copied()?)))
            }
            _ => Ok(None),
        }
    }

    // An entity of the table enters, where it is new.
    fn enter_of(
        &self,
        own: Pos,
        entries: &[(u32, u64)],
        others: &[Row],
        row: &Row,
    ) -> Result<Option<Shown>, AllocError>
        requires { entries.now ≡ (client_of self.now).others.entries }
        ensures { IfOk result (λ x. x ≡ enter_of (client_of self.now) own others.now row.now) }
    {
        if !self.is_new(own, entries, row) {
            return Ok(None);
        }
        match row_of(others, row.entity) {
            Some(found) => Ok(Some(Shown::Enter(row.entity, found.other.copied()?))),
            None => Ok(None),
        }
    }

    // Its own entity, where that is newer than it was shown.
    fn own_line(&self, alloc: Global, row: &Row) -> Result<Vec<Shown>, AllocError>
        ensures { IfOk result (λ xs. xs.items ≡ own_shown (client_of self.now) row.now) }
    {
        let mut lines = Vec::new(alloc);
        if self.is_newer(row.version) {
            lines.push(Shown::Own(row.version, row.own.copied()?))?;
        }
        Ok(lines)
    }

    // Those in view that are gone.
    fn leaves(
        &self,
        alloc: Global,
        own: Pos,
        entries: &[(u32, u64)],
        others: &[Row],
    ) -> Result<Vec<Shown>, AllocError>
        ensures { IfOk result (λ xs. xs.items ≡ filter_map (leave_of (client_of self.now) own
            others.now) entries.now) }
    {
        let mut lines = Vec::new(alloc);
        for entry in entries {
            push_some(&mut lines, self.leave_of(own, others, *entry))?;
        }
        Ok(lines)
    }

    // Those in view that stay and have changed.
    fn sets(
        &self,
        alloc: Global,
        own: Pos,
        entries: &[(u32, u64)],
        others: &[Row],
    ) -> Result<Vec<Shown>, AllocError>
        ensures { IfOk result (λ xs. xs.items ≡ filter_map (set_of (client_of self.now) own
            others.now) entries.now) }
    {
        let mut lines = Vec::new(alloc);
        for entry in entries {
            push_some(&mut lines, self.set_of(own, others, *entry)?)?;
        }
        Ok(lines)
    }

    // Those of the table that are new.
    fn enters(
        &self,
        alloc: Global,
        own: Pos,
        entries: &[(u32, u64)],
        others: &[Row],
    ) -> Result<Vec<Shown>, AllocError>
        requires { entries.now ≡ (client_of self.now).others.entries }
        ensures { IfOk result (λ xs. xs.items
            ≡ filter_map (enter_of (client_of self.now) own others.now) others.now) }
    {
        let mut lines = Vec::new(alloc);
        for row in others {
            push_some(&mut lines, self.enter_of(own, entries, others, row)?)?;
        }
        Ok(lines)
    }

    // One look of an entity at the others.
    fn look_at(&self, alloc: Global, row: &Row, others: &[Row]) -> Result<Vec<Shown>, AllocError>
        ensures { IfOk result (λ xs. xs.items ≡ look_at (client_of self.now) row.now others.now) }
    {
        let own = row.own.get().pos;
        let entries = self.entries(alloc)?;
        let mut lines = self.own_line(alloc, row)?;
        let mut leaves = self.leaves(alloc, own, &entries, others)?;
        let mut sets = self.sets(alloc, own, &entries, others)?;
        let mut enters = self.enters(alloc, own, &entries, others)?;
        lines.append(&mut leaves)?;
        lines.append(&mut sets)?;
        lines.append(&mut enters)?;
        Ok(lines)
    }

    /// One look of an entity's client at the table: nothing where the entity does not live.
    pub fn one_look(&self, alloc: Global, me: u32, rows: &[Row]) -> Result<Vec<Shown>, AllocError>
        ensures { IfOk result (λ xs. xs.items ≡ one_look (client_of self.now) me rows.now) }
    {
        let others = rows_but(alloc, me, rows)?;
        match row_of(rows, me) {
            Some(row) => self.look_at(alloc, row, &others),
            None => Ok(Vec::new(alloc)),
        }
    }
}
