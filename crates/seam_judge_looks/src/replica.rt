// What a client shows, by what it was shown.
ghost use Rattle.std.specs.Prelude.{◌≡◌, ◌++◌, ◌∷◌, [], IfOk, IfSome, OnOk, None, map, nat_eq};
ghost use Rattle.std.specs.List.{list_any};
ghost use Rattle.std.specs.FinMap as table;
ghost use Rattle.seam_view.specs.Replica.{placed, without};
ghost use Rattle.seam_rule_clients.specs.Clients.{new_client, after_lines, shown_by_lines};
ghost use Rattle.seam_judge_looks.specs.Replicas.{client_of, last_own, own_after, version_after, entries_after, IsIndexOf, IsNotAmong};

use seam_call::{ClientText, Line, Shown};
use seam_defs::Settings;
use seam_geo::Pos;
use std::alloc::{AllocError, Global};

/// A client: the two distances of its view, and what it was shown of cell parts, in that order.
#[derive(Drop)]
pub struct Replica<'a> {
    pub radius: u32,
    pub hysteresis: u32,
    pub shown: Vec<&'a Shown>,
}

// Adds what a line shows of cell parts.
fn add_shown<'a>(shown: &mut Vec<&'a Shown>, line: &'a Line) -> Result<(), AllocError>
    ensures { OnOk result (map (λ x. x.now) shown.new.items ≡ map (λ x. x.now) shown.old.items
        ++ shown_by_lines (line.now ∷ [])) }
{
    match &line.text {
        ClientText::Shown(x) => shown.push(x)?,
        ClientText::Base(..) => {}
    }
    Ok(())
}

/// What lines show of cell parts, in their order.
pub fn shown_in<'a>(alloc: Global, lines: &[&'a Line]) -> Result<Vec<&'a Shown>, AllocError>
    ensures { IfOk result (λ xs. map (λ x. x.now) xs.items
        ≡ shown_by_lines (map (λ l. l.now) lines.now)) }
{
    let mut shown = Vec::new(alloc);
    for line in lines {
        add_shown(&mut shown, line)?;
    }
    Ok(shown)
}

fn own_after(own: Option<(u64, Pos)>, x: &Shown) -> Option<(u64, Pos)>
    ensures { result ≡ own_after own x.now }
{
    match x {
        Shown::Own(version, state) => Some((*version, state.get().pos)),
        Shown::Enter(..) | Shown::Set(..) | Shown::Leave(_) => own,
    }
}

fn version_after(entity: u32, version: Option<u64>, x: &Shown) -> Option<u64>
    ensures { result ≡ version_after entity version x.now }
{
    match x {
        Shown::Enter(e, copy) | Shown::Set(e, copy) if entity == *e => { Some(copy.get().version) },
        _ => version,
    }
}

// Where an entity is among those in view.
fn place_of(entries: &[(u32, u64)], entity: u32) -> Option<usize>
    ensures some { IfSome result (λ i. IsIndexOf entity entries.now i) }
    ensures none { result ≡ None → IsNotAmong entity entries.now }
{
    for i in 0..entries.len() {
        if entries[i].0 == entity {
            return Some(i);
        }
    }
    None
}

// Keeps the place of an entity in view, or puts it last where it was not.
fn place(entries: &mut Vec<(u32, u64)>, entity: u32, version: u64) -> Result<(), AllocError>
    ensures { OnOk result (entries.new.items ≡ placed entity version entries.old.items) }
{
    match place_of(entries, entity) {
        Some(i) => entries[i] = (entity, version),
        None => entries.push((entity, version))?,
    }
    Ok(())
}

// Takes an entity out of the view.
fn remove(entries: &mut Vec<(u32, u64)>, entity: u32)
    ensures { entries.new.items ≡ without entity entries.old.items }
{
    match place_of(entries, entity) {
        Some(i) => {
            let _ = entries.remove(i);
        }
        None => {}
    }
}

// Keeps what is in view after one thing more was shown.
fn keep(entries: &mut Vec<(u32, u64)>, x: &Shown) -> Result<(), AllocError>
    ensures { OnOk result (entries.new.items ≡ entries_after entries.old.items x.now) }
{
    match x {
        Shown::Own(..) => Ok(()),
        Shown::Enter(e, copy) | Shown::Set(e, copy) => place(entries, *e, copy.get().version),
        Shown::Leave(e) => {
            remove(entries, *e);
            Ok(())
        }
    }
}

/// Whether an entity is among those in view.
pub(crate) fn is_in_view(entries: &[(u32, u64)], entity: u32) -> bool
    ensures { result ≡ list_any (λ p. nat_eq entity p.0) entries.now }
{
    entries.iter().any(|entry| entry.0 == entity)
}

impl<'a> Replica<'a> {
    /// The client that was shown these lines.
    pub fn after(
        alloc: Global,
        settings: &Settings,
        lines: &[&'a Line],
    ) -> Result<Replica<'a>, AllocError>
        ensures { IfOk result (λ c. client_of c ≡ after_lines (new_client settings.now)
            (map (λ l. l.now) lines.now)) }
    {
        Ok(Replica {
            radius: settings.view_radius,
            hysteresis: settings.view_hysteresis,
            shown: shown_in(alloc, lines)?,
        })
    }

    /// The version and the place at which it was last shown its own entity.
    pub fn last_own(&self) -> Option<(u64, Pos)>
        ensures { result ≡ last_own (client_of self.now) }
    {
        let mut own = None;
        for x in &self.shown {
            own = own_after(own, x);
        }
        own
    }

    /// The version at which it was last shown an entity.
    pub fn version_shown(&self, entity: u32) -> Option<u64>
        ensures { result ≡ table.get (client_of self.now).others.shown entity }
    {
        let mut version = None;
        for x in &self.shown {
            version = version_after(entity, version, x);
        }
        version
    }

    /// The entities in view, in enter order, each with the version last shown.
    pub fn entries(&self, alloc: Global) -> Result<Vec<(u32, u64)>, AllocError>
        ensures { IfOk result (λ es. es.items ≡ (client_of self.now).others.entries) }
    {
        let mut entries = Vec::new(alloc);
        for x in &self.shown {
            keep(&mut entries, x)?;
        }
        Ok(entries)
    }
}
