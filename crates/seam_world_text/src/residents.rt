//! Who lives, and who has a client, from round to round.

ghost use Rattle.std.specs.Prelude.{◌≡◌, ℕ, ◌∷◌, [], OnOk, IfOk};
ghost use Rattle.std.specs.BTreeMap.{values};
ghost use Rattle.seam_node_steps.specs.Prelude.{Division, AreLegal};
ghost use Rattle.seam_rule_rounds.specs.Prelude.{Header, Book, empty_book, with_round_ended, with_tree};
ghost use Rattle.seam_law_book.specs.Prelude.{IsOfLines, as_begun};
ghost use Rattle.seam_accept.specs.Batches.{batch_of};
ghost use Rattle.seam_world_text.specs.Residents.{AreResidents, ArePresent, IsByNumber, Adds, Joins, Removes};

use seam_call::{Batch, Create};
use std::alloc::{AllocError, Global};
use std::collections::BTreeMap;
use std::marker::Model;

/// An entity that is there: how it was made, and whether it has a client.
#[derive(Clone, Copy, Debug, PartialEq, Eq)]
pub struct Resident {
    pub made: Create,
    pub client: bool,
}

/// The entities that live, or those that are there in the open round, in rising number.
///
/// Contracts see the list of them.
#[derive(Drop)]
pub struct Residents {
    by_number: BTreeMap<u32, Resident>,
}

impl Model for Residents {
    ghost use Rattle.std.specs.Prelude.{List};
    ghost use Rattle.std.specs.BTreeMap.{values};
    ghost use Rattle.seam_world_text.specs.Residents.{IsByNumber};
    ghost use Rattle.seam_world_text.specs.declared.residents.Resident.{Resident};

    ghost Value = { List Resident };

    ghost view = { λ r. values r.by_number };

    ghost invariant = { λ r. IsByNumber r.by_number };
}

impl Residents {
    /// Nobody: those of a book without entries.
    pub fn new(alloc: Global) -> Residents
        ensures { (size : ℕ) → AreResidents (empty_book size) result }
    {
        Residents {
            by_number: BTreeMap::new(alloc),
        }
    }

    /// The open round begins with its batch: those who lived as it was begun, and those that it makes, are there, with their clients.
    ///
    /// If allocation fails, some of those that it makes may be missing.
    pub fn begin(&mut self, batch: &Batch) -> Result<(), AllocError>
        ensures { OnOk result ((h : Header) (b : Book) → AreLegal h.settings → IsOfLines h b →
            batch.now ≡ batch_of h b → AreResidents (as_begun b) self.old →
            ArePresent b self.new) }
    {
        seam_law_book::lines_bring_what_fits();
        seam_law_book::uncreated_numbers_are_untouched();
        add_all(&mut self.by_number, batch.creates.as_slice())?;
        join_all(&mut self.by_number, batch.clients.as_slice());
        Ok(())
    }

    /// The open round ends, in which these entities died: the others live.
    pub fn end(&mut self, destroys: &[u32])
        ensures { (h : Header) (b : Book) → destroys.now ≡ (batch_of h b).destroys →
            ArePresent b self.old → AreResidents (with_round_ended b) self.new }
    {
        remove_all(&mut self.by_number, destroys);
    }

    // Each of them, by its number.
    pub(crate) fn by_number(&self) -> &BTreeMap<u32, Resident>
        ensures list { values result.now ≡ self.now }
        ensures named { IsByNumber result.now }
    {
        &self.by_number
    }

    // The list of them.
    pub(crate) fn listed(&self, alloc: Global) -> Result<Vec<Resident>, AllocError>
        ensures { IfOk result (λ v. v.items ≡ self.now) }
    {
        list_of(alloc, &self.by_number)
    }
}

fn list_of(alloc: Global, residents: &BTreeMap<u32, Resident>) -> Result<Vec<Resident>, AllocError>
    ensures { IfOk result (λ v. v.items ≡ values residents.now) }
{
    let mut list = Vec::with_capacity(alloc, residents.len())?;
    for (_, resident) in residents {
        list.push(*resident)?;
    }
    Ok(list)
}

// Adds an entity, where nobody has its number.
fn add(residents: &mut BTreeMap<u32, Resident>, made: Create) -> Result<(), AllocError>
    requires { IsByNumber residents.old }
    ensures adds { OnOk result (Adds (made ∷ []) residents.old residents.new) }
    ensures named { IsByNumber residents.new }
{
    if residents.contains_key(&made.entity) {
        return Ok(());
    }
    let newcomer = Resident {
        made,
        client: false,
    };
    match residents.insert(made.entity, newcomer) {
        Ok(_) => Ok(()),
        Err(_) => Err(AllocError),
    }
}

fn add_all(residents: &mut BTreeMap<u32, Resident>, creates: &[Create]) -> Result<(), AllocError>
    requires { IsByNumber residents.old }
    ensures adds { OnOk result (Adds creates.now residents.old residents.new) }
    ensures named { IsByNumber residents.new }
{
    for create in creates {
        add(residents, *create)?;
    }
    Ok(())
}

// Gives the entity a client, if it is there.
fn join(residents: &mut BTreeMap<u32, Resident>, e: u32)
    requires { IsByNumber residents.old }
    ensures joins { Joins (e ∷ []) residents.old residents.new }
    ensures named { IsByNumber residents.new }
{
    if let Some(resident) = residents.get_mut(&e) {
        resident.client = true;
    }
}

fn join_all(residents: &mut BTreeMap<u32, Resident>, clients: &[u32])
    requires { IsByNumber residents.old }
    ensures joins { Joins clients.now residents.old residents.new }
    ensures named { IsByNumber residents.new }
{
    for e in clients {
        join(residents, *e);
    }
}

// Takes the entity away, if it is there.
fn remove(residents: &mut BTreeMap<u32, Resident>, e: u32)
    requires { IsByNumber residents.old }
    ensures removes { Removes (e ∷ []) residents.old residents.new }
    ensures named { IsByNumber residents.new }
{
    let _gone = residents.remove(&e);
}

fn remove_all(residents: &mut BTreeMap<u32, Resident>, destroys: &[u32])
    requires { IsByNumber residents.old }
    ensures removes { Removes destroys.now residents.old residents.new }
    ensures named { IsByNumber residents.new }
{
    for e in destroys {
        remove(residents, *e);
    }
}
