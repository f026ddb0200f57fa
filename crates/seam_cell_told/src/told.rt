//! What witnesses were told of others, kept so that all who are told of one state share its values.

ghost use Rattle.std.specs.Prelude.{◌≡◌, ◌≢◌, ℕ, [], IfOk, OnOk, Option, Some, option_map};
ghost use Rattle.seam_call.specs.declared.shown.GhostCopy.{GhostCopy as AnyCopy};
ghost use Rattle.seam_cell_told.specs.Told.{told_of, AreAsKnownBut, AreStillAsKnown};

use indexmap::IndexMap;
use seam_call::GhostCopy;
use seam_table::{HashKey, Shared};
use std::alloc::{AllocError, Global};
use std::marker::Model;

/// The copies that witnesses of a cell were told, by entity, since what is known of entities changed last.
#[derive(Drop)]
pub struct ToldCopies {
    copies: IndexMap<u32, Shared<GhostCopy>, HashKey>,
    // The place after that of the copy that was asked for last: witnesses are told of entities in mostly the same order, so the entity
    // asked for next is looked for there before it is searched.
    next: usize,
}

impl Model for ToldCopies {
    ghost use Rattle.seam_cell_told.specs.Told.{Told};

    ghost Value = { Told };

    ghost view = { λ t. t.copies.entries };
}

impl ToldCopies {
    /// No copy. They are found by a hash with this key.
    pub fn new(alloc: Global, key: HashKey) -> ToldCopies
        ensures { result ≡ [] }
    {
        ToldCopies {
            copies: IndexMap::with_hasher(alloc, key),
            next: 0,
        }
    }

    /// Forgets the copies, before what is known of entities changes.
    // Each message to a cell asks for it, and mostly there is none.
    #[inline(always)]
    pub fn clear(&mut self)
        ensures { self.new ≡ [] }
    {
        if !self.copies.is_empty() {
            self.copies.clear();
        }
    }

    /// The copy that was told of the entity, if one was.
    pub fn copy_of(&mut self, e: u32) -> Result<Option<Shared<GhostCopy>>, AllocError>
        ensures same { self.new ≡ self.old }
        ensures copy { IfOk result (λ o. o ≡ told_of e self.old) }
    {
        let Some((place, told)) = self.told(e) else {
            return Ok(None);
        };
        let copy = told.share()?;
        // A place of the map is below the greatest number, so that nothing wraps.
        self.next = place.wrapping_add(1);
        Ok(Some(copy))
    }

    // The copy that was told of the entity, if one was, and its place.
    fn told(&self, e: u32) -> Option<(usize, &Shared<GhostCopy>)>
        ensures { option_map (λ p. p.1.now) result ≡ told_of e self.now }
    {
        if let Some((entity, copy)) = self.copies.get_index(self.next) {
            if *entity == e {
                return Some((self.next, copy));
            }
        }
        match self.copies.get_full(&e) {
            Some((place, _, copy)) => Some((place, copy)),
            None => None,
        }
    }

    /// Keeps the copy that is told of the entity.
    pub fn keep(&mut self, e: u32, copy: &Shared<GhostCopy>) -> Result<(), AllocError>
        ensures kept { OnOk result (told_of e self.new ≡ Some copy.now) }
        ensures told { (own : ℕ) (known : ℕ → Option AnyCopy) → e ≢ own → known e ≡ Some copy.now →
            AreAsKnownBut own known self.old → AreStillAsKnown own known self.old self.new }
    {
        let kept = copy.share()?;
        match self.copies.insert(e, kept) {
            Ok(_) => {}
            Err(_) => return Err(AllocError),
        }
        self.next = self.copies.len();
        Ok(())
    }
}
