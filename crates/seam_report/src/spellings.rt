// The texts of copies that many clients are shown.
ghost use Rattle.std.specs.Prelude.{◌≡◌, ◌<◌, ◌≤◌, ◌^◌, ◌++◌, [], ◌∷◌, length, drop, OnOk, IfOk, IfSome};
ghost use Rattle.seam_report.specs.Spelled.{Versions, copy_text, enter_text, IsSpelling, IsOf, GoesBy};

use crate::told::push_copy;
use crate::values::push_field;
use indexmap::IndexMap;
use seam_call::GhostCopy;
use seam_defs::Defs;
use seam_table::HashKey;
use std::alloc::{AllocError, Global};
use std::marker::Model;

// A copy with its version, and the end of a line by which it enters: from `start` on that of one by which it is set.
#[derive(Drop)]
struct Spelling<'a> {
    version: u64,
    copy: &'a GhostCopy,
    text: Vec<u8>,
    start: usize,
}

impl Spelling<'_> {
    // The copy's version and state, and the end of the line.
    fn state_text(&self) -> &[u8]
        requires { self.now.start ≤ length self.now.text.items }
        ensures { result.now ≡ drop self.now.start self.now.text.items }
    {
        &self.text[self.start..]
    }
}

/// The texts of the copies that clients were shown last, by entity: what many of them are shown of one state is spelled once.
///
/// A copy is told from another one of its entity by the version alone, so that no value is looked at again. Contracts see the types by
/// which copies are spelled, and those that were spelled; a text is right where no two copies that are asked for differ at one version.
#[derive(Drop)]
pub struct Spellings<'a> {
    defs: &'a Defs,
    copies: IndexMap<u32, Spelling<'a>, HashKey>,
    // The place after that of the copy that was asked for last: clients are shown entities in mostly the same order, so the one asked
    // for next is looked for there before it is searched.
    next: usize,
}

impl<'a> Model for Spellings<'a> {
    ghost use Rattle.std.specs.Prelude.{map};
    ghost use Rattle.seam_report.specs.Spelled.{SpellingsView, AreSpelled};

    ghost Value = { SpellingsView };

    ghost view = { λ s. record {
      defs = s.defs.now;
      kept = map (λ e. (e.0, e.1.copy.now)) s.copies.entries;
    } };

    ghost invariant = { λ s. AreSpelled s.defs.now s.copies.entries };
}

impl<'a> Spellings<'a> {
    /// No text yet.
    pub fn new(alloc: Global, defs: &'a Defs) -> Spellings<'a>
        ensures { result ≡ record { defs = defs.now; kept = [] } }
    {
        Spellings {
            defs,
            copies: IndexMap::with_hasher(alloc, defs.hash_key()),
            next: 0,
        }
    }

    /// The types by which copies are spelled.
    pub fn defs(&self) -> &'a Defs
        ensures { result.now ≡ self.now.defs }
    {
        self.defs
    }

    // The place of the text of an entity's copy.
    fn place_of(&self, entity: u32) -> Option<usize>
        ensures { IfSome result (λ i. i < 2 ^ 63) }
    {
        // `len` is called for its clause that places are small.
        let _ = self.copies.len();
        match self.copies.get_index(self.next) {
            Some((spelled, _)) if *spelled == entity => Some(self.next),
            _ => self.copies.get_index_of(&entity),
        }
    }

    // The place of the text of an entity's copy, past which the next one is looked for first.
    fn go_to(&mut self, entity: u32) -> Option<usize>
        ensures { self.new ≡ self.old }
    {
        let place = self.place_of(entity)?;
        self.next = place + 1;
        Some(place)
    }

    // What is kept at the place, if it is of the entity and the copy's version.
    fn kept_at(&self, place: Option<usize>, entity: u32, copy: &GhostCopy) -> Option<&Spelling<'a>>
        ensures text { (vs : Versions) → GoesBy vs self.now → IsOf vs entity copy.now →
            IfSome result (λ s. IsSpelling self.now.defs entity copy.now s.now) }
        ensures start { IfSome result (λ s. s.now.start ≤ length s.now.text.items) }
    {
        match self.copies.get_index(place?) {
            Some((spelled, spelling)) if *spelled == entity && spelling.version == copy.version => {
                Some(spelling)
            }
            _ => None,
        }
    }

    // Spells the copy of an entity.
    fn spell(
        &self,
        alloc: Global,
        entity: u32,
        copy: &'a GhostCopy,
    ) -> Result<Spelling<'a>, AllocError>
        ensures { IfOk result (λ s. IsSpelling self.now.defs entity copy.now s) }
    {
        let mut text = Vec::new(alloc);
        text.extend_from_slice(b" enter")?;
        push_field(&mut text, u64::from(entity))?;
        text.extend_from_slice(b" ")?;
        text.extend_from_slice(self.defs.type_at(copy.ty).name.bytes())?;
        let start = text.len();
        push_copy(&mut text, self.defs, copy)?;
        text.extend_from_slice(b"\n")?;
        Ok(Spelling {
            version: copy.version,
            copy,
            text,
            start,
        })
    }

    // Keeps what was spelled of the copy of an entity, for others.
    fn keep(&mut self, entity: u32, spelling: Spelling<'a>) -> Result<(), AllocError>
        requires { IsSpelling self.old.defs entity spelling.copy.now spelling }
        ensures kept { (vs : Versions) → GoesBy vs self.old →
            IsOf vs entity spelling.entry.copy.now → OnOk result (GoesBy vs self.new) }
        ensures defs { self.new.defs ≡ self.old.defs }
    {
        match self.copies.insert(entity, spelling) {
            Ok(_) => {}
            Err(_) => return Err(AllocError),
        }
        self.next = self.copies.len();
        Ok(())
    }

    /// Appends the end of a line by which an entity enters, of which there is this copy.
    pub(crate) fn push_enter(
        &mut self,
        out: &mut Vec<u8>,
        entity: u32,
        copy: &'a GhostCopy,
    ) -> Result<(), AllocError>
        ensures text { let defs = self.old.defs in (vs : Versions) → GoesBy vs self.old →
            IsOf vs entity copy.now →
            OnOk result (out.new.items ≡ out.old.items
            ++ (enter_text defs entity copy.now ++ copy_text defs copy.now ++ 10 ∷ [])) }
        ensures kept { (vs : Versions) → GoesBy vs self.old → IsOf vs entity copy.now →
            OnOk result (GoesBy vs self.new) }
        ensures defs { self.new.defs ≡ self.old.defs }
    {
        let place = self.go_to(entity);
        if let Some(spelling) = self.kept_at(place, entity, copy) {
            return out.extend_from_slice(&spelling.text);
        }
        let spelling = self.spell(*out.allocator(), entity, copy)?;
        out.extend_from_slice(&spelling.text)?;
        self.keep(entity, spelling)
    }

    /// Appends the end of a line by which an entity is set: the version of its copy, and its state.
    pub(crate) fn push(
        &mut self,
        out: &mut Vec<u8>,
        entity: u32,
        copy: &'a GhostCopy,
    ) -> Result<(), AllocError>
        ensures text { (vs : Versions) → GoesBy vs self.old → IsOf vs entity copy.now →
            OnOk result (out.new.items ≡ out.old.items ++ (copy_text self.old.defs copy.now ++ 10 ∷
            [])) }
        ensures kept { (vs : Versions) → GoesBy vs self.old → IsOf vs entity copy.now →
            OnOk result (GoesBy vs self.new) }
        ensures defs { self.new.defs ≡ self.old.defs }
    {
        let place = self.go_to(entity);
        if let Some(spelling) = self.kept_at(place, entity, copy) {
            return out.extend_from_slice(spelling.state_text());
        }
        let spelling = self.spell(*out.allocator(), entity, copy)?;
        out.extend_from_slice(spelling.state_text())?;
        self.keep(entity, spelling)
    }
}
