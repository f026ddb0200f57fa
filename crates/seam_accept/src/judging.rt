// The judging of commands: the first cause that holds against one, or what it adds.
ghost use Rattle.std.specs.Prelude.{◌≡◌, ℕ, List, Some, IfOk, IfErr, OnOk, OnErr};
ghost use Rattle.seam_toml.specs.declared.header.Header.{Header as Headers};
ghost use Rattle.seam_rule_lines.specs.Language.{Client, Destroy};
ghost use Rattle.seam_rule_lines.specs.Book.{Book, tree_of};
ghost use Rattle.seam_rule_lines.specs.Judging.{HoldsAgainst, IsFirst};
ghost use Rattle.seam_accept.specs.Commands.{create_of, call_of, cut_of, shift_of};
ghost use Rattle.seam_accept.specs.Entities.{EntitiesRefine, ClientsRefine, IsIndexOf};
ghost use Rattle.seam_accept.specs.Judging.{Judged, Refuses};

use crate::answers::Refusal;
use crate::command::{CallWords, CreateWords, CutWords, ShiftWords};
use crate::deeds::deed_named;
use crate::entity::Entity;
use crate::naming::{axis_named, is_used, live_entity, sender_named, type_named};
use indexmap::IndexMap;
use seam_call::{Call, Create};
use seam_geo::Pos;
use seam_rule_lines::{Asked, Cause, Entry, Header, MOST_CLIENTS, MOST_ENTITIES};
use seam_table::HashKey;
use seam_tree::Tree;
use seam_value::{positive_number, whole_number};
use std::alloc::Global;
use std::collections::BTreeSet;

/// The entity that a `create` makes.
pub fn judge_create(
    header: &Header,
    entities: &IndexMap<u32, Entity, HashKey>,
    dead: &BTreeSet<u32>,
    words: &CreateWords,
) -> Result<Create, Cause>
    ensures judged { IfOk result (λ c. (b : Book) →
        EntitiesRefine b entities.now.entries dead.now.keys →
        Judged header.now b (create_of words.now) (Some (Entry.Created c))) }
    ensures refused { IfErr result (λ k. (b : Book) →
        EntitiesRefine b entities.now.entries dead.now.keys →
        IsFirst (HoldsAgainst header.now b (create_of words.now)) k) }
{
    let Some(entity) = positive_number(words.entity) else {
        return Err(Cause::BadNumber);
    };
    let Some(x) = whole_number(words.place.x) else {
        return Err(Cause::BadNumber);
    };
    let Some(z) = whole_number(words.place.z) else {
        return Err(Cause::BadNumber);
    };
    if is_used(entities, dead, entity) {
        return Err(Cause::Exists);
    }
    let Some(ty) = type_named(&header.defs, words.type_name) else {
        return Err(Cause::NoType);
    };
    let size = header.settings.size;
    if size <= x || size <= z {
        return Err(Cause::Outside);
    }
    if MOST_ENTITIES <= entities.len() + dead.len() {
        return Err(Cause::Full);
    }
    let pos = Pos { x, z };
    Ok(Create { entity, ty, pos })
}

/// The entity that a `client` gives a client, beside the live ones that have one.
pub fn judge_client(
    entities: &IndexMap<u32, Entity, HashKey>,
    clients: &BTreeSet<u32>,
    word: &[u8],
) -> Result<u32, Cause>
    ensures judged { IfOk result (λ e. (h : Headers) (b : Book) (dead : List ℕ) →
        EntitiesRefine b entities.now.entries dead → ClientsRefine b clients.now.keys →
        Judged h b (Client word.now) (Some (Entry.Joined e))) }
    ensures refused { IfErr result (λ k. (h : Headers) (b : Book) (dead : List ℕ) →
        EntitiesRefine b entities.now.entries dead → ClientsRefine b clients.now.keys →
        IsFirst (HoldsAgainst h b (Client word.now)) k) }
{
    let Some(entity) = positive_number(word) else {
        return Err(Cause::BadNumber);
    };
    if clients.contains(&entity) {
        return Err(Cause::Exists);
    }
    let Some(_) = live_entity(entities, entity) else {
        return Err(Cause::Dead);
    };
    if MOST_CLIENTS <= clients.len() {
        return Err(Cause::Full);
    }
    Ok(entity)
}

/// The entity that a `destroy` destroys.
pub fn judge_destroy(entities: &IndexMap<u32, Entity, HashKey>, word: &[u8]) -> Result<u32, Cause>
    ensures judged { IfOk result (λ e. (h : Headers) (b : Book) (dead : List ℕ) →
        EntitiesRefine b entities.now.entries dead → Judged h b (Destroy word.now)
        (Some (Entry.Destroyed e))) }
    ensures refused { IfErr result (λ k. (h : Headers) (b : Book) (dead : List ℕ) →
        EntitiesRefine b entities.now.entries dead →
        IsFirst (HoldsAgainst h b (Destroy word.now)) k) }
{
    let Some(entity) = positive_number(word) else {
        return Err(Cause::BadNumber);
    };
    match live_entity(entities, entity) {
        Some(_) => Ok(entity),
        None => Err(Cause::Dead),
    }
}

/// Cuts the tree as a `cut` asks.
pub fn make_cut(tree: &mut Tree, words: &CutWords) -> Result<(), Cause>
    ensures judged { OnOk result ((h : Headers) (b : Book) → tree.old ≡ tree_of b
        → Judged h b (cut_of words.now) (Some (Entry.Divided tree.new))) }
    ensures refused { IfErr result (λ k. (h : Headers) (b : Book) → tree.old ≡ tree_of b
        → IsFirst (HoldsAgainst h b (cut_of words.now)) k) }
    ensures unchanged { OnErr result (tree.new ≡ tree.old) }
{
    let Some(cell) = whole_number(words.cell) else {
        return Err(Cause::BadNumber);
    };
    let Some(axis) = axis_named(words.axis_name) else {
        return Err(Cause::BadNumber);
    };
    let Some(at) = whole_number(words.at) else {
        return Err(Cause::BadNumber);
    };
    match tree.cut(cell, axis, at) {
        Ok(_) => Ok(()),
        Err(error) => Err(Cause::CutRefused(error)),
    }
}

/// Moves the boundary of the tree that a `shift` asks for.
pub fn make_shift(tree: &mut Tree, words: &ShiftWords) -> Result<(), Cause>
    ensures judged { OnOk result ((h : Headers) (b : Book) → tree.old ≡ tree_of b
        → Judged h b (shift_of words.now) (Some (Entry.Divided tree.new))) }
    ensures refused { IfErr result (λ k. (h : Headers) (b : Book) → tree.old ≡ tree_of b
        → IsFirst (HoldsAgainst h b (shift_of words.now)) k) }
    ensures unchanged { OnErr result (tree.new ≡ tree.old) }
{
    let Some(boundary) = whole_number(words.boundary) else {
        return Err(Cause::BadNumber);
    };
    let Some(at) = whole_number(words.at) else {
        return Err(Cause::BadNumber);
    };
    match tree.shift(boundary, at) {
        Ok(()) => Ok(()),
        Err(error) => Err(Cause::ShiftRefused(error)),
    }
}

/// The call that a `call` or a `move` makes, and the place of its entity.
pub fn judge_call(
    alloc: Global,
    header: &Header,
    entities: &IndexMap<u32, Entity, HashKey>,
    clients: &BTreeSet<u32>,
    words: &CallWords,
) -> Result<(usize, Call), Refusal>
    ensures judged { IfOk result (λ r. (b : Book) (dead : List ℕ) →
        EntitiesRefine b entities.now.entries dead → ClientsRefine b clients.now.keys →
        Judged header.now b (call_of words.now) (Some (Entry.Called r.1))) }
    ensures place { IfOk result (λ r. IsIndexOf entities.now.entries r.1.entity r.0) }
    ensures refused { IfErr result (λ r. (b : Book) (dead : List ℕ) →
        EntitiesRefine b entities.now.entries dead → ClientsRefine b clients.now.keys →
        Refuses header.now b (call_of words.now) r) }
{
    let Some(entity) = positive_number(words.entity) else {
        return Err(Refusal::Cause(Cause::BadNumber));
    };
    let Some(sender) = sender_named(header, clients, words.sender_name) else {
        return Err(Refusal::Cause(Cause::NoSender));
    };
    let Some((place, called)) = live_entity(entities, entity) else {
        return Err(Refusal::Cause(Cause::Dead));
    };
    header.defs.known();
    let t = header.defs.type_at(called.ty);
    let asked = Asked { sender, entity };
    let deed = deed_named(alloc, header, &asked, t, &words.deed)?;
    let part = t.part_of(&deed);
    let number = called.next_number(part, asked.sender)?;
    let call = Call {
        entity,
        part,
        sender: asked.sender,
        number,
        deed,
    };
    Ok((place, call))
}
