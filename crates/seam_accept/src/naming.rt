// What words name.
ghost use Rattle.std.specs.Prelude.{◌≡◌, ◌≢◌, ◌<◌, ◌≤◌, ◌↔◌, ℕ, List, IsTrue, None, Some, is_some, IfSome, MatchOption};
ghost use Rattle.seam_value.specs.NumberWords.{SpellsNumber};
ghost use Rattle.seam_geo.specs.declared.pos.Pos.{Pos as Positions};
ghost use Rattle.seam_defs.specs.Types.{IsType};
ghost use Rattle.seam_call.specs.BaseNodes.{IsBaseNodeOf};
ghost use Rattle.seam_rule_lines.specs.Language.{sender_text, axis_text};
ghost use Rattle.seam_tree.specs.declared.boundary.Axis.{Axis as Axes};
ghost use Rattle.seam_call.specs.declared.sender.Sender.{Sender as Senders};
ghost use Rattle.seam_rule_lines.specs.Book.{Book, created_as, has_client, live_as};
ghost use Rattle.seam_accept.specs.Entities.{EntitiesRefine, ClientsRefine, IsLive, IsIndexOf};
ghost use Rattle.seam_rule_lines.specs.Judging.{NamesSender, NamesType, NamesMethod, SpellsPosition};

use crate::command::PositionWords;
use crate::entity::Entity;
use indexmap::IndexMap;
use seam_call::{BaseNode, Sender};
use seam_defs::{Defs, MOST_BASE_NODES, TypeDef};
use seam_geo::Pos;
use seam_rule_lines::Header;
use seam_table::HashKey;
use seam_tree::Axis;
use seam_value::whole_number;
use std::collections::BTreeSet;

/// The base node of this name, one of `bases`. The name is `b` and the node's number, from 1 on.
pub fn base_named(name: &[u8], bases: u32) -> Option<BaseNode>
    ensures { MatchOption result
        ((n : ℕ) → IsBaseNodeOf bases n → sender_text (Sender.Base n) ≢ name.now)
        (λ n. IsBaseNodeOf bases n × (sender_text (Sender.Base n) ≡ name.now)) }
{
    match name {
        [b'b', number @ ..] => match whole_number(number) {
            Some(number) => {
                if is_base_node(number, bases) {
                    Some(BaseNode::of(number as u8))
                } else {
                    None
                }
            }
            None => None,
        },
        _ => None,
    }
}

/// The sender of this name: a base node of the header's, or the client of a live entity.
pub fn sender_named(header: &Header, clients: &BTreeSet<u32>, name: &[u8]) -> Option<Sender>
    ensures { (b : Book) (entities : List (ℕ × Entity)) (dead : List ℕ) →
        EntitiesRefine b entities dead → ClientsRefine b clients.now.keys → MatchOption result
        ((s : Senders) → ¬ (NamesSender header.now b name.now s))
        (NamesSender header.now b name.now) }
{
    match base_named(name, header.settings.bases) {
        Some(node) => Some(Sender::Base(node)),
        None => Some(Sender::Client(client_named(clients, name)?)),
    }
}

// The live entity with a client of this name: `c`, and the number of the entity.
fn client_named(clients: &BTreeSet<u32>, name: &[u8]) -> Option<u32>
    ensures { (b : Book) (entities : List (ℕ × Entity)) (dead : List ℕ) →
        EntitiesRefine b entities dead → ClientsRefine b clients.now.keys → MatchOption result
        ((e : ℕ) → IsTrue (has_client b e) → sender_text (Sender.Client e) ≢ name.now)
        (λ e. IsTrue (has_client b e) × (sender_text (Sender.Client e) ≡ name.now)) }
{
    match name {
        [b'c', number @ ..] => {
            let Some(entity) = whole_number(number) else {
                return None;
            };
            if clients.contains(&entity) {
                Some(entity)
            } else {
                None
            }
        }
        _ => None,
    }
}

/// The live entity of this number, and its place among the entities.
pub fn live_entity(
    entities: &IndexMap<u32, Entity, HashKey>,
    entity: u32,
) -> Option<(usize, &Entity)>
    ensures live { (b : Book) (dead : List ℕ) → EntitiesRefine b entities.now.entries dead →
        MatchOption result (live_as b entity ≡ None) (λ found. IsLive b entity found.1) }
    ensures place { IfSome result (λ found. IsIndexOf entities.now.entries entity found.0) }
{
    match entities.get_full(&entity) {
        Some((place, _, found)) => Some((place, found)),
        None => None,
    }
}

/// Whether an entity of this number was created, dead or live.
pub fn is_used(entities: &IndexMap<u32, Entity, HashKey>, dead: &BTreeSet<u32>, entity: u32) -> bool
    ensures { (b : Book) → EntitiesRefine b entities.now.entries dead.now.keys →
        result ≡ is_some (created_as b entity) }
{
    entities.contains_key(&entity) || dead.contains(&entity)
}

// Whether the number is that of one of so many base nodes.
fn is_base_node(number: u32, bases: u32) -> bool
    ensures { IsTrue result ↔ IsBaseNodeOf bases number }
{
    1 <= number && number <= MOST_BASE_NODES && number <= bases
}

/// The position of the space that words spell.
pub fn position_named(header: &Header, words: &PositionWords) -> Option<Pos>
    ensures { MatchOption result
        ((p : Positions) → ¬ (SpellsPosition header.now words.now.x.now words.now.z.now p))
        (SpellsPosition header.now words.now.x.now words.now.z.now) }
{
    let x = place_named(header, words.x)?;
    let z = place_named(header, words.z)?;
    Some(Pos { x, z })
}

// The place on an axis that a word spells, where it is one of the space.
fn place_named(header: &Header, word: &[u8]) -> Option<u32>
    ensures { MatchOption result
        ((n : ℕ) → SpellsNumber word.now n → ¬ (n < header.now.settings.size))
        (λ n. SpellsNumber word.now n × (n < header.now.settings.size)) }
{
    match whole_number(word) {
        Some(place) => {
            if place < header.settings.size {
                Some(place)
            } else {
                None
            }
        }
        None => None,
    }
}

/// The axis of this name.
pub fn axis_named(name: &[u8]) -> Option<Axis>
    ensures { MatchOption result ((a : Axes) → ¬ (axis_text a ≡ name.now)) (λ a. axis_text a
        ≡ name.now) }
{
    match name {
        b"x" => Some(Axis::X),
        b"z" => Some(Axis::Z),
        _ => None,
    }
}

/// The type of this name.
pub fn type_named(defs: &Defs, name: &[u8]) -> Option<u16>
    ensures { MatchOption result ((ty : ℕ) → ¬ (NamesType defs.now name.now ty))
        (NamesType defs.now name.now) }
{
    defs.find_type(name)
}

/// The method of this name of a type.
pub fn method_named(t: &TypeDef, name: &[u8]) -> Option<u16>
    requires { IsType t.now }
    ensures named { MatchOption result ((m : ℕ) → ¬ (NamesMethod t.now name.now m))
        (NamesMethod t.now name.now) }
    ensures only { (m : ℕ) → NamesMethod t.now name.now m → result ≡ Some m }
{
    t.find_method(name)
}
