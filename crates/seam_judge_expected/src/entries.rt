// What entries say of an entity and of a round.
ghost use Rattle.std.specs.Prelude.{◌≡◌, ◌++◌, ◌∷◌, [], IfOk, OnOk, fold, option_copied};
ghost use Rattle.std.specs.List.{list_any};
ghost use Rattle.seam_rule_lines.specs.Book.{created, called, creates_of, calls_of, destroys, joins, makes, is_tick, is_balance, divided};

use seam_call::{Call, Create};
use seam_judge_data::Copied;
use seam_rule_lines::Entry;
use seam_tree::Tree;
use std::alloc::{AllocError, Global};

fn created(entry: &Entry) -> Option<Create>
    ensures { result ≡ created entry.now }
{
    match entry {
        Entry::Created(create) => Some(*create),
        _ => None,
    }
}

/// What the entries created, in their order.
pub(crate) fn creates_of(alloc: Global, entries: &[Entry]) -> Result<Vec<Create>, AllocError>
    ensures { IfOk result (λ creates. creates.items ≡ creates_of entries.now) }
{
    let mut creates = Vec::new(alloc);
    for entry in entries {
        add_created(&mut creates, entry)?;
    }
    Ok(creates)
}

fn add_created(creates: &mut Vec<Create>, entry: &Entry) -> Result<(), AllocError>
    ensures { OnOk result (creates.new.items ≡ creates.old.items ++ creates_of (entry.now ∷ [])) }
{
    match created(entry) {
        Some(create) => {
            creates.push(create)?;
            Ok(())
        }
        None => Ok(()),
    }
}

fn called(entry: &Entry) -> Option<&Call>
    ensures { option_copied result ≡ called entry.now }
{
    match entry {
        Entry::Called(call) => Some(call),
        _ => None,
    }
}

/// The calls that the entries bring, in their order.
pub fn calls_of(alloc: Global, entries: &[Entry]) -> Result<Vec<Call>, AllocError>
    ensures { IfOk result (λ calls. calls.items ≡ calls_of entries.now) }
{
    let mut calls = Vec::new(alloc);
    for entry in entries {
        add_called(&mut calls, entry)?;
    }
    Ok(calls)
}

fn add_called(calls: &mut Vec<Call>, entry: &Entry) -> Result<(), AllocError>
    ensures { OnOk result (calls.new.items ≡ calls.old.items ++ calls_of (entry.now ∷ [])) }
{
    match called(entry) {
        Some(call) => {
            calls.push(call.copied()?)?;
            Ok(())
        }
        None => Ok(()),
    }
}

fn destroys(entry: &Entry, entity: u32) -> bool
    ensures { result ≡ destroys entity entry.now }
{
    match entry {
        Entry::Destroyed(e) => *e == entity,
        _ => false,
    }
}

/// Whether one of the entries destroys the entity.
pub fn has_died(entries: &[Entry], entity: u32) -> bool
    ensures { result ≡ list_any (destroys entity) entries.now }
{
    entries.iter().any(|entry| destroys(entry, entity))
}

fn joins(entry: &Entry, entity: u32) -> bool
    ensures { result ≡ joins entity entry.now }
{
    match entry {
        Entry::Joined(e) => *e == entity,
        _ => false,
    }
}

/// Whether one of the entries gives the entity a client.
pub fn has_joined(entries: &[Entry], entity: u32) -> bool
    ensures { result ≡ list_any (joins entity) entries.now }
{
    entries.iter().any(|entry| joins(entry, entity))
}

fn makes(entry: &Entry, entity: u32) -> bool
    ensures { result ≡ makes entity entry.now }
{
    match entry {
        Entry::Created(create) => create.entity == entity,
        _ => false,
    }
}

/// Whether one of the entries makes the entity.
pub fn is_made_by(entries: &[Entry], entity: u32) -> bool
    ensures { result ≡ list_any (makes entity) entries.now }
{
    entries.iter().any(|entry| makes(entry, entity))
}

fn is_tick(entry: &Entry) -> bool
    ensures { result ≡ is_tick entry.now }
{
    matches!(entry, Entry::Ticked)
}

/// Whether witnesses look at one of the entries.
pub fn has_tick(entries: &[Entry]) -> bool
    ensures { result ≡ list_any is_tick entries.now }
{
    entries.iter().any(is_tick)
}

fn is_balance(entry: &Entry) -> bool
    ensures { result ≡ is_balance entry.now }
{
    matches!(entry, Entry::Balanced)
}

/// Whether one of the entries balances the boundaries.
pub fn has_balance(entries: &[Entry]) -> bool
    ensures { result ≡ list_any is_balance entries.now }
{
    entries.iter().any(is_balance)
}

// The tree that an entry leaves of one.
fn divided(tree: Tree, entry: &Entry) -> Tree
    ensures { result ≡ divided tree entry.now }
{
    match entry {
        Entry::Divided(next) => *next,
        _ => tree,
    }
}

/// The tree that the entries leave of one.
pub fn tree_after(tree: Tree, entries: &[Entry]) -> Tree
    ensures { result ≡ fold divided tree entries.now }
{
    let mut tree = tree;
    for entry in entries {
        tree = divided(tree, entry);
    }
    tree
}
