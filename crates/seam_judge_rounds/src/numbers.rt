// Which entities entries are about.
ghost use Rattle.std.specs.Prelude.{◌≡◌, ◌||◌, ℕ, IfOk, OnOk};
ghost use Rattle.std.specs.List.{list_any};
ghost use Rattle.std.specs.Ordering.{nat_cmp};
ghost use Rattle.std.specs.BTreeSet as set;
ghost use Rattle.seam_rule_rounds.specs.Prelude.{destroys, joins};

use seam_rule_lines::Entry;
use std::alloc::{AllocError, Global};
use std::collections::BTreeSet;

/// The entities that the entries give a client.
pub(crate) fn joined_in(alloc: Global, entries: &[Entry]) -> Result<BTreeSet<u32>, AllocError>
    ensures { IfOk result (λ found. (e : ℕ) → set.contains nat_cmp found e
        ≡ list_any (joins e) entries.now) }
{
    let mut found = BTreeSet::new(alloc);
    for entry in entries {
        add_joined(&mut found, entry)?;
    }
    Ok(found)
}

fn add_joined(found: &mut BTreeSet<u32>, entry: &Entry) -> Result<(), AllocError>
    ensures { OnOk result ((e : ℕ) → set.contains nat_cmp found.new e
        ≡ set.contains nat_cmp found.old e || joins e entry.now) }
{
    match entry {
        Entry::Joined(entity) => {
            found.insert(*entity)?;
            Ok(())
        }
        _ => Ok(()),
    }
}

/// The entities that the entries destroy.
pub(crate) fn died_in(alloc: Global, entries: &[Entry]) -> Result<BTreeSet<u32>, AllocError>
    ensures { IfOk result (λ found. (e : ℕ) → set.contains nat_cmp found e
        ≡ list_any (destroys e) entries.now) }
{
    let mut found = BTreeSet::new(alloc);
    for entry in entries {
        add_died(&mut found, entry)?;
    }
    Ok(found)
}

fn add_died(found: &mut BTreeSet<u32>, entry: &Entry) -> Result<(), AllocError>
    ensures { OnOk result ((e : ℕ) → set.contains nat_cmp found.new e
        ≡ set.contains nat_cmp found.old e || destroys e entry.now) }
{
    match entry {
        Entry::Destroyed(entity) => {
            found.insert(*entity)?;
            Ok(())
        }
        _ => Ok(()),
    }
}
