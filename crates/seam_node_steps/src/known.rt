// SPDX-License-Identifier: MIT

// What a cell knows of others: its reals, and its copies of those whose reals are not there.

ghost use Rattle.std.specs.Prelude.{◌≡◌, ℕ, map};
ghost use Rattle.std.specs.List.Sorted.{IsStrictlySortedBy};
ghost use Rattle.std.specs.Ordering.{nat_cmp};
ghost use Rattle.std.specs.FinMap as table;
ghost use Rattle.seam_node_steps.specs.Prelude.{known_of, seen_as, CellView, known_to, known_at, unless_self};

/// Of another entity a cell knows its real or, where that is not there, its copy, in rising number; whether an entity's own real is
/// there makes no difference to what is known of others.
pub fn a_cell_knows_its_reals_and_copies()
    ensures each { (c : CellView) (e x : ℕ) → known_of x (known_to c e)
        ≡ unless_self e x (known_at c x) }
    ensures rising { (c : CellView) (e : ℕ) → IsStrictlySortedBy nat_cmp
        (map (λ s. s.entity) (map seen_as (known_to c e))) }
    ensures own { (c : CellView) (e : ℕ) → known_to (record c { reals = table.remove c.reals e }) e
        ≡ known_to c e }
{}
