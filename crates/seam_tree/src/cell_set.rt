ghost use Rattle.std.specs.Prelude.{◌≡◌, ◌<◌, ◌↔◌, ℕ, IsTrue};
ghost use Rattle.std.specs.FinSet as set;

use std::marker::Model;

/// A set of cell numbers, each from 0 to 15, copied by value.
#[derive(Clone, Copy, Debug)]
pub struct CellSet {
    // a binary digit for each cell, the least first
    digits: u16,
}

impl Model for CellSet {
    ghost use Rattle.std.specs.Prelude.{◌<◌, ◌^◌};
    ghost use Rattle.std.specs.FinSet as set;
    ghost use Rattle.std.specs.Coded.{coded_ℕ};
    ghost use Rattle.seam_tree.specs.Cells.{Cells};
    ghost use Rattle.seam_tree.specs.Marks.{marked, digits_of};
    ghost use Rattle.seam_tree.specs.Inverse.{digits_of_marked};

    ghost Value = { Cells };

    ghost coded = { set.code coded_ℕ };

    ghost view = { λ a. marked a.digits };

    ghost invariant = { λ a. a.digits < 2 ^ 16 };

    ghost inverse = { λ s. record { digits = digits_of s 16 } };

    ghost inverse_ok = { λ a h. λ i. record { digits = digits_of_marked a.digits h i } };
}

impl CellSet {
    /// The set of no cells.
    pub fn none() -> CellSet
        ensures { result ≡ set.empty }
    {
        CellSet { digits: 0 }
    }

    /// Whether the cell is in the set.
    pub fn holds(&self, cell: u8) -> bool
        ensures value { result ≡ set.contains self.now cell }
        ensures small { IsTrue result → cell < 16 }
    {
        cell < 16 && (self.digits >> cell) & 1 == 1
    }

    /// Whether both sets have the same cells.
    pub fn is(&self, other: &CellSet) -> bool
        ensures { IsTrue result ↔ (self.now ≡ other.now) }
    {
        self.digits == other.digits
    }

    /// Whether all its cells have numbers below this one.
    pub fn are_below(&self, count: u8) -> bool
        ensures below { IsTrue result ↔ ((k : ℕ) → IsTrue (set.contains self.now k) → k < count) }
        ensures small { (k : ℕ) → IsTrue (set.contains self.now k) → k < 16 }
    {
        // No shift is by 16 or more.
        count >= 16 || self.digits >> count == 0
    }

    /// The set with the cell.
    pub fn with(self, cell: u8) -> CellSet
        requires { cell < 16 }
        ensures { result ≡ set.insert self cell }
    {
        CellSet {
            digits: self.digits | 1 << cell,
        }
    }

    /// The set without the cell.
    pub fn without(self, cell: u8) -> CellSet
        requires { cell < 16 }
        ensures { result ≡ set.remove self cell }
    {
        CellSet {
            digits: self.digits & !(1 << cell),
        }
    }
}
