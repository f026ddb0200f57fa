ghost use Rattle.std.specs.Prelude.{◌≡◌, ℕ, ◌+◌, ◌-◌, ◌<◌, ◌≤◌, ◌↔◌, ◌⊎◌, [], length, slice_get, Some, IsTrue, IsSome, IfOk, IfSome, OnOk};
ghost use Rattle.std.specs.Prelude.{IfNone, OnErr};
ghost use Rattle.std.specs.Option.{SomeIff};
ghost use Rattle.seam_geo.specs.Rect.{Holds};
ghost use Rattle.seam_tree.specs.Boundary.{above, across, below, LeavesPartEmpty, RunsThrough};
ghost use Rattle.seam_tree.specs.Division.{area, area_after, area_divided_by, boundary_of, cell_cut_by, cells_of, cut_after, cut_number};
ghost use Rattle.seam_tree.specs.Division.{HasBoundary, HasEachArea, IsInSpace, IsTree, leaf_at, NoneEmpty, SomeEmpty};
ghost use Rattle.seam_tree.specs.Change.{CanCut, CutsCell, MovesBoundary, with_cut, with_place};
ghost use Rattle.seam_tree.specs.Table.{area_table};

use crate::area_table::{MOST_CELLS, areas_after, parts};
use crate::boundary::{Axis, Boundary};
use crate::cut::{Cut, leaf_among};
use seam_geo::{Pos, Rect};
use std::marker::Model;

// The most cuts that a tree has.
const MOST_CUTS: usize = MOST_CELLS - 1;

// The entry of the table where there is no cut.
const NO_CUT: Cut = Cut {
    cell: 0,
    boundary: Boundary {
        axis: Axis::X,
        at: 0,
    },
};

/// Why a cell was not cut.
#[derive(Clone, Copy, Debug, PartialEq, Eq)]
pub enum CutError {
    /// There is no such cell.
    NoCell,
    /// One of the two parts would be empty.
    OutsideCell,
    /// There are sixteen cells already.
    TooManyCells,
}

/// Why a boundary was not shifted.
#[derive(Clone, Copy, Debug, PartialEq, Eq)]
pub enum ShiftError {
    /// There is no such boundary.
    NoBoundary,
    /// Some cell's area would be empty.
    WouldEmpty,
}

/// A space of at most sixteen cells and the boundaries between them: a table of the cuts and one of the cells' areas,
/// both of fixed size, copied by value.
///
/// The first cell is 0. The k-th cut, from 1 on, makes boundary k and cell k: the cell that is cut keeps the part below
/// the boundary, and the new cell gets the part from the boundary on.
#[derive(Clone, Copy, Debug)]
pub struct Tree {
    size: u32,
    count: u8,
    cuts: [Cut; MOST_CUTS],
    areas: [Rect; MOST_CELLS],
}

impl Model for Tree {
    ghost use Rattle.std.specs.Prelude.{◌≡◌, ◌≤◌, take, length};
    ghost use Rattle.seam_tree.specs.Division.{Division, IsTree};
    ghost use Rattle.seam_tree.specs.Table.{area_table, padded};
    ghost use Rattle.seam_tree.specs.Inverse.{take_padded};
    ghost use Rattle.std.proofs.Common.{sym};

    ghost Value = { Division };

    ghost view = { λ a. record { size = a.size; cuts = take a.count a.cuts } };

    ghost invariant = { λ a. (a.count ≤ 15)
        × (a.cuts ≡ padded (take a.count a.cuts))
        × IsTree (record { size = a.size; cuts = take a.count a.cuts })
        × (a.areas ≡ area_table (record { size = a.size; cuts = take a.count a.cuts })) };

    ghost inverse = { λ t. record { size = t.size; count = length t.cuts; cuts = padded t.cuts; areas = area_table t } };

    ghost inverse_ok = { λ a h. λ i.
        record { size = a.size; count = take_padded a.count a.cuts h.0 h.1 i; cuts = sym h.1 i; areas = sym h.3 i } };
}

impl Tree {
    /// One cell that is the whole space, whose positions go from 0 up to, but without, `size` on both axes.
    pub fn one(size: u32) -> Tree
        requires from { 1 ≤ size }
        requires to { size ≤ 1000000 }
        ensures whole { result ≡ record { size = size; cuts = [] } }
        ensures tree { IsTree result }
    {
        Tree {
            size,
            count: 0,
            cuts: [NO_CUT; MOST_CUTS],
            areas: areas_after(size, &[], 0).unwrap(),
        }
    }

    /// The size of the space: its positions go from 0 up to, but without, this on both axes.
    pub fn size(&self) -> u32
        ensures size { result ≡ self.now.size }
        ensures tree { IsTree self.now }
    {
        self.size
    }

    /// Whether the position lies in the space.
    pub fn holds(&self, p: Pos) -> bool
        ensures { IsTrue result ↔ IsInSpace self.now p }
    {
        p.x < self.size && p.z < self.size
    }

    /// How many cells there are: their numbers are those from 0 up to, but without, this one.
    pub fn cells(&self) -> u8
        ensures count { result ≡ cells_of self.now }
        ensures tree { IsTree self.now }
    {
        self.count + 1
    }

    /// The cell in whose area the position lies.
    pub fn leaf_of(&self, p: Pos) -> u8
        requires { IsInSpace self.now p }
        ensures value { result ≡ leaf_at self.now p }
        ensures cell { result < cells_of self.now }
        ensures holds { Holds (area self.now result) p }
        ensures only { (c : ℕ) → c < cells_of self.now → Holds (area self.now c) p → c ≡ result }
    {
        leaf_among(self.made(), p)
    }

    /// The cell's area: None where there is no such cell.
    pub fn area(&self, cell: u8) -> Option<Rect>
        ensures { SomeIff result (cell < cells_of self.now) (area self.now cell) }
    {
        if cell > self.count {
            return None;
        }
        Some(self.area_of(cell))
    }

    /// The areas of all cells, by the cells' numbers. What the table has past the last cell means nothing.
    pub fn areas(&self) -> [Rect; MOST_CELLS]
        ensures { HasEachArea self.now result }
    {
        self.areas
    }

    /// The boundary of this number: None where there is no such boundary.
    pub fn boundary(&self, b: u8) -> Option<Boundary>
        ensures value { result ≡ boundary_of self.now b }
        ensures present { IsSome result ↔ HasBoundary self.now b }
    {
        Some(self.cut_number(b)?.boundary)
    }

    /// The cell that cut `b` cut: None where there is no boundary `b`.
    pub fn cut_of(&self, b: u8) -> Option<u8>
        ensures value { result ≡ cell_cut_by self.now b }
        ensures present { IsSome result ↔ HasBoundary self.now b }
        ensures earlier { IfSome result (λ cell. cell < b) }
    {
        Some(self.cut_number(b)?.cell)
    }

    /// The area that boundary `b` divides, and with it all cells that were cut from either part: None where there is
    /// no boundary `b`.
    pub fn area_divided_by(&self, b: u8) -> Option<Rect>
        ensures { SomeIff result (HasBoundary self.now b) (area_divided_by self.now b) }
    {
        let cut = self.cut_number(b)?;
        Some(self.areas_after(usize::from(b) - 1)[usize::from(cut.cell)])
    }

    /// Cuts a cell along an axis, and gives the number of the new cell and of the boundary.
    ///
    /// Refused, and then unchanged, by the first that holds: NoCell where there is no such cell, OutsideCell where one of
    /// the two parts would be empty, TooManyCells where there are sixteen cells.
    pub fn cut(&mut self, cell: u32, axis: Axis, at: u32) -> Result<u8, CutError>
        ensures made { IfOk result (λ new. new ≡ cells_of self.old) }
        ensures added { OnOk result (self.new ≡ with_cut self.old cell (across axis at)) }
        ensures changed { OnOk result (CutsCell self.old self.new cell (across axis at)) }
        ensures allowed { OnOk result (CanCut self.old cell (across axis at)) }
        ensures no_cell { (result ≡ Err CutError.NoCell) ↔ (cells_of self.old ≤ cell) }
        ensures outside { (result ≡ Err CutError.OutsideCell)
            ↔ ((cell < cells_of self.old) × LeavesPartEmpty (across axis at) (area self.old cell)) }
        ensures too_many { (result ≡ Err CutError.TooManyCells) ↔
            ((cell < cells_of self.old) × RunsThrough (across axis at) (area self.old cell) ×
            (cells_of self.old ≡ 16)) }
        ensures refused { OnErr result (self.new ≡ self.old) }
        ensures space { self.new.size ≡ self.old.size }
        ensures tree { IsTree self.new }
    {
        if cell > u32::from(self.count) {
            return Err(CutError::NoCell);
        }
        let cell = cell as u8;
        let boundary = Boundary { axis, at };
        let parts = parts(self.area_of(cell), boundary).ok_or(CutError::OutsideCell)?;
        if usize::from(self.count) == MOST_CUTS {
            return Err(CutError::TooManyCells);
        }
        self.push(Cut { cell, boundary }, parts);
        Ok(self.count)
    }

    /// Moves a boundary to another place along its axis.
    ///
    /// Refused, and then unchanged, by the first that holds: NoBoundary where there is no such boundary, WouldEmpty where
    /// some cell's area would be empty.
    pub fn shift(&mut self, b: u32, at: u32) -> Result<(), ShiftError>
        ensures moved { OnOk result (self.new ≡ with_place self.old b at) }
        ensures changed { OnOk result (MovesBoundary self.old self.new b at) }
        ensures allowed { OnOk result (HasBoundary self.old b ×
            NoneEmpty (with_place self.old b at)) }
        ensures no_boundary { (result ≡ Err ShiftError.NoBoundary) ↔
            ((b ≡ 0) ⊎ (cells_of self.old ≤ b)) }
        ensures would_empty { (result ≡ Err ShiftError.WouldEmpty) ↔
            (HasBoundary self.old b × SomeEmpty (with_place self.old b at)) }
        ensures refused { OnErr result (self.new ≡ self.old) }
        ensures space { self.new.size ≡ self.old.size }
        ensures tree { IsTree self.new }
    {
        if b == 0 || b > u32::from(self.count) {
            return Err(ShiftError::NoBoundary);
        }
        let areas = self.areas_with(b as u8, at).ok_or(ShiftError::WouldEmpty)?;
        self.place(b as u8, at, areas);
        Ok(())
    }

    // The area of a cell that there is.
    fn area_of(&self, cell: u8) -> Rect
        requires { cell < cells_of self.now }
        ensures area { result ≡ area self.now cell }
        ensures tree { IsTree self.now }
    {
        self.areas[usize::from(cell)]
    }

    // Adds a cut and the two parts that it makes of its cell to the tables.
    fn push(&mut self, cut: Cut, parts: (Rect, Rect))
        requires room { cells_of self.old < 16 }
        requires there { cut.cell < cells_of self.old }
        requires lower { parts.0 ≡ below (area self.old cut.cell) cut.boundary }
        requires upper { parts.1 ≡ above (area self.old cut.cell) cut.boundary }
        requires tree { IsTree (with_cut self.old cut.cell cut.boundary) }
        ensures { self.new ≡ with_cut self.old cut.cell cut.boundary }
    {
        self.cuts[usize::from(self.count)] = cut;
        self.count += 1;
        self.areas[usize::from(cut.cell)] = parts.0;
        self.areas[usize::from(self.count)] = parts.1;
    }

    // The cells' areas with the boundary at another place: None where one of them would be empty.
    fn areas_with(&self, b: u8, at: u32) -> Option<[Rect; MOST_CELLS]>
        requires { HasBoundary self.now b }
        ensures areas { IfSome result (λ areas. areas ≡ area_table (with_place self.now b at)) }
        ensures proper { IfSome result (λ areas. NoneEmpty (with_place self.now b at)) }
        ensures tree { IfSome result (λ areas. IsTree (with_place self.now b at)) }
        ensures empty { IfNone result (SomeEmpty (with_place self.now b at)) }
    {
        let mut cuts = self.cuts;
        cuts[usize::from(b) - 1].boundary.at = at;
        let made = &cuts[..usize::from(self.count)];
        areas_after(self.size, made, made.len())
    }

    // Puts the boundary at another place, with which the cells have these areas.
    fn place(&mut self, b: u8, at: u32, areas: [Rect; MOST_CELLS])
        requires there { HasBoundary self.old b }
        requires areas { areas ≡ area_table (with_place self.old b at) }
        requires tree { IsTree (with_place self.old b at) }
        ensures { self.new ≡ with_place self.old b at }
    {
        self.cuts[usize::from(b) - 1].boundary.at = at;
        self.areas = areas;
    }

    // The cuts that were made.
    fn made(&self) -> &[Cut]
        ensures cuts { result.now ≡ self.now.cuts }
        ensures tree { IsTree self.now }
    {
        &self.cuts[..usize::from(self.count)]
    }

    // The cells' areas after the first `made` cuts, by the cells' numbers.
    fn areas_after(&self, made: usize) -> [Rect; MOST_CELLS]
        requires { made ≤ length self.now.cuts }
        ensures areas { (c : ℕ) → c ≤ made → slice_get result c
            ≡ Some (area_after self.now made c) }
        ensures tree { IsTree self.now }
    {
        areas_after(self.size, self.made(), made).unwrap()
    }

    // The cut that made boundary `b`.
    fn cut_number(&self, b: u8) -> Option<Cut>
        ensures value { result ≡ cut_number self.now b }
        ensures present { IsSome result ↔ HasBoundary self.now b }
        ensures after { IfSome result (λ cut. cut ≡ cut_after self.now (b - 1)) }
        ensures tree { IsTree self.now }
    {
        if b == 0 || b > self.count {
            return None;
        }
        Some(self.cuts[usize::from(b) - 1])
    }
}
