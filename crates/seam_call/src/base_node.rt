// The base nodes of a world.
ghost use Rattle.std.specs.Prelude.{◌≡◌, ◌↔◌, ◌+◌, ◌<◌, ◌≤◌, ◌%◌, ◌^◌, IsSome, IfSome};
ghost use Rattle.seam_tree.specs.declared.area_table.TheConstants.{MOST_CELLS as most_cells};
ghost use Rattle.seam_call.specs.BaseNodes.{IsBaseNode};

use seam_defs::MOST_BASE_NODES;
use seam_tree::MOST_CELLS;
use std::marker::Model;

/// A base node, by its number from 1 to 8: the node that keeps the base parts of entities, and takes the calls of the world
/// outside. Contracts see the number.
#[derive(Clone, Copy, Debug, PartialEq, Eq)]
pub struct BaseNode {
    number: u8,
}

impl Model for BaseNode {
    ghost use Rattle.std.specs.Prelude.{ℕ};
    ghost use Rattle.seam_call.specs.BaseNodes.{IsBaseNode};

    ghost Value = { ℕ };

    ghost view = { λ b. b.number };

    ghost invariant = { λ b. IsBaseNode b.number };

    ghost inverse = { λ n. record { number = n } };
}

impl BaseNode {
    /// The base node of this number: None where there can be none.
    pub fn new(number: u32) -> Option<BaseNode>
        ensures some { IsSome result ↔ IsBaseNode number }
        ensures number { IfSome result (λ b. b ≡ number) }
    {
        if 1 <= number && number <= MOST_BASE_NODES {
            Some(BaseNode {
                number: number as u8,
            })
        } else {
            None
        }
    }

    /// The base node of a number that is one.
    pub fn of(number: u8) -> BaseNode
        requires { IsBaseNode number }
        ensures { result ≡ number }
    {
        BaseNode { number }
    }

    /// Its number, from 1 on.
    pub fn number(self) -> u8
        ensures number { result ≡ self }
        ensures is { IsBaseNode self }
    {
        self.number
    }

    /// Its place among the base nodes, from 0 on: an index of a list with one item for each of them.
    pub fn place(self) -> usize
        ensures place { result + 1 ≡ self }
        ensures most { result < MOST_BASE_NODES }
    {
        self.number as usize - 1
    }
}

/// The number of the node that keeps an entity's base part. The base nodes, `bases` of them, come after the cells, and entities go round
/// them by their numbers.
pub fn base_node_of(entity: u32, bases: u32) -> u8
    requires some { 1 ≤ bases }
    requires byte { most_cells + bases < 2 ^ 8 }
    ensures { result ≡ most_cells + (entity % bases) }
{
    MOST_CELLS as u8 + (entity % bases) as u8
}
