//! The nodes of a world as it is opened.

ghost use Rattle.std.specs.Prelude.{◌≡◌, ◌++◌, map, IfOk, OnOk};
ghost use Rattle.seam_node_steps.specs.Prelude.{AreLegal, cell_numbers, base_numbers, empty_cell, empty_base, here_of};

use crate::node::Node;
use seam_base::Base;
use seam_cell::Cell;
use seam_defs::{Defs, Settings};
use seam_tree::MOST_CELLS;
use std::alloc::{AllocError, Global};

// The cells, without entities.
fn open_cells(alloc: Global, defs: &Defs, settings: Settings) -> Result<Vec<Node>, AllocError>
    requires { AreLegal settings }
    ensures { IfOk result (λ v. v.items ≡ map (empty_cell defs.now settings) cell_numbers) }
{
    let mut nodes = Vec::new(alloc);
    for k in 0..MOST_CELLS {
        let cell = Cell::new(alloc, k as u8, defs.copy()?, settings)?;
        nodes.push(Node::of_cell(cell))?;
    }
    Ok(nodes)
}

/// The cells and the base nodes, without entities.
pub(crate) fn open_nodes(
    alloc: Global,
    defs: &Defs,
    settings: Settings,
) -> Result<Vec<Node>, AllocError>
    requires { AreLegal settings }
    ensures { IfOk result (λ v. v.items ≡ map (empty_cell defs.now settings) cell_numbers
        ++ map (empty_base defs.now settings) (base_numbers (here_of defs.now settings 0))) }
{
    let mut nodes = open_cells(alloc, defs, settings)?;
    for k in 0..settings.bases {
        let base = Base::new(alloc, MOST_CELLS as u8 + k as u8, defs.copy()?, settings);
        nodes.push(Node::of_base(base))?;
    }
    Ok(nodes)
}
