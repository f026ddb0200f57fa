//! A world of the standard settings, as it is loaded first.

ghost use Rattle.std.specs.Prelude.{◌≡◌, IfOk};
ghost use Rattle.seam_tree.specs.Division.{IsInSpace};
ghost use Rattle.seam_call.specs.declared.order.Batch.{Batch as AnyBatch};
ghost use Rattle.seam_core.specs.Loads.{MayLoad};
ghost use Rattle.seam_test_core.specs.Firsts.{MayBeFirst};

use crate::orders::{Sent, orders};
use seam_call::{Batch, Boundaries, Create, Order};
use seam_core::World;
use seam_defs::{Listed, Settings};
use seam_geo::Pos;
use seam_table::Shared;
use seam_toml::builtin;
use seam_tree::{Axis, MOST_CELLS, Tree};
use std::alloc::{AllocError, Global};
use std::test::Fail;

// The size of the standard settings' space.
const SIZE: u32 = 10_000;

/// What a world is loaded with first: a space of two cells with the boundary at x = 5000, of which the second may be cut again, at
/// z = 5000; where avatar 1 is made; orders about it; and an order of the first base node to tell that the boundary is at another x.
#[derive(Clone, Copy)]
pub struct First {
    pub is_cut_again: bool,
    pub at: Pos,
    pub sent: &'static [Sent],
    pub moved_to: Option<u32>,
}

fn cut(is_cut_again: bool) -> Tree
    ensures { result.size ≡ 10000 }
{
    let mut tree = Tree::one(SIZE);
    let _ = tree.cut(0, Axis::X, 5000);
    if is_cut_again {
        let _ = tree.cut(1, Axis::Z, 5000);
    }
    tree
}

// The order to tell boundaries of number 1: those of two cells with the boundary at x.
fn moved(alloc: Global, x: u32) -> Result<(u8, Order), AllocError> {
    let mut tree = Tree::one(SIZE);
    let _ = tree.cut(0, Axis::X, x);
    let bounds = Boundaries {
        tree: Shared::new(alloc, tree)?,
        number: 1,
    };
    Ok((MOST_CELLS as u8, Order::Bounds(bounds)))
}

// An avatar is made in that space, and nobody has a client or dies.
fn batch(alloc: Global, tree: Tree, pos: Pos, orders: Vec<(u8, Order)>) -> Result<Batch, AllocError>
    requires size { tree.size ≡ 10000 }
    requires inside { IsInSpace tree pos }
    ensures { IfOk result MayBeFirst }
{
    let avatar = Create {
        entity: 1,
        ty: 0,
        pos,
    };
    Ok(Batch {
        tree,
        creates: Listed::of(vec![in alloc; avatar]?),
        clients: Listed::of(Vec::new(alloc)),
        orders: Listed::of(orders),
        destroys: Listed::of(Vec::new(alloc)),
        balance: false,
    })
}

// A world without entities.
fn open_world(alloc: Global) -> Result<World, AllocError>
    ensures { IfOk result (λ w. (b : AnyBatch) → MayBeFirst b → MayLoad w b) }
{
    let defs = builtin(alloc)?;
    let world = World::open(alloc, &defs, Settings::standard())?;
    Ok(world)
}

fn loaded(alloc: Global, batch: Batch) -> Result<World, AllocError>
    requires { MayBeFirst batch }
{
    let world = open_world(alloc)?;
    world.load(alloc, batch)
}

/// A world that is loaded so.
pub fn first_world(alloc: Global, first: &First) -> Result<World, Fail> {
    let tree = cut(first.is_cut_again);
    if !tree.holds(first.at) {
        return Err("no such place")?;
    }
    let mut orders = orders(alloc, first.sent)?;
    if let Some(x) = first.moved_to {
        orders.push(moved(alloc, x)?)?;
    }
    let batch = batch(alloc, tree, first.at, orders)?;
    Ok(loaded(alloc, batch)?)
}
