//! The worked round of two witnesses and an entity that crosses the boundary between them (`seam_law_clients`), run.

ghost use Rattle.std.specs.Prelude.{◌≡◌, IfOk};
ghost use Rattle.seam_node_steps.specs.Prelude.{two_cells as halves, made_at};
ghost use Rattle.seam_law_clients.specs.Crossing as crossing;

use crate::events::has_real;
use seam_call::{BaseNode, Batch, Call, Create, Order, Sender};
use seam_core::World;
use seam_defs::{Deed, Listed, Part, Settings};
use seam_geo::Pos;
use seam_quiet::{Workers, a_worked_round_may_run, run_round};
use seam_toml::builtin;
use seam_tree::{Axis, Tree};
use seam_watch::Journal;
use seam_workers::{Crew, OpenGate};
use std::alloc::Global;
use std::sync::Wait;
use std::test::Fail;
use std::thread::Threads;

// An avatar at x.
fn avatar(entity: u32, x: u32) -> Create
    ensures { result ≡ made_at entity x }
{
    Create {
        entity,
        ty: 0,
        pos: Pos { x, z: 1000 },
    }
}

// Two cells, with the boundary at x = 5000.
fn two_cells() -> Result<Tree, Fail>
    ensures { IfOk result (λ t. t ≡ halves) }
{
    let mut tree = Tree::one(10_000);
    if tree.cut(0, Axis::X, 5000).is_err() {
        return Err("no such cut")?;
    }
    Ok(tree)
}

// What the round brings.
fn batch(alloc: Global) -> Result<Batch, Fail>
    ensures { IfOk result (λ b. b ≡ crossing.batch) }
{
    let call = Call {
        entity: 3,
        part: Part::Cell,
        sender: Sender::Base(BaseNode::of(1)),
        number: 1,
        deed: Deed::Move(Pos { x: 5100, z: 1000 }),
    };
    Ok(Batch {
        tree: two_cells()?,
        creates: Listed::of(vec![in alloc; avatar(1, 4850), avatar(2, 5150), avatar(3, 4900)]?),
        clients: Listed::of(vec![in alloc; 1, 2]?),
        orders: Listed::of(vec![in alloc; (16, Order::Cell(call))]?),
        destroys: Listed::of(Vec::new(alloc)),
        balance: false,
    })
}

// The round, of a world as it is opened.
fn run<R: Threads + Wait + Sync>(rt: &R, alloc: Global) -> Result<(World, Journal), Fail> {
    a_worked_round_may_run();
    let defs = builtin(alloc)?;
    let world = World::open(alloc, &defs, Settings::standard())?;
    let crew = Crew {
        workers: 2,
        turns: 100,
    };
    let workers = Workers::new(alloc, crew, &OpenGate);
    Ok(run_round(rt, alloc, world, batch(alloc)?, &workers)?)
}

// How many lines the entity's client was shown in the round, where this is its base node.
fn lines_shown(world: &World, base: u8, e: u32) -> Option<usize> {
    let part = world.net().node(base)?.as_base()?.part(e)?;
    Some(part.lines().len())
}

// Whether cells 0 and 1 have entity 3, how many lines the clients of entities 1 and 2 were shown, and whether there were calls and reaps.
type Seen = ((bool, bool), (Option<usize>, Option<usize>), (bool, bool));

fn seen_of(world: &World, journal: &Journal) -> Seen {
    let reals = (has_real(world.net(), 0, 3), has_real(world.net(), 1, 3));
    let lines = (lines_shown(world, 17, 1), lines_shown(world, 16, 2));
    let were_calls = !journal.calls.as_slice().is_empty();
    let were_reaps = !journal.reaps.as_slice().is_empty();
    (reals, lines, (were_calls, were_reaps))
}

#[test]
fn an_entity_crosses_between_two_witnesses(rt: HostRuntime) -> Result<(), Fail> {
    let (world, journal) = run(&rt, rt.alloc())?;
    let seen = seen_of(&world, &journal);
    assert_eq!(rt; seen, ((false, true), (Some(4), Some(4)), (true, false)));
    Ok(())
}
