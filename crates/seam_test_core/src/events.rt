// Rows that go event by event: after each the entity is in so many places.
use crate::first::{First, first_world};
use crate::orders::Sent;
use seam_core::{Node, World};
use seam_geo::Pos;
use seam_machine::{Event, Net};
use seam_quiet::count_holders;
use std::alloc::Global;
use std::test::Fail;

// A node, the node whose message it is fed, or none for its task, and in how many places entity 1 is then.
type Turn = (u8, Option<u8>, u32);

// Whether cell 1 has the real; the cell to which the route of each base node leads, and how often it changed; the version of the copy in
// cells 0 and 2; and whether the world is quiet.
type Seen = (
    bool,
    (Option<(u8, u64)>, Option<(u8, u64)>),
    (Option<u64>, Option<u64>),
    bool,
);

// A world, its events and what is seen then; and who is reaped after that, with the events of it and what is seen then.
struct Row {
    name: &'static str,
    first: First,
    turns: &'static [Turn],
    then: Seen,
    reaps: &'static [u32],
    last_turns: &'static [Turn],
    last: Seen,
}

// The avatar is moved to cell 1 while calls of another base node are on their way to it.
pub const EARLY_CALL: First = First {
    is_cut_again: false,
    at: Pos { x: 4000, z: 100 },
    sent: &[
        Sent {
            base: 1,
            number: 1,
            to: Some(Pos { x: 6000, z: 100 }),
        },
        Sent {
            base: 2,
            number: 1,
            to: None,
        },
        Sent {
            base: 2,
            number: 2,
            to: None,
        },
    ],
    moved_to: None,
};

// Base node 16 tells the cells that the boundary is at x = 3000, so that the avatar is in cell 1.
const MOVED: First = First {
    is_cut_again: false,
    at: Pos { x: 4900, z: 100 },
    sent: &[],
    moved_to: Some(3000),
};

const HELD: Seen = (true, (Some((1, 1)), Some((1, 1))), (None, None), true);

static ROWS: [Row; 2] = [
    // The move comes to cell 0 first, the hit of number 2 comes to cell 1 before that of number 1.
    Row {
        name: "an early call is held",
        first: EARLY_CALL,
        turns: &[
            (0, None, 1),
            (16, None, 1),
            (17, None, 1),
            (0, Some(16), 1),
            (1, Some(0), 1),
            (17, Some(1), 1),
            (17, None, 1),
            (1, Some(17), 1),
            (0, Some(17), 1),
            (1, Some(0), 1),
            (1, None, 1),
            (16, Some(1), 1),
        ],
        then: HELD,
        reaps: &[],
        last_turns: &[],
        last: HELD,
    },
    // Cell 2 hears that its copy is dropped before it hears of the copy. Then the entity is reaped at its base node, in its cell, and
    // where its copy is.
    Row {
        name: "a late ghost message is ignored, and a reaped entity is gone",
        first: First {
            is_cut_again: true,
            at: Pos { x: 4900, z: 4900 },
            sent: &[
                Sent {
                    base: 1,
                    number: 1,
                    to: Some(Pos { x: 5100, z: 4900 }),
                },
                Sent {
                    base: 1,
                    number: 2,
                    to: Some(Pos { x: 5100, z: 4000 }),
                },
            ],
            moved_to: None,
        },
        turns: &[
            (0, None, 1),
            (16, None, 1),
            (16, None, 1),
            (0, Some(16), 1),
            (0, Some(16), 1),
            (1, Some(0), 1),
            (1, Some(0), 1),
            (1, Some(0), 1),
            (2, Some(1), 1),
            (2, Some(0), 1),
            (2, Some(0), 1),
            (0, Some(1), 1),
            (16, Some(1), 1),
            (17, Some(1), 1),
        ],
        then: (true, (Some((1, 1)), Some((1, 1))), (Some(2), None), true),
        reaps: &[1],
        last_turns: &[(17, None, 1), (1, Some(17), 0), (0, Some(1), 0)],
        last: (false, (Some((1, 1)), Some((1, 1))), (None, None), true),
    },
];

/// Whether the cell has the entity's real.
pub fn has_real(net: &Net<Node>, cell: u8, e: u32) -> bool {
    match net.node(cell) {
        Some(node) => node.has_real(e),
        None => false,
    }
}

fn copy_version(net: &Net<Node>, cell: u8) -> Option<u64> {
    Some(net.node(cell)?.as_cell()?.copies().get(1)?.version)
}

fn route(net: &Net<Node>, base: u8) -> Option<(u8, u64)> {
    net.node(base)?.as_base()?.route(1)
}

fn seen_in(net: &Net<Node>) -> Seen {
    let real = has_real(net, 1, 1);
    let routes = (route(net, 16), route(net, 17));
    let copies = (copy_version(net, 0), copy_version(net, 2));
    (real, routes, copies, net.is_quiet())
}

// Makes an event, if it is enabled.
fn step(world: &mut World, alloc: Global, event: Event) -> Result<(), Fail> {
    if !world.net().enabled(event) {
        return Err("not enabled")?;
    }
    Ok(world.step(alloc, event)?)
}

// The events happen. Whether after each the entity is in so many places.
fn play(alloc: Global, world: &mut World, turns: &[Turn]) -> Result<bool, Fail> {
    for (node, from, places) in turns {
        let node = *node;
        let from = *from;
        step(world, alloc, Event { node, from })?;
        if count_holders(world, 1) != *places {
            return Ok(false);
        }
    }
    Ok(true)
}

// Whether a row is kept to, before who is reaped and after it.
fn play_row(alloc: Global, row: &Row) -> Result<(bool, bool), Fail> {
    let mut world = first_world(alloc, &row.first)?;
    let well = play(alloc, &mut world, row.turns)? && seen_in(world.net()) == row.then;
    let mut world = world.load_reaps(row.reaps)?;
    let last = play(alloc, &mut world, row.last_turns)? && seen_in(world.net()) == row.last;
    Ok((well, last))
}

#[test]
fn worlds_go_as_the_rows_say(rt: HostRuntime) -> Result<(), Fail> {
    for row in &ROWS {
        let kept = play_row(rt.alloc(), row)?;
        assert_eq!(rt; kept, (true, true), "{}", row.name);
    }
    Ok(())
}

// The number of the boundaries that the cell goes by.
fn bounds_number(net: &Net<Node>, cell: u8) -> Option<u64> {
    Some(net.node(cell)?.as_cell()?.bounds_number())
}

// The avatar is settled by the boundary at x = 5000 first, of which cell 1 has a copy. Then both cells hear of the other boundary, and it
// settles again.
const MOVES: &[Turn] = &[
    (0, None, 1),
    (1, Some(0), 1),
    (16, None, 1),
    (1, Some(16), 1),
    (0, Some(16), 1),
    (0, None, 1),
    (1, Some(0), 1),
    (16, Some(1), 1),
    (17, Some(1), 1),
];

#[test]
fn boundaries_are_heard_by_every_cell(rt: HostRuntime) -> Result<(), Fail> {
    let mut world = first_world(rt.alloc(), &MOVED)?;
    let well = play(rt.alloc(), &mut world, MOVES)?;
    let numbers = (bounds_number(world.net(), 0), bounds_number(world.net(), 1));
    let seen = (well, numbers, seen_in(world.net()));
    assert_eq!(rt; seen, (true, (Some(1), Some(1)), HELD));
    Ok(())
}
