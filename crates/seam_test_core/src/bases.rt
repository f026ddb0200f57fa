// The cases of a base node's step.
use crate::feeding::{AVATAR, Fed, Makes, builtin, feed, order};
use crate::told::{Told, are_sent};
use seam_base::Base;
use seam_defs::Settings;
use seam_entity::Msg;
use seam_machine::{Machine, Out};
use std::alloc::{AllocError, Global};
use std::test::Fail;

// What comes to a base node: its task or a message, or the order from which the message comes, which it executes at once.
#[derive(Clone, Copy)]
enum Comes {
    Fed(Fed),
    Order(Fed),
}

// What it has then: how many lines the client of entity 1 was shown, where its base part is here, its route, and whether a task.
#[derive(Clone, Copy, PartialEq, Eq)]
struct Seen {
    lines: Option<usize>,
    route: Option<(u8, u64)>,
    task: bool,
}

const FIRST: Seen = Seen {
    lines: Some(1),
    route: Some((1, 0)),
    task: false,
};

const PROMOTED: Seen = Seen {
    lines: Some(2),
    route: Some((1, 0)),
    task: false,
};

const REAPED: Seen = Seen {
    lines: None,
    route: Some((1, 0)),
    task: false,
};

const GONE: Seen = Seen {
    lines: Some(1),
    route: Some((0, 3)),
    task: false,
};

const BACK: Seen = Seen {
    lines: Some(1),
    route: Some((1, 4)),
    task: false,
};

const PROMOTED_BACK: Seen = Seen {
    lines: Some(2),
    route: Some((1, 4)),
    task: false,
};

const STUCK: Seen = Seen {
    lines: Some(2),
    route: Some((1, 4)),
    task: true,
};

// What comes, what the base node sends, and what it has then.
#[derive(Clone, Copy)]
struct Row<'a>(Comes, &'a [(u8, Told)], Seen);

// Base node 17 of two, without entities.
fn empty(alloc: Global) -> Result<Base, AllocError> {
    Ok(Base::new(alloc, 17, builtin(alloc)?, Settings::standard()))
}

fn add(base: &mut Base, alloc: Global) -> Result<(), AllocError> {
    base.add_entity(alloc, 1, AVATAR, 1)?;
    base.add_entity(alloc, 2, AVATAR, 0)
}

fn attach(base: &mut Base, alloc: Global) -> Result<(), AllocError> {
    if base.has_client(1) {
        return Ok(());
    }
    base.attach(alloc, 1)
}

// In a space of two cells, it gets the base part and the client of entity 1, whose real is in cell 1, and the route of entity 2,
// whose base part is at the other base node, to cell 0.
fn load(base: &mut Base, alloc: Global) -> Result<(), AllocError> {
    add(base, alloc)?;
    base.start_round(alloc, 2);
    attach(base, alloc)
}

fn give(base: &mut Base, makes: Makes<'_>, fed: Fed) -> Result<(), Fail> {
    if base.add_order(order(makes, fed)?).is_err() {
        return Err("no memory")?;
    }
    Ok(())
}

fn come(base: &mut Base, makes: Makes<'_>, comes: Comes) -> Result<Out<Msg>, Fail> {
    match comes {
        Comes::Fed(fed) => feed(base, makes, fed),
        Comes::Order(fed) => {
            give(base, makes, fed)?;
            feed(base, makes, Fed::Task)
        }
    }
}

fn lines_of(base: &Base) -> Option<usize> {
    match base.part(1) {
        Some(part) => Some(part.lines().len()),
        None => None,
    }
}

fn seen_in(base: &Base) -> Seen {
    Seen {
        lines: lines_of(base),
        route: base.route(1),
        task: base.has_task(),
    }
}

// What comes is as the rows say: gives the number of the first row that the base node does not keep to.
fn play(makes: Makes<'_>, base: &mut Base, rows: &[Row]) -> Result<Option<u32>, Fail> {
    let mut number = 0u32;
    for row in rows {
        let Row(comes, sent, then) = *row;
        number = number.saturating_add(1);
        let mut out = come(base, makes, comes)?;
        let well = are_sent(&mut out, sent) && seen_in(base) == then;
        if !well {
            return Ok(Some(number));
        }
    }
    Ok(None)
}

fn play_all(makes: Makes<'_>, base: &mut Base, parts: &[&[Row]]) -> Result<Option<u32>, Fail> {
    load(base, makes.alloc)?;
    for rows in parts {
        if let Some(number) = play(makes, base, rows)? {
            return Ok(Some(number));
        }
    }
    Ok(None)
}

// The base node is owned here alone, where there is one way out: a drop of all its parts is long to prove.
fn play_loaded(makes: Makes<'_>, parts: &[&[Row]]) -> Result<Option<u32>, Fail> {
    let mut base = empty(makes.alloc)?;
    play_all(makes, &mut base, parts)
}

// Cell order; base orders about an entity of this node, and about one of the other node, to which the call goes; tick order; reap
// order, after which the route stays.
const ORDERS: &[Row] = &[
    Row(
        Comes::Order(Fed::Walk(2, 1, 4_950)),
        &[(0, Told::Call(2, 1))],
        FIRST,
    ),
    Row(Comes::Order(Fed::BaseCall(1, 1)), &[], PROMOTED),
    Row(
        Comes::Order(Fed::BaseCall(2, 1)),
        &[(16, Told::BaseCall(2, 1))],
        PROMOTED,
    ),
    Row(
        Comes::Order(Fed::Tick),
        &[(0, Told::Tick), (1, Told::Tick)],
        PROMOTED,
    ),
    Row(Comes::Order(Fed::Reap(1)), &[(1, Told::Reap(1))], REAPED),
];

const BUSY: Seen = Seen {
    lines: Some(2),
    route: Some((1, 0)),
    task: true,
};

const TWICE: Seen = Seen {
    lines: Some(3),
    route: Some((1, 0)),
    task: false,
};

// The second call waits for the first, and is executed by the task then.
const CALLS: &[Row] = &[
    Row(Comes::Fed(Fed::BaseCall(1, 2)), &[], FIRST),
    Row(Comes::Fed(Fed::BaseCall(1, 1)), &[], BUSY),
    Row(Comes::Fed(Fed::Task), &[], TWICE),
];

// The second update waits for the first, and is shown by the task then.
const UPDATES: &[Row] = &[
    Row(Comes::Fed(Fed::Update(1, 2)), &[], FIRST),
    Row(Comes::Fed(Fed::Update(1, 1)), &[], BUSY),
    Row(Comes::Fed(Fed::Task), &[], TWICE),
];

// Current, of a greater generation, the same one, a lesser one and a greater one again; and a stray one, to no cell.
const CURRENTS: &[Row] = &[
    Row(Comes::Fed(Fed::Current(1, 0, 3)), &[], GONE),
    Row(Comes::Fed(Fed::Current(1, 1, 3)), &[], GONE),
    Row(Comes::Fed(Fed::Current(1, 1, 2)), &[], GONE),
    Row(Comes::Fed(Fed::Current(1, 1, 4)), &[], BACK),
    Row(Comes::Fed(Fed::Current(1, 16, 9)), &[], BACK),
];

// Stray input at a base node: a call and an update of number 0, of a part and for a client that are not here, and a tick.
const STRAYS: &[Row] = &[
    Row(Comes::Fed(Fed::BaseCall(1, 0)), &[], BACK),
    Row(Comes::Fed(Fed::BaseCall(2, 1)), &[], BACK),
    Row(Comes::Fed(Fed::Update(1, 0)), &[], BACK),
    Row(Comes::Fed(Fed::Update(2, 1)), &[], BACK),
    Row(Comes::Fed(Fed::Tick), &[], BACK),
];

// What is for cells. Then the first call is executed; and an order about an entity without a route stays.
const OTHERS: &[Row] = &[
    Row(Comes::Fed(Fed::Walk(1, 1, 4_950)), &[], BACK),
    Row(Comes::Fed(Fed::Hand(1, 5, 5)), &[], BACK),
    Row(Comes::Fed(Fed::Reap(1)), &[], BACK),
    Row(Comes::Fed(Fed::BaseCall(1, 1)), &[], PROMOTED_BACK),
    Row(Comes::Order(Fed::Reap(3)), &[], STUCK),
];

// The rows of a base node, in parts.
struct Case {
    name: &'static str,
    parts: &'static [&'static [Row<'static>]],
}

static CASES: [Case; 4] = [
    Case {
        name: "orders are passed on",
        parts: &[ORDERS],
    },
    Case {
        name: "calls are executed in order",
        parts: &[CALLS],
    },
    Case {
        name: "updates are shown in order",
        parts: &[UPDATES],
    },
    Case {
        name: "lesser currents and stray input change nothing",
        parts: &[CURRENTS, STRAYS, OTHERS],
    },
];

#[test]
fn base_nodes_send_and_have_what_the_rows_say(rt: HostRuntime) -> Result<(), Fail> {
    let alloc: Global = rt.alloc();
    let defs = builtin(alloc)?;
    for case in &CASES {
        let wrong = play_loaded(Makes { alloc, defs: &defs }, case.parts)?;
        assert_eq!(rt; wrong, None, "{}", case.name);
    }
    Ok(())
}
