// The cases of a cell's step.
ghost use Rattle.std.specs.Prelude.{◌≡◌, IfOk};
ghost use Rattle.seam_node_steps.specs.Loads.{one_cell};

use crate::feeding::{AVATAR, Fed, Makes, PLACE, builtin, feed};
use crate::told::{Told, are_sent};
use seam_call::Create;
use seam_cell::Cell;
use seam_defs::Settings;
use seam_machine::Machine;
use seam_tree::{Axis, Tree};
use std::alloc::{AllocError, Global};
use std::test::Fail;

// What a cell has then: whether the real of entity 1, the version of a copy of it, and whether a task.
#[derive(Clone, Copy, PartialEq, Eq)]
struct Seen {
    real: bool,
    copy: Option<u64>,
    task: bool,
}

const HERE: Seen = Seen {
    real: true,
    copy: None,
    task: false,
};

const BUSY: Seen = Seen {
    real: true,
    copy: None,
    task: true,
};

const NONE: Seen = Seen {
    real: false,
    copy: None,
    task: false,
};

const COPIED: Seen = Seen {
    real: false,
    copy: Some(2),
    task: false,
};

// What a cell is fed, what it sends, and what it has then.
#[derive(Clone, Copy)]
struct Row<'a>(Fed, &'a [(u8, Told)], Seen);

// Cell 0, without entities, in a space that it has alone.
fn empty(alloc: Global) -> Result<Cell, AllocError>
    ensures tree { IfOk result (λ c. c.tree ≡ one_cell 10000) }
    ensures size { IfOk result (λ c. c.here.settings.size ≡ 10000) }
{
    Cell::new(alloc, 0, builtin(alloc)?, Settings::standard())
}

// A round begins in it, in a space of two cells, whose boundary is at x = 5000.
fn begin(cell: &mut Cell, alloc: Global) -> Result<(), AllocError>
    requires { cell.old.here.settings.size ≡ 10000 }
{
    let mut tree = Tree::one(10_000);
    let _cut = tree.cut(0, Axis::X, 5_000);
    cell.start_round(alloc, tree)
}

fn avatar(entity: u32) -> Create {
    Create {
        entity,
        ty: AVATAR,
        pos: PLACE,
    }
}

// A real is made in it, where it has none of the entity yet and the place lies in its space.
fn make(cell: &mut Cell, alloc: Global, create: Create, space: &Tree) -> Result<(), AllocError>
    requires { cell.old.tree ≡ space.now }
    ensures tree { cell.new.tree ≡ cell.old.tree }
    ensures here { cell.new.here ≡ cell.old.here }
{
    if cell.has_real(create.entity) {
        return Ok(());
    }
    if !space.holds(create.pos) {
        return Ok(());
    }
    cell.add_entity(alloc, create)
}

// Entities 1 and 2 are made in it, and a round begins.
fn load(cell: &mut Cell, alloc: Global, space: &Tree) -> Result<(), AllocError>
    requires tree { cell.old.tree ≡ space.now }
    requires size { cell.old.here.settings.size ≡ 10000 }
{
    make(cell, alloc, avatar(1), space)?;
    make(cell, alloc, avatar(2), space)?;
    begin(cell, alloc)
}

// What cell 0 of two has before its rows: nothing, or entities 1 and 2, which are to settle, and a client of entity 1.
#[derive(Clone, Copy)]
enum Before {
    Nothing,
    Entities,
}

// What cell 0 has before, and its rows, in parts.
struct Case {
    name: &'static str,
    before: Before,
    parts: &'static [&'static [Row<'static>]],
}

fn start(cell: &mut Cell, alloc: Global, before: Before) -> Result<(), AllocError>
    requires tree { cell.old.tree ≡ one_cell 10000 }
    requires size { cell.old.here.settings.size ≡ 10000 }
{
    match before {
        Before::Nothing => begin(cell, alloc),
        Before::Entities => {
            load(cell, alloc, &Tree::one(10_000))?;
            cell.attach(alloc, 1)
        }
    }
}

fn seen_in(cell: &Cell) -> Seen {
    let copy = match cell.copies().get(1) {
        Some(copy) => Some(copy.version),
        None => None,
    };
    Seen {
        real: cell.has_real(1),
        copy,
        task: cell.has_task(),
    }
}

// Feeds the cell as the rows say, and gives the number of the first row that it does not keep to.
fn play(makes: Makes<'_>, cell: &mut Cell, rows: &[Row]) -> Result<Option<u32>, Fail> {
    let mut number = 0u32;
    for row in rows {
        let Row(fed, sent, then) = *row;
        number = number.saturating_add(1);
        let mut out = feed(cell, makes, fed)?;
        let well = are_sent(&mut out, sent) && seen_in(cell) == then;
        if !well {
            return Ok(Some(number));
        }
    }
    Ok(None)
}

fn play_all(makes: Makes<'_>, cell: &mut Cell, case: &Case) -> Result<Option<u32>, Fail>
    requires tree { cell.old.tree ≡ one_cell 10000 }
    requires size { cell.old.here.settings.size ≡ 10000 }
{
    start(cell, makes.alloc, case.before)?;
    for rows in case.parts {
        if let Some(number) = play(makes, cell, rows)? {
            return Ok(Some(number));
        }
    }
    Ok(None)
}

// The cell is owned here alone, where there is one way out: a drop of all its parts is long to prove.
fn play_case(makes: Makes<'_>, case: &Case) -> Result<Option<u32>, Fail> {
    let mut cell = empty(makes.alloc)?;
    play_all(makes, &mut cell, case)
}

// Survey task, of each real in rising number: cell 1, which is near, gets copies. Then the client is told of itself and of entity 2.
const SURVEYS: &[Row] = &[
    Row(Fed::Task, &[(1, Told::Set(1, 1, 0))], BUSY),
    Row(Fed::Task, &[(1, Told::Set(1, 2, 0))], HERE),
    Row(Fed::Tick, &[], BUSY),
    Row(
        Fed::Task,
        &[(17, Told::Own(1, 0)), (17, Told::Enter(2, 2, 0))],
        HERE,
    ),
];

// Reap, of the first entity of the survey list: the other one is still to settle, and then nothing is to be done.
const DUE_REAPS: &[Row] = &[
    Row(
        Fed::Reap(1),
        &[],
        Seen {
            real: false,
            copy: None,
            task: true,
        },
    ),
    Row(Fed::Task, &[(1, Told::Set(1, 2, 0))], NONE),
];

// Hand-over comes: the base nodes are told.
const COMES: Row = Row(
    Fed::Hand(1, 1, 1),
    &[(16, Told::Current(1, 0, 1)), (17, Told::Current(1, 0, 1))],
    HERE,
);

// Call, real here: held, executed, and late.
const CALLS: &[Row] = &[
    COMES,
    Row(Fed::Walk(1, 2, 5_100), &[], HERE),
    Row(Fed::Walk(1, 1, 4_950), &[(1, Told::Set(2, 1, 1))], BUSY),
    Row(Fed::Walk(1, 1, 4_960), &[], BUSY),
];

// Ready-call task, after which the real goes, and call, next place. When the real comes back, the copy goes.
const LEAVES: &[Row] = &[
    Row(Fed::Task, &[(1, Told::Hand(1, 3, 2))], COPIED),
    Row(Fed::Walk(1, 3, 5_200), &[(1, Told::Call(1, 3))], COPIED),
    Row(
        Fed::Hand(1, 4, 3),
        &[(16, Told::Current(1, 0, 3)), (17, Told::Current(1, 0, 3))],
        HERE,
    ),
];

// Reap, after which there is no next place any more; its beat is kept.
const REAPS: &[Row] = &[
    Row(Fed::Reap(1), &[], NONE),
    Row(Fed::Walk(1, 4, 4_900), &[], NONE),
    Row(Fed::Set(5, 1, 2), &[], NONE),
    Row(Fed::Set(6, 1, 2), &[], COPIED),
];

// Ghost set and ghost drop, each of a greater beat and the same one, and a set of a lesser one.
const GHOSTS: &[Row] = &[
    Row(Fed::Set(2, 1, 2), &[], COPIED),
    Row(Fed::Set(2, 1, 5), &[], COPIED),
    Row(Fed::Drop(2, 1), &[], COPIED),
    Row(Fed::Drop(4, 1), &[], NONE),
    Row(Fed::Set(3, 1, 2), &[], NONE),
];

// Ghost set, where the real is: nothing is kept of it, as is seen when the real is gone.
const IGNORED: &[Row] = &[
    COMES,
    Row(Fed::Set(8, 1, 5), &[], HERE),
    Row(Fed::Reap(1), &[], NONE),
    Row(Fed::Set(3, 1, 2), &[], COPIED),
];

const WATCHER_COMES: Row = Row(
    Fed::Watcher(1, 1, 1),
    &[(16, Told::Current(1, 0, 1)), (17, Told::Current(1, 0, 1))],
    HERE,
);

const OTHER_COMES: Row = Row(
    Fed::Hand(2, 0, 0),
    &[(16, Told::Current(2, 0, 0)), (17, Told::Current(2, 0, 0))],
    HERE,
);

// Tick and look task: the client is told its own state and who is there.
const LOOKS: &[Row] = &[
    WATCHER_COMES,
    OTHER_COMES,
    Row(Fed::Tick, &[], BUSY),
    Row(
        Fed::Task,
        &[(17, Told::Own(1, 0)), (17, Told::Enter(2, 2, 0))],
        HERE,
    ),
];

// Tick and look task: the client is told its own change, and who was reaped.
const CHANGES: &[Row] = &[
    Row(Fed::Walk(1, 1, 4_950), &[(1, Told::Set(2, 1, 1))], HERE),
    Row(Fed::Reap(2), &[], HERE),
    Row(Fed::Tick, &[], BUSY),
    Row(
        Fed::Task,
        &[(17, Told::Own(3, 1)), (17, Told::Leave(4, 2))],
        HERE,
    ),
    Row(Fed::Tick, &[], BUSY),
];

// Look task of a client that knows all; and reap, from the look list too: the cell with a copy is told.
const LAST_LOOKS: &[Row] = &[
    Row(Fed::Task, &[], HERE),
    Row(Fed::Tick, &[], BUSY),
    Row(Fed::Reap(1), &[(1, Told::Drop(3, 1))], NONE),
];

// Stray input at a cell: calls of number 0 and to a place outside the space, a real that is here, and a reap of one that is not.
const STRAYS: &[Row] = &[
    COMES,
    Row(Fed::Walk(1, 0, 4_960), &[], HERE),
    Row(Fed::Walk(1, 1, 10_000), &[], HERE),
    Row(Fed::Hand(1, 9, 9), &[], HERE),
    Row(Fed::Reap(3), &[], HERE),
];

// A call for an entity of which the cell knows nothing, and what is for base nodes. Then the first call is executed, at the next beat.
const OTHERS: &[Row] = &[
    Row(Fed::Walk(3, 1, 4_960), &[], HERE),
    Row(Fed::BaseCall(1, 1), &[], HERE),
    Row(Fed::Current(1, 1, 9), &[], HERE),
    Row(Fed::Update(1, 1), &[], HERE),
    Row(Fed::Walk(1, 1, 4_940), &[(1, Told::Set(2, 1, 1))], HERE),
];

static CASES: [Case; 7] = [
    Case {
        name: "reals settle in rising number",
        before: Before::Entities,
        parts: &[SURVEYS],
    },
    Case {
        name: "a reaped entity does not settle",
        before: Before::Entities,
        parts: &[DUE_REAPS],
    },
    Case {
        name: "calls are executed in turn where the real is",
        before: Before::Nothing,
        parts: &[CALLS, LEAVES, REAPS],
    },
    Case {
        name: "the greatest beat tells of a ghost",
        before: Before::Nothing,
        parts: &[GHOSTS],
    },
    Case {
        name: "a ghost of a real is ignored",
        before: Before::Nothing,
        parts: &[IGNORED],
    },
    Case {
        name: "a witness looks",
        before: Before::Nothing,
        parts: &[LOOKS, CHANGES, LAST_LOOKS],
    },
    Case {
        name: "stray input changes nothing",
        before: Before::Nothing,
        parts: &[STRAYS, OTHERS],
    },
];

#[test]
fn cells_send_and_have_what_the_rows_say(rt: HostRuntime) -> Result<(), Fail> {
    let alloc: Global = rt.alloc();
    let defs = builtin(alloc)?;
    for case in &CASES {
        let wrong = play_case(Makes { alloc, defs: &defs }, case)?;
        assert_eq!(rt; wrong, None, "{}", case.name);
    }
    Ok(())
}
