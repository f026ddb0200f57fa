use crate::builtin::sent;
use seam_table::{HashKey, Table};
use std::alloc::{AllocError, Global};
use std::test::Fail;

// What is asked of a table of numbers.
#[derive(Clone, Copy)]
enum Does {
    Put(u32, u32),
    // Each number from 1 to 99 under its triple.
    Fill,
    Reserve(u32),
    PutReserved(u32, u32),
    Take(u32),
    Remove(u32),
    Get(u32),
    HasRoom(u32),
    // Each item is halved where it lies.
    Halve,
    // Whether just these have an item, in this order.
    Numbers(&'static [u32]),
}

// What it gives: an item, if it has one, or whether it is so or was done.
#[derive(Clone, Copy, PartialEq, Eq)]
enum Gives {
    Item(Option<u32>),
    Is(bool),
}

type Row = (Does, Gives);

// An item is changed in the room that it left.
const CHANGED: &[Row] = &[
    (Does::Put(7, 70), Gives::Is(true)),
    (Does::Reserve(2), Gives::Is(true)),
    (Does::HasRoom(2), Gives::Is(true)),
    (Does::HasRoom(3), Gives::Is(false)),
    (Does::Get(2), Gives::Item(None)),
    (Does::Take(7), Gives::Item(Some(70))),
    (Does::Get(7), Gives::Item(None)),
    (Does::Reserve(7), Gives::Is(true)),
    (Does::PutReserved(7, 71), Gives::Item(None)),
    (Does::Reserve(2), Gives::Is(true)),
    (Does::PutReserved(2, 21), Gives::Item(None)),
    (Does::Get(7), Gives::Item(Some(71))),
    (Does::Get(2), Gives::Item(Some(21))),
    (Does::Remove(2), Gives::Item(Some(21))),
    (Does::HasRoom(2), Gives::Is(false)),
    (Does::Remove(2), Gives::Item(None)),
];

// The numbers come in rising order.
const LISTED: &[Row] = &[
    (Does::Numbers(&[]), Gives::Is(true)),
    (Does::Put(9, 90), Gives::Is(true)),
    (Does::Put(2, 20), Gives::Is(true)),
    (Does::Put(7, 70), Gives::Is(true)),
    (Does::Put(4, 40), Gives::Is(true)),
    (Does::Reserve(3), Gives::Is(true)),
    (Does::Take(7), Gives::Item(Some(70))),
    (Does::Numbers(&[2, 4, 9]), Gives::Is(true)),
];

// Each item is changed where it lies.
const HALVED: &[Row] = &[
    (Does::Put(9, 90), Gives::Is(true)),
    (Does::Put(2, 20), Gives::Is(true)),
    (Does::Put(7, 70), Gives::Is(true)),
    (Does::Reserve(4), Gives::Is(true)),
    (Does::Take(7), Gives::Item(Some(70))),
    (Does::Halve, Gives::Is(true)),
    (Does::HasRoom(4), Gives::Is(true)),
    (Does::HasRoom(7), Gives::Is(true)),
    (Does::Get(2), Gives::Item(Some(10))),
    (Does::Get(9), Gives::Item(Some(45))),
    (Does::Get(7), Gives::Item(None)),
];

// Numbers are found in any order.
const FOUND: &[Row] = &[
    (Does::Get(0), Gives::Item(None)),
    (Does::Fill, Gives::Is(true)),
    (Does::Reserve(10), Gives::Is(true)),
    // rising, and absent between two items
    (Does::Get(0), Gives::Item(None)),
    (Does::Get(3), Gives::Item(Some(1))),
    (Does::Get(6), Gives::Item(Some(2))),
    (Does::Get(10), Gives::Item(None)),
    (Does::Get(11), Gives::Item(None)),
    (Does::Get(12), Gives::Item(Some(4))),
    (Does::Get(240), Gives::Item(Some(80))),
    (Does::Get(292), Gives::Item(None)),
    (Does::Get(297), Gives::Item(Some(99))),
    (Does::Get(298), Gives::Item(None)),
    (Does::Get(4000), Gives::Item(None)),
    // falling
    (Does::Get(297), Gives::Item(Some(99))),
    (Does::Get(9), Gives::Item(Some(3))),
    (Does::Get(8), Gives::Item(None)),
    (Does::Get(4001), Gives::Item(None)),
];

struct Case {
    name: &'static str,
    rows: &'static [Row],
}

static CASES: [Case; 4] = [
    Case {
        name: "an item is changed in the room that it left",
        rows: CHANGED,
    },
    Case {
        name: "numbers are listed in rising order",
        rows: LISTED,
    },
    Case {
        name: "each item is changed where it lies",
        rows: HALVED,
    },
    Case {
        name: "numbers are found in any order",
        rows: FOUND,
    },
];

fn fill(table: &mut Table<u32>) -> bool {
    for n in 1..100 {
        if table.put(3 * n, n).is_err() {
            return false;
        }
    }
    true
}

fn has_numbers(table: &Table<u32>, alloc: Global, wanted: &[u32]) -> Result<bool, AllocError> {
    Ok(table.numbers(alloc)?.as_slice() == wanted)
}

fn put_reserved(table: &mut Table<u32>, number: u32, item: u32) -> Gives {
    if !table.has_room(number) {
        return Gives::Is(false);
    }
    Gives::Item(table.put_reserved(number, item))
}

fn act(alloc: Global, table: &mut Table<u32>, does: Does) -> Result<Gives, AllocError> {
    match does {
        Does::Put(number, item) => Ok(Gives::Is(table.put(number, item).is_ok())),
        Does::Fill => Ok(Gives::Is(fill(table))),
        Does::Reserve(number) => Ok(Gives::Is(table.reserve(number).is_ok())),
        Does::PutReserved(number, item) => Ok(put_reserved(table, number, item)),
        Does::Take(number) => Ok(Gives::Item(table.take(number))),
        Does::Remove(number) => Ok(Gives::Item(table.remove(number))),
        Does::Get(number) => Ok(Gives::Item(table.get(number).copied())),
        Does::HasRoom(number) => Ok(Gives::Is(table.has_room(number))),
        Does::Halve => {
            table.change_each(|item| *item /= 2);
            Ok(Gives::Is(true))
        }
        Does::Numbers(wanted) => Ok(Gives::Is(has_numbers(table, alloc, wanted)?)),
    }
}

// How many rows a table keeps to before the first one that it does not.
fn play(alloc: Global, table: &mut Table<u32>, rows: &[Row]) -> Result<usize, AllocError> {
    let mut kept = 0usize;
    for (does, gives) in rows {
        if act(alloc, table, *does)? != *gives {
            return Ok(kept);
        }
        kept = kept.saturating_add(1);
    }
    Ok(kept)
}

fn played(alloc: Global, rows: &[Row]) -> Result<usize, AllocError> {
    let mut table = sent(Table::new(alloc, HashKey::new(1)));
    play(alloc, &mut table, rows)
}

#[test]
fn tables_give_what_the_rows_say(rt: HostRuntime) -> Result<(), Fail> {
    for case in &CASES {
        let kept = played(rt.alloc(), case.rows)?;
        assert_eq!(rt; kept, case.rows.len(), "{}", case.name);
    }
    Ok(())
}
