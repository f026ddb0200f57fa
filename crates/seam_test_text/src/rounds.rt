// What rounds of accepted lines bring.
use crate::books::{keep, opened};
use seam_accept::{Book, next_count};
use seam_call::{Batch, Order};
use seam_defs::Part;
use std::alloc::{AllocError, Global};
use std::test::Fail;

// Lines of a round in which everything happens but a division of the space.
const PARTS_OF_A_ROUND: &[&str] = &[
    "create 1 Avatar 0 0",
    "create 2 Chest 0 0",
    "client 1",
    "client 2",
    "call c1 2 lift",
    "tick",
    "balance",
    "destroy 1",
];

// What a round of these lines brings, where all are kept.
fn batch_of(book: &mut Book, lines: &[&str]) -> Option<Batch> {
    for line in lines {
        if !keep(book, line.as_bytes()) {
            return None;
        }
    }
    Some(book.take_batch())
}

// The nodes that a batch has orders for.
fn nodes_of(alloc: Global, batch: &Batch) -> Result<Vec<u8>, AllocError> {
    let mut nodes = Vec::new(alloc);
    for (node, _) in batch.orders.as_slice() {
        nodes.push(*node)?;
    }
    Ok(nodes)
}

fn are_numbers(numbers: &[u32], wanted: &[u32]) -> bool {
    numbers == wanted
}

fn are_nodes(nodes: &[u8], wanted: &[u8]) -> bool {
    nodes == wanted
}

// The client of entity 1 is on the second of two base nodes, and the tick goes to the first.
fn has_all_parts(alloc: Global, batch: &Batch) -> Result<bool, AllocError> {
    let creates = batch.creates.as_slice().len();
    let clients = are_numbers(batch.clients.as_slice(), &[1, 2]);
    let nodes = nodes_of(alloc, batch)?;
    let nodes = are_nodes(&nodes, &[17, 16]);
    let destroys = are_numbers(batch.destroys.as_slice(), &[1]);
    Ok((creates, clients, nodes, destroys, batch.balance) == (2, true, true, true, true))
}

fn brings_all_parts(alloc: Global, book: &mut Book) -> Result<bool, AllocError> {
    match batch_of(book, PARTS_OF_A_ROUND) {
        Some(batch) => has_all_parts(alloc, &batch),
        None => Ok(false),
    }
}

// Whether an order of a batch gives this node the call of this number for a part.
fn is_call(batch: &Batch, at: usize, node: u8, part: Part, number: u64) -> bool {
    match batch.orders.as_slice().get(at) {
        Some((to, Order::Cell(call))) => {
            matches!(part, Part::Cell) && *to == node && call.number == number
        }
        Some((to, Order::Base(call))) => {
            matches!(part, Part::Base) && *to == node && call.number == number
        }
        _ => false,
    }
}

const CALLS: &[&str] = &[
    "create 7 Avatar 3 4",
    "call b1 7 hit 1",
    "call b2 7 hit 1",
    "move b2 7 5 5",
    "call b2 7 pay 5",
    "call b1 7 promote",
];

fn creates_one(batch: &Batch) -> bool {
    match batch.creates.as_slice().first() {
        Some(create) => (create.entity, create.ty, create.pos.x) == (7, 0, 3),
        None => false,
    }
}

fn are_calls(batch: &Batch) -> bool {
    creates_one(batch)
        && is_call(batch, 0, 16, Part::Cell, 1)
        && is_call(batch, 1, 17, Part::Cell, 1)
        && is_call(batch, 2, 17, Part::Cell, 2)
        && is_call(batch, 3, 17, Part::Base, 1)
        && is_call(batch, 4, 16, Part::Base, 1)
}

fn brings_calls(book: &mut Book) -> bool {
    match batch_of(book, CALLS) {
        Some(batch) => are_calls(&batch),
        None => false,
    }
}

// The next call of the second base node has the next number.
fn brings_the_next_call(book: &mut Book) -> bool {
    match batch_of(book, &["call b2 7 hit 1"]) {
        Some(batch) => is_call(&batch, 0, 17, Part::Cell, 3),
        None => false,
    }
}

fn ends_two_rounds(book: &mut Book) -> bool {
    let first = brings_calls(book);
    let count = book.count();
    first && count == 0 && brings_the_next_call(book)
}

fn parts(alloc: Global) -> Result<bool, AllocError> {
    let mut book = opened(alloc)?;
    brings_all_parts(alloc, &mut book)
}

fn called(alloc: Global) -> Result<bool, AllocError> {
    let mut book = opened(alloc)?;
    Ok(ends_two_rounds(&mut book))
}

#[test]
fn a_round_is_a_batch(rt: HostRuntime) -> Result<(), Fail> {
    let parts = parts(rt.alloc())?;
    let called = called(rt.alloc())?;
    let counts = (next_count(7), next_count(u64::MAX));
    assert_eq!(rt;
        (parts, called, counts),
        (true, true, (Ok(8), Err(AllocError)))
    );
    Ok(())
}
