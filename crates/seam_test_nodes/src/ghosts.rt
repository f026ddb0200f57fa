use crate::builtin::sent;
use seam_ghosts::{GhostBook, Kept};
use seam_table::HashKey;
use std::alloc::{AllocError, Global};
use std::test::Fail;

// What became of a copy, or that copy where it came back.
fn heard(book: &mut GhostBook<char>, entity: u32, beat: u64, copy: char) -> Result<Kept, char> {
    book.set(entity, beat, copy).map_err(|refused| refused.item)
}

// A drop comes first: the copy of a lesser beat is ignored.
fn hear_late(book: &mut GhostBook<char>) -> Result<bool, AllocError> {
    let beat = book.beat(7);
    let dropped = book.drop_copy(7, 3)?;
    let late = heard(book, 7, 2, 'p');
    let none = book.get(7).is_none();
    Ok((beat, dropped, late, none) == (0, Kept::Taken, Ok(Kept::Ignored), true))
}

fn hear_in_time(book: &mut GhostBook<char>) -> bool {
    let seven = heard(book, 7, 4, 'q');
    let two = heard(book, 2, 1, 'r');
    let beat = book.beat(7);
    let copy = book.get(7) == Some(&'q');
    (seven, two, beat, copy) == (Ok(Kept::Taken), Ok(Kept::Taken), 4, true)
}

fn lists(book: &GhostBook<char>, alloc: Global, entities: &[u32]) -> Result<bool, AllocError> {
    Ok(book.entities(alloc)?.as_slice() == entities)
}

fn hear(alloc: Global, book: &mut GhostBook<char>) -> Result<(bool, bool, bool), AllocError> {
    let late = hear_late(book)?;
    let in_time = hear_in_time(book);
    Ok((late, in_time, lists(book, alloc, &[2, 7])?))
}

#[test]
fn a_late_copy_is_ignored_after_a_drop(rt: HostRuntime) -> Result<(), Fail> {
    let mut book = sent(GhostBook::new(rt.alloc(), HashKey::new(1)));
    assert_eq!(rt; hear(rt.alloc(), &mut book)?, (true, true, true));
    Ok(())
}
