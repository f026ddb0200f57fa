//! A link whose items spill, and one whose ends are in two threads.

use crate::sent;
use seam_link::{LinkIn, LinkOut, drain, link};
use std::alloc::{AllocError, Global};

fn put_all(out: &mut LinkOut<u32>, count: u32) -> bool {
    for i in 0..count {
        if out.put(i).is_err() {
            return false;
        }
    }
    true
}

// The first number that is not taken in its turn.
fn take_all(out: &mut LinkOut<u32>, end: &mut LinkIn<u32>, count: u32) -> Option<u32> {
    for i in 0..count {
        if end.take() != Some(i) {
            return Some(i);
        }
        out.flush();
    }
    None
}

// A thousand items go through a ring of 64: whether all were put, the first that was not taken in its turn, and what is taken after them.
fn go_through(alloc: Global) -> Result<(bool, Option<u32>, Option<u32>), AllocError> {
    let (mut out, mut end) = link::<u32>(alloc, 64)?;
    let put = put_all(&mut out, 1000);
    let wrong = take_all(&mut out, &mut end, 1000);
    Ok((put, wrong, end.take()))
}

#[test]
fn what_is_put_is_taken_in_order(rt: HostRuntime) -> Result<(), AllocError> {
    let alloc: Global = rt.alloc();
    let many = go_through(alloc)?;
    let (out, end) = link::<u32>(alloc, 1)?;
    let (mut out, mut end) = (sent(out), sent(end));
    let one = out.put(1).is_ok();
    let two = out.put(2).is_ok();
    let three = out.put(3).is_ok();
    let first = end.take();
    let none = end.take();
    out.flush();
    let second = end.take();
    let (left, empty) = drain(alloc, out, end)?;
    let (mut out, mut end) = empty.ends();
    let again = (out.put(4).is_ok(), end.take(), end.take());
    assert_eq!(rt;
        ((one, two, three), many),
        ((true, true, true), (true, None, None))
    );
    assert_eq!(rt;
        (first, none, second, left.as_slice()),
        (Some(1), None, Some(2), &[3][..])
    );
    assert_eq!(rt; again, (true, Some(4), None));
    Ok(())
}
