use seam_cell_parts::{EntityQueue, EntitySet};
use std::alloc::AllocError;
use std::test::Fail;

fn fill(set: &mut EntitySet, queue: &mut EntityQueue) -> Result<(), AllocError> {
    set.insert(7)?;
    set.insert(2)?;
    set.insert(5)?;
    queue.refill(set)
}

// What is left first in the set without 2, what the queue without 5 gives in turn, and what is first in it when it is filled anew.
fn take(set: &mut EntitySet, queue: &mut EntityQueue) -> Result<[Option<u32>; 4], AllocError> {
    set.remove(2);
    queue.remove(5);
    let left = set.first();
    let first = queue.take_first();
    let second = queue.take_first();
    queue.refill(set)?;
    Ok([left, first, second, queue.first()])
}

#[test]
fn a_queue_is_in_the_order_of_its_set(rt: HostRuntime) -> Result<(), Fail> {
    let mut set = EntitySet::new(rt.alloc());
    let mut queue = EntityQueue::new(rt.alloc());
    fill(&mut set, &mut queue)?;
    assert_eq!(rt;
        take(&mut set, &mut queue)?,
        [Some(5), Some(2), Some(7), Some(5)]
    );
    Ok(())
}
