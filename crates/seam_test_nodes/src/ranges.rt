use crate::builtin::sent;
use seam_geo::Pos;
use seam_range::{Location, RangeList};
use std::alloc::AllocError;
use std::test::Fail;

const CORNER: Pos = Pos { x: 0, z: 0 };

const ONE: Location = Location {
    version: 0,
    pos: Pos { x: 0, z: 0 },
};

const TWO: Location = Location {
    version: 0,
    pos: Pos { x: 5, z: 5 },
};

const THREE: Location = Location {
    version: 7,
    pos: Pos { x: 6, z: 0 },
};

const MOVED: Location = Location {
    version: 0,
    pos: Pos { x: 9, z: 9 },
};

const NEWER: Location = Location {
    version: 8,
    pos: Pos { x: 6, z: 0 },
};

const FAR: Location = Location {
    version: 1,
    pos: Pos { x: 600, z: 300 },
};

// Whether those within the distance are just these.
fn are_near(
    list: &RangeList,
    p: Pos,
    d: u32,
    wanted: &[(u32, Location)],
) -> Result<bool, AllocError> {
    Ok(list.within(p, d, 0)?.as_slice() == wanted)
}

fn put_three(list: &mut RangeList) -> Result<bool, AllocError> {
    list.put(2, TWO)?;
    list.put(1, ONE)?;
    list.put(3, THREE)?;
    let two = are_near(list, CORNER, 5, &[(1, ONE), (2, TWO)])?;
    Ok(two && are_near(list, CORNER, 5_000, &[(1, ONE), (2, TWO), (3, THREE)])?)
}

fn change_all(list: &mut RangeList) -> Result<bool, AllocError> {
    list.put(1, MOVED)?;
    list.put(3, NEWER)?;
    let first = list.remove(2);
    let again = list.remove(2);
    let one = are_near(list, CORNER, 6, &[(3, NEWER)])?;
    let two = are_near(list, CORNER, 9, &[(1, MOVED), (3, NEWER)])?;
    Ok(first && !again && one && two)
}

fn move_far(list: &mut RangeList) -> Result<bool, AllocError> {
    list.put(1, FAR)?;
    let near = are_near(list, CORNER, 9, &[(3, NEWER)])?;
    Ok(near && are_near(list, Pos { x: 590, z: 310 }, 10, &[(1, FAR)])?)
}

fn look(list: &mut RangeList) -> Result<(bool, bool, bool), AllocError> {
    let put = put_three(list)?;
    let changed = change_all(list)?;
    Ok((put, changed, move_far(list)?))
}

#[test]
fn near_entities_in_rising_number(rt: HostRuntime) -> Result<(), Fail> {
    let mut list = sent(RangeList::new(rt.alloc()));
    assert_eq!(rt; look(&mut list)?, (true, true, true));
    Ok(())
}
