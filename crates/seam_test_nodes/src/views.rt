ghost use Rattle.std.specs.Prelude.{map};
ghost use Rattle.std.specs.Ordering.{nat_cmp};
ghost use Rattle.std.specs.List.Sorted.{IsStrictlySortedBy};

use crate::builtin::sent;
use seam_geo::Pos;
use seam_table::HashKey;
use seam_view::{Look, Seen, View};
use std::alloc::AllocError;
use std::test::Fail;

const OWN: Pos = Pos { x: 0, z: 0 };

fn seen(entity: u32, version: u64, x: u32) -> [Seen; 1]
    ensures { IsStrictlySortedBy nat_cmp (map (λ s. s.entity) result) }
{
    let pos = Pos { x, z: 0 };
    [Seen {
        entity,
        version,
        pos,
    }]
}

// Whether a look at what is known tells just this; it is kept then.
fn tells(view: &mut View, known: &[Seen], looks: &[Look]) -> Result<bool, AllocError>
    requires { IsStrictlySortedBy nat_cmp (map (λ s. s.entity) known.now) }
{
    let planned = view.plan(OWN, known)?;
    view.keep(known, &planned);
    Ok(planned.as_slice() == looks)
}

fn come_and_go(view: &mut View) -> Result<bool, AllocError> {
    let enters = tells(view, &seen(2, 0, 300), &[Look::Enter(2)])?;
    let one = (view.at(0), view.len()) == (Some((2, 0)), 1);
    let leaves = tells(view, &seen(2, 1, 311), &[Look::Leave(2)])?;
    Ok(enters && one && leaves && (view.shown(2), view.len()) == (Some(0), 0))
}

fn come_back(view: &mut View) -> Result<bool, AllocError> {
    let enters = tells(view, &seen(2, 3, 299), &[Look::Enter(2)])?;
    Ok(enters && (view.at(0), view.shown(2)) == (Some((2, 3)), Some(3)))
}

fn look(view: &mut View) -> Result<(bool, bool), AllocError> {
    let gone = come_and_go(view)?;
    Ok((gone, come_back(view)?))
}

#[test]
fn enters_at_the_radius_and_leaves_past_the_hysteresis(rt: HostRuntime) -> Result<(), Fail> {
    let mut view = sent(View::new(rt.alloc(), HashKey::new(1), 300, 10));
    assert_eq!(rt; look(&mut view)?, (true, true));
    Ok(())
}

#[test]
fn made_of_lists(rt: HostRuntime) -> Result<(), Fail> {
    let pairs = [(2, 0)];
    let mut view = View::of_lists(rt.alloc(), 300, 10, &pairs, &pairs)?;
    assert!(rt; tells(&mut view, &seen(2, 1, 311), &[Look::Leave(2)])?);
    Ok(())
}

#[test]
fn leaves_then_sets_then_enters(rt: HostRuntime) -> Result<(), Fail> {
    let pairs = [(5, 1), (2, 1), (9, 1)];
    let mut view = View::of_lists(
        rt.alloc(),
        300,
        10,
        &pairs,
        &[(2, 1), (5, 1), (7, 4), (9, 1)],
    )?;
    let near = Pos { x: 1, z: 0 };
    let far = Pos { x: 311, z: 0 };
    let known = [
        Seen {
            entity: 2,
            version: 2,
            pos: near,
        },
        Seen {
            entity: 5,
            version: 1,
            pos: far,
        },
        Seen {
            entity: 7,
            version: 4,
            pos: near,
        },
    ];
    let looks = [Look::Leave(5), Look::Leave(9), Look::Set(2), Look::Enter(7)];
    let told = tells(&mut view, &known, &looks)?;
    assert_eq!(rt;
        (told, view.at(0), view.at(1), view.at(2)),
        (true, Some((2, 2)), Some((7, 4)), None)
    );
    Ok(())
}
