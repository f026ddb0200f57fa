//! Two logs with equal stamps.

ghost use Rattle.std.specs.Prelude.{◌≡◌};

use seam_stamp::{Stamped, merge};
use std::alloc::{AllocError, Global};

#[tactic(auto, using(crate::proofs::Two::logs_of_two))]
#[test]
fn equal_stamps_are_ordered_by_node(rt: HostRuntime) -> Result<(), AllocError> {
    let alloc: Global = rt.alloc();
    let logs = vec![in alloc;
        vec![in alloc; entry(1, 0), entry(4, 0)]?,
        vec![in alloc; entry(2, 1), entry(4, 1)]?,
    ]?;
    let merged = merge(alloc, logs)?;
    assert_eq!(rt; merged.as_slice(), &[(1, 0), (2, 1), (4, 0), (4, 1)][..]);
    Ok(())
}

fn entry(stamp: u64, node: u8) -> Stamped<(u64, u8)>
    ensures { result ≡ record { stamp = stamp; node = node; item = (stamp, node) } }
{
    Stamped {
        stamp,
        node,
        item: (stamp, node),
    }
}
