use seam_call::{BaseNode, Sender};
use std::test::Fail;

// Whether the first comes before the second, the second before a client, and the two are not one.
fn ranks(low: u32, high: u32) -> Option<(bool, bool, bool)> {
    let first = Sender::Base(BaseNode::new(low)?);
    let second = Sender::Base(BaseNode::new(high)?);
    let rising = first.rank() < second.rank();
    let below = second.rank() < Sender::Client(1).rank();
    Some((rising, below, first != second))
}

#[test]
fn senders_have_an_order(rt: HostRuntime) -> Result<(), Fail> {
    let others = (BaseNode::new(0).is_none(), BaseNode::new(9).is_none());
    assert_eq!(rt;
        (ranks(1, 8), others),
        (Some((true, true, true)), (true, true))
    );
    Ok(())
}
