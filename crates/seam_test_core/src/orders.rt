// Orders of base nodes about entity 1.
use seam_call::{BaseNode, Call, Order, Sender};
use seam_defs::{Args, Deed, Part};
use seam_geo::Pos;
use seam_tree::MOST_CELLS;
use seam_value::Value;
use std::alloc::{AllocError, Global};
use std::test::Fail;

// The number of the avatars' method `hit`.
const HIT: u16 = 3;

// A base node's call of that number: the entity moves there or, where no place is said, is hit.
#[derive(Clone, Copy)]
pub struct Sent {
    pub base: u32,
    pub number: u64,
    pub to: Option<Pos>,
}

fn deed(alloc: Global, to: Option<Pos>) -> Result<Deed, AllocError> {
    match to {
        Some(place) => Ok(Deed::Move(place)),
        None => Ok(Deed::Method(HIT, Args::of(vec![in alloc; Value::Number(1)]?))),
    }
}

// The node of the base node, and the order that it passes on its call.
fn order(alloc: Global, sent: &Sent) -> Result<(u8, Order), Fail> {
    let base = BaseNode::new(sent.base).ok_or("no base node")?;
    let call = Call {
        entity: 1,
        part: Part::Cell,
        sender: Sender::Base(base),
        number: sent.number,
        deed: deed(alloc, sent.to)?,
    };
    Ok((MOST_CELLS as u8 + base.number() - 1, Order::Cell(call)))
}

pub fn orders(alloc: Global, sent: &[Sent]) -> Result<Vec<(u8, Order)>, Fail> {
    let mut orders = Vec::new(alloc);
    for each in sent {
        orders.push(order(alloc, each)?)?;
    }
    Ok(orders)
}
