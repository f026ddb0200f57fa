use crate::builtin::sent;
use seam_order::{InOrder, Offer};
use std::test::Fail;

// The answer to an offer of a number that is not held, or the item taken, as text.
fn offered(items: &mut InOrder<char>, number: u64, item: char) -> (char, Option<char>) {
    if number == 0 || number > 9 || items.holds(number) {
        return ('?', None);
    }
    match items.offer(number, item) {
        Ok(Offer::Next(item)) => ('n', Some(item)),
        Ok(Offer::Held) => ('h', None),
        Ok(Offer::Stale(item)) => ('s', Some(item)),
        Err(refused) => ('m', Some(refused.item)),
    }
}

fn come_early(items: &mut InOrder<char>) -> bool {
    let offered = offered(items, 2, 'b');
    let held = (items.holds(1), items.holds(2));
    let first = items.held_at(0) == Some((2, &'b'));
    let none = items.peek().is_none();
    (offered, held, first, none) == (('h', None), (false, true), true, true)
}

fn come_in_turn(items: &mut InOrder<char>) -> bool {
    let offered = offered(items, 1, 'a');
    let peeked = items.peek() == Some(&'b');
    let ready = (items.is_ready(), peeked);
    let first = items.take_next();
    let second = items.take_next();
    (offered, ready, first, second) == (('n', Some('a')), (true, true), Some('b'), None)
}

fn come_late(items: &mut InOrder<char>) -> bool {
    let next = items.next_number();
    let held = items.holds(1);
    (next, held, offered(items, 1, 'c')) == (3, false, ('s', Some('c')))
}

#[test]
fn early_then_its_turn_then_over(rt: HostRuntime) -> Result<(), Fail> {
    let mut items = sent(InOrder::new(rt.alloc()));
    let early = come_early(&mut items);
    let in_turn = come_in_turn(&mut items);
    let late = come_late(&mut items);
    assert_eq!(rt; (early, in_turn, late), (true, true, true));
    Ok(())
}
