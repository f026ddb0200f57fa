//! Room in lists of which most stay short, as there are several for each entity.

ghost use Rattle.std.specs.Prelude.{◌≡◌, ◌<◌, ◌≤◌, if◌then◌else◌, is_ok, OnOk, vec_len, vec_capacity};
ghost use Rattle.std.specs.List.{insert as with_item_at};

use std::alloc::AllocError;

/// Makes room for one more item. A full list gets room for as many as it has, and the first time for one: so a list of one item takes
/// no more memory than that item, and a long list is seldom moved.
pub fn reserve_one<T>(items: &mut Vec<T>) -> Result<(), AllocError>
    ensures same { items.new.items ≡ items.old.items }
    ensures room { OnOk result (vec_len items.new < vec_capacity items.new) }
{
    if items.len() < items.capacity() {
        return Ok(());
    }
    items.reserve_exact(items.len().max(1))
}

/// Inserts the item at a place, counted from 0, in such room.
pub(crate) fn insert<T: Drop>(items: &mut Vec<T>, at: usize, item: T) -> Result<(), AllocError>
    requires { at ≤ vec_len items.old }
    ensures { items.new.items ≡ (if is_ok result then with_item_at items.old.items at item
        else items.old.items) }
{
    reserve_one(items)?;
    match items.insert(at, item) {
        Ok(()) => Ok(()),
        Err(_) => unreachable!(),
    }
}
