use seam_table::NoMemoryFor;

#[test]
fn the_item_comes_back() {
    let refused = NoMemoryFor { item: 'a' };
    prove!(refused == NoMemoryFor { item: 'a' });
    let NoMemoryFor { item } = refused;
    prove!(item == 'a');
}
