//! What a cell keeps of entities whose real is elsewhere.

use crate::copy_book::CopyBook;
use crate::next::Next;
use seam_table::Table;

/// What a cell keeps of entities whose real is elsewhere: the next places of those that left, and its book of ghosts.
#[derive(Drop)]
pub struct Remotes {
    pub nexts: Table<Next>,
    pub copies: CopyBook,
}
