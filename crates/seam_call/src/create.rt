use seam_geo::Pos;

/// An entity that is made: its number, its type by its place among the types, and its first position.
#[derive(Clone, Copy, Debug, PartialEq, Eq)]
pub struct Create {
    pub entity: u32,
    pub ty: u16,
    pub pos: Pos,
}
