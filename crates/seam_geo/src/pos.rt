ghost use Rattle.std.specs.Prelude.{◌≡◌};
ghost use Rattle.seam_geo.specs.Pos.{distance};

/// A position of a space, in whole units along its two axes.
#[derive(Clone, Copy, Debug, PartialEq, Eq, Hash, PartialOrd, Ord)]
pub struct Pos {
    pub x: u32,
    pub z: u32,
}

/// The distance of two positions: the greater of their differences along the two axes.
pub fn dist(a: Pos, b: Pos) -> u32
    ensures { result ≡ distance a b }
{
    a.x.abs_diff(b.x).max(a.z.abs_diff(b.z))
}
