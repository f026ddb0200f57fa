// What the haunts of a real are told when it settles.
ghost use Rattle.std.specs.Prelude.{◌≡◌};
ghost use Rattle.seam_haunt.specs.Telling.{word};

use seam_tree::CellSet;

/// What a cell is told of a real.
#[derive(Clone, Copy, Debug, PartialEq, Eq)]
pub enum Told {
    Nothing,
    Set,
    Drop,
}

/// Which cell tells of which real at which beat; where the real's home is from then on, which haunts it had and has, and whether
/// others may see a change.
#[derive(Clone, Copy, Debug)]
pub struct Telling {
    pub me: u8,
    pub home: u8,
    pub old: CellSet,
    pub haunts: CellSet,
    pub changed: bool,
    pub entity: u32,
    pub beat: u64,
}

/// What the cell is told.
pub fn word(t: &Telling, k: u8) -> Told
    ensures { result ≡ word t.now k }
{
    if k == t.me || k == t.home {
        return Told::Nothing;
    }
    match (t.haunts.holds(k), t.old.holds(k)) {
        (true, true) => if t.changed { Told::Set } else { Told::Nothing },
        (true, false) => Told::Set,
        (false, true) => Told::Drop,
        (false, false) => Told::Nothing,
    }
}
