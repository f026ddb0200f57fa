ghost use Rattle.std.specs.Prelude.{◌≡◌, ◌≢◌, MatchOption};
ghost use Rattle.seam_defs.specs.declared.flags.Flag.{Flag as Flags};
ghost use Rattle.seam_defs.specs.declared.flags.Part.{Part as Parts};
ghost use Rattle.seam_defs.specs.Groups.{in_group as in_group_of};
ghost use Rattle.seam_defs.specs.Names.{flag_name, part_name};

/// The part of an entity that a property or a method belongs to: the cell part moves between cells, the base part stays
/// on its base node.
#[derive(Clone, Copy, Debug, PartialEq, Eq)]
pub enum Part {
    Cell,
    Base,
}

/// A property's distribution flag: which part holds it, and who is told of it (BigWorld Server Programming Guide,
/// "Properties"). Which groups a flag is in is this project's own table.
#[derive(Clone, Copy, Debug, PartialEq, Eq)]
pub enum Flag {
    Base,
    BaseAndClient,
    CellPrivate,
    CellPublic,
    CellPublicAndOwn,
    OwnClient,
    OtherClients,
    AllClients,
}

/// A group of properties: what the real holds, a ghost, what the own client is shown of the cell part, what other clients
/// are shown, what the base part holds, and what the own client is shown of it.
#[derive(Clone, Copy, Debug, PartialEq, Eq)]
pub enum Group {
    Real,
    Ghost,
    Own,
    Other,
    Base,
    BaseClient,
}

// Whether properties of a flag are in a group: a row for each group, with a column for each flag. A table, since each property
// is asked for its flag whenever values of a group are gone through, and a look-up is cheaper than the jumps of a `match`.
const ARE_IN_GROUPS: [[bool; 8]; 6] = [
    [false, false, true, true, true, true, true, true], // Real
    [false, false, false, true, true, false, true, true], // Ghost
    [false, false, false, false, true, true, false, true], // Own
    [false, false, false, false, false, false, true, true], // Other
    [true, true, false, false, false, false, false, false], // Base
    [false, true, false, false, false, false, false, false], // BaseClient
];

impl Part {
    /// The part of this name: `cell` or `base`. `None` for every other text.
    pub fn named(name: &str) -> Option<Part>
        ensures { MatchOption result ((p : Parts) → part_name p ≢ name.now) (λ p. part_name p
            ≡ name.now) }
    {
        match name {
            "cell" => Some(Part::Cell),
            "base" => Some(Part::Base),
            _ => None,
        }
    }
}

impl Flag {
    /// The flag of this name: `BASE` to `ALL_CLIENTS`. `None` for every other text.
    pub fn named(name: &str) -> Option<Flag>
        ensures { MatchOption result ((f : Flags) → flag_name f ≢ name.now) (λ f. flag_name f
            ≡ name.now) }
    {
        match name {
            "BASE" => Some(Flag::Base),
            "BASE_AND_CLIENT" => Some(Flag::BaseAndClient),
            "CELL_PRIVATE" => Some(Flag::CellPrivate),
            "CELL_PUBLIC" => Some(Flag::CellPublic),
            "CELL_PUBLIC_AND_OWN" => Some(Flag::CellPublicAndOwn),
            "OWN_CLIENT" => Some(Flag::OwnClient),
            "OTHER_CLIENTS" => Some(Flag::OtherClients),
            "ALL_CLIENTS" => Some(Flag::AllClients),
            _ => None,
        }
    }

    /// Whether properties of this flag are in the group.
    pub fn in_group(self, group: Group) -> bool
        ensures { result ≡ in_group_of self group }
    {
        ARE_IN_GROUPS[group as usize][self as usize]
    }
}
