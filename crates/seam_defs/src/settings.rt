ghost use Rattle.std.specs.Prelude.{◌≡◌, ◌↔◌, ◌≤◌, IsTrue};
ghost use Rattle.seam_defs.specs.Settings.{IsDistance, AreInRange, GhostsReach, AreLegal, standard as standard_settings};

use crate::MOST_BASE_NODES;

/// The largest space, on each axis.
pub const LARGEST_SIZE: u32 = 1_000_000;

/// The longest distance that a setting may name.
pub const LONGEST_DISTANCE: u32 = 100_000;

/// The settings of a world. Distances are in whole units.
#[derive(Clone, Copy, Debug, PartialEq, Eq)]
pub struct Settings {
    /// The space has the positions below this on both axes.
    pub size: u32,
    /// An entity enters a view at this distance at most.
    pub view_radius: u32,
    /// It leaves the view at a distance of more than the radius and this.
    pub view_hysteresis: u32,
    /// A real is handed over when it is farther than this from its cell.
    pub offload_hysteresis: u32,
    /// A cell at this distance at most gets a ghost.
    pub ghost_distance: u32,
    /// It loses the ghost at a distance of more than the ghost distance and this.
    pub ghost_hysteresis: u32,
    /// How far a boundary moves at most when the load is balanced.
    pub balance_shift: u32,
    /// The number of base nodes.
    pub bases: u32,
}

impl Settings {
    /// The settings of a world whose header sets none.
    pub fn standard() -> Self
        ensures value { result ≡ standard_settings }
        ensures legal { AreLegal result }
    {
        Settings {
            size: 10_000,
            view_radius: 300,
            view_hysteresis: 10,
            offload_hysteresis: 10,
            ghost_distance: 400,
            ghost_hysteresis: 20,
            balance_shift: 1_000,
            bases: 2,
        }
    }

    /// Whether a header may set these: each is in its range, and ghosts reach far enough.
    pub fn are_legal(&self) -> bool
        ensures { IsTrue result ↔ AreLegal self.now }
    {
        self.are_in_range() && self.ghosts_reach()
    }

    /// Whether each setting is in its range.
    pub fn are_in_range(&self) -> bool
        ensures { IsTrue result ↔ AreInRange self.now }
    {
        self.has_space()
            && self.has_bases()
            && self.has_view_distances()
            && self.has_other_distances()
    }

    /// Whether the ghost distance is at least the view radius, the view hysteresis and the offload hysteresis together.
    pub fn ghosts_reach(&self) -> bool
        ensures { IsTrue result ↔ GhostsReach self.now }
    {
        let reach = u64::from(self.view_radius)
            + u64::from(self.view_hysteresis)
            + u64::from(self.offload_hysteresis);
        reach <= u64::from(self.ghost_distance)
    }

    fn has_space(&self) -> bool
        ensures { IsTrue result ↔ ((1 ≤ self.now.size) × (self.now.size ≤ LARGEST_SIZE)) }
    {
        1 <= self.size && self.size <= LARGEST_SIZE
    }

    fn has_bases(&self) -> bool
        ensures { IsTrue result ↔ ((1 ≤ self.now.bases) × (self.now.bases ≤ MOST_BASE_NODES)) }
    {
        1 <= self.bases && self.bases <= MOST_BASE_NODES
    }

    fn has_view_distances(&self) -> bool
        ensures { IsTrue result ↔ (IsDistance self.now.view_radius ×
            IsDistance self.now.view_hysteresis × IsDistance self.now.offload_hysteresis) }
    {
        self.view_radius <= LONGEST_DISTANCE
            && self.view_hysteresis <= LONGEST_DISTANCE
            && self.offload_hysteresis <= LONGEST_DISTANCE
    }

    fn has_other_distances(&self) -> bool
        ensures { IsTrue result ↔ (IsDistance self.now.ghost_distance ×
            IsDistance self.now.ghost_hysteresis × IsDistance self.now.balance_shift) }
    {
        self.ghost_distance <= LONGEST_DISTANCE
            && self.ghost_hysteresis <= LONGEST_DISTANCE
            && self.balance_shift <= LONGEST_DISTANCE
    }
}
