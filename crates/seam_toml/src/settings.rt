// The settings of a header.
ghost use Rattle.std.specs.Prelude.{◌≡◌, ◌≤◌, IfSome, MatchOption};
ghost use Rattle.toml.specs.Data.{get_member};
ghost use Rattle.toml.specs.View.{view, table_view};
ghost use Rattle.seam_defs.specs.Settings.{standard, AreInRange};
ghost use Rattle.seam_toml.specs.Settings.{key_of, field_of, IsInRange, least_of, greatest_of, in_range, number_of};
ghost use Rattle.seam_toml.specs.Settings.{number_or_standard, Sets, HasBadSetting};

use crate::members::member;
use seam_defs::{LARGEST_SIZE, LONGEST_DISTANCE, MOST_BASE_NODES, Settings};
use toml::{Table, Value};

/// One of the settings of a world.
#[derive(Clone, Copy, Debug, PartialEq, Eq)]
pub enum Setting {
    Size,
    ViewRadius,
    ViewHysteresis,
    OffloadHysteresis,
    GhostDistance,
    GhostHysteresis,
    BalanceShift,
    Bases,
}

impl Setting {
    /// The key of the setting in a header.
    pub fn key(self) -> &'static str
        ensures { result.now ≡ key_of self }
    {
        match self {
            Setting::Size => "size",
            Setting::ViewRadius => "view_radius",
            Setting::ViewHysteresis => "view_hysteresis",
            Setting::OffloadHysteresis => "offload_hysteresis",
            Setting::GhostDistance => "ghost_distance",
            Setting::GhostHysteresis => "ghost_hysteresis",
            Setting::BalanceShift => "balance_shift",
            Setting::Bases => "bases",
        }
    }

    // The setting where a header does not set it.
    fn standard(self) -> u32
        ensures value { result ≡ field_of standard self }
        ensures range { IsInRange self result }
    {
        let standard = Settings::standard();
        match self {
            Setting::Size => standard.size,
            Setting::ViewRadius => standard.view_radius,
            Setting::ViewHysteresis => standard.view_hysteresis,
            Setting::OffloadHysteresis => standard.offload_hysteresis,
            Setting::GhostDistance => standard.ghost_distance,
            Setting::GhostHysteresis => standard.ghost_hysteresis,
            Setting::BalanceShift => standard.balance_shift,
            Setting::Bases => standard.bases,
        }
    }

    fn least(self) -> u32
        ensures { result ≡ least_of self }
    {
        match self {
            Setting::Size | Setting::Bases => 1,
            _ => 0,
        }
    }

    fn greatest(self) -> u32
        ensures { result ≡ greatest_of self }
    {
        match self {
            Setting::Size => LARGEST_SIZE,
            Setting::Bases => MOST_BASE_NODES,
            _ => LONGEST_DISTANCE,
        }
    }

    /// The value as this setting: None where it is no whole number, or one outside the setting's range.
    pub fn number(self, value: &Value) -> Option<u32>
        ensures value { result ≡ number_of self (view value.now) }
        ensures range { IfSome result (IsInRange self) }
    {
        match value.as_integer() {
            Some(number) => in_range(number, self.least(), self.greatest()),
            None => None,
        }
    }

    /// What a table of settings makes of this setting: the standard one where the table does not have its key.
    pub fn number_in(self, table: &Table) -> Option<u32>
        ensures value { result ≡ number_or_standard self
            (get_member (key_of self) (table_view table.now)) }
        ensures range { IfSome result (IsInRange self) }
    {
        match member(table, self.key()) {
            Some(value) => self.number(value),
            None => Some(self.standard()),
        }
    }
}

fn in_range(number: i64, least: u32, greatest: u32) -> Option<u32>
    ensures value { result ≡ in_range least greatest number }
    ensures range { IfSome result (λ n. (least ≤ n) × (n ≤ greatest)) }
{
    match u32::try_from(number) {
        Ok(number) if least <= number && number <= greatest => Some(number),
        _ => None,
    }
}

/// The settings that a header's table of settings sets. None where the value under the key of one is not a whole number in
/// its range. Keys that are no settings are not looked at.
pub fn read_settings(table: &Table) -> Option<Settings>
    ensures sets { MatchOption result (HasBadSetting (table_view table.now))
        (Sets (table_view table.now)) }
    ensures in_range { IfSome result AreInRange }
{
    Some(Settings {
        size: Setting::Size.number_in(table)?,
        view_radius: Setting::ViewRadius.number_in(table)?,
        view_hysteresis: Setting::ViewHysteresis.number_in(table)?,
        offload_hysteresis: Setting::OffloadHysteresis.number_in(table)?,
        ghost_distance: Setting::GhostDistance.number_in(table)?,
        ghost_hysteresis: Setting::GhostHysteresis.number_in(table)?,
        balance_shift: Setting::BalanceShift.number_in(table)?,
        bases: Setting::Bases.number_in(table)?,
    })
}
