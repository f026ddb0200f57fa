// The grammar of a header.
ghost use Rattle.std.specs.Prelude.{◌≡◌, Some, None, if◌then◌else◌};
ghost use Rattle.seam_toml.specs.Roles.{role_in, setting_keys, method_keys};
ghost use Rattle.seam_toml.specs.Roles.{is_method_name, role_under, is_table};

use crate::Setting;
use seam_defs::is_name;

/// What a value of a header is for. Those from `Header` to `Method` are tables.
#[derive(Clone, Copy, Debug, PartialEq, Eq)]
pub enum Role {
    /// The header's top table.
    Header,
    Settings,
    /// The table of all types.
    Types,
    Type,
    /// The table of a type's properties.
    Properties,
    Property,
    /// The table of a type's methods.
    Methods,
    Method,
    Version,
    Setting(Setting),
    /// The name of a property's type.
    TypeName,
    Flag,
    Default,
    Part,
    Exposed,
    Arguments,
    Body,
}

impl Role {
    /// What the value under a key is for, in a table for this. None where such a table may not have the key.
    pub fn under(&self, key: &str) -> Option<Role>
        ensures { result ≡ role_under self.now key.now }
    {
        match self {
            Role::Header => under_header(key),
            Role::Settings => under_settings(key),
            Role::Types => named(Role::Type, is_name(key.as_bytes())),
            Role::Type => under_type(key),
            Role::Properties => named(Role::Property, is_name(key.as_bytes())),
            Role::Property => under_property(key),
            Role::Methods => named(Role::Method, is_method_name(key)),
            Role::Method => under_method(key),
            _ => None,
        }
    }

    /// Whether what is for this has to be a table.
    pub fn is_table(&self) -> bool
        ensures { result ≡ is_table self.now }
    {
        matches!(
            self,
            Role::Header
                | Role::Settings
                | Role::Types
                | Role::Type
                | Role::Properties
                | Role::Property
                | Role::Methods
                | Role::Method
        )
    }
}

fn named(role: Role, is_named: bool) -> Option<Role>
    ensures { result ≡ (if is_named then Some role else None) }
{
    if is_named { Some(role) } else { None }
}

pub(crate) fn is_method_name(key: &str) -> bool
    ensures { result ≡ is_method_name key.now }
{
    is_name(key.as_bytes()) && key != "move"
}

fn under_header(key: &str) -> Option<Role>
    ensures { result ≡ role_under Role.Header key.now }
{
    match key {
        "version" => Some(Role::Version),
        "settings" => Some(Role::Settings),
        "type" => Some(Role::Types),
        _ => None,
    }
}

fn under_settings(key: &str) -> Option<Role>
    ensures { result ≡ role_in setting_keys key.now }
{
    match key {
        "size" => Some(Role::Setting(Setting::Size)),
        "view_radius" => Some(Role::Setting(Setting::ViewRadius)),
        "view_hysteresis" => Some(Role::Setting(Setting::ViewHysteresis)),
        "offload_hysteresis" => Some(Role::Setting(Setting::OffloadHysteresis)),
        "ghost_distance" => Some(Role::Setting(Setting::GhostDistance)),
        "ghost_hysteresis" => Some(Role::Setting(Setting::GhostHysteresis)),
        "balance_shift" => Some(Role::Setting(Setting::BalanceShift)),
        "bases" => Some(Role::Setting(Setting::Bases)),
        _ => None,
    }
}

fn under_type(key: &str) -> Option<Role>
    ensures { result ≡ role_under Role.Type key.now }
{
    match key {
        "properties" => Some(Role::Properties),
        "methods" => Some(Role::Methods),
        _ => None,
    }
}

fn under_property(key: &str) -> Option<Role>
    ensures { result ≡ role_under Role.Property key.now }
{
    match key {
        "type" => Some(Role::TypeName),
        "flag" => Some(Role::Flag),
        "default" => Some(Role::Default),
        _ => None,
    }
}

fn under_method(key: &str) -> Option<Role>
    ensures { result ≡ role_in method_keys key.now }
{
    match key {
        "part" => Some(Role::Part),
        "exposed" => Some(Role::Exposed),
        "args" => Some(Role::Arguments),
        "body" => Some(Role::Body),
        _ => None,
    }
}
