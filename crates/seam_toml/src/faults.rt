// What is at fault in the values of a header.
ghost use Rattle.std.specs.Prelude.{◌≡◌, ◌↔◌, IsTrue, IfOk, MatchOption};
ghost use Rattle.seam_value.specs.declared.types.ValueType.{ValueType as Types};
ghost use Rattle.toml.specs.Data.{table as toml_table};
ghost use Rattle.toml.specs.View.{view, table_view, items_view};
ghost use Rattle.seam_toml.specs.declared.faults.Fault.{Fault as Faults};
ghost use Rattle.seam_toml.specs.Faults.{HasStrangeKey, Lacks, LacksKey, AreTypeNames, AreTexts, IsOfKind};
ghost use Rattle.seam_toml.specs.Faults.{AreTooMany, FitsType};
ghost use Rattle.seam_toml.specs.Faults.{IsTypeName, IsPartName, IsListOf, size_of, count, count_items};
ghost use Rattle.seam_toml.specs.Faults.{IsAtFault, HasFault, HasFaultBelow, TopIsAtFault, HeaderHas, IsFirstFault};

use crate::bodies::is_bad_type;
use crate::members::member;
use crate::properties::type_of;
use crate::{Role, read_settings};
use seam_defs::{
    Flag, MOST_ARGUMENTS, MOST_METHODS, MOST_OPERATIONS, MOST_PROPERTIES, MOST_TYPES, Part,
};
use seam_value::{ShortText, ValueType};
use std::alloc::{AllocError, Global};
use toml::{Table, Value};

/// What may be at fault in the values of a header, in the order in which it is sought.
#[derive(Clone, Copy, Debug, PartialEq, Eq)]
pub enum Fault {
    /// A table has a key that it may not have, or lacks one that it has to have.
    NoSuchKey,
    /// A value is of another kind than has to be under its key, or outside its range, or names no type or part.
    BadType,
    /// A text names no flag.
    BadFlag,
    /// A default does not fit the property's type.
    BadDefault,
    /// A text in a method's body says no operation.
    BadBody,
    /// There are more types, properties, methods, arguments or operations than may be.
    TooManyNames,
    /// The ghost distance is less than the view radius, the view hysteresis and the offload hysteresis together.
    GhostTooNear,
}

// ---- keys

fn has_wrong_keys(role: &Role, value: &Value) -> bool
    ensures { IsTrue result ↔ IsAtFault Fault.NoSuchKey role.now (view value.now) }
{
    match value.as_table() {
        Some(table) => role.is_table() && (has_strange_key(role, table) || lacks_key(role, table)),
        None => false,
    }
}

fn has_strange_key(role: &Role, table: &Table) -> bool
    ensures { IsTrue result ↔ HasStrangeKey role.now (table_view table.now) }
{
    'members: for (key, _value) in table.iter() {
        if role.under(key.as_str()).is_none() {
            return true;
        }
    }
    false
}

fn lacks(table: &Table, key: &str) -> bool
    ensures { IsTrue result ↔ Lacks key.now (table_view table.now) }
{
    match member(table, key) {
        Some(_) => false,
        None => true,
    }
}

fn lacks_key(role: &Role, table: &Table) -> bool
    ensures { IsTrue result ↔ LacksKey role.now (table_view table.now) }
{
    match role {
        Role::Property => lacks(table, "type") || (lacks(table, "flag") || lacks(table, "default")),
        Role::Method => lacks(table, "part"),
        _ => false,
    }
}

// ---- kinds of values

fn is_type_name(value: &Value) -> bool
    ensures { IsTrue result ↔ IsTypeName (view value.now) }
{
    match value.as_str() {
        Some(name) => match ValueType::named(name) {
            Some(_) => true,
            None => false,
        },
        None => false,
    }
}

fn is_part_name(value: &Value) -> bool
    ensures { IsTrue result ↔ IsPartName (view value.now) }
{
    match value.as_str() {
        Some(name) => match Part::named(name) {
            Some(_) => true,
            None => false,
        },
        None => false,
    }
}

fn are_type_names(items: &[Value]) -> bool
    ensures { IsTrue result ↔ AreTypeNames (items_view items.now) }
{
    'items: for value in items.iter() {
        if !is_type_name(value) {
            return false;
        }
    }
    true
}

fn are_texts(items: &[Value]) -> bool
    ensures { IsTrue result ↔ AreTexts (items_view items.now) }
{
    'items: for value in items.iter() {
        if !value.is_str() {
            return false;
        }
    }
    true
}

fn is_no_flag(role: &Role, value: &Value) -> bool
    ensures { IsTrue result ↔ IsAtFault Fault.BadFlag role.now (view value.now) }
{
    match (role, value.as_str()) {
        (Role::Flag, Some(name)) => match Flag::named(name) {
            Some(_) => false,
            None => true,
        },
        _ => false,
    }
}

fn are_too_near(role: &Role, value: &Value) -> bool
    ensures { IsTrue result ↔ IsAtFault Fault.GhostTooNear role.now (view value.now) }
{
    match (role, value.as_table()) {
        (Role::Settings, Some(table)) => sets_too_near(table),
        _ => false,
    }
}

fn sets_too_near(table: &Table) -> bool
    ensures { IsTrue result ↔ IsAtFault Fault.GhostTooNear Role.Settings
        (toml_table (table_view table.now)) }
{
    match read_settings(table) {
        Some(settings) => !settings.ghosts_reach(),
        None => false,
    }
}

fn size(value: &Value) -> usize
    ensures { result ≡ size_of (view value.now) }
{
    match value.as_table() {
        Some(table) => entries(table),
        None => match value.as_array() {
            Some(items) => length_of(items),
            None => 0,
        },
    }
}

#[tactic(auto, using(crate::proofs::Counts::count_is_length))]
fn entries(table: &Table) -> usize
    ensures { result ≡ count (table_view table.now) }
{
    table.len()
}

#[tactic(auto, using(crate::proofs::Counts::count_items_is_length))]
fn length_of(items: &[Value]) -> usize
    ensures { result ≡ count_items (items_view items.now) }
{
    items.len()
}

fn are_too_many(role: &Role, value: &Value) -> bool
    ensures { IsTrue result ↔ AreTooMany role.now (view value.now) }
{
    match role {
        Role::Types => size(value) > MOST_TYPES,
        Role::Properties => size(value) > MOST_PROPERTIES,
        Role::Methods => size(value) > MOST_METHODS,
        Role::Arguments => size(value) > MOST_ARGUMENTS,
        Role::Body => size(value) > MOST_OPERATIONS,
        _ => false,
    }
}

fn is_list_of_type_names(value: &Value) -> bool
    ensures { IsTrue result ↔ IsListOf AreTypeNames (view value.now) }
{
    match value.as_array() {
        Some(items) => are_type_names(items),
        None => false,
    }
}

fn is_list_of_texts(value: &Value) -> bool
    ensures { IsTrue result ↔ IsListOf AreTexts (view value.now) }
{
    match value.as_array() {
        Some(items) => are_texts(items),
        None => false,
    }
}

fn is_of_kind(role: &Role, value: &Value) -> bool
    ensures { IsTrue result ↔ IsOfKind role.now (view value.now) }
{
    match role {
        Role::Version => value.as_integer() == Some(1),
        Role::Setting(setting) => setting.number(value).is_some(),
        Role::TypeName => is_type_name(value),
        Role::Flag => value.is_str(),
        Role::Default => value.is_integer() || value.is_str(),
        Role::Part => is_part_name(value),
        Role::Exposed => value.is_bool(),
        Role::Arguments => is_list_of_type_names(value),
        Role::Body => is_list_of_texts(value),
        _ => value.is_table(),
    }
}

// ---- defaults

fn fits_type(t: ValueType, value: &Value) -> bool
    ensures { IsTrue result ↔ FitsType t (view value.now) }
{
    match value.as_integer() {
        Some(number) => seam_value::Value::Number(i128::from(number)).fits(t),
        None => match value.as_str() {
            Some(text) => !t.is_number() && text.len() <= ShortText::MAX_LEN,
            None => false,
        },
    }
}

fn has_bad_default(table: &Table) -> bool
    ensures { IsTrue result ↔ IsAtFault Fault.BadDefault Role.Property
        (toml_table (table_view table.now)) }
{
    match (type_of(table), member(table, "default")) {
        (Some(t), Some(value)) => !fits_type(t, value),
        _ => false,
    }
}

fn is_bad_property(role: &Role, value: &Value) -> bool
    ensures { IsTrue result ↔ IsAtFault Fault.BadDefault role.now (view value.now) }
{
    match (role, value.as_table()) {
        (Role::Property, Some(table)) => has_bad_default(table),
        _ => false,
    }
}

// ---- a fault of a value

/// Whether the value, which is for this, is itself at fault in this way.
pub fn is_at_fault(
    alloc: Global,
    fault: Fault,
    role: &Role,
    value: &Value,
) -> Result<bool, AllocError>
    ensures { IfOk result (λ answer. IsTrue answer ↔ IsAtFault fault role.now (view value.now)) }
{
    match fault {
        Fault::NoSuchKey => Ok(has_wrong_keys(role, value)),
        Fault::BadType => Ok(!is_of_kind(role, value)),
        Fault::BadFlag => Ok(is_no_flag(role, value)),
        Fault::BadDefault => Ok(is_bad_property(role, value)),
        Fault::BadBody => is_bad_type(alloc, role, value),
        Fault::TooManyNames => Ok(are_too_many(role, value)),
        Fault::GhostTooNear => Ok(are_too_near(role, value)),
    }
}

// ---- a fault anywhere

/// Whether the value, which is for this, or one below it is at fault in this way. Only what is under keys that a table may have is
/// below it.
#[cycle(has_fault)]
pub fn has_fault(
    alloc: Global,
    fault: Fault,
    role: &Role,
    value: &Value,
) -> Result<bool, AllocError>
    ensures { IfOk result (λ answer. IsTrue answer ↔ HasFault fault role.now (view value.now)) }
{
    if is_at_fault(alloc, fault, role, value)? {
        return Ok(true);
    }
    match value.as_table() {
        Some(table) => has_fault_below(alloc, fault, role, table),
        None => Ok(false),
    }
}

#[cycle(has_fault)]
fn has_fault_below(
    alloc: Global,
    fault: Fault,
    role: &Role,
    table: &Table,
) -> Result<bool, AllocError>
    ensures { IfOk result (λ answer. IsTrue answer ↔ HasFaultBelow fault role.now
        (table_view table.now)) }
{
    'members: for (key, value) in table.iter() {
        if let Some(below) = role.under(key.as_str()) {
            if has_fault(alloc, fault, &below, value)? {
                return Ok(true);
            }
        }
    }
    Ok(false)
}

// ---- the first fault of a header

// What is a table in any case can be wrong by its keys alone, and a header's top table has to have none.
fn top_is_at_fault(fault: Fault, document: &Table) -> bool
    ensures { IsTrue result ↔ TopIsAtFault (table_view document.now) fault }
{
    match fault {
        Fault::NoSuchKey => has_strange_key(&Role::Header, document),
        _ => false,
    }
}

fn header_has(alloc: Global, fault: Fault, document: &Table) -> Result<bool, AllocError>
    ensures { IfOk result (λ answer. IsTrue answer ↔ HeaderHas (table_view document.now) fault) }
{
    if top_is_at_fault(fault, document) {
        return Ok(true);
    }
    has_fault_below(alloc, fault, &Role::Header, document)
}

/// The first fault of the header whose top table this is: each fault is sought in the whole header before the next one, in the order of
/// `Fault`. None where the header has none.
pub fn first_fault(alloc: Global, document: &Table) -> Result<Option<Fault>, AllocError>
    ensures { IfOk result (λ first. MatchOption first
        ((f : Faults) → ¬ (HeaderHas (table_view document.now) f))
        (IsFirstFault (table_view document.now))) }
{
    'faults: for fault in [
        Fault::NoSuchKey,
        Fault::BadType,
        Fault::BadFlag,
        Fault::BadDefault,
        Fault::BadBody,
        Fault::TooManyNames,
        Fault::GhostTooNear,
    ] {
        if header_has(alloc, fault, document)? {
            return Ok(Some(fault));
        }
    }
    Ok(None)
}
