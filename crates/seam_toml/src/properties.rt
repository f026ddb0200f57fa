// The properties that a header's tables define.
ghost use Rattle.std.specs.Prelude.{◌≡◌, ◌≢◌, IsTrue, IfOk, IfSome, List, MatchOption, codes};
ghost use Rattle.toml.specs.Data.{table as table_data, get_member};
ghost use Rattle.toml.specs.View.{view, table_view};
ghost use Rattle.seam_value.specs.Values.{Fits};
ghost use Rattle.seam_value.specs.Texts.{IsShortText};
ghost use Rattle.seam_value.specs.declared.values.Value.{Value as Values};
ghost use Rattle.seam_value.specs.declared.types.ValueType.{ValueType as Types};
ghost use Rattle.seam_defs.specs.declared.flags.Flag.{Flag as Flags};
ghost use Rattle.seam_defs.specs.declared.types.Property.{Property as Properties};
ghost use Rattle.seam_defs.specs.Types.{are_rising, names_of_properties};
ghost use Rattle.seam_toml.specs.Tables.{Each, EachUnder};
ghost use Rattle.seam_toml.specs.Definitions.{HasType, HasFlag, data_of, DefinesProperty};

use crate::members::member;
use seam_defs::{Flag, Property, PropertyName, is_name};
use seam_value::{ShortText, ValueError, ValueType};
use std::alloc::{AllocError, Global};
use toml::{Table, Value};

// A copy of a text: None where it is not short.
pub(crate) fn short_text(alloc: Global, text: &str) -> Result<Option<ShortText>, AllocError>
    ensures { IfOk result (λ read. MatchOption read (¬ (IsShortText text.now))
        (λ s. (s ≡ text.now) × IsShortText text.now)) }
{
    match ShortText::new(alloc, text.as_bytes()) {
        Ok(text) => Ok(Some(text)),
        Err(ValueError::NoMemory) => Err(AllocError),
        Err(_) => Ok(None),
    }
}

pub(crate) fn type_of(table: &Table) -> Option<ValueType>
    ensures { MatchOption result ((t : Types) → ¬ (HasType (table_view table.now) t))
        (HasType (table_view table.now)) }
{
    match member(table, "type") {
        Some(value) => match value.as_str() {
            Some(name) => ValueType::named(name),
            None => None,
        },
        None => None,
    }
}

fn flag_of(table: &Table) -> Option<Flag>
    ensures { MatchOption result ((f : Flags) → ¬ (HasFlag (table_view table.now) f))
        (HasFlag (table_view table.now)) }
{
    match member(table, "flag") {
        Some(value) => match value.as_str() {
            Some(name) => Flag::named(name),
            None => None,
        },
        None => None,
    }
}

// The value of the type that a header's value is.
fn value_of(
    alloc: Global,
    value: &Value,
    t: ValueType,
) -> Result<Option<seam_value::Value>, AllocError>
    ensures { IfOk result (λ read. MatchOption read
        ((v : Values) → data_of v ≡ view value.now → ¬ (Fits v t))
        (λ v. (data_of v ≡ view value.now) × Fits v t)) }
{
    let made = match (value.as_integer(), value.as_str()) {
        (Some(number), _) => seam_value::Value::Number(i128::from(number)),
        (None, Some(text)) => match short_text(alloc, text)? {
            Some(text) => seam_value::Value::Text(text),
            None => return Ok(None),
        },
        (None, None) => return Ok(None),
    };
    Ok(if made.fits(t) { Some(made) } else { None })
}

// The property that a table under this name defines.
fn property_of(alloc: Global, key: &str, table: &Table) -> Result<Option<Property>, AllocError>
    ensures { IfOk result (λ read. let own = table_data (table_view table.now) in MatchOption read
        ((p : Properties) → ¬ (DefinesProperty key.now own p))
        (DefinesProperty key.now own)) }
{
    let (Some(ty), Some(flag)) = (type_of(table), flag_of(table)) else {
        return Ok(None);
    };
    let Some(value) = member(table, "default") else {
        return Ok(None);
    };
    let Some(default) = value_of(alloc, value, ty)? else {
        return Ok(None);
    };
    match short_text(alloc, key)? {
        Some(name) if is_name(key.as_bytes()) => Ok(Some(Property {
            name: PropertyName::of(alloc, name)?,
            ty,
            flag,
            default,
        })),
        _ => Ok(None),
    }
}

// The property that the value under this name defines.
fn property(alloc: Global, key: &str, value: &Value) -> Result<Option<Property>, AllocError>
    ensures { IfOk result (λ read. MatchOption read
        ((p : Properties) → ¬ (DefinesProperty key.now (view value.now) p))
        (DefinesProperty key.now (view value.now))) }
{
    match value.as_table() {
        Some(table) => property_of(alloc, key, table),
        None => Ok(None),
    }
}

// The properties that a table defines, in the byte order of their names.
pub(crate) fn properties(alloc: Global, table: &Table) -> Result<Option<Vec<Property>>, AllocError>
    ensures defines { IfOk result (λ read. MatchOption read
        ((ps : List Properties) → ¬ (Each DefinesProperty (table_view table.now) ps))
        (λ ps. Each DefinesProperty (table_view table.now) ps.items)) }
    ensures rising { IfOk result (λ read. IfSome read (λ ps.
        IsTrue (are_rising (names_of_properties ps.items)))) }
{
    let mut properties = Vec::with_capacity(alloc, table.len())?;
    'members: for (key, value) in table.iter() {
        match property(alloc, key.as_str(), value)? {
            Some(property) => properties.push(property)?,
            None => return Ok(None),
        }
    }
    Ok(Some(properties))
}

// The properties that the table of a type defines.
pub(crate) fn properties_under(
    alloc: Global,
    table: &Table,
) -> Result<Option<Vec<Property>>, AllocError>
    ensures defines { IfOk result (λ read. let under =
        get_member (codes "properties") (table_view table.now) in MatchOption read
        ((ps : List Properties) → ¬ (EachUnder DefinesProperty under ps))
        (λ ps. EachUnder DefinesProperty under ps.items)) }
    ensures rising { IfOk result (λ read. IfSome read (λ ps.
        IsTrue (are_rising (names_of_properties ps.items)))) }
{
    match member(table, "properties") {
        Some(value) => match value.as_table() {
            Some(table) => properties(alloc, table),
            None => Ok(None),
        },
        None => Ok(Some(Vec::new(alloc))),
    }
}
