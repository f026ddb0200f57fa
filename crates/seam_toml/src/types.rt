// The types that a header's tables define.
ghost use Rattle.std.specs.Prelude.{◌≡◌, ◌≤◌, All, IsTrue, IfOk, IfSome, List, MatchOption, codes, length};
ghost use Rattle.toml.specs.Data.{table as table_data, get_member};
ghost use Rattle.toml.specs.View.{view, table_view};
ghost use Rattle.seam_defs.specs.declared.types.TypeDef.{TypeDef as Types};
ghost use Rattle.seam_defs.specs.Types.{IsType, are_rising, names_of_types};
ghost use Rattle.seam_toml.specs.Tables.{Each};
ghost use Rattle.seam_toml.specs.Definitions.{DefinesType, DefinesTypes};

use crate::builtins::builtin;
use crate::members::member;
use crate::methods::methods_under;
use crate::properties::{properties_under, short_text};
use seam_defs::{Defs, Listed, MOST_PROPERTIES, MOST_TYPES, Properties, TypeDef, is_name};
use std::alloc::{AllocError, Global};
use toml::{Table, Value};

// The type that a table under this name defines.
fn type_of(alloc: Global, key: &str, table: &Table) -> Result<Option<TypeDef>, AllocError>
    ensures defines { IfOk result (λ read. let own = table_data (table_view table.now) in
        MatchOption read
        ((t : Types) → ¬ (DefinesType key.now own t))
        (DefinesType key.now own)) }
    ensures sound { IfOk result (λ read. IfSome read IsType) }
{
    let Some(properties) = properties_under(alloc, table)? else {
        return Ok(None);
    };
    if properties.len() > MOST_PROPERTIES {
        return Ok(None);
    }
    let Some(methods) = methods_under(alloc, &properties, table)? else {
        return Ok(None);
    };
    match short_text(alloc, key)? {
        Some(name) if is_name(key.as_bytes()) => Ok(Some(TypeDef {
            name,
            properties: Properties::of(properties)?,
            methods: Listed::of(methods),
        })),
        _ => Ok(None),
    }
}

// The type that the value under this name defines.
fn type_under(alloc: Global, key: &str, value: &Value) -> Result<Option<TypeDef>, AllocError>
    ensures defines { IfOk result (λ read. MatchOption read
        ((t : Types) → ¬ (DefinesType key.now (view value.now) t))
        (DefinesType key.now (view value.now))) }
    ensures sound { IfOk result (λ read. IfSome read IsType) }
{
    match value.as_table() {
        Some(table) => type_of(alloc, key, table),
        None => Ok(None),
    }
}

// The types that a table defines, in the byte order of their names, if they are not too many.
fn types(alloc: Global, table: &Table) -> Result<Option<Vec<TypeDef>>, AllocError>
    ensures defines { IfOk result (λ read. MatchOption read ((ts : List Types) →
        Each DefinesType (table_view table.now) ts → ¬ (length ts ≤ MOST_TYPES))
        (λ ts. Each DefinesType (table_view table.now) ts.items)) }
    ensures rising { IfOk result (λ read. IfSome read (λ ts.
        IsTrue (are_rising (names_of_types ts.items)))) }
    ensures sound { IfOk result (λ read. IfSome read (λ ts. All IsType ts.items)) }
    ensures few { IfOk result (λ read. IfSome read (λ ts. length ts.items ≤ MOST_TYPES)) }
{
    if table.len() > MOST_TYPES {
        return Ok(None);
    }
    let mut types = Vec::with_capacity(alloc, table.len())?;
    'members: for (key, value) in table.iter() {
        match type_under(alloc, key.as_str(), value)? {
            Some(t) => types.push(t)?,
            None => return Ok(None),
        }
    }
    Ok(Some(types))
}

// Definitions of those types.
fn definitions_in(alloc: Global, table: &Table) -> Result<Option<Defs>, AllocError>
    ensures { IfOk result (λ read. MatchOption read ((ts : List Types) →
        Each DefinesType (table_view table.now) ts → ¬ (length ts ≤ MOST_TYPES))
        (λ ts. Each DefinesType (table_view table.now) ts × (length ts ≤ MOST_TYPES))) }
{
    match types(alloc, table)? {
        Some(types) => Ok(Some(Defs::of_types(alloc, types))),
        None => Ok(None),
    }
}

// The definitions of a header.
pub(crate) fn definitions(alloc: Global, document: &Table) -> Result<Option<Defs>, AllocError>
    ensures { IfOk result (λ read. let under =
        get_member (codes "type") (table_view document.now) in MatchOption read
        ((ts : List Types) → ¬ (DefinesTypes under ts))
        (DefinesTypes under)) }
{
    match member(document, "type") {
        Some(value) => match value.as_table() {
            Some(table) => definitions_in(alloc, table),
            None => Ok(None),
        },
        None => Ok(Some(builtin(alloc)?)),
    }
}
