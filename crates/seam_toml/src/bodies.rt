// Whether the bodies of methods say operations.
ghost use Rattle.std.specs.Prelude.{◌≡◌, ◌↔◌, IsTrue, IfOk, List, MatchOption, codes};
ghost use Rattle.toml.specs.Data.{get_member};
ghost use Rattle.toml.specs.View.{view, table_view, items_view};
ghost use Rattle.seam_value.specs.declared.types.ValueType.{ValueType as Types};
ghost use Rattle.seam_defs.specs.declared.flags.Part.{Part as Parts};
ghost use Rattle.seam_defs.specs.Types.{are_rising, names_of_properties};
ghost use Rattle.seam_toml.specs.declared.faults.Fault.TheVariants.{BadBody};
ghost use Rattle.seam_toml.specs.Tables.{EachItem};
ghost use Rattle.seam_toml.specs.Definitions.{HasPart, HasArguments, NamesType};
ghost use Rattle.seam_toml.specs.Faults.{IsBadText, HasBadText, AreBadTexts, HasBadBody};
ghost use Rattle.seam_toml.specs.Faults.{IsBadMethod, HasBadMethod, AreBadMethods, HasBadBodies, IsAtFault};

use crate::Role;
use crate::members::member;
use crate::operations::read_step;
use crate::properties::properties_under;
use seam_defs::{Part, Property};
use seam_value::ValueType;
use std::alloc::{AllocError, Global};
use toml::{Table, Value};

pub(crate) fn part_of(table: &Table) -> Option<Part>
    ensures { MatchOption result ((p : Parts) → ¬ (HasPart (table_view table.now) p))
        (HasPart (table_view table.now)) }
{
    match member(table, "part") {
        Some(value) => match value.as_str() {
            Some(name) => Part::named(name),
            None => None,
        },
        None => None,
    }
}

// The types that texts name.
fn types_named(alloc: Global, items: &[Value]) -> Result<Option<Vec<ValueType>>, AllocError>
    ensures { IfOk result (λ read. MatchOption read
        ((ts : List Types) → ¬ (EachItem NamesType (items_view items.now) ts))
        (λ ts. EachItem NamesType (items_view items.now) ts.items)) }
{
    let mut types = Vec::with_capacity(alloc, items.len())?;
    'items: for value in items.iter() {
        match type_named(value) {
            Some(t) => types.push(t)?,
            None => return Ok(None),
        }
    }
    Ok(Some(types))
}

fn type_named(value: &Value) -> Option<ValueType>
    ensures { MatchOption result ((t : Types) → ¬ (NamesType (view value.now) t))
        (NamesType (view value.now)) }
{
    match value.as_str() {
        Some(name) => ValueType::named(name),
        None => None,
    }
}

// The types of the arguments of a method, by its table.
pub(crate) fn arguments_of(
    alloc: Global,
    table: &Table,
) -> Result<Option<Vec<ValueType>>, AllocError>
    ensures { IfOk result (λ read. MatchOption read
        ((ts : List Types) → ¬ (HasArguments (table_view table.now) ts))
        (λ ts. HasArguments (table_view table.now) ts.items)) }
{
    match member(table, "args") {
        Some(value) => match value.as_array() {
            Some(items) => types_named(alloc, items),
            None => Ok(None),
        },
        None => Ok(Some(Vec::new(alloc))),
    }
}

fn is_bad_text(
    alloc: Global,
    properties: &[Property],
    part: Part,
    args: &[ValueType],
    value: &Value,
) -> Result<bool, AllocError>
    requires { IsTrue (are_rising (names_of_properties properties.now)) }
    ensures { IfOk result (λ answer. IsTrue answer ↔ IsBadText properties.now part args.now
        (view value.now)) }
{
    match value.as_str() {
        Some(text) => {
            let step = read_step(alloc, properties, part, args, text)?;
            Ok(step.is_none())
        }
        None => Ok(false),
    }
}

fn has_bad_text(
    alloc: Global,
    properties: &[Property],
    part: Part,
    args: &[ValueType],
    texts: &[Value],
) -> Result<bool, AllocError>
    requires { IsTrue (are_rising (names_of_properties properties.now)) }
    ensures { IfOk result (λ answer. IsTrue answer ↔ HasBadText properties.now part args.now
        (items_view texts.now)) }
{
    'items: for value in texts.iter() {
        if is_bad_text(alloc, properties, part, args, value)? {
            return Ok(true);
        }
    }
    Ok(false)
}

fn are_bad_texts(
    alloc: Global,
    properties: &[Property],
    part: Part,
    args: &[ValueType],
    table: &Table,
) -> Result<bool, AllocError>
    requires { IsTrue (are_rising (names_of_properties properties.now)) }
    ensures { IfOk result (λ answer. IsTrue answer ↔ AreBadTexts properties.now part args.now
        (get_member (codes "body") (table_view table.now))) }
{
    match member(table, "body") {
        Some(value) => match value.as_array() {
            Some(texts) => has_bad_text(alloc, properties, part, args, texts),
            None => Ok(false),
        },
        None => Ok(false),
    }
}

fn has_bad_body(alloc: Global, properties: &[Property], table: &Table) -> Result<bool, AllocError>
    requires { IsTrue (are_rising (names_of_properties properties.now)) }
    ensures { IfOk result (λ answer. IsTrue answer ↔ HasBadBody properties.now
        (table_view table.now)) }
{
    let Some(part) = part_of(table) else {
        return Ok(false);
    };
    let Some(args) = arguments_of(alloc, table)? else {
        return Ok(false);
    };
    are_bad_texts(alloc, properties, part, &args, table)
}

fn is_bad_method(alloc: Global, properties: &[Property], value: &Value) -> Result<bool, AllocError>
    requires { IsTrue (are_rising (names_of_properties properties.now)) }
    ensures { IfOk result (λ answer. IsTrue answer ↔ IsBadMethod properties.now (view value.now)) }
{
    match value.as_table() {
        Some(table) => has_bad_body(alloc, properties, table),
        None => Ok(false),
    }
}

fn has_bad_method(
    alloc: Global,
    properties: &[Property],
    methods: &Table,
) -> Result<bool, AllocError>
    requires { IsTrue (are_rising (names_of_properties properties.now)) }
    ensures { IfOk result (λ answer. IsTrue answer ↔ HasBadMethod properties.now
        (table_view methods.now)) }
{
    'members: for (_key, value) in methods.iter() {
        if is_bad_method(alloc, properties, value)? {
            return Ok(true);
        }
    }
    Ok(false)
}

fn are_bad_methods(
    alloc: Global,
    properties: &[Property],
    table: &Table,
) -> Result<bool, AllocError>
    requires { IsTrue (are_rising (names_of_properties properties.now)) }
    ensures { IfOk result (λ answer. IsTrue answer
        ↔ AreBadMethods properties.now (get_member (codes "methods") (table_view table.now))) }
{
    match member(table, "methods") {
        Some(value) => match value.as_table() {
            Some(methods) => has_bad_method(alloc, properties, methods),
            None => Ok(false),
        },
        None => Ok(false),
    }
}

fn has_bad_bodies(alloc: Global, table: &Table) -> Result<bool, AllocError>
    ensures { IfOk result (λ answer. IsTrue answer ↔ HasBadBodies (table_view table.now)) }
{
    match properties_under(alloc, table)? {
        Some(properties) => are_bad_methods(alloc, &properties, table),
        None => Ok(false),
    }
}

// Whether the value is for a type, and has a method with a bad body.
pub(crate) fn is_bad_type(alloc: Global, role: &Role, value: &Value) -> Result<bool, AllocError>
    ensures { IfOk result (λ answer. IsTrue answer ↔ IsAtFault BadBody role.now
        (view value.now)) }
{
    match (role, value.as_table()) {
        (Role::Type, Some(table)) => has_bad_bodies(alloc, table),
        _ => Ok(false),
    }
}
