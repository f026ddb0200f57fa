// The methods that a header's tables define.
ghost use Rattle.std.specs.Prelude.{◌≡◌, ◌≤◌, IsTrue, IfOk, IfSome, List, MatchOption, Some, codes, length};
ghost use Rattle.toml.specs.Data.{table as table_data, get_member};
ghost use Rattle.toml.specs.View.{view, table_view, items_view};
ghost use Rattle.seam_defs.specs.declared.types.Method.{Method as Methods};
ghost use Rattle.seam_defs.specs.declared.types.Operation.{Operation as Operations};
ghost use Rattle.seam_defs.specs.Types.{are_rising, names_of_methods, names_of_properties};
ghost use Rattle.seam_toml.specs.Tables.{Each, EachUnder, EachItem, EachItemUnder};
ghost use Rattle.seam_toml.specs.Definitions.{exposed_or_not, IsOperationData, DefinesMethod};
ghost use Rattle.seam_toml.specs.Steps.{operand_of, operation_of, IsSmallGiven, IsSmall};

use crate::bodies::{arguments_of, part_of};
use crate::members::member;
use crate::operations::{Given, Step, Verb, read_step};
use crate::properties::short_text;
use crate::roles::is_method_name;
use seam_defs::{
    Listed, MOST_ARGUMENTS, MOST_METHODS, MOST_OPERATIONS, MOST_PROPERTIES, Method, Operand,
    Operation, Part, Property,
};
use seam_value::ValueType;
use std::alloc::{AllocError, Global};
use toml::{Table, Value};

fn operand(given: Given) -> Operand
    requires { IsSmallGiven given }
    ensures { result ≡ operand_of given }
{
    match given {
        Given::Argument(k) => Operand::Arg(k as u8),
        Given::Constant(value) => Operand::Constant(value),
    }
}

fn operation(step: Step) -> Operation
    requires { IsSmall step }
    ensures { result ≡ operation_of step }
{
    let property = step.property as u16;
    let operand = operand(step.given);
    match step.verb {
        Verb::Set => Operation::Put(property, operand),
        Verb::Add => Operation::Add(property, operand),
        Verb::Sub => Operation::Sub(property, operand),
    }
}

// The operation that an item of a body says.
fn operation_said(
    alloc: Global,
    properties: &[Property],
    part: Part,
    args: &[ValueType],
    value: &Value,
) -> Result<Option<Operation>, AllocError>
    requires rising { IsTrue (are_rising (names_of_properties properties.now)) }
    requires few_properties { length properties.now ≤ MOST_PROPERTIES }
    requires few_arguments { length args.now ≤ MOST_ARGUMENTS }
    ensures { IfOk result (λ read. MatchOption read
        ((op : Operations) → ¬ (IsOperationData properties.now part args.now (view value.now) op))
        (IsOperationData properties.now part args.now (view value.now))) }
{
    match value.as_str() {
        Some(text) => match read_step(alloc, properties, part, args, text)? {
            Some(step) => Ok(Some(operation(step))),
            None => Ok(None),
        },
        None => Ok(None),
    }
}

// The operations that the items of a body say, if they are not too many.
fn operations(
    alloc: Global,
    properties: &[Property],
    part: Part,
    args: &[ValueType],
    items: &[Value],
) -> Result<Option<Vec<Operation>>, AllocError>
    requires rising { IsTrue (are_rising (names_of_properties properties.now)) }
    requires few_properties { length properties.now ≤ MOST_PROPERTIES }
    requires few_arguments { length args.now ≤ MOST_ARGUMENTS }
    ensures says { IfOk result (λ read. MatchOption read ((ops : List Operations) →
        EachItem (IsOperationData properties.now part args.now) (items_view items.now) ops →
        ¬ (length ops ≤ MOST_OPERATIONS)) (λ ops.
        EachItem (IsOperationData properties.now part args.now) (items_view items.now) ops.items)) }
    ensures few { IfOk result (λ read. IfSome read (λ ops. length ops.items ≤ MOST_OPERATIONS)) }
{
    if items.len() > MOST_OPERATIONS {
        return Ok(None);
    }
    let mut operations = Vec::with_capacity(alloc, items.len())?;
    'items: for value in items.iter() {
        match operation_said(alloc, properties, part, args, value)? {
            Some(operation) => operations.push(operation)?,
            None => return Ok(None),
        }
    }
    Ok(Some(operations))
}

// The operations of the body that the table of a method has, if they are not too many.
fn body_of(
    alloc: Global,
    properties: &[Property],
    part: Part,
    args: &[ValueType],
    table: &Table,
) -> Result<Option<Vec<Operation>>, AllocError>
    requires rising { IsTrue (are_rising (names_of_properties properties.now)) }
    requires few_properties { length properties.now ≤ MOST_PROPERTIES }
    requires few_arguments { length args.now ≤ MOST_ARGUMENTS }
    ensures says { IfOk result (λ read. let under =
        get_member (codes "body") (table_view table.now) in MatchOption read
        ((ops : List Operations) →
        EachItemUnder (IsOperationData properties.now part args.now) under ops →
        ¬ (length ops ≤ MOST_OPERATIONS))
        (λ ops. EachItemUnder (IsOperationData properties.now part args.now) under ops.items)) }
    ensures few { IfOk result (λ read. IfSome read (λ ops. length ops.items ≤ MOST_OPERATIONS)) }
{
    match member(table, "body") {
        Some(value) => match value.as_array() {
            Some(items) => operations(alloc, properties, part, args, items),
            None => Ok(None),
        },
        None => Ok(Some(Vec::new(alloc))),
    }
}

fn exposed_of(table: &Table) -> Option<bool>
    ensures { result ≡ exposed_or_not (get_member (codes "exposed") (table_view table.now)) }
{
    match member(table, "exposed") {
        Some(value) => value.as_bool(),
        None => Some(false),
    }
}

// The method that a table under this name defines.
fn method_of(
    alloc: Global,
    properties: &[Property],
    key: &str,
    table: &Table,
) -> Result<Option<Method>, AllocError>
    requires rising { IsTrue (are_rising (names_of_properties properties.now)) }
    requires few_properties { length properties.now ≤ MOST_PROPERTIES }
    ensures { IfOk result (λ read. let own = table_data (table_view table.now) in MatchOption read
        ((m : Methods) → ¬ (DefinesMethod properties.now key.now own m))
        (DefinesMethod properties.now key.now own)) }
{
    let (Some(part), Some(exposed)) = (part_of(table), exposed_of(table)) else {
        return Ok(None);
    };
    let Some(args) = arguments_of(alloc, table)? else {
        return Ok(None);
    };
    if args.len() > MOST_ARGUMENTS {
        return Ok(None);
    }
    let Some(body) = body_of(alloc, properties, part, &args, table)? else {
        return Ok(None);
    };
    match short_text(alloc, key)? {
        Some(name) if is_method_name(key) => Ok(Some(Method {
            name,
            part,
            exposed,
            args: Listed::of(args),
            body: Listed::of(body),
        })),
        _ => Ok(None),
    }
}

// The method that the value under this name defines.
fn method(
    alloc: Global,
    properties: &[Property],
    key: &str,
    value: &Value,
) -> Result<Option<Method>, AllocError>
    requires rising { IsTrue (are_rising (names_of_properties properties.now)) }
    requires few_properties { length properties.now ≤ MOST_PROPERTIES }
    ensures { IfOk result (λ read. MatchOption read
        ((m : Methods) → ¬ (DefinesMethod properties.now key.now (view value.now) m))
        (DefinesMethod properties.now key.now (view value.now))) }
{
    match value.as_table() {
        Some(table) => method_of(alloc, properties, key, table),
        None => Ok(None),
    }
}

// The methods that a table defines, in the byte order of their names, if they are not too many.
fn methods(
    alloc: Global,
    properties: &[Property],
    table: &Table,
) -> Result<Option<Vec<Method>>, AllocError>
    requires rising { IsTrue (are_rising (names_of_properties properties.now)) }
    requires few_properties { length properties.now ≤ MOST_PROPERTIES }
    ensures defines { IfOk result (λ read. MatchOption read ((ms : List Methods) →
        Each (DefinesMethod properties.now) (table_view table.now) ms →
        ¬ (length ms ≤ MOST_METHODS)) (λ ms. Each (DefinesMethod properties.now)
        (table_view table.now) ms.items)) }
    ensures rising { IfOk result (λ read. IfSome read (λ ms.
        IsTrue (are_rising (names_of_methods ms.items)))) }
    ensures few { IfOk result (λ read. IfSome read (λ ms. length ms.items ≤ MOST_METHODS)) }
{
    if table.len() > MOST_METHODS {
        return Ok(None);
    }
    let mut methods = Vec::with_capacity(alloc, table.len())?;
    'members: for (key, value) in table.iter() {
        match method(alloc, properties, key.as_str(), value)? {
            Some(method) => methods.push(method)?,
            None => return Ok(None),
        }
    }
    Ok(Some(methods))
}

// The methods that the table of a type defines, if they are not too many.
pub(crate) fn methods_under(
    alloc: Global,
    properties: &[Property],
    table: &Table,
) -> Result<Option<Vec<Method>>, AllocError>
    requires rising { IsTrue (are_rising (names_of_properties properties.now)) }
    requires few_properties { length properties.now ≤ MOST_PROPERTIES }
    ensures defines { IfOk result (λ read. let under =
        get_member (codes "methods") (table_view table.now) in MatchOption read
        ((ms : List Methods) → EachUnder (DefinesMethod properties.now) under ms →
        ¬ (length ms ≤ MOST_METHODS))
        (λ ms. EachUnder (DefinesMethod properties.now) under ms.items)) }
    ensures rising { IfOk result (λ read. IfSome read (λ ms.
        IsTrue (are_rising (names_of_methods ms.items)))) }
    ensures few { IfOk result (λ read. IfSome read (λ ms. length ms.items ≤ MOST_METHODS)) }
{
    match member(table, "methods") {
        Some(value) => match value.as_table() {
            Some(table) => methods(alloc, properties, table),
            None => Ok(None),
        },
        None => Ok(Some(Vec::new(alloc))),
    }
}
