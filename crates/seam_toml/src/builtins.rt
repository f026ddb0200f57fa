// The types of a world whose header defines none, as a table.
ghost use Rattle.std.specs.Prelude.{◌≡◌, ◌≤◌, List, IfOk, IsTrue, length, map};
ghost use Rattle.std.specs.List.{list_all};
ghost use Rattle.seam_toml.specs.BuiltinRows.{operand_of, operation_of, method_of as method_of_row, property_of as property_of_row};
ghost use Rattle.seam_toml.specs.BuiltinRows.{type_of as type_of_row, is_short_row, is_short_property, is_short_method, is_short_type};
ghost use Rattle.seam_defs.specs.Builtin.{builtin as builtin_types};

use seam_defs::{
    Defs, Flag, Listed, Method, Operand, Operation, Part, Properties, Property, PropertyName,
    TypeDef,
};
use seam_value::{ShortText, Value, ValueError, ValueType};
use std::alloc::{AllocError, Global};

struct TypeRow {
    name: &'static str,
    properties: &'static [PropertyRow],
    methods: &'static [MethodRow],
}

// A property whose default is this number, or an empty text.
struct PropertyRow {
    name: &'static str,
    ty: ValueType,
    flag: Flag,
    default: Option<i64>,
}

struct MethodRow {
    name: &'static str,
    part: Part,
    exposed: bool,
    args: &'static [ValueType],
    body: &'static [Step],
}

enum Step {
    Put(u16, By),
    Add(u16, By),
    Sub(u16, By),
}

enum By {
    Arg(u8),
    Number(i64),
}

// The numbers of the properties of an avatar and of a chest.
const GOLD: u16 = 0;

const HP: u16 = 1;

const MANA: u16 = 2;

const MOOD: u16 = 3;

const NOTE: u16 = 4;

const RANK: u16 = 5;

const SCENT: u16 = 6;

const XP: u16 = 7;

const LID: u16 = 0;

static BUILTIN: [TypeRow; 2] = [
    TypeRow {
        name: "Avatar",
        properties: &[
            PropertyRow {
                name: "gold",
                ty: ValueType::Uint32,
                flag: Flag::Base,
                default: Some(0),
            },
            PropertyRow {
                name: "hp",
                ty: ValueType::Int32,
                flag: Flag::AllClients,
                default: Some(100),
            },
            PropertyRow {
                name: "mana",
                ty: ValueType::Uint16,
                flag: Flag::CellPublicAndOwn,
                default: Some(50),
            },
            PropertyRow {
                name: "mood",
                ty: ValueType::Int8,
                flag: Flag::OtherClients,
                default: Some(0),
            },
            PropertyRow {
                name: "note",
                ty: ValueType::Text,
                flag: Flag::CellPrivate,
                default: None,
            },
            PropertyRow {
                name: "rank",
                ty: ValueType::Uint8,
                flag: Flag::BaseAndClient,
                default: Some(1),
            },
            PropertyRow {
                name: "scent",
                ty: ValueType::Uint16,
                flag: Flag::CellPublic,
                default: Some(0),
            },
            PropertyRow {
                name: "xp",
                ty: ValueType::Uint64,
                flag: Flag::OwnClient,
                default: Some(0),
            },
        ],
        methods: &[
            MethodRow {
                name: "cast",
                part: Part::Cell,
                exposed: true,
                args: &[ValueType::Uint16],
                body: &[Step::Sub(MANA, By::Arg(1)), Step::Add(XP, By::Number(1))],
            },
            MethodRow {
                name: "feel",
                part: Part::Cell,
                exposed: true,
                args: &[ValueType::Int8],
                body: &[Step::Put(MOOD, By::Arg(1))],
            },
            MethodRow {
                name: "heal",
                part: Part::Cell,
                exposed: true,
                args: &[ValueType::Int32],
                body: &[Step::Add(HP, By::Arg(1))],
            },
            MethodRow {
                name: "hit",
                part: Part::Cell,
                exposed: true,
                args: &[ValueType::Int32],
                body: &[Step::Sub(HP, By::Arg(1))],
            },
            MethodRow {
                name: "mark",
                part: Part::Cell,
                exposed: false,
                args: &[ValueType::Uint16],
                body: &[Step::Put(SCENT, By::Arg(1))],
            },
            MethodRow {
                name: "pay",
                part: Part::Base,
                exposed: false,
                args: &[ValueType::Uint32],
                body: &[Step::Add(GOLD, By::Arg(1))],
            },
            MethodRow {
                name: "promote",
                part: Part::Base,
                exposed: true,
                args: &[],
                body: &[Step::Add(RANK, By::Number(1))],
            },
            MethodRow {
                name: "write",
                part: Part::Cell,
                exposed: false,
                args: &[ValueType::Text],
                body: &[Step::Put(NOTE, By::Arg(1))],
            },
        ],
    },
    TypeRow {
        name: "Chest",
        properties: &[PropertyRow {
            name: "lid",
            ty: ValueType::Uint8,
            flag: Flag::AllClients,
            default: Some(0),
        }],
        methods: &[
            MethodRow {
                name: "lift",
                part: Part::Cell,
                exposed: true,
                args: &[],
                body: &[Step::Put(LID, By::Number(1))],
            },
            MethodRow {
                name: "shut",
                part: Part::Cell,
                exposed: true,
                args: &[],
                body: &[Step::Put(LID, By::Number(0))],
            },
        ],
    },
];

/// The built-in types: an avatar, and a chest.
pub fn builtin(alloc: Global) -> Result<Defs, AllocError>
    ensures { IfOk result (λ d. d ≡ builtin_types) }
{
    Ok(Defs::of_types(alloc, types(alloc, &BUILTIN)?))
}

fn types(alloc: Global, rows: &[TypeRow]) -> Result<Vec<TypeDef>, AllocError>
    requires { IsTrue (list_all is_short_type rows.now) }
    ensures { IfOk result (λ ts. ts.items ≡ map type_of_row rows.now) }
{
    let mut types = Vec::with_capacity(alloc, rows.len())?;
    for row in rows {
        types.push(type_of(alloc, row)?)?;
    }
    Ok(types)
}

fn type_of(alloc: Global, row: &TypeRow) -> Result<TypeDef, AllocError>
    requires { IsTrue (is_short_type row.now) }
    ensures { IfOk result (λ t. t ≡ type_of_row row.now) }
{
    Ok(TypeDef {
        name: text(alloc, row.name)?,
        properties: Properties::of(properties(alloc, row.properties)?)?,
        methods: Listed::of(methods(alloc, row.methods)?),
    })
}

fn properties(alloc: Global, rows: &[PropertyRow]) -> Result<Vec<Property>, AllocError>
    requires { IsTrue (list_all is_short_property rows.now) }
    ensures { IfOk result (λ ps. ps.items ≡ map property_of_row rows.now) }
{
    let mut properties = Vec::with_capacity(alloc, rows.len())?;
    for row in rows {
        properties.push(property_of(alloc, row)?)?;
    }
    Ok(properties)
}

fn property_of(alloc: Global, row: &PropertyRow) -> Result<Property, AllocError>
    requires { IsTrue (is_short_property row.now) }
    ensures { IfOk result (λ p. p ≡ property_of_row row.now) }
{
    let default = match row.default {
        Some(number) => Value::Number(i128::from(number)),
        None => Value::Text(text(alloc, "")?),
    };
    Ok(Property {
        name: PropertyName::of(alloc, text(alloc, row.name)?)?,
        ty: row.ty,
        flag: row.flag,
        default,
    })
}

fn methods(alloc: Global, rows: &[MethodRow]) -> Result<Vec<Method>, AllocError>
    requires { IsTrue (list_all is_short_method rows.now) }
    ensures { IfOk result (λ ms. ms.items ≡ map method_of_row rows.now) }
{
    let mut methods = Vec::with_capacity(alloc, rows.len())?;
    for row in rows {
        methods.push(method_of(alloc, row)?)?;
    }
    Ok(methods)
}

fn method_of(alloc: Global, row: &MethodRow) -> Result<Method, AllocError>
    requires { IsTrue (is_short_method row.now) }
    ensures { IfOk result (λ m. m ≡ method_of_row row.now) }
{
    Ok(Method {
        name: text(alloc, row.name)?,
        part: row.part,
        exposed: row.exposed,
        args: Listed::of(row.args.to_vec(alloc)?),
        body: Listed::of(operations(alloc, row.body)?),
    })
}

fn operations(alloc: Global, steps: &[Step]) -> Result<Vec<Operation>, AllocError>
    ensures { IfOk result (λ ops. ops.items ≡ map operation_of steps.now) }
{
    let mut operations = Vec::with_capacity(alloc, steps.len())?;
    for step in steps {
        operations.push(operation_of(step))?;
    }
    Ok(operations)
}

fn operation_of(step: &Step) -> Operation
    ensures { result ≡ operation_of step.now }
{
    match step {
        Step::Put(property, by) => Operation::Put(*property, operand_of(by)),
        Step::Add(property, by) => Operation::Add(*property, operand_of(by)),
        Step::Sub(property, by) => Operation::Sub(*property, operand_of(by)),
    }
}

fn operand_of(by: &By) -> Operand
    ensures { result ≡ operand_of by.now }
{
    match by {
        By::Arg(place) => Operand::Arg(*place),
        By::Number(number) => Operand::Constant(Value::Number(i128::from(*number))),
    }
}

fn text(alloc: Global, text: &str) -> Result<ShortText, AllocError>
    requires { IsTrue (is_short_row text.now) }
    ensures { IfOk result (λ t. t ≡ text.now) }
{
    match ShortText::new(alloc, text.as_bytes()) {
        Ok(text) => Ok(text),
        Err(ValueError::NoMemory) => Err(AllocError),
        Err(_) => unreachable!(),
    }
}
