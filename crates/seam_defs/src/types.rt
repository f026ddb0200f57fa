use crate::{Flag, Listed, Part, Properties, PropertyName};
use seam_value::{ShortText, Value, ValueType};

/// A property of a type of entities.
#[derive(Debug, Drop)]
pub struct Property {
    pub name: PropertyName,
    pub ty: ValueType,
    pub flag: Flag,
    /// The value that a new entity has.
    pub default: Value,
}

/// What an operation takes: an argument of the method, counted from 1, or a value of its own.
#[derive(Debug, Drop)]
pub enum Operand {
    Arg(u8),
    Constant(Value),
}

/// One step of a method's body, on the property of this number: its value is replaced, or a number is added to it or
/// subtracted from it, and the sum is then brought to the nearest value of the property's type.
#[derive(Debug, Drop)]
pub enum Operation {
    Put(u16, Operand),
    Add(u16, Operand),
    Sub(u16, Operand),
}

/// A method of a type of entities.
#[derive(Debug, Drop)]
pub struct Method {
    pub name: ShortText,
    pub part: Part,
    /// Whether clients may call it.
    pub exposed: bool,
    pub args: Listed<ValueType>,
    pub body: Listed<Operation>,
}

/// A type of entities. Properties and methods are numbered by their places, which go by the byte order of the names.
#[derive(Debug, Drop)]
pub struct TypeDef {
    pub name: ShortText,
    pub properties: Properties,
    pub methods: Listed<Method>,
}
