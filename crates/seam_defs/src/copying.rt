// Copies of definitions.
ghost use Rattle.std.specs.Prelude.{◌≡◌, IfOk};

use crate::{Defs, Listed, Method, Operand, Operation, Properties, Property, TypeDef};
use std::alloc::{AllocError, Global};

impl Defs {
    /// Equal definitions.
    pub fn copy(&self) -> Result<Defs, AllocError>
        ensures { IfOk result (λ defs. defs ≡ self.now) }
    {
        let types = copy_types(self.alloc, &self.types)?;
        let mut defs = Defs::of_types(self.alloc, types);
        defs.set_hash_key(self.key);
        Ok(defs)
    }
}

fn copy_types(alloc: Global, types: &[TypeDef]) -> Result<Vec<TypeDef>, AllocError>
    ensures { IfOk result (λ copies. copies.items ≡ types.now) }
{
    let mut copies = Vec::with_capacity(alloc, types.len())?;
    for t in types {
        copies.push(copy_type(alloc, t)?)?;
    }
    Ok(copies)
}

fn copy_type(alloc: Global, t: &TypeDef) -> Result<TypeDef, AllocError>
    ensures { IfOk result (λ copy. copy ≡ t.now) }
{
    Ok(TypeDef {
        name: t.name.copy(alloc)?,
        properties: Properties::of(copy_properties(alloc, t.properties.as_slice())?)?,
        methods: Listed::of(copy_methods(alloc, t.methods.as_slice())?),
    })
}

fn copy_properties(alloc: Global, properties: &[Property]) -> Result<Vec<Property>, AllocError>
    ensures { IfOk result (λ copies. copies.items ≡ properties.now) }
{
    let mut copies = Vec::with_capacity(alloc, properties.len())?;
    for property in properties {
        copies.push(copy_property(alloc, property)?)?;
    }
    Ok(copies)
}

fn copy_property(alloc: Global, property: &Property) -> Result<Property, AllocError>
    ensures { IfOk result (λ copy. copy ≡ property.now) }
{
    Ok(Property {
        name: property.name.copy(alloc)?,
        ty: property.ty,
        flag: property.flag,
        default: property.default.copy(alloc)?,
    })
}

fn copy_methods(alloc: Global, methods: &[Method]) -> Result<Vec<Method>, AllocError>
    ensures { IfOk result (λ copies. copies.items ≡ methods.now) }
{
    let mut copies = Vec::with_capacity(alloc, methods.len())?;
    for method in methods {
        copies.push(copy_method(alloc, method)?)?;
    }
    Ok(copies)
}

fn copy_method(alloc: Global, method: &Method) -> Result<Method, AllocError>
    ensures { IfOk result (λ copy. copy ≡ method.now) }
{
    Ok(Method {
        name: method.name.copy(alloc)?,
        part: method.part,
        exposed: method.exposed,
        args: Listed::of(method.args.as_slice().to_vec(alloc)?),
        body: Listed::of(copy_operations(alloc, method.body.as_slice())?),
    })
}

fn copy_operations(alloc: Global, operations: &[Operation]) -> Result<Vec<Operation>, AllocError>
    ensures { IfOk result (λ copies. copies.items ≡ operations.now) }
{
    let mut copies = Vec::with_capacity(alloc, operations.len())?;
    for operation in operations {
        copies.push(copy_operation(alloc, operation)?)?;
    }
    Ok(copies)
}

fn copy_operation(alloc: Global, operation: &Operation) -> Result<Operation, AllocError>
    ensures { IfOk result (λ copy. copy ≡ operation.now) }
{
    match operation {
        Operation::Put(property, operand) => Ok(Operation::Put(
            *property,
            copy_operand(alloc, operand)?,
        )),
        Operation::Add(property, operand) => Ok(Operation::Add(
            *property,
            copy_operand(alloc, operand)?,
        )),
        Operation::Sub(property, operand) => Ok(Operation::Sub(
            *property,
            copy_operand(alloc, operand)?,
        )),
    }
}

fn copy_operand(alloc: Global, operand: &Operand) -> Result<Operand, AllocError>
    ensures { IfOk result (λ copy. copy ≡ operand.now) }
{
    match operand {
        Operand::Arg(number) => Ok(Operand::Arg(*number)),
        Operand::Constant(value) => Ok(Operand::Constant(value.copy(alloc)?)),
    }
}
