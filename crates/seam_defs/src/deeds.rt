// What a deed does to a state.
ghost use Rattle.std.specs.Prelude.{◌≡◌, ◌↔◌, ◌+ℤ◌, ◌-ℤ◌, IsTrue, OnOk, OnErr, IfOk, length, false};
ghost use Rattle.seam_defs.specs.Groups.{held_by, shown_by};
ghost use Rattle.seam_defs.specs.Types.{IsType, IsMethod};
ghost use Rattle.seam_defs.specs.Tests.{changes};
ghost use Rattle.seam_defs.specs.Deeds.{nearest as nearest_number, number_of, operand_value, operated, target, operand, place_of, type_at};
ghost use Rattle.seam_defs.specs.Deeds.{after_with, after_body, after, part_of_deed, projected, SameShown, IsOfGroup, AreArgsOf};
ghost use Rattle.seam_defs.specs.Deeds.{FitsDeed, with_later};

use crate::groups::OfGroup;
use crate::{
    Deed, Group, Later, Method, Operand, Operation, Part, Properties, Property, Props, State,
    TypeDef,
};
use seam_value::{Value, ValueType};
use std::alloc::{AllocError, Global};

impl Part {
    /// The group that the part holds.
    pub fn held(self) -> Group
        ensures { result ≡ held_by self }
    {
        match self {
            Part::Cell => Group::Real,
            Part::Base => Group::Base,
        }
    }

    // The group of the part that others may see: a cell part's ghosts, or a base part's client.
    fn shown(self) -> Group
        ensures { result ≡ shown_by self }
    {
        match self {
            Part::Cell => Group::Ghost,
            Part::Base => Group::BaseClient,
        }
    }
}

impl Operation {
    // The number of the property that it is on.
    fn target(&self) -> u16
        ensures { result ≡ target self.now }
    {
        match self {
            Operation::Put(property, _)
            | Operation::Add(property, _)
            | Operation::Sub(property, _) => { *property }
        }
    }

    fn operand(&self) -> &Operand
        ensures { result.now ≡ operand self.now }
    {
        match self {
            Operation::Put(_, operand) | Operation::Add(_, operand) | Operation::Sub(_, operand) =>
                { operand }
        }
    }
}

impl TypeDef {
    /// Does a deed on a state of the part that it is for. The answer is whether what others may see of the part has changed in value: of a
    /// cell part the position and the ghosted properties, of a base part what its client is shown.
    ///
    /// A state whose values are of the part's group keeps that under a deed that fits. If allocation fails, the state is as it was.
    pub fn apply(&self, state: &mut State, deed: &Deed) -> Result<bool, AllocError>
        requires { IsType self.now }
        ensures ok { OnOk result (state.new ≡ after self.now state.old deed.now) }
        ensures changed { IfOk result (λ c. (c ≡ false)
            ↔ SameShown self.now.properties (part_of_deed self.now deed.now) state.old state.new) }
        ensures test { IfOk result (λ c. c ≡ changes self.now state.old deed.now) }
        ensures err { OnErr result (state.new ≡ state.old) }
        ensures kept { FitsDeed self.now deed.now →
            let group = held_by (part_of_deed self.now deed.now) in
            IsOfGroup self.now.properties group state.old.props →
            IsOfGroup self.now.properties group state.new.props }
    {
        let later = self.perform(state, deed)?;
        let changed = later.changed;
        state.advance(later);
        Ok(changed)
    }

    /// What a deed leaves of a state, and whether what others may see of the part differs there; the state itself stays as it is.
    pub fn later(&self, state: &State, deed: &Deed) -> Result<Later, AllocError>
        requires { IsType self.now }
        ensures after { IfOk result (λ l. with_later state.now l
            ≡ after self.now state.now deed.now) }
        ensures changed { IfOk result (λ l. l.changed ≡ changes self.now state.now deed.now) }
    {
        self.perform(state, deed)
    }

    /// The state after a deed, and whether what others may see of the part differs there; the state itself stays as it is.
    pub fn state_after(&self, state: &State, deed: &Deed) -> Result<(State, bool), AllocError>
        requires { IsType self.now }
        ensures after { IfOk result (λ r. r.0 ≡ after self.now state.now deed.now) }
        ensures changed { IfOk result (λ r. r.1 ≡ changes self.now state.now deed.now) }
    {
        let later = self.later(state, deed)?;
        let changed = later.changed;
        Ok((later.over(state)?, changed))
    }

    // What `later` gives, without its test.
    fn perform(&self, state: &State, deed: &Deed) -> Result<Later, AllocError>
        requires { IsType self.now }
        ensures after { IfOk result (λ l. with_later state.now l
            ≡ after self.now state.now deed.now) }
        ensures changed { IfOk result (λ l. (l.changed ≡ false) ↔
            SameShown self.now.properties (part_of_deed self.now deed.now) state.now
            (with_later state.now l)) }
        ensures kept { IfOk result (λ l. FitsDeed self.now deed.now →
            let group = held_by (part_of_deed self.now deed.now) in
            IsOfGroup self.now.properties group state.now.props →
            IsOfGroup self.now.properties group (with_later state.now l).props) }
    {
        match deed {
            Deed::Move(to) => Ok(Later {
                pos: *to,
                props: None,
                changed: state.pos != *to,
            }),
            Deed::Method(number, args) => match self.method(*number) {
                Some(method) => {
                    let (props, changed) = run(
                        &self.properties,
                        method,
                        args.values(),
                        &state.props,
                    )?;
                    Ok(Later {
                        pos: state.pos,
                        props: Some(props),
                        changed,
                    })
                }
                None => Ok(Later {
                    pos: state.pos,
                    props: None,
                    changed: false,
                }),
            },
        }
    }
}

// Runs a method's body, on values of its own: those that it is given may be shared.
fn run(
    properties: &Properties,
    method: &Method,
    args: &[Value],
    props: &Props,
) -> Result<(Props, bool), AllocError>
    requires { IsMethod properties.now method.now }
    ensures kept { IfOk result (λ r. AreArgsOf method.now.args args.now →
        IsOfGroup properties.now (held_by method.now.part) props.now →
        IsOfGroup properties.now (held_by method.now.part) r.0) }
    ensures after { IfOk result (λ r. r.0 ≡ after_body properties.now (held_by method.now.part)
        args.now method.now.body props.now) }
    ensures changed { IfOk result (λ r. (r.1 ≡ false)
        ↔ (projected properties.now (held_by method.now.part) (shown_by method.now.part) props.now
        ≡ projected properties.now (held_by method.now.part) (shown_by method.now.part) r.0)) }
{
    let mut later = props.values().copy(*method.body.allocator())?;
    operate_all(properties.as_slice(), method, args, &mut later)?;
    let same = are_same(properties, method.part, props, &later);
    Ok((Props::of(later)?, !same))
}

// Does the operations of a method's body, from left to right, on the values of its part.
fn operate_all(
    properties: &[Property],
    method: &Method,
    args: &[Value],
    values: &mut [Value],
) -> Result<(), AllocError>
    ensures { OnOk result (values.new ≡ after_body properties.now (held_by method.now.part) args.now
        method.now.body values.old) }
{
    let alloc = *method.body.allocator();
    for operation in method.body.as_slice() {
        let by = operand_of(alloc, args, operation.operand())?;
        operate(properties, method.part.held(), operation, by, values);
    }
    Ok(())
}

// Does an operation with the value of its operand.
fn operate(
    properties: &[Property],
    group: Group,
    operation: &Operation,
    by: Value,
    values: &mut [Value],
)
    ensures { values.new ≡ after_with properties.now group values.old operation.now by }
{
    let place = place_of(properties, group, operation.target());
    if place < values.len() {
        let ty = type_at(properties, operation.target());
        values[place] = operated(operation, ty, number(&values[place]), by);
    }
}

// Whether what others may see of a part's values is the same.
fn are_same(properties: &Properties, part: Part, old: &Props, new: &[Value]) -> bool
    requires { length old.now ≡ length new.now }
    ensures { IsTrue result ↔ projected properties.now (held_by part) (shown_by part) old.now
        ≡ projected properties.now (held_by part) (shown_by part) new.now }
{
    if let Some(hidden) = properties.hidden(part.held(), part.shown()) {
        if let Some(same) = old.shows_same(new, &hidden) {
            return same;
        }
    }
    are_same_by_flags(properties.as_slice(), part, old, new)
}

// The same, by the flags of the properties.
fn are_same_by_flags(properties: &[Property], part: Part, old: &Props, new: &[Value]) -> bool
    requires { length old.now ≡ length new.now }
    ensures { IsTrue result ↔ projected properties.now (held_by part) (shown_by part) old.now
        ≡ projected properties.now (held_by part) (shown_by part) new.now }
{
    let shown = part.shown();
    OfGroup::new(properties, part.held())
        .zip(old.values().zip(new))
        .all(|(property, (old, new))| !property.flag.in_group(shown) || old == new)
}

// The value of an operand.
fn operand_of(alloc: Global, args: &[Value], operand: &Operand) -> Result<Value, AllocError>
    ensures { IfOk result (λ v. v ≡ operand_value args.now operand.now) }
{
    match operand {
        Operand::Arg(number) => match args.get((*number as usize).saturating_sub(1)) {
            Some(value) => value.copy(alloc),
            None => Ok(Value::Number(0)),
        },
        Operand::Constant(value) => value.copy(alloc),
    }
}

// The place of a property's value among those of its group.
fn place_of(properties: &[Property], group: Group, property: u16) -> usize
    ensures { result ≡ place_of properties.now group property }
{
    properties
        .iter()
        .take(property as usize)
        .filter(|p| p.flag.in_group(group))
        .count()
}

// The type of a property.
fn type_at(properties: &[Property], property: u16) -> ValueType
    ensures { result ≡ type_at properties.now property }
{
    match properties.get(property as usize) {
        Some(property) => property.ty,
        None => ValueType::Text,
    }
}

// The value that an operation gives a property that held the number `old`.
fn operated(operation: &Operation, ty: ValueType, old: i128, by: Value) -> Value
    ensures { result ≡ operated operation.now ty old by }
{
    match operation {
        Operation::Put(..) => by,
        Operation::Add(..) => Value::Number(nearest_sum(ty, old, number(&by))),
        Operation::Sub(..) => Value::Number(nearest_difference(ty, old, number(&by))),
    }
}

// The nearest number of a type to a sum. A sum that does not fit 128 bits has the same one as the nearest that does.
fn nearest_sum(ty: ValueType, a: i128, b: i128) -> i128
    ensures { result ≡ nearest_number ty (a +ℤ b) }
{
    nearest(ty, a.saturating_add(b))
}

// The nearest number of a type to a difference.
fn nearest_difference(ty: ValueType, a: i128, b: i128) -> i128
    ensures { result ≡ nearest_number ty (a -ℤ b) }
{
    nearest(ty, a.saturating_sub(b))
}

// A value as a number. A text counts as 0, which a well-typed operation never asks for.
fn number(value: &Value) -> i128
    ensures { result ≡ number_of value.now }
{
    match value {
        Value::Number(number) => *number,
        Value::Text(_) => 0,
    }
}

// The nearest number of a type.
fn nearest(ty: ValueType, number: i128) -> i128
    ensures { result ≡ nearest_number ty number }
{
    if ty.is_number() {
        number.min(ty.greatest()).max(ty.least())
    } else {
        0
    }
}
