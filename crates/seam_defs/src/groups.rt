// Groups of values: their start, a group of a group, and their text.
ghost use Rattle.std.specs.Prelude.{◌≡◌, ◌↔◌, ◌++◌, IsTrue, OnOk, OnErr, IfOk, length, take};
ghost use Rattle.std.specs.Iterator.{YieldsFirstRef, item_count};
ghost use Rattle.seam_defs.specs.Types.{IsType};
ghost use Rattle.seam_defs.specs.Tests.{are_of_group as are_values_of_group};
ghost use Rattle.seam_defs.specs.Fitting.{FitsAt};
ghost use Rattle.seam_defs.specs.Remaining.{properties_left};
ghost use Rattle.seam_defs.specs.Deeds.{properties_of, start_values, projected, property_text, values_text, IsOfGroup};

use crate::property_list::count_of;
use crate::{Group, Property, Props, TypeDef};
use seam_value::{Value, ValueType};
use std::alloc::{AllocError, Global};

impl TypeDef {
    /// The values of a group that a new entity of the type has.
    pub fn start_props(&self, group: Group) -> Result<Props, AllocError>
        ensures value { IfOk result (λ props. props ≡ start_values self.now.properties group) }
        ensures of_group { IsType self.now → IfOk result
            (λ props. IsOfGroup self.now.properties group props) }
    {
        match self.properties.first(group) {
            Some(props) => props.copy(),
            None => {
                let alloc = *self.properties.allocator();
                first_values(alloc, self.properties.as_slice(), group)
            }
        }
    }

    /// Whether the values are those of the group: one for each of its properties, in name order, that fits its type.
    pub fn is_of_group(&self, group: Group, props: &Props) -> bool
        ensures of_group { IsTrue result ↔ IsOfGroup self.now.properties group props.now }
        ensures test { result ≡ are_values_of_group self.now.properties group props.now }
    {
        are_of_group(self.properties.as_slice(), group, props)
    }

    /// Those values of the group `held` whose properties are in the group `group` too, in the same memory.
    pub fn project_group(
        &self,
        held: Group,
        props: &Props,
        group: Group,
    ) -> Result<Props, AllocError>
        ensures { IfOk result (λ projection. projection ≡ projected self.now.properties held group
            props.now) }
    {
        props.project(&self.properties, held, group)
    }

    /// Whether `projection` has the values that `project_group` gives, which takes no memory to find out.
    pub fn is_projection(
        &self,
        held: Group,
        props: &Props,
        group: Group,
        projection: &Props,
    ) -> bool
        ensures { IsTrue result ↔ projection.now ≡ projected self.now.properties held group
            props.now }
    {
        let of_held = OfGroup::new(self.properties.as_slice(), held);
        let mut copies = projection.values();
        for (property, value) in of_held.zip(props.values()) {
            if property.flag.in_group(group) && copies.next() != Some(value) {
                return false;
            }
        }
        copies.next().is_none()
    }

    /// Appends the text of a group's values: for each of its properties, in name order, a space, the name, `=` and the
    /// value's spelling. If allocation fails `out` is as it was.
    pub fn write_props(
        &self,
        group: Group,
        props: &Props,
        out: &mut Vec<u8>,
    ) -> Result<(), AllocError>
        ensures ok { OnOk result (out.new.items ≡ out.old.items ++ values_text self.now.properties
            group props.now) }
        ensures err { OnErr result (out.new.items ≡ out.old.items) }
    {
        let mark = out.len();
        match push_group(self.properties.as_slice(), group, props, out) {
            Ok(()) => Ok(()),
            Err(error) => {
                out.truncate(mark);
                Err(error)
            }
        }
    }
}

/// The properties of a group, one after the other.
#[derive(Drop)]
pub(crate) struct OfGroup<'a> {
    properties: &'a [Property],
    group: Group,
}

impl<'a> OfGroup<'a> {
    pub fn new(properties: &'a [Property], group: Group) -> Self
        ensures { properties_left result ≡ properties_of properties.now group }
    {
        OfGroup { properties, group }
    }
}

impl<'a> Iterator for OfGroup<'a> {
    type Item = &'a Property;

    ghost next_gives = { YieldsFirstRef properties_left };

    ghost remaining = { item_count properties_left };

    fn next(&mut self) -> Option<&'a Property> {
        while let Some((property, others)) = self.properties.split_first() {
            self.properties = others;
            if property.flag.in_group(self.group) {
                return Some(property);
            }
        }
        None
    }
}

/// The values of the group that a new entity has.
pub(crate) fn first_values(
    alloc: Global,
    properties: &[Property],
    group: Group,
) -> Result<Props, AllocError>
    ensures { IfOk result (λ props. props ≡ start_values properties.now group) }
{
    let mut values = Vec::with_capacity(alloc, count_of(properties, group))?;
    push_defaults(properties, group, &mut values)?;
    Props::of(values)
}

// Appends the values of the group that a new entity has.
fn push_defaults(
    properties: &[Property],
    group: Group,
    out: &mut Vec<Value>,
) -> Result<(), AllocError>
    ensures { OnOk result (out.new.items ≡ out.old.items ++ start_values properties.now group) }
{
    for property in OfGroup::new(properties, group) {
        out.push(property.default.copy(*out.allocator())?)?;
    }
    Ok(())
}

// Appends the texts of the group's properties.
fn push_group(
    properties: &[Property],
    group: Group,
    props: &Props,
    out: &mut Vec<u8>,
) -> Result<(), AllocError>
    ensures ok { OnOk result (out.new.items ≡ out.old.items ++ values_text properties.now group
        props.now) }
    ensures kept { take (length out.old.items) out.new.items ≡ out.old.items }
{
    for (property, value) in OfGroup::new(properties, group).zip(props.values()) {
        push_property(property, value, out)?;
    }
    Ok(())
}

fn push_property(property: &Property, value: &Value, out: &mut Vec<u8>) -> Result<(), AllocError>
    ensures ok { OnOk result (out.new.items ≡ out.old.items ++ property_text (
      property.now,
      value.now,
    )) }
    ensures kept { take (length out.old.items) out.new.items ≡ out.old.items }
{
    out.extend_from_slice(property.name.label())?;
    value.write(out)
}

// Whether the values are those of a group.
fn are_of_group(properties: &[Property], group: Group, props: &Props) -> bool
    ensures { IsTrue result ↔ IsOfGroup properties.now group props.now }
{
    let mut values = props.values();
    for property in OfGroup::new(properties, group) {
        match values.next() {
            Some(value) if value.fits(property.ty) => {}
            _ => return false,
        }
    }
    values.next().is_none()
}

// Whether there is a value at a place, and it is one of the type.
pub(crate) fn fits_at(ty: ValueType, values: &[Value], place: usize) -> bool
    ensures { IsTrue result ↔ FitsAt ty values.now place }
{
    match values.get(place) {
        Some(value) => value.fits(ty),
        None => false,
    }
}
