// The values of a group of properties.
ghost use Rattle.std.specs.Prelude.{◌≡◌, ◌↔◌, ◌<◌, ◌≤◌, ◌^◌, if◌then◌else◌, IsTrue, IfOk, IfSome, List, ◌∷◌, length};
ghost use Rattle.std.specs.Prelude.{option_copied, slice_get};
ghost use Rattle.std.specs.Iterator.{YieldsFirstRef, item_count};
ghost use Rattle.seam_value.specs.declared.values.Value.{Value as AnyValue};
ghost use Rattle.seam_defs.specs.declared.limits.TheConstants.{MOST_PROPERTIES};
ghost use Rattle.seam_defs.specs.Deeds.{projected};
ghost use Rattle.seam_defs.specs.Hidden.{Hides};
ghost use Rattle.seam_defs.specs.Marks.{kept};
ghost use Rattle.seam_defs.specs.Remaining.{properties_left, values_left, shown_of};

use crate::groups::OfGroup;
use crate::property_list::Hidden;
use crate::{Group, MOST_PROPERTIES, Properties, Property};
use seam_value::Value;
use std::alloc::{AllocError, Global};
use std::marker::Model;
use std::sync::Arc;

/// The values of a group of properties, in the order of the properties. Copies share the memory of the values, which never
/// change, and so do the values of a narrower group.
#[derive(Debug, Drop)]
pub struct Props {
    values: Arc<Vec<Value>, Global>,
    // A binary digit for each value, the first one's the lowest: 1 where the value is left out.
    left_out: u64,
}

impl Model for Props {
    ghost use Rattle.std.specs.Prelude.{List};
    ghost use Rattle.std.specs.Arc.{arc_value};
    ghost use Rattle.seam_value.specs.declared.values.Value.{Value as AnyValue};
    ghost use Rattle.seam_defs.specs.Marks.{kept};

    ghost Value = { List AnyValue };

    ghost view = { λ p. kept p.left_out (arc_value p.values).items };
}

impl Props {
    /// The values of the vector, in its order.
    pub fn of(values: Vec<Value>) -> Result<Self, AllocError>
        ensures { IfOk result (λ props. props ≡ values.items) }
    {
        let alloc = *values.allocator();
        match Arc::new(alloc, values) {
            Ok(values) => Ok(Props {
                values,
                left_out: 0,
            }),
            Err(_) => Err(AllocError),
        }
    }

    /// Equal values.
    pub fn copy(&self) -> Result<Props, AllocError>
        ensures { IfOk result (λ props. props ≡ self.now) }
    {
        Ok(Props {
            values: Arc::try_clone(&self.values)?,
            left_out: self.left_out,
        })
    }

    /// Lets the values go. Where no other copy shares them, as mostly, that takes no locked instruction, as the drop of a shared
    /// pointer does.
    pub(crate) fn release(self) {
        let _ = Arc::try_unwrap(self.values);
    }

    /// The values.
    pub(crate) fn values(&self) -> KeptValues<'_>
        ensures values { values_left result ≡ self.now }
        ensures short { length result.values.now < 2 ^ 64 }
    {
        KeptValues {
            values: self.values.as_slice(),
            left_out: self.left_out,
        }
    }

    /// The values, where none is left out.
    fn whole(&self) -> Option<&[Value]>
        ensures { IfSome result (λ values. values.now ≡ self.now) }
    {
        if self.left_out == 0 {
            Some(&self.values)
        } else {
            None
        }
    }

    /// Whether those values are the same as the others that are not among the hidden ones; `None` where that cannot be told by the digits.
    pub(crate) fn shows_same(&self, others: &[Value], hidden: &Hidden) -> Option<bool>
        ensures { IfSome result (λ same. (length others.now ≡ hidden.now.count) × (IsTrue same
            ↔ (kept hidden.now.left_out self.now ≡ kept hidden.now.left_out others.now))) }
    {
        let values = self.whole()?;
        if values.len() != others.len() || others.len() != hidden.count {
            return None;
        }
        Some(are_same_kept(values, others, hidden.left_out))
    }

    /// Whether both have the same values.
    pub fn equals(&self, other: &Props) -> bool
        ensures { IsTrue result ↔ (self.now ≡ other.now) }
    {
        if self.left_out == other.left_out && self.values.len() == other.values.len() {
            return are_same_kept(&self.values, &other.values, self.left_out);
        }
        are_same(self.values(), other.values())
    }

    /// How many values there are.
    pub fn len(&self) -> usize
        ensures { result ≡ length self.now }
    {
        self.values().count()
    }

    /// The value at a place, counted from 0; `None` where there is no such place.
    pub fn at(&self, i: usize) -> Option<&Value>
        ensures { option_copied result ≡ slice_get self.now i }
    {
        self.values().nth(i)
    }

    /// Those of the group `held` whose properties are in the group `group` too, in the same memory. Of a list that is longer
    /// than any type's they are copied.
    pub(crate) fn project(
        &self,
        properties: &Properties,
        held: Group,
        group: Group,
    ) -> Result<Props, AllocError>
        ensures { IfOk result (λ projection. projection ≡ projected properties.now held group
            self.now) }
    {
        if self.values.len() > MOST_PROPERTIES {
            return Props::of(copy_shown(properties.as_slice(), held, group, self)?);
        }
        let values = Arc::try_clone(&self.values)?;
        let left_out = if self.left_out == 0 {
            left_out_of_whole(properties, held, group, values.len())
        } else {
            left_out_of_kept(properties.as_slice(), held, group, &values, self.left_out)
        };
        Ok(Props { values, left_out })
    }
}

/// The values of a list that are kept, one after the other.
#[derive(Drop)]
pub(crate) struct KeptValues<'a> {
    values: &'a [Value],
    // As in `Props`.
    left_out: u64,
}

impl<'a> KeptValues<'a> {
    /// All values of a list.
    pub fn all(values: &'a [Value]) -> Self
        ensures { values_left result ≡ values.now }
    {
        KeptValues {
            values,
            left_out: 0,
        }
    }

    /// Equal values.
    pub fn copy(self, alloc: Global) -> Result<Vec<Value>, AllocError>
        ensures { IfOk result (λ copies. copies.items ≡ values_left self.entry) }
    {
        let mut copies = Vec::with_capacity(alloc, self.values.len())?;
        for value in self {
            copies.push(value.copy(alloc)?)?;
        }
        Ok(copies)
    }
}

impl<'a> Iterator for KeptValues<'a> {
    type Item = &'a Value;

    ghost next_gives = { YieldsFirstRef values_left };

    ghost remaining = { item_count values_left };

    fn next(&mut self) -> Option<&'a Value> {
        while let Some((value, others)) = self.values.split_first() {
            let is_kept = self.left_out % 2 == 0;
            self.values = others;
            self.left_out /= 2;
            if is_kept {
                return Some(value);
            }
        }
        None
    }
}

// Whether the values of two lists are the same.
fn are_same(values: KeptValues<'_>, mut others: KeptValues<'_>) -> bool
    ensures { IsTrue result ↔ (values_left values.entry ≡ values_left others.entry) }
{
    for value in values {
        if others.next() != Some(value) {
            return false;
        }
    }
    others.next().is_none()
}

// Whether the kept values of two lists are the same of which the same places are left out.
fn are_same_kept(values: &[Value], others: &[Value], left_out: u64) -> bool
    requires { length values.now ≡ length others.now }
    ensures { IsTrue result ↔ (kept left_out values.now ≡ kept left_out others.now) }
{
    let mut marks = left_out;
    for i in 0..values.len() {
        let (value, other) = (&values[i], &others[i]);
        if marks % 2 == 0 && value != other {
            return false;
        }
        marks /= 2;
    }
    true
}

// The digits of those that are left out of so many values, as they are kept beside the properties or by the flags.
fn left_out_of_whole(properties: &Properties, held: Group, group: Group, count: usize) -> u64
    requires { count ≤ MOST_PROPERTIES }
    ensures { Hides properties.now held group (record { count = count; left_out = result }) }
{
    match properties.hidden(held, group) {
        Some(hidden) if hidden.count == count => hidden.left_out,
        _ => left_out_of_all(properties.as_slice(), held, group, count),
    }
}

/// The digits of those of so many values that are left out where only values are kept whose properties are in another group too.
pub(crate) fn left_out_of_all(
    properties: &[Property],
    held: Group,
    group: Group,
    count: usize,
) -> u64
    requires { count ≤ MOST_PROPERTIES }
    ensures { Hides properties.now held group (record { count = count; left_out = result }) }
{
    let mut left_out = 0;
    let mut mark = 1;
    let mut passed = 0;
    for property in properties {
        if passed < count && property.flag.in_group(held) {
            if !property.flag.in_group(group) {
                left_out += mark;
            }
            mark *= 2;
            passed += 1;
        }
    }
    for _ in passed..count {
        left_out += mark;
        mark *= 2;
    }
    left_out
}

// The same, where some of the values were left out before.
fn left_out_of_kept(
    properties: &[Property],
    held: Group,
    group: Group,
    values: &[Value],
    before: u64,
) -> u64
    requires { length values.now ≤ MOST_PROPERTIES }
    ensures { kept result values.now ≡ projected properties.now held group
        (kept before values.now) }
{
    let mut of_held = OfGroup::new(properties, held);
    let mut left_out = 0;
    let mut rest = before;
    let mut mark = 1;
    for _ in values {
        let is_kept = rest % 2 == 0 && is_next_in(&mut of_held, group);
        if !is_kept {
            left_out += mark;
        }
        rest /= 2;
        mark *= 2;
    }
    left_out
}

// Whether there is a next property, and it is in the group too.
fn is_next_in(properties: &mut OfGroup<'_>, group: Group) -> bool
    ensures { (v : AnyValue) (values : List AnyValue) →
        shown_of group (properties_left properties.old) (v ∷ values)
        ≡ (if result then v ∷ shown_of group (properties_left properties.new) values
        else shown_of group (properties_left properties.new) values) }
{
    match properties.next() {
        Some(property) => property.flag.in_group(group),
        None => false,
    }
}

// Copies those values whose properties are in another group too.
fn copy_shown(
    properties: &[Property],
    held: Group,
    group: Group,
    props: &Props,
) -> Result<Vec<Value>, AllocError>
    ensures { IfOk result (λ copies. copies.items ≡ projected properties.now held group props.now) }
{
    let alloc = *props.values.allocator();
    let mut copies = Vec::new(alloc);
    for (property, value) in OfGroup::new(properties, held).zip(props.values()) {
        if property.flag.in_group(group) {
            copies.push(value.copy(alloc)?)?;
        }
    }
    Ok(copies)
}
