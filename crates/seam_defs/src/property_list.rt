// The properties of a type, with what is kept beside them.
ghost use Rattle.std.specs.Prelude.{◌≡◌, [], IfOk, IfSome};
ghost use Rattle.seam_defs.specs.GroupValues.{start_values};
ghost use Rattle.seam_defs.specs.Hidden.{Hides};

use crate::groups::first_values;
use crate::props::left_out_of_all;
use crate::{Group, MOST_PROPERTIES, Property, Props};
use std::alloc::{AllocError, Global};
use std::marker::Model;

/// Which values of a group are not in another one.
#[derive(Clone, Copy, Debug)]
pub(crate) struct Hidden {
    /// How many values the group has.
    pub count: usize,
    /// A binary digit for each value, the first one's the lowest: 1 where the value is not in the other group.
    pub left_out: u64,
}

/// The properties of a type, in the byte order of their names. Contracts see their list.
///
/// What others may see of a part is asked for at every deed: so it is found out once, when the type is made. And new entities share their
/// first values, which are made then too.
#[derive(Debug, Drop)]
pub struct Properties {
    items: Vec<Property>,
    // What of a real's values a ghost does not hold, and the own client and other clients are not shown. Of a list that is longer than
    // any type's it is not kept.
    ghost_less: Option<Hidden>,
    own_less: Option<Hidden>,
    other_less: Option<Hidden>,
    // What of a base part's values its client is not shown.
    client_less: Option<Hidden>,
    // The values that a new entity's real has, and its base part.
    first_real: Option<Props>,
    first_base: Option<Props>,
}

impl Model for Properties {
    ghost use Rattle.std.specs.Prelude.{List, IfSome};
    ghost use Rattle.seam_defs.specs.declared.types.Property.{Property as AnyProperty};
    ghost use Rattle.seam_defs.specs.declared.flags.Group.TheVariants as group;
    ghost use Rattle.std.specs.Prelude.{◌≡◌};
    ghost use Rattle.seam_defs.specs.GroupValues.{start_values};
    ghost use Rattle.seam_defs.specs.Hidden.{Hides};

    ghost Value = { List AnyProperty };

    ghost view = { λ p. p.items.items };

    ghost invariant = { λ p. IfSome p.ghost_less (Hides p.items.items group.Real group.Ghost)
        × IfSome p.own_less (Hides p.items.items group.Real group.Own)
        × IfSome p.other_less (Hides p.items.items group.Real group.Other)
        × IfSome p.client_less (Hides p.items.items group.Base group.BaseClient)
        × IfSome p.first_real (λ values. values ≡ start_values p.items.items group.Real)
        × IfSome p.first_base (λ values. values ≡ start_values p.items.items group.Base) };
}

impl Properties {
    /// The properties of the vector, in its order.
    pub fn of(items: Vec<Property>) -> Result<Self, AllocError>
        ensures { IfOk result (λ properties. properties ≡ items.items) }
    {
        let alloc = *items.allocator();
        let first_real = Some(first_values(alloc, &items, Group::Real)?);
        let first_base = Some(first_values(alloc, &items, Group::Base)?);
        let ghost_less = hidden_from(&items, Group::Real, Group::Ghost);
        let own_less = hidden_from(&items, Group::Real, Group::Own);
        let other_less = hidden_from(&items, Group::Real, Group::Other);
        let client_less = hidden_from(&items, Group::Base, Group::BaseClient);
        Ok(Properties {
            items,
            ghost_less,
            own_less,
            other_less,
            client_less,
            first_real,
            first_base,
        })
    }

    /// No properties.
    pub fn none(alloc: Global) -> Self
        ensures { result ≡ [] }
    {
        Properties {
            items: Vec::new(alloc),
            ghost_less: None,
            own_less: None,
            other_less: None,
            client_less: None,
            first_real: None,
            first_base: None,
        }
    }

    /// The properties.
    pub fn as_slice(&self) -> &[Property]
        ensures { result.now ≡ self.now }
    {
        &self.items
    }

    /// Where the properties are allocated.
    pub fn allocator(&self) -> &Global {
        self.items.allocator()
    }

    /// Which values of the group `held` are not in the group `group`, where that is kept.
    pub(crate) fn hidden(&self, held: Group, group: Group) -> Option<Hidden>
        ensures { IfSome result (Hides self.now held group) }
    {
        match (held, group) {
            (Group::Real, Group::Ghost) => self.ghost_less,
            (Group::Real, Group::Own) => self.own_less,
            (Group::Real, Group::Other) => self.other_less,
            (Group::Base, Group::BaseClient) => self.client_less,
            _ => None,
        }
    }

    /// The values of the group that a new entity has, where they are kept.
    pub(crate) fn first(&self, group: Group) -> Option<&Props>
        ensures { IfSome result (λ values. values.now ≡ start_values self.now group) }
    {
        match group {
            Group::Real => self.first_real.as_ref(),
            Group::Base => self.first_base.as_ref(),
            _ => None,
        }
    }
}

// Which values of the group `held` are not in the group `group`, where they are not more than any type's.
fn hidden_from(properties: &[Property], held: Group, group: Group) -> Option<Hidden>
    ensures { IfSome result (Hides properties.now held group) }
{
    let count = count_of(properties, held);
    if count > MOST_PROPERTIES {
        return None;
    }
    let left_out = left_out_of_all(properties, held, group, count);
    Some(Hidden { count, left_out })
}

/// How many of the properties the group has.
pub(crate) fn count_of(properties: &[Property], group: Group) -> usize {
    let mut count = 0;
    for property in properties {
        if property.flag.in_group(group) {
            count += 1;
        }
    }
    count
}
