// The methods of a type.
ghost use Rattle.std.specs.Prelude.{◌≡◌, ◌<◌, ◌≤◌, ◌↔◌, ℕ, IsTrue, IfSome, IfNone, Some, length, slice_get};
ghost use Rattle.seam_defs.specs.Deeds.{AreArgsOf, FitsDeed, part_of_deed};
ghost use Rattle.seam_defs.specs.Tests.{fit_values, fits_deed};
ghost use Rattle.seam_defs.specs.Types.{IsType, IsMethod, method_of, no_method, names_of_methods};

use crate::defs::order;
use crate::groups::fits_at;
use crate::{Deed, Method, Part, TypeDef};
use seam_value::{Value, ValueType};

impl TypeDef {
    /// The number of the method of this name that the type has: None exactly where it has none.
    pub fn find_method(&self, name: &[u8]) -> Option<u16>
        requires { IsType self.now }
        ensures found { IfSome result (λ k. slice_get (names_of_methods self.now.methods) k
            ≡ Some name.now) }
        ensures all { (k : ℕ) → slice_get (names_of_methods self.now.methods) k ≡ Some name.now →
            result ≡ Some k }
    {
        let methods = self.methods.as_slice();
        match methods.binary_search_by(|m| order(&m.name, name)) {
            Ok(number) => Some(number as u16),
            Err(_) => None,
        }
    }

    /// Whether the type has a method of this number.
    pub fn has_method(&self, number: u16) -> bool
        ensures { IsTrue result ↔ (number < length self.now.methods) }
    {
        (number as usize) < self.methods.as_slice().len()
    }

    /// The method of this number: None exactly where the type has none.
    pub fn method(&self, number: u16) -> Option<&Method>
        ensures found { IfSome result (λ m. (number < length self.now.methods) ×
            (m.now ≡ method_of self.now number)) }
        ensures none { IfNone result (length self.now.methods ≤ number) }
        ensures no_method { IfNone result (method_of self.now number ≡ no_method) }
        ensures sound { IsType self.now → IfSome result (λ m. IsMethod self.now.properties m.now) }
    {
        let methods = self.methods.as_slice();
        if (number as usize) < methods.len() {
            Some(&methods[number as usize])
        } else {
            None
        }
    }

    /// Whether entities of the type can do the deed: a move, or one of the type's methods with the arguments that it takes.
    pub fn fits(&self, deed: &Deed) -> bool
        ensures fits { IsTrue result ↔ FitsDeed self.now deed.now }
        ensures test { result ≡ fits_deed self.now deed.now }
    {
        match deed {
            Deed::Move(_) => true,
            Deed::Method(number, args) => match self.method(*number) {
                Some(method) => method.takes(args.values()),
                None => false,
            },
        }
    }

    /// The part of an entity that the deed is for.
    pub fn part_of(&self, deed: &Deed) -> Part
        ensures { result ≡ part_of_deed self.now deed.now }
    {
        match deed {
            Deed::Move(_) => Part::Cell,
            Deed::Method(number, _) => match self.method(*number) {
                Some(method) => method.part,
                None => Part::Cell,
            },
        }
    }
}

impl Method {
    /// Whether the values are the arguments that the method takes: as many, and each of its type.
    pub fn takes(&self, args: &[Value]) -> bool
        ensures takes { IsTrue result ↔ AreArgsOf self.now.args args.now }
        ensures test { result ≡ fit_values self.now.args args.now }
    {
        are_fitting(self.args.as_slice(), args)
    }
}

// Whether the values are as many as the types, and each is of its type.
fn are_fitting(types: &[ValueType], values: &[Value]) -> bool
    ensures { IsTrue result ↔ AreArgsOf types.now values.now }
{
    for (i, ty) in types.iter().enumerate() {
        if !fits_at(*ty, values, i) {
            return false;
        }
    }
    types.len() == values.len()
}
