ghost use Rattle.std.specs.Prelude.{◌≡◌, ◌<◌, ◌↔◌, ℕ, IsTrue, IfSome, Some, length, slice_get};
ghost use Rattle.std.specs.Ordering.{nat_cmp};
ghost use Rattle.std.specs.Cmp.Lexicographic.{slice_cmp};
ghost use Rattle.seam_defs.specs.Types.{AreDefs, IsType, type_of, names_of_types};

use crate::{Listed, Properties, TypeDef};
use seam_hash::HashKey;
use seam_value::ShortText;
use std::alloc::Global;
use std::cmp::Ordering;
use std::marker::Model;

/// The types of entities of a world, numbered by their places.
///
/// A number that the definitions do not have means a type without properties and methods, so that a look-up by a number
/// that was tested once needs no test again.
#[derive(Debug, Drop)]
pub struct Defs {
    pub(crate) alloc: Global,
    pub(crate) key: HashKey,
    pub(crate) types: Vec<TypeDef>,
    // The type of every other number.
    none: TypeDef,
}

impl Model for Defs {
    ghost use Rattle.std.specs.Prelude.{List};
    ghost use Rattle.seam_defs.specs.declared.types.TypeDef.{TypeDef as AnyType};
    ghost use Rattle.seam_defs.specs.Types.{IsDefs};

    ghost Value = { List AnyType };

    ghost view = { λ d. d.types.items };

    ghost invariant = { λ d. IsDefs d.types.items d.none };
}

impl Defs {
    /// Definitions of these types, which have to be well formed.
    pub fn of_types(alloc: Global, types: Vec<TypeDef>) -> Self
        requires { AreDefs types.items }
        ensures { result ≡ types.items }
    {
        let none = TypeDef {
            name: ShortText::empty(alloc),
            properties: Properties::none(alloc),
            methods: Listed::of(Vec::new(alloc)),
        };
        Defs {
            alloc,
            key: HashKey::new(0),
            types,
            none,
        }
    }

    /// The key of the hash by which tables of a world of these types find entities: a known one, until `set_hash_key`.
    pub fn hash_key(&self) -> HashKey {
        self.key
    }

    /// Sets that key, and nothing that a contract sees. Copies keep it.
    pub fn set_hash_key(&mut self, key: HashKey)
        ensures { self.new ≡ self.old }
    {
        self.key = key;
    }

    /// Definitions are well formed.
    pub fn known(&self)
        ensures { AreDefs self.now }
    {
        let _ = &self.types;
    }

    /// The number of the type of this name: None exactly where none has it.
    pub fn find_type(&self, name: &[u8]) -> Option<u16>
        ensures found { IfSome result (λ k. slice_get (names_of_types self.now) k ≡ Some name.now) }
        ensures all { (k : ℕ) → slice_get (names_of_types self.now) k ≡ Some name.now →
            result ≡ Some k }
    {
        match self.types.binary_search_by(|t| order(&t.name, name)) {
            Ok(place) => Some(place as u16),
            Err(_) => None,
        }
    }

    /// Whether there is a type of this number.
    pub fn has_type(&self, ty: u16) -> bool
        ensures { IsTrue result ↔ (ty < length self.now) }
    {
        (ty as usize) < self.types.len()
    }

    /// The type of this number.
    pub fn type_at(&self, ty: u16) -> &TypeDef
        ensures value { result.now ≡ type_of self.now ty }
        ensures sound { IsType result.now }
    {
        match self.types.get(ty as usize) {
            Some(t) => t,
            None => &self.none,
        }
    }
}

// How a name compares with the one that is sought, in byte order. Names are short and soon differ, so that the bytes one by one cost
// less than a call to compare slices.
pub(crate) fn order(name: &ShortText, sought: &[u8]) -> Ordering
    ensures { result ≡ slice_cmp nat_cmp name.now sought.now }
{
    let name = name.bytes();
    for i in 0..name.len().min(sought.len()) {
        if name[i] != sought[i] {
            return name[i].cmp(&sought[i]);
        }
    }
    name.len().cmp(&sought.len())
}
