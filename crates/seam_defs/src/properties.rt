// The properties of a type, by their names.
ghost use Rattle.std.specs.Prelude.{◌≡◌, ℕ, IfSome, Some, slice_get};
ghost use Rattle.seam_defs.specs.Types.{IsType, names_of_properties};

use crate::TypeDef;
use crate::defs::order;

impl TypeDef {
    /// The number of the property of this name that the type has: None exactly where it has none.
    pub fn find_property(&self, name: &[u8]) -> Option<u16>
        requires { IsType self.now }
        ensures found { IfSome result (λ k. slice_get (names_of_properties self.now.properties) k
            ≡ Some name.now) }
        ensures all { (k : ℕ) → slice_get (names_of_properties self.now.properties) k
            ≡ Some name.now → result ≡ Some k }
    {
        let properties = self.properties.as_slice();
        match properties.binary_search_by(|p| order(p.name.text(), name)) {
            Ok(number) => Some(number as u16),
            Err(_) => None,
        }
    }
}
