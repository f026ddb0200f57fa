// Names of properties.
ghost use Rattle.std.specs.Prelude.{◌≡◌, ◌∷◌, ◌++◌, [], IfOk};
ghost use Rattle.seam_value.specs.Texts.{IsShortText};

use seam_value::ShortText;
use std::alloc::{AllocError, Global};
use std::marker::Model;

/// The name of a property, with what a line of text has before the property's value.
#[derive(Debug, Drop)]
pub struct PropertyName {
    name: ShortText,
    label: Vec<u8>,
}

impl Model for PropertyName {
    ghost use Rattle.std.specs.Prelude.{List, ℕ, ◌≡◌, ◌∷◌, ◌++◌, []};

    ghost Value = { List ℕ };

    ghost view = { λ n. n.name };

    ghost invariant = { λ n. n.label.items ≡ 32 ∷ n.name ++ 61 ∷ [] };
}

impl PropertyName {
    /// The name that a text is.
    pub fn of(alloc: Global, name: ShortText) -> Result<PropertyName, AllocError>
        ensures { IfOk result (λ n. n ≡ name) }
    {
        let bytes = name.bytes();
        let mut label = Vec::with_capacity(alloc, bytes.len() + 2)?;
        label.push(b' ')?;
        label.extend_from_slice(bytes)?;
        label.push(b'=')?;
        Ok(PropertyName { name, label })
    }

    /// The text of the name.
    pub fn text(&self) -> &ShortText
        ensures { result.now ≡ self.now }
    {
        &self.name
    }

    /// What a line has before the property's value: a space, the name and `=`.
    pub fn label(&self) -> &[u8]
        ensures { result.now ≡ 32 ∷ self.now ++ 61 ∷ [] }
    {
        &self.label
    }

    /// An equal name.
    pub fn copy(&self, alloc: Global) -> Result<PropertyName, AllocError>
        ensures { IfOk result (λ n. n ≡ self.now) }
    {
        PropertyName::of(alloc, self.name.copy(alloc)?)
    }
}
