// The values of a line, by the type that has them.
ghost use Rattle.std.specs.Prelude.{◌≡◌, ◌∷◌, ◌++◌, List, ℕ, length, map, IfOk};
ghost use Rattle.seam_value.specs.Values.{Fits, text_of};
ghost use Rattle.seam_value.specs.declared.values.Value.{Value as Values};
ghost use Rattle.seam_defs.specs.Deeds.{IsOfGroup, AreArgsOf, properties_of};
ghost use Rattle.seam_defs.specs.Types.{IsType};
ghost use Rattle.seam_defs.specs.declared.states.State.{State as States};
ghost use Rattle.seam_law_texts.specs.TextLines.{property_word, value_words, state_words};
ghost use Rattle.seam_law_texts.specs.Forms.{HasState};

use crate::words::{position, word_at, words_from};
use seam_defs::{Group, Property, Props, State, TypeDef};
use seam_value::{ShortText, Value, ValueError, ValueType};
use std::alloc::{AllocError, Global};

// What a property's word has after the name and the equals sign.
fn after_name<'a>(word: &'a [u8], name: &[u8]) -> &'a [u8]
    ensures { (rest : List ℕ) → word.now ≡ name.now ++ 61 ∷ rest → result.now ≡ rest }
{
    if name.len() < word.len() {
        &word[name.len() + 1..]
    } else {
        word
    }
}

// The value of a property that its word spells, or else its default.
fn property_value(alloc: Global, property: &Property, word: &[u8]) -> Result<Value, AllocError>
    requires { Fits property.now.default property.now.ty }
    ensures form { IfOk result (λ v. Fits v property.now.ty) }
    ensures told { IfOk result (λ v. (w : Values) → Fits w property.now.ty →
        word.now ≡ property_word (property.now, w) → v ≡ w) }
{
    let spelled = after_name(word, property.name.text().bytes());
    match Value::parse(alloc, spelled, property.ty) {
        Ok(value) => Ok(value),
        Err(ValueError::NoMemory) => Err(AllocError),
        Err(_) => property.default.copy(alloc),
    }
}

// The value of a type that a word spells, or else zero or the empty text.
fn argument(alloc: Global, word: &[u8], ty: ValueType) -> Result<Value, AllocError>
    ensures form { IfOk result (λ v. Fits v ty) }
    ensures told { IfOk result (λ v. (w : Values) → Fits w ty → word.now ≡ text_of w → v ≡ w) }
{
    match Value::parse(alloc, word, ty) {
        Ok(value) => Ok(value),
        Err(ValueError::NoMemory) => Err(AllocError),
        Err(_) => nothing(alloc, ty),
    }
}

// Zero, or the empty text.
fn nothing(alloc: Global, ty: ValueType) -> Result<Value, AllocError>
    ensures { IfOk result (λ v. Fits v ty) }
{
    match ty {
        ValueType::Text => match ShortText::new(alloc, b"") {
            Ok(text) => Ok(Value::Text(text)),
            Err(_) => Err(AllocError),
        },
        _ => Ok(Value::Number(0)),
    }
}

/// The values of the properties of a group, of which each word spells one, in their order.
pub fn group_values(
    alloc: Global,
    t: &TypeDef,
    group: Group,
    words: &[&[u8]],
) -> Result<Vec<Value>, AllocError>
    requires { IsType t.now }
    ensures form { IfOk result (λ vs. IsOfGroup t.now.properties group vs.items) }
    ensures told { IfOk result (λ vs. (ws : List Values) → IsOfGroup t.now.properties group ws →
        map (λ w. w.now) words.now ≡ value_words t.now.properties group ws → vs.items ≡ ws) }
{
    let mut values = Vec::new(alloc);
    let mut properties = t.properties.as_slice();
    let mut rest = words;
    while let Some((property, others)) = properties.split_first() {
        properties = others;
        if property.flag.in_group(group) {
            values.push(property_value(alloc, property, word_at(rest, 0))?)?;
            rest = words_from(rest, 1);
        }
    }
    Ok(values)
}

/// The values of these types, of which each word spells one.
pub fn arguments(
    alloc: Global,
    types: &[ValueType],
    words: &[&[u8]],
) -> Result<Vec<Value>, AllocError>
    ensures form { IfOk result (λ vs. AreArgsOf types.now vs.items) }
    ensures told { IfOk result (λ vs. (ws : List Values) → AreArgsOf types.now ws →
        map (λ w. w.now) words.now ≡ map text_of ws → vs.items ≡ ws) }
{
    let mut values = Vec::new(alloc);
    let mut left = types;
    let mut rest = words;
    while let Some((ty, others)) = left.split_first() {
        values.push(argument(alloc, word_at(rest, 0), *ty)?)?;
        left = others;
        rest = words_from(rest, 1);
    }
    Ok(values)
}

/// A position, and the values of a group after it.
pub fn state(alloc: Global, t: &TypeDef, group: Group, words: &[&[u8]]) -> Result<State, AllocError>
    requires { IsType t.now }
    ensures form { IfOk result (HasState t.now group) }
    ensures told { IfOk result (λ s. (r : States) → HasState t.now group r →
        map (λ w. w.now) words.now ≡ state_words t.now group r → s ≡ r) }
{
    let values = group_values(alloc, t, group, words_from(words, 2))?;
    Ok(State {
        pos: position(word_at(words, 0), word_at(words, 1)),
        props: Props::of(values)?,
    })
}
