// What the text of an operation says.
ghost use Rattle.std.specs.Prelude.{◌≡◌, ◌≢◌, ◌≤◌, ◌<◌, ◌-◌, ◌^◌, ◌∷◌, ◌↔◌, [], ℕ, List, IsTrue, IfOk, IfSome};
ghost use Rattle.std.specs.Prelude.{MatchOption, Some, length, map, slice_get};
ghost use Rattle.seam_words.specs.SplitWords.{HasWords};
ghost use Rattle.seam_value.specs.Values.{decimal_of};
ghost use Rattle.seam_defs.specs.declared.types.Operand.{Operand as Operands};
ghost use Rattle.seam_defs.specs.declared.types.Operation.{Operation as Operations};
ghost use Rattle.seam_defs.specs.Types.{OperandFits, are_rising, names_of_properties};
ghost use Rattle.seam_toml.specs.Operations.{word_of, SpellOperation, IsOperationText};
ghost use Rattle.seam_toml.specs.Steps.{word_of_verb, operand_of, operation_of, MayDo};
ghost use Rattle.seam_toml.specs.declared.operations.Verb.{Verb as Verbs};

use seam_defs::{Part, Property};
use seam_value::{Value, ValueError, ValueType, read_number};
use seam_words::{MOST_WORDS, words_of_line};
use std::alloc::{AllocError, Global};

/// The most bytes of the text of an operation.
pub const LONGEST_OPERATION: usize = 4_096;

// What an operation does to its property.
#[derive(Clone, Copy, Debug, PartialEq, Eq)]
pub(crate) enum Verb {
    Set,
    Add,
    Sub,
}

// What an operation takes: the argument of this number, counted from 1, or a value of its own.
#[derive(Debug, Drop)]
pub(crate) enum Given {
    Argument(usize),
    Constant(Value),
}

// An operation as its text says it: a header may have more properties and arguments than a world, as long as no limit is looked at.
#[derive(Debug, Drop)]
pub(crate) struct Step {
    pub verb: Verb,
    pub property: usize,
    pub given: Given,
}

// The words of an operation.
#[derive(Drop)]
struct ThreeWords<'a> {
    verb: &'a [u8],
    property: &'a [u8],
    operand: &'a [u8],
}

// Words as three, if they are so many.
fn as_three<'a>(words: &[&'a [u8]]) -> Option<ThreeWords<'a>>
    ensures { MatchOption result
        ((a b c : List ℕ) → map (λ w. w.now) words.now ≢ a ∷ b ∷ c ∷ [])
        (λ w. map (λ w. w.now) words.now ≡ w.verb.now ∷ w.property.now ∷ w.operand.now ∷ []) }
{
    match words {
        [verb, property, operand] => Some(ThreeWords {
            verb,
            property,
            operand,
        }),
        _ => None,
    }
}

fn three_words(text: &[u8]) -> Option<ThreeWords<'_>>
    requires { length text.now ≤ LONGEST_OPERATION }
    ensures { MatchOption result
        ((a b c : List ℕ) → ¬ (HasWords text.now (a ∷ b ∷ c ∷ [])))
        (λ w. HasWords text.now (w.verb.now ∷ w.property.now ∷ w.operand.now ∷ [])) }
{
    let mut table = [b"".as_slice(); MOST_WORDS];
    match words_of_line(text, &mut table) {
        Ok(words) => as_three(words),
        Err(_) => None,
    }
}

fn verb_named(word: &[u8]) -> Option<Verb>
    ensures { MatchOption result ((v : Verbs) → word_of_verb v ≢ word.now) (λ v. word_of_verb v
        ≡ word.now) }
{
    if word == b"set".as_slice() {
        Some(Verb::Set)
    } else if word == b"add".as_slice() {
        Some(Verb::Add)
    } else if word == b"sub".as_slice() {
        Some(Verb::Sub)
    } else {
        None
    }
}

// The place of the property of this name.
fn place_of(properties: &[Property], name: &[u8]) -> Option<usize>
    requires { IsTrue (are_rising (names_of_properties properties.now)) }
    ensures within { IfSome result (λ k. k < length properties.now) }
    ensures found { IfSome result (λ k. slice_get (names_of_properties properties.now) k
        ≡ Some name.now) }
    ensures all { (k : ℕ) → slice_get (names_of_properties properties.now) k ≡ Some name.now →
        result ≡ Some k }
{
    match properties.binary_search_by(|p| p.name.text().bytes().cmp(name)) {
        Ok(place) => Some(place),
        Err(_) => None,
    }
}

// The number that the digits spell.
fn number_of(digits: &[u8]) -> Option<u64>
    ensures exact { (n : ℕ) → n < 2 ^ 64 → decimal_of n ≡ digits.now → result ≡ Some n }
    ensures value { IfSome result (λ n. decimal_of n ≡ digits.now) }
{
    match read_number(digits, ValueType::Uint64) {
        Ok(number) => Some(number as u64),
        Err(_) => None,
    }
}

// The number of the argument of this type that the word names.
fn argument(word: &[u8], args: &[ValueType], t: ValueType) -> Option<usize>
    ensures { MatchOption result ((k : ℕ) → word_of (Operands.Arg k) ≡ word.now →
        ¬ (OperandFits args.now t (Operands.Arg k))) (λ k. (word_of (Operands.Arg k) ≡ word.now)
        × OperandFits args.now t (Operands.Arg k)) }
{
    match word {
        [b'$', digits @ ..] => match number_of(digits) {
            Some(0) => None,
            Some(k) => match args.get((k - 1) as usize) {
                Some(arg) if *arg == t => Some(k as usize),
                _ => None,
            },
            None => None,
        },
        _ => None,
    }
}

// What the word says that an operation on a property of this type takes.
fn read_operand(
    alloc: Global,
    word: &[u8],
    args: &[ValueType],
    t: ValueType,
) -> Result<Option<Given>, AllocError>
    ensures { IfOk result (λ read. MatchOption read
        ((a : Operands) → word_of a ≡ word.now → ¬ (OperandFits args.now t a))
        (λ g. (word_of (operand_of g) ≡ word.now) × OperandFits args.now t (operand_of g))) }
{
    if let Some(k) = argument(word, args, t) {
        return Ok(Some(Given::Argument(k)));
    }
    match Value::parse(alloc, word, t) {
        Ok(value) => Ok(Some(Given::Constant(value))),
        Err(ValueError::NoMemory) => Err(AllocError),
        Err(_) => Ok(None),
    }
}

// Whether a method of the part may do this to the property.
fn may_do(verb: Verb, part: Part, property: &Property) -> bool
    ensures { IsTrue result ↔ MayDo verb part property.now }
{
    match verb {
        Verb::Set => property.flag.in_group(part.held()),
        Verb::Add | Verb::Sub => property.flag.in_group(part.held()) && property.ty.is_number(),
    }
}

// The operation that the words say.
fn step_of(
    alloc: Global,
    properties: &[Property],
    part: Part,
    args: &[ValueType],
    words: &ThreeWords<'_>,
) -> Result<Option<Step>, AllocError>
    requires { IsTrue (are_rising (names_of_properties properties.now)) }
    ensures { IfOk result (λ read. let ws = words.now.verb.now ∷ words.now.property.now ∷
        words.now.operand.now ∷ [] in MatchOption read
        ((op : Operations) → ¬ (SpellOperation properties.now part args.now ws op))
        (λ s. SpellOperation properties.now part args.now ws (operation_of s))) }
{
    let Some(verb) = verb_named(words.verb) else {
        return Ok(None);
    };
    let Some(place) = place_of(properties, words.property) else {
        return Ok(None);
    };
    let property = &properties[place];
    if !may_do(verb, part, property) {
        return Ok(None);
    }
    match read_operand(alloc, words.operand, args, property.ty)? {
        Some(given) => Ok(Some(Step {
            verb,
            property: place,
            given,
        })),
        None => Ok(None),
    }
}

// The operation that the text says, in a method of this part that takes these arguments.
pub(crate) fn read_step(
    alloc: Global,
    properties: &[Property],
    part: Part,
    args: &[ValueType],
    text: &str,
) -> Result<Option<Step>, AllocError>
    requires { IsTrue (are_rising (names_of_properties properties.now)) }
    ensures { IfOk result (λ read. MatchOption read
        ((op : Operations) → ¬ (IsOperationText properties.now part args.now text.now op))
        (λ s. IsOperationText properties.now part args.now text.now (operation_of s))) }
{
    if text.len() > LONGEST_OPERATION {
        return Ok(None);
    }
    match three_words(text.as_bytes()) {
        Some(words) => step_of(alloc, properties, part, args, &words),
        None => Ok(None),
    }
}
