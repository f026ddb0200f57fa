// The deeds that words ask of an entity.
ghost use Rattle.std.specs.Prelude.{◌≡◌, ◌≢◌, ◌<◌, ℕ, List, IfOk, IfErr, length};
ghost use Rattle.seam_value.specs.Values.{Fits, text_of};
ghost use Rattle.seam_value.specs.declared.values.Value.{Value as Values};
ghost use Rattle.seam_defs.specs.Types.{IsType, method_of};
ghost use Rattle.seam_rule_lines.specs.Judging.{SpellsArgs, NamesDeed, NamesMove, MayMove};
ghost use Rattle.seam_accept.specs.Commands.{texts_of};
ghost use Rattle.seam_accept.specs.Judging.{Asks, MayAsk, NoMethod, NoMove, NoDeed, IsIllTyped};

use crate::answers::Refusal;
use crate::command::{DeedWords, MethodWords, PositionWords};
use crate::naming::{method_named, position_named};
use seam_defs::{Args, Deed, Method, TypeDef};
use seam_rule_lines::{Asked, Cause, Header, may_call, may_move};
use seam_value::{Value, ValueError, ValueType};
use std::alloc::Global;

/// The deed that words ask of an entity of a type.
pub fn deed_named(
    alloc: Global,
    header: &Header,
    asked: &Asked,
    t: &TypeDef,
    words: &DeedWords,
) -> Result<Deed, Refusal>
    requires { IsType t.now }
    ensures deed { IfOk result (Asks header.now words.now t.now) }
    ensures may { IfOk result (MayAsk asked.now.sender asked.now.entity t.now) }
    ensures none { IfErr result (NoDeed header.now asked.now.sender asked.now.entity words.now
        t.now) }
{
    match words {
        DeedWords::Method(words) => method_deed(alloc, asked, t, words),
        DeedWords::Move(words) => move_deed(header, asked, words),
    }
}

// A move to the place that the words spell.
fn move_deed(header: &Header, asked: &Asked, words: &PositionWords) -> Result<Deed, Refusal>
    ensures deed { IfOk result (NamesMove header.now words.now.x.now words.now.z.now) }
    ensures may { IfOk result (λ _. MayMove asked.now.sender asked.now.entity) }
    ensures none { IfErr result (NoMove header.now asked.now.sender asked.now.entity words.now) }
{
    if !may_move(asked) {
        return Err(Refusal::Cause(Cause::UnknownMethod));
    }
    match position_named(header, words) {
        Some(to) => Ok(Deed::Move(to)),
        None => Err(Refusal::Cause(Cause::IllTyped)),
    }
}

// A method of the type, with its arguments.
fn method_deed(
    alloc: Global,
    asked: &Asked,
    t: &TypeDef,
    words: &MethodWords,
) -> Result<Deed, Refusal>
    requires { IsType t.now }
    ensures deed { IfOk result (NamesDeed (texts_of words.now.arguments.now) words.now.name.now
        t.now) }
    ensures may { IfOk result (MayAsk asked.now.sender asked.now.entity t.now) }
    ensures none { IfErr result (NoMethod asked.now.sender asked.now.entity words.now t.now) }
{
    let Some(number) = method_named(t, words.name) else {
        return Err(Refusal::Cause(Cause::UnknownMethod));
    };
    let Some(method) = t.method(number) else {
        unreachable!()
    };
    if !may_call(asked, method) {
        return Err(Refusal::Cause(Cause::UnknownMethod));
    }
    let args = args_named(alloc, method, words.arguments)?;
    Ok(Deed::Method(number, args))
}

// The arguments that a method takes, by their words.
fn args_named(alloc: Global, method: &Method, arguments: &[&[u8]]) -> Result<Args, Refusal>
    ensures args { IfOk result (SpellsArgs method.now (texts_of arguments.now)) }
    ensures none { IfErr result (IsIllTyped ((args : List Values) →
        ¬ (SpellsArgs method.now (texts_of arguments.now) args))) }
{
    let types = method.args.as_slice();
    if arguments.len() != types.len() {
        return Err(Refusal::Cause(Cause::IllTyped));
    }
    let mut values = Vec::with_capacity(alloc, types.len())?;
    for (i, argument) in arguments.iter().enumerate() {
        values.push(value_named(alloc, argument, types[i])?)?;
    }
    Ok(Args::of(values))
}

// The value of a type that a word spells.
fn value_named(alloc: Global, word: &[u8], t: ValueType) -> Result<Value, Refusal>
    ensures value { IfOk result (λ v. Fits v t × (text_of v ≡ word.now)) }
    ensures none { IfErr result (IsIllTyped ((v : Values) → Fits v t → text_of v ≢ word.now)) }
{
    match Value::parse(alloc, word, t) {
        Ok(value) => Ok(value),
        Err(ValueError::NoMemory) => Err(Refusal::NoMemory),
        Err(_) => Err(Refusal::Cause(Cause::IllTyped)),
    }
}
