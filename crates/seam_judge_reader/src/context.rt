// What a printed line may name: the types of the header, and the entities of a standing.
ghost use Rattle.std.specs.Prelude.{◌≡◌, ◌≢◌, ◌∷◌, ◌==◌, ℕ, List, MatchBool, map, find, option_map, IfOk, OnOk, ◌<◌, length};
ghost use Rattle.std.specs.FinMap as map_of;
ghost use Rattle.seam_call.specs.declared.create.Create.{Create as Creates};
ghost use Rattle.seam_rule_lines.specs.Book.{creates_of, entries};
ghost use Rattle.seam_value.specs.Values.{text_of};
ghost use Rattle.seam_value.specs.declared.values.Value.{Value as Values};
ghost use Rattle.seam_defs.specs.Deeds.{FitsDeed, AreArgsOf};
ghost use Rattle.seam_defs.specs.Types.{IsType, method_of, type_of};
ghost use Rattle.seam_defs.specs.declared.states.Deed.{Deed as Deeds};
ghost use Rattle.seam_judge_data.specs.Standings.{standing_of};
ghost use Rattle.seam_law_texts.specs.TextLines.{deed_words};
ghost use Rattle.seam_law_texts.specs.Forms.{GoesToPosition, type_in};

use seam_call::Create;
use seam_defs::{Args, Deed, TypeDef};
use seam_geo::Pos;
use seam_judge_data::Standing;
use seam_judge_expected::created_in;
use seam_judge_words::{arguments, position, word_at, words_from};
use seam_rule_lines::Header;
use seam_table::{HashKey, Table};
use std::alloc::{AllocError, Global};

// The number of no type.
const NONE: u16 = u16::MAX;

/// Whether a word is this one.
pub(crate) fn is_word(word: &[u8], name: &[u8]) -> bool
    ensures { MatchBool result (word.now ≡ name.now) (word.now ≢ name.now) }
{
    word == name
}

/// The header, the standing, and the types of the entities that were created, by the entities' numbers.
#[derive(Drop)]
pub(crate) struct LineContext<'a> {
    pub(crate) alloc: Global,
    pub(crate) header: &'a Header,
    pub(crate) standing: &'a Standing,
    types: Table<u16>,
    ghost right: { (e : ℕ) → map_of.get types.items e ≡ option_map (λ c. c.ty)
        (find (λ c. c.entity == e) (creates_of (entries (standing_of standing.now).book))) },
}

impl<'a> LineContext<'a> {
    pub(crate) fn of(
        alloc: Global,
        header: &'a Header,
        standing: &'a Standing,
    ) -> Result<LineContext<'a>, AllocError>
        ensures header { IfOk result (λ known. known.header.now ≡ header.now) }
        ensures standing { IfOk result (λ known. known.standing.now ≡ standing.now) }
    {
        let creates = created_in(alloc, standing)?;
        let types = types_of(alloc, &creates)?;
        Ok(LineContext {
            alloc,
            header,
            standing,
            types,
        })
    }

    /// The number of the type of an entity; that of no type, if the entity was not created.
    pub(crate) fn type_of(&self, entity: u32) -> u16
        ensures { result ≡ type_in (standing_of self.now.standing.now).book entity }
    {
        match self.types.get(entity) {
            Some(ty) => *ty,
            None => NONE,
        }
    }

    /// The type of a number.
    pub(crate) fn type_at(&self, ty: u16) -> &TypeDef
        ensures value { result.now ≡ type_of self.now.header.now.defs ty }
        ensures sound { IsType result.now }
    {
        self.header.defs.type_at(ty)
    }
}

// The types of created entities: of two of one number the first counts.
fn types_of(alloc: Global, creates: &[Create]) -> Result<Table<u16>, AllocError>
    ensures { IfOk result (λ types. (e : ℕ) → map_of.get types.items e
        ≡ option_map (λ c. c.ty) (find (λ c. c.entity == e) creates.now)) }
{
    let mut types = Table::new(alloc, HashKey::new(0));
    for create in creates {
        if types.get(create.entity).is_none() {
            keep_type(&mut types, *create)?;
        }
    }
    Ok(types)
}

fn keep_type(types: &mut Table<u16>, create: Create) -> Result<(), AllocError>
    ensures { OnOk result (types.new.items
        ≡ map_of.insert types.old.items create.entity create.ty) }
{
    match types.put(create.entity, create.ty) {
        Ok(_) => Ok(()),
        Err(_) => Err(AllocError),
    }
}

/// What a call did, by the words from its name on. What names no deed of the type is read as a move to the first position.
pub(crate) fn deed(alloc: Global, t: &TypeDef, words: &[&[u8]]) -> Result<Deed, AllocError>
    requires { IsType t.now }
    ensures form { IfOk result (FitsDeed t.now) }
    ensures place { IfOk result GoesToPosition }
    ensures told { IfOk result (λ d. (c : Deeds) → FitsDeed t.now c → GoesToPosition c →
        map (λ w. w.now) words.now ≡ deed_words t.now c → d ≡ c) }
{
    match t.find_method(word_at(words, 0)) {
        Some(number) => called(alloc, t, number, words_from(words, 1)),
        None => Ok(Deed::Move(position(word_at(words, 1), word_at(words, 2)))),
    }
}

// A call of a method of the type, by the words of its arguments.
fn called(alloc: Global, t: &TypeDef, number: u16, words: &[&[u8]]) -> Result<Deed, AllocError>
    requires { IsType t.now }
    ensures form { IfOk result (FitsDeed t.now) }
    ensures place { IfOk result GoesToPosition }
    ensures told { IfOk result (λ d. (ws : List Values) → number < length t.now.methods →
        AreArgsOf (method_of t.now number).args ws → map (λ w. w.now) words.now ≡ map text_of ws →
        d ≡ Deed.Method number ws) }
{
    match t.method(number) {
        Some(method) => {
            let args = arguments(alloc, method.args.as_slice(), words)?;
            Ok(Deed::Method(number, Args::of(args)))
        }
        None => Ok(Deed::Move(Pos { x: 0, z: 0 })),
    }
}
