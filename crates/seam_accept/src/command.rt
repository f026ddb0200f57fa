// The command that a line spells.
ghost use Rattle.std.specs.Prelude.{◌≡◌, ◌≢◌, ◌≤◌, ◌↔◌, ◌∷◌, [], IsTrue, IfErr, IfOk, length, codes, Contains, MatchOption};
ghost use Rattle.seam_io.specs.Lines.{Content};
ghost use Rattle.seam_rule_lines.specs.Language.{IsSkipped, words_of, command_names, NamesCommand};
ghost use Rattle.seam_rule_lines.specs.Language.{SpellsCommand, Command as Commands};
ghost use Rattle.seam_rule_lines.specs.Book.{Book};
ghost use Rattle.seam_rule_lines.specs.Judging.{Judges};
ghost use Rattle.seam_toml.specs.declared.header.Header.{Header};
ghost use Rattle.seam_rule_lines.specs.declared.verdict.Verdict.TheVariants.{Refused};
ghost use Rattle.seam_accept.specs.Commands.{texts_of, command_of, IsFaultOfWords};

use seam_io::LONGEST_LINE;
use seam_rule_lines::Cause;
use seam_words::{MOST_WORDS, words_of_line};
use std::marker::Model;

/// The words of a `create`: make an entity of a type at a position.
#[derive(Clone, Copy)]
pub struct CreateWords<'a> {
    pub entity: &'a [u8],
    pub type_name: &'a [u8],
    pub place: PositionWords<'a>,
}

/// The words of a method with arguments.
#[derive(Clone, Copy)]
pub struct MethodWords<'a, 'b> {
    pub name: &'a [u8],
    pub arguments: &'b [&'a [u8]],
}

/// The words of a position.
#[derive(Clone, Copy)]
pub struct PositionWords<'a> {
    pub x: &'a [u8],
    pub z: &'a [u8],
}

/// What a sender asks of an entity: a method, or a move.
#[derive(Clone, Copy)]
pub enum DeedWords<'a, 'b> {
    Method(MethodWords<'a, 'b>),
    Move(PositionWords<'a>),
}

/// The words of a `call` or a `move`: a sender, an entity, and what is asked of it.
#[derive(Clone, Copy)]
pub struct CallWords<'a, 'b> {
    pub sender_name: &'a [u8],
    pub entity: &'a [u8],
    pub deed: DeedWords<'a, 'b>,
}

/// The words of a `cut`: a cell, an axis and a place on it.
#[derive(Clone, Copy)]
pub struct CutWords<'a> {
    pub cell: &'a [u8],
    pub axis_name: &'a [u8],
    pub at: &'a [u8],
}

/// The words of a `shift`: a boundary and its new place.
#[derive(Clone, Copy)]
pub struct ShiftWords<'a> {
    pub boundary: &'a [u8],
    pub at: &'a [u8],
}

/// What kind of command it is, and its words.
#[derive(Clone, Copy)]
pub enum Form<'a, 'b> {
    Create(CreateWords<'a>),
    Call(CallWords<'a, 'b>),
    /// It ends the round.
    Sync,
    /// It gives an entity a client.
    Client(&'a [u8]),
    /// All witnesses look.
    Tick,
    Cut(CutWords<'a>),
    Shift(ShiftWords<'a>),
    /// The boundaries are balanced when the round ends.
    Balance,
    /// It destroys an entity.
    Destroy(&'a [u8]),
}

/// A command, by its words. What they name is looked up when it is judged. Contracts see the command of the language.
#[derive(Drop)]
pub struct Command<'a, 'b> {
    form: Form<'a, 'b>,
}

impl<'a, 'b> Model for Command<'a, 'b> {
    ghost use Rattle.seam_rule_lines.specs.Language.{Command};
    ghost use Rattle.seam_accept.specs.Commands.{command_of};

    ghost Value = { Command };

    ghost view = { λ c. command_of c.form };
}

impl<'a, 'b> Command<'a, 'b> {
    fn of(form: Form<'a, 'b>) -> Self
        ensures { result ≡ command_of form.entry }
    {
        Command { form }
    }

    /// Its kind and its words.
    pub fn form(&self) -> &Form<'a, 'b>
        ensures { command_of result.now ≡ self.now }
    {
        &self.form
    }
}

/// Reads a line, with a table for its words: None where it has none, and else its command, or why each book refuses it.
pub fn read_line<'a, 'b>(
    line: &'a [u8],
    table: &'b mut [&'a [u8]; MOST_WORDS],
) -> Result<Option<Command<'a, 'b>>, Cause>
    requires { length line.now ≤ LONGEST_LINE }
    ensures command { IfOk result (λ read. MatchOption read (IsSkipped line.now)
        (λ c. ¬ (IsSkipped line.now) × SpellsCommand line.now c)) }
    ensures cause { IfErr result (λ cause. (h : Header) (b : Book) →
        Judges h b (Content line.now) (Refused cause)) }
{
    if is_skipped(line) {
        return Ok(None);
    }
    match words_of_line(line, table) {
        Ok(words) => Ok(Some(command_of_words(words)?)),
        Err(error) => Err(Cause::BadWords(error)),
    }
}

// The command that words spell.
fn command_of_words<'a, 'b>(words: &'b [&'a [u8]]) -> Result<Command<'a, 'b>, Cause>
    ensures command { IfOk result (λ c. texts_of words.now ≡ words_of c) }
    ensures cause { IfErr result (IsFaultOfWords (texts_of words.now)) }
{
    match read_words(words) {
        Some(command) => Ok(command),
        None if begin_with_name(words) => Err(Cause::WrongCount),
        None => Err(Cause::NoCommand),
    }
}

// Whether the first of the words is that of a command.
fn begin_with_name(words: &[&[u8]]) -> bool
    ensures { IsTrue result ↔ NamesCommand (texts_of words.now) }
{
    match words {
        [first, ..] => is_command_name(first),
        [] => false,
    }
}

fn is_command_name(word: &[u8]) -> bool
    ensures { IsTrue result ↔ Contains command_names word.now }
{
    is_create_call_move_or_sync(word) || is_other_name(word)
}

fn is_create_call_move_or_sync(word: &[u8]) -> bool
    ensures { IsTrue result ↔ Contains (codes "create" ∷ codes "call" ∷ codes "move" ∷
        codes "sync" ∷ []) word.now }
{
    word == b"create".as_slice()
        || word == b"call".as_slice()
        || word == b"move".as_slice()
        || word == b"sync".as_slice()
}

fn is_other_name(word: &[u8]) -> bool
    ensures { IsTrue result ↔ Contains (codes "client" ∷ codes "tick" ∷ codes "cut" ∷
        codes "shift" ∷ codes "balance" ∷ codes "destroy" ∷ []) word.now }
{
    is_client_tick_or_cut(word) || is_shift_balance_or_destroy(word)
}

fn is_client_tick_or_cut(word: &[u8]) -> bool
    ensures { IsTrue result ↔ Contains (codes "client" ∷ codes "tick" ∷ codes "cut" ∷ []) word.now }
{
    word == b"client".as_slice() || word == b"tick".as_slice() || word == b"cut".as_slice()
}

fn is_shift_balance_or_destroy(word: &[u8]) -> bool
    ensures { IsTrue result ↔ Contains (codes "shift" ∷ codes "balance" ∷ codes "destroy" ∷ [])
        word.now }
{
    word == b"shift".as_slice() || word == b"balance".as_slice() || word == b"destroy".as_slice()
}

// Whether the line has no other bytes than spaces and tabs, or begins with `#` after them.
fn is_skipped(line: &[u8]) -> bool
    ensures { IsTrue result ↔ IsSkipped line.now }
{
    for byte in line {
        if *byte != b' ' && *byte != b'\t' {
            return *byte == b'#';
        }
    }
    true
}

// The command that words spell.
fn read_words<'a, 'b>(words: &'b [&'a [u8]]) -> Option<Command<'a, 'b>>
    ensures { MatchOption result ((c : Commands) → texts_of words.now ≢ words_of c)
        (λ c. texts_of words.now ≡ words_of c) }
{
    match words {
        [first, rest @ ..] => read_command(first, rest),
        [] => None,
    }
}

// The command that a first word and those after it spell.
fn read_command<'a, 'b>(first: &[u8], rest: &'b [&'a [u8]]) -> Option<Command<'a, 'b>>
    ensures { MatchOption result
        ((c : Commands) → first.now ∷ texts_of rest.now ≢ words_of c)
        (λ c. first.now ∷ texts_of rest.now ≡ words_of c) }
{
    if is_call(first) {
        read_call(rest)
    } else if is_move(first) {
        read_move(rest)
    } else if first == b"create".as_slice() {
        read_create(rest)
    } else if first == b"sync".as_slice() {
        read_sync(rest)
    } else if first == b"client".as_slice() {
        read_client(rest)
    } else if first == b"tick".as_slice() {
        read_tick(rest)
    } else if first == b"cut".as_slice() {
        read_cut(rest)
    } else if first == b"shift".as_slice() {
        read_shift(rest)
    } else if first == b"balance".as_slice() {
        read_balance(rest)
    } else if first == b"destroy".as_slice() {
        read_destroy(rest)
    } else {
        None
    }
}

// Most lines are calls or moves, so these names are compared in place, without a call to compare slices.
fn is_call(word: &[u8]) -> bool
    ensures { IsTrue result ↔ word.now ≡ codes "call" }
{
    matches!(word, b"call")
}

fn is_move(word: &[u8]) -> bool
    ensures { IsTrue result ↔ word.now ≡ codes "move" }
{
    matches!(word, b"move")
}

// The words after `sync`.
fn read_sync<'a, 'b>(words: &'b [&'a [u8]]) -> Option<Command<'a, 'b>>
    ensures { MatchOption result
        ((c : Commands) → codes "sync" ∷ texts_of words.now ≢ words_of c)
        (λ c. codes "sync" ∷ texts_of words.now ≡ words_of c) }
{
    match words {
        [] => Some(Command::of(Form::Sync)),
        _ => None,
    }
}

// The words after `create`.
fn read_create<'a, 'b>(words: &'b [&'a [u8]]) -> Option<Command<'a, 'b>>
    ensures { MatchOption result
        ((c : Commands) → codes "create" ∷ texts_of words.now ≢ words_of c)
        (λ c. codes "create" ∷ texts_of words.now ≡ words_of c) }
{
    match words {
        [entity, type_name, x, z] => Some(Command::of(Form::Create(CreateWords {
            entity,
            type_name,
            place: PositionWords { x, z },
        }))),
        _ => None,
    }
}

// The words after `call`.
fn read_call<'a, 'b>(words: &'b [&'a [u8]]) -> Option<Command<'a, 'b>>
    ensures { MatchOption result
        ((c : Commands) → codes "call" ∷ texts_of words.now ≢ words_of c)
        (λ c. codes "call" ∷ texts_of words.now ≡ words_of c) }
{
    match words {
        [sender_name, entity, name, arguments @ ..] => {
            Some(Command::of(Form::Call(CallWords {
                sender_name,
                entity,
                deed: DeedWords::Method(MethodWords { name, arguments }),
            })))
        }
        _ => None,
    }
}

// The words after `move`.
fn read_move<'a, 'b>(words: &'b [&'a [u8]]) -> Option<Command<'a, 'b>>
    ensures { MatchOption result
        ((c : Commands) → codes "move" ∷ texts_of words.now ≢ words_of c)
        (λ c. codes "move" ∷ texts_of words.now ≡ words_of c) }
{
    match words {
        [sender_name, entity, x, z] => Some(Command::of(Form::Call(CallWords {
            sender_name,
            entity,
            deed: DeedWords::Move(PositionWords { x, z }),
        }))),
        _ => None,
    }
}

// The words after `client`.
fn read_client<'a, 'b>(words: &'b [&'a [u8]]) -> Option<Command<'a, 'b>>
    ensures { MatchOption result
        ((c : Commands) → codes "client" ∷ texts_of words.now ≢ words_of c)
        (λ c. codes "client" ∷ texts_of words.now ≡ words_of c) }
{
    match words {
        [entity] => Some(Command::of(Form::Client(entity))),
        _ => None,
    }
}

// The words after `tick`.
fn read_tick<'a, 'b>(words: &'b [&'a [u8]]) -> Option<Command<'a, 'b>>
    ensures { MatchOption result
        ((c : Commands) → codes "tick" ∷ texts_of words.now ≢ words_of c)
        (λ c. codes "tick" ∷ texts_of words.now ≡ words_of c) }
{
    match words {
        [] => Some(Command::of(Form::Tick)),
        _ => None,
    }
}

// The words after `cut`.
fn read_cut<'a, 'b>(words: &'b [&'a [u8]]) -> Option<Command<'a, 'b>>
    ensures { MatchOption result
        ((c : Commands) → codes "cut" ∷ texts_of words.now ≢ words_of c)
        (λ c. codes "cut" ∷ texts_of words.now ≡ words_of c) }
{
    match words {
        [cell, axis_name, at] => Some(Command::of(Form::Cut(CutWords {
            cell,
            axis_name,
            at,
        }))),
        _ => None,
    }
}

// The words after `shift`.
fn read_shift<'a, 'b>(words: &'b [&'a [u8]]) -> Option<Command<'a, 'b>>
    ensures { MatchOption result
        ((c : Commands) → codes "shift" ∷ texts_of words.now ≢ words_of c)
        (λ c. codes "shift" ∷ texts_of words.now ≡ words_of c) }
{
    match words {
        [boundary, at] => Some(Command::of(Form::Shift(ShiftWords { boundary, at }))),
        _ => None,
    }
}

// The words after `balance`.
fn read_balance<'a, 'b>(words: &'b [&'a [u8]]) -> Option<Command<'a, 'b>>
    ensures { MatchOption result
        ((c : Commands) → codes "balance" ∷ texts_of words.now ≢ words_of c)
        (λ c. codes "balance" ∷ texts_of words.now ≡ words_of c) }
{
    match words {
        [] => Some(Command::of(Form::Balance)),
        _ => None,
    }
}

// The words after `destroy`.
fn read_destroy<'a, 'b>(words: &'b [&'a [u8]]) -> Option<Command<'a, 'b>>
    ensures { MatchOption result
        ((c : Commands) → codes "destroy" ∷ texts_of words.now ≢ words_of c)
        (λ c. codes "destroy" ∷ texts_of words.now ≡ words_of c) }
{
    match words {
        [entity] => Some(Command::of(Form::Destroy(entity))),
        _ => None,
    }
}
