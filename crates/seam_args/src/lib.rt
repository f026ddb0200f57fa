// SPDX-License-Identifier: MIT

//! The words of the server's command line.
//!
//! The command is a simple command of `clap`, so which words are refused and what the others mean is defined there.
#![tactic(auto)]

ghost use Rattle.std.specs.Prelude.{◌≡◌, ◌↔◌, [], false, true, map, IfOk, OnOk, Err};
ghost use Rattle.std.specs.Vec.Iter.{into_iter_items};
ghost use Rattle.std.specs.String.{string_bytes};
ghost use Rattle.clap.specs.Words.{FailsBy, fault_of, found_of, matches_of, rows_of, rule_of};
ghost use Rattle.seam_args.specs.Words.{command, number_rule, flag_rule, IsGiven, words_of, ArePassed, AreRefused, AreOptions, AreInRange};
ghost use Rattle.seam_args.specs.Reading.{HasNumbers};

mod refusals;

use clap::error::ErrorKind;
use clap::parser::ValueSource;
use clap::{Arg, ArgAction, ArgMatches, Command, value_parser};
pub use refusals::refusal_text;
use std::alloc::{AllocError, Global};
use std::env::Args;
use std::io;
use thiserror::Error;

/// The most workers that may run the cells and base nodes.
pub const MOST_WORKERS: u32 = 16;

/// The most turns of a worker in one phase of a round.
pub const MOST_TURNS: u32 = 1_000_000;

/// The most lines that a generated input may draw.
pub const LONGEST_STORM: u32 = 1_000_000;

/// The number of workers where the words give none.
const DEFAULT_WORKERS: &str = "4";

/// The number of turns where the words give none.
const DEFAULT_TURNS: &str = "1000000";

/// What the words of the command line ask for.
#[derive(Clone, Copy, Debug, PartialEq, Eq)]
pub struct Options {
    /// How many workers run the nodes, from 1 to `MOST_WORKERS`.
    pub workers: u32,
    /// How many turns each worker has in one phase of a round, from 1 to `MOST_TURNS`.
    pub turns: u32,
    /// Whether the journal of events is a part of each round's text.
    pub trace: bool,
    /// How many lines a generated input draws, from 1 to `LONGEST_STORM`. None: the input is read.
    pub storm: Option<u32>,
    /// Whether the usage text is asked for, in place of a run.
    pub help: bool,
    /// Whether the version is asked for, in place of a run. Help goes before it.
    pub version: bool,
}

/// Why the words give no options.
#[derive(Clone, Copy, Debug, PartialEq, Eq, Error)]
pub enum ArgsError {
    /// The command refuses the words.
    #[error("these are not the words of the command")]
    Usage,
    /// An allocation failed.
    #[error("out of memory")]
    NoMemory,
}

/// An option with a number from 1 to `most`.
fn number_option<'a>(alloc: Global, name: &'a str, most: u32) -> Arg<'a>
    ensures rule { rule_of result ≡ number_rule name.entry.now most [] }
    ensures local { result.global ≡ false }
{
    Arg::new(alloc, name)
        .long(name)
        .action(ArgAction::Set)
        .value_parser(value_parser!(u32).range(1..=i64::from(most)))
}

/// An option without a value.
fn flag<'a>(alloc: Global, name: &'a str) -> Arg<'a>
    ensures rule { rule_of result ≡ flag_rule name.entry.now }
    ensures local { result.global ≡ false }
{
    Arg::new(alloc, name).long(name).action(ArgAction::SetTrue)
}

/// What the words give to each option of the command.
fn matches_of_words<'a>(alloc: Global, words: &'a [String]) -> Result<ArgMatches<'a>, clap::Error>
    ensures fails { FailsBy (fault_of command (map string_bytes words.entry.now)) result }
    ensures found { IfOk result (λ m. rows_of (found_of m)
        ≡ matches_of command (map string_bytes words.entry.now)) }
    ensures numbers { IfOk result (λ m. HasNumbers (found_of m)) }
{
    let workers = number_option(alloc, "workers", MOST_WORKERS).default_value(DEFAULT_WORKERS);
    let turns = number_option(alloc, "turns", MOST_TURNS).default_value(DEFAULT_TURNS);
    let storm = number_option(alloc, "storm", LONGEST_STORM);
    let trace = flag(alloc, "trace");
    let help = flag(alloc, "help").short('h');
    let version = flag(alloc, "version");
    let command = Command::new(alloc, "seamless")
        .disable_help_flag(true)
        .arg(workers)?
        .arg(turns)?
        .arg(storm)?
        .arg(trace)?
        .arg(help)?
        .arg(version)?;
    command.try_get_matches_from(words)
}

/// Whether the words have a flag.
fn is_given(matches: &ArgMatches<'_>, name: &str) -> bool
    ensures { IsGiven name.now (rows_of (found_of matches.now)) ↔ (result ≡ true) }
{
    matches.value_source(name) == Some(ValueSource::CommandLine)
}

/// The options that the matches of the command hold.
fn options_of(matches: &ArgMatches<'_>) -> Options
    requires { HasNumbers (found_of matches.now) }
    ensures options { AreOptions (rows_of (found_of matches.now)) result }
    ensures range { AreInRange result }
{
    Options {
        workers: matches.get_one::<u32>("workers").unwrap(),
        turns: matches.get_one::<u32>("turns").unwrap(),
        trace: is_given(matches, "trace"),
        storm: matches.get_one::<u32>("storm"),
        help: is_given(matches, "help"),
        version: is_given(matches, "version"),
    }
}

/// The options that the words give, of which the first is the program's name.
fn options_given(alloc: Global, words: &[String]) -> Result<Options, ArgsError>
    ensures passes { OnOk result (fault_of command (map string_bytes words.now) ≡ []) }
    ensures options { IfOk result (AreOptions (matches_of command (map string_bytes words.now))) }
    ensures range { IfOk result AreInRange }
    ensures usage { result ≡ Err ArgsError.Usage → ¬ (fault_of command (map string_bytes words.now)
        ≡ []) }
{
    match matches_of_words(alloc, words) {
        Ok(matches) => Ok(options_of(&matches)),
        Err(error) => {
            if error.kind() == ErrorKind::OutOfMemory {
                Err(ArgsError::NoMemory)
            } else {
                Err(ArgsError::Usage)
            }
        }
    }
}

/// Why the system gives no words: there is no memory, or one of them is no text.
fn no_words(error: &io::Error) -> ArgsError
    ensures { result ≡ ArgsError.Usage → AreRefused (Err error.now) }
{
    if error.kind() == io::ErrorKind::OutOfMemory {
        ArgsError::NoMemory
    } else {
        ArgsError::Usage
    }
}

/// The words in a list.
fn gathered(alloc: Global, args: Args) -> Result<Vec<String>, AllocError>
    ensures { IfOk result (λ words. words.items ≡ into_iter_items args) }
{
    let mut words = Vec::new(alloc);
    for word in args {
        words.push(word)?;
    }
    Ok(words)
}

/// The options that the words give, of which the first is the program's name.
fn options_in(alloc: Global, args: Args) -> Result<Options, ArgsError>
    ensures passes { OnOk result (fault_of command (map string_bytes (into_iter_items args)) ≡ []) }
    ensures options { IfOk result (AreOptions (matches_of command
        (map string_bytes (into_iter_items args)))) }
    ensures range { IfOk result AreInRange }
    ensures usage { result ≡ Err ArgsError.Usage → ¬ (fault_of command
        (map string_bytes (into_iter_items args)) ≡ []) }
{
    match gathered(alloc, args) {
        Ok(words) => options_given(alloc, &words),
        Err(AllocError) => Err(ArgsError::NoMemory),
    }
}

/// The options that the words give which the system answers with. The first word is the program's name.
///
/// `Usage` comes exactly where a word is no text, or the command refuses the words for another cause than memory; `NoMemory` only if
/// an allocation fails, in the system too.
pub fn read_words(alloc: Global, answer: io::Result<Args>) -> Result<Options, ArgsError>
    ensures passes { OnOk result (ArePassed answer) }
    ensures options { IfOk result (AreOptions (matches_of command (words_of answer))) }
    ensures range { IfOk result AreInRange }
    ensures usage { result ≡ Err ArgsError.Usage → AreRefused answer }
{
    match answer {
        Ok(args) => options_in(alloc, args),
        Err(error) => Err(no_words(&error)),
    }
}

/// How the program is used: the text that `--help` asks for, and that a person wants to read after a wrong word. It ends with a line feed.
pub fn usage_text() -> &'static str
    ensures { result.now ≡ USAGE_TEXT.now }
{
    USAGE_TEXT
}

/// The program's name, its version and the kit that it is proved with: the line that `--version` asks for, with its line feed.
pub fn version_text() -> &'static str
    ensures { result.now ≡ VERSION_TEXT.now }
{
    VERSION_TEXT
}

/// How the program is used.
pub const USAGE_TEXT: &str = "\
usage: seamless [--workers N] [--turns N] [--trace] [--storm N]
       seamless --help
       seamless --version

Reads a script from standard input: a header that a line %% ends, and then one command a line. For each round
it writes to standard output which calls were executed, and where each entity is and what it holds.

  --workers N   how many workers run the cells and base nodes, 1 to 16 (4 if not given)
  --turns N     how many turns each worker has in a phase of a round, 1 to 1000000 (1000000 if not given)
  --trace       adds the journal of events to each round (no journal if not given)
  --storm N     runs a generated input of N lines in place of standard input, 1 to 1000000 (none if not given)
  -h, --help    writes this text to standard output, and does nothing else
  --version     writes the name, the version and the kit, and does nothing else

status: 0 done, 1 usage, 2 bad header, 3 read fault, 4 write fault, 5 limit, 6 no memory
formats: docs/FORMATS.md
";

/// The name, the version of `CHANGELOG.md` and the kit of `README.md`.
pub const VERSION_TEXT: &str = "seamless 0.2 (rattle-kit-13f logic dac8208d650f15bf)\n";
