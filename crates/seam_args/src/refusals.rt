// What is wrong with words that are refused, for a person.
use crate::{ArgsError, gathered, matches_of_words, no_words};
use clap::error::ErrorKind;
use std::alloc::{AllocError, Global};
use std::env::Args;
use std::io;

/// What is wrong with the words that the system answers with, for a person: `clap`'s own text up to the usage, and what to do instead of
/// naming a file. It is empty for words that the command does not refuse, and ends with a line feed otherwise.
pub fn refusal_text(alloc: Global, answer: io::Result<Args>) -> Result<String, AllocError> {
    match answer {
        Ok(args) => {
            let words = gathered(alloc, args)?;
            text_for(alloc, &words)
        }
        Err(error) => match no_words(&error) {
            ArgsError::Usage => {
                String::from_str(alloc, "error: a word of the command line is not UTF-8\n\n")
            }
            ArgsError::NoMemory => Err(AllocError),
        },
    }
}

fn text_for(alloc: Global, words: &[String]) -> Result<String, AllocError> {
    match matches_of_words(alloc, words) {
        Ok(_) => Ok(String::new(alloc)),
        Err(error) => {
            let all = format!(in alloc; "{error}")?;
            let mut text = String::from_str(alloc, before_usage(&all))?;
            text.push_str("\n")?;
            if error.kind() == ErrorKind::UnknownArgument {
                push_file(alloc, words, &mut text)?;
            }
            text.push_str("\n")?;
            Ok(text)
        }
    }
}

// The text without the usage that it ends with.
fn before_usage(text: &str) -> &str {
    match text.split_once("\n\nUsage") {
        Some((before, _)) => before,
        None => text.trim_end(),
    }
}

// Says how input is read, where the word that is not expected may be the name of a file.
fn push_file(alloc: Global, words: &[String], text: &mut String) -> Result<(), AllocError> {
    'words: for word in words.iter().skip(1) {
        let named = format!(in alloc; "error: unexpected argument '{}' found", word.as_str())?;
        if !word.starts_with('-') && text.starts_with(named.as_str()) {
            return push_advice(word.as_str(), text);
        }
    }
    Ok(())
}

// An empty word is told by its quotes: it names no file.
fn push_advice(word: &str, text: &mut String) -> Result<(), AllocError> {
    let name = if word.is_empty() { "''" } else { word };
    let file = if word.is_empty() { "FILE" } else { word };
    write!(
        text,
        "{name}: input comes on standard input: seamless < {file}\n"
    )
}
