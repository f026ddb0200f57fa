// The words of a line, each as its text.
ghost use Rattle.std.specs.Prelude.{◌≡◌, ◌<◌, ◌^◌, ℕ, List, IfOk, IfErr, IsOkAnd, map, length};
ghost use Rattle.seam_words.specs.declared.words.WordsError.{WordsError as Errors};
ghost use Rattle.seam_words.specs.Faults.{Refuses};
ghost use Rattle.seam_words.specs.SplitWords.{HasWords};

use crate::splitting::{after_gap, after_word, after_word_gap, is_utf8};
use crate::{MOST_WORDS, WordsError};

/// The words of a line, with a table that has room for them. A word in quotes runs to its closing quote, with the escapes `\"`, `\\` and
/// `\n`, and ends before a space, a tab or the line's end; both quotes are in its text. Any other word is a run of bytes other than
/// space, tab and quote. Where the line has no words, the answer is `NotUtf8` if it is not UTF-8, and else the first fault from the left.
pub fn words_of_line<'a, 'b>(
    line: &'a [u8],
    table: &'b mut [&'a [u8]; MOST_WORDS],
) -> Result<&'b [&'a [u8]], WordsError>
    requires { length line.now < 2 ^ 32 }
    ensures words { IfOk result (λ words. HasWords line.now (map (λ w. w.now) words.now)) }
    ensures cause { IfErr result (Refuses line.now) }

    // And the other way round: each line has one answer.
    ensures found { (texts : List (List ℕ)) → HasWords line.now texts →
        IsOkAnd result (λ words. map (λ w. w.now) words.now ≡ texts) }
    ensures refused { (error : Errors) → Refuses line.now error → result ≡ Err error }
{
    if !is_utf8(line) {
        return Err(WordsError::NotUtf8);
    }
    let mut count = 0;
    let mut rest = after_gap(line);
    while !rest.is_empty() {
        if count == MOST_WORDS {
            return Err(WordsError::TooManyWords);
        }
        let after = after_word(rest)?;
        table[count] = &rest[..rest.len() - after.len()];
        count += 1;
        rest = after_word_gap(after);
    }
    Ok(&table[..count])
}
