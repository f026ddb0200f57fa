// What was printed of a script, followed line by line.
use crate::round::{is_plain, legal_round};
use crate::wrong::Wrong;
use seam_judge_reader::{BadScript, Read, ScriptReader, first_piece};
use seam_report::push_refusal;
use seam_rule_lines::Cause;
use std::alloc::{AllocError, Global};

/// What comes of what was printed of a script, in words.
pub(crate) fn verdict_on(
    alloc: Global,
    script: &str,
    printed: &[u8],
) -> Result<String, AllocError> {
    let mut follower = Follower {
        alloc,
        reader: ScriptReader::new(alloc),
        rest: printed,
        lines: 0,
        rounds: 0,
        plain: 0,
    };
    follower.verdict(script)
}

// The script so far, and what was printed that is still to be judged.
#[derive(Drop)]
struct Follower<'a> {
    alloc: Global,
    reader: ScriptReader,
    rest: &'a [u8],
    lines: u64,
    rounds: u64,
    // how many of these have the text of the plain round
    plain: u64,
}

impl<'a> Follower<'a> {
    fn verdict(&mut self, script: &str) -> Result<String, AllocError> {
        match self.follow_all(script) {
            Ok(()) => {
                let (plain, rounds) = (self.plain, self.rounds);
                format!(in self.alloc; "legal, {plain} of {rounds} rounds as the plain one")
            }
            Err(wrong) => wrong.told(self.alloc),
        }
    }

    fn follow_all(&mut self, script: &str) -> Result<(), Wrong> {
        for line in script.split('\n') {
            self.follow(line.as_bytes())?;
        }
        self.end()
    }

    // The next piece of what was printed.
    fn next(&mut self) -> &'a [u8] {
        let (piece, rest) = first_piece(self.rest);
        self.rest = rest;
        piece
    }

    // The next line of the script, and what was printed for it.
    fn follow(&mut self, line: &[u8]) -> Result<(), Wrong> {
        self.lines = self.lines.saturating_add(1);
        match self.reader.read_line(line) {
            Ok(Read::Header | Read::Kept | Read::Skipped) => Ok(()),
            Ok(Read::Refused(cause)) => self.refuse(cause),
            Ok(Read::RoundEnds) => self.end_round(),
            Err(BadScript::NoMemory) => Err(Wrong::NoMemory),
            Err(BadScript::Header(_)) => Err(Wrong::Header),
        }
    }

    // The last line was refused.
    fn refuse(&mut self, cause: Cause) -> Result<(), Wrong> {
        let mut refusal = Vec::new(self.alloc);
        push_refusal(&mut refusal, self.lines, cause)?;
        if self.next() == refusal.as_slice() {
            Ok(())
        } else {
            Err(Wrong::Refusal(self.lines))
        }
    }

    // The open round has ended.
    fn end_round(&mut self) -> Result<(), Wrong> {
        let text = self.next();
        let (Some(header), Some(standing)) = (self.reader.header(), self.reader.standing()) else {
            return Err(Wrong::Header);
        };
        let same = is_plain(self.alloc, header, standing, text)?;
        let round = legal_round(self.alloc, header, standing, text)?;
        self.reader.end_round(&round)?;
        self.rounds = self.rounds.saturating_add(1);
        self.plain = self.plain.saturating_add(u64::from(same));
        Ok(())
    }

    // The script has ended.
    fn end(&mut self) -> Result<(), Wrong> {
        if self.reader.has_open_round() {
            self.end_round()?;
        }
        if self.rest.is_empty() {
            Ok(())
        } else {
            Err(Wrong::More)
        }
    }
}
