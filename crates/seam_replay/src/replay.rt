// A script that is followed line by line, with what was printed for it.
use crate::Fault;
use indexmap::IndexMap;
use seam_io::LONGEST_LINE;
use seam_judge_data::{HomeLine, Round};
use seam_judge_expected::tree_in;
use seam_judge_reader::{
    Parts, Read, ScriptReader, first_piece, parts_of, read_round, split_steps,
};
use seam_rule_lines::Header;
use seam_tree::Tree;
use std::alloc::{AllocError, Global};

/// A round that was played: its cells, what was printed of it, and where in that each home is.
#[derive(Drop)]
pub struct Played {
    pub tree: Tree,
    pub round: Round,
    homes: IndexMap<u32, usize>,
}

impl Played {
    fn of(alloc: Global, tree: Tree, round: Round) -> Result<Played, AllocError> {
        let homes = places_of(alloc, &round.homes)?;
        Ok(Played { tree, round, homes })
    }

    /// The home of an entity, if it lives.
    pub fn home_of(&self, entity: u32) -> Option<&HomeLine> {
        let place = self.homes.get(&entity)?;
        self.round.homes.get(*place)
    }
}

fn places_of(alloc: Global, homes: &[HomeLine]) -> Result<IndexMap<u32, usize>, AllocError> {
    let mut places = IndexMap::new(alloc);
    for (place, home) in homes.iter().enumerate() {
        keep_place(&mut places, home.entity, place)?;
    }
    Ok(places)
}

fn keep_place(
    places: &mut IndexMap<u32, usize>,
    entity: u32,
    place: usize,
) -> Result<(), AllocError> {
    match places.insert(entity, place) {
        Ok(_) => Ok(()),
        Err(_) => Err(AllocError),
    }
}

/// A run that is told again. After a fault it has no use.
#[derive(Drop)]
pub struct Replay<'a> {
    alloc: Global,
    reader: ScriptReader,
    lines: Vec<&'a [u8]>,
    // how many lines were read
    read: usize,
    // what was printed that was not told yet
    printed: &'a [u8],
    // how many rounds were told
    rounds: usize,
}

impl<'a> Replay<'a> {
    /// The run of an input, which is a script and what was printed for it (`parts_of`). No round was told yet.
    pub fn of(alloc: Global, input: &'a [u8]) -> Result<Replay<'a>, AllocError> {
        let Parts { script, printed } = parts_of(input);
        Ok(Replay {
            alloc,
            reader: ScriptReader::new(alloc),
            lines: lines_of(alloc, script)?,
            read: 0,
            printed,
            rounds: 0,
        })
    }

    /// The header of the script. It is there once a round was told.
    pub fn header(&self) -> Option<&Header> {
        self.reader.header()
    }

    /// The next round, as it was printed. `None`: the script has ended.
    pub fn next_round(&mut self) -> Result<Option<Played>, Fault> {
        for _ in self.read..self.lines.len() {
            if self.read_line()? {
                return self.ended_round();
            }
        }
        if self.reader.header().is_none() {
            return Err(Fault::NoHeader);
        }
        if self.reader.has_open_round() {
            return self.ended_round();
        }
        Ok(None)
    }

    /// The next round that was printed. `None`: the script has ended, or no further round was printed where there is one before.
    pub fn next_printed(&mut self) -> Result<Option<Played>, Fault> {
        match self.next_round() {
            Err(Fault::NotPrinted(_)) if 0 < self.rounds => Ok(None),
            next => next,
        }
    }

    // Reads the next line: whether a round ends with it.
    fn read_line(&mut self) -> Result<bool, Fault> {
        let Some(line) = self.lines.get(self.read) else {
            return Ok(false);
        };
        self.read = self.read.saturating_add(1);
        Ok(self.reader.read_line(content_of(line))? == Read::RoundEnds)
    }

    // The round that has ended.
    fn ended_round(&mut self) -> Result<Option<Played>, Fault> {
        let number = self.rounds.saturating_add(1);
        let Some(text) = self.next_text() else {
            return Err(Fault::NotPrinted(number));
        };
        let Some(played) = self.played(text)? else {
            return Err(Fault::NotARound(number));
        };
        if !self.reader.pass_round(&played.round)? {
            return Err(Fault::NotARound(number));
        }
        self.rounds = number;
        Ok(Some(played))
    }

    // The text of the next round that was printed.
    fn next_text(&mut self) -> Option<&'a [u8]> {
        for _ in 0..self.printed.len() {
            let (piece, rest) = first_piece(self.printed);
            self.printed = rest;
            if piece.starts_with(b"round ") {
                return Some(piece);
            }
        }
        None
    }

    // The open round, if this is its text, with or without steps.
    fn played(&self, text: &[u8]) -> Result<Option<Played>, AllocError> {
        let (first, steps, rest) = split_steps(text);
        if steps.is_empty() {
            return self.played_as(text);
        }
        let mut plain = Vec::with_capacity(self.alloc, text.len())?;
        plain.extend_from_slice(first)?;
        plain.extend_from_slice(rest)?;
        self.played_as(&plain)
    }

    fn played_as(&self, text: &[u8]) -> Result<Option<Played>, AllocError> {
        let (Some(header), Some(standing)) = (self.reader.header(), self.reader.standing()) else {
            return Ok(None);
        };
        match read_round(self.alloc, header, standing, text)? {
            Some(round) => Ok(Some(Played::of(self.alloc, tree_in(standing), round)?)),
            None => Ok(None),
        }
    }
}

// The lines of a script, without their line feeds.
fn lines_of(alloc: Global, script: &[u8]) -> Result<Vec<&[u8]>, AllocError> {
    let mut lines = Vec::new(alloc);
    for line in script.split(|byte| *byte == b'\n') {
        lines.push(line)?;
    }
    Ok(lines)
}

// What a line has without the carriage return at its end, which counts where the line is too long.
fn content_of(line: &[u8]) -> &[u8] {
    match line {
        [content @ .., b'\r'] if line.len() <= LONGEST_LINE => content,
        _ => line,
    }
}
