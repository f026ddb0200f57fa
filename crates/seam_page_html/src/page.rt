// The page of a run.
use crate::lines::push_escaped;
use crate::page_data::PageData;
use crate::script::{HEAD, SCRIPT};
use seam_replay::{Fault, Played, Replay};
use std::alloc::{AllocError, Global};

/// The page of an input, which is a script and what was printed for it, with all rounds that were printed: one file of HTML.
pub fn page_of(alloc: Global, input: &[u8]) -> Result<Vec<u8>, Fault> {
    let mut replay = Replay::of(alloc, input)?;
    let mut rounds = PageData::new(alloc);
    page_with(alloc, &mut rounds, &mut replay)
}

fn page_with(
    alloc: Global,
    rounds: &mut PageData,
    replay: &mut Replay<'_>,
) -> Result<Vec<u8>, Fault> {
    add_rounds(rounds, replay)?;
    if rounds.text().is_empty() {
        return Err(Fault::NotInScript(1));
    }
    let mut page = Vec::new(alloc);
    match push_page(&mut page, rounds.text()) {
        Ok(()) => Ok(page),
        Err(_) => Err(Fault::NoMemory),
    }
}

fn add_rounds(rounds: &mut PageData, replay: &mut Replay<'_>) -> Result<(), Fault> {
    for _ in 0..usize::MAX {
        let next = replay.next_printed()?;
        if !add_round(rounds, replay, next)? {
            return Ok(());
        }
    }
    Ok(())
}

// Adds the round that was told, if there is one.
fn add_round(
    rounds: &mut PageData,
    replay: &Replay<'_>,
    next: Option<Played>,
) -> Result<bool, AllocError> {
    let Some(played) = next else {
        return Ok(false);
    };
    match replay.header() {
        Some(header) => {
            rounds.add(header, played)?;
            Ok(true)
        }
        None => Ok(false),
    }
}

fn push_page(out: &mut Vec<u8>, rounds: &[u8]) -> Result<(), AllocError> {
    out.extend_from_slice(HEAD.as_bytes())?;
    push_escaped(out, rounds)?;
    out.extend_from_slice(SCRIPT.as_bytes())
}
