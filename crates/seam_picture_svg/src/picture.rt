// The picture of a round of a run.
use crate::clients::Clients;
use crate::dots::Dots;
use crate::map::Map;
use crate::scene::{Canvas, Scene, push_end, push_head};
use crate::shared::Points;
use seam_replay::{Fault, Played, Replay};
use std::alloc::{AllocError, Global};

/// The picture of a round of an input, which is a script and what was printed for it: the text of an SVG, of the round of this number, or
/// of the last that was printed.
pub fn picture_of(alloc: Global, input: &[u8], wanted: Option<usize>) -> Result<Vec<u8>, Fault> {
    let mut replay = Replay::of(alloc, input)?;
    let mut told = Told {
        clients: Clients::new(alloc),
        last: None,
    };
    told.picture(alloc, &mut replay, wanted)
}

// The round that was told last, and what clients have in view after it.
#[derive(Drop)]
struct Told {
    clients: Clients,
    last: Option<Played>,
}

impl Told {
    fn picture(
        &mut self,
        alloc: Global,
        replay: &mut Replay<'_>,
        wanted: Option<usize>,
    ) -> Result<Vec<u8>, Fault> {
        self.hear(replay, wanted)?;
        match (replay.header(), &self.last) {
            (Some(header), Some(played)) => {
                let radius = header.settings.view_radius;
                Ok(drawn(alloc, played, &self.clients, radius)?)
            }
            _ => Err(Fault::NotInScript(1)),
        }
    }

    // Hears the rounds up to the one that is wanted, which the script has to have, or all that were printed.
    fn hear(&mut self, replay: &mut Replay<'_>, wanted: Option<usize>) -> Result<(), Fault> {
        for _ in 0..wanted.unwrap_or(usize::MAX) {
            let next = next_of(replay, wanted)?;
            if !self.hear_round(next)? {
                return end_of(wanted);
            }
        }
        Ok(())
    }

    // Hears the next round: whether there is one.
    fn hear_round(&mut self, next: Option<Played>) -> Result<bool, AllocError> {
        let Some(played) = next else {
            return Ok(false);
        };
        let shown = self.clients.show(&played.round.shown);
        self.last = Some(played);
        match shown {
            Ok(()) => Ok(true),
            Err(error) => Err(error),
        }
    }
}

fn next_of(replay: &mut Replay<'_>, wanted: Option<usize>) -> Result<Option<Played>, Fault> {
    match wanted {
        Some(_) => replay.next_round(),
        None => replay.next_printed(),
    }
}

// What it means that there is no further round.
fn end_of(wanted: Option<usize>) -> Result<(), Fault> {
    match wanted {
        Some(number) => Err(Fault::NotInScript(number)),
        None => Ok(()),
    }
}

fn drawn(
    alloc: Global,
    played: &Played,
    clients: &Clients,
    view_radius: u32,
) -> Result<Vec<u8>, AllocError> {
    let points = Points::of(alloc, Map::of(&played.tree), &played.round.homes)?;
    let scene = Scene {
        played,
        clients,
        points: &points,
        view_radius,
        dots: Dots::of(played.round.homes.len()),
    };
    let mut canvas = Canvas {
        shapes: Vec::new(alloc),
        words: Vec::new(alloc),
    };
    match push_picture(&mut canvas, &scene) {
        Ok(()) => Ok(canvas.into_shapes()),
        Err(error) => Err(error),
    }
}

// Appends the whole picture to the shapes, with the words over them.
fn push_picture(canvas: &mut Canvas, scene: &Scene<'_>) -> Result<(), AllocError> {
    let played = scene.played;
    let number = played.round.number;
    push_head(&mut canvas.shapes, number)?;
    scene.draw(canvas)?;
    canvas.shapes.extend_from_slice(&canvas.words)?;
    push_end(&mut canvas.shapes, number, played.tree.size())
}
