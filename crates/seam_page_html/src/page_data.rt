// The data of a page.
use crate::change::Change;
use crate::lines::push_line;
use crate::told::Told;
use seam_replay::Played;
use seam_rule_lines::Header;
use std::alloc::{AllocError, Global};

/// The data of the rounds so far, and the last of these.
#[derive(Drop)]
pub(crate) struct PageData {
    alloc: Global,
    text: Vec<u8>,
    last: Option<Told>,
}

impl PageData {
    /// There is no round.
    pub(crate) fn new(alloc: Global) -> PageData {
        PageData {
            alloc,
            text: Vec::new(alloc),
            last: None,
        }
    }

    /// The text of the data.
    pub(crate) fn text(&self) -> &[u8] {
        &self.text
    }

    /// Adds a round.
    pub(crate) fn add(&mut self, header: &Header, played: Played) -> Result<(), AllocError> {
        let now = Told::of(self.alloc, played)?;
        let pushed = self.push(header, &now);
        self.last = Some(now);
        pushed
    }

    fn push(&mut self, header: &Header, now: &Told) -> Result<(), AllocError> {
        push_round(&mut self.text, header, self.last.as_ref(), now)
    }
}

fn push_round<'a>(
    out: &mut Vec<u8>,
    header: &'a Header,
    before: Option<&'a Told>,
    now: &'a Told,
) -> Result<(), AllocError> {
    if before.is_none() {
        push_space(out, header)?;
    }
    push_line(out, b"round", &[now.played.round.number])?;
    let change = Change {
        defs: &header.defs,
        before,
        now,
    };
    change.push(out)
}

fn push_space(out: &mut Vec<u8>, header: &Header) -> Result<(), AllocError> {
    let settings = &header.settings;
    let numbers = [u64::from(settings.size), u64::from(settings.view_radius)];
    push_line(out, b"space", &numbers)
}
