// What is told of a round: what does not follow from the round before it.
use crate::lines::{push_line, push_words};
use crate::told::{Facts, Told};
use seam_call::{Call, Sender};
use seam_defs::{Deed, Defs};
use seam_geo::{Pos, Rect};
use seam_judge_data::{BaseLine, DoneLine, HomeLine, Same};
use seam_report::{
    BaseLine as BaseText, DoneLine as DoneText, HomeLine as HomeText, push_base, push_done,
    push_home, push_line as push_shown,
};
use seam_tree::{CellSet, Tree};
use seam_value::push_number;
use std::alloc::AllocError;

/// A round, and the one before it, if there is one.
#[derive(Clone, Copy)]
pub(crate) struct Change<'a> {
    pub(crate) defs: &'a Defs,
    pub(crate) before: Option<&'a Told>,
    pub(crate) now: &'a Told,
}

// The lines of one kind.
#[derive(Clone, Copy)]
enum Section {
    Areas,
    Did,
    Dob,
    Homes,
    Gone,
    Bases,
    Ghosts,
    GhostsGone,
    Shown,
}

// In their order.
const SECTIONS: [Section; 9] = [
    Section::Areas,
    Section::Did,
    Section::Dob,
    Section::Homes,
    Section::Gone,
    Section::Bases,
    Section::Ghosts,
    Section::GhostsGone,
    Section::Shown,
];

impl Change<'_> {
    /// Appends the lines of the round, after that of its number.
    pub(crate) fn push(&self, out: &mut Vec<u8>) -> Result<(), AllocError> {
        for section in &SECTIONS {
            self.push_section(out, *section)?;
        }
        Ok(())
    }

    fn push_section(&self, out: &mut Vec<u8>, section: Section) -> Result<(), AllocError> {
        match section {
            Section::Areas => self.push_areas(out),
            Section::Did => self.push_did(out),
            Section::Dob => self.push_dob(out),
            Section::Homes => self.push_homes(out),
            Section::Gone => self.push_gone(out),
            Section::Bases => self.push_bases(out),
            Section::Ghosts => self.push_ghosts(out),
            Section::GhostsGone => self.push_ghosts_gone(out),
            Section::Shown => self.push_shown(out),
        }
    }

    // The areas of the cells, where they changed.
    fn push_areas(&self, out: &mut Vec<u8>) -> Result<(), AllocError> {
        let tree = &self.now.played.tree;
        match self.before {
            Some(before) if before.played.tree.is(tree) => Ok(()),
            _ => push_areas(out, tree),
        }
    }

    // The calls that cell parts executed. A move is told by how much more the entity's number is than that of the last one that was moved.
    fn push_did(&self, out: &mut Vec<u8>) -> Result<(), AllocError> {
        let (now, mut last) = (self.now, 0);
        for line in &now.played.round.did {
            self.push_executed(out, line, last)?;
            last = moved_by(line, last);
        }
        Ok(())
    }

    fn push_executed(
        &self,
        out: &mut Vec<u8>,
        line: &DoneLine,
        last: u32,
    ) -> Result<(), AllocError> {
        match &line.call.deed {
            Deed::Move(to) => push_move(out, &line.call, line.call.entity.wrapping_sub(last), *to),
            Deed::Method(..) => self.push_call(out, b"did ", line),
        }
    }

    // The calls that base parts executed.
    fn push_dob(&self, out: &mut Vec<u8>) -> Result<(), AllocError> {
        let now = self.now;
        for line in &now.played.round.dob {
            self.push_call(out, b"dob ", line)?;
        }
        Ok(())
    }

    fn push_call(&self, out: &mut Vec<u8>, word: &[u8], line: &DoneLine) -> Result<(), AllocError> {
        let text = DoneText {
            ty: line.ty,
            call: &line.call,
        };
        push_done(out, word, self.defs, &text)
    }

    // The homes, as far as they are other than what the round before and the calls tell.
    fn push_homes(&self, out: &mut Vec<u8>) -> Result<(), AllocError> {
        let now = self.now;
        for home in &now.played.round.homes {
            self.push_home(out, home)?;
        }
        Ok(())
    }

    fn push_home(&self, out: &mut Vec<u8>, home: &HomeLine) -> Result<(), AllocError> {
        let Some(last) = self.home_before(home.entity) else {
            return self.push_new(out, home);
        };
        if !is_expected(last, self.now.facts_of(home.entity), home) {
            return self.push_whole(out, home);
        }
        if last.cell == home.cell {
            return Ok(());
        }
        let numbers = [u64::from(home.entity), u64::from(home.cell)];
        push_line(out, b"cell", &numbers)
    }

    fn home_before(&self, entity: u32) -> Option<&HomeLine> {
        self.before?.home_of(entity)
    }

    fn push_new(&self, out: &mut Vec<u8>, home: &HomeLine) -> Result<(), AllocError> {
        push_words(out, b"new", &[u64::from(home.entity)])?;
        out.push(b' ')?;
        out.extend_from_slice(self.defs.type_at(home.ty).name.bytes())?;
        out.push(b'\n')?;
        self.push_whole(out, home)
    }

    fn push_whole(&self, out: &mut Vec<u8>, home: &HomeLine) -> Result<(), AllocError> {
        let text = HomeText {
            entity: home.entity,
            ty: home.ty,
            cell: home.cell,
            version: home.version,
            state: &home.state,
        };
        push_home(out, self.defs, &text)
    }

    // The entities of the round before that are there no more.
    fn push_gone(&self, out: &mut Vec<u8>) -> Result<(), AllocError> {
        let Some(before) = self.before else {
            return Ok(());
        };
        for home in &before.played.round.homes {
            if self.now.home_of(home.entity).is_none() {
                push_line(out, b"gone", &[u64::from(home.entity)])?;
            }
        }
        Ok(())
    }

    // The base parts that changed.
    fn push_bases(&self, out: &mut Vec<u8>) -> Result<(), AllocError> {
        let now = self.now;
        for line in &now.played.round.bases {
            self.push_base(out, line)?;
        }
        Ok(())
    }

    fn push_base(&self, out: &mut Vec<u8>, line: &BaseLine) -> Result<(), AllocError> {
        let text = BaseText {
            entity: line.entity,
            ty: line.ty,
            version: line.version,
            props: &line.props,
        };
        match self.base_before(line.entity) {
            Some(last) if last.is(line) => Ok(()),
            _ => push_base(out, self.defs, &text),
        }
    }

    fn base_before(&self, entity: u32) -> Option<&BaseLine> {
        self.before?.base_of(entity)
    }

    // The cells with ghosts of an entity, where they changed.
    fn push_ghosts(&self, out: &mut Vec<u8>) -> Result<(), AllocError> {
        for (entity, facts) in &self.now.facts {
            if !facts.ghosts.is(&self.ghosts_before(*entity)) {
                push_cells(out, *entity, facts.ghosts)?;
            }
        }
        Ok(())
    }

    fn ghosts_before(&self, entity: u32) -> CellSet {
        match self.before {
            Some(before) => before.facts_of(entity).ghosts,
            None => CellSet::none(),
        }
    }

    // The entities of which the round before has something, as ghosts, and this one nothing at all.
    fn push_ghosts_gone(&self, out: &mut Vec<u8>) -> Result<(), AllocError> {
        let Some(before) = self.before else {
            return Ok(());
        };
        for (entity, facts) in &before.facts {
            if !self.now.facts.contains_key(entity) && !facts.ghosts.is(&CellSet::none()) {
                push_cells(out, *entity, CellSet::none())?;
            }
        }
        Ok(())
    }

    // What clients were shown.
    fn push_shown(&self, out: &mut Vec<u8>) -> Result<(), AllocError> {
        let now = self.now;
        for line in &now.played.round.shown {
            push_shown(out, self.defs, line.entity, line.ty, &line.line)?;
        }
        Ok(())
    }
}

fn push_areas(out: &mut Vec<u8>, tree: &Tree) -> Result<(), AllocError> {
    out.extend_from_slice(b"area")?;
    for cell in 0..tree.cells() {
        if let Some(area) = tree.area(cell) {
            push_area(out, area)?;
        }
    }
    out.extend_from_slice(b"\n")
}

fn push_area(out: &mut Vec<u8>, area: Rect) -> Result<(), AllocError> {
    let (low, high) = (area.low(), area.high());
    let corners = [
        u64::from(low.x),
        u64::from(low.z),
        u64::from(high.x),
        u64::from(high.z),
    ];
    push_words(out, b"", &corners)
}

// The entity that was moved last, after this line.
fn moved_by(line: &DoneLine, last: u32) -> u32 {
    match &line.call.deed {
        Deed::Move(_) => line.call.entity,
        Deed::Method(..) => last,
    }
}

// A move of the entity whose number is so much more than that of the last one that was moved, modulo 2^32. It has no word, since there are
// more moves than all else.
fn push_move(out: &mut Vec<u8>, call: &Call, more: u32, to: Pos) -> Result<(), AllocError> {
    if more != 1 {
        push_number(out, u64::from(more))?;
        out.push(b' ')?;
    }
    push_mover(out, call.sender)?;
    push_line(out, b"", &[u64::from(to.x), u64::from(to.z)])
}

fn push_mover(out: &mut Vec<u8>, sender: Sender) -> Result<(), AllocError> {
    match sender {
        Sender::Base(node) => push_number(out, u64::from(node.number())),
        Sender::Client(entity) => {
            out.push(b'c')?;
            push_number(out, u64::from(entity))
        }
    }
}

fn push_cells(out: &mut Vec<u8>, entity: u32, cells: CellSet) -> Result<(), AllocError> {
    push_words(out, b"ghosts", &[u64::from(entity)])?;
    for cell in 0..16 {
        if cells.holds(cell) {
            push_words(out, b"", &[u64::from(cell)])?;
        }
    }
    out.extend_from_slice(b"\n")
}

// Whether a home is the last one with these facts, but for its cell.
fn is_expected(last: &HomeLine, facts: Facts, home: &HomeLine) -> bool {
    last.ty == home.ty
        && last.version.saturating_add(facts.executed) == home.version
        && facts.moved.unwrap_or(last.state.pos) == home.state.pos
        && last.state.props.is(&home.state.props)
}
