// What a picture shows of a round.
use crate::clients::{Clients, Sight};
use crate::dots::Dots;
use crate::drawing::{
    Piece, Point, push_circle, push_pieces, push_rectangle, push_straight, push_words,
};
use crate::legend::LEGEND;
use crate::map::{BOTTOM, Frame, LEFT, Map, RIGHT, TOP};
use crate::shared::Points;
use crate::style::{STYLE_SHEET, Style};
use seam_geo::Rect;
use seam_judge_data::{GhostLine, HomeLine};
use seam_replay::Played;
use std::alloc::AllocError;

// The picture has room on both sides of the space, and below it for the legend.
const SIZE: Point = Point {
    x: RIGHT + LEFT,
    y: BOTTOM + 80,
};

// Where the title is, and the notes of where the space begins and ends.
const TITLE: Point = Point {
    x: LEFT,
    y: TOP - 34,
};

const Z_NOTE: Point = Point {
    x: LEFT,
    y: TOP - 8,
};

const X_NOTE: Point = Point {
    x: RIGHT,
    y: BOTTOM + 18,
};

const LEAST_NOTE: Point = Point {
    x: LEFT,
    y: BOTTOM + 18,
};

// Where the name and the places of a cell are, from its upper left corner.
const NAME: Point = Point { x: 10, y: 24 };

const PLACES: Point = Point { x: 10, y: 40 };

// The layers of shapes, of which each is drawn over those before it.
#[derive(Clone, Copy)]
enum Layer {
    Areas,
    Reaches,
    Sights,
    Ghosts,
    Homes,
}

const LAYERS: [Layer; 5] = [
    Layer::Areas,
    Layer::Reaches,
    Layer::Sights,
    Layer::Ghosts,
    Layer::Homes,
];

/// A round to be drawn: what was printed of it, what clients have in view after it, where several entities are, and how far views reach.
#[derive(Clone, Copy)]
pub(crate) struct Scene<'a> {
    pub(crate) played: &'a Played,
    pub(crate) clients: &'a Clients,
    pub(crate) points: &'a Points,
    pub(crate) view_radius: u32,
    pub(crate) dots: Dots,
}

/// The shapes of a picture, and the words, which are drawn over all of them.
#[derive(Drop)]
pub(crate) struct Canvas {
    pub(crate) shapes: Vec<u8>,
    pub(crate) words: Vec<u8>,
}

impl Canvas {
    pub(crate) fn into_shapes(self) -> Vec<u8> {
        let Canvas {
            shapes,
            words: _words,
        } = self;
        shapes
    }
}

// Where a ghost of an entity that lives in a cell is drawn.
#[derive(Clone, Copy)]
struct GhostPlace {
    home: u8,
    own: Point,
    at: Point,
}

// The rings that were drawn about the entity whose ghosts come now.
#[derive(Clone, Copy)]
struct Rings {
    entity: u32,
    count: u64,
}

impl Rings {
    // How many were drawn about this entity, which gets one more.
    fn next(&mut self, entity: u32) -> u64 {
        let before = if self.entity == entity { self.count } else { 0 };
        self.entity = entity;
        self.count = before.saturating_add(1);
        before
    }
}

impl Scene<'_> {
    /// Draws all layers of shapes, and the words that stand in them.
    pub(crate) fn draw(&self, canvas: &mut Canvas) -> Result<(), AllocError> {
        for layer in &LAYERS {
            self.draw_layer(canvas, *layer)?;
        }
        Ok(())
    }

    fn draw_layer(&self, canvas: &mut Canvas, layer: Layer) -> Result<(), AllocError> {
        match layer {
            Layer::Areas => self.draw_areas(canvas),
            Layer::Reaches => self.draw_reaches(&mut canvas.shapes),
            Layer::Sights => self.draw_sights(&mut canvas.shapes),
            Layer::Ghosts => self.draw_ghosts(canvas),
            Layer::Homes => self.draw_homes(canvas),
        }
    }

    fn map(&self) -> Map {
        Map::of(&self.played.tree)
    }

    fn point_of(&self, home: &HomeLine) -> Point {
        self.map().point(home.state.pos)
    }

    fn draw_areas(&self, canvas: &mut Canvas) -> Result<(), AllocError> {
        for cell in 0..self.played.tree.cells() {
            if let Some(area) = self.played.tree.area(cell) {
                let frame = self.map().frame(area);
                draw_area(&mut canvas.shapes, frame, cell)?;
                write_name(&mut canvas.words, frame.from, cell, area)?;
            }
        }
        Ok(())
    }

    // How far the views of clients reach, and the rings about their entities.
    fn draw_reaches(&self, shapes: &mut Vec<u8>) -> Result<(), AllocError> {
        let played = self.played;
        for home in &played.round.homes {
            if self.clients.entities.contains(&home.entity) {
                self.draw_reach(shapes, home)?;
            }
        }
        Ok(())
    }

    fn draw_reach(&self, shapes: &mut Vec<u8>, home: &HomeLine) -> Result<(), AllocError> {
        let Frame { from, to } = self.map().surroundings(home.state.pos, self.view_radius);
        push_rectangle(shapes, Style::plain("view"), from, to)?;
        let radius = self.dots.radius.saturating_add(3);
        push_circle(shapes, Style::plain("client"), self.point_of(home), radius)
    }

    // Lines from the entities of clients to what these have in view.
    fn draw_sights(&self, shapes: &mut Vec<u8>) -> Result<(), AllocError> {
        for sight in &self.clients.sights {
            self.draw_sight(shapes, *sight)?;
        }
        Ok(())
    }

    fn draw_sight(&self, shapes: &mut Vec<u8>, sight: Sight) -> Result<(), AllocError> {
        let own = self.played.home_of(sight.own);
        match (own, self.played.home_of(sight.other)) {
            (Some(own), Some(other)) => push_straight(
                shapes,
                Style::plain("in-view"),
                self.point_of(own),
                self.point_of(other),
            ),
            _ => Ok(()),
        }
    }

    fn draw_ghosts(&self, canvas: &mut Canvas) -> Result<(), AllocError> {
        let mut rings = Rings {
            entity: 0,
            count: 0,
        };
        let played = self.played;
        for copy in &played.round.ghosts {
            if let Some(place) = self.ghost_place(copy) {
                self.draw_ghost(canvas, &mut rings, copy, place)?;
            }
        }
        Ok(())
    }

    // Where a ghost is drawn: in the cell that has it, as near to its entity as there is room.
    fn ghost_place(&self, copy: &GhostLine) -> Option<GhostPlace> {
        let home = self.played.home_of(copy.entity)?;
        let area = self.played.tree.area(copy.cell)?;
        let own = self.point_of(home);
        let margin = self.dots.radius.saturating_add(6);
        Some(GhostPlace {
            home: home.cell,
            own,
            at: self.map().frame(area).nearest(own, margin),
        })
    }

    // A ghost at the end of a line from its entity. Where both would meet, it is a ring about the entity.
    fn draw_ghost(
        &self,
        canvas: &mut Canvas,
        rings: &mut Rings,
        copy: &GhostLine,
        place: GhostPlace,
    ) -> Result<(), AllocError> {
        let GhostPlace { home, own, at } = place;
        let dots = self.dots;
        if dots.meet(own, at) {
            let style = Style::colored("ring", copy.cell, dots.size);
            let radius = dots.ring(rings.next(copy.entity));
            return push_circle(&mut canvas.shapes, style, own, radius);
        }
        if dots.have_numbers {
            let style = Style::colored("ghost-line", home, "");
            push_straight(&mut canvas.shapes, style, own, at)?;
        }
        dots.push(&mut canvas.shapes, "ghost", at, home, copy.entity)?;
        dots.push_number(&mut canvas.words, "number halo", at, copy.entity)
    }

    // The homes, of those at one point the first.
    fn draw_homes(&self, canvas: &mut Canvas) -> Result<(), AllocError> {
        let played = self.played;
        for home in &played.round.homes {
            let at = self.point_of(home);
            let count = self.points.count_for(at, home.entity);
            if 0 < count {
                self.draw_home(canvas, at, home, count)?;
            }
        }
        Ok(())
    }

    fn draw_home(
        &self,
        canvas: &mut Canvas,
        at: Point,
        home: &HomeLine,
        count: u32,
    ) -> Result<(), AllocError> {
        self.dots
            .push(&mut canvas.shapes, "home", at, home.cell, home.entity)?;
        self.dots
            .push_number(&mut canvas.words, "number on-dot", at, home.entity)?;
        self.dots.push_count(&mut canvas.words, at, count)
    }
}

fn draw_area(shapes: &mut Vec<u8>, frame: Frame, cell: u8) -> Result<(), AllocError> {
    let Frame { from, to } = frame;
    push_rectangle(shapes, Style::colored("area", cell, ""), from, to)?;
    push_rectangle(shapes, Style::plain("border"), from, to)
}

// A cell's number, and from where to where it goes.
fn write_name(words: &mut Vec<u8>, from: Point, cell: u8, area: Rect) -> Result<(), AllocError> {
    let name = Style::plain("halo cell name");
    push_words(words, name, from.plus(NAME), "cell ", u64::from(cell))?;
    let at = from.plus(PLACES);
    let (low, high) = (area.low(), area.high());
    push_pieces(
        words,
        &[
            Piece::Text("<text class=\"halo cell\" x=\""),
            Piece::Number(at.x),
            Piece::Text("\" y=\""),
            Piece::Number(at.y),
            Piece::Text("\">x "),
            Piece::Number(u64::from(low.x)),
            Piece::Text(" to "),
            Piece::Number(u64::from(high.x)),
            Piece::Text(", z "),
            Piece::Number(u64::from(low.z)),
            Piece::Text(" to "),
            Piece::Number(u64::from(high.z)),
            Piece::Text("</text>\n"),
        ],
    )
}

/// Appends what comes before the shapes: the size, a title for those who do not see the picture, the style sheet and the ground.
pub(crate) fn push_head(out: &mut Vec<u8>, number: u64) -> Result<(), AllocError> {
    push_pieces(
        out,
        &[
            Piece::Text("<svg xmlns=\"http://www.w3.org/2000/svg\" viewBox=\"0 0 "),
            Piece::Number(SIZE.x),
            Piece::Text(" "),
            Piece::Number(SIZE.y),
            Piece::Text("\">\n<title>Round "),
            Piece::Number(number),
            Piece::Text("</title>\n<style>\n"),
            Piece::Text(STYLE_SHEET),
            Piece::Text("</style>\n<rect class=\"paper\" width=\""),
            Piece::Number(SIZE.x),
            Piece::Text("\" height=\""),
            Piece::Number(SIZE.y),
            Piece::Text("\"/>\n"),
        ],
    )
}

/// Appends what comes after the words: the title, where the space begins and ends, and the legend.
pub(crate) fn push_end(out: &mut Vec<u8>, number: u64, size: u32) -> Result<(), AllocError> {
    let size = u64::from(size);
    let notes = [
        ("title", TITLE, "Round ", number),
        ("note", Z_NOTE, "z = ", size),
        ("note end", X_NOTE, "x = ", size),
        ("note", LEAST_NOTE, "", 0),
    ];
    for (sign, at, words, number) in &notes {
        push_words(out, Style::plain(*sign), *at, *words, *number)?;
    }
    push_pieces(
        out,
        &[
            Piece::Text("<g transform=\"translate("),
            Piece::Number(LEFT),
            Piece::Text(" "),
            Piece::Number(BOTTOM),
            Piece::Text(")\">\n"),
            Piece::Text(LEGEND),
            Piece::Text("</g>\n</svg>\n"),
        ],
    )
}
