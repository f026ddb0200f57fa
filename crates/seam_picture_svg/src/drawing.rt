// Shapes of a picture, as the text of an SVG. The unit is a pixel of the picture's own size; x goes to the right, and y down.
use crate::style::Style;
use seam_value::push_number;
use std::alloc::AllocError;

/// A point of a picture.
#[derive(Clone, Copy, PartialEq, Eq, Hash)]
pub(crate) struct Point {
    pub(crate) x: u64,
    pub(crate) y: u64,
}

impl Point {
    /// The point that is farther to the right and down by this.
    pub(crate) fn plus(self, offset: Point) -> Point {
        Point {
            x: self.x.saturating_add(offset.x),
            y: self.y.saturating_add(offset.y),
        }
    }
}

/// A piece of a text: a constant of this crate, in which nothing has to be escaped, or a number.
#[derive(Clone, Copy)]
pub(crate) enum Piece {
    Text(&'static str),
    Number(u64),
}

/// Appends pieces, one after another.
pub(crate) fn push_pieces(out: &mut Vec<u8>, pieces: &[Piece]) -> Result<(), AllocError> {
    for piece in pieces {
        push_piece(out, *piece)?;
    }
    Ok(())
}

fn push_piece(out: &mut Vec<u8>, piece: Piece) -> Result<(), AllocError> {
    match piece {
        Piece::Text(text) => out.extend_from_slice(text.as_bytes()),
        Piece::Number(number) => push_number(out, number),
    }
}

/// Appends a rectangle, from its upper left corner to its lower right one.
pub(crate) fn push_rectangle(
    out: &mut Vec<u8>,
    style: Style,
    from: Point,
    to: Point,
) -> Result<(), AllocError> {
    push_pieces(
        out,
        &[
            Piece::Text("<rect class=\""),
            Piece::Text(style.sign),
            Piece::Text(style.color),
            Piece::Text("\" x=\""),
            Piece::Number(from.x),
            Piece::Text("\" y=\""),
            Piece::Number(from.y),
            Piece::Text("\" width=\""),
            Piece::Number(to.x.saturating_sub(from.x)),
            Piece::Text("\" height=\""),
            Piece::Number(to.y.saturating_sub(from.y)),
            Piece::Text("\"/>\n"),
        ],
    )
}

// Appends a circle about a point, up to the end of its open tag.
fn begin_circle(
    out: &mut Vec<u8>,
    style: Style,
    center: Point,
    radius: u64,
) -> Result<(), AllocError> {
    push_pieces(
        out,
        &[
            Piece::Text("<circle class=\""),
            Piece::Text(style.sign),
            Piece::Text(style.color),
            Piece::Text(style.size),
            Piece::Text("\" cx=\""),
            Piece::Number(center.x),
            Piece::Text("\" cy=\""),
            Piece::Number(center.y),
            Piece::Text("\" r=\""),
            Piece::Number(radius),
        ],
    )
}

/// Appends a circle about a point.
pub(crate) fn push_circle(
    out: &mut Vec<u8>,
    style: Style,
    center: Point,
    radius: u64,
) -> Result<(), AllocError> {
    begin_circle(out, style, center, radius)?;
    push_pieces(out, &[Piece::Text("\"/>\n")])
}

/// Appends a filled circle about a point, with a number as its title.
pub(crate) fn push_dot(
    out: &mut Vec<u8>,
    style: Style,
    center: Point,
    radius: u64,
    title: u32,
) -> Result<(), AllocError> {
    begin_circle(out, style, center, radius)?;
    push_pieces(
        out,
        &[
            Piece::Text("\"><title>"),
            Piece::Number(u64::from(title)),
            Piece::Text("</title></circle>\n"),
        ],
    )
}

/// Appends a straight line between two points.
pub(crate) fn push_straight(
    out: &mut Vec<u8>,
    style: Style,
    from: Point,
    to: Point,
) -> Result<(), AllocError> {
    push_pieces(
        out,
        &[
            Piece::Text("<line class=\""),
            Piece::Text(style.sign),
            Piece::Text(style.color),
            Piece::Text("\" x1=\""),
            Piece::Number(from.x),
            Piece::Text("\" y1=\""),
            Piece::Number(from.y),
            Piece::Text("\" x2=\""),
            Piece::Number(to.x),
            Piece::Text("\" y2=\""),
            Piece::Number(to.y),
            Piece::Text("\"/>\n"),
        ],
    )
}

/// Appends words, and a number after them, on a base line through a point, on which side of it is up to the style.
pub(crate) fn push_words(
    out: &mut Vec<u8>,
    style: Style,
    at: Point,
    words: &'static str,
    number: u64,
) -> Result<(), AllocError> {
    push_pieces(
        out,
        &[
            Piece::Text("<text class=\""),
            Piece::Text(style.sign),
            Piece::Text("\" x=\""),
            Piece::Number(at.x),
            Piece::Text("\" y=\""),
            Piece::Number(at.y),
            Piece::Text("\">"),
            Piece::Text(words),
            Piece::Number(number),
            Piece::Text("</text>\n"),
        ],
    )
}
