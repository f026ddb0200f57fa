// The dots that stand for entities, and what is written on them and beside them.
use crate::drawing::{Point, push_dot, push_words};
use crate::style::Style;
use std::alloc::AllocError;

// How far below the middle of a dot its number's base line is.
const NUMBER: Point = Point { x: 0, y: 4 };

// How far beside a dot, and below its middle, a long number begins.
const BESIDE: Point = Point { x: 7, y: 4 };

// The least number that is too long for a dot.
const LEAST_LONG_NUMBER: u32 = 1000;

/// The dots of a picture, which are the smaller the more entities there are.
#[derive(Clone, Copy)]
pub(crate) struct Dots {
    pub(crate) radius: u64,
    /// The class of their edges.
    pub(crate) size: &'static str,
    /// Whether they have numbers. Where there are many, numbers are titles alone, which a reader sees who points at the dot.
    pub(crate) have_numbers: bool,
}

impl Dots {
    /// The dots of so many entities.
    pub(crate) fn of(count: usize) -> Dots {
        let (radius, size) = match count {
            0..=150 => (11, ""),
            151..=600 => (6, " small"),
            601..=2_500 => (4, " small"),
            2_501..=12_000 => (2, " tiny"),
            _ => (1, " tiny"),
        };
        Dots {
            radius,
            size,
            have_numbers: count <= 150,
        }
    }

    /// Appends the dot of an entity that lives in a cell: a home or a ghost.
    pub(crate) fn push(
        self,
        out: &mut Vec<u8>,
        sign: &'static str,
        at: Point,
        cell: u8,
        entity: u32,
    ) -> Result<(), AllocError> {
        let style = Style::colored(sign, cell, self.size);
        push_dot(out, style, at, self.radius, entity)
    }

    /// Appends the number of an entity, where dots have numbers: on its dot in this style, or beside it where it is long.
    pub(crate) fn push_number(
        self,
        out: &mut Vec<u8>,
        sign: &'static str,
        at: Point,
        entity: u32,
    ) -> Result<(), AllocError> {
        if !self.have_numbers {
            return Ok(());
        }
        let (style, offset) = if entity < LEAST_LONG_NUMBER {
            (sign, NUMBER)
        } else {
            ("halo long", self.beside())
        };
        push_words(
            out,
            Style::plain(style),
            at.plus(offset),
            "",
            u64::from(entity),
        )
    }

    fn beside(self) -> Point {
        BESIDE.plus(Point {
            x: self.radius,
            y: 0,
        })
    }

    /// Appends how many entities are at a point, if that is worth a sign: above and beside the dot.
    pub(crate) fn push_count(
        self,
        out: &mut Vec<u8>,
        at: Point,
        count: u32,
    ) -> Result<(), AllocError> {
        let least = if self.have_numbers { 2 } else { 5 };
        if count < least {
            return Ok(());
        }
        let above = Point {
            x: at.x.saturating_add(self.radius),
            y: at.y.saturating_sub(self.radius),
        };
        push_words(
            out,
            Style::plain("halo bold"),
            above,
            "\u{d7}",
            u64::from(count),
        )
    }

    /// The radius of a ring about a dot that has so many rings before.
    pub(crate) fn ring(self, before: u64) -> u64 {
        let step = self.radius / 2 + 2;
        self.radius
            .saturating_add(step.saturating_mul(before.saturating_add(1)))
    }

    /// Whether dots at two points meet.
    pub(crate) fn meet(self, a: Point, b: Point) -> bool {
        let across = self.radius.saturating_mul(2);
        a.x.abs_diff(b.x) < across && a.y.abs_diff(b.y) < across
    }
}
