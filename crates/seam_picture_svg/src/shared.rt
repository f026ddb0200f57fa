// Entities that are drawn at one point.
use crate::drawing::Point;
use crate::map::Map;
use indexmap::IndexMap;
use seam_judge_data::HomeLine;
use std::alloc::{AllocError, Global};

/// The first entity at a point, and how many are there.
#[derive(Clone, Copy)]
struct Shared {
    entity: u32,
    count: u32,
}

/// The points at which entities are drawn.
#[derive(Drop)]
pub(crate) struct Points {
    points: IndexMap<Point, Shared>,
}

impl Points {
    /// The points of these homes.
    pub(crate) fn of(alloc: Global, map: Map, homes: &[HomeLine]) -> Result<Points, AllocError> {
        let mut points = Points {
            points: IndexMap::new(alloc),
        };
        for home in homes {
            points.add(map.point(home.state.pos), home.entity)?;
        }
        Ok(points)
    }

    // Adds an entity at a point.
    fn add(&mut self, point: Point, entity: u32) -> Result<(), AllocError> {
        let shared = match self.points.get(&point) {
            Some(shared) => Shared {
                entity: shared.entity,
                count: shared.count.saturating_add(1),
            },
            None => Shared { entity, count: 1 },
        };
        self.points.insert(point, shared)?;
        Ok(())
    }

    /// How many entities are at a point, for the first of them, and 0 for the others.
    pub(crate) fn count_for(&self, point: Point, entity: u32) -> u32 {
        match self.points.get(&point) {
            Some(shared) if shared.entity == entity => shared.count,
            _ => 0,
        }
    }
}
