//! The routes of a base node: the cell where each entity's real was when it had that generation.

ghost use Rattle.std.specs.Prelude.{◌≡◌, Some, if◌then◌else◌};
ghost use Rattle.seam_node_steps.specs.Loads.{routes_without};
ghost use Rattle.seam_base.specs.Routes.{gives_way as route_gives_way};

use seam_entity::is_small;
use seam_table::Table;
use std::marker::Model;

/// How many nodes may be cells.
pub const CELLS: u8 = 16;

/// Where an entity's real was when it had that generation.
#[derive(Clone, Copy, Debug, PartialEq, Eq)]
pub struct Route {
    pub cell: u8,
    pub generation: u64,
}

impl Model for Route {
    ghost use Rattle.seam_node_steps.specs.Bases.{RouteView};

    ghost Value = { RouteView };

    ghost view = { λ r. record { cell = r.cell; generation = r.generation } };

    ghost inverse = { λ v. record { cell = v.cell; generation = v.generation } };
}

// Whether the route gives way to a new one: that is no stray one, and of a greater generation.
fn gives_way(route: &Route, new: Route) -> bool
    ensures { result ≡ route_gives_way (Some route.now) new }
{
    new.cell < CELLS && (is_small(new.generation) && route.generation < new.generation)
}

/// Puts the new route in place of this one, if this one gives way: the new one is not stray, and has a greater generation.
pub fn renew(route: &mut Route, new: Route)
    ensures { route.new ≡ (if route_gives_way (Some route.old) new then new else route.old) }
{
    if gives_way(route, new) {
        *route = new;
    }
}

/// Forgets the routes to these entities.
pub fn forget(routes: &mut Table<Route>, gone: &[u32])
    ensures { routes.new.items ≡ routes_without gone.now routes.old.items }
{
    for e in gone {
        routes.remove(*e);
    }
}
