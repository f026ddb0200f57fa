//! The orders of a base node.

ghost use Rattle.std.specs.Prelude.{◌≡◌, ◌≤◌, ◌++◌, ◌∷◌, [], ◌&&◌, ℕ, List, true, false, OnOk, OnErr, IfErr, is_none, map, if◌then◌else◌};
ghost use Rattle.std.specs.Prelude.{length, take};
ghost use Rattle.std.specs.List.{range_with_len};
ghost use Rattle.std.specs.FinMap as table;
ghost use Rattle.seam_node_steps.specs.Prelude.{Order as AnyOrder, base_of, on_route, tick_to, bounds_to, is_base_node_of, stray_base_call};
ghost use Rattle.seam_node_steps.specs.Prelude.{stray_order, order_of_node};
ghost use Rattle.seam_call.specs.declared.order.Order.TheVariants as order;
ghost use Rattle.seam_entity.specs.declared.message.Msg.TheVariants as message;
ghost use Rattle.seam_base.specs.Nodes.{here_in, node_of};
ghost use Rattle.seam_base.specs.Parts.{changed_at, with_call};

use crate::context::BaseContext;
use crate::parts::Parts;
use crate::routes::Route;
use seam_call::{Boundaries, Call, Order};
use seam_defs::MOST_BASE_NODES;
use seam_entity::Msg;
use seam_machine::Out;
use seam_table::Table;
use std::alloc::AllocError;

/// An order that was not executed: since it is stray, or since allocation failed.
#[derive(Drop)]
pub struct Stays {
    pub order: Order,
    pub result: Result<(), AllocError>,
}

// Cell order: the call goes to the route's cell.
fn cell_order(routes: &Table<Route>, call: Call, out: &mut Out<Msg>) -> Result<(), Stays>
    ensures sent { OnOk result (out.new.items ≡ out.old.items
        ++ on_route (table.get routes.now.items call.entity) (message.Call call)) }
    ensures done { OnOk result (is_none (table.get routes.now.items call.entity) ≡ false) }
    ensures err { OnErr result (out.new.items ≡ out.old.items) }
    ensures stays { IfErr result (λ s. s.order ≡ order.Cell call) }
    ensures stray { IfErr result (λ s. OnOk s.result (is_none
        (table.get routes.now.items call.entity) ≡ true)) }
{
    let Some(route) = routes.get(call.entity) else {
        return Err(Stays {
            order: Order::Cell(call),
            result: Ok(()),
        });
    };
    let cell = route.cell;
    if let Err(error) = out.reserve(1) {
        return Err(Stays {
            order: Order::Cell(call),
            result: Err(error),
        });
    }
    out.send(cell, Msg::Call(call));
    Ok(())
}

// Tick order: every cell of the tree is told, in rising number.
fn tick_order(cells: u8, out: &mut Out<Msg>) -> Result<(), Stays>
    ensures sent { OnOk result (out.new.items ≡ out.old.items
        ++ map tick_to (range_with_len 0 cells)) }
    ensures err { OnErr result (out.new.items ≡ out.old.items) }
    ensures stays { IfErr result (λ s. s.order ≡ order.Tick) }
    ensures stray { IfErr result (λ s. OnOk s.result ⊥) }
{
    if let Err(error) = out.reserve(cells as usize) {
        return Err(Stays {
            order: Order::Tick,
            result: Err(error),
        });
    }
    for k in 0..cells {
        out.send(k, Msg::Tick);
    }
    Ok(())
}

// Tells the cells of the tree these boundaries, in rising number. If allocation fails, some may have been told.
fn tell_bounds(cells: u8, bounds: &Boundaries, out: &mut Out<Msg>) -> Result<(), AllocError>
    ensures sent { OnOk result (out.new.items ≡ out.old.items
        ++ map (bounds_to bounds.now) (range_with_len 0 cells)) }
    ensures kept { take (length out.old.items) out.new.items ≡ out.old.items }
{
    out.reserve(cells as usize)?;
    for k in 0..cells {
        let more = bounds.share()?;
        out.send(k, Msg::Bounds(more));
    }
    Ok(())
}

// Bounds order: every cell of the tree is told, in rising number.
fn bounds_order(cells: u8, bounds: Boundaries, out: &mut Out<Msg>) -> Result<(), Stays>
    ensures sent { OnOk result (out.new.items ≡ out.old.items
        ++ map (bounds_to bounds) (range_with_len 0 cells)) }
    ensures err { OnErr result (out.new.items ≡ out.old.items) }
    ensures stays { IfErr result (λ s. s.order ≡ order.Bounds bounds) }
    ensures stray { IfErr result (λ s. OnOk s.result ⊥) }
{
    let start = out.len();
    match tell_bounds(cells, &bounds, out) {
        Ok(()) => Ok(()),
        Err(error) => {
            out.cut(start);
            Err(Stays {
                order: Order::Bounds(bounds),
                result: Err(error),
            })
        }
    }
}

// Reap order: the route's cell is told, and the base part goes where it is here; the route stays.
fn reap_order(
    routes: &Table<Route>,
    parts: &mut Parts,
    e: u32,
    out: &mut Out<Msg>,
) -> Result<(), Stays>
    ensures parts { OnOk result (parts.new ≡ table.remove parts.old e) }
    ensures sent { OnOk result (out.new.items ≡ out.old.items
        ++ on_route (table.get routes.now.items e) (message.Reap e)) }
    ensures done { OnOk result (is_none (table.get routes.now.items e) ≡ false) }
    ensures err_parts { OnErr result (parts.new ≡ parts.old) }
    ensures err { OnErr result (out.new.items ≡ out.old.items) }
    ensures stays { IfErr result (λ s. s.order ≡ order.Reap e) }
    ensures stray { IfErr result (λ s. OnOk s.result (is_none (table.get routes.now.items e)
        ≡ true)) }
{
    let Some(route) = routes.get(e) else {
        return Err(Stays {
            order: Order::Reap(e),
            result: Ok(()),
        });
    };
    let cell = route.cell;
    if let Err(error) = out.reserve(1) {
        return Err(Stays {
            order: Order::Reap(e),
            result: Err(error),
        });
    }
    out.send(cell, Msg::Reap(e));
    parts.remove(e);
    Ok(())
}

// Base order: where this is the entity's base node as a base call, else the call goes to that node.
fn base_order(
    known: &BaseContext,
    parts: &mut Parts,
    call: Call,
    out: &mut Out<Msg>,
) -> Result<(), Stays>
    requires bases { 1 ≤ known.now.settings.bases }
    requires most { known.now.settings.bases ≤ MOST_BASE_NODES }
    ensures parts { let h = here_in known.now in OnOk result (parts.new
        ≡ (if is_base_node_of h call.entity then changed_at (with_call h call) parts.old call.entity
        else parts.old)) }
    ensures sent { let h = here_in known.now in OnOk result (out.new.items ≡ out.old.items ++
        (if is_base_node_of h call.entity then []
        else (base_of h call.entity, message.BaseCall call) ∷ [])) }
    ensures done { let h = here_in known.now in OnOk result
        ((is_base_node_of h call.entity && stray_base_call h call (table.get parts.old call.entity))
        ≡ false) }
    ensures err_parts { OnErr result (parts.new ≡ parts.old) }
    ensures err { OnErr result (out.new.items ≡ out.old.items) }
    ensures stays { IfErr result (λ s. s.order ≡ order.Base call) }
    ensures stray { let h = here_in known.now in IfErr result (λ s. OnOk s.result
        ((is_base_node_of h call.entity && stray_base_call h call (table.get parts.old call.entity))
        ≡ true)) }
{
    let node = known.base_node_of(call.entity);
    if node == known.me {
        return own_order(known, parts, call);
    }
    if let Err(error) = out.reserve(1) {
        return Err(Stays {
            order: Order::Base(call),
            result: Err(error),
        });
    }
    out.send(node, Msg::BaseCall(call));
    Ok(())
}

// A base order for a part of this node.
fn own_order(known: &BaseContext, parts: &mut Parts, call: Call) -> Result<(), Stays>
    ensures parts { OnOk result (parts.new ≡ changed_at (with_call (here_in known.now) call)
        parts.old call.entity) }
    ensures done { OnOk result (stray_base_call (here_in known.now) call
        (table.get parts.old call.entity) ≡ false) }
    ensures err { OnErr result (parts.new ≡ parts.old) }
    ensures stays { IfErr result (λ s. s.order ≡ order.Base call) }
    ensures stray { IfErr result (λ s. OnOk s.result (stray_base_call (here_in known.now) call
        (table.get parts.old call.entity) ≡ true)) }
{
    if parts.refuses(known, &call) {
        return Err(Stays {
            order: Order::Base(call),
            result: Ok(()),
        });
    }
    match parts.offer(known, call) {
        Ok(()) => return Ok(()),
        Err(refused) => {
            return Err(Stays {
                order: Order::Base(refused.item),
                result: Err(AllocError),
            });
        }
    }
}

/// Executes the order; a stray one stays.
///
/// The clauses speak of the node without the order, with any list of the others.
pub fn execute(
    known: &BaseContext,
    routes: &Table<Route>,
    parts: &mut Parts,
    order: Order,
    out: &mut Out<Msg>,
) -> Result<(), Stays>
    requires bases { 1 ≤ known.now.settings.bases }
    requires most { known.now.settings.bases ≤ MOST_BASE_NODES }
    ensures state { (os : List AnyOrder) → OnOk result (node_of known.now os routes.now.items
        parts.new ≡ (order_of_node (node_of known.now os routes.now.items parts.old)
        order).state) }
    ensures sent { (os : List AnyOrder) → OnOk result (out.new.items ≡ out.old.items
        ++ (order_of_node (node_of known.now os routes.now.items parts.old) order).sent) }
    ensures done { (os : List AnyOrder) → OnOk result (stray_order
        (node_of known.now os routes.now.items parts.old) order ≡ false) }
    ensures err_parts { OnErr result (parts.new ≡ parts.old) }
    ensures err { OnErr result (out.new.items ≡ out.old.items) }
    ensures stays { IfErr result (λ s. s.order ≡ order) }
    ensures stray { (os : List AnyOrder) → IfErr result (λ s. OnOk s.result
        (stray_order (node_of known.now os routes.now.items parts.old) order ≡ true)) }
{
    match order {
        Order::Cell(call) => return cell_order(routes, call, out),
        Order::Base(call) => return base_order(known, parts, call, out),
        Order::Tick => return tick_order(known.cells, out),
        Order::Reap(e) => return reap_order(routes, parts, e, out),
        Order::Bounds(bounds) => return bounds_order(known.cells, bounds, out),
    }
}
