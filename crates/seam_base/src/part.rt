//! The base part of an entity.

ghost use Rattle.std.specs.Prelude.{◌≡◌, ◌<◌, ◌↔◌, ℕ, IfOk, OnOk, IsTrue, true, false, is_some, Some, vec_len, vec_capacity};
ghost use Rattle.seam_node_steps.specs.Prelude.{Settings as AllSettings, may_rise as number_may_rise, with_line, order_of, may_offer};
ghost use Rattle.seam_node_steps.specs.Prelude.{node_with, new_part, part_begins, may_show as client_may_show, fits_base_part};
ghost use Rattle.seam_node_steps.specs.BaseCases.{may_call as part_may_call, may_execute as part_may_execute};
ghost use Rattle.seam_base.specs.Nodes.{has_client as part_has_client};
ghost use Rattle.seam_base.specs.Parts.{part_of, proxy_of, lines_of, next_update_of};

use seam_call::{Call, ClientText, Line, Shown};
use seam_defs::{Defs, Group, Part, Props, Settings, State};
use seam_entity::{Orders, can_do, may_rise};
use seam_geo::Pos;
use seam_order::InOrder;
use std::alloc::{AllocError, Global};
use std::marker::Model;

/// Makes room for one more line. A client that is shown one line is most often shown many, so a full list gets room for three times as many
/// as it has.
pub(crate) fn reserve_line(lines: &mut Vec<Line>) -> Result<(), AllocError>
    ensures same { lines.new.items ≡ lines.old.items }
    ensures room { OnOk result (vec_len lines.new < vec_capacity lines.new) }
{
    if lines.len() < lines.capacity() {
        return Ok(());
    }
    lines.reserve_exact(lines.len().saturating_mul(3).max(4))
}

#[derive(Drop)]
pub(crate) struct Proxy {
    pub updates: InOrder<Shown>,
    pub lines: Vec<Line>,
    pub last: u64,
}

impl Proxy {
    /// Shows the text, under the next number.
    pub fn show(&mut self, text: ClientText)
        requires room { vec_len self.old.lines < vec_capacity self.old.lines }
        requires small { number_may_rise self.old.last ≡ true }
        ensures { proxy_of self.new ≡ with_line (proxy_of self.old) text }
    {
        self.last += 1;
        self.lines.push_reserved(Line {
            number: self.last,
            text,
        });
    }
}

#[derive(Drop)]
pub(crate) struct Body {
    pub ty: u16,
    pub state: State,
    pub version: u64,
    pub orders: Orders,
    pub done: Vec<Call>,
    // In a box of its own, since most parts have none.
    pub proxy: Option<Box<Proxy>>,
}

/// The base part of an entity, which may have a client.
///
/// Contracts see what it is; the room that was made in it is not seen.
#[derive(Drop)]
pub struct BasePart {
    pub(crate) body: Box<Body>,
}

impl Model for BasePart {
    ghost use Rattle.std.specs.Prelude.{box_value};
    ghost use Rattle.std.specs.Coded.{codes};
    ghost use Rattle.std.specs.FinMap as table;
    ghost use Rattle.seam_node_steps.specs.Bases.{PartView};
    ghost use Rattle.seam_base.specs.Parts.{part_of};

    ghost Value = { PartView };

    ghost coded = { Prim.hlevel (codes, table.code) };

    ghost view = { λ p. part_of (box_value p.body) };
}

impl BasePart {
    /// A base part that has done nothing.
    pub fn create(alloc: Global, defs: &Defs, ty: u16) -> Result<Self, AllocError>
        ensures { (me : ℕ) (settings : AllSettings) → IfOk result (λ p. p
            ≡ new_part (node_with defs.now me settings) ty) }
    {
        let props = defs.type_at(ty).start_props(Group::Base)?;
        let body = Body {
            ty,
            state: State {
                pos: Pos { x: 0, z: 0 },
                props,
            },
            version: 0,
            orders: Orders::new(alloc),
            done: Vec::new(alloc),
            proxy: None,
        };
        Ok(BasePart {
            body: Box::new(alloc, body)?,
        })
    }

    /// The entity's type, by its place among the types.
    pub fn ty(&self) -> u16
        ensures { result ≡ self.now.ty }
    {
        self.body.ty
    }

    /// The values of its properties.
    pub fn props(&self) -> &Props
        ensures { result.now ≡ self.now.state.props }
    {
        &self.body.state.props
    }

    /// How many calls it executed.
    pub fn version(&self) -> u64
        ensures { result ≡ self.now.version }
    {
        self.body.version
    }

    /// The calls executed in this round.
    pub fn done(&self) -> &[Call]
        ensures { result.now ≡ self.now.done }
    {
        &self.body.done
    }

    /// The lines that its client was shown in this round.
    pub fn lines(&self) -> &[Line]
        ensures { result.now ≡ lines_of self.now }
    {
        match &self.body.proxy {
            Some(proxy) => &proxy.lines,
            None => &[],
        }
    }

    /// Whether it did nothing, and its client was shown nothing, since a round began.
    pub fn has_begun(&self) -> bool
        ensures { IsTrue result ↔ (part_begins self.now ≡ self.now) }
    {
        self.done().is_empty() && self.lines().is_empty()
    }

    /// The number of its client's next update; 0 where it has no client.
    pub fn next_update(&self) -> u64
        ensures { result ≡ next_update_of self.now }
    {
        match &self.body.proxy {
            Some(proxy) => proxy.updates.next_number(),
            None => 0,
        }
    }

    /// Whether it has a client.
    pub fn has_client(&self) -> bool
        ensures { result ≡ part_has_client self.now }
    {
        self.body.proxy.is_some()
    }

    /// Whether a further line of its client, if it has one, has a number.
    pub fn may_show(&self) -> bool
        ensures { result ≡ client_may_show self.now.proxy }
    {
        match &self.body.proxy {
            Some(proxy) => may_rise(proxy.last),
            None => true,
        }
    }

    /// Whether it may execute a call.
    pub fn may_execute(&self) -> bool
        ensures { result ≡ part_may_execute self.now }
    {
        may_rise(self.body.version) && self.may_show()
    }

    // Whether the call may be offered to its sender's order.
    fn may_take(&self, call: &Call) -> bool
        ensures { result ≡ may_offer (order_of self.now.orders call.now.sender) call.now.number }
    {
        call.number > 0
            && (may_rise(call.number) && !self.body.orders.holds(call.sender, call.number))
    }

    // Whether the call is for a base part, and fits this one.
    fn fits(&self, defs: &Defs, settings: &Settings, call: &Call) -> bool
        ensures { (me : ℕ) → result ≡ fits_base_part (node_with defs.now me settings.now)
            self.now.ty call.now }
    {
        call.is_for(Part::Base, call.entity)
            && can_do(
                settings.size,
                defs.type_at(self.body.ty),
                Part::Base,
                &call.deed,
            )
    }

    /// Whether it may be offered the call.
    pub fn may_call(&self, defs: &Defs, settings: &Settings, call: &Call) -> bool
        ensures { (me : ℕ) → result ≡ part_may_call (node_with defs.now me settings.now) self.now
            call.now }
    {
        if !self.fits(defs, settings, call) {
            return false;
        }
        if !self.may_take(call) {
            return false;
        }
        self.may_execute()
    }
}
