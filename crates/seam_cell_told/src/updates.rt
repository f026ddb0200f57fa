//! What a look tells a client, as the updates that its entity's base node is sent.

ghost use Rattle.std.specs.Prelude.{◌≡◌, ◌<◌, ◌≤◌, ◌^◌, ◌++◌, [], ◌∷◌, length, false, IfOk, OnOk};
ghost use Rattle.seam_node_steps.specs.Prelude.{is_empty, numbered};

use seam_call::{Shown, Update};
use seam_entity::Msg;
use seam_machine::Out;
use std::alloc::AllocError;
use std::marker::Model;

/// The updates of an entity that go to its base node, numbered after those that were sent before.
///
/// Contracts see what they show, in order.
#[derive(Drop)]
pub struct Updates {
    to: u8,
    entity: u32,
    sent: u64,
    made: Out<Msg>,
}

impl Model for Updates {
    ghost use Rattle.std.specs.Prelude.{◌≡◌, ◌<◌, ◌^◌};
    ghost use Rattle.seam_node_steps.specs.CellLooks.{numbered};
    ghost use Rattle.seam_cell_told.specs.Updates.{UpdatesView, shown_in};

    ghost Value = { UpdatesView };

    ghost view = { λ u. record { to = u.to; entity = u.entity; sent = u.sent; shown = shown_in u.made.items } };

    ghost invariant = { λ u. (u.made.items ≡ numbered u.to u.entity u.sent (shown_in u.made.items)) × (u.sent < 2 ^ 62) };
}

impl Updates {
    /// No update, in room that was made for messages.
    pub fn new(to: u8, entity: u32, sent: u64, made: Out<Msg>) -> Updates
        requires empty { made.items ≡ [] }
        requires small { sent < 2 ^ 62 }
        ensures { result ≡ record { to = to; entity = entity; sent = sent; shown = [] } }
    {
        Updates {
            to,
            entity,
            sent,
            made,
        }
    }

    /// How many there are.
    pub fn len(&self) -> usize
        ensures { result ≡ length self.now.shown }
    {
        self.made.len()
    }

    /// Adds what is shown.
    #[inline(always)]
    pub fn push(&mut self, item: Shown) -> Result<(), AllocError>
        ensures { OnOk result (self.new ≡ record self.old { shown = self.old.shown ++ item ∷ [] }) }
    {
        self.made.reserve(1)?;
        let number = self.sent + self.made.len() as u64 + 1;
        let update = Update {
            entity: self.entity,
            number,
            shown: item,
        };
        self.made.send(self.to, Msg::Update(update));
        Ok(())
    }

    /// Sends them, in room that was made before; where nothing else is sent, none is needed.
    pub fn send(self, out: &mut Out<Msg>)
        requires { is_empty out.old.items ≡ false → length self.shown ≤ out.old.spare }
        ensures { out.new.items ≡ out.old.items ++ numbered self.to self.entity self.sent
            self.shown }
    {
        out.send_all(self.made);
    }
}
