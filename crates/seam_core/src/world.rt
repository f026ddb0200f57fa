//! A world, and its events.
//!
//! `opened`, `loaded` and `happens` bind the code: they say which world a call makes. `laws` binds none. It is what
//! `every_world_obeys_the_laws` says of every net of nodes: wherever it comes from, by a load and events, it obeys the laws of that phase.
//! A step that made another world would keep `laws` too, of that world, and break `happens`.

ghost use Rattle.std.specs.Prelude.{◌≡◌, ◌<◌, ◌++◌, ◌∷◌, [], ℕ, List, length, true, OnOk, OnErr, IfOk};
ghost use Rattle.std.specs.Prelude.{option_copied, slice_get};
ghost use Rattle.seam_node_steps.specs.Prelude.{AreLegal, enabled, happens, Event as AnyEvent, World as AnyWorld, node_steps};
ghost use Rattle.seam_node_steps.specs.Prelude.{node_has_work, opened, loaded, reaps_loaded, look_loaded};
ghost use Rattle.seam_law_rounds.specs.Prelude.{first_frame};
ghost use Rattle.seam_law_all.specs.Prelude.{KeepsRecords};
ghost use Rattle.seam_rule_clients.specs.Clients.{ClientReplica};
ghost use Rattle.seam_core.specs.Worlds.{IsWorld, Leads, KeepsLaws};
ghost use Rattle.seam_core.specs.Loads.{MayLoad};

use crate::laws::every_world_obeys_the_laws;
use crate::loads::{begin_all, give, give_all, reap_all};
use crate::node::Node;
use crate::opening::open_nodes;
use seam_call::{Batch, Order};
use seam_defs::{Defs, Settings};
use seam_machine::{Event, Net};
use seam_tree::MOST_CELLS;
use std::alloc::{AllocError, Global};
use std::marker::Model;

/// Sixteen cells and the base nodes of a header, with a link for each ordered pair of them.
#[derive(Drop)]
pub struct World {
    net: Net<Node>,
}

impl Model for World {
    ghost use Rattle.std.specs.Coded.{codes};
    ghost use Rattle.std.specs.FinMap as table;
    ghost use Rattle.std.specs.FinSet as set;
    ghost use Rattle.seam_machine.specs.Views.{NetView};
    ghost use Rattle.seam_entity.specs.declared.message.Msg.{Msg};
    ghost use Rattle.seam_node_steps.specs.Nodes.{NodeView};
    ghost use Rattle.seam_core.specs.Worlds.{IsWorld};

    ghost Value = { NetView NodeView Msg };

    ghost coded = { Prim.hlevel (codes, table.code, set.code) };

    ghost view = { λ w. w.net };

    ghost invariant = { λ w. IsWorld w.net };
}

impl World {
    /// Sixteen cells and the base nodes of these settings, without entities, with empty links and the tree of one cell.
    pub fn open(alloc: Global, defs: &Defs, settings: Settings) -> Result<World, AllocError>
        requires { AreLegal settings }
        ensures opened { IfOk result (λ w. w ≡ opened defs.now settings) }

        // It keeps the records between rounds.
        ensures records { IfOk result (λ w. (clients : ℕ → ClientReplica) →
            KeepsRecords (first_frame defs.now settings) clients w) }
    {
        seam_law_all::an_opened_world_keeps_the_records();
        defs.known();
        let nodes = open_nodes(alloc, defs, settings)?;
        let net = Net::new(alloc, nodes)?;
        Ok(World { net })
    }

    /// Loads a batch: base nodes begin the round, entities are created, clients attached, cells begin the round with the batch's
    /// tree, and the orders are given to their base nodes. Which entities die is told later (`load_reaps`).
    ///
    /// If allocation fails, the world is gone.
    pub fn load(self, alloc: Global, batch: Batch) -> Result<World, AllocError>
        requires { MayLoad self batch }
        ensures loaded { IfOk result (λ w. w ≡ loaded self batch) }
        ensures starts { IfOk result (λ w. Leads (loaded self batch) [] w) }
        ensures laws { IfOk result KeepsLaws }
    {
        every_world_obeys_the_laws();
        let World { mut net } = self;
        // `size` is called for its clause that it is a tree.
        let _ = batch.tree.size();
        begin_all(&mut net, alloc, &batch)?;
        give_all(&mut net, batch.orders.into_vec())?;
        Ok(World { net })
    }

    /// Gives the base node of each entity the order to reap it.
    ///
    /// If allocation fails, the world is gone.
    pub fn load_reaps(self, destroys: &[u32]) -> Result<World, AllocError>
        ensures loaded { IfOk result (λ w. w ≡ reaps_loaded self destroys.now) }
        ensures starts { IfOk result (λ w. Leads (reaps_loaded self destroys.now) [] w) }
        ensures laws { IfOk result KeepsLaws }
    {
        every_world_obeys_the_laws();
        let World { mut net } = self;
        let bases = (net.node_count() - MOST_CELLS) as u32;
        reap_all(&mut net, bases, destroys)?;
        Ok(World { net })
    }

    /// Gives the first base node a tick: it tells every cell that its witnesses look.
    ///
    /// If allocation fails, the world is gone.
    pub fn load_look(self) -> Result<World, AllocError>
        ensures loaded { IfOk result (λ w. w ≡ look_loaded self) }
        ensures starts { IfOk result (λ w. Leads (look_loaded self) [] w) }
        ensures laws { IfOk result KeepsLaws }
    {
        every_world_obeys_the_laws();
        let World { mut net } = self;
        give(&mut net, MOST_CELLS as u8, Order::Tick)?;
        Ok(World { net })
    }

    /// Does nothing. Its clause says what holds of every world (*IsWorld*).
    pub fn known(&self)
        ensures { IsWorld self.now }
    {
        let _ = &self.net;
    }

    /// How many nodes there are: sixteen cells, and the base nodes after them.
    pub fn node_count(&self) -> usize
        ensures count { result ≡ length self.now.nodes }
        ensures few { result < 256 }
    {
        self.net.node_count()
    }

    /// The node of that number.
    pub fn node(&self, n: u8) -> Option<&Node>
        ensures { option_copied result ≡ slice_get self.now.nodes n }
    {
        self.net.node(n)
    }

    /// The nodes and the links.
    ///
    /// A crate that calls the methods of `Net` at `Node` proves anew how a node and all that it owns are let go. So `node` and `node_count`
    /// are there for those who only look.
    pub fn net(&self) -> &Net<Node>
        ensures { result.now ≡ self.now }
    {
        &self.net
    }

    /// Lets one event happen, which has to be enabled. If allocation fails, nothing has changed.
    ///
    /// A list of events that led here from a loaded world leads on with this one (`leads`), so that the laws of its phase speak of the new
    /// world (`laws`).
    pub fn step(&mut self, alloc: Global, event: Event) -> Result<(), AllocError>
        requires { enabled node_has_work self.old event ≡ true }
        ensures happens { OnOk result (self.new ≡ happens node_steps self.old event) }
        ensures leads { OnOk result ((start : AnyWorld) (es : List AnyEvent) →
            Leads start es self.old → Leads start (es ++ event ∷ []) self.new) }
        ensures laws { KeepsLaws self.new }
        ensures err { OnErr result (self.new ≡ self.old) }
    {
        every_world_obeys_the_laws();
        match self.net.step(alloc, event) {
            Ok(()) => return Ok(()),
            Err(refused) => return Err(refused),
        }
    }

    /// The net of the world, for workers to step.
    pub fn apart(self) -> Net<Node>
        ensures net { result ≡ self }
        ensures world { IsWorld result }
    {
        let World { net } = self;
        net
    }

    /// Makes a world again of the net of one, to which events may have happened. The laws of its phase speak of it.
    pub fn over(net: Net<Node>) -> World
        requires { IsWorld net }
        ensures world { result ≡ net }
        ensures laws { KeepsLaws result }
    {
        every_world_obeys_the_laws();
        World { net }
    }
}
