// The book of what was accepted.
ghost use Rattle.std.specs.Prelude.{◌≡◌, ◌≤◌, IsSome, None, length, IfOk, IfErr, OnOk, OnErr};
ghost use Rattle.seam_io.specs.Lines.{Content};
ghost use Rattle.seam_defs.specs.Settings.{AreInRange};
ghost use Rattle.seam_toml.specs.declared.header.Header.{Header as Headers};
ghost use Rattle.seam_rule_lines.specs.Book.{Book as Books, empty_book, open_lines, with_entry, with_round_ended, with_tree};
ghost use Rattle.seam_rule_lines.specs.Book.{created_as, live_as};
ghost use Rattle.seam_defs.specs.declared.limits.TheConstants.{MOST_BASE_NODES};
ghost use Rattle.seam_accept.specs.Commands.{command_of};
ghost use Rattle.seam_accept.specs.Entities.{IsNextCall, IsIndexOf, LivesWithoutClient};
ghost use Rattle.seam_accept.specs.Judging.{Refuses};
ghost use Rattle.seam_accept.specs.Batches.{batch_of, passes_to, node_of as node_of_sender};
ghost use Rattle.seam_accept.specs.BookView.{counted};
ghost use Rattle.seam_accept.specs.Refines.{Refines, LineAccepted, LineRefused, CommandAccepted, CommandUncounted};

use crate::answers::{Accepted, Refusal};
use crate::command::{Command, Form, read_line};
use crate::count::next_len;
use crate::entity::{Entity, keep_last};
use crate::judging::{judge_call, judge_client, judge_create, judge_destroy, make_cut, make_shift};
use indexmap::IndexMap;
use seam_call::{Batch, Call, Create, Order, Sender, base_node_of};
use seam_defs::{Listed, Part};
use seam_io::LONGEST_LINE;
use seam_rule_lines::{Entry, Header};
use seam_table::HashKey;
use seam_tree::{MOST_CELLS, Tree};
use seam_words::MOST_WORDS;
use std::alloc::{AllocError, Global};
use std::collections::BTreeSet;
use std::marker::Model;

/// The book of what was accepted. It takes the lines after a header, one after another, and gives what a round brings as a batch.
///
/// A line costs two look-ups in a hashed map at most, of a client a logarithm of the clients, of a `create` or a `destroy` one of the dead;
/// nothing for each entity.
#[derive(Drop)]
pub struct Book {
    alloc: Global,
    header: Header,
    tree: Tree,
    // the live ones, and of the dead that their numbers are used
    entities: IndexMap<u32, Entity, HashKey>,
    dead: BTreeSet<u32>,
    // the live entities that have a client
    clients: BTreeSet<u32>,
    // how many lines of the open round were kept, and what it brings
    count: usize,
    creates: Vec<Create>,
    joined: Vec<u32>,
    orders: Vec<(u8, Order)>,
    destroyed: Vec<u32>,
    balance: bool,
}

impl Model for Book {
    ghost use Rattle.seam_accept.specs.BookView.{BookView};
    ghost use Rattle.seam_defs.specs.Settings.{AreInRange};

    ghost Value = { BookView };

    ghost invariant = { λ b. AreInRange b.header.settings };

    ghost view = { λ b. record {
      header = b.header;
      tree = b.tree;
      entities = b.entities.entries;
      dead = b.dead.keys;
      clients = b.clients.keys;
      count = b.count;
      creates = b.creates.items;
      joined = b.joined.items;
      orders = b.orders.items;
      destroyed = b.destroyed.items;
      balance = b.balance;
    } };
}

impl Book {
    /// A book in which nothing was accepted, after this header.
    pub fn new(alloc: Global, header: &Header) -> Result<Book, AllocError>
        requires { AreInRange header.now.settings }
        ensures { IfOk result (Refines header.now (empty_book header.now.settings.size)) }
    {
        let settings = header.settings;
        let defs = header.defs.copy()?;
        let key = defs.hash_key();
        Ok(Book {
            alloc,
            header: Header { settings, defs },
            tree: Tree::one(settings.size),
            entities: IndexMap::with_hasher(alloc, key),
            dead: BTreeSet::new(alloc),
            clients: BTreeSet::new(alloc),
            count: 0,
            creates: Vec::new(alloc),
            joined: Vec::new(alloc),
            orders: Vec::new(alloc),
            destroyed: Vec::new(alloc),
            balance: false,
        })
    }

    /// Takes the next line: it is kept, ends the round, is skipped, or is refused for its first cause, as the book says.
    ///
    /// Where it is refused, and if allocation fails, nothing has changed.
    pub fn accept(&mut self, line: &[u8]) -> Result<Accepted, Refusal>
        requires { length line.now ≤ LONGEST_LINE }
        ensures accepted { IfOk result (λ a. (h : Headers) (b : Books) → Refines h b self.old
            → LineAccepted h b (Content line.now) a self.new) }
        ensures refused { IfErr result (λ r. (h : Headers) (b : Books) → Refines h b self.old
            → LineRefused h b (Content line.now) r) }
        ensures unchanged { OnErr result (self.new ≡ self.old) }
    {
        let mut table: [&[u8]; MOST_WORDS] = [b""; MOST_WORDS];
        match read_line(line, &mut table) {
            Ok(read) => match read {
                Some(command) => self.accept_command(&command),
                None => Ok(Accepted::Skipped),
            },
            Err(cause) => Err(Refusal::Cause(cause)),
        }
    }

    // Takes a command.
    fn accept_command(&mut self, command: &Command) -> Result<Accepted, Refusal>
        ensures accepted { IfOk result (λ a. (h : Headers) (b : Books) → Refines h b self.old
            → CommandAccepted h b command.now a self.new) }
        ensures refused { IfErr result (λ r. (h : Headers) (b : Books) → Refines h b self.old
            → Refuses h b command.now r) }
        ensures unchanged { OnErr result (self.new ≡ self.old) }
    {
        let count = next_len(self.count)?;
        let accepted = self.take(command.form())?;
        match accepted {
            Accepted::Kept => self.count = count,
            Accepted::Synced => {}
            Accepted::Skipped => {}
        }
        Ok(accepted)
    }

    // Judges a command and keeps what it adds, in all but the count.
    fn take(&mut self, form: &Form) -> Result<Accepted, Refusal>
        ensures accepted { IfOk result (λ a. (h : Headers) (b : Books) → Refines h b self.old
            → CommandUncounted h b (command_of form.now) a self.new) }
        ensures refused { IfErr result (λ r. (h : Headers) (b : Books) → Refines h b self.old
            → Refuses h b (command_of form.now) r) }
        ensures unchanged { OnErr result (self.new ≡ self.old) }
    {
        match form {
            Form::Create(words) => {
                let create = judge_create(&self.header, &self.entities, &self.dead, words)?;
                self.add_create(create)?;
            }
            Form::Call(words) => {
                let (entities, clients) = (&self.entities, &self.clients);
                let (place, call) = judge_call(self.alloc, &self.header, entities, clients, words)?;
                self.add_call(place, call)?;
            }
            Form::Sync => return Ok(Accepted::Synced),
            Form::Client(word) => {
                let entity = judge_client(&self.entities, &self.clients, word)?;
                self.add_client(entity)?;
            }
            Form::Tick => self.add_tick()?,
            Form::Cut(words) => make_cut(&mut self.tree, words)?,
            Form::Shift(words) => make_shift(&mut self.tree, words)?,
            Form::Balance => self.balance = true,
            Form::Destroy(word) => {
                let entity = judge_destroy(&self.entities, word)?;
                self.add_death(entity)?;
            }
        }
        Ok(Accepted::Kept)
    }

    // Keeps a new entity.
    fn add_create(&mut self, create: Create) -> Result<(), AllocError>
        ensures kept { OnOk result ((h : Headers) (b : Books) → Refines h b self.old →
            created_as b create.entity ≡ None → Refines h (with_entry b (Entry.Created create))
            (counted self.new)) }
        ensures unchanged { OnErr result (self.new ≡ self.old) }
    {
        self.creates.reserve(1)?;
        let _ = self.entities.insert(create.entity, Entity::new(create.ty))?;
        self.creates.push_reserved(create);
        Ok(())
    }

    // Keeps a call to the entity at a place.
    fn add_call(&mut self, place: usize, call: Call) -> Result<(), AllocError>
        requires { IsIndexOf self.old.entities call.entity place }
        ensures kept { OnOk result ((h : Headers) (b : Books) → Refines h b self.old →
            IsNextCall b call → Refines h (with_entry b (Entry.Called call))
            (counted self.new)) }
        ensures unchanged { OnErr result (self.new ≡ self.old) }
    {
        self.orders.reserve(1)?;
        keep_last(self.alloc, &mut self.entities, place, &call)?;
        let node = node_of(call.sender, self.header.settings.bases);
        self.orders.push_reserved((node, order(call)));
        Ok(())
    }

    // Keeps that a live entity has a client.
    fn add_client(&mut self, entity: u32) -> Result<(), AllocError>
        ensures kept { OnOk result ((h : Headers) (b : Books) → Refines h b self.old →
            LivesWithoutClient b entity → Refines h (with_entry b (Entry.Joined entity))
            (counted self.new)) }
        ensures unchanged { OnErr result (self.new ≡ self.old) }
    {
        self.joined.reserve(1)?;
        self.clients.insert(entity)?;
        self.joined.push_reserved(entity);
        Ok(())
    }

    // Keeps that the witnesses look, which the first base node tells the cells.
    fn add_tick(&mut self) -> Result<(), AllocError>
        ensures kept { OnOk result ((h : Headers) (b : Books) → Refines h b self.old
            → Refines h (with_entry b Entry.Ticked) (counted self.new)) }
        ensures unchanged { OnErr result (self.new ≡ self.old) }
    {
        self.orders.push((MOST_CELLS as u8, Order::Tick))?;
        Ok(())
    }

    // Keeps that a live entity is destroyed, and its client with it: of the entity its number alone.
    fn add_death(&mut self, entity: u32) -> Result<(), AllocError>
        ensures kept { OnOk result ((h : Headers) (b : Books) → Refines h b self.old →
            IsSome (live_as b entity) → Refines h (with_entry b (Entry.Destroyed entity))
            (counted self.new)) }
        ensures unchanged { OnErr result (self.new ≡ self.old) }
    {
        self.destroyed.reserve(1)?;
        self.dead.insert(entity)?;
        self.clients.remove(&entity);
        self.entities.swap_remove(&entity);
        self.destroyed.push_reserved(entity);
        Ok(())
    }

    /// How many lines of the open round were kept.
    pub fn count(&self) -> usize
        ensures { (h : Headers) (b : Books) → Refines h b self.now → result ≡ open_lines b }
    {
        self.count
    }

    /// What the open round brings; the next one begins.
    pub fn take_batch(&mut self) -> Batch
        ensures batch { (h : Headers) (b : Books) → Refines h b self.old → result ≡ batch_of h b }
        ensures ended { (h : Headers) (b : Books) → Refines h b self.old →
            Refines h (with_round_ended b) self.new }
        ensures none { self.new.count ≡ 0 }
    {
        let creates = std::mem::replace(&mut self.creates, Vec::new(self.alloc));
        let clients = std::mem::replace(&mut self.joined, Vec::new(self.alloc));
        let orders = std::mem::replace(&mut self.orders, Vec::new(self.alloc));
        let destroys = std::mem::replace(&mut self.destroyed, Vec::new(self.alloc));
        let balance = std::mem::replace(&mut self.balance, false);
        self.count = 0;
        Batch {
            tree: self.tree,
            creates: Listed::of(creates),
            clients: Listed::of(clients),
            orders: Listed::of(orders),
            destroys: Listed::of(destroys),
            balance,
        }
    }

    /// Begins the open round, of which no line was kept so far, with this tree: the one that a balance made when the last round ended.
    pub fn set_tree(&mut self, tree: Tree)
        requires { self.old.count ≡ 0 }
        ensures { (h : Headers) (b : Books) → Refines h b self.old →
            Refines h (with_tree b tree) self.new }
    {
        self.tree = tree;
    }
}

// The node of a sender, among so many base nodes.
fn node_of(sender: Sender, bases: u32) -> u8
    requires from { 1 ≤ bases }
    requires most { bases ≤ MOST_BASE_NODES }
    ensures { (h : Headers) → h.settings.bases ≡ bases → result ≡ node_of_sender h sender }
{
    match sender {
        Sender::Base(node) => MOST_CELLS as u8 + node.place() as u8,
        Sender::Client(entity) => base_node_of(entity, bases),
    }
}

// The order to pass a call on to the part that it is for.
fn order(call: Call) -> Order
    ensures { result ≡ passes_to call.part call }
{
    match call.part {
        Part::Cell => Order::Cell(call),
        Part::Base => Order::Base(call),
    }
}
