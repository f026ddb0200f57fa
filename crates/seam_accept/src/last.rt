// The numbers of the last calls to a part of an entity.
ghost use Rattle.std.specs.Prelude.{◌≡◌, OnOk, OnErr, cond};
ghost use Rattle.seam_call.specs.Senders.{IsSender, same_sender};
ghost use Rattle.seam_call.specs.declared.sender.Sender.{Sender as Senders};
ghost use Rattle.seam_accept.specs.Last.{number_of, kept_of, no_calls};

use seam_call::Sender;
use seam_defs::MOST_BASE_NODES;
use std::alloc::{AllocError, Global};
use std::collections::BTreeMap;
use std::marker::Model;

/// For each sender the number of its last call to a part, 0 where there was none.
#[derive(Drop)]
pub struct LastCalls {
    // Made at the first call, since most parts of most entities have none.
    kept: Option<Box<Kept>>,
}

impl Model for LastCalls {
    ghost use Rattle.std.specs.Prelude.{option_map, unwrap_or};
    ghost use Rattle.seam_accept.specs.Last.{LastView, kept_in, no_calls};

    ghost Value = { LastView };

    ghost view = { λ l. unwrap_or (option_map kept_in l.kept) no_calls };
}

impl LastCalls {
    /// No sender has called.
    pub fn new() -> Self
        ensures { (s : Senders) → IsSender s → number_of result s ≡ 0 }
    {
        LastCalls { kept: None }
    }

    /// The number of a sender's last call.
    pub fn number(&self, sender: Sender) -> u64
        ensures { result ≡ number_of self.now sender }
    {
        match &self.kept {
            Some(kept) => kept.number(sender),
            None => 0,
        }
    }

    /// Keeps the number of a sender's last call.
    pub fn keep(&mut self, alloc: Global, sender: Sender, number: u64) -> Result<(), AllocError>
        ensures kept { OnOk result ((s : Senders) → IsSender s
            → number_of self.new s ≡ cond (same_sender sender s) number (number_of self.old s)) }
        ensures unchanged { OnErr result (self.new ≡ self.old) }
    {
        match &mut self.kept {
            Some(kept) => kept.keep(sender, number),
            None => self.keep_first(alloc, sender, number),
        }
    }

    // Out of line, so that each further call costs no more than its store.
    #[inline(never)]
    fn keep_first(&mut self, alloc: Global, sender: Sender, number: u64) -> Result<(), AllocError>
        requires { self.old ≡ no_calls }
        ensures kept { OnOk result ((s : Senders) → IsSender s
            → number_of self.new s ≡ cond (same_sender sender s) number 0) }
        ensures unchanged { OnErr result (self.new ≡ self.old) }
    {
        let mut kept = Kept::new(alloc);
        kept.keep(sender, number)?;
        self.kept = Some(Box::new(alloc, kept)?);
        Ok(())
    }
}

/// For each base node and client the number of its last call, 0 where there was none.
#[derive(Drop)]
pub struct Kept {
    nodes: [u64; MOST_BASE_NODES as usize],
    clients: BTreeMap<u32, u64>,
}

impl Kept {
    // No sender has called.
    fn new(alloc: Global) -> Self
        ensures { (s : Senders) → IsSender s → number_of (kept_of result) s ≡ 0 }
    {
        Kept {
            nodes: [0; MOST_BASE_NODES as usize],
            clients: BTreeMap::new(alloc),
        }
    }

    fn number(&self, sender: Sender) -> u64
        ensures { result ≡ number_of (kept_of self.now) sender }
    {
        match sender {
            Sender::Base(node) => self.nodes[node.place()],
            Sender::Client(entity) => match self.clients.get(&entity) {
                Some(number) => *number,
                None => 0,
            },
        }
    }

    fn keep(&mut self, sender: Sender, number: u64) -> Result<(), AllocError>
        ensures kept { OnOk result ((s : Senders) → IsSender s → number_of (kept_of self.new) s
            ≡ cond (same_sender sender s) number (number_of (kept_of self.old) s)) }
        ensures unchanged { OnErr result (kept_of self.new ≡ kept_of self.old) }
    {
        match sender {
            Sender::Base(node) => {
                self.nodes[node.place()] = number;
                Ok(())
            }
            Sender::Client(entity) => self.keep_of_client(entity, number),
        }
    }

    // Out of line, so that the call of a base node costs no more than its store.
    #[inline(never)]
    fn keep_of_client(&mut self, entity: u32, number: u64) -> Result<(), AllocError>
        ensures kept { OnOk result ((s : Senders) → IsSender s → number_of (kept_of self.new) s ≡
            cond (same_sender (Sender.Client entity) s) number (number_of (kept_of self.old) s)) }
        ensures unchanged { OnErr result (kept_of self.new ≡ kept_of self.old) }
    {
        self.clients.insert(entity, number)?;
        Ok(())
    }
}
