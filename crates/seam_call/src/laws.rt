//! What holds of all senders, each on a function that does nothing.
ghost use Rattle.std.specs.Prelude.{◌≡◌, ◌<◌, ◌↔◌, ℕ, IsTrue};
ghost use Rattle.seam_call.specs.BaseNodes.{IsBaseNode};
ghost use Rattle.seam_call.specs.Senders.{IsSender, same_sender, rank_of};
ghost use Rattle.seam_call.specs.declared.sender.Sender.{Sender};
ghost use Rattle.seam_call.specs.declared.sender.Sender.TheVariants.{Base, Client};

/// Two senders are the same exactly where they are equal.
pub fn same_senders_are_equal()
    ensures { (s t : Sender) → IsTrue (same_sender s t) ↔ (s ≡ t) }
{}

/// Base nodes come before clients in the order of senders.
pub fn base_nodes_come_first()
    ensures { (n e : ℕ) → IsBaseNode n → rank_of (Base n) < rank_of (Client e) }
{}

/// No two senders have the same place in the order.
pub fn ranks_tell_senders()
    ensures { (s t : Sender) → IsSender s → IsSender t → rank_of s ≡ rank_of t → s ≡ t }
{}
