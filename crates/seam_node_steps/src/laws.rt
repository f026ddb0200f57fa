//! What holds of every step of every node.

ghost use Rattle.std.specs.Prelude.{◌≡◌, ℕ, Bool, true, cond, List, ◌∷◌};
ghost use Rattle.std.specs.Ordering.{nat_cmp, eq_by_cmp};
ghost use Rattle.seam_node_steps.specs.Prelude.{Boundaries, AllBelow, Input, From, Order, Msg, Here, Slot, SlotStep, rests, slot_after};
ghost use Rattle.seam_node_steps.specs.Prelude.{is_stray, slot_steps, CellView, slot_of, with_slot, stepped, BaseView, stray_order};
ghost use Rattle.seam_node_steps.specs.Prelude.{base_steps, base_task, sends_none, NodeView, node_steps, node_peers, IsNode};
ghost use Rattle.seam_node_steps.specs.BaseCases.{is_stray as is_stray_at_base};

/// A step sends to nodes of the net alone, keeps the number of nodes, and keeps what is true of every node.
#[tactic(auto, using(crate::proofs::Targets::node_targets, crate::proofs::Peers::peers_stay, crate::proofs::Peers::node_stays_valid))]
pub fn steps_stay_in_the_net()
    ensures targets { (s : NodeView) (i : Input Msg) → IsNode s →
        AllBelow (node_peers s) (node_steps s i).sent }
    ensures peers { (s : NodeView) (i : Input Msg) → node_peers (node_steps s i).state
        ≡ node_peers s }
    ensures valid { (s : NodeView) (i : Input Msg) → IsNode s → IsNode (node_steps s i).state }
{}

/// At stray input nothing changes and nothing is sent.
#[tactic(auto, using(crate::proofs::Stray::stray_laws))]
pub fn stray_input_changes_nothing()
    ensures cell { (h : Here) (b : Boundaries) (s : Slot) (m : Msg) → is_stray h b.tree s m
        ≡ true → slot_steps h b s m ≡ rests }
    ensures base { (b : BaseView) (a : ℕ) (m : Msg) → is_stray_at_base b m ≡ true →
        base_steps b (From a m) ≡ sends_none b }
    ensures order { (b : BaseView) (o : Order) (os : List Order) → stray_order b o ≡ true →
        base_task b (o ∷ os) ≡ sends_none b }
{}

/// A change of one entity's slot changes that slot alone, and so does a step of it.
#[tactic(auto, using(crate::proofs::Slots::slot_with, crate::proofs::Slots::slot_stepped))]
pub fn slots_are_apart()
    ensures change { (c : CellView) (e q : ℕ) (s : Slot) → slot_of (with_slot c e s) q
        ≡ cond (eq_by_cmp nat_cmp q e) s (slot_of c q) }
    ensures step { (c : CellView) (e q : ℕ) (t : SlotStep) → slot_of (stepped c e t).state q
        ≡ cond (eq_by_cmp nat_cmp q e) (slot_after t.slot (slot_of c e)) (slot_of c q) }
{}
