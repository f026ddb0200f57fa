//! Laws of runs of nets, each on a function that does nothing: what is proved here of every net, every event and every run.
//!
//! A law over any fact has the fact as a ghost member of a type parameter.

ghost use Rattle.std.specs.Prelude.{◌≡◌, ℕ, ◌+◌, ◌*◌, ◌≤◌, List, [], ◌∷◌, ◌++◌, length, Bool, true, Option, Some, drop, filter_map};
ghost use Rattle.std.specs.List.{range_with_len};
ghost use Rattle.std.specs.Ordering.{nat_cmp};
ghost use Rattle.std.specs.FinMap as map;
ghost use Rattle.seam_machine.specs.declared.machines.Input.{Input};
ghost use Rattle.seam_machine.specs.declared.machines.Event.{Event};
ghost use Rattle.seam_machine.specs.Views.{Stepped, NetView};
ghost use Rattle.seam_machine.specs.Sends.{AllBelow};
ghost use Rattle.seam_machine.specs.Nets.{link, enabled, happens, run, LeadsTo, IsSquare};
ghost use Rattle.seam_machine.specs.Events.{Occurs, EachNode, EachLink, link_left, link_added};
ghost use Rattle.seam_net_runs.specs.Weights.{weight, input_weight, sent_weight, counted, Lowers};
ghost use Rattle.seam_net_runs.specs.Sums.{weight_or, map_total};
ghost use Rattle.seam_net_runs.specs.Kept.{StaysTrue};
ghost use Rattle.seam_net_runs.specs.Sound.{IsSound};
ghost use Rattle.seam_net_runs.specs.Seen.{seen, SeesSteps, SeesWork};

use seam_machine::Machine;
use std::marker::Brand;

/// A fact about nets.
pub trait NetFact<N, T> {
    ghost use Rattle.seam_machine.specs.Views.{NetView};

    ghost holds: { NetView N T → Type 0 };
}

impl<N, T> NetFact<N, T> for Brand {
    ghost holds = { λ _. Unit {0} };
}

/// A number that each net has.
pub trait NetMeasure<N, T> {
    ghost use Rattle.std.specs.Prelude.{ℕ, Bool};
    ghost use Rattle.seam_machine.specs.Views.{NetView};
    ghost use Rattle.seam_machine.specs.declared.machines.Event.{Event};

    ghost number: { NetView N T → ℕ };

    ghost kind: { NetView N T → Event → Bool };
}

impl<N, T> NetMeasure<N, T> for Brand {
    ghost use Rattle.std.specs.Prelude.{true};

    ghost number = { λ _. 0 };

    ghost kind = { λ _ _. true };
}

/// A fact about a node, with its number.
pub trait NodeFact<N> {
    ghost use Rattle.std.specs.Prelude.{ℕ};

    ghost is: { ℕ → N → Type 0 };
}

impl<N> NodeFact<N> for Brand {
    ghost is = { λ _ _. Unit {0} };
}

/// A fact about a link, with the numbers of its ends.
pub trait LinkFact<T> {
    ghost use Rattle.std.specs.Prelude.{ℕ, List};

    ghost is: { ℕ → ℕ → List T → Type 0 };
}

impl<T> LinkFact<T> for Brand {
    ghost is = { λ _ _ _. Unit {0} };
}

/// A run of two lists of events, one after the other, is a run of both; and a run of both is one of each.
pub fn runs_join<N, T>()
    ensures joined { (has_work : N → Bool) (steps : N → Input T → Stepped N T) (w v u : NetView N T)
        (es ds : List Event) → LeadsTo has_work steps w es v → LeadsTo has_work steps v ds u →
        LeadsTo has_work steps w (es ++ ds) u }
    ensures parted { (has_work : N → Bool) (steps : N → Input T → Stepped N T) (w u : NetView N T)
        (es ds : List Event) → LeadsTo has_work steps w (es ++ ds) u →
        LeadsTo has_work steps w es (run steps w es) × LeadsTo has_work steps (run steps w es) ds
        u }
{}

/// No event leads to the same net, and a run is extended by one enabled event.
pub fn runs_extend<N, T>()
    ensures empty { (has_work : N → Bool) (steps : N → Input T → Stepped N T) (w : NetView N T) →
        LeadsTo has_work steps w [] w }
    ensures more { (has_work : N → Bool) (steps : N → Input T → Stepped N T) (w v : NetView N T)
        (es : List Event) (e : Event) → LeadsTo has_work steps w es v →
        enabled has_work v e ≡ true → LeadsTo has_work steps w (es ++ e ∷ []) (happens steps v e) }
{}

/// A fact that each enabled event keeps holds after every run.
pub fn runs_keep<N, T, F: NetFact<N, T>>()
    ensures { (has_work : N → Bool) (steps : N → Input T → Stepped N T) →
        ((w : NetView N T) (e : Event) → F.holds w → enabled has_work w e ≡ true →
        F.holds (happens steps w e)) → (w v : NetView N T) (es : List Event) → F.holds w →
        LeadsTo has_work steps w es v → F.holds v }
{}

/// Where each enabled event lowers the number, but for events of a kind, which do not raise it, a run is no longer than the
/// number at its start and its events of the kind.
pub fn runs_end<N, T, F: NetFact<N, T>, G: NetMeasure<N, T>>()
    ensures { (has_work : N → Bool) (steps : N → Input T → Stepped N T) →
        ((w : NetView N T) (e : Event) → F.holds w → enabled has_work w e ≡ true →
        F.holds (happens steps w e) × Lowers steps G.kind G.number w e) →
        (w v : NetView N T) (es : List Event) → F.holds w → LeadsTo has_work steps w es v →
        length es + G.number v ≤ G.number w + counted steps G.kind w es }
{}

/// Each link after an event is exactly what was left of it and what the step added at its end.
pub fn links_are_exact<N, T>()
    ensures { (steps : N → Input T → Stepped N T) (w : NetView N T) (e : Event) (o : Occurs w e) →
        IsSquare w → AllBelow (length w.nodes) (steps o.node o.input).sent → (x y : ℕ) →
        link (happens steps w e).rows x y ≡ link_left w.rows e.node e.from x y
        ++ link_added e.node (steps o.node o.input).sent x y }
{}

/// The weight of a net, where a message weighs by the node to which it goes. An event changes it as the step changes the weight of the
/// node, of its input and of what it sends (`moved`): so what a step keeps, lowers or raises, the event does. A node and its input weigh at
/// most what the net weighs (`bound`).
pub fn weights_move<N, T>()
    ensures moved { (f : N → ℕ) (g : ℕ → T → ℕ) (steps : N → Input T →
        Stepped N T) (w : NetView N T) (e : Event) (o : Occurs w e) → IsSquare w →
        AllBelow (length w.nodes) (steps o.node o.input).sent →
        weight f g (happens steps w e) + (f o.node + input_weight g e.node o.input)
        ≡ weight f g w + (f (steps o.node o.input).state + sent_weight g
        (steps o.node o.input).sent) }
    ensures bound { (f : N → ℕ) (g : ℕ → T → ℕ) (w : NetView N T) (e : Event) (o : Occurs w e) →
        f o.node + input_weight g e.node o.input ≤ weight f g w }
{}

/// A fact about each node stays true where it is true of the node that made the step.
pub fn each_node_is_kept<N, T, P: NodeFact<N>>()
    ensures { (steps : N → Input T → Stepped N T) (w : NetView N T) (e : Event) (o : Occurs w e) →
        EachNode P.is w.nodes → P.is e.node (steps o.node o.input).state →
        EachNode P.is (happens steps w e).nodes }
{}

/// A fact about each link stays true where it is true of what is left of the link that the event fed from, and stays true of the
/// node's links as its items are put.
pub fn each_link_is_kept<N, T, Q: LinkFact<T>>()
    ensures { (steps : N → Input T → Stepped N T) (w : NetView N T) (e : Event) (o : Occurs w e) →
        EachLink Q.is w.rows →
        ((a : ℕ) → e.from ≡ Some a → Q.is a e.node (drop 1 (link w.rows a e.node))) →
        StaysTrue Q.is e.node (steps o.node o.input).sent → EachLink Q.is (happens steps w e).rows }
{}

/// A sound net of machines stays sound over every run, and its nodes send to its nodes alone.
pub fn soundness_is_kept<M: Machine>()
    ensures kept { (w v : NetView M M.Msg) (es : List Event) → IsSound M.peer_count M.valid w →
        LeadsTo M.has_work M.steps w es v → IsSound M.peer_count M.valid v }
    ensures sends { (w : NetView M M.Msg) (e : Event) (o : Occurs w e) →
        IsSound M.peer_count M.valid w → AllBelow (length w.nodes) (M.steps o.node o.input).sent }
{}

/// Let a function see each step of a node as a step of what it makes of the node. Then it sees each event and each run of a net of nodes as
/// that event and that run of the net that it sees. An event is enabled where it is seen to be.
pub fn nets_are_seen<N, V, T>()
    ensures event { (f : N → V) (steps : N → Input T → Stepped N T) (seen_steps : V → Input T →
        Stepped V T) → SeesSteps f steps seen_steps → (w : NetView N T) (e : Event) →
        seen f (happens steps w e) ≡ happens seen_steps (seen f w) e }
    ensures run { (f : N → V) (has_work : N → Bool) (seen_work : V → Bool) (steps : N → Input T →
        Stepped N T) (seen_steps : V → Input T → Stepped V T) → SeesSteps f steps seen_steps →
        SeesWork f has_work seen_work → (w v : NetView N T) (es : List Event) →
        LeadsTo has_work steps w es v → LeadsTo seen_work seen_steps (seen f w) es (seen f v) }
    ensures enabled { (f : N → V) (has_work : N → Bool) (seen_work : V → Bool) →
        SeesWork f has_work seen_work → (w : NetView N T) (e : Event) →
        enabled seen_work (seen f w) e ≡ enabled has_work w e }
{}

/// What the values of a finite map weigh together, after a value was put and after one was removed.
pub fn a_map_weighs_its_values<X>()
    ensures put { (f : X → ℕ) (m : map.FinMap nat_cmp X) (k : ℕ) (x : X) →
        map_total f (map.insert m k x) + weight_or f (map.get m k) ≡ map_total f m + f x }
    ensures removed { (f : X → ℕ) (m : map.FinMap nat_cmp X) (k : ℕ) →
        map_total f (map.remove m k) + weight_or f (map.get m k) ≡ map_total f m }
{}

/// Where what is chosen for each node of a range weighs at most so much, what is sent weighs at most that for each node.
pub fn chosen_sends_are_bounded<T>()
    ensures { (g : ℕ → T → ℕ) (f : ℕ → Option (ℕ × T)) (most from len : ℕ) →
        ((k : ℕ) → weight_or (λ p. g p.0 p.1) (f k) ≤ most) →
        sent_weight g (filter_map f (range_with_len from len)) ≤ len * most }
{}
