//! Laws of the definitions of nets, each on a function that does nothing.

ghost use Rattle.std.specs.Prelude.{◌≡◌, ℕ, ◌+◌, ◌*◌, ◌<◌, [], length, Bool, true, false, Some, slice_get, slice_index_or};
ghost use Rattle.seam_machine.specs.declared.machines.Input.{Input};
ghost use Rattle.seam_machine.specs.declared.machines.Event.{Event};
ghost use Rattle.seam_machine.specs.Views.{Stepped, NetView, PartsView};
ghost use Rattle.seam_machine.specs.Nets.{link, enabled, happens, with_node, IsQuiet, IsSquare, AreParts};
ghost use Rattle.seam_machine.specs.Events.{Occurs, EachNode, EachLink};

/// An enabled event has a node and what it is fed, and a task is fed where it is there. An event gives its node what the step
/// gives, and leaves the other nodes as they are.
pub fn an_event_leaves_the_others<N, T>()
    ensures own { (steps : N → Input T → Stepped N T) (w : NetView N T) (e : Event) (o : Occurs w e)
        → slice_get (happens steps w e).nodes e.node ≡ Some (steps o.node o.input).state }
    ensures others { (steps : N → Input T → Stepped N T) (w : NetView N T) (e : Event)
        (o : Occurs w e) (j : ℕ) → (j ≡ e.node → ⊥) → slice_get (happens steps w e).nodes j
        ≡ slice_get w.nodes j }
    ensures enabled { (has_work : N → Bool) (w : NetView N T) (e : Event) →
        enabled has_work w e ≡ true → Occurs w e }
    ensures task { (has_work : N → Bool) (w : NetView N T) (e : Event) (o : Occurs w e) →
        enabled has_work w e ≡ true → o.input ≡ Input.Task → has_work o.node ≡ true }
{}

/// A net is quiet exactly where every link is empty and no node has a task.
pub fn quiet_is_empty<N, T>()
    ensures links { (has_work : N → Bool) (w : NetView N T) → IsSquare w → IsQuiet has_work w →
        EachLink (λ a b l. l ≡ []) w.rows }
    ensures tasks { (has_work : N → Bool) (w : NetView N T) → IsQuiet has_work w →
        EachNode (λ k s. has_work s ≡ false) w.nodes }
    ensures quiet { (has_work : N → Bool) (w : NetView N T) → EachLink (λ a b l. l ≡ []) w.rows →
        EachNode (λ k s. has_work s ≡ false) w.nodes → IsQuiet has_work w }
{}

/// Parts are the parts of one net alone; with n nodes, the link from a to b is at place `a * n + b`.
pub fn parts_are_the_net<N, T>()
    ensures same { (p : PartsView N T) (w v : NetView N T) → AreParts p w → AreParts p v → w ≡ v }
    ensures many { (p : PartsView N T) (w : NetView N T) → AreParts p w →
        length p.links ≡ length p.nodes * length p.nodes }
    ensures places { (p : PartsView N T) (w : NetView N T) (a b : ℕ) → AreParts p w →
        a < length p.nodes → b < length p.nodes → slice_index_or p.links (a * length p.nodes + b) []
        ≡ link w.rows a b }
{}

/// A net whose node is put back as it was is the same net.
pub fn a_node_put_back_changes_nothing<N, T>()
    ensures { (w : NetView N T) (k : ℕ) (s : N) → slice_get w.nodes k ≡ Some s →
        with_node w k s ≡ w }
{}
