//! Each call once, over every list of events: calls to base parts; and nothing that comes to a base node is stray.
//!
//! An entity's base part is at its base node and never travels. Any sender's calls to it wait among the orders of the sender's node, on the
//! link to the base node, or with the part, which holds what came early; a call that is ordered at the base node itself comes to the part
//! without a link. Of each sender's calls the part has executed the first ones, in the order of their numbers, and each of the others waits
//! at one place alone (BigWorld Server Overview, base entities and proxies; Server Programming Guide, messages to an entity arrive in
//! order).
//!
//! A part may have a client. It is shown what its witness told, in the order of its numbers, and the base part whenever that changes; so
//! its lines are no more than the updates and the calls (`specs/ClientUpdates`). How many updates there may be in a round is a question of
//! what a witness has in view, and a premise here (*HasToldAtMost*). Together with routes (`specs/Strays`) no message is stray at a base
//! node.
//!
//! The moves of a base part and of a witness are digests of the moves of a node (`specs/PartMoves`, `specs/WitnessMoves`): each law is
//! proved over them.
//!
//! For callers, of `proofs/`: `PartSteps` (each move is one of a base part's), `BaseRuns` (an event), `AloneRuns` and `ClientLeads` (a list
//! of events, without and with a client), `ClientRuns` (what an update finds), `BaseQuiet` (what a quiet world has left), `PartEasing`
//! (what a part has yet to do), `RoutesKept` (a route stays one), `NoStray` (a node with orders is a base node), `StrayRuns` (routes, and
//! that nothing is stray), `NodeStray` (the node's own tests of that), `Unknown`
//! (an entity that is not there), `BaseStrays` (the tests for all entities), `Reaped` (after a reap), `ClientTold` (what a step does with a
//! client's updates), `WitnessSteps` and `WitnessKept` (what a step does with a witness, and what stays true of it), `NoLooks` (no ticks)
//! and `BaseSilent` (what base nodes do not send).

ghost use Rattle.std.specs.Prelude.{◌≡◌, ℕ, ◌<◌, ◌≤◌, List, ◌∷◌, length, true, None, Some, is_some};
ghost use Rattle.std.specs.Prelude.{slice_get, ◌⊎◌};
ghost use Rattle.std.specs.FinMap as table;
ghost use Rattle.seam_node_steps.specs.Prelude.{IsQuiet, Event, Task, Call as CallData, Order, Msg, BaseCall, Update, BaseView};
ghost use Rattle.seam_node_steps.specs.Prelude.{PartView, base_steps, reaps_loaded, World, node_has_work};
ghost use Rattle.seam_node_steps.specs.Prelude.{Base};
ghost use Rattle.seam_law_flow.specs.Prelude.{letters_of};
ghost use Rattle.seam_law_calls.specs.Prelude.{Frame, here_at, IsInFrame, strays_at, entity_flow, IsFrame, IsSpared, HasOne};
ghost use Rattle.seam_law_calls.specs.Prelude.{from_sender, base_burden, home_of, FindsPart, HasBaseCalls, HasNoClient, shown_at};
ghost use Rattle.seam_law_calls.specs.Prelude.{HasClient, HasNoLooks, HasToldAtMost, HasRoomFor, FindsClient, HasNoBaseCalls, HasNoPart};
ghost use Rattle.seam_law_calls.specs.Prelude.{HasRoutes, LinesHaveRoom, NoneIsStray, NothingIsStray, NoneIsStrayAtBases, IsUnknown};
ghost use Rattle.seam_law_calls.specs.Prelude.{RunsTo};
ghost use Rattle.seam_call.specs.declared.order.Order.TheVariants as order;
ghost use Rattle.seam_call.specs.declared.shown.Update.{Update as UpdateData};

/// If a world has an entity's base part with its calls in turn, and no one reaps it, it has so after every list of events. `alone` says it
/// where the entity has no client, `client` where it has one and in the end its witness has told at most n updates, for which there is
/// room, and `before_looks` where no witness is to look.
pub fn each_base_call_waits_once()
    ensures alone { (f : Frame) (e ty : ℕ) (first : ℕ → ℕ) (batch : ℕ → List CallData) (w v : World)
        (es : List Event) → HasBaseCalls f e ty first batch w → HasNoClient e w → RunsTo w es v →
        HasBaseCalls f e ty first batch v × HasNoClient e v }
    ensures client { (f : Frame) (e ty : ℕ) (first : ℕ → ℕ) (batch : ℕ →
        List CallData) (update n : ℕ) (w v : World) (es : List Event) →
        HasBaseCalls f e ty first batch w → HasClient f e ty update w → HasRoomFor e n w →
        RunsTo w es v → HasToldAtMost e n v → HasBaseCalls f e ty first batch v ×
        HasClient f e ty update v }
    ensures before_looks { (f : Frame) (e ty : ℕ) (first : ℕ → ℕ) (batch : ℕ →
        List CallData) (update n : ℕ) (w v : World) (es : List Event) →
        HasBaseCalls f e ty first batch w → HasClient f e ty update w → HasToldAtMost e n w →
        HasRoomFor e n w → HasNoLooks e w → RunsTo w es v → HasBaseCalls f e ty first batch v ×
        HasClient f e ty update v }
{}

/// A call to a base part that is the first of its link in such a world comes to the entity's base node, where the part is and may be
/// offered it: it is not stray, not late, and not held already.
pub fn a_base_call_is_never_stray()
    ensures { (f : Frame) (e ty : ℕ) (first : ℕ → ℕ) (batch : ℕ → List CallData) (update n : ℕ)
        (w : World) → HasBaseCalls f e ty first batch w → LinesHaveRoom f e ty update n w →
        (a k : ℕ) (c : CallData) (ms : List Msg) → (entity_flow e w).mail a k ≡ BaseCall c ∷ ms →
        FindsPart f e k ((entity_flow e w).slot k).base c }
{}

/// Where such a world is quiet, the part has executed all calls of each sender, in the order of their numbers.
pub fn all_base_calls_are_executed()
    ensures { (f : Frame) (e ty : ℕ) (first : ℕ → ℕ) (batch : ℕ → List CallData) (w : World) →
        HasBaseCalls f e ty first batch w → IsQuiet node_has_work w → (k : ℕ) (p : PartView) →
        ((entity_flow e w).slot k).base.part ≡ Some p → (s : ℕ) → letters_of (from_sender s) p.done
        ≡ batch s }
{}

/// What the part has yet to do, its version among it, is never more than at the start.
pub fn base_numbers_stay_small()
    ensures { (f : Frame) (e : ℕ) (w v : World) (es : List Event) → IsInFrame f w → RunsTo w es v →
        base_burden e v ≤ base_burden e w }
{}

/// An update that is the first of its link comes to the base node with the client, which may be offered it: it is not stray, and not held
/// already. Where the world is quiet, the client was shown all that its witness told in this round, in order.
pub fn a_clients_updates_come_in_order()
    ensures finds { (f : Frame) (e ty update n : ℕ) (w : World) → HasClient f e ty update w →
        HasToldAtMost e n w → HasRoomFor e n w → (a k : ℕ) (u : UpdateData) (ms : List Msg) →
        (entity_flow e w).mail a k ≡ Update u ∷ ms → FindsClient f e k
        ((entity_flow e w).slot k).base u }
    ensures all { (f : Frame) (e ty update : ℕ) (w : World) (h : HasClient f e ty update w) →
        IsQuiet node_has_work w → shown_at ((entity_flow e w).slot (home_of f e)) ≡ h.issued }
{}

/// A witness tells only in looks: where the entity is in no look list and no tick is ordered or on its way, as in a round until its looks
/// are loaded, the client is told no more, whatever the calls. So the premise on what the witness tells is met by what it told before.
pub fn a_witness_tells_only_in_looks()
    ensures { (f : Frame) (e n : ℕ) (w v : World) (es : List Event) → IsInFrame f w →
        HasNoLooks e w → HasToldAtMost e n w → RunsTo w es v → HasNoLooks e v ×
        HasToldAtMost e n v }
{}

/// Each base node has a route to an entity that no one reaps, messages about it go to nodes that have a case for them, and routes on their
/// way name cells and small generations, after every list of events.
pub fn routes_are_kept()
    ensures { (f : Frame) (e ty : ℕ) (w v : World) (es : List Event) → IsFrame f →
        ty < length f.defs → HasOne f e ty w → IsSpared e w → HasRoutes f e w → RunsTo w es v →
        HasRoutes f e v }
{}

/// So nothing about the entity is stray at a base node: no message that is the first of its link, no order that is a node's first, and no
/// part whose turn it is. That holds in such a world (`now`), and after every list of events, without a client (`alone`) and with one
/// (`client`). It is said by what the node has of the entity, and so by the node's own tests (`node`).
pub fn nothing_is_stray_at_a_base_node()
    ensures now { (f : Frame) (e ty : ℕ) (first : ℕ → ℕ) (batch : ℕ → List CallData) (update n : ℕ)
        (w : World) → HasBaseCalls f e ty first batch w → HasRoutes f e w →
        LinesHaveRoom f e ty update n w → NothingIsStray f e w }
    ensures alone { (f : Frame) (e ty : ℕ) (first : ℕ → ℕ) (batch : ℕ → List CallData) (w v : World)
        (es : List Event) → IsFrame f → ty < length f.defs → HasOne f e ty w →
        HasBaseCalls f e ty first batch w → HasRoutes f e w → HasNoClient e w → RunsTo w es v →
        NothingIsStray f e v }
    ensures client { (f : Frame) (e ty : ℕ) (first : ℕ → ℕ) (batch : ℕ →
        List CallData) (update n : ℕ) (w v : World) (es : List Event) →
        HasBaseCalls f e ty first batch w → HasRoutes f e w → HasClient f e ty update w →
        HasRoomFor e n w → RunsTo w es v → HasToldAtMost e n v → NothingIsStray f e v }
    ensures node { (f : Frame) (e : ℕ) (w : World) → IsInFrame f w → NothingIsStray f e w →
        (k : ℕ) (b : BaseView) → slice_get w.nodes k ≡ Some (Base b) → NoneIsStray e w k b }
{}

/// Of an entity that is not there, nothing is due or on its way but ticks, which concern each entity and go to cells (`specs/Unknown`).
/// It stays so over every list of events.
pub fn an_unknown_entity_stays_unknown()
    ensures { (f : Frame) (e : ℕ) (w v : World) (es : List Event) → IsUnknown f e w →
        RunsTo w es v → IsUnknown f e v }
{}

/// So no input of a base node is stray, whatever entity it is about, where each entity is one about which nothing is stray, or one that is
/// not there: no message that is the first of its link, no order that is the node's first, no ready call and no ready update.
pub fn no_input_of_a_base_node_is_stray()
    ensures { (f : Frame) (w : World) → IsInFrame f w →
        ((e : ℕ) → NothingIsStray f e w ⊎ IsUnknown f e w) → NoneIsStrayAtBases w }
{}

/// The order to reap an entity leaves no base part at its node (`ends`), and an entity whose part is gone gets none (`gone`). A call that
/// came then would find no part, and be stray (`stray`). But none comes: reaps are loaded into a quiet world, where no call is ordered or
/// on its way, and without a call none comes from anywhere (`silent`).
pub fn a_reap_ends_the_base_part()
    ensures ends { (b : BaseView) (e : ℕ) (os : List Order) → b.orders ≡ order.Reap e ∷ os →
        is_some (table.get b.routes e) ≡ true → table.get (base_steps b Task).state.parts e ≡ None }
    ensures gone { (f : Frame) (e : ℕ) (w v : World) (es : List Event) → IsInFrame f w →
        HasNoPart e w → RunsTo w es v → HasNoPart e v }
    ensures stray { (f : Frame) (e k : ℕ) (c : CallData) (w : World) → HasNoPart e w →
        strays_at (here_at f k) ((entity_flow e w).slot k).base (BaseCall c) ≡ true }
    ensures silent { (f : Frame) (e : ℕ) (xs : List ℕ) (w v : World) (es : List Event) →
        IsInFrame f w → IsQuiet node_has_work w → IsInFrame f (reaps_loaded w xs) →
        RunsTo (reaps_loaded w xs) es v → HasNoBaseCalls e v }
{}
