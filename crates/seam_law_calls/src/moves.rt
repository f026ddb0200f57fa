//! What each step of a node does with one entity: the moves of its flow, a kind of move for each case.
//!
//! A world of many entities is, for each of them, a flow of what the nodes have of it and of the messages that concern it (those that name
//! it, and ticks). Each step of a cell or a base node is one of the moves of `specs/CellMoves` and `specs/BaseMoves`, whatever the entity;
//! so a law of one entity is proved over moves alone, and the cases of the steps are taken apart here only.
//!
//! For callers, of `proofs/`: `Trees` (the trees of a frame), `Classify` (a step and an event are moves, nodes as machines, the frame is
//! kept), `Keeping` (what each move keeps of slots and messages, or each event of a world, every list of events keeps), `CellDeeds` (a
//! cell's moves in eight kinds, and what it sends, by kind) and `BaseDeeds` (a base node's moves in six kinds: what it does with orders,
//! and sends for them; and what it does with its route).

ghost use Rattle.std.specs.Prelude.{◌≡◌, ℕ, true};
ghost use Rattle.seam_node_steps.specs.Prelude.{happens, enabled, Occurs, Input, IsPlainInput, Event, Msg, NodeView, World, node_steps};
ghost use Rattle.seam_node_steps.specs.Prelude.{IsNode};
ghost use Rattle.seam_law_flow.specs.Prelude.{Goes, letter_in};
ghost use Rattle.seam_law_calls.specs.Prelude.{Frame, IsAt, IsInFrame, mine, concerning, has_of, entity_flow, Moves, MovesTo};

/// A step of a node that is fed no boundaries is, for each entity, one of the moves.
pub fn a_step_is_a_move()
    ensures { (f : Frame) (e k : ℕ) (s : NodeView) (i : Input Msg) → IsNode s → IsAt f k s →
        IsPlainInput i → Moves f e k (has_of e s) (letter_in (mine e) i)
        (has_of e (node_steps s i).state) (concerning e (node_steps s i).sent) }
{}

/// An event of a world is, for each entity, a step of its flow by one of the moves, and the world's nodes go by the same frame after it.
pub fn an_event_is_a_move()
    ensures moves { (f : Frame) (w : World) (v : Event) (o : Occurs w v) → IsInFrame f w → (e : ℕ)
        → Goes (MovesTo f e) (entity_flow e w) (entity_flow e (happens node_steps w v)) }
    ensures framed { (f : Frame) (w : World) (v : Event) (o : Occurs w v) → IsInFrame f w →
        IsInFrame f (happens node_steps w v) }
{}
