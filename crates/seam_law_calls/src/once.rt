//! Each call once, over every list of events: calls to cell parts.
//!
//! Any sender's calls to an entity's cell part wait in a base node's orders, on links, where they are passed on as the real is handed over,
//! or with the real, which may itself be on its way. Of each sender's calls the real has executed the first ones, in the order of their
//! numbers; each of the others waits at one place alone, and no other number waits. So no call is lost, none is executed twice, and a call
//! that comes to the real is never late and never held already; in a quiet world all are executed (BigWorld Server Programming Guide:
//! messages to an entity arrive in order; sequence numbers, as of the Transmission Control Protocol).
//!
//! What a world is to one sender is in `specs/CellTurns`: each step of a node is one or two of the moves of `seam_law_flow`, for each
//! sender.
//!
//! For callers, of `proofs/`: `CellRuns` (an event and a list of events) and `Quieting` (what is not there in a quiet world).

ghost use Rattle.std.specs.Prelude.{◌≡◌, ℕ, ◌+◌, ◌<◌, List, ◌∷◌, length, Some};
ghost use Rattle.seam_node_steps.specs.Prelude.{IsQuiet, Event, Call as CallData, RealView, Msg, limit, World};
ghost use Rattle.seam_node_steps.specs.Prelude.{node_has_work};
ghost use Rattle.seam_law_flow.specs.Prelude.{letters_of};
ghost use Rattle.seam_law_calls.specs.Prelude.{Frame, entity_flow, burden, HasOne, IsSpared, IsFrame, AllLead, from_sender};
ghost use Rattle.seam_law_calls.specs.Prelude.{AreCallsOf, CellCallsInTurn, FindsTurn, RunsTo, real_at};
ghost use Rattle.seam_entity.specs.declared.message.Msg.TheVariants.{Call};

/// Let a world have an entity that fits, has one real and is not reaped, and let calls find their way. If each sender's calls to the cell
/// part are in turn, and the numbers have room for one more, the calls are in turn after every list of events.
pub fn each_cell_call_waits_once()
    ensures { (f : Frame) (e ty : ℕ) (w v : World) (es : List Event) → IsFrame f →
        ty < length f.defs → HasOne f e ty w → IsSpared e w → AllLead (entity_flow e w) →
        (first : ℕ → ℕ) (batch : ℕ → List CallData) → AreCallsOf f e ty batch →
        CellCallsInTurn e first batch w → burden e w + 1 < limit → RunsTo w es v →
        CellCallsInTurn e first batch v }
{}

/// A call that is the first of its link in such a world finds a cell with the real or the next place, and the real may be offered it: it
/// is not stray, not late, and not held already.
pub fn a_cell_call_is_never_stray()
    ensures { (f : Frame) (e ty : ℕ) (w : World) → IsFrame f → ty < length f.defs →
        HasOne f e ty w → IsSpared e w → AllLead (entity_flow e w) →
        (first : ℕ → ℕ) (batch : ℕ → List CallData) → AreCallsOf f e ty batch →
        CellCallsInTurn e first batch w → burden e w + 1 < limit →
        (a k : ℕ) (c : CallData) (ms : List Msg) → (entity_flow e w).mail a k ≡ Call c ∷ ms →
        FindsTurn f k ((entity_flow e w).slot k) c }
{}

/// Where a list of events leaves such a world quiet, the real has executed all calls of each sender, in the order of their numbers.
pub fn all_cell_calls_are_executed()
    ensures { (f : Frame) (e ty : ℕ) (w v : World) (es : List Event) → IsFrame f →
        ty < length f.defs → HasOne f e ty w → IsSpared e w → AllLead (entity_flow e w) →
        (first : ℕ → ℕ) (batch : ℕ → List CallData) → AreCallsOf f e ty batch →
        CellCallsInTurn e first batch w → burden e w + 1 < limit → RunsTo w es v →
        IsQuiet node_has_work v → (k : ℕ) (r : RealView) → real_at e v k ≡ Some r → (s : ℕ) →
        letters_of (from_sender s) r.done ≡ batch s }
{}
