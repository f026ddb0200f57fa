//! Exactly one real, over every list of events; and what it is: its calls replayed.
//!
//! An entity that the world has once, and that no one reaps, is in one cell or in one hand-over after every event, whatever the order of
//! the events; so two cells never execute calls of the same entity (BigWorld Server Overview: an entity has one real). Its state, version
//! and public version are those that its further calls, one after the other, make of the real at the start.
//!
//! The invariants that carry this are definitions: what fits of an entity wherever it is (`specs/Fits`), and what is yet to do, a number
//! that no step raises and that has versions, beats and generations in it, so that they stay small (`specs/Burdens`).
//!
//! For callers, of `proofs/`: `OneReal` (an event and a list of events), `Counting` (holders and the one place), `Gone` (a Reap, and an
//! entity that no one has), `Easing` (what is yet to do after an event), `Paying` (orders that weigh no less than what is sent for them),
//! `Handling` and `RealsKept` (what each move does with the real), `Replaying` (the calls that it executed), `Sparing` (an entity that no
//! one reaps), `ExampleMet` (the example, node by node), `Plain` (sends that carry no real and are no reap), `HeldCounts` (held calls after
//! an offer) and `Holds` (that they all pass a test, and what two tests pass).

ghost use Rattle.std.specs.Prelude.{◌≡◌, ℕ, ◌<◌, ◌≤◌, List, length, Some};
ghost use Rattle.seam_node_steps.specs.Prelude.{happens, run, AllEnabled, Occurs, Event, RealView, Reap, holders, World};
ghost use Rattle.seam_node_steps.specs.Prelude.{node_steps, node_has_work, loaded, empty_world};
ghost use Rattle.seam_law_flow.specs.Prelude.{letter_in, TokenPlace, Nobody};
ghost use Rattle.seam_law_calls.specs.Prelude.{Frame, IsInFrame, mine, has_of, entity_flow, burden, events_of, real_in, real_of, IsOne};
ghost use Rattle.seam_law_calls.specs.Prelude.{IsSpared, AllFits, IsFrame, HasOne, OneFrom, NoReapComes, RunsTo};
ghost use Rattle.seam_node_steps.specs.EarlyCall as early;
ghost use Rattle.seam_law_calls.specs.HandOverExample as example;

/// An entity that fits, has one holder and is not reaped has one holder after every list of events.
pub fn exactly_one_real()
    ensures { (f : Frame) (e ty : ℕ) (w v : World) (es : List Event) → IsFrame f →
        ty < length f.defs → AllFits f e ty w → IsSpared e w → holders w e ≡ 1 → RunsTo w es v →
        holders v e ≡ 1 }
{}

/// Its one real, wherever it is then, is the one at the start after further calls: they are appended to its list of done calls, its
/// state is that after their deeds, its version rose by their number, and its public version is the version at the last of them that
/// others may see. All that fitted still fits.
pub fn reals_replay_their_calls()
    ensures { (f : Frame) (e ty : ℕ) (w v : World) (es : List Event) → IsFrame f →
        ty < length f.defs → AllFits f e ty w → IsSpared e w → (p : TokenPlace) (r : RealView) →
        IsOne e w p r → RunsTo w es v → OneFrom f e ty r v }
{}

/// An entity that may be reaped has one holder as long as no Reap of it comes to a node. A Reap that comes to the cell of its real leaves
/// it none, and an entity that no one has stays gone.
pub fn a_reap_ends_the_one_real()
    ensures until { (f : Frame) (e ty : ℕ) (w : World) (es : List Event) → IsFrame f →
        ty < length f.defs → (h : HasOne f e ty w) → AllEnabled node_has_work node_steps w es →
        NoReapComes e w es → OneFrom f e ty h.real (run node_steps w es) }
    ensures ends { (f : Frame) (e ty : ℕ) (w : World) (v : Event) (o : Occurs w v) (r : RealView) →
        IsFrame f → HasOne f e ty w → letter_in (mine e) o.input ≡ Some (Reap e) →
        real_in (has_of e o.node) ≡ Some r → holders (happens node_steps w v) e ≡ 0 }
    ensures gone { (f : Frame) (e : ℕ) (w v : World) (es : List Event) → IsFrame f → IsInFrame f w →
        holders w e ≡ 0 → RunsTo w es v → holders v e ≡ 0 }
{}

/// An entity has one holder exactly where its one real is at one place, and none exactly where nobody has it.
pub fn holders_are_at_one_place()
    ensures one { (w : World) (e : ℕ) → holders w e ≡ 1 → (p : TokenPlace) × (r : RealView) ×
        IsOne e w p r }
    ensures counts { (w : World) (e : ℕ) (p : TokenPlace) (r : RealView) → IsOne e w p r →
        holders w e ≡ 1 }
    ensures none { (w : World) (e : ℕ) → holders w e ≡ 0 →
        Nobody real_in real_of (entity_flow e w) }
    ensures nobody { (w : World) (e : ℕ) → Nobody real_in real_of (entity_flow e w) →
        holders w e ≡ 0 }
{}

/// What an entity has yet to do, its version, beat and generation among it, is never more than at the start.
pub fn numbers_stay_small()
    ensures { (f : Frame) (e : ℕ) (w v : World) (es : List Event) → IsInFrame f w → RunsTo w es v →
        burden e v ≤ burden e w }
{}

/// What these laws ask of a world is true of one that a load made: two cells, an entity and three calls of two senders; and a run of it
/// hands the entity over.
pub fn a_loaded_world_has_what_the_laws_ask()
    ensures frame { IsFrame example.frame }
    ensures load { loaded empty_world early.batch ≡ early.world_0 }
    ensures fits { AllFits example.frame 1 0 early.world_0 }
    ensures spared { IsSpared 1 early.world_0 }
    ensures one { holders early.world_0 1 ≡ 1 }
    ensures handed_over { RunsTo early.world_0 (events_of early.steps) early.world_12 }
{
    seam_node_steps::rows::an_early_call_is_held();
}
