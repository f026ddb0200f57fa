// SPDX-License-Identifier: MIT

// Each phase of a round ends, by the records between rounds alone: what a world keeps from one round to the next bounds all three phases.
//
// The bounds of `measure` ask that base parts and clients hold nothing and that views name what is there (`specs/Records`). Both hold of an
// opened world, and a whole round keeps them, beside the records of `seam_law_all`: after it the views name what is there since each
// witness looked after the reaps, and a look leaves no one in view who is not known.

ghost use Rattle.std.specs.Prelude.{◌≡◌, ℕ, ◌*◌, ◌≤◌, List, length};
ghost use Rattle.seam_node_steps.specs.Prelude.{IsQuiet, Event, Settings, TypeDef, GhostsReach, Batch, World};
ghost use Rattle.seam_node_steps.specs.Prelude.{node_has_work, opened, loaded, look_loaded};
ghost use Rattle.seam_law_calls.specs.Prelude.{Frame, IsFrame, RunsTo};
ghost use Rattle.seam_law_rounds.specs.Prelude.{IsBetweenRounds, framed, first_frame, MayBeLoaded, HasPartsBetweenRounds, HasSmallNumbers};
ghost use Rattle.seam_law_ghosts.specs.Prelude.{AreCopiesBetweenRounds, GoesThroughRound};
ghost use Rattle.seam_law_clients.specs.Prelude.{clients_loaded, clients_shown};
ghost use Rattle.seam_law_all.specs.Prelude.{KeepsRecords, MayBeGiven};
ghost use Rattle.seam_law_bounds.specs.Prelude.{IsBounded, EachSeenIsHeld, HoldsNothing, entities, all_witnesses, cell_orders};
ghost use Rattle.seam_law_bounds.specs.Prelude.{base_orders, tick_orders, events_of_round, events_of_looks};
ghost use Rattle.seam_rule_clients.specs.Clients.{ClientReplica};

/// What bounds a round holds of an opened world, and again after each round: base parts and clients hold nothing (`nothing`), and views
/// name what is there (`views`), since each witness looked last (`looks`), whatever it had in view before.
pub fn a_round_keeps_what_bounds_it()
    ensures opened { (defs : List TypeDef) (settings : Settings) →
        IsFrame (first_frame defs settings) → 1 ≤ settings.bases →
        HoldsNothing (opened defs settings) × EachSeenIsHeld (opened defs settings) }
    ensures looks { (f : Frame) (u : World) → IsBetweenRounds f u → HasPartsBetweenRounds f u →
        HasSmallNumbers f u → AreCopiesBetweenRounds f u → (vs : List Event) (v : World) →
        RunsTo (look_loaded u) vs v → IsQuiet node_has_work v → EachSeenIsHeld v }
    ensures nothing { (f : Frame) (w : World) (b : Batch) → MayBeLoaded f w b →
        AreCopiesBetweenRounds f w → HoldsNothing w → (v : World) → GoesThroughRound w b v →
        IsQuiet node_has_work v → HoldsNothing v }
    ensures views { (f : Frame) (w : World) (b : Batch) → MayBeLoaded f w b →
        AreCopiesBetweenRounds f w → (v : World) → GoesThroughRound w b v →
        IsQuiet node_has_work v → EachSeenIsHeld v }
{
    seam_defs::laws::others_see_the_ghost();
    crate::nothing_held_goes_from_record_to_record();
    crate::what_is_seen_is_held();
    crate::reaps_end();
}

/// So each phase of a round ends, by the records alone. Its calls, ticks among them, end within the table of a round, and its reaps within
/// eighteen events for each. Its looks end within the table of looks, by the entities of the loaded world, those that die in the round
/// among them, and by the witnesses that are left.
pub fn each_phase_of_a_round_ends()
    ensures calls { (f : Frame) (w : World) (b : Batch) → MayBeLoaded f w b →
        AreCopiesBetweenRounds f w → HoldsNothing w → EachSeenIsHeld w →
        (v : World) (es : List Event) → RunsTo (loaded w b) es v →
        length es ≤ events_of_round f.settings.bases (cell_orders b) (base_orders b) (tick_orders b)
        (entities (loaded w b)) (all_witnesses (loaded w b)) }
    ensures reaps { (f : Frame) (w : World) (b : Batch) → MayBeLoaded f w b →
        AreCopiesBetweenRounds f w → HoldsNothing w → (v : World) →
        (round : GoesThroughRound w b v) → length round.reap_events ≤ 18 * length round.gone }
    ensures looks { (f : Frame) (w : World) (b : Batch) → MayBeLoaded f w b →
        AreCopiesBetweenRounds f w → HoldsNothing w → EachSeenIsHeld w → (v : World) →
        (round : GoesThroughRound w b v) → length round.look_events
        ≤ events_of_looks (entities (loaded w b)) (all_witnesses round.reaped) }
{
    crate::nothing_held_goes_from_record_to_record();
    crate::a_round_ends();
    crate::reaps_end();
    crate::looks_are_about_what_there_is();
    crate::looks_end();
}

/// Both records together: they hold of a world as it is opened, whatever its clients show, and again at the end of each round of a batch
/// that fits, of the clients that were shown what their proxies showed in it.
pub fn a_round_keeps_the_records()
    ensures opened { (defs : List TypeDef) (settings : Settings) →
        IsFrame (first_frame defs settings) → 1 ≤ settings.bases → GhostsReach settings →
        (clients : ℕ → ClientReplica) → KeepsRecords (first_frame defs settings) clients
        (opened defs settings) × IsBounded (opened defs settings) }
    ensures round { (f : Frame) (clients : ℕ → ClientReplica) (w : World) (b : Batch) →
        KeepsRecords f clients w → IsBounded w → MayBeGiven f w b → (v : World) →
        GoesThroughRound w b v → IsQuiet node_has_work v →
        KeepsRecords (framed f b) (clients_shown (framed f b) (clients_loaded f b clients) v) v ×
        IsBounded v }
{
    seam_law_rounds::a_round_goes_from_record_to_record();
    seam_law_rounds::base_parts_go_from_record_to_record();
    seam_law_ghosts::copies_go_from_record_to_record();
    seam_law_ghosts::a_round_keeps_the_record_of_places();
    seam_law_clients::clients_go_from_record_to_record();
    seam_law_all::an_opened_world_keeps_the_records();
    a_round_keeps_what_bounds_it();
}
