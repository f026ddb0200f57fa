// SPDX-License-Identifier: MIT

//! All laws of a round, together: what a world keeps between rounds, and what is then true over every list of events of each phase.
//!
//! The laws are proved one by one in the crates below. Here they stand as records with a field for each, in one place: `specs/Records` has
//! what a world keeps between rounds and which batches it may be given, `specs/CallLaws`, `specs/Reaps` and `specs/LookLaws` what is true
//! in the three phases of a round, at each moment and where the phase leaves the world quiet.
//!
//! `specs/Prelude` re-exports what crates above cite of this one and of those below it, so that one import names it.
#![tactic(auto)]

ghost use Rattle.std.specs.Prelude.{◌≡◌, ℕ, ◌≤◌, List, Some};
ghost use Rattle.seam_node_steps.specs.Prelude.{IsQuiet, Event, Settings, TypeDef, GhostsReach, standard, Batch, RealView};
ghost use Rattle.seam_node_steps.specs.Prelude.{empty_world, World, node_has_work, opened, loaded, reaps_loaded, look_loaded};
ghost use Rattle.seam_law_calls.specs.Prelude.{Frame, IsFrame, RunsTo, real_at};
ghost use Rattle.seam_law_rounds.specs.Prelude.{framed, first_frame, AreReapable, opening};
ghost use Rattle.seam_law_clients.specs.Prelude.{clients_loaded, clients_shown};
ghost use Rattle.seam_law_all.specs.Prelude.{KeepsRecords, KeepsRecordsWithin, MayBeGiven, ObeysLaws, EndsRightly, ObeysLawsOfReaps};
ghost use Rattle.seam_law_all.specs.Prelude.{AreGone, ObeysLawsOfLooks, AreShownOneLook, clients_looked};
ghost use Rattle.seam_rule_clients.specs.Clients.{ClientReplica, new_client};
ghost use Rattle.seam_law_clients.specs.Crossing as crossing;

/// A world as it is opened keeps the records, whatever clients show: there are none. Its definitions and settings have to make a frame
/// (*IsFrame*), with a base node, and ghosts have to reach as far as a witness sees (*GhostsReach*).
pub fn an_opened_world_keeps_the_records()
    ensures { (defs : List TypeDef) (settings : Settings) → IsFrame (first_frame defs settings) →
        1 ≤ settings.bases → GhostsReach settings → (clients : ℕ → ClientReplica) →
        KeepsRecords (first_frame defs settings) clients (opened defs settings) }
{
    seam_law_rounds::a_round_goes_from_record_to_record();
    seam_law_rounds::base_parts_go_from_record_to_record();
    seam_law_ghosts::a_round_keeps_the_record_of_places();
    seam_law_ghosts::copies_go_from_record_to_record();
    seam_law_clients::clients_go_from_record_to_record();
}

/// Where a world that keeps the records is given a batch that fits it, every list of events leads to a world that obeys the laws (`laws`).
/// Where that is quiet, all calls were executed and everything is settled (`ends`), and it keeps the records again, of clients that were
/// shown what their proxies showed (`records`).
pub fn calls_obey_the_laws()
    ensures laws { (f : Frame) (clients : ℕ → ClientReplica) (w : World) →
        KeepsRecords f clients w → (b : Batch) → MayBeGiven f w b → (es : List Event) (v : World) →
        RunsTo (loaded w b) es v → ObeysLaws f clients w b v }
    ensures ends { (f : Frame) (clients : ℕ → ClientReplica) (w : World) →
        KeepsRecords f clients w → (b : Batch) → MayBeGiven f w b → (es : List Event) (v : World) →
        RunsTo (loaded w b) es v → IsQuiet node_has_work v → (e home : ℕ) (r : RealView) →
        real_at e (loaded w b) home ≡ Some r → (k : ℕ) (q : RealView) → real_at e v k ≡ Some q →
        EndsRightly f b e home r k q v }
    ensures records { (f : Frame) (clients : ℕ → ClientReplica) (w : World) →
        KeepsRecords f clients w → (b : Batch) → MayBeGiven f w b → (es : List Event) (v : World) →
        RunsTo (loaded w b) es v → IsQuiet node_has_work v →
        KeepsRecordsWithin (framed f b) (clients_shown (framed f b) (clients_loaded f b clients) v)
        v }
{
    seam_law_calls::a_reap_ends_the_one_real();
    seam_law_calls::holders_are_at_one_place();
    seam_law_rounds::a_loaded_world_goes_by_its_tree();
    seam_law_rounds::an_entity_of_a_loaded_world_is_ready();
    seam_law_rounds::an_entity_keeps_one_real();
    seam_law_rounds::calls_of_a_batch_are_executed_once();
    seam_law_rounds::a_round_goes_from_record_to_record();
    seam_law_rounds::base_calls_of_a_batch_are_executed_once();
    seam_law_rounds::nothing_about_a_loaded_entity_is_stray_at_a_base_node();
    seam_law_rounds::each_client_is_shown_its_updates_in_order();
    seam_law_rounds::base_parts_go_from_record_to_record();
    seam_law_ghosts::no_message_to_a_cell_is_stray();
    seam_law_ghosts::no_task_of_a_cell_is_stray();
    seam_law_ghosts::places_are_on_their_way();
    seam_law_ghosts::a_round_keeps_the_record_of_places();
    seam_law_ghosts::ghosts_of_a_round_are_true();
    seam_law_ghosts::each_cell_is_told_what_the_real_wants();
    seam_law_ghosts::the_newest_route_leads_to_the_real();
    seam_law_ghosts::quiet_means_settled();
    seam_law_ghosts::places_are_right();
    seam_law_ghosts::copies_go_from_record_to_record();
    seam_law_clients::clients_of_a_round_are_shown_rightly();
    seam_law_clients::clients_go_from_record_to_record();
    seam_law_rounds::each_call_finds_its_way();
    seam_law_clients::no_input_of_a_base_node_is_stray_in_any_phase();
    seam_law_clients::an_update_without_a_client_never_comes();
}

/// Where a world within a round, which keeps the records, is told to reap entities that are there, every list of events leads to a world
/// that obeys the laws of reaps (`laws`). Where that is quiet, nothing is left of those entities (`gone`), and it keeps the records again,
/// of clients that show what they showed (`records`).
pub fn reaps_obey_the_laws()
    ensures laws { (f : Frame) (clients : ℕ → ClientReplica) (u : World) →
        KeepsRecordsWithin f clients u → (es : List ℕ) → AreReapable u es →
        (vs : List Event) (v : World) → RunsTo (reaps_loaded u es) vs v →
        ObeysLawsOfReaps f u es v }
    ensures gone { (f : Frame) (clients : ℕ → ClientReplica) (u : World) →
        KeepsRecordsWithin f clients u → (es : List ℕ) → AreReapable u es →
        (vs : List Event) (v : World) → RunsTo (reaps_loaded u es) vs v → IsQuiet node_has_work v →
        AreGone es v }
    ensures records { (f : Frame) (clients : ℕ → ClientReplica) (u : World) →
        KeepsRecordsWithin f clients u → (es : List ℕ) → AreReapable u es →
        (vs : List Event) (v : World) → RunsTo (reaps_loaded u es) vs v → IsQuiet node_has_work v →
        KeepsRecordsWithin f clients v }
{
    seam_law_rounds::reaps_end_reals();
    seam_law_rounds::no_call_waits_for_the_reaped();
    seam_law_rounds::a_round_goes_from_record_to_record();
    seam_law_rounds::base_parts_go_from_record_to_record();
    seam_law_ghosts::a_round_keeps_the_record_of_places();
    seam_law_ghosts::copies_go_from_record_to_record();
    seam_law_ghosts::no_cell_keeps_a_copy_of_the_reaped();
    seam_law_clients::clients_go_from_record_to_record();
    seam_law_ghosts::no_message_to_a_cell_is_stray();
    seam_law_ghosts::no_task_of_a_cell_is_stray();
    seam_law_ghosts::the_last_phases_leave_places();
    seam_law_ghosts::no_copy_comes_in_the_last_phases();
    seam_law_clients::a_reaped_client_is_shown_no_more();
    seam_law_clients::nothing_is_stray_at_a_base_node_in_the_last_phases();
    seam_law_rounds::each_call_finds_its_way();
    seam_law_clients::no_input_of_a_base_node_is_stray_in_any_phase();
    seam_law_clients::an_update_without_a_client_never_comes();
}

/// Where the witnesses of a world within a round, which keeps the records, are to look, every list of events leads to a world that obeys
/// the laws of looks (`laws`). Where that is quiet, each client was shown exactly one look at the flat table (`shown`), and it keeps the
/// records again, of clients that were shown that (`records`).
pub fn looks_obey_the_laws()
    ensures laws { (f : Frame) (clients : ℕ → ClientReplica) (u : World) →
        KeepsRecordsWithin f clients u → (vs : List Event) (v : World) →
        RunsTo (look_loaded u) vs v → ObeysLawsOfLooks f clients u v }
    ensures shown { (f : Frame) (clients : ℕ → ClientReplica) (u : World) →
        KeepsRecordsWithin f clients u → (vs : List Event) (v : World) →
        RunsTo (look_loaded u) vs v → IsQuiet node_has_work v → AreShownOneLook f clients u v }
    ensures records { (f : Frame) (clients : ℕ → ClientReplica) (u : World) →
        KeepsRecordsWithin f clients u → (vs : List Event) (v : World) →
        RunsTo (look_loaded u) vs v → IsQuiet node_has_work v →
        KeepsRecords f (clients_looked clients u) v }
{
    seam_law_rounds::looks_keep_reals();
    seam_law_rounds::a_round_goes_from_record_to_record();
    seam_law_rounds::base_parts_go_from_record_to_record();
    seam_law_ghosts::a_round_keeps_the_record_of_places();
    seam_law_clients::clients_go_from_record_to_record();
    seam_law_ghosts::each_cell_is_told_what_the_real_wants();
    seam_law_ghosts::copies_go_from_record_to_record();
    seam_law_ghosts::no_message_to_a_cell_is_stray();
    seam_law_ghosts::no_task_of_a_cell_is_stray();
    seam_law_rounds::each_client_is_shown_its_updates_in_order();
    seam_law_clients::clients_fit_after_the_looks();
    seam_law_ghosts::the_last_phases_leave_places();
    seam_law_ghosts::no_copy_comes_in_the_last_phases();
    seam_law_clients::each_client_is_shown_one_look();
    seam_law_clients::nothing_is_stray_at_a_base_node_in_the_last_phases();
    seam_law_rounds::each_call_finds_its_way();
    seam_law_clients::no_input_of_a_base_node_is_stray_in_any_phase();
    seam_law_clients::an_update_without_a_client_never_comes();
}

/// What these laws ask is true of an opened world, whose clients show nothing, and a batch that creates two witnesses and an entity that
/// crosses the boundary between them (`seam_law_clients`).
pub fn a_worked_batch_may_be_given()
    ensures keeps { KeepsRecords opening (λ e. new_client standard) empty_world }
    ensures may { MayBeGiven opening empty_world crossing.batch }
{
    an_opened_world_keeps_the_records();
    seam_law_clients::an_entity_crosses_between_two_witnesses();
}
