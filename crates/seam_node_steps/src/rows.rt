//! Worked rows: worlds that a load makes, events that are enabled at their places, the world after each, and who holds the real
//! then. Each row ends quiet.

ghost use Rattle.std.specs.Prelude.{◌≡◌, [], ◌∷◌, None, Some};
ghost use Rattle.seam_node_steps.specs.Prelude.{IsQuiet, node_has_work, loaded, look_loaded, reaps_loaded, IsRow, empty_world, copy_at};
ghost use Rattle.seam_node_steps.specs.Prelude.{copy_in_cell, done_in_cell, lines_of_client};
ghost use Rattle.seam_node_steps.specs.EarlyCall as early;
ghost use Rattle.seam_node_steps.specs.LateGhost as late;
ghost use Rattle.seam_node_steps.specs.ViewRounds as view;

/// A call that comes early is held until its turn; one that comes where the real was is passed on.
#[tactic(auto, using(crate::proofs::Early::early_call))]
pub fn an_early_call_is_held()
    ensures load { loaded empty_world early.batch ≡ early.world_0 }
    ensures events { IsRow 1 1 early.world_0 early.steps }
    ensures quiet { IsQuiet node_has_work early.world_12 }
    ensures done { done_in_cell early.world_12 1 1 ≡ Some (early.the_move ∷ early.hit_1 ∷
        early.hit_2 ∷ []) }
{}

/// "Passing on": a call that comes after the hand-over follows the real.
#[tactic(auto, using(crate::proofs::Early::passed_call))]
pub fn a_call_is_passed_on()
    ensures load { loaded empty_world early.batch ≡ early.world_0 }
    ensures events { IsRow 1 1 early.world_0 early.passing_steps }
    ensures quiet { IsQuiet node_has_work early.passing_11 }
    ensures done { done_in_cell early.passing_11 1 1 ≡ Some (early.hit_1 ∷ early.the_move ∷
        early.hit_2 ∷ []) }
{}

/// A ghost message that comes after one of a greater beat is ignored.
#[tactic(auto, using(crate::proofs::Late::late_message))]
pub fn a_late_ghost_message_is_ignored()
    ensures load { loaded empty_world late.batch ≡ late.world_0 }
    ensures events { IsRow 1 1 late.world_0 late.steps }
    ensures quiet { IsQuiet node_has_work late.world_14 }
    ensures done { done_in_cell late.world_14 1 1 ≡ Some (late.move_1 ∷ late.move_2 ∷ []) }
    ensures copy { copy_in_cell late.world_14 0 1 ≡ Some (copy_at 2 5100 4000) }
    ensures no_copy { copy_in_cell late.world_14 2 1 ≡ None }
{}

/// An entity that is reaped has no real from then on, and no ghost in the end.
#[tactic(auto, using(crate::proofs::Late::reaped_entity))]
pub fn a_reaped_entity_is_gone()
    ensures load { reaps_loaded late.world_14 (1 ∷ []) ≡ late.reap_0 }
    ensures before { IsRow 1 1 late.reap_0 late.until_reaped }
    ensures after { IsRow 1 0 late.reap_1 late.from_reaped }
    ensures quiet { IsQuiet node_has_work late.reap_3 }
    ensures no_copy { copy_in_cell late.reap_3 0 1 ≡ None }
{}

/// "View hysteresis", round 1: an entity at the radius enters the view of a new client, which is first shown its base part.
#[tactic(auto, using(crate::proofs::Views::entering))]
pub fn an_entity_enters_a_view()
    ensures load { loaded empty_world view.batch_1 ≡ view.first_0 }
    ensures events { IsRow 2 1 view.first_0 view.first_steps }
    ensures quiet { IsQuiet node_has_work view.first_2 }
    ensures look_load { look_loaded view.first_2 ≡ view.first_look_0 }
    ensures look_events { IsRow 2 1 view.first_look_0 view.first_looks }
    ensures look_quiet { IsQuiet node_has_work view.first_look_5 }
    ensures lines { lines_of_client view.first_look_5 17 1
        ≡ Some (view.base_line ∷ view.line 2 view.own ∷ view.line 3 view.enter_2 ∷ []) }
{}

/// "View hysteresis", round 2: within the hysteresis it stays, and its change is shown.
#[tactic(auto, using(crate::proofs::Views::changing))]
pub fn an_entity_changes_in_a_view()
    ensures load { loaded view.first_look_5 (view.batch_of (view.move_to 1 1310)) ≡ view.second_0 }
    ensures events { IsRow 2 1 view.second_0 view.second_steps }
    ensures quiet { IsQuiet node_has_work view.second_4 }
    ensures look_load { look_loaded view.second_4 ≡ view.second_look_0 }
    ensures look_events { IsRow 2 1 view.second_look_0 view.second_looks }
    ensures look_quiet { IsQuiet node_has_work view.second_look_4 }
    ensures lines { lines_of_client view.second_look_4 17 1 ≡ Some (view.line 4 view.set_2 ∷ []) }
{}

/// "View hysteresis", round 3: beyond radius and hysteresis it leaves.
#[tactic(auto, using(crate::proofs::Views::leaving))]
pub fn an_entity_leaves_a_view()
    ensures load { loaded view.second_look_4 (view.batch_of (view.move_to 2 1311)) ≡ view.third_0 }
    ensures events { IsRow 2 1 view.third_0 view.third_steps }
    ensures quiet { IsQuiet node_has_work view.third_4 }
    ensures look_load { look_loaded view.third_4 ≡ view.third_look_0 }
    ensures look_events { IsRow 2 1 view.third_look_0 view.third_looks }
    ensures look_quiet { IsQuiet node_has_work view.third_look_4 }
    ensures lines { lines_of_client view.third_look_4 17 1 ≡ Some (view.line 5 view.leave_2 ∷ []) }
{}
