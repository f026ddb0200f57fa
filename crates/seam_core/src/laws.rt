//! Laws of all worlds, each on a function that does nothing.

ghost use Rattle.std.specs.Prelude.{ℕ};
ghost use Rattle.seam_node_steps.specs.Prelude.{Batch, World};
ghost use Rattle.seam_law_calls.specs.Prelude.{Frame};
ghost use Rattle.seam_law_all.specs.Prelude.{KeepsRecords, MayBeGiven};
ghost use Rattle.seam_rule_clients.specs.Clients.{ClientReplica};
ghost use Rattle.seam_core.specs.Worlds.{KeepsLaws};
ghost use Rattle.seam_core.specs.Loads.{MayLoad};

/// Every world obeys the laws of its phase, wherever it comes from.
pub fn every_world_obeys_the_laws()
    ensures { (v : World) → KeepsLaws v }
{
    seam_law_all::calls_obey_the_laws();
    seam_law_all::reaps_obey_the_laws();
    seam_law_all::looks_obey_the_laws();
    seam_law_ghosts::ghosts_of_a_round_are_true();
    seam_law_rounds::reaps_end_reals();
}

/// A world that keeps the records between rounds may load each batch that it may be given by the rules.
pub fn a_fitting_batch_may_be_loaded()
    ensures { (f : Frame) (clients : ℕ → ClientReplica) (w : World) → KeepsRecords f clients w →
        (b : Batch) → MayBeGiven f w b → MayLoad w b }
{}
