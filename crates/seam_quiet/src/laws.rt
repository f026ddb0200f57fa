//! What a round asks can be met.

ghost use Rattle.seam_node_steps.specs.Prelude.{standard, empty_world};
ghost use Rattle.seam_law_rounds.specs.Prelude.{opening};
ghost use Rattle.seam_law_clients.specs.Crossing as crossing;
ghost use Rattle.seam_rule_clients.specs.Clients.{new_client};
ghost use Rattle.seam_quiet.specs.RoundRuns.{MayRun};

/// An opened world, whose clients show nothing, may run the round of a batch that creates two witnesses and an entity that crosses the
/// boundary between them.
pub fn a_worked_round_may_run()
    ensures { MayRun opening (λ e. new_client standard) empty_world crossing.batch }
{
    seam_law_all::a_worked_batch_may_be_given();
    seam_law_bounds::a_round_keeps_what_bounds_it();
}
