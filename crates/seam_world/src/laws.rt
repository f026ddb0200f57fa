//! What the definitions of a run say together.
ghost use Rattle.std.specs.Prelude.{◌≡◌, ℕ, List};
ghost use Rattle.seam_watch.specs.declared.journal.Journal.{Journal};
ghost use Rattle.seam_world_rounds.specs.Storm.{IsSummary};

/// A generated input has one summary, whatever the cells and however its rounds were played.
pub fn a_storm_has_one_summary()
    ensures { (lines : ℕ) (text other : List ℕ) (steps others : List Journal) →
        IsSummary lines text steps → IsSummary lines other others → text ≡ other }
{
    seam_rule_rounds::storm_has_one_summary();
}
