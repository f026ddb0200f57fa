// SPDX-License-Identifier: MIT

// How much a round adds to the numbers of a world that only rise.
//
// A real's version, beat and generation rise by its calls and by its settling, and the number of what its witness told by its looks. In a
// round the first three together rise by at most three for each order of the batch and two more. A witness looks at most sixteen times
// for each order, once in each cell, and once more at the end; each look tells at most a line for each entity that there is to look at,
// and one for its own.

ghost use Rattle.std.specs.Prelude.{ℕ, ◌+◌, ◌*◌, List, length};
ghost use Rattle.seam_node_steps.specs.Prelude.{IsQuiet, Batch, loaded, World, node_has_work};
ghost use Rattle.seam_law_calls.specs.Prelude.{Frame, sent_by};
ghost use Rattle.seam_law_rounds.specs.Prelude.{numbers_of, MayBeLoaded};
ghost use Rattle.seam_law_ghosts.specs.Prelude.{AreCopiesBetweenRounds, GoesThroughRound};
ghost use Rattle.seam_law_bounds.specs.Prelude.{EachSeenIsHeld, HoldsNothing, AreAtMost, AreAmong};

/// Where the numbers of each real are at most n, they are at most that many more after a round (`reals`). Where each witness told at most n
/// updates, it told at most that many more after a round (`told`) of a world that has reals of the entities of a list alone.
pub fn a_round_raises_numbers_little()
    ensures reals { (f : Frame) (w : World) (b : Batch) → MayBeLoaded f w b →
        AreCopiesBetweenRounds f w → (v : World) → GoesThroughRound w b v → (n : ℕ) →
        AreAtMost numbers_of n w → AreAtMost numbers_of (n + (3 * length b.orders + 2)) v }
    ensures told { (f : Frame) (w : World) (b : Batch) → MayBeLoaded f w b →
        AreCopiesBetweenRounds f w → HoldsNothing w → EachSeenIsHeld w → (us : List ℕ) →
        AreAmong us (loaded w b) → (v : World) → GoesThroughRound w b v → IsQuiet node_has_work v →
        (n : ℕ) → AreAtMost sent_by n w → AreAtMost sent_by
        (n + (1 + length us) * (16 * length b.orders + 1)) v }
{
    seam_law_ghosts::the_last_phases_leave_places();
    crate::nothing_held_goes_from_record_to_record();
    crate::what_is_seen_is_held();
    crate::looks_are_about_what_there_is();
    seam_law_clients::each_witness_looks_once();
}
