// SPDX-License-Identifier: MIT

// A worked run of two rounds: what the laws of rounds ask can be met, also with a tick among the calls, a client that dies, and a second
// round that begins with what the first one left.
//
// `specs/Steps` says when steps that are given play a round, and what is then true of it; `specs/TwoRounds` has the worlds of the two
// rounds, event by event, and the lines that bring them.

ghost use Rattle.std.specs.Prelude.{◌≡◌, ℕ, false, true, IsTrue, IsFalse, List, [], ◌∷◌};
ghost use Rattle.seam_node_steps.specs.Prelude.{Division, Create, World, empty_world, line, two_cells};
ghost use Rattle.seam_rule_rounds.specs.Prelude.{Header, has_balance, has_tick, header, is_shown, one_cell, tree_of, Entry, Standing};
ghost use Rattle.seam_law_transcript.specs.Prelude.{GoesOn, MayEnd, lines_told};
ghost use Rattle.seam_law_transcript.specs.Steps.{AreAccepted, GoesRight, PlayedBy, RoundSteps, with_all_accepted};
ghost use Rattle.seam_law_transcript.specs.TwoRounds as two;

/// A standing still goes on with its world when lines were accepted, one after another (`lines`). Where its round may end, and steps play
/// it without a `balance`, what it prints is legal, each live entity has one real at each step, calls are executed in turn, clients see
/// all, and the next round goes on from there (`round`).
pub fn steps_play_a_legal_round()
    ensures lines { (h : Header) (s : Standing) (tree : Division) (w : World) → GoesOn h s tree w →
        (xs : List Entry) → AreAccepted h s xs → GoesOn h (with_all_accepted s xs) tree w }
    ensures round { (h : Header) (s : Standing) (tree : Division) (w : World) → GoesOn h s tree w →
        MayEnd s → IsFalse (has_balance s.book) → (x : RoundSteps) (made live : List Create) →
        PlayedBy h s w x made live → GoesRight h s w x made live }
{
    seam_law_book::what_lines_bring_fits();
    crate::a_course_begins_and_goes_on();
    crate::a_round_may_be_run();
    crate::a_run_round_is_legal();
    crate::each_entity_has_one_real_through_a_round();
    crate::each_part_executes_in_turn();
    crate::clients_see_all_within_their_radius();
}

/// Two rounds of a world of two cells with an entity and its client in each. Lines are accepted that bring the first one, with a tick
/// between two calls and an entity that dies (`lines`, `ticks`); then its standing goes on with the opened world (`goes`) and its
/// round may end (`ends`). These steps play it (`plays`), and so it goes right (`right`). A line is accepted for the second one, which
/// goes on from there, is played and goes right (`next_lines`, `next_goes`, `next_ends`, `next_plays`, `next_right`).
///
/// The client that lives is shown in the first round what it sees in the tick, and then, in the looks, its own entity again and that the
/// other one is gone (`shown`). The one that dies is shown what it saw in the tick (`last_shown`). In the second round the first is shown
/// its own entity (`next_shown`), and the dead one's lines have ended (`no_more`, `not_shown`).
pub fn two_rounds_with_a_tick_and_a_death_go_right()
    ensures lines { AreAccepted header two.begun two.first_entries }
    ensures ticks { IsTrue (has_tick two.first.book) }
    ensures goes { GoesOn header two.first (one_cell 10000) empty_world }
    ensures ends { MayEnd two.first }
    ensures plays { PlayedBy header two.first empty_world two.first_steps two.created_both
        two.alive }
    ensures right { GoesRight header two.first empty_world two.first_steps two.created_both
        two.alive }
    ensures next_lines { AreAccepted header two.between two.second_entries }
    ensures next_goes { GoesOn header two.second two_cells two.look_6 }
    ensures next_ends { MayEnd two.second }
    ensures next_plays { PlayedBy header two.second two.look_6 two.second_steps two.created_both
        two.alive }
    ensures next_right { GoesRight header two.second two.look_6 two.second_steps two.created_both
        two.alive }
    ensures shown { lines_told header two.first.book two.call_19 two.look_6 1
        ≡ two.last_lines_1 }
    ensures last_shown { lines_told header two.first.book two.call_19 two.look_6 2
        ≡ two.lines_2 }
    ensures next_shown { lines_told header two.second.book two.next_4 two.next_look_5 1
        ≡ line 6 (two.own_1 3) ∷ [] }
    ensures no_more { lines_told header two.second.book two.next_4 two.next_look_5 2 ≡ [] }
    ensures not_shown { is_shown two.second.book 2 ≡ false }
{
    crate::a_course_begins_and_goes_on();
    steps_play_a_legal_round();
}
