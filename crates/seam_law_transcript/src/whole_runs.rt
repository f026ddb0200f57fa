// SPDX-License-Identifier: MIT

// The course of a run: a standing beside a world, from the header to the last line, round after round.
//
// `specs/Course` says what a loop over the lines of an input keeps of its standing and its world (*GoesOn*). It holds after the header, of
// the opened world; each line keeps it, whether it is skipped, refused or accepted; and where the open round may end, by the count of the
// lines alone (`specs/Counts`), its batch may be run, what it prints is a legal round, and the standing after it goes on with the world
// that it leaves. So an input of no more lines than there may be (*most_lines*) never runs out of numbers, however many rounds it has.
//
// However far such a round is played (`specs/Phases`), each live entity has one real, whatever events happen, and one that the round
// destroys has it until its Reap comes, and none from then on (`specs/OneReal`); and its parts execute each sender's calls in turn
// (`specs/Turns`). So it is where a fault cuts the round off (`specs/BrokenOff`). What clients show stays true from round to round
// (`specs/Truly`), and after each they show all that is within their radius, as it is now (`specs/Radius`).
//
// With `given`, and the fields `between.keeps` and `bounded`, there is all that `seam_quiet::run_round` asks; the round that it runs, and
// that this has ended, are fields of what it answers (*IsJournalOf*), and so they are where a caller runs the phases one by one.

ghost use Rattle.std.specs.Prelude.{◌≡◌, ℕ, ◌+◌, ◌≤◌, IsTrue, IsFalse, List, map, None, Some};
ghost use Rattle.seam_node_steps.specs.Prelude.{Division, IsTree, AreLegal, AreDefs, Create, opened, World};
ghost use Rattle.seam_rule_rounds.specs.Prelude.{IsBalanced, HasSameCuts, Header, one_cell, entries, open_lines, created_as, live_as};
ghost use Rattle.seam_rule_rounds.specs.Prelude.{has_balance, tree_of, with_entry, with_round_ended, with_tree, Lists, MOST_LINES, Entry};
ghost use Rattle.seam_rule_rounds.specs.Prelude.{RoundData, IsRound, Standing, after_header, with_line, with_book};
ghost use Rattle.seam_law_ghosts.specs.Prelude.{GoesThroughRound};
ghost use Rattle.seam_law_all.specs.Prelude.{MayBeGiven};
ghost use Rattle.seam_law_bounds.specs.Prelude.{IsBounded};
ghost use Rattle.seam_law_book.specs.Prelude.{IsAccepted, frame_of, HasEnded};
ghost use Rattle.seam_law_transcript.specs.Prelude.{HasPlayableRound, round_read, standing_read, HasFewNumbers, MayEnd, most_lines, GoesOn};
ghost use Rattle.seam_law_transcript.specs.Prelude.{HasOneReal, ExecutesInTurn, MayBreakOff, ClientsSeeAll};
ghost use Rattle.seam_accept.specs.Batches.{batch_of};

/// A standing goes on with the world that was opened for its header (`opened`), and still does when a line was read that adds nothing
/// (`line`), and one that was accepted (`entry`).
pub fn a_course_begins_and_goes_on()
    ensures opened { (h : Header) (count : ℕ) → AreLegal h.settings → AreDefs h.defs →
        GoesOn h (after_header h count) (one_cell h.settings.size) (opened h.defs h.settings) }
    ensures line { (h : Header) (s : Standing) (tree : Division) (w : World) → GoesOn h s tree w →
        GoesOn h (with_line s) tree w }
    ensures entry { (h : Header) (s : Standing) (tree : Division) (w : World) (x : Entry) →
        GoesOn h s tree w → IsAccepted h s.book x → GoesOn h
        (with_book (with_line s) (with_entry s.book x)) tree w }
{
    seam_law_bounds::a_round_keeps_what_bounds_it();
    crate::a_standing_goes_with_a_world_before_its_round();
}

/// The open round of a standing that goes on may end where a line was accepted in it (`some`), and where one was read that ends it
/// (`synced`). Then it may be played in the world (`stands`), which may be given its batch (`given`).
pub fn a_round_may_be_run()
    ensures some { (h : Header) (s : Standing) (tree : Division) (w : World) → GoesOn h s tree w →
        1 ≤ open_lines s.book → open_lines s.book ≤ MOST_LINES → s.lines ≤ most_lines → MayEnd s }
    ensures synced { (h : Header) (s : Standing) (tree : Division) (w : World) → GoesOn h s tree w →
        open_lines s.book ≤ MOST_LINES → s.lines + 1 ≤ most_lines → MayEnd (with_line s) }
    ensures stands { (h : Header) (s : Standing) (tree : Division) (w : World) → GoesOn h s tree w →
        MayEnd s → HasPlayableRound h s tree w }
    ensures given { (h : Header) (s : Standing) (tree : Division) (w : World) → GoesOn h s tree w →
        MayEnd s → MayBeGiven (frame_of h tree) w (batch_of h s.book) }
{
    seam_law_book::what_lines_bring_fits();
}

/// When the round has ended, what bounds the phases of the next one holds of the world that it leaves (`bounded`), and the numbers of that
/// world are few for a standing that counts the round (`few`).
pub fn a_round_leaves_few_numbers()
    ensures bounded { (h : Header) (s : Standing) (tree : Division) (w : World) →
        GoesOn h s tree w → MayEnd s → (v : World) (round : GoesThroughRound w (batch_of h s.book)
        v) → HasEnded h s.book w v round → IsBounded v }
    ensures few { (h : Header) (s : Standing) (tree : Division) (w : World) → GoesOn h s tree w →
        MayEnd s → (v : World) (round : GoesThroughRound w (batch_of h s.book) v) →
        HasEnded h s.book w v round → (t : Standing) → t.book.past ≡ entries s.book →
        t.rounds ≡ s.rounds + 1 → HasFewNumbers t v }
{
    seam_law_bounds::a_round_raises_numbers_little();
    seam_law_bounds::a_round_keeps_the_records();
    seam_law_book::what_lines_bring_fits();
    a_round_may_be_run();
}

/// What such a round prints, read off the worlds that it goes through, is a legal round. The standing that it leaves goes on with the world
/// that it leaves. Where no `balance` was accepted, that is by the round's tree (`kept`). Where one was, the next round begins with the
/// tree that is balanced by where the homes are (`balanced`).
pub fn a_run_round_is_legal()
    ensures kept { (h : Header) (s : Standing) (tree : Division) (w : World) → GoesOn h s tree w →
        MayEnd s → (v : World)
        (round : GoesThroughRound w (batch_of h s.book) v) → HasEnded h s.book w v round →
        (made live : List Create) →
        Lists (created_as s.book) made → Lists (live_as s.book) live →
        IsFalse (has_balance s.book) →
        let r = round_read h s made live round.called v None in
        let t = standing_read h s round.called v r (with_round_ended s.book) in
        IsRound h s r t × GoesOn h t (tree_of s.book) v }
    ensures balanced { (h : Header) (s : Standing) (tree : Division) (w : World) →
        GoesOn h s tree w → MayEnd s → (v : World)
        (round : GoesThroughRound w (batch_of h s.book) v) → HasEnded h s.book w v round →
        (made live : List Create) →
        Lists (created_as s.book) made → Lists (live_as s.book) live → IsTrue (has_balance s.book) →
        (u : Division) → IsTree u →
        HasSameCuts (tree_of s.book) u →
        let r = round_read h s made live round.called v (Some u) in
        IsBalanced (map (λ l. l.state.pos) r.homes) h.settings.balance_shift (tree_of s.book) u →
        let t = standing_read h s round.called v r (with_tree (with_round_ended s.book) u) in
        IsRound h s r t × GoesOn h t (tree_of s.book) v }
{
    seam_rule_clients::lines_follow_lines();
    crate::the_next_round_has_the_tree_of_the_rules();
    crate::a_played_round_is_legal();
    crate::a_standing_goes_with_the_world_after_its_round();
    a_round_may_be_run();
    a_round_leaves_few_numbers();
}

/// However far such a round is played, whatever events happen, each live entity has one real.
pub fn each_entity_has_one_real_through_a_round()
    ensures { (h : Header) (s : Standing) (tree : Division) (w : World) → GoesOn h s tree w →
        MayEnd s → HasOneReal h s w }
{
    seam_law_calls::holders_are_at_one_place();
    seam_law_rounds::reaps_end_reals();
    seam_law_all::calls_obey_the_laws();
    seam_law_all::reaps_obey_the_laws();
    seam_law_all::looks_obey_the_laws();
    seam_law_book::what_lines_bring_fits();
    a_round_may_be_run();
}

/// However far such a round is played, whatever events happen, each part executes each sender's calls in turn: what it executed so far are
/// the first ones of those that were accepted for it, in their order and each once.
pub fn each_part_executes_in_turn()
    ensures { (h : Header) (s : Standing) (tree : Division) (w : World) → GoesOn h s tree w →
        MayEnd s → ExecutesInTurn h s w }
{
    seam_law_all::calls_obey_the_laws();
    seam_law_all::reaps_obey_the_laws();
    seam_law_book::lines_bring_what_fits();
    seam_law_book::what_lines_bring_fits();
    a_round_may_be_run();
    each_entity_has_one_real_through_a_round();
}

/// So a round that is cut off goes as one that ends, whichever line it is that ends it.
pub fn a_round_may_break_off()
    ensures { (h : Header) (s : Standing) (tree : Division) (w : World) → GoesOn h s tree w →
        MayBreakOff h s w }
{
    a_course_begins_and_goes_on();
    each_entity_has_one_real_through_a_round();
    each_part_executes_in_turn();
}

/// After a legal round of such a standing each client shows all that is within its radius, and nothing that is not there; and it shows its
/// own entity and each in view as they are now.
pub fn clients_see_all_within_their_radius()
    ensures { (h : Header) (s : Standing) (tree : Division) (w : World) → GoesOn h s tree w →
        (r : RoundData) (t : Standing) → ClientsSeeAll h s r t }
{
    seam_rule_clients::look_shows_the_table();
    seam_rule_clients::lines_follow_lines();
}
