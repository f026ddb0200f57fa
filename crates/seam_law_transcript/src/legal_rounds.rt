// SPDX-License-Identifier: MIT

// What a round prints, read off the worlds that it goes through, is a legal round.
//
// `specs/Beside` says which standing goes with which world, `specs/Playing` that the standing's open round was played there, and
// `specs/Reading` what is then read off two of the worlds that it went through: what it prints (*data_of*), and the standing that it
// leaves (*standing_of*). Each law here is about one point of a legal round (*IsRound* of `seam_rule_rounds`).

ghost use Rattle.std.specs.Prelude.{◌≡◌, ◌++◌, ℕ, false, List, [], IsTrue, IsFalse, Option, None, Some, is_some, map};
ghost use Rattle.std.specs.List.{All};
ghost use Rattle.std.specs.List.Sorted.{IsNonDecreasing};
ghost use Rattle.seam_node_steps.specs.Prelude.{Division, IsTree, AreLegal, AreDefs, Create, RealView, opened, World};
ghost use Rattle.seam_rule_rounds.specs.Prelude.{IsBalanced, HasSameCuts, shown_by_lines, ShowsRightly, one_look, Header, Book, one_cell};
ghost use Rattle.seam_rule_rounds.specs.Prelude.{created_as, live_as, is_shown, has_tick, tree_of, with_entry, with_round_ended, with_tree};
ghost use Rattle.seam_rule_rounds.specs.Prelude.{has_balance, Lists, Entry, truth_of, base_texts, texts_to, rows_of, lines_to, told_in};
ghost use Rattle.seam_rule_rounds.specs.Prelude.{HasBounds, IsRound, Standing, after_header, with_line, with_book, replica_of};
ghost use Rattle.seam_law_calls.specs.Prelude.{real_at};
ghost use Rattle.seam_law_all.specs.Prelude.{shown_to, KeepsRecords};
ghost use Rattle.seam_law_book.specs.Prelude.{MayReplace, frame_of};
ghost use Rattle.seam_law_transcript.specs.Prelude.{GoesBetween, lines_told, IsPlayed, ContinuesLines, data_of, standing_of};
ghost use Rattle.seam_law_transcript.specs.Prelude.{clients_ended_in};
ghost use Rattle.seam_call.specs.declared.shown.ClientText.TheVariants.{Shown};
ghost use Rattle.seam_law_transcript.specs.Playing.{IsLegalButClients, positions_of};

/// The entities of a book, those that were created and those that live, can be listed in rising number.
pub fn entities_can_be_listed()
    ensures made { (b : Book) → (made : List Create) × Lists (created_as b) made }
    ensures live { (b : Book) → (live : List Create) × Lists (live_as b) live }
{}

/// A played round is legal in all that speaks of no client.
pub fn a_played_round_is_legal_but_for_clients()
    ensures { (h : Header) (s : Standing) (tree : Division) (w v : World)
        (p : IsPlayed h s tree w v) (bounds : Option Division) (next : Book) →
        IsLegalButClients h s (data_of h s tree w v p bounds)
        (standing_of h s tree w v p bounds next) p.live }
{
    seam_law_all::calls_obey_the_laws();
    seam_law_all::reaps_obey_the_laws();
    seam_law_all::looks_obey_the_laws();
    seam_law_book::what_lines_bring_fits();
    seam_law_book::a_book_goes_with_the_world_after_its_round();
    seam_law_book::each_part_executed_what_was_accepted();
    seam_law_book::reals_are_those_of_the_flat_table();
    seam_law_book::base_parts_are_those_of_the_flat_table();
    seam_law_book::places_are_those_that_the_rules_allow();
    seam_law_book::home_lines_are_those_of_the_rules();
    seam_law_book::base_lines_are_those_of_the_rules();
    seam_law_book::ghost_lines_are_those_of_the_rules();
}

/// The lines of a round's clients are gathered from entity to entity in rising number (`rising`), those of its clients alone (`only`), each
/// under its entity's type (`types`). Those of an entity's client are the lines that this client was shown (`told`); where the entity has
/// no client, there are none (`none`).
pub fn client_lines_are_gathered()
    ensures rising { (h : Header) (s : Standing) (tree : Division) (w v : World)
        (p : IsPlayed h s tree w v) (bounds : Option Division) →
        IsNonDecreasing (map (λ l. l.entity) (data_of h s tree w v p bounds).shown) }
    ensures only { (h : Header) (s : Standing) (tree : Division) (w v : World)
        (p : IsPlayed h s tree w v) (bounds : Option Division) →
        All (λ l. IsTrue (is_shown s.book l.entity)) (data_of h s tree w v p bounds).shown }
    ensures types { (h : Header) (s : Standing) (tree : Division) (w v : World)
        (p : IsPlayed h s tree w v) (bounds : Option Division) (c : Create) →
        created_as s.book c.entity ≡ Some c → IsTrue (is_shown s.book c.entity) →
        All (λ l. l.ty ≡ c.ty) (lines_to (data_of h s tree w v p bounds) c.entity) }
    ensures told { (h : Header) (s : Standing) (tree : Division) (w v : World)
        (p : IsPlayed h s tree w v) (bounds : Option Division) (c : Create) →
        created_as s.book c.entity ≡ Some c → IsTrue (is_shown s.book c.entity) →
        told_in (data_of h s tree w v p bounds) c.entity ≡ lines_told h s.book p.round.called v
        c.entity }
    ensures none { (h : Header) (s : Standing) (tree : Division) (w v : World)
        (p : IsPlayed h s tree w v) (bounds : Option Division) (e : ℕ) → is_shown s.book e ≡ false →
        told_in (data_of h s tree w v p bounds) e ≡ [] }
{}

/// The lines of each client go on with its numbers, and show the base part of its entity at the versions that the rules ask for.
pub fn clients_are_shown_base_parts()
    ensures { (h : Header) (s : Standing) (tree : Division) (w v : World)
        (p : IsPlayed h s tree w v) (bounds : Option Division) (next : Book) (c : Create) →
        created_as s.book c.entity ≡ Some c → IsTrue (is_shown s.book c.entity) →
        ContinuesLines h s (standing_of h s tree w v p bounds next) c v
        (lines_told h s.book p.round.called v c.entity) }
{
    seam_law_book::lines_bring_what_fits();
    seam_law_book::uncreated_numbers_are_untouched();
    seam_law_ghosts::the_last_phases_leave_places();
    seam_law_clients::the_base_part_is_shown_at_each_change();
    seam_law_all::calls_obey_the_laws();
    seam_law_all::reaps_obey_the_laws();
    seam_law_book::what_lines_bring_fits();
    seam_law_book::a_book_goes_with_the_world_after_its_round();
    seam_law_book::each_part_executed_what_was_accepted();
    seam_law_book::base_parts_are_those_of_the_flat_table();
}

/// Where the round has ended, each client shows what it was told in all (`replicas`), so that the world keeps the records of these clients
/// (`records`).
pub fn clients_show_what_they_were_told()
    ensures replicas { (h : Header) (s : Standing) (tree : Division) (w v : World)
        (p : IsPlayed h s tree w v) (bounds : Option Division) (next : Book) (e k : ℕ)
        (q : RealView) → real_at e v k ≡ Some q → IsTrue (is_some q.witness) →
        clients_ended_in h s tree w v p e ≡ replica_of h (standing_of h s tree w v p bounds next)
        e }
    ensures records { (h : Header) (s : Standing) (tree : Division) (w v : World)
        (p : IsPlayed h s tree w v) (bounds : Option Division) (next : Book) →
        KeepsRecords (frame_of h (tree_of s.book)) (replica_of h
        (standing_of h s tree w v p bounds next)) v }
{
    seam_law_book::lines_bring_what_fits();
    seam_law_book::uncreated_numbers_are_untouched();
    seam_law_clients::clients_go_from_record_to_record();
    seam_law_all::calls_obey_the_laws();
    seam_law_all::reaps_obey_the_laws();
    seam_law_all::looks_obey_the_laws();
    seam_law_book::what_lines_bring_fits();
    seam_law_book::a_book_goes_with_the_world_after_its_round();
    client_lines_are_gathered();
}

/// So a further look at what the round left shows no client of it anything.
pub fn a_look_after_the_round_shows_nothing()
    ensures { (h : Header) (s : Standing) (tree : Division) (w v : World)
        (p : IsPlayed h s tree w v) (bounds : Option Division)
        (next : Book) (e : ℕ) → IsTrue (is_shown s.book e) →
        let t = standing_of h s tree w v p bounds next in
        one_look (replica_of h t e) e (rows_of h t.orders p.live) ≡ [] }
{
    seam_law_ghosts::the_last_phases_leave_places();
    seam_law_clients::a_further_look_shows_nothing();
    seam_law_all::calls_obey_the_laws();
    seam_law_all::reaps_obey_the_laws();
    seam_law_all::looks_obey_the_laws();
    seam_law_book::what_lines_bring_fits();
    seam_law_book::a_book_goes_with_the_world_after_its_round();
    seam_law_book::reals_are_those_of_the_flat_table();
    seam_law_book::the_table_of_a_world_is_that_of_the_rules();
    clients_show_what_they_were_told();
}

/// Where no tick was accepted, the calls show no client anything of cell parts.
pub fn without_a_tick_calls_show_no_cell_parts()
    ensures { (h : Header) (s : Standing) (tree : Division) (w v : World)
        (p : IsPlayed h s tree w v) → IsFalse (has_tick s.book) → (c : Create) →
        created_as s.book c.entity ≡ Some c → IsTrue (is_shown s.book c.entity) →
        shown_to (frame_of h (tree_of s.book)) c.entity p.round.called ≡ [] }
{
    seam_law_book::lines_bring_what_fits();
    seam_law_book::uncreated_numbers_are_untouched();
    seam_law_calls::each_base_call_waits_once();
    seam_law_calls::a_clients_updates_come_in_order();
    seam_law_calls::a_witness_tells_only_in_looks();
    seam_law_all::calls_obey_the_laws();
    seam_law_book::what_lines_bring_fits();
}

/// So each client of such a round is shown its base lines, and then exactly one look at what the round left; a look of a client whose
/// entity died is empty.
pub fn without_a_tick_each_client_is_shown_one_look()
    ensures { (h : Header) (s : Standing) (tree : Division) (w v : World)
        (p : IsPlayed h s tree w v) (bounds : Option Division)
        (next : Book) → let r = data_of h s tree w v p bounds in let t =
        standing_of h s tree w v p bounds next in
        IsFalse (has_tick s.book) → (e : ℕ) → IsTrue (is_shown s.book e) →
        texts_to r e ≡ base_texts r e
        ++ map Shown (one_look (replica_of h s e) e (rows_of h t.orders p.live)) }
{
    seam_law_book::lines_bring_what_fits();
    seam_law_book::uncreated_numbers_are_untouched();
    seam_law_ghosts::the_last_phases_leave_places();
    seam_law_clients::the_base_part_is_shown_at_each_change();
    seam_law_all::calls_obey_the_laws();
    seam_law_all::reaps_obey_the_laws();
    seam_law_all::looks_obey_the_laws();
    seam_law_book::what_lines_bring_fits();
    seam_law_book::a_book_goes_with_the_world_after_its_round();
    seam_law_book::reals_are_those_of_the_flat_table();
    seam_law_book::the_table_of_a_world_is_that_of_the_rules();
    client_lines_are_gathered();
    without_a_tick_calls_show_no_cell_parts();
}

/// What clients are shown of cell parts in the calls is right by the rules: each line may come when it is its turn, and shows what its
/// entity was in the round.
pub fn what_calls_show_of_cell_parts_is_right()
    ensures { (h : Header) (s : Standing) (tree : Division) (w v : World)
        (p : IsPlayed h s tree w v) (bounds : Option Division) (next : Book) (c : Create) →
        created_as s.book c.entity ≡ Some c → IsTrue (is_shown s.book c.entity) →
        ShowsRightly (truth_of h s (standing_of h s tree w v p bounds next) c) c.entity
        (replica_of h s c.entity) (shown_to (frame_of h (tree_of s.book)) c.entity p.round.called) }
{
    seam_defs::laws::others_see_the_ghost();
    seam_law_book::lines_bring_what_fits();
    seam_law_book::uncreated_numbers_are_untouched();
    seam_law_all::calls_obey_the_laws();
    seam_law_book::what_lines_bring_fits();
    seam_law_book::each_part_executed_what_was_accepted();
    seam_law_book::reals_are_those_of_the_flat_table();
}

/// And so is all that clients are shown of cell parts in the round: what the calls show, and then, where the entity lives on, one look at
/// the table that the round leaves.
pub fn what_clients_are_shown_is_right()
    ensures { (h : Header) (s : Standing) (tree : Division) (w v : World)
        (p : IsPlayed h s tree w v) (bounds : Option Division) (next : Book) (c : Create) →
        created_as s.book c.entity ≡ Some c → IsTrue (is_shown s.book c.entity) →
        ShowsRightly (truth_of h s (standing_of h s tree w v p bounds next) c) c.entity
        (replica_of h s c.entity) (shown_by_lines (told_in (data_of h s tree w v p bounds)
        c.entity)) }
{
    seam_law_book::lines_bring_what_fits();
    seam_law_book::uncreated_numbers_are_untouched();
    seam_law_ghosts::the_last_phases_leave_places();
    seam_law_clients::a_look_is_shown_rightly();
    seam_law_clients::a_look_is_one_look_at_the_table();
    seam_law_clients::a_further_look_shows_nothing();
    seam_law_clients::clients_go_from_record_to_record();
    seam_law_all::calls_obey_the_laws();
    seam_law_all::reaps_obey_the_laws();
    seam_law_all::looks_obey_the_laws();
    seam_law_book::what_lines_bring_fits();
    seam_law_book::a_book_goes_with_the_world_after_its_round();
    seam_law_book::reals_are_those_of_the_flat_table();
    seam_law_book::the_table_of_a_world_is_that_of_the_rules();
    client_lines_are_gathered();
    what_calls_show_of_cell_parts_is_right();
}

/// The next round begins with the tree that the rules ask for. Where no `balance` was accepted, that is the round's own (`kept`). Where one
/// was, it is the tree that has its boundaries where the homes of the round balance them (`balanced`), and this may take the place of the
/// round's tree (`replaces`).
pub fn the_next_round_has_the_tree_of_the_rules()
    ensures kept { (h : Header) (s : Standing) (tree : Division) (w v : World)
        (p : IsPlayed h s tree w v) → IsFalse (has_balance s.book) →
        HasBounds h s (data_of h s tree w v p None) (standing_of h s tree w v p None
        (with_round_ended s.book)) }
    ensures balanced { (h : Header) (s : Standing) (tree : Division) (w v : World)
        (p : IsPlayed h s tree w v) (u : Division) → IsTrue (has_balance s.book) →
        IsBalanced (positions_of h s tree w v p) h.settings.balance_shift (tree_of s.book) u →
        HasBounds h s (data_of h s tree w v p (Some u))
        (standing_of h s tree w v p (Some u) (with_tree (with_round_ended s.book) u)) }
    ensures replaces { (t u : Division) → IsTree u → HasSameCuts t u → MayReplace t u }
{}

/// So a played round is legal where the next one begins with the tree that the rules ask for (`with_bounds`): one in which no `balance` was
/// accepted (`kept`), and one with the tree that its homes balance (`balanced`).
pub fn a_played_round_is_legal()
    ensures with_bounds { (h : Header) (s : Standing) (tree : Division) (w v : World)
        (p : IsPlayed h s tree w v) (bounds : Option Division)
        (next : Book) → let r = data_of h s tree w v p bounds in let t =
        standing_of h s tree w v p bounds next in
        HasBounds h s r t → IsRound h s r t }
    ensures kept { (h : Header) (s : Standing) (tree : Division) (w v : World)
        (p : IsPlayed h s tree w v) → IsFalse (has_balance s.book) →
        IsRound h s (data_of h s tree w v p None) (standing_of h s tree w v p None
        (with_round_ended s.book)) }
    ensures balanced { (h : Header) (s : Standing) (tree : Division) (w v : World)
        (p : IsPlayed h s tree w v) (u : Division) → IsTrue (has_balance s.book) →
        IsBalanced (positions_of h s tree w v p) h.settings.balance_shift (tree_of s.book) u →
        IsRound h s (data_of h s tree w v p (Some u)) (standing_of h s tree w v p (Some u)
        (with_tree (with_round_ended s.book) u)) }
{
    a_played_round_is_legal_but_for_clients();
    client_lines_are_gathered();
    clients_are_shown_base_parts();
    a_look_after_the_round_shows_nothing();
    without_a_tick_each_client_is_shown_one_look();
    what_clients_are_shown_is_right();
    the_next_round_has_the_tree_of_the_rules();
}

/// The standing after a header goes with a world that was opened for it (`opened`), and still goes with it when a line was read (`line`) or
/// accepted (`entry`).
pub fn a_standing_goes_with_a_world_before_its_round()
    ensures opened { (h : Header) (count : ℕ) → AreLegal h.settings → AreDefs h.defs →
        GoesBetween h (after_header h count) (one_cell h.settings.size) (opened h.defs h.settings) }
    ensures line { (h : Header) (s : Standing) (tree : Division) (w : World) →
        GoesBetween h s tree w → GoesBetween h (with_line s) tree w }
    ensures entry { (h : Header) (s : Standing) (tree : Division) (w : World) (x : Entry) →
        GoesBetween h s tree w → GoesBetween h (with_book s (with_entry s.book x)) tree w }
{
    seam_law_all::an_opened_world_keeps_the_records();
    seam_law_book::an_empty_book_goes_with_an_opened_world();
}

/// The standing that a played round leaves goes with the world that it leaves, by the round's tree (`ended`); also where the next round
/// begins with another tree (`balanced`).
pub fn a_standing_goes_with_the_world_after_its_round()
    ensures ended { (h : Header) (s : Standing) (tree : Division) (w v : World)
        (p : IsPlayed h s tree w v) (bounds : Option Division) →
        GoesBetween h (standing_of h s tree w v p bounds (with_round_ended s.book)) (tree_of s.book)
        v }
    ensures balanced { (h : Header) (s : Standing) (tree : Division) (w v : World)
        (p : IsPlayed h s tree w v) (bounds : Option Division) (u : Division) →
        MayReplace (tree_of s.book) u → GoesBetween h (standing_of h s tree w v p bounds
        (with_tree (with_round_ended s.book) u)) (tree_of s.book) v }
{
    seam_law_all::calls_obey_the_laws();
    seam_law_all::reaps_obey_the_laws();
    seam_law_all::looks_obey_the_laws();
    seam_law_book::what_lines_bring_fits();
    seam_law_book::a_book_goes_with_the_world_after_its_round();
    seam_law_book::each_part_executed_what_was_accepted();
    seam_law_book::reals_are_those_of_the_flat_table();
    seam_law_book::base_parts_are_those_of_the_flat_table();
    client_lines_are_gathered();
    clients_are_shown_base_parts();
    clients_show_what_they_were_told();
}
