// SPDX-License-Identifier: MIT

// The script and the core together: a book of accepted lines beside a world, from round to round.
//
// `specs/Going` says which book goes with which quiet world, and `specs/Playing` what the laws below ask of the two, so that the open round
// may be played. Then what its lines bring may be given to that world, and when the world has gone through the round, the book with its
// round ended goes with it again.
//
// For callers, of `proofs/`: `Accounts` and `PartsTable` (what calls make of a part is what the flat table has), `Rows` (the table of a
// world is that of the rules), `Parts` (base parts and their clients along the last phases), `Executed` (what one of all cells has, and
// which calls a part executed), `Numbering` (the batch's calls of each sender), `Ended` (who lives and has a client) and `Further` (a
// client's witness).

ghost use Rattle.std.specs.Prelude.{◌≡◌, ℕ, List, [], ◌++◌, Some, IsTrue};
ghost use Rattle.std.specs.List.{AllByRecursion};
ghost use Rattle.seam_node_steps.specs.Prelude.{AreLegal, AreDefs, type_of, Division, IsQuiet, Event, Part, Create, opened};
ghost use Rattle.seam_node_steps.specs.Prelude.{loaded, PartView, World, node_has_work, RealView};
ghost use Rattle.seam_rule_rounds.specs.Prelude.{Header, Book, empty_book, one_cell, with_round_ended, with_tree, tree_of, created_as};
ghost use Rattle.seam_rule_rounds.specs.Prelude.{live_as, is_shown, accepted, Orders, IsFull, Lists, ExtendsOrders, done_lines};
ghost use Rattle.seam_rule_rounds.specs.Prelude.{ClientReplica, one_look, Standing, HasPlace, home_line, base_line, ghost_lines, rows_of};
ghost use Rattle.seam_law_calls.specs.Prelude.{entity_flow, RunsTo, real_at};
ghost use Rattle.seam_law_rounds.specs.Prelude.{AreReapable, IsBetweenRounds};
ghost use Rattle.seam_law_ghosts.specs.Prelude.{GoesThroughRound, AreCopiesBetweenRounds};
ghost use Rattle.seam_law_all.specs.Prelude.{shown_to, KeepsRecords, MayBeGiven};
ghost use Rattle.seam_law_book.specs.Prelude.{MayReplace, as_begun, IsPresent, AreInPlace, home_read, base_read, ghosts_read, done_in};
ghost use Rattle.seam_law_book.specs.Prelude.{with_done, IsDoneOn, AreInTable, ArePartsInTable, BeginsReal, BeginsPart, frame_of};
ghost use Rattle.seam_law_book.specs.Prelude.{base_node, GoesWith, MayPlay, AreOrdersBefore, HasEnded};
ghost use Rattle.seam_defs.specs.declared.flags.Part.TheVariants as part;
ghost use Rattle.seam_accept.specs.Batches.{batch_of};
ghost use Rattle.seam_law_clients.specs.Tables as world;
ghost use Rattle.seam_law_book.specs.Standings.{clients_called, clients_ended};
ghost use Rattle.seam_law_book.specs.Playing.{IsLoaded};

/// A book without lines goes with a world as it is opened for the same header.
pub fn an_empty_book_goes_with_an_opened_world()
    ensures { (h : Header) → AreLegal h.settings → AreDefs h.defs →
        GoesWith h (empty_book h.settings.size) (one_cell h.settings.size)
        (opened h.defs h.settings) }
{
    seam_law_rounds::a_round_goes_from_record_to_record();
}

/// Where the open round of a book may be played in a world, what it brings may be given to that world (`given`). Once it is loaded, each
/// entity that is there in the round has its real and its base part (`there`), and no other has a real (`comes`). Where its calls leave the
/// world quiet, the entities that it destroys may be reaped (`reaped`).
pub fn what_lines_bring_fits()
    ensures given { (h : Header) (b : Book) (t : Division) (clients : ℕ → ClientReplica) (w : World)
        → MayPlay h b t clients w → MayBeGiven (frame_of h t) w (batch_of h b) }
    ensures there { (h : Header) (b : Book) (t : Division) (clients : ℕ → ClientReplica) (w : World)
        → MayPlay h b t clients w → (e : ℕ) (made : Create) → IsPresent b e made →
        IsLoaded h b w e }
    ensures comes { (h : Header) (b : Book) (t : Division) (clients : ℕ → ClientReplica) (w : World)
        → MayPlay h b t clients w → (e k : ℕ) (r : RealView) → real_at e (loaded w (batch_of h b)) k
        ≡ Some r → (made : Create) × IsPresent b e made }
    ensures reaped { (h : Header) (b : Book) (t : Division) (clients : ℕ →
        ClientReplica) (w : World) → KeepsRecords (frame_of h t) clients w →
        MayBeGiven (frame_of h t) w (batch_of h b) → (es : List Event) (v : World) →
        RunsTo (loaded w (batch_of h b)) es v → IsQuiet node_has_work v →
        AreReapable v (batch_of h b).destroys }
{
    crate::lines_bring_what_fits();
    crate::uncreated_numbers_are_untouched();
    seam_law_rounds::a_base_part_of_a_loaded_world_is_ready();
    seam_law_all::calls_obey_the_laws();
}

/// When the world has gone through that round, in which what the lines destroyed was reaped, and is quiet, the book with its round ended
/// goes with it (`round`), and so does the book that begins the next round with another tree (`balanced`).
pub fn a_book_goes_with_the_world_after_its_round()
    ensures round { (h : Header) (b : Book) (t : Division) (clients : ℕ → ClientReplica) (w : World)
        → MayPlay h b t clients w → (v : World) (round : GoesThroughRound w (batch_of h b) v) →
        HasEnded h b w v round → GoesWith h (with_round_ended b) (tree_of b) v }
    ensures balanced { (h : Header) (b : Book) (t u : Division) (w : World) →
        GoesWith h (with_round_ended b) t w → MayReplace (tree_of b) u →
        GoesWith h (with_tree (with_round_ended b) u) t w }
{
    crate::lines_bring_what_fits();
    crate::uncreated_numbers_are_untouched();
    seam_law_rounds::a_base_part_of_a_loaded_world_is_ready();
    seam_law_clients::who_is_not_there_is_not_shown();
    seam_law_all::calls_obey_the_laws();
    seam_law_all::reaps_obey_the_laws();
    seam_law_all::looks_obey_the_laws();
    what_lines_bring_fits();
}

/// Where the calls of that round leave the world quiet, each part executed all that was accepted for it, each sender's calls in their order
/// and once (`full`), whatever of them each part executed before. Each of them is done on that part of the entity's type (`on`). So the
/// lines of what was executed are those that the rules ask for (`lines`).
pub fn each_part_executed_what_was_accepted()
    ensures full { (h : Header) (b : Book) (t : Division) (clients : ℕ → ClientReplica) (w : World)
        → MayPlay h b t clients w → (es : List Event) (v : World) →
        RunsTo (loaded w (batch_of h b)) es v → IsQuiet node_has_work v → (orders : Orders) →
        ((p : Part) (e : ℕ) → IsFull (accepted (as_begun b) p e) (orders p e)) →
        (p : Part) (e : ℕ) → IsFull (accepted b p e) (with_done orders (done_in h v) p e) }
    ensures on { (h : Header) (b : Book) (t : Division) (clients : ℕ → ClientReplica) (w : World) →
        MayPlay h b t clients w → (es : List Event) (v : World) →
        RunsTo (loaded w (batch_of h b)) es v → IsQuiet node_has_work v → (e k : ℕ) (q : RealView) →
        real_at e v k ≡ Some q → (made : Create) → IsPresent b e made → (p : Part) →
        AllByRecursion (IsDoneOn p (type_of h.defs made.ty)) (done_in h v p e) }
    ensures lines { (h : Header) (b : Book) (v : World) (orders : Orders) →
        ((p : Part) (e : ℕ) → IsFull (accepted b p e) (with_done orders (done_in h v) p e)) →
        (made : List Create) → Lists (created_as b) made → (p : Part) →
        ExtendsOrders b p (orders p) (with_done orders (done_in h v) p)
        (done_lines (done_in h v p) made) }
{
    crate::lines_bring_what_fits();
    crate::uncreated_numbers_are_untouched();
    seam_law_all::calls_obey_the_laws();
    what_lines_bring_fits();
}

/// As the batch is loaded, each real, also one that the round creates, is what the flat table has of its entity (`loaded`). So is each of
/// an entity that lives where the calls have ended (`called`), and to the end of the round (`ended`).
pub fn reals_are_those_of_the_flat_table()
    ensures loaded { (h : Header) (b : Book) (t : Division) (clients : ℕ →
        ClientReplica) (w : World) → MayPlay h b t clients w → (orders : Orders) →
        AreOrdersBefore h b orders w → (e home : ℕ) (r : RealView) (made : Create) →
        real_at e (loaded w (batch_of h b)) home ≡ Some r → IsPresent b e made →
        BeginsReal h made (orders part.Cell e) r }
    ensures called { (h : Header) (b : Book) (t : Division) (clients : ℕ →
        ClientReplica) (w : World) → MayPlay h b t clients w → (orders : Orders) →
        AreOrdersBefore h b orders w → (es : List Event) (v : World) →
        RunsTo (loaded w (batch_of h b)) es v → IsQuiet node_has_work v →
        AreInTable h b (with_done orders (done_in h v)) v }
    ensures ended { (h : Header) (b : Book) (t : Division) (clients : ℕ → ClientReplica) (w : World)
        → MayPlay h b t clients w → (orders : Orders) → AreOrdersBefore h b orders w →
        (v : World) (round : GoesThroughRound w (batch_of h b) v) →
        AreInTable h (with_round_ended b) (with_done orders (done_in h round.called)) v }
{
    crate::lines_bring_what_fits();
    crate::uncreated_numbers_are_untouched();
    seam_law_ghosts::a_load_begins_at_former_places();
    seam_law_ghosts::the_last_phases_leave_places();
    seam_law_all::calls_obey_the_laws();
    seam_law_all::reaps_obey_the_laws();
    what_lines_bring_fits();
}

/// And so is each base part, with or without a client: as the batch is loaded (`loaded`), and that of an entity that lives after every list
/// of events of the calls (`called`), and at the end of the round (`ended`).
pub fn base_parts_are_those_of_the_flat_table()
    ensures loaded { (h : Header) (b : Book) (t : Division) (clients : ℕ →
        ClientReplica) (w : World) → MayPlay h b t clients w → (orders : Orders) →
        AreOrdersBefore h b orders w → (e : ℕ) (p : PartView) (made : Create) →
        ((entity_flow e (loaded w (batch_of h b))).slot (base_node h e)).base.part ≡ Some p →
        IsPresent b e made → BeginsPart h made (orders part.Base e) p }
    ensures called { (h : Header) (b : Book) (t : Division) (clients : ℕ →
        ClientReplica) (w : World) → MayPlay h b t clients w → (orders : Orders) →
        AreOrdersBefore h b orders w → (es : List Event) (v : World) →
        RunsTo (loaded w (batch_of h b)) es v → ArePartsInTable h b (with_done orders (done_in h v))
        v }
    ensures ended { (h : Header) (b : Book) (t : Division) (clients : ℕ → ClientReplica) (w : World)
        → MayPlay h b t clients w → (orders : Orders) → AreOrdersBefore h b orders w →
        (v : World) (round : GoesThroughRound w (batch_of h b) v) → HasEnded h b w v round →
        ArePartsInTable h (with_round_ended b) (with_done orders (done_in h round.called)) v }
{
    crate::lines_bring_what_fits();
    crate::uncreated_numbers_are_untouched();
    seam_law_rounds::a_base_part_of_a_loaded_world_is_ready();
    seam_law_ghosts::the_last_phases_leave_places();
    seam_law_all::calls_obey_the_laws();
    seam_law_all::reaps_obey_the_laws();
    what_lines_bring_fits();
    a_book_goes_with_the_world_after_its_round();
}

/// And each place that the round leaves is one that the rules allow: settled, by the round's tree, where the entity was when the round
/// began and after each call that it executed, whatever order of calls that was.
pub fn places_are_those_that_the_rules_allow()
    ensures { (h : Header) (s t : Standing) (tree : Division) (clients : ℕ →
        ClientReplica) (w : World) → MayPlay h s.book tree clients w →
        AreOrdersBefore h s.book s.orders w → AreInPlace s.places w →
        (v : World) (round : GoesThroughRound w (batch_of h s.book) v) →
        t.orders ≡ with_done s.orders (done_in h round.called) → AreInPlace t.places v →
        (c : Create) (k : ℕ) (q : RealView) → real_at c.entity v k ≡ Some q →
        live_as s.book c.entity ≡ Some c → HasPlace h s t c }
{
    crate::lines_bring_what_fits();
    crate::uncreated_numbers_are_untouched();
    seam_law_ghosts::a_round_leaves_right_places();
    seam_law_ghosts::the_last_phases_leave_places();
    seam_law_all::calls_obey_the_laws();
    seam_law_all::reaps_obey_the_laws();
    what_lines_bring_fits();
}

/// The home line that is read off a world is that of the rules, for each entity that lives in a book that goes with it and is what the flat
/// table has, in its place.
pub fn home_lines_are_those_of_the_rules()
    ensures { (h : Header) (b : Book) (tree : Division) (v : World) (t : Standing) →
        GoesWith h b tree v → AreInTable h b t.orders v → AreInPlace t.places v →
        (c : Create) (k : ℕ) (q : RealView) → real_at c.entity v k ≡ Some q →
        live_as b c.entity ≡ Some c → IsBetweenRounds (frame_of h tree) v →
        home_read c.entity k q ≡ home_line h t c }
{}

/// So is the base line of its base part, whether it has a client or none.
pub fn base_lines_are_those_of_the_rules()
    ensures { (h : Header) (b : Book) (tree : Division) (v : World) (t : Standing) →
        GoesWith h b tree v → ArePartsInTable h b t.orders v → (c : Create) (p : PartView) →
        ((entity_flow c.entity v).slot (base_node h c.entity)).base.part ≡ Some p →
        live_as b c.entity ≡ Some c → base_read c.entity p ≡ base_line h t c }
{}

/// So are the ghost lines: a cell has a copy of such an entity exactly where the rules ask for a ghost, at the entity's public version.
pub fn ghost_lines_are_those_of_the_rules()
    ensures { (h : Header) (b : Book) (tree : Division) (v : World) (t : Standing) →
        AreInTable h b t.orders v → AreInPlace t.places v → (c : Create) (k : ℕ) (q : RealView) →
        real_at c.entity v k ≡ Some q → live_as b c.entity ≡ Some c →
        IsBetweenRounds (frame_of h tree) v → AreCopiesBetweenRounds (frame_of h tree) v →
        ghosts_read c.entity v ≡ ghost_lines h tree t c }
{}

/// The flat table of a world is that of the rules, for the entities that live in a book that goes with it and are what the flat table has
/// (`rows`). So it is where a round ended: after what it was shown in the calls, the client of each entity that lives was shown exactly
/// one look at it (`one_each`), and a further look shows no client of the round anything (`nothing_left`).
pub fn the_table_of_a_world_is_that_of_the_rules()
    ensures rows { (h : Header) (b : Book) (tree : Division) (v : World) (orders : Orders) →
        GoesWith h b tree v → AreInTable h b orders v → IsBetweenRounds (frame_of h tree) v →
        (live : List Create) → Lists (live_as b) live → world.rows_of v ≡ rows_of h orders live }
    ensures one_each { (h : Header) (b : Book) (t : Division) (clients : ℕ →
        ClientReplica) (w : World) → MayPlay h b t clients w → (orders : Orders) →
        AreOrdersBefore h b orders w → (v : World) (round : GoesThroughRound w (batch_of h b) v) →
        HasEnded h b w v round → (live : List Create) → Lists (live_as b) live → (e : ℕ) →
        IsTrue (is_shown b e) → (k : ℕ) (q : RealView) → real_at e v k ≡ Some q →
        shown_to (frame_of h (tree_of b)) e v ≡ shown_to (frame_of h (tree_of b)) e round.called
        ++ one_look (clients_called h t clients b round.called e) e
        (rows_of h (with_done orders (done_in h round.called)) live) }
    ensures nothing_left { (h : Header) (b : Book) (t : Division) (clients : ℕ →
        ClientReplica) (w : World) → MayPlay h b t clients w → (orders : Orders) →
        AreOrdersBefore h b orders w → (v : World) (round : GoesThroughRound w (batch_of h b) v) →
        HasEnded h b w v round → (live : List Create) → Lists (live_as b) live → (e : ℕ) →
        IsTrue (is_shown b e) → one_look (clients_ended h t clients w b v round e) e
        (rows_of h (with_done orders (done_in h round.called)) live) ≡ [] }
{
    seam_defs::laws::others_see_the_ghost();
    seam_law_clients::the_table_has_each_real();
    seam_law_ghosts::the_last_phases_leave_places();
    seam_law_clients::a_further_look_shows_nothing();
    seam_law_clients::clients_go_from_record_to_record();
    seam_law_all::calls_obey_the_laws();
    seam_law_all::reaps_obey_the_laws();
    seam_law_all::looks_obey_the_laws();
    what_lines_bring_fits();
    a_book_goes_with_the_world_after_its_round();
    reals_are_those_of_the_flat_table();
}
