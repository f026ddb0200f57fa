//! What is written of residents is what a round prints; and who lives stays as lines come.

ghost use Rattle.std.specs.Prelude.{◌≡◌, ◌++◌, ℕ, List, map, length, codes, Option};
ghost use Rattle.std.specs.List.{All, flat_map, sum_by};
ghost use Rattle.seam_node_steps.specs.Prelude.{Division, TypeDef, Map, World};
ghost use Rattle.seam_rule_rounds.specs.Prelude.{Header, Book, with_entry, with_round_ended, with_tree, number_text, Entry, RoundData};
ghost use Rattle.seam_rule_rounds.specs.Prelude.{Standing, client_text, traced_text};
ghost use Rattle.seam_law_book.specs.Prelude.{as_begun};
ghost use Rattle.seam_law_transcript.specs.Prelude.{IsPlayed, data_of};
ghost use Rattle.seam_defs.specs.declared.flags.Part.TheVariants as part;
ghost use Rattle.seam_world_text.specs.Residents.{AreResidents, ArePresent};
ghost use Rattle.seam_world_text.specs.Worlds.{AreAtRest};
ghost use Rattle.seam_world_text.specs.Finding.{done_found, homes_found, bases_found, ghosts_found, RoutesLeadHome};
ghost use Rattle.seam_world_text.specs.Farewells.{AreFarewells};
ghost use Rattle.seam_world_text.specs.Sums.{shown_count};
ghost use Rattle.seam_report.specs.Spelled.{Versions};
ghost use Rattle.seam_world_text.specs.Told.{ShowOf, told_by};
ghost use Rattle.seam_world_text.specs.RoundParts.{calls_text, ends_text, done_of_type, shown_of};
ghost use Rattle.seam_world_text.specs.declared.farewells.Farewell.{Farewell as AnyFarewell};
ghost use Rattle.seam_world_text.specs.declared.residents.Resident.{Resident as AnyResident};

/// The text of a round is its number line, its steps where they are traced, then what `write_calls` appends, and then what `write_ends`
/// appends.
pub fn a_rounds_text_has_two_parts()
    ensures { (defs : List TypeDef) (r : RoundData) (steps : List ℕ) → traced_text steps defs r
        ≡ number_text (codes "round ") r.number ++ steps ++ calls_text defs r ++ ends_text defs r }
{}

/// Who lived as the open round began stays so when a line is accepted (`entry`); and who lives where a round has ended lives as the next
/// one begins, with the tree of that round (`next`) or with another one (`balanced`).
pub fn residents_stay_as_lines_come()
    ensures entry { (b : Book) (x : Entry) (rs : List AnyResident) → AreResidents (as_begun b) rs →
        AreResidents (as_begun (with_entry b x)) rs }
    ensures next { (b : Book) (rs : List AnyResident) → AreResidents (with_round_ended b) rs →
        AreResidents (as_begun (with_round_ended b)) rs }
    ensures balanced { (b : Book) (t : Division) (rs : List AnyResident) →
        AreResidents (with_round_ended b) rs → AreResidents
        (as_begun (with_tree (with_round_ended b) t)) rs }
{}

// The two worlds off which a played round is read are at rest.
fn a_round_is_read_at_rest()
    ensures { (h : Header) (s : Standing) (tree : Division) (w v : World)
        (p : IsPlayed h s tree w v) → AreAtRest h s tree w v p }
{
    seam_law_book::lines_bring_what_fits();
    seam_law_book::uncreated_numbers_are_untouched();
    seam_law_all::calls_obey_the_laws();
    seam_law_all::reaps_obey_the_laws();
    seam_law_all::looks_obey_the_laws();
    seam_law_book::what_lines_bring_fits();
    seam_law_book::a_book_goes_with_the_world_after_its_round();
    seam_law_book::each_part_executed_what_was_accepted();
}

/// What is found of those who live in a played round is what the round prints. Where its calls have ended, these are the calls (`did`,
/// `dob`). Where it has ended, these are the homes (`homes`), the base parts (`bases`), the ghosts (`ghosts`) and the lines of clients,
/// with what was kept of those whose entities died (`shown`), and how many lines there are (`count`). The lines show one copy of each
/// entity and version (`versions`). In both worlds each real is where the route of its base node leads (`routes`).
pub fn what_is_found_is_printed()
    ensures did { (h : Header) (s : Standing) (tree : Division) (w v : World)
        (p : IsPlayed h s tree w v) (bounds : Option Division) (rs : List AnyResident) →
        ArePresent s.book rs → flat_map (λ r. done_of_type r.made.ty
        (done_found part.Cell p.round.called r.made.entity)) rs
        ≡ (data_of h s tree w v p bounds).did }
    ensures dob { (h : Header) (s : Standing) (tree : Division) (w v : World)
        (p : IsPlayed h s tree w v) (bounds : Option Division) (rs : List AnyResident) →
        ArePresent s.book rs → flat_map (λ r. done_of_type r.made.ty
        (done_found part.Base p.round.called r.made.entity)) rs
        ≡ (data_of h s tree w v p bounds).dob }
    ensures homes { (h : Header) (s : Standing) (tree : Division) (w v : World)
        (p : IsPlayed h s tree w v) (bounds : Option Division) (rs : List AnyResident) →
        ArePresent s.book rs → flat_map (λ r. homes_found v r.made.entity) rs
        ≡ (data_of h s tree w v p bounds).homes }
    ensures bases { (h : Header) (s : Standing) (tree : Division) (w v : World)
        (p : IsPlayed h s tree w v) (bounds : Option Division) (rs : List AnyResident) →
        ArePresent s.book rs → flat_map (λ r. bases_found v r.made.entity) rs
        ≡ (data_of h s tree w v p bounds).bases }
    ensures ghosts { (h : Header) (s : Standing) (tree : Division) (w v : World)
        (p : IsPlayed h s tree w v) (bounds : Option Division) (rs : List AnyResident) →
        ArePresent s.book rs → flat_map (λ r. ghosts_found v r.made.entity) rs
        ≡ (data_of h s tree w v p bounds).ghosts }
    ensures shown { (h : Header) (s : Standing) (tree : Division) (w v : World)
        (p : IsPlayed h s tree w v) (bounds : Option Division) (rs : List AnyResident) →
        ArePresent s.book rs → (kept : Map AnyFarewell) →
        AreFarewells h.defs s.book p.round.called kept → flat_map (shown_of h.defs kept v) rs
        ≡ flat_map (client_text h.defs) (data_of h s tree w v p bounds).shown }
    ensures versions { (h : Header) (s : Standing) (tree : Division) (w v : World)
        (p : IsPlayed h s tree w v) (rs : List AnyResident) → ArePresent s.book rs →
        (kept : Map AnyFarewell) → AreFarewells h.defs s.book p.round.called kept →
        (vs : Versions) × All (λ r. ShowOf vs (told_by kept v r)) rs }
    ensures count { (h : Header) (s : Standing) (tree : Division) (w v : World)
        (p : IsPlayed h s tree w v) (bounds : Option Division) (rs : List AnyResident) →
        ArePresent s.book rs → (kept : Map AnyFarewell) →
        AreFarewells h.defs s.book p.round.called kept → sum_by (shown_count kept v) rs
        ≡ length (data_of h s tree w v p bounds).shown }
    ensures routes { (h : Header) (s : Standing) (tree : Division) (w v : World)
        (p : IsPlayed h s tree w v) → RoutesLeadHome p.round.called × RoutesLeadHome v }
{
    a_round_is_read_at_rest();
    seam_law_transcript::client_lines_are_gathered();
    seam_law_transcript::what_clients_are_shown_is_right();
}
