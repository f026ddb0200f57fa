// What holds of all lines, each law on a function that does nothing.
ghost use Rattle.std.specs.Prelude.{◌≡◌, ◌++◌, ℕ, List, [], ◌∷◌, ◌≤◌, Some};
ghost use Rattle.seam_view.specs.Replica.{NeverFalls};
ghost use Rattle.seam_defs.specs.Settings.{standard};
ghost use Rattle.seam_defs.specs.declared.states.State.{State};
ghost use Rattle.seam_call.specs.declared.shown.Line.{Line};
ghost use Rattle.seam_call.specs.declared.shown.Shown.{Shown};
ghost use Rattle.seam_call.specs.declared.shown.Shown.TheVariants.{Own, Enter, Set, Leave};
ghost use Rattle.seam_rule_clients.specs.Clients.{ClientReplica, new_client, after_all_shown, after_lines};
ghost use Rattle.seam_rule_clients.specs.Looks.{Row, one_look, look_at, ShowsTable};
ghost use Rattle.seam_rule_clients.specs.Lines.{MayShow, MayShowAll};
ghost use Rattle.seam_rule_clients.specs.WalkOutExample.{at, copy_at, table_of, once, twice, left};

/// What a client shows follows from its lines alone, which may come in parts.
pub fn lines_follow_lines()
    ensures { (c : ClientReplica) (lines more : List Line) → after_lines c (lines ++ more)
        ≡ after_lines (after_lines c lines) more }
{}

/// No client is shown an older state than it was shown before: the version last shown of an entity never falls, also after it left the
/// view, and neither does that of the client's own entity.
pub fn no_line_is_older()
    ensures others { (me : ℕ) (c : ClientReplica) (xs : List Shown) → MayShowAll me c xs
        → NeverFalls c.others (after_all_shown c xs).others }
    ensures own { (me : ℕ) (c : ClientReplica) (xs : List Shown) → MayShowAll me c xs →
        (v : ℕ) (s : State) → c.own ≡ Some (v, s) → (w : ℕ) × (t : State) ×
        ((after_all_shown c xs).own ≡ Some (w, t)) × (v ≤ w) }
{}

/// With the radius 300 and the hysteresis 10 an entity enters at the distance 300, is set at 310 and leaves at 311.
pub fn view_has_hysteresis()
    ensures enters { one_look (new_client standard) 1 (table_of 0 1300) ≡ Own 0 (at 1000) ∷
        Enter 2 (copy_at 0 1300) ∷ [] }
    ensures stays { one_look once 1 (table_of 1 1310) ≡ Set 2 (copy_at 1 1310) ∷ [] }
    ensures leaves { one_look twice 1 (table_of 2 1311) ≡ Leave 2 ∷ [] }
{}

/// Lines that may not come, beside the nearest that may: a set at the version last shown; an enter one beyond the radius; an enter at an
/// older version than was shown before the entity left; a leave of what is not in view; an enter of what is, or of the client's own entity.
pub fn wrong_lines_may_not_come()
    ensures same_version { ¬ (MayShow 1 once (Set 2 (copy_at 0 1300))) }
    ensures too_far { ¬ (MayShow 1 once (Enter 3 (copy_at 0 1301))) }
    ensures near { MayShow 1 once (Enter 3 (copy_at 0 1300)) }
    ensures older { ¬ (MayShow 1 left (Enter 2 (copy_at 0 1300))) }
    ensures not_older { MayShow 1 left (Enter 2 (copy_at 1 1300)) }
    ensures not_in_view { ¬ (MayShow 1 once (Leave 3)) }
    ensures in_view_already { ¬ (MayShow 1 once (Enter 2 (copy_at 1 1300))) }
    ensures itself { ¬ (MayShow 1 once (Enter 1 (copy_at 0 1000))) }
{}

/// Where a look shows a client nothing, the client shows the table: all entities within the radius are in view, and none beyond radius and
/// hysteresis, each at its public version, and its own entity at its version.
pub fn look_shows_the_table()
    ensures { (c : ClientReplica) (r : Row) (others : List Row) → look_at c r others ≡ [] →
        ShowsTable c r others }
{}
