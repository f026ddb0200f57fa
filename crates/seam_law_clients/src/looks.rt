//! Quiet means shown: what one look of a witness tells its client in a world between rounds is one look at the flat table.
//!
//! `specs/Tables` has the flat table of a world, in which each entity is as its real is now. `specs/Witnesses` has the record of clients
//! between rounds: each client shows what its witness remembers that it told. It is kept beside the records of reals and base parts
//! (`seam_law_rounds`) and of places and copies (`seam_law_ghosts`). The look at a flat table, and what lines leave of a client, are those
//! of `seam_rule_clients`. (After the witness and the area of interest of the BigWorld Server Overview: a cell knows whom a witness in it
//! may see, by the real or by the ghost.)
//!
//! For callers, of `proofs/`: `Near` (a look at a flat table depends on those that are near), `Rows` (the rows of a world), `OneLook` (a
//! look) and `LookEnds` (the phase of looks).

ghost use Rattle.std.specs.Prelude.{◌≡◌, ℕ, ◌≤◌, List, None, Some, slice_get};
ghost use Rattle.seam_node_steps.specs.Prelude.{IsQuiet, Event, Settings, TypeDef, GhostsReach, RealView};
ghost use Rattle.seam_node_steps.specs.Prelude.{WitnessView, holders, looks_of, shown_of, after_looking, CellView, known_to, World};
ghost use Rattle.seam_node_steps.specs.Prelude.{node_has_work, opened, look_loaded, Cell};
ghost use Rattle.seam_law_calls.specs.Prelude.{Frame, here_at, IsFrame, RunsTo, real_at};
ghost use Rattle.seam_law_rounds.specs.Prelude.{IsBetweenRounds, first_frame};
ghost use Rattle.seam_law_ghosts.specs.Prelude.{ArePlaced, AreCopiesBetweenRounds};
ghost use Rattle.seam_law_clients.specs.Prelude.{row_of_real, rows_of, FitsWitness, ClientsFit, having_looked, HaveRoomToLook};
ghost use Rattle.seam_rule_clients.specs.Clients.{ClientReplica, after_all_shown};
ghost use Rattle.seam_rule_clients.specs.Looks.{row_of, one_look};

/// The flat table of a world between rounds has the row of each real, and no row of an entity that has none.
pub fn the_table_has_each_real()
    ensures there { (f : Frame) (w : World) → IsBetweenRounds f w → (e k : ℕ) (r : RealView) →
        real_at e w k ≡ Some r → row_of (rows_of w) e ≡ Some (row_of_real (here_at f k) (e, r)) }
    ensures none { (f : Frame) (w : World) → IsBetweenRounds f w → (e : ℕ) → holders w e ≡ 0 →
        row_of (rows_of w) e ≡ None }
{}

/// In a world between rounds, with its copies and its places, let ghosts reach as far as a witness sees. Then what a witness tells in a
/// look, by what its cell knows of others, is one look of its client at the flat table. Whoever is near is known there, by the real or by
/// the present copy, and both show the same. Nothing known is older than what was shown.
pub fn a_look_is_one_look_at_the_table()
    ensures { (f : Frame) (w : World) → IsBetweenRounds f w → AreCopiesBetweenRounds f w →
        ArePlaced f w → GhostsReach f.settings → (e k : ℕ) (r : RealView) → real_at e w k ≡ Some r →
        (v : WitnessView) → (c : ClientReplica) → FitsWitness f w r v c → (cell : CellView) →
        slice_get w.nodes k ≡ Some (Cell cell) → shown_of cell.here r v (known_to cell e)
        ≡ one_look c e (rows_of w) }
{
    seam_law_ghosts::who_may_be_seen_is_known();
    seam_defs::laws::others_see_the_ghost();
    seam_view::looks_are_plain();
}

/// After such a look the client, which was shown its lines one after another, fits its witness again, in the same world.
pub fn a_client_fits_after_a_look()
    ensures { (f : Frame) (w : World) → IsBetweenRounds f w → AreCopiesBetweenRounds f w →
        ArePlaced f w → GhostsReach f.settings → (e k : ℕ) (r : RealView) → real_at e w k ≡ Some r →
        (v : WitnessView) → (c : ClientReplica) → FitsWitness f w r v c → (cell : CellView) →
        slice_get w.nodes k ≡ Some (Cell cell) → (after : WitnessView) →
        after ≡ after_looking (known_to cell e) (looks_of r v (known_to cell e))
        (shown_of cell.here r v (known_to cell e)) r v →
        FitsWitness f w (record r { witness = Some after }) after
        (after_all_shown c (one_look c e (rows_of w))) }
{
    a_look_is_one_look_at_the_table();
    seam_defs::laws::others_see_the_ghost();
    seam_view::versions_shown_never_fall();
}

/// Where the witnesses of a world between rounds look, each has looked exactly once when the world is quiet again. Each real is in the same
/// cell. It is what one look makes of it, by what the cell knew before the phase, whatever the order of the events.
pub fn each_witness_looks_once()
    ensures { (f : Frame) (u : World) → IsBetweenRounds f u → HaveRoomToLook u →
        (vs : List Event) (v : World) → RunsTo (look_loaded u) vs v → IsQuiet node_has_work v →
        (e k : ℕ) (r : RealView) → real_at e u k ≡ Some r → (cell : CellView) →
        slice_get u.nodes k ≡ Some (Cell cell) → real_at e v k ≡ Some (having_looked cell e r) }
{}

/// And where each client fitted its witness before the phase, it fits it again at the quiet end, shown exactly one look at the flat table
/// from before.
pub fn clients_fit_after_the_looks()
    ensures { (f : Frame) (u : World) → IsBetweenRounds f u → AreCopiesBetweenRounds f u →
        ArePlaced f u → GhostsReach f.settings → HaveRoomToLook u → (clients : ℕ → ClientReplica) →
        ClientsFit f clients u → (vs : List Event) (v : World) → RunsTo (look_loaded u) vs v →
        IsQuiet node_has_work v → ClientsFit f (λ e. after_all_shown (clients e)
        (one_look (clients e) e (rows_of u))) v }
{
    seam_law_ghosts::the_last_phases_leave_places();
    a_client_fits_after_a_look();
}

/// The record of clients holds of a world as it is opened, whatever clients show: none has a witness.
pub fn clients_of_an_opened_world_fit()
    ensures { (defs : List TypeDef) (settings : Settings) → IsFrame (first_frame defs settings) →
        1 ≤ settings.bases → (clients : ℕ → ClientReplica) →
        ClientsFit (first_frame defs settings) clients (opened defs settings) }
{}
