//! Never had, never older: what a client is shown in a round, over every list of events.
//!
//! What a look tells depends on what the cell knows, which within a round may be old: but it is what each entity was at some version, and
//! the view keeps out what is older than what was shown. So the client is shown rightly (*ShowsRightly* of `seam_rule_clients`): one line
//! after another may come, and each is true. (After the witness and the area of interest of the BigWorld Server Overview.)
//!
//! `specs/Fits` has what a client and its witness agree on within a round, `specs/Telling` what a witness told over a list of events, and
//! `specs/RoundTruths` what is true between two worlds: nothing of before the first.
//!
//! For callers, of `proofs/`: `InTurn` (lines in parts) and `ShownOnce` (the phase of looks).

ghost use Rattle.std.specs.Prelude.{◌≡◌, ◌+◌, ℕ, List, [], ◌++◌, None, Some};
ghost use Rattle.seam_view.specs.Replica.{IsView};
ghost use Rattle.seam_node_steps.specs.Prelude.{GhostsReach, IsQuiet, Event, Batch, Shown, RealView, WitnessView};
ghost use Rattle.seam_node_steps.specs.Prelude.{looks_of, shown_of, after_looking, CellView, known_to, loaded, look_loaded, World};
ghost use Rattle.seam_node_steps.specs.Prelude.{node_has_work};
ghost use Rattle.seam_law_calls.specs.Prelude.{Frame, here_at, entity_flow, IsSpared, home_of, shown_at};
ghost use Rattle.seam_law_calls.specs.Prelude.{HasClient, HasToldAtMost, HasRoomFor, RunsTo, real_at};
ghost use Rattle.seam_law_rounds.specs.Prelude.{IsBetweenRounds, framed, MayBeLoaded, HasPartsBetweenRounds};
ghost use Rattle.seam_law_rounds.specs.Prelude.{HasSmallNumbers, MayBegin};
ghost use Rattle.seam_law_ghosts.specs.Prelude.{AreCopiesBetweenRounds, ArePlaced};
ghost use Rattle.seam_law_clients.specs.Prelude.{FitsWitness, ClientsFit, HaveRoomToLook, rows_of, FitsWithin, truth_of_look};
ghost use Rattle.seam_law_clients.specs.Prelude.{known_between, true_between, ComesBetween, TellsRightly};
ghost use Rattle.seam_rule_clients.specs.Clients.{ClientReplica, after_all_shown};
ghost use Rattle.seam_rule_clients.specs.Lines.{ShowsRightly};
ghost use Rattle.seam_rule_clients.specs.Looks.{one_look};

/// Where a client fits the witness of its entity's real, the client is shown rightly what the witness tells in a look: one line after
/// another may come, and shows what the real is now, or what the cell knows of another (`shows`). Once it is, it fits the witness again
/// (`fits`). Nothing is asked of how new that is which the cell knows.
pub fn a_look_is_shown_rightly()
    ensures shows { (f : Frame) (k e : ℕ) (r : RealView) (v : WitnessView) (c : ClientReplica)
        (cell : CellView) → cell.here ≡ here_at f k → FitsWithin f r v c →
        ShowsRightly (truth_of_look f r cell e) e c (shown_of cell.here r v (known_to cell e)) }
    ensures fits { (f : Frame) (k e : ℕ) (r : RealView) (v : WitnessView) (c : ClientReplica)
        (cell : CellView) → cell.here ≡ here_at f k → FitsWithin f r v c → (after : WitnessView) →
        after ≡ after_looking (known_to cell e) (looks_of r v (known_to cell e))
        (shown_of cell.here r v (known_to cell e)) r v →
        FitsWithin f (record r { witness = Some after }) after
        (after_all_shown c (shown_of cell.here r v (known_to cell e))) }
{}

/// A witness tells its client rightly over every list of events, of calls and of ticks, whatever the order in which copies come: each line
/// may be shown when it is its turn. `starts`: where the client fits and the first number is the witness's next. `known`: each shows what
/// the real was, or what a cell knew, in some world since. `round`: in a round, what entities were since its load, and nothing of before.
/// No more is asked than that the witness's updates stay few, which `seam_law_calls` has.
pub fn a_witness_tells_rightly()
    ensures starts { (f : Frame) (e ty first : ℕ) (w v : World) → HasClient f e ty first w →
        (k : ℕ) (r : RealView) → real_at e w k ≡ Some r → (x : WitnessView) → r.witness ≡ Some x →
        x.sent + 1 ≡ first → (c : ClientReplica) → FitsWithin f r x c →
        TellsRightly f e ty first (known_between f e w v) c w ×
        TellsRightly f e ty first (true_between f e w v) c w }
    ensures known { (f : Frame) (e ty first n : ℕ) (w v : World) (es : List Event)
        (c : ClientReplica) → TellsRightly f e ty first (known_between f e w v) c w →
        HasClient f e ty first w → IsSpared e w → HasRoomFor e n w →
        ((u : World) → ComesBetween w v u → HasToldAtMost e n u) → RunsTo w es v →
        TellsRightly f e ty first (known_between f e w v) c v }
    ensures round { (f : Frame) (w : World) (b : Batch) → MayBegin f w b →
        AreCopiesBetweenRounds f w → (e ty first n : ℕ) (v : World) (es : List Event)
        (c : ClientReplica) → TellsRightly (framed f b) e ty first
        (true_between (framed f b) e (loaded w b) v) c (loaded w b) →
        HasClient (framed f b) e ty first (loaded w b) → IsSpared e (loaded w b) →
        HasRoomFor e n (loaded w b) → ((u : World) → ComesBetween (loaded w b) v u →
        HasToldAtMost e n u) → RunsTo (loaded w b) es v →
        TellsRightly (framed f b) e ty first (true_between (framed f b) e (loaded w b) v) c v }
{
    seam_law_ghosts::ghosts_of_a_round_are_true();
    seam_law_ghosts::copies_go_from_record_to_record();
    seam_defs::laws::others_see_the_ghost();
}

/// What a client was shown is a first part of what its witness told, so it was shown rightly, too: no line is older than one before it, and
/// none shows what was not so. Where the world is quiet it was shown all of it, and fits the witness.
pub fn a_client_is_shown_rightly()
    ensures known { (f : Frame) (e ty first : ℕ) (w v u : World) (c : ClientReplica) →
        TellsRightly f e ty first (known_between f e w v) c u →
        ShowsRightly (known_between f e w v) e c (shown_at ((entity_flow e u).slot (home_of f e))) }
    ensures round { (f : Frame) (e ty first : ℕ) (w v u : World) (c : ClientReplica) →
        TellsRightly f e ty first (true_between f e w v) c u →
        ShowsRightly (true_between f e w v) e c (shown_at ((entity_flow e u).slot (home_of f e))) }
    ensures quiet { (f : Frame) (e ty first : ℕ) (w v u : World) (c : ClientReplica) →
        (h : TellsRightly f e ty first (true_between f e w v) c u) → HasClient f e ty first u →
        IsQuiet node_has_work u → FitsWithin f h.one.real h.witness
        (after_all_shown c (shown_at ((entity_flow e u).slot (home_of f e)))) }
{}

/// Where a round's calls leave the world quiet, a client that fitted its witness at the load and was shown what that told since fits it
/// again, also in what it was shown of others: nothing at a version above the public one. So the record of clients goes on to reaps and
/// looks.
pub fn a_client_fits_where_calls_end()
    ensures { (f : Frame) (w : World) (b : Batch) → MayBegin f w b → AreCopiesBetweenRounds f w →
        (v : World) (es : List Event) → RunsTo (loaded w b) es v → IsQuiet node_has_work v →
        (e ty first : ℕ) (c : ClientReplica) (r : RealView) (x : WitnessView) →
        FitsWitness (framed f b) (loaded w b) r x c → (h : TellsRightly (framed f b) e ty first
        (true_between (framed f b) e (loaded w b) v) c v) →
        HasClient (framed f b) e ty first v → FitsWitness (framed f b) v h.one.real h.witness
        (after_all_shown c (shown_at ((entity_flow e v).slot (home_of (framed f b) e)))) }
{
    seam_law_ghosts::ghosts_of_a_round_are_true();
    seam_law_ghosts::copies_go_from_record_to_record();
    seam_defs::laws::others_see_the_ghost();
}

/// Where the witnesses of a world between rounds look, each client was shown exactly one look, at the flat table from before, when the
/// world is quiet again. Its proxy showed those lines, in order, after what it had shown in the round, whatever the order of the events
/// (`all`). At each moment until then it showed a first part of them (`until`).
pub fn each_client_is_shown_one_look()
    ensures until { (f : Frame) (u : World) → IsBetweenRounds f u → HasPartsBetweenRounds f u →
        HasSmallNumbers f u → AreCopiesBetweenRounds f u → ArePlaced f u → GhostsReach f.settings →
        HaveRoomToLook u → (clients : ℕ → ClientReplica) → ClientsFit f clients u →
        (vs : List Event) (v : World) → RunsTo (look_loaded u) vs v → (e k : ℕ) (r : RealView) →
        real_at e u k ≡ Some r → (x : WitnessView) → r.witness ≡ Some x → (rest : List Shown) ×
        (shown_at ((entity_flow e v).slot (home_of f e)) ++ rest
        ≡ shown_at ((entity_flow e u).slot (home_of f e))
        ++ one_look (clients e) e (rows_of u)) }
    ensures all { (f : Frame) (u : World) → IsBetweenRounds f u → HasPartsBetweenRounds f u →
        HasSmallNumbers f u → AreCopiesBetweenRounds f u → ArePlaced f u → GhostsReach f.settings →
        HaveRoomToLook u → (clients : ℕ → ClientReplica) → ClientsFit f clients u →
        (vs : List Event) (v : World) → RunsTo (look_loaded u) vs v → IsQuiet node_has_work v →
        (e k : ℕ) (r : RealView) → real_at e u k ≡ Some r → (x : WitnessView) → r.witness ≡ Some x →
        shown_at ((entity_flow e v).slot (home_of f e))
        ≡ shown_at ((entity_flow e u).slot (home_of f e)) ++ one_look (clients e) e (rows_of u) }
{
    crate::looks::a_look_is_one_look_at_the_table();
}

/// Once it was shown one look, a client is shown nothing by a further one: at the flat table of any world (`same`), since none is in it
/// twice; and so at that of the quiet end of the looks (`after`), which leave the table (`table`).
pub fn a_further_look_shows_nothing()
    ensures same { (w : World) (c : ClientReplica) → IsView c.others → (e : ℕ) →
        one_look (after_all_shown c (one_look c e (rows_of w))) e (rows_of w) ≡ [] }
    ensures table { (f : Frame) (u : World) → IsBetweenRounds f u → HaveRoomToLook u →
        (vs : List Event) (v : World) → RunsTo (look_loaded u) vs v → IsQuiet node_has_work v →
        rows_of v ≡ rows_of u }
    ensures after { (f : Frame) (u : World) → IsBetweenRounds f u → HaveRoomToLook u →
        (vs : List Event) (v : World) → RunsTo (look_loaded u) vs v → IsQuiet node_has_work v →
        (c : ClientReplica) → IsView c.others → (e : ℕ) →
        one_look (after_all_shown c (one_look c e (rows_of u))) e (rows_of v) ≡ [] }
{
    seam_law_ghosts::the_last_phases_leave_places();
}

/// The clients of a whole round. Let a world keep the records between rounds, a batch fit them, and each client fit its witness as the
/// batch is loaded. Then each client is shown rightly, over every list of events, what its proxy showed since (`shown`), and an entity
/// without a witness is shown nothing (`bare`). Where the calls leave the world quiet, the clients, which were shown that, fit their
/// witnesses again (`fits`): so the record of clients goes on to reaps and looks.
pub fn clients_of_a_round_are_shown_rightly()
    ensures shown { (f : Frame) (w : World) (b : Batch) → MayBeLoaded f w b →
        AreCopiesBetweenRounds f w → (clients : ℕ → ClientReplica) →
        ClientsFit (framed f b) clients (loaded w b) → (v : World) (es : List Event) →
        RunsTo (loaded w b) es v → (e k : ℕ) (r : RealView) → real_at e (loaded w b) k ≡ Some r →
        (x : WitnessView) → r.witness ≡ Some x → ShowsRightly
        (true_between (framed f b) e (loaded w b) v) e (clients e)
        (shown_at ((entity_flow e v).slot (home_of (framed f b) e))) }
    ensures bare { (f : Frame) (w : World) (b : Batch) → MayBeLoaded f w b →
        (v : World) (es : List Event) → RunsTo (loaded w b) es v → (e k : ℕ) (r : RealView) →
        real_at e (loaded w b) k ≡ Some r → r.witness ≡ None →
        shown_at ((entity_flow e v).slot (home_of (framed f b) e)) ≡ [] }
    ensures fits { (f : Frame) (w : World) (b : Batch) → MayBeLoaded f w b →
        AreCopiesBetweenRounds f w → (clients : ℕ → ClientReplica) →
        ClientsFit (framed f b) clients (loaded w b) → (v : World) (es : List Event) →
        RunsTo (loaded w b) es v → IsQuiet node_has_work v →
        ClientsFit (framed f b) (λ e. after_all_shown (clients e)
        (shown_at ((entity_flow e v).slot (home_of (framed f b) e)))) v }
{
    seam_law_ghosts::ghosts_of_a_round_are_true();
    seam_law_ghosts::copies_go_from_record_to_record();
    seam_defs::laws::others_see_the_ghost();
    a_client_fits_where_calls_end();
}
