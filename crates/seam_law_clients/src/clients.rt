//! The clients of a whole round: the record of clients goes from record to record, each is shown its base part where that is due, and the
//! client of an entity that dies is shown no more.
//!
//! `shown` has what clients are shown of cell parts in each phase of a round. Here stand the phases together, with the load and the reaps,
//! which no client is shown anything of. `specs/Clients` has what clients show along a round, `specs/BaseLines` what a client is shown of
//! its entity's base part.
//!
//! For callers, of `proofs/`: `Loading` (the load), `Reaping` (the reaps), `Room` (of looks), `Round` (the phases together) and `BaseLines`
//! (what a part's client is shown over a list of events).
//!
//! `specs/Crossing` has the worlds of a worked round.

ghost use Rattle.std.specs.Prelude.{◌≡◌, ℕ, ◌==◌, ◌≤◌, List, [], ◌∷◌, ◌++◌, None, Some, if◌then◌else◌};
ghost use Rattle.std.specs.List.{AllByRecursion, list_any};
ghost use Rattle.seam_node_steps.specs.Prelude.{IsQuiet, Event, Settings, TypeDef, GhostsReach, standard, Batch, Enter, RealView, Msg};
ghost use Rattle.seam_node_steps.specs.Prelude.{Update, PartView, ProxyView, empty_world, lines_of_client, World, node_has_work, opened};
ghost use Rattle.seam_node_steps.specs.Prelude.{loaded, reaps_loaded, look_loaded, LeadsTo, holders, node_steps};
ghost use Rattle.seam_law_flow.specs.Prelude.{letters_of};
ghost use Rattle.seam_law_calls.specs.Prelude.{Frame, here_at, IsInFrame, entity_flow, IsFrame, IsSpared, events_of, from_sender};
ghost use Rattle.seam_law_calls.specs.Prelude.{home_of, FindsClient, HasNoPart, NoUpdateComes, RunsTo, real_at, real_in, NothingIsStray};
ghost use Rattle.seam_law_calls.specs.Prelude.{NoneIsStrayAtBases};
ghost use Rattle.seam_law_rounds.specs.Prelude.{IsBetweenRounds, framed, first_frame, AreReapable, base_calls_of, HasPartsBetweenRounds};
ghost use Rattle.seam_law_rounds.specs.Prelude.{HasNoCallsToBase, HasSmallNumbers, MayBeLoaded, NeverShown, opening};
ghost use Rattle.seam_law_ghosts.specs.Prelude.{AreCopiesBetweenRounds, ArePlaced, GoesThroughRound};
ghost use Rattle.seam_law_clients.specs.Prelude.{rows_of, ClientsFit, HaveRoomToLook, clients_loaded, clients_shown, base_lines};
ghost use Rattle.seam_law_clients.specs.Prelude.{first_lines, ShowsItsPart};
ghost use Rattle.seam_call.specs.declared.shown.Update.{Update as UpdateData};
ghost use Rattle.seam_node_steps.specs.ViewRounds as view;
ghost use Rattle.seam_rule_clients.specs.Clients.{ClientReplica, new_client, after_all_shown};
ghost use Rattle.seam_rule_clients.specs.Looks.{one_look};
ghost use Rattle.seam_law_clients.specs.Crossing as crossing;

/// The record of clients holds of a world as it is opened, whatever clients show: there is none. It holds again of a loaded world, in which
/// the batch's clients show nothing yet (`load`). It holds where the calls leave the world quiet, of the clients that were shown what their
/// proxies showed (`calls`); of the same clients where reaps do (`reaps`); and where looks do, of the clients that were shown one look
/// (`looks`), for which each has room (`room`).
///
/// So a whole round keeps it (`round`): where the world is quiet at the end, the clients, which were shown what their proxies showed in the
/// round, fit their witnesses. A round needs only that the world keeps the records at its start, that the batch fits, and that ghosts reach
/// as far as a witness sees.
pub fn clients_go_from_record_to_record()
    ensures opened { (defs : List TypeDef) (settings : Settings) →
        IsFrame (first_frame defs settings) → 1 ≤ settings.bases → (clients : ℕ → ClientReplica) →
        ClientsFit (first_frame defs settings) clients (opened defs settings) }
    ensures load { (f : Frame) (w : World) (b : Batch) → MayBeLoaded f w b →
        (clients : ℕ → ClientReplica) → ClientsFit f clients w →
        ClientsFit (framed f b) (clients_loaded f b clients) (loaded w b) }
    ensures calls { (f : Frame) (w : World) (b : Batch) → MayBeLoaded f w b →
        AreCopiesBetweenRounds f w → (clients : ℕ → ClientReplica) →
        ClientsFit (framed f b) clients (loaded w b) → (v : World) (es : List Event) →
        RunsTo (loaded w b) es v → IsQuiet node_has_work v →
        ClientsFit (framed f b) (clients_shown (framed f b) clients v) v }
    ensures reaps { (f : Frame) (u : World) → IsBetweenRounds f u → (es : List ℕ) →
        AreReapable u es → (vs : List Event) (v : World) → RunsTo (reaps_loaded u es) vs v →
        (clients : ℕ → ClientReplica) → ClientsFit f clients u → ClientsFit f clients v }
    ensures looks { (f : Frame) (u : World) → IsBetweenRounds f u → HasPartsBetweenRounds f u →
        HasSmallNumbers f u → AreCopiesBetweenRounds f u → ArePlaced f u → GhostsReach f.settings →
        (clients : ℕ → ClientReplica) → ClientsFit f clients u → (vs : List Event) (v : World) →
        RunsTo (look_loaded u) vs v → IsQuiet node_has_work v →
        ClientsFit f (λ e. after_all_shown (clients e) (one_look (clients e) e (rows_of u))) v }
    ensures room { (f : Frame) (u : World) → HasPartsBetweenRounds f u → HasSmallNumbers f u →
        HaveRoomToLook u }
    ensures round { (f : Frame) (w : World) (b : Batch) → MayBeLoaded f w b →
        AreCopiesBetweenRounds f w → GhostsReach f.settings → (clients : ℕ → ClientReplica) →
        ClientsFit f clients w → (v : World) → GoesThroughRound w b v → IsQuiet node_has_work v →
        ClientsFit (framed f b) (clients_shown (framed f b) (clients_loaded f b clients) v) v }
{
    crate::looks::clients_of_an_opened_world_fit();
    crate::looks::clients_fit_after_the_looks();
    crate::shown::clients_of_a_round_are_shown_rightly();
    crate::shown::each_client_is_shown_one_look();
}

/// Who is not there is not shown. Let no witness have shown an entity to its client up to a round, and let it have no real as the round is
/// loaded: then none has at the end of the round.
pub fn who_is_not_there_is_not_shown()
    ensures { (f : Frame) (w : World) (b : Batch) → MayBeLoaded f w b → AreCopiesBetweenRounds f w →
        (clients : ℕ → ClientReplica) → ClientsFit f clients w → (v : World) →
        GoesThroughRound w b v → IsQuiet node_has_work v → (x : ℕ) → NeverShown w x →
        ((k : ℕ) → real_at x (loaded w b) k ≡ None) → NeverShown v x }
{
    seam_law_ghosts::ghosts_of_a_round_are_true();
    seam_law_ghosts::copies_go_from_record_to_record();
    seam_defs::laws::others_see_the_ghost();
}

/// Of its entity's base part a client is shown what its type has for clients. As it is attached, it is shown the part once (`load`: so is a
/// new client, and one that was there is shown nothing). Then it is shown the part once after each call that changed what it is shown.
/// These lines come between its other lines, and the numbers of all follow one another. That holds over every list of events in which the
/// entity is not reaped (`along`), and so in a round (`round`). Where the round's calls leave the world quiet, the calls that the part
/// executed are all those of the batch (`all`).
pub fn the_base_part_is_shown_at_each_change()
    ensures along { (f : Frame) (e : ℕ) (w v : World) (es : List Event) → IsInFrame f w →
        IsSpared e w → RunsTo w es v → (k : ℕ) (p : PartView) (x : ProxyView) →
        ((entity_flow e w).slot k).base.part ≡ Some p → p.proxy ≡ Some x →
        ShowsItsPart (here_at f k) p x ((entity_flow e v).slot k).base.part }
    ensures load { (f : Frame) (w : World) (b : Batch) → MayBeLoaded f w b →
        (e : ℕ) (p : PartView) (x : ProxyView) → ((entity_flow e (loaded w b)).slot
        (home_of f e)).base.part ≡ Some p → p.proxy ≡ Some x →
        base_lines x.lines ≡ (if list_any (λ q. q == e) b.clients
        then first_lines (here_at f (home_of f e)) p else []) }
    ensures round { (f : Frame) (w : World) (b : Batch) → MayBeLoaded f w b →
        (e k : ℕ) (r : RealView) → real_at e (loaded w b) k ≡ Some r →
        (v : World) (es : List Event) → RunsTo (loaded w b) es v → (p : PartView) (x : ProxyView) →
        ((entity_flow e (loaded w b)).slot (home_of f e)).base.part ≡ Some p → p.proxy ≡ Some x →
        ShowsItsPart (here_at f (home_of f e)) p x ((entity_flow e v).slot
        (home_of f e)).base.part }
    ensures all { (f : Frame) (w : World) (b : Batch) → MayBeLoaded f w b →
        (e k : ℕ) (r : RealView) → real_at e (loaded w b) k ≡ Some r →
        (v : World) (es : List Event) → RunsTo (loaded w b) es v → (p : PartView) (x : ProxyView) →
        ((entity_flow e (loaded w b)).slot (home_of f e)).base.part ≡ Some p → p.proxy ≡ Some x →
        IsQuiet node_has_work v → (h : ShowsItsPart (here_at f (home_of f e)) p x
        ((entity_flow e v).slot (home_of f e)).base.part) → (s : ℕ) →
        letters_of (from_sender s) h.calls ≡ base_calls_of b e s }
{}

/// The client of an entity that dies in the round was shown its lines up to then: where entities are reaped, a base part that is there is
/// what it was where the calls ended, with its client and the lines that this was shown (`until`). Where the world is quiet again the base
/// parts of those that were reaped are gone, and their clients with them (`gone`).
pub fn a_reaped_client_is_shown_no_more()
    ensures until { (f : Frame) (u : World) → IsBetweenRounds f u → HasPartsBetweenRounds f u →
        (es : List ℕ) → AreReapable u es → (vs : List Event) (v : World) →
        RunsTo (reaps_loaded u es) vs v → (e home : ℕ) (r : RealView) → real_at e u home ≡ Some r →
        (k : ℕ) (p : PartView) → ((entity_flow e v).slot k).base.part ≡ Some p →
        ((entity_flow e u).slot k).base.part ≡ Some p }
    ensures gone { (f : Frame) (u : World) → IsBetweenRounds f u → HasPartsBetweenRounds f u →
        (es : List ℕ) → AreReapable u es → (vs : List Event) (v : World) →
        RunsTo (reaps_loaded u es) vs v → IsQuiet node_has_work v →
        AllByRecursion (λ e. HasNoPart e v) es }
{}

/// Where entities are reaped, and where witnesses look, no call to a base part waits (`reap_calls`, `look_calls`). And nothing about an
/// entity that was there is stray at a base node: no message, no order, a Reap among them, and no part (`reaps`, `looks`).
pub fn nothing_is_stray_at_a_base_node_in_the_last_phases()
    ensures reap_calls { (f : Frame) (u : World) → IsBetweenRounds f u → HasPartsBetweenRounds f u →
        HasSmallNumbers f u → (es : List ℕ) → AreReapable u es → (vs : List Event) (v : World) →
        LeadsTo node_has_work node_steps (reaps_loaded u es) vs v → (e : ℕ) → holders u e ≡ 1 →
        HasNoCallsToBase e v }
    ensures reaps { (f : Frame) (u : World) → IsBetweenRounds f u → HasPartsBetweenRounds f u →
        HasSmallNumbers f u → (es : List ℕ) → AreReapable u es → (vs : List Event) (v : World) →
        LeadsTo node_has_work node_steps (reaps_loaded u es) vs v → (e : ℕ) → holders u e ≡ 1 →
        NothingIsStray f e v }
    ensures look_calls { (f : Frame) (u : World) → IsBetweenRounds f u → HasPartsBetweenRounds f u →
        HasSmallNumbers f u → (vs : List Event) (v : World) →
        LeadsTo node_has_work node_steps (look_loaded u) vs v → (e : ℕ) → holders u e ≡ 1 →
        HasNoCallsToBase e v }
    ensures looks { (f : Frame) (u : World) → IsBetweenRounds f u → HasPartsBetweenRounds f u →
        HasSmallNumbers f u → (vs : List Event) (v : World) →
        LeadsTo node_has_work node_steps (look_loaded u) vs v → (e : ℕ) → holders u e ≡ 1 →
        NothingIsStray f e v }
{}

/// No input of a base node is stray, whatever entity it is about: in a round, where entities are reaped, and where witnesses look.
pub fn no_input_of_a_base_node_is_stray_in_any_phase()
    ensures round { (f : Frame) (w : World) (b : Batch) → MayBeLoaded f w b →
        (v : World) (es : List Event) → RunsTo (loaded w b) es v → NoneIsStrayAtBases v }
    ensures reaps { (f : Frame) (u : World) → IsBetweenRounds f u → HasPartsBetweenRounds f u →
        HasSmallNumbers f u → (es : List ℕ) → AreReapable u es → (vs : List Event) (v : World) →
        RunsTo (reaps_loaded u es) vs v → NoneIsStrayAtBases v }
    ensures looks { (f : Frame) (u : World) → IsBetweenRounds f u → HasPartsBetweenRounds f u →
        HasSmallNumbers f u → (vs : List Event) (v : World) → RunsTo (look_loaded u) vs v →
        NoneIsStrayAtBases v }
{}

/// An update without a client never comes. In a round, and where witnesses look, take a message that is an update and the first of its
/// link: the client of its entity is at the base node to which it goes, and may be offered it. Where entities are reaped no update is on
/// its way.
pub fn an_update_without_a_client_never_comes()
    ensures round { (f : Frame) (w : World) (b : Batch) → MayBeLoaded f w b →
        (v : World) (es : List Event) → RunsTo (loaded w b) es v →
        (e a k : ℕ) (u : UpdateData) (ms : List Msg) → (entity_flow e v).mail a k ≡ Update u ∷ ms →
        FindsClient (framed f b) e k ((entity_flow e v).slot k).base u }
    ensures reaps { (f : Frame) (u : World) → IsBetweenRounds f u → HasPartsBetweenRounds f u →
        (es : List ℕ) → AreReapable u es → (vs : List Event) (v : World) →
        RunsTo (reaps_loaded u es) vs v → (e : ℕ) → NoUpdateComes e v }
    ensures looks { (f : Frame) (u : World) → IsBetweenRounds f u → HasPartsBetweenRounds f u →
        HasSmallNumbers f u → (vs : List Event) (v : World) → RunsTo (look_loaded u) vs v →
        (e a k : ℕ) (m : UpdateData) (ms : List Msg) → (entity_flow e v).mail a k ≡ Update m ∷ ms →
        FindsClient f e k ((entity_flow e v).slot k).base m }
{
    seam_law_rounds::an_update_finds_its_client();
}

/// What these laws, and those of `shown`, ask is true of an opened world and a batch. The batch creates two witnesses, on either side of a
/// boundary between two cells, and an entity near it. It fits, and the clients, which show nothing yet, fit their witnesses (`may`,
/// `copies`, `reach`, `none`, `fits`). Over the events of its calls that entity crosses the boundary, and the world is quiet (`before`,
/// `calls`, `quiet`, `after`). It goes through the whole round (`round`, `ended`). In that round each client is shown its own entity, the
/// other one over the boundary, and the one that crossed, which one of them sees over it (`shown_1`, `shown_2`).
pub fn an_entity_crosses_between_two_witnesses()
    ensures may { MayBeLoaded opening empty_world crossing.batch }
    ensures copies { AreCopiesBetweenRounds opening empty_world }
    ensures reach { GhostsReach standard }
    ensures none { ClientsFit opening (λ e. new_client standard) empty_world }
    ensures fits { ClientsFit (framed opening crossing.batch)
        (clients_loaded opening crossing.batch (λ e. new_client standard))
        (loaded empty_world crossing.batch) }
    ensures witnesses { (real_at 1 (loaded empty_world crossing.batch) 0 ≡ Some crossing.watcher_1)
        × (real_at 2 (loaded empty_world crossing.batch) 1 ≡ Some crossing.watcher_2) }
    ensures before { real_at 3 (loaded empty_world crossing.batch) 0 ≡ Some crossing.walker }
    ensures calls { RunsTo (loaded empty_world crossing.batch) (events_of crossing.steps)
        crossing.world_9 }
    ensures quiet { IsQuiet node_has_work crossing.world_9 }
    ensures after { real_at 3 crossing.world_9 1 ≡ Some crossing.crossed }
    ensures round { GoesThroughRound empty_world crossing.batch crossing.look_11 }
    ensures ended { IsQuiet node_has_work crossing.look_11 }
    ensures shown_1 { lines_of_client crossing.look_11 17 1
        ≡ Some (view.base_line ∷ view.line 2 (crossing.own_at 4850) ∷
        view.line 3 (Enter 2 (view.other_at 0 5150)) ∷
        view.line 4 (Enter 3 (view.other_at 1 5100)) ∷ []) }
    ensures shown_2 { lines_of_client crossing.look_11 16 2
        ≡ Some (view.base_line ∷ view.line 2 (crossing.own_at 5150) ∷
        view.line 3 (Enter 1 (view.other_at 0 4850)) ∷
        view.line 4 (Enter 3 (view.other_at 1 5100)) ∷ []) }
{}
