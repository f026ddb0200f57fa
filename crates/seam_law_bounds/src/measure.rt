//! The finishing phase ends: every list of events of a phase is bounded.
//!
//! Each item of a world has a weight (`specs/Weights`): at least the number of events that it can still cause. An event lowers the sum of
//! them, but for one that passes a call on, which keeps it; so a run is no longer than what its start weighs and the calls that it passes
//! on. A call is passed on at most as often as its entity is handed over, which is at most once for each of its calls and once more. What a
//! load brings weighs what the table of its phase says (`specs/Phases`): so taking enabled events in any order ends, and the numbers of the
//! table are the most that it takes.
//!
//! Where witnesses look, the bound is by what there is to look at where the phase begins (`specs/Looking`): no event brings more, and a
//! look has at most a line for each. Of a loaded world that is what it has, by the records. So it is by the record of base parts and
//! clients that clients' lines have numbers.

ghost use Rattle.std.specs.Prelude.{◌≡◌, ℕ, ◌+◌, ◌*◌, ◌≤◌, true, false, List, [], length};
ghost use Rattle.std.specs.List.{AllByRecursion, range_with_len};
ghost use Rattle.seam_node_steps.specs.Prelude.{link, enabled, IsQuiet, total, Occurs, Event, Batch, World, node_steps};
ghost use Rattle.seam_node_steps.specs.Prelude.{node_has_work, opened, loaded, reaps_loaded, look_loaded, cell_count, Settings, TypeDef};
ghost use Rattle.seam_law_calls.specs.Prelude.{Frame, IsInFrame, IsFrame, is_tick_order, RunsTo};
ghost use Rattle.seam_law_rounds.specs.Prelude.{IsBetweenRounds, first_frame, AreReapable, MayBeLoaded, HasPartsBetweenRounds};
ghost use Rattle.seam_law_rounds.specs.Prelude.{HasSmallNumbers};
ghost use Rattle.seam_law_ghosts.specs.Prelude.{AreCopiesBetweenRounds};
ghost use Rattle.seam_law_slides.specs.Prelude.{DivideTheSpace, GoesByRound};
ghost use Rattle.seam_law_bounds.specs.Prelude.{Sizes, world_weight, is_pass, NodeCan, AllCan, all_passes, LooksFit, ClientsKeepRoom};
ghost use Rattle.seam_law_bounds.specs.Prelude.{moving_weight};
ghost use Rattle.seam_law_bounds.specs.Prelude.{Always, EachSeenIsHeld, LooksAmong, HoldsNothing, entities, all_witnesses, cell_orders};
ghost use Rattle.seam_law_bounds.specs.Prelude.{base_orders, tick_orders, events_of_round, events_of_looks};
ghost use Rattle.seam_net_runs.specs.Weights.{Lowers};

/// An enabled event whose node can do what it is to do lowers the weight of the world, but for one that passes a call on, which does not
/// raise it.
pub fn an_event_lowers_the_weight()
    ensures { (z : Sizes) (f : Frame) (w : World) (v : Event) (o : Occurs w v) → IsInFrame f w →
        NodeCan z o.node o.input → enabled node_has_work w v ≡ true →
        Lowers node_steps is_pass (world_weight z) w v }
{}

/// So it does in a round in which boundaries move, where a real weighs a settling more for each later tree by which it may yet have to
/// settle (`lowers`); and a list of events is no longer than such a world weighs and the calls that it passes on (`run`). Where no
/// boundaries move it is the same weight (`still`).
pub fn an_event_of_a_moving_round_lowers_the_weight()
    ensures lowers { (z : Sizes) (f : Frame) → IsFrame f → DivideTheSpace f → (w : World)
        (v : Event) (o : Occurs w v) → GoesByRound f w → NodeCan z o.node o.input →
        enabled node_has_work w v ≡ true →
        Lowers node_steps is_pass (moving_weight z (length f.later)) w v }
    ensures run { (z : Sizes) (f : Frame) → IsFrame f → DivideTheSpace f → (w : World) →
        GoesByRound f w → AllCan z w → (v : World) (es : List Event) → RunsTo w es v →
        length es + moving_weight z (length f.later) v
        ≤ moving_weight z (length f.later) w + all_passes w es }
    ensures still { (z : Sizes) (w : World) → moving_weight z 0 w ≡ world_weight z w }
{}

/// So a list of events from a world whose nodes always can is no longer than what the world weighs and the calls that it passes on.
pub fn a_run_is_no_longer_than_its_start_weighs()
    ensures { (z : Sizes) (f : Frame) (w v : World) (es : List Event) → IsInFrame f w → AllCan z w →
        RunsTo w es v → length es + world_weight z v ≤ world_weight z w + all_passes w es }
{}

/// A round is no longer than its table says, over every list of events, where the world has the records between rounds, holds nothing, and
/// its witnesses have in view what is there (`records`). So it is as well where the loaded world has no reals, copies and views but of
/// entities of a list that is no longer than there are entities, and no witnesses but those of `ws` (`among`).
pub fn a_round_ends()
    ensures records { (f : Frame) (w : World) (b : Batch) → MayBeLoaded f w b → HoldsNothing w →
        AreCopiesBetweenRounds f w → EachSeenIsHeld w → (v : World) (es : List Event) →
        RunsTo (loaded w b) es v → length es ≤ events_of_round f.settings.bases (cell_orders b)
        (base_orders b) (tick_orders b) (entities (loaded w b)) (all_witnesses (loaded w b)) }
    ensures among { (f : Frame) (w : World) (b : Batch) → MayBeLoaded f w b → HoldsNothing w →
        (us ws : List ℕ) → length us ≤ entities (loaded w b) →
        LooksAmong us (λ k. ws) (loaded w b) → (v : World) (es : List Event) →
        RunsTo (loaded w b) es v → length es ≤ events_of_round f.settings.bases (cell_orders b)
        (base_orders b) (tick_orders b) (entities (loaded w b)) (length ws) }
{}

/// So is one whose batch has no tick, whatever there is to look at.
pub fn a_round_without_ticks_ends()
    ensures { (f : Frame) (w : World) (b : Batch) → MayBeLoaded f w b → HoldsNothing w →
        AllByRecursion (λ o. is_tick_order o.1 ≡ false) b.orders → (v : World) (es : List Event) →
        RunsTo (loaded w b) es v → (n : ℕ) → length es ≤ events_of_round f.settings.bases
        (cell_orders b) (base_orders b) (tick_orders b) (entities (loaded w b)) n }
{}

/// Where a world between rounds, in which base parts and clients hold nothing, is told to reap entities, no list of events is longer than
/// eighteen for each of them; and base parts and clients hold nothing meanwhile.
pub fn reaps_end()
    ensures bound { (f : Frame) (u : World) → IsBetweenRounds f u → HoldsNothing u → (es : List ℕ) →
        AreReapable u es → (vs : List Event) (v : World) → RunsTo (reaps_loaded u es) vs v →
        length vs ≤ 18 * length es }
    ensures nothing { (f : Frame) (u : World) → IsBetweenRounds f u → HoldsNothing u →
        (es : List ℕ) → AreReapable u es → (vs : List Event) (v : World) →
        RunsTo (reaps_loaded u es) vs v → HoldsNothing v }
{}

/// Base parts and clients hold nothing where a world is opened, and again where a round's calls leave it quiet, and where looks do. (Where
/// entities are reaped they hold nothing at each moment, by `reaps_end`.)
pub fn nothing_held_goes_from_record_to_record()
    ensures opened { (defs : List TypeDef) (settings : Settings) →
        IsFrame (first_frame defs settings) → 1 ≤ settings.bases →
        HoldsNothing (opened defs settings) }
    ensures calls { (f : Frame) (w : World) (b : Batch) → MayBeLoaded f w b → HoldsNothing w →
        (v : World) (es : List Event) → RunsTo (loaded w b) es v → IsQuiet node_has_work v →
        HoldsNothing v }
    ensures looks { (f : Frame) (u : World) → IsBetweenRounds f u → HasPartsBetweenRounds f u →
        HasSmallNumbers f u → HoldsNothing u → (vs : List Event) (v : World) →
        RunsTo (look_loaded u) vs v → IsQuiet node_has_work v → HoldsNothing v }
{}

/// Each entity in a view has a holder where a world is opened, and again after a round's calls, whatever its witnesses looked at.
pub fn what_is_seen_is_held()
    ensures opened { (defs : List TypeDef) (settings : Settings) →
        IsFrame (first_frame defs settings) → 1 ≤ settings.bases →
        EachSeenIsHeld (opened defs settings) }
    ensures calls { (f : Frame) (w : World) (b : Batch) → MayBeLoaded f w b →
        AreCopiesBetweenRounds f w → EachSeenIsHeld w → (v : World) (es : List Event) →
        RunsTo (loaded w b) es v → EachSeenIsHeld v }
{}

/// Where the witnesses of such a world look, those of `ws k` in cell k, and it has the record of base parts and clients, with small
/// numbers, no list of events is longer than the table says, where reals, copies and views are of the entities of a list (`bound`). No
/// client runs out of numbers for its lines (`clients`).
pub fn looks_end()
    ensures bound { (f : Frame) (u : World) → IsBetweenRounds f u → HasPartsBetweenRounds f u →
        HasSmallNumbers f u → HoldsNothing u → (us : List ℕ) (ws : ℕ → List ℕ) →
        LooksAmong us ws u → (vs : List Event) (v : World) → RunsTo (look_loaded u) vs v →
        length vs ≤ events_of_looks (length us) (total (λ k. length (ws k))
        (range_with_len 0 cell_count)) }
    ensures clients { (f : Frame) (u : World) → IsBetweenRounds f u → HasPartsBetweenRounds f u →
        HasSmallNumbers f u → HoldsNothing u → Always ClientsKeepRoom (look_loaded u) }
{}

/// A look has at most a line for each entity that there is to look at (`few`). And no event brings more to look at, in any phase, where
/// none is on its way at the start (`kept`), as where reaps are loaded (`reaps`).
pub fn looks_are_about_what_there_is()
    ensures few { (us : List ℕ) (ws : ℕ → List ℕ) (bases : ℕ) (w : World) → LooksAmong us ws w →
        LooksFit (record { bases = bases; lines = length us; witnesses = λ k. length (ws k) }) w }
    ensures kept { (us ws : List ℕ) (f : Frame) (w : World) → IsInFrame f w →
        ((a b : ℕ) → link w.rows a b ≡ []) → LooksAmong us (λ k. ws) w →
        Always (LooksAmong us (λ k. ws)) w }
    ensures reaps { (f : Frame) (u : World) → IsBetweenRounds f u → HoldsNothing u → (es : List ℕ) →
        AreReapable u es → (us ws : List ℕ) → LooksAmong us (λ k. ws) u →
        Always (LooksAmong us (λ k. ws)) (reaps_loaded u es) }
{}

/// So to take enabled events, whichever, ends: where no list of them is longer than n, a list of n of them leaves the world quiet.
pub fn a_longest_run_is_quiet()
    ensures { (w v : World) (es : List Event) (n : ℕ) →
        ((u : World) (ds : List Event) → RunsTo w ds u → length ds ≤ n) →
        RunsTo w es v → n ≤ length es → IsQuiet node_has_work v }
{}

/// In an opened world there is nothing to look at, as the laws of looks ask.
pub fn an_opened_world_has_what_the_laws_ask()
    ensures { (defs : List TypeDef) (settings : Settings) → IsFrame (first_frame defs settings) →
        1 ≤ settings.bases → LooksAmong [] (λ k. []) (opened defs settings) }
{}
