// SPDX-License-Identifier: MIT

// Base parts and clients from round to round: what the laws of calls to base parts ask of a loaded world is true of each that a fitting
// batch makes of one that keeps the record of base parts.
//
// `specs/SettledParts` has that record, a sentence for each of its fields, and what a batch brings to base parts. They stand beside the
// record between rounds and the fitting batch of `seam_law_rounds` (*MayBegin*); *MayBeLoaded* is both. These laws speak of each entity of
// the loaded world, whether it was there before or the batch creates it, and whether it has a client or not.
//
// Of a client the record says that it is in step with its entity's witness: all that the witness told was shown, and nothing is on its way.
// Its numbers have room by what `seam_law_calls` says of what a witness tells: the record says that entities have numbers below a bound.
//
// The record says that a client is in step with its witness by numbers alone (*AreInStep*). That it shows what the witness remembers is a
// record of its own, which `seam_law_clients` keeps from round to round.
//
// For callers, of `proofs/`: `PartLoads` (what a load makes of a base part at a node), `Joining` and `Attaching` (of a witness and of a
// client), `PartsLoaded` (and in the world), `PartTurns` (its calls), `Serving` (a client over a list of events), `Ticking` (how much it is
// told), `PartsGoing` (every list of events), `BaseCallsEnd` (a quiet world after them), `Still` (a part that no one calls), `Idling` and
// `Calms` (reaps and looks) and `ExampleRound` (a worked round of a client).

ghost use Rattle.std.specs.Prelude.{◌≡◌, ℕ, ◌≤◌, List, [], ◌∷◌, ◌++◌, Some};
ghost use Rattle.seam_node_steps.specs.Prelude.{IsQuiet, Event, Settings, TypeDef, Batch, RealView, Msg, Update, PartView};
ghost use Rattle.seam_node_steps.specs.Prelude.{empty_world, lines_of_client, World, node_has_work, opened, loaded};
ghost use Rattle.seam_node_steps.specs.Prelude.{reaps_loaded, look_loaded};
ghost use Rattle.seam_law_flow.specs.Prelude.{letters_of};
ghost use Rattle.seam_law_calls.specs.Prelude.{Frame, entity_flow, events_of, IsFrame, from_sender, home_of, HasBaseCalls};
ghost use Rattle.seam_law_calls.specs.Prelude.{HasNoClient, shown_at, HasClient, FindsClient, NoUpdateComes, HasRoutes, NothingIsStray};
ghost use Rattle.seam_law_calls.specs.Prelude.{RunsTo, real_at};
ghost use Rattle.seam_law_rounds.specs.Prelude.{framed, IsBetweenRounds, first_frame, AreReapable, next_to, base_calls_of, HasSettledPart};
ghost use Rattle.seam_law_rounds.specs.Prelude.{HasPartsBetweenRounds, MayBeLoaded, StaysWithoutClient, HasSmallNumbers, IsServed, opening};
ghost use Rattle.seam_call.specs.declared.shown.Update.{Update as UpdateData};
ghost use Rattle.seam_node_steps.specs.ViewRounds as view;

/// Each entity of a loaded world has its base part, of its type, at its base node. The batch's calls to it are in turn, numbered from each
/// sender's next number on (from 1 on where the batch creates it), fit it, and have room in its version; and each base node has a route to
/// the entity. Where it had no client and the batch attaches none, it has none.
pub fn a_base_part_of_a_loaded_world_is_ready()
    ensures settled { (f : Frame) (w : World) (b : Batch) → MayBeLoaded f w b →
        (e k : ℕ) (r : RealView) → real_at e (loaded w b) k ≡ Some r →
        HasSettledPart (framed f b) e r.ty (loaded w b) }
    ensures calls { (f : Frame) (w : World) (b : Batch) → MayBeLoaded f w b →
        (e k : ℕ) (r : RealView) → real_at e (loaded w b) k ≡ Some r → (p : PartView) →
        ((entity_flow e (loaded w b)).slot (home_of f e)).base.part ≡ Some p →
        HasBaseCalls (framed f b) e r.ty (λ s. next_to s p) (base_calls_of b e) (loaded w b) }
    ensures routes { (f : Frame) (w : World) (b : Batch) → MayBeLoaded f w b →
        (e k : ℕ) (r : RealView) → real_at e (loaded w b) k ≡ Some r →
        HasRoutes (framed f b) e (loaded w b) }
    ensures alone { (w : World) (b : Batch) (e : ℕ) → StaysWithoutClient e w b →
        HasNoClient e (loaded w b) }
{}

/// So each call of the batch to a base part waits once, until it is executed, over every list of events, whether there is a client or not;
/// where the world is quiet again, all were executed, each sender's in the order of their numbers.
pub fn base_calls_of_a_batch_are_executed_once()
    ensures once { (f : Frame) (w : World) (b : Batch) → MayBeLoaded f w b →
        (e k : ℕ) (r : RealView) → real_at e (loaded w b) k ≡ Some r → (p : PartView) →
        ((entity_flow e (loaded w b)).slot (home_of f e)).base.part ≡ Some p →
        (v : World) (es : List Event) → RunsTo (loaded w b) es v →
        HasBaseCalls (framed f b) e r.ty (λ s. next_to s p) (base_calls_of b e) v }
    ensures executed { (f : Frame) (w : World) (b : Batch) → MayBeLoaded f w b →
        (e k : ℕ) (r : RealView) → real_at e (loaded w b) k ≡ Some r →
        (v : World) (es : List Event) → RunsTo (loaded w b) es v → IsQuiet node_has_work v →
        (j : ℕ) (q : PartView) → ((entity_flow e v).slot j).base.part ≡ Some q → (s : ℕ) →
        letters_of (from_sender s) q.done ≡ base_calls_of b e s }
{}

/// And nothing about such an entity is stray at a base node, over every such list of events.
pub fn nothing_about_a_loaded_entity_is_stray_at_a_base_node()
    ensures { (f : Frame) (w : World) (b : Batch) → MayBeLoaded f w b → (e k : ℕ) (r : RealView) →
        real_at e (loaded w b) k ≡ Some r → (v : World) (es : List Event) →
        RunsTo (loaded w b) es v →
        NothingIsStray (framed f b) e v }
{}

/// At each moment of a round, and of the looks at its end, an entity has neither a witness nor a client, or it has both. The client was
/// shown the first ones of what its witness told since the load, in order. Each of the others is held or on its way, once. In a quiet world
/// the client was shown all.
pub fn each_client_is_shown_its_updates_in_order()
    ensures round { (f : Frame) (w : World) (b : Batch) → MayBeLoaded f w b →
        (e k : ℕ) (r : RealView) → real_at e (loaded w b) k ≡ Some r →
        (v : World) (es : List Event) → RunsTo (loaded w b) es v → IsServed (framed f b) e r.ty v }
    ensures looks { (f : Frame) (u : World) → IsBetweenRounds f u → HasPartsBetweenRounds f u →
        HasSmallNumbers f u → (vs : List Event) (v : World) → RunsTo (look_loaded u) vs v →
        (e k : ℕ) (r : RealView) → real_at e u k ≡ Some r → IsServed f e r.ty v }
    ensures shown { (f : Frame) (e ty first : ℕ) (w : World) (h : HasClient f e ty first w) →
        h.issued ≡ shown_at ((entity_flow e w).slot (home_of f e)) ++ h.delivery.rest }
    ensures all { (f : Frame) (e ty first : ℕ) (w : World) (h : HasClient f e ty first w) →
        IsQuiet node_has_work w → shown_at ((entity_flow e w).slot (home_of f e)) ≡ h.issued }
{}

/// An update about an entity that is the first of its link finds the entity's client, which may be offered it: in a round, and where the
/// witnesses look. So none comes where there is no client; and where entities are reaped, with their clients, none is on its way.
pub fn an_update_finds_its_client()
    ensures round { (f : Frame) (w : World) (b : Batch) → MayBeLoaded f w b →
        (e k : ℕ) (r : RealView) → real_at e (loaded w b) k ≡ Some r →
        (v : World) (es : List Event) → RunsTo (loaded w b) es v →
        (a j : ℕ) (u : UpdateData) (ms : List Msg) → (entity_flow e v).mail a j ≡ Update u ∷ ms →
        FindsClient (framed f b) e j ((entity_flow e v).slot j).base u }
    ensures looks { (f : Frame) (u : World) → IsBetweenRounds f u → HasPartsBetweenRounds f u →
        HasSmallNumbers f u → (vs : List Event) (v : World) → RunsTo (look_loaded u) vs v →
        (e k : ℕ) (r : RealView) → real_at e u k ≡ Some r →
        (a j : ℕ) (m : UpdateData) (ms : List Msg) → (entity_flow e v).mail a j ≡ Update m ∷ ms →
        FindsClient f e j ((entity_flow e v).slot j).base m }
    ensures reaps { (f : Frame) (u : World) → IsBetweenRounds f u → HasPartsBetweenRounds f u →
        (es : List ℕ) → AreReapable u es → (vs : List Event) (v : World) →
        RunsTo (reaps_loaded u es) vs v → (e : ℕ) → NoUpdateComes e v }
{}

/// The record of base parts and clients holds of a world as it is opened, and again where a round's calls leave the world quiet, then
/// where the reaps do, and then where the looks do. The numbers that a load finds small stay so until the looks.
pub fn base_parts_go_from_record_to_record()
    ensures opened { (defs : List TypeDef) (settings : Settings) →
        IsFrame (first_frame defs settings) → 1 ≤ settings.bases →
        HasPartsBetweenRounds (first_frame defs settings) (opened defs settings) }
    ensures calls { (f : Frame) (w : World) (b : Batch) → MayBeLoaded f w b →
        (v : World) (es : List Event) → RunsTo (loaded w b) es v → IsQuiet node_has_work v →
        HasPartsBetweenRounds (framed f b) v × HasSmallNumbers (framed f b) v }
    ensures reaps { (f : Frame) (u : World) → IsBetweenRounds f u → HasPartsBetweenRounds f u →
        HasSmallNumbers f u → (es : List ℕ) → AreReapable u es → (vs : List Event) (v : World) →
        RunsTo (reaps_loaded u es) vs v → IsQuiet node_has_work v → HasPartsBetweenRounds f v ×
        HasSmallNumbers f v }
    ensures looks { (f : Frame) (u : World) → IsBetweenRounds f u → HasPartsBetweenRounds f u →
        HasSmallNumbers f u → (vs : List Event) (v : World) → RunsTo (look_loaded u) vs v →
        IsQuiet node_has_work v → HasPartsBetweenRounds f v }
{}

/// A whole round: an opened world, a batch that creates two entities, one of them with a client, the events of its calls, and those of the
/// looks, in which the client is shown its own entity and the other one. Both times the world is between rounds again.
pub fn a_round_of_a_client_ends_between_rounds()
    ensures fits { MayBeLoaded opening empty_world view.batch_1 }
    ensures calls { RunsTo (loaded empty_world view.batch_1) (events_of view.first_steps)
        view.first_2 }
    ensures after_calls { IsBetweenRounds opening view.first_2 ×
        HasPartsBetweenRounds opening view.first_2 }
    ensures looks { RunsTo (look_loaded view.first_2) (events_of view.first_looks)
        view.first_look_5 }
    ensures after_looks { IsBetweenRounds opening view.first_look_5 ×
        HasPartsBetweenRounds opening view.first_look_5 }
    ensures shown { lines_of_client view.first_look_5 17 1 ≡
        Some (view.base_line ∷ view.line 2 view.own ∷ view.line 3 view.enter_2 ∷ []) }
{}

/// And the next round of that world: a batch with a call that moves the other entity, the events of its calls, and those of the looks, in
/// which the client is shown where it is now.
pub fn the_next_round_of_a_client_ends_between_rounds()
    ensures fits { MayBeLoaded opening view.first_look_5 (view.batch_of (view.move_to 1 1310)) }
    ensures calls { RunsTo (loaded view.first_look_5 (view.batch_of (view.move_to 1 1310)))
        (events_of view.second_steps) view.second_4 }
    ensures looks { RunsTo (look_loaded view.second_4) (events_of view.second_looks)
        view.second_look_4 }
    ensures after { IsBetweenRounds opening view.second_look_4 ×
        HasPartsBetweenRounds opening view.second_look_4 }
    ensures shown { lines_of_client view.second_look_4 17 1 ≡ Some (view.line 4 view.set_2 ∷ []) }
{}
