// What the definitions say together, each law on a function that does nothing.
ghost use Rattle.std.specs.Prelude.{◌≡◌, ◌⊎◌, ℕ, ◌<◌, ◌≤◌, IsTrue, IsFalse, List, [], ◌∷◌, Some, codes};
ghost use Rattle.std.specs.FinSet as set;
ghost use Rattle.seam_rule_rounds.specs.Prelude.{Call, Create, GhostCopy, Header, Orders, Book, live_as, has_client, is_shown, has_tick};
ghost use Rattle.seam_rule_rounds.specs.Prelude.{MayCall, CutRefused, ShiftRefused, Lists, refusal, round_text, client_text, bounds_text};
ghost use Rattle.seam_rule_rounds.specs.Prelude.{header, begun, round, ended, text_of_round, settled_at, with_ghost, copy_of_second};
ghost use Rattle.seam_rule_rounds.specs.Prelude.{halves, to_avatar, numbers, avatar_2, own_avatar, mark, pay, promote, IsOther, IsShownAt};
ghost use Rattle.seam_rule_rounds.specs.Prelude.{Own, Enter, Set, Leave, builtin, TooManyCells, WouldEmpty, has_changed_at, public_at};
ghost use Rattle.seam_rule_rounds.specs.Prelude.{rows_of, Standing, in_first_cell, replica_of, RoundData, IsRound};
ghost use Rattle.seam_defs.specs.declared.flags.Part.TheVariants as part;
ghost use Rattle.seam_rule_lines.specs.Judging.{MayMove};
ghost use Rattle.seam_rule_rounds.specs.TwoChests.{in_one_round, in_the_next};
ghost use Rattle.seam_rule_rounds.specs.TwoChests.{hit};
ghost use Rattle.seam_call.specs.declared.sender.Sender.TheVariants as sender;
ghost use Rattle.seam_call.specs.declared.shown.ClientText.TheVariants as text;

/// An entity's public version is the last one up to its version at which what ghosts hold of it changed, or 0.
pub fn public_version_is_the_last_change()
    ensures at_most { (h : Header) (c : Create) (order : List Call) (v : ℕ) →
        public_at h c order v ≤ v }
    ensures changed { (h : Header) (c : Create) (order : List Call) (v : ℕ) →
        (public_at h c order v ≡ 0) ⊎ IsTrue (has_changed_at h part.Cell c order
        (public_at h c order v)) }
    ensures last { (h : Header) (c : Create) (order : List Call) (v w : ℕ) →
        public_at h c order v < w → w ≤ v → IsFalse (has_changed_at h part.Cell c order w) }
{}

/// What other clients may be shown of an entity in a round is what the rules say by its version: the version is a public one, at least the
/// public version with which the round began, and the entity is shown as it was for others then. (No version falls in a round.)
pub fn shown_versions_are_public()
    ensures by_version { (h : Header) (s t : Standing) (e : ℕ) (copy : GhostCopy) →
        IsOther h s t e copy → IsShownAt h s t e copy }
    ensures in_round { (h : Header) (s t : Standing) (r : RoundData) (e : ℕ) (copy : GhostCopy) →
        IsRound h s r t → IsShownAt h s t e copy → IsOther h s t e copy }
{}

/// There is one flat table of a book's live entities after given orders.
pub fn table_is_one()
    ensures { (h : Header) (b : Book) (orders : Orders) (xs ys : List Create) →
        Lists (live_as b) xs → Lists (live_as b) ys → rows_of h orders xs ≡ rows_of h orders ys }
{}

/// In a round without a tick what its parts executed decides what every client is told: two legal rounds that begin alike and execute the
/// same calls in the same order tell each client the same lines, and it shows the same after them.
pub fn lines_are_one_without_a_tick()
    ensures told { (h : Header) (s t u : Standing) (r q : RoundData) → IsFalse (has_tick s.book) →
        IsRound h s r t → IsRound h s q u → t.orders ≡ u.orders → (e : ℕ) → t.told e ≡ u.told e }
    ensures replica { (h : Header) (s t u : Standing) (r q : RoundData) →
        IsFalse (has_tick s.book) → IsRound h s r t → IsRound h s q u → t.orders ≡ u.orders →
        (e : ℕ) → replica_of h t e ≡ replica_of h u e }
{}

/// The round of two chests on both sides of a boundary is legal, and has this text: each has a ghost in the other's cell, and the client
/// of the first is shown the second across the boundary.
pub fn a_round_is_legal()
    ensures legal { IsRound header begun round ended }
    ensures text { round_text header.defs round ≡ text_of_round }
{}

/// The two hystereses of a place, at a boundary at x = 5000. A home is kept at the distance 10 from its area and left at 11. A cell gets a
/// ghost at the distance 400 and none at 401. A cell that has a ghost keeps it at 420 and loses it at 421.
pub fn places_have_hystereses()
    ensures home_kept { (settled_at in_first_cell 5009).home ≡ 0 }
    ensures home_left { (settled_at in_first_cell 5010).home ≡ 1 }
    ensures ghost_comes { IsTrue (set.contains (settled_at in_first_cell 4600).ghosts 1) }
    ensures no_ghost { ¬ (IsTrue (set.contains (settled_at in_first_cell 4599).ghosts 1)) }
    ensures ghost_stays { IsTrue (set.contains (settled_at with_ghost 4580).ghosts 1) }
    ensures ghost_goes { ¬ (IsTrue (set.contains (settled_at with_ghost 4579).ghosts 1)) }
{}

/// A client that is made and whose entity is destroyed in one round is one of that round, though its entity does not live at its end; it
/// is none of the next.
pub fn clients_of_a_round()
    ensures of_the_round { IsTrue (is_shown in_one_round 1) }
    ensures has_none { IsFalse (has_client in_one_round 1) }
    ensures not_of_the_next { IsFalse (is_shown in_the_next 1) }
{}

/// What is true in the round of two chests: the second was seen with its lid down at version 0 and up at version 1, and never otherwise; so
/// a client may be shown it at a version of its own with the state of that version alone.
pub fn wrong_states_are_not_true()
    ensures down { IsOther header begun ended 2 (copy_of_second 0 0) }
    ensures up { IsOther header begun ended 2 (copy_of_second 1 1) }
    ensures not_up_before { ¬ (IsOther header begun ended 2 (copy_of_second 0 1)) }
    ensures not_down_after { ¬ (IsOther header begun ended 2 (copy_of_second 1 0)) }
    ensures not_later { ¬ (IsOther header begun ended 2 (copy_of_second 2 1)) }
    ensures not_made { ¬ (IsOther header begun ended 3 (copy_of_second 0 0)) }
{}

/// How lines to clients, boundaries and refusals by a tree are written.
pub fn texts_of_lines()
    ensures own { client_text builtin (to_avatar 1 (text.Shown (Own 0 own_avatar)))
        ≡ codes "to 1 1 own 0 7 8 hp=100 mana=50 xp=0\n" }
    ensures base { client_text builtin (to_avatar 2 (text.Base 1 (numbers (2 ∷ []))))
        ≡ codes "to 1 2 base 1 rank=2\n" }
    ensures enter { client_text builtin (to_avatar 3 (text.Shown (Enter 2 avatar_2)))
        ≡ codes "to 1 3 enter 2 Avatar 4 7 8 hp=75 mood=0\n" }
    ensures set_ { client_text builtin (to_avatar 4 (text.Shown (Set 2 avatar_2)))
        ≡ codes "to 1 4 set 2 4 7 8 hp=75 mood=0\n" }
    ensures leave { client_text builtin (to_avatar 5 (text.Shown (Leave 2)))
        ≡ codes "to 1 5 leave 2\n" }
    ensures bound { bounds_text (Some halves) ≡ codes "bound 1 x 5000\n" }
    ensures cut { refusal 7 (CutRefused TooManyCells) ≡ codes "line 7 tree 3\n" }
    ensures shift { refusal 8 (ShiftRefused WouldEmpty) ≡ codes "line 8 tree 2\n" }
{}

/// A client may call the exposed methods of every entity's cell part and of its own entity's base part, and move its own entity alone; a
/// base node may do all of it.
pub fn who_may_call()
    ensures exposed { MayCall (sender.Client 1) 2 hit }
    ensures not_exposed { ¬ (MayCall (sender.Client 1) 1 mark) }
    ensures own_base { MayCall (sender.Client 1) 1 promote }
    ensures other_base { ¬ (MayCall (sender.Client 1) 2 promote) }
    ensures own_base_not_exposed { ¬ (MayCall (sender.Client 1) 1 pay) }
    ensures base_node { MayCall (sender.Base 1) 1 mark }
    ensures own_move { MayMove (sender.Client 1) 1 }
    ensures other_move { ¬ (MayMove (sender.Client 1) 2) }
{}
