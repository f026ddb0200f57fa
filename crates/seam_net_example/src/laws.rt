//! Laws of every run of a ring of counters, each on a function that does nothing.

ghost use Rattle.std.specs.Prelude.{◌≡◌, ℕ, ◌+◌, ◌≤◌, List, length, true, Option, Some};
ghost use Rattle.seam_machine.specs.Views.{NetView};
ghost use Rattle.seam_machine.specs.Nets.{enabled, happens, input_from, LeadsTo};
ghost use Rattle.seam_machine.specs.declared.machines.Event.{Event};
ghost use Rattle.seam_machine.specs.declared.machines.Input.{Input};
ghost use Rattle.seam_net_runs.specs.Weights.{weight};
ghost use Rattle.seam_net_runs.specs.Seen.{seen};
ghost use Rattle.seam_law_flow.specs.Flows.{Flow, Goes, flow_of};
ghost use Rattle.seam_law_flow.specs.Newest.{Newest};
ghost use Rattle.seam_law_flow.specs.Tokens.{HasOne};
ghost use Rattle.seam_net_example.specs.Views.{CounterView};
ghost use Rattle.seam_net_example.specs.Counters.{counter_steps, counter_work};
ghost use Rattle.seam_net_example.specs.Rings.{IsRing, IsSoundNet, to_do, to_go, small, no_counter, SmallMoves, AllSmall, next_entry};
ghost use Rattle.seam_net_example.specs.Rings.{brings_none};
ghost use Rattle.seam_net_example.specs.Rings.{given, number_count, NumberMoves, alone};

/// A run of a net of counters is no longer than what its counters and numbers have before them.
pub fn runs_of_a_ring_end()
    ensures { (w v : NetView CounterView ℕ) (es : List Event) → IsSoundNet w →
        LeadsTo counter_work counter_steps w es v → length es + weight to_do to_go v
        ≤ weight to_do to_go w }
{}

/// A ring stays a ring over every run.
pub fn a_ring_stays_a_ring()
    ensures { (after : ℕ → ℕ) (w v : NetView CounterView ℕ) (es : List Event) → IsRing after w →
        LeadsTo counter_work counter_steps w es v → IsRing after v }
{}

/// Small numbers on their way stay below ten, and each counter sends on to the same one: the newest entry of its register.
pub fn small_numbers_stay_small()
    ensures small { (w v : Flow CounterView ℕ) → Goes SmallMoves w v → AllSmall w → AllSmall v }
    ensures next { (w v : Flow CounterView ℕ) (k key c : ℕ) → Goes SmallMoves w v →
        Newest next_entry brings_none w k key c → Newest next_entry brings_none v k key c }
{}

/// Each event is a step of the flow of small numbers.
pub fn small_numbers_are_seen()
    ensures { (w : NetView CounterView ℕ) (e : Event) → IsSoundNet w →
        enabled counter_work w e ≡ true → Goes SmallMoves (flow_of (λ c. c) no_counter small w)
        (flow_of (λ c. c) no_counter small (happens counter_steps w e)) }
{}

/// Where there is one number, given or on its way, an event that does not drop a 0 leaves one; and the one number never rises.
pub fn one_number_stays_one()
    ensures count { (w : NetView CounterView ℕ) (e : Event) → IsSoundNet w →
        enabled counter_work w e ≡ true → ((a : ℕ) → input_from w.rows e.node e.from
        ≡ Some (Input.From a 0) → ⊥) → number_count w ≡ 1 →
        number_count (happens counter_steps w e) ≡ 1 }
    ensures bound { (top : ℕ) (w v : Flow CounterView ℕ) → Goes NumberMoves w v →
        HasOne given Some (λ n. n ≤ top) w → HasOne given Some (λ n. n ≤ top) v }
{}

/// What counters do has nothing to do with how many they are: a run is seen as that run of counters that do not know it.
pub fn counters_are_seen_alone()
    ensures { (w v : NetView CounterView ℕ) (es : List Event) →
        LeadsTo counter_work counter_steps w es v → LeadsTo counter_work counter_steps
        (seen alone w) es (seen alone v) }
{}
