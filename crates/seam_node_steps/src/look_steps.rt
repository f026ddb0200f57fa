//! Looks and ticks of a cell, exactly.

ghost use Rattle.std.specs.Prelude.{◌≡◌, ◌-◌, ◌^◌, [], ◌∷◌, None, Some};
ghost use Rattle.std.specs.FinMap as table;
ghost use Rattle.seam_node_steps.specs.Prelude.{Task, From, Tick, Own, Enter, Leave, cell_steps, cell_rests, no, one, ghost, copy_at, cell};
ghost use Rattle.seam_node_steps.specs.Prelude.{space, both, witness, watcher, blind, entered, still, other_at};
ghost use Rattle.seam_node_steps.specs.ViewRounds.{own_state, update};

/// Look task: the first entity of the look list is taken, and its witness tells, in this order and under rising numbers, its own state
/// where that is due, what leaves, what changed and what enters. It knows the other reals and the copies of its cell, a real before a
/// copy. Without a witness the entry alone goes.
pub fn look_tasks()
    ensures own_again { cell_steps
        (cell space 0 (both (record (watcher entered) { version = 1 }) still) no (no) [] (1 ∷ []))
        Task
        ≡ record {
          state = cell space 0
              (both (record (watcher (record entered { told = Some 1; sent = 3 })) { version = 1 })
              still) no
              (no) [] [];
          sent = (17, update 3 (Own 1 own_state)) ∷ [];
        } }
    ensures copy_enters { cell_steps
        (cell space 0 (one (watcher (witness [] table.empty (Some 0) 1))) no
        (table.insert table.empty 2 (ghost 1 (Some (copy_at 3 1300 1000)))) [] (1 ∷ [])) Task
        ≡ record {
          state = cell space 0
              (one (watcher (witness ((2, 3) ∷ []) (table.insert table.empty 2 3) (Some 0) 2))) no
              (table.insert table.empty 2 (ghost 1 (Some (copy_at 3 1300 1000)))) [] [];
          sent = (17, update 2 (Enter 2 (other_at 3 1300))) ∷
              [];
        } }
    ensures real_before_copy { cell_steps
        (cell space 0 (both (watcher (witness [] table.empty (Some 0) 1)) still) no
        (table.insert table.empty 2 (ghost 1 (Some (copy_at 3 1200 1000)))) [] (1 ∷ [])) Task
        ≡ record {
          state = cell space 0
              (both (watcher (witness ((2, 0) ∷ []) (table.insert table.empty 2 0) (Some 0) 2))
              still) no
              (table.insert table.empty 2 (ghost 1 (Some (copy_at 3 1200 1000)))) [] [];
          sent = (17, update 2 (Enter 2 (other_at 0 1300))) ∷
              [];
        } }
    ensures not_known { cell_steps (cell space 0 (one (watcher entered)) no (no) [] (1 ∷ [])) Task
        ≡ record {
          state = cell space 0
              (one (watcher (witness [] (table.insert table.empty 2 0) (Some 0) 3))) no (no) [] [];
          sent = (17, update 3 (Leave 2)) ∷ [];
        } }
    ensures older_copy { cell_steps (cell space 0 (one (watcher
        (witness ((2, 5) ∷ []) (table.insert table.empty 2 5) (Some 0) 2))) no
        (table.insert table.empty 2 (ghost 1 (Some (copy_at 3 1900 1000)))) [] (1 ∷ [])) Task
        ≡ cell_rests (cell space 0 (one (watcher (witness ((2, 5) ∷ [])
        (table.insert table.empty 2 5) (Some 0) 2))) no
        (table.insert table.empty 2 (ghost 1 (Some (copy_at 3 1900 1000)))) [] []) }
    ensures no_witness { cell_steps (cell space 0 (both (watcher entered) still) no (no) []
        (2 ∷ 1 ∷ [])) Task ≡ cell_rests (cell space 0 (both (watcher entered) still) no (no) []
        (1 ∷ [])) }
    ensures at_the_limit { cell_steps (cell space 0 (one
        (watcher (record entered { sent = 2 ^ 62 - 1 }))) no (no) [] (1 ∷ [])) Task
        ≡ cell_rests (cell space 0 (one (watcher (record entered { sent = 2 ^ 62 - 1 }))) no (no) []
        []) }
{}

/// Tick: the look list becomes the entities whose reals have a witness, in rising number.
pub fn ticks()
    ensures one_witness { cell_steps (cell space 0 (both (watcher blind) still) no (no) []
        (2 ∷ 2 ∷ [])) (From 16 Tick) ≡ cell_rests (cell space 0 (both (watcher blind) still) no
        (no) [] (1 ∷ [])) }
    ensures two_witnesses { cell_steps (cell space 0 (both (watcher blind) (record still {
      witness =
          Some blind;
    })) no (no) [] []) (From 16 Tick)
        ≡ cell_rests (cell space 0 (both (watcher blind) (record still { witness = Some blind })) no
        (no) [] (1 ∷ 2 ∷ [])) }
{}
