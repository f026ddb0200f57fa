//! Single steps of a cell, exactly: what each leaves and what it sends, in order.

ghost use Rattle.std.specs.Prelude.{◌≡◌, ◌-◌, ◌^◌, [], ◌∷◌, None, Some};
ghost use Rattle.std.specs.FinMap as table;
ghost use Rattle.std.specs.FinSet as set;
ghost use Rattle.seam_node_steps.specs.Prelude.{Task, From, Move, BaseCall, Hand, Current, GhostSet, GhostDrop, Tick, Reap, Bounds};
ghost use Rattle.seam_node_steps.specs.Prelude.{cell_steps, one_cell};
ghost use Rattle.seam_node_steps.specs.Prelude.{cell_rests, at, call, hit, copy_at, no, one, next_place, ghost, order, orders, real};
ghost use Rattle.seam_node_steps.specs.Prelude.{has_first, of_first, promote};
ghost use Rattle.seam_entity.specs.declared.message.Msg.TheVariants.{Call};
ghost use Rattle.seam_node_steps.specs.OneStep.{cell_of, inland, home, home_listing, both, cells, second, far, note};
ghost use Rattle.seam_node_steps.specs.OneStep.{one_with};

/// Survey task: the first entity of the list is taken and settles; the cells that become haunts are told in rising number, under
/// the next beat. Where nothing is sent the beat stays, and where the real is not here the entry alone goes.
pub fn survey_tasks()
    ensures first { cell_steps
        (cell_of 0 (both inland (second (real 100 0 0 (at 4900 4900) no [] set.empty 0 0))) no no
        (2 ∷ 1 ∷ []) [])
        Task
        ≡ record {
          state = cell_of 0 (both inland
              (second (real 100 0 0 (at 4900 4900) no [] (cells (1 ∷ 2 ∷ [])) 1 0))) no no (1 ∷ [])
              [];
          sent = (1, GhostSet 2 1 (copy_at 0 4900 4900)) ∷ (2, GhostSet 2 1 (copy_at 0 4900 4900)) ∷
              [];
        } }
    ensures haunts_stay { cell_steps (home_listing (real 100 0 0 (at 4900 4900) no []
        (cells (1 ∷ 2 ∷ [])) 1 0) (1 ∷ []) []) Task
        ≡ cell_rests (home (real 100 0 0 (at 4900 4900) no [] (cells (1 ∷ 2 ∷ [])) 1 0)) }
    ensures nothing_to_tell { cell_steps (home_listing inland (1 ∷ []) []) Task
        ≡ cell_rests (home inland) }
    ensures not_here { cell_steps (home_listing inland (2 ∷ 1 ∷ []) []) Task
        ≡ cell_rests (home_listing inland (1 ∷ []) []) }
    ensures drop { cell_steps (home_listing (real 100 0 0 (at 4500 1000) no [] (cells (1 ∷ 2 ∷ []))
        3 0) (1 ∷ []) []) Task ≡ record {
          state =
              home (real 100 0 0 (at 4500 1000) no [] set.empty 4 0);
          sent = (1, GhostDrop 1 4) ∷ (2, GhostDrop 1 4) ∷ [];
        } }
{}

/// Call, real here: in its turn it is executed and the real settles, early it is held, late nothing changes. A hand-over raises
/// beat and generation, counts the cell as a former haunt, puts the copy into its own book, takes the entity off both lists, and sends the
/// Hand last.
pub fn calls_of_a_real()
    ensures hand_over { cell_steps
        (home_listing (real 100 0 0 (at 4990 4700) no [] (cells (1 ∷ 2 ∷ [])) 1 0) (2 ∷ 1 ∷ [])
        (1 ∷ 2 ∷ []))
        (From 16 (Call far))
        ≡ record {
          state = cell_of 0 no (one (next_place 1 1)) (one (ghost 2 (Some (copy_at 1 5410 4700))))
              (2 ∷ []) (2 ∷ []);
          sent = (2, GhostSet 1 2 (copy_at 1 5410 4700)) ∷ (
            1,
            Hand (real 100 1 1 (at 5410 4700) (of_first (order 2 [])) (far ∷ [])
                (cells (0 ∷ 2 ∷ [])) 2 1) None,
          ) ∷ [];
        } }
    ensures within_hysteresis { cell_steps
        (home (real 100 0 0 (at 4990 1000) no [] (cells (1 ∷ [])) 1 0))
        (From 16 (Call (call 1 1 (Move (at 5009 1000)))))
        ≡ record {
          state = home (real 100 1 1 (at 5009 1000) (of_first (order 2 []))
              (call 1 1 (Move (at 5009 1000)) ∷ [])
              (cells (1 ∷ [])) 2 0);
          sent = (1, GhostSet 1 2 (copy_at 1 5009 1000)) ∷ [];
        } }
    ensures private { cell_steps (home (real 100 3 2 (at 4900 1000) no [] (cells (1 ∷ [])) 1 0))
        (From 16 (Call (call 1 1 note))) ≡ cell_rests (home
        (real 100 4 2 (at 4900 1000) (of_first (order 2 [])) (call 1 1 note ∷ [])
        (cells (1 ∷ [])) 1 0)) }
    ensures held { cell_steps (home_listing (real 100 0 0 (at 4900 1000) no [] (cells (1 ∷ [])) 1 0)
        (1 ∷ []) (1 ∷ [])) (From 16 (Call (call 1 2 (hit 1))))
        ≡ cell_rests (home_listing (real 100 0 0 (at 4900 1000)
        (of_first (order 1 ((2, call 1 2 (hit 1)) ∷ []))) [] (cells (1 ∷ [])) 1 0) (1 ∷ [])
        (1 ∷ [])) }
    ensures late { cell_steps (home (real 99 1 1 (at 4900 1000) (of_first (order 2 [])) []
        (cells (1 ∷ [])) 1 0)) (From 16 (Call (call 1 1 (hit 1))))
        ≡ cell_rests (home (real 99 1 1 (at 4900 1000) (of_first (order 2 [])) [] (cells (1 ∷ [])) 1
        0)) }
    ensures turn_of_a_held_one { cell_steps (home (real 100 0 0 (at 1000 1000)
        (of_first (order 1 ((2, call 1 2 (hit 1)) ∷ []))) [] set.empty 0 0))
        (From 16 (Call (call 1 1 (hit 1)))) ≡ cell_rests
        (home (real 99 1 1 (at 1000 1000) (of_first (order 2 ((2, call 1 2 (hit 1)) ∷ [])))
        (call 1 1 (hit 1) ∷ []) set.empty 0 0)) }
{}

/// Ready-call task: without an entity to survey, the least entity that has a ready call executes the one of its least sender, and
/// settles.
pub fn ready_calls()
    ensures least_sender { cell_steps
        (home (real 100 0 0 (at 4990 100)
        (orders (has_first (call 1 1 (Move (at 6000 100)))) (has_first (call 2 1 (hit 1)))) []
        (cells (1 ∷ [])) 1 0)) Task
        ≡ record {
          state = cell_of 0 no (one (next_place 1 1)) (one (ghost 2 None)) [] [];
          sent = (
            1,
            Hand (real 100 1 1 (at 6000 100) (orders (order 2 []) (has_first (call 2 1 (hit 1))))
                (call 1 1 (Move (at 6000 100)) ∷ [])
                set.empty 2 1) None,
          ) ∷ [];
        } }
    ensures told { cell_steps (home
        (real 100 0 0 (at 4990 100) (of_first (has_first (call 1 1 (Move (at 4980 100))))) []
        (cells (1 ∷ [])) 1 0)) Task
        ≡ record {
          state = home (real 100 1 1 (at 4980 100) (of_first (order 2 []))
              (call 1 1 (Move (at 4980 100)) ∷ []) (cells (1 ∷ []))
              2 0);
          sent = (1, GhostSet 1 2 (copy_at 1 4980 100)) ∷ [];
        } }
    ensures least_entity { cell_steps (cell_of 0 (both (real 100 0 0 (at 1000 1000)
        (of_first (has_first (call 1 1 (hit 1)))) [] set.empty 0 0)
        (second (real 100 0 0 (at 1000 1000) (of_first (has_first (call 1 1 (hit 1)))) []
        set.empty 0 0))) no no [] (2 ∷ [])) Task
        ≡ cell_rests (cell_of 0 (both (real 99 1 1 (at 1000 1000) (of_first (order 2 []))
        (call 1 1 (hit 1) ∷ []) set.empty 0 0)
        (second (real 100 0 0 (at 1000 1000) (of_first (has_first (call 1 1 (hit 1)))) []
        set.empty 0 0))) no no [] (2 ∷ [])) }
    ensures survey_first { cell_steps (home_listing (real 100 0 0 (at 1000 1000)
        (of_first (has_first (call 1 1 (hit 1)))) [] set.empty 0 0) (1 ∷ []) (1 ∷ [])) Task
        ≡ cell_rests (home_listing (real 100 0 0 (at 1000 1000)
        (of_first (has_first (call 1 1 (hit 1)))) [] set.empty 0 0) [] (1 ∷ [])) }
{}

/// Call, next place: the call is sent on as it is, and nothing changes.
pub fn calls_passed_on()
    ensures passed { cell_steps (cell_of 0 no (one (next_place 2 5)) no [] [])
        (From 16 (Call (call 1 9 (hit 1)))) ≡ record {
          state =
              cell_of 0 no (one (next_place 2 5)) no [] [];
          sent = (2, Call (call 1 9 (hit 1))) ∷
              [];
        } }
    ensures of_any_part { cell_steps (cell_of 0 no (one (next_place 2 5)) no [] [])
        (From 16 (Call (promote 1))) ≡ record {
          state =
              cell_of 0 no (one (next_place 2 5)) no [] [];
          sent = (2, Call (promote 1)) ∷ [];
        } }
    ensures neither { cell_steps (cell_of 0 no no no [] []) (From 16 (Call (call 1 1 (hit 1))))
        ≡ cell_rests (cell_of 0 no no no [] []) }
{}

/// Hand-over comes: the real is placed, its next place goes, the copy is dropped at the real's beat, the lists stay,
/// and every base node is told, in rising number.
pub fn hand_overs()
    ensures comes_back { cell_steps
        (cell_of 0 no (one (next_place 1 1)) (one (ghost 2 (Some (copy_at 1 5 5)))) (1 ∷ 2 ∷ [])
        (2 ∷ 1 ∷ []))
        (From 1 (Hand (real 100 3 3 (at 4990 1000) no [] (cells (1 ∷ [])) 3 2) None))
        ≡ record {
          state = cell_of 0 (one (real 100 3 3 (at 4990 1000) no [] (cells (1 ∷ [])) 3 2)) no
              (one (ghost 3 None)) (1 ∷ 2 ∷ [])
              (2 ∷ 1 ∷ []);
          sent = (16, Current 1 0 2) ∷ (17, Current 1 0 2) ∷ [];
        } }
    ensures greater_beat_stays { cell_steps (cell_of 0 no no (one (ghost 4 None)) [] [])
        (From 1 (Hand (real 100 3 3 (at 4990 1000) no [] (cells (1 ∷ [])) 3 2) None))
        ≡ record {
          state = cell_of 0 (one (real 100 3 3 (at 4990 1000) no [] (cells (1 ∷ [])) 3 2)) no
              (one (ghost 4 None)) [] [];
          sent = (16, Current 1 0 2) ∷ (17, Current 1 0 2) ∷ [];
        } }
    ensures real_is_here { cell_steps (home inland) (From 1
        (Hand (real 100 3 3 (at 4990 1000) no [] (cells (1 ∷ [])) 3 2) None))
        ≡ cell_rests (home inland) }
    ensures cell_outside_tree { cell_steps (cell_of 3 no no no [] [])
        (From 1 (Hand (real 100 3 3 (at 4990 1000) no [] (cells (1 ∷ [])) 3 2) None))
        ≡ cell_rests (cell_of 3 no no no [] []) }
    ensures haunt_outside_tree { cell_steps (cell_of 0 no no no [] [])
        (From 1 (Hand (real 100 3 3 (at 4990 1000) no [] (cells (3 ∷ [])) 3 2) None))
        ≡ cell_rests (cell_of 0 no no no [] []) }
    ensures outside_space { cell_steps (cell_of 0 no no no [] [])
        (From 1 (Hand (real 100 3 3 (at 10000 1000) no [] set.empty 3 2) None))
        ≡ cell_rests (cell_of 0 no no no [] []) }
{}

/// Newer bounds: the cell goes by them, and all its reals are to settle, in rising number. Older ones, those that it has, and those of
/// another space change nothing. A hand-over brings the boundaries of its sender: the cell goes by newer ones before the real comes, and
/// where they are older ones the real is to settle, too.
pub fn boundaries_that_come()
    ensures newer { cell_steps (cell_of 0 (both inland (second inland)) no no [] (1 ∷ []))
        (From 16 (Bounds (one_with 1)))
        ≡ cell_rests (record (cell_of 0 (both inland (second inland)) no no (1 ∷ 2 ∷ []) (1 ∷ [])) {
          tree = one_cell 10000;
          number = 1;
        }) }
    ensures older { cell_steps (record (home inland) { number = 2 })
        (From 16 (Bounds (one_with 1))) ≡ cell_rests (record (home inland) { number = 2 }) }
    ensures the_same { cell_steps (record (home inland) { number = 2 })
        (From 16 (Bounds (one_with 2))) ≡ cell_rests (record (home inland) { number = 2 }) }
    ensures of_another_space { cell_steps (home inland)
        (From 16 (Bounds (record { tree = one_cell 5000; number = 1 })))
        ≡ cell_rests (home inland) }
    ensures hand_newer { cell_steps (cell_of 0 (table.insert table.empty 2 (second inland)) no no
        [] [])
        (From 1 (Hand (real 100 3 3 (at 1000 1000) no [] set.empty 3 2) (Some (one_with 1))))
        ≡ record {
          state = record (cell_of 0 (both (real 100 3 3 (at 1000 1000) no [] set.empty 3 2)
              (second inland)) no (one (ghost 3 None)) (2 ∷ []) []) {
                tree = one_cell 10000;
                number = 1;
              };
          sent = (16, Current 1 0 2) ∷ (17, Current 1 0 2) ∷ [];
        } }
    ensures hand_older { cell_steps (record (cell_of 0 no no no (2 ∷ []) []) { number = 1 })
        (From 1 (Hand (real 100 3 3 (at 1000 1000) no [] set.empty 3 2) None))
        ≡ record {
          state = record (cell_of 0 (one (real 100 3 3 (at 1000 1000) no [] set.empty 3 2)) no
              (one (ghost 3 None)) (1 ∷ 2 ∷ []) []) { number = 1 };
          sent = (16, Current 1 0 2) ∷ (17, Current 1 0 2) ∷ [];
        } }
{}

/// Ghost set and ghost drop: a message is ignored unless its beat is greater than any heard before. A set where the real is changes
/// nothing, and a drop is heard also there.
pub fn ghost_messages()
    ensures set { cell_steps (cell_of 1 no no no [] []) (From 0 (GhostSet 1 2 (copy_at 7 5 5)))
        ≡ cell_rests (cell_of 1 no no (one (ghost 2 (Some (copy_at 7 5 5)))) [] []) }
    ensures set_of_equal_beat { cell_steps (cell_of 1 no no (one (ghost 2 None)) [] [])
        (From 0 (GhostSet 1 2 (copy_at 7 5 5))) ≡ cell_rests
        (cell_of 1 no no (one (ghost 2 None)) [] []) }
    ensures set_of_greater_beat { cell_steps (cell_of 1 no no (one (ghost 2 None)) [] [])
        (From 0 (GhostSet 1 3 (copy_at 7 5 5))) ≡ cell_rests
        (cell_of 1 no no (one (ghost 3 (Some (copy_at 7 5 5)))) [] []) }
    ensures set_where_the_real_is { cell_steps (home inland) (From 1 (GhostSet 1 9 (copy_at 7 5 5)))
        ≡ cell_rests (home inland) }
    ensures set_of_no_type { cell_steps (cell_of 1 no no no [] [])
        (From 0 (GhostSet 1 2 (record {
          ty = 2;
          version = 7;
          state = record { pos = at 5 5; props = [] };
        })))
        ≡ cell_rests (cell_of 1 no no no [] []) }
    ensures drop { cell_steps (cell_of 1 no no (one (ghost 2 (Some (copy_at 7 5 5)))) [] [])
        (From 0 (GhostDrop 1 3)) ≡ cell_rests (cell_of 1 no no (one (ghost 3 None)) [] []) }
    ensures drop_of_equal_beat { cell_steps (cell_of 1 no no (one (ghost 3 (Some (copy_at 7 5 5))))
        [] []) (From 0 (GhostDrop 1 3)) ≡ cell_rests
        (cell_of 1 no no (one (ghost 3 (Some (copy_at 7 5 5)))) [] []) }
    ensures drop_where_the_real_is { cell_steps (home inland) (From 1 (GhostDrop 1 9))
        ≡ cell_rests (cell_of 0 (one inland) no (one (ghost 9 None)) [] []) }
    ensures drop_at_the_limit { cell_steps (cell_of 1 no no no [] [])
        (From 0 (GhostDrop 1 (2 ^ 62))) ≡ cell_rests (cell_of 1 no no no [] []) }
{}

/// Reap: the real goes, and its entries in both lists; each haunt is told to drop its copy at the next beat, in rising number, and the
/// own book does so.
pub fn reaps()
    ensures reaped { cell_steps (cell_of 0 (one (real 100 0 0 (at 4990 4700) no []
        (cells (1 ∷ 2 ∷ [])) 4 0)) no (one (ghost 3 None)) (1 ∷ 2 ∷ []) (2 ∷ 1 ∷ []))
        (From 16 (Reap 1)) ≡ record {
          state = cell_of 0 no no (one (ghost 5 None)) (2 ∷ [])
              (2 ∷ []);
          sent = (1, GhostDrop 1 5) ∷ (2, GhostDrop 1 5) ∷ [];
        } }
    ensures next_place_alone { cell_steps (cell_of 0 no (one (next_place 1 1)) no [] [])
        (From 16 (Reap 1)) ≡ cell_rests (cell_of 0 no (one (next_place 1 1)) no [] []) }
{}

/// Stray input at a cell: a call that is held already, is not of the cell part, has arguments or a place that do not fit, or a number
/// of 0 or at the limit changes nothing.
pub fn stray_calls_at_a_cell()
    ensures held_already { cell_steps (home (real 100 0 0 (at 1000 1000)
        (of_first (order 1 ((2, call 1 2 (hit 1)) ∷ []))) [] set.empty 0 0))
        (From 16 (Call (call 1 2 (hit 5)))) ≡ cell_rests
        (home (real 100 0 0 (at 1000 1000) (of_first (order 1 ((2, call 1 2 (hit 1)) ∷ []))) []
        set.empty 0 0)) }
    ensures base_part { cell_steps (home inland) (From 16 (Call (promote 1)))
        ≡ cell_rests (home inland) }
    ensures outside { cell_steps (home inland) (From 16 (Call (call 1 1 (Move (at 10000 5)))))
        ≡ cell_rests (home inland) }
    ensures number_0 { cell_steps (home inland) (From 16 (Call (call 1 0 (hit 1))))
        ≡ cell_rests (home inland) }
    ensures number_at_the_limit { cell_steps (home inland)
        (From 16 (Call (call 1 (2 ^ 62 - 1) (hit 1)))) ≡ cell_rests (home inland) }
    ensures last_number_held { cell_steps (home inland)
        (From 16 (Call (call 1 (2 ^ 62 - 2) (hit 1)))) ≡ cell_rests
        (home (real 100 0 0 (at 1000 1000) (of_first (order 1
        ((2 ^ 62 - 2, call 1 (2 ^ 62 - 2) (hit 1)) ∷ []))) [] set.empty 0 0)) }
    ensures beat_at_the_limit { cell_steps (home (real 100 0 0 (at 1000 1000) no [] set.empty
        (2 ^ 62 - 1) 0)) (From 16 (Call (call 1 1 (hit 1))))
        ≡ cell_rests (home (real 100 0 0 (at 1000 1000) no [] set.empty (2 ^ 62 - 1) 0)) }
    ensures not_for_cells { cell_steps (cell_of 0 no no no [] []) (From 16 (Current 1 0 1))
        ≡ cell_rests (cell_of 0 no no no [] []) }
{}
