//! Single steps of a base node, exactly.

ghost use Rattle.std.specs.Prelude.{◌≡◌, [], ◌∷◌, None};
ghost use Rattle.seam_node_steps.specs.Prelude.{Task, From, BaseCall, Current, Tick, Bounds, Reap, Update, Leave, base_steps};
ghost use Rattle.seam_node_steps.specs.Prelude.{sends_none, call};
ghost use Rattle.seam_node_steps.specs.Prelude.{hit, no, one, orders, order as in_order, of_first, has_first, promote, proxy, ranked};
ghost use Rattle.seam_entity.specs.declared.message.Msg.TheVariants.{Call};
ghost use Rattle.seam_call.specs.declared.order.Order.TheVariants as order;
ghost use Rattle.seam_call.specs.declared.shown.ClientText.TheVariants as text;
ghost use Rattle.seam_node_steps.specs.OneStep.{base_of, base_ordered, base_with, new_client, without_client, both};
ghost use Rattle.seam_node_steps.specs.OneStep.{one_with, pay, part_of, line, update};

/// Cell order, base order, tick order, bounds order and reap order: the first order is executed. A call goes to the route's cell, or to the
/// entity's base node; a tick and boundaries go to every cell of the tree, in rising number; a reap goes to the route's cell, and the base
/// part goes. A stray order stays first.
pub fn orders_of_a_base_node()
    ensures cell { base_steps (base_ordered (order.Cell (call 1 1 (hit 1)) ∷ order.Tick ∷ [])
        new_client) Task ≡ record {
          state = base_ordered (order.Tick ∷ []) new_client;
          sent = (1, Call (call 1 1 (hit 1))) ∷ [];
        } }
    ensures base_elsewhere { base_steps (base_of 16 (order.Base (promote 1) ∷ []) (1, 2) no) Task
        ≡ record { state = base_of 16 [] (1, 2) no; sent = (17, BaseCall (promote 1)) ∷ [] } }
    ensures base_here { base_steps (base_ordered (order.Base (promote 1) ∷ []) new_client) Task
        ≡ sends_none (base_with (part_of 1 0 2 (of_first (in_order 2 [])) (promote 1 ∷ [])
        (proxy 1 [] (line 1 (ranked 1 2) ∷ []) 1))) }
    ensures tick { base_steps (base_of 16 (order.Tick ∷ []) (1, 2) no) Task
        ≡ record {
          state = base_of 16 [] (1, 2) no;
          sent = (0, Tick) ∷ (1, Tick) ∷ (2, Tick) ∷
              [];
        } }
    ensures bounds { base_steps (base_of 16 (order.Bounds (one_with 1) ∷ []) (1, 2) no) Task
        ≡ record {
          state = base_of 16 [] (1, 2) no;
          sent = (0, Bounds (one_with 1)) ∷ (1, Bounds (one_with 1)) ∷ (2, Bounds (one_with 1)) ∷
              [];
        } }
    ensures reap { base_steps (base_ordered (order.Reap 1 ∷ []) new_client) Task
        ≡ record { state = base_of 17 [] (1, 2) no; sent = (1, Reap 1) ∷ [] } }
    ensures reap_without_a_route { base_steps (record (base_of 17 (order.Reap 2 ∷ []) (1, 2) no) {
      parts = one without_client;
    }) Task ≡ sends_none
        (record (base_of 17 (order.Reap 2 ∷ []) (1, 2) no) { parts = one without_client }) }
    ensures stray_cell_order { base_steps (record (base_of 17 (order.Cell (call 1 1 (hit 1)) ∷
        order.Tick ∷ []) (1, 2) no) { routes = no }) Task
        ≡ sends_none (record (base_of 17 (order.Cell (call 1 1 (hit 1)) ∷ order.Tick ∷ []) (
          1,
          2,
        ) no) { routes = no }) }
    ensures stray_base_order { base_steps (base_ordered (order.Base (call 1 1 (hit 1)) ∷
        order.Tick ∷ []) new_client) Task ≡ sends_none
        (base_ordered (order.Base (call 1 1 (hit 1)) ∷ order.Tick ∷ []) new_client) }
{}

/// Base call: in its turn it is executed and raises the version, and a line is shown where the client may see the change; early it is
/// held, late nothing changes. A call that does not fit changes nothing.
pub fn base_calls()
    ensures early { base_steps (base_with new_client) (From 16 (BaseCall (promote 2)))
        ≡ sends_none (base_with (part_of 0 0 1 (of_first (in_order 1 ((2, promote 2) ∷ []))) []
        (proxy 1 [] [] 0))) }
    ensures first { base_steps (base_with (part_of 0 0 1
        (of_first (in_order 1 ((2, promote 2) ∷ []))) [] (proxy 1 [] [] 0)))
        (From 16 (BaseCall (promote 1))) ≡ sends_none (base_with
        (part_of 1 0 2 (of_first (in_order 2 ((2, promote 2) ∷ []))) (promote 1 ∷ [])
        (proxy 1 [] (line 1 (ranked 1 2) ∷ []) 1))) }
    ensures late { base_steps (base_with (part_of 1 0 2
        (of_first (in_order 2 ((2, promote 2) ∷ []))) (promote 1 ∷ [])
        (proxy 1 [] (line 1 (ranked 1 2) ∷ []) 1))) (From 16 (BaseCall (promote 1)))
        ≡ sends_none (base_with (part_of 1 0 2 (of_first (in_order 2 ((2, promote 2) ∷ [])))
        (promote 1 ∷ []) (proxy 1 [] (line 1 (ranked 1 2) ∷ []) 1))) }
    ensures unseen { base_steps (base_with new_client) (From 16 (BaseCall (pay 1)))
        ≡ sends_none (base_with (part_of 1 7 1 (of_first (in_order 2 [])) (pay 1 ∷ [])
        (proxy 1 [] [] 0))) }
    ensures without_a_client { base_steps (base_with without_client)
        (From 16 (BaseCall (promote 1))) ≡ sends_none (base_with
        (part_of 1 0 2 (of_first (in_order 2 [])) (promote 1 ∷ []) None)) }
    ensures of_a_cell_part { base_steps (base_with new_client)
        (From 16 (BaseCall (call 1 1 (hit 1)))) ≡ sends_none (base_with new_client) }
    ensures held_already { base_steps (base_with (part_of 0 0 1
        (of_first (in_order 1 ((2, promote 2) ∷ []))) [] (proxy 1 [] [] 0)))
        (From 16 (BaseCall (pay 2))) ≡ sends_none (base_with
        (part_of 0 0 1 (of_first (in_order 1 ((2, promote 2) ∷ []))) [] (proxy 1 [] [] 0))) }
    ensures no_part { base_steps (base_of 17 [] (1, 2) no) (From 16 (BaseCall (promote 1)))
        ≡ sends_none (base_of 17 [] (1, 2) no) }
{}

/// Task without orders: the least base part that has a ready call executes it; where none has, the least proxy that has a ready update
/// shows it.
pub fn tasks_without_orders()
    ensures ready_call { base_steps (base_with (part_of 1 0 2
        (of_first (in_order 2 ((2, promote 2) ∷ []))) (promote 1 ∷ [])
        (proxy 1 [] (line 1 (ranked 1 2) ∷ []) 1))) Task
        ≡ sends_none (base_with (part_of 2 0 3 (of_first (in_order 3 [])) (promote 1 ∷ promote 2 ∷
        []) (proxy 1 [] (line 1 (ranked 1 2) ∷ line 2 (ranked 2 3) ∷ []) 2))) }
    ensures call_before_update { base_steps (base_with (part_of 0 0 1 (of_first (has_first (pay 1)))
        [] (proxy 1 ((1, Leave 3) ∷ []) [] 0))) Task
        ≡ sends_none (base_with (part_of 1 7 1 (of_first (in_order 2 [])) (pay 1 ∷ [])
        (proxy 1 ((1, Leave 3) ∷ []) [] 0))) }
    ensures ready_update { base_steps (base_with (part_of 0 0 1 no []
        (proxy 1 ((1, Leave 3) ∷ (2, Leave 4) ∷ []) [] 0))) Task
        ≡ sends_none (base_with (part_of 0 0 1 no [] (proxy 2 ((2, Leave 4) ∷ [])
        (line 1 (text.Shown (Leave 3)) ∷ []) 1))) }
    ensures least_part { base_steps (base_of 17 [] (1, 2)
        (both (part_of 0 0 1 (of_first (has_first (pay 1))) [] None)
        (part_of 0 0 1 (of_first (has_first (pay 1))) [] None))) Task
        ≡ sends_none (base_of 17 [] (1, 2) (both (part_of 1 7 1 (of_first (in_order 2 []))
        (pay 1 ∷ []) None) (part_of 0 0 1 (of_first (has_first (pay 1))) [] None))) }
    ensures least_sender { base_steps (base_with (part_of 0 0 1
        (orders (has_first (promote 1)) (has_first (pay 1))) [] None)) Task
        ≡ sends_none (base_with (part_of 1 0 2 (orders (in_order 2 []) (has_first (pay 1)))
        (promote 1 ∷ []) None)) }
{}

/// Update: in its turn it is shown under the client's next number, early it is held, late nothing changes, and nothing happens where there
/// is no proxy.
pub fn updates()
    ensures early { base_steps (base_with new_client) (From 1 (Update (update 2 (Leave 4))))
        ≡ sends_none (base_with (part_of 0 0 1 no [] (proxy 1 ((2, Leave 4) ∷ []) [] 0))) }
    ensures first { base_steps (base_with (part_of 0 0 1 no [] (proxy 1 ((2, Leave 4) ∷ []) [] 0)))
        (From 1 (Update (update 1 (Leave 3)))) ≡ sends_none
        (base_with (part_of 0 0 1 no [] (proxy 2 ((2, Leave 4) ∷ [])
        (line 1 (text.Shown (Leave 3)) ∷ []) 1))) }
    ensures late { base_steps (base_with (part_of 0 0 1 no []
        (proxy 2 [] (line 1 (text.Shown (Leave 3)) ∷ []) 1)))
        (From 1 (Update (update 1 (Leave 3)))) ≡ sends_none
        (base_with (part_of 0 0 1 no [] (proxy 2 [] (line 1 (text.Shown (Leave 3)) ∷ []) 1))) }
    ensures without_a_proxy { base_steps (base_with without_client)
        (From 1 (Update (update 1 (Leave 3)))) ≡ sends_none (base_with without_client) }
{}

/// Current: the route is replaced where the generation is greater. One for an entity without a route, or whose cell is none, changes
/// nothing.
pub fn currents()
    ensures greater { base_steps (base_of 16 [] (3, 2) no) (From 1 (Current 1 1 3))
        ≡ sends_none (base_of 16 [] (1, 3) no) }
    ensures equal { base_steps (base_of 16 [] (3, 2) no) (From 1 (Current 1 1 2))
        ≡ sends_none (base_of 16 [] (3, 2) no) }
    ensures less { base_steps (base_of 16 [] (3, 2) no) (From 1 (Current 1 1 1))
        ≡ sends_none (base_of 16 [] (3, 2) no) }
    ensures no_route { base_steps (base_of 16 [] (3, 2) no) (From 1 (Current 2 1 3))
        ≡ sends_none (base_of 16 [] (3, 2) no) }
    ensures no_cell { base_steps (base_of 16 [] (3, 2) no) (From 1 (Current 1 16 3))
        ≡ sends_none (base_of 16 [] (3, 2) no) }
    ensures not_for_base_nodes { base_steps (base_of 16 [] (3, 2) no) (From 1 Tick)
        ≡ sends_none (base_of 16 [] (3, 2) no) }
{}
