//! What the loads make of single nodes, exactly.

ghost use Rattle.std.specs.Prelude.{◌≡◌, [], ◌∷◌, None, Some};
ghost use Rattle.std.specs.FinSet as set;
ghost use Rattle.seam_call.specs.declared.order.Order.TheVariants as order;
ghost use Rattle.seam_node_steps.specs.Prelude.{created, Cell, Base, created_at, attached, cell_round, base_round, ordered_at};
ghost use Rattle.seam_node_steps.specs.Prelude.{reap_ordered_at, new_part, with_witness, at, call, hit, avatar_at, no, one, next_place};
ghost use Rattle.seam_node_steps.specs.Prelude.{copy_at, ghost, real, here, cell, idle, two_cells, space, both, proxy, ranked, promote};
ghost use Rattle.seam_node_steps.specs.OneStep.{empty_node, part_of, line};

/// Load, point 1: the real of a created entity is made in the leaf of its position, each base node gets a route of generation 0, and
/// the entity's base node its base part.
pub fn creates()
    ensures leaf { created_at two_cells (avatar_at 5000 100) (idle two_cells 1)
        ≡ Cell (cell two_cells 1 (one (created (here 1) 1 0 (at 5000 100))) no no [] []) }
    ensures other_cell { created_at two_cells (avatar_at 5000 100) (idle two_cells 0)
        ≡ idle two_cells 0 }
    ensures its_base_node { created_at two_cells (avatar_at 5000 100) (Base (empty_node 17))
        ≡ Base (record (empty_node 17) {
          routes = one (record { cell = 1; generation = 0 });
          parts = one (new_part (here 17) 0);
        }) }
    ensures other_base_node { created_at two_cells (avatar_at 5000 100) (Base (empty_node 16))
        ≡ Base (record (empty_node 16) { routes = one (record { cell = 1; generation = 0 }) }) }
{}

/// Load, point 2: the real of an entity that gets a client gets a witness, and its base part a proxy, which shows the part where its
/// type has something for clients.
pub fn clients()
    ensures witness { attached 1 (Cell (cell two_cells 0
        (both (created (here 0) 1 0 (at 5 5)) (created (here 0) 2 0 (at 5 5))) no no [] []))
        ≡ Cell (cell two_cells 0 (both (with_witness (here 0) (created (here 0) 1 0 (at 5 5)))
        (created (here 0) 2 0 (at 5 5))) no no [] []) }
    ensures proxy { attached 1
        (Base (record (empty_node 17) { parts = one (new_part (here 17) 0) }))
        ≡ Base (record (empty_node 17) {
          parts = one (record (new_part (here 17) 0) {
            proxy =
                proxy 1 [] (line 1 (ranked 0 1) ∷ []) 1;
          });
        }) }
    ensures nothing_to_show { attached 1 (Base (record (empty_node 17) {
      parts =
          one (new_part (here 17) 1);
    })) ≡ Base (record (empty_node 17) {
      parts =
          one (record (new_part (here 17) 1) { proxy = proxy 1 [] [] 0 });
    }) }
{}

/// Load, point 3: a cell takes the tree, forgets its next places and the beats of entities that it has no copy of, empties the lists of
/// done calls, and is to settle all its reals in rising number; a base node forgets the routes of those who were reaped, empties the lists
/// of done calls and of lines, and takes the number of cells.
pub fn rounds_begin()
    ensures cell { cell_round two_cells (Cell (cell space 0
        (both (real 99 1 1 (at 5 5) no (call 1 1 (hit 1) ∷ []) set.empty 0 0)
        (created (here 0) 2 0 (at 5 5))) (one (next_place 1 1))
        (both (ghost 4 (Some (copy_at 0 5 5))) (ghost 3 None)) [] []))
        ≡ Cell (cell two_cells 0 (both (real 99 1 1 (at 5 5) no [] set.empty 0 0)
        (created (here 0) 2 0 (at 5 5))) no (one (ghost 4 (Some (copy_at 0 5 5))))
        (1 ∷ 2 ∷ []) []) }
    ensures base { base_round 3 (Base (record (empty_node 17) {
      routes =
          both (record { cell = 0; generation = 0 }) (record { cell = 1; generation = 2 });
      gone =
          2 ∷ [];
      parts =
          one (part_of 1 0 2 no (promote 1 ∷ [])
          (proxy 1 [] (line 1 (ranked 1 2) ∷ []) 1));
    }))
        ≡ Base (record (empty_node 17) {
          cells = 3;
          routes =
              one (record { cell = 0; generation = 0 });
          parts =
              one (part_of 1 0 2 no [] (proxy 1 [] [] 1));
        }) }
{}

/// Load, point 4, and the orders of the other loads: each is appended to the list of its node, a reap to that of the entity's base
/// node. Each base node notes who is reaped.
pub fn orders_given()
    ensures its_node { ordered_at (16, order.Tick) (Base (record (empty_node 16) {
      orders =
          order.Reap 2 ∷ [];
    })) ≡ Base (record (empty_node 16) {
      orders =
          order.Reap 2 ∷ order.Tick ∷ [];
    }) }
    ensures other_node { ordered_at (16, order.Tick) (Base (empty_node 17)) ≡ Base (empty_node 17) }
    ensures reap { reap_ordered_at 3 (Base (record (empty_node 17) { orders = order.Reap 1 ∷ [] }))
        ≡ Base (record (empty_node 17) {
          orders =
              order.Reap 1 ∷ order.Reap 3 ∷ [];
          gone =
              3 ∷ [];
        }) }
    ensures reap_elsewhere { reap_ordered_at 3 (Base (empty_node 16))
        ≡ Base (record (empty_node 16) { gone = 3 ∷ [] }) }
{}
