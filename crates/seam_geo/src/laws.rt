// What holds of all distances, for those that reason about them.
ghost use Rattle.std.specs.Prelude.{ℕ, ◌+◌, ◌≤◌};
ghost use Rattle.seam_geo.specs.declared.pos.Pos.{Pos};
ghost use Rattle.seam_geo.specs.Pos.{distance};
ghost use Rattle.seam_geo.specs.Rect.{Area, distance_to};

/// The triangle inequality for an area: a position is no farther from it than the way over another position. So what lies
/// within `reach` of a witness that is within `far` of an area is within `reach + far` of that area.
pub fn triangle_inequality()
    ensures over { (a : Area) (p q : Pos) → distance_to a p ≤ distance p q + distance_to a q }
    ensures within { (a : Area) (p q : Pos) (reach far : ℕ)
        → distance p q ≤ reach → distance_to a q ≤ far → distance_to a p ≤ reach + far }
{}
