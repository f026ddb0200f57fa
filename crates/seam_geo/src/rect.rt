ghost use Rattle.std.specs.Prelude.{◌≡◌, ◌<◌, ◌≤◌, ◌↔◌, IsTrue, IsSome, IfSome};
ghost use Rattle.seam_geo.specs.Rect.{Area, IsProper, Holds, distance_to, IsNearest, distance_along};

use crate::Pos;
use std::marker::Model;

/// A rectangular area that is not empty. It holds its lower edges and not its upper ones, so areas that share an
/// edge share no position.
#[derive(Clone, Copy, Debug, PartialEq, Eq)]
pub struct Rect {
    low: Pos,
    high: Pos,
}

impl Model for Rect {
    ghost Value = { Area };

    ghost view = { λ r. record { low = r.low; high = r.high } };

    ghost invariant = { λ r. (r.low.x < r.high.x) × (r.low.z < r.high.z) };

    ghost inverse = { λ a. record { low = a.low; high = a.high } };
}

// How far a place lies from the places from `low` up to, but without, `high`.
fn dist_along(low: u32, high: u32, at: u32) -> u32
    requires { low < high }
    ensures { result ≡ distance_along low high at }
{
    if at < low {
        low - at
    } else if at < high {
        0
    } else {
        at - (high - 1)
    }
}

impl Rect {
    /// The area from `low` up to, but without, `high`: None where it would be empty on an axis.
    pub fn new(low: Pos, high: Pos) -> Option<Self>
        ensures proper { IsSome result ↔ IsProper (record { low = low; high = high }) }
        ensures corners { IfSome result (λ r. (r.low ≡ low) × (r.high ≡ high)) }
    {
        if low.x < high.x && low.z < high.z {
            Some(Rect { low, high })
        } else {
            None
        }
    }

    /// The least position of the area.
    pub fn low(&self) -> Pos
        ensures corner { result ≡ self.now.low }
        ensures proper { IsProper self.now }
    {
        self.low
    }

    /// The position past the area's greatest one on both axes.
    pub fn high(&self) -> Pos
        ensures corner { result ≡ self.now.high }
        ensures proper { IsProper self.now }
    {
        self.high
    }

    /// Whether the position lies in the area.
    pub fn holds(&self, p: Pos) -> bool
        ensures { IsTrue result ↔ Holds self.now p }
    {
        self.low.x <= p.x && p.x < self.high.x && self.low.z <= p.z && p.z < self.high.z
    }

    /// The distance from the position to the nearest whole point of the area, which is 0 exactly inside it.
    pub fn dist(&self, p: Pos) -> u32
        ensures value { result ≡ distance_to self.now p }
        ensures nearest { IsNearest self.now p result }
        ensures inside { (result ≡ 0) ↔ Holds self.now p }
    {
        let x = dist_along(self.low.x, self.high.x, p.x);
        let z = dist_along(self.low.z, self.high.z, p.z);
        x.max(z)
    }
}
