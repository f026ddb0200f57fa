// When two values are the same.
ghost use Rattle.std.specs.Prelude.{◌≡◌, ◌↔◌, IsTrue};
ghost use Rattle.seam_tree.specs.Division.{cut_number};

use seam_call::{Call, ClientText, GhostCopy, Line, Shown};
use seam_defs::{Args, Deed, Props, State};
use seam_table::Shared;
use seam_tree::Tree;
use seam_value::Value;

/// Values that can be told apart: those that contracts see as equal are the same.
pub trait Same {
    /// Whether the other value is the same.
    fn is(&self, other: &Self) -> bool
        ensures { IsTrue result ↔ (self.now ≡ other.now) };
}

/// Whether two lists have the same items in the same order.
pub fn are_same<T: Same>(a: &[T], b: &[T]) -> bool
    ensures { IsTrue result ↔ (a.now ≡ b.now) }
{
    if a.len() != b.len() {
        return false;
    }
    for i in 0..a.len() {
        let same = a[i].is(&b[i]);
        if !same {
            return false;
        }
    }
    true
}

impl Same for Value {
    fn is(&self, other: &Value) -> bool {
        self == other
    }
}

impl Same for Props {
    fn is(&self, other: &Props) -> bool {
        self.equals(other)
    }
}

impl Same for State {
    fn is(&self, other: &State) -> bool {
        self.pos == other.pos && self.props.is(&other.props)
    }
}

impl Same for Args {
    fn is(&self, other: &Args) -> bool {
        are_same(self.values(), other.values())
    }
}

impl Same for Deed {
    fn is(&self, other: &Deed) -> bool {
        match (self, other) {
            (Deed::Move(a), Deed::Move(b)) => a == b,
            (Deed::Method(a, x), Deed::Method(b, y)) => a == b && x.is(y),
            (Deed::Move(_), Deed::Method(..)) | (Deed::Method(..), Deed::Move(_)) => false,
        }
    }
}

impl Same for Call {
    fn is(&self, other: &Call) -> bool {
        self.entity == other.entity
            && self.part == other.part
            && self.sender == other.sender
            && self.number == other.number
            && self.deed.is(&other.deed)
    }
}

impl<T: Same> Same for Shared<T> {
    fn is(&self, other: &Shared<T>) -> bool {
        self.get().is(other.get())
    }
}

impl Same for GhostCopy {
    fn is(&self, other: &GhostCopy) -> bool {
        self.ty == other.ty && self.version == other.version && self.state.is(&other.state)
    }
}

impl Same for Shown {
    fn is(&self, other: &Shown) -> bool {
        match (self, other) {
            (Shown::Own(v, a), Shown::Own(w, b)) => v == w && a.is(b),
            (Shown::Enter(e, a), Shown::Enter(f, b)) => e == f && a.is(b),
            (Shown::Set(e, a), Shown::Set(f, b)) => e == f && a.is(b),
            (Shown::Leave(e), Shown::Leave(f)) => e == f,
            _ => false,
        }
    }
}

impl Same for ClientText {
    fn is(&self, other: &ClientText) -> bool {
        match (self, other) {
            (ClientText::Shown(a), ClientText::Shown(b)) => a.is(b),
            (ClientText::Base(v, a), ClientText::Base(w, b)) => v == w && a.is(b),
            (ClientText::Shown(_), ClientText::Base(..))
            | (ClientText::Base(..), ClientText::Shown(_)) => false,
        }
    }
}

impl Same for Line {
    fn is(&self, other: &Line) -> bool {
        self.number == other.number && self.text.is(&other.text)
    }
}

// Whether a cut of two trees is the same, or neither has it.
fn is_same_cut(a: &Tree, b: &Tree, number: u8) -> bool
    ensures { IsTrue result ↔ (cut_number a.now number ≡ cut_number b.now number) }
{
    a.cut_of(number) == b.cut_of(number) && a.boundary(number) == b.boundary(number)
}

impl Same for Tree {
    fn is(&self, other: &Tree) -> bool {
        if self.size() != other.size() || self.cells() != other.cells() {
            return false;
        }
        for number in 1..self.cells() {
            let same = is_same_cut(self, other, number);
            if !same {
                return false;
            }
        }
        true
    }
}
