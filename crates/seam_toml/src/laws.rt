//! What the definitions say together, each law on a function that does nothing.
ghost use Rattle.std.specs.Prelude.{◌≡◌, ℕ, List};
ghost use Rattle.seam_defs.specs.Settings.{AreInRange, AreLegal};
ghost use Rattle.seam_defs.specs.Types.{AreDefs};
ghost use Rattle.seam_toml.specs.Header.{Reads};
ghost use Rattle.seam_toml.specs.declared.header.Header.{Header};

/// A text stands for one header at most. Its types are well formed, and its settings are legal, so that each is in its range.
pub fn header_is_one()
    ensures one { (text : List ℕ) (h k : Header) → Reads text h → Reads text k → h ≡ k }
    ensures sound { (text : List ℕ) (h : Header) → Reads text h → AreDefs h.defs }
    ensures legal { (text : List ℕ) (h : Header) → Reads text h → AreLegal h.settings }
    ensures in_range { (text : List ℕ) (h : Header) → Reads text h → AreInRange h.settings }
{}
