// What the definitions say together.
ghost use Rattle.std.specs.Prelude.{◌≡◌};
ghost use Rattle.seam_value.specs.declared.values.Value.{Value};
ghost use Rattle.seam_value.specs.Values.{text_of};

/// Spelling is one to one: values with the same spelling are the same value. It does nothing when it runs.
pub fn spelling_is_one_to_one()
    ensures { (v w : Value) → text_of v ≡ text_of w → v ≡ w }
{}
