//! Laws of groups of values. Each function says its law in its contract, and does nothing.
ghost use Rattle.std.specs.Prelude.{◌≡◌, List};
ghost use Rattle.seam_value.specs.declared.values.Value.{Value};
ghost use Rattle.seam_defs.specs.declared.flags.Group.{Group};
ghost use Rattle.seam_defs.specs.declared.flags.Group.TheVariants as group;
ghost use Rattle.seam_defs.specs.declared.flags.Part.{Part};
ghost use Rattle.seam_defs.specs.declared.types.Property.{Property};
ghost use Rattle.seam_defs.specs.declared.states.State.{State};
ghost use Rattle.seam_defs.specs.Groups.{IsWithin, held_by, shown_by};
ghost use Rattle.seam_defs.specs.Deeds.{projected, ghost_of, other_of, text_of_projected, SameShown, IsOfGroup};

/// To project a projection is to project the whole.
pub fn group_of_a_group()
    ensures { (held middle inner : Group) → IsWithin middle held → IsWithin inner middle →
        (ps : List Property) (values : List Value) → projected ps middle inner
        (projected ps held middle values) ≡ projected ps held inner values }
{}

/// The values of a group projected to a group within it are of that group.
pub fn projection_is_of_group()
    ensures { (held g : Group) → IsWithin g held → (ps : List Property) (values : List Value) →
        IsOfGroup ps held values → IsOfGroup ps g (projected ps held g values) }
{}

/// What other clients are shown of a real is what its ghost holds of it: two reals with equal ghosts show them the same.
pub fn others_see_the_ghost()
    ensures shown { (ps : List Property) (s t : State) → ghost_of ps s ≡ ghost_of ps t →
        other_of ps s ≡ other_of ps t }
    ensures by_ghost { (ps : List Property) (s : State) →
        projected ps group.Ghost group.Other (ghost_of ps s).props ≡ (other_of ps s).props }
{}

/// Where what others may see of a part is as it was, so is the text of each group of it.
pub fn same_shown_same_text()
    ensures { (ps : List Property) (part : Part) (s t : State) → SameShown ps part s t →
        (g : Group) → IsWithin g (shown_by part) → text_of_projected ps (held_by part) g s
        ≡ text_of_projected ps (held_by part) g t }
{}
