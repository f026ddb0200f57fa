// Who may ask what of an entity.
ghost use Rattle.std.specs.Prelude.{MatchBool};
ghost use Rattle.seam_rule_lines.specs.Judging.{MayCall, MayMove};

use seam_call::Sender;
use seam_defs::{Method, Part};

/// Who asks which entity for a deed.
#[derive(Clone, Copy)]
pub struct Asked {
    pub sender: Sender,
    pub entity: u32,
}

/// Whether the sender may move the entity.
pub fn may_move(asked: &Asked) -> bool
    ensures { MatchBool result (MayMove asked.now.sender asked.now.entity)
        (¬ (MayMove asked.now.sender asked.now.entity)) }
{
    match asked.sender {
        Sender::Base(_) => true,
        Sender::Client(own) => own == asked.entity,
    }
}

/// Whether the sender may call a method of the entity.
pub fn may_call(asked: &Asked, method: &Method) -> bool
    ensures { MatchBool result (MayCall asked.now.sender asked.now.entity method.now)
        (¬ (MayCall asked.now.sender asked.now.entity method.now)) }
{
    match asked.sender {
        Sender::Base(_node) => true,
        Sender::Client(own) => {
            method.exposed && (matches!(method.part, Part::Cell) || own == asked.entity)
        }
    }
}
