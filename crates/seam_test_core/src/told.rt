// What nodes send each other, as plain data.
use seam_call::{Shown, Update};
use seam_entity::{Msg, Real};
use seam_machine::Out;

// What a message tells of an entity.
#[derive(Clone, Copy, PartialEq, Eq)]
pub enum Told {
    // The call of that number, for the cell part.
    Call(u32, u64),
    // The call of that number, for the base part.
    BaseCall(u32, u64),
    // The real, at that beat and generation.
    Hand(u32, u64, u64),
    // The cell of the real, and its generation.
    Current(u32, u8, u64),
    // The copy of that version, at a beat.
    Set(u64, u32, u64),
    // No copy from that beat on.
    Drop(u64, u32),
    Tick,
    Reap(u32),
    // Boundaries of that number.
    Bounds(u64),
    // The witness's update of that number: its own version, or who enters or has changed, at a version, or who leaves.
    Own(u64, u64),
    Enter(u64, u32, u64),
    Change(u64, u32, u64),
    Leave(u64, u32),
}

fn of_real(real: &Real) -> Told {
    Told::Hand(real.entity(), real.beat(), real.generation())
}

fn of_update(update: &Update) -> Told {
    let n = update.number;
    match &update.shown {
        Shown::Own(version, _) => Told::Own(n, *version),
        Shown::Enter(e, copy) => Told::Enter(n, *e, copy.get().version),
        Shown::Set(e, copy) => Told::Change(n, *e, copy.get().version),
        Shown::Leave(e) => Told::Leave(n, *e),
    }
}

fn what_it_tells(message: &Msg) -> Told {
    match message {
        Msg::Call(call) => Told::Call(call.entity, call.number),
        Msg::BaseCall(call) => Told::BaseCall(call.entity, call.number),
        Msg::Hand(parcel, _) => of_real(&parcel.real),
        Msg::Current(e, cell, generation) => Told::Current(*e, *cell, *generation),
        Msg::GhostSet(e, beat, copy) => Told::Set(*beat, *e, copy.version),
        Msg::GhostDrop(e, beat) => Told::Drop(*beat, *e),
        Msg::Tick => Told::Tick,
        Msg::Reap(e) => Told::Reap(*e),
        Msg::Update(update) => of_update(update),
        Msg::Bounds(bounds) => Told::Bounds(bounds.number),
    }
}

// Whether just these were sent, to these nodes, in this order.
pub fn are_sent(out: &mut Out<Msg>, wanted: &[(u8, Told)]) -> bool {
    for (to, what) in wanted {
        let Some((target, message)) = out.take() else {
            return false;
        };
        if target != *to || what_it_tells(&message) != *what {
            return false;
        }
    }
    out.is_empty()
}
