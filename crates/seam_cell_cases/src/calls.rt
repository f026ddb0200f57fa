//! Calls of a real that is here.

ghost use Rattle.std.specs.Prelude.{◌≡◌, ◌<◌, ◌^◌, true, is_some, IfOk, IfErr, IfSome, OnOk, OnErr, Some, option_map};
ghost use Rattle.seam_node_steps.specs.Prelude.{with_later, AreLegal, cell_count, order_of, may_offer as order_may_offer, has_ready};
ghost use Rattle.seam_node_steps.specs.Prelude.{may_settle as real_may_settle, may_execute as real_may_execute, may_call as real_may_call};
ghost use Rattle.seam_node_steps.specs.Prelude.{executed, shows, settled};
ghost use Rattle.seam_entity.specs.Executing.{with_deed};
ghost use Rattle.seam_entity.specs.Preparing.{HasRoom, offered};
ghost use Rattle.seam_cell_parts.specs.Kept.{here_in, IsRealInSpace};
ghost use Rattle.seam_cell_parts.specs.Settling.{HasRoomFor};
ghost use Rattle.seam_cell_parts.specs.Stepping.{HasBegun, IsDone, parts_of, slot_in, core_of};

use seam_call::Call;
use seam_cell_parts::{Begun, CellContext, Remotes, Subject, begin, settle_real};
use seam_defs::Later;
use seam_entity::{Msg, Real, fits_cell_part, may_rise};
use seam_machine::Out;
use seam_table::NoMemoryFor;
use std::alloc::AllocError;

/// A real, and a call whose turn it is.
#[derive(Drop)]
pub struct Turn {
    pub real: Real,
    pub call: Call,
}

/// The real after a call, where it is still here, and whether there was memory for the call.
#[derive(Drop)]
pub struct Called {
    pub left: Option<Real>,
    pub result: Result<(), NoMemoryFor<Call>>,
}

/// What a call leaves of a real, and the settling that has begun with it.
#[derive(Drop)]
pub struct Made {
    pub after: Later,
    pub begun: Begun,
}

/// Whether the real's beat and generation may rise.
pub fn may_settle(real: &Real) -> bool
    ensures { result ≡ real_may_settle real.now.core }
{
    may_rise(real.beat()) && may_rise(real.generation())
}

/// Whether the real may execute a call and settle.
pub fn may_execute(real: &Real) -> bool
    ensures { result ≡ real_may_execute real.now.core }
{
    may_rise(real.version()) && may_settle(real)
}

// Whether the call's sender's order may be offered it.
fn may_offer(real: &Real, call: &Call) -> bool
    ensures { result ≡ order_may_offer (order_of real.now.core.orders call.now.sender)
        call.now.number }
{
    call.number > 0 && (may_rise(call.number) && !real.holds(call.sender, call.number))
}

/// Whether the real may be offered the call.
pub fn may_call(known: &CellContext, real: &Real, call: &Call) -> bool
    ensures { result ≡ real_may_call (here_in known.now) real.now.core call.now }
{
    fits_cell_part(&known.defs, &known.settings, real.entity(), real.ty(), call)
        && (may_offer(real, call) && may_execute(real))
}

// Begins what a call takes whose turn it is. If allocation fails, nothing has changed.
fn begin_call(
    known: &CellContext,
    real: &mut Real,
    call: &Call,
    remotes: &mut Remotes,
    out: &mut Out<Msg>,
) -> Result<Made, AllocError>
    requires me { known.now.me < cell_count }
    requires legal { AreLegal known.now.settings }
    requires size { known.now.bounds.tree.size ≡ known.now.settings.size }
    requires there { IsRealInSpace (here_in known.now) known.now.bounds.tree real.old.core }
    requires may { real_may_call (here_in known.now) real.old.core call.now ≡ true }
    ensures same { real.new.core ≡ real.old.core }
    ensures room { OnOk result (HasRoom real.new call.now) }
    ensures state { IfOk result (λ m. with_later real.old.core.state m.after
        ≡ (with_deed (here_in known.now) real.old.core call.now).state) }
    ensures changed { IfOk result (λ m. m.after.changed ≡ shows (here_in known.now) real.old.core
        call.now) }
    ensures begun { let h = here_in known.now in let r = real.old.core in
        IfOk result (λ m. HasBegun h known.now.bounds
        (executed h r call.now) (shows h r call.now) (parts_of remotes.old out.old)
        (parts_of remotes.new out.new) m.begun) }
    ensures remotes { IfOk result (λ m. HasRoomFor remotes.new.nexts.room out.new.spare
        m.begun.telling) }
    ensures err { OnErr result (parts_of remotes.new out.new ≡ parts_of remotes.old out.old) }
{
    let after = real.prepare(&known.defs, call)?;
    let of = Subject {
        defs: &known.defs,
        ty: real.ty(),
        version: real.version_after(&after),
        pos: after.pos,
        props: after.props_over(real.state()),
    };
    let begun = begin(known, real, &of, after.changed, remotes, out)?;
    Ok(Made { after, begun })
}

// There was no memory for the call, and nothing has changed.
fn refused(real: Real, call: Call) -> Called
    ensures left { result.left ≡ Some real }
    ensures result { result.result ≡ Err (record { item = call }) }
{
    Called {
        left: Some(real),
        result: Err(NoMemoryFor { item: call }),
    }
}

/// Call, real here, whose turn it is: the real executes it and settles.
pub fn execute_turn(
    known: &CellContext,
    turn: Turn,
    remotes: &mut Remotes,
    out: &mut Out<Msg>,
) -> Called
    requires me { known.now.me < cell_count }
    requires legal { AreLegal known.now.settings }
    requires size { known.now.bounds.tree.size ≡ known.now.settings.size }
    requires there { IsRealInSpace (here_in known.now) known.now.bounds.tree turn.real.core }
    requires may { real_may_call (here_in known.now) turn.real.core turn.call ≡ true }
    requires in_turn { turn.call.number ≡ (order_of turn.real.core.orders turn.call.sender).next }
    ensures done { let h = here_in known.now in let r = turn.real.core in let before =
        parts_of remotes.old out.old in
        OnOk result.result (IsDone
        (settled h known.now.bounds (slot_in before r.entity r) (executed h r turn.call)
        (shows h r turn.call)) r.entity r
        (option_map core_of result.left) before (parts_of remotes.new out.new)) }
    ensures witness { IfSome result.left (λ q. q.core.witness ≡ turn.real.core.witness) }

    // If allocation fails, the call and the real come back and nothing has changed.
    ensures err { OnErr result.result (option_map core_of result.left ≡ Some turn.real.core) }
    ensures err_parts { OnErr result.result (parts_of remotes.new out.new
        ≡ parts_of remotes.old out.old) }
    ensures err_item { IfErr result.result (λ e. e.item ≡ turn.call) }
{
    let Turn { mut real, call } = turn;
    let Ok(made) = begin_call(known, &mut real, &call, remotes, out) else {
        return refused(real, call);
    };
    let Made { after, begun } = made;
    real.execute_after(call, after);
    Called {
        left: settle_real(real, begun, remotes, out),
        result: Ok(()),
    }
}

/// A real that was to hold a call, and whether there was memory for it.
#[derive(Drop)]
pub struct Held {
    pub real: Real,
    pub result: Result<(), NoMemoryFor<Call>>,
}

/// Call, real here, whose turn it is not: the real holds an early call, and a late one changes nothing.
pub fn hold(known: &CellContext, turn: Turn) -> Held
    requires may { real_may_call (here_in known.now) turn.real.core turn.call ≡ true }
    ensures after { OnOk result.result (result.real.core
        ≡ offered (here_in known.now) turn.real.core turn.call) }
    ensures err { OnErr result.result (result.real.core ≡ turn.real.core) }
    ensures err_item { IfErr result.result (λ e. e.item ≡ turn.call) }
{
    let Turn { mut real, call } = turn;
    match real.execute(&known.defs, call) {
        Ok(_) => Held {
            real,
            result: Ok(()),
        },
        Err(refused) => Held {
            real,
            result: Err(refused),
        },
    }
}
