//! Tasks about a real that is here: it settles, or executes a ready call and settles.

ghost use Rattle.std.specs.Prelude.{◌≡◌, ◌<◌, ◌^◌, ℕ, true, false, is_some, IfOk, IfErr, IfSome, OnOk, OnErr, Some, option_map};
ghost use Rattle.seam_node_steps.specs.Prelude.{with_later, AreLegal, OrderView, Call as AnyCall, cell_count, has_ready, may_settle};
ghost use Rattle.seam_node_steps.specs.Prelude.{may_execute, executed_ready, shows, HasReady, survey_task, ready_call_task};
ghost use Rattle.seam_entity.specs.Executing.{with_deed};
ghost use Rattle.seam_entity.specs.Preparing.{HasSpare};
ghost use Rattle.seam_cell_parts.specs.Kept.{here_in, IsRealInSpace};
ghost use Rattle.seam_cell_parts.specs.Settling.{HasRoomFor};
ghost use Rattle.seam_cell_parts.specs.Stepping.{HasBegun, IsDone, parts_of, slot_in, core_of};

use crate::calls::Made;
use seam_cell_parts::{CellContext, Remotes, Subject, begin, settle_real};
use seam_entity::{Msg, Real};
use seam_machine::Out;
use std::alloc::AllocError;

/// The real after a task, where it is still here, and whether there was memory for the task.
#[derive(Drop)]
pub struct Tasked {
    pub left: Option<Real>,
    pub result: Result<(), AllocError>,
}

// Begins what the ready call takes of the real's least sender that has one. If allocation fails, nothing has changed.
fn begin_ready(
    known: &CellContext,
    real: &mut Real,
    remotes: &mut Remotes,
    out: &mut Out<Msg>,
) -> Result<Made, AllocError>
    requires me { known.now.me < cell_count }
    requires legal { AreLegal known.now.settings }
    requires size { known.now.bounds.tree.size ≡ known.now.settings.size }
    requires there { IsRealInSpace (here_in known.now) known.now.bounds.tree real.old.core }
    requires ready { has_ready real.old.core.orders ≡ true }
    requires may { may_execute real.old.core ≡ true }
    ensures same { real.new.core ≡ real.old.core }
    ensures room { OnOk result (HasSpare real.new) }
    ensures state { (o : ℕ × OrderView AnyCall) (k : AnyCall) → HasReady real.old.core o k →
        IfOk result (λ m. with_later real.old.core.state m.after
        ≡ (with_deed (here_in known.now) real.old.core k).state) }
    ensures changed { (o : ℕ × OrderView AnyCall) (k : AnyCall) → HasReady real.old.core o k →
        IfOk result (λ m. m.after.changed ≡ shows (here_in known.now) real.old.core k) }
    ensures begun { (o : ℕ × OrderView AnyCall) (k : AnyCall) → HasReady real.old.core o k →
        let h = here_in known.now in let r = real.old.core in
        IfOk result (λ m. HasBegun h known.now.bounds
        (executed_ready h r o k) (shows h r k) (parts_of remotes.old out.old)
        (parts_of remotes.new out.new) m.begun) }
    ensures entity { IfOk result (λ m. m.begun.telling.entity ≡ real.old.core.entity) }
    ensures remotes { IfOk result (λ m. HasRoomFor remotes.new.nexts.room out.new.spare
        m.begun.telling) }
    ensures err { OnErr result (parts_of remotes.new out.new ≡ parts_of remotes.old out.old) }
{
    let after = real.prepare_ready(&known.defs)?;
    let of = Subject {
        defs: &known.defs,
        ty: real.ty(),
        version: real.version_after(&after),
        pos: after.pos,
        props: after.props_over(real.state()),
    };
    let begun = begin(known, real, &of, after.changed, remotes, out)?;
    Ok(Made { after, begun })
}

/// Ready-call task: of the senders that have a ready call, the least one's is executed, and the real settles.
pub fn execute_ready(
    known: &CellContext,
    mut real: Real,
    remotes: &mut Remotes,
    out: &mut Out<Msg>,
) -> Tasked
    requires me { known.now.me < cell_count }
    requires legal { AreLegal known.now.settings }
    requires size { known.now.bounds.tree.size ≡ known.now.settings.size }
    requires there { IsRealInSpace (here_in known.now) known.now.bounds.tree real.core }
    requires ready { has_ready real.core.orders ≡ true }
    requires may { may_execute real.core ≡ true }
    ensures done { let r = real.core in let before = parts_of remotes.old out.old in
        OnOk result.result (IsDone
        (ready_call_task (here_in known.now) known.now.bounds (slot_in before r.entity r) (Some r))
        r.entity r
        (option_map core_of result.left) before (parts_of remotes.new out.new)) }
    ensures witness { IfSome result.left (λ q. q.core.witness ≡ real.core.witness) }

    // If allocation fails, the real comes back and nothing has changed.
    ensures err { OnErr result.result (option_map core_of result.left ≡ Some real.core) }
    ensures err_parts { OnErr result.result (parts_of remotes.new out.new
        ≡ parts_of remotes.old out.old) }
{
    let Ok(made) = begin_ready(known, &mut real, remotes, out) else {
        return Tasked {
            left: Some(real),
            result: Err(AllocError),
        };
    };
    let Made { after, begun } = made;
    real.execute_ready_after(after);
    Tasked {
        left: settle_real(real, begun, remotes, out),
        result: Ok(()),
    }
}
