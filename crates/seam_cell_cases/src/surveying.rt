//! A real settles where it is due, without a call.

ghost use Rattle.std.specs.Prelude.{◌≡◌, ◌<◌, ◌++◌, not, true, false, IsTrue, OnOk, OnErr, IfSome, Some, option_map};
ghost use Rattle.std.specs.FinMap as table;
ghost use Rattle.seam_node_steps.specs.Prelude.{AreLegal, cell_count, RealView, may_settle as real_may_settle, settled, stray_survey};
ghost use Rattle.seam_node_steps.specs.Prelude.{cell_task, has_any};
ghost use Rattle.seam_cell_parts.specs.Kept.{here_in, cell_of, AreKept, AreWhole, IsRealInSpace};
ghost use Rattle.seam_cell_parts.specs.Stepping.{IsDone, parts_of, slot_in, core_of};
ghost use Rattle.seam_cell_cases.specs.Surveying.{IsMoot};

use crate::calls::may_settle;
use crate::tasks::Tasked;
use seam_cell_parts::{
    CellContext, Lists, Reals, Remotes, Subject, begin, is_at_rest, put_after, settle_real,
    take_out,
};
use seam_entity::{Msg, Real};
use seam_machine::Out;
use std::alloc::AllocError;

// Whether there is nothing to do for the entity: its real is not here, may not settle, or is at rest, as most are.
fn is_moot(known: &CellContext, reals: &Reals, e: u32) -> bool
    requires me { known.now.me < cell_count }
    requires legal { AreLegal known.now.settings }
    requires there { (r : RealView) → table.get reals.now.items.items e ≡ Some r →
        IsRealInSpace (here_in known.now) known.now.bounds.tree r }
    ensures moot { IsTrue result → IsMoot (here_in known.now) known.now.bounds.tree
        (table.get reals.now.items.items e) }
    ensures due { result ≡ false → true ≡ not (stray_survey (table.get reals.now.items.items e)) }
{
    match reals.items.get(e) {
        Some(parcel) => !may_settle(&parcel.real) || is_at_rest(known, &parcel.real),
        None => true,
    }
}

/// The real settles as it is.
pub fn settle_again(
    known: &CellContext,
    real: Real,
    remotes: &mut Remotes,
    out: &mut Out<Msg>,
) -> Tasked
    requires me { known.now.me < cell_count }
    requires legal { AreLegal known.now.settings }
    requires there { IsRealInSpace (here_in known.now) known.now.bounds.tree real.core }
    requires may { real_may_settle real.core ≡ true }
    ensures done { let h = here_in known.now in let r = real.core in let before =
        parts_of remotes.old out.old in
        OnOk result.result (IsDone (settled h known.now.bounds (slot_in before r.entity r) r false)
        r.entity r
        (option_map core_of result.left) before (parts_of remotes.new out.new)) }
    ensures witness { IfSome result.left (λ q. q.core.witness ≡ real.core.witness) }

    // If allocation fails, the real comes back and nothing has changed.
    ensures err { OnErr result.result (option_map core_of result.left ≡ Some real.core) }
    ensures err_parts { OnErr result.result (parts_of remotes.new out.new
        ≡ parts_of remotes.old out.old) }
{
    let state = real.state();
    let of = Subject {
        defs: &known.defs,
        ty: real.ty(),
        version: real.public_version(),
        pos: state.pos,
        props: &state.props,
    };
    let Ok(begun) = begin(known, &real, &of, false, remotes, out) else {
        return Tasked {
            left: Some(real),
            result: Err(AllocError),
        };
    };
    Tasked {
        left: settle_real(real, begun, remotes, out),
        result: Ok(()),
    }
}

/// Survey task: the first entity of the survey list is taken off it, and its real settles.
pub fn survey_task(
    known: &CellContext,
    reals: &mut Reals,
    remotes: &mut Remotes,
    lists: &mut Lists,
    out: &mut Out<Msg>,
) -> Result<(), AllocError>
    requires whole { AreWhole known.now reals.old remotes.old lists.old }
    requires some { has_any lists.old.survey ≡ true }
    ensures state { let c = cell_of known.now reals.old remotes.old lists.old in
        OnOk result (cell_of known.now reals.new remotes.new lists.new
        ≡ (cell_task c lists.old.survey).state) }
    ensures sent { let c = cell_of known.now reals.old remotes.old lists.old in
        OnOk result (out.new.items ≡ out.old.items ++ (cell_task c lists.old.survey).sent) }
    ensures err { OnErr result (cell_of known.now reals.new remotes.new lists.new
        ≡ cell_of known.now reals.old remotes.old lists.old) }
    ensures err_out { OnErr result (out.new.items ≡ out.old.items) }
    ensures marks { AreKept reals.new }
{
    let Some(e) = lists.survey.first() else {
        unreachable!()
    };
    if is_moot(known, reals, e) {
        let _ = lists.survey.take_first();
        return Ok(());
    }
    let real = take_out(reals, e)?;
    let Tasked { left, result } = settle_again(known, real, remotes, out);
    match result {
        Ok(()) => {
            let _ = lists.survey.take_first();
            put_after(reals, lists, e, left);
            return Ok(());
        }
        Err(error) => {
            put_after(reals, lists, e, left);
            return Err(error);
        }
    }
}
