// SPDX-License-Identifier: MIT

//! A call at a cell: the real that is here executes it in its turn and settles, and where the real left the call is passed on.
//!
//! Each function does to the parts of the cell (`seam_cell_parts`) what the definitions of steps say (`seam_node_steps`). They stand in a
//! crate of their own for its edits: a second real, and a call that is dropped.
#![tactic(auto)]

ghost use Rattle.std.specs.Prelude.{◌≡◌, ℕ, ◌++◌, true, OnOk, OnErr, IfErr};
ghost use Rattle.std.specs.FinMap as table;
ghost use Rattle.seam_node_steps.specs.Prelude.{From, cell_steps, call_next_place};
ghost use Rattle.seam_entity.specs.declared.message.Msg.TheVariants as msg;
ghost use Rattle.seam_cell_parts.specs.Kept.{cell_of, AreKept, AreWhole};
ghost use Rattle.seam_cell_cases.specs.Calling.{is_called, IsTurn};

use seam_call::Call;
use seam_cell_cases::{Turn, execute_turn};
use seam_cell_parts::{CellContext, Lists, Next, Reals, Remotes, put_after, take_out};
use seam_entity::Msg;
use seam_machine::Out;
use seam_table::{NoMemoryFor, Table};

/// Call, real here, whose turn it is: the real is taken out, executes the call and settles, and what that leaves here is put back.
pub fn execute_here(
    known: &CellContext,
    call: Call,
    reals: &mut Reals,
    remotes: &mut Remotes,
    lists: &mut Lists,
    out: &mut Out<Msg>,
) -> Result<(), NoMemoryFor<Call>>
    requires whole { AreWhole known.now reals.old remotes.old lists.old }
    requires may { is_called (cell_of known.now reals.old remotes.old lists.old) call ≡ true }
    requires turn { IsTurn (cell_of known.now reals.old remotes.old lists.old) call }
    ensures state { let c = cell_of known.now reals.old remotes.old lists.old in (from : ℕ) →
        OnOk result (cell_of known.now reals.new remotes.new lists.new
        ≡ (cell_steps c (From from (msg.Call call))).state) }
    ensures sent { let c = cell_of known.now reals.old remotes.old lists.old in (from : ℕ) →
        OnOk result (out.new.items ≡ out.old.items
        ++ (cell_steps c (From from (msg.Call call))).sent) }

    // If allocation fails, the call comes back and nothing has changed.
    ensures err { OnErr result (cell_of known.now reals.new remotes.new lists.new
        ≡ cell_of known.now reals.old remotes.old lists.old) }
    ensures err_out { OnErr result (out.new.items ≡ out.old.items) }
    ensures err_item { IfErr result (λ r. r.item ≡ call) }
    ensures marks { AreKept reals.new }
{
    let e = call.entity;
    let Ok(real) = take_out(reals, e) else {
        return Err(NoMemoryFor { item: call });
    };
    let turn = Turn { real, call };
    let called = execute_turn(known, turn, remotes, out);
    put_after(reals, lists, e, called.left);
    called.result
}

/// Call, next place: a call whose real is not here is sent as it is to the entity's next place, if there is one.
pub fn pass_on(nexts: &Table<Next>, call: Call, out: &mut Out<Msg>) -> Result<(), NoMemoryFor<Call>>
    ensures sent { let next = table.get nexts.now.items call.entity in
        OnOk result (out.new.items ≡ out.old.items ++ (call_next_place call next).sent) }

    // If allocation fails, the call comes back and nothing is sent.
    ensures err { OnErr result (out.new.items ≡ out.old.items) }
    ensures err_item { IfErr result (λ r. r.item ≡ call) }
{
    let Some(next) = nexts.get(call.entity) else {
        return Ok(());
    };
    let to = next.cell;
    if out.reserve(1).is_err() {
        return Err(NoMemoryFor { item: call });
    }
    out.send(to, Msg::Call(call));
    Ok(())
}
