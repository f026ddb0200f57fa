//! What the loads do to the reals of a cell.

ghost use Rattle.std.specs.Prelude.{◌≡◌, [], OnOk, OnErr, IfOk, None};
ghost use Rattle.std.specs.FinMap as table;
ghost use Rattle.seam_node_steps.specs.Prelude.{created, real_begins, each_value};
ghost use Rattle.seam_entity.specs.WitnessLooks.{with_witness};
ghost use Rattle.seam_cell_parts.specs.Kept.{here_in, AreKept};
ghost use Rattle.seam_cell_cases.specs.Beginning.{changed_at};

use seam_call::Create;
use seam_cell_parts::{
    CellContext, EntityQueue, EntityRow, RealTable, Reals, make_room, put_in, take_out,
};
use seam_entity::{Real, Witness};
use std::alloc::{AllocError, Global};

/// Makes the real of an entity that has none here.
pub fn make_real(
    alloc: Global,
    known: &CellContext,
    create: Create,
    reals: &mut Reals,
) -> Result<(), AllocError>
    requires gone { table.get reals.old.items.items create.entity ≡ None }
    requires kept { AreKept reals.old }
    ensures after { OnOk result (reals.new.items.items ≡ table.insert reals.old.items.items
        create.entity (created (here_in known.now) create.entity create.ty create.pos)) }
    ensures err { OnErr result (reals.new.items.items ≡ reals.old.items.items) }
    ensures kept { AreKept reals.new }
{
    let e = create.entity;
    let real = Real::create(alloc, &known.defs, e, create.ty, create.pos)?;
    make_room(reals, e, false)?;
    put_in(reals, e, real);
    Ok(())
}

/// Gives the entity's real, if it is here, a witness that has told nothing.
pub fn give_witness(
    alloc: Global,
    known: &CellContext,
    e: u32,
    reals: &mut Reals,
) -> Result<(), AllocError>
    requires { AreKept reals.old }
    ensures after { OnOk result (reals.new.items.items ≡ changed_at
        (with_witness (here_in known.now)) reals.old.items.items e) }
    ensures err { OnErr result (reals.new.items.items ≡ reals.old.items.items) }
    ensures kept { AreKept reals.new }
{
    if reals.items.get(e).is_none() {
        return Ok(());
    }
    let witness = Witness::new(alloc, known.defs.hash_key(), &known.settings)?;
    let mut real = take_out(reals, e)?;
    if let Err(error) = reals.witnesses.insert(e) {
        put_in(reals, e, real);
        return Err(error);
    }
    real.put_witness(witness);
    put_in(reals, e, real);
    Ok(())
}

// The entities of all reals, in a row that has none yet.
fn all_entities(
    alloc: Global,
    mut all: EntityRow,
    items: &RealTable,
) -> Result<EntityRow, AllocError>
    requires { all ≡ [] }
    ensures { IfOk result (λ s. s ≡ table.keys items.now.items) }
{
    let entities = items.entities(alloc)?;
    for e in &entities {
        all.push(*e)?;
    }
    Ok(all)
}

/// The queue in which the entities of all reals wait.
pub fn all_queued(alloc: Global, reals: &Reals) -> Result<EntityQueue, AllocError>
    ensures { IfOk result (λ q. q ≡ table.keys reals.now.items.items) }
{
    let mut none = EntityQueue::new(alloc);
    let all = all_entities(alloc, none.spare(), &reals.items)?;
    Ok(EntityQueue::of(all))
}

/// Begins a round, in which no real has done anything yet and all are to settle.
pub fn begin_round(
    alloc: Global,
    reals: &mut Reals,
    survey: &mut EntityQueue,
) -> Result<(), AllocError>
    requires { AreKept reals.old }
    ensures reals { OnOk result (reals.new.items.items ≡ each_value real_begins
        reals.old.items.items) }
    ensures survey { OnOk result (survey.new ≡ table.keys reals.old.items.items) }
    ensures kept { AreKept reals.new }
    ensures err { OnErr result (reals.new.items.items ≡ reals.old.items.items) }
    ensures err_survey { OnErr result (survey.new ≡ survey.old) }
{
    let all = all_entities(alloc, survey.spare(), &reals.items)?;
    reals.items.start_round();
    *survey = EntityQueue::of(all);
    Ok(())
}
