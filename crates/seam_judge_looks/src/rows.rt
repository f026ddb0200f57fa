// Live entities as looks see them.
ghost use Rattle.std.specs.Prelude.{◌≡◌, IfOk, length, map, option_copied};
ghost use Rattle.seam_defs.specs.declared.flags.Part.TheVariants as part;
ghost use Rattle.seam_rule_rounds.specs.Prelude.{own_of, flat, properties, other_at, public_at, row_after, rows_of, row_of, rows_but};
ghost use Rattle.seam_judge_data.specs.Standings.{standing_of};

use seam_call::{Call, Create, GhostCopy};
use seam_defs::{Group, Part, State};
use seam_judge_data::{Copied, Standing};
use seam_judge_expected::{public_version, state_at, state_shown};
use seam_rule_lines::Header;
use seam_table::Shared;
use std::alloc::{AllocError, Global};
use std::marker::Model;

/// A live entity in the flat table: its version and what its own client is shown at it, and what other clients are shown of it.
#[derive(Drop)]
pub struct Row {
    pub entity: u32,
    pub version: u64,
    pub own: Shared<State>,
    pub other: Shared<GhostCopy>,
}

impl Model for Row {
    ghost use Rattle.seam_rule_clients.specs.Looks as looks;

    ghost Value = { looks.Row };

    ghost view = { λ r. record { entity = r.entity; version = r.version; own = r.own; other = r.other } };
}

/// What the own client of an entity is shown at a version.
pub fn own_at(
    header: &Header,
    create: Create,
    order: &[&Call],
    version: usize,
) -> Result<State, AllocError>
    ensures { IfOk result (λ s. s ≡ own_of (properties header.now create)
        (flat header.now part.Cell create (map (λ c. c.now) order.now) version)) }
{
    let state = state_at(header, Part::Cell, create, order, version)?;
    state_shown(header.defs.type_at(create.ty), &state, Group::Own)
}

/// What other clients are shown of an entity at a public version.
pub fn other_at(
    header: &Header,
    create: Create,
    order: &[&Call],
    version: usize,
) -> Result<GhostCopy, AllocError>
    ensures { IfOk result (λ k. k ≡ other_at header.now create (map (λ c. c.now) order.now)
        version) }
{
    let state = state_at(header, Part::Cell, create, order, version)?;
    let shown = state_shown(header.defs.type_at(create.ty), &state, Group::Other)?;
    Ok(GhostCopy {
        ty: create.ty,
        version: version as u64,
        state: shown,
    })
}

// What other clients are shown of an entity now.
fn other_now(
    alloc: Global,
    header: &Header,
    after: &Standing,
    create: Create,
) -> Result<GhostCopy, AllocError>
    ensures { IfOk result (λ k. let order =
        (standing_of after.now).orders part.Cell create.entity in
        k ≡ other_at header.now create order (public_at header.now create order (length order))) }
{
    let order = after.order_of(alloc, Part::Cell, create.entity)?;
    let public = public_version(alloc, header, after, create)?;
    other_at(header, create, &order, public as usize)
}

/// The row of an entity.
pub fn row_after(
    alloc: Global,
    header: &Header,
    after: &Standing,
    create: Create,
) -> Result<Row, AllocError>
    ensures { IfOk result (λ r. r ≡ row_after header.now create
        ((standing_of after.now).orders part.Cell create.entity)) }
{
    let other = other_now(alloc, header, after, create)?;
    let order = after.order_of(alloc, Part::Cell, create.entity)?;
    let own = own_at(header, create, &order, order.len())?;
    Ok(Row {
        entity: create.entity,
        version: order.len() as u64,
        own: Shared::new(alloc, own)?,
        other: Shared::new(alloc, other)?,
    })
}

/// The flat table of the live entities.
pub fn rows_of(
    alloc: Global,
    header: &Header,
    after: &Standing,
    live: &[Create],
) -> Result<Vec<Row>, AllocError>
    ensures { IfOk result (λ rs. rs.items ≡ rows_of header.now (standing_of after.now).orders
        live.now) }
{
    let mut rows = Vec::new(alloc);
    for create in live {
        rows.push(row_after(alloc, header, after, *create)?)?;
    }
    Ok(rows)
}

impl Copied for Row {
    fn copied(&self) -> Result<Row, AllocError> {
        Ok(Row {
            entity: self.entity,
            version: self.version,
            own: self.own.copied()?,
            other: self.other.copied()?,
        })
    }
}

/// The row of an entity, where it is in a table.
pub fn row_of(rows: &[Row], entity: u32) -> Option<&Row>
    ensures { option_copied result ≡ row_of rows.now entity }
{
    rows.iter().find(|row| row.entity == entity)
}

/// Copies of the rows of all others.
pub fn rows_but(alloc: Global, entity: u32, rows: &[Row]) -> Result<Vec<Row>, AllocError>
    ensures { IfOk result (λ others. others.items ≡ rows_but entity rows.now) }
{
    let mut others = Vec::new(alloc);
    for row in rows {
        if row.entity != entity {
            others.push(row.copied()?)?;
        }
    }
    Ok(others)
}
