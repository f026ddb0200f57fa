// The lines of a round, by the standing that it leaves.
ghost use Rattle.std.specs.Prelude.{◌≡◌, ◌++◌, ◌∷◌, [], if◌then◌else◌, IfOk, OnOk, map, filter, length};
ghost use Rattle.std.specs.List.{flat_map, range_with_len};
ghost use Rattle.std.specs.FinSet as set;
ghost use Rattle.seam_rule_rounds.specs.Prelude.{cells_of, is_for, done_lines, public_at, home_line, base_line, ghost_lines};
ghost use Rattle.seam_defs.specs.declared.flags.Part.TheVariants as part;
ghost use Rattle.seam_judge_data.specs.Standings.{standing_of};

use crate::states::{public_at, state_at};
use seam_call::{Call, Create};
use seam_defs::Part;
use seam_judge_data::{BaseLine, Copied, DoneLine, GhostLine, HomeLine, Standing};
use seam_rule_lines::Header;
use seam_tree::{CellSet, Tree};
use std::alloc::{AllocError, Global};

/// The lines of those calls that are for a part of each of the entities, entity by entity.
pub fn done_lines_of(
    alloc: Global,
    part: Part,
    made: &[Create],
    calls: &[Call],
) -> Result<Vec<DoneLine>, AllocError>
    ensures { IfOk result (λ ls. ls.items ≡ done_lines (λ e. filter (is_for part e) calls.now)
        made.now) }
{
    let mut lines = Vec::new(alloc);
    for create in made {
        push_done_of(&mut lines, part, *create, calls)?;
    }
    Ok(lines)
}

// Adds the lines of those calls that are for a part of an entity.
fn push_done_of(
    lines: &mut Vec<DoneLine>,
    part: Part,
    create: Create,
    calls: &[Call],
) -> Result<(), AllocError>
    ensures { OnOk result (lines.new.items ≡ lines.old.items
        ++ map (λ x. record { ty = create.ty; call = x })
        (filter (is_for part create.entity) calls.now)) }
{
    for call in calls {
        if call.is_for(part, create.entity) {
            lines.push(DoneLine {
                ty: create.ty,
                call: call.copied()?,
            })?;
        }
    }
    Ok(())
}

/// The home line of an entity.
pub fn home_line_of(
    alloc: Global,
    header: &Header,
    after: &Standing,
    create: Create,
) -> Result<HomeLine, AllocError>
    ensures { IfOk result (λ l. l ≡ home_line header.now (standing_of after.now) create) }
{
    let order = after.order_of(alloc, Part::Cell, create.entity)?;
    let state = state_at(header, Part::Cell, create, &order, order.len())?;
    Ok(HomeLine {
        entity: create.entity,
        ty: create.ty,
        cell: after.place_of(create.entity).home,
        version: order.len() as u64,
        state,
    })
}

/// The home lines of the live entities.
pub fn homes_of(
    alloc: Global,
    header: &Header,
    after: &Standing,
    live: &[Create],
) -> Result<Vec<HomeLine>, AllocError>
    ensures { IfOk result (λ ls. ls.items ≡ map (home_line header.now (standing_of after.now))
        live.now) }
{
    let mut homes = Vec::new(alloc);
    for create in live {
        homes.push(home_line_of(alloc, header, after, *create)?)?;
    }
    Ok(homes)
}

/// The base line of an entity.
pub fn base_line_of(
    alloc: Global,
    header: &Header,
    after: &Standing,
    create: Create,
) -> Result<BaseLine, AllocError>
    ensures { IfOk result (λ l. l ≡ base_line header.now (standing_of after.now) create) }
{
    let order = after.order_of(alloc, Part::Base, create.entity)?;
    let state = state_at(header, Part::Base, create, &order, order.len())?;
    Ok(BaseLine {
        entity: create.entity,
        ty: create.ty,
        version: order.len() as u64,
        props: state.props,
    })
}

/// The base lines of the live entities.
pub fn bases_of(
    alloc: Global,
    header: &Header,
    after: &Standing,
    live: &[Create],
) -> Result<Vec<BaseLine>, AllocError>
    ensures { IfOk result (λ ls. ls.items ≡ map (base_line header.now (standing_of after.now))
        live.now) }
{
    let mut bases = Vec::new(alloc);
    for create in live {
        bases.push(base_line_of(alloc, header, after, *create)?)?;
    }
    Ok(bases)
}

/// The public version of an entity.
pub fn public_version(
    alloc: Global,
    header: &Header,
    after: &Standing,
    create: Create,
) -> Result<u64, AllocError>
    ensures { IfOk result (λ v. let order =
        (standing_of after.now).orders part.Cell create.entity in
        v ≡ public_at header.now create order (length order)) }
{
    let order = after.order_of(alloc, Part::Cell, create.entity)?;
    Ok(public_at(header, create, &order, order.len())? as u64)
}

// Adds a ghost line, if its cell is one of these.
fn add_ghost(
    ghosts: &mut Vec<GhostLine>,
    cells: &CellSet,
    line: GhostLine,
) -> Result<(), AllocError>
    ensures { OnOk result (ghosts.new.items ≡ ghosts.old.items
        ++ (if set.contains cells.now line.cell then line ∷ [] else [])) }
{
    if cells.holds(line.cell) {
        ghosts.push(line)?;
    }
    Ok(())
}

// Adds the ghost lines of an entity in a place, at a version.
fn push_ghosts(
    ghosts: &mut Vec<GhostLine>,
    tree: &Tree,
    cells: &CellSet,
    entity: u32,
    version: u64,
) -> Result<(), AllocError>
    ensures { OnOk result (ghosts.new.items ≡ ghosts.old.items
        ++ map (λ c. record { entity = entity; cell = c; version = version })
        (filter (λ c. set.contains cells.now c) (range_with_len 0 (cells_of tree.now)))) }
{
    for cell in 0..tree.cells() {
        add_ghost(
            ghosts,
            cells,
            GhostLine {
                entity,
                cell,
                version,
            },
        )?;
    }
    Ok(())
}

// Adds the ghost lines of an entity.
fn push_ghosts_of(
    ghosts: &mut Vec<GhostLine>,
    header: &Header,
    tree: &Tree,
    after: &Standing,
    create: Create,
) -> Result<(), AllocError>
    ensures { OnOk result (ghosts.new.items ≡ ghosts.old.items ++ ghost_lines header.now tree.now
        (standing_of after.now) create) }
{
    let version = public_version(*ghosts.allocator(), header, after, create)?;
    let place = after.place_of(create.entity);
    push_ghosts(ghosts, tree, &place.ghosts, create.entity, version)
}

/// The ghost lines of the live entities, by the cells of the tree.
pub fn ghosts_of(
    alloc: Global,
    header: &Header,
    tree: &Tree,
    after: &Standing,
    live: &[Create],
) -> Result<Vec<GhostLine>, AllocError>
    ensures { IfOk result (λ ls. ls.items ≡ flat_map (ghost_lines header.now tree.now
        (standing_of after.now)) live.now) }
{
    let mut ghosts = Vec::new(alloc);
    for create in live {
        push_ghosts_of(&mut ghosts, header, tree, after, *create)?;
    }
    Ok(ghosts)
}
