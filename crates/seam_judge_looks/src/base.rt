// What the client of an entity is shown of its base part.
ghost use Rattle.std.specs.Prelude.{◌≡◌, ◌&&◌, ◌++◌, ◌∷◌, [], if◌then◌else◌, IfOk, OnOk, map};
ghost use Rattle.seam_rule_rounds.specs.ClientLines.{shows_base, base_shown, base_versions};
ghost use Rattle.seam_judge_data.specs.Standings.{standing_of};

use seam_call::{ClientText, Create};
use seam_defs::{Group, Part};
use seam_judge_data::Standing;
use seam_judge_expected::{base_shown, changes_past, has_joined, state_at};
use seam_rule_lines::Header;
use std::alloc::{AllocError, Global};

/// Whether an entity's client is shown something of its base part.
pub fn shows_base(header: &Header, create: Create) -> Result<bool, AllocError>
    ensures { IfOk result (λ r. r ≡ shows_base header.now create) }
{
    let shown = header
        .defs
        .type_at(create.ty)
        .start_props(Group::BaseClient)?;
    Ok(0 < shown.len())
}

/// What a client is shown of the base part at a version.
pub fn base_text_at(
    alloc: Global,
    header: &Header,
    after: &Standing,
    create: Create,
    version: usize,
) -> Result<ClientText, AllocError>
    ensures { IfOk result (λ text. text ≡ base_shown header.now (standing_of after.now) create
        version) }
{
    let order = after.order_of(alloc, Part::Base, create.entity)?;
    let state = state_at(header, Part::Base, create, &order, version)?;
    let props = base_shown(header.defs.type_at(create.ty), &state)?;
    Ok(ClientText::Base(version as u64, props))
}

fn both(a: bool, b: bool) -> bool
    ensures { result ≡ a && b }
{
    a && b
}

// Adds a version, if it is shown.
fn add_version(versions: &mut Vec<usize>, version: usize, shown: bool) -> Result<(), AllocError>
    ensures { OnOk result (versions.new.items ≡ versions.old.items ++ (if shown then version ∷ []
        else [])) }
{
    if shown {
        versions.push(version)?;
    }
    Ok(())
}

/// The versions at which a client is shown the base part in a round.
pub fn base_versions(
    alloc: Global,
    header: &Header,
    before: &Standing,
    after: &Standing,
    create: Create,
) -> Result<Vec<usize>, AllocError>
    ensures { IfOk result (λ vs. vs.items ≡ base_versions header.now (standing_of before.now)
        (standing_of after.now) create) }
{
    let former = before.order_of(alloc, Part::Base, create.entity)?;
    let order = after.order_of(alloc, Part::Base, create.entity)?;
    let began = former.as_slice().len();
    let shows = shows_base(header, create)?;
    let joined = has_joined(&before.current, create.entity);
    let mut versions = Vec::new(alloc);
    add_version(&mut versions, began, both(joined, shows))?;
    let mut changes = changes_past(alloc, header, Part::Base, create, &order, began)?;
    versions.append(&mut changes)?;
    Ok(versions)
}

/// What a client is shown of the base part in a round.
pub fn base_texts(
    alloc: Global,
    header: &Header,
    before: &Standing,
    after: &Standing,
    create: Create,
) -> Result<Vec<ClientText>, AllocError>
    ensures { IfOk result (λ texts. texts.items ≡ map (base_shown header.now (standing_of after.now)
        create) (base_versions header.now (standing_of before.now) (standing_of after.now)
        create)) }
{
    let versions = base_versions(alloc, header, before, after, create)?;
    let mut texts = Vec::new(alloc);
    for version in &versions {
        texts.push(base_text_at(alloc, header, after, create, *version)?)?;
    }
    Ok(texts)
}
