// The point of a legal round about looks.
ghost use Rattle.std.specs.Prelude.{◌≡◌, ◌↔◌, ◌||◌, ◌++◌, [], ℕ, IsTrue, IfOk, map};
ghost use Rattle.std.specs.List.{All};
ghost use Rattle.seam_call.specs.declared.shown.ClientText.TheVariants as text;
ghost use Rattle.seam_rule_rounds.specs.Prelude.{one_look, is_shown, Lists, rows_of, replica_of, texts_to, base_texts, HasLooked};
ghost use Rattle.seam_judge_data.specs.Standings.{standing_of};
ghost use Rattle.seam_judge_rounds.specs.RoundClients.{client_as};

use crate::calls::both;
use crate::case::{Case, lines_to, texts_of, told_by};
use crate::clients::base_among;
use seam_call::{ClientText, Create, Shown};
use seam_judge_data::{Copied, Standing, are_same};
use seam_judge_expected::has_tick;
use seam_judge_looks::{Replica, Row, rows_of};
use seam_rule_lines::Header;
use std::alloc::{AllocError, Global};

// One look of the client of an entity at the table.
fn look_of(
    alloc: Global,
    header: &Header,
    standing: &Standing,
    entity: u32,
    rows: &[Row],
) -> Result<Vec<Shown>, AllocError>
    ensures { IfOk result (λ xs. xs.items ≡ one_look (replica_of header.now
        (standing_of standing.now) entity) entity rows.now) }
{
    let told = standing.told_to(alloc, entity)?;
    let replica = Replica::after(alloc, &header.settings, &told)?;
    replica.one_look(alloc, entity, rows)
}

fn is_none(shown: &[Shown]) -> bool
    ensures { IsTrue result ↔ (shown.now ≡ []) }
{
    match shown {
        [] => true,
        _ => false,
    }
}

// Whether a look shows the client of an entity nothing.
fn shows_nothing(
    alloc: Global,
    header: &Header,
    standing: &Standing,
    entity: u32,
    rows: &[Row],
) -> Result<bool, AllocError>
    ensures { IfOk result (λ r. IsTrue r ↔ (one_look (replica_of header.now
        (standing_of standing.now) entity) entity rows.now ≡ [])) }
{
    let left = look_of(alloc, header, standing, entity, rows)?;
    Ok(is_none(&left))
}

// Whether it shows none of the clients anything.
fn show_nothing(
    alloc: Global,
    header: &Header,
    standing: &Standing,
    clients: &[Create],
    rows: &[Row],
) -> Result<bool, AllocError>
    ensures { IfOk result (λ r. IsTrue r ↔ All (λ c. one_look
        (replica_of header.now (standing_of standing.now) c.entity) c.entity rows.now ≡ [])
        clients.now) }
{
    for create in clients {
        let nothing = shows_nothing(alloc, header, standing, create.entity, rows)?;
        if !nothing {
            return Ok(false);
        }
    }
    Ok(true)
}

/// Whether after the round a look at the table of the live entities shows no client of it anything: *nothing_left* of *HasLooked*.
pub fn is_nothing_left(
    alloc: Global,
    case: &Case<'_>,
    clients: &[Create],
    live: &[Create],
) -> Result<bool, AllocError>
    requires { Lists (client_as (standing_of case.now.before.now).book) clients.now }
    ensures { IfOk result (λ r. IsTrue r ↔ ((e : ℕ) → IsTrue
        (is_shown (standing_of case.now.before.now).book e) →
        one_look (replica_of case.now.header.now (standing_of case.now.after.now) e) e
        (rows_of case.now.header.now (standing_of case.now.after.now).orders live.now)
        ≡ [])) }
{
    let rows = rows_of(alloc, case.header, case.after, live)?;
    show_nothing(alloc, case.header, case.after, clients, &rows)
}

// The texts of what is shown.
fn texts_shown(alloc: Global, shown: &[Shown]) -> Result<Vec<ClientText>, AllocError>
    ensures { IfOk result (λ texts. texts.items ≡ map text.Shown shown.now) }
{
    let mut texts = Vec::new(alloc);
    for x in shown {
        texts.push(ClientText::Shown(x.copied()?))?;
    }
    Ok(texts)
}

// Whether the client of an entity was shown its base lines, and then one look at the rows.
fn is_shown_one_look(
    alloc: Global,
    case: &Case<'_>,
    entity: u32,
    rows: &[Row],
) -> Result<bool, AllocError>
    ensures { IfOk result (λ r. IsTrue r ↔ (texts_to case.now.round.now entity
        ≡ base_texts case.now.round.now entity ++ map text.Shown
        (one_look (replica_of case.now.header.now (standing_of case.now.before.now) entity)
        entity rows.now))) }
{
    let lines = lines_to(alloc, case.round, entity)?;
    let told = told_by(alloc, &lines)?;
    let texts = texts_of(alloc, &told)?;
    let mut expected = base_among(alloc, &texts)?;
    let look = look_of(alloc, case.header, case.before, entity, rows)?;
    let mut further = texts_shown(alloc, &look)?;
    expected.append(&mut further)?;
    Ok(are_same(&texts, &expected))
}

// Whether each of the clients was.
fn are_shown_one_look(
    alloc: Global,
    case: &Case<'_>,
    clients: &[Create],
    rows: &[Row],
) -> Result<bool, AllocError>
    ensures { IfOk result (λ r. IsTrue r ↔ All (λ c. texts_to case.now.round.now c.entity
        ≡ base_texts case.now.round.now c.entity
        ++ map text.Shown (one_look (replica_of case.now.header.now
        (standing_of case.now.before.now) c.entity) c.entity rows.now)) clients.now) }
{
    for create in clients {
        let shown = is_shown_one_look(alloc, case, create.entity, rows)?;
        if !shown {
            return Ok(false);
        }
    }
    Ok(true)
}

// Whether each client of the round was shown its base lines, and then one look at what the round left: *one_each* of *HasLooked* without
// a tick.
fn is_one_look_each(
    alloc: Global,
    case: &Case<'_>,
    clients: &[Create],
    live: &[Create],
) -> Result<bool, AllocError>
    requires { Lists (client_as (standing_of case.now.before.now).book) clients.now }
    ensures { IfOk result (λ r. IsTrue r ↔ ((e : ℕ) → IsTrue
        (is_shown (standing_of case.now.before.now).book e) → texts_to case.now.round.now e
        ≡ base_texts case.now.round.now e ++ map text.Shown
        (one_look (replica_of case.now.header.now (standing_of case.now.before.now) e) e
        (rows_of case.now.header.now (standing_of case.now.after.now).orders
        live.now)))) }
{
    let rows = rows_of(alloc, case.header, case.after, live)?;
    are_shown_one_look(alloc, case, clients, &rows)
}

fn either(a: bool, b: bool) -> bool
    ensures { result ≡ a || b }
{
    a || b
}

/// Whether after the round a look shows no client of it anything, and whether without a tick each was shown its base lines and then one
/// look: *HasLooked*. `clients` are those of the round, and `live` its live entities.
pub fn has_looked(
    alloc: Global,
    case: &Case<'_>,
    clients: &[Create],
    live: &[Create],
) -> Result<bool, AllocError>
    requires { Lists (client_as (standing_of case.now.before.now).book) clients.now }
    ensures { IfOk result (λ r. IsTrue r ↔ HasLooked case.now.header.now
        (standing_of case.now.before.now) case.now.round.now (standing_of case.now.after.now)
        live.now) }
{
    let nothing = is_nothing_left(alloc, case, clients, live)?;
    let one = is_one_look_each(alloc, case, clients, live)?;
    let before = case.before;
    let ticked = has_tick(&before.current);
    Ok(both(nothing, either(ticked, one)))
}
