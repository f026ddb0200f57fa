// The points of a legal round about clients.
ghost use Rattle.std.specs.Prelude.{◌≡◌, ◌↔◌, ◌+◌, ◌-◌, ◌<◌, ◌≤◌, ℕ, IsTrue, IfOk, length, map, filter, slice_index_or};
ghost use Rattle.std.specs.List.{All, range_with_len};
ghost use Rattle.std.specs.List.Sorted.{IsNonDecreasing};
ghost use Rattle.seam_rule_rounds.specs.Prelude.{is_shown, Lists, is_base, base_shown, base_versions, ShowsClient, HasShown};
ghost use Rattle.seam_judge_data.specs.Standings.{standing_of};
ghost use Rattle.seam_judge_rounds.specs.After.{after_round};
ghost use Rattle.seam_judge_rounds.specs.RoundClients.{client_as, AddsLines, ShowsLines};

use crate::calls::both;
use crate::case::{Case, is_shown, lines_to, texts_of, told_by};
use crate::shown::show_rightly;
use seam_call::{ClientText, Create, Line};
use seam_judge_data::{ClientLine, Copied, Standing, are_same};
use seam_judge_looks::base_texts;
use std::alloc::{AllocError, Global};

// Whether the lines are for an entity of this type.
fn have_type(lines: &[&ClientLine], ty: u16) -> bool
    ensures { IsTrue result ↔ All (λ l. l.now.ty ≡ ty) lines.now }
{
    for line in lines {
        if line.ty != ty {
            return false;
        }
    }
    true
}

// Whether a number is the one after so many, and then so many more.
fn is_numbered(number: u64, former: usize, earlier: usize) -> bool
    ensures { IsTrue result ↔ (number ≡ former + 1 + earlier) }
{
    (earlier as u64) < number && number - 1 - earlier as u64 == former as u64
}

// Whether the number at a place is the one after so many, and then as many more as stand before it.
fn is_counted(numbers: &[u64], i: usize, former: usize) -> bool
    requires { i < length numbers.now }
    ensures { IsTrue result ↔ (slice_index_or numbers.now i 0 ≡ former + 1 + i) }
{
    let number = numbers[i];
    is_numbered(number, former, i)
}

// Whether the numbers are those after so many.
fn are_counted(numbers: &[u64], former: usize) -> bool
    ensures { IsTrue result ↔ (numbers.now ≡ range_with_len (former + 1) (length numbers.now)) }
{
    for i in 0..numbers.len() {
        let counted = is_counted(numbers, i, former);
        if !counted {
            return false;
        }
    }
    true
}

// The numbers of lines.
fn numbers_of(alloc: Global, lines: &[&Line]) -> Result<Vec<u64>, AllocError>
    ensures { IfOk result (λ numbers. numbers.items ≡ map (λ l. l.number)
        (map (λ l. l.now) lines.now)) }
{
    let mut numbers = Vec::new(alloc);
    for line in lines {
        numbers.push(line.number)?;
    }
    Ok(numbers)
}

fn is_base(text: &ClientText) -> bool
    ensures { result ≡ is_base text.now }
{
    matches!(text, ClientText::Base(..))
}

// Copies of those texts that are about a base part.
pub(crate) fn base_among(alloc: Global, texts: &[ClientText]) -> Result<Vec<ClientText>, AllocError>
    ensures { IfOk result (λ bases. bases.items ≡ filter is_base texts.now) }
{
    let mut bases = Vec::new(alloc);
    for text in texts {
        if is_base(text) {
            bases.push(text.copied()?)?;
        }
    }
    Ok(bases)
}

// Whether lines show the client of an entity its base part at its versions.
fn show_base(
    alloc: Global,
    case: &Case<'_>,
    create: Create,
    lines: &[&Line],
) -> Result<bool, AllocError>
    ensures { IfOk result (λ r. IsTrue r ↔ (filter is_base
        (map (λ l. l.text) (map (λ l. l.now) lines.now))
        ≡ map (base_shown case.now.header.now (standing_of case.now.after.now) create)
        (base_versions case.now.header.now (standing_of case.now.before.now)
        (standing_of case.now.after.now) create))) }
{
    let texts = texts_of(alloc, lines)?;
    let bases = base_among(alloc, &texts)?;
    let expected = base_texts(alloc, case.header, case.before, case.after, create)?;
    Ok(are_same(&bases, &expected))
}

// Whether the lines of an entity's client are right.
fn shows_client(alloc: Global, case: &Case<'_>, create: Create) -> Result<bool, AllocError>
    ensures { IfOk result (λ r. IsTrue r ↔ ShowsClient case.now.header.now
        (standing_of case.now.before.now) case.now.round.now (standing_of case.now.after.now)
        create) }
{
    let lines = lines_to(alloc, case.round, create.entity)?;
    let told = told_by(alloc, &lines)?;
    let former = case.before.told_to(alloc, create.entity)?;
    let numbers = numbers_of(alloc, &told)?;
    let numbered = are_counted(&numbers, former.as_slice().len());
    let right = show_rightly(alloc, case, create, &told)?;
    let bases = show_base(alloc, case, create, &told)?;
    let typed = have_type(&lines, create.ty);
    Ok(both(both(typed, numbered), both(right, bases)))
}

// Whether those of each client are.
fn show_each(alloc: Global, case: &Case<'_>, clients: &[Create]) -> Result<bool, AllocError>
    ensures { IfOk result (λ r. IsTrue r ↔ All (ShowsClient case.now.header.now
        (standing_of case.now.before.now) case.now.round.now
        (standing_of case.now.after.now)) clients.now) }
{
    for create in clients {
        let right = shows_client(alloc, case, *create)?;
        if !right {
            return Ok(false);
        }
    }
    Ok(true)
}

// The entities whose clients are shown the lines.
fn entities_of(alloc: Global, lines: &[ClientLine]) -> Result<Vec<u32>, AllocError>
    ensures { IfOk result (λ entities. entities.items ≡ map (λ l. l.entity) lines.now) }
{
    let mut entities = Vec::new(alloc);
    for line in lines {
        entities.push(line.entity)?;
    }
    Ok(entities)
}

// Whether the number at a place is below the one before.
fn falls_at(numbers: &[u32], i: usize) -> bool
    requires some { 1 ≤ i }
    requires within { i < length numbers.now }
    ensures { IsTrue result ↔ (slice_index_or numbers.now i 0 < slice_index_or numbers.now (i - 1)
        0) }
{
    let former = numbers[i - 1];
    let number = numbers[i];
    number < former
}

// Whether none is below an earlier one.
fn do_rise(numbers: &[u32]) -> bool
    ensures { IsTrue result ↔ IsNonDecreasing numbers.now }
{
    for i in 1..numbers.len() {
        let falls = falls_at(numbers, i);
        if falls {
            return false;
        }
    }
    true
}

// Whether each line is for a client of the round.
fn are_of_clients(
    alloc: Global,
    standing: &Standing,
    lines: &[ClientLine],
) -> Result<bool, AllocError>
    ensures { IfOk result (λ r. IsTrue r ↔ All (λ l. IsTrue
        (is_shown (standing_of standing.now).book l.entity)) lines.now) }
{
    for line in lines {
        let shown = is_shown(alloc, standing, line.entity)?;
        if !shown {
            return Ok(false);
        }
    }
    Ok(true)
}

// Equal lines, in their order.
fn copies_of_lines(alloc: Global, lines: &[&Line]) -> Result<Vec<Line>, AllocError>
    ensures { IfOk result (λ copies. copies.items ≡ map (λ l. l.now) lines.now) }
{
    let mut copies = Vec::new(alloc);
    for line in lines {
        copies.push(line.copied()?)?;
    }
    Ok(copies)
}

// Whether a client was told, up to the round's end, what it was told before the round and in it.
fn is_told(alloc: Global, case: &Case<'_>, entity: u32) -> Result<bool, AllocError>
    ensures { IfOk result (λ r. IsTrue r ↔ AddsLines (standing_of case.now.before.now)
        case.now.round.now (standing_of case.now.after.now) entity) }
{
    let now = copies_of_lines(alloc, &case.after.told_to(alloc, entity)?)?;
    let mut expected = copies_of_lines(alloc, &case.before.told_to(alloc, entity)?)?;
    let lines = lines_to(alloc, case.round, entity)?;
    let mut further = copies_of_lines(alloc, &told_by(alloc, &lines)?)?;
    expected.append(&mut further)?;
    Ok(are_same(&now, &expected))
}

// Whether that is so of the client of each of these lines.
fn are_told(alloc: Global, case: &Case<'_>, lines: &[ClientLine]) -> Result<bool, AllocError>
    ensures { IfOk result (λ r. IsTrue r ↔ All (λ l. AddsLines (standing_of case.now.before.now)
        case.now.round.now (standing_of case.now.after.now) l.entity) lines.now) }
{
    for line in lines {
        let told = is_told(alloc, case, line.entity)?;
        if !told {
            return Ok(false);
        }
    }
    Ok(true)
}

// Whether it is so of every client: of one without a line it is.
fn is_each_told(alloc: Global, case: &Case<'_>) -> Result<bool, AllocError>
    ensures { IfOk result (λ r. IsTrue r ↔ ((e : ℕ) → AddsLines (standing_of case.now.before.now)
        case.now.round.now (standing_of case.now.after.now) e)) }
{
    let (before, after, round) = (case.before, case.after, case.round);
    let of_former = are_told(alloc, case, &before.told)?;
    let of_later = are_told(alloc, case, &after.told)?;
    let of_round = are_told(alloc, case, &round.shown)?;
    Ok(both(of_former, both(of_later, of_round)))
}

// Whether exactly the clients of the round are shown lines, in rising number of their entities, each rightly.
fn are_shown_rightly(alloc: Global, case: &Case<'_>, clients: &[Create]) -> Result<bool, AllocError>
    ensures { IfOk result (λ r. IsTrue r ↔ ShowsLines case.now.header.now
        (standing_of case.now.before.now) case.now.round.now (standing_of case.now.after.now)
        clients.now) }
{
    let round = case.round;
    let entities = entities_of(alloc, &round.shown)?;
    let rise = do_rise(&entities);
    let only = are_of_clients(alloc, case.before, &round.shown)?;
    let each = show_each(alloc, case, clients)?;
    Ok(both(both(rise, only), each))
}

/// Whether exactly the clients of the round are shown lines, in rising number of their entities, each rightly, and whether these are added
/// to what each was told. `clients` are those of the round.
pub fn has_shown(alloc: Global, case: &Case<'_>, clients: &[Create]) -> Result<bool, AllocError>
    requires { Lists (client_as (standing_of case.now.before.now).book) clients.now }
    ensures { IfOk result (λ r. IsTrue r ↔ HasShown case.now.header.now
        (standing_of case.now.before.now) case.now.round.now (standing_of case.now.after.now)) }
{
    let rightly = are_shown_rightly(alloc, case, clients)?;
    let told = is_each_told(alloc, case)?;
    Ok(both(rightly, told))
}

/// The same where the standing after the round is the one that its lines show: what each client was told is known then.
pub(crate) fn has_shown_lines(
    alloc: Global,
    case: &Case<'_>,
    clients: &[Create],
) -> Result<bool, AllocError>
    requires listed { Lists (client_as (standing_of case.now.before.now).book) clients.now }
    requires after { standing_of case.now.after.now ≡ after_round (standing_of case.now.before.now)
        case.now.round.now }
    ensures { IfOk result (λ r. IsTrue r ↔ HasShown case.now.header.now
        (standing_of case.now.before.now) case.now.round.now (standing_of case.now.after.now)) }
{
    are_shown_rightly(alloc, case, clients)
}
