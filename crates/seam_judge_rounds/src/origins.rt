// Calls by whom they are for and from whom they are.
ghost use Rattle.std.specs.Prelude.{◌≡◌, ◌↔◌, IsTrue, IfOk, filter, map};
ghost use Rattle.seam_rule_rounds.specs.Prelude.{same_part};
ghost use Rattle.seam_judge_rounds.specs.Origins.{origin_of, AreGrouped};

use seam_call::{Call, Sender};
use seam_defs::Part;
use seam_judge_data::Same;
use std::alloc::{AllocError, Global};

/// Whom a call is for and from whom it is: its entity, and its sender by its kind and its number.
#[derive(Clone, Copy, Debug, PartialEq, Eq, PartialOrd, Ord)]
pub(crate) struct Origin {
    entity: u32,
    is_client: bool,
    number: u32,
}

fn origin_of(call: &Call) -> Origin
    ensures { result ≡ origin_of call.now }
{
    match call.sender {
        Sender::Base(node) => Origin {
            entity: call.entity,
            is_client: false,
            number: node.number() as u32,
        },
        Sender::Client(number) => Origin {
            entity: call.entity,
            is_client: true,
            number,
        },
    }
}

// Those of the calls that are for parts of this kind.
fn for_part(alloc: Global, part: Part, calls: &[Call]) -> Result<Vec<&Call>, AllocError>
    ensures { IfOk result (λ own. map (λ x. x.now) own.items
        ≡ filter (λ x. same_part x.part part) calls.now) }
{
    calls.iter().filter(|call| call.part == part).collect(alloc)
}

/// The calls for parts of this kind, sorted by their origins; of those of one origin the order stays.
pub(crate) fn grouped(alloc: Global, part: Part, calls: &[Call]) -> Result<Vec<&Call>, AllocError>
    ensures { IfOk result (λ groups. AreGrouped part calls.now (map (λ x. x.now) groups.items)) }
{
    let mut own = for_part(alloc, part, calls)?;
    own.sort_by_key(|call| origin_of(*call))?;
    Ok(own)
}

/// Whether two lists have the same calls in the same order.
pub(crate) fn are_same_calls(a: &[&Call], b: &[&Call]) -> bool
    ensures { IsTrue result ↔ (map (λ x. x.now) a.now ≡ map (λ x. x.now) b.now) }
{
    if a.len() != b.len() {
        return false;
    }
    for i in 0..a.len() {
        let same = a[i].is(b[i]);
        if !same {
            return false;
        }
    }
    true
}
