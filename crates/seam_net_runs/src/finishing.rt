// SPDX-License-Identifier: MIT

// The first events of a net, one after the other, on one thread.

ghost use Rattle.std.specs.Prelude.{◌≡◌, ◌⊎◌, length, IfOk};
ghost use Rattle.seam_machine.specs.Nets.{ArePeers, IsQuiet, LeadsTo};

use seam_machine::{Event, Machine, Net};
use std::alloc::{AllocError, Global};

/// Lets events happen until the net is quiet or `most` of them have happened, and gives them back in their order.
///
/// If allocation fails, nothing is given back.
pub fn begin<M: Machine>(
    alloc: Global,
    net: Net<M>,
    most: u32,
) -> Result<(Net<M>, Vec<Event>), AllocError>
    requires peers { ArePeers M.peer_count net }
    ensures run { IfOk result (λ r. LeadsTo M.has_work M.steps net r.1.items r.0) }
    ensures peers { IfOk result (λ r. ArePeers M.peer_count r.0) }
    ensures until { IfOk result (λ r. IsQuiet M.has_work r.0 ⊎ (length r.1.items ≡ most)) }
{
    let mut net = net;
    let mut events = Vec::new(alloc);
    for _turn in 0..most {
        let Some(event) = net.next_event() else {
            return Ok((net, events));
        };
        net.step(alloc, event)?;
        events.push(event)?;
    }
    Ok((net, events))
}
