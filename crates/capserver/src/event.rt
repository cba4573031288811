//! The event of a call.
ghost use Rattle.std.specs.Prelude.{◌≡◌, ◌+◌, ◌↔◌, Err, length, IfOk, OnOk, OnErr};
ghost use Rattle.capcore.specs.Promised.{IsPromised};
ghost use Rattle.capstep.specs.declared.stop.Stop.TheVariants as stop_kind;
ghost use Rattle.capserver.specs.Passes.{pass_id};

use crate::pass::Pass;
use capcore::Core;
use capstep::stop::Stop;
use capstep::{Event, Reply};
use snapshot::Server;
use std::sync::ledger::Book;

/// Makes an event, called by a pass, and counts the call in the pass and in the book. It promises what the core promises of an event,
/// by the pass's number.
pub fn make<L: Server>(
    core: &mut Core,
    calls: &mut Book<L>,
    pass: &mut Pass<L>,
    event: Event,
) -> Result<Reply, Stop>
    ensures promised { IfOk result (λ answer. IsPromised core.old (pass_id pass.old) event answer core.new) }
    ensures full { (result ≡ Err stop_kind.Full) ↔ (length core.old.rows ≡ core.old.max_rows) }
    // The call is counted where it was answered. Where it wasn't, nothing has changed.
    ensures calls { OnOk result (pass.new ≡ record pass.old { calls = pass.old.calls + 1 }) }
    ensures book { OnOk result (calls.new.total ≡ calls.old.total + 1) }
    ensures err { OnErr result ((core.new ≡ core.old) × (pass.new ≡ pass.old) × (calls.new.total ≡ calls.old.total)) }
{
    let reply = core.apply(pass.number(), event)?;
    pass.count(calls);
    Ok(reply)
}
