//! Reading a line of a script.
ghost use Rattle.std.specs.Prelude.{◌≡◌, ◌↔◌, ◌⊎◌, None, Some, Ok, Err, IsTrue, IfOk, IfErr, IfSome};
ghost use Rattle.capstep.specs.Clients.{client_of};
ghost use Rattle.capstep.specs.declared.event.Event.{Event as AnEvent};
ghost use Rattle.texts.specs.declared.fault.LineFault.{LineFault as AKind};
ghost use Rattle.texts.specs.declared.fault.ScriptFault.TheVariants as stops;
ghost use Rattle.capexplain.specs.Events.{Reads};
ghost use Rattle.capexplain.specs.Faults.{HasFault, IsStop};
ghost use Rattle.texts.specs.ScriptLines.{is_skipped};

use crate::event::read_event;
use crate::refused::Refused;
use capbits::ClientId;
use capstep::Event;
use std::alloc::Global;
use texts::ScriptFault;

/// How many bytes a line may have, without its line feed. A line that is skipped may have more.
pub const MAX_LINE: usize = 65536;

/// Reads a line, which has no line feed, by its number in the script: the event that it says, with the client that it is about.
/// None for a line that is skipped: it is empty, or begins with `#`.
///
/// A line that says no event and is not skipped has one fault, which is told with the line's number. `NoMemory` comes last, and only for a line that
/// says an event.
pub fn read_line(
    alloc: Global,
    line: u64,
    text: &[u8],
) -> Result<Option<(Option<ClientId>, Event)>, ScriptFault>
    ensures skipped { (result ≡ Ok None) ↔ IsTrue (is_skipped text.now) }
    // What is read is what the line says, with the client that it is about.
    ensures event { IfOk result (λ read. IfSome read (λ said. Reads text.now said.1)) }
    ensures client { IfOk result (λ read. IfSome read (λ said. said.0 ≡ client_of said.1)) }
    // What the line says is read, unless memory runs out.
    ensures only { (event : AnEvent) → Reads text.now event
        → (result ≡ Err stops.NoMemory) ⊎ (result ≡ Ok (Some (client_of event, event))) }
    // Which fault it is.
    ensures err { IfErr result (IsStop line text.now) }
    // A fault of the line is told, whatever memory there is.
    ensures reported { (kind : AKind) → HasFault text.now kind
        → result ≡ Err (stops.LineFault line kind) }
{
    if is_skipped(text) {
        return Ok(None);
    }
    match read_event(alloc, text) {
        Ok(event) => Ok(Some((event.client(), event))),
        Err(Refused::Wrong(kind)) => Err(ScriptFault::LineFault { line, kind }),
        Err(Refused::NoMemory) => Err(ScriptFault::NoMemory),
    }
}

fn is_skipped(text: &[u8]) -> bool
    ensures { result ≡ is_skipped text.now }
{
    matches!(text, [] | [b'#', ..])
}
