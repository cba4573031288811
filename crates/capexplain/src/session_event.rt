//! The events that are about a client alone, or about none.
ghost use Rattle.std.specs.Prelude.{MatchResult, map};
ghost use Rattle.capstep.specs.Words.{client_event};
ghost use Rattle.capexplain.specs.Events.{Tells, client_by, recall_by};
ghost use Rattle.capexplain.specs.Faults.{IsRefused};

use crate::refused::Refused;
use crate::values::{read_client, read_number};
use capstep::{ClientCommand, Event};
use texts::LineFault;

// How many entries are asked for.
pub(crate) fn read_recall(arguments: &[&[u8]]) -> Result<Event, Refused>
    ensures { let said = recall_by (map (λ word. word.now) arguments.now) in
        MatchResult result (Tells said) (IsRefused said) }
{
    let [count] = arguments else {
        return Err(Refused::Wrong(LineFault::Count));
    };
    let count = read_number(count)?;
    Ok(Event::Recall { count })
}

// A client alone, and what is said of it.
pub(crate) fn read_of_client(said: ClientCommand, arguments: &[&[u8]]) -> Result<Event, Refused>
    ensures { let line = client_by (client_event said) (map (λ word. word.now) arguments.now) in
        MatchResult result (Tells line) (IsRefused line) }
{
    let [client] = arguments else {
        return Err(Refused::Wrong(LineFault::Count));
    };
    let client = read_client(client)?;
    Ok(said.event(client))
}
