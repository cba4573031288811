//! The events of one entry, and of the messages to a client.
ghost use Rattle.std.specs.Prelude.{MatchResult, map};
ghost use Rattle.capexplain.specs.Events.{Tells, ack_by, caps_by, caps_event, open_by, poll_by};
ghost use Rattle.capexplain.specs.Faults.{IsRefused};

use crate::refused::Refused;
use crate::values::{
    read_cap_set, read_client, read_ino, read_long_number, read_number, read_open_mode,
};
use capstep::{Command, Event};
use texts::LineFault;

// A client, an inode and what it is opened for.
#[tactic(auto, using(crate::proofs::SaidLines::three))]
pub(crate) fn read_open(arguments: &[&[u8]]) -> Result<Event, Refused>
    ensures { let said = open_by (map (λ word. word.now) arguments.now) in
        MatchResult result (Tells said) (IsRefused said) }
{
    let [client, ino, mode] = arguments else {
        return Err(Refused::Wrong(LineFault::Count));
    };
    let client = read_client(client)?;
    let ino = read_ino(ino)?;
    let mode = read_open_mode(mode)?;
    Ok(Event::Open { client, ino, mode })
}

// A client, an inode and the number of a change.
#[tactic(auto, using(crate::proofs::SaidLines::three))]
pub(crate) fn read_ack(arguments: &[&[u8]]) -> Result<Event, Refused>
    ensures { let said = ack_by (map (λ word. word.now) arguments.now) in
        MatchResult result (Tells said) (IsRefused said) }
{
    let [client, ino, seq] = arguments else {
        return Err(Refused::Wrong(LineFault::Count));
    };
    let client = read_client(client)?;
    let ino = read_ino(ino)?;
    let seq = read_long_number(seq)?;
    Ok(Event::Ack { client, ino, seq })
}

// A client, and how many messages it takes at most.
pub(crate) fn read_poll(arguments: &[&[u8]]) -> Result<Event, Refused>
    ensures { let said = poll_by (map (λ word. word.now) arguments.now) in
        MatchResult result (Tells said) (IsRefused said) }
{
    let [client, max] = arguments else {
        return Err(Refused::Wrong(LineFault::Count));
    };
    let client = read_client(client)?;
    let max = read_number(max)?;
    Ok(Event::Poll { client, max })
}

// A client, an inode and a set of caps: what it wants, or gives back.
#[tactic(auto, using(crate::proofs::SaidLines::three))]
pub(crate) fn read_entry_caps(command: Command, arguments: &[&[u8]]) -> Result<Event, Refused>
    ensures { let said = caps_by (caps_event command) (map (λ word. word.now) arguments.now) in
        MatchResult result (Tells said) (IsRefused said) }
{
    let [client, ino, caps] = arguments else {
        return Err(Refused::Wrong(LineFault::Count));
    };
    let client = read_client(client)?;
    let ino = read_ino(ino)?;
    let caps = read_cap_set(caps)?;
    match command {
        Command::Want => Ok(Event::Want { client, ino, caps }),
        _ => Ok(Event::Release { client, ino, caps }),
    }
}
