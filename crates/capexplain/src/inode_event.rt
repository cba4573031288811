//! The events that ask what an inode keeps, change it, or take it to another place.
ghost use Rattle.std.specs.Prelude.{MatchResult, map};
ghost use Rattle.capexplain.specs.Events.{Tells, change_by, change_event, get_by, inode_by, inode_event, rename_by};
ghost use Rattle.capexplain.specs.Faults.{IsRefused};

use crate::change::{is_counted, read_change};
use crate::refused::Refused;
use crate::values::{read_client, read_ino, read_part};
use capstep::{Command, Event};
use lockmachine::Bytes;
use std::alloc::Global;
use texts::LineFault;

// A client, an inode and the part that it asks for.
#[tactic(auto, using(crate::proofs::SaidLines::three))]
pub(crate) fn read_get(arguments: &[&[u8]]) -> Result<Event, Refused>
    ensures { let said = get_by (map (λ word. word.now) arguments.now) in
        MatchResult result (Tells said) (IsRefused said) }
{
    let [client, ino, part] = arguments else {
        return Err(Refused::Wrong(LineFault::Count));
    };
    let client = read_client(client)?;
    let ino = read_ino(ino)?;
    let part = read_part(part)?;
    Ok(Event::Get { client, ino, part })
}

// A client, an inode, the directory that it is to stand in, and its name there.
#[tactic(auto, using(crate::proofs::SaidLines::four))]
pub(crate) fn read_rename(alloc: Global, arguments: &[&[u8]]) -> Result<Event, Refused>
    ensures { let said = rename_by (map (λ word. word.now) arguments.now) in
        MatchResult result (Tells said) (IsRefused said) }
{
    let [client, ino, dir, name] = arguments else {
        return Err(Refused::Wrong(LineFault::Count));
    };
    let client = read_client(client)?;
    let ino = read_ino(ino)?;
    let dir = read_ino(dir)?;
    let name = Bytes::read(alloc, name)?;
    Ok(Event::Rename {
        client,
        ino,
        dir,
        name,
    })
}

// A client and an inode: a file or a directory that goes.
pub(crate) fn read_inode(command: Command, arguments: &[&[u8]]) -> Result<Event, Refused>
    ensures { let said = inode_by (inode_event command) (map (λ word. word.now) arguments.now) in
        MatchResult result (Tells said) (IsRefused said) }
{
    let [client, ino] = arguments else {
        return Err(Refused::Wrong(LineFault::Count));
    };
    let client = read_client(client)?;
    let ino = read_ino(ino)?;
    match command {
        Command::Unlink => Ok(Event::Unlink { client, ino }),
        _ => Ok(Event::Rmdir { client, ino }),
    }
}

// A client, an inode and a change, which is asked for or was made. How many words there are is told before what they are.
pub(crate) fn read_inode_change(
    alloc: Global,
    command: Command,
    arguments: &[&[u8]],
) -> Result<Event, Refused>
    ensures { let said = change_by (change_event command) (map (λ word. word.now) arguments.now) in
        MatchResult result (Tells said) (IsRefused said) }
{
    let [client, ino, words @ ..] = arguments else {
        return Err(Refused::Wrong(LineFault::Count));
    };
    if !is_counted(words) {
        return Err(Refused::Wrong(LineFault::Count));
    }
    let client = read_client(client)?;
    let ino = read_ino(ino)?;
    let change = read_change(alloc, words)?;
    match command {
        Command::Alter => Ok(Event::Alter {
            client,
            ino,
            change,
        }),
        _ => Ok(Event::Flush {
            client,
            ino,
            change,
        }),
    }
}
