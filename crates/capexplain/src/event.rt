//! The events that lines say.
ghost use Rattle.std.specs.Prelude.{◌≡◌, List, map, MatchResult};
ghost use Rattle.capspec.specs.declared.grant.Grant.{Grant as AGrant};
ghost use Rattle.capstep.specs.declared.event.Event.{Event as AnEvent};
ghost use Rattle.capexplain.specs.Events.{Tells, granting, named_by, named_event, new_inode_by, new_inode_event, regrant_by, said_in, said_with, session_by};
ghost use Rattle.capexplain.specs.Faults.{IsRefused};
ghost use Rattle.capexplain.specs.Words.{arguments_in};

use crate::entry_event::{read_ack, read_entry_caps, read_open, read_poll};
use crate::inode_event::{read_get, read_inode, read_inode_change, read_rename};
use crate::line::MAX_LINE;
use crate::refused::Refused;
use crate::session_event::{read_of_client, read_recall};
use crate::values::{read_client, read_groups, read_ino, read_number, read_permissions};
use crate::words::{split_at_space, split_words};
use capbits::Caller;
use capspec::{Grants, read_grants};
use capstep::{Command, Event};
use lockmachine::Bytes;
use std::alloc::Global;
use texts::LineFault;

// The event that a line says, if it is not skipped.
pub(crate) fn read_event(alloc: Global, text: &[u8]) -> Result<Event, Refused>
    ensures { let said = said_in text.now in MatchResult result (Tells said) (IsRefused said) }
{
    let words = split_words(text);
    let Some((first, arguments)) = words.as_slice().split_first() else {
        return Err(Refused::Wrong(LineFault::Command));
    };
    let command = Command::by_word(first).ok_or(LineFault::Command)?;
    if text.len() > MAX_LINE {
        return Err(Refused::Wrong(LineFault::Count));
    }
    read_arguments(alloc, command, text, arguments)
}

// The event that a command says with the arguments of its line, of which the fifth is all that is left of it.
#[tactic(auto, unfolding(crate::specs::Events::said_with))]
fn read_arguments(
    alloc: Global,
    command: Command,
    text: &[u8],
    arguments: &[&[u8]],
) -> Result<Event, Refused>
    requires { map (λ word. word.now) arguments.now ≡ arguments_in text.now }
    ensures { let said = said_with command (map (λ word. word.now) arguments.now) in
        MatchResult result (Tells said) (IsRefused said) }
{
    match command {
        Command::Session => read_session(alloc, arguments),
        Command::OfClient(said) => read_of_client(said, arguments),
        Command::Regrant => read_regrant(alloc, text),
        Command::Recall => read_recall(arguments),
        Command::Lookup | Command::MakeSnapshot | Command::RemoveSnapshot => {
            read_named(alloc, command, arguments)
        }
        Command::Create | Command::Mkdir => read_new_inode(alloc, command, arguments),
        Command::Open => read_open(arguments),
        Command::Want | Command::Release => read_entry_caps(command, arguments),
        Command::Ack => read_ack(arguments),
        Command::Get => read_get(arguments),
        Command::Alter | Command::Flush => read_inode_change(alloc, command, arguments),
        Command::Unlink | Command::Rmdir => read_inode(command, arguments),
        Command::Rename => read_rename(alloc, arguments),
        Command::Poll => read_poll(arguments),
    }
}

#[tactic(auto, using(crate::proofs::SaidLines::five))]
fn read_session(alloc: Global, arguments: &[&[u8]]) -> Result<Event, Refused>
    ensures { let said = session_by (map (λ word. word.now) arguments.now) in
        MatchResult result (Tells said) (IsRefused said) }
{
    let [client, uid, gid, groups, grants] = arguments else {
        return Err(Refused::Wrong(LineFault::Count));
    };
    let client = read_client(client)?;
    let caller = Caller {
        uid: read_number(uid)?,
        gid: read_number(gid)?,
        groups: read_groups(groups)?,
    };
    let grants = read_all_grants(alloc, grants)?;
    Ok(Event::Session {
        client,
        caller,
        grants,
    })
}

// A client, and its new grants, which are all that is left of the line behind it.
fn read_regrant(alloc: Global, text: &[u8]) -> Result<Event, Refused>
    ensures { let said = regrant_by (arguments_in text.now) in
        MatchResult result (Tells said) (IsRefused said) }
{
    let Some((_command, behind)) = split_at_space(text) else {
        return Err(Refused::Wrong(LineFault::Count));
    };
    let Some((client, grants)) = split_at_space(behind) else {
        return Err(Refused::Wrong(LineFault::Count));
    };
    let client = read_client(client)?;
    let grants = read_all_grants(alloc, grants)?;
    Ok(Event::Regrant { client, grants })
}

// A client, an inode and a name: a lookup, or a snapshot that is made or removed.
#[tactic(auto, using(crate::proofs::SaidLines::three))]
fn read_named(alloc: Global, command: Command, arguments: &[&[u8]]) -> Result<Event, Refused>
    ensures { let said = named_by (named_event command) (map (λ word. word.now) arguments.now) in
        MatchResult result (Tells said) (IsRefused said) }
{
    let [client, ino, name] = arguments else {
        return Err(Refused::Wrong(LineFault::Count));
    };
    let client = read_client(client)?;
    let ino = read_ino(ino)?;
    let name = Bytes::read(alloc, name)?;
    match command {
        Command::Lookup => Ok(Event::Lookup {
            client,
            dir: ino,
            name,
        }),
        Command::MakeSnapshot => Ok(Event::MakeSnapshot { client, ino, name }),
        _ => Ok(Event::RemoveSnapshot { client, ino, name }),
    }
}

// A client, a directory, a name in it and a mode: a new file or directory.
#[tactic(auto, using(crate::proofs::SaidLines::four))]
fn read_new_inode(alloc: Global, command: Command, arguments: &[&[u8]]) -> Result<Event, Refused>
    ensures { let said = new_inode_by (new_inode_event command) (map (λ word. word.now) arguments.now) in
        MatchResult result (Tells said) (IsRefused said) }
{
    let [client, dir, name, mode] = arguments else {
        return Err(Refused::Wrong(LineFault::Count));
    };
    let client = read_client(client)?;
    let dir = read_ino(dir)?;
    let mode = read_permissions(mode)?;
    let name = Bytes::read(alloc, name)?;
    match command {
        Command::Create => Ok(Event::Create {
            client,
            dir,
            name,
            mode,
        }),
        _ => Ok(Event::Mkdir {
            client,
            dir,
            name,
            mode,
        }),
    }
}

// The grants that a text says, or none where it is `none`, whichever event they are said for.
fn read_all_grants(alloc: Global, text: &[u8]) -> Result<Grants, Refused>
    ensures { (event : List AGrant → AnEvent)
        → let said = granting event text.now in
        MatchResult result (λ grants. Tells said (event grants)) (IsRefused said) }
{
    if text == b"none".as_slice() {
        return Ok(Grants::none(alloc)?);
    }
    let mut grants = read_grants(alloc, text)?;
    // the event stays in the history, and the grants in the session
    grants.shrink_to_fit();
    Ok(grants)
}
