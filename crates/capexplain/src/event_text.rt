//! The texts of events: the lines that say them.
ghost use Rattle.std.specs.Prelude.{◌≡◌, ◌++◌, codes, IfOk, OnOk};
ghost use Rattle.std.specs.Fmt.{decimal};
ghost use Rattle.std.specs.List.{flat_map};
ghost use Rattle.capbits.specs.Text.{text_of};
ghost use Rattle.capexplain.specs.EventTexts.{arguments_text, change_text, event_text, grants_text, named_text, numbered_text, setting_text};
ghost use Rattle.texts.specs.PartTexts.{groups_text, mode_text};
ghost use Rattle.capstep.specs.Words.{open_word, part_word};

use capbits::{
    Caller, CapSet, ClientId, Ino, Mode, Part, print_caps, print_number, print_numbered, print_str,
};
use capspec::{Grants, write_grants};
use capstep::{ChangeWord, Command, Event, OpenMode};
use inotree::Setting;
use lockmachine::{Bytes, Change};
use std::alloc::{AllocError, Global};
use texts::{print_bytes, print_groups, print_mode};

/// The line of a script that says the event, without its line feed: grants in their written form or `none`, modes as four octal
/// digits, numbers without leading zeros. Only memory can be missing.
pub fn event_line(alloc: Global, event: &Event) -> Result<Vec<u8>, AllocError>
    ensures { IfOk result (λ text. text.items ≡ event_text event.now) }
{
    let mut text = Vec::new(alloc);
    print_event(&mut text, event)?;
    Ok(text)
}

// Appends the line.
pub(crate) fn print_event(text: &mut Vec<u8>, event: &Event) -> Result<(), AllocError>
    ensures { OnOk result (text.new.items ≡ text.old.items ++ event_text event.now) }
{
    print_str(text, Command::of(event).word())?;
    print_arguments(text, event)
}

// All behind the first word, each word behind a space.
fn print_arguments(text: &mut Vec<u8>, event: &Event) -> Result<(), AllocError>
    ensures { OnOk result (text.new.items ≡ text.old.items ++ arguments_text event.now) }
{
    match event {
        Event::Session {
            client,
            caller,
            grants,
        } => print_session(text, *client, caller, grants),
        Event::Regrant { client, grants } => print_regrant(text, *client, grants),
        Event::Recall { count } => print_numbered(text, " ", u64::from(*count)),
        Event::Lookup { client, dir, name } => print_named(text, *client, *dir, name),
        Event::MakeSnapshot { client, ino, name } | Event::RemoveSnapshot { client, ino, name } => {
            print_named(text, *client, *ino, name)
        }
        Event::Create {
            client,
            dir,
            name,
            mode,
        }
        | Event::Mkdir {
            client,
            dir,
            name,
            mode,
        } => print_new_inode(text, *client, *dir, name, *mode),
        Event::Open { client, ino, mode } => print_word(text, *client, *ino, open_word(*mode)),
        Event::Want { client, ino, caps } | Event::Release { client, ino, caps } => {
            print_wanted(text, *client, *ino, *caps)
        }
        Event::Ack { client, ino, seq } => {
            print_numbers(text, &[u64::from(client.0), ino.0, *seq])
        },
        Event::Get { client, ino, part } => print_word(text, *client, *ino, part_word(*part)),
        Event::Alter {
            client,
            ino,
            change,
        }
        | Event::Flush {
            client,
            ino,
            change,
        } => print_changed(text, *client, *ino, change),
        Event::Unlink { client, ino } | Event::Rmdir { client, ino } => {
            print_numbers(text, &[u64::from(client.0), ino.0])
        }
        Event::Rename {
            client,
            ino,
            dir,
            name,
        } => print_new_site(text, *client, *ino, *dir, name),
        Event::Poll { client, max } => {
            print_numbers(text, &[u64::from(client.0), u64::from(*max)])
        },
        Event::CloseSession { client }
        | Event::Mark { client, .. }
        | Event::Evict { client }
        | Event::Unblock { client } => print_numbered(text, " ", u64::from(client.0)),
    }
}

// ---- the numbers of a line

// Each number behind a space.
fn print_numbers(text: &mut Vec<u8>, numbers: &[u64]) -> Result<(), AllocError>
    ensures { OnOk result (text.new.items ≡ text.old.items ++ flat_map (λ n. codes " " ++ decimal n) numbers.now) }
{
    for number in numbers {
        print_numbered(text, " ", *number)?;
    }
    Ok(())
}

// ---- a session

// The client, its user and groups, and its grants.
fn print_session(
    text: &mut Vec<u8>,
    client: ClientId,
    caller: &Caller,
    grants: &Grants,
) -> Result<(), AllocError>
    ensures { OnOk result (text.new.items ≡ text.old.items
        ++ (codes " " ++ decimal client.0 ++ codes " " ++ decimal caller.now.uid ++ codes " " ++ decimal caller.now.gid ++ codes " "
        ++ groups_text caller.now.groups ++ codes " " ++ grants_text grants.now)) }
{
    let (uid, gid) = (u64::from(caller.uid), u64::from(caller.gid));
    print_numbers(text, &[u64::from(client.0), uid, gid])?;
    print_str(text, " ")?;
    print_groups(text, &caller.groups)?;
    print_str(text, " ")?;
    print_grants(text, grants)
}

// The client, and its new grants.
fn print_regrant(text: &mut Vec<u8>, client: ClientId, grants: &Grants) -> Result<(), AllocError>
    ensures { OnOk result (text.new.items ≡ text.old.items ++ (codes " " ++ decimal client.0 ++ codes " " ++ grants_text grants.now)) }
{
    print_numbered(text, " ", u64::from(client.0))?;
    print_str(text, " ")?;
    print_grants(text, grants)
}

// The grants in their written form; `none` for none.
fn print_grants(text: &mut Vec<u8>, grants: &Grants) -> Result<(), AllocError>
    ensures { OnOk result (text.new.items ≡ text.old.items ++ grants_text grants.now) }
{
    if grants.len() == 0 {
        return print_str(text, "none");
    }
    let written = write_grants(*text.allocator(), grants)?;
    text.extend_from_slice(written.as_slice())?;
    Ok(())
}

// ---- words, names and changes

// A client and an inode, with a space behind.
fn print_entry(text: &mut Vec<u8>, client: ClientId, ino: Ino) -> Result<(), AllocError>
    ensures { OnOk result (text.new.items ≡ text.old.items ++ (codes " " ++ decimal client.0 ++ codes " " ++ decimal ino.0 ++ codes " ")) }
{
    print_numbers(text, &[u64::from(client.0), ino.0])?;
    print_str(text, " ")
}

// A client, an inode and a word.
fn print_word(text: &mut Vec<u8>, client: ClientId, ino: Ino, word: &str) -> Result<(), AllocError>
    ensures { OnOk result (text.new.items ≡ text.old.items ++ named_text client ino word.now) }
{
    print_entry(text, client, ino)?;
    print_str(text, word)
}

// A client, an inode and caps.
fn print_wanted(
    text: &mut Vec<u8>,
    client: ClientId,
    ino: Ino,
    caps: CapSet,
) -> Result<(), AllocError>
    ensures { OnOk result (text.new.items ≡ text.old.items ++ named_text client ino (text_of caps)) }
{
    print_entry(text, client, ino)?;
    print_caps(text, caps)
}

// A client, an inode and a name.
fn print_named(
    text: &mut Vec<u8>,
    client: ClientId,
    ino: Ino,
    name: &Bytes,
) -> Result<(), AllocError>
    ensures { OnOk result (text.new.items ≡ text.old.items ++ named_text client ino name.now) }
{
    print_entry(text, client, ino)?;
    print_name(text, name)
}

// A client, a directory, a name in it and a mode.
fn print_new_inode(
    text: &mut Vec<u8>,
    client: ClientId,
    dir: Ino,
    name: &Bytes,
    mode: Mode,
) -> Result<(), AllocError>
    ensures { OnOk result (text.new.items ≡ text.old.items ++ (named_text client dir name.now ++ codes " " ++ mode_text mode)) }
{
    print_named(text, client, dir, name)?;
    print_str(text, " ")?;
    print_mode(text, mode)
}

// A client, an inode, a directory and a name in it.
fn print_new_site(
    text: &mut Vec<u8>,
    client: ClientId,
    ino: Ino,
    dir: Ino,
    name: &Bytes,
) -> Result<(), AllocError>
    ensures { OnOk result (text.new.items ≡ text.old.items
        ++ (codes " " ++ decimal client.0 ++ codes " " ++ decimal ino.0 ++ codes " " ++ decimal dir.0 ++ codes " " ++ name.now)) }
{
    print_numbers(text, &[u64::from(client.0), ino.0, dir.0])?;
    print_str(text, " ")?;
    print_name(text, name)
}

// A client, an inode and a change.
fn print_changed(
    text: &mut Vec<u8>,
    client: ClientId,
    ino: Ino,
    change: &Change,
) -> Result<(), AllocError>
    ensures { OnOk result (text.new.items ≡ text.old.items ++ named_text client ino (change_text change.now)) }
{
    print_entry(text, client, ino)?;
    print_change(text, change)
}

// A name, as it is.
fn print_name(text: &mut Vec<u8>, name: &Bytes) -> Result<(), AllocError>
    ensures { OnOk result (text.new.items ≡ text.old.items ++ name.now) }
{
    text.extend_from_slice(name.as_slice())?;
    Ok(())
}

// The word of the change, and what is behind it.
fn print_change(text: &mut Vec<u8>, change: &Change) -> Result<(), AllocError>
    ensures { OnOk result (text.new.items ≡ text.old.items ++ change_text change.now) }
{
    match change {
        Change::Set(setting) => print_setting(text, *setting),
        Change::SetXattr { name, value } => {
            let word = ChangeWord::SetXattr.word();
            print_word_before(text, word)?;
            print_name(text, name)?;
            print_str(text, " ")?;
            print_bytes(text, value.as_slice())
        }
        Change::RemoveXattr { name } => {
            let word = ChangeWord::RemoveXattr.word();
            print_word_before(text, word)?;
            print_name(text, name)
        }
    }
}

fn print_setting(text: &mut Vec<u8>, setting: Setting) -> Result<(), AllocError>
    ensures { OnOk result (text.new.items ≡ text.old.items ++ setting_text setting) }
{
    match setting {
        Setting::Mode(mode) => {
            let word = ChangeWord::Mode.word();
            print_word_before(text, word)?;
            print_mode(text, mode)
        }
        Setting::Uid(uid) => print_setting_number(text, ChangeWord::Uid, u64::from(uid)),
        Setting::Gid(gid) => print_setting_number(text, ChangeWord::Gid, u64::from(gid)),
        Setting::Size(size) => print_setting_number(text, ChangeWord::Size, size),
        Setting::Time(time) => print_setting_number(text, ChangeWord::Time, time),
    }
}

// The word of a change, and a number.
fn print_setting_number(text: &mut Vec<u8>, kind: ChangeWord, number: u64) -> Result<(), AllocError>
    ensures { OnOk result (text.new.items ≡ text.old.items ++ numbered_text kind number) }
{
    print_word_before(text, kind.word())?;
    print_number(text, number)
}

// A word, with a space behind.
fn print_word_before(text: &mut Vec<u8>, word: &str) -> Result<(), AllocError>
    ensures { OnOk result (text.new.items ≡ text.old.items ++ (word.now ++ codes " ")) }
{
    print_str(text, word)?;
    print_str(text, " ")
}

// ---- words

// What an inode is opened for.
fn open_word(mode: OpenMode) -> &'static str
    ensures { result.now ≡ open_word mode }
{
    match mode {
        OpenMode::Read => "r",
        OpenMode::Write => "w",
        OpenMode::ReadWrite => "rw",
    }
}

// A part of what an inode keeps.
fn part_word(part: Part) -> &'static str
    ensures { result.now ≡ part_word part }
{
    match part {
        Part::A => "A",
        Part::L => "L",
        Part::X => "X",
        Part::F => "F",
    }
}
