//! The texts that values print, and the values that texts and numbers say.

use crate::asserting::{made, present};
use cap_text::read_caps;
use capbits::{Caller, CapSet, Groups, Ino, read_mode, read_u32, read_u64, write_caps};
use capgrant::Attr;
use capspec::{FsName, Grants, read_grants};
use std::alloc::Global;
use std::fmt::{Debug, Display};
use std::process::Abort;

/// What a value prints.
pub fn printed(rt: &impl Abort, alloc: Global, value: impl Display + Drop) -> String {
    made(rt, format!(in alloc; "{value}"), "a text")
}

/// What `Debug` shows in one line.
pub fn line_of(rt: &impl Abort, alloc: Global, shown: &impl Debug) -> String {
    made(rt, format!(in alloc; "{shown:?}"), "a line")
}

/// Bytes as text.
pub fn text_of(rt: &impl Abort, alloc: Global, bytes: &[u8]) -> String {
    made(rt, String::from_utf8_lossy(alloc, bytes), "a text")
}

/// What a line of a case asks, and what is wanted: what stands behind its ` => `, or `done`. An empty line and a remark, which begins with
/// `#`, ask nothing.
pub fn sides(line: &str) -> Option<(&str, &str)> {
    if line.is_empty() || line.starts_with('#') {
        return None;
    }
    Some(line.split_once(" => ").unwrap_or((line, "done")))
}

/// The word at a place of a line, from 0; an empty one behind the last.
pub fn word(line: &str, place: usize) -> &str {
    line.split(' ').nth(place).unwrap_or("")
}

/// The part at a place of a line, from 0, where ` | ` stands between parts; an empty one behind the last.
pub fn part(line: &str, place: usize) -> &str {
    line.split(" | ").nth(place).unwrap_or("")
}

/// The number that stands at a place of a line; 0 where none does.
pub fn number(line: &str, place: usize) -> u32 {
    read_u32(word(line, place).as_bytes()).unwrap_or(0)
}

/// The inode whose number stands there.
pub fn ino_of(line: &str, place: usize) -> Ino {
    Ino(read_u64(word(line, place).as_bytes()).unwrap_or(0))
}

/// The grants of a text.
pub fn grants_of(rt: &(impl Abort + AllocGlobal), text: &str) -> Grants {
    made(rt, read_grants(rt.alloc(), text.as_bytes()), text)
}

/// The set that a text names; no set for a text that names none.
pub fn caps(text: &str) -> CapSet {
    match read_caps(text.as_bytes()) {
        Ok(set) => set,
        Err(_fault) => CapSet::empty(),
    }
}

/// The text of a set.
pub fn caps_text(rt: &impl Abort, alloc: Global, set: CapSet) -> String {
    text_of(rt, alloc, write_caps(set).as_slice())
}

/// The file system of all tests.
pub fn cephfs(rt: &impl Abort) -> FsName {
    present(rt, FsName::read(b"cephfs"), "a name")
}

/// The owner, the group and the mode that a text says, as `7 50 0640`.
pub fn attr_of(rt: &impl Abort, text: &str) -> Attr {
    let (uid, gid) = (number(text, 0), number(text, 1));
    let mode = present(rt, read_mode(word(text, 2).as_bytes()), text);
    Attr { uid, gid, mode }
}

/// The caller of a text: the uid, the gid and further groups, as `9 50 60`.
pub fn caller_of(rt: &impl Abort, text: &str) -> Caller {
    let mut groups = Groups::new();
    for further in text.split(' ').skip(2) {
        made(rt, groups.try_push(number(further, 0)), further);
    }
    Caller {
        uid: number(text, 0),
        gid: number(text, 1),
        groups,
    }
}
