//! Grants in the one form that they are written in.
ghost use Rattle.std.specs.Prelude.{◌≡◌, ◌≤◌, length, take, drop, MatchResult};
ghost use Rattle.capffi.specs.Asking.{IsTextTrouble};
ghost use Rattle.capffi.specs.Texts.{IsFormOf, IsPut};

use crate::asking::read_text;
use crate::trouble::{OK, ROOM, Trouble};
use capspec::write_grants;
use std::alloc::{AllocError, Global};

/// The written form of the grants that a text means.
pub(crate) fn form(alloc: Global, text: &[u8]) -> Result<Vec<u8>, Trouble>
    ensures { MatchResult result (λ form. IsFormOf text.now form.items) (IsTextTrouble text.now) }
{
    let grants = read_text(alloc, text)?;
    match write_grants(alloc, &grants) {
        Ok(form) => Ok(form),
        Err(AllocError) => Err(Trouble::Memory),
    }
}

/// Puts a text at the front of a room, if it fits, and tells how long it is. The status is that of the call.
pub(crate) fn put(form: &[u8], room: &mut [u8], len: &mut u64) -> u32
    ensures { IsPut form.now room.old room.new len.new result }
{
    *len = form.len() as u64;
    if form.len() > room.len() {
        return ROOM;
    }
    put_front(form, room);
    OK
}

// Puts a text at the front of a room.
fn put_front(form: &[u8], room: &mut [u8])
    requires { length form.now ≤ length room.old }
    ensures front { take (length form.now) room.new ≡ form.now }
    ensures rest { drop (length form.now) room.new ≡ drop (length form.now) room.old }
{
    room[..form.len()].copy_from_slice(form);
}
