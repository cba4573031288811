//! What a client's want counts for.
ghost use Rattle.std.specs.Prelude.{◌≡◌, if◌then◌else◌};
ghost use Rattle.capbits.specs.Sets.{meet, no_caps};
ghost use Rattle.sessiontab.specs.Tests.{is_open};

use capbits::CapSet;
use captable::EntryRow;
use sessiontab::Status;

/// What the entry's client effectively wants, in a session of this status, if there is one: of what it wants what it is permitted,
/// while the session is open.
pub fn wanted_while(status: Option<Status>, row: EntryRow, permitted: CapSet) -> CapSet
    ensures { result ≡ (if is_open status then meet row.entry.want permitted else no_caps) }
{
    match status {
        Some(status) if status.is_open() => row.entry.want.meet(permitted),
        _ => CapSet::empty(),
    }
}
