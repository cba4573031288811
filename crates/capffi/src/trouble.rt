//! Why a call has no answer, and the numbers by which C is told.
ghost use Rattle.std.specs.Prelude.{◌≡◌};
ghost use Rattle.capffi.specs.Trouble.{fault_of, kind_number, no_fault, status_of};

use crate::passed::Fault;
use capspec::{SpecFault, SpecFaultKind};

/// The call has its answer.
pub const OK: u32 = 0;
/// The grants have a fault, and `Fault` tells which.
pub const GRANTS: u32 = 1;
/// The name of the file system is none.
pub const FS: u32 = 2;
/// There are more than 16 groups.
pub const GROUPS: u32 = 3;
/// The path has more than 32 names, or a name of more than 255 bytes.
pub const PATH: u32 = 4;
/// The mode is greater than 07777.
pub const MODE: u32 = 5;
/// The number of an access is none.
pub const ACCESS: u32 = 6;
/// The number of a part is none.
pub const PART: u32 = 7;
/// The number of a state is none.
pub const STATE: u32 = 8;
/// The number of what stands first in a queue is none.
pub const HEAD: u32 = 9;
/// The bits of caps have one that is no cap's.
pub const CAPS: u32 = 10;
/// The room for a text is too short.
pub const ROOM: u32 = 11;
/// No memory was left.
pub const MEMORY: u32 = 12;
// 13 and 14 are what `c/src/baybowl.c` says of pointers and lengths.
/// A block is none of this version, or is cut off.
pub const BLOCK: u32 = 15;

/// Why a call has no answer.
#[derive(Clone, Copy)]
pub(crate) enum Trouble {
    /// The first fault of the grants.
    Grants(SpecFault),
    /// The name of the file system is none.
    Fs,
    /// There are more than 16 groups.
    Groups,
    /// The path has too many names, or one that is too long.
    Path,
    /// The mode is too great.
    Mode,
    /// The number of an access is none.
    Access,
    /// The number of a part is none.
    Part,
    /// The number of a state is none.
    State,
    /// The number of what stands first in a queue is none.
    Head,
    /// The bits of caps have one that is no cap's.
    Caps,
    /// No memory was left.
    Memory,
    /// A block is none of this version, or is cut off.
    Block,
}

impl Trouble {
    /// The status that tells of it.
    pub(crate) fn status(self) -> u32
        ensures { result ≡ status_of self }
    {
        match self {
            Trouble::Grants(_) => GRANTS,
            Trouble::Fs => FS,
            Trouble::Groups => GROUPS,
            Trouble::Path => PATH,
            Trouble::Mode => MODE,
            Trouble::Access => ACCESS,
            Trouble::Part => PART,
            Trouble::State => STATE,
            Trouble::Head => HEAD,
            Trouble::Caps => CAPS,
            Trouble::Memory => MEMORY,
            Trouble::Block => BLOCK,
        }
    }

    /// The fault of the grants, if it is one.
    pub(crate) fn fault(self) -> Fault
        ensures { result ≡ fault_of self }
    {
        match self {
            Trouble::Grants(fault) => Fault {
                at: fault.at as u64,
                kind: kind_number(fault.kind),
            },
            _ => no_fault(),
        }
    }
}

// The number of a kind of fault.
fn kind_number(kind: SpecFaultKind) -> u32
    ensures { result ≡ kind_number kind }
{
    kind as u32 + 1
}

/// No fault.
pub(crate) fn no_fault() -> Fault
    ensures { result ≡ no_fault }
{
    Fault { at: 0, kind: 0 }
}
