//! Why an OSD caps text was refused.

use std::alloc::AllocFailed;
use std::fmt;
use thiserror::Error;

/// What is wrong with an OSD caps text. It prints as the name of its variant.
#[derive(Clone, Copy, Debug, Error)]
pub enum OsdFaultKind {
    /// A grant has to stand here, and neither `allow` nor `profile` does.
    NotGrant,
    /// What the grant allows has to stand here: `*`, `all`, some of the letters r, w and x, or calls of object classes.
    NoAccess,
    /// The name of a profile has to stand here.
    NoProfile,
    /// Behind a grant stands something that belongs to none.
    LeftOver,
    /// No memory was left for the grants.
    NoMemory,
}

impl fmt::Display for OsdFaultKind {
    fn fmt<W: fmt::Write>(&self, f: &mut fmt::Formatter<W>) -> fmt::Result {
        fmt::Debug::fmt(self, f)
    }
}

/// A refused OSD caps text: what is wrong with it, and at which byte.
#[derive(Clone, Copy, Debug, Error)]
#[error("{kind} at {at}")]
pub struct OsdFault {
    /// How many bytes of the text stand before the fault. It is 0 where memory was missed.
    pub at: usize,
    /// What is wrong there.
    pub kind: OsdFaultKind,
}

impl<T: Drop> From<AllocFailed<T>> for OsdFault {
    ghost use Rattle.std.specs.Prelude.{◌≡◌};
    ghost use Rattle.osd_caps.specs.Caps.{no_memory};

    ghost from_gives = { λ _ fault. fault ≡ no_memory };

    fn from(_: AllocFailed<T>) -> Self {
        OsdFault {
            at: 0,
            kind: OsdFaultKind::NoMemory,
        }
    }
}

/// A fault, and how many bytes are left of the text from its place on.
#[derive(Clone, Copy)]
pub(crate) struct Refusal {
    pub left: usize,
    pub kind: OsdFaultKind,
}

impl Refusal {
    ghost use Rattle.std.specs.Prelude.{◌≡◌, ◌≤◌, length};
    ghost use Rattle.osd_caps.specs.Caps.{fault_in, refused};

    /// The fault at the front of what is left of a text.
    pub fn at(left: &[u8], kind: OsdFaultKind) -> Refusal
        ensures { result ≡ refused kind left.now }
    {
        Refusal {
            left: left.len(),
            kind,
        }
    }

    /// The same fault, by its place in the whole text.
    pub fn in_text(self, text: &[u8]) -> OsdFault
        requires { self.left ≤ length text.now }
        ensures { result ≡ fault_in text.now self }
    {
        OsdFault {
            at: text.len() - self.left,
            kind: self.kind,
        }
    }
}
