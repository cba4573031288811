//! Why a grant text was refused.

use std::fmt;
use thiserror::Error;

/// The test that a grant text failed first. It prints as its name.
#[derive(Clone, Copy, Debug, PartialEq, Eq, Error)]
pub enum SpecFaultKind {
    /// The text has nothing but white space.
    Empty,
    /// A grant does not begin with the word `allow`.
    NotAllow,
    /// The word behind `allow` is none of the flag words.
    BadFlags,
    /// A word is no item.
    BadItem,
    /// An item stands twice in one grant.
    Twice,
    /// A uid or a gid is no decimal number of 32 bits.
    BadNumber,
    /// A quoted path has no closing quote.
    OpenQuote,
    /// A grant lists gids and has no uid.
    GidsWithoutUid,
    /// The word means something that this profile leaves out by name: `network`, or the flag f.
    LeftOut,
    /// More than 16 grants, or more than 16 gids in one grant.
    TooMany,
    /// A path is empty, or has a byte, a name or a depth that no path of a grant may have.
    BadPath,
    /// The text has no fault, but no memory was left for its grants.
    NoMemory,
}

impl fmt::Display for SpecFaultKind {
    fn fmt<W: fmt::Write>(&self, f: &mut fmt::Formatter<W>) -> fmt::Result {
        fmt::Debug::fmt(self, f)
    }
}

/// A refused grant text: what is wrong with it, and the byte at which the refused word begins.
#[derive(Clone, Copy, Debug, PartialEq, Eq, Error)]
#[error("{kind} at {at}")]
pub struct SpecFault {
    /// How many bytes of the text stand before the fault.
    pub at: usize,
    /// What is wrong there.
    pub kind: SpecFaultKind,
}
