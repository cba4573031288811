//! Why a text is no array.

use std::alloc::AllocError;
use std::fmt;
use std::fmt::Display;

/// What an array has where a text has something else.
#[derive(Clone, Copy)]
pub enum Expected {
    /// The bracket that opens it.
    Opening,
    /// An item, or the bracket that closes it.
    Item,
    /// More of an item, or the comma or the bracket behind it.
    Separator,
    /// The comma or the bracket behind an item that has as many bytes as one may have.
    ShorterItem,
    /// Nothing more but white space.
    End,
}

impl Display for Expected {
    fn fmt<W: fmt::Write>(&self, f: &mut fmt::Formatter<W>) -> fmt::Result {
        f.write_str(match self {
            Expected::Opening => "[",
            Expected::Item => "an item or ]",
            Expected::Separator => "more of an item, a comma or ]",
            Expected::ShorterItem => "a comma or ], behind 16777216 bytes of an item",
            Expected::End => "the end",
        })
    }
}

/// Why a text is no array.
#[derive(Clone, Copy)]
pub enum RowFault {
    /// Something else stands there than an array has, or the text ends there.
    Unexpected {
        /// The number of the byte, from 0.
        byte: u64,
        /// What an array has there.
        expected: Expected,
    },
    /// No memory was left.
    NoMemory,
}

impl Display for RowFault {
    fn fmt<W: fmt::Write>(&self, f: &mut fmt::Formatter<W>) -> fmt::Result {
        match self {
            RowFault::Unexpected { byte, expected } => {
                write!(f, "NoArray at byte {byte}: expected {expected}")
            }
            RowFault::NoMemory => f.write_str("no memory"),
        }
    }
}

impl From<AllocError> for RowFault {
    ghost use Rattle.std.specs.Prelude.{◌≡◌};
    ghost use Rattle.ceph_input.specs.declared.array_fault.RowFault.TheVariants as faults;

    ghost from_gives = { λ _ fault. fault ≡ faults.NoMemory };

    fn from(_: AllocError) -> Self {
        RowFault::NoMemory
    }
}
