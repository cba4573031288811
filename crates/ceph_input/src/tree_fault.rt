//! Why a text is no tree.

use crate::array_fault::RowFault;
use std::alloc::AllocError;
use std::fmt;
use std::fmt::Display;

/// Why a text is no tree.
#[derive(Clone, Copy)]
pub enum TreeFault {
    /// It is no list, or no memory was left for an item of it.
    Rows(RowFault),
    /// An item of the list is no JSON.
    NotJson {
        /// The number of the first such item, from 1.
        number: usize,
        /// The number of its first byte in the text, from 0.
        byte: u64,
        /// The line of the item at which the JSON reader stopped, from 1.
        line: usize,
        /// The byte of that line.
        column: usize,
    },
    /// An item lacks what each has, or has something else in its place.
    BadItem {
        /// The number of the first such item, from 1.
        number: usize,
        /// The number of its first byte in the text, from 0.
        byte: u64,
    },
    /// No memory was left.
    NoMemory,
}

impl Display for TreeFault {
    fn fmt<W: fmt::Write>(&self, f: &mut fmt::Formatter<W>) -> fmt::Result {
        match self {
            TreeFault::Rows(fault) => Display::fmt(fault, f),
            TreeFault::NotJson {
                number,
                byte,
                line,
                column,
            } => write!(
                f,
                "NotJson {number} at byte {byte}, in it at line {line} column {column}"
            ),
            TreeFault::BadItem { number, byte } => { write!(f, "BadItem {number} at byte {byte}") }
            TreeFault::NoMemory => f.write_str("no memory"),
        }
    }
}

impl From<RowFault> for TreeFault {
    ghost use Rattle.std.specs.Prelude.{◌≡◌};
    ghost use Rattle.ceph_input.specs.declared.tree_fault.TreeFault.TheVariants as faults;

    ghost from_gives = { λ found fault. fault ≡ faults.Rows found };

    fn from(found: RowFault) -> Self {
        TreeFault::Rows(found)
    }
}

impl From<AllocError> for TreeFault {
    ghost use Rattle.std.specs.Prelude.{◌≡◌};
    ghost use Rattle.ceph_input.specs.declared.tree_fault.TreeFault.TheVariants as faults;

    ghost from_gives = { λ _ fault. fault ≡ faults.NoMemory };

    fn from(_: AllocError) -> Self {
        TreeFault::NoMemory
    }
}
