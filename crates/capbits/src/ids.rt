//! The numbers that name clients, inodes, queued requests and passes. Each prints as a decimal number.
ghost use Rattle.std.specs.Prelude.{Some};
ghost use Rattle.std.specs.Fmt.{decimal, styled_decimal};

use std::fmt;

/// The number by which the server knows a client.
#[derive(Clone, Copy, PartialEq, Eq, PartialOrd, Ord, Hash, Debug)]
pub struct ClientId(pub u32);

/// The number of an inode. The root is inode 1, and no number is given twice.
#[derive(Clone, Copy, PartialEq, Eq, PartialOrd, Ord, Hash, Debug)]
pub struct Ino(pub u64);

/// The number of a request that waits for a lock. A later request has a greater one.
#[derive(Clone, Copy, PartialEq, Eq, PartialOrd, Ord, Hash, Debug)]
pub struct Ticket(pub u64);

/// The number of a pass, which lets its holder call the server.
#[derive(Clone, Copy, PartialEq, Eq, PartialOrd, Ord, Hash, Debug)]
pub struct PassId(pub u32);

impl fmt::Display for ClientId {
    ghost output = { λ id. Some (decimal id.0) };

    ghost styled_output = { λ id style. Some (styled_decimal style id.0) };

    fn fmt<W: fmt::Write>(&self, f: &mut fmt::Formatter<W>) -> fmt::Result {
        fmt::Display::fmt(&self.0, f)
    }
}

impl fmt::Display for Ino {
    ghost output = { λ ino. Some (decimal ino.0) };

    ghost styled_output = { λ ino style. Some (styled_decimal style ino.0) };

    fn fmt<W: fmt::Write>(&self, f: &mut fmt::Formatter<W>) -> fmt::Result {
        fmt::Display::fmt(&self.0, f)
    }
}

impl fmt::Display for Ticket {
    ghost output = { λ ticket. Some (decimal ticket.0) };

    ghost styled_output = { λ ticket style. Some (styled_decimal style ticket.0) };

    fn fmt<W: fmt::Write>(&self, f: &mut fmt::Formatter<W>) -> fmt::Result {
        fmt::Display::fmt(&self.0, f)
    }
}

impl fmt::Display for PassId {
    ghost output = { λ pass. Some (decimal pass.0) };

    ghost styled_output = { λ pass style. Some (styled_decimal style pass.0) };

    fn fmt<W: fmt::Write>(&self, f: &mut fmt::Formatter<W>) -> fmt::Result {
        fmt::Display::fmt(&self.0, f)
    }
}
