//! The mode of a file.
ghost use Rattle.std.specs.Prelude.{◌≡◌, ℕ, ◌≤◌, ◌↔◌, IsSome, IfSome};

use std::marker::Model;

/// The greatest mode, with every bit.
pub const MAX_MODE: u16 = 0o7777;

/// The permission bits of an inode as `chmod` takes them, with set-user-id, set-group-id and sticky: at most `MAX_MODE`.
#[derive(Clone, Copy, PartialEq, Eq, PartialOrd, Ord, Hash, Debug)]
pub struct Mode(u16);

impl Model for Mode {
    ghost use Rattle.std.specs.Prelude.{ℕ, ◌≤◌};
    ghost use Rattle.capbits.specs.declared.mode.TheConstants.{MAX_MODE};

    ghost Value = { ℕ };

    ghost view = { λ mode. mode.0 };

    ghost invariant = { λ mode. mode.0 ≤ MAX_MODE };

    ghost inverse = { λ bits. record { 0 = bits } };
}

impl Mode {
    /// The mode with these bits, if they are at most `MAX_MODE`.
    pub fn new(bits: u16) -> Option<Self>
        ensures valid { IsSome result ↔ (bits ≤ MAX_MODE) }
        ensures value { IfSome result (λ mode. mode ≡ bits) }
    {
        if bits <= MAX_MODE {
            Some(Mode(bits))
        } else {
            None
        }
    }

    /// The bits, at most `MAX_MODE`.
    pub fn bits(self) -> u16
        ensures value { result ≡ self }
        ensures fits { result ≤ MAX_MODE }
    {
        self.0
    }
}
