//! Sixteen bits, with the names of those that are caps.
ghost use Rattle.std.specs.Prelude.{⊤};

use bitflags::{Flag, Flags, bitflag_items};

/// Any sixteen bits, those of no cap included: `Flags` must be able to keep every bit, so a `CapSet`,
/// which has known bits alone, holds one of these and is none itself.
#[derive(Clone, Copy, PartialEq, Eq, Debug)]
pub struct CapBits(pub u16);

bitflag_items! {
    impl CapBits: u16 {
        const P = 1;
        const AS = 4;
        const AX = 8;
        const LS = 16;
        const LX = 32;
        const XS = 64;
        const XX = 128;
        const FS = 256;
        const FX = 512;
        const FC = 1024;
        const FR = 2048;
        const FW = 4096;
        const FB = 8192;
        const FA = 16384;
        const FL = 32768;
    }
}

impl Flags for CapBits {
    type Bits = u16;

    ghost use Rattle.capbits.specs.Table.{cap_table};

    ghost exact = { ⊤ };

    ghost table = { cap_table };

    ghost set_of = { λ c. c.0 };

    fn flags<'a>() -> &'a [Flag<CapBits>] {
        CapBits::FLAGS
    }

    fn bits(&self) -> u16 {
        self.0
    }

    fn from_bits_retain(bits: u16) -> CapBits {
        CapBits(bits)
    }
}
