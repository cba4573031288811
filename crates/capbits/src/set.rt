//! A set of caps.
ghost use Rattle.std.specs.Prelude.{◌≡◌, ◌≢◌, ◌↔◌, [], ◌∷◌, IsTrue, IfSome, IfNone};
ghost use Rattle.capbits.specs.Caps.{Caps, bits_of, has, value_of};
ghost use Rattle.capbits.specs.Sets.{IsSubset, caps_in, is_empty, meet, minus, no_caps, of_part, union};

use crate::bits::CapBits;
use crate::cap::{Cap, Part};
use bitflags::Flags;
use std::marker::Model;

/// A set out of the fifteen caps.
#[derive(Clone, Copy, PartialEq, Eq, Debug)]
#[tactic(auto, using(crate::specs::SetNumbers::set_numbers))]
pub struct CapSet {
    bits: CapBits,
}

impl Model for CapSet {
    ghost use Rattle.capbits.specs.Caps.{Caps, IsCaps, bits_of, caps_of};
    ghost use Rattle.capbits.specs.SetNumbers.{bits_of-caps_of};

    ghost Value = { Caps };

    ghost view = { λ s. caps_of s.bits.0 };

    ghost invariant = { λ s. IsCaps s.bits.0 };

    ghost inverse = { λ c. record { bits = record { 0 = bits_of c } } };

    ghost inverse_ok = { λ s h i. record { bits = record { 0 = bits_of-caps_of s.bits.0 h i } } };
}

// The bit of one cap.
fn bit(cap: Cap) -> CapBits
    ensures { result.0 ≡ value_of cap }
{
    match cap {
        Cap::P => CapBits::P,
        Cap::As => CapBits::AS,
        Cap::Ax => CapBits::AX,
        Cap::Ls => CapBits::LS,
        Cap::Lx => CapBits::LX,
        Cap::Xs => CapBits::XS,
        Cap::Xx => CapBits::XX,
        Cap::Fs => CapBits::FS,
        Cap::Fx => CapBits::FX,
        Cap::Fc => CapBits::FC,
        Cap::Fr => CapBits::FR,
        Cap::Fw => CapBits::FW,
        Cap::Fb => CapBits::FB,
        Cap::Fa => CapBits::FA,
        Cap::Fl => CapBits::FL,
    }
}

impl CapSet {
    /// The set without any cap.
    #[tactic(auto, using(crate::proofs::SetBits::set_bits))]
    pub fn empty() -> Self
        ensures { result ≡ no_caps }
    {
        CapSet {
            bits: CapBits::empty(),
        }
    }

    // The set of one cap.
    #[tactic(auto, using(crate::proofs::SetBits::set_bits))]
    fn one(cap: Cap) -> Self
        ensures { result ≡ caps_in (cap ∷ []) }
    {
        CapSet { bits: bit(cap) }
    }

    /// The set of the caps of a list, in which one may stand more than once.
    #[tactic(auto, using(crate::proofs::SetBits::set_bits))]
    pub fn of(caps: &[Cap]) -> Self
        ensures { result ≡ caps_in caps.now }
    {
        let mut set = CapSet::empty();
        for cap in caps {
            set = set.union(CapSet::one(*cap));
        }
        set
    }

    /// Whether `cap` is in this set.
    pub fn has(self, cap: Cap) -> bool
        ensures { result ≡ has self cap }
    {
        self.contains(CapSet::one(cap))
    }

    /// Whether each cap of `other` is in this set.
    #[tactic(auto, using(crate::proofs::SetBits::set_bits))]
    pub fn contains(self, other: CapSet) -> bool
        ensures { IsTrue result ↔ IsSubset other self }
    {
        self.bits.contains(other.bits)
    }

    /// Whether no cap is in this set.
    #[tactic(auto, using(crate::proofs::SetBits::set_bits))]
    pub fn is_empty(self) -> bool
        ensures value { result ≡ is_empty self }
        ensures none { IsTrue result ↔ (self ≡ no_caps) }
    {
        self.bits.is_empty()
    }

    /// The caps of either set.
    #[tactic(auto, using(crate::proofs::SetBits::set_bits))]
    pub fn union(self, other: CapSet) -> CapSet
        ensures { result ≡ union self other }
    {
        CapSet {
            bits: self.bits.union(other.bits),
        }
    }

    /// The caps of both sets.
    #[tactic(auto, using(crate::proofs::SetBits::set_bits))]
    pub fn meet(self, other: CapSet) -> CapSet
        ensures { result ≡ meet self other }
    {
        CapSet {
            bits: self.bits.intersection(other.bits),
        }
    }

    /// The caps of this set that `other` lacks.
    #[tactic(auto, using(crate::proofs::SetBits::set_bits))]
    pub fn minus(self, other: CapSet) -> CapSet
        ensures { result ≡ minus self other }
    {
        CapSet {
            bits: self.bits.difference(other.bits),
        }
    }

    /// The caps of this set that cover `part`. The pin covers none.
    #[tactic(auto, using(crate::proofs::SetBits::set_bits))]
    pub fn part(self, part: Part) -> CapSet
        ensures { result ≡ of_part part self }
    {
        self.meet(CapSet::of(part.caps()))
    }

    /// The set with this number, which is the sum of its caps' bit values; none if a bit is no cap's.
    #[tactic(auto, using(crate::specs::SetNumbers::set_numbers))]
    pub fn from_bits(bits: u32) -> Option<CapSet>
        ensures some { IfSome result (λ s. bits_of s ≡ bits) }
        ensures none { IfNone result ((s : Caps) → bits_of s ≢ bits) }
    {
        let bits = CapBits::from_bits(u16::try_from(bits).ok()?)?;
        Some(CapSet { bits })
    }

    /// The number of the set: the sum of its caps' bit values.
    #[tactic(auto, using(crate::specs::SetNumbers::set_numbers))]
    pub fn bits(self) -> u32
        ensures { result ≡ bits_of self }
    {
        u32::from(self.bits.bits())
    }
}
