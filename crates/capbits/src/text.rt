//! The text of a set of caps, as "Capabilities in CephFS" in the Ceph documentation writes it: `pAsLsXsFscr`.
ghost use Rattle.std.specs.Prelude.{◌≡◌, ◌+◌, ◌≤◌, ◌++◌, ℕ, List, length};
ghost use Rattle.arrayvec.specs.ArrayVec.{array_vec_len};
ghost use Rattle.capbits.specs.Sets.{caps_of_part};
ghost use Rattle.capbits.specs.Text.{group_of, letters_in, text_of};

use crate::cap::{Cap, Part};
use crate::set::CapSet;
use arrayvec::ArrayVec;
use std::marker::Model;

/// Room for the text of any set of caps, in bytes.
pub const MAX_CAP_BYTES: usize = 32;

/// The text of a set of caps: ASCII bytes.
#[derive(Debug, PartialEq, Eq, Drop)]
pub struct CapBytes {
    bytes: ArrayVec<u8, MAX_CAP_BYTES>,
}

impl Model for CapBytes {
    ghost Value = { List ℕ };

    ghost view = { λ text. text.bytes.items };

    ghost inverse = { λ bytes. record { bytes = record { items = bytes } } };
}

impl CapBytes {
    /// The bytes of the text.
    pub fn as_slice(&self) -> &[u8]
        ensures { result.now ≡ self.now }
    {
        self.bytes.as_slice()
    }

    /// The vector of the bytes.
    pub fn into_inner(self) -> ArrayVec<u8, MAX_CAP_BYTES>
        ensures { result.items ≡ self }
    {
        let CapBytes { bytes } = self;
        bytes
    }
}

/// The one text of a set: `-` if it is empty; else `p` if the pin is in it, and then for each part with a cap in
/// it, in the order `A`, `L`, `X`, `F`, its capital and the letters of its caps in the order `s x c r w b a l`.
pub fn write_caps(set: CapSet) -> CapBytes
    ensures { result ≡ text_of set }
{
    CapBytes { bytes: spell(set) }
}

// The bytes of the text of a set.
fn spell(set: CapSet) -> ArrayVec<u8, MAX_CAP_BYTES>
    ensures { result.items ≡ text_of set }
{
    let mut out = ArrayVec::new();
    write_letters(&mut out, set, &[Cap::P]);
    write_part(&mut out, set, Part::A);
    write_part(&mut out, set, Part::L);
    write_part(&mut out, set, Part::X);
    write_part(&mut out, set, Part::F);
    if out.is_empty() {
        out.push(b'-');
    }
    out
}

// Writes a part's capital and letters, if the set has a cap of it.
#[tactic(auto, using(crate::proofs::Spelling::spelling), unfolding(crate::specs::Text::group_of))]
fn write_part(out: &mut ArrayVec<u8, MAX_CAP_BYTES>, set: CapSet, part: Part)
    requires { array_vec_len out.old + 9 ≤ MAX_CAP_BYTES }
    ensures text { out.new.items ≡ out.old.items ++ group_of set part }
    ensures fits { array_vec_len out.new ≤ array_vec_len out.old + 1 + length (caps_of_part part) }
{
    if set.part(part).is_empty() {
        return;
    }
    out.push(part.capital());
    write_letters(out, set, part.caps());
}

// Writes the letters of those of `caps` that are in the set.
#[tactic(auto, using(crate::proofs::Spelling::spelling))]
fn write_letters(out: &mut ArrayVec<u8, MAX_CAP_BYTES>, set: CapSet, caps: &[Cap])
    requires { array_vec_len out.old + length caps.now ≤ MAX_CAP_BYTES }
    ensures text { out.new.items ≡ out.old.items ++ letters_in set caps.now }
    ensures fits { array_vec_len out.new ≤ array_vec_len out.old + length caps.now }
{
    for cap in caps {
        if set.has(*cap) {
            out.push(cap.letter());
        }
    }
}
