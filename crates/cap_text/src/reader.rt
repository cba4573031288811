//! Reading the text of a set of caps, one byte after the other.
ghost use Rattle.std.specs.Prelude.{◌≡◌, ◌≢◌, ◌==◌, ◌∷◌, ◌++◌, [], List, IsFalse, IfOk, IfErr, IfSome, IfNone, slice_index};
ghost use Rattle.std.specs.List.{list_any};
ghost use Rattle.capbits.specs.declared.cap.Cap.{Cap};
ghost use Rattle.capbits.specs.declared.cap.Part.{Part};
ghost use Rattle.capbits.specs.Caps.{Caps};
ghost use Rattle.capbits.specs.Text.{capital_of, letter_of, text_of};
ghost use Rattle.cap_text.specs.Beginnings.{IsLongestBeginning};

use capbits::{Cap, CapSet, Part};
use thiserror::Error;

/// The answer where a text is the text of no set of caps.
#[derive(Clone, Copy, Debug, PartialEq, Eq, Error)]
#[error("no set of capabilities, wrong at {at}")]
pub struct CapText {
    /// How many first bytes of the text begin the text of some set: so many, and not one more.
    pub at: usize,
}

/// The set whose text this is, as `write_caps` writes it. A set has no other text, so letters in another order, a letter
/// twice, or a capital without a letter are refused.
pub fn read_caps(text: &[u8]) -> Result<CapSet, CapText>
    ensures ok { IfOk result (λ s. text.now ≡ text_of s) }
    ensures each_text { (s : Caps) → text.now ≡ text_of s → result ≡ Ok s }
    ensures err { IfErr result (λ fault. IsLongestBeginning text.now fault.at) }
{
    match text {
        [] => Err(CapText { at: 0 }),
        [b'-'] => Ok(CapSet::empty()),
        [b'-', ..] => Err(CapText { at: 1 }),
        _ => read_letters(text),
    }
}

// The set whose text this is. Between two bytes, the letters of `caps` and then the groups of `parts` may follow; a
// letter has to follow a capital.
fn read_letters(text: &[u8]) -> Result<CapSet, CapText>
    requires some { text.now ≢ [] }
    requires no_dash { slice_index text.now 0 ≢ 45 }
    ensures ok { IfOk result (λ s. text.now ≡ text_of s) }
    ensures each_text { (s : Caps) → text.now ≡ text_of s → result ≡ Ok s }
    ensures err { IfErr result (λ fault. IsLongestBeginning text.now fault.at) }
{
    let mut set = CapSet::empty();
    let mut caps: &[Cap] = &[Cap::P];
    let mut parts: &[Part] = &[Part::A, Part::L, Part::X, Part::F];
    let mut needs_letter = false;
    for (at, byte) in text.iter().enumerate() {
        if let Some((cap, later)) = find_letter(caps, *byte) {
            set = set.union(CapSet::of(&[cap]));
            caps = later;
            needs_letter = false;
        } else if needs_letter {
            return Err(CapText { at });
        } else if let Some((part, later)) = find_capital(parts, *byte) {
            caps = part.caps();
            parts = later;
            needs_letter = true;
        } else {
            return Err(CapText { at });
        }
    }
    if needs_letter {
        return Err(CapText { at: text.len() });
    }
    Ok(set)
}

// The first of these caps that has this letter, and those behind it.
fn find_letter(caps: &[Cap], byte: u8) -> Option<(Cap, &[Cap])>
    ensures letter { IfSome result (λ found. letter_of found.0 ≡ byte) }
    ensures split { IfSome result (λ found. (front : List Cap) × (caps.now ≡ front ++ found.0 ∷ found.1.now)) }
    ensures none { IfNone result (IsFalse (list_any (λ c. letter_of c == byte) caps.now)) }
{
    for (place, cap) in caps.iter().enumerate() {
        if cap.letter() == byte {
            return Some((*cap, &caps[place + 1..]));
        }
    }
    None
}

// The first of these parts that has this capital, and those behind it.
fn find_capital(parts: &[Part], byte: u8) -> Option<(Part, &[Part])>
    ensures capital { IfSome result (λ found. capital_of found.0 ≡ byte) }
    ensures split { IfSome result (λ found. (front : List Part) × (parts.now ≡ front ++ found.0 ∷ found.1.now)) }
    ensures none { IfNone result (IsFalse (list_any (λ part. capital_of part == byte) parts.now)) }
{
    for (place, part) in parts.iter().enumerate() {
        if part.capital() == byte {
            return Some((*part, &parts[place + 1..]));
        }
    }
    None
}
