//! The numbers that the words of a text write: ASCII digits and nothing else, so no sign and no white space.
ghost use Rattle.std.specs.Prelude.{◌≡◌, ◌^◌, ◌<◌, ◌≤◌, length};
ghost use Rattle.std.specs.Option.{SomeIff};
ghost use Rattle.std.specs.Str.Parse.{IsNumeral, digits_value};

use crate::mode::Mode;

/// The number that one or more decimal digits write, if it fits 32 bits. Leading zeros are allowed.
pub fn read_u32(text: &[u8]) -> Option<u32>
    ensures { SomeIff result
        (IsNumeral 10 text.now × (digits_value 10 text.now < 2 ^ 32))
        (digits_value 10 text.now) }
{
    u32::try_from(read_u64(text)?).ok()
}

/// The number that one or more decimal digits write, if it fits 64 bits. Leading zeros are allowed.
pub fn read_u64(text: &[u8]) -> Option<u64>
    ensures { SomeIff result
        (IsNumeral 10 text.now × (digits_value 10 text.now < 2 ^ 64))
        (digits_value 10 text.now) }
{
    read_number(text, 10)
}

/// The mode that one to four octal digits write.
#[tactic(auto, using(crate::proofs::Digits::mode_fits))]
pub fn read_mode(text: &[u8]) -> Option<Mode>
    ensures { SomeIff result (IsNumeral 8 text.now × (length text.now ≤ 4)) (digits_value 8 text.now) }
{
    if text.len() > 4 {
        return None;
    }
    Mode::new(u16::try_from(read_number(text, 8)?).ok()?)
}

// The number that the digits of a radix write, if it fits 64 bits.
#[tactic(auto, using(crate::proofs::Digits::numbers))]
fn read_number(text: &[u8], radix: u32) -> Option<u64>
    requires low { 2 ≤ radix }
    requires high { radix ≤ 36 }
    ensures { SomeIff result
        (IsNumeral radix text.now × (digits_value radix text.now < 2 ^ 64))
        (digits_value radix text.now) }
{
    let mut number: u64 = 0;
    for byte in text {
        let digit = char::from(*byte).to_digit(radix)?;
        number = number
            .checked_mul(u64::from(radix))?
            .checked_add(u64::from(digit))?;
    }
    if text.is_empty() { None } else { Some(number) }
}
