//! The texts of small values: a mode, bytes, groups.
ghost use Rattle.std.specs.Prelude.{◌≡◌, ◌<◌, ◌++◌, false, OnOk};
ghost use Rattle.std.specs.Fmt.{digit_glyph};
ghost use Rattle.texts.specs.PartTexts.{byte_text, groups_text, hex_text, mode_text};

use capbits::{Groups, Mode, print_number, print_numbered, print_str};
use std::alloc::AllocError;

/// Appends the four octal digits.
pub fn print_mode(text: &mut Vec<u8>, mode: Mode) -> Result<(), AllocError>
    ensures { OnOk result (text.new.items ≡ text.old.items ++ mode_text mode) }
{
    let bits = mode.bits();
    print_number(text, u64::from(bits / 512))?;
    print_number(text, u64::from(bits / 64 % 8))?;
    print_number(text, u64::from(bits / 8 % 8))?;
    print_number(text, u64::from(bits % 8))
}

/// Appends two hexadecimal digits for each byte, or a dash for no bytes.
pub fn print_bytes(text: &mut Vec<u8>, bytes: &[u8]) -> Result<(), AllocError>
    ensures { OnOk result (text.new.items ≡ text.old.items ++ hex_text bytes.now) }
{
    if bytes.is_empty() {
        return print_str(text, "-");
    }
    let digits = hex::encode(*text.allocator(), bytes)?;
    print_str(text, digits.as_str())
}

// Two hexadecimal digits.
pub(crate) fn print_byte(text: &mut Vec<u8>, byte: u8) -> Result<(), AllocError>
    ensures { OnOk result (text.new.items ≡ text.old.items ++ byte_text byte) }
{
    text.extend_from_slice(&[digit(byte / 16), digit(byte % 16)])
}

// The hexadecimal digit of this value.
fn digit(value: u8) -> u8
    requires { value < 16 }
    ensures { result ≡ digit_glyph false value }
{
    if value < 10 {
        b'0' + value
    } else {
        b'a' + (value - 10)
    }
}

/// Appends the groups, joined by commas; a dash for none.
pub fn print_groups(text: &mut Vec<u8>, groups: &Groups) -> Result<(), AllocError>
    ensures { OnOk result (text.new.items ≡ text.old.items ++ groups_text groups.now) }
{
    let Some((first, more)) = groups.as_slice().split_first() else {
        return print_str(text, "-");
    };
    print_number(text, u64::from(*first))?;
    for gid in more {
        print_numbered(text, ",", u64::from(*gid))?;
    }
    Ok(())
}
