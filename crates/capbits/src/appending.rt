//! What is appended to a text.
ghost use Rattle.std.specs.Prelude.{◌≡◌, ◌++◌, decimal, IfSome, OnOk};
ghost use Rattle.capbits.specs.Text.{text_of};

use crate::set::CapSet;
use crate::text::write_caps;
use itoa::Buffer;
use std::alloc::AllocError;
use std::fmt;
use std::fmt::{Display, Write};
use std::mem::replace;

/// Appends a word as it is. As a value that prints itself it would be asked for a width first. `AllocError` where no memory is left
/// for it.
pub fn print_str(text: &mut Vec<u8>, word: &str) -> Result<(), AllocError>
    ensures { OnOk result (text.new.items ≡ text.old.items ++ word.now) }
{
    text.extend_from_slice(word.as_bytes())
}

/// Appends the decimal digits of a number, without leading zeros. `AllocError` where no memory is left for them.
pub fn print_number(text: &mut Vec<u8>, number: u64) -> Result<(), AllocError>
    ensures { OnOk result (text.new.items ≡ text.old.items ++ decimal number) }
{
    let mut digits = Buffer::new();
    print_str(text, digits.format(number))
}

/// Appends a word and, right behind it, the decimal digits of a number. `AllocError` where no memory is left for them; the word may
/// stand in the text then.
pub fn print_numbered(text: &mut Vec<u8>, word: &str, number: u64) -> Result<(), AllocError>
    ensures { OnOk result (text.new.items ≡ text.old.items ++ word.now ++ decimal number) }
{
    print_str(text, word)?;
    print_number(text, number)
}

/// Appends what a value prints. Only memory can be missing: `AllocError` is told then, and some of it may stand in the text.
pub fn print<D: Display + Drop>(text: &mut Vec<u8>, more: D) -> Result<(), AllocError>
    ensures { OnOk result (IfSome (D.output more) (λ bytes. text.new.items ≡ text.old.items ++ bytes)) }
{
    let none = Vec::new(*text.allocator());
    let mut printed = Text {
        bytes: replace(text, none),
    };
    let done = printed.write(more);
    *text = printed.bytes;
    done.map_err(|_| AllocError)
}

// A text that values print themselves into, each piece by one copy. As `io::Write` a list of bytes takes each by a loop, for a writer
// may stop in the midst of a piece.
#[derive(Drop)]
struct Text {
    bytes: Vec<u8>,
}

impl Write for Text {
    ghost write_str_gives = { λ old piece new. new.bytes.items ≡ old.bytes.items ++ piece };

    fn write_str(&mut self, piece: &str) -> fmt::Result {
        match self.bytes.extend_from_slice(piece.as_bytes()) {
            Ok(()) => Ok(()),
            Err(_) => Err(fmt::Error),
        }
    }
}

/// Appends the one spelling of a set of caps. `AllocError` where no memory is left for it.
pub fn print_caps(text: &mut Vec<u8>, caps: CapSet) -> Result<(), AllocError>
    ensures { OnOk result (text.new.items ≡ text.old.items ++ text_of caps) }
{
    text.extend_from_slice(write_caps(caps).as_slice())?;
    Ok(())
}
