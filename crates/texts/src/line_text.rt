//! Texts that are made of pieces, one behind another.
ghost use Rattle.std.specs.Prelude.{◌≡◌, ◌++◌, OnOk};
ghost use Rattle.texts.specs.LineTexts.{all_texts, text_value};

use crate::mds_asked::MdsAccess;
use crate::part_text::{print_groups, print_mode};
use crate::quoting::{print_quoted, print_quoted_path};
use capbits::{CapSet, Groups, Mode, print, print_caps, print_number, print_str};
use std::alloc::AllocError;

/// A piece of a text.
#[derive(Clone, Copy)]
pub enum Text<'a> {
    /// A word.
    Word(&'a str),
    /// A number, in decimal digits.
    Number(u64),
    /// Bytes as they are.
    Bytes(&'a [u8]),
    /// Bytes, in quotes where they have to be.
    Quoted(&'a [u8]),
    /// Names from the root down, as a path, in quotes where it has to be.
    Path(&'a [&'a [u8]]),
    /// An access, or what an MDS is asked for, by its word.
    Access(MdsAccess),
    /// Caps, in their one spelling.
    Caps(CapSet),
    /// A mode, by its four octal digits.
    Mode(Mode),
    /// Groups, joined by commas.
    Groups(&'a Groups),
}

/// Appends these pieces. `AllocError` where no memory is left for them; some may stand in the text then.
pub fn print_texts(text: &mut Vec<u8>, pieces: &[Text<'_>]) -> Result<(), AllocError>
    ensures { OnOk result (text.new.items ≡ text.old.items ++ all_texts pieces.now) }
{
    for piece in pieces {
        print_text(text, piece)?;
    }
    Ok(())
}

fn print_text(text: &mut Vec<u8>, piece: &Text<'_>) -> Result<(), AllocError>
    ensures { OnOk result (text.new.items ≡ text.old.items ++ text_value piece.now) }
{
    match piece {
        Text::Word(word) => print_str(text, word),
        Text::Number(number) => print_number(text, *number),
        Text::Bytes(bytes) => text.extend_from_slice(bytes),
        Text::Quoted(bytes) => print_quoted(text, bytes),
        Text::Path(path) => print_quoted_path(text, path),
        Text::Access(access) => print(text, *access),
        Text::Caps(caps) => print_caps(text, *caps),
        Text::Mode(mode) => print_mode(text, *mode),
        Text::Groups(groups) => print_groups(text, groups),
    }
}
