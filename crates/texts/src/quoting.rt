//! Bytes as they are shown where nothing else may be taken for them.
ghost use Rattle.std.specs.Prelude.{◌≡◌, ◌++◌, OnOk, map};
ghost use Rattle.std.specs.List.{flat_map, list_all};
ghost use Rattle.texts.specs.Explaining.{path_text};
ghost use Rattle.texts.specs.Quoting.{escaped, is_control, is_mark, is_plain, quoted};

use crate::explain_text::print_path;
use crate::part_text::print_byte;
use std::alloc::AllocError;

/// Appends bytes as they are, or in double quotes and with escapes, where one of them is a control byte, a space, a quote or a
/// backslash. `AllocError` where no memory is left for them; some may stand in the text then.
pub fn print_quoted(text: &mut Vec<u8>, bytes: &[u8]) -> Result<(), AllocError>
    ensures { OnOk result (text.new.items ≡ text.old.items ++ quoted bytes.now) }
{
    if are_plain(bytes) {
        return text.extend_from_slice(bytes);
    }
    text.push(b'"')?;
    print_escaped(text, bytes)?;
    Ok(text.push(b'"')?)
}

/// Appends the path that these names are from the root down, by `print_quoted`. `AllocError` where no memory is left for it; some of it may
/// stand in the text then.
pub fn print_quoted_path(text: &mut Vec<u8>, path: &[&[u8]]) -> Result<(), AllocError>
    ensures { OnOk result (text.new.items ≡ text.old.items ++ quoted (path_text (map (λ name. name.now) path.now))) }
{
    let mut names = Vec::new(*text.allocator());
    print_path(&mut names, path)?;
    print_quoted(text, names.as_slice())
}

// Whether the bytes can stand without quotes.
fn are_plain(bytes: &[u8]) -> bool
    ensures { result ≡ list_all is_plain bytes.now }
{
    bytes.iter().all(|byte| is_plain(*byte))
}

// Appends what stands between the quotes.
fn print_escaped(text: &mut Vec<u8>, bytes: &[u8]) -> Result<(), AllocError>
    ensures { OnOk result (text.new.items ≡ text.old.items ++ flat_map escaped bytes.now) }
{
    for byte in bytes {
        print_one(text, *byte)?;
    }
    Ok(())
}

fn print_one(text: &mut Vec<u8>, byte: u8) -> Result<(), AllocError>
    ensures { OnOk result (text.new.items ≡ text.old.items ++ escaped byte) }
{
    if is_control(byte) {
        text.extend_from_slice(b"\\x")?;
        return print_byte(text, byte);
    }
    if is_mark(byte) {
        text.push(b'\\')?;
    }
    Ok(text.push(byte)?)
}

fn is_control(byte: u8) -> bool
    ensures { result ≡ is_control byte }
{
    byte < 32 || byte == 127
}

fn is_mark(byte: u8) -> bool
    ensures { result ≡ is_mark byte }
{
    byte == b'"' || byte == b'\\'
}

// Whether the byte can stand without quotes.
fn is_plain(byte: u8) -> bool
    ensures { result ≡ is_plain byte }
{
    !(is_control(byte) || is_mark(byte) || byte == b' ')
}
