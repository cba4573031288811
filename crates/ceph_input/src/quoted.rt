//! Values of lines.
ghost use Rattle.std.specs.Prelude.{◌≡◌, [], IfOk};
ghost use Rattle.std.specs.List.{list_all};
ghost use Rattle.ceph_input.specs.Keyring.{from_text, is_blank, quoted, text_of, unquoted};

use std::alloc::{AllocError, Global};

/// The line from its first byte on that is no blank.
pub fn skip_blanks(line: &[u8]) -> &[u8]
    ensures { result.now ≡ from_text line.now }
{
    let mut rest = line;
    while let [first, behind @ ..] = rest {
        if !is_blank(*first) {
            break;
        }
        rest = behind;
    }
    rest
}

/// Whether there are only blanks.
pub fn are_blank(bytes: &[u8]) -> bool
    ensures { result ≡ list_all is_blank bytes.now }
{
    bytes.iter().all(|byte| is_blank(*byte))
}

// A space, a tab or a carriage return.
fn is_blank(byte: u8) -> bool
    ensures { result ≡ is_blank byte }
{
    matches!(byte, b' ' | b'\t' | b'\r')
}

/// What stands between the double quotes, without the backslash before a quote; None where the value is not one text in quotes.
pub fn read_quoted(alloc: Global, value: &[u8]) -> Result<Option<Vec<u8>>, AllocError>
    ensures { IfOk result (λ text. text_of text ≡ quoted value.now) }
{
    match value {
        [b'"', text @ ..] => read_unquoted(alloc, text),
        _ => Ok(None),
    }
}

// What stands before the closing quote.
fn read_unquoted(alloc: Global, value: &[u8]) -> Result<Option<Vec<u8>>, AllocError>
    ensures { IfOk result (λ text. text_of text ≡ unquoted [] value.now) }
{
    let mut text = Vec::new(alloc);
    for place in 0..value.len() {
        let byte = value[place];
        if byte != b'"' {
            text.push(byte)?;
        } else if text.as_slice().ends_with(b"\\") {
            text.truncate(text.len() - 1);
            text.push(byte)?;
        } else if are_blank(&value[place + 1..]) {
            return Ok(Some(text));
        } else {
            return Ok(None);
        }
    }
    Ok(None)
}
