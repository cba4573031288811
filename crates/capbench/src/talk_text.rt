//! Texts of a talk, and the bytes that they stand for.

use crate::talk_fault::TalkFault;
use std::alloc::Global;

/// Adds the bytes of a line and a line feed, which a backslash at its end takes away.
pub fn push_line(bytes: &mut Vec<u8>, text: &[u8]) -> Result<(), TalkFault> {
    match text.split_last() {
        Some((b'\\', front)) => push_bytes(bytes, front),
        _ => {
            push_bytes(bytes, text)?;
            bytes.push(b'\n')?;
            Ok(())
        }
    }
}

// Adds the bytes of a text. Behind a backslash stands a byte as an `x` and two digits.
fn push_bytes(bytes: &mut Vec<u8>, text: &[u8]) -> Result<(), TalkFault> {
    let mut rest = text;
    for _ in 0..text.len() {
        let (byte, behind) = match rest {
            [] => break,
            [b'\\', b'x', high, low, behind @ ..] => (digit(*high)? << 4 | digit(*low)?, behind),
            [b'\\', ..] => return Err(TalkFault::NotUnderstood),
            [byte, behind @ ..] => (*byte, behind),
        };
        bytes.push(byte)?;
        rest = behind;
    }
    Ok(())
}

// The value of a hexadecimal digit in lower case.
fn digit(byte: u8) -> Result<u8, TalkFault> {
    match byte {
        b'0'..=b'9' => Ok(byte - b'0'),
        b'a'..=b'f' => Ok(byte - b'a' + 10),
        _ => Err(TalkFault::NotUnderstood),
    }
}

/// The words of a command line. They are parted by spaces; one that begins with a quote goes on to the next.
pub fn read_words(alloc: Global, text: &[u8]) -> Result<Vec<Vec<u8>>, TalkFault> {
    let mut words = Vec::new(alloc);
    push_words(alloc, &mut words, text)?;
    Ok(words)
}

fn push_words(alloc: Global, words: &mut Vec<Vec<u8>>, text: &[u8]) -> Result<(), TalkFault> {
    let mut rest = text;
    for _ in 0..text.len() {
        if rest.is_empty() {
            break;
        }
        let (word, behind) = split_word(rest)?;
        words.push(read_word(alloc, word)?)?;
        rest = behind;
    }
    Ok(())
}

fn read_word(alloc: Global, word: &[u8]) -> Result<Vec<u8>, TalkFault> {
    let mut bytes = Vec::new(alloc);
    push_bytes(&mut bytes, word)?;
    Ok(bytes)
}

// The first word, and the words behind it.
fn split_word(text: &[u8]) -> Result<(&[u8], &[u8]), TalkFault> {
    match text {
        [b'\'', quoted @ ..] => match split_at(quoted, b'\'') {
            (word, []) => Ok((word, &[])),
            (word, [b' ', behind @ ..]) => Ok((word, behind)),
            _ => Err(TalkFault::NotUnderstood),
        },
        _ => Ok(split_at(text, b' ')),
    }
}

// What stands before the first such byte, and what behind it.
fn split_at(text: &[u8], mark: u8) -> (&[u8], &[u8]) {
    match text.iter().position(|byte| *byte == mark) {
        Some(end) => (&text[..end], &text[end + 1..]),
        None => (text, &[]),
    }
}
