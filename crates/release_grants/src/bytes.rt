//! What the front of a text has of a set of bytes.
ghost use Rattle.std.specs.Prelude.{◌≡◌, option_map, option_copied};
ghost use Rattle.byte_sets.specs.Sets.{begins, is_in};
ghost use Rattle.capspec.specs.Words.{front_while, rest_while};
ghost use Rattle.release_grants.specs.Texts.{behind, behind_white, behind_word, number_at, some_while};

use byte_sets::ByteSet;
use capbits::read_u32;

/// What `split_while` of `byte_sets` answers.
pub(crate) fn split_while(set: ByteSet, text: &[u8]) -> (&[u8], &[u8])
    ensures front { result.0.now ≡ front_while (is_in set) text.now }
    ensures rest { result.1.now ≡ rest_while (is_in set) text.now }
{
    byte_sets::split_while(set, text)
}

/// What follows that front.
pub(crate) fn rest_while(set: ByteSet, text: &[u8]) -> &[u8]
    ensures { result.now ≡ rest_while (is_in set) text.now }
{
    split_while(set, text).1
}

/// Whether the text begins with a byte of the set.
pub(crate) fn begins(set: ByteSet, text: &[u8]) -> bool
    ensures { result ≡ begins (is_in set) text.now }
{
    match text {
        [byte, ..] => set.contains(*byte),
        [] => false,
    }
}

/// The front of bytes of the set, if there is one, and what follows it.
pub(crate) fn some_while(set: ByteSet, text: &[u8]) -> Option<(&[u8], &[u8])>
    ensures { option_map (λ found. (found.0.now, found.1.now)) result ≡ some_while (is_in set) text.now }
{
    if begins(set, text) {
        Some(split_while(set, text))
    } else {
        None
    }
}

/// What follows the word at the front of a text.
pub(crate) fn behind<'a>(word: &[u8], text: &'a [u8]) -> Option<&'a [u8]>
    ensures { option_copied result ≡ behind word.now text.now }
{
    text.strip_prefix(word)
}

/// What follows the white space at the front of a text, if there is some.
pub(crate) fn behind_white(text: &[u8]) -> Option<&[u8]>
    ensures { option_copied result ≡ behind_white text.now }
{
    if begins(ByteSet::White, text) {
        Some(rest_while(ByteSet::White, text))
    } else {
        None
    }
}

/// What follows white space and then the word.
pub(crate) fn behind_word<'a>(word: &[u8], text: &'a [u8]) -> Option<&'a [u8]>
    ensures { option_copied result ≡ behind_word word.now text.now }
{
    behind(word, behind_white(text)?)
}

/// The number of 32 bits that all digits at the front of a text write, and what follows them.
pub(crate) fn number_at(text: &[u8]) -> Option<(u32, &[u8])>
    ensures { option_map (λ found. (found.0, found.1.now)) result ≡ number_at text.now }
{
    let (digits, rest) = split_while(ByteSet::Digit, text);
    Some((read_u32(digits)?, rest))
}
