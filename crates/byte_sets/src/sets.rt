//! Sets of bytes, and the longest front of a text that one of them allows.

ghost use Rattle.std.specs.Prelude.{◌≡◌, ◌≤◌, length, take, IsTrue};
ghost use Rattle.std.specs.List.{list_all};
ghost use Rattle.byte_sets.specs.Sets.{SplitsWhile, is_bare_path_byte, is_in, is_network_byte};
ghost use Rattle.byte_sets.specs.declared.sets.ByteSet.TheVariants.{BarePath};

// How many bytes of a path are looked at at once.
const BLOCK: usize = 16;

/// A set of bytes by which texts of capabilities are cut.
#[derive(Clone, Copy)]
pub enum ByteSet {
    /// A space, a tab or a line feed.
    White,
    /// A space, a tab, a line feed, a vertical tab, a form feed or a carriage return.
    AnyWhite,
    /// A space or a tab.
    Blank,
    /// What the name of a file system may have.
    FsName,
    /// What a path without quotes may have.
    BarePath,
    /// What the address of a network may have.
    Network,
    /// A decimal digit.
    Digit,
    /// What a word without quotes may have: all but white space, `,` and `;`.
    Plain,
    /// One byte alone.
    Only(u8),
    /// All but one byte.
    AllBut(u8),
}

impl ByteSet {
    ghost use Rattle.std.specs.Prelude.{◌≡◌};
    ghost use Rattle.byte_sets.specs.Sets.{is_in};

    /// Whether the byte is in the set.
    pub fn contains(self, byte: u8) -> bool
        ensures { result ≡ is_in self byte }
    {
        let is_white = matches!(byte, b' ' | b'\t' | b'\n');
        let is_mark = matches!(byte, b',' | b';');
        match self {
            ByteSet::White => is_white,
            ByteSet::AnyWhite => matches!(byte, b' ' | 9..=13),
            ByteSet::Blank => matches!(byte, b' ' | b'\t'),
            ByteSet::FsName => byte != b'/' && is_bare_path_byte(byte),
            ByteSet::BarePath => is_bare_path_byte(byte),
            ByteSet::Network => is_network_byte(byte),
            ByteSet::Digit => byte.is_ascii_digit(),
            ByteSet::Plain => !(is_white || is_mark),
            ByteSet::Only(one) => byte == one,
            ByteSet::AllBut(one) => byte != one,
        }
    }
}

// A letter, a digit, `-`, `.`, `/` or `_`. Each byte from `-` to `9` is one; splitting at `A` leaves few tests for each.
fn is_bare_path_byte(byte: u8) -> bool
    ensures { result ≡ is_bare_path_byte byte }
{
    if byte < b'A' {
        matches!(byte, b'-'..=b'9')
    } else {
        byte.is_ascii_alphabetic() || byte == b'_'
    }
}

// A hexadecimal digit, or a mark of an address.
fn is_network_byte(byte: u8) -> bool
    ensures { result ≡ is_network_byte byte }
{
    matches!(byte, b'.'..=b':' | b'a'..=b'f' | b'A'..=b'F' | b'[' | b']')
}

/// Splits a text behind the longest front that has bytes of the set alone.
pub fn split_while(set: ByteSet, text: &[u8]) -> (&[u8], &[u8])
    ensures { SplitsWhile set text.now result.0.now result.1.now }
{
    for (at, byte) in text.iter().enumerate() {
        if !set.contains(*byte) {
            return text.split_at(at);
        }
    }
    text.split_at(text.len())
}

/// What `split_while` answers of the bytes of a path without quotes. A path is long, so whole blocks of it are passed over first.
pub fn split_bare_path(text: &[u8]) -> (&[u8], &[u8])
    ensures { SplitsWhile BarePath text.now result.0.now result.1.now }
{
    let whole = measure_bare_blocks(text);
    let (_, behind) = text.split_at(whole);
    let (front, _) = split_while(ByteSet::BarePath, behind);
    text.split_at(whole + front.len())
}

// How many bytes the first blocks of a text have, up to one with a byte that a path without quotes may not have.
fn measure_bare_blocks(text: &[u8]) -> usize
    ensures within { result ≤ length text.now }
    ensures all_in { IsTrue (list_all (is_in BarePath) (take result text.now)) }
{
    let mut len = 0;
    let mut rest = text;
    while let Some((block, behind)) = rest.split_first_chunk::<BLOCK>() {
        if !is_bare_block(block) {
            break;
        }
        len += BLOCK;
        rest = behind;
    }
    len
}

// Whether a path without quotes may have each byte of a block.
fn is_bare_block(block: &[u8; BLOCK]) -> bool
    ensures { result ≡ list_all (is_in BarePath) block.now }
{
    let mut is_all = true;
    for byte in block {
        // The loop goes on after a byte that it may not have: so the compiler takes all of them at once.
        is_all &= is_bare_lane(*byte);
    }
    is_all
}

// `is_bare_path_byte` without a branch, so that the compiler can ask it of many bytes at once.
fn is_bare_lane(byte: u8) -> bool
    ensures { result ≡ is_bare_path_byte byte }
{
    let is_low = (byte >= b'-') & (byte <= b'9');
    let is_upper = (byte >= b'A') & (byte <= b'Z');
    let is_lower = (byte >= b'a') & (byte <= b'z');
    is_low | is_upper | is_lower | (byte == b'_')
}
