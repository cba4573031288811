//! The value of the option that is a mode.
ghost use Rattle.std.specs.Prelude.{◌≡◌, ℕ, MatchOption, bytes_eq};
ghost use Rattle.queries.specs.Values.{IsModeText, is_kind, without_kind};

use capbits::{Mode, read_mode};

/// The mode that one to four octal digits write. Before four of them the kind of the inode may stand, as a line of the MDS's log
/// has it: `010` of a file, `04` of a directory.
pub fn read_any_mode(text: &[u8]) -> Option<Mode>
    ensures { MatchOption result ((mode : ℕ) → ¬ IsModeText text.now mode) (IsModeText text.now) }
{
    read_mode(without_kind(text))
}

// The last four digits, where a kind stands before them.
fn without_kind(text: &[u8]) -> &[u8]
    ensures { result.now ≡ without_kind text.now }
{
    let (front, digits) = text.split_at(text.len().saturating_sub(4));
    if is_kind(front) { digits } else { text }
}

// Whether this is the kind of an inode: a file, a directory, a link, a pipe, a device of characters or of blocks, a socket.
fn is_kind(digits: &[u8]) -> bool
    ensures { result ≡ is_kind digits.now }
{
    is(digits, "010")
        || is(digits, "04")
        || is(digits, "012")
        || is(digits, "01")
        || is(digits, "02")
        || is(digits, "06")
        || is(digits, "014")
}

fn is(digits: &[u8], kind: &str) -> bool
    ensures { result ≡ bytes_eq digits.now kind.now }
{
    digits == kind.as_bytes()
}
