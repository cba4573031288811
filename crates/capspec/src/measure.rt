//! Whether a path's text has few and short names, which most texts show without a look at each name.

ghost use Rattle.std.specs.Prelude.{◌≡◌, ◌==◌, ◌≤◌, length, count_by, IsTrue};
ghost use Rattle.capspec.specs.Paths.{are_few_and_short, names_of};

use crate::path::{MAX_NAME, MAX_NAMES, has_few_short_names};
use byte_sets::{ByteSet, split_while};

// The longest text whose slashes a byte can count.
const MAX_COUNT: usize = 255;

/// Whether a path's text has no more and no longer names than a path of a grant may have.
pub(crate) fn has_fit_names(text: &[u8]) -> bool
    ensures { result ≡ are_few_and_short (names_of text.now) }
{
    is_short(text) || is_in_few_parts(text) || has_few_short_names(text)
}

// Whether a text is too short to have too many names, as each but one has a slash beside it, or too long a name.
fn is_short(text: &[u8]) -> bool
    ensures { IsTrue result → IsTrue (are_few_and_short (names_of text.now)) }
{
    text.len() < 2 * MAX_NAMES
}

// Whether the text from its first name on has no room for too long a name, and no slashes between too many.
fn is_in_few_parts(text: &[u8]) -> bool
    ensures { IsTrue result → IsTrue (are_few_and_short (names_of text.now)) }
{
    let (_, names) = split_while(ByteSet::Only(b'/'), text);
    names.len() <= MAX_NAME && count_slashes(names) < MAX_NAMES
}

/// How many slashes a text has. They are counted part by part.
pub(crate) fn count_slashes(text: &[u8]) -> usize
    ensures { result ≡ count_by (λ b. b == 47) text.now }
{
    let mut slashes = 0;
    let mut rest = text;
    while rest.len() > MAX_COUNT {
        let (part, behind) = rest.split_at(MAX_COUNT);
        slashes += usize::from(count_few_slashes(part));
        rest = behind;
    }
    slashes + usize::from(count_few_slashes(rest))
}

// The count is a byte, as the text is short: so many bytes at once can be counted.
fn count_few_slashes(text: &[u8]) -> u8
    requires { length text.now ≤ MAX_COUNT }
    ensures { result ≡ count_by (λ b. b == 47) text.now }
{
    let mut slashes = 0;
    for byte in text {
        slashes += u8::from(*byte == b'/');
    }
    slashes
}
