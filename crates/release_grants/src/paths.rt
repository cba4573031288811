//! What lies at or below the directory of a grant.
ghost use Rattle.std.specs.Prelude.{◌≡◌};
ghost use Rattle.capspec.specs.Words.{rest_while};
ghost use Rattle.release_grants.specs.Paths.{directory_of, ends_in_slash, ends_name, lies_in, path_text, without_first_slashes, without_last_slashes};

use crate::bytes::rest_while;
use crate::switches::Switches;
use byte_sets::ByteSet;
use capspec::TreePath;

/// The path of a grant as a release compares it: without the slashes in front, and without those at its end where they mean nothing.
pub fn directory_of(switches: Switches, path: &[u8]) -> &[u8]
    ensures { result.now ≡ directory_of switches path.now }
{
    let path = without_first_slashes(path);
    if switches.drops_last_slashes {
        without_last_slashes(path)
    } else {
        path
    }
}

/// The names of an inode as an MDS has them, as one text.
pub fn path_text(path: &TreePath) -> &[u8]
    ensures { result.now ≡ path_text path.now }
{
    without_first_slashes(path.as_bytes())
}

/// Whether a path begins with a directory, and there a name ends.
pub fn lies_in(directory: &[u8], path: &[u8]) -> bool
    ensures { result ≡ lies_in directory.now path.now }
{
    if directory.is_empty() {
        return true;
    }
    match path.strip_prefix(directory) {
        Some(rest) => ends_name(rest) || ends_in_slash(directory),
        None => false,
    }
}

fn ends_name(rest: &[u8]) -> bool
    ensures { result ≡ ends_name rest.now }
{
    match rest {
        [] => true,
        [byte, ..] => *byte == b'/',
    }
}

fn ends_in_slash(text: &[u8]) -> bool
    ensures { result ≡ ends_in_slash text.now }
{
    match text.last() {
        Some(byte) => *byte == b'/',
        None => false,
    }
}

/// The text without the slashes in front of it.
pub fn without_first_slashes(text: &[u8]) -> &[u8]
    ensures { result.now ≡ without_first_slashes text.now }
{
    rest_while(ByteSet::Only(b'/'), text)
}

// The text without the slashes at its end.
fn without_last_slashes(text: &[u8]) -> &[u8]
    ensures { result.now ≡ without_last_slashes text.now }
{
    let mut end = text.len();
    while end > 0 && text[end - 1] == b'/' {
        end -= 1;
    }
    &text[..end]
}
