//! What an MDS logs at debug 20 before a check of policy.
ghost use Rattle.std.specs.Prelude.{◌≡◌, is_some, option_map};
ghost use Rattle.queries.specs.Before.{before_in, before_of, before_texts_of, front_path, given_of, given_texts_of, groups_in, has, is_whole, known_of};
ghost use Rattle.queries.specs.Before.{path_in, path_known, said_before};
ghost use Rattle.queries.specs.Checks.{texts_of};

use crate::check::{Check, check_in, may_stand_before};
use crate::cuts::{cut, cut_first};

// What it begins with, behind the thread and the level.
const NAME: &[u8] = b"check_access: [inode ";

const LEVEL: &[u8] = b"20 Session ";

/// What such a line says, each part as it stands there.
#[derive(Clone, Copy)]
pub struct Before<'a> {
    /// The path of the inode, from the root of the file system, where it can be read.
    pub path: Option<&'a [u8]>,
    /// The caller's uid.
    pub uid: &'a [u8],
    /// The caller's gid.
    pub gid: &'a [u8],
    /// The caller's groups, with commas between them.
    pub groups: &'a [u8],
}

/// What the question of a check has beside what the check says itself.
#[derive(Clone, Copy)]
pub struct Given<'a> {
    /// The name of the file system.
    pub fs: &'a [u8],
    /// The path, where one is known.
    pub path: Option<&'a [u8]>,
    /// The caller's groups with commas between them, where there are some.
    pub groups: Option<&'a [u8]>,
}

impl Given<'_> {
    ghost use Rattle.std.specs.Prelude.{◌≡◌, is_some};
    ghost use Rattle.queries.specs.Before.{given_texts_of};

    /// Whether a path is known.
    pub fn has_path(&self) -> bool
        ensures { result ≡ is_some (given_texts_of self.now).path }
    {
        self.path.is_some()
    }
}

// What stands behind the first words of such a line, if the line is one.
fn before_in(line: &[u8]) -> Option<&[u8]>
    ensures { option_map (λ text. text.now) result ≡ before_in line.now }
{
    let (front, text) = cut_first(line, NAME)?;
    if check_in(front).is_none() && may_stand_before(LEVEL, front) {
        Some(text)
    } else {
        None
    }
}

/// Whether the line says something of the next check.
pub fn is_before(line: &[u8]) -> bool
    ensures { result ≡ is_some (before_in line.now) }
{
    before_in(line).is_some()
}

/// What a line says of the next check, if it is such a line.
pub fn said_before(line: &[u8]) -> Option<Before<'_>>
    ensures { option_map before_texts_of result ≡ said_before line.now }
{
    read_before(before_in(line)?)
}

// The parts of what stands behind its first words, cut off from the end on.
fn read_before(text: &[u8]) -> Option<Before<'_>>
    ensures { option_map before_texts_of result ≡ before_of text.now }
{
    let (text, _) = cut(text, b"]")?;
    let (text, groups) = cut(text, b" caller_gid_list=[")?;
    let (text, gid) = cut(text, b" caller_gid=")?;
    let (inode, uid) = cut(text, b" caller_uid=")?;
    Some(Before {
        path: read_path(inode),
        uid,
        gid,
        groups,
    })
}

// The path of an inode, behind its number and what snapshots it is in, where it can be read.
fn read_path(text: &[u8]) -> Option<&[u8]>
    ensures { option_map (λ path. path.now) result ≡ path_in text.now }
{
    let (_, inode) = cut_first(text, b"] ")?;
    front_path(inode)
}

// The path at the front of an inode. Behind that of another MDS's inode stands ` rep@`.
fn front_path(inode: &[u8]) -> Option<&[u8]>
    ensures { option_map (λ path. path.now) result ≡ front_path inode.now }
{
    if has(inode, b" rep@") {
        return None;
    }
    let (path, behind) = cut_first(inode, b" auth")?;
    if is_whole(path, behind) {
        Some(path)
    } else {
        None
    }
}

// Whether the path in front of that can be read in one way.
fn is_whole(path: &[u8], behind: &[u8]) -> bool
    ensures { result ≡ is_whole path.now behind.now }
{
    matches!(path, [b'/', ..])
        && matches!(behind, [b' ' | b'{', ..])
        && !has(behind, b" auth ")
        && !has(behind, b" auth{")
}

// Whether the mark stands in the text.
fn has(text: &[u8], mark: &[u8]) -> bool
    ensures { result ≡ has mark.now text.now }
{
    cut_first(text, mark).is_some()
}

/// What the question of a check has beside it: on this file system, where the check has no name of one, and by what the line before it says. A
/// check with a name has no path of its own.
pub fn given_for<'a>(
    fs: &'a [u8],
    name: Option<&'a [u8]>,
    before: Option<Before<'a>>,
    check: &Check<'a>,
) -> Given<'a>
    ensures { given_texts_of result ≡ given_of fs.now (option_map (λ fs. fs.now) name.entry)
        (known_of (texts_of check.now) (option_map before_texts_of before.entry)) (texts_of check.now) }
{
    let known = known(before, check);
    let groups = groups_in(known);
    match name {
        None => Given {
            fs,
            path: Some(check.inode.path),
            groups,
        },
        Some(name) => Given {
            fs: name,
            path: path_known(known),
            groups,
        },
    }
}

// What is known of the check: it is of this caller.
fn known<'a>(before: Option<Before<'a>>, check: &Check<'_>) -> Option<Before<'a>>
    ensures { option_map before_texts_of result ≡ known_of (texts_of check.now) (option_map before_texts_of before.entry) }
{
    let before = before?;
    if before.uid == check.uid && before.gid == check.gid {
        Some(before)
    } else {
        None
    }
}

// The groups of the caller, where there are some.
fn groups_in(known: Option<Before<'_>>) -> Option<&[u8]>
    ensures { option_map (λ groups. groups.now) result ≡ groups_in (option_map before_texts_of known.entry) }
{
    let known = known?;
    if known.groups.is_empty() {
        None
    } else {
        Some(known.groups)
    }
}

fn path_known(known: Option<Before<'_>>) -> Option<&[u8]>
    ensures { option_map (λ path. path.now) result ≡ path_known (option_map before_texts_of known.entry) }
{
    known?.path
}
