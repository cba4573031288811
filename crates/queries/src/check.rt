//! A check of policy, as a line of the log has it.
ghost use Rattle.std.specs.Prelude.{◌≡◌, ◌<◌, ◌∷◌, [], Some, None, MatchOption, IfSome, length, option_map};
ghost use Rattle.std.specs.List.{list_all};
ghost use Rattle.queries.specs.Checks.{behind_thread, check_in, check_of, head_in, head_texts_of, inode_of, inode_texts_of, is_hex_digit, is_thread};
ghost use Rattle.queries.specs.Checks.{may_stand_before, texts_of, words};

use crate::cuts::{behind_front, cut, cut_closed, cut_first};

// What an MDS calls a check in its log.
const NAME: &[u8] = b"is_capable";

// What stands between the thread and that: the level of the message, and what it is of.
const LEVEL: &[u8] = b"10 MDSAuthCap ";

// What stands before the inode of a check.
const INODE: &[u8] = b" inode(path ";

// What Ceph 20 has in front of that, with the name of the file system behind it.
const FS_NAME: &[u8] = b"fs_name ";

// How many digits the number of a thread has at the least.
const SHORTEST_THREAD: usize = 8;

/// How a check begins.
#[derive(Clone, Copy)]
pub struct Head<'a> {
    /// The name of its file system, where the MDS writes it. Such an MDS, one of Ceph 20, writes no path.
    pub fs: Option<&'a [u8]>,
    /// What stands behind the head, from the path on.
    pub parts: &'a [u8],
}

/// The inode of a check, each part as it stands in the line.
#[derive(Clone, Copy)]
pub struct Inode<'a> {
    /// Its path, from the root of the file system.
    pub path: &'a [u8],
    /// The uid of its owner.
    pub owner: &'a [u8],
    /// The gid of its group.
    pub group: &'a [u8],
    /// Its kind and its mode.
    pub mode: &'a [u8],
}

/// What a check asks, each part as it stands in the line.
#[derive(Clone, Copy)]
pub struct Check<'a> {
    pub inode: Inode<'a>,
    /// The caller's uid.
    pub uid: &'a [u8],
    /// The caller's gid.
    pub gid: &'a [u8],
    /// The bits of what is asked for.
    pub mask: &'a [u8],
    /// The uid that the inode is to be given to, where the mask asks for that.
    pub new_uid: &'a [u8],
    /// The gid that it is to be given to.
    pub new_gid: &'a [u8],
    /// The client's grants.
    pub grants: &'a [u8],
}

/// What stands before and behind the first `is_capable` in the line, if that has one.
pub fn check_in(line: &[u8]) -> Option<(&[u8], &[u8])>
    ensures { MatchOption result (check_in line.now ≡ None) (λ parts. check_in line.now ≡ Some (parts.0.now, parts.1.now)) }
{
    cut_first(line, NAME)
}

/// The head of a check that has `is_capable` between these, if it has the form of one.
pub fn read_head<'a>(front: &[u8], text: &'a [u8]) -> Option<Head<'a>>
    ensures { option_map head_texts_of result ≡ head_in (front.now, text.now) }
{
    if !may_stand_before(LEVEL, front) {
        return None;
    }
    let (front, parts) = cut_first(text, INODE)?;
    if front.is_empty() {
        return Some(Head { fs: None, parts });
    }
    let fs = behind_front(front, FS_NAME)?;
    Some(Head {
        fs: Some(fs),
        parts,
    })
}

/// Whether a message of this level and name goes on behind this: where a thread stands in it, nothing else stands behind that.
pub fn may_stand_before(level: &[u8], front: &[u8]) -> bool
    ensures { result ≡ may_stand_before level.now front.now }
{
    match behind_thread(front) {
        Some(text) => text == level,
        None => true,
    }
}

// What stands behind the first thread in the text.
fn behind_thread(text: &[u8]) -> Option<&[u8]>
    ensures { option_map (λ behind. behind.now) result ≡ behind_thread text.now }
{
    let mut rest = text;
    while let Some((word, behind)) = split_word(rest) {
        if is_thread(word) {
            return Some(behind);
        }
        rest = behind;
    }
    if is_thread(rest) { Some(b"") } else { None }
}

// The word before the first space and what stands behind the space, if there is one.
fn split_word(text: &[u8]) -> Option<(&[u8], &[u8])>
    ensures words { MatchOption result
        (words text.now ≡ text.now ∷ [])
        (λ cut. words text.now ≡ cut.0.now ∷ words cut.1.now) }
    ensures shorter { IfSome result (λ cut. length cut.1.now < length text.now) }
{
    let end = text.iter().position(|byte| *byte == b' ')?;
    Some((&text[..end], &text[end + 1..]))
}

// Whether the word can be the number of a thread.
fn is_thread(word: &[u8]) -> bool
    ensures { result ≡ is_thread word.now }
{
    SHORTEST_THREAD <= word.len() && are_hex_digits(word)
}

fn are_hex_digits(word: &[u8]) -> bool
    ensures { result ≡ list_all is_hex_digit word.now }
{
    word.iter().all(|byte| is_hex_digit(*byte))
}

fn is_hex_digit(byte: u8) -> bool
    ensures { result ≡ is_hex_digit byte }
{
    matches!(byte, b'0'..=b'9' | b'a'..=b'f')
}

/// The parts of a check, of what stands behind its head. They are cut off from the end on, each at the last place of the word before
/// it, so that no name in the path can be taken for one of them, nor one in the grants, which has quotes round it.
pub fn read_check(text: &[u8]) -> Option<Check<'_>>
    ensures { MatchOption result (check_of text.now ≡ None) (λ check. check_of text.now ≡ Some (texts_of check)) }
{
    let (text, _) = cut(text, b"]")?;
    let (text, grants) = cut_closed(text, b" cap: MDSAuthCaps[")?;
    let (text, new_gid) = cut(text, b":")?;
    let (text, new_uid) = cut(text, b" new ")?;
    let (text, mask) = cut(text, b" mask ")?;
    let (text, gid) = cut(text, b":")?;
    let (text, uid) = cut(text, b") by caller ")?;
    let inode = read_inode(text)?;
    Some(Check {
        inode,
        uid,
        gid,
        mask,
        new_uid,
        new_gid,
        grants,
    })
}

fn read_inode(text: &[u8]) -> Option<Inode<'_>>
    ensures { MatchOption result (inode_of text.now ≡ None) (λ inode. inode_of text.now ≡ Some (inode_texts_of inode)) }
{
    let (text, mode) = cut(text, b" mode ")?;
    let (text, group) = cut(text, b":")?;
    let (path, owner) = cut(text, b" owner ")?;
    Some(Inode {
        path,
        owner,
        group,
        mode,
    })
}
