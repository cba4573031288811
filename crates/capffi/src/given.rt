//! A grant as it stands in a block.
ghost use Rattle.std.specs.Prelude.{◌≡◌, ◌==◌, ◌↔◌, not, ◌&&◌, ◌+◌, ◌<◌, ◌≤◌, IsTrue, length, slice_index, take, drop};
ghost use Rattle.std.specs.List.{starts_with};
ghost use Rattle.std.specs.Str.{bytes_eq};
ghost use Rattle.capffi.specs.Blocks.{bare_names, behind, fs_in, grant_of, path_in, path_names};

use crate::block::Entry;
use capspec::is_same_by_pairs;
use std::marker::Model;

/// A grant that stands in a block.
#[derive(Drop)]
pub(crate) struct Given<'a> {
    entry: &'a Entry,
    path: &'a [u8],
    fs: &'a [u8],
}

impl<'a> Model for Given<'a> {
    ghost use Rattle.capspec.specs.declared.grant.Grant.{Grant};
    ghost use Rattle.capffi.specs.Blocks.{grant_of};

    ghost Value = { Grant };

    ghost view = { λ given. grant_of given.entry.now given.path.now given.fs.now };
}

/// The grant of an entry, whose texts stand at the front of a text, and what stands behind these.
#[inline(always)]
pub(crate) fn split_grant<'a>(entry: &'a Entry, text: &'a [u8]) -> (Given<'a>, &'a [u8])
    ensures grant { result.0 ≡ grant_of entry.now (path_in entry.now text.now) (fs_in entry.now text.now) }
    ensures rest { result.1.now ≡ behind entry.now text.now }
{
    let (path, text) = split_front(text, entry.path_len as usize);
    let (fs, text) = split_front(text, entry.fs_len as usize);
    (Given { entry, path, fs }, text)
}

/// The first bytes of a text, and what stands behind them. A text that is shorter is all of its first bytes.
#[inline(always)]
pub(crate) fn split_front(text: &[u8], len: usize) -> (&[u8], &[u8])
    ensures front { result.0.now ≡ take len text.now }
    ensures behind { result.1.now ≡ drop len text.now }
{
    text.split_at(len.min(text.len()))
}

impl Given<'_> {
    ghost use Rattle.std.specs.Prelude.{◌≡◌, ◌==◌, [], None, IsTrue, not, is_some, bytes_eq};
    ghost use Rattle.std.specs.List.{starts_with};
    ghost use Rattle.capspec.specs.Flags.{has_p, has_s, has_w};
    ghost use Rattle.capgrant.specs.Failing.{is_some_and};
    ghost use Rattle.capffi.specs.Blocks.{bare_names};

    /// Whether it is for every caller, and lists no groups.
    pub(crate) fn is_for_all(&self) -> bool
        ensures uid { IsTrue result → self.now.uid ≡ None }
        ensures gids { IsTrue result → self.now.gids ≡ [] }
    {
        self.entry.has_uid == 0 && self.entry.gid_count == 0
    }

    /// Whether it is for another file system.
    pub(crate) fn is_for_other_fs(&self, fs: &[u8]) -> bool
        ensures { result ≡ is_some_and (λ name. not (bytes_eq name fs.now)) self.now.fsname }
    {
        self.entry.fs_len != 0 && are_apart(self.fs, fs)
    }

    /// Whether it is for another caller.
    pub(crate) fn is_for_other_uid(&self, uid: u32) -> bool
        ensures { result ≡ is_some_and (λ one. not (one == uid)) self.now.uid }
    {
        self.has_uid() && self.entry.uid != uid
    }

    /// Whether it is for one caller.
    pub(crate) fn has_uid(&self) -> bool
        ensures { result ≡ is_some self.now.uid }
    {
        self.entry.has_uid != 0
    }

    /// The groups that it lists.
    #[tactic(auto, using(std::proofs::lemmas::List::take_min))]
    pub(crate) fn gids(&self) -> &[u32]
        ensures { result.now ≡ self.now.gids }
    {
        let gids = self.entry.gids.as_slice();
        &gids[..(self.entry.gid_count as usize).min(gids.len())]
    }

    /// Whether a path, without a slash in front, leads to its directory, or below it.
    #[inline(always)]
    pub(crate) fn is_above(&self, path: &[u8]) -> bool
        ensures { result ≡ starts_with bytes_eq (bare_names path.now) self.now.path }
    {
        leads(self.path, path)
    }

    /// Whether it lets one write.
    #[tactic(auto, unfolding(crate::specs::Blocks::flags_of))]
    pub(crate) fn has_w(&self) -> bool
        ensures { result ≡ has_w self.now.flags }
    {
        1 <= self.entry.flags && self.entry.flags <= 4
    }

    /// Whether it lets one set `ceph.` attributes.
    #[tactic(auto, unfolding(crate::specs::Blocks::flags_of))]
    pub(crate) fn has_p(&self) -> bool
        ensures { result ≡ has_p self.now.flags }
    {
        self.entry.flags == 2 || self.entry.flags == 4
    }

    /// Whether it lets one make snapshots.
    #[tactic(auto, unfolding(crate::specs::Blocks::flags_of))]
    pub(crate) fn has_s(&self) -> bool
        ensures { result ≡ has_s self.now.flags }
    {
        self.entry.flags == 3 || self.entry.flags == 4
    }

    /// Whether root may do no more than read.
    pub(crate) fn root_squash(&self) -> bool
        ensures { result ≡ self.now.root_squash }
    {
        self.entry.root_squash != 0
    }
}

// Whether two names differ.
#[inline(never)]
fn are_apart(one: &[u8], other: &[u8]) -> bool
    ensures { result ≡ not (bytes_eq one.now other.now) }
{
    one != other
}

// Whether a directory, whose text has a slash in front, is that of a path, whose text has none, or lies above it.
#[inline(always)]
#[tactic(auto, using(crate::proofs::Leads::root_above))]
fn leads(dir: &[u8], path: &[u8]) -> bool
    ensures { result ≡ starts_with bytes_eq (bare_names path.now) (path_names dir.now) }
{
    if dir.len() < 2 {
        return true;
    }
    is_front(&dir[1..], path)
}

// Whether the names of one text, with a slash between each two, are the first of another's. The root has none.
#[inline(always)]
#[tactic(auto, using(crate::proofs::Leads::begin_past, crate::proofs::Leads::begin_slash, crate::proofs::Leads::begin_other))]
fn is_front(dir: &[u8], path: &[u8]) -> bool
    requires { 0 < length dir.now }
    ensures { result ≡ starts_with bytes_eq (bare_names path.now) (bare_names dir.now) }
{
    if path.len() <= dir.len() {
        return are_equal(dir, path);
    }
    if !has_slash_at(path, dir.len()) {
        return false;
    }
    is_same(&path[..dir.len()], dir)
}

// Whether a slash stands at a place.
#[inline(always)]
fn has_slash_at(path: &[u8], place: usize) -> bool
    requires { place < length path.now }
    ensures { IsTrue result ↔ (slice_index path.now place ≡ 47) }
{
    path[place] == b'/'
}

// Whether two texts are the same.
#[inline(always)]
#[tactic(auto, using(crate::proofs::Leads::other_length))]
fn are_equal(one: &[u8], other: &[u8]) -> bool
    ensures { result ≡ bytes_eq one.now other.now }
{
    if one.len() != other.len() {
        return false;
    }
    is_same(one, other)
}

// Whether two texts of one length are the same: by two pieces, which may share bytes, or byte by byte where they are very short or
// very long. No call is made, so that what is asked of most keeps all in registers.
#[inline(always)]
fn is_same(one: &[u8], other: &[u8]) -> bool
    requires { length one.now ≡ length other.now }
    ensures { result ≡ bytes_eq one.now other.now }
{
    let len = other.len();
    if len > 64 {
        return is_same_of_many(one, other);
    }
    if len <= 16 {
        return is_same_of_few(one, other);
    }
    if len <= 32 {
        return is_same_at_ends(one, other, 16, 16);
    }
    is_same_at_ends(one, other, 32, 32)
}

// Whether two texts of one length, of more than 64 bytes, are the same.
#[inline(always)]
fn is_same_of_many(one: &[u8], other: &[u8]) -> bool
    requires same { length one.now ≡ length other.now }
    requires many { 64 < length other.now }
    ensures { result ≡ bytes_eq one.now other.now }
{
    let len = other.len();
    if len <= 96 {
        return is_same_at_ends(one, other, 32, 64);
    }
    if len <= 128 {
        return is_same_at_ends(one, other, 64, 64);
    }
    is_same_bytewise(one, other)
}

// Whether two texts of one length, of at most 16 bytes, are the same.
#[inline(always)]
fn is_same_of_few(one: &[u8], other: &[u8]) -> bool
    requires same { length one.now ≡ length other.now }
    requires few { length other.now ≤ 16 }
    ensures { result ≡ bytes_eq one.now other.now }
{
    match other.len() {
        2..=4 => is_same_of_fewest(one, other),
        5..=8 => is_same_at_ends(one, other, 4, 4),
        9..=16 => is_same_at_ends(one, other, 8, 8),
        _ => is_same_bytewise(one, other),
    }
}

// Whether two texts of one length are the same, byte by byte.
#[inline(always)]
#[tactic(auto, using(crate::proofs::Leads::all_bytes))]
fn is_same_bytewise(one: &[u8], other: &[u8]) -> bool
    requires { length one.now ≡ length other.now }
    ensures { result ≡ bytes_eq one.now other.now }
{
    is_same_from(one, other, 0, other.len())
}

// Whether two texts of one length are the same, by a piece at each end. The last bytes, by which paths mostly differ, are compared first.
#[inline(always)]
fn is_same_at_ends(one: &[u8], other: &[u8], first: usize, last: usize) -> bool
    requires same { length one.now ≡ length other.now }
    requires front { first ≤ length other.now }
    requires back { last ≤ length other.now }
    requires whole { length other.now ≤ first + last }
    ensures { result ≡ bytes_eq one.now other.now }
{
    is_same_from(one, other, other.len() - last, last) && is_same_from(one, other, 0, first)
}

// Whether a piece of two texts is the same. There is no way out of the loop, so that it is compiled into a few comparisons of many
// bytes at once.
#[inline(always)]
fn is_same_from(one: &[u8], other: &[u8], start: usize, piece: usize) -> bool
    requires same { length one.now ≡ length other.now }
    requires within { start + piece ≤ length other.now }
    ensures { (result && bytes_eq (drop (start + piece) one.now) (drop (start + piece) other.now)) ≡ bytes_eq (drop start one.now) (drop start other.now) }
{
    let mut is_same = true;
    for step in 0..piece {
        is_same &= one[start + step] == other[start + step];
    }
    is_same
}

// The same of two to four bytes.
#[inline(always)]
#[tactic(auto, using(crate::proofs::Leads::same_is))]
fn is_same_of_fewest(one: &[u8], other: &[u8]) -> bool
    requires same { length one.now ≡ length other.now }
    requires more { 2 ≤ length other.now }
    requires few { length other.now ≤ 4 }
    ensures { result ≡ bytes_eq one.now other.now }
{
    is_same_by_pairs(one, other)
}
