//! The items of a grant, in the order in which they stand.

ghost use Rattle.std.specs.Prelude.{◌≡◌, ◌≤◌, ◌++◌, ℕ, List, length, None};
ghost use Rattle.std.specs.Option.{option_or};
ghost use Rattle.capspec.specs.Items.{Item};
ghost use Rattle.policy_analysis.specs.Scanning.{Begins, HasItems, behind_item, key_at, wrong_at};
ghost use Rattle.policy_analysis.specs.Ceph16Syntax.{GrantText, first_wrong, rank};

use crate::bytes::{behind_quote, behind_word, ends_grant, skip_white};
use crate::unread::Unread;
use capspec::Key;

/// Of the grant at the front of a text that reads, why Ceph 16 does not read its items as they stand, if nothing was wrong before
/// them, and what follows them.
pub(crate) fn scan_grant(before: Option<Unread>, text: &[u8]) -> (Option<Unread>, &[u8])
    ensures reported { (s : GrantText) (end : List ℕ) → Begins text.now s end → (result.0 ≡ option_or before (first_wrong None s.items)) × (result.1.now ≡ s.after ++ end) }
    ensures within { length result.1.now ≤ length text.now }
{
    let flags = skip_white(behind_word(skip_white(text)));
    scan_items(before, behind_word(flags))
}

// Of the items behind the flags of a grant, why Ceph 16 does not read them as they stand, if nothing was wrong before them, and what
// follows the grant.
fn scan_items(before: Option<Unread>, text: &[u8]) -> (Option<Unread>, &[u8])
    ensures reported { (items : List Item) (tail : List ℕ) → HasItems text.now items tail → (result.0 ≡ option_or before (first_wrong None items)) × (result.1.now ≡ tail) }
    ensures within { length result.1.now ≤ length text.now }
{
    let mut found = before;
    let mut last = None;
    let mut rest = text;
    loop {
        let item = skip_white(rest);
        if ends_grant(item) {
            return (found, rest);
        }
        found = found.or(wrong_at(last, item));
        last = Some(key_at(item));
        rest = behind_item(item);
    }
}

// Why Ceph 16 does not read the item at the front of a text behind one with this key.
fn wrong_at(last: Option<Key>, text: &[u8]) -> Option<Unread>
    ensures { result ≡ wrong_at last text.now }
{
    if text.starts_with(b"fsname=*") {
        return Some(Unread::AnyFileSystem);
    }
    let key = key_at(text);
    match last {
        Some(last) if rank(key) <= rank(last) => Some(Unread::Order {
            first: key,
            second: last,
        }),
        _ => None,
    }
}

// Its place in the order in which Ceph 16 reads items.
fn rank(key: Key) -> u32
    ensures { result ≡ rank key }
{
    match key {
        Key::FsName => 0,
        Key::Path => 1,
        Key::Uid => 2,
        Key::Gids => 3,
        Key::RootSquash => 4,
    }
}

// What the item at the front of a text speaks of. The first letter tells, where it is an item.
fn key_at(text: &[u8]) -> Key
    ensures { result ≡ key_at text.now }
{
    match text {
        [b'f', ..] => Key::FsName,
        [b'p', ..] => Key::Path,
        [b'u', ..] => Key::Uid,
        [b'g', ..] => Key::Gids,
        _ => Key::RootSquash,
    }
}

// What follows the item at the front of a text.
fn behind_item(text: &[u8]) -> &[u8]
    ensures { result.now ≡ behind_item text.now }
{
    if text.starts_with(b"path=\"") {
        let (_, path) = text.split_at(6);
        return behind_quote(b'"', path);
    }
    if text.starts_with(b"path='") {
        let (_, path) = text.split_at(6);
        return behind_quote(b'\'', path);
    }
    behind_word(text)
}
