//! The items of a grant: the words behind its flags.

ghost use Rattle.std.specs.Prelude.{◌≡◌, ℕ, List, IsTrue, IfOk, IfErr, MatchOption};
ghost use Rattle.capspec.specs.Bytes.{ends_word};
ghost use Rattle.capspec.specs.Draft.{AddsItem, AddsValue, has};
ghost use Rattle.capspec.specs.Items.{key_name, key_text};
ghost use Rattle.capspec.specs.Words.{IsKeyed, IsWrongItem, IsWrongOther, IsWrongValue, plain_word};

use crate::bytes::{ends_word, strip};
use crate::draft::Draft;
use crate::fault::SpecFaultKind;
use crate::values::{read_fsname, read_gids, read_path, read_uid};
use byte_sets::{ByteSet, split_while};

/// What an item of a grant speaks of.
#[derive(Clone, Copy, PartialEq, Eq)]
pub enum Key {
    /// `fsname=NAME`
    FsName,
    /// `path=PATH`
    Path,
    /// `uid=N`
    Uid,
    /// `gids=N,N`
    Gids,
    /// `root_squash`
    RootSquash,
}

impl Key {
    // In the order in which a text is tried for them.
    const ALL: [Key; 5] = [Key::Path, Key::Uid, Key::Gids, Key::FsName, Key::RootSquash];

    /// The word by which an item has this key.
    pub fn name(self) -> &'static str
        ensures { result.now ≡ key_name self }
    {
        match self {
            Key::FsName => "fsname",
            Key::Path => "path",
            Key::Uid => "uid",
            Key::Gids => "gids",
            Key::RootSquash => "root_squash",
        }
    }

    // How the word of an item begins that has this key; that of `root_squash` is the whole word.
    fn text(self) -> &'static [u8]
        ensures { result.now ≡ key_text self }
    {
        match self {
            Key::FsName => b"fsname=",
            Key::Path => b"path=",
            Key::Uid => b"uid=",
            Key::Gids => b"gids=",
            Key::RootSquash => b"root_squash",
        }
    }

    // What stands behind the key, if the text begins with it.
    fn strip_from(self, text: &[u8]) -> Option<&[u8]>
        ensures { MatchOption result ((value : List ℕ) → IsKeyed self text.now value → ⊥) (λ value. IsKeyed self text.now value.now) }
    {
        let value = strip(text, self.text())?;
        if self == Key::RootSquash && !ends_word(value) {
            return None;
        }
        Some(value)
    }
}

// The key at the front of a text, and what stands behind it.
fn split_key(text: &[u8]) -> Option<(Key, &[u8])>
    ensures { MatchOption result ((key : Key) (value : List ℕ) → IsKeyed key text.now value → ⊥) (λ found. IsKeyed found.0 text.now found.1.now) }
{
    for key in Key::ALL {
        if let Some(value) = key.strip_from(text) {
            return Some((key, value));
        }
    }
    None
}

// What is wrong with a word that begins with no key.
fn other_word(text: &[u8]) -> SpecFaultKind
    ensures { IsWrongOther (plain_word text.now) result }
{
    let (word, _) = split_while(ByteSet::Plain, text);
    if word == b"network".as_slice() {
        SpecFaultKind::LeftOut
    } else {
        SpecFaultKind::BadItem
    }
}

// Reads the value behind a key.
fn read_value<'a>(
    draft: &mut Draft<'a>,
    key: Key,
    text: &'a [u8],
) -> Result<&'a [u8], SpecFaultKind>
    requires { key ≡ Key.RootSquash → IsTrue (ends_word text.now) }
    ensures ok { IfOk result (λ rest. AddsValue draft.old key text.now rest.now draft.new) }
    ensures err { IfErr result (IsWrongValue key text.now) }
{
    match key {
        Key::FsName => {
            let (name, rest) = read_fsname(text)?;
            draft.fsname = Some(name);
            Ok(rest)
        }
        Key::Path => {
            let (path, rest) = read_path(text)?;
            draft.path = Some(path);
            Ok(rest)
        }
        Key::Uid => {
            let (uid, rest) = read_uid(text)?;
            draft.uid = Some(uid);
            Ok(rest)
        }
        Key::Gids => {
            let (gids, rest) = read_gids(text)?;
            draft.gids = Some(gids);
            Ok(rest)
        }
        Key::RootSquash => {
            draft.root_squash = true;
            Ok(text)
        }
    }
}

/// Reads the item at the front of a text into a draft, and gives the text behind it.
pub(crate) fn read_item<'a>(
    draft: &mut Draft<'a>,
    text: &'a [u8],
) -> Result<&'a [u8], SpecFaultKind>
    ensures ok { IfOk result (λ rest. AddsItem draft.old text.now rest.now draft.new) }
    ensures err { IfErr result (IsWrongItem (has draft.old) text.now) }
{
    let Some((key, value)) = split_key(text) else {
        return Err(other_word(text));
    };
    if draft.has(key) {
        return Err(SpecFaultKind::Twice);
    }
    read_value(draft, key, value)
}
