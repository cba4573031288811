//! The texts of paths.

ghost use Rattle.std.specs.Prelude.{◌≡◌, [], ◌∷◌, ◌++◌, IfOk, MatchOption, OnOk, IsTrue, map};
ghost use Rattle.capspec.specs.Paths.{are_few_and_short, has_double_slash, names_of, slashed};
ghost use Rattle.capspec.specs.Written.{can_be_bare, has_no_double_quote, path_text, written_path};

use crate::tree_path::TreePath;
use byte_sets::{ByteSet, split_while};
use std::alloc::{AllocError, Global};

/// How many names the path of a grant may have.
pub const MAX_NAMES: usize = 32;

/// How many bytes a name may have.
pub const MAX_NAME: usize = 255;

/// Whether a text is its names with a slash before each.
#[tactic(auto, using(crate::proofs::OneText::is_as_it_stands))]
pub(crate) fn is_slashed(text: &[u8]) -> bool
    ensures { IsTrue result → text.now ≡ slashed (names_of text.now) }
{
    if text.is_empty() {
        return true;
    }
    text[0] == b'/' && text[text.len() - 1] != b'/' && !has_double_slash(text)
}

// Whether two slashes stand side by side.
fn has_double_slash(text: &[u8]) -> bool
    ensures { result ≡ has_double_slash text.now }
{
    let mut is_found = false;
    for place in 1..text.len() {
        let (before, here) = (text[place - 1] == b'/', text[place] == b'/');
        // Both are looked at, and the loop goes on: so the compiler takes many bytes at a time.
        is_found |= before & here;
    }
    is_found
}

/// Appends the item that says a path, behind a space; nothing if the path restricts nothing.
#[tactic(auto, using(crate::proofs::OneText::item_of))]
pub(crate) fn write_path(text: &mut Vec<u8>, path: &TreePath) -> Result<(), AllocError>
    ensures { OnOk result (text.new.items ≡ text.old.items ++ path_text path.now) }
{
    let path = path.as_bytes();
    if path.is_empty() {
        return Ok(());
    }
    text.extend_from_slice(b" path=")?;
    write_value(text, path)
}

// Appends a path's text, in quotes where it needs them.
fn write_value(text: &mut Vec<u8>, path: &[u8]) -> Result<(), AllocError>
    ensures { OnOk result (text.new.items ≡ text.old.items ++ written_path path.now) }
{
    if can_be_bare(path) {
        text.extend_from_slice(path)?;
        return Ok(());
    }
    let quote = if has_no_double_quote(path) {
        b'"'
    } else {
        b'\''
    };
    text.push(quote)?;
    text.extend_from_slice(path)?;
    text.push(quote)?;
    Ok(())
}

// Whether a path's text can stand without quotes.
fn can_be_bare(path: &[u8]) -> bool
    ensures { result ≡ can_be_bare path.now }
{
    let (_, other) = split_while(ByteSet::BarePath, path);
    other.is_empty()
}

// Whether a path's text has no `"`.
fn has_no_double_quote(path: &[u8]) -> bool
    ensures { result ≡ has_no_double_quote path.now }
{
    let (_, other) = split_while(ByteSet::AllBut(b'"'), path);
    other.is_empty()
}

/// Appends the names of a path's text, with a slash before each.
pub(crate) fn write_names(text: &mut Vec<u8>, path: &[u8]) -> Result<(), AllocError>
    ensures { OnOk result (text.new.items ≡ text.old.items ++ slashed (names_of path.now)) }
{
    let mut rest = path;
    while let Some((name, after)) = split_name(rest) {
        text.push(b'/')?;
        text.extend_from_slice(name)?;
        rest = after;
    }
    Ok(())
}

/// The names of a path's text, the first first.
pub(crate) fn split_names(alloc: Global, path: &[u8]) -> Result<Vec<&[u8]>, AllocError>
    ensures { IfOk result (λ names. map (λ name. name.now) names.items ≡ names_of path.now) }
{
    let mut names = Vec::new(alloc);
    let mut rest = path;
    while let Some((name, after)) = split_name(rest) {
        names.push(name)?;
        rest = after;
    }
    Ok(names)
}

// The first name of a path's text, and the text behind it.
fn split_name(text: &[u8]) -> Option<(&[u8], &[u8])>
    ensures { MatchOption result (names_of text.now ≡ []) (λ found. names_of text.now ≡ found.0.now ∷ names_of found.1.now) }
{
    let (_, text) = split_while(ByteSet::Only(b'/'), text);
    let (name, rest) = split_while(ByteSet::AllBut(b'/'), text);
    if name.is_empty() {
        None
    } else {
        Some((name, rest))
    }
}

/// Whether a path's text has no more and no longer names than a path of a grant may have.
pub(crate) fn has_few_short_names(text: &[u8]) -> bool
    ensures { result ≡ are_few_and_short (names_of text.now) }
{
    let mut rest = text;
    for _ in 0..MAX_NAMES {
        let Some((name, after)) = split_name(rest) else {
            return true;
        };
        if name.len() > MAX_NAME {
            return false;
        }
        rest = after;
    }
    split_name(rest).is_none()
}
