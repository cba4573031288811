//! The flags and the items at the front of a grant text.
ghost use Rattle.std.specs.Prelude.{◌≡◌, false, option_map, IfOk};
ghost use Rattle.release_grants.specs.Texts.{number_at, or_none};
ghost use Rattle.release_grants.specs.Items.{flags_at, fsname_at, gids_at, letter_at, letters_at, network_at, next_number, numbers_of, path_at, path_value_at};
ghost use Rattle.release_grants.specs.Items.{quoted_at, root_squash_at, uid_at};

use crate::bytes::{behind, behind_white, behind_word, number_at, some_while, split_while};
use crate::flags::Flags;
use crate::grant::{GidList, Text};
use byte_sets::ByteSet;
use std::alloc::{AllocError, Global};

// ---- flags

/// The flags, and what follows them.
pub(crate) fn flags_at(text: &[u8]) -> Option<(Flags, &[u8])>
    ensures { option_map (λ found. (found.0, found.1.now)) result ≡ flags_at text.now }
{
    if let Some(rest) = behind(b"*", text) {
        return Some((flags(true, false), rest));
    }
    if let Some(rest) = behind(b"all", text) {
        return Some((flags(true, false), rest));
    }
    if let Some(rest) = behind(b"rw", text) {
        return Some(letters_at(rest));
    }
    let rest = behind(b"r", text)?;
    Some((flags(false, false), rest))
}

// Flags without letters behind `rw`.
fn flags(all: bool, w: bool) -> Flags
    ensures { result ≡ record { all = all; w = w; f = false; p = false; s = false } }
{
    Flags {
        all,
        w,
        f: false,
        p: false,
        s: false,
    }
}

// The letters behind `rw`.
fn letters_at(text: &[u8]) -> (Flags, &[u8])
    ensures { (result.0, result.1.now) ≡ letters_at text.now }
{
    let (f, text) = letter_at(b'f', text);
    let (p, text) = letter_at(b'p', text);
    let (s, rest) = letter_at(b's', text);
    let flags = Flags {
        all: false,
        w: true,
        f,
        p,
        s,
    };
    (flags, rest)
}

fn letter_at(letter: u8, text: &[u8]) -> (bool, &[u8])
    ensures { (result.0, result.1.now) ≡ letter_at letter text.now }
{
    match text {
        [first, rest @ ..] if *first == letter => (true, rest),
        _ => (false, text),
    }
}

// ---- items, each behind white space

/// The name of the file system.
pub(crate) fn fsname_at(text: &[u8]) -> Option<(&[u8], &[u8])>
    ensures { option_map (λ found. (found.0.now, found.1.now)) result ≡ fsname_at text.now }
{
    some_while(ByteSet::FsName, behind_word(b"fsname=", text)?)
}

/// The path, without its quotes.
pub(crate) fn path_at(text: &[u8]) -> Option<(&[u8], &[u8])>
    ensures { option_map (λ found. (found.0.now, found.1.now)) result ≡ path_at text.now }
{
    path_value_at(behind_word(b"path=", text)?)
}

fn path_value_at(text: &[u8]) -> Option<(&[u8], &[u8])>
    ensures { option_map (λ found. (found.0.now, found.1.now)) result ≡ path_value_at text.now }
{
    if let Some(found) = quoted_at(b'"', text) {
        return Some(found);
    }
    if let Some(found) = quoted_at(b'\'', text) {
        return Some(found);
    }
    some_while(ByteSet::BarePath, text)
}

// A path between two of one quote.
fn quoted_at(quote: u8, text: &[u8]) -> Option<(&[u8], &[u8])>
    ensures { option_map (λ found. (found.0.now, found.1.now)) result ≡ quoted_at quote text.now }
{
    let inside = behind(&[quote], text)?;
    let (path, closing) = split_while(ByteSet::AllBut(quote), inside);
    let (_, rest) = closing.split_first()?;
    Some((path, rest))
}

/// Whether the grant squashes root.
pub(crate) fn root_squash_at(text: &[u8]) -> (bool, &[u8])
    ensures { (result.0, result.1.now) ≡ root_squash_at text.now }
{
    match behind_word(b"root_squash", text) {
        Some(rest) => (true, rest),
        None => (false, text),
    }
}

/// The uid.
pub(crate) fn uid_at(text: &[u8]) -> Option<(u32, &[u8])>
    ensures { option_map (λ found. (found.0, found.1.now)) result ≡ uid_at text.now }
{
    number_at(behind_word(b"uid=", text)?)
}

/// The gids, none where the item is missing.
pub(crate) fn gids_at(alloc: Global, text: &[u8]) -> Result<(GidList, &[u8]), AllocError>
    ensures { IfOk result (λ found. (found.0, found.1.now) ≡ gids_at text.now) }
{
    match first_gid_at(text) {
        Some((first, rest)) => numbers_from(alloc, first, rest),
        None => Ok((GidList::new(alloc), text)),
    }
}

// The first of the gids.
fn first_gid_at(text: &[u8]) -> Option<(u32, &[u8])>
    ensures { numbers_of (option_map (λ found. (found.0, found.1.now)) result) text.now ≡ gids_at text.now }
{
    number_at(behind_word(b"gids=", text)?)
}

// The first number and those that follow.
#[tactic(auto, using(crate::proofs::Loops::number_steps))]
fn numbers_from(alloc: Global, first: u32, text: &[u8]) -> Result<(GidList, &[u8]), AllocError>
    ensures { IfOk result (λ found. (found.0, found.1.now) ≡ numbers_of (Some (first, text.now)) text.now) }
{
    let mut gids = GidList::new(alloc);
    gids.push(first)?;
    let mut rest = text;
    let mut count = text.len();
    while count > 0 {
        let Some((gid, behind)) = next_number(rest) else {
            return Ok((gids, rest));
        };
        gids.push(gid)?;
        rest = behind;
        count -= 1;
    }
    Ok((gids, rest))
}

// A comma and a number.
fn next_number(text: &[u8]) -> Option<(u32, &[u8])>
    ensures { option_map (λ found. (found.0, found.1.now)) result ≡ next_number text.now }
{
    number_at(behind(b",", text)?)
}

/// The network.
pub(crate) fn network_at(text: &[u8]) -> Option<(&[u8], &[u8])>
    ensures { option_map (λ found. (found.0.now, found.1.now)) result ≡ network_at text.now }
{
    some_while(
        ByteSet::Network,
        behind_white(behind_word(b"network", text)?)?,
    )
}

/// What was found, in memory of its own, and what is left of the text.
pub(crate) fn owned<'a>(
    alloc: Global,
    found: Option<(&'a [u8], &'a [u8])>,
    text: &'a [u8],
) -> Result<(Option<Text>, &'a [u8]), AllocError>
    ensures { IfOk result (λ owned. (owned.0, owned.1.now) ≡ or_none (option_map (λ found. (found.0.now, found.1.now)) found.entry) text.now) }
{
    match found {
        Some((value, rest)) => Ok((Some(Text::of(alloc, value)?), rest)),
        None => Ok((None, text)),
    }
}
