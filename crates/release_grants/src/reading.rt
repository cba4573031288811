//! Reading of whole grant texts, as a release reads them.
ghost use Rattle.std.specs.Prelude.{◌≡◌, ◌-◌, ◌∷◌, [], length, codes, option_map, option_copied, option_and_then, IfOk};
ghost use Rattle.capspec.specs.Words.{rest_while};
ghost use Rattle.release_grants.specs.Texts.{behind, behind_white};
ghost use Rattle.release_grants.specs.Items.{flags_at};
ghost use Rattle.release_grants.specs.Reading.{behind_separator, gids_if, grant_at, items_at, more_grants, next_grant, plain_allow, read_of, uid_if, whole};

use crate::bytes::{begins, behind, behind_white, rest_while};
use crate::flags::Flags;
use crate::grant::{GidList, Grant, Grants};
use crate::items::{
    flags_at, fsname_at, gids_at, network_at, owned, path_at, root_squash_at, uid_at,
};
use crate::switches::Switches;
use byte_sets::ByteSet;
use std::alloc::{AllocError, Global};

/// A text that a release does not read.
#[derive(Clone, Copy)]
pub struct Unread {
    /// How many bytes stand before the first that it can make nothing of; white space before that is passed over.
    pub at: usize,
}

/// Reads a text as the MDS of a release does: its grants, or the place up to which it makes sense. There is no limit but memory's.
///
/// Only memory can be missing besides, for the grants and what they say.
pub fn read_grants(
    alloc: Global,
    text: &[u8],
    switches: Switches,
) -> Result<Result<Grants, Unread>, AllocError>
    ensures { IfOk result (λ read. read ≡ read_of switches text.now) }
{
    if text == b"allow".as_slice() {
        return Ok(Ok(one_grant(alloc, plain_allow(alloc))?));
    }
    let start = rest_while(ByteSet::AnyWhite, text);
    match grant_at(alloc, switches, start)? {
        Some((first, rest)) => read_behind(alloc, switches, text, first, rest),
        None => Ok(Err(unread_from(text, start))),
    }
}

// The first grant and those that follow, if nothing else does.
fn read_behind(
    alloc: Global,
    switches: Switches,
    text: &[u8],
    first: Grant,
    rest: &[u8],
) -> Result<Result<Grants, Unread>, AllocError>
    ensures { IfOk result (λ read. read ≡ whole text.now (more_grants switches (length rest.now) (first ∷ []) rest.now)) }
{
    let (grants, behind) = grants_from(alloc, switches, first, rest)?;
    let left = rest_while(ByteSet::AnyWhite, behind);
    if left.is_empty() {
        Ok(Ok(grants))
    } else {
        Ok(Err(unread_from(text, left)))
    }
}

// The place of what is left of a text.
fn unread_from(text: &[u8], left: &[u8]) -> Unread
    ensures { result ≡ record { at = length text.now - length left.now } }
{
    Unread {
        at: text.len().saturating_sub(left.len()),
    }
}

// The grant that the text `allow` is.
fn plain_allow(alloc: Global) -> Grant
    ensures { result ≡ plain_allow }
{
    let flags = Flags {
        all: false,
        w: true,
        f: false,
        p: true,
        s: true,
    };
    Grant {
        flags,
        fsname: None,
        path: None,
        root_squash: false,
        uid: None,
        gids: GidList::new(alloc),
        network: None,
    }
}

// A list of one grant.
fn one_grant(alloc: Global, grant: Grant) -> Result<Grants, AllocError>
    ensures { IfOk result (λ grants. grants ≡ grant ∷ []) }
{
    let mut grants = Grants::new(alloc);
    grants.push(grant)?;
    Ok(grants)
}

// The first grant and those that follow, with a separator before each.
#[tactic(auto, using(crate::proofs::Loops::grant_steps))]
fn grants_from(
    alloc: Global,
    switches: Switches,
    first: Grant,
    text: &[u8],
) -> Result<(Grants, &[u8]), AllocError>
    ensures { IfOk result (λ found. (found.0, found.1.now) ≡ more_grants switches (length text.now) (first ∷ []) text.now) }
{
    let mut grants = one_grant(alloc, first)?;
    let mut rest = text;
    let mut count = text.len();
    while count > 0 {
        let Some((grant, behind)) = next_grant(alloc, switches, rest)? else {
            return Ok((grants, rest));
        };
        grants.push(grant)?;
        rest = behind;
        count -= 1;
    }
    Ok((grants, rest))
}

// A separator and a grant.
fn next_grant(
    alloc: Global,
    switches: Switches,
    text: &[u8],
) -> Result<Option<(Grant, &[u8])>, AllocError>
    ensures { IfOk result (λ found. option_map (λ next. (next.0, next.1.now)) found ≡ next_grant switches text.now) }
{
    match behind_separator(text) {
        Some(rest) => grant_at(alloc, switches, rest),
        None => Ok(None),
    }
}

// What follows a comma or a semicolon with spaces round it.
fn behind_separator(text: &[u8]) -> Option<&[u8]>
    ensures { option_copied result ≡ behind_separator text.now }
{
    match rest_while(ByteSet::Only(b' '), text) {
        [b',' | b';', rest @ ..] => Some(rest_while(ByteSet::Only(b' '), rest)),
        _ => None,
    }
}

// One grant, and what follows it.
fn grant_at(
    alloc: Global,
    switches: Switches,
    text: &[u8],
) -> Result<Option<(Grant, &[u8])>, AllocError>
    ensures { IfOk result (λ found. option_map (λ grant. (grant.0, grant.1.now)) found ≡ grant_at switches text.now) }
{
    match allowed_flags_at(text) {
        Some((flags, rest)) => Ok(Some(items_at(alloc, switches, flags, rest)?)),
        None => Ok(None),
    }
}

// The flags behind `allow`.
fn allowed_flags_at(text: &[u8]) -> Option<(Flags, &[u8])>
    ensures { option_map (λ found. (found.0, found.1.now)) result ≡ option_and_then (λ rest. option_and_then flags_at (behind_white rest)) (behind (codes "allow") text.now) }
{
    flags_at(behind_white(behind(b"allow", text)?)?)
}

// The items of a grant, each of which may be missing.
#[tactic(auto, using(crate::proofs::Loops::items_are))]
fn items_at(
    alloc: Global,
    switches: Switches,
    flags: Flags,
    text: &[u8],
) -> Result<(Grant, &[u8]), AllocError>
    ensures { IfOk result (λ found. (found.0, found.1.now) ≡ items_at switches flags text.now) }
{
    let (fsname, text) = owned(alloc, fsname_at(text), text)?;
    let (path, text) = owned(alloc, path_at(text), text)?;
    let (root_squash, text) = root_squash_at(text);
    let takes_uid = !switches.has_two_orders || (fsname.is_none() && !root_squash);
    let (uid, text) = uid_if(takes_uid, text);
    let takes_gids = !switches.has_two_orders || uid.is_some();
    let (gids, text) = gids_if(alloc, takes_gids, text)?;
    let (network, rest) = owned(alloc, network_at(text), text)?;
    let grant = Grant {
        flags,
        fsname,
        path,
        root_squash,
        uid,
        gids,
        network,
    };
    Ok((grant, rest))
}

// The uid, where one may stand.
fn uid_if(may: bool, text: &[u8]) -> (Option<u32>, &[u8])
    ensures { (result.0, result.1.now) ≡ uid_if may text.now }
{
    if !may {
        return (None, text);
    }
    match uid_at(text) {
        Some((uid, rest)) => (Some(uid), rest),
        None => (None, text),
    }
}

// The gids, where they may stand.
fn gids_if(alloc: Global, may: bool, text: &[u8]) -> Result<(GidList, &[u8]), AllocError>
    ensures { IfOk result (λ found. (found.0, found.1.now) ≡ gids_if may text.now) }
{
    if may {
        gids_at(alloc, text)
    } else {
        Ok((GidList::new(alloc), text))
    }
}
