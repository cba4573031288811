//! The form of a text of grants that a release reads.
ghost use Rattle.std.specs.Prelude.{◌≡◌, IfOk, map, position};
ghost use Rattle.release_grants.specs.Written.{IsForm, IsInOrder, IsReordered, as_there, has_none, path_if};

use crate::flags::Flags;
use crate::grant::{GidList, Grant, Grants, Text};
use crate::reading::{Unread, read_grants};
use crate::switches::Switches;
use crate::writing::write_grants;
use capspec::{FsName, SpecFaultKind};
use std::alloc::{AllocError, Global};

/// Why a text of grants has no form that a release reads.
#[derive(Clone, Copy)]
pub enum NoForm {
    /// The release does not read the text, and this server does neither.
    NotRead(Unread),
    /// The grant of this number, from 1, has items that the release does not read side by side.
    OfGrant(usize),
}

/// The form of a text of grants that a release reads: of the grants that it reads in the text, or where it reads none, of those that this server
/// does, with the items in the order of Ceph. Only memory can be missing besides.
pub fn mds_form(
    alloc: Global,
    text: &[u8],
    switches: Switches,
) -> Result<Result<Vec<u8>, NoForm>, AllocError>
    ensures { IfOk result (IsForm switches text.now) }
{
    match read_grants(alloc, text, switches)? {
        Ok(grants) => Ok(Ok(write_grants(alloc, grants.as_slice())?)),
        Err(unread) => reordered(alloc, text, switches, unread),
    }
}

// The form of what this server reads in a text.
fn reordered(
    alloc: Global,
    text: &[u8],
    switches: Switches,
    unread: Unread,
) -> Result<Result<Vec<u8>, NoForm>, AllocError>
    ensures { IfOk result (IsReordered switches text.now unread) }
{
    match capspec::read_grants(alloc, text) {
        Ok(grants) => in_order(alloc, switches, grants.as_slice()),
        Err(fault) => match fault.kind {
            SpecFaultKind::NoMemory => Err(AllocError),
            _ => Ok(Err(NoForm::NotRead(unread))),
        },
    }
}

// The form of grants that this server read, or the first that has none.
fn in_order(
    alloc: Global,
    switches: Switches,
    grants: &[capspec::Grant],
) -> Result<Result<Vec<u8>, NoForm>, AllocError>
    ensures { IfOk result (IsInOrder switches grants.now) }
{
    if let Some(place) = first_without(switches, grants) {
        return Ok(Err(NoForm::OfGrant(place + 1)));
    }
    let there = all_there(alloc, grants)?;
    let form = write_grants(alloc, there.as_slice())?;
    match read_grants(alloc, form.as_slice(), switches)? {
        Ok(_) => Ok(Ok(form)),
        Err(unread) => Ok(Err(NoForm::NotRead(unread))),
    }
}

// The place of the first grant that has no form.
fn first_without(switches: Switches, grants: &[capspec::Grant]) -> Option<usize>
    ensures { result ≡ position (has_none switches) grants.now }
{
    grants.iter().position(|grant| has_none(switches, grant))
}

// Whether the grant has items that the release does not read side by side.
fn has_none(switches: Switches, grant: &capspec::Grant) -> bool
    ensures { result ≡ has_none switches grant.now }
{
    switches.has_two_orders && grant.uid.is_some() && (grant.fsname.is_some() || grant.root_squash)
}

// Grants that this server read, as an MDS has them.
fn all_there(alloc: Global, grants: &[capspec::Grant]) -> Result<Grants, AllocError>
    ensures { IfOk result (λ there. there ≡ map as_there grants.now) }
{
    let mut there = Grants::new(alloc);
    for grant in grants {
        there.push(as_there(alloc, grant)?)?;
    }
    Ok(there)
}

fn as_there(alloc: Global, grant: &capspec::Grant) -> Result<Grant, AllocError>
    ensures { IfOk result (λ there. there ≡ as_there grant.now) }
{
    let flags = Flags {
        all: false,
        w: grant.flags.has_w(),
        f: false,
        p: grant.flags.has_p(),
        s: grant.flags.has_s(),
    };
    Ok(Grant {
        flags,
        fsname: name_text(alloc, &grant.fsname)?,
        path: path_if(alloc, grant.path.as_bytes())?,
        root_squash: grant.root_squash,
        uid: grant.uid,
        gids: GidList::of(alloc, grant.gids.as_slice())?,
        network: None,
    })
}

fn name_text(alloc: Global, name: &Option<FsName>) -> Result<Option<Text>, AllocError>
    ensures { IfOk result (λ text. text ≡ name.now) }
{
    match name {
        Some(name) => Ok(Some(Text::of(alloc, name.as_bytes())?)),
        None => Ok(None),
    }
}

// A path without names restricts nothing.
fn path_if(alloc: Global, text: &[u8]) -> Result<Option<Text>, AllocError>
    ensures { IfOk result (λ path. path ≡ path_if text.now) }
{
    if text.is_empty() {
        Ok(None)
    } else {
        Ok(Some(Text::of(alloc, text)?))
    }
}
