//! Writing grants: the one text that they have.

ghost use Rattle.std.specs.Prelude.{◌≡◌, ◌≢◌, ◌++◌, [], List, IfOk, IfSome, OnOk, codes};
ghost use Rattle.std.specs.Fmt.{decimal};
ghost use Rattle.std.specs.List.{join_by};
ghost use Rattle.capspec.specs.Grants.{Reads};
ghost use Rattle.capspec.specs.Written.{fsname_text, gids_text, grant_text, root_squash_text, uid_text, written};
ghost use Rattle.capspec.specs.declared.grant.Grant.{Grant};

use crate::fsname::FsName;
use crate::grant::{Grant, Grants};
use crate::path::write_path;
use std::alloc::{AllocError, Global};
use std::io::Write;

/// Writes grants in the one form that they have: joined by a comma and a space, each as `allow`, its flags, and of
/// `fsname`, `path`, `uid`, `gids` and `root_squash` what it has, in this order. No grants are written as no bytes.
///
/// Only memory can be missing. Ceph takes the items in any order ("CephFS Client Capabilities" in its documentation).
/// The order here, the quotes round a path and the space behind a comma are this project's.
pub fn write_grants(alloc: Global, grants: &Grants) -> Result<Vec<u8>, AllocError>
    ensures form { IfOk result (λ text. text.items ≡ written grants.now) }
    // It reads as these grants.
    ensures reads { IfOk result (λ text. grants.now ≢ [] → Reads text.items grants.now) }
    // It reads as no others. So the text of no grants does not read at all.
    ensures only { IfOk result (λ text. (others : List Grant) → Reads text.items others → others ≡ grants.now) }
{
    let mut text = Vec::new(alloc);
    for (place, grant) in grants.as_slice().iter().enumerate() {
        if place > 0 {
            text.extend_from_slice(b", ")?;
        }
        write_grant(&mut text, grant)?;
    }
    Ok(text)
}

// Appends a grant.
fn write_grant(text: &mut Vec<u8>, grant: &Grant) -> Result<(), AllocError>
    ensures { OnOk result (text.new.items ≡ text.old.items ++ grant_text grant.now) }
{
    text.extend_from_slice(b"allow ")?;
    text.extend_from_slice(grant.flags.text())?;
    write_fsname(text, &grant.fsname)?;
    write_path(text, &grant.path)?;
    write_uid(text, grant.uid)?;
    write_gids(text, grant.gids.as_slice())?;
    write_root_squash(text, grant.root_squash)
}

// Each of these appends an item behind a space, or nothing where the grant does not have it.

fn write_fsname(text: &mut Vec<u8>, fsname: &Option<FsName>) -> Result<(), AllocError>
    ensures { OnOk result (text.new.items ≡ text.old.items ++ fsname_text fsname.now) }
{
    if let Some(name) = fsname {
        text.extend_from_slice(b" fsname=")?;
        text.extend_from_slice(name.as_bytes())?;
    }
    Ok(())
}

fn write_uid(text: &mut Vec<u8>, uid: Option<u32>) -> Result<(), AllocError>
    ensures { OnOk result (text.new.items ≡ text.old.items ++ uid_text uid) }
{
    if let Some(uid) = uid {
        text.extend_from_slice(b" uid=")?;
        write_number(text, uid)?;
    }
    Ok(())
}

fn write_gids(text: &mut Vec<u8>, gids: &[u32]) -> Result<(), AllocError>
    ensures { OnOk result (text.new.items ≡ text.old.items ++ gids_text gids.now) }
{
    if gids.is_empty() {
        return Ok(());
    }
    text.extend_from_slice(b" gids=")?;
    for (place, gid) in gids.iter().enumerate() {
        if place > 0 {
            text.push(b',')?;
        }
        write_number(text, *gid)?;
    }
    Ok(())
}

fn write_root_squash(text: &mut Vec<u8>, root_squash: bool) -> Result<(), AllocError>
    ensures { OnOk result (text.new.items ≡ text.old.items ++ root_squash_text root_squash) }
{
    if root_squash {
        text.extend_from_slice(b" root_squash")?;
    }
    Ok(())
}

// Appends a number in decimal, without leading zeros. Only memory can be missing.
fn write_number(text: &mut Vec<u8>, number: u32) -> Result<(), AllocError>
    ensures { OnOk result (text.new.items ≡ text.old.items ++ decimal number) }
{
    text.write_fmt(format_args!("{number}"))
        .map_err(|_| AllocError)
}
