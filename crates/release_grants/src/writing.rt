//! Writing of grants, for a release to read.
ghost use Rattle.std.specs.Prelude.{◌≡◌, ◌++◌, IfOk, OnOk};
ghost use Rattle.capspec.specs.Written.{gids_text, uid_text};
ghost use Rattle.release_grants.specs.Written.{flags_text, is_bare, item_text, mds_grant_text, mds_written, path_item, path_value, quote_for, word_if};

use crate::bytes::rest_while;
use crate::flags::Flags;
use crate::grant::{Grant, Text};
use byte_sets::ByteSet;
use capbits::{print_number, print_numbered, print_str};
use std::alloc::{AllocError, Global};

/// Writes grants so that a release reads them: joined by a comma and a space, each as `allow`, its flags, and of `fsname`, `path`,
/// `root_squash`, `uid`, `gids` and `network` what it has, in this order. Only memory can be missing.
pub(crate) fn write_grants(alloc: Global, grants: &[Grant]) -> Result<Vec<u8>, AllocError>
    ensures { IfOk result (λ text. text.items ≡ mds_written grants.now) }
{
    let mut text = Vec::new(alloc);
    for (place, grant) in grants.iter().enumerate() {
        if place > 0 {
            print_str(&mut text, ", ")?;
        }
        write_grant(&mut text, grant)?;
    }
    Ok(text)
}

// Appends a grant.
fn write_grant(text: &mut Vec<u8>, grant: &Grant) -> Result<(), AllocError>
    ensures { OnOk result (text.new.items ≡ text.old.items ++ mds_grant_text grant.now) }
{
    print_str(text, "allow ")?;
    write_flags(text, grant.flags)?;
    write_item(text, " fsname=", &grant.fsname)?;
    write_path(text, &grant.path)?;
    write_if(text, grant.root_squash, " root_squash")?;
    write_uid(text, grant.uid)?;
    write_gids(text, grant.gids.as_slice())?;
    write_item(text, " network ", &grant.network)
}

fn write_flags(text: &mut Vec<u8>, flags: Flags) -> Result<(), AllocError>
    ensures { OnOk result (text.new.items ≡ text.old.items ++ flags_text flags) }
{
    if flags.all {
        return print_str(text, "*");
    }
    if !flags.w {
        return print_str(text, "r");
    }
    print_str(text, "rw")?;
    write_if(text, flags.f, "f")?;
    write_if(text, flags.p, "p")?;
    write_if(text, flags.s, "s")
}

fn write_if(text: &mut Vec<u8>, condition: bool, word: &str) -> Result<(), AllocError>
    ensures { OnOk result (text.new.items ≡ text.old.items ++ word_if condition word.now) }
{
    if condition {
        print_str(text, word)
    } else {
        Ok(())
    }
}

// Appends an item behind its word, where there is one.
fn write_item(text: &mut Vec<u8>, word: &str, value: &Option<Text>) -> Result<(), AllocError>
    ensures { OnOk result (text.new.items ≡ text.old.items ++ item_text word.now value.now) }
{
    let Some(value) = value else {
        return Ok(());
    };
    print_str(text, word)?;
    text.extend_from_slice(value.as_bytes())
}

fn write_path(text: &mut Vec<u8>, path: &Option<Text>) -> Result<(), AllocError>
    ensures { OnOk result (text.new.items ≡ text.old.items ++ path_item path.now) }
{
    let Some(path) = path else {
        return Ok(());
    };
    print_str(text, " path=")?;
    write_value(text, path.as_bytes())
}

// Appends a path, in quotes where it needs them.
fn write_value(text: &mut Vec<u8>, path: &[u8]) -> Result<(), AllocError>
    ensures { OnOk result (text.new.items ≡ text.old.items ++ path_value path.now) }
{
    if is_bare(path) {
        return text.extend_from_slice(path);
    }
    let quote = quote_for(path);
    print_str(text, quote)?;
    text.extend_from_slice(path)?;
    print_str(text, quote)
}

// Whether a path can stand without quotes.
fn is_bare(path: &[u8]) -> bool
    ensures { result ≡ is_bare path.now }
{
    !path.is_empty() && rest_while(ByteSet::BarePath, path).is_empty()
}

fn quote_for(path: &[u8]) -> &'static str
    ensures { result.now ≡ quote_for path.now }
{
    if rest_while(ByteSet::AllBut(b'"'), path).is_empty() {
        "\""
    } else {
        "'"
    }
}

fn write_uid(text: &mut Vec<u8>, uid: Option<u32>) -> Result<(), AllocError>
    ensures { OnOk result (text.new.items ≡ text.old.items ++ uid_text uid) }
{
    match uid {
        Some(uid) => print_numbered(text, " uid=", u64::from(uid)),
        None => Ok(()),
    }
}

fn write_gids(text: &mut Vec<u8>, gids: &[u32]) -> Result<(), AllocError>
    ensures { OnOk result (text.new.items ≡ text.old.items ++ gids_text gids.now) }
{
    if gids.is_empty() {
        return Ok(());
    }
    print_str(text, " gids=")?;
    for (place, gid) in gids.iter().enumerate() {
        if place > 0 {
            print_str(text, ",")?;
        }
        print_number(text, u64::from(*gid))?;
    }
    Ok(())
}
