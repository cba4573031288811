//! Which path each inode has.

ghost use Rattle.std.specs.Prelude.{◌≡◌, Some, None, IfOk, if◌then◌else◌};
ghost use Rattle.serde_json.specs.View.{items_view, view};
ghost use Rattle.ceph_input.specs.Dump.{is_below_root, is_of_head, is_primary, root_alone, with_dentries, with_dentry, with_directory, with_fragment};
ghost use Rattle.ceph_input.specs.Dump.{with_fragments};

use crate::values::{items_at, number_at, text_at};
use capbits::Numbered;
use capspec::TreePath;
use serde_json::Value;
use std::alloc::{AllocError, Global};

// What stands at `snap_last` of a dentry of today.
const HEAD: u64 = 0xFFFF_FFFF_FFFF_FFFE;

// The path of the root, which no dentry leads to.
pub(crate) fn root_alone(alloc: Global) -> Result<Numbered<TreePath>, AllocError>
    ensures { IfOk result (λ paths. paths ≡ root_alone) }
{
    let mut paths = Numbered::new(alloc);
    paths.insert(1, TreePath::from_text(alloc, b"")?)?;
    Ok(paths)
}

// Adds the paths that the directory leads to which an inode is. False where something in it is none, and then some may be added.
pub(crate) fn add_directory(
    alloc: Global,
    paths: &mut Numbered<TreePath>,
    inode: &Value,
) -> Result<bool, AllocError>
    ensures { IfOk result (λ good. with_directory paths.old (view inode.now) ≡ (if good then Some paths.new else None)) }
{
    let Some(fragments) = items_at(inode, "dirfrags") else {
        return Ok(false);
    };
    for fragment in fragments {
        if !add_fragment(alloc, paths, fragment)? {
            return Ok(false);
        }
    }
    Ok(true)
}

// Adds the paths to which a fragment of a directory leads. False where something in it is none, and then some may be added.
fn add_fragment(
    alloc: Global,
    paths: &mut Numbered<TreePath>,
    fragment: &Value,
) -> Result<bool, AllocError>
    ensures { IfOk result (λ good. with_fragment paths.old (view fragment.now) ≡ (if good then Some paths.new else None)) }
{
    let Some(dentries) = items_at(fragment, "dentries") else {
        return Ok(false);
    };
    for dentry in dentries {
        if !add_dentry(alloc, paths, dentry)? {
            return Ok(false);
        }
    }
    Ok(true)
}

// Adds the path to which a dentry leads, if an inode is at home there. False where the dentry is none.
fn add_dentry(
    alloc: Global,
    paths: &mut Numbered<TreePath>,
    dentry: &Value,
) -> Result<bool, AllocError>
    ensures { IfOk result (λ good. with_dentry paths.old (view dentry.now) ≡ (if good then Some paths.new else None)) }
{
    if !(is_primary(dentry) && is_below_root(dentry) && is_of_head(dentry)) {
        return Ok(true);
    }
    let Some(number) = number_at(dentry, "inode") else {
        return Ok(false);
    };
    let Some(path) = text_at(dentry, "path") else {
        return Ok(false);
    };
    paths.insert(number, TreePath::from_text(alloc, path.as_bytes())?)?;
    Ok(true)
}

// Whether an inode is at home at the dentry.
fn is_primary(dentry: &Value) -> bool
    ensures { result ≡ is_primary (view dentry.now) }
{
    dentry
        .get("is_primary")
        .and_then(Value::as_bool)
        .unwrap_or(false)
}

// Whether its path begins at the root.
fn is_below_root(dentry: &Value) -> bool
    ensures { result ≡ is_below_root (view dentry.now) }
{
    number_at(dentry, "path_ino").unwrap_or(1) == 1
}

// Whether it stands in the tree of today, and not in a snapshot alone.
fn is_of_head(dentry: &Value) -> bool
    ensures { result ≡ is_of_head (view dentry.now) }
{
    number_at(dentry, "snap_last").unwrap_or(HEAD) == HEAD
}
