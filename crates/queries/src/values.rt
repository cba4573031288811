//! The values that a check has for a question.
ghost use Rattle.std.specs.Prelude.{◌≡◌, None, OnOk, option_map};
ghost use Rattle.queries.specs.Before.{given_texts_of};
ghost use Rattle.queries.specs.Checks.{texts_of};
ghost use Rattle.queries.specs.Reported.{AreValues, path_or_root};

use crate::before::Given;
use crate::check::Check;
use crate::question::Values;
use std::alloc::{AllocError, Global};

/// No values: they are there to be filled.
pub fn no_values(alloc: Global) -> Values
    ensures groups { result.groups ≡ None }
    ensures addr { result.addr ≡ None }
{
    Values {
        grants: Vec::new(alloc),
        fs: Vec::new(alloc),
        uid: Vec::new(alloc),
        gid: Vec::new(alloc),
        groups: None,
        path: Vec::new(alloc),
        owner: Vec::new(alloc),
        group: Vec::new(alloc),
        mode: Vec::new(alloc),
        access: Vec::new(alloc),
        addr: None,
    }
}

/// Puts the parts of a check in the place of the values, with what is given beside it, and to read for the access; at the root where no path is
/// known. Only memory can be missing.
pub fn fill(values: &mut Values, given: &Given<'_>, check: &Check<'_>) -> Result<(), AllocError>
    requires groups { values.old.groups ≡ None }
    requires addr { values.old.addr ≡ None }
    ensures { OnOk result (AreValues (given_texts_of given.now) (path_or_root (given_texts_of given.now).path) (texts_of check.now) values.new) }
{
    put(&mut values.grants, check.grants)?;
    put(&mut values.fs, given.fs)?;
    put(&mut values.uid, check.uid)?;
    put(&mut values.gid, check.gid)?;
    put(&mut values.path, path_or_root(given.path))?;
    put(&mut values.owner, check.inode.owner)?;
    put(&mut values.group, check.inode.group)?;
    put(&mut values.mode, check.inode.mode)?;
    put(&mut values.access, b"read")?;
    put_groups(&mut values.groups, *values.grants.allocator(), given.groups)
}

// The root, where no path is known.
fn path_or_root(path: Option<&[u8]>) -> &[u8]
    ensures { result.now ≡ path_or_root (option_map (λ path. path.now) path.entry) }
{
    match path {
        Some(path) => path,
        None => b"/",
    }
}

// Puts the groups in the place of none, where there are some.
fn put_groups(
    groups: &mut Option<Vec<u8>>,
    alloc: Global,
    given: Option<&[u8]>,
) -> Result<(), AllocError>
    requires { groups.old ≡ None }
    ensures { OnOk result (option_map (λ groups. groups.items) groups.new ≡ option_map (λ groups. groups.now) given.entry) }
{
    let Some(text) = given else {
        return Ok(());
    };
    *groups = Some(Vec::from_slice(alloc, text)?);
    Ok(())
}

// Puts bytes in the place of others.
fn put(text: &mut Vec<u8>, bytes: &[u8]) -> Result<(), AllocError>
    ensures { OnOk result (text.new.items ≡ bytes.now) }
{
    text.clear();
    text.extend_from_slice(bytes)
}
