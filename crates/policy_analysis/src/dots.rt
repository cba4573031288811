//! Paths that no inode has.

ghost use Rattle.std.specs.Prelude.{◌≡◌, IsTrue, IsFalse, IfOk, map};
ghost use Rattle.policy_analysis.specs.Linting.{AllowsNothing, AllowsReading, has_dots, is_dots};

use capspec::{Grant, TreePath};
use std::alloc::{AllocError, Global};

/// Whether the grant allows nothing, as no inode has its path. Any other grant allows somebody to read.
pub(crate) fn allows_nothing(alloc: Global, grant: &Grant) -> Result<bool, AllocError>
    ensures nothing { IfOk result (λ found. IsTrue found → AllowsNothing grant.now) }
    ensures something { IfOk result (λ found. IsFalse found → AllowsReading grant.now) }
{
    has_dots(alloc, &grant.path)
}

// Whether a name of the path is `.` or `..`.
fn has_dots(alloc: Global, path: &TreePath) -> Result<bool, AllocError>
    ensures { IfOk result (λ has. has ≡ has_dots path.now) }
{
    let names = path.names(alloc)?;
    Ok(is_one_dots(names.as_slice()))
}

/// Whether one of the names is `.` or `..`, which no inode has.
pub(crate) fn is_one_dots(names: &[&[u8]]) -> bool
    ensures { result ≡ has_dots (map (λ name. name.now) names.now) }
{
    for name in names {
        if is_dots(name) {
            return true;
        }
    }
    false
}

fn is_dots(name: &[u8]) -> bool
    ensures { result ≡ is_dots name.now }
{
    matches!(name, b"." | b"..")
}
