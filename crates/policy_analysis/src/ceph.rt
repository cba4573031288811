//! Whether Ceph 16 reads what a grant says.

ghost use Rattle.std.specs.Prelude.{IsTrue, ◌↔◌};
ghost use Rattle.policy_analysis.specs.Linting.{HasCephText};

use capspec::Grant;

/// Whether some order of the grant's items is one that Ceph 16 reads: it takes a file system or root_squash, or else a user.
pub(crate) fn has_ceph_text(grant: &Grant) -> bool
    ensures { IsTrue result ↔ HasCephText grant.now }
{
    match grant.uid {
        Some(_) => grant.fsname.is_none() && !grant.root_squash,
        None => grant.gids.as_slice().is_empty(),
    }
}
