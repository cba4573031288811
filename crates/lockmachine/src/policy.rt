//! What policy reads, and what the grants of a client say of an access.
ghost use Rattle.std.specs.Prelude.{◌≡◌, []};
ghost use Rattle.capgrant.specs.Verdict.{IfDenied, is_allowed};
ghost use Rattle.capgrant.specs.declared.answer.Verdict.TheVariants as verdict_kind;
ghost use Rattle.lockmachine.specs.Policy.{failures, is_granted};

use arrayvec::ArrayVec;
use capgrant::{Access, Rules, Verdict, verdict};
use capspec::FsName;
use captable::Holder;
use inotree::{Names, Tree};
use sessiontab::Sessions;

/// What decides what clients are permitted: the name of the file system, the tree, and the sessions with their grants.
#[derive(Clone, Copy)]
pub struct Policy<'a> {
    pub fs: &'a FsName,
    pub tree: &'a Tree,
    pub sessions: &'a Sessions,
}

/// What the client's grants say of an access to an inode. Without a session or a path no grant allows it.
pub fn verdict_on(
    fs: &FsName,
    tree: &Tree,
    sessions: &Sessions,
    holder: Holder,
    access: Access,
) -> Verdict
    ensures allowed { is_allowed result ≡ is_granted fs.now tree.now sessions.now holder access }
    ensures rules { IfDenied result (λ rules. rules ≡ failures fs.now tree.now sessions.now holder access) }
{
    let (client, ino) = (holder.client, holder.ino);
    let Some(session) = sessions.session(client) else {
        return no_grant();
    };
    let mut names = Names::new();
    let path = tree.read_path(ino, &mut names).then_some(&names);
    let (Some(path), Some(node)) = (path, tree.node(ino)) else {
        return no_grant();
    };
    let (grants, caller) = (session.grants.grants(), &session.caller);
    verdict(grants, fs, caller, path.as_slice(), &node.attr, access)
}

// The verdict of no grant.
fn no_grant() -> Verdict
    ensures { result ≡ verdict_kind.Denied [] }
{
    Verdict::Denied {
        rules: Rules::from(ArrayVec::new()),
    }
}
