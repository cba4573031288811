//! The view: what of the server readers see.
ghost use Rattle.std.specs.Prelude.{◌≡◌, IfOk, OnOk, OnErr};
ghost use Rattle.policy_view.specs.Changes.{view_by};

use crate::change::ViewChange;
use crate::follow::{follow_session, follow_tree};
use inotree::Tree;
use sessiontab::{Connected, Sessions};
use std::alloc::AllocError;

/// What readers see of a server: its inodes, and who is connected. What else the tree and the sessions keep (sizes, times,
/// attributes, snapshots, whether a session is stale) is that of the moment when they were copied, and grows old.
#[derive(Debug)]
pub struct View {
    /// The inodes.
    pub tree: Tree,
    /// Who is connected, for which user, and with which grants.
    pub sessions: Connected,
}

// Not derived: so the proof of a function that drops one has a single call there.
impl Drop for View {
    fn drop(self) {
        let View {
            tree: _,
            sessions: _,
        } = self;
    }
}

impl View {
    /// The view of this tree and of these sessions.
    pub fn of(tree: &Tree, sessions: &Sessions) -> Result<View, AllocError>
        ensures { IfOk result (λ view. view ≡ record { tree = tree.now; sessions = sessions.now.sessions }) }
    {
        made(tree, sessions.connected())
    }

    /// A copy of the view.
    pub fn copy(&self) -> Result<View, AllocError>
        ensures { IfOk result (λ copy. copy ≡ self.now) }
    {
        made(&self.tree, &self.sessions)
    }

    /// Makes the change. An error means that memory ran out, or that the view is none that the change can be made of, as
    /// where an inode is forgotten that is no stray: then nothing changes.
    pub fn follow(&mut self, change: &ViewChange) -> Result<(), AllocError>
        ensures ok { OnOk result (self.new ≡ view_by self.old change.now) }
        ensures err { OnErr result (self.new ≡ self.old) }
    {
        match change {
            ViewChange::Born { .. }
            | ViewChange::Moved { .. }
            | ViewChange::Removed { .. }
            | ViewChange::Forgotten { .. }
            | ViewChange::Settled { .. } => follow_tree(&mut self.tree, change),
            ViewChange::Opened { .. } | ViewChange::Ended { .. } | ViewChange::Regranted { .. } =>
                follow_session(&mut self.sessions, change),
        }
    }
}

// A view of copies.
fn made(tree: &Tree, sessions: &Connected) -> Result<View, AllocError>
    ensures { IfOk result (λ view. view ≡ record { tree = tree.now; sessions = sessions.now }) }
{
    let tree = tree.copy()?;
    let sessions = sessions.copy()?;
    Ok(View { tree, sessions })
}
