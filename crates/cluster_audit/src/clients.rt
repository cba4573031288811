//! Who the clients of a cluster are.
ghost use Rattle.std.specs.Prelude.{◌≡◌, option_map};
ghost use Rattle.cluster_audit.specs.Audited.{session_of};

use crate::fault::HeldFault;
use crate::known::{KnownSession, known_sessions};
use capspec::FsName;
use ceph_input::{AuthList, ClusterFault, Entity, read_auth, read_sessions};
use std::alloc::{AllocError, Global};
use std::marker::Model;

/// The auth list of a cluster, and the sessions of a metadata server.
pub struct ClusterClients {
    auth: AuthList,
    sessions: Vec<KnownSession>,
}

// Not derived: so the proof of a function that drops one has a single call there.
impl Drop for ClusterClients {
    fn drop(self) {
        let ClusterClients {
            auth: _,
            sessions: _,
        } = self;
    }
}

impl Model for ClusterClients {
    ghost use Rattle.cluster_audit.specs.Audited.{Roster, roster};

    ghost Value = { Roster };

    ghost view = { λ c. roster c.auth c.sessions.items };
}

impl ClusterClients {
    ghost use Rattle.std.specs.Prelude.{IfOk, IfErr, find, bytes_eq};
    ghost use Rattle.ceph_input.specs.FsNames.{AreFsNames};
    ghost use Rattle.cluster_audit.specs.Audited.{AreClients, IsFaultOfClients, entity_of, is_unchecked, name_of};

    /// The clients that two texts mean: the auth list, as `ceph auth ls -f json` prints it, and the sessions, as `ceph tell mds.N
    /// session ls` does. Who calls itself `x` is `client.x`, or `mgr.x` where the list has that alone. The fault is that of the first
    /// text that is none.
    pub fn read(alloc: Global, auth: &[u8], sessions: &[u8]) -> Result<ClusterClients, HeldFault>
        ensures ok { IfOk result (AreClients auth.now sessions.now) }
        ensures err { IfErr result (IsFaultOfClients auth.now sessions.now) }
    {
        let auth = read_auth(alloc, auth).map_err(HeldFault::Auth)?;
        let sessions = read_sessions(alloc, sessions).map_err(HeldFault::Sessions)?;
        match known_sessions(alloc, &auth, sessions.as_slice()) {
            Ok(sessions) => Ok(ClusterClients { auth, sessions }),
            Err(AllocError) => Err(HeldFault::Sessions(ClusterFault::NoMemory)),
        }
    }

    /// The names of the file systems that the grants of the auth list name, each once, in their order. Only memory can be missing.
    pub fn fs_names(&self, alloc: Global) -> Result<Vec<FsName>, AllocError>
        ensures { IfOk result (λ names. AreFsNames self.now.entities names.items) }
    {
        self.auth.fs_names(alloc)
    }

    // The sessions, in the order of their text.
    pub(crate) fn sessions(&self) -> &[KnownSession]
        ensures { result.now ≡ self.now.sessions }
    {
        self.sessions.as_slice()
    }

    // The name of the client in the session of this number.
    pub(crate) fn name_of(&self, session: u64) -> Option<&[u8]>
        ensures { option_map (λ name. name.now) result ≡ name_of self.now.sessions session }
    {
        session_of(self.sessions.as_slice(), session)?.client()
    }

    // Whether the client in the session of this number is known not to check by its grants what it changes.
    pub(crate) fn is_unchecked(&self, session: u64) -> bool
        ensures { result ≡ is_unchecked self.now.sessions session }
    {
        match session_of(self.sessions.as_slice(), session) {
            None => false,
            Some(session) => session.is_unchecked(),
        }
    }

    // The entry that the auth list has of the client of this name.
    pub(crate) fn entity_of(&self, name: &[u8]) -> Option<&Entity>
        ensures { option_map (λ e. e.now) result ≡ find (λ e. bytes_eq e.name name.now) self.now.entities }
    {
        self.auth.find(name)
    }

    // The entry that it has of the client in the session of this number.
    pub(crate) fn entity_in(&self, session: u64) -> Option<&Entity>
        ensures { option_map (λ e. e.now) result ≡ entity_of self.now.entities self.now.sessions session }
    {
        self.entity_of(self.name_of(session)?)
    }
}

// The first session of this number.
fn session_of(sessions: &[KnownSession], number: u64) -> Option<&KnownSession>
    ensures { option_map (λ s. s.now) result ≡ session_of sessions.now number }
{
    sessions.iter().find(|session| session.number() == number)
}
