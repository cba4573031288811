//! Why a command that answers a question about grants gave no answer.

use capspec::SpecFault;
use ceph_input::{AuthFault, KeyringFault, TreeFault};
use cluster_audit::HeldFault;
use queries::{CompareFault, MdsCompareFault, MdsFault, NotRead, Opt, QuestionFault};
use release_rules::Release;
use std::alloc::{AllocError, AllocFailed};
use std::fmt;
use std::fmt::Display;
use texts::ScriptFault;

/// Why a command gave no answer.
#[derive(Clone, Copy)]
pub enum AnswerFault {
    /// The grants can't be read, or another value is bad.
    Question(QuestionFault),
    /// The release by whose rules is asked does not read the grants.
    NotRead(NotRead),
    /// The release reads no form of the grant of this number.
    NoForm(Release, usize),
    /// One of two texts of grants can't be read.
    Compare(CompareFault),
    /// Two texts of grants are not compared by the rules of a release.
    MdsCompare(MdsCompareFault),
    /// A keyring has no grants of the client.
    Keyring(KeyringFault),
    /// The file of the keyring can't be opened.
    Unopened,
    /// What should be an auth list is none, or has no grants of the client.
    Auth(AuthFault),
    /// The file of the auth list can't be opened.
    UnopenedAuth,
    /// The grants of an auth list name several file systems, and none is given.
    SeveralFileSystems,
    /// The auth list or the sessions of a cluster are none.
    Cluster(HeldFault),
    /// The tree of a cluster is none.
    Tree(TreeFault),
    /// The file of one of them can't be opened.
    UnopenedText,
    /// What has the text of the grants can't be read, as a script can't.
    Unread(ScriptFault),
    /// The answer could not be written.
    WriteFailed,
    /// No memory was left.
    NoMemory,
}

impl Display for AnswerFault {
    fn fmt<W: fmt::Write>(&self, f: &mut fmt::Formatter<W>) -> fmt::Result {
        match self {
            AnswerFault::Question(fault) => Display::fmt(fault, f),
            AnswerFault::NotRead(fault) => write!(f, "grants: {fault}"),
            AnswerFault::NoForm(release, grant) => {
                let version = release.version();
                write!(f, "grants: Ceph {version} reads no form of grant {grant}",)
            }
            AnswerFault::Compare(fault) => Display::fmt(fault, f),
            AnswerFault::MdsCompare(fault) => Display::fmt(fault, f),
            AnswerFault::Keyring(fault) => write!(f, "keyring: {fault}"),
            AnswerFault::Unopened => f.write_str("keyring: Unopened"),
            AnswerFault::Auth(fault) => write!(f, "auth: {fault}"),
            AnswerFault::UnopenedAuth => f.write_str("auth: Unopened"),
            AnswerFault::SeveralFileSystems => f.write_str(
                "auth: grants name several file systems, and --fs none",
            ),
            AnswerFault::Cluster(fault) => Display::fmt(fault, f),
            AnswerFault::Tree(fault) => write!(f, "tree: {fault}"),
            AnswerFault::UnopenedText => f.write_str("cluster: Unopened"),
            AnswerFault::Unread(fault) => Display::fmt(fault, f),
            AnswerFault::WriteFailed => f.write_str("write failed"),
            AnswerFault::NoMemory => f.write_str("no memory"),
        }
    }
}

// Where only memory was missing, the question is not to blame.
impl From<QuestionFault> for AnswerFault {
    ghost use Rattle.std.specs.Prelude.{◌≡◌};
    ghost use Rattle.cli_queries.specs.Fault.{fault_of};

    ghost from_gives = { λ asked fault. fault ≡ fault_of asked };

    fn from(asked: QuestionFault) -> Self {
        match asked {
            QuestionFault::NoMemory => AnswerFault::NoMemory,
            _ => AnswerFault::Question(asked),
        }
    }
}

// Where only memory was missing, the grants are not to blame.
impl From<MdsFault> for AnswerFault {
    ghost use Rattle.std.specs.Prelude.{◌≡◌};
    ghost use Rattle.cli_queries.specs.Fault.{mds_fault_of};

    ghost from_gives = { λ found fault. fault ≡ mds_fault_of found };

    fn from(found: MdsFault) -> Self {
        match found {
            MdsFault::NotRead(found) => AnswerFault::NotRead(found),
            MdsFault::NoMemory => AnswerFault::NoMemory,
        }
    }
}

// The grants of a command are refused as those of a question are.
impl From<SpecFault> for AnswerFault {
    ghost use Rattle.queries.specs.Fault.{IsFaultOf};
    ghost use Rattle.cli_queries.specs.Fault.{Tells};

    ghost from_gives = { λ refused. Tells (IsFaultOf refused) };

    fn from(refused: SpecFault) -> Self {
        AnswerFault::from(QuestionFault::from(refused))
    }
}

// Where only memory was missing, the keyring is not to blame.
impl From<KeyringFault> for AnswerFault {
    ghost use Rattle.std.specs.Prelude.{◌≡◌};
    ghost use Rattle.cli_queries.specs.Fault.{keyring_fault_of};

    ghost from_gives = { λ found fault. fault ≡ keyring_fault_of found };

    fn from(found: KeyringFault) -> Self {
        match found {
            KeyringFault::NoMemory => AnswerFault::NoMemory,
            _ => AnswerFault::Keyring(found),
        }
    }
}

// Where only memory was missing, the auth list is not to blame.
impl From<AuthFault> for AnswerFault {
    ghost use Rattle.std.specs.Prelude.{◌≡◌};
    ghost use Rattle.cli_queries.specs.Fault.{auth_fault_of};

    ghost from_gives = { λ found fault. fault ≡ auth_fault_of found };

    fn from(found: AuthFault) -> Self {
        match found {
            AuthFault::NoMemory => AnswerFault::NoMemory,
            _ => AnswerFault::Auth(found),
        }
    }
}

impl From<HeldFault> for AnswerFault {
    ghost use Rattle.std.specs.Prelude.{◌≡◌};
    ghost use Rattle.cli_queries.specs.declared.fault.AnswerFault.TheVariants as faults;

    ghost from_gives = { λ found fault. fault ≡ faults.Cluster found };

    fn from(found: HeldFault) -> Self {
        AnswerFault::Cluster(found)
    }
}

impl From<TreeFault> for AnswerFault {
    ghost use Rattle.std.specs.Prelude.{◌≡◌};
    ghost use Rattle.cli_queries.specs.declared.fault.AnswerFault.TheVariants as faults;

    ghost from_gives = { λ found fault. fault ≡ faults.Tree found };

    fn from(found: TreeFault) -> Self {
        AnswerFault::Tree(found)
    }
}

// Where only memory was missing, the texts are not to blame.
impl From<CompareFault> for AnswerFault {
    ghost use Rattle.std.specs.Prelude.{◌≡◌};
    ghost use Rattle.cli_queries.specs.Fault.{compare_fault_of};

    ghost from_gives = { λ asked fault. fault ≡ compare_fault_of asked };

    fn from(asked: CompareFault) -> Self {
        match asked {
            CompareFault::NoMemory => AnswerFault::NoMemory,
            _ => AnswerFault::Compare(asked),
        }
    }
}

// A bad address is told as that of a question is.
impl From<MdsCompareFault> for AnswerFault {
    ghost use Rattle.std.specs.Prelude.{◌≡◌};
    ghost use Rattle.cli_queries.specs.Fault.{mds_compare_fault_of};

    ghost from_gives = { λ asked fault. fault ≡ mds_compare_fault_of asked };

    fn from(asked: MdsCompareFault) -> Self {
        match asked {
            MdsCompareFault::NoMemory => AnswerFault::NoMemory,
            MdsCompareFault::BadAddress => {
                AnswerFault::Question(QuestionFault::BadValue(Opt::Addr))
            }
            _ => AnswerFault::MdsCompare(asked),
        }
    }
}

impl From<ScriptFault> for AnswerFault {
    ghost use Rattle.std.specs.Prelude.{◌≡◌};
    ghost use Rattle.cli_queries.specs.declared.fault.AnswerFault.TheVariants as faults;

    ghost from_gives = { λ unread fault. fault ≡ faults.Unread unread };

    fn from(unread: ScriptFault) -> Self {
        AnswerFault::Unread(unread)
    }
}

impl From<AllocError> for AnswerFault {
    ghost use Rattle.std.specs.Prelude.{◌≡◌};
    ghost use Rattle.cli_queries.specs.declared.fault.AnswerFault.TheVariants as faults;

    ghost from_gives = { λ _ fault. fault ≡ faults.NoMemory };

    fn from(_: AllocError) -> Self {
        AnswerFault::NoMemory
    }
}

impl<T: Drop> From<AllocFailed<T>> for AnswerFault {
    ghost use Rattle.std.specs.Prelude.{◌≡◌};
    ghost use Rattle.cli_queries.specs.declared.fault.AnswerFault.TheVariants as faults;

    ghost from_gives = { λ _ fault. fault ≡ faults.NoMemory };

    fn from(_: AllocFailed<T>) -> Self {
        AnswerFault::NoMemory
    }
}
