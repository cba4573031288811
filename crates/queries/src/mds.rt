//! What the MDS of a release says to what values ask.
ghost use Rattle.std.specs.Prelude.{◌≡◌, IfErr, IfOk};
ghost use Rattle.queries.specs.Mds.{IsMdsFault, MdsReads, mounts};

use crate::fault::QuestionFault;
use crate::mds_words::read_several;
use crate::question::{Asking, Values};
use release_grants::{Grant, Grants, read_grants};
use release_rules::{Asked, Question, Release, Verdict, client_refuses, mds_verdict};
use std::alloc::{AllocError, Global};
use std::fmt;
use texts::{MdsAccess, MdsSaid, mds_lines, mds_object};

/// A text of grants that a release does not read.
#[derive(Clone, Copy)]
pub struct NotRead {
    /// The release.
    pub release: Release,
    /// How many bytes stand before the first that it can make nothing of.
    pub at: usize,
}

impl fmt::Display for NotRead {
    ghost use Rattle.std.specs.Prelude.{Some};
    ghost use Rattle.queries.specs.Mds.{not_read_text};

    ghost output = { λ found. Some (not_read_text found) };

    fn fmt<W: fmt::Write>(&self, f: &mut fmt::Formatter<W>) -> fmt::Result {
        let (version, at) = (self.release.version(), self.at);
        write!(f, "not read by Ceph {version} at {at}")
    }
}

/// Why there are no grants to be judged by a release.
#[derive(Clone, Copy)]
pub enum MdsFault {
    /// The release does not read their text.
    NotRead(NotRead),
    /// No memory was left.
    NoMemory,
}

impl From<AllocError> for MdsFault {
    ghost use Rattle.std.specs.Prelude.{◌≡◌};
    ghost use Rattle.queries.specs.declared.mds.MdsFault.TheVariants as faults;

    ghost from_gives = { λ _ fault. fault ≡ faults.NoMemory };

    fn from(_: AllocError) -> Self {
        MdsFault::NoMemory
    }
}

/// What the MDS of a release says to a question.
pub struct MdsAnswer {
    /// The release.
    pub release: Release,
    /// What its MDS says.
    pub verdict: Verdict,
    /// The number of the grant, from 1, by which the client itself refuses to change attributes, where it comes to ask and does.
    pub refused: Option<usize>,
}

// Not derived: so the proof of a function that drops one has a single call there.
impl Drop for MdsAnswer {
    fn drop(self) {
        let MdsAnswer {
            release: _,
            verdict: _,
            refused: _,
        } = self;
    }
}

/// The grants that a release reads in a text.
pub fn mds_grants(alloc: Global, text: &[u8], release: Release) -> Result<Grants, MdsFault>
    ensures ok { IfOk result (MdsReads release text.now) }
    ensures err { IfErr result (IsMdsFault release text.now) }
{
    match read_grants(alloc, text, release.switches())? {
        Ok(grants) => Ok(grants),
        Err(unread) => Err(MdsFault::NotRead(NotRead {
            release,
            at: unread.at,
        })),
    }
}

/// What is asked of an MDS, whichever the grants.
pub struct MdsAsking {
    /// What is asked for.
    pub access: MdsAccess,
    /// Who asks, of which inode. Its access is that, where it is one access, and else to read.
    pub asking: Asking,
}

// Not derived: so the proof of a function that drops one has a single call there.
impl Drop for MdsAsking {
    fn drop(self) {
        let MdsAsking {
            access: _,
            asking: _,
        } = self;
    }
}

impl MdsAsking {
    ghost use Rattle.std.specs.Prelude.{◌≡◌, IfErr, IfOk, map};
    ghost use Rattle.queries.specs.Mds.{AsksThere, IsFaultThere, answer_by, asked_by, lines_by, object_by};

    /// What the values ask of an MDS, as `Question::read` says of this server, and with the accesses that an MDS alone is asked for.
    pub fn read(alloc: Global, values: &Values) -> Result<MdsAsking, QuestionFault>
        ensures ok { IfOk result (AsksThere values.now) }
        ensures err { IfErr result (IsFaultThere values.now) }
    {
        let text = values.access.as_slice();
        match read_several(text) {
            Some(access) => {
                let asking = Asking::read(alloc, values, b"read")?;
                Ok(MdsAsking { access, asking })
            }
            None => {
                let asking = Asking::read(alloc, values, text)?;
                let access = MdsAccess::One(asking.access);
                Ok(MdsAsking { access, asking })
            }
        }
    }

    /// What the MDS of a release says, by these grants, and what its client refuses. Only memory can be missing.
    pub fn judge_by(
        &self,
        alloc: Global,
        release: Release,
        grants: &[Grant],
    ) -> Result<MdsAnswer, AllocError>
        ensures { IfOk result (λ answer. answer ≡ answer_by release self.now grants.now) }
    {
        let switches = release.switches();
        let question = self.asking.of_mds(self.access.asked());
        let verdict = mds_verdict(alloc, switches, &question, grants)?;
        let refused = if mounts(&verdict) && self.access.is_checked_by_client() {
            client_refuses(switches, &question, grants)
        } else {
            None
        };
        Ok(MdsAnswer {
            release,
            verdict,
            refused,
        })
    }

    /// The lines that tell an answer. Only memory can be missing.
    pub fn mds_lines(&self, alloc: Global, answer: &MdsAnswer) -> Result<Vec<u8>, AllocError>
        ensures { IfOk result (λ lines. lines.items ≡ lines_by self.now answer.now) }
    {
        let names = self.asking.path.names(alloc)?;
        mds_lines(
            alloc,
            self.access,
            names.as_slice(),
            &answer.verdict,
            answer.refused,
        )
    }

    /// The object that tells an answer, with the number of a line, where it has one; as a line of JSON. Only memory can be missing.
    pub fn mds_object(
        &self,
        alloc: Global,
        number: Option<u64>,
        answer: &MdsAnswer,
    ) -> Result<Vec<u8>, AllocError>
        ensures { IfOk result (λ line. line.items ≡ object_by number self.now answer.now) }
    {
        let names = self.asking.path.names(alloc)?;
        let asked = self.asking.asked(names.as_slice());
        let said = MdsSaid {
            release: answer.release,
            access: self.access,
            verdict: &answer.verdict,
            refused: answer.refused,
        };
        mds_object(alloc, number, &asked, &said)
    }
}

impl Asking {
    ghost use Rattle.std.specs.Prelude.{◌≡◌, map};
    ghost use Rattle.queries.specs.Mds.{asked_by, mds_question};

    /// What is asked of an MDS that is asked for this.
    pub(crate) fn of_mds(&self, asked: Asked) -> Question<'_>
        ensures { result ≡ mds_question self.now asked }
    {
        Question {
            fs: &self.fs,
            caller: &self.caller,
            path: &self.path,
            attr: &self.attr,
            asked,
            address: self.address,
        }
    }

    // What is asked of this server, by the names of the path.
    fn asked<'a>(&'a self, names: &'a [&'a [u8]]) -> capgrant::Question<'a>
        requires { map (λ name. name.now) names.now ≡ self.now.path }
        ensures { result ≡ asked_by self.now }
    {
        capgrant::Question {
            fs: &self.fs,
            caller: &self.caller,
            path: names,
            attr: &self.attr,
            access: self.access,
        }
    }
}

// Whether the client comes to ask.
fn mounts(verdict: &Verdict) -> bool
    ensures { result ≡ mounts verdict.now }
{
    !matches!(verdict, Verdict::CannotMount)
}
