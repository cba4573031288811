//! Two texts of grants compared by the rules of a release.
ghost use Rattle.std.specs.Prelude.{◌≡◌, ◌⊎◌, IfErr, IfOk, MatchResult};
ghost use Rattle.policy_analysis.specs.ComparingBy.{terms_of};
ghost use Rattle.queries.specs.ComparingBy.{AreChanges, IsComparisonBy, IsFaultBy, IsTaken, IsWhyNot, networks_of};

use crate::mds::{MdsFault, NotRead, mds_grants};
use crate::question::read_given_address;
use policy_analysis::{Change, MdsGrants, NotCompared, Terms, gained_by};
use release_rules::Release;
use std::alloc::{AllocError, Global};
use std::fmt;
use std::fmt::Display;
use std::net::IpAddr;
use texts::{Networks, Shape, mds_changes};

/// Why the grants of a text are not compared by the rules of a release.
#[derive(Clone, Copy)]
pub enum Uncompared {
    /// The release does not read the text.
    NotRead(NotRead),
    /// They are too many, or one of them lists too many gids, or has too long a name of a file system.
    TooLarge,
    /// The path of one ends in a slash, which this release takes for what lies below the directory alone.
    LastSlash(Release),
}

impl Display for Uncompared {
    ghost use Rattle.std.specs.Prelude.{Some};
    ghost use Rattle.queries.specs.ComparingBy.{uncompared_text};

    ghost output = { λ fault. Some (uncompared_text fault) };

    fn fmt<W: fmt::Write>(&self, f: &mut fmt::Formatter<W>) -> fmt::Result {
        match self {
            Uncompared::NotRead(fault) => Display::fmt(fault, f),
            Uncompared::TooLarge => f.write_str("too large to be compared"),
            Uncompared::LastSlash(release) => {
                let version = release.version();
                write!(
                    f,
                    "to Ceph {version} a path with a slash at its end is what lies below it, which is not compared",
                )
            }
        }
    }
}

/// Why two texts of grants are not compared by the rules of a release.
#[derive(Clone, Copy)]
pub enum MdsCompareFault {
    /// The old grants are not.
    Old(Uncompared),
    /// The new ones are not.
    New(Uncompared),
    /// The address of the client is none.
    BadAddress,
    /// No memory was left.
    NoMemory,
}

impl Display for MdsCompareFault {
    ghost use Rattle.std.specs.Prelude.{Some};
    ghost use Rattle.queries.specs.ComparingBy.{mds_compare_text};

    ghost output = { λ fault. Some (mds_compare_text fault) };

    fn fmt<W: fmt::Write>(&self, f: &mut fmt::Formatter<W>) -> fmt::Result {
        match self {
            MdsCompareFault::Old(fault) => write!(f, "old grants: {fault}"),
            MdsCompareFault::New(fault) => write!(f, "new grants: {fault}"),
            MdsCompareFault::BadAddress => f.write_str("bad value of --addr"),
            MdsCompareFault::NoMemory => f.write_str("no memory"),
        }
    }
}

impl From<AllocError> for MdsCompareFault {
    ghost use Rattle.std.specs.Prelude.{◌≡◌};
    ghost use Rattle.queries.specs.declared.comparing_by.MdsCompareFault.TheVariants as faults;

    ghost from_gives = { λ _ fault. fault ≡ faults.NoMemory };

    fn from(_: AllocError) -> Self {
        MdsCompareFault::NoMemory
    }
}

/// Lines of this shape that tell, by a question each, to what the new grants say more than the old ones by the rules of a release, and the other way
/// round; or that they say the same to each. Where the address of the client is given it decides about the networks of grants, else an answer may
/// depend on it. The fault of the new text is told only where the release reads the old one.
pub fn compare_by(
    alloc: Global,
    release: Release,
    addr: &Option<Vec<u8>>,
    old: &[u8],
    new: &[u8],
    shape: Shape,
) -> Result<Vec<u8>, MdsCompareFault>
    ensures ok { IfOk result (λ lines. IsComparisonBy release addr.now shape old.now new.now lines.items) }
    ensures err { IfErr result (IsFaultBy release addr.now old.now new.now) }
{
    let address = match read_given_address(addr) {
        Ok(address) => address,
        Err(_) => return Err(MdsCompareFault::BadAddress),
    };
    let both = BothGrants::read(alloc, release, address, old, new)?;
    let changes = both.changes(alloc)?;
    Ok(changes.lines(alloc, shape)?)
}

/// The grants of two texts, ready to be compared by the rules of a release.
pub(crate) struct BothGrants {
    before: MdsGrants,
    after: MdsGrants,
}

// Not derived: so the proof of a function that drops one has a single call there.
impl Drop for BothGrants {
    fn drop(self) {
        let BothGrants {
            before: _,
            after: _,
        } = self;
    }
}

impl BothGrants {
    ghost use Rattle.queries.specs.declared.comparing_by.MdsCompareFault.TheVariants.{NoMemory};
    ghost use Rattle.queries.specs.ComparingBy.{AreTaken, IsWhyNotBoth, terms_by};

    /// Those that the release reads in the two texts, judged by this address of the client, where it is told.
    pub(crate) fn read(
        alloc: Global,
        release: Release,
        address: Option<IpAddr>,
        old: &[u8],
        new: &[u8],
    ) -> Result<BothGrants, MdsCompareFault>
        ensures ok { IfOk result (λ both. AreTaken release (terms_by release address) old.now new.now both.before both.after) }
        ensures err { IfErr result (λ fault. (fault ≡ NoMemory) ⊎ IsWhyNotBoth release (terms_by release address) old.now new.now fault) }
    {
        let terms = Terms {
            switches: release.switches(),
            address,
        };
        let before = match taken(alloc, release, terms, old)? {
            Ok(grants) => grants,
            Err(why) => return Err(MdsCompareFault::Old(why)),
        };
        let after = match taken(alloc, release, terms, new)? {
            Ok(grants) => grants,
            Err(why) => return Err(MdsCompareFault::New(why)),
        };
        Ok(BothGrants { before, after })
    }

    /// What is gained and what is lost, each by a question. Only memory can be missing.
    pub(crate) fn changes(&self, alloc: Global) -> Result<Changes<'_>, AllocError>
        requires { self.now.before.terms ≡ self.now.after.terms }
        ensures { IfOk result (AreChanges self.now.before self.now.after) }
    {
        Ok(Changes {
            gain: gained_by(alloc, &self.before, &self.after)?,
            loss: gained_by(alloc, &self.after, &self.before)?,
            networks: networks_of(&self.before, &self.after),
        })
    }
}

/// What the grants of one text gain and lose beside those of another, by the rules of a release.
pub(crate) struct Changes<'a> {
    pub(crate) gain: Option<Change<'a>>,
    pub(crate) loss: Option<Change<'a>>,
    networks: Networks,
}

// Not derived: so the proof of a function that drops one has a single call there.
impl Drop for Changes<'_> {
    fn drop(self) {
        let Changes {
            gain: _,
            loss: _,
            networks: _,
        } = self;
    }
}

impl Changes<'_> {
    ghost use Rattle.queries.specs.ComparingBy.{changes_text};

    /// The lines that tell them, in this shape. Only memory can be missing.
    pub(crate) fn lines(&self, alloc: Global, shape: Shape) -> Result<Vec<u8>, AllocError>
        ensures { IfOk result (λ lines. lines.items ≡ changes_text shape self.now) }
    {
        mds_changes(alloc, &self.gain, &self.loss, self.networks, shape)
    }
}

// The grants of a text, ready to be compared, or why they are not. Only memory can be missing.
fn taken(
    alloc: Global,
    release: Release,
    terms: Terms,
    text: &[u8],
) -> Result<Result<MdsGrants, Uncompared>, AllocError>
    ensures { IfOk result (λ found. MatchResult found (IsTaken release (terms_of terms) text.now) (IsWhyNot release (terms_of terms) text.now)) }
{
    let grants = match mds_grants(alloc, text, release) {
        Ok(grants) => grants,
        Err(MdsFault::NotRead(found)) => return Ok(Err(Uncompared::NotRead(found))),
        Err(MdsFault::NoMemory) => return Err(AllocError),
    };
    match MdsGrants::of(alloc, terms, grants) {
        Ok(grants) => Ok(Ok(grants)),
        Err(NotCompared::TooLarge) => Ok(Err(Uncompared::TooLarge)),
        Err(NotCompared::LastSlash) => Ok(Err(Uncompared::LastSlash(release))),
        Err(NotCompared::NoMemory) => Err(AllocError),
    }
}

// Whether the networks of these grants are compared with each other: by an address alone.
fn networks_of(before: &MdsGrants, after: &MdsGrants) -> Networks
    ensures { result ≡ networks_of before.now after.now }
{
    if before.depend_on_address() && after.depend_on_address() {
        Networks::NotCompared
    } else {
        Networks::Compared
    }
}
