//! What the values of options ask.
ghost use Rattle.std.specs.Prelude.{◌≡◌, ℕ, List, Option, IfOk, OnOk, IfErr, IfSome, MatchResult};
ghost use Rattle.std.specs.declared.net.ip_addr.IpAddr.{IpAddr as AnAddress};
ghost use Rattle.capspec.specs.declared.fault.SpecFault.{SpecFault as ASpecFault};
ghost use Rattle.capspec.specs.declared.grant.Grant.{Grant as AGrant};
ghost use Rattle.capspec.specs.Faults.{IsFault};
ghost use Rattle.capspec.specs.Grants.{Reads};
ghost use Rattle.capspec.specs.Items.{IsNumber};
ghost use Rattle.queries.specs.Values.{AreGroupsIf, ArePathNames, IsAddressIf};

use crate::fault::QuestionFault;
use crate::fault::QuestionFault::BadValue;
use crate::grant_text::read_text;
use crate::lists::read_groups;
use crate::modes::read_any_mode;
use crate::options::Opt;
use capbits::{Caller, Groups, read_u32};
use capgrant::{Access, Attr, Verdict, verdict};
use capspec::{FsName, Grants, TreePath};
use release_grants::read_address;
use std::alloc::{AllocError, Global};
use std::net::IpAddr;
use texts::{explain_line, read_access};

/// The values of the options as they stand on the command line, as bytes.
pub struct Values {
    /// The client's grants, as `ceph fs authorize` writes them.
    pub grants: Vec<u8>,
    /// The name of the inode's file system.
    pub fs: Vec<u8>,
    /// The caller's uid: a decimal number of 32 bits.
    pub uid: Vec<u8>,
    /// The caller's gid: a decimal number of 32 bits.
    pub gid: Vec<u8>,
    /// The caller's other groups, if they are given: 1 to 16 gids with commas between them.
    pub groups: Option<Vec<u8>>,
    /// The place of the inode: at most 32 names of at most 255 bytes, with slashes between them.
    pub path: Vec<u8>,
    /// The uid of the inode's owner: a decimal number of 32 bits.
    pub owner: Vec<u8>,
    /// The gid of the inode's group: a decimal number of 32 bits.
    pub group: Vec<u8>,
    /// The inode's mode: 1 to 4 octal digits, or the inode's kind before 4 of them.
    pub mode: Vec<u8>,
    /// What is asked for: a word that `read_access` reads.
    pub access: Vec<u8>,
    /// The address that the client comes from, if it is given: an IPv4 or an IPv6 address.
    pub addr: Option<Vec<u8>>,
}

// Not derived: so the proof of a function that drops one has a single call there.
impl Drop for Values {
    fn drop(self) {
        let Values {
            grants: _,
            fs: _,
            uid: _,
            gid: _,
            groups: _,
            path: _,
            owner: _,
            group: _,
            mode: _,
            access: _,
            addr: _,
        } = self;
    }
}

/// What is asked of grants, whichever they are.
// Its `Drop` is derived, since `Question::read` takes it apart.
#[derive(Drop)]
pub struct Asking {
    /// The file system of the inode.
    pub fs: FsName,
    /// Who asks.
    pub caller: Caller,
    /// The inode's path.
    pub path: TreePath,
    /// The inode's owner, group and mode.
    pub attr: Attr,
    /// What is asked for.
    pub access: Access,
    /// The address that the client comes from, where it is told. The rules of this server do not ask for it.
    pub address: Option<IpAddr>,
}

/// Whether these grants let a caller make an access to an inode.
pub struct Question {
    /// The grants of the client.
    pub grants: Grants,
    /// The file system of the inode.
    pub fs: FsName,
    /// Who asks.
    pub caller: Caller,
    /// The inode's path.
    pub path: TreePath,
    /// The inode's owner, group and mode.
    pub attr: Attr,
    /// What is asked for.
    pub access: Access,
}

// Not derived: so the proof of a function that drops one has a single call there.
impl Drop for Question {
    fn drop(self) {
        let Question {
            grants: _,
            fs: _,
            caller: _,
            path: _,
            attr: _,
            access: _,
        } = self;
    }
}

impl Values {
    ghost use Rattle.std.specs.Prelude.{[], ◌∷◌, IfOk, IfErr};
    ghost use Rattle.queries.specs.declared.options.Opt.TheVariants as opt;
    ghost use Rattle.queries.specs.Question.{IsAttr, IsBadAmong, IsCaller};

    // Who asks.
    fn read_caller(&self) -> Result<Caller, QuestionFault>
        ensures ok { IfOk result (IsCaller self.now) }
        ensures err { IfErr result (λ fault. (access_text : List ℕ) → IsBadAmong self.now access_text (opt.Uid ∷ opt.Gid ∷ opt.Groups ∷ []) fault) }
    {
        Ok(Caller {
            uid: read_number(Opt::Uid, self.uid.as_slice())?,
            gid: read_number(Opt::Gid, self.gid.as_slice())?,
            groups: read_given_groups(&self.groups)?,
        })
    }

    // Whose the inode is, and its mode.
    fn read_attr(&self) -> Result<Attr, QuestionFault>
        ensures ok { IfOk result (IsAttr self.now) }
        ensures err { IfErr result (λ fault. (access_text : List ℕ) → IsBadAmong self.now access_text (opt.Owner ∷ opt.Group ∷ opt.Mode ∷ []) fault) }
    {
        Ok(Attr {
            uid: read_number(Opt::Owner, self.owner.as_slice())?,
            gid: read_number(Opt::Group, self.group.as_slice())?,
            mode: read_any_mode(self.mode.as_slice()).ok_or(BadValue(Opt::Mode))?,
        })
    }
}

impl Asking {
    ghost use Rattle.std.specs.Prelude.{IfErr, IfOk};
    ghost use Rattle.queries.specs.Question.{AsksBy, IsFaultOfAsking};

    /// What the values ask, but for their grants, where this text stands for the access. They are read in the order of `Opt`, and the fault is
    /// that of the first bad one. `NoMemory` comes last, and only where each value is good.
    pub(crate) fn read(
        alloc: Global,
        values: &Values,
        access_text: &[u8],
    ) -> Result<Asking, QuestionFault>
        ensures ok { IfOk result (AsksBy values.now access_text.now) }
        ensures err { IfErr result (IsFaultOfAsking values.now access_text.now) }
    {
        let fs = FsName::read(values.fs.as_slice()).ok_or(BadValue(Opt::Fs))?;
        let caller = values.read_caller()?;
        let path = read_path(alloc, values.path.as_slice())?;
        let attr = values.read_attr()?;
        let access = read_access(access_text).ok_or(BadValue(Opt::Access))?;
        let address = read_given_address(&values.addr)?;
        match path {
            Some(path) => Ok(Asking {
                fs,
                caller,
                path,
                attr,
                access,
                address,
            }),
            None => Err(QuestionFault::NoMemory),
        }
    }
}

impl Question {
    ghost use Rattle.std.specs.Prelude.{◌≡◌, IfOk, IfErr, map};
    ghost use Rattle.capgrant.specs.Verdict.{is_allowed};
    ghost use Rattle.queries.specs.Question.{AsksFor, IsFaultIn, answer_text, verdict_on};

    /// The question that the values ask. They are read in the order of `Opt`, and the fault is that of the first bad one.
    /// `NoMemory` comes last, and only where each value is good.
    pub fn read(alloc: Global, values: &Values) -> Result<Question, QuestionFault>
        ensures ok { IfOk result (AsksFor values.now) }
        ensures err { IfErr result (IsFaultIn values.now) }
    {
        let grants = read_given_grants(alloc, values.grants.as_slice())?;
        let Asking {
            fs,
            caller,
            path,
            attr,
            access,
            address: _,
        } = Asking::read(alloc, values, values.access.as_slice())?;
        match grants {
            Some(grants) => Ok(Question {
                grants,
                fs,
                caller,
                path,
                attr,
                access,
            }),
            None => Err(QuestionFault::NoMemory),
        }
    }

    /// The line that answers the question, without a line feed. Only memory can be missing.
    pub fn answer(&self, alloc: Global) -> Result<Vec<u8>, AllocError>
        ensures { IfOk result (λ line. line.items ≡ answer_text self.now) }
    {
        let names = self.path.names(alloc)?;
        let verdict = self.judge(names.as_slice());
        explain_line(alloc, self.access, names.as_slice(), &verdict)
    }

    /// Whether a grant allows it. Only memory can be missing.
    pub fn is_allowed(&self, alloc: Global) -> Result<bool, AllocError>
        ensures { IfOk result (λ allowed. allowed ≡ is_allowed (verdict_on self.now)) }
    {
        let names = self.path.names(alloc)?;
        let verdict = self.judge(names.as_slice());
        Ok(matches!(verdict, Verdict::Allowed { .. }))
    }

    /// What the grants say, by the names of the path.
    pub(crate) fn judge(&self, names: &[&[u8]]) -> Verdict
        requires { map (λ name. name.now) names.now ≡ self.now.path }
        ensures { result ≡ verdict_on self.now }
    {
        verdict(
            &self.grants,
            &self.fs,
            &self.caller,
            names,
            &self.attr,
            self.access,
        )
    }
}

// The grants that the text means, or None where it means some and no memory was left for them.
fn read_given_grants(alloc: Global, text: &[u8]) -> Result<Option<Grants>, QuestionFault>
    ensures good { OnOk result ((grants : List AGrant) × Reads text.now grants) }
    ensures found { IfOk result (λ found. IfSome found (Reads text.now)) }
    ensures err { IfErr result (λ fault. (refused : ASpecFault) × (fault ≡ QuestionFault.Grants refused) × IsFault text.now refused) }
{
    read_text(alloc, text).map_err(QuestionFault::Grants)
}

/// The path of the inode, or None where the text names one and no memory was left for it.
pub(crate) fn read_path(alloc: Global, text: &[u8]) -> Result<Option<TreePath>, QuestionFault>
    ensures good { OnOk result ((names : List (List ℕ)) × ArePathNames text.now names) }
    ensures found { IfOk result (λ found. IfSome found (ArePathNames text.now)) }
    ensures err { IfErr result (λ fault. (fault ≡ QuestionFault.BadValue Opt.Path)
        × ((names : List (List ℕ)) → ¬ ArePathNames text.now names)) }
{
    match TreePath::read(alloc, text) {
        Ok(Some(path)) => Ok(Some(path)),
        Ok(None) => Err(BadValue(Opt::Path)),
        Err(AllocError) => Ok(None),
    }
}

/// The number that the value of an option writes.
pub(crate) fn read_number(option: Opt, text: &[u8]) -> Result<u32, QuestionFault>
    ensures { MatchResult result (IsNumber text.now) (λ fault.
        (fault ≡ QuestionFault.BadValue option) × ((n : ℕ) → ¬ IsNumber text.now n)) }
{
    read_u32(text).ok_or(BadValue(option))
}

// The groups that are given, or none.
fn read_given_groups(groups: &Option<Vec<u8>>) -> Result<Groups, QuestionFault>
    ensures { MatchResult result (AreGroupsIf groups.now) (λ fault.
        (fault ≡ QuestionFault.BadValue Opt.Groups) × ((gids : List ℕ) → ¬ AreGroupsIf groups.now gids)) }
{
    match groups {
        Some(text) => read_groups(text.as_slice()).ok_or(BadValue(Opt::Groups)),
        None => Ok(Groups::new()),
    }
}

// The address that is given, or none.
pub(crate) fn read_given_address(addr: &Option<Vec<u8>>) -> Result<Option<IpAddr>, QuestionFault>
    ensures { MatchResult result (IsAddressIf addr.now) (λ fault.
        (fault ≡ QuestionFault.BadValue Opt.Addr) × ((address : Option AnAddress) → ¬ IsAddressIf addr.now address)) }
{
    let Some(text) = addr else {
        return Ok(None);
    };
    match read_address(text.as_slice()) {
        Some(address) => Ok(Some(address)),
        None => Err(BadValue(Opt::Addr)),
    }
}
