//! What `who` is asked.
ghost use Rattle.std.specs.Prelude.{◌≡◌, ℕ, List, Option, IfOk, IfErr, MatchResult};
ghost use Rattle.queries.specs.Values.{IsFsIf};
ghost use Rattle.queries.specs.declared.options.Opt.{Opt as AnOpt};
ghost use Rattle.queries.specs.Attempts.{IsAttempt, IsAttrIf, IsBadAttr, IsBadAttrIf, IsFaultOfAttempt, IsGivenAttr};

use crate::fault::QuestionFault;
use crate::fault::QuestionFault::BadValue;
use crate::modes::read_any_mode;
use crate::options::Opt;
use crate::question::{read_number, read_path};
use capgrant::{Access, Attr};
use capspec::{FsName, TreePath};
use std::alloc::Global;
use texts::read_access;

/// The values of the options of `who` as they stand on the command line, as bytes.
pub struct AttemptValues {
    /// What is asked for: a word that `read_access` reads.
    pub access: Vec<u8>,
    /// The place of the inode: at most 32 names of at most 255 bytes, with slashes between them.
    pub path: Vec<u8>,
    /// The name of the inode's file system, if it is given.
    pub fs: Option<Vec<u8>>,
    /// Whose the inode is, and its mode, if that is given.
    pub attr: Option<AttrValues>,
}

// Not derived: so the proof of a function that drops one has a single call there.
impl Drop for AttemptValues {
    fn drop(self) {
        let AttemptValues {
            access: _,
            path: _,
            fs: _,
            attr: _,
        } = self;
    }
}

/// The owner, the group and the mode of an inode as they stand on the command line.
pub struct AttrValues {
    /// The uid of the owner: a decimal number of 32 bits.
    pub owner: Vec<u8>,
    /// The gid of the group: a decimal number of 32 bits.
    pub group: Vec<u8>,
    /// The mode: 1 to 4 octal digits, or the inode's kind before 4 of them.
    pub mode: Vec<u8>,
}

// Not derived: so the proof of a function that drops one has a single call there.
impl Drop for AttrValues {
    fn drop(self) {
        let AttrValues {
            owner: _,
            group: _,
            mode: _,
        } = self;
    }
}

/// What somebody may want to do.
pub struct Attempt {
    /// The file system of the inode, if it is given.
    pub fs: Option<FsName>,
    /// The inode's path.
    pub path: TreePath,
    /// The inode's owner, group and mode, where they are known.
    pub attr: Option<Attr>,
    /// What is asked for.
    pub access: Access,
}

// Not derived: so the proof of a function that drops one has a single call there.
impl Drop for Attempt {
    fn drop(self) {
        let Attempt {
            fs: _,
            path: _,
            attr: _,
            access: _,
        } = self;
    }
}

impl Attempt {
    /// What the values mean, or the option whose value is bad.
    pub fn read(alloc: Global, values: &AttemptValues) -> Result<Attempt, QuestionFault>
        ensures ok { IfOk result (IsAttempt values.now) }
        ensures err { IfErr result (IsFaultOfAttempt values.now) }
    {
        let fs = read_given_fs(&values.fs)?;
        let path = read_path(alloc, values.path.as_slice())?;
        let attr = read_given_attr(&values.attr)?;
        let access = read_access(values.access.as_slice()).ok_or(BadValue(Opt::Access))?;
        match path {
            Some(path) => Ok(Attempt {
                fs,
                path,
                attr,
                access,
            }),
            None => Err(QuestionFault::NoMemory),
        }
    }
}

/// The name of a file system, where it is given.
pub fn read_given_fs(fs: &Option<Vec<u8>>) -> Result<Option<FsName>, QuestionFault>
    ensures { MatchResult result (IsFsIf fs.now) (λ fault.
        (fault ≡ QuestionFault.BadValue Opt.Fs) × ((name : Option (List ℕ)) → ¬ IsFsIf fs.now name)) }
{
    let Some(text) = fs else {
        return Ok(None);
    };
    match FsName::read(text.as_slice()) {
        Some(name) => Ok(Some(name)),
        None => Err(BadValue(Opt::Fs)),
    }
}

// The owner, the group and the mode, where they are given.
fn read_given_attr(values: &Option<AttrValues>) -> Result<Option<Attr>, QuestionFault>
    ensures ok { IfOk result (IsAttrIf values.now) }
    ensures err { IfErr result (λ fault. (option : AnOpt) × (fault ≡ QuestionFault.BadValue option) × IsBadAttrIf values.now option) }
{
    match values {
        Some(values) => Ok(Some(values.read()?)),
        None => Ok(None),
    }
}

impl AttrValues {
    // What they mean.
    fn read(&self) -> Result<Attr, QuestionFault>
        ensures ok { IfOk result (IsGivenAttr self.now) }
        ensures err { IfErr result (λ fault. (option : AnOpt) × (fault ≡ QuestionFault.BadValue option) × IsBadAttr self.now option) }
    {
        Ok(Attr {
            uid: read_number(Opt::Owner, self.owner.as_slice())?,
            gid: read_number(Opt::Group, self.group.as_slice())?,
            mode: read_any_mode(self.mode.as_slice()).ok_or(BadValue(Opt::Mode))?,
        })
    }
}
