//! Grants of this server that say the same as those of an MDS. Of these questions of a whole list can be asked, as whether others cover it.

ghost use Rattle.std.specs.Prelude.{◌≡◌, ◌≤◌, ◌<◌, ◌+◌, ◌⊎◌, ◌++◌, ◌∷◌, [], ℕ, List, Option, Some, IsTrue, false, true, is_some, length, option_map, IfErr, IfNone, IfOk, IfSome, OnOk, if◌then◌else◌};
ghost use Rattle.std.specs.List.{list_any};
ghost use Rattle.capgrant.specs.Failing.{is_some_and};
ghost use Rattle.release_grants.specs.Networks.{address_of, in_network};
ghost use Rattle.release_grants.specs.Paths.{directory_of, ends_in_slash};
ghost use Rattle.policy_analysis.specs.declared.stand_ins.NotCompared.TheVariants.{NoMemory, TooLarge};
ghost use Rattle.policy_analysis.specs.StandIns.{Adds, IsStandIn, IsWhyNone, IsWhyNot, IsWhyNotAdded, StandInFor, allowing, allows_something, flags_for, mounts_each, names, names_for, plays, terms_in};

use crate::oddity::{has_large_uid, has_two_slashes};
use arrayvec::ArrayVec;
use capspec::{Flags4, FsName, Gids, Grant as OwnGrant, TreePath};
use release_grants::{Flags, Grant, InNetwork, Switches, directory_of, in_network};
use release_rules::{is_for_everything, user_of};
use std::alloc::{AllocError, AllocFailed, Global};
use std::net::IpAddr;

// How many grants may stand in for others.
const MAX_STAND_INS: usize = 16;

/// Why grants of a release are not compared.
#[derive(Clone, Copy)]
pub enum NotCompared {
    /// More than 16 grants would have to stand in for them, a grant lists more than 16 gids, or names a file system by more than 64 bytes.
    TooLarge,
    /// The path of a grant ends in a slash, which the release takes for what lies below the directory alone: no grant of this server says that.
    LastSlash,
    /// No memory was left.
    NoMemory,
}

impl From<AllocError> for NotCompared {
    ghost use Rattle.std.specs.Prelude.{◌≡◌};
    ghost use Rattle.policy_analysis.specs.declared.stand_ins.NotCompared.TheVariants as reasons;

    ghost from_gives = { λ _ reason. reason ≡ reasons.NoMemory };

    fn from(_: AllocError) -> Self {
        NotCompared::NoMemory
    }
}

impl<T: Drop> From<AllocFailed<T>> for NotCompared {
    ghost use Rattle.std.specs.Prelude.{◌≡◌};
    ghost use Rattle.policy_analysis.specs.declared.stand_ins.NotCompared.TheVariants as reasons;

    ghost from_gives = { λ _ reason. reason ≡ reasons.NoMemory };

    fn from(_: AllocFailed<T>) -> Self {
        NotCompared::NoMemory
    }
}

/// Which grants of an MDS are stood in for, and in what.
#[derive(Clone, Copy)]
pub(crate) struct StandingIn {
    pub(crate) switches: Switches,
    /// The client's address, where it is told.
    pub(crate) address: Option<IpAddr>,
    /// Whether those count of which it is not known whether the client is in their network.
    pub(crate) maybe: bool,
    /// Whether those alone count that let somebody set attributes.
    pub(crate) vxattr: bool,
}

impl StandingIn {
    /// The grants that stand in for these, at most 16.
    pub(crate) fn stand_ins(
        self,
        alloc: Global,
        grants: &[Grant],
    ) -> Result<Vec<OwnGrant>, NotCompared>
        ensures few { IfOk result (λ owns. length owns.items ≤ 16) }
        ensures same { IfOk result (λ owns. StandInFor self.vxattr (terms_in self) self.maybe grants.now owns.items) }
        ensures err { IfErr result (IsWhyNot self.vxattr (terms_in self) self.maybe grants.now) }
    {
        let mut owns = Vec::new(alloc);
        if self.switches.judges_fsname || mount_each(self.switches, grants) {
            self.push_on(&mut owns, None, grants)?;
            return Ok(owns);
        }
        for (place, grant) in grants.iter().enumerate() {
            if let Some(name) = first_named(&grants[..place], grant) {
                self.push_on(&mut owns, Some(name), grants)?;
            }
        }
        Ok(owns)
    }

    // Appends those that stand in for the grants on a file system, or on each.
    fn push_on(
        self,
        owns: &mut Vec<OwnGrant>,
        fs: Option<&[u8]>,
        grants: &[Grant],
    ) -> Result<(), NotCompared>
        requires { length owns.old.items ≤ 16 }
        ensures few { OnOk result (length owns.new.items ≤ 16) }
        ensures same { OnOk result (Adds self.vxattr (terms_in self) self.maybe (option_map (λ name. name.now) fs.entry) grants.now owns.old.items owns.new.items) }
        ensures count { OnOk result (length owns.new.items ≡ length owns.old.items + length (allowing self.vxattr (terms_in self) self.maybe grants.now)) }
        ensures err { IfErr result (IsWhyNotAdded self.vxattr (terms_in self) self.maybe (option_map (λ name. name.now) fs.entry) grants.now (length owns.old.items)) }
    {
        for grant in grants {
            if self.allows_something(grant) {
                let own = self.stand_in(*owns.allocator(), fs, grant)?;
                push_few(owns, own)?;
            }
        }
        Ok(())
    }

    // Whether the grant allows somebody something of what it is about.
    fn allows_something(self, grant: &Grant) -> bool
        ensures { result ≡ allows_something (terms_in self) self.maybe self.vxattr grant.now }
    {
        self.plays(grant)
            && !has_large_uid(grant)
            && !has_two_slashes(self.switches, grant)
            && (!self.vxattr || grant.flags.has_p())
    }

    // Whether the client is in the grant's network, or may be where that is enough.
    fn plays(self, grant: &Grant) -> bool
        ensures { result ≡ plays self.maybe (in_network grant.now.network (option_map address_of self.address)) }
    {
        match in_network(&grant.network, self.address) {
            InNetwork::Yes => true,
            InNetwork::No => false,
            InNetwork::Unknown => self.maybe,
        }
    }

    // The grant that stands in for this one.
    fn stand_in(
        self,
        alloc: Global,
        fs: Option<&[u8]>,
        grant: &Grant,
    ) -> Result<OwnGrant, NotCompared>
        ensures ok { IfOk result (IsStandIn self.switches (option_map (λ name. name.now) fs.entry) grant.now) }
        ensures err { IfErr result (IsWhyNone self.switches (option_map (λ name. name.now) fs.entry) grant.now) }
    {
        let uid = user_of(self.switches, grant);
        Ok(OwnGrant {
            flags: flags_for(grant.flags),
            fsname: self.fsname(fs, grant)?,
            path: self.path(alloc, grant)?,
            uid,
            gids: gids_for(uid, grant)?,
            root_squash: grant.root_squash,
        })
    }

    // The file system that it is for: the grant's own, where that counts with each access.
    fn fsname(self, fs: Option<&[u8]>, grant: &Grant) -> Result<Option<FsName>, NotCompared>
        ensures ok { IfOk result (λ name. name ≡ (if self.switches.judges_fsname then grant.now.fsname else option_map (λ name. name.now) fs.entry)) }
        ensures err { IfErr result (IsWhyNone self.switches (option_map (λ name. name.now) fs.entry) grant.now) }
    {
        let name = if self.switches.judges_fsname {
            fsname_of(grant)
        } else {
            fs
        };
        let Some(name) = name else {
            return Ok(None);
        };
        match FsName::read(name) {
            Some(name) => Ok(Some(name)),
            None => Err(NotCompared::TooLarge),
        }
    }

    // The directory that it is for.
    fn path(self, alloc: Global, grant: &Grant) -> Result<TreePath, NotCompared>
        ensures names { IfOk result (λ path. path ≡ names_for self.switches grant.now.path) }
        ensures end { IfOk result (λ path. is_some_and (λ text. ends_in_slash (directory_of self.switches text)) grant.now.path ≡ false) }
        ensures err { IfErr result (λ why. (fs : Option (List ℕ)) → IsWhyNone self.switches fs grant.now why) }
    {
        let Some(path) = &grant.path else {
            return Ok(TreePath::from_text(alloc, &[])?);
        };
        let directory = directory_of(self.switches, path.as_bytes());
        if ends_in_slash(directory) {
            return Err(NotCompared::LastSlash);
        }
        Ok(TreePath::from_text(alloc, directory)?)
    }
}

// The name of the file system that the grant is for, if it is for one.
fn fsname_of(grant: &Grant) -> Option<&[u8]>
    ensures { option_map (λ name. name.now) result ≡ grant.now.fsname }
{
    match &grant.fsname {
        Some(name) => Some(name.as_bytes()),
        None => None,
    }
}

fn ends_in_slash(text: &[u8]) -> bool
    ensures { result ≡ ends_in_slash text.now }
{
    text.last() == Some(&b'/')
}

// The flags without p: none of the grants that stand in sets an attribute here.
fn flags_for(flags: Flags) -> Flags4
    ensures { result ≡ flags_for flags }
{
    if !flags.has_w() {
        Flags4::R
    } else if flags.has_s() {
        Flags4::Rws
    } else {
        Flags4::Rw
    }
}

// The gids that count with this user.
fn gids_for(uid: Option<u32>, grant: &Grant) -> Result<Gids, NotCompared>
    ensures ok { IfOk result (λ gids. gids ≡ (if is_some uid then grant.now.gids else [])) }
    ensures err { IfErr result (λ why. (why ≡ TooLarge) × IsTrue (is_some uid) × (16 < length grant.now.gids)) }
{
    if uid.is_none() {
        return Ok(Gids::new());
    }
    match ArrayVec::try_from(grant.gids.as_slice()) {
        Ok(gids) => Ok(Gids::from(gids)),
        Err(_) => Err(NotCompared::TooLarge),
    }
}

// Adds a grant, if there are not 16 yet.
fn push_few(owns: &mut Vec<OwnGrant>, own: OwnGrant) -> Result<(), NotCompared>
    ensures ok { OnOk result ((owns.new.items ≡ owns.old.items ++ own ∷ []) × (length owns.new.items ≤ 16)) }
    ensures err { IfErr result (λ why. ((why ≡ TooLarge) × (16 ≤ length owns.old.items)) ⊎ (why ≡ NoMemory)) }
{
    if owns.len() >= MAX_STAND_INS {
        return Err(NotCompared::TooLarge);
    }
    Ok(owns.push(own)?)
}

// The file system that the grant names, unless one of those before names it.
fn first_named<'a>(before: &[Grant], grant: &'a Grant) -> Option<&'a [u8]>
    ensures some { IfSome result (λ name. (grant.now.fsname ≡ Some name.now) × (list_any (names name.now) before.now ≡ false)) }
    ensures none { IfNone result (IfSome grant.now.fsname (λ name. list_any (names name) before.now ≡ true)) }
{
    let name = fsname_of(grant)?;
    if name_fs(before, name) {
        None
    } else {
        Some(name)
    }
}

// Whether some grant names this file system.
fn name_fs(grants: &[Grant], fs: &[u8]) -> bool
    ensures { result ≡ list_any (names fs.now) grants.now }
{
    for grant in grants {
        if names(grant, fs) {
            return true;
        }
    }
    false
}

fn names(grant: &Grant, fs: &[u8]) -> bool
    ensures { result ≡ names fs.now grant.now }
{
    match fsname_of(grant) {
        Some(name) => name == fs,
        None => false,
    }
}

// Whether by some grant a client mounts each file system.
fn mount_each(switches: Switches, grants: &[Grant]) -> bool
    ensures { result ≡ list_any (mounts_each switches) grants.now }
{
    for grant in grants {
        if grant.fsname.is_none() || is_for_everything(switches, grant) {
            return true;
        }
    }
    false
}
