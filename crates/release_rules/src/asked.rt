//! What a check of an MDS asks for.
ghost use Rattle.std.specs.Prelude.{◌≡◌};
ghost use Rattle.capgrant.specs.Class.{has_bit};
ghost use Rattle.release_rules.specs.Asked.{some_if};

use capgrant::Access;

/// All that one check asks for. One grant has to allow it all.
#[derive(Clone, Copy)]
pub struct Asked {
    /// To read.
    pub read: bool,
    /// To write; a change of an attribute is one.
    pub write: bool,
    /// To execute.
    pub execute: bool,
    /// To give the inode to this user.
    pub new_owner: Option<u32>,
    /// To give the inode to this group.
    pub new_group: Option<u32>,
    /// To set an attribute whose name begins with `ceph.`.
    pub set_vxattr: bool,
    /// To make or remove a snapshot.
    pub snapshot: bool,
    /// To go on where the cluster is full.
    pub full: bool,
}

impl Asked {
    ghost use Rattle.std.specs.Prelude.{◌≡◌};
    ghost use Rattle.release_rules.specs.Asked.{asked_by, asked_for};

    /// What an MDS asks its grants for an access, by the bits of the mask that it is.
    pub fn of_access(access: Access) -> Asked
        ensures { result ≡ asked_for access }
    {
        // All but the first and that of an attribute are a write (2) besides.
        match access {
            Access::Read => Asked::of_mask(1, 0, 0),
            Access::Write | Access::Chmod => Asked::of_mask(2, 0, 0),
            Access::SetVxattr => Asked::of_mask(64, 0, 0),
            Access::Snapshot => Asked::of_mask(130, 0, 0),
            Access::Chown(uid) => Asked::of_mask(18, uid, 0),
            Access::Chgrp(gid) => Asked::of_mask(34, 0, gid),
        }
    }

    /// What the mask of a check asks for, as an MDS logs it, with the user and the group that the inode is to be given to. Bits of other meaning
    /// ask for nothing.
    pub fn of_mask(mask: u32, uid: u32, gid: u32) -> Asked
        ensures { result ≡ asked_by mask uid gid }
    {
        Asked {
            read: has_bit(mask, 1),
            write: has_bit(mask, 2),
            execute: has_bit(mask, 4),
            new_owner: some_if(has_bit(mask, 16), uid),
            new_group: some_if(has_bit(mask, 32), gid),
            set_vxattr: has_bit(mask, 64),
            snapshot: has_bit(mask, 128),
            full: has_bit(mask, 256),
        }
    }
}

fn has_bit(mask: u32, bit: u32) -> bool
    ensures { result ≡ has_bit mask bit }
{
    mask & bit != 0
}

fn some_if(condition: bool, number: u32) -> Option<u32>
    ensures { result ≡ some_if condition number }
{
    if condition { Some(number) } else { None }
}
