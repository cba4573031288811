//! What is passed to and from C: structs of numbers, as `c/include/baybowl.h` has them.

/// Who asks for what, and whose the inode is. The texts and the groups are passed beside it.
#[derive(Drop)]
#[repr(C)]
pub struct Question {
    /// The caller's uid.
    pub uid: u32,
    /// The caller's gid.
    pub gid: u32,
    /// The uid of the inode's owner.
    pub owner: u32,
    /// The gid of the inode's group.
    pub group: u32,
    /// The permission bits of the inode, at most 07777.
    pub mode: u32,
    /// What is asked for: 0 to read, 1 to write, 2 to set a `ceph.` attribute, 3 to make or remove a snapshot, 4 to change
    /// the mode, 5 to change the owner, 6 to change the group.
    pub access: u32,
    /// The new owner of access 5 and the new group of access 6. Without meaning for others.
    pub number: u32,
}

/// Who asks for what by the mask of a server, and whose the inode is. The texts and the groups are passed beside it.
#[derive(Drop)]
#[repr(C)]
pub struct Check {
    /// The caller's uid.
    pub uid: u32,
    /// The caller's gid.
    pub gid: u32,
    /// The uid of the inode's owner.
    pub owner: u32,
    /// The gid of the inode's group.
    pub group: u32,
    /// The inode's mode. Its last twelve bits are the permission bits; those in front, as the inode's kind, have no part in the answer.
    pub mode: u32,
    /// What is asked for, as a sum: 1 to read, 2 to write, 16 to change the owner, 32 to change the group, 64 to set a `ceph.`
    /// attribute, 128 to make or remove a snapshot.
    pub mask: u32,
    /// The new owner of 16. Without meaning for others.
    pub new_uid: u32,
    /// The new group of 32. Without meaning for others.
    pub new_gid: u32,
}

/// What the grants say to a question.
#[derive(Drop)]
#[repr(C)]
pub struct Answer {
    /// The number of the first grant that allows, from 1; 0 where none does.
    pub grant: u32,
    /// How many grants failed: each, where none allows, else 0.
    pub count: u32,
    /// For each grant that failed, in their order, the number of the first rule that it fails by, from 1 to 11. The other
    /// places are 0.
    pub rules: [u8; 16],
}

/// What is wrong with a grant text.
#[derive(Drop)]
#[repr(C)]
pub struct Fault {
    /// How many bytes of the text stand before the fault.
    pub at: u64,
    /// The kind of the fault, from 1 to 11; 0 where there is none.
    pub kind: u32,
}

/// A stable state of the lock of a part.
#[derive(Drop)]
#[repr(C)]
pub struct StableState {
    /// 0 is SYNC, 1 LOCK, 2 MIX, 3 EXCL.
    pub kind: u32,
    /// The client that has the part for itself in EXCL. Without meaning in other states.
    pub holder: u32,
}

/// The lock of a part.
#[derive(Drop)]
#[repr(C)]
pub struct Lock {
    /// The state that the lock is in, or leaves.
    pub from: StableState,
    /// The state that it goes to. Without meaning where it rests.
    pub to: StableState,
    /// 0 where the lock rests in its state; else it is on its way.
    pub gathers: u32,
}

/// What decides where a lock is to go.
#[derive(Drop)]
#[repr(C)]
pub struct Wants {
    /// What stands first in the lock's queue: 0 nothing, 1 a request to change the part, 2 a request to read it.
    pub head: u32,
    /// The client of a request to read. Without meaning for others.
    pub asker: u32,
    /// 0 where there is no loner: no client, or more than one, effectively wants more than the pin. Else there is one.
    pub loners: u32,
    /// The loner. Without meaning where there is none.
    pub loner: u32,
    /// The caps that the loner effectively wants, as bits. Without meaning where there is none.
    pub loner_wants: u32,
    /// The caps that all clients effectively want, as bits.
    pub wanted: u32,
}
