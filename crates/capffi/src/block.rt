//! Grants that were read once: a block of numbers, and behind it a text.

/// How many entries a block has room for, and how many groups an entry.
pub const MAX_ENTRIES: usize = 16;

/// The version of the layout of a block.
pub const BLOCK_VERSION: u32 = 1;

/// A grant of a block. The text of its path, with a slash before each name, and behind it the name of its file system stand in
/// the text of the block, behind those of the entries before it.
#[derive(Clone, Copy)]
#[repr(C)]
pub struct Entry {
    /// How many bytes of the text are its path.
    pub path_len: u64,
    /// How many bytes of the text are the name of its file system; 0 where it is for every one.
    pub fs_len: u64,
    /// How many of its groups count.
    pub gid_count: u64,
    /// Its flags: 0 r, 1 rw, 2 rwp, 3 rws, 4 rwps. Others are r.
    pub flags: u32,
    /// 0 where it is for every caller, else it is for one.
    pub has_uid: u32,
    /// The uid of that caller.
    pub uid: u32,
    /// 0 where root is as others are, else it may do no more than read.
    pub root_squash: u32,
    /// The groups that count for it.
    pub gids: [u32; 16],
}

/// The grants of a client on a file system, but for their text.
#[derive(Drop)]
#[repr(C)]
pub struct Block {
    /// The version of the layout.
    pub version: u32,
    /// How many entries count.
    pub count: u32,
    /// How long the text behind the block is.
    pub text_len: u64,
    /// How many bytes of the text, from its beginning, are the name of the file system.
    pub fs_len: u64,
    /// An entry for each grant, in their order.
    pub entries: [Entry; 16],
}
