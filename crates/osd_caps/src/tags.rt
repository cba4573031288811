//! What a pool is tagged with.

/// A key and a value that a pool has for an application.
#[derive(Clone, Copy)]
pub struct Pair<'a> {
    /// The key: of a pool of CephFS `data` or `metadata`.
    pub key: &'a [u8],
    /// The value: of a pool of CephFS the name of the file system.
    pub value: &'a [u8],
}

/// An application that a pool is enabled for, as `ceph osd pool ls detail` shows it.
#[derive(Clone, Copy)]
pub struct Application<'a> {
    /// Its name, such as `cephfs` or `rbd`.
    pub name: &'a [u8],
    /// The pairs that the pool has for it. There may be none.
    pub pairs: &'a [Pair<'a>],
}
