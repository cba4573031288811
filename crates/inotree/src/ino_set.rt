//! Sets of inodes.
ghost use Rattle.std.specs.Prelude.{◌≡◌, ◌+◌, ◌<◌, ◌^◌, length, OnOk, OnErr};
ghost use Rattle.std.specs.FinSet as set;
ghost use Rattle.inotree.specs.InoSets.{IsListOf, IsNext};

use capbits::Ino;
use std::alloc::{AllocError, Global};
use std::collections::BTreeSet;
use std::collections::btree_set::Iter;
use std::marker::Model;
use std::ops::Bound;

/// Inodes, in the order of their numbers.
pub struct InoSet {
    numbers: BTreeSet<u64>,
}

// Not derived: so the proof of a function that drops one has a single call there.
impl Drop for InoSet {
    fn drop(self) {
        let InoSet { numbers: _ } = self;
    }
}

impl Model for InoSet {
    ghost use Rattle.std.specs.Coded.{coded_ℕ};
    ghost use Rattle.std.specs.FinSet as set;
    ghost use Rattle.inotree.specs.InoSets.{InoSet as Inodes};

    ghost Value = { Inodes };

    ghost coded = { set.code coded_ℕ };

    ghost view = { λ s. set.from_list s.numbers.keys };
}

impl InoSet {
    /// None.
    pub fn new(alloc: Global) -> InoSet
        ensures { result ≡ set.empty }
    {
        InoSet {
            numbers: BTreeSet::new(alloc),
        }
    }

    /// Whether the inode is one of them.
    pub fn contains(&self, ino: Ino) -> bool
        ensures { result ≡ set.contains self.now ino.0 }
    {
        self.numbers.contains(&ino.0)
    }

    /// The least one that has a number of at least this one. It is searched for, and not walked to.
    pub fn next(&self, from: Ino) -> Option<Ino>
        ensures { IsNext self.now from.0 result }
    {
        let number = self.numbers.range(from.0..).next()?;
        Some(Ino(*number))
    }

    /// The least one behind this one.
    pub fn after(&self, ino: Ino) -> Option<Ino>
        ensures { IsNext self.now (ino.0 + 1) result }
    {
        let number = self
            .numbers
            .range((Bound::Excluded(ino.0), Bound::Unbounded))
            .next()?;
        Some(Ino(*number))
    }

    /// How many they are.
    pub fn len(&self) -> usize
        ensures len { result ≡ set.len self.now }
        ensures small { result < 2 ^ 63 }
    {
        self.numbers.len()
    }

    /// Their numbers, each once.
    pub fn numbers(&self) -> Iter<'_, u64>
        ensures list { IsListOf self.now result }
        ensures count { length result ≡ set.len self.now }
    {
        self.numbers.iter()
    }

    /// Takes the inode in. For want of memory nothing changes.
    pub fn insert(&mut self, ino: Ino) -> Result<(), AllocError>
        ensures ok { OnOk result (self.new ≡ set.insert self.old ino.0) }
        ensures err { OnErr result (self.new ≡ self.old) }
    {
        self.numbers.insert(ino.0)?;
        Ok(())
    }
}
