//! The names of the tree: which inode each directory has under each name.
ghost use Rattle.std.specs.Prelude.{◌≡◌, ◌++◌, IfOk, OnOk, OnErr};
ghost use Rattle.std.specs.FinMap as map;
ghost use Rattle.inotree.specs.Index.{AreInodes, gathered, index_descends, names_in};
ghost use Rattle.inotree.specs.Tree.{StandInDirectories};
ghost use Rattle.inotree.specs.Heights.{AreBounds};

use crate::heights::Heights;
use crate::inodes::Inodes;
use crate::name::Name;
use crate::names::MAX_NAMES;
use capbits::Ino;
use std::alloc::{AllocError, Global};
use std::collections::{BTreeMap, btree_map};
use std::marker::Model;
use std::ops::Bound;

// A name in a directory, which is there or not.
#[derive(PartialEq, Eq, PartialOrd, Ord)]
pub(crate) struct Slot {
    // The number of the directory. It comes first, so that a directory's names stand together.
    pub(crate) dir: u64,
    pub(crate) name: Name,
}

// Not derived: so the proof of a function that drops one has a single call there.
impl Drop for Slot {
    fn drop(self) {
        let Slot { dir: _, name: _ } = self;
    }
}

impl Slot {
    // A copy of the slot, which takes no memory.
    pub(crate) fn copy(&self) -> Slot
        ensures { result ≡ self.now }
    {
        Slot {
            dir: self.dir,
            name: self.name.copy(),
        }
    }
}

// Which inode stands at each name.
pub(crate) struct Index {
    inodes: BTreeMap<Slot, u64>,
}

// Not derived: so the proof of a function that drops one has a single call there.
impl Drop for Index {
    fn drop(self) {
        let Index { inodes: _ } = self;
    }
}

impl Model for Index {
    ghost use Rattle.std.specs.FinMap as map;
    ghost use Rattle.inotree.specs.Index.{NameIndex, index_code};

    ghost Value = { NameIndex };

    ghost coded = { index_code };

    ghost view = { λ i. map.from_entries i.inodes.entries };
}

impl Index {
    // No names.
    pub(crate) fn new(alloc: Global) -> Index
        ensures { result ≡ map.empty }
    {
        Index {
            inodes: BTreeMap::new(alloc),
        }
    }

    // The names with their inodes, directory by directory.
    pub(crate) fn iter(&self) -> btree_map::Iter<'_, Slot, u64>
        ensures { result ≡ map.entries self.now }
    {
        self.inodes.iter()
    }

    // A copy of the index, with all its names.
    pub(crate) fn copy(&self, alloc: Global) -> Result<Index, AllocError>
        ensures { IfOk result (λ copy. copy ≡ self.now) }
    {
        let mut made = Index::new(alloc);
        for (slot, ino) in self.iter() {
            made.insert(slot.copy(), *ino)?;
        }
        Ok(made)
    }

    // The inode at a name.
    pub(crate) fn get(&self, slot: &Slot) -> Option<u64>
        ensures { result ≡ map.get self.now slot.now }
    {
        self.inodes.get(slot).copied()
    }

    // Puts an inode at a name.
    pub(crate) fn insert(&mut self, slot: Slot, ino: u64) -> Result<(), AllocError>
        ensures ok { OnOk result (self.new ≡ map.insert self.old slot ino) }
        ensures err { OnErr result (self.new ≡ self.old) }
    {
        self.inodes.insert(slot, ino)?;
        Ok(())
    }

    // Takes a name out.
    pub(crate) fn remove(&mut self, slot: &Slot)
        ensures { self.new ≡ map.remove self.old slot.now }
    {
        self.inodes.remove(slot);
    }

    // The names in a directory.
    pub(crate) fn names_in(&self, dir: u64) -> btree_map::Range<'_, Slot, u64>
        requires { AreInodes self.now }
        ensures { result ≡ names_in dir self.now }
    {
        let first = Slot {
            dir,
            name: Name::empty(),
        };
        let end = match dir.checked_add(1) {
            Some(next) => Bound::Excluded(Slot {
                dir: next,
                name: Name::empty(),
            }),
            None => Bound::Unbounded,
        };
        self.inodes.range((Bound::Included(first), end))
    }

    // Whether something lies so many steps below one of these inodes.
    pub(crate) fn descends(
        &self,
        inodes: &Inodes,
        heights: &Heights,
        ino: u64,
        steps: usize,
    ) -> bool
        requires names { AreInodes self.now }
        requires bounds { AreBounds inodes.now heights.now self.now }
        ensures { result ≡ index_descends steps self.now ino }
    {
        if steps == 0 {
            return true;
        }
        // No name is looked for below a file, nor where nothing can lie that far down.
        let height = heights.of(inodes, ino);
        if height < MAX_NAMES && height < steps {
            return false;
        }
        for (_, child) in self.names_in(ino) {
            if self.descends(inodes, heights, *child, steps - 1) {
                return true;
            }
        }
        false
    }

    // Adds one of these inodes, and all that lies at most so many steps below it. Of the rest of the tree it reads no more than a
    // search for each of them does.
    pub(crate) fn gather(
        &self,
        inodes: &Inodes,
        ino: u64,
        steps: usize,
        found: &mut Vec<Ino>,
    ) -> Result<(), AllocError>
        requires names { AreInodes self.now }
        requires inside { StandInDirectories inodes.now self.now }
        ensures { OnOk result (found.new.items ≡ found.old.items ++ gathered steps self.now ino) }
    {
        found.push(Ino(ino))?;
        if steps == 0 {
            return Ok(());
        }
        // No name is looked for below a file.
        if !inodes.is_directory(ino) {
            return Ok(());
        }
        for (_, child) in self.names_in(ino) {
            self.gather(inodes, *child, steps - 1, found)?;
        }
        Ok(())
    }
}
