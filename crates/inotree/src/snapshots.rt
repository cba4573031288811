//! The names of the snapshots of a directory.
ghost use Rattle.std.specs.Prelude.{◌≡◌, ℕ, List, IfOk, OnOk, OnErr};
ghost use Rattle.std.specs.List.{list_any};
ghost use Rattle.std.specs.List.Sorted.{IsStrictlySortedBy};
ghost use Rattle.std.specs.Ordering.{eq_by_cmp};
ghost use Rattle.std.specs.FinSet as set;
ghost use Rattle.inotree.specs.Names.{name_cmp};

use crate::name::Name;
use std::alloc::{AllocError, Global};
use std::collections::{BTreeSet, btree_set};
use std::marker::Model;

/// How many snapshots a directory may have.
pub const MAX_SNAPSHOTS: usize = 64;

/// The names of the snapshots of one directory.
#[derive(Debug)]
pub struct Snapshots {
    names: BTreeSet<Name>,
}

// Not derived: so the proof of a function that drops one has a single call there.
impl Drop for Snapshots {
    fn drop(self) {
        let Snapshots { names: _ } = self;
    }
}

impl Model for Snapshots {
    ghost use Rattle.std.specs.FinSet as set;
    ghost use Rattle.inotree.specs.Node.{NameSet, name_set_code};

    ghost Value = { NameSet };

    ghost coded = { name_set_code };

    ghost view = { λ s. set.from_list s.names.keys };
}

impl Snapshots {
    // No snapshots.
    pub(crate) fn new(alloc: Global) -> Snapshots
        ensures { result ≡ set.empty }
    {
        Snapshots {
            names: BTreeSet::new(alloc),
        }
    }

    /// How many snapshots there are.
    pub fn len(&self) -> usize
        ensures { result ≡ set.len self.now }
    {
        self.names.len()
    }

    /// Whether there is a snapshot of this name.
    pub fn contains(&self, name: &Name) -> bool
        ensures { result ≡ set.contains self.now name.now }
    {
        self.names.contains(name)
    }

    /// The names, in the order of their bytes.
    pub fn iter(&self) -> btree_set::Iter<'_, Name>
        ensures names { (name : List ℕ) → list_any (eq_by_cmp name_cmp name) result ≡ set.contains self.now name }
        ensures ordered { IsStrictlySortedBy name_cmp result }
    {
        self.names.iter()
    }

    // A copy of the names of the snapshots.
    pub(crate) fn copy(&self, alloc: Global) -> Result<Snapshots, AllocError>
        ensures { IfOk result (λ copy. copy ≡ self.now) }
    {
        let mut made = Snapshots::new(alloc);
        for name in self.iter() {
            made.insert(name.copy())?;
        }
        Ok(made)
    }

    // Takes the name in.
    pub(crate) fn insert(&mut self, name: Name) -> Result<(), AllocError>
        ensures ok { OnOk result (self.new ≡ set.insert self.old name) }
        ensures err { OnErr result (self.new ≡ self.old) }
    {
        self.names.insert(name)?;
        Ok(())
    }

    // Takes the name out.
    pub(crate) fn remove(&mut self, name: &Name)
        ensures { self.new ≡ set.remove self.old name.now }
    {
        self.names.remove(name);
    }
}
