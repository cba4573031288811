//! Sets of inodes that are never empty.
ghost use Rattle.std.specs.Prelude.{◌≡◌, ◌+◌, ◌==◌, ◌≤◌, ◌^◌, [], ◌∷◌, length, OnOk, OnErr, IfSome, IfNone};
ghost use Rattle.std.specs.FinSet as set;
ghost use Rattle.inotree.specs.InoSets.{IsLeastFrom, IsListOf, IsNext};

use crate::ino_set::InoSet;
use capbits::Ino;
use std::alloc::{AllocError, Global};
use std::collections::btree_set::Iter;
use std::marker::Model;

/// Inodes, at least one.
pub struct NonEmptyInoSet {
    // By itself, so that a set of one takes no memory.
    one: Ino,
    others: InoSet,
}

// Not derived: so the proof of a function that drops one has a single call there.
impl Drop for NonEmptyInoSet {
    fn drop(self) {
        let NonEmptyInoSet { one: _, others: _ } = self;
    }
}

impl Model for NonEmptyInoSet {
    ghost use Rattle.std.specs.Prelude.{◌≡◌, false};
    ghost use Rattle.std.specs.Coded.{coded_ℕ};
    ghost use Rattle.std.specs.FinSet as set;
    ghost use Rattle.inotree.specs.InoSets.{InoSet as Inodes};

    ghost Value = { Inodes };

    ghost coded = { set.code coded_ℕ };

    ghost view = { λ s. set.insert s.others s.one.0 };

    ghost invariant = { λ s. set.contains s.others s.one.0 ≡ false };
}

impl NonEmptyInoSet {
    /// This one. It takes no memory.
    pub fn of(alloc: Global, ino: Ino) -> NonEmptyInoSet
        ensures { result ≡ set.insert set.empty ino.0 }
    {
        NonEmptyInoSet {
            one: ino,
            others: InoSet::new(alloc),
        }
    }

    /// Whether the inode is one of them.
    pub fn contains(&self, ino: Ino) -> bool
        ensures { result ≡ set.contains self.now ino.0 }
    {
        ino.0 == self.one.0 || self.others.contains(ino)
    }

    /// The least one. It is searched for, and not walked to.
    pub fn first(&self) -> Ino
        ensures { IsLeastFrom self.now 0 result.0 }
    {
        match self.others.next(Ino(0)) {
            None => self.one,
            Some(other) if self.one.0 < other.0 => self.one,
            Some(other) => other,
        }
    }

    /// The least one behind this one.
    pub fn after(&self, ino: Ino) -> Option<Ino>
        ensures { IsNext self.now (ino.0 + 1) result }
    {
        let next = self.others.after(ino);
        if self.one.0 <= ino.0 {
            return next;
        }
        match next {
            None => Some(self.one),
            Some(other) if self.one.0 < other.0 => Some(self.one),
            Some(other) => Some(other),
        }
    }

    /// Whether it is one alone.
    pub fn is_single(&self) -> bool
        ensures { result ≡ (set.len self.now == 1) }
    {
        self.others.len() == 0
    }

    /// How many they are.
    pub fn len(&self) -> usize
        ensures len { result ≡ set.len self.now }
        ensures small { result ≤ 2 ^ 63 }
    {
        self.others.len() + 1
    }

    /// Each once, in no promised order.
    pub fn numbers(&self) -> InosLeft<'_>
        ensures list { IsListOf self.now result }
        ensures count { length result ≡ set.len self.now }
    {
        InosLeft {
            one: Some(self.one),
            others: self.others.numbers(),
        }
    }

    /// Takes the inode in. For want of memory nothing changes.
    pub fn insert(&mut self, ino: Ino) -> Result<(), AllocError>
        ensures ok { OnOk result (self.new ≡ set.insert self.old ino.0) }
        ensures err { OnErr result (self.new ≡ self.old) }
    {
        if ino.0 == self.one.0 {
            return Ok(());
        }
        self.others.insert(ino)
    }
}

/// The inodes that are left of a walk over a set.
#[derive(Drop)]
pub struct InosLeft<'a> {
    one: Option<Ino>,
    others: Iter<'a, u64>,
}

impl<'a> Model for InosLeft<'a> {
    ghost use Rattle.std.specs.Prelude.{List, ℕ};
    ghost use Rattle.inotree.specs.InoSets.{with_one};

    ghost Value = { List ℕ };

    ghost view = { λ w. with_one w.one w.others };
}

impl<'a> InosLeft<'a> {
    /// The next inode; none at the end of the walk.
    pub fn next(&mut self) -> Option<Ino>
        ensures some { IfSome result (λ ino. self.old ≡ ino.0 ∷ self.new) }
        ensures none { IfNone result ((self.old ≡ []) × (self.new ≡ [])) }
    {
        if let Some(one) = self.one.take() {
            return Some(one);
        }
        let number = self.others.next()?;
        Some(Ino(*number))
    }
}
