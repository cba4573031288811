//! How far down something may lie below each directory.
ghost use Rattle.std.specs.Prelude.{◌≡◌, ◌-◌, IfOk, OnOk, OnErr};
ghost use Rattle.std.specs.FinMap as map;
ghost use Rattle.capbits.specs.Maps.{change_at};
ghost use Rattle.inotree.specs.declared.node.Presence.TheVariants.{Here};
ghost use Rattle.inotree.specs.Index.{AreInodes};
ghost use Rattle.inotree.specs.Tree.{IsIndexed, depth, presence};
ghost use Rattle.inotree.specs.Heights.{AreNoHigher, AreOfTree, HeightsRise, HeightsRiseBut, IsLowered, SameBut, height};

use crate::index::Index;
use crate::inodes::Inodes;
use crate::names::MAX_NAMES;
use crate::node::Kind;
use capbits::Numbered;
use std::alloc::{AllocError, Global};
use std::marker::Model;

// For each directory how many steps below it something may lie. It may lie less far down, for what leaves a directory lowers nothing;
// where no number is kept, or one of 32 or more, nothing is known.
pub(crate) struct Heights {
    heights: Numbered<usize>,
}

// Not derived: so the proof of a function that drops one has a single call there.
impl Drop for Heights {
    fn drop(self) {
        let Heights { heights: _ } = self;
    }
}

impl Model for Heights {
    ghost use Rattle.inotree.specs.Heights.{HeightMap, height_map_code};

    ghost Value = { HeightMap };

    ghost coded = { height_map_code };

    ghost view = { λ h. h.heights };
}

impl Heights {
    // Nothing is known.
    pub(crate) fn new(alloc: Global) -> Heights
        ensures { result ≡ map.empty }
    {
        Heights {
            heights: Numbered::new(alloc),
        }
    }

    // A copy of the heights.
    pub(crate) fn copy(&self, alloc: Global) -> Result<Heights, AllocError>
        ensures { IfOk result (λ copy. copy ≡ self.now) }
    {
        let mut made = Heights::new(alloc);
        for dir in self.heights.keys() {
            if let Some(height) = self.heights.get(*dir) {
                made.insert(*dir, *height)?;
            }
        }
        Ok(made)
    }

    // How many steps below an inode something may lie; 32 or more say nothing.
    pub(crate) fn of(&self, inodes: &Inodes, ino: u64) -> usize
        ensures { result ≡ height inodes.now self.now ino }
    {
        if inodes.is_directory(ino) {
            self.heights.get(ino).copied().unwrap_or(MAX_NAMES)
        } else {
            0
        }
    }

    // Keeps a number for a directory.
    fn insert(&mut self, dir: u64, height: usize) -> Result<(), AllocError>
        ensures ok { OnOk result (self.new ≡ map.insert self.old dir height) }
        ensures err { OnErr result (self.new ≡ self.old) }
    {
        self.heights.insert(dir, height)
    }

    // A new directory has nothing in it. Where there is no memory to keep that, nothing is known of it.
    pub(crate) fn begin(&mut self, ino: u64, kind: Kind)
        ensures { SameBut ino self.old self.new }
    {
        match kind {
            Kind::Directory => {
                let _is_kept = self.insert(ino, 0).is_ok();
            }
            Kind::File => (),
        }
    }

    // Nothing is known of this directory any more.
    pub(crate) fn remove(&mut self, dir: u64)
        ensures { self.new ≡ map.remove self.old dir }
    {
        self.heights.remove(dir);
    }

    // Keeps another number for a directory, where one is kept.
    fn set(&mut self, dir: u64, height: usize)
        ensures { self.new ≡ change_at (λ _. height) self.old dir }
    {
        if let Some(kept) = self.heights.get_mut(dir) {
            *kept = height;
        }
    }

    // Lowers a directory below which nothing lies so many steps, after those that stand in it, so that `of` rules that out again. It
    // takes no memory; where nothing is known of a directory, those above it may stay.
    pub(crate) fn lower(&mut self, inodes: &Inodes, names: &Index, dir: u64, steps: usize)
        requires inodes { AreInodes names.now }
        requires indexed { IsIndexed inodes.now names.now }
        requires rise { HeightsRise inodes.now self.old }
        ensures rise { HeightsRise inodes.now self.new }
        ensures lower { AreNoHigher inodes.now self.old self.new }
        ensures lowered { IsLowered inodes.now names.now dir steps self.old self.new }
    {
        if steps == 0 {
            return;
        }
        // It is low enough, or a file.
        if self.of(inodes, dir) < steps {
            return;
        }
        let mut most = 0;
        for (_, child) in names.names_in(dir) {
            self.lower(inodes, names, *child, steps - 1);
            let below = self.of(inodes, *child);
            if below >= MAX_NAMES {
                return;
            }
            most = most.max(below + 1);
        }
        if most >= self.of(inodes, dir) {
            return;
        }
        self.set(dir, most);
    }

    // Lowers a directory that fits into another, where by its height it might not.
    pub(crate) fn lower_to_fit(&mut self, inodes: &Inodes, names: &Index, ino: u64, dir: u64)
        requires inodes { AreInodes names.now }
        requires indexed { IsIndexed inodes.now names.now }
        requires rise { HeightsRise inodes.now self.old }
        ensures rise { HeightsRise inodes.now self.new }
        ensures lowered { IsLowered inodes.now names.now ino (32 - depth inodes.now dir) self.old self.new }
    {
        if inodes.is_directory(ino) {
            self.lower(inodes, names, ino, MAX_NAMES - inodes.depth(dir));
        }
    }

    // Raises the directory of an inode above it, and each above that, until one is high enough. It takes no memory.
    pub(crate) fn raise_above(&mut self, inodes: &Inodes, ino: u64)
        requires tree { AreOfTree inodes.now }
        requires here { presence inodes.now ino ≡ Here }
        requires rise { HeightsRiseBut inodes.now self.old ino }
        ensures { HeightsRise inodes.now self.new }
    {
        let mut at = ino;
        for _ in 0..MAX_NAMES {
            let Some(dir) = inodes.parent(at) else {
                return;
            };
            let below = self.of(inodes, at);
            let height = self.of(inodes, dir.0);
            if height >= MAX_NAMES {
                return;
            }
            if below < height {
                return;
            }
            self.set(dir.0, below.saturating_add(1));
            at = dir.0;
        }
    }
}
