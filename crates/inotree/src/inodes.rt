//! The inodes, by number.
ghost use Rattle.std.specs.Prelude.{◌≡◌, ◌≤◌, [], IfOk, OnOk, OnErr};
ghost use Rattle.std.specs.Option.{option_copied, option_map};
ghost use Rattle.std.specs.FinMap as map;
ghost use Rattle.capbits.specs.Maps.{change_at};
ghost use Rattle.inotree.specs.Inodes.{with_attr, with_attribute, with_setting, with_site, with_snapshot, without_attribute, without_snapshot};
ghost use Rattle.inotree.specs.Tree.{depth, is_directory, is_within, names_up, parent, site_of, slot_at};

use crate::attributes::Value;
use crate::index::Slot;
use crate::name::Name;
use crate::names::{MAX_NAMES, Names};
use crate::node::{Kind, Node, Setting, Site};
use capbits::{Ino, Numbered};
use capgrant::Attr;
use std::alloc::{AllocError, Global};
use std::marker::Model;

// The inodes, by number.
#[derive(Debug)]
pub(crate) struct Inodes {
    nodes: Numbered<Node>,
}

// Not derived: so the proof of a function that drops one has a single call there.
impl Drop for Inodes {
    fn drop(self) {
        let Inodes { nodes: _ } = self;
    }
}

impl Model for Inodes {
    ghost use Rattle.inotree.specs.Inodes.{InodeMap, inode_map_code};

    ghost Value = { InodeMap };

    ghost coded = { inode_map_code };

    ghost view = { λ i. i.nodes };
}

impl Inodes {
    // No inodes.
    pub(crate) fn new(alloc: Global) -> Inodes
        ensures { result ≡ map.empty }
    {
        Inodes {
            nodes: Numbered::new(alloc),
        }
    }

    // A copy of the inodes.
    pub(crate) fn copy(&self, alloc: Global) -> Result<Inodes, AllocError>
        ensures { IfOk result (λ copy. copy ≡ self.now) }
    {
        let mut made = Inodes::new(alloc);
        for ino in self.nodes.keys() {
            if let Some(node) = self.nodes.get(*ino) {
                made.insert(*ino, node.copy(alloc)?)?;
            }
        }
        Ok(made)
    }

    // How many there are.
    pub(crate) fn len(&self) -> usize
        ensures { result ≡ map.len self.now }
    {
        self.nodes.len()
    }

    // The inode of this number, if there is one.
    pub(crate) fn get(&self, ino: u64) -> Option<&Node>
        ensures { option_copied result ≡ map.get self.now ino }
    {
        self.nodes.get(ino)
    }

    // Puts an inode under this number.
    pub(crate) fn insert(&mut self, ino: u64, node: Node) -> Result<(), AllocError>
        ensures ok { OnOk result (self.new ≡ map.insert self.old ino node) }
        ensures err { OnErr result (self.new ≡ self.old) }
    {
        self.nodes.insert(ino, node)
    }

    // Where the inode's name stands, if it has one.
    pub(crate) fn slot_of(&self, ino: u64) -> Option<Slot>
        ensures { result ≡ slot_at (site_of self.now ino) }
    {
        match &self.get(ino)?.site {
            Site::Under { dir, name } => Some(Slot {
                dir: dir.0,
                name: name.copy(),
            }),
            Site::Root | Site::Stray => None,
        }
    }

    // Whether the inode is there and a directory.
    pub(crate) fn is_directory(&self, ino: u64) -> bool
        ensures { result ≡ is_directory self.now ino }
    {
        match self.get(ino) {
            Some(node) => matches!(node.kind, Kind::Directory),
            None => false,
        }
    }

    // The directory that an inode stands in, if it stands in one.
    pub(crate) fn parent(&self, ino: u64) -> Option<Ino>
        ensures { option_map (λ i. i.0) result ≡ parent self.now ino }
    {
        match &self.get(ino)?.site {
            Site::Under { dir, .. } => Some(*dir),
            Site::Root | Site::Stray => None,
        }
    }

    // Whether the inode is the other or lies below it.
    pub(crate) fn is_within(&self, ino: u64, above: u64) -> bool
        ensures { result ≡ is_within self.now ino above }
    {
        let mut at = ino;
        for _ in 0..MAX_NAMES {
            if at == above {
                return true;
            }
            match self.parent(at) {
                Some(dir) => at = dir.0,
                None => return false,
            }
        }
        at == above
    }

    // Reads the names from the inode up to the root, or as far as they lead, into a list that has no name yet.
    pub(crate) fn read_names_up<'a>(&'a self, ino: u64, names: &mut Names<'a>)
        requires { names.old ≡ [] }
        ensures { names.new ≡ names_up MAX_NAMES self.now ino }
    {
        let mut at = ino;
        for _ in 0..MAX_NAMES {
            let Some(node) = self.get(at) else {
                break;
            };
            let Site::Under { dir, name } = &node.site else {
                break;
            };
            names.push(name.as_bytes());
            at = dir.0;
        }
    }

    // How many names the path of an inode has.
    pub(crate) fn depth(&self, ino: u64) -> usize
        ensures value { result ≡ depth self.now ino }
        ensures fits { result ≤ MAX_NAMES }
    {
        let mut names = Names::new();
        self.read_names_up(ino, &mut names);
        names.len()
    }

    // Takes the inode of this number out.
    pub(crate) fn remove(&mut self, ino: u64)
        ensures { self.new ≡ map.remove self.old ino }
    {
        self.nodes.remove(ino);
    }

    // Moves an inode, if there is one of this number.
    pub(crate) fn set_site(&mut self, ino: u64, site: Site)
        ensures { self.new ≡ change_at (with_site site) self.old ino }
    {
        if let Some(node) = self.nodes.get_mut(ino) {
            node.site = site;
        }
    }

    // Sets a field of an inode, if there is one of this number.
    pub(crate) fn set(&mut self, ino: u64, setting: Setting)
        ensures { self.new ≡ change_at (with_setting setting) self.old ino }
    {
        if let Some(node) = self.nodes.get_mut(ino) {
            node.set(setting);
        }
    }

    // Gives an inode another owner, group and mode, if there is one of this number.
    pub(crate) fn settle(&mut self, ino: u64, attr: Attr)
        ensures { self.new ≡ change_at (with_attr attr) self.old ino }
    {
        if let Some(node) = self.nodes.get_mut(ino) {
            node.attr = attr;
        }
    }

    // Sets an attribute of an inode, if there is one of this number.
    pub(crate) fn set_attribute(
        &mut self,
        ino: u64,
        name: Name,
        value: Value,
    ) -> Result<(), AllocError>
        ensures ok { OnOk result (self.new ≡ change_at (with_attribute name value) self.old ino) }
        ensures err { OnErr result (self.new ≡ self.old) }
    {
        match self.nodes.get_mut(ino) {
            Some(node) => node.attributes.insert(name, value),
            None => Ok(()),
        }
    }

    // Takes an attribute from an inode, if there is one of this number.
    pub(crate) fn remove_attribute(&mut self, ino: u64, name: &Name)
        ensures { self.new ≡ change_at (without_attribute name.now) self.old ino }
    {
        if let Some(node) = self.nodes.get_mut(ino) {
            node.attributes.remove(name);
        }
    }

    // Adds a snapshot name to an inode, if there is one of this number.
    pub(crate) fn add_snapshot(&mut self, ino: u64, name: Name) -> Result<(), AllocError>
        ensures ok { OnOk result (self.new ≡ change_at (with_snapshot name) self.old ino) }
        ensures err { OnErr result (self.new ≡ self.old) }
    {
        match self.nodes.get_mut(ino) {
            Some(node) => node.snapshots.insert(name),
            None => Ok(()),
        }
    }

    // Takes a snapshot name from an inode, if there is one of this number.
    pub(crate) fn remove_snapshot(&mut self, ino: u64, name: &Name)
        ensures { self.new ≡ change_at (without_snapshot name.now) self.old ino }
    {
        if let Some(node) = self.nodes.get_mut(ino) {
            node.snapshots.remove(name);
        }
    }
}
