//! The tree of inodes.
ghost use Rattle.std.specs.Prelude.{◌≡◌, ℕ, ◌+◌, ◌≤◌, ◌&&◌, true, not, nat_le, [], ◌∷◌, Some, None, is_some, if◌then◌else◌, IfOk, IfSome, OnOk, OnErr, All};
ghost use Rattle.std.specs.Prelude.{Contains, IsTrue};
ghost use Rattle.std.specs.Prelude.{map as each};
ghost use Rattle.std.specs.Option.{option_copied, option_map};
ghost use Rattle.std.specs.FinMap as map;
ghost use Rattle.capspec.specs.Paths.{is_name};
ghost use Rattle.inotree.specs.Inodes.{with_attr, with_attribute, with_setting, with_snapshot, without_attribute, without_snapshot};
ghost use Rattle.capbits.specs.Refusal.{first_failing};
ghost use Rattle.inotree.specs.Tree.{IsTree, child, depth, descends, follow, is_directory, is_within, parent, path_of, presence};
ghost use Rattle.inotree.specs.Tests.{childless_test, create_tests, detach_tests, directory_test, empty_test, exists_test, file_test, inode_tests, name_tests};
ghost use Rattle.inotree.specs.Tests.{new_attribute_tests, new_inode_tests, new_site_tests, new_snapshot_tests, old_attribute_tests, old_snapshot_tests};
ghost use Rattle.inotree.specs.Tests.{remove_xattr_tests, rename_tests, rmdir_tests, root_test, set_tests, set_xattr_tests, setting_tests, snap_add_tests};
ghost use Rattle.inotree.specs.Tests.{snap_remove_tests, test_at, unlink_tests};
ghost use Rattle.inotree.specs.Calls.{changed, first_tree, forgotten, moved, unlinked, with_new};

use crate::attributes::{Attributes, MAX_ATTRIBUTES, MAX_VALUE, Value};
use crate::heights::Heights;
use crate::index::{Index, Slot};
use crate::inodes::Inodes;
use crate::name::{Name, is_bad_attribute, is_bad_name};
use crate::names::{MAX_NAMES, Names};
use crate::node::{Kind, Node, Presence, Setting, Site};
use crate::snapshots::{MAX_SNAPSHOTS, Snapshots};
use capbits::{Ino, Refusal};
use capgrant::Attr;
use std::alloc::{AllocError, Global};
use std::fmt;
use std::marker::Model;

/// How many inodes there may be at a time, with the root and the strays.
pub const MAX_INODES: usize = 65536;

/// The number of the root.
pub const ROOT: Ino = Ino(1);

/// The inodes of a file system: directories and files, each in one directory under one name, and strays.
pub struct Tree {
    inodes: Inodes,
    // Which inode stands at each name.
    names: Index,
    // How far down something may lie below each directory.
    heights: Heights,
    // The last number given.
    last: u64,
    alloc: Global,
}

impl Model for Tree {
    ghost use Rattle.inotree.specs.Tree.{IsTree, Nodes, nodes_code};
    ghost use Rattle.inotree.specs.Heights.{AreConsistent};

    ghost Value = { Nodes };

    ghost coded = { nodes_code };

    ghost view = { λ t. record { nodes = t.inodes; last = t.last } };

    ghost invariant = { λ t. IsTree (record { nodes = t.inodes; last = t.last }) × AreConsistent t.inodes t.names t.heights };
}

// The inodes tell all. The names are found by them once more, and the heights tell how much of the tree was looked at: a change that
// finds no memory may leave higher ones.
impl fmt::Debug for Tree {
    fn fmt<W: fmt::Write>(&self, f: &mut fmt::Formatter<W>) -> fmt::Result {
        f.debug_struct("Tree")
            .field("inodes", &self.inodes)
            .field("last", &self.last)
            .field("alloc", &self.alloc)
            .finish()
    }
}

// Not derived: so the proof of a function that drops one has a single call there, and no step for each part.
impl Drop for Tree {
    fn drop(self) {
        let Tree {
            inodes: _inodes,
            names: _names,
            heights: _heights,
            last: _last,
            alloc: _alloc,
        } = self;
    }
}

impl Tree {
    /// A root alone, with this owner, group and mode.
    pub fn new(alloc: Global, attr: Attr) -> Result<Tree, AllocError>
        ensures { IfOk result (λ tree. tree ≡ first_tree attr) }
    {
        let mut inodes = Inodes::new(alloc);
        let root = Node {
            kind: Kind::Directory,
            site: Site::Root,
            attr,
            size: 0,
            time: 0,
            attributes: Attributes::new(alloc),
            snapshots: Snapshots::new(alloc),
        };
        inodes.insert(1, root)?;
        Ok(Tree {
            inodes,
            names: Index::new(alloc),
            heights: Heights::new(alloc),
            last: 1,
            alloc,
        })
    }

    /// A copy of the tree.
    pub fn copy(&self) -> Result<Tree, AllocError>
        ensures { IfOk result (λ copy. copy ≡ self.now) }
    {
        Ok(Tree {
            inodes: self.inodes.copy(self.alloc)?,
            names: self.names.copy(self.alloc)?,
            heights: self.heights.copy(self.alloc)?,
            last: self.last,
            alloc: self.alloc,
        })
    }

    /// The allocator of the tree.
    pub fn alloc(&self) -> Global
        ensures sound { IsTree self.now }
    {
        self.alloc
    }

    /// The last inode number that was given: 1 in a new tree. The next is one more.
    pub fn last(&self) -> Ino
        ensures last { result.0 ≡ self.now.last }
        ensures sound { IsTree self.now }
    {
        Ino(self.last)
    }

    /// What the tree keeps of an inode, if it has it.
    pub fn node(&self, ino: Ino) -> Option<&Node>
        ensures node { option_copied result ≡ map.get self.now.nodes ino.0 }
        ensures sound { IsTree self.now }
    {
        self.inodes.get(ino.0)
    }

    /// Whether the tree has an inode, and whether it has a path.
    pub fn presence(&self, ino: Ino) -> Presence
        ensures { result ≡ presence self.now.nodes ino.0 }
    {
        match self.inodes.get(ino.0) {
            None => Presence::NoIno,
            Some(node) => match &node.site {
                Site::Stray => Presence::Gone,
                Site::Root | Site::Under { .. } => Presence::Here,
            },
        }
    }

    /// The directory that an inode stands in; none for the root, a stray and where there is no inode.
    pub fn parent(&self, ino: Ino) -> Option<Ino>
        ensures { option_map (λ i. i.0) result ≡ parent self.now.nodes ino.0 }
    {
        self.inodes.parent(ino.0)
    }

    /// The inode that a directory has under a name.
    pub fn child(&self, dir: Ino, name: &[u8]) -> Option<Ino>
        ensures { option_map (λ i. i.0) result ≡ child self.now.nodes dir.0 name.now }
    {
        let names = &self.names;
        let name = Name::read(name)?;
        let ino = names.get(&Slot { dir: dir.0, name })?;
        Some(Ino(ino))
    }

    /// The inode to which the names lead from the root.
    pub fn resolve(&self, names: &[&[u8]]) -> Option<Ino>
        ensures { option_map (λ i. i.0) result ≡ follow self.now.nodes (Some 1) (each (λ name. name.now) names.now) }
    {
        let mut ino = ROOT;
        for name in names {
            ino = self.child(ino, name)?;
        }
        Some(ino)
    }

    /// The names from the root to an inode; none for a stray, and where there is no inode.
    pub fn path_of(&self, ino: Ino) -> Option<Names<'_>>
        ensures path { result ≡ path_of self.now.nodes ino.0 }
        // They lead back to the inode.
        ensures leads { IfSome result (λ names. follow self.now.nodes (Some 1) names ≡ Some ino.0) }
        // Each has a byte and no slash.
        ensures names { IfSome result (λ names. All (λ name. IsTrue (is_name name)) names) }
    {
        let _last = self.last;
        let mut names = Names::new();
        if self.read_path(ino, &mut names) {
            Some(names)
        } else {
            None
        }
    }

    /// Reads the names from the root to an inode into a list that has no name yet, and answers whether it has a path. No name is
    /// copied, nor is the list.
    pub fn read_path<'a>(&'a self, ino: Ino, names: &mut Names<'a>) -> bool
        requires { names.old ≡ [] }
        ensures { path_of self.now.nodes ino.0 ≡ (if result then Some names.new else None) }
    {
        self.inodes.read_names_up(ino.0, names);
        if names.is_empty() {
            // It is the root, or has no path.
            return matches!(self.presence(ino), Presence::Here);
        }
        names.reverse();
        true
    }

    /// The inode and all that lie below it, in no order that is promised; the inode itself also where the tree does not
    /// have it. The cost is a search for each of them, and does not grow otherwise with the rest of the tree. An error
    /// means that memory ran out.
    pub fn within(&self, alloc: Global, ino: Ino) -> Result<Vec<Ino>, AllocError>
        ensures all { IfOk result (λ inos. (other : ℕ) → is_within self.now.nodes other ino.0 ≡ true → Contains inos.items (record { 0 = other })) }
        ensures only { IfOk result (λ inos. All (λ other. is_within self.now.nodes other.0 ino.0 ≡ true) inos.items) }
    {
        let _last = self.last;
        let mut inos = Vec::new(alloc);
        self.names
            .gather(&self.inodes, ino.0, MAX_NAMES, &mut inos)?;
        Ok(inos)
    }

    // The inode, if it is there and a directory.
    fn directory(&self, ino: Ino) -> Option<&Node>
        ensures is { is_some result ≡ is_directory self.now.nodes ino.0 }
        ensures sound { IsTree self.now }
        ensures node { IfSome result (λ node. map.get self.now.nodes ino.0 ≡ Some node.now) }
    {
        let node = self.inodes.get(ino.0)?;
        match node.kind {
            Kind::Directory => Some(node),
            Kind::File => None,
        }
    }

    // How many names the path of an inode has.
    fn depth(&self, ino: Ino) -> usize
        ensures value { result ≡ depth self.now.nodes ino.0 }
        ensures fits { result ≤ MAX_NAMES }
    {
        self.inodes.depth(ino.0)
    }

    // Whether something lies so many steps below an inode.
    fn descends(&self, ino: Ino, steps: usize) -> bool
        ensures { result ≡ descends steps self.now.nodes ino.0 }
    {
        let _last = self.last;
        self.names
            .descends(&self.inodes, &self.heights, ino.0, steps)
    }

    // ---- what would be refused

    /// Why what needs an inode, also a stray, is refused: it is not there.
    pub fn exists_refusal(&self, ino: Ino) -> Option<Refusal>
        ensures { result ≡ first_failing (exists_test self.now ino.0 ∷ []) }
    {
        match self.presence(ino) {
            Presence::NoIno => Some(Refusal::NoIno),
            Presence::Gone | Presence::Here => None,
        }
    }

    /// Why what needs an inode with a path is refused: it is not there, or a stray.
    pub fn inode_refusal(&self, ino: Ino) -> Option<Refusal>
        ensures { result ≡ first_failing (inode_tests self.now ino.0) }
    {
        match self.presence(ino) {
            Presence::NoIno => Some(Refusal::NoIno),
            Presence::Gone => Some(Refusal::Gone),
            Presence::Here => None,
        }
    }

    /// Why an inode can't leave its site: it is the root.
    pub fn root_refusal(&self, ino: Ino) -> Option<Refusal>
        ensures { result ≡ first_failing (root_test self.now ino.0 ∷ []) }
    {
        match &self.inodes.get(ino.0)?.site {
            Site::Root => Some(Refusal::Root),
            Site::Under { .. } | Site::Stray => None,
        }
    }

    /// Why what needs a file, as to unlink or to set a size, is refused: the inode is a directory.
    pub fn file_refusal(&self, ino: Ino) -> Option<Refusal>
        ensures { result ≡ first_failing (file_test self.now ino.0 ∷ []) }
    {
        match self.directory(ino) {
            Some(_directory) => Some(Refusal::IsDir),
            None => None,
        }
    }

    /// Why an inode can't be detached: something stands in it.
    pub fn childless_refusal(&self, ino: Ino) -> Option<Refusal>
        ensures { result ≡ first_failing (childless_test self.now ino.0 ∷ []) }
    {
        if self.descends(ino, 1) {
            return Some(Refusal::NotEmpty);
        }
        None
    }

    /// Why an inode can't be removed as an empty directory.
    pub fn empty_refusal(&self, ino: Ino) -> Option<Refusal>
        ensures { result ≡ first_failing (directory_test self.now ino.0 ∷ empty_test self.now ino.0 ∷ []) }
    {
        let Some(node) = self.directory(ino) else {
            return Some(Refusal::NotDir);
        };
        if self.descends(ino, 1) || node.snapshots.len() > 0 {
            return Some(Refusal::NotEmpty);
        }
        None
    }

    // Why a name can't be given in a directory.
    fn name_refusal(&self, dir: Ino, name: &[u8]) -> Option<Refusal>
        ensures { result ≡ first_failing (directory_test self.now dir.0 ∷ name_tests self.now dir.0 name.now) }
    {
        if self.directory(dir).is_none() {
            return Some(Refusal::NotDir);
        }
        if is_bad_name(name) {
            return Some(Refusal::NameBad);
        }
        if self.child(dir, name).is_some() {
            return Some(Refusal::Exists);
        }
        None
    }

    /// Why a directory can't have a new inode under a name.
    pub fn new_inode_refusal(&self, dir: Ino, name: &[u8]) -> Option<Refusal>
        ensures { result ≡ first_failing (new_inode_tests self.now dir.0 name.now) }
    {
        if let Some(refusal) = self.name_refusal(dir, name) {
            return Some(refusal);
        }
        if self.depth(dir) >= MAX_NAMES {
            return Some(Refusal::TooDeep);
        }
        if self.inodes.len() >= MAX_INODES || self.last == u64::MAX {
            return Some(Refusal::Limit);
        }
        None
    }

    /// Why an inode can't stand in a directory under a name.
    pub fn new_site_refusal(&self, ino: Ino, dir: Ino, name: &[u8]) -> Option<Refusal>
        ensures { result ≡ first_failing (new_site_tests self.now ino.0 dir.0 name.now) }
    {
        if let Some(of_name) = self.name_refusal(dir, name) {
            return Some(of_name);
        }
        if self.inodes.is_within(dir.0, ino.0) {
            return Some(Refusal::Loop);
        }
        if self.descends(ino, MAX_NAMES - self.depth(dir)) {
            return Some(Refusal::TooDeep);
        }
        None
    }

    /// Why a field of an inode can't be set: a file alone has a size.
    pub fn setting_refusal(&self, ino: Ino, setting: &Setting) -> Option<Refusal>
        ensures { result ≡ first_failing (setting_tests self.now ino.0 setting.now) }
    {
        match setting {
            Setting::Size(_) => self.file_refusal(ino),
            Setting::Mode(_) | Setting::Uid(_) | Setting::Gid(_) | Setting::Time(_) => None,
        }
    }

    /// Why an inode can't have a value in an attribute.
    pub fn new_attribute_refusal(&self, ino: Ino, name: &[u8], value: &[u8]) -> Option<Refusal>
        ensures { result ≡ first_failing (new_attribute_tests self.now ino.0 name.now value.now) }
    {
        if is_bad_attribute(name) {
            return Some(Refusal::NameBad);
        }
        if value.len() > MAX_VALUE || self.is_full(ino, &Name::of(name)) {
            return Some(Refusal::Limit);
        }
        None
    }

    // Whether an inode has as many attributes as it may, and not this one.
    fn is_full(&self, ino: Ino, name: &Name) -> bool
        ensures { result ≡ test_at (λ n. not (map.contains_key n.attributes name.now) && nat_le MAX_ATTRIBUTES (map.len n.attributes)) self.now ino.0 }
    {
        match self.inodes.get(ino.0) {
            Some(node) => {
                node.attributes.get(name).is_none() && node.attributes.len() >= MAX_ATTRIBUTES
            }
            None => false,
        }
    }

    /// Why an attribute can't be removed from an inode: it has none of this name.
    pub fn old_attribute_refusal(&self, ino: Ino, name: &[u8]) -> Option<Refusal>
        ensures { result ≡ first_failing (old_attribute_tests self.now ino.0 name.now) }
    {
        let node = self.inodes.get(ino.0)?;
        let Some(name) = Name::read(name) else {
            return Some(Refusal::NoXattr);
        };
        match node.attributes.get(&name) {
            Some(_value) => None,
            None => Some(Refusal::NoXattr),
        }
    }

    /// Why an inode can't have a new snapshot of a name.
    pub fn new_snapshot_refusal(&self, ino: Ino, name: &[u8]) -> Option<Refusal>
        ensures { result ≡ first_failing (new_snapshot_tests self.now ino.0 name.now) }
    {
        let Some(node) = self.directory(ino) else {
            return Some(Refusal::NotDir);
        };
        if is_bad_name(name) {
            return Some(Refusal::NameBad);
        }
        if node.snapshots.contains(&Name::of(name)) {
            return Some(Refusal::Exists);
        }
        if node.snapshots.len() >= MAX_SNAPSHOTS {
            return Some(Refusal::Limit);
        }
        None
    }

    /// Why a snapshot can't be removed from an inode.
    pub fn old_snapshot_refusal(&self, ino: Ino, name: &[u8]) -> Option<Refusal>
        ensures { result ≡ first_failing (old_snapshot_tests self.now ino.0 name.now) }
    {
        let Some(node) = self.directory(ino) else {
            return Some(Refusal::NotDir);
        };
        let Some(name) = Name::read(name) else {
            return Some(Refusal::NoEnt);
        };
        if !node.snapshots.contains(&name) {
            return Some(Refusal::NoEnt);
        }
        None
    }

    // ---- changes, whose tests were passed

    /// Makes a file in a directory, with this owner, group and mode, and answers its number.
    pub fn create_tested(&mut self, dir: Ino, name: &[u8], attr: Attr) -> Result<Ino, AllocError>
        requires passed { first_failing (create_tests self.old dir.0 name.now) ≡ None }
        ensures ok { OnOk result (self.new ≡ with_new self.old Kind.File dir.0 name.now attr) }
        ensures ino { IfOk result (λ ino. ino.0 ≡ self.old.last + 1) }
        ensures err { OnErr result (self.new ≡ self.old) }
    {
        self.add(Kind::File, dir, name, attr)
    }

    /// Makes a directory in a directory, with this owner, group and mode, and answers its number.
    pub fn mkdir_tested(&mut self, dir: Ino, name: &[u8], attr: Attr) -> Result<Ino, AllocError>
        requires passed { first_failing (create_tests self.old dir.0 name.now) ≡ None }
        ensures ok { OnOk result (self.new ≡ with_new self.old Kind.Directory dir.0 name.now attr) }
        ensures ino { IfOk result (λ ino. ino.0 ≡ self.old.last + 1) }
        ensures err { OnErr result (self.new ≡ self.old) }
    {
        self.add(Kind::Directory, dir, name, attr)
    }

    // Makes an inode of this kind.
    fn add(&mut self, kind: Kind, dir: Ino, name: &[u8], attr: Attr) -> Result<Ino, AllocError>
        requires passed { first_failing (create_tests self.old dir.0 name.now) ≡ None }
        ensures ok { OnOk result (self.new ≡ with_new self.old kind dir.0 name.now attr) }
        ensures ino { IfOk result (λ ino. ino.0 ≡ self.old.last + 1) }
        ensures err { OnErr result (self.new ≡ self.old) }
    {
        let ino = self.last + 1;
        let node = Node {
            kind,
            site: Site::Under {
                dir,
                name: Name::of(name),
            },
            attr,
            size: 0,
            time: 0,
            attributes: Attributes::new(self.alloc),
            snapshots: Snapshots::new(self.alloc),
        };
        let slot = Slot {
            dir: dir.0,
            name: Name::of(name),
        };
        if self.inodes.insert(ino, node).is_err() {
            return Err(AllocError);
        }
        if self.names.insert(slot, ino).is_err() {
            self.inodes.remove(ino);
            return Err(AllocError);
        }
        self.last = ino;
        self.heights.begin(ino, kind);
        self.heights.raise_above(&self.inodes, ino);
        Ok(Ino(ino))
    }

    /// Unlinks a file, which stays as a stray until it is forgotten.
    pub fn unlink_tested(&mut self, ino: Ino)
        requires passed { first_failing (unlink_tests self.old ino.0) ≡ None }
        ensures { self.new ≡ unlinked self.old ino.0 }
    {
        let _last = self.last;
        self.detach(ino);
    }

    /// Removes an empty directory, which stays as a stray until it is forgotten.
    pub fn rmdir_tested(&mut self, ino: Ino)
        requires passed { first_failing (rmdir_tests self.old ino.0) ≡ None }
        ensures { self.new ≡ unlinked self.old ino.0 }
    {
        self.detach(ino);
    }

    /// Makes a stray of an inode in which nothing stands, a file or a directory. Unlike `rmdir` it takes a directory that
    /// has snapshots too: where a tree follows another one without its snapshots, it may have some that are gone there.
    pub fn detach(&mut self, ino: Ino)
        requires passed { first_failing (detach_tests self.old ino.0) ≡ None }
        ensures { self.new ≡ unlinked self.old ino.0 }
    {
        let Some(slot) = self.inodes.slot_of(ino.0) else {
            unreachable!()
        };
        self.names.remove(&slot);
        self.inodes.set_site(ino.0, Site::Stray);
    }

    /// Moves an inode into a directory, under a name.
    pub fn rename_tested(&mut self, ino: Ino, dir: Ino, name: &[u8]) -> Result<(), AllocError>
        requires passed { first_failing (rename_tests self.old ino.0 dir.0 name.now) ≡ None }
        ensures ok { OnOk result (self.new ≡ moved self.old ino.0 dir.0 name.now) }
        ensures err { OnErr result (self.new ≡ self.old) }
    {
        // A look at the tree, by which the proof knows what it keeps.
        let _last = self.last;
        let Some(old) = self.inodes.slot_of(ino.0) else {
            unreachable!()
        };
        self.heights
            .lower_to_fit(&self.inodes, &self.names, ino.0, dir.0);
        let slot = Slot {
            dir: dir.0,
            name: Name::of(name),
        };
        if self.names.insert(slot, ino.0).is_err() {
            return Err(AllocError);
        }
        self.names.remove(&old);
        let site = Site::Under {
            dir,
            name: Name::of(name),
        };
        self.inodes.set_site(ino.0, site);
        self.heights.raise_above(&self.inodes, ino.0);
        Ok(())
    }

    /// Sets a field of an inode.
    pub fn set_tested(&mut self, ino: Ino, setting: Setting)
        requires passed { first_failing (set_tests self.old ino.0 setting) ≡ None }
        ensures { self.new ≡ changed (with_setting setting) self.old ino.0 }
    {
        self.inodes.set(ino.0, setting);
    }

    /// Gives an inode another owner, group and mode at once.
    pub fn settle(&mut self, ino: Ino, attr: Attr)
        requires passed { first_failing (inode_tests self.old ino.0) ≡ None }
        ensures { self.new ≡ changed (with_attr attr) self.old ino.0 }
    {
        self.inodes.settle(ino.0, attr);
    }

    /// Gives an attribute of an inode a value, in place of the one that it may have.
    pub fn set_xattr_tested(
        &mut self,
        ino: Ino,
        name: &[u8],
        value: &[u8],
    ) -> Result<(), AllocError>
        requires passed { first_failing (set_xattr_tests self.old ino.0 name.now value.now) ≡ None }
        ensures ok { OnOk result (self.new ≡ changed (with_attribute name.now value.now) self.old ino.0) }
        ensures err { OnErr result (self.new ≡ self.old) }
    {
        let value = Value::read(self.alloc, value)?;
        self.inodes.set_attribute(ino.0, Name::of(name), value)
    }

    /// Removes an attribute from an inode.
    pub fn remove_xattr_tested(&mut self, ino: Ino, name: &[u8])
        requires passed { first_failing (remove_xattr_tests self.old ino.0 name.now) ≡ None }
        ensures { self.new ≡ changed (without_attribute name.now) self.old ino.0 }
    {
        let inodes = &mut self.inodes;
        let Some(name) = Name::read(name) else {
            unreachable!()
        };
        inodes.remove_attribute(ino.0, &name);
    }

    /// Gives a directory a snapshot of this name.
    pub fn snap_add_tested(&mut self, ino: Ino, name: &[u8]) -> Result<(), AllocError>
        requires passed { first_failing (snap_add_tests self.old ino.0 name.now) ≡ None }
        ensures ok { OnOk result (self.new ≡ changed (with_snapshot name.now) self.old ino.0) }
        ensures err { OnErr result (self.new ≡ self.old) }
    {
        self.inodes.add_snapshot(ino.0, Name::of(name))
    }

    /// Removes a snapshot name from a directory.
    pub fn snap_remove_tested(&mut self, ino: Ino, name: &[u8])
        requires passed { first_failing (snap_remove_tests self.old ino.0 name.now) ≡ None }
        ensures { self.new ≡ changed (without_snapshot name.now) self.old ino.0 }
    {
        let inodes = &mut self.inodes;
        let Some(name) = Name::read(name) else {
            unreachable!()
        };
        inodes.remove_snapshot(ino.0, &name);
    }

    /// Forgets a stray. Its number is not given again.
    pub fn forget(&mut self, ino: Ino)
        requires { presence self.old.nodes ino.0 ≡ Presence.Gone }
        ensures { self.new ≡ forgotten self.old ino.0 }
    {
        self.inodes.remove(ino.0);
        self.heights.remove(ino.0);
    }
}
