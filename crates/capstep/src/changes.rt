//! The changes that a step notes: how it changes what readers see.
ghost use Rattle.std.specs.Prelude.{◌≡◌, ℕ, ◌+◌, ◌≤◌, ◌<◌, ◌++◌, [], ◌∷◌, length, List, option_to_list, OnOk};
ghost use Rattle.capgrant.specs.declared.access.Attr.{Attr as Owners};
ghost use Rattle.inotree.specs.Calls.{with_new};
ghost use Rattle.inotree.specs.Tree.{Nodes};
ghost use Rattle.inotree.specs.declared.node.Kind.{Kind as NodeKind};
ghost use Rattle.policy_view.specs.Changes.{kind_by};
ghost use Rattle.capstep.specs.Changing.{tree_after, tree_changed};
ghost use Rattle.capstep.specs.NotedChanges.{LeadOn, sets_attr};

use crate::outcome::Outcome;
use capbits::Ino;
use inotree::{Kind, Node, Setting, Site, Tree};
use lockmachine::{Change, Operation, Request};
use policy_view::ViewChange;
use std::alloc::{AllocError, Global};
use std::fmt;
use std::marker::Model;

// Room for more is given back, so that one large step doesn't leave it behind. As many requests as may wait have places in what is
// kept.
const MAX_KEPT_PLACES: usize = 1152;

// How many places are made beyond those that a step needs, since the next step often wants one more.
const SPARE_PLACES: usize = 64;

/// Changes, in the order in which they were made. There is room for each before it is made.
pub struct ChangeList {
    items: Vec<ViewChange>,
    // For how many the step may count on room. The vector may have more, as it grows by more than one at a time.
    places: usize,
}

// Not derived: so the proof of a function that drops one has a single call there.
impl Drop for ChangeList {
    fn drop(self) {
        let ChangeList {
            items: _,
            places: _,
        } = self;
    }
}

// Tells nothing of the list: what room is kept is no part of a core, and an event that finds no memory may leave less of it.
impl fmt::Debug for ChangeList {
    fn fmt<W: fmt::Write>(&self, f: &mut fmt::Formatter<W>) -> fmt::Result {
        f.debug_struct("ChangeList").finish_non_exhaustive()
    }
}

impl Model for ChangeList {
    ghost use Rattle.std.specs.Prelude.{◌≤◌, vec_capacity};
    ghost use Rattle.capstep.specs.Codes.{noted_code};
    ghost use Rattle.capstep.specs.NotedChanges.{Noted};

    ghost Value = { Noted };

    ghost coded = { noted_code };

    ghost view = { λ c. record { items = c.items.items; room = c.places } };

    ghost invariant = { λ c. c.places ≤ vec_capacity c.items };
}

impl ChangeList {
    /// No change, and no room.
    pub fn new(alloc: Global) -> ChangeList
        ensures items { result.items ≡ [] }
    {
        ChangeList {
            items: Vec::new(alloc),
            places: 0,
        }
    }

    /// The allocator of the list.
    pub fn alloc(&self) -> Global {
        *self.items.allocator()
    }

    /// Room for so many from the first on. What is listed stays until it is cleared.
    pub fn begin(&mut self, room: usize) -> Result<(), AllocError>
        ensures items { self.new.items ≡ self.old.items }
        ensures ok { OnOk result (room ≤ self.new.room) }
    {
        // The room of a large step is given back where one begins behind a step that noted nothing.
        if self.items.is_empty() && self.items.capacity() > MAX_KEPT_PLACES {
            *self = ChangeList::new(*self.items.allocator());
        }
        if self.items.capacity() < room {
            self.items.reserve(room.saturating_add(SPARE_PLACES))?;
        }
        self.places = room;
        Ok(())
    }

    /// No change. The places stay.
    pub fn clear(&mut self)
        ensures items { self.new.items ≡ [] }
        ensures room { self.new.room ≡ self.old.room }
    {
        // Most steps change nothing of what readers see.
        if !self.items.is_empty() {
            self.items.clear();
        }
    }

    /// Makes one place more than there are.
    pub fn add_place(&mut self) -> Result<(), AllocError>
        ensures items { self.new.items ≡ self.old.items }
        ensures ok { OnOk result (self.old.room + 1 ≤ self.new.room) }
        ensures room { self.old.room ≤ self.new.room }
    {
        let places = self.places.checked_add(1).ok_or(AllocError)?;
        self.items.reserve(places.saturating_sub(self.items.len()))?;
        self.places = places;
        Ok(())
    }

    /// The changes.
    pub fn as_slice(&self) -> &[ViewChange]
        ensures { result.now ≡ self.now.items }
    {
        self.items.as_slice()
    }

    /// One more, for which there is room.
    pub fn push(&mut self, change: ViewChange)
        requires room { length self.old.items < self.old.room }
        ensures items { self.new.items ≡ self.old.items ++ change ∷ [] }
        ensures room { self.old.room ≤ self.new.room }
    {
        let Ok(()) = self.items.push(change) else {
            unreachable!()
        };
    }

    /// This change and no other, for which there is room, if there is one.
    pub fn start(&mut self, first: Option<ViewChange>)
        requires room { 1 ≤ self.old.room }
        ensures items { self.new.items ≡ option_to_list first }
        ensures room { self.old.room ≤ self.new.room }
    {
        self.clear();
        if let Some(change) = first {
            self.push(change);
        }
    }

    // ---- what is told of an inode

    /// It was made: what it is and where it stands is read off the tree.
    pub fn note_birth(&mut self, tree: &Tree, ino: Ino)
        requires room { length self.old.items < self.old.room }
        ensures lead { (before : Nodes) (kind : NodeKind) (dir : ℕ) (name : List ℕ) (attr : Owners)
            → tree.now ≡ with_new before kind dir name attr → ino.0 ≡ before.last + 1
            → LeadOn self.old.items self.new.items before tree.now }
    {
        let Some(node) = tree.node(ino) else {
            return;
        };
        let Site::Under { dir, name } = &node.site else {
            return;
        };
        let (attr, is_dir) = (node.attr, is_directory(node));
        let (dir, name) = (*dir, name.copy());
        self.push(ViewChange::Born {
            ino,
            dir,
            name,
            attr,
            is_dir,
        });
    }

    /// A client changed what it keeps. Readers see of this its owner, group and mode alone.
    pub fn note_change(&mut self, tree: &Tree, ino: Ino, change: &Change)
        requires room { length self.old.items < self.old.room }
        ensures lead { (before : Nodes) → tree.now ≡ tree_changed before ino.0 change.now
            → LeadOn self.old.items self.new.items before tree.now }
        ensures count { length self.new.items ≤ length self.old.items + 1 }
        ensures room { self.old.room ≤ self.new.room }
    {
        if sets_attr(change) {
            if let Some(node) = tree.node(ino) {
                let attr = node.attr;
                self.push(ViewChange::Settled { ino, attr });
            }
        }
    }

    /// A request was served and ended so.
    pub fn note_served(&mut self, tree: &Tree, request: &Request, outcome: &Outcome)
        requires room { length self.old.items < self.old.room }
        ensures lead { (before : Nodes) → tree.now ≡ tree_after before request.now outcome.now
            → LeadOn self.old.items self.new.items before tree.now }
        ensures count { length self.new.items ≤ length self.old.items + 1 }
        ensures room { self.old.room ≤ self.new.room }
    {
        let ino = request.ino;
        match outcome {
            Outcome::Done => match &request.operation {
                Operation::Get(_) => {}
                Operation::Alter(change) => self.note_change(tree, ino, change),
                Operation::Unlink | Operation::Rmdir => self.push(ViewChange::Removed { ino }),
                // Where it stands now is read off the tree.
                Operation::Rename { .. } => {
                    if let Some(node) = tree.node(ino) {
                        if let Site::Under { dir, name } = &node.site {
                            let (dir, name) = (*dir, name.copy());
                            self.push(ViewChange::Moved { ino, dir, name });
                        }
                    }
                }
            },
            Outcome::Values(_)
            | Outcome::Denied { .. }
            | Outcome::Refused(_)
            | Outcome::OutOfMemory
            | Outcome::Dropped => {}
        }
    }
}

/// Whether the change sets an owner, a group or a mode.
pub fn sets_attr(change: &Change) -> bool
    ensures { result ≡ sets_attr change.now }
{
    match change {
        Change::Set(Setting::Mode(_) | Setting::Uid(_) | Setting::Gid(_)) => true,
        Change::Set(Setting::Size(_) | Setting::Time(_))
        | Change::SetXattr { .. }
        | Change::RemoveXattr { .. } => false,
    }
}

// Whether the inode is a directory.
fn is_directory(node: &Node) -> bool
    ensures { kind_by result ≡ node.now.kind }
{
    match node.kind {
        Kind::Directory => true,
        Kind::File => false,
    }
}
