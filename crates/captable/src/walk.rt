//! Walks over the entries of one client, or of one inode.
ghost use Rattle.std.specs.Prelude.{◌≡◌, IfSome, IfNone, [], ◌∷◌, map};
ghost use Rattle.cap_arena.specs.Lists.{IsLists, OfClient, OfInode};
ghost use Rattle.captable.specs.Nodes as words;
ghost use Rattle.captable.specs.Nodes.{nodes_in};
ghost use Rattle.captable.specs.Walks.{IsPlaceOf, rows_from};

use crate::entry::{EntryRow, KeptEntry, Slot};
use crate::nodes::{kept_entry_of, row_of};
use cap_arena::TripleLists;
use capbits::{ClientId, Ino};
use std::marker::Model;

// Over whose entries a walk goes.
#[derive(Clone, Copy)]
pub(crate) enum WalkOver {
    Client(ClientId),
    Inode(Ino),
}

/// The entries that are left of a walk, with their holders, in the order of making.
#[derive(Drop)]
pub struct Walk<'a> {
    lists: &'a TripleLists<Slot>,
    over: WalkOver,
    // The key of the next node, where there is one.
    at: Option<usize>,
}

impl<'a> Model for Walk<'a> {
    ghost use Rattle.std.specs.Prelude.{List};
    ghost use Rattle.captable.specs.declared.entry.EntryRow.{EntryRow};
    ghost use Rattle.captable.specs.Walks.{IsPlaceOf, name_of, rows_from};

    ghost Value = { List EntryRow };

    ghost view = { λ w. rows_from w.lists.now (name_of w.over) w.at };

    ghost invariant = { λ w. IsPlaceOf w.lists.now (name_of w.over) w.at };
}

impl<'a> Walk<'a> {
    // The entries of the client.
    pub(crate) fn of_client(lists: &'a TripleLists<Slot>, client: ClientId) -> Walk<'a>
        ensures { result ≡ map words.row_of (nodes_in lists.now (OfClient client)) }
    {
        let at = lists.first_of_client(client);
        let over = WalkOver::Client(client);
        Walk { lists, over, at }
    }

    // The entries of the client from a place on.
    pub(crate) fn from_place(
        lists: &'a TripleLists<Slot>,
        client: ClientId,
        at: Option<usize>,
    ) -> Walk<'a>
        requires { IsPlaceOf lists.now (OfClient client) at }
        ensures { result ≡ rows_from lists.now (OfClient client) at }
    {
        let over = WalkOver::Client(client);
        Walk { lists, over, at }
    }

    // The entries on the inode.
    pub(crate) fn of_inode(lists: &'a TripleLists<Slot>, ino: Ino) -> Walk<'a>
        ensures { result ≡ map words.row_of (nodes_in lists.now (OfInode ino)) }
    {
        let at = lists.first_of_ino(ino);
        let over = WalkOver::Inode(ino);
        Walk { lists, over, at }
    }

    /// The next entry, with its holder; none at the end of the walk.
    pub fn next(&mut self) -> Option<EntryRow>
        ensures some { IfSome result (λ row. self.old ≡ row ∷ self.new) }
        ensures none { IfNone result ((self.old ≡ []) × (self.new ≡ [])) }
    {
        let key = self.at?;
        let node = self.lists.get(key)?;
        self.at = match self.over {
            WalkOver::Client(_client) => self.lists.next_of_client(key),
            WalkOver::Inode(_ino) => self.lists.next_of_ino(key),
        };
        Some(row_of(&node))
    }
}

/// The entries on an inode that are left of a walk, each with what is kept beside it, in the order of making.
#[derive(Drop)]
pub struct KeptWalk<'a> {
    lists: &'a TripleLists<Slot>,
    ino: Ino,
    // The key of the next node, where there is one.
    at: Option<usize>,
}

impl<'a> Model for KeptWalk<'a> {
    ghost use Rattle.std.specs.Prelude.{List};
    ghost use Rattle.cap_arena.specs.Lists.{OfInode};
    ghost use Rattle.captable.specs.declared.entry.KeptEntry.{KeptEntry};
    ghost use Rattle.captable.specs.Walks.{IsPlaceOf, kept_from};

    ghost Value = { List KeptEntry };

    ghost view = { λ w. kept_from w.lists.now (OfInode w.ino) w.at };

    ghost invariant = { λ w. IsPlaceOf w.lists.now (OfInode w.ino) w.at };
}

impl<'a> KeptWalk<'a> {
    // The entries on the inode.
    pub(crate) fn of_inode(lists: &'a TripleLists<Slot>, ino: Ino) -> KeptWalk<'a>
        ensures { result ≡ map words.kept_entry_of (nodes_in lists.now (OfInode ino)) }
    {
        KeptWalk {
            lists,
            ino,
            at: lists.first_of_ino(ino),
        }
    }

    /// The next entry, with its holder and what is kept beside it; none at the end of the walk.
    pub fn next(&mut self) -> Option<KeptEntry>
        ensures some { IfSome result (λ entry. self.old ≡ entry ∷ self.new) }
        ensures none { IfNone result ((self.old ≡ []) × (self.new ≡ [])) }
    {
        let key = self.at?;
        let node = self.lists.get(key)?;
        self.at = self.lists.next_of_ino(key);
        Some(kept_entry_of(&node))
    }
}
