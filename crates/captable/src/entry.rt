//! What the table keeps of one client on one inode.

ghost use Rattle.std.specs.Prelude.{◌≡◌, ◌<◌, ◌^◌, ◌-◌, true};
ghost use Rattle.captable.specs.Calls as words;
ghost use Rattle.captable.specs.Edits.{edited, is_numbering, kept_as};
ghost use Rattle.captable.specs.Kept.{no_sets};

use capbits::{CapSet, ClientId, Ino};

/// A client on an inode, whose entry stands under both.
#[derive(Clone, Copy, PartialEq, Eq, Debug)]
pub struct Holder {
    pub client: ClientId,
    pub ino: Ino,
}

/// What the server knows of one client's caps on one inode. The three numbers count the changes of
/// what the client is to know that it holds: a message that tells it has the number of the latest change, and the client
/// names a number when it acknowledges.
#[derive(Clone, Copy, Debug)]
pub struct Entry {
    /// The caps that were issued to the client, and not given up since by an acknowledgement or a release.
    pub held: CapSet,
    /// The caps that the client wants.
    pub want: CapSet,
    /// The number of the last change of what the client is to know of.
    pub seq: u64,
    /// The number of the last change that revoked a cap, 0 if none did.
    pub revoke_seq: u64,
    /// The number of the last change that the client was told of.
    pub told_seq: u64,
    /// Whether the client is asked to release caps, in a message that is still due.
    pub asked: bool,
    /// Whether the client is still to be told the inode's size, which was changed while it cached the data.
    pub size_due: bool,
}

/// An entry with its holder.
#[derive(Clone, Copy)]
pub struct EntryRow {
    /// Whose entry it is.
    pub holder: Holder,
    pub entry: Entry,
}

/// What is kept beside an entry, so that it is not found anew.
#[derive(Clone, Copy, Debug)]
pub struct ClientView {
    /// The set that its client is to know of.
    pub pending: CapSet,
    /// What its client is permitted to hold.
    pub permitted: CapSet,
}

/// An entry with its holder, and what is kept beside it.
#[derive(Clone, Copy)]
pub struct KeptEntry {
    /// The entry with its holder.
    pub row: EntryRow,
    /// The sets beside it.
    pub sets: ClientView,
}

/// What is kept with the node of a holder: its entry, the sets beside it, and how many entries were made before it.
#[derive(Clone, Copy, Debug)]
pub struct Slot {
    pub entry: Entry,
    /// The sets beside it.
    pub sets: ClientView,
    /// How many entries were made before it, those that are gone too.
    pub number: u64,
}

// A change of an entry.
#[derive(Clone, Copy)]
pub(crate) enum Edit {
    // The client wants these.
    Want(CapSet),
    // It holds these too.
    Issue(CapSet),
    // It holds these no more.
    Ack(CapSet),
    // It neither holds nor wants these.
    Release(CapSet),
    // What it is to know of changed.
    Renumber {
        before: CapSet,
        after: CapSet,
    },
    // It holds these too, and what it is to know of changed.
    IssueNumbered {
        caps: CapSet,
        before: CapSet,
        after: CapSet,
    },
    // It was told of the last change.
    Tell,
    // Whether it is asked to release caps.
    Ask(bool),
    // Whether it is to be told the size.
    OweSize(bool),
}

// A change of what is kept beside an entry.
#[derive(Clone, Copy)]
pub(crate) enum Keeping {
    // Both sets.
    Both(ClientView),
    // What the client is to know of.
    Pending(CapSet),
    // What it is permitted to hold.
    Permitted(CapSet),
}

impl ClientView {
    // Empty sets.
    pub(crate) fn none() -> ClientView
        ensures { result ≡ no_sets }
    {
        ClientView {
            pending: CapSet::empty(),
            permitted: CapSet::empty(),
        }
    }

    // The sets, changed.
    pub(crate) fn kept(self, keeping: Keeping) -> ClientView
        ensures { result ≡ kept_as keeping self }
    {
        match keeping {
            Keeping::Both(sets) => sets,
            Keeping::Pending(pending) => ClientView { pending, ..self },
            Keeping::Permitted(permitted) => ClientView { permitted, ..self },
        }
    }
}

impl Entry {
    // The entry of a client that opens the inode.
    pub(crate) fn new() -> Entry
        ensures { result ≡ words.new_entry }
    {
        Entry {
            held: CapSet::empty(),
            want: CapSet::empty(),
            seq: 0,
            revoke_seq: 0,
            told_seq: 0,
            asked: false,
            size_due: false,
        }
    }

    /// Whether the client was not told of the last change, is still to be told the size, or is asked to release.
    pub fn is_due(&self) -> bool
        ensures { result ≡ words.is_due_entry self.now }
    {
        self.told_seq < self.seq || self.size_due || self.asked
    }

    // The entry, changed.
    pub(crate) fn edited(&self, edit: Edit) -> Entry
        requires { is_numbering edit ≡ true → self.now.seq < 2 ^ 64 - 1 }
        ensures { result ≡ edited edit self.now }
    {
        match edit {
            Edit::Want(want) => Entry { want, ..*self },
            Edit::Issue(caps) => self.issued(caps),
            Edit::Ack(caps) => Entry {
                held: self.held.minus(caps),
                ..*self
            },
            Edit::Release(caps) => Entry {
                held: self.held.minus(caps),
                want: self.want.minus(caps),
                ..*self
            },
            Edit::Renumber { before, after } => self.renumbered(before, after),
            Edit::IssueNumbered {
                caps,
                before,
                after,
            } => self.issued(caps).renumbered(before, after),
            Edit::Tell => Entry {
                told_seq: self.seq,
                ..*self
            },
            Edit::Ask(asked) => Entry { asked, ..*self },
            Edit::OweSize(size_due) => Entry { size_due, ..*self },
        }
    }

    // The client holds these too.
    fn issued(&self, caps: CapSet) -> Entry
        ensures { result ≡ words.issued caps self.now }
    {
        let held = self.held.union(caps);
        Entry { held, ..*self }
    }

    // What the client is to know of changed.
    fn renumbered(&self, before: CapSet, after: CapSet) -> Entry
        requires { self.now.seq < 2 ^ 64 - 1 }
        ensures { result ≡ words.renumbered before after self.now }
    {
        let lost = !before.minus(after).is_empty();
        let gained = !after.minus(before).is_empty();
        if lost {
            let seq = self.seq + 1;
            let revoke_seq = seq;
            return Entry {
                seq,
                revoke_seq,
                ..*self
            };
        }
        if gained {
            let seq = self.seq + 1;
            return Entry { seq, ..*self };
        }
        *self
    }
}
