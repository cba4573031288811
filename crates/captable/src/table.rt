//! The table of entries.
ghost use Rattle.std.specs.Prelude.{◌≡◌, ◌<◌, ◌^◌, ◌-◌, true, false, [], ◌∷◌, IfSome, IfOk, OnOk, OnErr, Some, None, length, slice_get, take, filter, map};
ghost use Rattle.std.specs.Prelude.{unwrap_or};

use crate::entry::{ClientView, Edit, Entry, Holder, Keeping, Slot};
use crate::holders::Holders;
use crate::nodes::{
    add_node, first_holders, holder_at, keep_sets, key_of, remove_node, set_entry, touch_node,
};
use crate::places::is_due_at;
use crate::polls::{
    Poll, begin_poll, count_again, count_of, end_poll, lower_place, move_place, place_to_poll_from,
    set_place, skip_place,
};
use crate::walk::{KeptWalk, Walk};
use cap_arena::{MAX_NODES, TripleLists};
use capbits::{Cap, CapSet, ChangeError, ClientId, Ino, Numbered, Refusal};
use std::alloc::{AllocError, Global};
use std::fmt;
use std::marker::{Brand, Model};
use std::sync::ledger::Blank;

/// How many entries there may be.
pub const MAX_ENTRIES: usize = MAX_NODES;

/// The entries of all clients on all inodes, at most `MAX_ENTRIES`, one for each client on an inode. They have two
/// orders: the order of making, which stays, and the order of recall, in which clients are asked to release caps:
/// the entry that was left alone longest is the oldest, and comes first.
pub struct CapTable {
    alloc: Global,
    lists: TripleLists<Slot>,
    // Of each client with an entry, from where on entries are due, and how many.
    polls: Numbered<Poll>,
    // How many entries were made so far.
    made: u64,
    // A guess at the key of the node that is looked for next.
    near: usize,
}

impl Model for CapTable {
    ghost use Rattle.captable.specs.Kept.{KeptTable};
    ghost use Rattle.captable.specs.Codes.{kept_table_code};
    ghost use Rattle.captable.specs.Nodes.{both_of, table_of};
    ghost use Rattle.captable.specs.Linked.{IsLinked};
    ghost use Rattle.captable.specs.Places.{ArePlaced, NoneDueBeforeAny};
    ghost use Rattle.captable.specs.Polls.{AreCounted, counts_of, places_of};

    ghost Value = { KeptTable };

    ghost coded = { kept_table_code };

    ghost view = { λ t. both_of t.lists t.made };

    ghost invariant = { λ t. IsLinked t.lists t.made × NoneDueBeforeAny t.lists (places_of t.polls) × ArePlaced t.lists (places_of t.polls)
        × AreCounted (table_of t.lists t.made).rows (counts_of t.polls) };
}

// Not derived: so the proof of a function that drops one has a single call there, and no step for each part.
impl Drop for CapTable {
    fn drop(self) {
        let CapTable {
            alloc: _alloc,
            lists: _lists,
            polls: _polls,
            made: _made,
            near: _near,
        } = self;
    }
}

// All but what is kept for polls, and the guess: they are no part of the table, but tell how far polls have come, and which
// entry was looked for last.
impl fmt::Debug for CapTable {
    fn fmt<W: fmt::Write>(&self, f: &mut fmt::Formatter<W>) -> fmt::Result {
        f.debug_struct("CapTable")
            .field("alloc", &self.alloc)
            .field("lists", &self.lists)
            .field("made", &self.made)
            .finish()
    }
}

impl CapTable {
    ghost use Rattle.captable.specs.Kept as words;
    ghost use Rattle.captable.specs.Kept.{AreBeside, permitted_beside, permitting, sets_beside, telling};
    ghost use Rattle.std.specs.List.{fold, list_any};
    ghost use Rattle.std.specs.Result.{result_err};
    ghost use Rattle.cap_arena.specs.Lists.{IsLists};
    ghost use Rattle.captable.specs.Table.{IsTable, entry_at, holder, holders_of_rows};
    ghost use Rattle.captable.specs.Nodes.{AreLists};
    ghost use Rattle.captable.specs.Walks.{first_holder};
    ghost use Rattle.captable.specs.Many.{asking, changed_by};
    ghost use Rattle.capbits.specs.Refusal.{first_failing, refusal_in};
    ghost use Rattle.captable.specs.Tests.{ack_tests, entry_test, open_entry_tests, open_tests, release_tests, test_at};
    ghost use Rattle.captable.specs.Edits.{edited, is_numbering, kept_as};
    ghost use Rattle.captable.specs.Calls.{entries_on, has_pin, is_due, is_of_client, is_of_inode, issued, newer_in, recalled, renumbered, touched, wanting};
    ghost use Rattle.captable.specs.Calls.{with_asked, with_size_due, with_told};

    /// A table without entries, of which none was made yet. No clause can say that the memory for it is there.
    pub fn new(alloc: Global) -> Result<CapTable, AllocError>
        ensures { IfOk result (λ table. table ≡ words.nothing) }
    {
        let lists = TripleLists::new(alloc)?;
        let polls = Numbered::new(alloc);
        Ok(CapTable {
            alloc,
            lists,
            polls,
            made: 0,
            near: 0,
        })
    }

    /// How many entries were made so far, those that are gone too.
    pub fn made(&self) -> u64
        ensures { result ≡ self.now.entries.made }
    {
        self.made
    }

    /// The client's entry on the inode, where it has one.
    pub fn find(&self, client: ClientId, ino: Ino) -> Option<Entry>
        ensures entry { result ≡ entry_at self.now.entries (holder client ino) }
        ensures sound { IsTable self.now.entries }
    {
        let key = key_of(&self.lists, Holder { client, ino }, self.near)?;
        let node = self.lists.get(key)?;
        Some(node.value.entry)
    }

    /// The client's entry on the inode, guessed to stand at a place. If it does, it is not searched for.
    pub fn find_near(&self, client: ClientId, ino: Ino, place: usize) -> Option<Entry>
        ensures { result ≡ entry_at self.now.entries (holder client ino) }
    {
        match self.slot_near(Holder { client, ino }, place) {
            Some(slot) => Some(slot.entry),
            None => self.find(client, ino),
        }
    }

    // The holder's entry with what is kept beside it, if it stands at this place.
    fn slot_near(&self, holder: Holder, place: usize) -> Option<Slot>
        ensures entry { IfSome result (λ slot. entry_at self.now.entries holder ≡ Some slot.entry) }
        ensures sets { IfSome result (λ slot. sets_beside self.now.kept holder ≡ Some slot.sets) }
    {
        let node = self.lists.get(place)?;
        if node.client.0 == holder.client.0 && node.ino.0 == holder.ino.0 {
            return Some(node.value);
        }
        None
    }

    /// The place of the first entry on an inode, in the order of making, for `find_near`; any place where there is none.
    pub fn first_place(&self, ino: Ino) -> usize {
        self.lists.first_of_ino(ino).unwrap_or(0)
    }

    /// The place of the entry on the same inode that was made next; any place where there is none.
    pub fn place_after(&self, place: usize) -> usize {
        self.lists.next_of_ino(place).unwrap_or(0)
    }

    // ---- what would be refused

    /// Why no entry can be made: there are as many as there may be.
    pub fn open_refusal(&self) -> Option<Refusal>
        ensures { result ≡ first_failing (open_tests self.now.entries) }
    {
        self.lists.add_refusal()
    }

    /// Why a request on the client's entry on the inode is refused: it has none.
    pub fn entry_refusal(&self, client: ClientId, ino: Ino) -> Option<Refusal>
        ensures { result ≡ first_failing (entry_test self.now.entries (holder client ino) ∷ []) }
    {
        match self.find(client, ino) {
            Some(_entry) => None,
            None => Some(Refusal::NoEntry),
        }
    }

    /// Why an acknowledgement is refused that names the message with the number `seq`, where the caps of
    /// `against` are being revoked.
    pub fn ack_refusal(
        &self,
        client: ClientId,
        ino: Ino,
        seq: u64,
        against: CapSet,
    ) -> Option<Refusal>
        ensures { result ≡ first_failing (ack_tests self.now.entries (holder client ino) seq against) }
    {
        let Some(entry) = self.find(client, ino) else {
            return Some(Refusal::NoEntry);
        };
        if entry.held.meet(against).is_empty() {
            return Some(Refusal::NothingToAck);
        }
        if seq > entry.told_seq {
            return Some(Refusal::BadSeq);
        }
        let need = entry.revoke_seq;
        if seq < need {
            return Some(Refusal::OldSeq { need });
        }
        None
    }

    /// Why the client can't release these caps: it has no entry on the inode, or does not hold each of them.
    pub fn release_refusal(&self, client: ClientId, ino: Ino, caps: CapSet) -> Option<Refusal>
        ensures { result ≡ first_failing (release_tests self.now.entries (holder client ino) caps) }
    {
        let Some(entry) = self.find(client, ino) else {
            return Some(Refusal::NoEntry);
        };
        if !caps.minus(entry.held).is_empty() {
            return Some(Refusal::NotHeld);
        }
        None
    }

    // ---- changes that are refused where a test fails

    /// Makes the client's entry on the inode where it has none, last in both orders, which holds and wants nothing. It is
    /// refused as Limit where there are as many as there may be, or the last number was given. Where the client has an
    /// entry, nothing happens.
    pub fn open_entry(&mut self, client: ClientId, ino: Ino) -> Result<(), ChangeError>
        ensures refused { refusal_in result ≡ first_failing (open_entry_tests self.old.entries (holder client ino)) }
        ensures ok { OnOk result (self.new ≡ words.with_entry self.old (holder client ino)) }
        ensures err { OnErr result (self.new ≡ self.old) }
    {
        if self.find(client, ino).is_some() {
            return Ok(());
        }
        if let Some(refusal) = self.open_refusal() {
            return Err(ChangeError::Refused(refusal));
        }
        if self.made() == u64::MAX {
            return Err(ChangeError::Refused(Refusal::Limit));
        }
        self.open_entry_tested(client, ino)?;
        Ok(())
    }

    /// Takes an acknowledgement, which names the message with the number `seq`: the client no longer holds any cap
    /// of `against`, which are being revoked. If it held the pin and that is among them, its whole entry
    /// goes, whatever else it holds, from both orders. It is refused as NoEntry, as NothingToAck, as BadSeq, or as OldSeq.
    pub fn ack(
        &mut self,
        client: ClientId,
        ino: Ino,
        seq: u64,
        against: CapSet,
    ) -> Result<(), Refusal>
        ensures refused { result_err result ≡ first_failing (ack_tests self.old.entries (holder client ino) seq against) }
        ensures ok { OnOk result (self.new ≡ words.with_acked self.old (holder client ino) against) }
        ensures err { OnErr result (self.new ≡ self.old) }
    {
        if let Some(refusal) = self.ack_refusal(client, ino, seq, against) {
            return Err(refusal);
        }
        self.ack_tested(client, ino, seq, against);
        Ok(())
    }

    /// The client releases these caps: it neither holds nor wants them any more. With the pin among them its
    /// whole entry goes, from both orders. It is refused as NoEntry, or as NotHeld.
    pub fn release(&mut self, client: ClientId, ino: Ino, caps: CapSet) -> Result<(), Refusal>
        ensures refused { result_err result ≡ first_failing (release_tests self.old.entries (holder client ino) caps) }
        ensures ok { OnOk result (self.new ≡ words.with_released self.old (holder client ino) caps) }
        ensures err { OnErr result (self.new ≡ self.old) }
    {
        if let Some(refusal) = self.release_refusal(client, ino, caps) {
            return Err(refusal);
        }
        self.release_tested(client, ino, caps);
        Ok(())
    }

    // ---- changes

    /// Makes the client's entry on the inode, last in both orders, which holds and wants nothing. For want of memory
    /// nothing changes.
    pub fn open_entry_tested(&mut self, client: ClientId, ino: Ino) -> Result<(), AllocError>
        requires new { entry_at self.old.entries (holder client ino) ≡ None }
        requires made { self.old.entries.made < 2 ^ 64 - 1 }
        requires passed { first_failing (open_tests self.old.entries) ≡ None }
        ensures ok { OnOk result (self.new ≡ words.with_opened self.old (holder client ino)) }
        ensures err { OnErr result (self.new ≡ self.old) }
    {
        let holder = Holder { client, ino };
        // What is kept for polls comes first, since a node that was added stays.
        begin_poll(&mut self.polls, client)?;
        let entry = Entry::new();
        let number = self.made;
        let sets = ClientView::none();
        let slot = Slot {
            entry,
            sets,
            number,
        };
        let added = add_node::<Brand>(&mut self.lists, holder, slot, Blank::new(1));
        let Ok(key) = added else {
            end_poll(&mut self.polls, &self.lists, client);
            return Err(AllocError);
        };
        self.made += 1;
        self.near = key;
        Ok(())
    }

    // Changes the holder's entry, where it has one, by one search, and answers what it was. It is looked at first the next time.
    fn edit(&mut self, holder: Holder, edit: Edit) -> Option<Entry>
        requires { is_numbering edit ≡ true → IfSome (entry_at self.old.entries holder) (λ entry. entry.seq < 2 ^ 64 - 1) }
        ensures was { result ≡ entry_at self.old.entries holder }
        ensures changed { self.new ≡ words.with_changed self.old holder (edited edit) }
    {
        let key = key_of(&self.lists, holder, self.near)?;
        let Some(node) = self.lists.get(key) else {
            unreachable!()
        };
        self.near = key;
        let found = node.value.entry;
        let entry = found.edited(edit);
        let is = entry.is_due();
        set_entry(&mut self.lists, key, entry);
        count_again(&mut self.polls, holder.client, found.is_due(), is);
        if is {
            lower_place(&mut self.polls, &self.lists, holder.client, key);
        }
        Some(found)
    }

    /// The client wants these caps from now on. Where it has no entry, nothing happens.
    pub fn set_want(&mut self, client: ClientId, ino: Ino, want: CapSet)
        ensures { self.new ≡ words.with_changed self.old (holder client ino) (wanting want) }
    {
        let _found = self.edit(Holder { client, ino }, Edit::Want(want));
    }

    /// The client holds these caps too from now on. Where it has no entry, nothing happens.
    pub fn issue(&mut self, client: ClientId, ino: Ino, caps: CapSet)
        ensures { self.new ≡ words.with_changed self.old (holder client ino) (issued caps) }
    {
        let _found = self.edit(Holder { client, ino }, Edit::Issue(caps));
    }

    /// Takes an acknowledgement, which names the message with the number `seq`: the client no longer holds any cap
    /// of `against`, which are being revoked. If it held the pin and that is among them, its whole entry
    /// goes, whatever else it holds, from both orders.
    pub fn ack_tested(&mut self, client: ClientId, ino: Ino, seq: u64, against: CapSet)
        requires passed { first_failing (ack_tests self.old.entries (holder client ino) seq against) ≡ None }
        ensures { self.new ≡ words.with_acked self.old (holder client ino) against }
    {
        let holder = Holder { client, ino };
        if against.has(Cap::P) && self.has_pin(holder) {
            self.remove(holder);
        } else {
            let _found = self.edit(holder, Edit::Ack(against));
        }
    }

    // Whether the holder has an entry and holds the pin.
    fn has_pin(&self, holder: Holder) -> bool
        ensures { result ≡ test_at has_pin self.now.entries holder }
    {
        match self.find(holder.client, holder.ino) {
            Some(entry) => entry.held.has(Cap::P),
            None => false,
        }
    }

    /// What the client is to know that it holds changed in one step of the server, from `before` to `after`. If they
    /// differ, the entry's number rises by one, and if a cap went, the new number is that of a revocation too.
    /// Where the client has no entry, nothing happens.
    pub fn renumber(&mut self, client: ClientId, ino: Ino, before: CapSet, after: CapSet)
        requires { IfSome (entry_at self.old.entries (holder client ino)) (λ entry. entry.seq < 2 ^ 64 - 1) }
        ensures { self.new ≡ words.with_changed self.old (holder client ino) (renumbered before after) }
    {
        let _found = self.edit(Holder { client, ino }, Edit::Renumber { before, after });
    }

    /// Issues these caps, and then numbers the change of what the client is to know, as `issue` and `renumber` do
    /// one after the other.
    pub fn issue_numbered(
        &mut self,
        client: ClientId,
        ino: Ino,
        caps: CapSet,
        before: CapSet,
        after: CapSet,
    )
        requires { IfSome (entry_at self.old.entries (holder client ino)) (λ entry. entry.seq < 2 ^ 64 - 1) }
        ensures { self.new ≡ words.with_changed self.old (holder client ino) (λ entry. renumbered before after (issued caps entry)) }
    {
        let edit = Edit::IssueNumbered {
            caps,
            before,
            after,
        };
        let _found = self.edit(Holder { client, ino }, edit);
    }

    /// The client was told of the entry's last change. Where it has no entry, nothing happens. It answers what the entry was.
    pub fn tell(&mut self, client: ClientId, ino: Ino) -> Option<Entry>
        ensures was { result ≡ entry_at self.old.entries (holder client ino) }
        ensures told { self.new ≡ words.with_changed self.old (holder client ino) with_told }
    {
        self.edit(Holder { client, ino }, Edit::Tell)
    }

    /// Marks the client's entry as asked to release caps, or as not asked. Where it has no entry, nothing happens.
    pub fn ask(&mut self, client: ClientId, ino: Ino, asked: bool)
        ensures { self.new ≡ words.with_changed self.old (holder client ino) (with_asked asked) }
    {
        let _found = self.edit(Holder { client, ino }, Edit::Ask(asked));
    }

    /// The client is to be told the inode's size, in a message that is due from now on. Where it has no entry, nothing
    /// happens.
    pub fn owe_size(&mut self, client: ClientId, ino: Ino)
        ensures { self.new ≡ words.with_changed self.old (holder client ino) (with_size_due true) }
    {
        let _found = self.edit(Holder { client, ino }, Edit::OweSize(true));
    }

    /// The client was told the inode's size. Where it has no entry, nothing happens.
    pub fn tell_size(&mut self, client: ClientId, ino: Ino)
        ensures { self.new ≡ words.with_changed self.old (holder client ino) (with_size_due false) }
    {
        let _found = self.edit(Holder { client, ino }, Edit::OweSize(false));
    }

    // ---- what is kept beside the entries

    /// What is kept beside the client's entry on the inode, where it has one.
    pub fn kept(&self, client: ClientId, ino: Ino) -> Option<ClientView>
        ensures kept { result ≡ sets_beside self.now.kept (holder client ino) }
        ensures beside { AreBeside self.now }
        ensures sound { IsTable self.now.entries }
    {
        let key = key_of(&self.lists, Holder { client, ino }, self.near)?;
        let beside = self.lists.get(key)?;
        Some(beside.value.sets)
    }

    /// What the client is permitted to hold of the inode, as it is kept beside its entry, where it has one.
    pub fn kept_permitted(&self, client: ClientId, ino: Ino) -> Option<CapSet>
        ensures { result ≡ permitted_beside self.now.kept (holder client ino) }
    {
        Some(self.kept(client, ino)?.permitted)
    }

    /// What is kept beside the client's entry on the inode, guessed to stand at a place, as for `find_near`; empty sets where it has
    /// no entry. If it stands there, it is not searched for.
    pub fn kept_near(&self, client: ClientId, ino: Ino, place: usize) -> ClientView
        ensures { result ≡ unwrap_or (sets_beside self.now.kept (holder client ino)) words.no_sets }
    {
        match self.slot_near(Holder { client, ino }, place) {
            Some(slot) => slot.sets,
            None => self.kept(client, ino).unwrap_or(ClientView::none()),
        }
    }

    /// Keeps this beside the client's entry on the inode, from now on, as what it is permitted to hold. Where it has no entry,
    /// nothing happens. It takes no memory.
    pub fn keep_permitted(&mut self, client: ClientId, ino: Ino, permitted: CapSet)
        ensures { self.new ≡ words.with_kept self.old (holder client ino) (permitting permitted) }
    {
        self.keep_as(Holder { client, ino }, Keeping::Permitted(permitted));
    }

    /// Keeps this beside the client's entry on the inode, from now on, as what it is to know of. Where it has no entry, nothing
    /// happens. It takes no memory.
    pub fn keep_pending(&mut self, client: ClientId, ino: Ino, pending: CapSet)
        ensures { self.new ≡ words.with_kept self.old (holder client ino) (telling pending) }
    {
        self.keep_as(Holder { client, ino }, Keeping::Pending(pending));
    }

    /// Keeps these sets beside the client's entry on the inode from now on. Where it has no entry, nothing happens. It takes no
    /// memory.
    pub fn keep(&mut self, client: ClientId, ino: Ino, sets: ClientView)
        ensures { self.new ≡ words.with_kept self.old (holder client ino) (λ _. sets) }
    {
        self.keep_as(Holder { client, ino }, Keeping::Both(sets));
    }

    // Changes what is kept beside the holder's entry, where it has one, by one search. It is looked at first the next time.
    fn keep_as(&mut self, holder: Holder, keeping: Keeping)
        ensures { self.new ≡ words.with_kept self.old holder (kept_as keeping) }
    {
        if let Some(key) = key_of(&self.lists, holder, self.near) {
            let Some(node) = self.lists.get(key) else {
                unreachable!()
            };
            let sets = node.value.sets.kept(keeping);
            keep_sets(&mut self.lists, key, sets);
            self.near = key;
        }
    }

    /// The first holder on the inode, in the order of making. With `next_on` one goes from holder to holder, and what is kept may
    /// change on the way.
    pub fn first_on(&self, ino: Ino) -> Option<Holder>
        ensures first { result ≡ first_holder (entries_on self.now.entries ino) }
        ensures sound { IsTable self.now.entries }
        ensures beside { AreBeside self.now }
    {
        let key = self.lists.first_of_ino(ino)?;
        holder_at(&self.lists, key)
    }

    /// The holder on the same inode that comes after this one in the order of making; none if it is the last, or has no entry.
    pub fn next_on(&self, client: ClientId, ino: Ino) -> Option<Holder>
        ensures after { result ≡ newer_in (holders_of_rows (entries_on self.now.entries ino)) (holder client ino) }
        ensures sound { IsTable self.now.entries }
    {
        let key = key_of(&self.lists, Holder { client, ino }, self.near)?;
        let next = self.lists.next_of_ino(key)?;
        holder_at(&self.lists, next)
    }

    /// The holder of the client's first entry, in the order of making. With `next_of` one goes from entry to entry, and what is kept
    /// may change on the way.
    pub fn first_of(&self, client: ClientId) -> Option<Holder>
        ensures first { result ≡ first_holder (filter (is_of_client client) self.now.entries.rows) }
        ensures sound { IsTable self.now.entries }
        ensures beside { AreBeside self.now }
    {
        let key = self.lists.first_of_client(client)?;
        holder_at(&self.lists, key)
    }

    /// The holder of the client's next entry, in the order of making; none if that on this inode is its last, or it has none there.
    pub fn next_of(&self, client: ClientId, ino: Ino) -> Option<Holder>
        ensures after { result ≡ newer_in (holders_of_rows (filter (is_of_client client) self.now.entries.rows)) (holder client ino) }
        ensures sound { IsTable self.now.entries }
    {
        let key = key_of(&self.lists, Holder { client, ino }, self.near)?;
        let next = self.lists.next_of_client(key)?;
        holder_at(&self.lists, next)
    }

    // ---- the order of recall, and walks

    /// The first holder in the order of recall.
    pub fn oldest(&self) -> Option<Holder>
        ensures first { result ≡ slice_get self.now.entries.recall 0 }
        ensures sound { IsTable self.now.entries }
    {
        let key = self.lists.oldest()?;
        holder_at(&self.lists, key)
    }

    /// The holder after this one in the order of recall; none if it is the last, or has no entry.
    pub fn newer(&self, client: ClientId, ino: Ino) -> Option<Holder>
        ensures after { result ≡ newer_in self.now.entries.recall (holder client ino) }
        ensures sound { IsTable self.now.entries }
    {
        let key = key_of(&self.lists, Holder { client, ino }, self.near)?;
        let next = self.lists.newer(key)?;
        holder_at(&self.lists, next)
    }

    /// The client's entry becomes the last in the order of recall. Where it has no entry, nothing happens.
    pub fn touch(&mut self, client: ClientId, ino: Ino)
        ensures { self.new ≡ record self.old { entries = touched self.old.entries (holder client ino) } }
    {
        if let Some(key) = key_of(&self.lists, Holder { client, ino }, self.near) {
            touch_node::<Brand>(&mut self.lists, key, Blank::new(1));
            self.near = key;
        }
    }

    /// The client releases these caps: it neither holds nor wants them any more. With the pin among them its
    /// whole entry goes, from both orders.
    pub fn release_tested(&mut self, client: ClientId, ino: Ino, caps: CapSet)
        requires passed { first_failing (release_tests self.old.entries (holder client ino) caps) ≡ None }
        ensures { self.new ≡ words.with_released self.old (holder client ino) caps }
    {
        let holder = Holder { client, ino };
        if caps.has(Cap::P) {
            self.remove(holder);
        } else {
            let _found = self.edit(holder, Edit::Release(caps));
        }
    }

    // Takes the holder out of both orders.
    fn remove(&mut self, holder: Holder)
        ensures { self.new ≡ words.with_none self.old holder }
    {
        if let Some(key) = key_of(&self.lists, holder, self.near) {
            let next = self.lists.next_of_client(key);
            let was = is_due_at(&self.lists, key);
            remove_node::<Brand>(&mut self.lists, key, Blank::new(1));
            move_place(&mut self.polls, holder.client, key, next);
            count_again(&mut self.polls, holder.client, was, false);
            end_poll(&mut self.polls, &self.lists, holder.client);
            // Where all entries of a client go, this is the one that goes next.
            self.near = next.unwrap_or(0);
        }
    }

    /// All entries of the client go, from both orders.
    pub fn drop_client(&mut self, client: ClientId)
        ensures { self.new ≡ words.with_no_client self.old client }
    {
        'entries: while let Some(first) = self.first_of(client) {
            self.remove(first);
        }
    }

    /// The client's entries, in the order of making.
    pub fn entries_of(&self, client: ClientId) -> Walk<'_>
        ensures rows { result ≡ filter (is_of_client client) self.now.entries.rows }
        ensures sound { IsTable self.now.entries }
    {
        Walk::of_client(&self.lists, client)
    }

    /// The client's entries from the place on that `skip_not_due` came to, or from an earlier one, of which an entry is due
    /// since then, in the order of making: among them each entry that is due.
    pub fn due_of(&self, client: ClientId) -> Walk<'_>
        ensures due { filter is_due result ≡ filter is_due (filter (is_of_client client) self.now.entries.rows) }
        ensures sound { IsTable self.now.entries }
    {
        let at = place_to_poll_from(&self.polls, &self.lists, client);
        Walk::from_place(&self.lists, client, at)
    }

    /// How many of the client's entries are due.
    pub fn due_count(&self, client: ClientId) -> usize
        ensures { result ≡ length (filter is_due (filter (is_of_client client) self.now.entries.rows)) }
    {
        count_of(&self.polls, client)
    }

    /// Walks over those of the client's entries that are not due, up to the first that is, so that `due_of` begins there.
    /// It takes no memory: the client has its place since it has an entry.
    pub fn skip_not_due(&mut self, client: ClientId)
        ensures { self.new ≡ self.old }
    {
        if count_of(&self.polls, client) == 0 {
            set_place(&mut self.polls, client, None);
        } else {
            skip_place(&mut self.polls, &self.lists, client);
        }
    }

    /// The entries on the inode, in the order of making.
    pub fn holders_of(&self, ino: Ino) -> Walk<'_>
        ensures rows { result ≡ filter (is_of_inode ino) self.now.entries.rows }
        ensures sound { IsTable self.now.entries }
    {
        Walk::of_inode(&self.lists, ino)
    }

    /// The entries on the inode, in the order of making, each with what is kept beside it.
    pub fn kept_on(&self, ino: Ino) -> KeptWalk<'_>
        ensures rows { result ≡ map (words.kept_entry self.now.kept) (filter (is_of_inode ino) self.now.entries.rows) }
        ensures sound { IsTable self.now.entries }
    {
        KeptWalk::of_inode(&self.lists, ino)
    }

    /// Whether somebody has an entry on the inode.
    pub fn is_held(&self, ino: Ino) -> bool
        ensures { result ≡ list_any (is_of_inode ino) self.now.entries.rows }
    {
        self.lists.first_of_ino(ino).is_some()
    }

    /// Marks the first `n` entries in the order of recall as asked to release caps, and answers whose they are, in this
    /// order; all of them if there are fewer. The order stays. For want of memory nothing changes.
    pub fn recall(&mut self, n: u32) -> Result<Holders, AllocError>
        ensures named { IfOk result (λ named. named ≡ take n self.old.entries.recall) }
        ensures ok { OnOk result (self.new ≡ record self.old { entries = recalled self.old.entries n }) }
        ensures err { OnErr result (self.new ≡ self.old) }
    {
        // All are named before one is marked, since the list of them may want memory.
        let named = self.first_to_recall(n)?;
        self.ask_all(named.as_slice());
        Ok(named)
    }

    /// The first `n` holders in the order of recall, all of them if there are fewer: those that `recall` would name.
    pub fn first_to_recall(&self, n: u32) -> Result<Holders, AllocError>
        ensures named { IfOk result (λ named. named ≡ take n self.now.entries.recall) }
        ensures sound { IsTable self.now.entries }
    {
        let named = first_holders(&self.lists, self.alloc, n)?;
        Ok(Holders::from_vec(named))
    }

    // Marks the entries of these holders as asked to release caps.
    fn ask_all(&mut self, holders: &[Holder])
        ensures { self.new ≡ record self.old { entries = fold (changed_by asking) self.old.entries holders.now } }
    {
        for holder in holders {
            self.ask(holder.client, holder.ino, true);
        }
    }

    /// The nodes of the entries, in three lists at once: those on each inode and those of each client, both in the order
    /// of making, and all of them in the order of recall.
    pub fn lists(&self) -> &TripleLists<Slot>
        ensures lists { AreLists self.now.entries result.now }
        ensures sound { IsLists result.now }
    {
        &self.lists
    }
}
