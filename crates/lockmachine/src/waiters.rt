//! Who waits, sorted by lock.
ghost use Rattle.std.specs.Prelude.{◌≡◌, ◌==◌, ◌<◌, ◌++◌, ◌∷◌, [], nat_lt, not, filter, length, IfOk};
ghost use Rattle.std.specs.List.{find, list_any};
ghost use Rattle.std.specs.Option.{option_copied};
ghost use Rattle.lockmachine.specs.Requests.{part_place};
ghost use Rattle.lockmachine.specs.Waiters as words;

use crate::request::Request;
use capbits::{ClientId, Ino, Part, Ticket};
use locktable::Head;
use std::alloc::{AllocError, Global};
use std::marker::Model;

/// The most requests that may wait.
pub const MAX_WAITING: usize = 1024;

/// A request that waits: for which lock, and what is to be known of it while it does.
#[derive(Clone, Copy)]
pub(crate) struct Waiter {
    // The inode, and the part, whose lock it waits for.
    pub(crate) ino: Ino,
    pub(crate) part: Part,
    pub(crate) ticket: Ticket,
    pub(crate) client: ClientId,
    // What the lock sees of it, where it is the first of its queue.
    pub(crate) head: Head,
}

impl Waiter {
    pub(crate) fn of(request: &Request) -> Waiter
        ensures { result ≡ words.waiter_of request.now }
    {
        Waiter {
            ino: request.ino,
            part: request.operation.part(),
            ticket: request.ticket,
            client: request.client,
            head: request.operation.head(request.client),
        }
    }

    // Whether it waits for a lower lock than this.
    fn is_below(&self, ino: Ino, part: Part) -> bool
        ensures { result ≡ nat_lt (words.lock_of self.now) (words.lock_number ino.0 part) }
    {
        self.ino.0 < ino.0
            || self.ino.0 == ino.0 && place_in_order(self.part) < place_in_order(part)
    }

    // Whether it waits for this lock.
    fn is_for(&self, ino: Ino, part: Part) -> bool
        ensures { result ≡ words.is_at (words.lock_number ino.0 part) self.now }
    {
        self.ino.0 == ino.0 && place_in_order(self.part) == place_in_order(part)
    }
}

// The place of a part in the order A, L, X, F.
fn place_in_order(part: Part) -> u8
    ensures { result ≡ part_place part }
{
    match part {
        Part::A => 0,
        Part::L => 1,
        Part::X => 2,
        Part::F => 3,
    }
}

/// All who wait, by the inode and then by the part, and at each lock the oldest first. It has room for as many as may wait.
pub(crate) struct Waiters {
    list: Vec<Waiter>,
}

// Not derived: so the proof of a function that drops one has a single call there.
impl Drop for Waiters {
    fn drop(self) {
        let Waiters { list: _ } = self;
    }
}

impl Model for Waiters {
    ghost use Rattle.std.specs.Prelude.{◌≤◌, vec_capacity};
    ghost use Rattle.lockmachine.specs.Codes.{waiters_code};
    ghost use Rattle.lockmachine.specs.Waiters.{AreSorted, WaiterList};

    ghost Value = { WaiterList };

    ghost coded = { waiters_code };

    ghost view = { λ w. w.list.items };

    ghost invariant = { λ w. AreSorted w.list.items × (1024 ≤ vec_capacity w.list) };
}

impl Waiters {
    // Nobody, with room for all who may.
    pub(crate) fn new(alloc: Global) -> Result<Waiters, AllocError>
        ensures { IfOk result (λ waiters. waiters ≡ []) }
    {
        let list = Vec::with_capacity(alloc, MAX_WAITING)?;
        Ok(Waiters { list })
    }

    // Who waits longest for a lock.
    pub(crate) fn first_at(&self, ino: Ino, part: Part) -> Option<&Waiter>
        ensures { option_copied result ≡ find (words.is_at (words.lock_number ino.0 part)) self.now }
    {
        let lower = self.count_below(ino, part);
        match self.list.get(lower) {
            Some(first) => first.is_for(ino, part).then_some(first),
            None => None,
        }
    }

    // Whether one waits at an inode.
    pub(crate) fn any_at(&self, ino: Ino) -> bool
        ensures { result ≡ list_any (words.is_at_inode ino.0) self.now }
    {
        let lower = self.count_below(ino, Part::A);
        match self.list.get(lower) {
            Some(first) => first.ino.0 == ino.0,
            None => false,
        }
    }

    // How many wait for lower locks.
    fn count_below(&self, ino: Ino, part: Part) -> usize
        ensures { words.AreLower (words.lock_number ino.0 part) self.now result }
    {
        // Mostly none or all do, which takes no search.
        let (Some(lowest), Some(highest)) = (self.list.first(), self.list.last()) else {
            return 0;
        };
        if !lowest.is_below(ino, part) {
            return 0;
        }
        if highest.is_below(ino, part) {
            return self.list.len();
        }
        self.list
            .partition_point(|waiter| waiter.is_below(ino, part))
    }

    // One more waits, behind all others for its lock.
    pub(crate) fn add(&mut self, waiter: Waiter)
        requires { length self.old < 1024 }
        ensures { words.StandAlike self.new (self.old ++ waiter ∷ []) }
    {
        let place = self
            .list
            .partition_point(|other| !waiter.is_below(other.ino, other.part));
        let Ok(()) = self.list.insert(place, waiter) else {
            unreachable!()
        };
    }

    // The one with this number waits no more.
    pub(crate) fn take_out(&mut self, ticket: Ticket)
        ensures { self.new ≡ filter (λ w. not (w.ticket.0 == ticket.0)) self.old }
    {
        self.list.retain(|waiter| waiter.ticket.0 != ticket.0);
    }

    // Nobody waits any more.
    pub(crate) fn clear(&mut self)
        ensures { self.new ≡ [] }
    {
        self.list.clear();
    }

    // Those of a client wait no more.
    pub(crate) fn drop_those_of(&mut self, client: ClientId)
        ensures { self.new ≡ filter (λ w. not (w.client.0 == client.0)) self.old }
    {
        self.list.retain(|waiter| waiter.client.0 != client.0);
    }
}
