//! The locks by inode, the queue, and the moves of both.
ghost use Rattle.std.specs.Prelude.{◌≡◌, ◌==◌, ◌&&◌, ◌+◌, ◌-◌, ◌<◌, ◌≤◌, ◌^◌, ℕ, IsTrue, Contains, List, None, true, false, length, position, IfOk, IfSome};
ghost use Rattle.std.specs.Prelude.{OnOk, OnErr};
ghost use Rattle.std.specs.List.{find, list_any};
ghost use Rattle.std.specs.Option.{option_map, option_map_or};
ghost use Rattle.std.specs.Result.{result_err};
ghost use Rattle.std.specs.FinMap as map;
ghost use Rattle.capbits.specs.Refusal.{first_failing};
ghost use Rattle.capbits.specs.declared.cap.Part.{Part};
ghost use Rattle.captable.specs.Table.{Table};
ghost use Rattle.inotree.specs.Tree.{Nodes};
ghost use Rattle.sessiontab.specs.Table.{SessionTable};
ghost use Rattle.lockmachine.specs.declared.moves.Move.TheVariants.{Settled};
ghost use Rattle.lockmachine.specs.declared.request.Request.{Request};
ghost use Rattle.lockmachine.specs.Counts as counted;
ghost use Rattle.lockmachine.specs.Counts.{AreCounted, AreCountedAt};
ghost use Rattle.lockmachine.specs.Inodes.{HaveCounts, is_gathering};
ghost use Rattle.lockmachine.specs.Locks as words;
ghost use Rattle.lockmachine.specs.Requests as requests;
ghost use Rattle.lockmachine.specs.Requests.{waits_for};
ghost use Rattle.lockmachine.specs.Scene.{head_in, scene, scene_by, target_by, wanted_in_all};
ghost use Rattle.lockmachine.specs.Policy.{ArePermitted, ArePermittedOn};
ghost use Rattle.lockmachine.specs.Waiters as waiting;
ghost use Rattle.lockmachine.specs.Moves as moves;
ghost use Rattle.lockmachine.specs.Moves.{LockId, first_move, handed, moved};
ghost use Rattle.lockmachine.specs.Runs.{ChangesLocksOf, EndLittle, MoveLittle};
ghost use Rattle.lockmachine.specs.Cursors as turns;
ghost use Rattle.lockmachine.specs.Cursors.{IsCursorAt, IsNextAt, IsServable, NobodyElsewhere, Suffices};

use crate::held::{has_outside, holders_outside};
use crate::lock::{ends_by_count, is_off_target};
use crate::moves::{Move, QueueScope, SweepCursor};
use crate::policy::Policy;
use crate::request::{Operation, Request};
use crate::states::{InodeLocks, LocksAt, States};
use crate::waiters::{MAX_WAITING, Waiter, Waiters};
use crate::wants::{Wants, given_or_found, wants_by_kept};
use capbits::{CapSet, ClientId, Ino, Part, Refusal, Ticket};
use capspec::FsName;
use captable::{CapTable, Entry, EntryRow};
use inotree::Tree;
use locktable::{Head, LockState, StableState, serves, target};
use sessiontab::Sessions;
use std::alloc::{AllocError, Global};
use std::fmt;
use std::marker::Model;

// The parts, in their order.
const PARTS: [Part; 4] = [Part::A, Part::L, Part::X, Part::F];

/// The locks of all inodes, and the requests that wait for them.
pub struct Locks {
    states: States,
    // The oldest first. It has room for as many as may wait, so that who is to wait needs no memory.
    queue: Vec<Request>,
    // The requests of the queue, by the locks that they wait for.
    waiters: Waiters,
    // The last number that a request was given.
    last: u64,
}

// All but who waits by lock, which the queue tells.
impl fmt::Debug for Locks {
    fn fmt<W: fmt::Write>(&self, f: &mut fmt::Formatter<W>) -> fmt::Result {
        f.debug_struct("Locks")
            .field("states", &self.states)
            .field("queue", &self.queue)
            .field("last", &self.last)
            .finish()
    }
}

impl Model for Locks {
    ghost use Rattle.std.specs.Prelude.{◌≤◌, vec_capacity};
    ghost use Rattle.std.specs.Prelude.{map as each};
    ghost use Rattle.lockmachine.specs.Counts.{CountedLocks};
    ghost use Rattle.lockmachine.specs.Locks.{IsLockMap, LockMap};
    ghost use Rattle.lockmachine.specs.Waiters.{StandAlike, waiter_of};
    ghost use Rattle.lockmachine.specs.Codes.{counted_locks_code};

    ghost Value = { CountedLocks };

    ghost coded = { counted_locks_code };

    ghost view = { λ l. record { locks = record { states = l.states.states; queue = l.queue.items; last = l.last }; counts = l.states.counts } };

    ghost invariant = { λ l. IsLockMap (record { states = l.states.states; queue = l.queue.items; last = l.last })
        × (1024 ≤ vec_capacity l.queue) × StandAlike l.waiters (each waiter_of l.queue.items) };
}

// Not derived: so the proof of a function that drops one has a single call there, and no step for each part.
impl Drop for Locks {
    fn drop(self) {
        let Locks {
            states: _states,
            queue: _queue,
            waiters: _waiters,
            last: _last,
        } = self;
    }
}

impl Locks {
    /// No locks, and nobody waits. It makes room for all requests that may wait.
    pub fn new(alloc: Global) -> Result<Locks, AllocError>
        ensures { IfOk result (λ locks. locks ≡ counted.no_locks) }
    {
        let queue = Vec::with_capacity(alloc, MAX_WAITING)?;
        match Waiters::new(alloc) {
            Ok(waiters) => Ok(Locks {
                states: States::new(alloc),
                queue,
                waiters,
                last: 0,
            }),
            Err(refused) => {
                drop(queue);
                Err(refused)
            }
        }
    }

    /// Adds the locks of a new inode, each stable in SYNC. For want of memory nothing changes.
    pub fn add_ino(&mut self, ino: Ino) -> Result<(), AllocError>
        ensures ok { OnOk result (self.new ≡ counted.with_ino self.old ino.0) }
        ensures err { OnErr result (self.new ≡ self.old) }
    {
        self.states.insert(ino, InodeLocks::new())
    }

    /// Drops the locks of an inode, where it has any.
    pub fn drop_ino(&mut self, ino: Ino)
        ensures { self.new ≡ counted.without_ino self.old ino.0 }
    {
        self.states.remove(ino);
    }

    /// The lock of an inode's part, where the inode has locks.
    pub fn state(&self, ino: Ino, part: Part) -> Option<LockState>
        ensures state { result ≡ words.lock_at self.now.locks ino.0 part }
        ensures sound { words.IsLockMap self.now.locks }
    {
        let locks = self.states.get(ino)?;
        Some(locks.of_part(part))
    }

    // ---- who waits

    /// The last number that a request was given.
    pub fn last(&self) -> u64
        ensures last { result ≡ self.now.locks.last }
        ensures sound { words.IsLockMap self.now.locks }
    {
        self.last
    }

    /// How many requests wait.
    pub fn waiting(&self) -> usize
        ensures waiting { result ≡ length self.now.locks.queue }
        ensures sound { words.IsLockMap self.now.locks }
    {
        self.queue.len()
    }

    /// Why no request can wait: as many wait as may.
    pub fn enqueue_refusal(&self) -> Option<Refusal>
        ensures { result ≡ first_failing (words.queue_tests self.now.locks) }
    {
        if self.queue.len() >= MAX_WAITING {
            return Some(Refusal::Limit);
        }
        None
    }

    /// Lets a client's operation wait behind all others, under the next number, which it answers. It takes no memory. It is
    /// refused as Limit, and the operation is dropped then.
    pub fn enqueue(
        &mut self,
        client: ClientId,
        ino: Ino,
        operation: Operation,
    ) -> Result<Ticket, Refusal>
        requires numbers { self.old.locks.last < 2 ^ 64 - 1 }
        ensures refused { result_err result ≡ first_failing (words.queue_tests self.old.locks) }
        ensures ok { OnOk result (self.new ≡ record self.old { locks = words.with_request self.old.locks client ino operation }) }
        ensures ticket { IfOk result (λ ticket. ticket.0 ≡ self.old.locks.last + 1) }
        ensures err { OnErr result (self.new ≡ self.old) }
    {
        if let Some(refusal) = self.enqueue_refusal() {
            return Err(refusal);
        }
        Ok(self.enqueue_tested(client, ino, operation))
    }

    /// Lets a client's operation wait behind all others, under the next number, which it answers, where fewer wait than may. It takes no
    /// memory.
    pub fn enqueue_tested(&mut self, client: ClientId, ino: Ino, operation: Operation) -> Ticket
        requires room { first_failing (words.queue_tests self.old.locks) ≡ None }
        requires numbers { self.old.locks.last < 2 ^ 64 - 1 }
        ensures queued { self.new ≡ record self.old { locks = words.with_request self.old.locks client ino operation } }
        ensures ticket { result.0 ≡ self.old.locks.last + 1 }
    {
        let ticket = Ticket(self.last + 1);
        self.last = ticket.0;
        let request = Request {
            ticket,
            client,
            ino,
            operation,
        };
        self.waiters.add(Waiter::of(&request));
        let Ok(()) = self.queue.push(request) else {
            unreachable!()
        };
        ticket
    }

    /// The requests that wait, the oldest first.
    pub fn requests(&self) -> &[Request]
        ensures requests { result.now ≡ self.now.locks.queue }
        ensures sound { words.IsLockMap self.now.locks }
    {
        self.queue.as_slice()
    }

    /// Takes all requests of a client out of the queue, by one pass over it, and, where others wait, one over who waits by lock. It
    /// takes no memory.
    pub fn drop_requests_of(&mut self, client: ClientId)
        ensures { self.new ≡ record self.old { locks = words.without_requests_of self.old.locks client } }
    {
        self.queue.retain(|request| !is_of_client(client, request));
        if self.queue.is_empty() {
            self.waiters.clear();
        } else {
            self.waiters.drop_those_of(client);
        }
    }

    /// Takes a client's oldest request out of the queue, and answers its number, which is the least of the client's. Where none of
    /// them waits it answers None, and nothing changes. It takes no memory. Whoever calls it until then has dropped all, and has gone
    /// over the queue once for each; `drop_requests_of` goes over it once.
    pub fn drop_client(&mut self, client: ClientId) -> Option<Ticket>
        ensures ticket { result ≡ words.oldest_of self.old.locks client }
        ensures least { IfSome result (λ ticket. (q : Request) → Contains self.old.locks.queue q → IsTrue (requests.is_of_client client q)
            → ticket.0 ≤ q.ticket.0) }
        ensures left { IfSome result (λ ticket. self.new ≡ record self.old { locks = words.without_request self.old.locks ticket.0 }) }
        ensures none { result ≡ None → self.new ≡ self.old }
    {
        let ticket = self.oldest_of(client)?;
        let _dropped = self.take_request(ticket);
        Some(ticket)
    }

    // The number of a client's oldest request.
    fn oldest_of(&self, client: ClientId) -> Option<Ticket>
        ensures oldest { result ≡ words.oldest_of self.now.locks client }
        ensures sound { words.IsLockMap self.now.locks }
    {
        for waiting in &self.queue {
            if is_of_client(client, waiting) {
                return Some(waiting.ticket);
            }
        }
        None
    }

    // ---- which move comes next

    /// The first move that applies: the least gather that may end; else the oldest request that may be served; else the
    /// least lock that may begin; else none is left. It looks at all inodes, and goes by what is kept. The answer is right where the
    /// counts are those of the entries, and each client's permitted set stands beside its entry.
    pub fn next_move(&self, table: &CapTable, sessions: &Sessions, tree: &Tree, fs: &FsName) -> Move
        ensures { AreCounted table.now.entries self.now → ArePermitted table.now.kept fs.now tree.now sessions.now table.now.entries
            → result ≡ first_move (scene fs.now tree.now sessions.now table.now.entries self.now.locks) }
    {
        if let Some((ino, part)) = self.first_end_of_all() {
            return Move::End { ino, part };
        }
        if let Some(ticket) = self.first_served() {
            return Move::Serve(ticket);
        }
        let policy = Policy { fs, tree, sessions };
        self.first_begin_of_all(&policy, table)
    }

    // What is next where it is an inode's turn: a move at this inode, or a request that is served, by the first move that applies to
    // all; or else nothing, at this inode. It may be known what is wanted of it. That is found where a gather may begin, and kept.
    fn next_move_by(
        &self,
        policy: &Policy<'_>,
        table: &CapTable,
        cursor: SweepCursor,
        wanted: &mut Option<Wants>,
    ) -> Move
        requires cursor { IsCursorAt (scene_by policy.now table.now.entries self.now.locks) cursor.ino.0 }
        requires counted { AreCountedAt table.now.entries self.now cursor.ino.0 }
        requires scope { Suffices cursor.scope self.now.locks cursor.ino.0 }
        requires permitted { ArePermittedOn table.now.kept policy.now.fs.now policy.now.tree.now policy.now.sessions.now table.now.entries cursor.ino.0 }
        requires wanted { IfSome wanted.old (λ wants. wants ≡ wanted_in_all (scene_by policy.now table.now.entries self.now.locks) cursor.ino.0) }
        ensures next { IsNextAt (scene_by policy.now table.now.entries self.now.locks) cursor.ino.0 result }
        ensures wanted { IfSome wanted.new (λ wants. wants ≡ wanted_in_all (scene_by policy.now table.now.entries self.now.locks) cursor.ino.0) }
    {
        let SweepCursor { ino, scope } = cursor;
        if let Some(part) = self.first_end(ino) {
            return Move::End { ino, part };
        }
        if let Some(served) = self.first_among(scope, ino) {
            return Move::Serve(served);
        }
        let wants = given_or_found(*wanted, policy, table, ino);
        *wanted = Some(wants);
        self.first_begin(scope.may_wait(), ino, &wants)
            .unwrap_or(Move::Settled)
    }

    // The oldest request that may be served, which is one of those in the scope.
    fn first_among(&self, scope: QueueScope, ino: Ino) -> Option<Ticket>
        requires { Suffices scope self.now.locks ino.0 }
        ensures { result ≡ option_map (λ q. q.ticket) (find (moves.may_serve self.now.locks) self.now.locks.queue) }
    {
        match scope {
            QueueScope::Everybody => self.first_served(),
            QueueScope::Here => self.first_served_at(ino),
            QueueScope::Nobody => None,
        }
    }

    /// The oldest request that may be served. It looks at the locks and the queue alone.
    pub fn first_served(&self) -> Option<Ticket>
        ensures { result ≡ option_map (λ q. q.ticket) (find (moves.may_serve self.now.locks) self.now.locks.queue) }
    {
        for request in &self.queue {
            if self.may_serve(request) {
                return Some(request.ticket);
            }
        }
        None
    }

    // ---- among all

    // The first lock of all that may end its gather.
    fn first_end_of_all(&self) -> Option<(Ino, Part)>
        ensures { option_map (λ at. (at.0.0, at.1)) result ≡ find (counted.ends_by self.now) (moves.lock_ids self.now.locks) }
    {
        for number in self.states.inos() {
            let ino = Ino(*number);
            if let Some(part) = self.first_end(ino) {
                return Some((ino, part));
            }
        }
        None
    }

    // The beginning of the first lock of all that may begin.
    fn first_begin_of_all(&self, policy: &Policy<'_>, table: &CapTable) -> Move
        ensures { let s = scene_by policy.now table.now.entries self.now.locks in
            ArePermitted table.now.kept policy.now.fs.now policy.now.tree.now policy.now.sessions.now table.now.entries
            → result ≡ turns.begin_or_rest s (find (moves.may_begin s) (moves.lock_ids self.now.locks)) }
    {
        for number in self.states.inos() {
            let ino = Ino(*number);
            let wants = wants_by_kept(policy, table, ino);
            if let Some(step) = self.first_begin(true, ino, &wants) {
                return step;
            }
        }
        Move::Settled
    }

    // ---- at one inode

    // The first part of an inode whose lock may end its gather.
    fn first_end(&self, ino: Ino) -> Option<Part>
        ensures { result ≡ find (λ part. counted.ends_by self.now (ino.0, part)) moves.parts }
    {
        // The inode's locks are looked up once, and not for each part. Mostly none of them is in a gather.
        let LocksAt {
            locks: four,
            counts,
        } = self.states.counted(ino)?;
        if !four.is_gathering() {
            return None;
        }
        PARTS.iter().copied().find(|part| ends_by_count(counts.of_part(*part), four.of_part(*part)))
    }

    // The beginning of the first lock of an inode that may begin, where no request waits unless `waits` says that one may.
    fn first_begin(&self, waits: bool, ino: Ino, wants: &Wants) -> Option<Move>
        ensures { result ≡ option_map (λ part. turns.beginning_by (waiting.queue_if waits self.now.locks.queue) self.now.locks wants.now (ino.0, part))
            (find (λ part. moves.may_begin_in (waiting.queue_if waits self.now.locks.queue) wants.now (ino.0, part) (words.lock_at self.now.locks ino.0 part)) moves.parts) }
    {
        let part = self.first_to_begin(waits, ino, wants)?;
        let to = self.target_for(waits, ino, part, self.present_state(ino, part), wants);
        Some(Move::Begin { ino, part, to })
    }

    // The first part of an inode whose lock may begin.
    fn first_to_begin(&self, waits: bool, ino: Ino, wants: &Wants) -> Option<Part>
        ensures { result ≡ find (λ part. moves.may_begin_in (waiting.queue_if waits self.now.locks.queue) wants.now (ino.0, part) (words.lock_at self.now.locks ino.0 part)) moves.parts }
    {
        let four = self.states.get(ino)?;
        PARTS.iter().copied().find(|part| {
            self.may_begin(waits, ino, *part, four.of_part(*part), wants)
        })
    }

    // Whether the lock of the part, which is in this state, is stable, and not at its target.
    fn may_begin(&self, waits: bool, ino: Ino, part: Part, lock: LockState, wants: &Wants) -> bool
        ensures { result ≡ moves.may_begin_in (waiting.queue_if waits self.now.locks.queue) wants.now (ino.0, part) (Some lock) }
    {
        match lock {
            LockState::Stable(state) => {
                let head = self.head(waits, ino, part);
                is_off_target(part, state, head, wants.loner, wants.wanted)
            }
            LockState::Gather { .. } => false,
        }
    }

    // Where the lock is to go, stable in this state.
    fn target_for(
        &self,
        waits: bool,
        ino: Ino,
        part: Part,
        state: StableState,
        wants: &Wants,
    ) -> StableState
        ensures { result ≡ target_by (waiting.queue_if waits self.now.locks.queue) wants.now ino.0 part state }
    {
        let head = self.head(waits, ino, part);
        target(part, state, head, wants.loner, wants.wanted)
    }

    // What stands first in the queue of a lock, where no request waits unless `waits` says that one may.
    fn head(&self, waits: bool, ino: Ino, part: Part) -> Head
        ensures { result ≡ head_in (waiting.queue_if waits self.now.locks.queue) ino.0 part }
    {
        if !waits {
            return Head::Empty;
        }
        match self.waiters.first_at(ino, part) {
            Some(first) => first.head,
            None => Head::Empty,
        }
    }

    // ---- at one request

    // Whether the request is the first for its lock, which is stable in a state that serves it.
    fn may_serve(&self, request: &Request) -> bool
        ensures { result ≡ moves.may_serve self.now.locks request.now }
    {
        self.is_servable(request) && self.is_first(request)
    }

    // Whether the lock of the request is stable in a state that serves it.
    fn is_servable(&self, request: &Request) -> bool
        ensures { result ≡ moves.is_servable self.now.locks request.now }
    {
        self.serves(
            request.ino,
            request.operation.part(),
            request.operation.head(request.client),
        )
    }

    // Whether a lock is stable in a state that serves this head.
    fn serves(&self, ino: Ino, part: Part, head: Head) -> bool
        ensures { result ≡ moves.is_served_in (words.lock_at self.now.locks ino.0 part) head }
    {
        match self.state(ino, part) {
            Some(LockState::Stable(state)) => serves(state, head),
            Some(LockState::Gather { .. }) | None => false,
        }
    }

    // Whether no other request waits longer for its lock.
    fn is_first(&self, request: &Request) -> bool
        ensures { result ≡ moves.is_first self.now.locks.queue request.now }
    {
        match self.waiters.first_at(request.ino, request.operation.part()) {
            Some(first) => first.ticket.0 == request.ticket.0,
            None => false,
        }
    }

    // The oldest request for a lock of this inode that may be served.
    fn first_served_at(&self, ino: Ino) -> Option<Ticket>
        ensures { result ≡ option_map (λ q. q.ticket) (find (λ q. waits_for ino.0 q && moves.may_serve self.now.locks q) self.now.locks.queue) }
    {
        // Only the first for each of its locks may.
        let auth = self.first_where_served(ino, Part::A);
        let link = self.first_where_served(ino, Part::L);
        let xattr = self.first_where_served(ino, Part::X);
        let file = self.first_where_served(ino, Part::F);
        let lower = earlier(auth, link);
        let higher = earlier(xattr, file);
        earlier(lower, higher)
    }

    // The first request for a lock, where it may be served.
    fn first_where_served(&self, ino: Ino, part: Part) -> Option<Ticket>
        ensures number { result ≡ turns.served_of self.now.locks (requests.first_for self.now.locks.queue ino.0 part) }
        ensures sound { words.IsLockMap self.now.locks }
    {
        let first = self.waiters.first_at(ino, part)?;
        self.serves(first.ino, first.part, first.head)
            .then_some(first.ticket)
    }

    // ---- making moves

    /// Makes a move. A request that is served waits no more, and is handed out to be judged. Where the move speaks of a
    /// lock or a request that is not there, nothing happens.
    pub fn apply_move(&mut self, step: Move) -> Option<Request>
        ensures locks { self.new ≡ record self.old { locks = moved self.old.locks step } }
        ensures request { result ≡ handed self.old.locks step }
    {
        match step {
            Move::Begin { ino, part, to } => {
                let from = self.present_state(ino, part);
                self.states.set(ino, part, LockState::Gather { from, to });
                None
            }
            Move::End { ino, part } => {
                let state = self.coming_state(ino, part);
                self.states.set(ino, part, LockState::Stable(state));
                None
            }
            Move::Serve(ticket) => self.take_request(ticket),
            Move::Settled => None,
        }
    }

    // ---- whom gathers wait for

    /// The gather of an inode's part waits for so many clients from now on: those with a cap that its target does not allow them. It is
    /// called when the gather has begun. Where there is no such lock, nothing happens. It takes no memory.
    pub fn await_acks(&mut self, ino: Ino, part: Part, n: u32)
        ensures set { self.new ≡ counted.with_count self.old ino.0 part n }
        ensures had { HaveCounts self.old.locks.states self.old.counts }
    {
        self.states.set_count(ino, part, n);
    }

    /// The gather of an inode's part waits for one client less. It is called when the last of the client's caps that its target does not
    /// allow has gone. Where it waits for nobody, nothing happens. It takes no memory.
    pub fn acked(&mut self, ino: Ino, part: Part)
        ensures { self.new ≡ counted.with_one_less self.old ino.0 part }
    {
        self.states.count_down(ino, part);
    }

    // Takes a request out of the queue.
    fn take_request(&mut self, ticket: Ticket) -> Option<Request>
        ensures left { self.new ≡ record self.old { locks = words.without_request self.old.locks ticket.0 } }
        ensures taken { result ≡ words.request_at self.old.locks ticket.0 }
    {
        let place = self.place_of(ticket)?;
        self.waiters.take_out(ticket);
        Some(self.queue.remove(place))
    }

    // The place of a request in the queue.
    fn place_of(&self, ticket: Ticket) -> Option<usize>
        ensures { result ≡ position (requests.is_numbered ticket.0) self.now.locks.queue }
    {
        self.queue
            .iter()
            .position(|request| request.ticket.0 == ticket.0)
    }

    // The state that the lock has reached, or leaves in a gather.
    pub(crate) fn present_state(&self, ino: Ino, part: Part) -> StableState
        ensures { result ≡ moves.present_state (words.lock_at self.now.locks ino.0 part) }
    {
        match self.state(ino, part) {
            Some(LockState::Stable(state)) => state,
            Some(LockState::Gather { from, .. }) => from,
            None => StableState::Sync,
        }
    }

    // The state that the lock has reached, or is to reach.
    fn coming_state(&self, ino: Ino, part: Part) -> StableState
        ensures { result ≡ moves.coming_state (words.lock_at self.now.locks ino.0 part) }
    {
        match self.state(ino, part) {
            Some(LockState::Stable(state)) => state,
            Some(LockState::Gather { to, .. }) => to,
            None => StableState::Sync,
        }
    }

    /// The locks of an inode, where it has any.
    pub fn of_ino(&self, ino: Ino) -> Option<InodeLocks>
        ensures { result ≡ map.get self.now.locks.states ino.0 }
    {
        self.states.get(ino).copied()
    }

    /// Whether one of the locks of the inode is in a gather.
    pub fn is_gathering(&self, ino: Ino) -> bool
        ensures { result ≡ option_map_or is_gathering (map.get self.now.locks.states ino.0) false }
    {
        match self.states.get(ino) {
            Some(locks) => locks.is_gathering(),
            None => false,
        }
    }

    /// The client of an entry is about to give up all that it holds there but these caps: each gather of the inode that waited for it, and will
    /// wait for it no longer, is acknowledged once.
    pub fn gives_up(&mut self, row: EntryRow, left: CapSet)
        ensures counts { (at : LockId) → counted.count_of self.new at
            ≡ counted.count_of self.old at - counted.given_up row left at (words.lock_at self.old.locks at.0 at.1) }
        ensures locks { self.new.locks ≡ self.old.locks }
    {
        let ino = row.holder.ino;
        let Some(locks) = self.of_ino(ino) else {
            return;
        };
        for part in &PARTS {
            if waits_no_longer(*part, locks.of_part(*part), &row, left) {
                self.acked(ino, *part);
            }
        }
    }

    /// Where it is an inode's turn, begins and ends gathers there, always by the first move that applies to all, until a
    /// request is to be served, whose number it answers, or the inode is done. It is still its turn then. Where nobody who waits at
    /// another inode may be served (`alone`), it looks for the requests for this inode alone.
    pub fn advance_at(
        &mut self,
        policy: &Policy<'_>,
        table: &CapTable,
        ino: Ino,
        alone: bool,
    ) -> Option<Ticket>
        requires cursor { IsCursorAt (scene_by policy.now table.now.entries self.old.locks) ino.0 }
        requires permitted { ArePermittedOn table.now.kept policy.now.fs.now policy.now.tree.now policy.now.sessions.now table.now.entries ino.0 }
        requires counted { AreCounted table.now.entries self.old }
        requires alone { alone ≡ true → NobodyElsewhere self.old.locks ino.0 }

        // Each lock begins at most one gather and ends at most two.
        ensures moves { MoveLittle (scene_by policy.now table.now.entries self.old.locks)
            (scene_by policy.now table.now.entries self.new.locks) }
        ensures servable { IsServable (scene_by policy.now table.now.entries self.new.locks) ino.0 result }
        ensures cursor { IsCursorAt (scene_by policy.now table.now.entries self.new.locks) ino.0 }
        ensures elsewhere { ChangesLocksOf ino.0 self.old.locks self.new.locks }
        ensures counted { AreCounted table.now.entries self.new }
    {
        // A move of a lock changes nothing of what is wanted, which is found once, and not where a request is served first; nor of who
        // waits.
        let mut wanted = None;
        let scope = self.queue_scope_at(ino, alone);
        let cursor = SweepCursor { ino, scope };
        'moves: loop {
            match self.next_move_by(policy, table, cursor, &mut wanted) {
                Move::Settled => return None,
                Move::Serve(ticket) => return Some(ticket),
                step => self.make_counted(step, table),
            }
        }
    }

    // Among whose requests one that may be served has to be looked for.
    fn queue_scope_at(&self, ino: Ino, alone: bool) -> QueueScope
        requires { alone ≡ true → NobodyElsewhere self.now.locks ino.0 }
        ensures { Suffices result self.now.locks ino.0 }
    {
        if !alone {
            return QueueScope::Everybody;
        }
        if self.waiters.any_at(ino) {
            return QueueScope::Here;
        }
        QueueScope::Nobody
    }

    /// Where no gather of a lower inode may end, ends those of an inode that may, in the order of the parts. It looks at
    /// the counts of this inode's gathers alone, and takes no memory.
    pub fn end_gathers_at(&mut self, ino: Ino)

        // Each is the first move that applies to all, whatever the tree and the sessions are, where the counts are those of the entries.
        ensures ends { (fs : List ℕ) (tree : Nodes) (sessions : SessionTable) (table : Table) → AreCountedAt table self.old ino.0
            → ((other : ℕ) (part : Part) → other < ino.0 → turns.may_end_by table self.old.locks (other, part) ≡ false)
            → EndLittle (scene fs tree sessions table self.old.locks) (scene fs tree sessions table self.new.locks) }
        ensures done { (table : Table) → AreCountedAt table self.old ino.0
            → ((other : ℕ) (part : Part) → other < ino.0 → turns.may_end_by table self.old.locks (other, part) ≡ false)
            → (part : Part) → turns.may_end_by table self.new.locks (ino.0, part) ≡ false }
        ensures elsewhere { ChangesLocksOf ino.0 self.old.locks self.new.locks }
        ensures counted { (table : Table) → AreCountedAt table self.old ino.0 → AreCountedAt table self.new ino.0 }
        ensures counts { self.new.counts ≡ self.old.counts }
    {
        // At most inodes no lock is in a gather, which one look at the four tells.
        let Some(locks) = self.states.get(ino) else {
            return;
        };
        if !locks.is_gathering() {
            return;
        }
        for part in &PARTS {
            if self.may_end_at(ino, *part) {
                self.make(Move::End { ino, part: *part });
            }
        }
    }

    // Whether the lock of an inode's part is in a gather that waits for nobody, by its count.
    fn may_end_at(&self, ino: Ino, part: Part) -> bool
        ensures { result ≡ counted.ends_by self.now (ino.0, part) }
    {
        match self.states.counted(ino) {
            Some(LocksAt { locks, counts }) => {
                ends_by_count(counts.of_part(part), locks.of_part(part))
            }
            None => false,
        }
    }

    // Makes a move that serves nobody. A gather that begins waits for each client with a cap that its target does not allow.
    fn make_counted(&mut self, step: Move, table: &CapTable)
        ensures locks { self.new.locks ≡ moved self.old.locks step }
        ensures counted { AreCounted table.now.entries self.old → AreCounted table.now.entries self.new }
    {
        self.make(step);
        if let Move::Begin { ino, part, to } = step {
            self.await_acks(ino, part, holders_outside(table, ino, part, to));
        }
    }

    // Makes a move that serves nobody. Counts stay.
    fn make(&mut self, step: Move)
        ensures { self.new ≡ record self.old { locks = moved self.old.locks step } }
    {
        let _nobody = self.apply_move(step);
    }
}

// Whether the lock of the part is in a gather that waits for the client of the entry, and will not once these caps alone are left to it.
fn waits_no_longer(part: Part, lock: LockState, row: &EntryRow, left: CapSet) -> bool
    ensures { result ≡ counted.waits_no_longer part row.now left lock }
{
    match lock {
        LockState::Gather { to, .. } => {
            has_outside(part, to, *row) && !has_outside(part, to, left_with(row, left))
        }
        LockState::Stable(_) => false,
    }
}

// The entry with its holder, where these caps alone are left to the client.
fn left_with(row: &EntryRow, left: CapSet) -> EntryRow
    ensures { result ≡ record row.now { entry = record row.now.entry { held = left } } }
{
    let entry = Entry {
        held: left,
        ..row.entry
    };
    EntryRow {
        holder: row.holder,
        entry,
    }
}

// The number that was given first.
fn earlier(a: Option<Ticket>, b: Option<Ticket>) -> Option<Ticket>
    ensures { result ≡ waiting.earlier a b }
{
    match (a, b) {
        (Some(first), Some(second)) => Some(if first.0 <= second.0 { first } else { second }),
        (Some(only), None) | (None, Some(only)) => Some(only),
        (None, None) => None,
    }
}

// Whether the request is the client's.
fn is_of_client(client: ClientId, request: &Request) -> bool
    ensures { result ≡ requests.is_of_client client request.now }
{
    request.client.0 == client.0
}
