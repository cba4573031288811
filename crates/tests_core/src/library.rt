//! The layers, each used by itself: the examples of docs/LIBRARY.md, and the calls on sessions and locks that no server makes. What each
//! answers, its definition says: the values are laws of `worked_cases`.

use crate::asking::core_of;
use crate::asserting::{made, same};
use crate::values::{attr_of, caller_of, caps, cephfs, grants_of};
use capbits::{Caller, Cap, CapSet, ClientId, Ino, Part, Refusal, Ticket};
use capcore::Core;
use capgrant::{Access, Attr, Verdict, verdict};
use capspec::{FsName, Grants};
use captable::CapTable;
use inotree::{ROOT, Tree};
use lockmachine::{Locks, Move, Operation, wants_on};
use locktable::{Head, StableState, row, target};
use sessiontab::Sessions;
use std::process::Abort;

const ONE: ClientId = ClientId(1);

const TWO: ClientId = ClientId(2);

const FILE: Ino = Ino(2);

// ---- grants

// The number of the grant that lets a caller write at a path.
fn grant_to_write(
    grants: &Grants,
    fs: &FsName,
    caller: &Caller,
    path: &[&[u8]],
    attr: &Attr,
) -> Option<u32> {
    match verdict(grants, fs, caller, path, attr, Access::Write) {
        Verdict::Allowed { grant } => Some(grant),
        Verdict::Denied { rules: _ } => None,
    }
}

#[test]
fn grants_are_asked_alone(rt: HostRuntime) {
    let grants = grants_of(&rt, "allow r, allow rw path=/foo");
    let (fs, caller) = (cephfs(&rt), caller_of(&rt, "9 50"));
    let attr = attr_of(&rt, "7 50 0640");
    let inside = grant_to_write(&grants, &fs, &caller, &[b"foo"], &attr);
    let beside = grant_to_write(&grants, &fs, &caller, &[b"food"], &attr);
    same(&rt, (inside, beside), (Some(2), None), "to write");
}

// ---- the table of the locks, the tree, sessions

// What two clients may hold of a file's content that the first alone wants to write.
fn one_writes(one: ClientId, two: ClientId) -> (CapSet, CapSet) {
    let wants = CapSet::of(&[Cap::P, Cap::Fr, Cap::Fw]);
    let state = target(
        Part::F,
        StableState::Sync,
        Head::Empty,
        Some((one, wants)),
        wants,
    );
    (row(Part::F, state, one), row(Part::F, state, two))
}

// Makes /a and /a/f, and answers why /a can't be removed.
fn full_directory(rt: &(impl Abort + AllocGlobal)) -> Option<Refusal> {
    let root = attr_of(rt, "0 0 0755");
    let mut tree = made(rt, Tree::new(rt.alloc(), root), "a tree");
    let directory = attr_of(rt, "1 1 0755");
    let dir = made(rt, tree.mkdir(ROOT, b"a", directory), "/a");
    let file = attr_of(rt, "1 1 0644");
    made(rt, tree.create(dir, b"f", file), "/a/f");
    tree.rmdir(dir).err()
}

fn opens(rt: &(impl Abort + AllocGlobal), sessions: &mut Sessions, client: ClientId) {
    let (caller, grants) = (caller_of(rt, "9 50"), grants_of(rt, "allow rw"));
    let opened = sessions.open_session(client, caller, grants);
    made(rt, opened, "a session");
}

// A client that was thrown out is let in again: its session becomes stale, gets other grants, and ends.
fn comes_again(rt: &(impl Abort + AllocGlobal), sessions: &mut Sessions, client: ClientId) {
    same(rt, sessions.is_blocked(client), true, "thrown out");
    same(rt, sessions.unblock(client), Ok(()), "let in");
    opens(rt, sessions, client);
    same(rt, sessions.mark_stale(client), Ok(()), "stale");
    match sessions.regrant(client, grants_of(rt, "allow r")) {
        Ok(()) => {}
        Err((_no_session, _grants)) => panic!(rt; "no session"),
    }
    same(rt, sessions.grants_of(client).is_some(), true, "grants");
    same(rt, sessions.close_session(client), Ok(()), "gone");
}

// Throws a client out, and answers why its session can't be renewed.
fn thrown_out(rt: &(impl Abort + AllocGlobal), client: ClientId) -> Option<Refusal> {
    let mut sessions = made(rt, Sessions::new(rt.alloc()), "sessions");
    opens(rt, &mut sessions, client);
    made(rt, sessions.evict(client), "evicted");
    let refusal = sessions.renew(client).err();
    comes_again(rt, &mut sessions, client);
    refusal
}

#[test]
fn layers_are_used_alone(rt: HostRuntime) {
    let held = (caps("Fsxcrwb"), caps("-"));
    same(&rt, one_writes(ONE, TWO), held, "the lock table");
    let full = full_directory(&rt);
    same(&rt, full, Some(Refusal::NotEmpty), "the tree");
    let gone = thrown_out(&rt, ONE);
    same(&rt, gone, Some(Refusal::NoSession), "the sessions");
}

// ---- who holds what, and locks beside it

const A_FILE: &str = "100
session 1 1 1 - allow rw => done
create 1 1 f 0755 => ino 2
";

// A client releases what it holds to write, and answers what it still holds.
fn left_after_release(rt: &impl Abort, table: &mut CapTable) -> Option<CapSet> {
    made(rt, table.open_entry(ONE, FILE), "an entry");
    table.issue(ONE, FILE, CapSet::of(&[Cap::P, Cap::Fr, Cap::Fw]));
    let released = table.release(ONE, FILE, CapSet::of(&[Cap::Fw]));
    same(rt, released, Ok(()), "released");
    Some(table.find(ONE, FILE)?.held)
}

// A client asks of a file that nobody wants, and its request is dropped before it is served.
fn asks(rt: &impl Abort, (core, fs): (&Core, &FsName), table: &CapTable, locks: &mut Locks) {
    if locks.last() == u64::MAX {
        panic!(rt; "the last number was given");
    }
    let asked = locks.enqueue(ONE, FILE, Operation::Get(Part::F));
    same(rt, asked, Ok(Ticket(1)), "a number");
    let next = locks.next_move(table, core.sessions(), core.tree(), fs);
    same(rt, next, Move::Serve(Ticket(1)), "the next move");
    let dropped = locks.drop_client(ONE);
    same(rt, dropped, Some(Ticket(1)), "a request");
    let wants = wants_on(fs, core.tree(), core.sessions(), table, FILE);
    same(rt, wants.loner, None, "who wants it");
}

#[test]
fn a_request_waits_and_is_dropped(rt: HostRuntime) {
    let core = core_of(&rt, A_FILE);
    let fs = cephfs(&rt);
    same(&rt, core.session(ONE).is_some(), true, "a session");
    let mut table = made(&rt, CapTable::new(rt.alloc()), "a table");
    let left = left_after_release(&rt, &mut table);
    same(&rt, left, Some(caps("pFr")), "the table");
    let mut locks = made(&rt, Locks::new(rt.alloc()), "locks");
    made(&rt, locks.add_ino(FILE), "inode 2");
    asks(&rt, (&core, &fs), &table, &mut locks);
    drop(core);
}
