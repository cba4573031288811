//! The table of caps: where a walk over what may be due begins, and the calls that nothing else makes. What the calls answer and
//! what they make of a table, its definitions say: their values are laws of `worked_cases`.
//!
//! A case is a text, a line a step: a word, then mostly a client and an inode, and caps.
//!
//! - `open C I`: the client's entry is opened on the inode; `give C I CAPS`: it holds these too; `release C I CAPS`: it releases these
//! - `renumber C I BEFORE AFTER`: what it is to know of changes; `tell C I`: a message tells it
//! - `mark C I`, `unmark C I`: an entry is asked for caps, or not any more; `drop C`: a client's entries go
//! - `skip C`: a client's entries that are not due are walked over, up to the first that is
//! - `due C`: the client's entries from the first on that may be due. A `*` stands behind one that is asked for caps
//!
//! Behind ` => ` stands what is told, a dash for nothing; a step that tells nothing has `done`, which is left out.

use crate::asserting::{made, same};
use crate::values::{caps, ino_of, number, sides, text_of, word};
use capbits::{CapSet, ChangeError, ClientId, Ino, Refusal};
use captable::{CapTable, ClientView, Holder, Walk};
use std::alloc::Global;
use std::process::Abort;

// More than the entries of any list here that is looked at.
const MANY: u32 = 9;

// Makes the entry where there is none. Answers why it can't be made.
fn open(rt: &impl Abort, table: &mut CapTable, holder: Holder) -> Option<Refusal> {
    match table.open_entry(holder.client, holder.ino) {
        Ok(()) => None,
        Err(ChangeError::Refused(refusal)) => Some(refusal),
        Err(ChangeError::NoMemory) => panic!(rt; "no memory: {holder:?}"),
    }
}

fn renumber(table: &mut CapTable, holder: Holder, before: CapSet, after: CapSet) {
    if let Some(entry) = table.find(holder.client, holder.ino) {
        if entry.seq < u64::MAX {
            table.renumber(holder.client, holder.ino, before, after);
        }
    }
}

// The client and the inode that a line names behind its word.
fn holder_of(line: &str) -> Holder {
    Holder {
        client: ClientId(number(line, 1)),
        ino: ino_of(line, 2),
    }
}

// A step that is not refused and tells nothing.
fn change(rt: &impl Abort, table: &mut CapTable, line: &str) {
    let (h, set) = (holder_of(line), caps(word(line, 3)));
    match word(line, 0) {
        "open" => same(rt, open(rt, table, h), None, line),
        "give" => table.issue(h.client, h.ino, set),
        "renumber" => renumber(table, h, set, caps(word(line, 4))),
        "tell" => {
            let _entry = table.tell(h.client, h.ino);
        }
        "release" => same(rt, table.release(h.client, h.ino, set).err(), None, line),
        "drop" => table.drop_client(h.client),
        "mark" => table.ask(h.client, h.ino, true),
        "unmark" => table.ask(h.client, h.ino, false),
        other => {
            same(rt, other, "skip", line);
            table.skip_not_due(h.client);
        }
    }
}

fn push(rt: &impl Abort, alloc: Global, text: &mut String, holder: Holder, asked: bool) {
    let (client, ino) = (holder.client, holder.ino);
    let space = if text.is_empty() { "" } else { " " };
    let star = if asked { "*" } else { "" };
    let more = made(
        rt,
        format!(in alloc; "{space}{client}.{ino}{star}"),
        "a holder",
    );
    made(rt, text.push_str(more.as_str()), "a holder");
}

// The entries that a walk goes by, a dash for none.
fn walked(rt: &impl Abort, alloc: Global, walk: Walk<'_>) -> String {
    let (mut walk, mut text) = (walk, String::new(alloc));
    for _ in 0..MANY {
        if let Some(row) = walk.next() {
            push(rt, alloc, &mut text, row.holder, row.entry.asked);
        }
    }
    if text.is_empty() {
        return text_of(rt, alloc, b"-");
    }
    text
}

fn answer(rt: &impl Abort, alloc: Global, table: &mut CapTable, line: &str) -> String {
    if word(line, 0) == "due" {
        return walked(rt, alloc, table.due_of(ClientId(number(line, 1))));
    }
    change(rt, table, line);
    text_of(rt, alloc, b"done")
}

const DUE: &str = "
# A walk over what is due begins behind what is not.
open 1 2
open 1 3
open 1 4
# A new entry is not due.
due 1 => -
skip 1
due 1 => -
mark 1 3
due 1 => 1.3* 1.4
mark 1 4
mark 1 2
due 1 => 1.2* 1.3* 1.4*
unmark 1 2
skip 1
due 1 => 1.3* 1.4*
# A change that the client was not told of.
give 1 2 p
renumber 1 2 - p
due 1 => 1.2 1.3* 1.4*
# The entry at the place goes, and others come and go.
tell 1 2
release 1 2 p
due 1 => 1.3* 1.4*
open 1 2
open 2 3
drop 2
due 1 => 1.3* 1.4* 1.2
due 2 => -
drop 1
open 1 4
open 1 2
due 1 => -
mark 1 2
due 1 => 1.2*
";

// The calls that nothing else makes, of an entry that was left alone longer than the one behind it and holds nothing.
fn others(rt: &impl Abort, table: &mut CapTable, (oldest, newer): (Holder, Holder)) {
    let (client, ino, pending) = (oldest.client, oldest.ino, caps("p"));
    let order = (table.oldest(), table.newer(client, ino));
    same(
        rt,
        order,
        (Some(oldest), Some(newer)),
        "the order of recall",
    );
    same(rt, table.lists().oldest().is_some(), true, "a node");
    let permitted = caps("pFr");
    table.keep(client, ino, ClientView { pending, permitted });
    table.issue(client, ino, pending);
    let kept = table.kept_permitted(client, ino);
    let refusal = table.ack(client, ino, 0, pending).err();
    same(rt, (kept, refusal), (Some(permitted), None), "kept, taken");
    let kept = table.kept_permitted(client, ino);
    same(rt, kept, None, "kept no more");
}

#[test]
fn a_walk_over_what_is_due_begins_behind_what_is_not(rt: HostRuntime) {
    let mut table = made(&rt, CapTable::new(rt.alloc()), "a table");
    for line in DUE.lines() {
        if let Some((asked, wanted)) = sides(line) {
            let found = answer(&rt, rt.alloc(), &mut table, asked);
            same(&rt, found.as_str(), wanted, line);
        }
    }
    let left = [holder_of("of 1 4"), holder_of("of 1 2")];
    let named = made(&rt, table.first_to_recall(MANY), "holders").into_vec();
    same(&rt, named.as_slice(), &left, "holders");
    others(&rt, &mut table, (left[0], left[1]));
}
