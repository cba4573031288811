//! What is taken out with a client whose session ends.
ghost use Rattle.std.specs.Prelude.{true, None, Some, ◌≡◌, ◌+◌, ◌≤◌, ◌++◌, length, vec_capacity};
ghost use Rattle.std.specs.Prelude.{map as each};
ghost use Rattle.captable.specs.Calls.{without_client};
ghost use Rattle.captable.specs.Table.{entry_at};
ghost use Rattle.captable.specs.declared.entry.Entry.{Entry};
ghost use Rattle.captable.specs.declared.entry.Holder.{Holder};
ghost use Rattle.lockmachine.specs.Counts.{AreCounted};
ghost use Rattle.lockmachine.specs.Locks.{requests_of, without_requests_of};
ghost use Rattle.capstep.specs.Serving.{dropped_of};
ghost use Rattle.step_acts.specs.Known.{sets_of};
ghost use Rattle.step_acts.specs.Left as words;
ghost use Rattle.sessiontab.specs.Changes.{is_end};

use capbits::{CapSet, ClientId};
use capstep::due_endings::remove_to;
use capstep::{Ended, Outcome};
use captable::CapTable;
use lockmachine::{KeptScene, Locks};
use sessiontab::SessionChange;

/// Where the session ends, takes out all that is the client's, and lists its requests as dropped.
pub fn drop_client_state(
    scene: &mut KeptScene,
    messages: &mut Vec<Ended>,
    client: ClientId,
    change: SessionChange,
    dropped: &mut Vec<Ended>,
)
    requires room { length dropped.old.items + length scene.old.locks.locks.queue ≤ vec_capacity dropped.old }
    ensures table { scene.new.table.entries ≡ words.table_left (is_end change.entry) scene.old.table.entries client }
    ensures gone { is_end change.entry ≡ true → (k : Holder) (e : Entry) → k.client ≡ client → entry_at scene.old.table.entries k ≡ Some e → sets_of scene.new.table.kept k ≡ None }
    ensures known { (k : Holder) (e : Entry) → entry_at scene.new.table.entries k ≡ Some e → sets_of scene.new.table.kept k ≡ sets_of scene.old.table.kept k }
    ensures counted { AreCounted scene.old.table.entries scene.old.locks → AreCounted scene.new.table.entries scene.new.locks }
    ensures locks { scene.new.locks.locks ≡ words.locks_left (is_end change.entry) scene.old.locks.locks client }
    ensures rest { scene.new ≡ record scene.old { table = scene.new.table; locks = scene.new.locks } }
    ensures messages { messages.new.items ≡ words.messages_left (is_end change.entry) messages.old.items client }
    ensures left { vec_capacity messages.new ≡ vec_capacity messages.old }
    ensures dropped { dropped.new.items ≡ dropped.old.items ++ words.dropped_by (is_end change.entry) scene.old.locks.locks client }
    ensures room { length dropped.new.items + length scene.new.locks.locks.queue ≤ vec_capacity dropped.new }
{
    if change.is_end() {
        give_up_all(&scene.table, &mut scene.locks, client);
        scene.table.drop_client(client);
        remove_to(messages, client);
        drop_requests(&mut scene.locks, client, dropped);
    }
}

// No gather waits for the client any more.
fn give_up_all(table: &CapTable, locks: &mut Locks, client: ClientId)
    ensures counted { AreCounted table.now.entries locks.old → AreCounted (without_client table.now.entries client) locks.new }
    ensures locks { locks.new.locks ≡ locks.old.locks }
{
    let mut walk = table.entries_of(client);
    'rows: while let Some(row) = walk.next() {
        locks.gives_up(row, CapSet::empty());
    }
}

// Takes the client's requests out, and lists them, the oldest first.
fn drop_requests(locks: &mut Locks, client: ClientId, dropped: &mut Vec<Ended>)
    requires room { length dropped.old.items + length locks.old.locks.queue ≤ vec_capacity dropped.old }
    ensures locks { locks.new ≡ record locks.old { locks = without_requests_of locks.old.locks client } }
    ensures dropped { dropped.new.items ≡ dropped.old.items ++ each dropped_of (requests_of locks.old.locks client) }
    ensures room { length dropped.new.items + length locks.new.locks.queue ≤ vec_capacity dropped.new }
{
    for request in locks.requests() {
        if request.client.0 == client.0 {
            let (ticket, outcome) = (request.ticket, Outcome::Dropped);
            let Ok(()) = dropped.push(Ended {
                client,
                ticket,
                outcome,
            }) else {
                unreachable!()
            };
        }
    }
    locks.drop_requests_of(client);
}
