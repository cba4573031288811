//! What is kept of each client with an entry, so that a poll looks at no entry that is not due.
ghost use Rattle.std.specs.Prelude.{◌≡◌, ◌<◌, ◌^◌, ◌-◌, true, IfSome, OnOk, OnErr, is_some, slice_get};
ghost use Rattle.std.specs.FinMap as map;
ghost use Rattle.std.specs.Option.{unwrap_or};
ghost use Rattle.capbits.specs.Maps.{change_at};
ghost use Rattle.cap_arena.specs.Lists.{OfClient, keys};
ghost use Rattle.captable.specs.Polls as words;
ghost use Rattle.captable.specs.Polls.{begun, counts_of, ended, places_of};
ghost use Rattle.captable.specs.Places.{ArePlaced, NoneDueBefore, NoneDueBeforeAny, is_due_at, lowered, moved_on, place_of};

use crate::entry::Slot;
use crate::places;
use cap_arena::TripleLists;
use capbits::{ClientId, Numbered};
use std::alloc::AllocError;

// What is kept of one client.
#[derive(Clone, Copy)]
pub(crate) struct Poll {
    // A place in the list of its nodes, before which no entry is due.
    pub(crate) place: Option<usize>,
    // How many of its entries are due.
    pub(crate) due: usize,
}

// A client that makes its first entry, which is not due, has its place at the end of its list. For want of memory nothing changes.
pub(crate) fn begin_poll(polls: &mut Numbered<Poll>, client: ClientId) -> Result<(), AllocError>
    ensures ok { OnOk result (polls.new ≡ begun polls.old client) }
    ensures err { OnErr result (polls.new ≡ polls.old) }
{
    let (place, due) = (None, 0);
    polls.add(client.0 as u64, Poll { place, due })?;
    Ok(())
}

// Of a client without nodes nothing is kept.
pub(crate) fn end_poll(polls: &mut Numbered<Poll>, lists: &TripleLists<Slot>, client: ClientId)
    ensures { polls.new ≡ ended (slice_get (keys lists.now (OfClient client)) 0) polls.old client }
{
    if lists.first_of_client(client).is_none() {
        polls.remove(client.0 as u64);
    }
}

// An entry of the client is due from now on: its place is that of the node, unless it is one before.
pub(crate) fn lower_place(
    polls: &mut Numbered<Poll>,
    lists: &TripleLists<Slot>,
    client: ClientId,
    key: usize,
)
    ensures { polls.new ≡ change_at (λ poll. record poll { place = lowered lists.now key poll.place }) polls.old client.0 }
{
    if let Some(poll) = polls.get_mut(client.0 as u64) {
        poll.place = places::lowered(lists, key, poll.place);
    }
}

// A node of the client goes: where the client's place is that of the node, it becomes the next one.
pub(crate) fn move_place(
    polls: &mut Numbered<Poll>,
    client: ClientId,
    key: usize,
    next: Option<usize>,
)
    ensures { polls.new ≡ change_at (λ poll. record poll { place = moved_on key next poll.place }) polls.old client.0 }
{
    if let Some(poll) = polls.get_mut(client.0 as u64) {
        poll.place = places::moved_on(key, next, poll.place);
    }
}

// The client has this place in place of its own, where it has one.
pub(crate) fn set_place(polls: &mut Numbered<Poll>, client: ClientId, place: Option<usize>)
    ensures { polls.new ≡ change_at (λ poll. record poll { place = place }) polls.old client.0 }
{
    if let Some(poll) = polls.get_mut(client.0 as u64) {
        poll.place = place;
    }
}

// Adjusts the client's count when an entry's due flag changes from `was` to `is`.
pub(crate) fn count_again(polls: &mut Numbered<Poll>, client: ClientId, was: bool, is: bool)
    requires fits { IfSome (map.get polls.old client.0) (λ poll. poll.due < 2 ^ 64 - 1) }
    ensures { polls.new ≡ change_at (λ poll. record poll { due = words.recounted was is poll.due }) polls.old client.0 }
{
    if was == is {
        return;
    }
    if let Some(poll) = polls.get_mut(client.0 as u64) {
        poll.due = recounted(poll.due, was, is);
    }
}

// One more or one less, or as many.
fn recounted(count: usize, was: bool, is: bool) -> usize
    requires { count < 2 ^ 64 - 1 }
    ensures { result ≡ words.recounted was is count }
{
    match (was, is) {
        (false, true) => count + 1,
        (true, false) => count.saturating_sub(1),
        (true, true) | (false, false) => count,
    }
}

// The client's place; the end, where it has no entry.
pub(crate) fn place_to_poll_from(
    polls: &Numbered<Poll>,
    lists: &TripleLists<Slot>,
    client: ClientId,
) -> Option<usize>
    requires none_due { NoneDueBeforeAny lists.now (places_of polls.now) }
    requires placed { ArePlaced lists.now (places_of polls.now) }
    ensures kept { result ≡ place_of (places_of polls.now client) }
    ensures none_due { NoneDueBefore lists.now client result }
{
    match polls.get(client.0 as u64) {
        Some(poll) => poll.place,
        None => None,
    }
}

// The client's place moves on over entries that are not due, to the first one that is.
pub(crate) fn skip_place(polls: &mut Numbered<Poll>, lists: &TripleLists<Slot>, client: ClientId)
    requires { NoneDueBeforeAny lists.now (places_of polls.old) }
    ensures none_due { NoneDueBeforeAny lists.now (places_of polls.new) }
    ensures due { IfSome (place_of (places_of polls.new client)) (λ key. is_due_at lists.now key ≡ true) }
    ensures others { (q : ClientId) → is_some (places_of polls.new q) ≡ is_some (places_of polls.old q) }
    ensures counts { (q : ClientId) → counts_of polls.new q ≡ counts_of polls.old q }
{
    if let Some(poll) = polls.get(client.0 as u64) {
        let first = places::first_due(lists, client, poll.place);
        set_place(polls, client, first);
    }
}

// How many of the client's entries are due.
pub(crate) fn count_of(polls: &Numbered<Poll>, client: ClientId) -> usize
    ensures { result ≡ unwrap_or (counts_of polls.now client) 0 }
{
    match polls.get(client.0 as u64) {
        Some(poll) => poll.due,
        None => 0,
    }
}
