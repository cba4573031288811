//! The requests that ended and that no client was told of, in the order in which they ended. Their room is made when they begin to
//! wait, so that none is lost.
ghost use Rattle.std.specs.Prelude.{◌≡◌, List, filter, not, vec_capacity};
ghost use Rattle.capstep.specs.declared.outcome.Message.{Message};
ghost use Rattle.capstep.specs.DueEndings.{AreEndsOf, is_left, is_to};

use crate::ended_tickets::EndedTickets;
use crate::outcome::Ended;
use capbits::ClientId;

/// The client's requests with these numbers, of which messages told it, are due no more.
pub fn remove_given(due: &mut Vec<Ended>, client: ClientId, tickets: &EndedTickets)
    ensures items { (given : List Message) → AreEndsOf given tickets.now → due.new.items ≡ filter (is_left client given) due.old.items }
    ensures room { vec_capacity due.new ≡ vec_capacity due.old }
{
    // Most polls tell of no request that ended.
    if let [] = tickets.as_slice() {
        return;
    }
    due.retain(|ended| !(ended.client.0 == client.0 && tickets.contains(ended.ticket)));
}

/// Nothing is due to the client any more.
pub fn remove_to(due: &mut Vec<Ended>, client: ClientId)
    ensures items { due.new.items ≡ filter (λ m. not (is_to client m)) due.old.items }
    ensures room { vec_capacity due.new ≡ vec_capacity due.old }
{
    due.retain(|ended| ended.client.0 != client.0);
}
