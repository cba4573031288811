//! Which requests some messages tell of.
ghost use Rattle.std.specs.List.{list_any};
ghost use Rattle.std.specs.Prelude.{◌≡◌, ◌==◌, ◌||◌, IfOk, OnOk};
ghost use Rattle.capstep.specs.DueEndings.{AreEndsOf, is_end_of};

use crate::outcome::Message;
use capbits::Ticket;
use std::alloc::{AllocError, Global};
use std::marker::Model;

/// The numbers of the requests of whose ends some messages tell, the smallest first, so that one is found by a search.
pub struct EndedTickets {
    sorted: Vec<u64>,
}

// Not derived: so the proof of a function that drops one has a single call there.
impl Drop for EndedTickets {
    fn drop(self) {
        let EndedTickets { sorted: _ } = self;
    }
}

impl Model for EndedTickets {
    ghost use Rattle.std.specs.List.Sorted.{IsNonDecreasing};
    ghost use Rattle.std.specs.Prelude.{List, ℕ};

    ghost Value = { List ℕ };

    ghost view = { λ t. t.sorted.items };

    ghost invariant = { λ t. IsNonDecreasing t.sorted.items };
}

impl EndedTickets {
    /// The numbers that these messages tell of.
    pub fn of(alloc: Global, messages: &[Message]) -> Result<EndedTickets, AllocError>
        ensures { IfOk result (λ told. AreEndsOf messages.now told) }
    {
        let mut sorted = Vec::new(alloc);
        for message in messages {
            add_number(&mut sorted, message)?;
        }
        sorted.as_mut_slice().sort_unstable();
        Ok(EndedTickets { sorted })
    }

    /// The numbers.
    pub fn as_slice(&self) -> &[u64]
        ensures { result.now ≡ self.now }
    {
        self.sorted.as_slice()
    }

    /// Whether the request with this number is among them. Out of line, as most requests that are looked at are another client's.
    #[inline(never)]
    pub fn contains(&self, ticket: Ticket) -> bool
        ensures { result ≡ list_any (λ number. number == ticket.0) self.now }
    {
        // Where it would stand if the numbers had no gaps, as those of a client that alone makes requests have none.
        let first = self.sorted.first().copied().unwrap_or(0);
        let guess = ticket.0.saturating_sub(first) as usize;
        match self.sorted.get(guess) {
            Some(number) if *number == ticket.0 => true,
            _ => self.sorted.as_slice().binary_search(&ticket.0).is_ok(),
        }
    }
}

// Adds the number of the request of whose end a message tells, if it does.
fn add_number(numbers: &mut Vec<u64>, message: &Message) -> Result<(), AllocError>
    ensures { OnOk result ((ticket : Ticket)
        → list_any (λ number. number == ticket.0) numbers.new.items ≡ (list_any (λ number. number == ticket.0) numbers.old.items || is_end_of ticket message.now)) }
{
    if let Message::Ended { ticket, .. } = message {
        numbers.push(ticket.0)?;
    }
    Ok(())
}
