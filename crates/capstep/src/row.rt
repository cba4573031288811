//! What is kept of an event.
ghost use Rattle.std.specs.Prelude.{◌≡◌};

use crate::event::Event;
use crate::outcome::Ended;
use crate::reply::Reply;
use capbits::PassId;
use std::alloc::Global;
use std::marker::Model;

/// A list of requests that ended, in the order in which they did.
#[derive(Debug)]
pub struct EndedList {
    items: Vec<Ended>,
}

// Not derived: so the proof of a function that drops one has a single call there.
impl Drop for EndedList {
    fn drop(self) {
        let EndedList { items: _ } = self;
    }
}

impl Model for EndedList {
    ghost use Rattle.std.specs.Coded.{coded_list};
    ghost use Rattle.std.specs.Prelude.{List};
    ghost use Rattle.capstep.specs.declared.outcome.Ended.{Ended};
    ghost use Rattle.capstep.specs.contracts.outcome.Ended as ended;

    ghost Value = { List Ended };

    ghost coded = { coded_list ended.the_row.coded };

    ghost view = { λ list. list.items.items };
}

impl EndedList {
    ghost use Rattle.std.specs.Prelude.{[]};

    /// No request.
    pub fn new(alloc: Global) -> EndedList
        ensures { result ≡ [] }
    {
        EndedList {
            items: Vec::new(alloc),
        }
    }

    /// The vector of the requests.
    pub fn into_inner(self) -> Vec<Ended>
        ensures { result.items ≡ self }
    {
        let EndedList { items } = self;
        items
    }

    /// The requests.
    pub fn as_slice(&self) -> &[Ended]
        ensures { result.now ≡ self.now }
    {
        self.items.as_slice()
    }
}

impl From<Vec<Ended>> for EndedList {
    ghost from_gives = { λ given list. list ≡ given.items };

    fn from(items: Vec<Ended>) -> Self {
        EndedList { items }
    }
}

/// One event with its answer.
#[derive(Debug)]
pub struct Row {
    /// The pass by which it was called.
    pub pass: PassId,
    /// Its number among the events of that pass, from 1.
    pub nth: u64,
    /// What happened.
    pub event: Event,
    /// What was answered.
    pub reply: Reply,
    /// The requests of earlier rows that it ended.
    pub ended: EndedList,
}

// Not derived: so the proof of a function that drops one has a single call there.
impl Drop for Row {
    fn drop(self) {
        let Row {
            pass: _,
            nth: _,
            event: _,
            reply: _,
            ended: _,
        } = self;
    }
}
