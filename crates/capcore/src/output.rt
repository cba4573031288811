//! What a step puts out besides its reply: the requests that it ends, and the changes that readers are to see.
ghost use Rattle.std.specs.List.{filter_map};
ghost use Rattle.std.specs.Prelude.{◌≡◌, ◌+◌, ◌≤◌, ◌<◌, ◌++◌, [], ◌∷◌, None, length, OnOk, vec_capacity};
ghost use Rattle.capcore.specs.Begun.{HaveRoomFor};

use capbits::{ClientId, Ino, Ticket};
use capstep::{ChangeList, Ended, Outcome, Recorded};
use std::alloc::{AllocError, Global};
use std::fmt;

/// The requests that a step ends: once to be given to their clients, and once recorded in the history, which takes the whole
/// list; the inodes whose sizes they changed; what the step changes of what readers see; and the request that came with the step
/// and was judged then, until one is served. Between steps the changes are those of the last; of the others the room alone is of
/// use.
pub struct StepOutput {
    pub given: Vec<Ended>,
    pub recorded: Vec<Ended>,
    pub sized: Vec<Ino>,
    pub changes: ChangeList,
    pub judged: Option<Ticket>,
}

// Not derived: so the proof of a function that drops one has a single call there.
impl Drop for StepOutput {
    fn drop(self) {
        let StepOutput {
            given: _,
            recorded: _,
            sized: _,
            changes: _,
            judged: _,
        } = self;
    }
}

// Tells nothing of the room that is kept, of which an event that finds no memory may leave less.
impl fmt::Debug for StepOutput {
    fn fmt<W: fmt::Write>(&self, f: &mut fmt::Formatter<W>) -> fmt::Result {
        f.debug_struct("StepOutput").finish_non_exhaustive()
    }
}

impl StepOutput {
    /// No request and no change, and no room.
    pub fn new(alloc: Global) -> StepOutput
        ensures changes { result.changes.items ≡ [] }
    {
        StepOutput {
            given: Vec::new(alloc),
            recorded: Vec::new(alloc),
            sized: Vec::new(alloc),
            changes: ChangeList::new(alloc),
            judged: None,
        }
    }

    /// No request, and room for so many; and places for so many changes. What is listed of changes stays until it is cleared.
    pub fn begin(&mut self, room: usize, places: usize) -> Result<(), AllocError>
        ensures room { OnOk result (HaveRoomFor room self.new) }
        ensures changes { self.new.changes.items ≡ self.old.changes.items }
        ensures places { OnOk result (places ≤ self.new.changes.room) }
        ensures judged { OnOk result (self.new.judged ≡ None) }
    {
        self.judged = None;
        self.given.clear();
        self.recorded.clear();
        self.sized.clear();
        // Mostly nobody waits.
        if room != 0 {
            self.given.reserve(room)?;
            self.recorded.reserve(room)?;
            self.sized.reserve(room)?;
        }
        self.changes.begin(places)
    }

    /// The allocator of the lists.
    pub fn alloc(&self) -> Global {
        *self.given.allocator()
    }

    /// A client's request with this number ended so, and changed the size of this inode, if of any.
    pub fn push(
        &mut self,
        client: ClientId,
        ticket: Ticket,
        served: Recorded<Outcome>,
        sized: Option<Ino>,
    )
        requires given { length self.old.given.items < vec_capacity self.old.given }
        requires recorded { length self.old.recorded.items < vec_capacity self.old.recorded }
        requires sized { length self.old.sized.items < vec_capacity self.old.sized }
        ensures given { self.new.given.items ≡ self.old.given.items ++ record { client = client; ticket = ticket; outcome = served.given } ∷ [] }
        ensures recorded { self.new.recorded.items ≡ self.old.recorded.items ++ record { client = client; ticket = ticket; outcome = served.recorded } ∷ [] }
        ensures sized { self.new.sized.items ≡ self.old.sized.items ++ filter_map (λ ino. ino) (sized ∷ []) }
        ensures room { (vec_capacity self.old.given ≤ vec_capacity self.new.given) × (vec_capacity self.old.recorded ≤ vec_capacity self.new.recorded)
            × (vec_capacity self.old.sized ≤ vec_capacity self.new.sized) }
        ensures changes { self.new.changes ≡ self.old.changes }
        ensures judged { self.new.judged ≡ self.old.judged }
    {
        let Recorded { given, recorded } = served;
        let given = self.given.push(Ended {
            client,
            ticket,
            outcome: given,
        });
        let recorded = self.recorded.push(Ended {
            client,
            ticket,
            outcome: recorded,
        });
        let (Ok(()), Ok(())) = (given, recorded) else {
            unreachable!()
        };
        if let Some(ino) = sized {
            let Ok(()) = self.sized.push(ino) else {
                unreachable!()
            };
        }
    }
}
