//! What a call answers.
ghost use Rattle.std.specs.Prelude.{◌≡◌, ◌<◌, length, IsTrue, MatchOption};
ghost use mathlib.Core.List.{IsPrefix};
ghost use Rattle.snapshot.specs.Rows.{Legal};

use crate::pass::Pass;
use capstep::Reply;
use snapshot::{Beginning, Server};

/// What a call answers.
pub struct Answer {
    /// What the core answered to the event.
    pub reply: Reply,
    /// Whether the event is published. Then the pass knows its row.
    pub fresh: bool,
}

// Not derived: so the proof of a function that drops one has a single call there.
impl Drop for Answer {
    fn drop(self) {
        let Answer { reply: _, fresh: _ } = self;
    }
}

impl Answer {
    /// The answer with this reply, to a pass that comes to know what is published. It is fresh where the pass learns something new, and
    /// knows just these rows then. At `None` memory for publishing them was refused, and it is not fresh.
    pub fn of<L: Server>(reply: Reply, rows: Option<Beginning<L>>, pass: &mut Pass<L>) -> Answer
        ensures reply { result.reply ≡ reply }
        ensures same { pass.new ≡ record pass.old { known = pass.new.known } }
        ensures known { IsPrefix pass.old.known pass.new.known }
        ensures legal { Legal L.opening pass.old.known → Legal L.opening pass.new.known }
        ensures fresh { IsTrue result.fresh → MatchOption rows ⊥ (λ all. (pass.new.known ≡ all) × (length pass.old.known < length pass.new.known)) }
    {
        let fresh = match rows {
            Some(rows) => pass.catch_up(&rows),
            None => false,
        };
        Answer { reply, fresh }
    }
}
