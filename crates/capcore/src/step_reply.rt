//! The reply of a step.
ghost use Rattle.std.specs.Prelude.{◌≡◌, false, []};
ghost use Rattle.capstep.specs.Recorded.{twice};
ghost use Rattle.capstep.specs.Replies.{has_list};

use capstep::{EndedList, Recorded, Reply, copy_of_reply};
use std::alloc::Global;

/// The reply of a step, and the requests of earlier steps that the step ended.
#[derive(Drop)]
pub struct StepReply {
    pub reply: Recorded<Reply>,
    pub ended: EndedList,
}

impl StepReply {
    /// A reply that has no list, of a step that ended no request.
    pub fn alone(alloc: Global, reply: Reply) -> StepReply
        requires { has_list reply ≡ false }
        ensures reply { result.reply ≡ twice reply }
        ensures ended { result.ended ≡ [] }
    {
        let recorded = copy_of_reply(&reply);
        let ended = EndedList::new(alloc);
        StepReply {
            reply: Recorded {
                given: reply,
                recorded,
            },
            ended,
        }
    }
}
