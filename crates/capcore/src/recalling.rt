//! The step of a recall: clients are asked to release what they have not used for longest.
ghost use Rattle.std.specs.Prelude.{◌≡◌, IfOk, OnErr, OnOk};
ghost use Rattle.capcore.specs.Replied.{IsReplied};
ghost use Rattle.capstep.specs.Noted.{view_of};
ghost use Rattle.policy_view.specs.Changes.{AreChanges};
ghost use Rattle.capstep.specs.declared.event.Event.TheVariants as event;

use crate::output::StepOutput;
use crate::step_reply::StepReply;
use crate::world::World;
use capstep::{EndedList, Recorded, Reply};
use std::alloc::AllocError;

impl World {
    // A step that marks the first entries in the order of recall as asked to release caps, and names them. The order stays.
    pub(crate) fn recall(
        &mut self,
        count: u32,
        output: &mut StepOutput,
    ) -> Result<StepReply, AllocError>
        ensures replied { IfOk result (λ step_reply. IsReplied self.old (event.Recall count) step_reply self.new) }
        ensures changes { OnOk result (AreChanges output.new.changes.items (view_of self.old) (view_of self.new)) }
        ensures err { OnErr result ((self.new ≡ self.old) × (output.new.changes.items ≡ output.old.changes.items)) }
    {
        let alloc = *self.parts.messages.allocator();
        // The list once for the history and once for the client, both before an entry is marked.
        let recorded = self.parts.scene.table.first_to_recall(count)?;
        let named = self.parts.scene.table.recall(count)?;
        output.changes.clear();
        Ok(StepReply {
            reply: Recorded {
                given: Reply::Recalled(named),
                recorded: Reply::Recalled(recorded),
            },
            ended: EndedList::new(alloc),
        })
    }
}
