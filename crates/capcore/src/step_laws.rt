//! How an event becomes a step. No program needs to call this law.

ghost use Rattle.std.specs.Prelude.{◌≡◌, List};
ghost use Rattle.capstep.specs.declared.event.Event.{Event};
ghost use Rattle.capstep.specs.declared.reply.Reply.{Reply};
ghost use Rattle.capstep.specs.Direct.{direct, reply_of, shown};
ghost use Rattle.capstep.specs.Finish.{finished, sizes_owed};
ghost use Rattle.capstep.specs.Settle.{Made, Settles, ended_in, sized_in};
ghost use Rattle.capstep.specs.State.{State};
ghost use Rattle.capstep.specs.Step.{Step, all_ended, state_at_end};
ghost use Rattle.lockmachine.specs.Scene.{Scene};

/// An event is a whole step, once the locks have settled, the step has ended and its client was told what is answered. The
/// requests that the event dropped and those of earlier steps that were served are what the step ended.
pub fn an_event_is_a_step_once_it_has_ended()
    ensures { (old new : State) (e : Event) (moves : List Made) (settled last : Scene) (reply : Reply)
        → Settles (direct old e).state.scene moves settled
        → finished old.scene (direct old e).state.scene (sizes_owed (sized_in moves) settled) ≡ last
        → reply ≡ reply_of (state_at_end old (direct old e).state moves last) (ended_in moves) (direct old e).reply_due
        → new ≡ shown (direct old e).reply_due (state_at_end old (direct old e).state moves last)
        → Step old e reply (all_ended old (direct old e) moves) new }
{}
