//! What is served in the step that brought it. No program needs to call this law.

ghost use Rattle.std.specs.Prelude.{◌≡◌, ◌+◌, false, List, None};
ghost use Rattle.capbits.specs.declared.ids.ClientId.{ClientId};
ghost use Rattle.capbits.specs.declared.ids.Ino.{Ino};
ghost use Rattle.capstep.specs.Direct.{Awaits, reply_of};
ghost use Rattle.capstep.specs.Headline.{is_rejection};
ghost use Rattle.capstep.specs.Serving.{judged_again};
ghost use Rattle.capstep.specs.Settle.{Made, MakesAll, ended_in};
ghost use Rattle.capstep.specs.Sound.{IsSound};
ghost use Rattle.capstep.specs.State.{State};
ghost use Rattle.lockmachine.specs.Locks.{IsLockMap, next_request, with_request};
ghost use Rattle.lockmachine.specs.declared.request.Operation.{Operation};
ghost use Rattle.lockmachine.specs.Scene.{Scene};

/// A request that nothing rejects when it comes, and that is served in the same step, is neither denied nor refused: no
/// request of an earlier step is served before it, so it is judged on the tree and the sessions on which it came.
pub fn what_is_served_at_once_is_not_rejected()
    ensures { (old last : State) (client : ClientId) (ino : Ino) (operation : Operation) (moves : List Made) (settled : Scene)
        → IsSound old → IsLockMap (with_request old.scene.locks client ino operation)
        → judged_again old.scene (next_request old.scene.locks client ino operation) ≡ None
        → MakesAll (record old.scene { locks = with_request old.scene.locks client ino operation }) moves settled
        → is_rejection (reply_of last (ended_in moves) (Awaits (record { 0 = old.scene.locks.last + 1 }))) ≡ false }
{}
