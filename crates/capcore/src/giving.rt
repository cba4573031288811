//! What a client is told at the end of a step, and a recall. No program needs to call these laws.

ghost use Rattle.std.specs.Prelude.{◌≡◌, ℕ};
ghost use Rattle.captable.specs.Calls.{recalled};
ghost use Rattle.captable.specs.Table.{IsTable};
ghost use Rattle.capstep.specs.Direct.{DirectReply, shown, with_table};
ghost use Rattle.capstep.specs.Finish.{finished};
ghost use Rattle.capstep.specs.Headline.{IssuesExactly};
ghost use Rattle.capstep.specs.Sound.{AreGiven, IsSound};
ghost use Rattle.capstep.specs.State.{State};
ghost use Rattle.lockmachine.specs.Scene.{Scene};

/// What a client is told at the end of a step leaves a sound state sound, nothing to do and all that is held as it was.
pub fn telling_changes_only_what_was_told()
    ensures sound { (s : State) (reply_due : DirectReply) → IsSound s → IsTable s.scene.table → IsSound (shown reply_due s) }
    ensures given { (count : ℕ) (s : State) (reply_due : DirectReply) → AreGiven count s → AreGiven count (shown reply_due s) }
    ensures issued { (first : Scene) (s : State) (reply_due : DirectReply) → IsTable s.scene.table → IssuesExactly first s.scene
        → IssuesExactly first (shown reply_due s).scene }
{}

/// A recall marks entries whose clients are asked to release, and leaves a sound state sound; no client is to know of anything else
/// than before, and nothing is to be issued, forgotten or numbered.
pub fn a_recall_changes_only_the_marks()
    ensures sound { (s : State) (n : ℕ) → IsSound s → IsSound (with_table s (recalled s.scene.table n)) }
    ensures finished { (s : State) (n : ℕ) → IsSound s → IsTable s.scene.table
        → let new = with_table s (recalled s.scene.table n) in finished s.scene new.scene new.scene ≡ new.scene }
{}
