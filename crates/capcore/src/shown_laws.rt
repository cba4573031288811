//! What clients were last shown of what they hold. No program needs to call these laws.

ghost use Rattle.std.specs.Prelude.{◌++◌, [], ◌∷◌, List};
ghost use Rattle.captable.specs.Table.{IsTable};
ghost use Rattle.capstep.specs.declared.event.Event.{Event};
ghost use Rattle.capstep.specs.declared.row.Row.{Row};
ghost use Rattle.capstep.specs.Direct.{direct};
ghost use Rattle.capstep.specs.Headline.{IssuesExactly};
ghost use Rattle.capstep.specs.Shown.{AreShown, ShowsWhatIsPending, TakesOnlySo, TakesUnshown};
ghost use Rattle.capstep.specs.Sound.{IsSound};
ghost use Rattle.capstep.specs.State.{State};
ghost use Rattle.capstep.specs.Step.{Step};
ghost use Rattle.lockmachine.specs.Scene.{Scene};

/// Where the numbers of entries say what clients were last shown, they say it after one step more.
pub fn a_step_shows_what_it_tells()
    ensures { (old new : State) (rows : List Row) (row : Row) → IsSound old → IsTable old.scene.table
        → AreShown rows old.scene → Step old row.event row.reply row.ended new → AreShown (rows ++ row ∷ []) new.scene }
{}

/// So where no message is due for an entry, its client was last shown just what it is to know; what an acknowledgement takes was
/// missing from what was shown; and else a release and the end of a session alone take what is held.
pub fn what_was_shown_is_what_is_pending()
    ensures shows { (rows : List Row) (s : State) → IsSound s → AreShown rows s.scene → ShowsWhatIsPending rows s.scene }
    ensures takes { (rows : List Row) (old : State) (e : Event) → IsSound old → AreShown rows old.scene
        → TakesUnshown rows old.scene e (direct old e).state.scene }
    ensures takes_only_so { (old : State) (e : Event) (new : Scene) → IssuesExactly (direct old e).state.scene new
        → TakesOnlySo old.scene e new }
{}
