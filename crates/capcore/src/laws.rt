//! Laws of the core. No program needs to call them.

ghost use Rattle.std.specs.Prelude.{◌≡◌, ℕ, ◌+◌, List, [], Some, None, length};
ghost use Rattle.capbits.specs.Refusal.{first_failing};
ghost use Rattle.capbits.specs.declared.caller.Caller.{Caller};
ghost use Rattle.capspec.specs.declared.grant.Grant.{Grant};
ghost use Rattle.capgrant.specs.declared.access.Attr.{Attr};
ghost use Rattle.inotree.specs.Calls.{changed, with_new};
ghost use Rattle.inotree.specs.Tree.{IsTree, Nodes};
ghost use Rattle.inotree.specs.declared.node.Kind.{Kind};
ghost use Rattle.inotree.specs.declared.node.Node.{Node};
ghost use Rattle.captable.specs.Table.{IsTable};
ghost use Rattle.sessiontab.specs.Calls.{with_session, without_blocked};
ghost use Rattle.sessiontab.specs.Table.{SessionTable};
ghost use Rattle.sessiontab.specs.Tests.{new_session_tests};
ghost use Rattle.capstep.specs.declared.event.Event.{Event};
ghost use Rattle.capstep.specs.declared.outcome.Ended.{Ended};
ghost use Rattle.capstep.specs.declared.reply.Reply.{Reply};
ghost use Rattle.capstep.specs.declared.row.Row.{Row};
ghost use Rattle.capstep.specs.Direct.{with_scene};
ghost use Rattle.capstep.specs.Finish.{finished};
ghost use Rattle.capstep.specs.Headline.{NoneConflict, ServedDenied};
ghost use Rattle.capstep.specs.History.{HasNoStray, IsLegal, IsOpening, Replays};
ghost use Rattle.capstep.specs.Judge.{judged, rejection_reply};
ghost use Rattle.capstep.specs.Settle.{Made, MakesAll, Settles, ended_in};
ghost use Rattle.capstep.specs.Sound.{IsSound};
ghost use Rattle.capstep.specs.State.{State};
ghost use Rattle.capstep.specs.Step.{Step, StepBy};
ghost use Rattle.capstep.specs.declared.rejection.Rejection.{Rejection};
ghost use Rattle.capcore.specs.Sparing.{SparesEntries, with_parts};
ghost use Rattle.lockmachine.specs.Inodes.{StateMap};
ghost use Rattle.lockmachine.specs.Locks.{IsLockMap, with_ino};
ghost use Rattle.lockmachine.specs.Scene.{Scene};
ghost use Rattle.capcore.specs.SameEvents.{AllFoundMemory, FoundMemory, ends_of, events_of, passes_of};

/// The opening state is sound.
pub fn an_opening_is_sound()
    ensures { (fs : List ℕ) (tree : Nodes) (s : State) → HasNoStray tree → IsOpening fs tree s → IsSound s }
{}

/// In a sound state no two clients hold what may not be held together.
pub fn the_held_are_apart()
    ensures { (s : State) → IsSound s → NoneConflict s.scene }
{}

/// In a sound state nothing is left to do: no move applies, and the end of a step changes nothing.
pub fn a_sound_state_has_nothing_left_to_do()
    ensures settles { (s : State) → IsSound s → Settles s.scene [] s.scene }
    ensures finished { (s : State) → IsSound s → IsTable s.scene.table
        → finished s.scene s.scene s.scene ≡ s.scene }
{}

/// The moves of a step leave all that is held, and all else of the entries: so who caches the data of a file once the locks have
/// settled, cached it whenever one of these moves changed its size.
pub fn moves_change_nothing_held()
    ensures { (first settled : Scene) (moves : List Made) → MakesAll first moves settled → settled.table ≡ first.table }
{}

/// So of an event that is rejected there is a step, which says what rejected it, ends no request and changes nothing; and
/// there is no other.
pub fn a_rejection_changes_nothing()
    ensures step { (old : State) (e : Event) (rejection : Rejection) → IsSound old → IsTable old.scene.table
        → judged old.scene e ≡ Some rejection → Step old e (rejection_reply rejection) [] old }
    ensures only { (old new : State) (e : Event) (rejection : Rejection) (reply : Reply) (ended : List Ended)
        → IsSound old → IsTable old.scene.table → judged old.scene e ≡ Some rejection
        → Step old e reply ended new → (reply ≡ rejection_reply rejection) × (ended ≡ []) × (new ≡ old) }
{}

/// After an event that leaves alone all that entries and requests depend on, a state that was sound is sound, no move
/// applies, and nothing is to be issued, forgotten or numbered.
pub fn what_spares_entries_has_nothing_to_do()
    ensures sound { (s : State) (tree : Nodes) (sessions : SessionTable) (states : StateMap) → IsSound s
        → SparesEntries s.scene tree sessions states → IsSound (with_scene s (with_parts s.scene tree sessions states)) }
    ensures settles { (s : State) (tree : Nodes) (sessions : SessionTable) (states : StateMap) → IsSound s
        → SparesEntries s.scene tree sessions states
        → Settles (with_parts s.scene tree sessions states) [] (with_parts s.scene tree sessions states) }
    ensures finished { (s : State) (tree : Nodes) (sessions : SessionTable) (states : StateMap) → IsSound s
        → SparesEntries s.scene tree sessions states → IsTable s.scene.table
        → finished s.scene (with_parts s.scene tree sessions states) (with_parts s.scene tree sessions states)
        ≡ with_parts s.scene tree sessions states }
{}

/// A new session, a client that comes off the blocklist, a new inode, and a snapshot that comes or goes are such events.
pub fn sessions_inodes_and_snapshots_spare_entries()
    ensures session { (s : State) (client : ℕ) (caller : Caller) (grants : List Grant) → IsSound s
        → first_failing (new_session_tests s.scene.sessions client) ≡ None
        → SparesEntries s.scene s.scene.tree (with_session s.scene.sessions client caller grants) s.scene.locks.states }
    ensures unblocked { (s : State) (client : ℕ) → IsSound s
        → SparesEntries s.scene s.scene.tree (without_blocked s.scene.sessions client) s.scene.locks.states }
    ensures inode { (s : State) (kind : Kind) (dir : ℕ) (name : List ℕ) (attr : Attr) → IsSound s
        → IsTree s.scene.tree → SparesEntries s.scene (with_new s.scene.tree kind dir name attr) s.scene.sessions
        (with_ino s.scene.locks (s.scene.tree.last + 1)).states }
    ensures snapshot { (s : State) (f : Node → Node) (ino : ℕ) → IsSound s
        → ((n : Node) → (f n).site ≡ n.site) → ((n : Node) → (f n).attr ≡ n.attr)
        → SparesEntries s.scene (changed f s.scene.tree ino) s.scene.sessions s.scene.locks.states }
{}

/// Whatever moves are made, each request that is served is denied exactly if it passes the tests that stand before policy
/// and an access that it needs has no grant on the tree of that moment; and each such denial names the first access without a
/// grant, and the rule by which each grant fails.
pub fn the_served_are_denied_exactly()
    ensures { (first last : Scene) (moves : List Made) → MakesAll first moves last → ServedDenied first moves }
{}

/// A settling ends as many requests as there are fewer that wait, so that it serves at most as many as waited; and between two
/// servings each lock begins at most one gather and ends at most two (`lockmachine`).
pub fn a_settling_serves_at_most_who_waits()
    ensures { (first settled : Scene) (moves : List Made) → IsLockMap first.locks → MakesAll first moves settled
        → length (ended_in moves) + length settled.locks.queue ≡ length first.locks.queue }
{}

/// A row says all of its step: two steps from one state that have the same event, the same answer and the same requests of
/// earlier steps that they ended are made by the same moves, and lead to the same state.
pub fn a_row_fixes_its_step()
    ensures moves { (old new other : State) (e : Event) (reply : Reply) (ended : List Ended) (moves others : List Made)
        → IsLockMap old.scene.locks → StepBy old e moves reply ended new → StepBy old e others reply ended other
        → moves ≡ others }
    ensures state { (old new other : State) (e : Event) (reply : Reply) (ended : List Ended) → IsLockMap old.scene.locks
        → Step old e reply ended new → Step old e reply ended other → new ≡ other }
{}

/// So the rows of a history lead to one state alone, from its opening and from any state on the way.
pub fn rows_fix_the_state()
    ensures opening { (fs : List ℕ) (tree : Nodes) (first last end : State) (rows : List Row) → IsOpening fs tree first
        → Replays first rows last → Replays first rows end → last ≡ end }
    ensures on_the_way { (first last end : State) (rows : List Row) → IsLockMap first.scene.locks
        → Replays first rows last → Replays first rows end → last ≡ end }
{}

/// An event has one step in which every request finds its memory: what it answers, which requests of earlier steps it ends and
/// where it leads are the same in any other such step.
pub fn a_step_that_finds_memory_has_one_end()
    ensures { (old new other : State) (e : Event) (a b : Reply) (xs ys : List Ended) → IsLockMap old.scene.locks
        → Step old e a xs new → Step old e b ys other → FoundMemory a xs → FoundMemory b ys
        → (a ≡ b) × (xs ≡ ys) × (new ≡ other) }
{}

/// So where no request finds no memory, events alone say what is answered and where they lead: two histories from one opening
/// with the same events have the same answers, end the same requests and lead to the same state, whoever called. Where the same
/// passes called, their rows are the same.
pub fn the_same_events_have_the_same_history()
    ensures ends { (fs : List ℕ) (tree : Nodes) (first last end : State) (rows others : List Row) → IsOpening fs tree first
        → Replays first rows last → Replays first others end → events_of rows ≡ events_of others
        → AllFoundMemory rows → AllFoundMemory others → ends_of rows ≡ ends_of others }
    ensures state { (fs : List ℕ) (tree : Nodes) (first last end : State) (rows others : List Row) → IsOpening fs tree first
        → Replays first rows last → Replays first others end → events_of rows ≡ events_of others
        → AllFoundMemory rows → AllFoundMemory others → last ≡ end }
    ensures rows { (fs : List ℕ) (tree : Nodes) (first last end : State) (rows others : List Row) → IsOpening fs tree first
        → IsLegal first rows last → IsLegal first others end → events_of rows ≡ events_of others
        → passes_of rows ≡ passes_of others → AllFoundMemory rows → AllFoundMemory others → rows ≡ others }
{}
