//! The stages that bring what is published up to date.
ghost use Rattle.std.specs.Prelude.{◌≡◌, ◌≤◌, length, drop, fold, Ok, IsTrue, IfSome};
ghost use mathlib.Core.List.{IsPrefix};
ghost use Rattle.policy_view.specs.Changes.{view_by};
ghost use Rattle.snapshot.specs.Rows.{Legal};
ghost use Rattle.snapshot.specs.Value.{staged, staged_all};

use crate::ledger::Server;
use crate::place::PublishedWriter;
use crate::recorder::{Recorder, gather};
use crate::value::Stage;
use capstep::Row;
use inotree::Tree;
use policy_view::{View, ViewChange};
use sessiontab::Sessions;
use std::alloc::{AllocError, Global};

// Takes the rows of the history that are new into the book and stages them, behind what leads to their view. It says whether all is
// staged.
pub(crate) fn stage_history<L: Server>(
    writer: &mut PublishedWriter,
    recorder: &mut Recorder<L>,
    history: &[Row],
) -> bool
    requires legal { Legal L.opening history.now }
    requires begins { IsPrefix recorder.old history.now }
    requires room { length history.now ≤ 4294967295 }
    ensures desk { writer.new.desk ≡ writer.old.desk }
    ensures begins { IsPrefix recorder.new history.now }
    ensures more { IsPrefix recorder.old recorder.new }
    ensures whole { IsTrue result → recorder.new ≡ history.now }
    ensures log { IsTrue result → (staged_all writer.new.desk.shown.value (drop writer.new.behind writer.new.log.items)).rows.seen.log ≡ history.now }
    ensures book { IsTrue result → (staged_all writer.new.desk.shown.value (drop writer.new.behind writer.new.log.items)).rows.seen.book ≡ L.history }
    ensures view { IsTrue result → (staged_all writer.new.desk.shown.value (drop writer.new.behind writer.new.log.items)).view ≡ (staged_all writer.old.desk.shown.value (drop writer.old.behind writer.old.log.items)).view }
{
    gather(recorder, history) && stage(writer, Stage::Rows(recorder.rows().counted()))
}

// Stages the changes one by one. It says whether all are staged.
pub(crate) fn stage_changes(
    alloc: Global,
    writer: &mut PublishedWriter,
    changes: &[ViewChange],
) -> bool
    ensures desk { writer.new.desk ≡ writer.old.desk }
    ensures view { IsTrue result → (staged_all writer.new.desk.shown.value (drop writer.new.behind writer.new.log.items)).view ≡ fold view_by (staged_all writer.old.desk.shown.value (drop writer.old.behind writer.old.log.items)).view changes.now }
{
    for change in changes {
        if !stage_change(alloc, writer, change) {
            return false;
        }
    }
    true
}

fn stage_change(alloc: Global, writer: &mut PublishedWriter, change: &ViewChange) -> bool
    ensures desk { writer.new.desk ≡ writer.old.desk }
    ensures view { IsTrue result → (staged_all writer.new.desk.shown.value (drop writer.new.behind writer.new.log.items)).view ≡ view_by (staged_all writer.old.desk.shown.value (drop writer.old.behind writer.old.log.items)).view change.now }
{
    match boxed(alloc, change.copy()) {
        Some(change) => stage(writer, Stage::Change(change)),
        None => false,
    }
}

// Stages the view of this tree and these sessions. It says whether it is staged.
pub(crate) fn stage_view(
    alloc: Global,
    writer: &mut PublishedWriter,
    tree: &Tree,
    sessions: &Sessions,
) -> bool
    ensures desk { writer.new.desk ≡ writer.old.desk }
    ensures view { IsTrue result → (staged_all writer.new.desk.shown.value (drop writer.new.behind writer.new.log.items)).view ≡ record { tree = tree.now; sessions = sessions.now.sessions } }
{
    match boxed(alloc, View::of(tree, sessions)) {
        Some(view) => stage(writer, Stage::Whole(view)),
        None => false,
    }
}

// The value in a box of its own, where there was memory for both.
fn boxed<T: Drop>(alloc: Global, made: Result<T, AllocError>) -> Option<Box<T>>
    ensures { IfSome result (λ b. made ≡ Ok b.value) }
{
    Box::new(alloc, made.ok()?).ok()
}

fn stage(writer: &mut PublishedWriter, next: Stage) -> bool
    ensures desk { writer.new.desk ≡ writer.old.desk }
    ensures staged { IsTrue result → staged_all writer.new.desk.shown.value (drop writer.new.behind writer.new.log.items) ≡ staged (staged_all writer.old.desk.shown.value (drop writer.old.behind writer.old.log.items)) next }
{
    writer.append(next).is_ok()
}
