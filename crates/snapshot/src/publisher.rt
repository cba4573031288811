//! Who publishes: the rows of the history, and the view to which they lead.
ghost use Rattle.std.specs.Prelude.{◌≡◌, ◌≤◌, true, false, None, [], drop, length, fold, IfOk, IfSome};
ghost use mathlib.Core.List.{IsPrefix};
ghost use Rattle.left_right.specs.Sides.{view as place_view};
ghost use Rattle.policy_view.specs.Changes.{view_by};
ghost use Rattle.snapshot.specs.Places.{IsOriginKnown};
ghost use Rattle.snapshot.specs.Publishing.{IsReady, IsStaging, publishing};
ghost use Rattle.snapshot.specs.Rows.{Legal};

use crate::beginning::Beginning;
use crate::ledger::Server;
use crate::place::{Hears, PublishedReader, PublishedWriter, Sees, Tells};
use crate::recorder::Recorder;
use crate::staging::{stage_changes, stage_history, stage_view};
use capstep::Row;
use inotree::Tree;
use policy_view::ViewChange;
use sessiontab::Sessions;
use std::alloc::{AllocError, Global};
use std::marker::Model;
use std::sync::Wait;

/// Who publishes. What was refused memory goes out with the next: then the whole view is staged once more. It is not `Drop`:
/// end it by `end`.
pub struct Publisher<L: Server> {
    alloc: Global,
    // Who adds rows to the book. It has those that are published, and those that are staged.
    recorder: Recorder<L>,
    writer: PublishedWriter,
    // Whether a stage was refused memory, so that the stages don't lead to these rows.
    lost: bool,
}

impl<L: Server> Model for Publisher<L> {
    ghost use Rattle.std.specs.Prelude.{drop};
    ghost use Rattle.left_right.specs.Sides.{view as place_view};
    ghost use Rattle.snapshot.specs.Places.{IsOriginKnown};
    ghost use Rattle.snapshot.specs.Publishing.{IsStaging, Publishing, publishing, publishing_code};

    ghost Value = { Publishing };

    ghost coded = { publishing_code };

    ghost view = { λ p. publishing p.writer.desk.shown.value (drop p.writer.behind p.writer.log.items) p.recorder p.lost };

    ghost invariant = { λ p. IsStaging L.history p.writer.desk.shown.value (drop p.writer.behind p.writer.log.items) p.recorder p.lost × IsOriginKnown L.opening L.history (place_view p.writer.desk.place) };
}

impl<L: Server> Publisher<L> {
    // Who publishes what this book has, at a pair that was told of which server it is.
    pub(crate) fn of(alloc: Global, recorder: Recorder<L>, writer: PublishedWriter) -> Publisher<L>
        requires staging { IsStaging L.history writer.desk.shown.value (drop writer.behind writer.log.items) recorder false }
        requires origin_known { IsOriginKnown L.opening L.history (place_view writer.desk.place) }
        ensures { result ≡ publishing writer.desk.shown.value (drop writer.behind writer.log.items) recorder false }
    {
        Publisher {
            alloc,
            recorder,
            writer,
            lost: false,
        }
    }

    /// The rows that are in the book.
    pub fn rows(&self) -> &Beginning<L>
        ensures { result.now ≡ self.now.rows }
    {
        self.recorder.rows()
    }

    /// A reader's place, which knows no row yet, and was told of which server it is.
    pub fn reader(&mut self) -> Result<PublishedReader, AllocError>
        ensures same { self.new ≡ self.old }
        ensures none { IfOk result (λ reader. (place_view reader.place).known ≡ []) }
        ensures origin_known { IfOk result (λ reader. IsOriginKnown L.opening L.history (place_view reader.place)) }
    {
        let mut reader = self.writer.factory().reader()?;
        reader.learn::<Hears>(self.writer.tell::<Tells>());
        Ok(reader)
    }

    /// Takes the rows of the history into the book, and stages the changes that the last ones made.
    pub fn follow(&mut self, history: &[Row], changes: &[ViewChange])
        requires legal { Legal L.opening history.now }
        requires begins { IsPrefix self.old.rows history.now }
        requires room { length history.now ≤ 4294967295 }
        ensures shown { self.new.shown ≡ self.old.shown }
        ensures begins { IsPrefix self.new.rows history.now }
        ensures lost { self.new.lost ≡ false → self.old.lost ≡ false }
        ensures rows { self.new.lost ≡ false → self.new.rows ≡ history.now }
        ensures view { self.new.lost ≡ false → self.new.view ≡ fold view_by self.old.view changes.now }
    {
        if self.lost {
            return;
        }
        let Publisher {
            alloc,
            recorder,
            writer,
            lost,
        } = self;
        *lost = !(stage_changes(*alloc, writer, changes)
            && stage_history(writer, recorder, history));
    }

    /// Where a stage was lost, takes the rows of the history into the book and stages the whole view.
    pub fn mend(&mut self, history: &[Row], tree: &Tree, sessions: &Sessions)
        requires legal { Legal L.opening history.now }
        requires begins { IsPrefix self.old.rows history.now }
        requires room { length history.now ≤ 4294967295 }
        ensures shown { self.new.shown ≡ self.old.shown }
        ensures begins { IsPrefix self.new.rows history.now }
        ensures unchanged { self.old.lost ≡ false → self.new ≡ self.old }
        ensures rows { self.old.lost ≡ true → self.new.lost ≡ false → self.new.rows ≡ history.now }
        ensures view { self.old.lost ≡ true → self.new.lost ≡ false → self.new.view ≡ record { tree = tree.now; sessions = sessions.now.sessions } }
    {
        if !self.lost {
            return;
        }
        let Publisher {
            alloc,
            recorder,
            writer,
            lost,
        } = self;
        *lost = !(stage_view(*alloc, writer, tree, sessions)
            && stage_history(writer, recorder, history));
    }

    /// Publishes what is staged, and gives the rows that readers see then. At `None` memory was refused: they see what they
    /// saw, and it is published the next time.
    pub fn publish<R: Wait>(self, rt: &R) -> (Publisher<L>, Option<Beginning<L>>)
        requires { self.lost ≡ false → IsReady L.opening self }
        ensures same { result.0 ≡ record self { shown = result.0.shown } }
        ensures all { IfSome result.1 (λ rows. (rows ≡ self.rows) × (self.lost ≡ false)) }
        ensures shown { IfSome result.1 (λ rows. result.0.shown ≡ rows) }
        ensures none { result.1 ≡ None → result.0 ≡ self }
    {
        if self.lost {
            return (self, None);
        }
        let Publisher {
            alloc,
            recorder,
            writer,
            lost,
        } = self;
        let (writer, done) = writer.publish_as::<Sees<L>, R>(rt);
        let seen = match done {
            Ok(()) => Some(recorder.rows().again()),
            Err(_) => None,
        };
        let publisher = Publisher {
            alloc,
            recorder,
            writer,
            lost,
        };
        (publisher, seen)
    }

    /// Ends it, and gives who added rows to the book. Readers that are still there see nothing from then on.
    pub fn end<R: Wait>(self, rt: &R) -> Recorder<L>
        ensures { result ≡ self.rows }
    {
        let Publisher {
            alloc: _,
            recorder,
            writer,
            lost: _,
        } = self;
        writer.take(rt);
        recorder
    }
}
