//! A reader of what is published, which knows a beginning of the history.
ghost use Rattle.std.specs.Prelude.{◌≡◌, ◌≢◌, ◌<◌, Err, None, [], length, IfOk, IfSome, IsTrue, MatchOption};
ghost use mathlib.Core.List.{IsPrefix};
ghost use Rattle.left_right.specs.Sides.{view as place_view};
ghost use Rattle.policy_view.specs.declared.answer.Unknown.TheVariants as unknown;
ghost use Rattle.snapshot.specs.Places.{HasSeen, IsOriginKnown, IsPublished};
ghost use Rattle.snapshot.specs.Rows.{Legal};
ghost use Rattle.capserver.specs.Answers.{IsAnswered};

use capgrant::Verdict;
use capspec::FsName;
use policy_view::{Question, Unknown};
use snapshot::{Beginning, PublishedReader, PublishedReading, Publisher, Recorder, Sees, Server};
use std::alloc::AllocError;
use std::marker::Model;

/// A reader has a place in the published pair, and knows what it saw there. To contracts it is the rows that it knows.
pub struct Reader<L: Server> {
    known: Beginning<L>,
    // Its place, which it has between two calls.
    place: Option<PublishedReader>,
}

// Not derived: so the proof of a function that drops one has a single call there.
impl<L: Server> Drop for Reader<L> {
    fn drop(self) {
        let Reader { known: _, place: _ } = self;
    }
}

impl<L: Server> Model for Reader<L> {
    ghost use Rattle.std.specs.Prelude.{◌≡◌, List, MatchOption};
    ghost use Rattle.left_right.specs.Sides.{view as place_view};
    ghost use Rattle.capstep.specs.declared.row.Row.{Row};
    ghost use Rattle.snapshot.specs.Places.{IsOriginKnown};
    ghost use Rattle.snapshot.specs.Rows.{Legal, rows_code};

    ghost Value = { List Row };

    ghost coded = { rows_code };

    ghost view = { λ w. w.known };

    ghost invariant = { λ w. MatchOption w.place ⊥ (λ r. ((place_view r.place).known ≡ w.known) × IsOriginKnown L.opening L.history (place_view r.place)) × Legal L.opening w.known };
}

impl<L: Server> Reader<L> {
    /// A reader that knows no row yet, and can read what is published.
    pub fn of(publisher: &mut Publisher<L>) -> Result<Reader<L>, AllocError>
        requires { publisher.old.rows ≡ [] }
        ensures same { publisher.new ≡ publisher.old }
        ensures none { IfOk result (λ reader. reader ≡ []) }
    {
        let place = publisher.reader()?;
        let known = publisher.rows().again();
        Ok(Reader {
            known,
            place: Some(place),
        })
    }

    /// Answers a question on the file system of the server by what is published, and knows it from then on. It waits for nobody. Where nothing can be read, it
    /// knows what it knew.
    pub fn explain(&mut self, fs: &FsName, question: &Question) -> Result<Verdict, Unknown>
        requires { fs.now ≡ L.opening.scene.fs }
        ensures known { IsPrefix self.old self.new }
        ensures legal { Legal L.opening self.new }
        ensures answer { result ≢ Err unknown.NoView → IsAnswered L.opening self.new question.now result }
        ensures no_view { result ≡ Err unknown.NoView → self.new ≡ self.old }
    {
        let Some(reading) = begin_reading(&mut self.place, &self.known) else {
            return Err(Unknown::NoView);
        };
        let answer = reading.get().view.explain(fs, question);
        self.known = end_reading(&mut self.place, reading);
        answer
    }

    /// Knows what is published from then on. Where nothing can be read, it knows what it knew.
    pub fn look(&mut self)
        ensures known { IsPrefix self.old self.new }
        ensures legal { Legal L.opening self.new }
    {
        if let Some(reading) = begin_reading(&mut self.place, &self.known) {
            self.known = end_reading(&mut self.place, reading);
        }
    }

    /// Knows what is published from then on, and says whether that is more than it knew, and just these rows.
    pub fn catch_up(&mut self, rows: &Beginning<L>) -> bool
        ensures known { IsPrefix self.old self.new }
        ensures legal { Legal L.opening self.new }
        ensures all { IsTrue result → (self.new ≡ rows.now) × (length self.old < length self.new) }
    {
        let before = self.known.len();
        self.look();
        before < self.known.len() && self.known.is(rows)
    }

    /// What the reader knows begins the rows that were added.
    pub fn check_against(&self, recorder: &mut Recorder<L>)
        ensures begins { IsPrefix self.now recorder.old }
        ensures same { recorder.new ≡ recorder.old }
    {
        recorder.check_against(&self.known);
    }
}

// Begins to read at a place, which stands empty meanwhile. At None nothing can be read, and the place is back.
fn begin_reading<L: Server>(
    place: &mut Option<PublishedReader>,
    known: &Beginning<L>,
) -> Option<PublishedReading>
    requires { MatchOption place.old ⊥ (λ reader. ((place_view reader.place).known ≡ known.now) × IsOriginKnown L.opening L.history (place_view reader.place)) }
    ensures saw { IfSome result (λ reading. HasSeen L.opening L.history known.now reading.part.value (place_view reading.place)) }
    ensures none { result ≡ None → MatchOption place.new ⊥ (λ reader. ((place_view reader.place).known ≡ known.now) × IsOriginKnown L.opening L.history (place_view reader.place)) }
{
    let Some(reader) = place.take() else {
        unreachable!()
    };
    match reader.enter_as::<Sees<L>>() {
        Ok(reading) => Some(reading),
        Err(reader) => {
            *place = Some(reader);
            None
        }
    }
}

// Ends to read at a place, and gives the rows that were read.
fn end_reading<L: Server>(
    place: &mut Option<PublishedReader>,
    reading: PublishedReading,
) -> Beginning<L>
    requires published { IsPublished L.opening L.history reading.part.value }
    requires known { (place_view reading.place).known ≡ reading.part.value.rows.seen.log }
    requires origin_known { IsOriginKnown L.opening L.history (place_view reading.place) }
    ensures known { result ≡ reading.part.value.rows.seen.log }
    ensures place { MatchOption place.new ⊥ (λ reader. ((place_view reader.place).known ≡ result) × IsOriginKnown L.opening L.history (place_view reader.place)) }
{
    let value = reading.get();
    let known = Beginning::of(&value.rows.seen, value.rows.count);
    *place = Some(reading.leave());
    known
}
