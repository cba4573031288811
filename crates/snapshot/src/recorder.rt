//! Who adds rows to the book, alone.
ghost use Rattle.std.specs.Prelude.{◌≡◌, ◌<◌, ◌≤◌, ◌+◌, ◌^◌, ◌++◌, ◌∷◌, [], length, IfSome, IsTrue, MatchBool};
ghost use mathlib.Core.List.{IsPrefix};
ghost use Rattle.logbook.specs.Pages.{may_write, nib};
ghost use Rattle.snapshot.specs.Rows.{Legal, head_of, next_of};

use crate::beginning::{Add, Beginning, Counted, Head, Law, Look, Make, Nothing, Rows};
use crate::ledger::Server;
use capstep::Row;
use logbook::{Offer, Pen, Seen, Start, Word};
use std::alloc::AllocError;
use std::marker::Model;

/// A book with no row, which has no name yet.
pub struct NewRows {
    head: Head,
    // The right to the word of the first row.
    pen: Pen,
    seen: Rows,
    pub ghost empty: { seen.log ≡ [] },
    pub ghost head_is: { head ≡ head_of seen.book },
    pub ghost pen_of: { pen.book ≡ seen.book },
    pub ghost pen_is: { pen.nib ≡ next_of [] },
}

// Not derived: so the proof of a function that drops one has a single call there.
impl Drop for NewRows {
    fn drop(self) {
        let NewRows {
            head: _,
            pen: _,
            seen: _,
        } = self;
    }
}

impl NewRows {
    /// A new book. Nobody else has it yet, so the word of its first row is there to be made; but its rule can't say so, and else
    /// there would be no book.
    pub fn new() -> Result<NewRows, AllocError> {
        let (seen, mut first, _second) = Seen::open(Start::alone(), 0, 0);
        let head: Head = Word::tracked(0, &mut first);
        let rows = Counted { seen, count: 0 };
        let pen = make(&head, &rows, 0).ok_or(AllocError)?;
        let seen = rows.seen;
        Ok(NewRows { head, pen, seen })
    }

    // What is known of it.
    pub(crate) fn seen(&self) -> &Rows
        ensures { result.now ≡ self.now.seen }
    {
        &self.seen
    }

    /// Who adds rows to it, under the name.
    pub fn named<L: Server>(self) -> Recorder<L>
        requires { self.seen.book ≡ L.history }
        ensures { result ≡ [] }
    {
        let NewRows { head, pen, seen } = self;
        let rows = Beginning::of(&seen, 0);
        Recorder { head, pen, rows }
    }
}

/// Who adds rows to the book of a server, alone. Contracts see it as these rows.
pub struct Recorder<L: Server> {
    head: Head,
    // The right to the word of the next row.
    pen: Pen,
    rows: Beginning<L>,
}

// Not derived: so the proof of a function that drops one has a single call there.
impl<L: Server> Drop for Recorder<L> {
    fn drop(self) {
        let Recorder {
            head: _,
            pen: _,
            rows: _,
        } = self;
    }
}

impl<L: Server> Model for Recorder<L> {
    ghost use Rattle.std.specs.Prelude.{◌≡◌, List};
    ghost use Rattle.capstep.specs.declared.row.Row.{Row};
    ghost use Rattle.snapshot.specs.Rows.{head_of, next_of, rows_code};

    ghost Value = { List Row };

    ghost coded = { rows_code };

    ghost view = { λ r. r.rows };

    ghost invariant = { λ r. (r.head ≡ head_of L.history) × (r.pen.book ≡ L.history) × (r.pen.nib ≡ next_of r.rows) };
}

impl<L: Server> Recorder<L> {
    /// The rows that there are.
    pub fn rows(&self) -> &Beginning<L>
        ensures { result.now ≡ self.now }
    {
        &self.rows
    }

    /// Adds a row to the history, and says whether it did. It did not where others have made words for rows to come.
    pub fn add(&mut self, row: &Row) -> bool
        requires room { length self.old < 2 ^ 62 }
        requires legal { Legal L.opening (self.old ++ row.now ∷ []) }
        ensures { MatchBool result (self.new ≡ self.old ++ row.now ∷ []) (self.new ≡ self.old) }
    {
        let rows = self.rows.counted();
        let Some(next) = make(&self.head, &rows, 1) else {
            return false;
        };
        let Counted { mut seen, count } = rows;
        let mut offer: Offer<Row, u64, Law, Nothing> = seen.plain::<Nothing, Row, Add>(row);
        let old = 2 * count + 2;
        let found = self
            .head
            .compare_exchange::<Add, Nothing>(old, old + 1, &mut seen, &mut offer, &mut self.pen);
        if found != old {
            return false;
        }
        self.pen = next;
        self.rows = Beginning::of(&seen, count + 1);
        true
    }

    /// What somebody knows begins these rows: who has the pen for the next one has seen all.
    pub fn check_against(&mut self, known: &Beginning<L>)
        ensures begins { IsPrefix known.now self.old }
        ensures same { self.new ≡ self.old }
    {
        let Counted { mut seen, count: _ } = self.rows.counted();
        let other = known.counted();
        seen.learn(&other.seen);
        let mut offer: Offer<Row, u64, Law, Nothing> = seen.plain::<Nothing, u64, Look>(&0);
        let _found = self
            .head
            .compare_exchange::<Look, Nothing>(0, 0, &mut seen, &mut offer, &mut self.pen);
    }
}

/// Takes the rows of the history into the book. It says whether all are there.
pub fn gather<L: Server>(recorder: &mut Recorder<L>, history: &[Row]) -> bool
    requires legal { Legal L.opening history.now }
    requires begins { IsPrefix recorder.old history.now }
    requires room { length history.now ≤ 4294967295 }
    ensures begins { IsPrefix recorder.new history.now }
    ensures more { IsPrefix recorder.old recorder.new }
    ensures all { IsTrue result → recorder.new ≡ history.now }
{
    let from = recorder.rows().len() as usize;
    for at in from..history.len() {
        if !recorder.add(&history[at]) {
            return false;
        }
    }
    true
}

// Makes the word of a row to come, behind so many that have none, and gives the right to it. There is none where others have made one.
fn make(head: &Head, rows: &Counted, away: u64) -> Option<Pen>
    requires head { head.now ≡ head_of rows.now.seen.book }
    requires room { rows.now.count < 2 ^ 62 }
    requires away { away ≤ 1 }
    ensures book { IfSome result (λ pen. pen.book ≡ rows.now.seen.book) }
    ensures nib { IfSome result (λ pen. pen.nib ≡ nib may_write (length rows.now.seen.log + away + 2) 0) }
{
    let mut seen = rows.seen.again();
    let mut offer: Offer<Row, u64, Law, Nothing> = seen.plain::<Nothing, u64, Look>(&0);
    let mut pen = seen.no_pen();
    let old = 2 * rows.count + away;
    let found = head.compare_exchange::<Make, Nothing>(
        old,
        old + 1,
        &mut seen,
        &mut offer,
        &mut pen,
    );
    if found != old {
        return None;
    }
    let _word: Head = Word::tracked(0, &mut pen);
    Some(pen)
}
