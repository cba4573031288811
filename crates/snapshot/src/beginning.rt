//! The rows that were published, as each holder knows them.
ghost use Rattle.std.specs.Prelude.{◌≡◌, length, IsTrue};
ghost use mathlib.Core.List.{IsPrefix};
ghost use Rattle.snapshot.specs.Rows.{Legal};

use crate::ledger::Server;
use capstep::Row;
use logbook::{Gain, Plain, Play, Rule, Seen, Word};
use std::marker::{Model, PhantomData};

/// The rule of the book: each row has a word, and only who has the pen for the next one can add a row.
pub struct Law;

impl Rule<Row, u64> for Law {
    ghost use Rattle.std.specs.Prelude.{[]};
    ghost use base.Fml.{ftrue};
    ghost use Rattle.snapshot.specs.Rows.{IsStored};

    ghost holds = { λ cells log. IsStored cells log };

    ghost first = { [] };

    ghost hinted = { λ n log. Unit {0} };

    ghost shows = { λ log. [] };

    ghost keeps = { λ names log. ftrue };

    ghost moves = { λ ask before after answer. Unit {0} };
}

/// Callers trade nothing.
pub struct Nothing;

impl Gain<Row, u64> for Nothing {
    ghost use base.Fml.{ftrue};

    ghost after = { λ names about answer. ftrue };
}

/// A step that makes the word of a row to come.
pub struct Make;

impl Play<Row, u64> for Make {
    ghost use Rattle.snapshot.specs.Rows.{Makes};

    ghost then = { Makes };
}

/// A step that adds a row.
pub struct Add;

impl Play<Row, u64> for Add {
    ghost use Rattle.snapshot.specs.Rows.{Adds};

    ghost then = { Adds };
}

/// What a step asks for: the row.
impl Plain<Row, Row, u64> for Add {
    ghost use Rattle.std.specs.Prelude.{None};

    ghost ask = { λ row. row };

    ghost state = { λ row. None };
}

/// A step that changes nothing.
pub struct Look;

impl Play<Row, u64> for Look {
    ghost use Rattle.snapshot.specs.Rows.{Looks};

    ghost then = { Looks };
}

/// What a step asks for that adds no row.
impl Plain<u64, Row, u64> for Look {
    ghost use Rattle.std.specs.Prelude.{None};
    ghost use Rattle.snapshot.specs.Rows.{no_row};

    ghost ask = { λ n. no_row };

    ghost state = { λ n. None };
}

pub type Head = Word<Row, u64, Law>;

pub type Rows = Seen<Row, u64, Law>;

/// Rows of the history, and how many they are.
#[derive(Drop)]
pub struct Counted {
    /// The rows.
    pub seen: Rows,
    /// How many there are.
    pub count: u64,
    /// They are so many.
    pub ghost counted: { count ≡ length seen.log },
}

impl Counted {
    /// A copy of these rows with their count.
    pub fn again(&self) -> Counted
        ensures { result ≡ self.now }
    {
        Counted {
            seen: self.seen.again(),
            count: self.count,
        }
    }
}

/// A beginning of the published rows. Contracts see it as these rows.
pub struct Beginning<L: Server> {
    count: u64,
    seen: Rows,
    of: PhantomData<L>,
}

// Not derived: so the proof of a function that drops one has a single call there.
impl<L: Server> Drop for Beginning<L> {
    fn drop(self) {
        let Beginning {
            count: _,
            seen: _,
            of: _,
        } = self;
    }
}

impl<L: Server> Model for Beginning<L> {
    ghost use Rattle.std.specs.Prelude.{◌≡◌, List, length};
    ghost use Rattle.capstep.specs.declared.row.Row.{Row};
    ghost use Rattle.snapshot.specs.Rows.{Legal, rows_code};

    ghost Value = { List Row };

    ghost coded = { rows_code };

    ghost view = { λ f. f.seen.log };

    ghost invariant = { λ f. (f.count ≡ length f.seen.log) × (f.seen.book ≡ L.history) × Legal L.opening f.seen.log };
}

impl<L: Server> Beginning<L> {
    /// How many rows it has.
    pub fn len(&self) -> u64
        ensures length { result ≡ length self.now }
        ensures legal { Legal L.opening self.now }
    {
        self.count
    }

    /// A copy.
    pub fn again(&self) -> Beginning<L>
        ensures { result ≡ self.now }
    {
        Beginning {
            count: self.count,
            seen: self.seen.again(),
            of: PhantomData,
        }
    }

    /// The rows with their count, for all to see.
    pub fn counted(&self) -> Counted
        ensures log { result.seen.log ≡ self.now }
        ensures book { result.seen.book ≡ L.history }
        ensures legal { Legal L.opening self.now }
    {
        Counted {
            seen: self.seen.again(),
            count: self.count,
        }
    }

    /// The beginning of a token.
    pub fn of(seen: &Rows, count: u64) -> Beginning<L>
        requires book { seen.now.book ≡ L.history }
        requires count { count ≡ length seen.now.log }
        requires legal { Legal L.opening seen.now.log }
        ensures { result ≡ seen.now.log }
    {
        Beginning {
            count,
            seen: seen.again(),
            of: PhantomData,
        }
    }

    /// Whether the other beginning has as many rows. Then it begins with these.
    pub fn begins(&self, other: &Beginning<L>) -> bool
        ensures begins { IsTrue result → IsPrefix self.now other.now }
        ensures legal { Legal L.opening other.now }
    {
        let mut both = self.seen.again();
        both.learn(&other.seen);
        self.count <= other.count
    }

    /// Whether both beginnings have as many rows. Then they are the same.
    pub fn is(&self, other: &Beginning<L>) -> bool
        ensures { IsTrue result → self.now ≡ other.now }
    {
        let one = self.begins(other);
        let other_way = other.begins(self);
        one && other_way
    }
}
