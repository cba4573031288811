//! A number that is written once, and is the same to all who have seen it.
ghost use Rattle.std.specs.Prelude.{◌≡◌, [], ◌∷◌, IfSome};
ghost use Rattle.snapshot.specs.Rows.{head_of};

use crate::ledger::Server;
use logbook::{Gain, Offer, Plain, Play, Rule, Seen, Start, Word};
use std::marker::{Model, PhantomData};

/// The rule of the book: it takes one number.
pub struct Once;

impl Rule<u32, u64> for Once {
    ghost use Rattle.std.specs.Prelude.{[]};
    ghost use base.Fml.{ftrue};
    ghost use Rattle.snapshot.specs.Tallies.{IsTally};

    ghost holds = { λ cells log. IsTally cells log };

    ghost first = { [] };

    ghost hinted = { λ n log. Unit {0} };

    ghost shows = { λ log. [] };

    ghost keeps = { λ names log. ftrue };

    ghost moves = { λ ask before after answer. Unit {0} };
}

/// Callers trade nothing.
pub struct NoGain;

impl Gain<u32, u64> for NoGain {
    ghost use base.Fml.{ftrue};

    ghost after = { λ names about answer. ftrue };
}

/// The step that writes the number.
pub struct Writes;

impl Play<u32, u64> for Writes {
    ghost use Rattle.snapshot.specs.Tallies.{IsWritten};

    ghost then = { IsWritten };
}

impl Plain<u32, u32, u64> for Writes {
    ghost use Rattle.std.specs.Prelude.{None};

    ghost ask = { λ number. number };

    ghost state = { λ number. None };
}

pub type TallyWord = Word<u32, u64, Once>;

pub type TallySeen = Seen<u32, u64, Once>;

/// A book in which no number stands yet.
pub struct NewTally {
    head: TallyWord,
    seen: TallySeen,
    pub ghost empty: { seen.log ≡ [] },
    pub ghost head_is: { head ≡ head_of seen.book },
}

// Not derived: so the proof of a function that drops one has a single call there.
impl Drop for NewTally {
    fn drop(self) {
        let NewTally { head: _, seen: _ } = self;
    }
}

impl NewTally {
    /// A new book.
    pub fn new() -> NewTally {
        let (seen, mut first, _second) = Seen::open(Start::alone(), 0, 0);
        let head = Word::tracked(0, &mut first);
        NewTally { head, seen }
    }

    /// Writes how many passes the server has. Nobody else has the book, so no other number stands there; but its rule can't say so.
    pub fn write<L: Server>(self, number: u32) -> Option<Tally<L>>
        requires { self.seen.book ≡ L.tally }
        ensures { IfSome result (λ tally. tally ≡ number) }
    {
        let NewTally { head, mut seen } = self;
        let mut offer: Offer<u32, u64, Once, NoGain> = seen.plain::<NoGain, u32, Writes>(&number);
        let mut pen = seen.no_pen();
        let found = head.compare_exchange::<Writes, NoGain>(0, 1, &mut seen, &mut offer, &mut pen);
        if found != 0 {
            return None;
        }
        Some(Tally {
            number,
            seen,
            of: PhantomData,
        })
    }
}

/// How many passes a server has, as it stands in its book. Contracts see it as the number.
pub struct Tally<L: Server> {
    number: u32,
    seen: TallySeen,
    of: PhantomData<L>,
}

// Not derived: so the proof of a function that drops one has a single call there.
impl<L: Server> Drop for Tally<L> {
    fn drop(self) {
        let Tally {
            number: _,
            seen: _,
            of: _,
        } = self;
    }
}

impl<L: Server> Model for Tally<L> {
    ghost use Rattle.std.specs.Prelude.{◌≡◌, ℕ, [], ◌∷◌};

    ghost Value = { ℕ };

    ghost view = { λ t. t.number };

    ghost invariant = { λ t. (t.seen.book ≡ L.tally) × (t.seen.log ≡ t.number ∷ []) };
}

impl<L: Server> Tally<L> {
    /// A copy of the tally.
    pub fn again(&self) -> Tally<L>
        ensures { result ≡ self.now }
    {
        Tally {
            number: self.number,
            seen: self.seen.again(),
            of: PhantomData,
        }
    }

    /// All tallies of a server are the same.
    pub fn agree(&self, other: &Tally<L>)
        ensures { self.now ≡ other.now }
    {
        let mut both = self.seen.again();
        both.learn(&other.seen);
    }
}
