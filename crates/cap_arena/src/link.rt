//! Links between nodes, and a count of the writes to them.
ghost use Rattle.std.specs.Prelude.{◌≡◌, ◌+◌, ◌<◌};

use std::marker::Model;
use std::sync::ledger::{Blank, Book, Ledger, Share};

/// How many links were made or changed. It takes no bytes: contracts alone see the number, so it has no last one. `L`
/// names the ledger that carries it, and a caller that does not care takes `Brand`.
#[derive(Drop)]
pub struct LinkWrites<L: Ledger> {
    book: Book<L>,
    share: Share<L>,
}

impl<L: Ledger> Model for LinkWrites<L> {
    ghost use Rattle.std.specs.Prelude.{ℕ, ◌<◌};

    ghost Value = { ℕ };

    ghost view = { λ w. w.book.total };

    ghost invariant = { λ w. 0 < w.share.parts };
}

impl<L: Ledger> LinkWrites<L> {
    /// None so far. The blank is of the ledger that `L` names.
    pub fn new(blank: Blank) -> LinkWrites<L>
        requires name { blank.name ≡ L.name }
        requires parts { blank.parts ≡ L.parts }
        requires counts { 0 < L.parts }
        ensures { result ≡ 0 }
    {
        let (book, share) = blank.open();
        LinkWrites { book, share }
    }

    // One more.
    fn count(&mut self)
        ensures { self.new ≡ self.old + 1 }
    {
        self.book.add(&mut self.share, 1);
    }
}

/// Where a node or a list leads to: the key of a node, or none. Whoever makes or changes one hands in the count of
/// writes, which rises by one.
#[derive(Drop)]
pub struct Link {
    key: Option<usize>,
}

impl Model for Link {
    ghost use Rattle.std.specs.Prelude.{Option, ℕ};

    ghost Value = { Option ℕ };

    ghost view = { λ l. l.key };
}

impl Link {
    /// A link to the node with this key.
    pub fn to<L: Ledger>(key: Option<usize>, writes: &mut LinkWrites<L>) -> Link
        ensures link { result ≡ key }
        ensures count { writes.new ≡ writes.old + 1 }
    {
        writes.count();
        Link { key }
    }

    /// Leads to the node with this key from now on.
    pub fn put<L: Ledger>(&mut self, key: Option<usize>, writes: &mut LinkWrites<L>)
        ensures link { self.new ≡ key }
        ensures count { writes.new ≡ writes.old + 1 }
    {
        writes.count();
        self.key = key;
    }

    /// The key that it leads to.
    pub fn key(&self) -> Option<usize>
        ensures { result ≡ self.now }
    {
        self.key
    }
}
