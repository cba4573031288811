//! The rule of the readers' places: what is published is a legal history with its view, and what a place knows begins it.
ghost use Rattle.std.specs.Prelude.{◌≡◌, [], ◌∷◌};

use crate::beginning::Rows;
use crate::ledger::Server;
use crate::note::{Noted, note_of};
use crate::value::{Published, Stage};
use atomic_table::{Join, Split};
use capspec::FsName;
use capstep::Row;
use crossbeam_utils::rule::{Outcome, Protocol};
use inotree::Tree;
use left_right::reader::{Reader, Reading};
use left_right::writer::Writer;
use std::collections::LinkedList;
use std::marker::PhantomData;

/// Of which server something is, for contracts alone: the file system and the tree that it opened with, and the book of its rows.
pub struct Origin {
    /// The file system.
    pub fs: Noted<FsName>,
    /// The tree that it opened with.
    pub tree: Noted<Tree>,
    /// The book, when no row was in it.
    pub rows: Rows,
}

// Not derived: so the proof of a function that drops one has a single call there.
impl Drop for Origin {
    fn drop(self) {
        let Origin {
            fs: _,
            tree: _,
            rows: _,
        } = self;
    }
}

impl Origin {
    // The origin of a server that opens with these.
    pub(crate) fn of(fs: &FsName, tree: &Tree, rows: &Rows) -> Origin
        ensures fs { result.fs.log ≡ fs.now ∷ [] }
        ensures tree { result.tree.log ≡ tree.now ∷ [] }
        ensures rows { result.rows ≡ rows.now }
    {
        Origin {
            fs: note_of(fs),
            tree: note_of(tree),
            rows: rows.again(),
        }
    }

    // A copy of the origin.
    pub(crate) fn again(&self) -> Origin
        ensures { result ≡ self.now }
    {
        Origin {
            fs: self.fs.again(),
            tree: self.tree.again(),
            rows: self.rows.again(),
        }
    }
}

/// What a place at the pair knows. No value of it is made.
pub struct Place {
    /// The rows that it saw.
    pub known: LinkedList<Row>,
    /// Of which server they are, once it was told.
    pub origin: Option<Origin>,
}

/// The rule of the places.
pub struct PlacesRule;

impl Protocol<Published, Place> for PlacesRule {
    ghost use Rattle.std.specs.Prelude.{[], None};
    ghost use Rattle.snapshot.specs.Places.{Keeps};

    ghost holds = { Keeps };

    ghost first = { record { known = []; origin = None } };
}

/// The place of who publishes knows of which server it is.
pub struct Begins;

impl Outcome<Published, Place> for Begins {
    ghost use Rattle.std.specs.Prelude.{◌≡◌, Some};

    ghost then = { λ before value next after. after ≡ record before { origin = Some next.origin } };
}

/// What a new reader is told: of which server it is.
pub struct Tells;

impl Split<Place> for Tells {
    ghost use Rattle.std.specs.Prelude.{[]};

    ghost left = { λ place. place };

    ghost right = { λ place. record place { known = [] } };
}

/// What it takes in of that.
pub struct Hears;

impl Join<Place> for Hears {
    ghost use Rattle.std.specs.Prelude.{[], None};

    ghost both = { λ place other. record place { origin = other.origin } };

    ghost spent = { record { known = []; origin = None } };
}

/// All that is published is known afterwards, and it begins with what was known.
pub struct Sees<L> {
    of: PhantomData<L>,
}

impl<L: Server> Outcome<Published, Place> for Sees<L> {
    ghost use Rattle.snapshot.specs.Places.{Saw};

    ghost then = { λ before value after place. Saw L.opening L.history before after place };
}

/// A reader's place.
pub type PublishedReader = Reader<Published, Place, PlacesRule>;

/// A reader's place, while its reader reads there.
pub type PublishedReading = Reading<Published, Place, PlacesRule>;

/// Who publishes.
pub type PublishedWriter = Writer<Published, Stage, Place, PlacesRule>;
