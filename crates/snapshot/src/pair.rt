//! What a server will publish by, made before the server has a name.
ghost use Rattle.std.specs.Prelude.{◌≡◌, [], ◌∷◌, None, length, drop, IfOk};
ghost use Rattle.std.specs.Coded.{Coded-set, coded_list};
ghost use Rattle.std.specs.FinMap as map;
ghost use Rattle.inotree.specs.Tree.{nodes_code};
ghost use Rattle.sessiontab.specs.Connected.{session_map_code};
ghost use Rattle.left_right.specs.Sides.{view as place_view};
ghost use Rattle.capstep.specs.History.{IsOpening};
ghost use Rattle.capstep.specs.State.{State};
ghost use Rattle.snapshot.specs.Places.{IsOf};
ghost use Rattle.snapshot.specs.Publishing.{first_of};
ghost use Rattle.snapshot.specs.Rows.{rows_code};

use crate::ledger::{MAX_PASSES, Server};
use crate::place::{Begins, PublishedWriter};
use crate::publisher::Publisher;
use crate::recorder::NewRows;
use crate::value::Published;
use capspec::FsName;
use inotree::Tree;
use sessiontab::Sessions;
use std::alloc::{AllocError, Global};
use std::sync::Wait;

/// An empty book, and the pair of copies for readers: it shows that there is no row, and the view of the opening. It has room for as many
/// readers as a server has passes at most. It is not `Drop`: name it, or end it.
pub struct Pair {
    alloc: Global,
    rows: NewRows,
    writer: PublishedWriter,
    pub ghost untold: { place_view writer.desk.place ≡ record { known = []; origin = None } },
    pub ghost unstaged: { drop writer.behind writer.log.items ≡ [] },
    pub ghost empty: { writer.desk.shown.value.rows.seen.log ≡ [] } by { Coded-set rows_code _ _ },
    pub ghost shows: { writer.desk.shown.value.rows.seen.book ≡ rows.seen.book },
    pub ghost book: { writer.desk.shown.value.origin.rows.book ≡ rows.seen.book },
    pub ghost tree: { writer.desk.shown.value.origin.tree.log ≡ writer.desk.shown.value.view.tree ∷ [] } by { Coded-set (coded_list nodes_code) _ _ },
    pub ghost sessions: { writer.desk.shown.value.view.sessions ≡ map.empty } by { Coded-set session_map_code _ _ },
}

impl Pair {
    ghost use Rattle.snapshot.specs.Pairs.{origin_of};

    /// The pair of a server that opens with these, and in which nobody is connected.
    pub fn new(
        alloc: Global,
        fs: &FsName,
        tree: &Tree,
        sessions: &Sessions,
    ) -> Result<Pair, AllocError>
        requires opens { (opening : State) × IsOpening fs.now tree.now opening }
        requires sessions { sessions.now.sessions ≡ map.empty }
        ensures { IfOk result (λ pair. (opening : State) → IsOpening fs.now tree.now opening → IsOf opening (origin_of pair).rows.book (origin_of pair)) }
    {
        let rows = NewRows::new()?;
        let first = Published::first(rows.seen(), fs, tree, sessions)?;
        let second = first.copy()?;
        let writer = PublishedWriter::new(alloc, first, second, MAX_PASSES as usize)?;
        Ok(Pair {
            alloc,
            rows,
            writer,
        })
    }

    /// Who publishes by it, for the server of this name. Where that is refused, the pair has ended.
    pub fn named<L: Server, R: Wait>(self, rt: &R) -> Result<Publisher<L>, AllocError>
        requires { IsOf L.opening L.history (origin_of self) }
        ensures { IfOk result (λ publisher. publisher ≡ first_of L.opening) }
    {
        let Pair {
            alloc,
            rows,
            writer,
        } = self;
        let (writer, origin_known) = writer.publish_as::<Begins, R>(rt);
        match origin_known {
            Ok(()) => Ok(Publisher::of(alloc, rows.named::<L>(), writer)),
            Err(refused) => {
                writer.take(rt);
                Err(refused)
            }
        }
    }

    /// Ends it.
    pub fn end<R: Wait>(self, rt: &R) {
        let Pair {
            alloc: _,
            rows: _,
            writer,
        } = self;
        writer.take(rt);
    }
}
