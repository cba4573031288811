//! A core before its server starts.
ghost use Rattle.std.specs.Prelude.{◌≡◌, ◌≤◌, [], IfOk};
ghost use Rattle.capstep.specs.History.{HasNoStray, IsOpening};
ghost use Rattle.snapshot.specs.Pairs.{origin_of};
ghost use Rattle.snapshot.specs.Places.{IsOf};

use capcore::Core;
use capspec::FsName;
use inotree::Tree;
use snapshot::{NewTally, Pair};
use std::alloc::{AllocError, Global};
use std::marker::Model;
use std::sync::Wait;

/// A core that has answered nothing yet, and the pair of copies by which a server that starts with it will publish. It is not `Drop`:
/// `CapServer::start` ends it. To contracts it is the state that the core opens with, how many rows its history takes at most, and which
/// books are for them and for the number of passes.
pub struct Opening {
    core: Core,
    fs: FsName,
    pair: Pair,
    tally: NewTally,
}

impl Model for Opening {
    ghost use Rattle.std.specs.Prelude.{◌≡◌, ◌≤◌, []};
    ghost use Rattle.snapshot.specs.Pairs.{origin_of};
    ghost use Rattle.snapshot.specs.Places.{IsOf};
    ghost use Rattle.capserver.specs.Opened.{Opened, opened, opened_code};

    ghost Value = { Opened };

    ghost coded = { opened_code };

    ghost view = { λ o. opened o.core.state o.core.max_rows (origin_of o.pair).rows.book o.tally.seen.book };

    ghost invariant = { λ o. (o.core.rows ≡ []) × (o.core.max_rows ≤ 4294967295) × (o.fs ≡ o.core.state.scene.fs) × IsOf o.core.state (origin_of o.pair).rows.book (origin_of o.pair) };
}

// What an opening is made of.
pub(crate) struct Parts {
    pub core: Core,
    // The name of the core's file system.
    pub fs: FsName,
    pub pair: Pair,
    pub tally: NewTally,
}

impl Opening {
    /// A core on this file system and tree, in which nobody is connected. Its history takes at most `max_rows` rows. A server that starts
    /// with it has room for as many passes as there may be.
    pub fn new(alloc: Global, fs: FsName, tree: Tree, max_rows: u32) -> Result<Opening, AllocError>
        requires strays { HasNoStray tree }
        ensures opening { IfOk result (λ opening. IsOpening fs tree opening.state) }
        ensures max_rows { IfOk result (λ opening. opening.max_rows ≡ max_rows) }
    {
        let name = fs.clone()?;
        let core = Core::new(alloc, fs, tree, max_rows)?;
        let pair = Pair::new(alloc, &name, core.tree(), core.sessions())?;
        Ok(Opening {
            core,
            fs: name,
            pair,
            tally: NewTally::new(),
        })
    }

    pub(crate) fn into_parts(self) -> Parts
        ensures state { result.core.state ≡ self.state }
        ensures no_rows { result.core.rows ≡ [] }
        ensures max_rows { result.core.max_rows ≡ self.max_rows }
        ensures room { result.core.max_rows ≤ 4294967295 }
        ensures fs { result.fs ≡ self.state.scene.fs }
        ensures pair { IsOf self.state self.history (origin_of result.pair) }
        ensures tally { result.tally.seen.book ≡ self.tally }
    {
        let Opening {
            core,
            fs,
            pair,
            tally,
        } = self;
        Parts {
            core,
            fs,
            pair,
            tally,
        }
    }

    // Ends it, where no server starts.
    pub(crate) fn end<R: Wait>(self, rt: &R) {
        let Opening {
            core: _,
            fs: _,
            pair,
            tally: _,
        } = self;
        pair.end(rt);
    }
}
