//! What the type parameter of a server stands for.

use std::marker::Brand;
use std::sync::ledger::Ledger;

/// How many passes a server has at most: each has a place from which it reads what is published.
pub const MAX_PASSES: u32 = 32;

/// One server: its ledger, the state that its core opened with, how many rows its history takes at most, the book of its rows, and
/// the one in which the number of its passes stands. Contracts alone see them.
pub trait Server: Ledger {
    ghost use Rattle.std.specs.Prelude.{ℕ};
    ghost use Rattle.capstep.specs.State.{State};
    ghost use Rattle.logbook.specs.Pages.{Book};

    ghost opening: { State };

    ghost max_rows: { ℕ };

    ghost history: { Book };

    ghost tally: { Book };
}

// A brand is none of these yet. A call that makes a server picks its own.
impl Server for Brand {
    ghost use Rattle.std.specs.Prelude.{[]};
    ghost use Rattle.std.specs.FinMap as map;
    ghost use Rattle.std.specs.FinSet as set;
    ghost use Rattle.captable.specs.Table as table;
    ghost use Rattle.lockmachine.specs.Locks.{no_locks};

    ghost opening = { record {
      scene = record {
        fs = [];
        tree = record { nodes = map.empty; last = 0 };
        sessions = record { sessions = map.empty; blocked = set.empty };
        table = table.empty;
        locks = no_locks;
      };
      messages = [];
    } };

    ghost max_rows = { 0 };

    ghost history = { record { number = 0; log_name = 0; cells_name = 0 } };

    ghost tally = { record { number = 0; log_name = 0; cells_name = 0 } };
}
