//! The clients that are to be told of a size that was changed.
ghost use Rattle.std.specs.Prelude.{◌≡◌, All, IsTrue};
ghost use Rattle.captable.specs.Calls.{is_of_inode};
ghost use Rattle.captable.specs.Many.{changed_by, changed_where};
ghost use Rattle.sessiontab.specs.Calls.{has_session};
ghost use Rattle.capstep.specs.Finish.{is_sized, owed};

use crate::finish::clients_on;
use capbits::{Cap, ClientId, Ino};
use captable::{CapTable, Holder};
use sessiontab::Sessions;

/// Each client that caches the data of one of these inodes, whose sizes were changed, is to be told the size.
pub fn owe_sizes(sessions: &Sessions, table: &mut CapTable, sized: &[Ino])
    requires { All (λ row. IsTrue (has_session sessions.now row.holder.client.0)) table.old.entries.rows }
    ensures { table.new ≡ record table.old { entries = changed_where (is_sized sized.now) owed table.old.entries } }
{
    for ino in sized {
        owe_on(sessions, table, *ino);
    }
}

// Each client that caches the inode's data is to be told its size.
fn owe_on(sessions: &Sessions, table: &mut CapTable, ino: Ino)
    requires { All (λ row. IsTrue (has_session sessions.now row.holder.client.0)) table.old.entries.rows }
    ensures { table.new ≡ record table.old { entries = changed_where (is_of_inode ino) owed table.old.entries } }
{
    let clients = clients_on(sessions, table, ino);
    let numbers = clients.as_slice();
    for number in numbers {
        let client = ClientId(*number);
        owe(table, Holder { client, ino });
    }
}

// The client of this entry is to be told the inode's size.
fn owe(table: &mut CapTable, holder: Holder)
    ensures { table.new ≡ record table.old { entries = changed_by owed table.old.entries holder } }
{
    if let Some(entry) = table.find(holder.client, holder.ino) {
        if entry.held.has(Cap::Fc) {
            table.owe_size(holder.client, holder.ino);
        }
    }
}
