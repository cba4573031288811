//! Who holds and wants which caps on which inode: the server's table of one entry for each client on an inode.
//!
//! Public source: "Capabilities in CephFS" in the Ceph documentation.
#![tactic(auto)]

mod entry;
mod holders;
mod laws;
mod nodes;
mod places;
mod polls;
mod table;
mod walk;

pub use entry::{ClientView, Entry, EntryRow, Holder, KeptEntry, Slot};
pub use holders::Holders;
pub use laws::{
    a_table_stays_a_table, entries_are_of_their_holders, inodes_change_by_themselves,
    numbers_say_what_was_shown, one_by_one_is_at_once,
};
pub use table::{CapTable, MAX_ENTRIES};
pub use walk::{KeptWalk, Walk};
