//! The core: one event at a time, it decides what a client may do, says so, and keeps the history of what it said.
//!
//! Public source: "Capabilities in CephFS" in the Ceph documentation.
#![tactic(auto)]

mod client;
mod entry_request;
mod finish;
mod giving;
mod held_below;
mod judging;
mod laws;
mod moving;
mod output;
mod own_laws;
mod parts;
mod poll;
mod recalling;
mod serving_laws;
mod settle;
mod shown_laws;
mod sizes;
mod start;
mod step;
mod step_laws;
mod step_reply;
mod world;

pub use capbits::Refusal;
pub use capstep::stop::Stop;
pub use capstep::{
    Ended, EndedList, Event, Message, MessageList, OpenMode, Outcome, PartValues, Reply, Row,
};
pub use giving::{a_recall_changes_only_the_marks, telling_changes_only_what_was_told};
pub use laws::{
    a_rejection_changes_nothing, a_row_fixes_its_step, a_settling_serves_at_most_who_waits,
    a_sound_state_has_nothing_left_to_do, a_step_that_finds_memory_has_one_end,
    an_opening_is_sound, rows_fix_the_state, sessions_inodes_and_snapshots_spare_entries,
    the_held_are_apart, the_same_events_have_the_same_history, the_served_are_denied_exactly,
    what_spares_entries_has_nothing_to_do,
};
pub use lockmachine::Change;
pub use own_laws::what_is_served_at_once_is_not_rejected;
pub use policy_view::{View, ViewChange};
pub use serving_laws::{a_serving_changes_what_it_moves, a_serving_keeps_what_exists};
pub use step::Core;
pub use step_laws::an_event_is_a_step_once_it_has_ended;
