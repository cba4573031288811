//! A step, as definitions: what happens to the server and what it answers, how an event is judged, what it does by itself, which moves
//! follow, what is issued and numbered, what clients are told, and when a history is legal; with the types that these rules speak of,
//! the judging of a request, and what a core notes while it makes a step. What stands beside the core knows nothing of it but these.
//!
//! The acts of which a step is made stand above (`step_acts`), and the core (`capcore`) puts them together.
//!
//! Public source: "Capabilities in CephFS" in the Ceph documentation.
#![tactic(auto)]

mod change_word;
mod changes;
mod command;
mod copies;
pub mod due_endings;
mod ended_tickets;
mod event;
pub mod judge;
mod operations;
mod outcome;
mod recorded;
mod rejection;
mod reply;
mod row;
pub mod stop;

pub use change_word::ChangeWord;
pub use changes::{ChangeList, sets_attr};
pub use command::{ClientCommand, Command};
pub use copies::{copy_of_messages, copy_of_outcome, copy_of_reply, copy_of_rules};
pub use ended_tickets::EndedTickets;
pub use event::{Event, OpenMode};
pub use operations::{OperationRef, copy_of_operation, operation_ref};
pub use outcome::{Ended, Message, MessageList, Outcome, PartValues};
pub use recorded::Recorded;
pub use rejection::Rejection;
pub use reply::Reply;
pub use row::{EndedList, Row};
