//! The texts of what happens: events as lines of a script, written and read; replies, messages and rows of the history. A line says
//! one event, or has one fault.
//!
//! Public source: "Capabilities in CephFS" in the Ceph documentation.
#![tactic(auto)]

mod change;
mod entry_event;
mod event;
mod event_text;
mod hex;
mod history_text;
mod inode_event;
mod line;
mod message_text;
mod refused;
mod reply_text;
mod session_event;
mod value_text;
mod values;
mod words;

pub use event_text::event_line;
pub use history_text::{append_audit_line, audit_line};
pub use line::read_line;
pub use reply_text::reply_lines;
pub use texts::{explain_line, read_access};
pub use words::split_at_space;
