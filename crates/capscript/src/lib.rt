//! Scripts: lines of text that say what happens to a server, and the transcript of what it answers.
#![tactic(auto)]

mod running;

pub use running::{file_system, run};
