//! The commands of `capd` that answer a question about grants, by their words and streams alone: `explain`, `grants`, `compare`,
//! `lint`, `who`, `audit` and `log`.
//! And what all commands need before and behind that: what the words of the command line ask for, with which status a command ends, and
//! what is said of a fault.
//!
//! No server is below it, so that whoever reads or tries these need not wait for one.
#![tactic(auto)]

mod advice;
mod arguments;
mod audit_args;
mod caret;
mod command_line;
mod commands;
mod explain_args;
mod fault;
mod file_systems;
mod from_clap;
mod keyring;
mod logging;
mod read_files;
mod read_tree;
mod reading;
mod status;
mod usage;
mod who_args;

pub use advice::refuse;
pub use arguments::words;
pub use audit_args::{AuditArgs, ClusterFiles, audit};
pub use command_line::Invocation;
pub use commands::{ComparedBy, compare_texts, explain, grants, lint};
pub use explain_args::{ExplainArgs, Form, Source};
pub use fault::AnswerFault;
pub use file_systems::note;
pub use keyring::keyring_file;
pub use logging::log;
pub use read_files::gather;
pub use reading::{NoCommand, read_words, show};
pub use status::{DENIED, DONE, FAILED, FOUND, USAGE, report};
pub use who_args::{WhoArgs, who};
