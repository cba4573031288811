//! The commands of `capd`: what each writes, and with which status it ends. Those that answer a question about grants stand in
//! `cli_queries`; here are those that run or serve a script, and what chooses among all by the words of the command line. A script that is
//! served is called by many threads: each of its clients calls from a thread of its own, and the history that a server makes of it is
//! written.
//!
//! They stand in a library, as nothing can stand on a program, and the checks of a program load all that it links.
#![tactic(auto)]

mod calling;
mod commands;
mod history_text;
mod plan;
mod serve_fault;
mod serving;
mod stopping;

pub use commands::{carry_out, dispatch};
pub use plan::{Job, MAX_CLIENTS, Plan, read_plan};
pub use serve_fault::ServeFault;
pub use serving::{serve, serve_plan};
pub use stopping::Fault;
