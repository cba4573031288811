//! One core for many threads: each calls through a pass of its own, which has a number, counts its calls, and knows what it saw of
//! the history. The events are made one after the other under a lock. What is published of them answers questions on policy beside
//! the lock: each pass reads it from a place of its own.
#![tactic(auto)]

mod answer;
mod event;
mod gate;
mod locked;
mod opening;
mod pass;
mod passes;
mod reader;
mod server;

pub use answer::Answer;
pub use capcore::Core;
pub use capstep::stop::Stop;
pub use capstep::{Event, Reply, Row};
pub use gate::{Gate, NoGate};
pub use locked::Locked;
pub use opening::Opening;
pub use pass::Pass;
pub use passes::StartFault;
pub use policy_view::{Question, Unknown};
pub use server::{CapServer, Closed};
pub use snapshot::{MAX_PASSES, Server};
