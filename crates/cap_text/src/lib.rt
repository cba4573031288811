//! The set of caps of which a text is the one text.
#![tactic(auto)]

mod reader;

pub use reader::{CapText, read_caps};
