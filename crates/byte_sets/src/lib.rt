//! Sets of bytes by which texts of capabilities are cut, and the longest front of a text that one of them allows.
#![tactic(auto)]

mod sets;

pub use sets::{ByteSet, split_bare_path, split_while};
