//! The small types that every crate of the server speaks of: the numbers that name clients and inodes, a caller
//! with its groups, a file mode, the caps and sets of them with their one text, and the numbers that a text writes; texts that
//! are made piece by piece, of words, numbers, sets of caps, and what values print; and a map from numbers to values, whose values
//! stand in rows side by side, where most are found without a search.
#![tactic(auto)]

mod appending;
mod bits;
mod caller;
mod cap;
mod change_error;
mod guesses;
mod ids;
mod laws;
mod mode;
mod numbered;
mod numbers;
mod refusal;
mod rows;
mod set;
mod text;

pub use appending::{print, print_caps, print_number, print_numbered, print_str};
pub use caller::{Caller, Groups, MAX_GROUPS, TooManyGroups};
pub use cap::{Cap, Part};
pub use change_error::ChangeError;
pub use ids::{ClientId, Ino, PassId, Ticket};
pub use laws::{one_part_for_a_cap, one_set_for_a_text};
pub use mode::{MAX_MODE, Mode};
pub use numbered::Numbered;
pub use numbers::{read_mode, read_u32, read_u64};
pub use refusal::Refusal;
pub use rows::trim;
pub use set::CapSet;
pub use text::{CapBytes, MAX_CAP_BYTES, write_caps};
