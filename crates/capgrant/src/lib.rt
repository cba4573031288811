//! Who may do what: the grants of a client judged against an inode, by eleven rules tested in order.
#![tactic(auto)]

mod access;
mod answer;
mod class;
mod gids;
mod policy;
mod question;
mod rule;
mod rules;

pub use access::{Access, Attr};
pub use answer::Verdict;
pub use class::Class;
pub use policy::{caps_for, permitted, permitted_by_kept, readers_caps, verdict, writers_caps};
pub use question::Question;
pub use rule::Rule;
pub use rules::Rules;
