//! One set of nodes, each for one client on one inode, and three lists of them at once: the nodes of an inode, the nodes
//! of a client, and all nodes in the order of recall.
#![tactic(auto)]

mod chain;
mod heads;
mod laws;
mod link;
mod lists;
mod moves;
mod nodes;

pub use laws::the_order_of_recall_has_each_node;
pub use link::{Link, LinkWrites};
pub use lists::{MAX_NODES, TripleLists};
pub use nodes::Node;
