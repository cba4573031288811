//! Grant texts: what `ceph fs authorize` writes, read into the grants that it means, and written from them; with the flags of a
//! grant and the names of a path, by which the rules of policy go.
//!
//! Public source: "CephFS Client Capabilities" in the Ceph documentation.
#![tactic(auto)]

mod bytes;
mod draft;
mod fault;
mod flags;
mod fsname;
mod gids;
mod grant;
mod items;
mod kept;
mod laws;
mod measure;
mod names;
mod path;
mod reading;
mod shared_prefix;
mod tree_path;
mod values;
mod writing;

pub use fault::{SpecFault, SpecFaultKind};
pub use flags::Flags4;
pub use fsname::FsName;
pub use gids::Gids;
pub use grant::{Grant, Grants};
pub use items::Key;
pub use kept::KeptGrants;
pub use laws::{
    fault_where_nothing_reads, no_fault_where_it_reads, one_fault, one_list_of_grants,
    the_written_form_reads,
};
pub use names::is_same_by_pairs;
pub use reading::read_grants;
pub use shared_prefix::SharedPrefix;
pub use tree_path::TreePath;
pub use writing::write_grants;
