//! Grants of a client (MDS auth caps) as the MDS of three releases of Ceph has them, each as it is: which texts it reads, with which directory and
//! network, and in which form a text of this server's grants is one of theirs.
//!
//! Public source: "CephFS Client Capabilities" in the Ceph documentation. The rest was asked of the programs.
#![tactic(auto)]

mod bytes;
mod flags;
mod forms;
mod grant;
mod items;
mod network;
mod paths;
mod reading;
mod switches;
mod writing;

pub use flags::Flags;
pub use forms::{NoForm, mds_form};
pub use grant::{GidList, Grant, Grants, Text};
pub use network::{InNetwork, in_network, read_address, writes_network};
pub use paths::{directory_of, lies_in, path_text, without_first_slashes};
pub use reading::{Unread, read_grants};
pub use switches::Switches;
