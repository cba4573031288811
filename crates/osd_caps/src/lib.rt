//! The OSD caps of a Ceph client: their text read into the grants that it means, and whether these let the client read or write
//! objects of a pool and a namespace.
//!
//! Public source: "User Management", "Authorization (Capabilities)", in the Ceph documentation.
#![tactic(auto)]

mod access;
mod bytes;
mod calls;
mod fault;
mod grant;
mod keys;
mod laws;
mod reading;
mod rights;
mod scope;
mod scopes;
mod tag_reading;
mod tags;
mod word;
mod words;

pub use access::{Access, Profile, Right, Rights};
pub use fault::{OsdFault, OsdFaultKind};
pub use grant::{OsdCaps, OsdGrant};
pub use laws::no_name_is_every_name;
pub use reading::read_osd_caps;
pub use scope::{NamespaceRule, Scope, Tag, TagPart};
pub use tags::{Application, Pair};
pub use word::Word;
