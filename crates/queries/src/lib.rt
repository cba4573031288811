//! Questions about the grants of a CephFS client: whether they let a caller make an access to an inode, by the rules of this server or by
//! those of the MDS of a release, how two texts of grants differ, what is found in one, and what the checks in the log of an MDS asked.
//! What grants are is said by "CephFS client capabilities" in the Ceph documentation.
//!
//! A question is read from the values of options, each as the bytes that stand on a command line, and is answered in lines.
//! What reads a command line takes text, so bytes are spelled as text here, and spelled back.
#![tactic(auto)]

mod any_path;
mod attempt;
mod before;
mod check;
mod clients;
mod clients_by;
mod comparing;
mod comparing_by;
mod comparing_more;
mod cuts;
mod fault;
mod grant_text;
mod kinds;
mod laws;
mod line_counts;
mod linting;
mod lists;
mod log_by;
mod log_laws;
mod log_scope;
mod log_text;
mod mask;
mod mds;
mod mds_words;
mod modes;
mod options;
mod question;
mod remarks;
mod told;
mod values;
mod words;

pub use attempt::{Attempt, AttemptValues, AttrValues, read_given_fs};
pub use clients::{Telling, WhoAnswer, who_lines};
pub use comparing::{CompareFault, compare};
pub use comparing_by::{MdsCompareFault, Uncompared, compare_by};
pub use fault::QuestionFault;
pub use linting::{lint_by, lint_text};
pub use log_scope::LogScope;
pub use log_text::LogTeller;
pub use mds::{MdsAnswer, MdsAsking, MdsFault, NotRead, mds_grants};
pub use options::Opt;
pub use question::{Question, Values};
pub use words::{spell, spelled};
