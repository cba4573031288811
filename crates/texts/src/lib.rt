//! Texts beside the core. How they are read and written: lines, whole texts from a stream, and streams that remember whether they
//! failed. What small values look like: a path in quotes, a mode, bytes. And what is answered to questions of policy, in lines and as
//! JSON objects, of which each is a line: what was decided about an access and why, what grants gained and lost, what is found in them,
//! what a client may.
//!
//! Public source: "CephFS Client Capabilities" in the Ceph documentation; RFC 8259, "The JavaScript Object Notation (JSON) Data
//! Interchange Format".
#![tactic(auto)]

mod access;
mod compare_object;
mod compare_text;
mod explain_more;
mod explain_object;
mod explain_text;
mod fault;
mod input;
mod json_laws;
mod laws;
mod line_text;
mod lines;
mod lint_object;
mod lint_text;
mod mds_answer;
mod mds_asked;
mod mds_change;
mod mds_text;
mod part_text;
mod question_object;
mod quoting;
mod shape;
mod table;
mod verdict_object;
mod watched;
mod who_mds;
mod who_object;
mod who_text;

pub use access::read_access;
pub use compare_object::change_objects;
pub use compare_text::comparison_lines;
pub use explain_more::beside_lines;
pub use explain_object::answer_object;
pub use explain_text::{explain_line, print_failures, print_path, print_reason};
pub use fault::{LineFault, ScriptFault};
pub use input::{MAX_SCRIPT, read_script, write_text};
pub use laws::{one_answer_for_a_line, one_text_for_what_is_quoted};
pub use line_text::{Text, print_texts};
pub use lines::split_line;
pub use lint_object::{print_finding_object, print_odd_object, print_refusal_object};
pub use lint_text::{print_finding, print_odd, print_refusal};
pub use mds_answer::{MdsSaid, failures_piece, grant_piece, mds_object, mds_word};
pub use mds_asked::MdsAccess;
pub use mds_change::{Networks, mds_changes};
pub use mds_text::{mds_lines, mds_outcome, print_mds_failures, print_mds_reason, print_others};
pub use part_text::{print_bytes, print_groups, print_mode};
pub use quoting::{print_quoted, print_quoted_path};
pub use shape::Shape;
pub use table::{Piece, print_pieces};
pub use watched::Watched;
pub use who_mds::{
    print_mds_standing, print_mds_standing_object, print_mds_unread, print_mds_unread_object,
};
pub use who_object::{print_standing_object, print_unread_object};
pub use who_text::{fault_word, print_standing, print_standing_others, print_unread};
