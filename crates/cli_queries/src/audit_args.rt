//! The command that tells what clients of a running cluster hold and may not.
ghost use Rattle.std.specs.Prelude.{◌≡◌, ◌⊎◌, OnOk, IfOk, IfErr, IsFalse, if◌then◌else◌};
ghost use Rattle.texts.specs.Watched.{has_ended, has_failed, inner_of};
ghost use Rattle.cli_queries.specs.AuditArgs.{AnswersAuditArgs, StopsAuditArgs};
ghost use Rattle.cli_queries.specs.FileSystems.{AreNamedIn};

use crate::commands::write_text;
use crate::fault::AnswerFault;
use crate::file_systems::fs_asked;
use crate::read_tree::read_tree;
use crate::status::{DONE, FOUND};
use capspec::FsName;
use cluster_audit::{ClusterClients, Manner, audit_report};
use queries::read_given_fs;
use std::alloc::Global;
use std::io::{Read, Write};
use texts::Watched;

/// What `audit` is asked.
pub struct AuditArgs {
    /// In which detail and shape the findings are written.
    pub manner: Manner,
    /// The name of the file system, if it is given.
    pub fs: Option<Vec<u8>>,
    /// The names of the files in which the texts of the cluster stand.
    pub files: ClusterFiles,
    /// The text of the auth list, of no byte until `gather` has read it.
    pub auth: Vec<u8>,
    /// The text of the sessions, of no byte until `gather` has read it.
    pub sessions: Vec<u8>,
    /// The file systems that grants of the auth list name; none until `audit` has looked for them.
    pub named: Vec<FsName>,
}

// Not derived: so the proof of a function that drops one has a single call there.
impl Drop for AuditArgs {
    fn drop(self) {
        let AuditArgs {
            manner: _,
            fs: _,
            files: _,
            auth: _,
            sessions: _,
            named: _,
        } = self;
    }
}

/// The names of the files in which the texts of a cluster stand.
pub struct ClusterFiles {
    /// The name of the file of the auth list.
    pub auth: Vec<u8>,
    /// The name of the file of the sessions.
    pub sessions: Vec<u8>,
    /// The name of the file of the tree, or `-` for standard input.
    pub tree: Vec<u8>,
}

// Not derived: so the proof of a function that drops one has a single call there.
impl Drop for ClusterFiles {
    fn drop(self) {
        let ClusterFiles {
            auth: _,
            sessions: _,
            tree: _,
        } = self;
    }
}

/// Writes what clients hold and may not by the tree that the reader has, what could not be judged, and a line that sums it up, and says
/// by the status whether there is any of either. What file systems the auth list names is kept in `audit_args`.
pub fn audit<R: Read, W: Write>(
    alloc: Global,
    audit_args: &mut AuditArgs,
    reader: &mut Watched<R>,
    writer: &mut Watched<W>,
) -> Result<u8, AnswerFault>
    requires reader_clear { IsFalse (has_failed reader.old) }
    requires reader_unended { IsFalse (has_ended reader.old) }
    requires writer_clear { IsFalse (has_failed writer.old) }
    ensures status { IfOk result (λ status. (status ≡ DONE) ⊎ (status ≡ FOUND)) }
    ensures ok { OnOk result (IsFalse (has_failed reader.new) × IsFalse (has_failed writer.new)) }
    ensures kept { audit_args.new.fs ≡ audit_args.old.fs }
    ensures named { OnOk result (AreNamedIn audit_args.old.auth.items audit_args.new.named.items) }
    ensures reported { IfOk result (λ status. AnswersAuditArgs audit_args.old (R.remaining (inner_of reader.old)) status
        (W.contents (inner_of writer.old)) (W.contents (inner_of writer.new))) }
    ensures err { IfErr result (λ fault. StopsAuditArgs audit_args.old fault (R.remaining (inner_of reader.old))
        (has_failed reader.new) (has_failed writer.new) (W.contents (inner_of writer.old)) (W.contents (inner_of writer.new))) }
{
    let given = read_given_fs(&audit_args.fs)?;
    let clients = ClusterClients::read(
        alloc,
        audit_args.auth.as_slice(),
        audit_args.sessions.as_slice(),
    )?;
    audit_args.named = clients.fs_names(alloc)?;
    let fs = fs_asked(audit_args.named.as_slice(), &given)?;
    let tree = read_tree(alloc, reader)?;
    let report = audit_report(alloc, audit_args.manner, &fs, &clients, &tree)?;
    let status = found_status(report.found);
    let text = report.text.as_slice();
    write_text(text, status, writer)
}

// The status that tells whether anything was found or could not be judged.
fn found_status(found: bool) -> u8
    ensures reported { result ≡ (if found then 3 else 0) }
    ensures either { (result ≡ DONE) ⊎ (result ≡ FOUND) }
{
    if found { FOUND } else { DONE }
}
