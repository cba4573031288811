//! The command that tells which clients of a cluster may make an access.
ghost use Rattle.std.specs.Prelude.{◌≡◌, ◌⊎◌, OnOk, IfOk, IfErr, IfSome, IsFalse};
ghost use Rattle.texts.specs.Watched.{has_ended, has_failed, inner_of};
ghost use Rattle.cli_queries.specs.WhoArgs.{AnswersWhoArgs, StopsWhoArgs};
ghost use Rattle.cli_queries.specs.FileSystems.{AreNamedIn};

use crate::commands::write_text;
use crate::fault::AnswerFault;
use crate::file_systems::fs_asked;
use crate::status::{DONE, FOUND, judged_status};
use capspec::FsName;
use ceph_input::read_auth;
use queries::{Attempt, AttemptValues, Telling, who_lines};
use release_rules::Release;
use std::alloc::Global;
use std::io::{Read, Write};
use texts::{Watched, read_script};

/// What `who` is asked.
pub struct WhoArgs {
    /// The values of the words and options.
    pub values: AttemptValues,
    /// The name of the file of the auth list, or `-` for standard input.
    pub auth: Vec<u8>,
    /// How each client is written.
    pub telling: Telling,
    /// The file systems that grants of the list name; none until `who` has read it.
    pub named: Vec<FsName>,
    /// The release by whose rules is answered; this server's where there is none.
    pub mds: Option<Release>,
}

// Not derived: so the proof of a function that drops one has a single call there.
impl Drop for WhoArgs {
    fn drop(self) {
        let WhoArgs {
            values: _,
            auth: _,
            telling: _,
            named: _,
            mds: _,
        } = self;
    }
}

/// Writes a line for each client of the auth list that the reader has, and for each other entity with grants for the MDS; and says by the status
/// whether all of them could be judged. What file systems the list names is kept in `who_args`.
pub fn who<R: Read, W: Write>(
    alloc: Global,
    who_args: &mut WhoArgs,
    reader: &mut Watched<R>,
    writer: &mut Watched<W>,
) -> Result<u8, AnswerFault>
    requires reader_clear { IsFalse (has_failed reader.old) }
    requires reader_unended { IsFalse (has_ended reader.old) }
    requires writer_clear { IsFalse (has_failed writer.old) }
    ensures status { IfOk result (λ status. (status ≡ DONE) ⊎ (status ≡ FOUND)) }
    ensures ok { OnOk result (IsFalse (has_failed reader.new) × IsFalse (has_failed writer.new)) }
    ensures kept { who_args.new.values.fs ≡ who_args.old.values.fs }
    ensures named { OnOk result (IfSome (R.remaining (inner_of reader.old)) (λ auth. AreNamedIn auth who_args.new.named.items)) }
    ensures reported { IfOk result (λ status. AnswersWhoArgs who_args.old (R.remaining (inner_of reader.old)) status
        (W.contents (inner_of writer.old)) (W.contents (inner_of writer.new))) }
    ensures err { IfErr result (λ fault. StopsWhoArgs who_args.old fault (R.remaining (inner_of reader.old))
        (has_failed reader.new) (has_failed writer.new) (W.contents (inner_of writer.old)) (W.contents (inner_of writer.new))) }
{
    let attempt = Attempt::read(alloc, &who_args.values)?;
    let auth = read_script(alloc, reader)?;
    let list = read_auth(alloc, auth.as_slice())?;
    who_args.named = list.fs_names(alloc)?;
    let fs = fs_asked(who_args.named.as_slice(), &attempt.fs)?;
    let answer = who_lines(alloc, &list, &fs, &attempt, who_args.mds, who_args.telling)?;
    let status = judged_status(answer.judges_all);
    write_text(answer.lines.as_slice(), status, writer)
}
